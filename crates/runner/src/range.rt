// What is met before a call: refusals 12, 10, 46 and 11, and 2 of one that names a stream.
ghost use Rattle.std.specs.Prelude.{◌≡◌, leb, length, true};
ghost use Rattle.inbox.specs.Need.{length_need};
ghost use Rattle.runner.specs.Range.{last_turn, in_range, stop, stop_at};
ghost use Rattle.runner.specs.RangeLaws.{unopened, stopped, stopped_at, stop_if, stands, agrees};
ghost use Rattle.exec.specs.Key.{admits};
ghost use Rattle.runner.specs.Calls.{Called, Hears, Notes};

use crate::answer::After;
use crate::pairs::credits_fit;
use crate::runner::Runner;
use exec::{Admission, Key, Limits, Receipt, Refusal, Stream};
use inbox::need::need_fits;
use inbox::receiver::grant_fits;

// The position of the last stream that is open.
fn last_turn(limits: Limits) -> u8
    ensures { result ≡ last_turn limits }
{
    if limits.has_notes() { 2 } else { 1 }
}

// Whether a length store of so many lengths does.
pub(crate) fn lengths_do(limits: Limits, lengths: usize) -> bool
    ensures { result ≡ leb (length_need limits) lengths }
{
    inbox::need::length_need(limits) <= lengths
}

// Which of 10, 46 and 11, of an open that meets one.
pub(crate) fn unopened(limits: Limits, smallest: u32) -> Refusal
    ensures { result ≡ unopened limits smallest }
{
    let granting = if grant_fits(smallest, limits.input.size) {
        Refusal::StoreShort
    } else {
        Refusal::SmallestGrant
    };
    if limits.is_valid() {
        granting
    } else {
        Refusal::NoLimits
    }
}

impl Runner {
    // Whether queues, starts, credit, units and turn are in their ranges.
    #[tactic(auto, unfolding(crate::specs::Range::in_range))]
    pub(crate) fn in_range(self) -> bool
        ensures { result ≡ in_range self }
    {
        let first = self.credits[0];
        let second = self.credits[1];
        let third = self.credits[2];
        ((output::outputs::fit(self.outputs_of(), self.limits.chunk)
            & credits_fit(self.limits, first, second, third))
            & self.input.inbox.fits(self.limits, self.input.window))
            & (self.turn <= last_turn(self.limits))
    }

    // Whether none of the four is met, given whether the lent stores do, in two halves that each call asks with `&`: the inbox, the
    // limits, the smallest grant and the stores; and the outputs, the accounts and the turn, for limits that are valid. One function of both would be too
    // large for the compiler to make it a part of every call, and would copy the runner for each. The inbox comes first: its test
    // goes by the unit, and what was tested before it would have to be kept over the branch.
    #[tactic(auto, unfolding(crate::specs::RangeLaws::agrees))]
    pub(crate) fn agrees(self, stores: bool) -> bool
        ensures { result ≡ agrees self stores }
    {
        let limits = self.limits;
        let input = self.input;
        let inbox = input.inbox;
        let window = input.window;
        (inbox.within(limits, window) & limits.is_valid())
            & (grant_fits(window.smallest, limits.input.size) & (need_fits(limits) & stores))
    }

    #[tactic(auto, unfolding(crate::specs::RangeLaws::stands))]
    pub(crate) fn stands(self) -> bool
        ensures { result ≡ stands self }
    {
        let limits = self.limits;
        let outputs = self.outputs_of();
        let first = self.credits[0];
        let second = self.credits[1];
        let third = self.credits[2];
        (output::outputs::within(outputs, limits.chunk) & credits_fit(limits, first, second, third))
            & (self.turn <= last_turn(limits))
    }

    // Which of the four, of a call that meets one. Made a part of each call: where it stood alone the runner would be copied for it.
    #[tactic(auto, unfolding(crate::specs::RangeLaws::stopped))]
    #[inline(always)]
    pub(crate) fn stopped(self) -> Refusal
        ensures { result ≡ stopped self }
    {
        if self.in_range() {
            return unopened(self.limits, self.input.window.smallest);
        }
        Refusal::StateOutOfRange
    }

    // What a call meets, given whether the lent stores do. Made a part of each call, so that one that is not refused copies nothing.
    #[tactic(auto, unfolding(crate::specs::RangeLaws::stop_if), using(crate::proofs::Guards::tested_stop))]
    #[inline(always)]
    pub(crate) fn check(self, stores: bool) -> Result<(), Refusal>
        ensures { result ≡ stop self stores }
    {
        if self.agrees(stores) & self.stands() {
            return Ok(());
        }
        Err(self.stopped())
    }

    // What a call that names a stream meets: the same, and then a stream that is not open.
    #[tactic(auto, unfolding(crate::specs::Range::stop_at))]
    #[inline(always)]
    pub(crate) fn check_at(self, stream: Stream, stores: bool) -> Result<(), Refusal>
        ensures { result ≡ stop_at self stream stores }
    {
        self.check(stores)?;
        if self.limits.has(stream) {
            return Ok(());
        }
        Err(Refusal::Pool)
    }

    // Which refusal, of such a call that meets one, given whether it meets none of the four.
    #[inline(always)]
    pub(crate) fn stopped_at(self, good: bool) -> Refusal
        ensures { result ≡ stopped_at good self }
    {
        if good {
            return Refusal::Pool;
        }
        self.stopped()
    }

    // The same, given whether it meets none of the four: of a call that changes the runner in place. `answer` and `meets` test that
    // themselves, as a `reply` with more callers is no part of each (a tick takes 160 instructions so, and 218 by `?`).
    #[tactic(auto, unfolding(crate::specs::RangeLaws::stop_if))]
    pub(crate) fn reply(self, good: bool) -> Result<(), Refusal>
        ensures { result ≡ stop_if good self }
    {
        if good {
            return Ok(());
        }
        Err(self.stopped())
    }

    // A call: what it leaves and answers, unless it is refused by what it met.
    pub(crate) fn call<T, F: FnOnce(Runner) -> After<T>>(
        self,
        met: Result<(), Refusal>,
        next: F,
    ) -> After<T>
        requires { F.IsAlwaysCallable next }
        ensures { Called (F.post next self) met self result }
    {
        match met {
            Ok(()) => next(self),
            Err(refusal) => After {
                runner: self,
                answer: Err(refusal),
            },
        }
    }

    // A call with no result: what it does to the runner.
    pub(crate) fn note<F: FnOnce(Runner) -> Runner>(
        self,
        met: Result<(), Refusal>,
        next: F,
    ) -> After<()>
        requires { F.IsAlwaysCallable next }
        ensures { Notes (F.post next self) met self result }
    {
        self.call(
            met,
            |runner| After {
                runner: next(runner),
                answer: Ok(()),
            },
        )
    }

    // A message of the peer's: what it does under the execution's own key.
    pub(crate) fn hear<F: FnOnce(Runner) -> After<Receipt>>(
        self,
        key: Key,
        next: F,
    ) -> After<Receipt>
        requires { F.IsAlwaysCallable next }
        ensures { Called (Hears (F.post next self) (admits self.key key) self) (stop self true) self result }
    {
        self.call(self.check(true), |runner| match runner.key.admits(key) {
            Ok(Admission::Own) => next(runner),
            Ok(Admission::Stale) => After {
                runner,
                answer: Ok(Receipt::Stale),
            },
            Err(refusal) => After {
                runner,
                answer: Err(refusal),
            },
        })
    }
}
