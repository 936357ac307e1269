// The runner in time: terminations, the timers and what they do, launch, exit and settlement. A step that is taken only at times
// tests that by an `if` of its own: it is the plainest form, and each step has a definition to stand beside.
ghost use Rattle.std.specs.Prelude.{◌≡◌, true};
ghost use Rattle.runner.specs.Calls.{noting};
ghost use Rattle.runner.specs.Range.{stop};
ghost use Rattle.runner.specs.Life.{
  awaits_launch,
  is_cleaned_up,
  close_runner_input,
  end_grace,
  give_up,
  abandon_launch,
  abandon_open_streams,
  begin_termination,
  pass_grace,
  terminate,
  pass_timeout,
  pass_settlement,
  give_up_unless_clean,
  pass_give_up,
  drop_launch,
  drop_streams,
  pass_abandonment,
  fire,
  any_due,
  ticked,
  deadline_of,
  cancelled,
  note_started,
  note_launch,
  launched_next,
  note_exit,
  is_over,
  note_exit_once,
  timeout_cleared,
  exited_next,
  settled_next,
  silenced,
  give_up_soon,
  cut_off,
  cut_off_once,
  detach_next,
  is_ready,
  outcome_of,
};

use crate::answer::After;
use crate::runner::Runner;
use exec::{
    Admission, Cause, LaunchFailure, Outcome, Receipt, Refusal, Settlement, Status, deadline,
};
use lifecycle::life::{Launch, Settling};
use output::outputs::{all_closed, all_delivered, any_held, each};

impl Runner {
    // Whether the launch result is still waited for.
    pub(crate) fn awaits_launch(self) -> bool
        ensures { result ≡ awaits_launch self }
    {
        (!self.life.launch.is_known() & !self.flags.gave_up) & !self.flags.launch_abandoned
    }

    // Whether nothing is left to give up on but the delivery of the last messages.
    fn is_cleaned_up(self) -> bool
        ensures { result ≡ is_cleaned_up self }
    {
        ((self.life.launch.is_known() & self.life.exit.is_known()) & all_closed(self.outputs_of()))
            & self.life.settling.is_settled()
    }

    // The workload's input closed, other than by the runner's request.
    #[tactic(auto, unfolding(crate::specs::Life::close_runner_input))]
    pub(crate) fn close_input(mut self) -> Runner
        ensures { result ≡ close_runner_input self }
    {
        self.input = self.input.close(self.flags.detached);
        self
    }

    // Ends the grace of pending output.
    #[tactic(auto, unfolding(crate::specs::Life::end_grace))]
    fn end_grace(mut self) -> Runner
        ensures { result ≡ end_grace self }
    {
        self.clocks.grace_until = None;
        let outputs = each(
            self.limits.has_notes(),
            self.outputs,
            |output| output.end_grace(),
        );
        self.outputs = outputs;
        self
    }

    // Gives up on the execution after a termination.
    #[tactic(auto, unfolding(crate::specs::Life::give_up))]
    fn give_up(mut self) -> Runner
        ensures { result ≡ give_up self }
    {
        self.clocks = self.clocks.stop_waiting();
        let outputs = each(
            self.limits.has_notes(),
            self.outputs,
            |output| output.give_up(),
        );
        self.outputs = outputs;
        self.life = self.life.give_up();
        self.flags.gave_up = true;
        self.flags.settle_request = false;
        self
    }

    // Gives up on the launch result, and fences the execution.
    #[tactic(auto, unfolding(crate::specs::Life::abandon_launch))]
    fn abandon_launch(mut self) -> Runner
        ensures { result ≡ abandon_launch self }
    {
        self.life.settling = Settling::Fenced;
        self.flags.launch_abandoned = true;
        self
    }

    // Gives up on the streams that neither closed nor hung up.
    #[tactic(auto, unfolding(crate::specs::Life::abandon_open_streams))]
    fn abandon_open_streams(mut self) -> Runner
        ensures { result ≡ abandon_open_streams self }
    {
        self.clocks.abandon_at = None;
        let outputs = each(
            self.limits.has_notes(),
            self.outputs,
            |output| output.abandon(),
        );
        self.outputs = outputs;
        self
    }

    #[tactic(auto, unfolding(crate::specs::Life::begin_termination))]
    fn begin_termination(mut self, now: u64, cause: Cause) -> Runner
        ensures { result ≡ begin_termination self now cause }
    {
        self.clocks = self
            .clocks
            .terminate(now, self.timers.grace, self.timers.settlement);
        self.life = self.life.end_for(cause);
        self.input = self.input.close(self.flags.detached);
        self
    }

    // Ends the workload if it still runs, and begins the grace of pending output, unless a termination began already.
    #[tactic(auto, unfolding(crate::specs::Life::terminate))]
    pub(crate) fn terminate(self, now: u64, cause: Cause) -> Runner
        ensures { result ≡ terminate self now cause }
    {
        if self.clocks.terminated {
            return self;
        }
        let r = self.begin_termination(now, cause);
        r.pass_grace(now)
    }

    // The timers, each if it is due.

    #[tactic(auto, unfolding(crate::specs::Life::pass_timeout))]
    fn pass_timeout(mut self, now: u64) -> Runner
        ensures { result ≡ pass_timeout self now }
    {
        if deadline::due(self.clocks.timeout_at, now) {
            self.clocks.timeout_at = None;
            return self.terminate(now, Cause::TimedOut);
        }
        self
    }

    #[tactic(auto, unfolding(crate::specs::Life::pass_grace))]
    fn pass_grace(self, now: u64) -> Runner
        ensures { result ≡ pass_grace self now }
    {
        if deadline::due(self.clocks.grace_until, now) {
            return self.end_grace();
        }
        self
    }

    #[tactic(auto, unfolding(crate::specs::Life::pass_settlement))]
    fn pass_settlement(mut self, now: u64) -> Runner
        ensures { result ≡ pass_settlement self now }
    {
        self.life = self.life.expire(now);
        self
    }

    #[tactic(auto, unfolding(crate::specs::Life::pass_give_up))]
    fn pass_give_up(self, now: u64) -> Runner
        ensures { result ≡ pass_give_up self now }
    {
        if deadline::due(self.clocks.give_up_at, now) {
            return self.give_up_unless_clean();
        }
        self
    }

    #[tactic(auto, unfolding(crate::specs::Life::give_up_unless_clean))]
    fn give_up_unless_clean(mut self) -> Runner
        ensures { result ≡ give_up_unless_clean self }
    {
        if self.is_cleaned_up() {
            self.clocks.give_up_at = None;
            return self;
        }
        self.give_up()
    }

    #[tactic(auto, unfolding(crate::specs::Life::drop_launch))]
    fn drop_launch(self) -> Runner
        ensures { result ≡ drop_launch self }
    {
        if self.awaits_launch() {
            return self.abandon_launch();
        }
        self
    }

    #[tactic(auto, unfolding(crate::specs::Life::drop_streams))]
    fn drop_streams(self) -> Runner
        ensures { result ≡ drop_streams self }
    {
        if self.life.settling.is_fenced() {
            return self.abandon_open_streams();
        }
        self
    }

    #[tactic(auto, unfolding(crate::specs::Life::pass_abandonment))]
    fn pass_abandonment(self, now: u64) -> Runner
        ensures { result ≡ pass_abandonment self now }
    {
        if deadline::due(self.clocks.abandon_at, now) {
            let r = self.drop_launch();
            return r.drop_streams();
        }
        self
    }

    // The timers in their order. Several calls share it, so that it is not made a part of each, and a call with nothing due
    // does not enter it.
    #[tactic(auto, unfolding(crate::specs::Life::fire))]
    pub(crate) fn fire(self, now: u64) -> Runner
        ensures { result ≡ fire self now }
    {
        let a = self.pass_timeout(now);
        let b = a.pass_grace(now);
        let c = b.pass_settlement(now);
        let d = c.pass_give_up(now);
        d.pass_abandonment(now)
    }

    // Whether a tick has something to do. It copies nothing, so it is asked before the runner is handed on.
    pub(crate) fn any_due(self, now: u64) -> bool
        ensures { result ≡ any_due self now }
    {
        !self.flags.finished & (self.clocks.due(now) | self.life.settling.late(now))
    }

    // The tick that comes first in a call. It is small, as `fire` stands outside of it.
    #[tactic(auto, using(crate::proofs::Quiet::ticked_is))]
    fn ticked(self, now: u64) -> Runner
        ensures { result ≡ ticked self now }
    {
        if self.any_due(now) {
            return self.fire(now);
        }
        self
    }

    #[tactic(auto, unfolding(crate::specs::Life::deadline_of))]
    pub(crate) fn deadline_of(self) -> Option<u64>
        ensures { result ≡ deadline_of self }
    {
        if self.flags.finished {
            return None;
        }
        let clean = self.is_cleaned_up();
        let waits = self.awaits_launch();
        let held = any_held(self.outputs_of());
        self.clocks.first(
            self.life.settling.by(),
            !clean,
            waits | (self.life.settling.is_fenced() & held),
        )
    }

    // The peer's cancellation. The tick comes first, also where the answer is Late.
    #[tactic(auto, unfolding(crate::specs::Life::cancelled))]
    pub(crate) fn cancel_now(self, now: u64, cause: Cause) -> After<Receipt>
        ensures { result ≡ cancelled (ticked self now) now cause }
    {
        let runner = self.ticked(now);
        if runner.flags.finished | runner.clocks.terminated {
            return After {
                runner,
                answer: Ok(Receipt::Late),
            };
        }
        After {
            runner: runner.terminate(now, cause),
            answer: Ok(Receipt::Applied),
        }
    }

    // The launch result.
    #[tactic(auto, unfolding(crate::specs::Life::launched_next))]
    pub(crate) fn launch(self, report: Result<(), LaunchFailure>) -> Runner
        ensures { result ≡ launched_next self report }
    {
        if self.awaits_launch() {
            return self.note_launch(report);
        }
        self
    }

    #[tactic(auto, unfolding(crate::specs::Life::note_launch))]
    fn note_launch(mut self, report: Result<(), LaunchFailure>) -> Runner
        ensures { result ≡ note_launch self report }
    {
        match report {
            Ok(()) => self.note_started(),
            Err(failure) => {
                self.life.launch = Launch::Failed(failure);
                self.close_input()
            }
        }
    }

    #[tactic(auto, unfolding(crate::specs::Life::note_started))]
    fn note_started(mut self) -> Runner
        ensures { result ≡ note_started self }
    {
        self.life.launch = Launch::Started;
        self.flags.started_message = !self.flags.detached;
        self
    }

    // The workload's end.
    #[tactic(auto, unfolding(crate::specs::Life::exited_next))]
    pub(crate) fn exit(self, now: u64, status: Option<Status>) -> Runner
        ensures { result ≡ exited_next self now status }
    {
        let a = self.clear_timeout();
        let b = a.ticked(now);
        b.note_exit_once(now, status)
    }

    #[tactic(auto, unfolding(crate::specs::Life::note_exit_once))]
    fn note_exit_once(self, now: u64, status: Option<Status>) -> Runner
        ensures { result ≡ note_exit_once self now status }
    {
        if self.is_over() {
            return self;
        }
        self.note_exit(now, status)
    }

    // Whether the exit is known, or the runner gave up on it.
    fn is_over(self) -> bool
        ensures { result ≡ is_over self }
    {
        self.life.exit.is_known() | self.flags.gave_up
    }

    #[tactic(auto, unfolding(crate::specs::Life::note_exit))]
    fn note_exit(mut self, now: u64, status: Option<Status>) -> Runner
        ensures { result ≡ note_exit self now status }
    {
        let settlement = deadline::after(now, self.timers.settlement);
        self.clocks.abandon_at = deadline::then(settlement, self.timers.grace);
        self.life = self.life.end_with(status, settlement);
        self.flags.settle_request = true;
        self.close_input()
    }

    // The timeout fires no more.
    fn clear_timeout(mut self) -> Runner
        ensures { result ≡ timeout_cleared self }
    {
        self.clocks.timeout_at = None;
        self
    }

    // The result of the settlement, if one is awaited.
    #[tactic(auto, unfolding(crate::specs::Life::settled_next))]
    pub(crate) fn settle(mut self, report: Settlement) -> Runner
        ensures { result ≡ settled_next self report }
    {
        self.life = self.life.settle(report);
        self
    }

    // Detaches the runner from the peer. (`now` and `cause` are a call's own words.)
    #[tactic(auto, unfolding(crate::specs::Life::detach_next))]
    pub(crate) fn detach(self, now: u64, cause: Cause) -> Runner
        ensures { result ≡ detach_next self now cause }
    {
        let r = self.ticked(now);
        r.cut_off_once(now, cause)
    }

    // The same as a call. (No closure is told it: `detach` stands alone, and the runner would be copied once more on the way there and back.)
    #[tactic(auto, using(crate::proofs::Guards::tested_stop))]
    #[inline(always)]
    pub(crate) fn detached(self, now: u64, cause: Cause) -> After<()>
        ensures { result ≡ noting (stop self true) (detach_next self now cause) self }
    {
        if self.agrees(true) & self.stands() {
            return After {
                runner: self.detach(now, cause),
                answer: Ok(()),
            };
        }
        After {
            runner: self,
            answer: Err(self.stopped()),
        }
    }

    #[tactic(auto, unfolding(crate::specs::Life::cut_off_once))]
    fn cut_off_once(self, now: u64, cause: Cause) -> Runner
        ensures { result ≡ cut_off_once self now cause }
    {
        if self.flags.finished | self.flags.detached {
            return self;
        }
        self.cut_off(now, cause)
    }

    #[tactic(auto, unfolding(crate::specs::Life::cut_off))]
    fn cut_off(self, now: u64, cause: Cause) -> Runner
        ensures { result ≡ cut_off self now cause }
    {
        let a = self.terminate(now, cause);
        let b = a.set_detached();
        let c = b.end_grace();
        c.give_up_soon(now)
    }

    #[tactic(auto, unfolding(crate::specs::Life::silenced))]
    fn set_detached(mut self) -> Runner
        ensures { result ≡ silenced self }
    {
        self.flags.detached = true;
        self.flags.started_message = false;
        self.input = self.input.message_told();
        self
    }

    #[tactic(auto, unfolding(crate::specs::Life::give_up_soon))]
    fn give_up_soon(mut self, now: u64) -> Runner
        ensures { result ≡ give_up_soon self now }
    {
        self.clocks = self.clocks.give_up_by(now, self.timers.settlement);
        self
    }

    // Whether everything that the outcome reports is known.
    #[tactic(auto, unfolding(crate::specs::Life::is_ready))]
    pub(crate) fn is_ready(self) -> bool
        ensures { result ≡ is_ready self }
    {
        let delivered = all_delivered(self.outputs_of(), self.flags.detached);
        let over = self.life.settling.is_settled() | self.life.settling.is_fenced();
        ((!self.awaits_launch() & self.life.exit.is_known()) & delivered) & over
    }

    #[tactic(auto, unfolding(crate::specs::Life::outcome_of))]
    pub(crate) fn outcome(self) -> Outcome
        ensures { result ≡ outcome_of self }
    {
        let [stdout, stderr, notes] = self.outputs_of();
        self.life
            .outcome(stdout.truncated, stderr.truncated, notes.truncated)
    }
}
