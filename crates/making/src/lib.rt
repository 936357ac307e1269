// A call made of a runner, which it changes in place, through the runner's own calls; and its answer.
#![tactic(auto)]

ghost use Rattle.std.specs.Prelude.{◌≡◌, ℕ, List, [], ◌++◌, ◌≤◌, ◌<◌, length, take, drop};
ghost use Rattle.calls.specs.Call as Calls;
ghost use Rattle.account.specs.Step.{answered, waits, answer};
ghost use Rattle.runner.specs.declared.answer.After.{After};
ghost use Rattle.runner.specs.Calls as Runs;
ghost use Rattle.syntax.specs.Lines.{zeros};
ghost use Rattle.syntax.specs.Meaning.{timed_is, question_is, call_is};
ghost use Rattle.answering.specs.Answering.{answer_is, AnswerIs};
ghost use Rattle.making.specs.Making.{state_of, OutputMade, InputMade, MessageMade, Made, Moves, Tells};

use answering::{Answer, IntoAnswer};
use exec::{Key, Pool, Stream};
use ring::copy_in;
use runner::answer::After;
use runner::runner::Runner;
use syntax::{Call, Question, Timed};

// A call that changes the runner, and its answer. Each stands alone (inline(never)), as do all below: as parts of `make` they would
// all be set up for each call.
#[inline(never)]
fn told<T: IntoAnswer, F: FnOnce(Runner) -> After<T>>(runner: &mut Runner, call: F) -> Answer
    requires { F.IsAlwaysCallable call }
    ensures { (after : After T) × F.post call runner.old after × (runner.new ≡ after.runner) × AnswerIs result (λ w. answered (λ x. T.told x w) after.answer) }
{
    let after = call(*runner);
    *runner = after.runner;
    after.answer.into()
}

// ---- the calls that move bytes or credit. Of what they hand back only the parts that they can move are taken over, so that the rest
// is not copied.

#[tactic(auto, unfolding(account::specs::Step::next, account::specs::Step::answer), using(crate::proofs::Kept::credit_kept))]
#[inline(never)]
fn credit(runner: &mut Runner, key: Key, pool: Pool, units: u32) -> Answer
    ensures { Moves runner.old (Calls.credit key pool units) runner.new result }
{
    let hearing = runner.credit(key, pool, units);
    let next = hearing.runner;
    let credits = next.credits;
    runner.credits = credits;
    hearing.answer.into()
}

#[inline(never)]
fn input(
    runner: &mut Runner,
    key: Key,
    n: usize,
    store: &mut [u8],
    lengths: &mut [u32],
    work: &[u8],
) -> Answer
    ensures { InputMade runner.new result store.new lengths.new (Runs.input runner.old key (take n work.now) store.old lengths.old) }
{
    let k = n.min(work.len());
    let hearing = runner.input(key, store, lengths, &work[..k]);
    let next = hearing.runner;
    runner.input = next.input;
    runner.high_water = next.high_water;
    hearing.answer.into()
}

#[inline(never)]
fn output(runner: &mut Runner, stream: Stream, n: usize, store: &mut [u8], work: &[u8]) -> Answer
    ensures { OutputMade runner.new result store.new (Runs.output runner.old stream (take n work.now) store.old) }
{
    let k = n.min(work.len());
    let taking = runner.output(stream, store, &work[..k]);
    let next = taking.runner;
    let outputs = next.outputs;
    runner.outputs = outputs;
    runner.high_water = next.high_water;
    answering::taken(taking.answer)
}

// (The store of bytes is not lent.)
#[tactic(auto, unfolding(account::specs::Step::next, account::specs::Step::answer), using(crate::proofs::Kept::written_kept))]
#[inline(never)]
fn input_written(runner: &mut Runner, lengths: &mut [u32], n: usize) -> Answer
    ensures { (bytes work : List ℕ) → Made (state_of runner.old bytes lengths.old) (Calls.input_written n) runner.new result bytes lengths.new work }
{
    let counting = runner.input_written(lengths, n);
    let next = counting.runner;
    runner.input = next.input;
    answering::came(counting.answer)
}

// n zeros at the start of work.
#[tactic(auto, using(syntax::specs::Zeros::zeros_are))]
pub fn clear(work: &mut [u8], n: usize)
    requires { n ≤ length work.old }
    ensures { work.new ≡ zeros n ++ drop n work.old }
{
    work[..n].fill(0);
}

// The message's bytes are left at the start of work.
#[inline(never)]
fn next_message(runner: &mut Runner, n: usize, store: &[u8], work: &mut [u8]) -> Answer
    requires { n ≤ length work.old }
    ensures { MessageMade runner.new result work.new (Runs.next_message runner.old store.now (zeros n)) }
{
    clear(work, n);
    let saying = runner.next_message(store, &mut work[0..n]);
    let next = saying.runner;
    let outputs = next.outputs;
    let credits = next.credits;
    runner.flags = next.flags;
    runner.input = next.input;
    runner.outputs = outputs;
    runner.credits = credits;
    runner.turn = next.turn;
    saying.answer.into()
}

// Bytes that wait are copied to the start of work.
#[tactic(auto, unfolding(account::specs::Step::answer))]
fn pending_input(runner: Runner, store: &[u8], work: &mut [u8]) -> Answer
    requires { length store.now ≤ length work.old }
    ensures { answer_is result work.new ≡ answer (state_of runner store.now []) Calls.pending_input }
{
    match runner.pending_input(store) {
        Ok(pending) => {
            let n = pending.len();
            copy_in(work, 0, pending, 0, n);
            Answer::Pending(n)
        }
        Err(refusal) => Answer::Refused(refusal.number()),
    }
}

// ---- a call by its kind

#[tactic(auto, unfolding(account::specs::Step::answer))]
#[inline(never)]
fn ask(runner: Runner, question: Question, store: &[u8], work: &mut [u8]) -> Answer
    requires { length store.now ≤ length work.old }
    ensures { Tells runner store.now (question_is question) result work.new }
{
    match question {
        Question::ReadAllowance(stream) => runner.read_allowance(stream).into(),
        Question::PendingInput => pending_input(runner, store, work),
        Question::Deadline => runner.deadline().into(),
        Question::IsFinished => runner.is_finished().into(),
        Question::IsDetached => runner.is_detached().into(),
        Question::AwaitsSettlement => runner.awaits_settlement().into(),
        Question::MemoryBound => runner.memory_bound().into(),
        Question::Buffered => runner.buffered().into(),
        Question::HighWater => runner.high_water().into(),
    }
}

#[tactic(auto, unfolding(account::specs::Step::next, account::specs::Step::answer))]
fn timed(runner: &mut Runner, now: u64, call: Timed) -> Answer
    ensures { Moves runner.old (timed_is now call) runner.new result }
{
    match call {
        Timed::Cancel(key, cause) => told(runner, |r| r.cancel(now, key, cause)),
        Timed::Exited(status) => told(runner, |r| r.exited(now, status)),
        Timed::Dropped => told(runner, |r| r.dropped(now)),
        Timed::Reset => told(runner, |r| r.reset(now)),
        Timed::Disconnect => told(runner, |r| r.disconnect(now)),
        Timed::Tick => told(runner, |r| r.tick(now)),
    }
}

// (The stores are those that the runner was opened with.)
#[tactic(auto, unfolding(account::specs::Step::next, account::specs::Step::answer))]
pub fn make(
    runner: &mut Runner,
    call: Call,
    store: &mut [u8],
    lengths: &mut [u32],
    work: &mut [u8],
) -> Answer
    requires { (length store.old ≤ 65536) × (length work.old ≡ 65536) }
    ensures { Made (state_of runner.old store.old lengths.old) (call_is call work.old) runner.new result store.new lengths.new work.new }
{
    match call {
        Call::Credit(key, pool, units) => credit(runner, key, pool, units),
        Call::Input(key, n) => input(runner, key, n, store, lengths, work),
        Call::EndInput(key) => told(runner, |r| r.end_input(key)),
        Call::Launched(launch) => told(runner, |r| r.launched(launch)),
        Call::Output(stream, n) => output(runner, stream, n, store, work),
        Call::Discarded(stream, n) => told(runner, |r| r.discarded(stream, n)),
        Call::OutputClosed(stream) => told(runner, |r| r.output_closed(stream)),
        Call::OutputFailed(stream) => told(runner, |r| r.output_failed(stream)),
        Call::OutputHungUp(stream) => told(runner, |r| r.output_hung_up(stream)),
        Call::InputWritten(n) => input_written(runner, lengths, n),
        Call::InputClosed => told(runner, |r| r.input_closed()),
        Call::Settled(settlement) => told(runner, |r| r.settled(settlement)),
        Call::NextRequest => told(runner, |r| r.next_request()),
        Call::NextMessage(n) => next_message(runner, usize::from(n), store, work),
        Call::At(now, call) => timed(runner, now, call),
        Call::Ask(question) => ask(*runner, question, store, work),
    }
}
