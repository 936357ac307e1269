// What carries a runner's messages over a wire, and a peer's calls to it: what a channel's records and frames do alike.
#![tactic(auto)]

ghost use Rattle.std.specs.Prelude.{◌≡◌, ◌+◌, ◌≤◌, length, Ok, Err, MatchResult, IsOkAnd};
ghost use Rattle.runner.specs.Message.{message_after};
ghost use Rattle.carrier.specs.Carrier.{accepted, readied, room, asked};
ghost use Rattle.carrier.specs.CarrierLaws.{admitted_by};

use exec::{Limits, Receipt, Refusal};
use runner::answer::{After, Message};
use runner::runner::Runner;

// ---- what is met first: 12, 10, 46, 11, and then the carrier's own refusal

// The runner's own limits tell 12, 10 and 46; `enough` is whether the lent stores do, `carries` whether the carrier is for the
// runner. (All are tests of a runner that the call behind them takes away.)
#[tactic(auto, unfolding(crate::specs::CarrierLaws::admitted_by, crate::specs::Carrier::carried))]
pub fn admit(
    limits: Result<Limits, Refusal>,
    enough: bool,
    carries: bool,
    own: Refusal,
) -> Result<(), Refusal>
    ensures { result ≡ admitted_by limits enough carries own }
{
    limits?;
    if !enough {
        return Err(Refusal::StoreShort);
    }
    if !carries {
        return Err(own);
    }
    Ok(())
}

// ---- what is read

// What the bytes are, where the carrier is admitted. (Reading them changes nothing, so that it may come first.)
#[tactic(auto, unfolding(crate::specs::Carrier::accepted))]
pub fn accept<T: Drop>(
    admitted: Result<(), Refusal>,
    parsed: Result<T, Refusal>,
) -> Result<T, Refusal>
    ensures { result ≡ accepted admitted parsed }
{
    admitted?;
    parsed
}

// It is answered as the call that it made: its receipt, if the call has one.
pub fn read_as<T, F: FnOnce(T) -> Option<Receipt>>(
    called: After<T>,
    receipt: F,
) -> After<Option<Receipt>>
    requires { F.IsAlwaysCallable receipt }
    ensures runner { result.runner ≡ called.runner }
    ensures answer { MatchResult called.answer (λ x. IsOkAnd result.answer (F.post receipt x)) (λ e. result.answer ≡ Err e) }
{
    After {
        runner: called.runner,
        answer: called.answer.map(receipt),
    }
}

// ---- what is written

// How many bytes a buffer must have, whatever the message.
pub fn room(limits: Limits) -> usize
    ensures { result ≡ room limits }
{
    (limits.chunk as usize + 13).max(43)
}

// The room is asked for where the carrier is admitted.
#[tactic(auto, unfolding(crate::specs::Carrier::readied))]
pub fn ready(admitted: Result<(), Refusal>, roomy: bool) -> Result<(), Refusal>
    ensures { result ≡ readied admitted roomy }
{
    admitted?;
    if !roomy {
        return Err(Refusal::BufferShort);
    }
    Ok(())
}

// Asks for the next message in the buffer's part from an index on, exactly chunk long.
pub fn ask(runner: Runner, at: usize, store: &[u8], buffer: &mut [u8]) -> After<Option<Message>>
    requires { at + runner.limits.chunk ≤ length buffer.old }
    ensures { message_after result buffer.new ≡ asked at runner store.now buffer.old }
{
    let end = at + runner.limits.chunk as usize;
    runner.next_message(store, &mut buffer[at..end])
}
