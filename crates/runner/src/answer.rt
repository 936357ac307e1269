// What the calls answer. Where a call changes the state, the next state stands beside its answer.
use crate::runner::Runner;
use exec::{Cause, Outcome, Receipt, Refusal, Stream};

// A message from the runner to the peer.
#[derive(Clone, Copy)]
pub enum Message {
    // So many more units of the input's window.
    Credit(u32),
    // The workload's program runs.
    Started,
    // So many bytes of a stream, which stand at the start of the lent buffer.
    Output(Stream, usize),
    // A stream ended, after its last byte.
    End(Stream),
    // The workload's input closed before the peer ended it.
    InputClosed,
    // The terminal outcome: the last message.
    Terminal(Outcome),
}

// A request to the adapter, made once.
#[derive(Clone, Copy)]
pub enum Request {
    // End the workload.
    Terminate(Cause),
    // Read and drop the rest of a stream.
    Discard(Stream),
    // Close the workload's input.
    CloseInput,
    // Settle the execution's processes.
    Settle,
}

// The runner after a call, and what it answers.
#[derive(Clone, Copy)]
pub struct After<T> {
    pub runner: Runner,
    pub answer: Result<T, Refusal>,
}
