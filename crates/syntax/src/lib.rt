// A call as the code holds it. What a line of the session card stands for, and how an answer is written, stands in specs/.
#![tactic(auto)]

use exec::{Cause, Key, LaunchFailure, Pool, Settlement, Status, Stream};

// A call of the runner's. An input and an output have so many bytes of `work`, which the call's answer is written to while the
// call is kept; a message has a buffer of so many.
#[derive(Clone, Copy)]
pub enum Call {
    Credit(Key, Pool, u32),
    Input(Key, usize),
    EndInput(Key),
    Launched(Result<(), LaunchFailure>),
    Output(Stream, usize),
    Discarded(Stream, usize),
    OutputClosed(Stream),
    OutputFailed(Stream),
    OutputHungUp(Stream),
    InputWritten(usize),
    InputClosed,
    Settled(Settlement),
    NextRequest,
    NextMessage(u16),
    At(u64, Timed),
    Ask(Question),
}

// A call that has a time of its own.
#[derive(Clone, Copy)]
pub enum Timed {
    Cancel(Key, Cause),
    Exited(Option<Status>),
    Dropped,
    Reset,
    Disconnect,
    Tick,
}

// A call that changes nothing.
#[derive(Clone, Copy)]
pub enum Question {
    ReadAllowance(Stream),
    PendingInput,
    Deadline,
    IsFinished,
    IsDetached,
    AwaitsSettlement,
    MemoryBound,
    Buffered,
    HighWater,
}
