// The runner's marks: the messages and requests that wait, and what it did once and for all.
#[derive(Clone, Copy)]
pub struct Flags {
    // The message that the workload started waits.
    pub started_message: bool,
    // The request to settle the execution waits.
    pub settle_request: bool,
    // The runner gave up after a termination, and fenced the execution.
    pub gave_up: bool,
    // The runner gave up on the launch result after the workload's end, and fenced the execution.
    pub launch_abandoned: bool,
    // The runner sends the peer nothing more but the outcome.
    pub detached: bool,
    // The last message was credit of the input, so that any other that waits goes next.
    pub credited: bool,
    // The outcome was returned.
    pub finished: bool,
}
