// What the two sides of an execution agree on (mod.rs of the Rust), in the Rust's order: keys, streams, pools, limits, timers,
// outcomes, receipts and refusals; deadlines in `deadline`, what each stream has side by side in `row`. A call that is refused
// answers an Err with its Refusal.
#![tactic(auto)]

ghost use Rattle.std.specs.Prelude.{◌≡◌, Some};
ghost use Rattle.exec.specs.Key.{new_key, admits};
ghost use Rattle.exec.specs.Stream.{index, is_stdout, is_stderr, is_notes, pick, following, turn_after};
ghost use Rattle.exec.specs.Limits.{
  bytes_window,
  frames_window,
  cost,
  bytes_with,
  is_valid,
  limits_for,
  no_limits,
  new_limits,
  has_notes,
  has,
  shared_output,
  check_chunk,
  output_pool,
  pool_of,
  input_bytes,
};
ghost use Rattle.exec.specs.Time.{new_timers, with_timeout, timeout_at};
ghost use Rattle.exec.specs.Outcome.{
  new_outcome,
  with_cause,
  with_launch_failure,
  with_truncated,
  with_reusable,
  is_truncated,
};
ghost use Rattle.exec.specs.Refusal.{number, text};

use std::error::Error;
use std::fmt;

pub mod deadline;
pub mod row;

// The identity of one execution: an identifier, and the generation of its use.
#[derive(Clone, Copy, Debug, PartialEq, Eq)]
pub struct Key {
    pub id: u64,
    pub generation: u64,
}

// Whose a message's key is: the execution's own, or one of an earlier generation.
#[derive(Clone, Copy, Debug, PartialEq, Eq)]
pub enum Admission {
    Own,
    Stale,
}

impl Key {
    pub fn new(id: u64, generation: u64) -> Self
        ensures { result ≡ new_key id generation }
    {
        Key { id, generation }
    }

    // Whose the key of a message for this execution is. Another's is refused.
    #[tactic(auto, unfolding(crate::specs::Key::admits))]
    pub fn admits(self, message: Key) -> Result<Admission, Refusal>
        ensures { result ≡ admits self message }
    {
        if message.id != self.id {
            return Err(Refusal::Key);
        }
        if message.generation < self.generation {
            return Ok(Admission::Stale);
        }
        if message.generation == self.generation {
            return Ok(Admission::Own);
        }
        Err(Refusal::Key)
    }
}

// One of the workload's output streams.
#[derive(Clone, Copy, Debug, PartialEq, Eq)]
pub enum Stream {
    Stdout,
    Stderr,
    Notes,
}

impl Stream {
    // The streams, in the order in which they are served. Notes is open where the limits have it.
    pub const ALL: [Stream; 3] = [Stream::Stdout, Stream::Stderr, Stream::Notes];

    pub fn is_stdout(self) -> bool
        ensures { result ≡ is_stdout self }
    {
        self == Stream::Stdout
    }

    pub fn is_stderr(self) -> bool
        ensures { result ≡ is_stderr self }
    {
        self == Stream::Stderr
    }

    pub fn is_notes(self) -> bool
        ensures { result ≡ is_notes self }
    {
        self == Stream::Notes
    }

    // The stream that is looked at after this one.
    pub fn following(self) -> Stream
        ensures { result ≡ following self }
    {
        match self {
            Stream::Stdout => Stream::Stderr,
            Stream::Stderr => Stream::Notes,
            Stream::Notes => Stream::Stdout,
        }
    }

    // The position of the stream that has its turn once this one has sent, given whether Notes is open.
    pub fn turn_after(self, notes: bool) -> u8
        ensures { result ≡ turn_after notes self }
    {
        self.pick(1, if notes { 2 } else { 0 }, 0)
    }

    // What this stream has, of what each has. (Choices of two values stay in registers; a match that gives a struct does not.)
    pub fn pick<T: Copy>(self, stdout: T, stderr: T, notes: T) -> T
        ensures { result ≡ pick self stdout stderr notes }
    {
        let later = if self.is_stderr() { stderr } else { notes };
        if self.is_stdout() { stdout } else { later }
    }

    // The stream's position in ALL.
    pub fn index(self) -> usize
        ensures { result ≡ index self }
    {
        self as usize
    }
}

// A pool of credit.
#[derive(Clone, Copy, Debug, PartialEq, Eq)]
pub enum Pool {
    Input,
    Stdout,
    Stderr,
    Output,
    Notes,
}

// What a pool's credit counts.
#[derive(Clone, Copy, Debug, PartialEq, Eq)]
pub enum Unit {
    Bytes,
    Frames,
}

// The most units of a pool that may be in flight at once.
#[derive(Clone, Copy, Debug, PartialEq, Eq)]
pub struct Window {
    pub unit: Unit,
    pub size: u32,
}

impl Window {
    // A window of `size` bytes.
    pub fn bytes(size: u32) -> Self
        ensures { result ≡ bytes_window size }
    {
        Window {
            unit: Unit::Bytes,
            size,
        }
    }

    // A window of `size` data messages.
    pub fn frames(size: u32) -> Self
        ensures { result ≡ frames_window size }
    {
        Window {
            unit: Unit::Frames,
            size,
        }
    }

    // The units that a data message of `length` bytes costs.
    #[tactic(auto, unfolding(crate::specs::Limits::cost))]
    pub fn cost(self, length: u32) -> u32
        ensures { result ≡ cost self.unit length }
    {
        match self.unit {
            Unit::Bytes => length,
            Unit::Frames => 1,
        }
    }

    // The most data bytes that the window holds with chunks of `chunk` bytes.
    #[tactic(auto, unfolding(crate::specs::Limits::bytes_with))]
    pub fn bytes_with(self, chunk: u32) -> usize
        ensures { result ≡ bytes_with self.unit self.size chunk }
    {
        match self.unit {
            Unit::Bytes => self.size as usize,
            Unit::Frames => (self.size as usize) * (chunk as usize),
        }
    }
}

// The limits on which both sides agree: the most bytes of a data message, the window of the input and that of each output
// pool, and whether the output streams share one pool.
#[derive(Clone, Copy, Debug, PartialEq, Eq)]
pub struct Limits {
    pub chunk: u32,
    pub input: Window,
    pub output: Window,
    pub shared: bool,
}

impl Limits {
    // Limits with one output pool a stream; a chunk or a window of 0 is refused.
    #[tactic(auto, unfolding(crate::specs::Limits::new_limits))]
    pub fn new(chunk: u32, input: Window, output: Window) -> Result<Limits, Refusal>
        ensures { result ≡ new_limits chunk input output }
    {
        let limits = Limits::of(chunk, input, output, false);
        if limits.is_valid() {
            Ok(limits)
        } else {
            Err(Refusal::NoLimits)
        }
    }

    // Limits of any numbers, valid or not: `open` looks at them.
    pub fn of(chunk: u32, input: Window, output: Window, shared: bool) -> Limits
        ensures { result ≡ limits_for chunk input output shared }
    {
        Limits {
            chunk,
            input,
            output,
            shared,
        }
    }

    // Limits that are none.
    pub fn none() -> Limits
        ensures { result ≡ no_limits }
    {
        Limits::of(0, Window::bytes(0), Window::bytes(0), false)
    }

    // Whether neither the chunk nor a window is 0.
    pub fn is_valid(self) -> bool
        ensures { result ≡ is_valid self }
    {
        (0 < self.chunk) & (0 < self.input.size) & (0 < self.output.size)
    }

    // Whether Notes is open: no limits have it.
    #[tactic(auto, unfolding(crate::specs::Limits::has_notes))]
    pub fn has_notes(self) -> bool
        ensures { result ≡ has_notes self }
    {
        false
    }

    // Whether a stream is open.
    pub fn has(self, stream: Stream) -> bool
        ensures { result ≡ has self stream }
    {
        !stream.is_notes() | self.has_notes()
    }

    // The same limits, with one pool that the output streams share.
    pub fn shared_output(mut self) -> Limits
        ensures { result ≡ shared_output self }
    {
        self.shared = true;
        self
    }

    // The position of a stream's output pool: a number, as the scope has it, since the pools' accounts stand side by side.
    pub fn pool_of(self, stream: Stream) -> usize
        ensures { result ≡ pool_of self stream }
    {
        if self.shared {
            return 0;
        }
        stream.index()
    }

    // The position of the output pool `pool`.
    pub fn output_pool(self, pool: Pool) -> Result<usize, Refusal>
        ensures { result ≡ output_pool self.shared (has_notes self) pool }
    {
        match (self.shared, pool) {
            (true, Pool::Output) => Ok(0),
            (false, Pool::Stdout) => Ok(0),
            (false, Pool::Stderr) => Ok(1),
            (false, Pool::Notes) if self.has_notes() => Ok(2),
            _ => Err(Refusal::Pool),
        }
    }

    // The checked length of a data message of `length` bytes.
    #[tactic(auto, unfolding(crate::specs::Limits::check_chunk))]
    pub fn check_chunk(self, length: usize) -> Result<u32, Refusal>
        ensures { result ≡ check_chunk self length }
    {
        if (length == 0) | ((self.chunk as usize) < length) {
            return Err(Refusal::Chunk);
        }
        Ok(length as u32)
    }

    // The most data bytes that the input's window holds.
    pub fn input_bytes(self) -> usize
        ensures { result ≡ input_bytes self }
    {
        self.input.bytes_with(self.chunk)
    }
}

// How long the execution may run, if it is bounded; how long pending output still flows once a termination begins; and how
// long the execution may then take to settle.
#[derive(Clone, Copy, Debug, PartialEq, Eq)]
pub struct Timers {
    pub timeout: Option<u64>,
    pub grace: u64,
    pub settlement: u64,
}

impl Timers {
    // Timers with no timeout.
    pub fn new(grace: u64, settlement: u64) -> Self
        ensures { result ≡ new_timers grace settlement }
    {
        Timers {
            timeout: None,
            grace,
            settlement,
        }
    }

    // The same timers, with a timeout.
    pub fn timeout(mut self, timeout: u64) -> Timers
        ensures { result ≡ with_timeout self timeout }
    {
        self.timeout = Some(timeout);
        self
    }

    // When the timeout of an execution that begins at `now` passes.
    pub fn timeout_at(self, now: u64) -> Option<u64>
        ensures { result ≡ timeout_at self.timeout now }
    {
        deadline::after(now, self.timeout?)
    }
}

// Why a side ended an execution.
#[derive(Clone, Copy, Debug, PartialEq, Eq)]
pub enum Cause {
    Cancelled,
    Dropped,
    TimedOut,
    Reset,
    Disconnected,
}

// How a workload's program ended: by itself with a code, or by a signal.
#[derive(Clone, Copy, Debug, PartialEq, Eq)]
pub enum Status {
    Exited(i32),
    Signaled(i32),
}

// Why a workload's program did not start: the adapter's number of the launch stage, and the error number.
#[derive(Clone, Copy, Debug, PartialEq, Eq)]
pub struct LaunchFailure {
    pub stage: u32,
    pub error: i32,
}

// The result of settling an execution's processes.
#[derive(Clone, Copy, Debug, PartialEq, Eq)]
pub enum Settlement {
    Settled,
    Failed,
}

// How an execution ended. (The truncation of the streams is a flag each, as the scope has it.)
#[derive(Clone, Copy, Debug, PartialEq, Eq)]
pub struct Outcome {
    pub status: Option<Status>,
    pub cause: Option<Cause>,
    pub launch_failure: Option<LaunchFailure>,
    pub stdout_truncated: bool,
    pub stderr_truncated: bool,
    pub notes_truncated: bool,
    pub reusable: bool,
}

impl Outcome {
    // The outcome of a workload that ended with `status`, if known: no cause, no launch failure, no truncation, fenced.
    pub fn new(status: Option<Status>) -> Self
        ensures { result ≡ new_outcome status }
    {
        Outcome {
            status,
            cause: None,
            launch_failure: None,
            stdout_truncated: false,
            stderr_truncated: false,
            notes_truncated: false,
            reusable: false,
        }
    }

    pub fn with_cause(mut self, cause: Cause) -> Outcome
        ensures { result ≡ with_cause self cause }
    {
        self.cause = Some(cause);
        self
    }

    pub fn with_launch_failure(mut self, failure: LaunchFailure) -> Outcome
        ensures { result ≡ with_launch_failure self failure }
    {
        self.launch_failure = Some(failure);
        self
    }

    pub fn with_truncated(mut self, stream: Stream) -> Outcome
        ensures { result ≡ with_truncated self stream }
    {
        match stream {
            Stream::Stdout => self.stdout_truncated = true,
            Stream::Stderr => self.stderr_truncated = true,
            Stream::Notes => self.notes_truncated = true,
        }
        self
    }

    pub fn with_reusable(mut self) -> Outcome
        ensures { result ≡ with_reusable self }
    {
        self.reusable = true;
        self
    }

    pub fn is_truncated(self, stream: Stream) -> bool
        ensures { result ≡ is_truncated self stream }
    {
        match stream {
            Stream::Stdout => self.stdout_truncated,
            Stream::Stderr => self.stderr_truncated,
            Stream::Notes => self.notes_truncated,
        }
    }
}

// What the side did with a message that it accepted.
#[derive(Clone, Copy, Debug, PartialEq, Eq)]
pub enum Receipt {
    Applied,
    Stale,
    Late,
}

// Why a call is refused: the Rust's Violation, then what the stores, the state, the records, the card, the exit requests, the frames, the
// judge and the smallest grant add. A refused call changes nothing.
#[derive(Clone, Copy, Debug, PartialEq, Eq)]
pub enum Refusal {
    Key = 1,
    Pool = 2,
    Credit = 3,
    Chunk = 4,
    Window = 5,
    Ended = 6,
    NoLimits = 10,
    StoreShort = 11,
    StateOutOfRange = 12,
    NotAChannel = 13,
    BadLength = 20,
    UnknownKind = 21,
    OtherChannel = 22,
    BadType = 23,
    NotInbound = 24,
    BufferShort = 25,
    BadLine = 30,
    UntoldStatus = 40,
    BadRequest = 41,
    NotFramed = 42,
    BadFrame = 43,
    PaddedFrame = 44,
    OutOfOrder = 45,
    SmallestGrant = 46,
}

impl Refusal {
    // The refusal's number in the table of stops.
    pub fn number(self) -> u32
        ensures { result ≡ number self }
    {
        self as u32
    }
}

impl fmt::Display for Refusal {
    ghost output = { λ x. Some (text x) };

    fn fmt<W: fmt::Write>(&self, f: &mut fmt::Formatter<W>) -> fmt::Result {
        f.write_str(match self {
            Refusal::Key => "the key is another execution's",
            Refusal::Pool => "the limits have no such pool",
            Refusal::Credit => "no units are granted, or more than are in flight",
            Refusal::Chunk => "the message is empty or longer than a chunk",
            Refusal::Window => "the message costs more than is granted",
            Refusal::Ended => "the input has ended",
            Refusal::NoLimits => "a chunk or a window is 0",
            Refusal::StoreShort => "a store is too short",
            Refusal::StateOutOfRange => "the state is none that the calls reach",
            Refusal::NotAChannel => "the limits are not a channel's",
            Refusal::BadLength => "the bytes are not as long as their record",
            Refusal::UnknownKind => "the kind of the record is unknown",
            Refusal::OtherChannel => "the record is for another channel",
            Refusal::BadType => "the type of the extended data is unknown",
            Refusal::NotInbound => "the record is none that a peer sends",
            Refusal::BufferShort => "the buffer is too short",
            Refusal::BadLine => "the line is no call",
            Refusal::UntoldStatus => "no request tells the status",
            Refusal::BadRequest => "the request tells no status",
            Refusal::NotFramed => "the limits or the stream are not those of frames",
            Refusal::BadFrame => "the frame is none that a peer sends on these streams",
            Refusal::PaddedFrame => "the frame is padded",
            Refusal::OutOfOrder => "the message is out of order",
            Refusal::SmallestGrant => "the smallest grant is 0 or above the input's window",
        })
    }
}

impl Error for Refusal {}
