// What all loops share that Rust links and times beside its own (bench/): a runner that runs, what an answer adds to a sum, and the
// work between two turns. The loops are crates of their own, so that in each library each measured call has one caller, as in an
// adapter's event loop: there the compiler makes it a part of its caller, and where it has several it does not.
// An exported loop opens a runner over the lent stores, makes the calls of a turn `turns` times, with `steps` steps of
// arithmetic after each turn, and returns the sum of the answers and of the arithmetic. It is proved safe and to end, and
// promises nothing else. What is lent has a fixed length, so that nothing has to be known of it after a turn; chunk, window and
// timeout are given, so that the compiler does not know them. The parameters are flat, as C hands them over (bench/src/ours.rs).
// Each loop is written out: one generic loop over a closure moved what is measured (input of 64 bytes from 201 to 138 instructions,
// tick from 156 to 127, frames from 110 to 126; with the runner handed on by value input still to 186).
// A loop's runner is a copy of the one that `running` hands over, so that its own address is handed to no function: the
// compiler takes a local apart into its fields only then, and it was measured to matter.
#![tactic(auto)]

use credit::sender::Credit;
use exec::{Cause, Key, Limits, Receipt, Refusal, Timers, Window};
use inbox::receiver::Granted;
use runner::answer::Message;
use runner::runner::Runner;

// So many steps of arithmetic, each on the result of the last: the work between two turns.
pub fn work(start: u64, steps: u64) -> u64 {
    let mut x = start;
    for _ in 0..steps {
        x = (x % 4294967291) * 1664525 + 1013904223;
    }
    x
}

// The sum of the answers, with one more.
pub fn add<T: Counted>(sum: u64, answer: T) -> u64 {
    sum.wrapping_add(answer.count())
}

// What an answer adds to the sum.
pub trait Counted: Copy {
    fn count(self) -> u64;
}

impl<T: Counted> Counted for Result<T, Refusal> {
    fn count(self) -> u64 {
        match self {
            Ok(given) => given.count(),
            Err(_) => 4,
        }
    }
}

impl Counted for () {
    fn count(self) -> u64 {
        1
    }
}

impl Counted for Receipt {
    fn count(self) -> u64 {
        match self {
            Receipt::Applied => 1,
            Receipt::Stale => 2,
            Receipt::Late => 3,
        }
    }
}

impl Counted for u64 {
    fn count(self) -> u64 {
        self
    }
}

impl Counted for usize {
    fn count(self) -> u64 {
        self as u64
    }
}

impl Counted for Option<Message> {
    fn count(self) -> u64 {
        match self {
            None => 1,
            Some(Message::Credit(units)) => u64::from(units),
            Some(Message::Started) => 5,
            Some(Message::Output(_, n)) => n as u64,
            Some(Message::End(_)) => 6,
            Some(Message::InputClosed) => 7,
            Some(Message::Terminal(_)) => 8,
        }
    }
}

// Whether a deadline is the one expected.
pub fn of_deadline(deadline: Option<u64>, due: u64) -> u64 {
    match deadline {
        None => 2,
        Some(at) if at == due => 1,
        Some(_) => 3,
    }
}

pub fn key() -> Key {
    Key::new(7, 2)
}

// A runner whose workload runs, with its first credit and its start told, and so many units of stdout's window granted. The
// calls that are measured are not made here, so that each has one caller.
pub fn running(limits: Limits, timeout: u64, store: &[u8], lengths: &[u32], units: u32) -> Runner {
    let timers = Timers::new(1000, 1000).timeout(timeout);
    let mut r = Runner::open(key(), limits, timers, 1, 0, store, lengths).runner;
    r = r.launched(Ok(())).runner;
    r.flags.started_message = false;
    r.input.window = Granted {
        open: limits.input.size,
        returnable: 0,
        smallest: 1,
    };
    let window = limits.output.size;
    let stdout = Credit {
        window,
        available: units,
    };
    let credits = [stdout, Credit::new(window), Credit::new(window)];
    r.credits = credits;
    r
}

pub fn in_bytes(chunk: u32, window: u32) -> Limits {
    Limits::of(chunk, Window::bytes(window), Window::bytes(u32::MAX), false)
}

// The other calls that tick, once each: with them `fire` has several callers, as in any adapter, and is a part of none. A
// library whose loop ticks exports it beside the loop.
pub fn rest(store: &[u8], lengths: &[u32], chunk: u32, window: u32, now: u64) -> u64 {
    let r = running(in_bytes(chunk, window), now, store, lengths, u32::MAX);
    let cancelled = r.cancel(now, key(), Cause::Cancelled).runner;
    let exited = cancelled.exited(now, None).runner;
    exited.disconnect(now).answer.count()
}
