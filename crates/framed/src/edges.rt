// What both calls meet before a frame, of runners that they are lent: 12, 10, 46, 11 and 42, in this order. Read is a list of no bytes,
// and written into no buffer, so that 43 and 25 say that frames are admitted.
use crate::carried::bytes;
use exec::{Key, Limits, Timers, Unit, Window};
use frames::calls::{read_frame, write_frame};
use runner::runner::Runner;
use std::io::Write;
use std::{fmt, io};
use steps::print::Answer;

// What a chunk of 16,385 bytes and an input window of 8 need.
const STORE: usize = 32778;

pub(crate) fn run(to: &mut impl Write) -> io::Result<()> {
    let mut store = [0u8; STORE];
    tables(to, &mut store)
}

// (A function of its own: where so large an array is made, its proof is too deep.)
fn tables(to: &mut impl Write, store: &mut [u8; STORE]) -> io::Result<()> {
    kinds(to, store)?;
    sizes(to, store)?;
    streams(to, store)?;
    order(to)
}

// Limits of any kind, as the first line of the card has them.
#[derive(Clone, Copy)]
struct Agreed(Limits);

impl fmt::Display for Agreed {
    fn fmt<W: fmt::Write>(&self, f: &mut fmt::Formatter<W>) -> fmt::Result {
        let input = Counted(self.0.input);
        let output = Counted(self.0.output);
        write!(
            f,
            "{},{input},{output},{}",
            self.0.chunk, self.0.shared as u8
        )
    }
}

#[derive(Clone, Copy)]
struct Counted(Window);

impl fmt::Display for Counted {
    fn fmt<W: fmt::Write>(&self, f: &mut fmt::Formatter<W>) -> fmt::Result {
        let unit = match self.0.unit {
            Unit::Bytes => "B",
            Unit::Frames => "F",
        };
        write!(f, "{unit},{}", self.0.size)
    }
}

fn open(limits: Limits, store: &[u8]) -> Runner {
    let lengths = [0u32; 2];
    Runner::open(
        Key::new(7, 2),
        limits,
        Timers::new(10, 5),
        1,
        10,
        store,
        &lengths,
    )
    .runner
}

// The limits, how many bytes are lent, s, and what the two calls answer.
fn met(to: &mut impl Write, runner: Runner, store: &mut [u8], s: u32) -> io::Result<()> {
    let mut lengths = [0u32; 2];
    let reading = read_frame(runner, 10, s, b"", store, &mut lengths);
    let writing = write_frame(runner, s, store, &mut []);
    let wrote = writing
        .answer
        .map(|wrote| wrote.map(|(message, _)| message));
    writeln!(
        to,
        "met,{},{},{s},{},{}",
        Agreed(runner.limits),
        store.len(),
        Answer(reading.answer),
        Answer(wrote)
    )
}

fn opened(to: &mut impl Write, limits: Limits, store: &mut [u8], s: u32) -> io::Result<()> {
    met(to, open(limits, store), store, s)
}

// One pool for both streams; frames counted, either way.
fn kinds(to: &mut impl Write, store: &mut [u8]) -> io::Result<()> {
    writeln!(to, "# limits: shared, and windows of frames")?;
    let framed = Window::frames(2);
    let counted = Window::bytes(8);
    opened(to, bytes(4, 8, 8).shared_output(), store, 1)?;
    opened(to, Limits::of(4, framed, counted, false), store, 1)?;
    opened(to, Limits::of(4, counted, framed, false), store, 1)
}

// The longest chunk and one more, and the largest window and one more. (Such windows of the input would need a store of 2 GiB.)
fn sizes(to: &mut impl Write, store: &mut [u8]) -> io::Result<()> {
    writeln!(to, "# limits: chunk and windows")?;
    opened(to, bytes(16384, 8, 8), store, 1)?;
    opened(to, bytes(16385, 8, 8), store, 1)?;
    opened(to, bytes(4, 8, 2147483647), store, 1)?;
    opened(to, bytes(4, 8, 2147483648), store, 1)
}

// The first stream and the last, each with the one beside it; and the highest numbers of 31 and of 32 bits.
fn streams(to: &mut impl Write, store: &mut [u8]) -> io::Result<()> {
    writeln!(to, "# streams")?;
    opened(to, bytes(4, 8, 8), store, 0)?;
    opened(to, bytes(4, 8, 8), store, 1)?;
    opened(to, bytes(4, 8, 8), store, 2147483645)?;
    opened(to, bytes(4, 8, 8), store, 2147483646)?;
    opened(to, bytes(4, 8, 8), store, 2147483647)?;
    opened(to, bytes(4, 8, 8), store, 4294967295)
}

// All are on a stream that is none, 0. A turn of 2 is no state, whatever the limits; without limits no smallest grant is looked at,
// and where that is 0 no store; and the last byte that is lent makes 11 a 42.
fn order(to: &mut impl Write) -> io::Result<()> {
    writeln!(to, "# the order: 12, 10, 46, 11, 42")?;
    let limits = bytes(4, 8, 8).shared_output();
    let mut none = open(Limits::none(), &[]);
    none.turn = 2;
    none.input.window.smallest = 0;
    met(to, none, &mut [], 0)?;
    none.turn = 0;
    met(to, none, &mut [], 0)?;
    let mut store = [0u8; 16];
    let mut runner = open(limits, &store);
    runner.input.window.smallest = 0;
    met(to, runner, &mut [0u8; 15], 0)?;
    runner.input.window.smallest = 1;
    met(to, runner, &mut [0u8; 15], 0)?;
    met(to, runner, &mut store, 0)
}
