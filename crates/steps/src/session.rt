// The steps of a session: each makes one call and writes it as a line.
use crate::print::{Answer, Came, Ended, Given, Hex};
use exec::{Key, Limits, Receipt, Refusal, Settlement, Status, Stream, Timers};
use runner::answer::{After, Message};
use runner::runner::Runner;
use std::io::Write;
use std::{fmt, io};

// The instant of every call.
const NOW: u64 = 10;

// What carries a session's messages, and the peer's calls: the records of a channel, say.
pub trait Carrier: Copy {
    // Reads bytes as the calls that they stand for.
    fn read(
        self,
        runner: Runner,
        now: u64,
        bytes: &[u8],
        store: &mut [u8],
        lengths: &mut [u32],
    ) -> After<Option<Receipt>>;

    // Writes the next message at the buffer's start.
    fn write(
        self,
        runner: Runner,
        store: &[u8],
        buffer: &mut [u8],
    ) -> After<Option<(Message, usize)>>;
}

// A runner, its store, what carries it, and where the steps are written.
#[derive(Drop)]
pub struct Session<'a, W, C> {
    to: &'a mut W,
    runner: Runner,
    store: &'a mut [u8],
    carrier: C,
}

// The first `n` bytes. That there are so many is tested here, which is shorter than its proof.
pub fn first(bytes: &[u8], n: usize) -> &[u8] {
    bytes.get(..n).unwrap_or(bytes)
}

impl<'a, W: Write, C: Carrier> Session<'a, W, C> {
    pub fn open(
        to: &'a mut W,
        limits: Limits,
        carrier: C,
        store: &'a mut [u8],
    ) -> io::Result<Self> {
        // Only frames have lengths, and no session has more than two.
        let lengths = [0u32; 2];
        let opened = Runner::open(
            Key::new(7, 2),
            limits,
            Timers::new(10, 5),
            1,
            NOW,
            store,
            &lengths,
        );
        writeln!(to, "open,{}", Answer(opened.answer))?;
        Ok(Session {
            to,
            runner: opened.runner,
            store,
            carrier,
        })
    }

    // Writes the line of a call.
    pub fn line<T: Given>(
        &mut self,
        call: impl fmt::Display + Drop,
        answer: Result<T, Refusal>,
    ) -> io::Result<()> {
        writeln!(self.to, "{call},{}", Answer(answer))
    }

    // Keeps the runner that the call left, and writes the call's line.
    fn step<T: Given>(
        &mut self,
        call: impl fmt::Display + Drop,
        after: After<T>,
    ) -> io::Result<()> {
        self.runner = after.runner;
        self.line(call, after.answer)
    }

    pub fn launched(&mut self) -> io::Result<()> {
        self.step("launched", self.runner.launched(Ok(())))
    }

    pub fn read(&mut self, bytes: &[u8]) -> io::Result<()> {
        let mut lengths = [0u32; 2];
        let reading = self
            .carrier
            .read(self.runner, NOW, bytes, self.store, &mut lengths);
        self.step(format_args!("read,{}", Hex(bytes)), reading)
    }

    // Writes the messages that wait, and eight at most.
    pub fn write(&mut self, buffer: &mut [u8]) -> io::Result<()> {
        for _ in 0..8 {
            let writing = self.carrier.write(self.runner, self.store, buffer);
            self.runner = writing.runner;
            let wrote = writing.answer.map(|wrote| wrote.map(|(message, n)| (
                message,
                first(buffer, n),
            )));
            self.line("write", wrote)?;
            if !matches!(wrote, Ok(Some(_))) {
                break;
            }
        }
        Ok(())
    }

    // The workload puts out "ab", and "bad" to its stderr.
    pub fn output(&mut self) -> io::Result<()> {
        self.output_to(Stream::Stdout, b"ab")?;
        self.output_to(Stream::Stderr, b"bad")
    }

    pub fn output_to(&mut self, stream: Stream, bytes: &[u8]) -> io::Result<()> {
        let taking = self.runner.output(stream, self.store, bytes);
        self.step(format_args!("output,{stream:?}"), taking)
    }

    // The workload takes so many bytes of its input.
    pub fn taken(&mut self, n: usize) -> io::Result<()> {
        // (By a variable, as the borrow checker wants it of a field that is lent while another is used.)
        let store = &mut *self.store;
        let waiting = self.runner.pending_input(store);
        writeln!(self.to, "pending,{}", Answer(waiting))?;
        let mut lengths = [0u32; 2];
        let counting = self.runner.input_written(&mut lengths, n);
        let came = After {
            runner: counting.runner,
            answer: counting.answer.map(Came),
        };
        self.step(format_args!("input_written,{n}"), came)
    }

    // The workload closes its input.
    pub fn input_closed(&mut self) -> io::Result<()> {
        self.step("input_closed", self.runner.input_closed())
    }

    // The workload's streams close; it exits with a status, if that is known, and settles, once the input's end was asked for.
    pub fn ended(&mut self, status: Option<Status>) -> io::Result<()> {
        self.closed(Stream::Stdout)?;
        self.closed(Stream::Stderr)?;
        self.exited(status)
    }

    // It exits and settles.
    pub fn exited(&mut self, status: Option<Status>) -> io::Result<()> {
        self.step(
            format_args!("exited,{}", Ended(status)),
            self.runner.exited(NOW, status),
        )?;
        self.request()?;
        self.request()?;
        self.step("settled", self.runner.settled(Settlement::Settled))
    }

    pub fn closed(&mut self, stream: Stream) -> io::Result<()> {
        self.step(
            format_args!("output_closed,{stream:?}"),
            self.runner.output_closed(stream),
        )
    }

    fn request(&mut self) -> io::Result<()> {
        self.step("request", self.runner.next_request())
    }

    // Takes the requests that wait, and eight at most.
    pub fn requests(&mut self) -> io::Result<()> {
        for _ in 0..8 {
            let asking = self.runner.next_request();
            self.step("request", asking)?;
            if !matches!(asking.answer, Ok(Some(_))) {
                break;
            }
        }
        Ok(())
    }

    // Takes the next message without the bytes that carry it.
    pub fn message(&mut self, buffer: &mut [u8]) -> io::Result<()> {
        let saying = self.runner.next_message(self.store, buffer);
        self.step("message", saying)
    }
}
