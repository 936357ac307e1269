// How a step's line says its arguments and its answer: bytes in hexadecimal, `-` where there are none, and commas between.
use exec::{Receipt, Refusal, Status};
use runner::answer::{Message, Request};
use std::fmt;

// How many bytes of a long text are shown.
const SHOWN: usize = 64;

// Bytes in hexadecimal, and of more than 64 the first ones.
#[derive(Clone, Copy)]
pub struct Hex<'a>(pub &'a [u8]);

impl fmt::Display for Hex<'_> {
    fn fmt<W: fmt::Write>(&self, f: &mut fmt::Formatter<W>) -> fmt::Result {
        if self.0.is_empty() {
            return f.write_str("-");
        }
        for byte in self.0.get(..SHOWN).unwrap_or(self.0) {
            write!(f, "{byte:02x}")?;
        }
        if SHOWN < self.0.len() {
            return f.write_str("..");
        }
        Ok(())
    }
}

// E and the code, or S and the number of the signal.
#[derive(Clone, Copy)]
pub struct Ended(pub Option<Status>);

impl fmt::Display for Ended {
    fn fmt<W: fmt::Write>(&self, f: &mut fmt::Formatter<W>) -> fmt::Result {
        match self.0 {
            None => f.write_str("-"),
            Some(Status::Exited(code)) => write!(f, "E{code}"),
            Some(Status::Signaled(number)) => write!(f, "S{number}"),
        }
    }
}

// A message by its name, an output by its stream's.
#[derive(Clone, Copy)]
struct Name(Message);

impl fmt::Display for Name {
    fn fmt<W: fmt::Write>(&self, f: &mut fmt::Formatter<W>) -> fmt::Result {
        match self.0 {
            Message::Credit(_) => f.write_str("Credit"),
            Message::Started => f.write_str("Started"),
            Message::Output(stream, _) => write!(f, "{stream:?}"),
            Message::End(stream) => write!(f, "End {stream:?}"),
            Message::InputClosed => f.write_str("InputClosed"),
            Message::Terminal(_) => f.write_str("Terminal"),
        }
    }
}

// What a call answered, or the number of its refusal.
#[derive(Clone, Copy)]
pub struct Answer<T>(pub Result<T, Refusal>);

impl<T: Given> fmt::Display for Answer<T> {
    fn fmt<W: fmt::Write>(&self, f: &mut fmt::Formatter<W>) -> fmt::Result {
        match &self.0 {
            Ok(given) => given.put(f),
            Err(refusal) => write!(f, "refused {}", refusal.number()),
        }
    }
}

// What a call that is not refused gives.
pub trait Given: Copy {
    fn put<W: fmt::Write>(&self, f: &mut fmt::Formatter<W>) -> fmt::Result;
}

impl Given for () {
    fn put<W: fmt::Write>(&self, f: &mut fmt::Formatter<W>) -> fmt::Result {
        f.write_str("ok")
    }
}

// How many bytes an output took.
impl Given for usize {
    fn put<W: fmt::Write>(&self, f: &mut fmt::Formatter<W>) -> fmt::Result {
        write!(f, "taken {self}")
    }
}

// The frames that a write of the input came to: no bytes that were taken.
#[derive(Clone, Copy)]
pub struct Came(pub usize);

impl Given for Came {
    fn put<W: fmt::Write>(&self, f: &mut fmt::Formatter<W>) -> fmt::Result {
        write!(f, "ok {}", self.0)
    }
}

// How many bytes, and the bytes.
impl Given for &[u8] {
    fn put<W: fmt::Write>(&self, f: &mut fmt::Formatter<W>) -> fmt::Result {
        write!(f, "{},{}", self.len(), Hex(self))
    }
}

impl Given for Status {
    fn put<W: fmt::Write>(&self, f: &mut fmt::Formatter<W>) -> fmt::Result {
        write!(f, "{}", Ended(Some(*self)))
    }
}

impl Given for Option<Receipt> {
    fn put<W: fmt::Write>(&self, f: &mut fmt::Formatter<W>) -> fmt::Result {
        match self {
            None => f.write_str("ok"),
            Some(receipt) => write!(f, "{receipt:?}"),
        }
    }
}

// A request by its name, with the cause of an end and the stream to discard.
impl Given for Option<Request> {
    fn put<W: fmt::Write>(&self, f: &mut fmt::Formatter<W>) -> fmt::Result {
        match self {
            None => f.write_str("none"),
            Some(Request::Terminate(cause)) => write!(f, "Terminate,{cause:?}"),
            Some(Request::Discard(stream)) => write!(f, "Discard,{stream:?}"),
            Some(Request::CloseInput) => f.write_str("CloseInput"),
            Some(Request::Settle) => f.write_str("Settle"),
        }
    }
}

// A message without its bytes: a Terminal with the status that it tells.
impl Given for Option<Message> {
    fn put<W: fmt::Write>(&self, f: &mut fmt::Formatter<W>) -> fmt::Result {
        match *self {
            None => f.write_str("none"),
            Some(Message::Terminal(outcome)) => write!(f, "Terminal,{}", Ended(outcome.status)),
            Some(message) => write!(f, "{}", Name(message)),
        }
    }
}

// A message and the bytes that carry it.
impl Given for Option<(Message, &[u8])> {
    fn put<W: fmt::Write>(&self, f: &mut fmt::Formatter<W>) -> fmt::Result {
        match *self {
            None => f.write_str("none"),
            Some((message, bytes)) => {
                write!(f, "{},{},{}", Name(message), bytes.len(), Hex(bytes))
            }
        }
    }
}
