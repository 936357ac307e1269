// How sessions on channel 5 end, of small windows and no output: what their Terminal writes, what is refused by 40 and the way
// on from there; and the reader of the requests that tell it.
use crate::carried::{Records, channel};
use codec::Record;
use exec::Status;
use std::io::Write;
use std::{fmt, io};
use steps::print::{Answer, Given, Hex};
use steps::session::{Session, first};

// A record that was read.
#[derive(Clone, Copy)]
struct Read(Record);

impl Given for Read {
    fn put<W: fmt::Write>(&self, f: &mut fmt::Formatter<W>) -> fmt::Result {
        write!(f, "{:?}", self.0)
    }
}

// Requests for channel 5, of which the largest code alone is told: no bytes; CLOSE; a kind alone, and
// with a channel cut short; nothing behind the channel, 6 and 5; a code for channel 6; the largest code, and one more; a reply
// wanted; a byte too many, and one too few; TERM with its core dumped; BUS; INT as a name of four letters, and with an error
// message.
const OURS: &[&[u8]] = &[
    b"",
    b"\x61\x00\x00\x00\x05",
    b"\x62",
    b"\x62\x00\x00\x00",
    b"\x62\x00\x00\x00\x06",
    b"\x62\x00\x00\x00\x05",
    b"\x62\x00\x00\x00\x06\x00\x00\x00\x0bexit-status\x00\x00\x00\x00\x00",
    b"\x62\x00\x00\x00\x05\x00\x00\x00\x0bexit-status\x00\x7f\xff\xff\xff",
    b"\x62\x00\x00\x00\x05\x00\x00\x00\x0bexit-status\x00\x80\x00\x00\x00",
    b"\x62\x00\x00\x00\x05\x00\x00\x00\x0bexit-status\x01\x00\x00\x00\x00",
    b"\x62\x00\x00\x00\x05\x00\x00\x00\x0bexit-status\x00\x00\x00\x00\x00\x00",
    b"\x62\x00\x00\x00\x05\x00\x00\x00\x0bexit-status\x00\x00\x00\x00",
    b"\x62\x00\x00\x00\x05\x00\x00\x00\x0bexit-signal\x00\x00\x00\x00\x04TERM\x01\x00\x00\x00\x00\x00\x00\x00\x00",
    b"\x62\x00\x00\x00\x05\x00\x00\x00\x0bexit-signal\x00\x00\x00\x00\x03BUS\x00\x00\x00\x00\x00\x00\x00\x00\x00",
    b"\x62\x00\x00\x00\x05\x00\x00\x00\x0bexit-signal\x00\x00\x00\x00\x04INT\x00\x00\x00\x00\x00\x00\x00\x00\x00",
    b"\x62\x00\x00\x00\x05\x00\x00\x00\x0bexit-signal\x00\x00\x00\x00\x03INT\x00\x00\x00\x00\x01x\x00\x00\x00\x00",
];

// OpenSSH's requests for channel 1, of oracle/openssh/records.txt: one that tells no status; how sessions ended, by the codes 0, 1, 7
// and 255 and by the thirteen signals, each told, so that it is the request that is written of that status; and BUS, which it gives
// a name of its own.
const OPENSSH: &[&[u8]] = &[
    b"\x62\x00\x00\x00\x01\x00\x00\x00\x0feow@openssh.com\x00",
    b"\x62\x00\x00\x00\x01\x00\x00\x00\x0bexit-status\x00\x00\x00\x00\x00",
    b"\x62\x00\x00\x00\x01\x00\x00\x00\x0bexit-status\x00\x00\x00\x00\x01",
    b"\x62\x00\x00\x00\x01\x00\x00\x00\x0bexit-status\x00\x00\x00\x00\x07",
    b"\x62\x00\x00\x00\x01\x00\x00\x00\x0bexit-status\x00\x00\x00\x00\xff",
    b"\x62\x00\x00\x00\x01\x00\x00\x00\x0bexit-signal\x00\x00\x00\x00\x03HUP\x00\x00\x00\x00\x00\x00\x00\x00\x00",
    b"\x62\x00\x00\x00\x01\x00\x00\x00\x0bexit-signal\x00\x00\x00\x00\x03INT\x00\x00\x00\x00\x00\x00\x00\x00\x00",
    b"\x62\x00\x00\x00\x01\x00\x00\x00\x0bexit-signal\x00\x00\x00\x00\x04QUIT\x00\x00\x00\x00\x00\x00\x00\x00\x00",
    b"\x62\x00\x00\x00\x01\x00\x00\x00\x0bexit-signal\x00\x00\x00\x00\x03ILL\x00\x00\x00\x00\x00\x00\x00\x00\x00",
    b"\x62\x00\x00\x00\x01\x00\x00\x00\x0bexit-signal\x00\x00\x00\x00\x04ABRT\x00\x00\x00\x00\x00\x00\x00\x00\x00",
    b"\x62\x00\x00\x00\x01\x00\x00\x00\x0bexit-signal\x00\x00\x00\x00\x03FPE\x00\x00\x00\x00\x00\x00\x00\x00\x00",
    b"\x62\x00\x00\x00\x01\x00\x00\x00\x0bexit-signal\x00\x00\x00\x00\x04KILL\x00\x00\x00\x00\x00\x00\x00\x00\x00",
    b"\x62\x00\x00\x00\x01\x00\x00\x00\x0bexit-signal\x00\x00\x00\x00\x04USR1\x00\x00\x00\x00\x00\x00\x00\x00\x00",
    b"\x62\x00\x00\x00\x01\x00\x00\x00\x0bexit-signal\x00\x00\x00\x00\x04SEGV\x00\x00\x00\x00\x00\x00\x00\x00\x00",
    b"\x62\x00\x00\x00\x01\x00\x00\x00\x0bexit-signal\x00\x00\x00\x00\x04USR2\x00\x00\x00\x00\x00\x00\x00\x00\x00",
    b"\x62\x00\x00\x00\x01\x00\x00\x00\x0bexit-signal\x00\x00\x00\x00\x04PIPE\x00\x00\x00\x00\x00\x00\x00\x00\x00",
    b"\x62\x00\x00\x00\x01\x00\x00\x00\x0bexit-signal\x00\x00\x00\x00\x04ALRM\x00\x00\x00\x00\x00\x00\x00\x00\x00",
    b"\x62\x00\x00\x00\x01\x00\x00\x00\x0bexit-signal\x00\x00\x00\x00\x04TERM\x00\x00\x00\x00\x00\x00\x00\x00\x00",
    b"\x62\x00\x00\x00\x01\x00\x00\x00\x0bexit-signal\x00\x00\x00\x00\x0fSIG@openssh.com\x00\x00\x00\x00\x00\x00\x00\x00\x00",
];

pub(crate) fn run(to: &mut impl Write) -> io::Result<()> {
    let mut store = [0u8; 16];
    let mut buffer = [0u8; 43];
    told(to, Some(Status::Signaled(15)), &mut store, &mut buffer)?;
    cut(to, &buffer)?;
    told(to, Some(Status::Signaled(2)), &mut store, &mut buffer)?;
    told(to, Some(Status::Exited(255)), &mut store, &mut buffer)?;
    bus(to, &mut store, &mut buffer)?;
    negative(to, &mut store, &mut buffer)?;
    told(to, None, &mut store, &mut buffer)?;
    for request in OURS {
        exit(to, 5, request)?;
    }
    for request in OPENSSH {
        exit(to, 1, request)?;
    }
    Ok(())
}

// A session that ended so, its records written. The peer ends the input first, so that no credit is due.
fn told<'a, W: Write>(
    to: &'a mut W,
    status: Option<Status>,
    store: &'a mut [u8],
    buffer: &mut [u8],
) -> io::Result<Session<'a, W, Records>> {
    let mut session = Session::open(to, channel(4, 8), Records::of(5, 5), store)?;
    session.launched()?;
    session.read(b"\x60\x00\x00\x00\x05")?;
    session.ended(status)?;
    session.write(buffer)?;
    Ok(session)
}

// The two records of TERM fill the buffer: the last 5 bytes are CLOSE, and those before them the request.
fn cut(to: &mut impl Write, records: &[u8; 43]) -> io::Result<()> {
    let (request, close) = records.split_at(38);
    exit(to, 5, request)?;
    writeln!(
        to,
        "record,{},{}",
        Hex(close),
        Answer(codec::read(close, 5).map(Read))
    )
}

// Signal 7, BUS, is not in the table: the message stays until it is taken without its record, and CLOSE is then the adapter's
// to write.
fn bus(to: &mut impl Write, store: &mut [u8], buffer: &mut [u8]) -> io::Result<()> {
    let mut left = told(to, Some(Status::Signaled(7)), store, buffer)?;
    left.write(buffer)?;
    left.message(buffer)?;
    close(&mut left, buffer)?;
    left.write(buffer)
}

// Writes CLOSE, which takes no runner.
fn close<W: Write>(left: &mut Session<W, Records>, buffer: &mut [u8]) -> io::Result<()> {
    let written = codec::write(5, Record::Close, b"", buffer);
    left.line("close", written.map(|n| first(buffer, n)))
}

// No request tells a negative code. A short buffer is met before that.
fn negative(to: &mut impl Write, store: &mut [u8], buffer: &mut [u8]) -> io::Result<()> {
    let mut left = told(to, Some(Status::Exited(-1)), store, buffer)?;
    left.write(&mut [0u8; 42])
}

// Reads a request that tells how a program ended.
fn exit(to: &mut impl Write, channel: u32, bytes: &[u8]) -> io::Result<()> {
    writeln!(
        to,
        "exit,{},{}",
        Hex(bytes),
        Answer(exits::read(bytes, channel))
    )
}
