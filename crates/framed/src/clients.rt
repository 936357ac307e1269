// The sessions of oracle/http2/frames.txt that a runner takes part in, with windows of few bytes: the runner reads the frames that
// real clients sent, and what it writes are the frames that they were given. (largest.rt has those with large numbers.)
use crate::carried::{On, bytes};
use exec::{Status, Stream};
use std::io;
use std::io::Write;
use steps::session::Session;

// RST_STREAM with CANCEL, on stream 1 and on stream 3.
const RESET_1: &[u8] = b"\x00\x00\x04\x03\x00\x00\x00\x00\x01\x00\x00\x00\x08";

const RESET_3: &[u8] = b"\x00\x00\x04\x03\x00\x00\x00\x00\x03\x00\x00\x00\x08";

// Input of two bytes, and the end of the input without bytes.
const HI: &[u8] = b"\x00\x00\x02\x00\x00\x00\x00\x00\x01hi";

const END: &[u8] = b"\x00\x00\x00\x00\x01\x00\x00\x00\x01";

// That the stream was closed (5): what h2's client answers to output on a stream that it has reset.
const CLOSED_1: &[u8] = b"\x00\x00\x04\x03\x00\x00\x00\x00\x01\x00\x00\x00\x05";

const CLOSED_3: &[u8] = b"\x00\x00\x04\x03\x00\x00\x00\x00\x03\x00\x00\x00\x05";

pub(crate) fn run(to: &mut impl Write) -> io::Result<()> {
    let mut store = [0u8; 32];
    let mut buffer = [0u8; 43];
    whole(to, &mut store, &mut buffer)?;
    resets(to, &mut store, &mut buffer)?;
    crossing(to, "h2", &[CLOSED_1, CLOSED_3], &mut store, &mut buffer)?;
    crossing(to, "nghttp2", &[], &mut store, &mut buffer)?;
    ended(to, &mut store, &mut buffer)?;
    goes_on(to, &mut store, &mut buffer)?;
    empty(to, &mut store, &mut buffer)?;
    padded(to, &mut store, &mut buffer)?;
    streams(to, &mut store, &mut buffer)
}

// Both windows of 8 bytes are opened: the runner's first Credit, and the client's for stdout and stderr.
fn begun<'a, W: Write>(
    to: &'a mut W,
    store: &'a mut [u8],
    buffer: &mut [u8],
) -> io::Result<Session<'a, W, On>> {
    let mut session = Session::open(to, bytes(8, 8, 8), On(1), store)?;
    session.launched()?;
    session.write(buffer)?;
    session.read(b"\x00\x00\x04\x08\x00\x00\x00\x00\x01\x00\x00\x00\x08")?;
    session.read(b"\x00\x00\x04\x08\x00\x00\x00\x00\x03\x00\x00\x00\x08")?;
    Ok(session)
}

// What is left of a session that the client reset: the workload is asked to end, its streams close, it exits by a signal and settles.
fn cut<W: Write>(session: &mut Session<W, On>, buffer: &mut [u8]) -> io::Result<()> {
    session.requests()?;
    session.ended(Some(Status::Signaled(15)))?;
    session.write(buffer)
}

// Stderr's end is told first, as it closes first.
fn whole<W: Write>(to: &mut W, store: &mut [u8], buffer: &mut [u8]) -> io::Result<()> {
    writeln!(to, "# (a) a whole session")?;
    let mut session = begun(to, store, buffer)?;
    session.read(HI)?;
    session.read(b"\x00\x00\x02\x00\x01\x00\x00\x00\x01yo")?;
    session.output()?;
    session.write(buffer)?;
    session.taken(4)?;
    session.closed(Stream::Stderr)?;
    session.write(buffer)?;
    session.closed(Stream::Stdout)?;
    session.write(buffer)?;
    session.exited(Some(Status::Exited(0)))?;
    session.write(buffer)
}

fn resets<W: Write>(to: &mut W, store: &mut [u8], buffer: &mut [u8]) -> io::Result<()> {
    writeln!(to, "# (b) the client resets stream 3")?;
    let mut session = begun(to, store, buffer)?;
    session.read(RESET_3)?;
    cut(&mut session, buffer)
}

// What the client sent last is read after the resets, and changes nothing.
fn crossing<W: Write>(
    to: &mut W,
    client: &str,
    last: &[&[u8]],
    store: &mut [u8],
    buffer: &mut [u8],
) -> io::Result<()> {
    writeln!(
        to,
        "# (b) the client resets both, which credit and output cross: {client}"
    )?;
    let mut session = begun(to, store, buffer)?;
    session.read(HI)?;
    session.taken(2)?;
    session.output()?;
    session.write(buffer)?;
    session.read(RESET_1)?;
    session.read(RESET_3)?;
    for frame in last {
        session.read(frame)?;
    }
    cut(&mut session, buffer)
}

// The client ends stream 1 when Terminal was written.
fn ended<W: Write>(to: &mut W, store: &mut [u8], buffer: &mut [u8]) -> io::Result<()> {
    writeln!(to, "# (c) stdout has ended; the client resets stream 3")?;
    let mut session = begun(to, store, buffer)?;
    session.closed(Stream::Stdout)?;
    session.write(buffer)?;
    session.read(RESET_3)?;
    cut(&mut session, buffer)?;
    session.read(END)
}

fn goes_on<W: Write>(to: &mut W, store: &mut [u8], buffer: &mut [u8]) -> io::Result<()> {
    writeln!(to, "# (c) stdout has ended; input goes on")?;
    let mut session = begun(to, store, buffer)?;
    session.closed(Stream::Stdout)?;
    session.write(buffer)?;
    session.read(HI)?;
    session.taken(2)?;
    session.write(buffer)?;
    session.read(b"\x00\x00\x08\x00\x01\x00\x00\x00\x0112345678")?;
    // The bytes stand around the end of their ring.
    session.taken(6)?;
    session.taken(2)?;
    session.closed(Stream::Stderr)?;
    session.write(buffer)?;
    session.exited(Some(Status::Exited(0)))?;
    session.write(buffer)
}

fn empty<W: Write>(to: &mut W, store: &mut [u8], buffer: &mut [u8]) -> io::Result<()> {
    writeln!(to, "# (d) an end of the input without bytes")?;
    let mut session = begun(to, store, buffer)?;
    session.read(END)?;
    session.ended(Some(Status::Exited(0)))?;
    session.write(buffer)
}

// With 3 bytes of padding, with 0, of no bytes, and with padding and an end.
fn padded<W: Write>(to: &mut W, store: &mut [u8], buffer: &mut [u8]) -> io::Result<()> {
    writeln!(to, "# (d) padded input, and input of no bytes")?;
    let mut session = Session::open(to, bytes(8, 16, 8), On(1), store)?;
    session.launched()?;
    session.write(buffer)?;
    session.read(b"\x00\x00\x06\x00\x08\x00\x00\x00\x01\x03hi\x00\x00\x00")?;
    session.read(b"\x00\x00\x03\x00\x08\x00\x00\x00\x01\x00hi")?;
    session.read(b"\x00\x00\x00\x00\x00\x00\x00\x00\x01")?;
    session.read(b"\x00\x00\x04\x00\x09\x00\x00\x00\x01\x01yo\x00")
}

// The highest numbers of streams.
fn streams<W: Write>(to: &mut W, store: &mut [u8], buffer: &mut [u8]) -> io::Result<()> {
    writeln!(to, "# (e) the last streams")?;
    let mut session = Session::open(to, bytes(8, 8, 8), On(2147483645), store)?;
    session.launched()?;
    session.write(buffer)?;
    session.read(b"\x00\x00\x04\x08\x00\x7f\xff\xff\xfd\x00\x00\x00\x08")?;
    session.read(b"\x00\x00\x04\x08\x00\x7f\xff\xff\xff\x00\x00\x00\x08")?;
    session.read(b"\x00\x00\x02\x00\x01\x7f\xff\xff\xfdhi")?;
    session.output()?;
    session.write(buffer)?;
    session.read(b"\x00\x00\x04\x03\x00\x7f\xff\xff\xff\x00\x00\x00\x08")?;
    cut(&mut session, buffer)
}
