// Frames that are refused or late, by whose rule, and what of a frame is not looked at: on streams 1 and 3, with a chunk of 4.
use crate::carried::{On, bytes};
use exec::Status;
use std::io;
use std::io::Write;
use steps::session::Session;

// No frame that a peer sends on these streams: no bytes; a header cut short; a length of 3 and of 1 with 2 bytes behind the header;
// HEADERS, as the clients sent them; PING, SETTINGS' answer and WINDOW_UPDATE of the connection, stream 0; PING's type on stream 1;
// DATA on streams 0, 2 and 4; DATA on stderr's stream, plain, padded, and as an End, which is what a runner writes; WINDOW_UPDATE of
// 3 and of 5 bytes, and RST_STREAM of the same; padded DATA of a wrong length, and on stream 2.
const BAD: &[&[u8]] = &[
    b"",
    b"\x00\x00\x04\x08\x00\x00\x00\x00",
    b"\x00\x00\x03\x00\x00\x00\x00\x00\x01hi",
    b"\x00\x00\x01\x00\x00\x00\x00\x00\x01hi",
    b"\x00\x00\x08\x01\x04\x00\x00\x00\x01\x83\x86\x41\x83\xa0\xe7\xa7\x84",
    b"\x00\x00\x04\x01\x05\x00\x00\x00\x03\x83\x86\xbe\x84",
    b"\x00\x00\x08\x06\x00\x00\x00\x00\x00\x00\x00\x00\x00\x00\x00\x00\x00",
    b"\x00\x00\x00\x04\x01\x00\x00\x00\x00",
    b"\x00\x00\x04\x08\x00\x00\x00\x00\x00\x00\x00\x00\x08",
    b"\x00\x00\x08\x06\x00\x00\x00\x00\x01\x00\x00\x00\x00\x00\x00\x00\x00",
    b"\x00\x00\x02\x00\x00\x00\x00\x00\x00hi",
    b"\x00\x00\x02\x00\x00\x00\x00\x00\x02hi",
    b"\x00\x00\x02\x00\x00\x00\x00\x00\x04hi",
    b"\x00\x00\x02\x00\x00\x00\x00\x00\x03hi",
    b"\x00\x00\x03\x00\x08\x00\x00\x00\x03\x00hi",
    b"\x00\x00\x00\x00\x01\x00\x00\x00\x03",
    b"\x00\x00\x03\x08\x00\x00\x00\x00\x01\x00\x00\x08",
    b"\x00\x00\x05\x08\x00\x00\x00\x00\x01\x00\x00\x00\x08\x00",
    b"\x00\x00\x03\x03\x00\x00\x00\x00\x01\x00\x00\x08",
    b"\x00\x00\x05\x03\x00\x00\x00\x00\x01\x00\x00\x00\x08\x00",
    b"\x00\x00\x04\x00\x08\x00\x00\x00\x01\x00hi",
    b"\x00\x00\x03\x00\x08\x00\x00\x00\x02\x00hi",
];

// Padded: plain, at the input's end, longer than a chunk, and without the byte that says how long the padding is.
const PADDED: &[&[u8]] = &[
    b"\x00\x00\x03\x00\x08\x00\x00\x00\x01\x00hi",
    b"\x00\x00\x03\x00\x09\x00\x00\x00\x01\x00hi",
    b"\x00\x00\x06\x00\x08\x00\x00\x00\x01\x00abcde",
    b"\x00\x00\x00\x00\x08\x00\x00\x00\x01",
];

// Credit: none; 9 for a window of 8, on either stream; then all of it, one more, and the most units there are.
const CREDIT: &[&[u8]] = &[
    b"\x00\x00\x04\x08\x00\x00\x00\x00\x01\x00\x00\x00\x00",
    b"\x00\x00\x04\x08\x00\x00\x00\x00\x01\x00\x00\x00\x09",
    b"\x00\x00\x04\x08\x00\x00\x00\x00\x03\x00\x00\x00\x09",
    b"\x00\x00\x04\x08\x00\x00\x00\x00\x01\x00\x00\x00\x08",
    b"\x00\x00\x04\x08\x00\x00\x00\x00\x01\x00\x00\x00\x01",
    b"\x00\x00\x04\x08\x00\x00\x00\x00\x01\x7f\xff\xff\xff",
    b"\x00\x00\x04\x08\x00\x00\x00\x00\x03\x00\x00\x00\x08",
];

// Input: of 5 bytes, at its end too; of no bytes; 4 and 3 bytes, which fit the window of 8; 2 bytes at the end, which do not, so that
// the end is not made; the last byte that fits; one more; the end; and what comes behind it, 6 whatever its length; but what is
// padded is 44 and what is for stderr is 43, as before.
const INPUT: &[&[u8]] = &[
    b"\x00\x00\x05\x00\x00\x00\x00\x00\x01abcde",
    b"\x00\x00\x05\x00\x01\x00\x00\x00\x01abcde",
    b"\x00\x00\x00\x00\x00\x00\x00\x00\x01",
    b"\x00\x00\x04\x00\x00\x00\x00\x00\x01abcd",
    b"\x00\x00\x03\x00\x00\x00\x00\x00\x01efg",
    b"\x00\x00\x02\x00\x01\x00\x00\x00\x01hi",
    b"\x00\x00\x01\x00\x00\x00\x00\x00\x01h",
    b"\x00\x00\x01\x00\x00\x00\x00\x00\x01i",
    b"\x00\x00\x00\x00\x01\x00\x00\x00\x01",
    b"\x00\x00\x02\x00\x00\x00\x00\x00\x01hi",
    b"\x00\x00\x02\x00\x01\x00\x00\x00\x01hi",
    b"\x00\x00\x05\x00\x00\x00\x00\x00\x01abcde",
    b"\x00\x00\x00\x00\x00\x00\x00\x00\x01",
    b"\x00\x00\x00\x00\x01\x00\x00\x00\x01",
    b"\x00\x00\x03\x00\x09\x00\x00\x00\x01\x00hi",
    b"\x00\x00\x02\x00\x00\x00\x00\x00\x03hi",
];

// Input of 4 and 3 bytes; of 2 at the end; of one at the end; and of one more.
const CLOSED: &[&[u8]] = &[
    b"\x00\x00\x04\x00\x00\x00\x00\x00\x01abcd",
    b"\x00\x00\x03\x00\x00\x00\x00\x00\x01efg",
    b"\x00\x00\x02\x00\x01\x00\x00\x00\x01hi",
    b"\x00\x00\x01\x00\x01\x00\x00\x00\x01h",
    b"\x00\x00\x01\x00\x00\x00\x00\x00\x01i",
];

// After Terminal: input plain, at its end and without bytes; an end alone; credit, of no units too; a reset. What is no frame, or
// padded, is refused as before.
const LATE: &[&[u8]] = &[
    b"\x00\x00\x02\x00\x00\x00\x00\x00\x01hi",
    b"\x00\x00\x02\x00\x01\x00\x00\x00\x01hi",
    b"\x00\x00\x00\x00\x00\x00\x00\x00\x01",
    b"\x00\x00\x00\x00\x01\x00\x00\x00\x01",
    b"\x00\x00\x04\x08\x00\x00\x00\x00\x01\x00\x00\x00\x01",
    b"\x00\x00\x04\x08\x00\x00\x00\x00\x01\x00\x00\x00\x00",
    b"\x00\x00\x04\x03\x00\x00\x00\x00\x01\x00\x00\x00\x08",
    b"\x00\x00\x02\x00\x00\x00\x00\x00\x03hi",
    b"\x00\x00\x03\x00\x08\x00\x00\x00\x01\x00hi",
];

// The reserved bits before the stream and before the units are set, of credit for stdout and stderr and of input. All flags that
// mean nothing are set: all eight of credit; of input all but END_STREAM (1) and PADDED (8), and then all but PADDED. The credit of
// stdout, 3 and 5, is then all of its window.
const UNREAD: &[&[u8]] = &[
    b"\x00\x00\x04\x08\x00\x80\x00\x00\x01\x80\x00\x00\x03",
    b"\x00\x00\x04\x08\x00\x80\x00\x00\x03\x80\x00\x00\x03",
    b"\x00\x00\x01\x00\x00\x80\x00\x00\x01a",
    b"\x00\x00\x04\x08\xff\x00\x00\x00\x01\x00\x00\x00\x05",
    b"\x00\x00\x01\x00\xf6\x00\x00\x00\x01b",
    b"\x00\x00\x01\x00\xf7\x00\x00\x00\x01c",
    b"\x00\x00\x04\x08\x00\x00\x00\x00\x01\x00\x00\x00\x01",
];

pub(crate) fn run(to: &mut impl Write) -> io::Result<()> {
    let mut store = [0u8; 16];
    let mut buffer = [0u8; 43];
    initial(to, &mut store, &mut buffer)?;
    refused(to, &mut store, &mut buffer)?;
    closed(to, &mut store, &mut buffer)?;
    unread(to, &mut store, &mut buffer)
}

fn begun<'a, W: Write>(
    to: &'a mut W,
    store: &'a mut [u8],
    buffer: &mut [u8],
) -> io::Result<Session<'a, W, On>> {
    let mut session = Session::open(to, bytes(4, 8, 8), On(1), store)?;
    session.launched()?;
    session.write(buffer)?;
    Ok(session)
}

fn all<W: Write>(session: &mut Session<W, On>, frames: &[&[u8]]) -> io::Result<()> {
    for frame in frames {
        session.read(frame)?;
    }
    Ok(())
}

// Before any credit: input is refused, and output waits, each stream's for its own.
fn initial<W: Write>(to: &mut W, store: &mut [u8], buffer: &mut [u8]) -> io::Result<()> {
    writeln!(to, "# the initial windows of 0")?;
    let mut session = Session::open(to, bytes(4, 8, 8), On(1), store)?;
    session.launched()?;
    session.read(b"\x00\x00\x02\x00\x00\x00\x00\x00\x01hi")?;
    session.output()?;
    session.write(buffer)?;
    session.read(b"\x00\x00\x02\x00\x00\x00\x00\x00\x01hi")?;
    session.read(b"\x00\x00\x04\x08\x00\x00\x00\x00\x03\x00\x00\x00\x08")?;
    session.write(buffer)?;
    session.read(b"\x00\x00\x04\x08\x00\x00\x00\x00\x01\x00\x00\x00\x08")?;
    session.write(buffer)
}

fn refused<W: Write>(to: &mut W, store: &mut [u8], buffer: &mut [u8]) -> io::Result<()> {
    writeln!(to, "# 43, 44, 3 to 6, and what comes after Terminal")?;
    let mut session = begun(to, store, buffer)?;
    all(&mut session, BAD)?;
    all(&mut session, PADDED)?;
    all(&mut session, CREDIT)?;
    all(&mut session, INPUT)?;
    session.taken(8)?;
    session.ended(Some(Status::Exited(0)))?;
    session.write(buffer)?;
    all(&mut session, LATE)
}

// The workload closed its input: what comes is late. Yet it is charged, so that of 8 bytes 4 and 3 leave no room for 2, whose end is
// not made; the end of the last byte is, late too.
fn closed<W: Write>(to: &mut W, store: &mut [u8], buffer: &mut [u8]) -> io::Result<()> {
    writeln!(to, "# a closed input")?;
    let mut session = begun(to, store, buffer)?;
    session.input_closed()?;
    all(&mut session, CLOSED)
}

// A reset has any code, 0 too, and any flags. What was sent goes by the credit that was read.
fn unread<W: Write>(to: &mut W, store: &mut [u8], buffer: &mut [u8]) -> io::Result<()> {
    writeln!(
        to,
        "# reserved bits, flags and codes that are not looked at"
    )?;
    let mut session = begun(to, store, buffer)?;
    all(&mut session, UNREAD)?;
    session.taken(3)?;
    session.output()?;
    session.write(buffer)?;
    session.read(b"\x00\x00\x04\x03\xff\x80\x00\x00\x03\x00\x00\x00\x00")?;
    session.requests()?;
    session.ended(Some(Status::Signaled(15)))?;
    session.write(buffer)
}
