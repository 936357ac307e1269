// What is written, and where: into buffers all of whose bytes are ee before. Those from chunk + 13 on, and from 43 on at least, are
// kept; those behind a frame and before that are free, and not looked at.
use crate::carried::{On, bytes};
use exec::{Status, Stream};
use std::io;
use std::io::Write;
use steps::print::Hex;
use steps::session::Session;

const CANARY: u8 = 0xee;

pub(crate) fn run(to: &mut impl Write) -> io::Result<()> {
    let mut store = [0u8; 128];
    short(to, &mut store)?;
    both(to, &mut store)?;
    one(to, &mut store)?;
    none(to, &mut store)?;
    long(to, &mut store)
}

fn kept(to: &mut impl Write, bytes: &[u8]) -> io::Result<()> {
    writeln!(to, "kept,{},{}", bytes.len(), Hex(bytes))
}

// 42 bytes are refused, with a message waiting that is then told. Started and InputClosed are no frames.
fn short(to: &mut impl Write, store: &mut [u8]) -> io::Result<()> {
    writeln!(to, "# a buffer of 42 bytes, and one of 48")?;
    let mut low = [CANARY; 42];
    let mut buffer = [CANARY; 48];
    messages(to, store, &mut low, &mut buffer)?;
    kept(to, &low)?;
    kept(to, &buffer[43..])
}

fn messages(
    to: &mut impl Write,
    store: &mut [u8],
    low: &mut [u8],
    buffer: &mut [u8],
) -> io::Result<()> {
    let mut session = Session::open(to, bytes(4, 8, 8), On(1), store)?;
    session.launched()?;
    session.write(low)?;
    session.write(buffer)?;
    session.input_closed()?;
    session.write(low)?;
    session.write(buffer)?;
    session.read(b"\x00\x00\x04\x08\x00\x00\x00\x00\x01\x00\x00\x00\x01")?;
    session.output()?;
    session.write(buffer)?;
    session.read(b"\x00\x00\x04\x08\x00\x00\x00\x00\x03\x00\x00\x00\x08")?;
    session.read(b"\x00\x00\x04\x08\x00\x00\x00\x00\x01\x00\x00\x00\x08")?;
    session.write(buffer)
}

// Terminal after a reset, with both Ends missing, with stdout's, and with none.
fn both(to: &mut impl Write, store: &mut [u8]) -> io::Result<()> {
    writeln!(to, "# Terminal with both Ends missing")?;
    let mut buffer = [CANARY; 48];
    reset(to, &[], store, &mut buffer)?;
    kept(to, &buffer[43..])
}

fn one(to: &mut impl Write, store: &mut [u8]) -> io::Result<()> {
    writeln!(to, "# Terminal with stdout's End missing")?;
    let mut buffer = [CANARY; 48];
    reset(to, &[Stream::Stderr], store, &mut buffer)?;
    kept(to, &buffer[43..])
}

fn none(to: &mut impl Write, store: &mut [u8]) -> io::Result<()> {
    writeln!(to, "# Terminal with no End missing")?;
    let mut buffer = [CANARY; 48];
    reset(to, &[Stream::Stdout, Stream::Stderr], store, &mut buffer)?;
    kept(to, &buffer[43..])
}

// The streams that close do so before the reset, and their Ends are told; the others close behind it.
fn reset(
    to: &mut impl Write,
    closing: &[Stream],
    store: &mut [u8],
    buffer: &mut [u8],
) -> io::Result<()> {
    let mut session = Session::open(to, bytes(4, 8, 8), On(1), store)?;
    session.launched()?;
    for stream in closing {
        session.closed(*stream)?;
    }
    session.write(buffer)?;
    session.read(b"\x00\x00\x04\x03\x00\x00\x00\x00\x01\x00\x00\x00\x08")?;
    session.requests()?;
    session.ended(Some(Status::Signaled(15)))?;
    session.write(buffer)
}

// A chunk of 40 needs 53 bytes: 52 are refused, and those from 53 on are kept.
fn long(to: &mut impl Write, store: &mut [u8]) -> io::Result<()> {
    writeln!(to, "# a chunk of 40")?;
    let mut low = [CANARY; 52];
    let mut buffer = [CANARY; 56];
    chunks(to, store, &mut low, &mut buffer)?;
    kept(to, &low)?;
    kept(to, &buffer[53..])
}

fn chunks(
    to: &mut impl Write,
    store: &mut [u8],
    low: &mut [u8],
    buffer: &mut [u8],
) -> io::Result<()> {
    let mut session = Session::open(to, bytes(40, 8, 40), On(1), store)?;
    session.launched()?;
    session.read(b"\x00\x00\x04\x08\x00\x00\x00\x00\x03\x00\x00\x00\x28")?;
    session.output_to(Stream::Stderr, &[b'a'; 40])?;
    session.write(low)?;
    session.write(buffer)
}
