// The sessions of oracle/http2/frames.txt with the largest windows, and with the largest chunk.
use crate::carried::{On, bytes};
use exec::Stream;
use framing::Frame;
use std::io;
use std::io::Write;
use steps::print::Answer;
use steps::session::{Session, first};

// What a chunk of 16,384 bytes and an input window of 8 need, and what such a frame needs of a buffer.
const STORE: usize = 32776;

const BUFFER: usize = 16397;

const CHUNK: usize = 16384;

pub(crate) fn run(to: &mut impl Write) -> io::Result<()> {
    windows(to)?;
    let mut store = [0u8; STORE];
    let output = [b'a'; CHUNK];
    longest(to, &mut store, &output)
}

// Credit for all of an input window of 2^31 - 1 would need a store of 2 GiB, so that frame is written without a runner. The
// output's windows need no store.
fn windows(to: &mut impl Write) -> io::Result<()> {
    writeln!(to, "# (e) the largest windows")?;
    let mut store = [0u8; 16];
    let mut buffer = [0u8; 43];
    let update = Frame::Update(Stream::Stdout, 2147483647);
    let written = framing::write(1, update, b"", &mut buffer);
    writeln!(to, "frame,{}", Answer(written.map(|n| first(&buffer, n))))?;
    let mut session = Session::open(to, bytes(4, 8, 2147483647), On(1), &mut store)?;
    session.launched()?;
    session.write(&mut buffer)?;
    session.read(b"\x00\x00\x04\x08\x00\x00\x00\x00\x01\x7f\xff\xff\xff")?;
    session.read(b"\x00\x00\x04\x08\x00\x00\x00\x00\x03\x7f\xff\xff\xff")?;
    // One unit more is none: a window above 2^31 - 1.
    session.read(b"\x00\x00\x04\x08\x00\x00\x00\x00\x01\x00\x00\x00\x01")?;
    session.output()?;
    session.write(&mut buffer)
}

// (A function of its own: where so large an array is made, its proof is too deep.)
fn longest(to: &mut impl Write, store: &mut [u8; STORE], output: &[u8; CHUNK]) -> io::Result<()> {
    writeln!(to, "# (e) output of 16,384 bytes")?;
    let mut buffer = [0u8; BUFFER];
    sent(to, store, output, &mut buffer)?;
    writeln!(to, "payload,{}", buffer[9..9 + CHUNK] == output[..])
}

fn sent(to: &mut impl Write, store: &mut [u8], output: &[u8], buffer: &mut [u8]) -> io::Result<()> {
    let mut session = Session::open(to, bytes(16384, 8, 16384), On(1), store)?;
    session.launched()?;
    session.write(buffer)?;
    session.read(b"\x00\x00\x04\x08\x00\x00\x00\x00\x01\x00\x00\x40\x00")?;
    session.output_to(Stream::Stdout, output)?;
    session.write(buffer)
}
