// A session between OpenSSH's client and its server, `printf ab | ssh .. 'cat; printf bad >&2'`: the runner reads the records
// that the client sent (channel 2), and writes those that the server did (channel 1). Both are in oracle/openssh/records.txt.
use crate::carried::{Records, channel};
use exec::Status;
use std::io;
use std::io::Write;
use steps::session::Session;

// What windows of 2^21 bytes and data of at most 32768 bytes need, as OpenSSH has them.
const STORE: usize = 2162688;

const BUFFER: usize = 32781;

pub(crate) fn run(to: &mut impl Write) -> io::Result<()> {
    let mut store = [0u8; STORE];
    session(to, &mut store)
}

// (A function of its own: where so large an array is made, its proof is too deep.)
fn session(to: &mut impl Write, store: &mut [u8; STORE]) -> io::Result<()> {
    let mut buffer = [0u8; BUFFER];
    let mut session = Session::open(to, channel(32768, 2097152), Records::of(2, 1), store)?;
    session.launched()?;
    // The client's window stands in its kind 90, which opens the channel and is no record of the runner's: here it comes by a 93.
    session.read(b"\x5d\x00\x00\x00\x02\x00\x20\x00\x00")?;
    session.write(&mut buffer)?;
    // The input ends before the workload takes it, so that no more credit is due.
    session.read(b"\x5e\x00\x00\x00\x02\x00\x00\x00\x02ab")?;
    session.read(b"\x60\x00\x00\x00\x02")?;
    session.taken(2)?;
    session.output()?;
    session.write(&mut buffer)?;
    // The Terminal's two records are the server's own: the 98 that tells the status, and the 97.
    session.ended(Some(Status::Exited(0)))?;
    session.write(&mut buffer)?;
    session.read(b"\x61\x00\x00\x00\x02")
}
