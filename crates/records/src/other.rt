// A runner that is no channel, as one of its windows counts frames: it reads and writes no record.
use crate::carried::Records;
use exec::{Limits, Window};
use std::io;
use std::io::Write;
use steps::session::Session;

// 13 is met before the 20 of an empty record, and before the 25 of a buffer below 43 bytes, which are more than chunk + 13.
pub(crate) fn run(to: &mut impl Write) -> io::Result<()> {
    let limits = Limits::of(4, Window::frames(2), Window::bytes(8), true);
    let mut store = [0u8; 16];
    let mut session = Session::open(to, limits, Records::of(5, 5), &mut store)?;
    session.read(b"")?;
    session.write(&mut [0u8; 16])
}
