// A session on channel 5, of small windows: records both ways, the refusals of a record, and the end of the session.
use crate::carried::{Records, channel};
use exec::Status;
use std::io;
use std::io::Write;
use steps::session::Session;

// The end of the input, and what is refused, one after the other: an empty record; kind 98, which a runner writes and does
// not read; data cut short; data whose length counts the header too; data for channel 6; extended data of type 2, and of type 1,
// which is not for a runner to read; data after the end; a grant of no units; a 98 for channel 6, of which the kind is met first.
const REFUSED: &[&[u8]] = &[
    b"\x60\x00\x00\x00\x05",
    b"",
    b"\x62\x00\x00\x00\x05",
    b"\x5e\x00\x00\x00\x05\x00\x00\x00\x02h",
    b"\x5e\x00\x00\x00\x05\x00\x00\x00\x0bhi",
    b"\x5e\x00\x00\x00\x06\x00\x00\x00\x02hi",
    b"\x5f\x00\x00\x00\x05\x00\x00\x00\x02\x00\x00\x00\x02hi",
    b"\x5f\x00\x00\x00\x05\x00\x00\x00\x01\x00\x00\x00\x02hi",
    b"\x5e\x00\x00\x00\x05\x00\x00\x00\x02hi",
    b"\x5d\x00\x00\x00\x05\x00\x00\x00\x00",
    b"\x62\x00\x00\x00\x06",
];

pub(crate) fn run(to: &mut impl Write) -> io::Result<()> {
    let mut store = [0u8; 16];
    // 43 bytes are just enough, as they are more than chunk + 13.
    let mut buffer = [0u8; 43];
    let mut short = [0u8; 42];
    let mut session = Session::open(to, channel(4, 8), Records::of(5, 5), &mut store)?;
    session.launched()?;
    session.read(b"\x5d\x00\x00\x00\x05\x00\x00\x00\x08")?;
    session.output()?;
    session.write(&mut buffer)?;
    session.read(b"\x5e\x00\x00\x00\x05\x00\x00\x00\x02hi")?;
    session.taken(2)?;
    // One byte less is refused, with a message waiting that is then told.
    session.write(&mut short)?;
    session.write(&mut buffer)?;
    for record in REFUSED {
        session.read(record)?;
    }
    session.ended(Some(Status::Exited(0)))?;
    session.write(&mut buffer)?;
    session.read(b"\x61\x00\x00\x00\x05")
}
