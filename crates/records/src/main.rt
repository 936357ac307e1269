// Channel records read and written over running sessions, one line a step. What is expected was worked out by hand from the
// layouts of RFC 4254, 5.2, 5.3 and 6.10, and from the stops of documents 01 and 02.
#![tactic(auto)]

mod carried;
mod channel5;
mod exit;
mod openssh;
mod other;

use std::io;

fn main(rt: HostRuntime) -> io::Result<()> {
    let mut to = io::writer(&rt);
    channel5::run(&mut to)?;
    openssh::run(&mut to)?;
    other::run(&mut to)?;
    exit::run(&mut to)
}
