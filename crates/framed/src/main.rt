// Frames read and written over running sessions, one line a step. What is expected was worked out by hand from the layouts of
// RFC 9113, 4.1, 6.1, 6.4 and 6.9, from request A7 of document 02 and from the stops of 01.
#![tactic(auto)]

mod carried;
mod clients;
mod edges;
mod largest;
mod reads;
mod writing;

use std::io;

fn main(rt: HostRuntime) -> io::Result<()> {
    let mut to = io::writer(&rt);
    clients::run(&mut to)?;
    largest::run(&mut to)?;
    edges::run(&mut to)?;
    reads::run(&mut to)?;
    writing::run(&mut to)
}
