// Reads a log from standard input, in pieces, and prints what the judge says of each list in it. All that matters is crate listening.
#![tactic(auto)]

use listening::listener::Listener;
use std::io;
use std::io::{Read, Write};

fn main(rt: HostRuntime) -> io::Result<()> {
    let mut from = rt.stdin();
    let mut to = io::writer(&rt);
    let mut piece = [0u8; 65536];
    let mut out = [0u8; 150];
    let mut listener = Listener::new();
    // A number of turns that no run uses up: a `loop` would owe a measure, and an input has none.
    for _ in 0..u64::MAX {
        let n = from.read(&mut piece)?;
        if n == 0 {
            break;
        }
        for byte in &piece[..n] {
            let said = listener.eat(*byte, &mut out);
            to.write_all(&out[..said])?;
        }
    }
    let said = listener.end(&mut out);
    to.write_all(&out[..said])
}
