// Reads a session card from standard input, in pieces, and prints its answers. All that matters is crate card.
#![tactic(auto)]

use feeder::Feeder;
use std::io;
use std::io::Read;

fn main(rt: HostRuntime) -> io::Result<()> {
    let mut from = rt.stdin();
    let mut to = io::writer(&rt);
    let mut piece = [0u8; feeder::AREA];
    let mut feeder = Feeder::new();
    // A number of turns that no run uses up: a `loop` would owe a measure, and an input has none.
    for _ in 0..u64::MAX {
        let n = from.read(&mut piece)?;
        if (n == 0) | !feeder.feed(&piece[..n], &mut to)? {
            break;
        }
    }
    feeder.end(&mut to)
}
