// Answers the cards of standard input, at most 262,144 bytes of them, each ended by a line of four dashes, and ends the answers to
// each by the same line. The gate runs it on the recorded sample of random cards, whose answers are the Rust's.
#![tactic(auto)]

ghost use Rattle.std.specs.Prelude.{◌≤◌, ◌<◌, IfOk, length};
ghost use Rattle.std.specs.Option.{ForSome};

use feeder::Feeder;
use std::io;
use std::io::{Read, Write};

// The line that ends a card.
const END: &[u8] = b"----\n";

// A text up to the end of its first line, and what stands behind it.
fn cut(text: &[u8]) -> (&[u8], &[u8])
    ensures { 0 < length text.now → length result.1.now < length text.now }
{
    match search::find(text, b'\n') {
        Some(at) => text.split_at(at + 1),
        None => (text, &text[text.len()..]),
    }
}

// The first card of a text, and what stands behind the line of dashes that ends it, if one does.
fn first_card(text: &[u8]) -> (&[u8], Option<&[u8]>)
    ensures { ForSome result.1 (λ behind. length behind.now < length text.now) }
{
    let mut rest = text;
    // (No `for`: a turn takes a line off the text, with its end.)
    while !rest.is_empty() {
        let (next, behind) = cut(rest);
        if next == END {
            return (&text[..text.len() - rest.len()], Some(behind));
        }
        rest = behind;
    }
    (text, None)
}

// The cards of a text, one after the other. What stands behind the last line of dashes is a card too. (A card is fed in one piece, as each
// piece clears an area and is a write at least; and at one place, as `feed` is then a part of this and has no stack of its own.)
fn answer_all<W: Write>(text: &[u8], feeder: &mut Feeder, to: &mut W) -> io::Result<()> {
    let mut rest = text;
    loop {
        let (card, behind) = first_card(rest);
        feeder.feed(card, to)?;
        feeder.end(to)?;
        let Some(behind) = behind else {
            return Ok(());
        };
        to.write_all(END)?;
        rest = behind;
    }
}

// Reads up to the end of the input or of the area, and says how many bytes came.
fn fill<R: Read>(from: &mut R, area: &mut [u8]) -> io::Result<usize>
    ensures { IfOk result (λ n. n ≤ length area.new) }
{
    let mut n = 0;
    // A number of turns that no run uses up: a `loop` would owe a measure, and an input has none.
    for _ in 0..u64::MAX {
        let got = from.read(&mut area[n..])?;
        if got == 0 {
            break;
        }
        n += got;
    }
    Ok(n)
}

fn main(rt: HostRuntime) -> io::Result<()> {
    let mut text = [0u8; feeder::LARGE_AREA];
    let n = fill(&mut rt.stdin(), &mut text)?;
    answer_all(&text[..n], &mut Feeder::new(), &mut io::writer(&rt))
}
