// Feeds a card with pieces of its input and writes its answers, for the programs that read cards.
#![tactic(auto)]

ghost use Rattle.std.specs.Prelude.{◌≡◌, length};
ghost use Rattle.card.specs.Turning.{new_card};

use card::feed::Card;
use std::io;
use std::io::Write;

// How long an area is for a line, a piece of input, or the runner's bytes.
pub const AREA: usize = 65536;

// How long an area is for answers, the longest of which takes half of it, or for the text of many cards.
pub const LARGE_AREA: usize = 262144;

// How many lengths the runner has.
pub const LENGTHS: usize = 1024;

// A card, and the areas that it is lent.
#[derive(Drop)]
pub struct Feeder {
    card: Card,
    line: [u8; AREA],
    store: [u8; AREA],
    lengths: [u32; LENGTHS],
    out: [u8; LARGE_AREA],
}

impl Feeder {
    // Before the first line of a card.
    pub fn new() -> Self
        ensures card { result.card ≡ new_card }
        ensures sized { (length result.line ≡ 65536) × (length result.store ≡ 65536) × (length result.lengths ≡ 1024) × (length result.out ≡ 262144) }
    {
        Feeder {
            card: Card::new(),
            line: [0; AREA],
            store: [0; AREA],
            lengths: [0; LENGTHS],
            out: [0; LARGE_AREA],
        }
    }

    // Writes the first n bytes of the answers, or all if there are fewer.
    fn emit<W: Write>(&self, n: usize, to: &mut W) -> io::Result<()> {
        to.write_all(&self.out[..n.min(LARGE_AREA)])
    }

    // Eats a piece and writes its answers, as many as the area for them holds at a time. Says whether all of the piece was eaten.
    pub fn feed<W: Write>(&mut self, piece: &[u8], to: &mut W) -> io::Result<bool> {
        let mut rest = piece;
        // (No `for`: how much of the piece a turn takes is the card's to say.)
        while !rest.is_empty() {
            let eaten = self.card.eat(
                &mut self.line,
                &mut self.store,
                &mut self.lengths,
                rest,
                &mut self.out,
            );
            self.card = eaten.card;
            self.emit(eaten.printed, to)?;
            if eaten.used == 0 {
                return Ok(false);
            }
            rest = &rest[eaten.used.min(rest.len())..];
        }
        Ok(true)
    }

    // The end of the input, which ends a line that has begun. What comes next is another card.
    pub fn end<W: Write>(&mut self, to: &mut W) -> io::Result<()>
        ensures { self.new.card ≡ new_card }
    {
        let last = self.card.finish(
            &self.line,
            &mut self.store,
            &mut self.lengths,
            &mut self.out,
        );
        self.card = Card::new();
        self.emit(last.printed, to)
    }
}
