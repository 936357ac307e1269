// A session that is fed pieces of input: each line is answered where it ends, into a lent output area.
ghost use Rattle.std.specs.Prelude.{◌≡◌, ◌+◌, ◌≤◌, ◌<◌, length};
ghost use Rattle.card.specs.Feeding.{line_length};
ghost use Rattle.standing.specs.Standing.{Kept};
ghost use Rattle.card.specs.Holding.{lent, lent_with, Holds, EndsLine};
ghost use Rattle.card.specs.Turning.{Passes, Goes, new_card, is_ready, Fed, Eats, Ended, Finishes};

use exec::{Key, Limits, Timers};
use ring::copy_in;
use runner::runner::Runner;
use standing::areas::Areas;
use standing::{Stage, Standing};

#[derive(Clone, Copy)]
pub struct Card {
    pub standing: Standing,
    // How many lines were answered.
    pub lines: u64,
    // How many bytes of a line that has not ended stand in the line area; 65,536 are too many already. (The area is lent, as there is
    // no heap, and any number may stand here, as a card asks nothing of who made it.)
    pub held: usize,
}

// The card after a piece, how many bytes of the piece it has eaten, and how many bytes of the output area have answers. (Both may be 0:
// the promise says how many of every piece, and no case apart.)
#[derive(Clone, Copy)]
pub struct Eaten {
    pub card: Card,
    pub used: usize,
    pub printed: usize,
}

// ---- lines out of pieces

// How many bytes stand before the first end of a line (0a), or in all of the text where there is none.
fn line_length(text: &[u8]) -> usize
    ensures { (result ≡ line_length text.now) × (result ≤ length text.now) }
{
    search::find(text, b'\n').unwrap_or(text.len())
}

impl Card {
    // Bytes of a line, of which no more are held than tell that it is too long.
    fn hold(&mut self, line: &mut [u8], bytes: &[u8])
        requires { (self.old.held ≤ 65536) × (length line.old ≡ 65536) }
        ensures { Holds bytes.now self.old line.old self.new line.new }
    {
        let n = (65536 - self.held).min(bytes.len());
        copy_in(line, self.held, bytes, 0, n);
        self.held += n;
    }

    // The line that is held ends: its answer is written from index `at` on, and the index behind it returned.
    fn end_line(&mut self, line: &[u8], areas: &mut Areas, out: &mut [u8], at: usize) -> usize
        requires { (length line.now ≡ 65536) × (self.old.held ≤ 65536) × (self.old.lines < 18446744073709551615) × (at + 131200 ≤ length out.old) }
        ensures answer { EndsLine at self.old (lent_with line.now areas.old out.old) self.new result (lent_with line.now areas.new out.new) }
        ensures kept { Kept areas.old areas.new }
    {
        let answer = self.standing.answer(&line[0..self.held], areas);
        self.lines += 1;
        self.held = 0;
        answering::write_line(self.lines, answer, areas.work(), out, at)
    }
}

// ---- pieces

// Between two lines of a piece: how much of it is eaten, and where the next answer goes, which are what `eat` answers in the end; and
// whether there is more to do, by which the loop ends and its measure falls.
#[derive(Clone, Copy)]
pub(crate) struct Turn {
    pub(crate) card: Card,
    pub(crate) used: usize,
    pub(crate) at: usize,
    pub(crate) more: bool,
}

impl Turn {
    // The line that is held ends where so much of the piece is eaten: it is answered if there is room.
    fn pass_line(&mut self, line: &[u8], areas: &mut Areas, out: &mut [u8])
        requires { (length line.now ≡ 65536) × (self.old.card.held ≤ 65536) × (self.old.at ≤ length out.old) × (self.old.used < 18446744073709551615) }
        ensures answer { Passes self.old.at self.old.used self.old.card (lent_with line.now areas.old out.old) self.new (lent_with line.now areas.new out.new) }
        ensures kept { Kept areas.old areas.new }
    {
        if (131200 <= out.len() - self.at) & (self.card.lines < 18446744073709551615) {
            self.at = self.card.end_line(line, areas, out, self.at);
            self.used += 1;
            self.more = true;
        } else {
            self.more = false;
        }
    }

    // To the end of a line and its answer; or to where the piece ends, or the area may not hold the next answer.
    fn go_on(&mut self, line: &mut [u8], areas: &mut Areas, piece: &[u8], out: &mut [u8])
        requires { (length line.old ≡ 65536) × (self.old.card.held ≤ 65536) × (self.old.at ≤ length out.old) × (self.old.used ≤ length piece.now) }
        ensures answer { Goes piece.now self.old (lent_with line.old areas.old out.old) self.new (lent_with line.new areas.new out.new) }
        ensures kept { Kept areas.old areas.new }
    {
        let rest = &piece[self.used..];
        let n = line_length(rest);
        self.card.hold(line, &rest[..n]);
        self.used += n;
        if n < rest.len() {
            self.pass_line(line, areas, out);
        } else {
            self.more = false;
        }
    }
}

impl Card {
    // A session before its first line.
    #[tactic(auto, unfolding(crate::specs::Turning::new_card))]
    pub fn new() -> Card
        ensures { result ≡ new_card }
    {
        let none = Limits::none();
        let noting = Runner::open(Key::new(0, 0), none, Timers::new(0, 0), 1, 0, &[], &[]);
        let runner = noting.runner;
        Card {
            standing: Standing {
                stage: Stage::First,
                runner,
            },
            lines: 0,
            held: 0,
        }
    }

    // Whether the areas are a session's: 65,536 bytes for a line, and the runner's stores of 65,536 bytes and 1,024 lengths.
    fn is_ready(self, line: usize, store: usize, lengths: usize) -> bool
        ensures { result ≡ is_ready self line store lengths }
    {
        (self.held <= 65536) & (line == 65536) & (store == 65536) & (lengths == 1024)
    }

    fn eat_all(self, line: &mut [u8], areas: &mut Areas, piece: &[u8], out: &mut [u8]) -> Eaten
        requires { (length line.old ≡ 65536) × (self.held ≤ 65536) }
        ensures answer { Fed piece.now self (lent_with line.old areas.old out.old) result (lent_with line.new areas.new out.new) }
        ensures kept { Kept areas.old areas.new }
    {
        let mut t = Turn {
            card: self,
            used: 0,
            at: 0,
            more: true,
        };
        while t.more {
            t.go_on(line, areas, piece, out);
        }
        let card = t.card;
        Eaten {
            card,
            used: t.used,
            printed: t.at,
        }
    }

    // Eats a piece of input and writes the answers at the start of `out`. It stops before the end of a line where less than
    // 131,200 bytes of `out` are free, which is more than any answer has, and says how much of the piece it has eaten. With areas
    // that are not a session's it eats nothing. The stores are left as they are while no runner is open.
    pub fn eat(
        self,
        line: &mut [u8],
        store: &mut [u8],
        lengths: &mut [u32],
        piece: &[u8],
        out: &mut [u8],
    ) -> Eaten
        ensures { Eats piece.now self (lent line.old store.old lengths.old out.old)
            result (lent line.new store.new lengths.new out.new) }
    {
        if self.is_ready(line.len(), store.len(), lengths.len()) {
            let mut work = [0u8; 65536];
            let mut areas = Areas {
                store,
                lengths,
                work: &mut work,
            };
            return self.eat_all(line, &mut areas, piece, out);
        }
        Eaten {
            card: self,
            used: 0,
            printed: 0,
        }
    }

    fn end_held(self, line: &[u8], areas: &mut Areas, out: &mut [u8]) -> Eaten
        requires { (length line.now ≡ 65536) × (self.held ≤ 65536) × (self.lines < 18446744073709551615) × (131200 ≤ length out.old) }
        ensures answer { Ended self (lent_with line.now areas.old out.old) result (lent_with line.now areas.new out.new) }
        ensures kept { Kept areas.old areas.new }
    {
        if 0 < self.held {
            let mut card = self;
            let printed = card.end_line(line, areas, out, 0);
            return Eaten {
                card,
                used: 0,
                printed,
            };
        }
        Eaten {
            card: self,
            used: 0,
            printed: 0,
        }
    }

    // The end of the input ends a line that has begun. Where there is no room for its answer nothing changes.
    pub fn finish(self, line: &[u8], store: &mut [u8], lengths: &mut [u32], out: &mut [u8]) -> Eaten
        ensures { Finishes self (lent line.now store.old lengths.old out.old)
            result (lent line.now store.new lengths.new out.new) }
    {
        let ready = self.is_ready(line.len(), store.len(), lengths.len());
        if ready & (self.lines < 18446744073709551615) & (131200 <= out.len()) {
            let mut work = [0u8; 65536];
            let mut areas = Areas {
                store,
                lengths,
                work: &mut work,
            };
            return self.end_held(line, &mut areas, out);
        }
        Eaten {
            card: self,
            used: 0,
            printed: 0,
        }
    }
}
