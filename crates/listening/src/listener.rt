// The bytes of a log, fed one after the other: a line is heard where it ends, and what is said is written into a lent area.
ghost use Rattle.std.specs.Prelude.{◌≡◌, ◌++◌, ◌≤◌, length};
ghost use Rattle.printing.specs.Written.{Wrote};
ghost use Rattle.printing.specs.Adding.{HasRoom, Adds};
ghost use Rattle.listening.specs.Log.{accepted_text, refused_text, verdict_text, said_text, start, read, hold, line_ends, eat, ended, ends};
ghost use Rattle.listening.specs.Listens.{listening_of};

use crate::lines::{Line, line_of};
use crate::stage::{Stage, Verdict};
use exec::Refusal;
use printing::{Field, Text};

#[derive(Clone, Copy)]
pub struct Listener {
    stage: Stage,
    // The line that has not ended: its first bytes, how many of them are held, and whether it has more than have room.
    line: [u8; 255],
    held: u8,
    long: bool,
}

// ---- what is said, written

fn put_accepted(heard: u64, out: &mut Text<'_>)
    requires { HasRoom 50 out.old }
    ensures { Adds 50 out.old out.new (accepted_text heard) }
{
    out.put(b"accepted,");
    heard.put(out);
    out.put_byte(b'\n');
}

fn put_refused(refusal: Refusal, place: u64, out: &mut Text<'_>)
    requires { HasRoom 50 out.old }
    ensures { Adds 50 out.old out.new (refused_text refusal place) }
{
    out.put(b"refused,");
    refusal.number().put(out);
    out.put_byte(b',');
    place.put(out);
    out.put_byte(b'\n');
}

fn put_verdict(verdict: Verdict, out: &mut Text<'_>)
    requires { HasRoom 50 out.old }
    ensures { Adds 50 out.old out.new (verdict_text verdict) }
{
    match verdict {
        Verdict::Accepted(n) => put_accepted(n, out),
        Verdict::Refused(refusal, n) => put_refused(refusal, n, out),
    }
}

fn put_said(said: Option<Verdict>, out: &mut Text<'_>)
    requires { HasRoom 50 out.old }
    ensures { Adds 50 out.old out.new (said_text said) }
{
    match said {
        None => {}
        Some(verdict) => put_verdict(verdict, out),
    }
}

// ---- lines out of bytes

impl Listener {
    // Before the first byte.
    pub fn new() -> Self
        ensures { listening_of result ≡ start }
    {
        Listener {
            stage: Stage::Before,
            line: [0; 255],
            held: 0,
            long: false,
        }
    }

    // A byte of the line that has not ended.
    #[tactic(auto, unfolding(crate::specs::Log::hold), using(crate::specs::Listens::held_one, crate::specs::Listens::held_most))]
    fn hold(&mut self, byte: u8)
        ensures { listening_of self.new ≡ hold byte (listening_of self.old) }
    {
        if self.held < 255 {
            self.line[self.held as usize] = byte;
            self.held += 1;
        } else {
            self.long = true;
        }
    }

    // The line that is held, read.
    #[tactic(auto, unfolding(crate::specs::Log::read))]
    fn read(&self) -> Line
        ensures { result ≡ read self.now.long (listening_of self.now).held }
    {
        if self.long {
            return Line::Says(None);
        }
        line_of(&self.line[..self.held as usize])
    }

    // The line that is held ends.
    #[tactic(auto, unfolding(crate::specs::Log::line_ends))]
    fn end_line(&mut self, out: &mut Text<'_>)
        requires { HasRoom 100 out.old }
        ensures heard { listening_of self.new ≡ (line_ends (listening_of self.old)).listening }
        ensures said { Adds 100 out.old out.new (line_ends (listening_of self.old)).printed }
    {
        let heard = self.stage.heard(self.read());
        self.stage = heard.stage;
        self.held = 0;
        self.long = false;
        put_said(heard.ended, out);
        put_said(heard.said, out);
    }

    // One byte more.
    #[tactic(auto, unfolding(crate::specs::Log::eat), using(printing::specs::Adding::at_most))]
    fn take(&mut self, byte: u8, out: &mut Text<'_>)
        requires { HasRoom 150 out.old }
        ensures heard { listening_of self.new ≡ (eat (listening_of self.old) byte).listening }
        ensures said { Adds 150 out.old out.new (eat (listening_of self.old) byte).printed }
    {
        if byte == b'\n' {
            self.end_line(out);
        } else {
            self.hold(byte);
        }
    }

    // A line that has begun ends where the input does.
    #[tactic(auto, unfolding(crate::specs::Log::ended), using(crate::specs::Listens::held_most))]
    fn end_held(&mut self, out: &mut Text<'_>)
        requires { HasRoom 100 out.old }
        ensures heard { listening_of self.new ≡ (ended (listening_of self.old)).listening }
        ensures said { Adds 100 out.old out.new (ended (listening_of self.old)).printed }
    {
        if 0 < self.held {
            self.end_line(out);
        }
    }

    // That line, and the end of the list that stands.
    fn finish(&mut self, out: &mut Text<'_>)
        requires { HasRoom 150 out.old }
        ensures { Adds 150 out.old out.new (ends (listening_of self.old)) }
    {
        self.end_held(out);
        put_said(self.stage.last(), out);
    }

    // Hears one byte. What is said is written at the start of `out`, and its length returned. (150 bytes are more than is said at once:
    // it is at most two lines of at most 32.)
    pub fn eat(&mut self, byte: u8, out: &mut [u8]) -> usize
        requires { 150 ≤ length out.old }
        ensures heard { listening_of self.new ≡ (eat (listening_of self.old) byte).listening }
        ensures said { Wrote 150 out.old out.new 0 result (eat (listening_of self.old) byte).printed }
    {
        let mut text = Text { area: out, end: 0 };
        self.take(byte, &mut text);
        text.end
    }

    // Hears that the input ends, likewise.
    pub fn end(&mut self, out: &mut [u8]) -> usize
        requires { 150 ≤ length out.old }
        ensures { Wrote 150 out.old out.new 0 result (ends (listening_of self.old)) }
    {
        let mut text = Text { area: out, end: 0 };
        self.finish(&mut text);
        text.end
    }
}
