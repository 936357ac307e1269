// The fields of an answer written as text into a lent area, and an answer's parts by their kinds.
#![tactic(auto)]

ghost use Rattle.std.specs.Prelude.{◌≡◌, List, ℕ, [], ◌∷◌, ◌++◌, ◌+◌, ◌≤◌, length, take};
ghost use Rattle.decimal.specs.Decimal.{digits_of, signed_of};
ghost use Rattle.syntax.specs.Words.{bytes, stream_name, cause_name};
ghost use Rattle.syntax.specs.Answers.{
  dash,
  or_dash,
  flag,
  status_text,
  failure_text,
  three,
  word,
  filled,
  outcome_text,
};
ghost use Rattle.printing.specs.Adding.{IsWord, HasRoom, Adds, answer_most};

use exec::{Cause, LaunchFailure, Outcome, Status, Stream};

// ---- a text

// Text that is written into a lent area, each piece behind the one before it.
#[derive(Drop)]
pub struct Text<'a> {
    pub area: &'a mut [u8],
    // The index behind what is written.
    pub end: usize,
}

// What can stand in a field of an answer. (No `Display`: a flag is 1 or 0 here and what is missing `-`, the most bytes that a field
// takes are part of its contract, and a Result would be answered that is always Ok.)
pub trait Field: Copy {
    ghost text: { Self → List ℕ };

    // The most bytes that the text takes.
    ghost most: { ℕ };

    fn put(self, out: &mut Text<'_>)
        requires { HasRoom most out.old }
        ensures { Adds most out.old out.new (text self) };
}

impl Text<'_> {
    pub fn put_byte(&mut self, b: u8)
        requires { HasRoom 1 self.old }
        ensures { Adds 1 self.old self.new (b ∷ []) }
    {
        self.area[self.end] = b;
        self.end += 1;
    }

    pub fn put(&mut self, bytes: &[u8])
        requires { HasRoom (length bytes.now) self.old }
        ensures { Adds (length bytes.now) self.old self.new bytes.now }
    {
        let end = self.end + bytes.len();
        self.area[self.end..end].copy_from_slice(bytes);
        self.end = end;
    }

    // A mark of one byte, and a field behind it.
    fn put_after<T: Field>(&mut self, mark: u8, field: T)
        requires { HasRoom (T.most + 1) self.old }
        ensures { Adds (T.most + 1) self.old self.new (mark ∷ T.text field) }
    {
        self.put_byte(mark);
        field.put(self);
    }

    // ---- answers by their kind: a word, a number or a name, bytes

    pub fn alone(&mut self, name: &[u8])
        requires { IsWord name.now × HasRoom 16 self.old }
        ensures { Adds 16 self.old self.new (word name.now) }
    {
        self.put(name);
        self.put(b",-,-");
    }

    pub fn with<T: Field>(&mut self, name: &[u8], field: T)
        requires { IsWord name.now × HasRoom (T.most + 15) self.old }
        ensures { Adds (T.most + 15) self.old self.new (three name.now (T.text field) dash) }
    {
        self.put(name);
        self.put_after(b',', field);
        self.put(b",-");
    }

    pub fn with_bytes(&mut self, name: &[u8], bytes: &[u8])
        requires { IsWord name.now × (length bytes.now ≤ 65536) × HasRoom answer_most self.old }
        ensures { Adds answer_most self.old self.new (filled name.now bytes.now) }
    {
        self.put(name);
        self.put_after(b',', bytes.len());
        self.put_byte(b',');
        self.end += hexadecimal::write(bytes, &mut self.area[self.end..]);
    }
}

// The first n bytes of work, or all of them where there are fewer.
#[tactic(auto, using(crate::specs::Lengths::take_fewer))]
pub fn first(work: &[u8], n: usize) -> &[u8]
    ensures { result.now ≡ take n work.now }
{
    &work[..n.min(work.len())]
}

// ---- fields

// (Three impls: one for whatever is `Into<u64>` would take a bool too.)
impl Field for u64 {
    ghost text = { digits_of };

    ghost most = { 20 };

    fn put(self, out: &mut Text<'_>) {
        out.end += decimal::write(self, &mut out.area[out.end..]);
    }
}

impl Field for u32 {
    ghost text = { digits_of };

    ghost most = { 20 };

    fn put(self, out: &mut Text<'_>) {
        u64::from(self).put(out);
    }
}

impl Field for usize {
    ghost text = { digits_of };

    ghost most = { 20 };

    fn put(self, out: &mut Text<'_>) {
        (self as u64).put(out);
    }
}

impl Field for i32 {
    ghost text = { signed_of };

    // (As many as `write_signed` asks for.)
    ghost most = { 21 };

    fn put(self, out: &mut Text<'_>) {
        out.end += decimal::write_signed(self, &mut out.area[out.end..]);
    }
}

#[tactic(auto, unfolding(syntax::specs::Words::bytes))]
impl Field for bool {
    ghost text = { flag };

    ghost most = { 1 };

    fn put(self, out: &mut Text<'_>) {
        out.put_byte(if self { b'1' } else { b'0' });
    }
}

// A stream's name, which is a field and, with its bytes, a word.
#[tactic(auto, unfolding(syntax::specs::Words::bytes))]
pub fn name_of(stream: Stream) -> &'static [u8]
    ensures { (result.now ≡ stream_name stream) × (length result.now ≤ 6) }
{
    match stream {
        Stream::Stdout => b"Stdout",
        Stream::Stderr => b"Stderr",
        Stream::Notes => b"Notes",
    }
}

impl Field for Stream {
    ghost text = { stream_name };

    ghost most = { 6 };

    fn put(self, out: &mut Text<'_>) {
        out.put(name_of(self));
    }
}

#[tactic(auto, unfolding(syntax::specs::Words::bytes))]
impl Field for Cause {
    ghost text = { cause_name };

    ghost most = { 12 };

    fn put(self, out: &mut Text<'_>) {
        match self {
            Cause::Cancelled => out.put(b"Cancelled"),
            Cause::Dropped => out.put(b"Dropped"),
            Cause::TimedOut => out.put(b"TimedOut"),
            Cause::Reset => out.put(b"Reset"),
            Cause::Disconnected => out.put(b"Disconnected"),
        }
    }
}

#[tactic(auto, unfolding(syntax::specs::Words::bytes))]
impl Field for Status {
    ghost text = { status_text };

    ghost most = { 22 };

    fn put(self, out: &mut Text<'_>) {
        match self {
            Status::Exited(n) => out.put_after(b'E', n),
            Status::Signaled(n) => out.put_after(b'S', n),
        }
    }
}

impl Field for LaunchFailure {
    ghost text = { failure_text };

    ghost most = { 42 };

    fn put(self, out: &mut Text<'_>) {
        self.stage.put(out);
        out.put_after(b'/', self.error);
    }
}

#[tactic(auto, unfolding(syntax::specs::Words::bytes))]
impl<T: Field> Field for Option<T> {
    ghost text = { or_dash T.text };

    ghost most = { T.most + 1 };

    fn put(self, out: &mut Text<'_>) {
        match self {
            None => out.put_byte(b'-'),
            Some(x) => x.put(out),
        }
    }
}

impl Field for Outcome {
    ghost text = { outcome_text };

    ghost most = { 99 };

    fn put(self, out: &mut Text<'_>) {
        out.put(b"Terminal,-,-");
        out.put_after(b',', self.status);
        out.put_after(b',', self.cause);
        out.put_after(b',', self.launch_failure);
        out.put_after(b',', self.stdout_truncated);
        self.stderr_truncated.put(out);
        out.put_after(b',', self.reusable);
    }
}
