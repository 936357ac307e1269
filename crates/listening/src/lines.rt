// A line of the log read: the limits that begin a list, or an item of the list that stands.
ghost use Rattle.std.specs.Prelude.{◌≡◌};
ghost use Rattle.syntax.specs.Lines.{fields, find};
ghost use Rattle.opening.specs.Open.{window};
ghost use Rattle.reading.specs.FieldLaws.{fields_left};
ghost use Rattle.listening.specs.Log.{limits_by, limits_of, plain_items, granted_of, item1_of, item2_of, item_of, is_limits, line_of};

use exec::{Limits, Stream, Window};
use judge::Item;
use opening::window;
use reading::lines::cut;
use reading::words::named;
use reading::{fields, words};

// What a line is, or None where it is a bad one of its kind.
#[derive(Clone, Copy)]
pub enum Line {
    Begins(Option<Limits>),
    Says(Option<Item>),
}

// ---- limits

fn limits_by(
    chunk: &[u8],
    input: Option<Window>,
    output: Option<Window>,
    shared: &[u8],
) -> Option<Limits>
    ensures { result ≡ limits_by chunk.now input output shared.now }
{
    let chunk = fields::narrow(chunk)?;
    let input = input?;
    let output = output?;
    let shared = words::flag(shared)?;
    Some(Limits::of(chunk, input, output, shared))
}

// The limits of the fields behind the word.
#[tactic(auto, using(crate::specs::LogLaws::limits_none), unfolding(crate::specs::Log::limits_of))]
fn limits_of(rest: Option<&[u8]>) -> Option<Limits>
    ensures { result ≡ limits_of (fields_left rest.entry) }
{
    let (chunk, rest) = cut(rest?);
    let (input, rest) = cut(rest?);
    let (input_size, rest) = cut(rest?);
    let (output, rest) = cut(rest?);
    let (output_size, rest) = cut(rest?);
    let (shared, rest) = cut(rest?);
    match rest {
        None => limits_by(
            chunk,
            window(input, input_size),
            window(output, output_size),
            shared,
        ),
        Some(_) => None,
    }
}

// ---- items, by how many fields stand behind the word

static PLAIN: [(&[u8], Item); 3] = [
    (b"Started", Item::Started),
    (b"InputClosed", Item::InputClosed),
    (b"Terminal", Item::Terminal),
];

#[tactic(auto, unfolding(syntax::specs::Words::bytes, syntax::specs::Lines::find))]
fn plain(name: &[u8]) -> Option<Item>
    ensures { result ≡ find name.now plain_items }
{
    named(name, &PLAIN)
}

#[tactic(auto, using(reading::specs::Naming::same_pointwise), unfolding(syntax::specs::Words::bytes, syntax::specs::Lines::find))]
fn item1(name: &[u8], a: &[u8]) -> Option<Item>
    ensures { result ≡ item1_of name.now a.now }
{
    if name == b"input".as_slice() {
        return fields::wide(a).map(|n| Item::Input(n as usize));
    }
    if name == b"Credit".as_slice() {
        return fields::narrow(a).map(Item::Credit);
    }
    if name == b"Stdout".as_slice() {
        return fields::wide(a).map(|n| Item::Output(Stream::Stdout, n as usize));
    }
    if name == b"Stderr".as_slice() {
        return fields::wide(a).map(|n| Item::Output(Stream::Stderr, n as usize));
    }
    if name == b"End".as_slice() {
        return words::stream(a).map(Item::End);
    }
    None
}

fn granted(a: &[u8], b: &[u8]) -> Option<Item>
    ensures { result ≡ granted_of a.now b.now }
{
    let pool = words::pool(a)?;
    let units = fields::narrow(b)?;
    Some(Item::Granted(pool, units))
}

#[tactic(auto, using(reading::specs::Naming::same_pointwise), unfolding(syntax::specs::Words::bytes, syntax::specs::Lines::find))]
fn item2(name: &[u8], a: &[u8], b: &[u8]) -> Option<Item>
    ensures { result ≡ item2_of name.now a.now b.now }
{
    if name == b"credit".as_slice() {
        return granted(a, b);
    }
    None
}

#[tactic(auto, using(crate::specs::LogLaws::item_none), unfolding(crate::specs::Log::item_of))]
fn item_of(name: &[u8], rest: Option<&[u8]>) -> Option<Item>
    ensures { result ≡ item_of name.now (fields_left rest.entry) }
{
    let Some(rest) = rest else {
        return plain(name);
    };
    let (a, rest) = cut(rest);
    let Some(rest) = rest else {
        return item1(name, a);
    };
    let (b, rest) = cut(rest);
    match rest {
        None => item2(name, a, b),
        Some(_) => None,
    }
}

// ---- a line

#[tactic(auto, using(reading::specs::Naming::same_pointwise), unfolding(syntax::specs::Words::bytes))]
fn is_limits(name: &[u8]) -> bool
    ensures { result ≡ is_limits name.now }
{
    name == b"limits".as_slice()
}

#[tactic(auto, unfolding(crate::specs::Log::line_of))]
pub fn line_of(line: &[u8]) -> Line
    ensures { result ≡ line_of (fields line.now) }
{
    let (name, rest) = cut(line);
    if is_limits(name) {
        return Line::Begins(limits_of(rest));
    }
    Line::Says(item_of(name, rest))
}
