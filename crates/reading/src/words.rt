// The words of the card, read: a field is a word where it has the word's bytes and no others.
ghost use Rattle.std.specs.Prelude.{◌≡◌};
ghost use Rattle.syntax.specs.Words.{stream, pool, cause, settlement, unit};
ghost use Rattle.syntax.specs.Lines.{find, missing, digit};
ghost use Rattle.reading.specs.Naming.{entries};

use exec::{Cause, Pool, Settlement, Stream, Unit};

// What the first of these names stands for that the field is.
#[tactic(auto, using(crate::specs::Naming::find_entries))]
pub fn named<T: Copy>(field: &[u8], table: &[(&[u8], T)]) -> Option<T>
    ensures { result ≡ find field.now (entries table.now) }
{
    table
        .iter()
        .find(|entry| field == entry.0)
        .map(|entry| entry.1)
}

// ---- words. (A function for each type and no trait: an impl would name the table and the definition as these do, and be longer.)

// (A card opens two streams: Notes is not read, as a stream or as a pool.)
static STREAMS: [(&[u8], Stream); 2] = [(b"Stdout", Stream::Stdout), (b"Stderr", Stream::Stderr)];

#[tactic(auto, unfolding(syntax::specs::Words::bytes, syntax::specs::Words::named, syntax::specs::Lines::find))]
pub fn stream(field: &[u8]) -> Option<Stream>
    ensures { result ≡ stream field.now }
{
    named(field, &STREAMS)
}

static POOLS: [(&[u8], Pool); 4] = [
    (b"Input", Pool::Input),
    (b"Stdout", Pool::Stdout),
    (b"Stderr", Pool::Stderr),
    (b"Output", Pool::Output),
];

#[tactic(auto, unfolding(syntax::specs::Words::bytes, syntax::specs::Words::named, syntax::specs::Lines::find))]
pub fn pool(field: &[u8]) -> Option<Pool>
    ensures { result ≡ pool field.now }
{
    named(field, &POOLS)
}

static CAUSES: [(&[u8], Cause); 5] = [
    (b"Cancelled", Cause::Cancelled),
    (b"Dropped", Cause::Dropped),
    (b"TimedOut", Cause::TimedOut),
    (b"Reset", Cause::Reset),
    (b"Disconnected", Cause::Disconnected),
];

#[tactic(auto, unfolding(syntax::specs::Words::bytes, syntax::specs::Words::named, syntax::specs::Lines::find))]
pub(crate) fn cause(field: &[u8]) -> Option<Cause>
    ensures { result ≡ cause field.now }
{
    named(field, &CAUSES)
}

static SETTLEMENTS: [(&[u8], Settlement); 2] = [
    (b"Settled", Settlement::Settled),
    (b"Failed", Settlement::Failed),
];

#[tactic(auto, unfolding(syntax::specs::Words::bytes, syntax::specs::Words::named, syntax::specs::Lines::find))]
pub(crate) fn settlement(field: &[u8]) -> Option<Settlement>
    ensures { result ≡ settlement field.now }
{
    named(field, &SETTLEMENTS)
}

static UNITS: [(&[u8], Unit); 2] = [(b"B", Unit::Bytes), (b"F", Unit::Frames)];

#[tactic(auto, unfolding(syntax::specs::Words::bytes, syntax::specs::Words::named, syntax::specs::Lines::find))]
pub fn unit(field: &[u8]) -> Option<Unit>
    ensures { result ≡ unit field.now }
{
    named(field, &UNITS)
}

#[tactic(auto, using(crate::specs::Naming::same_pointwise), unfolding(syntax::specs::Words::bytes))]
pub fn missing(field: &[u8]) -> bool
    ensures { result ≡ missing field.now }
{
    field == b"-".as_slice()
}

// 0 or 1.
static FLAGS: [(&[u8], bool); 2] = [(b"0", false), (b"1", true)];

#[tactic(auto, unfolding(syntax::specs::Words::bytes, syntax::specs::Words::named, syntax::specs::Lines::digit, syntax::specs::Lines::find))]
pub fn flag(field: &[u8]) -> Option<bool>
    ensures { result ≡ digit field.now }
{
    named(field, &FLAGS)
}
