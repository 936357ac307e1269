// The first line, which opens a runner: its fields by their places.
#![tactic(auto)]

ghost use Rattle.std.specs.Prelude.{◌≡◌, length};
ghost use Rattle.syntax.specs.Lines.{fields};
ghost use Rattle.opening.specs.Open.{at, timeout, window, line_open, is_open, limits_of, timers_of, smallest_of, opening_of};
ghost use Rattle.opening.specs.Meaning.{opening_is};

use exec::{Key, Limits, Timers, Window};
use reading::{fields, words};

// What open is given beside the stores.
#[derive(Clone, Copy)]
pub struct Opening {
    pub key: Key,
    pub limits: Limits,
    pub timers: Timers,
    pub smallest: u32,
    pub now: u64,
}

// ---- a timeout: missing, never, or a number

// How long a program may run whose TIMEOUT is missing, in nanoseconds.
const HOUR: u64 = 3600000000000;

#[tactic(auto, using(reading::specs::Naming::same_pointwise), unfolding(crate::specs::Open::timeout, syntax::specs::Words::bytes))]
fn timeout(field: &[u8]) -> Option<Option<u64>>
    ensures { result ≡ timeout field.now }
{
    if words::missing(field) {
        return Some(Some(HOUR));
    }
    if field == b"never".as_slice() {
        return Some(None);
    }
    fields::wide(field).map(Some)
}

// ---- fields by their places

// How many fields a line has.
fn count(line: &[u8]) -> usize
    ensures { result ≡ length (fields line.now) }
{
    line.split(|b| *b == b',').count()
}

// The field at a place; an empty one, where there are fewer. (No Option: the fields are counted before one is read.)
fn field(line: &[u8], k: usize) -> &[u8]
    ensures { result.now ≡ at (fields line.now) k }
{
    line.split(|b| *b == b',').nth(k).unwrap_or(&[])
}

// (How many fields the line has, `n`, is counted once.)
#[tactic(auto, using(reading::specs::Naming::same_pointwise), unfolding(crate::specs::Open::is_open, syntax::specs::Words::bytes))]
fn is_open(line: &[u8], n: usize) -> bool
    requires { n ≡ length (fields line.now) }
    ensures { result ≡ is_open (fields line.now) }
{
    (13 <= n) & (n <= 14) & (field(line, 0) == b"open".as_slice())
}

pub fn window(unit: &[u8], size: &[u8]) -> Option<Window>
    ensures { result ≡ window unit.now size.now }
{
    let unit = words::unit(unit)?;
    let size = fields::narrow(size)?;
    Some(Window { unit, size })
}

// Fields 4 to 9.
#[tactic(auto, unfolding(crate::specs::Open::limits_of))]
fn limits(line: &[u8]) -> Option<Limits>
    ensures { result ≡ limits_of (fields line.now) }
{
    let chunk = fields::narrow(field(line, 4))?;
    let input = window(field(line, 5), field(line, 6))?;
    let output = window(field(line, 7), field(line, 8))?;
    let shared = words::flag(field(line, 9))?;
    Some(Limits::of(chunk, input, output, shared))
}

// Fields 10 to 12.
#[tactic(auto, unfolding(crate::specs::Open::timers_of))]
fn timers(line: &[u8]) -> Option<Timers>
    ensures { result ≡ timers_of (fields line.now) }
{
    let timeout = timeout(field(line, 10))?;
    let grace = fields::wide(field(line, 11))?;
    let settlement = fields::wide(field(line, 12))?;
    Some(Timers {
        timeout,
        grace,
        settlement,
    })
}

// Field 13, the smallest grant: 1, where the line has no such field.
#[tactic(auto, unfolding(crate::specs::Open::smallest_of))]
fn smallest(line: &[u8], n: usize) -> Option<u32>
    requires { n ≡ length (fields line.now) }
    ensures { result ≡ smallest_of (fields line.now) }
{
    if n == 13 {
        return Some(1);
    }
    fields::narrow(field(line, 13))
}

#[tactic(auto, unfolding(crate::specs::Open::opening_of))]
fn opening_of(line: &[u8], n: usize) -> Option<Opening>
    requires { n ≡ length (fields line.now) }
    ensures { opening_is result ≡ opening_of (fields line.now) }
{
    let now = fields::wide(field(line, 1))?;
    let id = fields::wide(field(line, 2))?;
    let generation = fields::wide(field(line, 3))?;
    let agreed = limits(line)?;
    let clocks = timers(line)?;
    let smallest = smallest(line, n)?;
    Some(Opening {
        key: Key::new(id, generation),
        limits: agreed,
        timers: clocks,
        smallest,
        now,
    })
}

// open,NOW,ID,GENERATION,CHUNK,UNIT,SIZE,UNIT,SIZE,SHARED,TIMEOUT,GRACE,SETTLEMENT[,SMALLEST]
#[tactic(auto, unfolding(crate::specs::Open::open_of))]
pub fn open_of(line: &[u8]) -> Option<Opening>
    ensures { opening_is result ≡ line_open line.now }
{
    let n = count(line);
    if is_open(line, n) {
        return opening_of(line, n);
    }
    None
}
