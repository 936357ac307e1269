// The values that fields stand for: numbers within their types, statuses, launch results, bytes.
ghost use Rattle.std.specs.Prelude.{◌≡◌, ◌≤◌, ◌/◌, length};
ghost use Rattle.decimal.specs.Decimal.{signed};
ghost use Rattle.hexadecimal.specs.Hexadecimal.{unhex};
ghost use Rattle.syntax.specs.Lines.{u64, u32, message_length, key_of, status, launch_result};
ghost use Rattle.reading.specs.Meaning.{bytes_is};

use crate::words::{flag, missing};
use exec::{Key, LaunchFailure, Status};

// ---- numbers. (Two of smaller types, and no generic one: over `TryFrom<u64>` its contract alone would be longer than both.)

pub fn wide(field: &[u8]) -> Option<u64>
    ensures { result ≡ u64 field.now }
{
    decimal::read(field, u64::MAX)
}

#[tactic(auto, using(decimal::specs::SignedLaws::number_most))]
pub fn narrow(field: &[u8]) -> Option<u32>
    ensures { result ≡ u32 field.now }
{
    decimal::read(field, u64::from(u32::MAX)).map(|n| n as u32)
}

#[tactic(auto, using(decimal::specs::SignedLaws::number_most))]
pub(crate) fn message_length(field: &[u8]) -> Option<u16>
    ensures { result ≡ message_length field.now }
{
    decimal::read(field, 16384).map(|n| n as u16)
}

pub(crate) fn integer(field: &[u8]) -> Option<i32>
    ensures { result ≡ signed field.now }
{
    decimal::read_signed(field)
}

// ---- a key: its id and its generation

pub(crate) fn key(id: &[u8], generation: &[u8]) -> Option<Key>
    ensures { result ≡ key_of id.now generation.now }
{
    let id = wide(id)?;
    let generation = wide(generation)?;
    Some(Key::new(id, generation))
}

// ---- a status: E or S with a number, or missing

#[tactic(auto, unfolding(syntax::specs::Lines::status))]
pub(crate) fn status(field: &[u8]) -> Option<Option<Status>>
    ensures { result ≡ status field.now }
{
    let (kind, number) = field.split_first()?;
    if missing(field) {
        return Some(None);
    }
    match *kind {
        b'E' => integer(number).map(|n| Some(Status::Exited(n))),
        b'S' => integer(number).map(|n| Some(Status::Signaled(n))),
        _ => None,
    }
}

// ---- a launch result: OK 0 with nothing else, or 1 with stage and error

#[tactic(auto, unfolding(syntax::specs::Lines::launch_result))]
pub(crate) fn launch_result(
    ok: &[u8],
    stage: &[u8],
    error: &[u8],
) -> Option<Result<(), LaunchFailure>>
    ensures { result ≡ launch_result ok.now stage.now error.now }
{
    if flag(ok)? {
        let stage = narrow(stage)?;
        let error = integer(error)?;
        return Some(Err(LaunchFailure { stage, error }));
    }
    (missing(stage) & missing(error)).then_some(Ok(()))
}

// ---- bytes, which are left at the start of `work`

pub(crate) fn bytes(field: &[u8], work: &mut [u8]) -> Option<usize>
    requires { length field.now / 2 ≤ length work.old }
    ensures { bytes_is result work.new ≡ unhex field.now }
{
    hexadecimal::read(field, work)
}
