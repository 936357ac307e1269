// What an execution needs of the stores that it is lent.
ghost use Rattle.std.specs.Prelude.{◌≡◌, leb, true};
ghost use Rattle.inbox.specs.Need.{rings_of, byte_need, need_fits, length_need};

use exec::{Limits, Unit};

// The bytes that the rings of the output streams take: a chunk for each stream that is open.
pub fn rings(limits: Limits) -> usize
    ensures { result ≡ rings_of limits }
{
    let chunk = limits.chunk as usize;
    let notes = if limits.has_notes() { chunk } else { 0 };
    (chunk + chunk) + notes
}

// The bytes: the rings of the output streams, and the inbox.
pub fn byte_need(limits: Limits) -> usize
    requires { need_fits limits ≡ true }
    ensures { result ≡ byte_need limits }
{
    rings(limits) + limits.input_bytes()
}

// Whether the need is one that a store can have. (With two streams it always is.)
#[tactic(auto, using(crate::specs::Need::fits_apart))]
pub fn need_fits(limits: Limits) -> bool
    ensures { result ≡ need_fits limits }
{
    !limits.has_notes() | (limits.input_bytes() <= usize::MAX - rings(limits))
}

// Whether a byte store of so many bytes does.
pub fn bytes_do(limits: Limits, bytes: usize) -> bool
    ensures { result ≡ leb (byte_need limits) bytes }
{
    rings(limits)
        .checked_add(limits.input_bytes())
        .is_some_and(|need| need <= bytes)
}

// The lengths: one for each frame of the input, where it counts frames.
pub fn length_need(limits: Limits) -> usize
    ensures { result ≡ length_need limits }
{
    match limits.input.unit {
        Unit::Bytes => 0,
        Unit::Frames => limits.input.size as usize,
    }
}
