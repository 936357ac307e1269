// The rings of the streams and the credit accounts, which stand side by side, by stream and by pool.
ghost use Rattle.std.specs.Prelude.{◌≡◌, cond, [], ◌∷◌};
ghost use Rattle.runner.specs.State.{base, credit_at, put_credit, credits_fit};

use credit::sender::Credit;
use exec::{Limits, Stream, row};

// Where a stream's ring begins in the byte store.
pub(crate) fn ring_base(stream: Stream, chunk: u32) -> usize
    ensures { result ≡ base stream chunk }
{
    let chunk = chunk as usize;
    stream.pick(0, chunk, 2 * chunk)
}

pub(crate) fn credit_at(index: usize, credits: [Credit; 3]) -> Credit
    ensures { result ≡ credit_at index credits }
{
    row::at(index, credits)
}

pub(crate) fn put_credit(index: usize, credit: Credit, credits: [Credit; 3]) -> [Credit; 3]
    ensures { result ≡ put_credit index credit credits }
{
    row::put(index, credit, credits)
}

// Whether no account has more than its window. It takes the accounts and not their array, which would be copied whole.
pub(crate) fn credits_fit(limits: Limits, first: Credit, second: Credit, third: Credit) -> bool
    ensures { result ≡ credits_fit limits (first ∷ second ∷ third ∷ []) }
{
    (first.fits() & second.fits()) & (!limits.has_notes() | third.fits())
}
