// Decimal numbers, read from a text and written into a lent buffer. `0` is 48, `9` is 57.
#![tactic(auto)]

ghost use Rattle.std.specs.Prelude.{◌≡◌, [], ◌++◌, ◌≤◌, length, drop};
ghost use Rattle.decimal.specs.Decimal.{takes, number, signed, digits_of, signed_of};
ghost use Rattle.decimal.specs.DecimalLaws.{last_digits};

// ---- reading

// Whether b is a digit, and v with b behind it is at most `most`. (No product of v: it might wrap.)
fn takes(most: u64, v: u64, b: u64) -> bool
    ensures { result ≡ takes most v b }
{
    (48 <= b) & (b < 58) & ((v < most / 10) | ((v == most / 10) & (b <= 48 + most % 10)))
}

// The number that all of text is, if it is at most `most`.
#[tactic(auto, using(crate::specs::DecimalLaws::number_none, crate::specs::DecimalLaws::number_from_lem, crate::specs::DecimalLaws::turn_taken, crate::specs::DecimalLaws::turn_refused, crate::specs::DecimalLaws::from_end, crate::specs::DecimalLaws::drop_all))]
pub fn read(text: &[u8], most: u64) -> Option<u64>
    ensures { result ≡ number most text.now }
{
    if text.is_empty() {
        return None; // no digit
    }
    let mut v: u64 = 0;
    for c in text {
        let b = u64::from(*c);
        if !takes(most, v, b) {
            return None;
        }
        v = v * 10 + (b - 48);
    }
    Some(v)
}

// The number that all of text is, with a minus in front or none, if an i32 holds it.
#[tactic(auto, unfolding(crate::specs::Decimal::signed), using(crate::specs::SignedLaws::number_most))]
pub fn read_signed(text: &[u8]) -> Option<i32>
    ensures { result ≡ signed text.now }
{
    match text.strip_prefix(b"-") {
        Some(digits) => read(digits, 2147483648).map(|n| (-(n as i64)) as i32),
        None => read(text, 2147483647).map(|n| n as i32),
    }
}

// ---- writing

// How many digits n has: one more than the power of ten that it reaches, and 0 has one.
#[tactic(auto, using(crate::specs::DecimalLaws::count_one, crate::specs::DecimalLaws::count_power))]
pub fn places(n: u64) -> usize
    ensures { (result ≡ length (digits_of n)) × (result ≤ 20) }
{
    n.checked_ilog10().unwrap_or(0) as usize + 1
}

// Fills out with the last digits of n, and with zeros before them where n has fewer.
#[tactic(auto, using(crate::specs::DecimalLaws::last_more, crate::specs::DecimalLaws::last_empty))]
fn put_last_digits(n: u64, out: &mut [u8])
    ensures { out.new ≡ last_digits (length out.old) n [] }
{
    if let Some((last, front)) = out.split_last_mut() {
        *last = (48 + n % 10) as u8;
        put_last_digits(n / 10, front);
    }
}

// Writes the digits of n at the start of out, and returns how many they are.
#[tactic(auto, using(crate::specs::DecimalLaws::last_filled))]
pub fn write(n: u64, out: &mut [u8]) -> usize
    requires { 20 ≤ length out.old }
    ensures out_after { out.new ≡ digits_of n ++ drop (length (digits_of n)) out.old }
    ensures value { result ≡ length (digits_of n) }
{
    let digits = places(n);
    put_last_digits(n, &mut out[..digits]);
    digits
}

// Writes n, with a minus in front where it is negative, at the start of out, and returns how many bytes that takes.
#[tactic(auto, unfolding(crate::specs::Decimal::signed_of))]
pub fn write_signed(n: i32, out: &mut [u8]) -> usize
    requires { 21 ≤ length out.old }
    ensures out_after { out.new ≡ signed_of n ++ drop (length (signed_of n)) out.old }
    ensures value { result ≡ length (signed_of n) }
{
    let magnitude = u64::from(n.unsigned_abs());
    if n < 0 {
        out[0] = b'-';
        return 1 + write(magnitude, &mut out[1..]);
    }
    write(magnitude, out)
}
