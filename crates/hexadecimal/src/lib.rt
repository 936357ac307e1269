// Bytes in lowercase hexadecimal, two digits a byte, read from a text and written into a lent buffer.
#![tactic(auto)]

ghost use Rattle.std.specs.Prelude.{◌≡◌, true, ◌++◌, ◌*◌, ◌/◌, ◌≤◌, ◌<◌, length, drop};
ghost use Rattle.hexadecimal.specs.Hexadecimal.{is_hex, are_hex, are_pairs, digit_of, hex_digit, hex_of, pairs, unhex};
ghost use Rattle.hexadecimal.specs.Answers.{maybe_length, unhex_into};

// ---- reading

fn is_hex(c: u8) -> bool
    ensures { result ≡ is_hex c }
{
    ((48 <= c) & (c < 58)) | ((97 <= c) & (c < 103))
}

// (No way out at the first byte that is none: so many bytes are looked at in one step of the machine.)
#[tactic(auto, using(crate::specs::HexadecimalLaws::hex_fold))]
fn are_hex(text: &[u8]) -> bool
    ensures { result ≡ are_hex text.now }
{
    text.iter().copied().fold(true, |good, c| good & is_hex(c))
}

#[tactic(auto, unfolding(crate::specs::Hexadecimal::are_pairs))]
fn are_pairs(text: &[u8]) -> bool
    ensures { result ≡ are_pairs text.now }
{
    (text.len() % 2 == 0) & are_hex(text)
}

// Entry c is the value of the byte c as a digit, and 255 where c is none: `0` is 48, `a` is 97. (No Option: a byte is looked up
// once the text is known to have digits only. No constant: that would be made anew on the stack wherever it is indexed.)
#[rattlefmt::skip]
static DIGITS: [u8; 256] = [
    255, 255, 255, 255, 255, 255, 255, 255, 255, 255, 255, 255, 255, 255, 255, 255,
    255, 255, 255, 255, 255, 255, 255, 255, 255, 255, 255, 255, 255, 255, 255, 255,
    255, 255, 255, 255, 255, 255, 255, 255, 255, 255, 255, 255, 255, 255, 255, 255,
    0, 1, 2, 3, 4, 5, 6, 7, 8, 9, 255, 255, 255, 255, 255, 255,
    255, 255, 255, 255, 255, 255, 255, 255, 255, 255, 255, 255, 255, 255, 255, 255,
    255, 255, 255, 255, 255, 255, 255, 255, 255, 255, 255, 255, 255, 255, 255, 255,
    255, 10, 11, 12, 13, 14, 15, 255, 255, 255, 255, 255, 255, 255, 255, 255,
    255, 255, 255, 255, 255, 255, 255, 255, 255, 255, 255, 255, 255, 255, 255, 255,
    255, 255, 255, 255, 255, 255, 255, 255, 255, 255, 255, 255, 255, 255, 255, 255,
    255, 255, 255, 255, 255, 255, 255, 255, 255, 255, 255, 255, 255, 255, 255, 255,
    255, 255, 255, 255, 255, 255, 255, 255, 255, 255, 255, 255, 255, 255, 255, 255,
    255, 255, 255, 255, 255, 255, 255, 255, 255, 255, 255, 255, 255, 255, 255, 255,
    255, 255, 255, 255, 255, 255, 255, 255, 255, 255, 255, 255, 255, 255, 255, 255,
    255, 255, 255, 255, 255, 255, 255, 255, 255, 255, 255, 255, 255, 255, 255, 255,
    255, 255, 255, 255, 255, 255, 255, 255, 255, 255, 255, 255, 255, 255, 255, 255,
    255, 255, 255, 255, 255, 255, 255, 255, 255, 255, 255, 255, 255, 255, 255, 255,
];

fn value(c: u8) -> u8
    ensures { result ≡ digit_of c }
{
    DIGITS[c as usize]
}

// Writes the bytes that the pairs of digits stand for at the start of out.
// (Never inlined: so its loop has the registers for itself, which was measured a little faster.)
#[inline(never)]
#[tactic(auto, using(ring::specs::Runs::copied_zero, crate::specs::Digits::pair_high, crate::specs::Digits::pair_low, crate::specs::HexadecimalLaws::unhex_turn, crate::specs::HexadecimalLaws::unhex_end))]
fn put_pairs(text: &[u8], out: &mut [u8])
    requires { (are_hex text.now ≡ true) × (2 * (length text.now / 2) ≡ length text.now) × (length text.now / 2 ≤ length out.old) }
    ensures { out.new ≡ pairs text.now ++ drop (length text.now / 2) out.old }
{
    let (pairs, _) = text.as_chunks::<2>();
    // (By index: of a slice that is written through an adapter of `iter_mut` a proof knows its length alone; and no recursion, as in
    // decimal, since the loop is to have the registers for itself.)
    for (j, pair) in pairs.iter().enumerate() {
        out[j] = value(pair[0]) * 16 + value(pair[1]);
    }
}

// Writes the bytes that all of text stands for at the start of out, and says how many; where text is refused, nothing is written.
#[tactic(auto, unfolding(crate::specs::Hexadecimal::unhex), using(crate::specs::HexadecimalLaws::pairs_hex, crate::specs::HexadecimalLaws::pairs_even, crate::specs::HexadecimalLaws::pairs_length))]
pub fn read(text: &[u8], out: &mut [u8]) -> Option<usize>
    requires { length text.now / 2 ≤ length out.old }
    ensures value { result ≡ maybe_length (unhex text.now) }
    ensures out_after { out.new ≡ unhex_into (unhex text.now) out.old }
{
    if are_pairs(text) {
        put_pairs(text, out);
        Some(text.len() / 2)
    } else {
        None
    }
}

// ---- writing

#[tactic(auto, unfolding(crate::specs::Hexadecimal::hex_digit))]
fn digit(d: u8) -> u8
    requires { d < 16 }
    ensures { result ≡ hex_digit d }
{
    if d < 10 { 48 + d } else { 87 + d }
}

// Writes the digits of bytes at the start of out, and returns how many they are.
#[tactic(auto, using(ring::specs::Runs::copied_zero, crate::specs::HexadecimalLaws::hex_write_front, crate::specs::HexadecimalLaws::hex_written, crate::specs::HexadecimalLaws::hex_length))]
pub fn write(bytes: &[u8], out: &mut [u8]) -> usize
    requires { 2 * length bytes.now ≤ length out.old }
    ensures out_after { out.new ≡ hex_of bytes.now ++ drop (length (hex_of bytes.now)) out.old }
    ensures value { result ≡ length (hex_of bytes.now) }
{
    // (By index, as in `put_pairs`.)
    for (j, &b) in bytes.iter().enumerate() {
        out[2 * j] = digit(b / 16);
        out[2 * j + 1] = digit(b % 16);
    }
    2 * bytes.len()
}
