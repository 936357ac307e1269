// Numbers in bytes: a u32 read and written as four of them, or read as three, the most significant first.
#![tactic(auto)]

ghost use Rattle.std.specs.Prelude.{◌≡◌, ◌+◌, ◌≤◌, length};
ghost use Rattle.ring.specs.Runs.{copied};
ghost use Rattle.octets.specs.Bytes.{be32, number_within, number24_within};

// The number whose four bytes stand at index at, if the bytes do not end before.
#[tactic(auto, unfolding(crate::specs::Bytes::number_within, crate::specs::Bytes::be32_at))]
pub fn number_at(s: &[u8], at: usize) -> Option<u32>
    ensures { result ≡ number_within s.now at }
{
    let four = s.get(at..)?.first_chunk()?;
    Some(u32::from_be_bytes(*four))
}

// (At an index: a field of a record stands so many bytes from its start, as the RFC has it.)
#[tactic(auto, unfolding(ring::specs::Runs::copied))]
pub fn put_be32(buffer: &mut [u8], at: usize, v: u32)
    requires { at + 4 ≤ length buffer.old }
    ensures { buffer.new ≡ copied buffer.old at (be32 v) 0 4 }
{
    buffer[at..at + 4].copy_from_slice(&v.to_be_bytes());
}

// The number whose three bytes stand at index at, if the bytes do not end before.
#[tactic(auto, unfolding(crate::specs::Bytes::number24_within, crate::specs::Bytes::be24_at))]
pub fn number24_at(s: &[u8], at: usize) -> Option<u32>
    ensures { result ≡ number24_within s.now at }
{
    let three: &[u8; 3] = s.get(at..)?.first_chunk()?;
    Some(u32::from_be_bytes([0, three[0], three[1], three[2]]))
}
