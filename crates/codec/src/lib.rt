// The records of an open channel, RFC 4254, 5.2 and 5.3, read from and written to byte slices. Numbers are big-endian.
#![tactic(auto)]

ghost use Rattle.std.specs.Prelude.{◌≡◌, nat_eq, ◌∷◌, ◌++◌, ◌+◌, ◌*◌, ◌≤◌, length, drop};
ghost use Rattle.std.specs.List.{flat_map};
ghost use Rattle.octets.specs.Bytes.{be32, number_at};
ghost use Rattle.exec.specs.Written.{written_after};
ghost use Rattle.codec.specs.Codec.{
  notes_type,
  start,
  size,
  header,
  spelled,
  is_typed,
  fitting,
  read,
  write,
  laid_record,
  lay,
};

use exec::Refusal;

// The kinds' message numbers, RFC 4250, 4.1.2. (Constants and no enum: each is read at one place and written at one.)
const ADJUST: u8 = 93;

const DATA: u8 = 94;

const EXTENDED: u8 = 95;

const EOF: u8 = 96;

const CLOSE: u8 = 97;

// The types of extended data, RFC 4254, 5.2: stderr's, and that of Notes, the first of those for private use (0xFE000000 upwards).
const STDERR: u32 = 1;

const NOTES: u32 = 0xfe000000;

// A record but for the bytes of its payload, which stand behind its header.
#[derive(Clone, Copy, Debug, PartialEq, Eq)]
pub enum Record {
    // SSH_MSG_CHANNEL_WINDOW_ADJUST: so many more units of the window.
    Adjust(u32),
    // SSH_MSG_CHANNEL_DATA: so many bytes, from byte 9 on.
    Data(u32),
    // SSH_MSG_CHANNEL_EXTENDED_DATA of type 1, stderr: so many bytes, from byte 13 on.
    Extended(u32),
    // The same of type 0xFE000000, Notes.
    Notes(u32),
    // SSH_MSG_CHANNEL_EOF.
    Eof,
    // SSH_MSG_CHANNEL_CLOSE.
    Close,
}

impl Record {
    // Where the payload begins.
    pub fn start(self) -> usize
        ensures { result ≡ start self }
    {
        match self {
            Record::Eof | Record::Close => 5,
            Record::Adjust(_) | Record::Data(_) => 9,
            Record::Extended(_) | Record::Notes(_) => 13,
        }
    }

    // How many bytes the payload has.
    pub fn size(self) -> usize
        ensures { result ≡ size self }
    {
        match self {
            Record::Data(n) | Record::Extended(n) | Record::Notes(n) => n as usize,
            Record::Adjust(_) | Record::Eof | Record::Close => 0,
        }
    }

    // How many bytes the whole record has.
    pub fn whole(self) -> usize
        ensures { result ≡ start self + size self }
    {
        self.start() + self.size()
    }
}

// ---- reading

// Whether the type of extended data is that of Notes.
#[tactic(auto, using(crate::specs::CodecLaws::type_is))]
fn is_notes(bytes: &[u8]) -> bool
    ensures { result ≡ nat_eq (number_at bytes.now 5) notes_type }
{
    octets::number_at(bytes, 5) == Some(NOTES)
}

// The record of a kind. Where the bytes end before its number, their length is refused. A type that is not known is refused in `fitting`,
// behind length and channel.
#[tactic(auto, unfolding(crate::specs::Codec::spelled))]
fn kinded(kind: u8, bytes: &[u8]) -> Result<Record, Refusal>
    ensures { result ≡ spelled kind bytes.now }
{
    let record = match kind {
        ADJUST => octets::number_at(bytes, 5).map(Record::Adjust),
        DATA => octets::number_at(bytes, 5).map(Record::Data),
        EXTENDED if is_notes(bytes) => octets::number_at(bytes, 9).map(Record::Notes),
        EXTENDED => octets::number_at(bytes, 9).map(Record::Extended),
        EOF => Some(Record::Eof),
        CLOSE => Some(Record::Close),
        _ => return Err(Refusal::UnknownKind),
    };
    record.ok_or(Refusal::BadLength)
}

// Whether n is the number at an index.
#[tactic(auto, using(crate::specs::CodecLaws::number_is))]
fn has_number(bytes: &[u8], at: usize, n: u32) -> bool
    requires { at + 4 ≤ length bytes.now }
    ensures { result ≡ nat_eq (number_at bytes.now at) n }
{
    octets::number_at(bytes, at) == Some(n)
}

// Whether the type of extended data is its record's.
fn is_typed(rec: Record, bytes: &[u8]) -> bool
    requires { start rec ≤ length bytes.now }
    ensures { result ≡ is_typed rec bytes.now }
{
    match rec {
        Record::Extended(_) => has_number(bytes, 5, STDERR),
        Record::Notes(_) => is_notes(bytes),
        Record::Adjust(_) | Record::Data(_) | Record::Eof | Record::Close => true,
    }
}

#[tactic(auto, unfolding(crate::specs::Codec::fitting), using(crate::specs::CodecLaws::start_least))]
fn fitting(rec: Record, bytes: &[u8], channel: u32) -> Result<Record, Refusal>
    ensures { result ≡ fitting channel bytes.now rec }
{
    if bytes.len() != rec.whole() {
        return Err(Refusal::BadLength);
    }
    if !has_number(bytes, 1, channel) {
        return Err(Refusal::OtherChannel);
    }
    if !is_typed(rec, bytes) {
        return Err(Refusal::BadType);
    }
    Ok(rec)
}

// The record that all of bytes are, for a channel.
#[tactic(auto, unfolding(crate::specs::Codec::read, crate::specs::Codec::checked), using(crate::specs::CodecLaws::spelled_ok, crate::specs::CodecLaws::spelled_err))]
pub fn read(bytes: &[u8], channel: u32) -> Result<Record, Refusal>
    ensures { result ≡ read channel bytes.now }
{
    let Some(&kind) = bytes.first() else {
        return Err(Refusal::BadLength);
    };
    fitting(kinded(kind, bytes)?, bytes, channel)
}

// ---- writing

// Numbers, one behind the other.
fn put_numbers(buffer: &mut [u8], numbers: &[u32])
    requires { 4 * length numbers.now ≤ length buffer.old }
    ensures { buffer.new ≡ flat_map be32 numbers.now ++ drop (4 * length numbers.now) buffer.old }
{
    if let Some((&number, behind)) = numbers.split_first() {
        let (first, rest) = buffer.split_at_mut(4);
        first.copy_from_slice(&number.to_be_bytes());
        put_numbers(rest, behind);
    }
}

// A kind and the numbers behind it.
fn put_kind(buffer: &mut [u8], kind: u8, numbers: &[u32])
    requires { 1 + 4 * length numbers.now ≤ length buffer.old }
    ensures { buffer.new ≡ kind ∷ flat_map be32 numbers.now ++ drop (1 + 4 * length numbers.now) buffer.old }
{
    buffer[0] = kind;
    put_numbers(&mut buffer[1..], numbers);
}

// Writes all of a record but its payload at the buffer's start.
#[tactic(auto, unfolding(crate::specs::Codec::header))]
fn put_header(buffer: &mut [u8], channel: u32, rec: Record)
    requires { start rec ≤ length buffer.old }
    ensures { buffer.new ≡ header channel rec ++ drop (start rec) buffer.old }
{
    match rec {
        Record::Adjust(units) => put_kind(buffer, ADJUST, &[channel, units]),
        Record::Data(n) => put_kind(buffer, DATA, &[channel, n]),
        Record::Extended(n) => put_kind(buffer, EXTENDED, &[channel, STDERR, n]),
        Record::Notes(n) => put_kind(buffer, EXTENDED, &[channel, NOTES, n]),
        Record::Eof => put_kind(buffer, EOF, &[channel]),
        Record::Close => put_kind(buffer, CLOSE, &[channel]),
    }
}

// Writes the record and its payload at the buffer's start, and nothing else.
#[tactic(auto, unfolding(crate::specs::Codec::write, crate::specs::Codec::bytes_of), using(crate::specs::CodecLaws::start_most))]
pub fn write(channel: u32, rec: Record, payload: &[u8], buffer: &mut [u8]) -> Result<usize, Refusal>
    ensures { written_after result buffer.new ≡ write channel rec payload.now buffer.old }
{
    let whole = rec.whole();
    if buffer.len() < whole {
        return Err(Refusal::BufferShort);
    }
    if payload.len() != rec.size() {
        return Err(Refusal::BadLength);
    }
    buffer[rec.start()..whole].copy_from_slice(payload);
    put_header(buffer, channel, rec);
    Ok(whole)
}

// The same with a payload that stands in the buffer already, from byte 13 on, where the longest header ends.
#[tactic(auto, unfolding(crate::specs::Codec::lay), using(crate::specs::CodecLaws::header_moved, crate::specs::CodecLaws::start_most))]
pub fn lay(channel: u32, rec: Record, buffer: &mut [u8]) -> Result<usize, Refusal>
    ensures { written_after result buffer.new ≡ lay channel rec buffer.old }
{
    if buffer.len() < 13 + rec.size() {
        return Err(Refusal::BufferShort);
    }
    buffer.copy_within(13..13 + rec.size(), rec.start());
    put_header(buffer, channel, rec);
    Ok(rec.whole())
}
