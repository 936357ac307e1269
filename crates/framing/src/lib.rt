// The frames of RFC 9113 on the two streams of a runner, read from and written to byte slices: WINDOW_UPDATE, DATA and RST_STREAM
// (6.9, 6.1, 6.4). Stdout and the input are on stream s, stderr is on s + 2. Numbers are big-endian.
#![tactic(auto)]

ghost use Rattle.std.specs.Prelude.{◌≡◌, true, ◌++◌, ◌+◌, ◌≤◌, length, drop};
ghost use Rattle.exec.specs.Written.{written_after};
ghost use Rattle.octets.specs.Bytes.{be24_at, be32};
ghost use Rattle.framing.specs.Framing.{
  is_stream,
  is_framed,
  id_of,
  head,
  named,
  header,
  start,
  size,
  fits,
  number31_at,
  stream_of,
  data_in,
  kinded,
  read,
  is_writable,
  unwritable,
  write,
  lay,
};

use exec::{Refusal, Stream};

// The frames' types, RFC 9113, 6. (Constants and no enum: each is read at one place and written at one.)
const DATA: u8 = 0;

const RST_STREAM: u8 = 3;

const WINDOW_UPDATE: u8 = 8;

// The code that RST_STREAM is written with, RFC 9113, 7.
const CANCEL: u32 = 8;

// The highest numbers that fit 24 and 31 bits.
const MOST_24: u32 = 16777215;

const MOST_31: u32 = 2147483647;

// A frame but for the bytes of its payload, which stand behind its header.
#[derive(Clone, Copy, Debug, PartialEq, Eq)]
pub enum Frame {
    // WINDOW_UPDATE: so many more units of the stream's window.
    Update(Stream, u32),
    // DATA: so many bytes, from byte 9 on, and whether they are the stream's last, by END_STREAM.
    Data(Stream, u32, bool),
    // RST_STREAM.
    Reset(Stream),
}

impl Frame {
    // Where the payload begins.
    pub fn start(self) -> usize
        ensures { result ≡ start self }
    {
        match self {
            Frame::Data(_, _, _) => 9,
            Frame::Update(_, _) | Frame::Reset(_) => 13,
        }
    }

    // How many bytes the payload has.
    pub fn size(self) -> usize
        ensures { result ≡ size self }
    {
        match self {
            Frame::Data(_, n, _) => n as usize,
            Frame::Update(_, _) | Frame::Reset(_) => 0,
        }
    }

    // How many bytes the whole frame has.
    pub fn whole(self) -> usize
        ensures { result ≡ start self + size self }
    {
        self.start() + self.size()
    }

    // The stream that it names.
    fn named(self) -> Stream
        ensures { result ≡ named self }
    {
        match self {
            Frame::Update(x, _) | Frame::Data(x, _, _) | Frame::Reset(x) => x,
        }
    }

    // Whether its number fits the field.
    fn fits(self) -> bool
        ensures { result ≡ fits self }
    {
        match self {
            Frame::Update(_, units) => units <= MOST_31,
            Frame::Data(_, n, _) => n <= MOST_24,
            Frame::Reset(_) => true,
        }
    }
}

// ---- the streams

// Whether s and s + 2 are numbers of streams.
pub fn is_stream(s: u32) -> bool
    ensures { result ≡ is_stream s }
{
    (1 <= s) & (s <= MOST_31 - 2)
}

// Frames have no third stream.
fn is_framed(x: Stream) -> bool
    ensures { result ≡ is_framed x }
{
    !x.is_notes()
}

// A stream's number, and for Notes one that is no stream's.
fn id_of(s: u32, x: Stream) -> u32
    requires { is_stream s ≡ true }
    ensures { result ≡ id_of s x }
{
    match x {
        Stream::Stdout => s,
        Stream::Stderr => s + 2,
        Stream::Notes => 0,
    }
}

// The stream of a number, where s is a stream.
#[tactic(auto, unfolding(crate::specs::Framing::stream_of))]
fn stream_of(s: u32, id: u32) -> Option<Stream>
    ensures { result ≡ stream_of s id }
{
    if !is_stream(s) {
        return None;
    }
    if id == s {
        return Some(Stream::Stdout);
    }
    if id == s + 2 {
        return Some(Stream::Stderr);
    }
    None
}

// ---- reading

// The number of 31 bits at an index, without the reserved bit before it.
#[tactic(auto, unfolding(crate::specs::Framing::number31_at), using(octets::specs::BytesLaws::within_some))]
fn number31(bytes: &[u8], at: usize) -> u32
    requires { at + 4 ≤ length bytes.now }
    ensures { result ≡ number31_at bytes.now at }
{
    octets::number_at(bytes, at).unwrap_or(0) % 2147483648
}

// The padding of DATA is refused, on the stream of the input by a number of its own.
#[tactic(auto, unfolding(crate::specs::Framing::data_in))]
fn data_in(flags: u8, x: Stream, n: u32) -> Result<Frame, Refusal>
    ensures { result ≡ data_in flags x n }
{
    if flags / 8 % 2 == 1 {
        return Err(match x {
            Stream::Stdout => Refusal::PaddedFrame,
            Stream::Stderr => Refusal::BadFrame,
            Stream::Notes => Refusal::BadFrame,
        });
    }
    Ok(Frame::Data(x, n, flags % 2 == 1))
}

// The frame of a type on a stream, with n bytes behind its first nine.
#[tactic(auto, unfolding(crate::specs::Framing::kinded, crate::specs::Framing::of_four))]
fn kinded(bytes: &[u8], x: Stream, n: u32) -> Result<Frame, Refusal>
    requires { (n ≡ be24_at bytes.now 0) × (length bytes.now ≡ 9 + n) }
    ensures { result ≡ kinded bytes.now x }
{
    match bytes[3] {
        DATA => data_in(bytes[4], x, n),
        RST_STREAM if n == 4 => Ok(Frame::Reset(x)),
        WINDOW_UPDATE if n == 4 => Ok(Frame::Update(x, number31(bytes, 9))),
        _ => Err(Refusal::BadFrame),
    }
}

// The frame that all of bytes are, on one of the streams.
#[tactic(auto, unfolding(crate::specs::Framing::read, crate::specs::Framing::on_stream))]
pub fn read(bytes: &[u8], s: u32) -> Result<Frame, Refusal>
    ensures { result ≡ read s bytes.now }
{
    let Some(n) = octets::number24_at(bytes, 0) else {
        return Err(Refusal::BadFrame);
    };
    if bytes.len() != 9 + n as usize {
        return Err(Refusal::BadFrame);
    }
    let Some(x) = stream_of(s, number31(bytes, 5)) else {
        return Err(Refusal::BadFrame);
    };
    kinded(bytes, x, n)
}

// ---- writing

// The first nine bytes.
fn head(n: u32, kind: u8, flags: u8, id: u32) -> [u8; 9]
    ensures { result ≡ head n kind flags id }
{
    let n = n.to_be_bytes();
    let id = id.to_be_bytes();
    [n[1], n[2], n[3], kind, flags, id[0], id[1], id[2], id[3]]
}

// The first nine bytes of a type without flags, and a number behind them.
fn put_number(buffer: &mut [u8], kind: u8, id: u32, number: u32)
    requires { 13 ≤ length buffer.old }
    ensures { buffer.new ≡ (head 4 kind 0 id ++ be32 number) ++ drop 13 buffer.old }
{
    let (first, behind) = buffer.split_at_mut(9);
    first.copy_from_slice(&head(4, kind, 0, id));
    behind[..4].copy_from_slice(&number.to_be_bytes());
}

// Writes all of a frame but its payload at the buffer's start.
#[tactic(auto, unfolding(crate::specs::Framing::header), using(crate::specs::FramingLaws::writable_stream))]
fn put_header(buffer: &mut [u8], s: u32, frame: Frame)
    requires { (is_writable s frame ≡ true) × (start frame ≤ length buffer.old) }
    ensures { buffer.new ≡ header s frame ++ drop (start frame) buffer.old }
{
    match frame {
        Frame::Update(x, units) => put_number(buffer, WINDOW_UPDATE, id_of(s, x), units),
        Frame::Data(x, n, ends) => buffer[..9].copy_from_slice(&head(
            n,
            DATA,
            ends as u8,
            id_of(s, x),
        )),
        Frame::Reset(x) => put_number(buffer, RST_STREAM, id_of(s, x), CANCEL),
    }
}

// Whether bytes can hold the frame.
#[tactic(auto, unfolding(crate::specs::Framing::is_writable))]
fn is_writable(s: u32, frame: Frame) -> bool
    ensures { result ≡ is_writable s frame }
{
    is_framed(frame.named()) & is_stream(s) & frame.fits()
}

// What a frame is refused by that they cannot hold.
fn unwritable(frame: Frame) -> Refusal
    ensures { result ≡ unwritable frame }
{
    if is_framed(frame.named()) {
        Refusal::BadFrame
    } else {
        Refusal::NotFramed
    }
}

// Writes the frame and its payload at the buffer's start, and nothing else.
#[tactic(auto, unfolding(crate::specs::Framing::write, crate::specs::Framing::put_frame, crate::specs::Framing::bytes_of))]
pub fn write(s: u32, frame: Frame, payload: &[u8], buffer: &mut [u8]) -> Result<usize, Refusal>
    ensures { written_after result buffer.new ≡ write s frame payload.now buffer.old }
{
    let whole = frame.whole();
    if buffer.len() < whole {
        return Err(Refusal::BufferShort);
    }
    if payload.len() != frame.size() {
        return Err(Refusal::BadFrame);
    }
    if !is_writable(s, frame) {
        return Err(unwritable(frame));
    }
    buffer[frame.start()..whole].copy_from_slice(payload);
    put_header(buffer, s, frame);
    Ok(whole)
}

// The same with a payload that stands in the buffer already, from byte 9 on, where a frame has it.
#[tactic(auto, using(crate::specs::FramingLaws::lay_short, crate::specs::FramingLaws::lay_bad, crate::specs::FramingLaws::lay_all))]
pub fn lay(s: u32, frame: Frame, buffer: &mut [u8]) -> Result<usize, Refusal>
    ensures { written_after result buffer.new ≡ lay s frame buffer.old }
{
    if buffer.len() < frame.whole() {
        return Err(Refusal::BufferShort);
    }
    if !is_writable(s, frame) {
        return Err(unwritable(frame));
    }
    put_header(buffer, s, frame);
    Ok(frame.whole())
}
