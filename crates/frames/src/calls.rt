// The two frame calls on a runner: a frame read is the calls that it stands for, a frame written is the next message.
ghost use Rattle.std.specs.Prelude.{◌≡◌, true, ◌≤◌, length};
ghost use Rattle.exec.specs.Written.{written_after};
ghost use Rattle.carrier.specs.Carrier.{read_after, accepted, write_after, room, wrote, wrote_buffer, told, asked};
ghost use Rattle.framing.specs.Framing.{start, is_stream, is_framed as has_frames, read};
ghost use Rattle.frames.specs.Calls.{
  is_plain,
  is_small,
  is_framed,
  pool_of,
  data_made,
  made,
  read_frame,
  reset_unless,
  sent_as,
  laying,
  carriage,
  write_frame,
};
ghost use Rattle.frames.specs.CallLaws.{laid_after, resets, Layable, Sayable};

use carrier::{accept, admit, ask, read_as, ready, room};
use exec::{Limits, Pool, Receipt, Refusal, Stream, Unit};
use framing::Frame;
use inbox::need;
use runner::answer::{After, Message};
use runner::runner::Runner;

// The longest payload that every peer takes, RFC 9113, 4.2, and the largest window, 6.9.1.
const MOST_PAYLOAD: u32 = 16384;

const MOST_WINDOW: u32 = 2147483647;

// ---- what is met before a frame: 12, 10, 46, 11, 42

// Whether there are two streams, each has a pool, and bytes are counted both ways.
fn is_plain(limits: Limits) -> bool
    ensures { result ≡ is_plain limits }
{
    !limits.shared
        && limits.input.unit == Unit::Bytes
        && limits.output.unit == Unit::Bytes
        && !limits.has_notes()
}

// Whether chunk and windows fit frames.
fn is_small(limits: Limits) -> bool
    ensures { result ≡ is_small limits }
{
    (limits.chunk <= MOST_PAYLOAD)
        & (limits.input.size <= MOST_WINDOW)
        & (limits.output.size <= MOST_WINDOW)
}

fn is_framed(limits: Limits, s: u32) -> bool
    ensures { result ≡ is_framed limits s }
{
    is_plain(limits) & is_small(limits) & framing::is_stream(s)
}

// ---- a frame read

// Reads a frame for the streams s and s + 2 at an instant, and makes the calls that it stands for under the runner's own key.
#[tactic(auto, unfolding(crate::specs::Calls::read_frame, crate::specs::Calls::parsed_read), using(carrier::specs::CarrierLaws::admitted_by_lem, crate::specs::CallLaws::accepted_whole))]
pub fn read_frame(
    runner: Runner,
    at: u64,
    s: u32,
    bytes: &[u8],
    store: &mut [u8],
    lengths: &mut [u32],
) -> After<Option<Receipt>>
    ensures { read_after result store.new lengths.new ≡ read_frame runner at s bytes.now store.old lengths.old }
{
    let limits = runner.limits;
    let enough = need::bytes_do(limits, store.len()) & (need::length_need(limits) <= lengths.len());
    let admitted = admit(
        runner.limits(),
        enough,
        is_framed(limits, s),
        Refusal::NotFramed,
    );
    match accept(admitted, framing::read(bytes, s)) {
        Ok(frame) => make(frame, runner, at, bytes, store, lengths),
        Err(refusal) => After {
            runner,
            answer: Err(refusal),
        },
    }
}

fn pool_of(x: Stream) -> Pool
    ensures { result ≡ pool_of x }
{
    match x {
        Stream::Stdout => Pool::Stdout,
        Stream::Stderr => Pool::Stderr,
        Stream::Notes => Pool::Notes,
    }
}

// Makes the calls that a frame stands for.
#[tactic(auto, unfolding(crate::specs::Calls::made), using(crate::specs::CallLaws::rest))]
fn make(
    frame: Frame,
    runner: Runner,
    at: u64,
    bytes: &[u8],
    store: &mut [u8],
    lengths: &mut [u32],
) -> After<Option<Receipt>>
    requires { start frame ≤ length bytes.now }
    ensures { read_after result store.new lengths.new ≡ made frame runner at bytes.now store.old lengths.old }
{
    match frame {
        Frame::Update(x, units) => read_as(runner.credit(runner.key, pool_of(x), units), Some),
        Frame::Data(Stream::Stdout, _, ends) => take(runner, ends, &bytes[9..], store, lengths),
        Frame::Data(Stream::Stderr | Stream::Notes, _, _) => After {
            runner,
            answer: Err(Refusal::BadFrame),
        },
        Frame::Reset(_) => read_as(runner.reset(at), |()| None),
    }
}

// The bytes of DATA, and behind them the end of the input, if the frame ends the stream and they are not refused. An end without
// bytes is no input.
#[tactic(auto, unfolding(crate::specs::Calls::data_made, crate::specs::Calls::then_end))]
fn take(
    runner: Runner,
    ends: bool,
    bytes: &[u8],
    store: &mut [u8],
    lengths: &mut [u32],
) -> After<Option<Receipt>>
    ensures { read_after result store.new lengths.new ≡ data_made ends bytes.now runner store.old lengths.old }
{
    if ends & bytes.is_empty() {
        return read_as(runner.end_input(runner.key), Some);
    }
    let hearing = runner.input(runner.key, store, lengths, bytes);
    if ends & hearing.answer.is_ok() {
        return read_as(hearing.runner.end_input(runner.key), Some);
    }
    read_as(hearing, Some)
}

// ---- a frame written

// Takes the next message, and leaves its frames for the streams s and s + 2 at the buffer's start. A buffer below chunk + 13
// bytes, or below 43, is refused before a message is taken.
#[tactic(auto, unfolding(crate::specs::Calls::write_frame, carrier::specs::Carrier::write, carrier::specs::Carrier::written, carrier::specs::Carrier::sent), using(carrier::specs::CarrierLaws::admitted_by_lem, carrier::specs::CarrierLaws::ready_room))]
pub fn write_frame(
    runner: Runner,
    s: u32,
    store: &[u8],
    buffer: &mut [u8],
) -> After<Option<(Message, usize)>>
    ensures { write_after result buffer.new ≡ write_frame runner s store.now buffer.old }
{
    let limits = runner.limits;
    let enough = need::bytes_do(limits, store.len());
    let roomy = room(limits) <= buffer.len();
    let admitted = admit(
        runner.limits(),
        enough,
        is_framed(limits, s),
        Refusal::NotFramed,
    );
    match ready(admitted, roomy) {
        Ok(()) => send(runner, s, store, buffer),
        Err(refusal) => After {
            runner,
            answer: Err(refusal),
        },
    }
}

// The message is asked for from byte 9 on, where its payload stands in its frame.
fn send(runner: Runner, s: u32, store: &[u8], buffer: &mut [u8]) -> After<Option<(Message, usize)>>
    requires { (is_framed runner.limits s ≡ true) × (room runner.limits ≤ length buffer.old) }
    ensures { write_after result buffer.new ≡ told (carriage runner s).laying (asked 9 runner store.now buffer.old) }
{
    let stdout = runner.outputs[0].ended;
    let stderr = runner.outputs[1].ended;
    let saying = ask(runner, 9, store, buffer);
    After {
        runner: saying.runner,
        answer: tell(saying.answer, stdout, stderr, s, buffer),
    }
}

#[tactic(auto, unfolding(crate::specs::CallLaws::Sayable, carrier::specs::Carrier::wrote, carrier::specs::Carrier::wrote_buffer))]
fn tell(
    said: Result<Option<Message>, Refusal>,
    stdout: bool,
    stderr: bool,
    s: u32,
    buffer: &mut [u8],
) -> Result<Option<(Message, usize)>, Refusal>
    requires { Sayable s said (length buffer.old) }
    ensures { (result ≡ wrote (laying s stdout stderr) said) × (buffer.new ≡ wrote_buffer (laying s stdout stderr) said buffer.old) }
{
    let Some(message) = said? else {
        return Ok(None);
    };
    let n = lay_out(message, stdout, stderr, s, buffer)?;
    Ok(Some((message, n)))
}

// Lays the frames of a message at the buffer's start, and returns how many bytes they have. There is room, so that none is refused.
#[tactic(auto, unfolding(crate::specs::Calls::sent_as, crate::specs::CallLaws::Layable), using(crate::specs::CallLaws::lay_none))]
fn lay_out(
    message: Message,
    stdout: bool,
    stderr: bool,
    s: u32,
    buffer: &mut [u8],
) -> Result<usize, Refusal>
    requires { (is_stream s ≡ true) × Layable message (length buffer.old) }
    ensures { written_after result buffer.new ≡ laid_after s (sent_as stdout stderr message) buffer.old }
{
    match message {
        Message::Credit(units) => framing::lay(s, Frame::Update(Stream::Stdout, units), buffer),
        Message::Output(x, n) => framing::lay(s, Frame::Data(x, n as u32, false), buffer),
        Message::End(x) => framing::lay(s, Frame::Data(x, 0, true), buffer),
        Message::Terminal(_) => lay_resets(s, stdout, stderr, buffer),
        Message::Started | Message::InputClosed => Ok(0),
    }
}

// A reset for each stream whose End was not told, stdout's first.
fn lay_resets(s: u32, stdout: bool, stderr: bool, buffer: &mut [u8]) -> Result<usize, Refusal>
    requires { (is_stream s ≡ true) × (26 ≤ length buffer.old) }
    ensures { written_after result buffer.new ≡ laid_after s (resets stdout stderr) buffer.old }
{
    if stdout {
        return lay_reset(s, Stream::Stderr, stderr, buffer);
    }
    let (first, behind) = buffer.split_at_mut(13);
    framing::lay(s, Frame::Reset(Stream::Stdout), first)?;
    let n = lay_reset(s, Stream::Stderr, stderr, behind)?;
    Ok(13 + n)
}

#[tactic(auto, unfolding(crate::specs::Calls::reset_unless), using(crate::specs::CallLaws::lay_one, crate::specs::CallLaws::lay_none))]
fn lay_reset(s: u32, x: Stream, ended: bool, buffer: &mut [u8]) -> Result<usize, Refusal>
    requires { (is_stream s ≡ true) × (has_frames x ≡ true) × (13 ≤ length buffer.old) }
    ensures { written_after result buffer.new ≡ laid_after s (reset_unless ended x) buffer.old }
{
    if ended {
        return Ok(0);
    }
    framing::lay(s, Frame::Reset(x), buffer)
}
