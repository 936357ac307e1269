// The two record calls on a runner: a record read is the call that it stands for, a record written is the next message.
ghost use Rattle.std.specs.Prelude.{◌≡◌, ◌≤◌, length};
ghost use Rattle.carrier.specs.Carrier.{read_after, accepted, write_after, room, wrote, wrote_buffer, sent};
ghost use Rattle.channel.specs.Calls.{
  is_channel,
  made,
  read_record,
  output_record,
  sent_as,
  last_end,
  length_of,
  sent_buffer,
  laying,
  is_left,
  carriage,
  write_record,
};
ghost use Rattle.channel.specs.CallLaws.{Narrow, Sayable, Roomy};
ghost use Rattle.codec.specs.Codec.{start, read};

use carrier::{accept, admit, ask, read_as, ready, room};
use codec::Record;
use exec::{Limits, Pool, Receipt, Refusal, Status, Stream, Unit};
use inbox::need;
use output::Output;
use output::outputs::seen;
use runner::answer::{After, Message};
use runner::runner::Runner;

// What a message is sent as: one of three cases of a `match`, so that an Option round the other two would only nest it.
#[derive(Clone, Copy, Debug, PartialEq, Eq)]
pub enum Sending {
    Nothing,
    Record(Record),
    // The end of the channel, with how the workload ended.
    Ending(Option<Status>),
}

// ---- what is met before a record: 12, 10, 46, 11, 13

// Whether both streams have one pool, and bytes are counted both ways, as on a channel.
fn is_channel(limits: Limits) -> bool
    ensures { result ≡ is_channel limits }
{
    limits.shared && limits.input.unit == Unit::Bytes && limits.output.unit == Unit::Bytes
}

// ---- a record read

// Reads a record for the channel at an instant, and makes the call that it stands for under the runner's own key.
#[tactic(auto, unfolding(crate::specs::Calls::read_record, crate::specs::Calls::parsed_read), using(carrier::specs::CarrierLaws::admitted_by_lem, crate::specs::CallLaws::accepted_whole))]
pub fn read_record(
    runner: Runner,
    at: u64,
    channel: u32,
    bytes: &[u8],
    store: &mut [u8],
    lengths: &mut [u32],
) -> After<Option<Receipt>>
    ensures { read_after result store.new lengths.new ≡ read_record runner at channel bytes.now store.old lengths.old }
{
    let limits = runner.limits;
    let enough = need::bytes_do(limits, store.len()) & (need::length_need(limits) <= lengths.len());
    let admitted = admit(
        runner.limits(),
        enough,
        is_channel(limits),
        Refusal::NotAChannel,
    );
    match accept(admitted, codec::read(bytes, channel)) {
        Ok(rec) => make(rec, runner, at, bytes, store, lengths),
        Err(refusal) => After {
            runner,
            answer: Err(refusal),
        },
    }
}

// Makes the call that a record stands for.
#[tactic(auto, unfolding(crate::specs::Calls::made), using(crate::specs::CallLaws::rest))]
fn make(
    rec: Record,
    runner: Runner,
    at: u64,
    bytes: &[u8],
    store: &mut [u8],
    lengths: &mut [u32],
) -> After<Option<Receipt>>
    requires { start rec ≤ length bytes.now }
    ensures { read_after result store.new lengths.new ≡ made rec runner at bytes.now store.old lengths.old }
{
    match rec {
        Record::Adjust(units) => read_as(runner.credit(runner.key, Pool::Output, units), Some),
        Record::Data(_) => read_as(runner.input(runner.key, store, lengths, &bytes[9..]), Some),
        Record::Extended(_) | Record::Notes(_) => After {
            runner,
            answer: Err(Refusal::NotInbound),
        },
        Record::Eof => read_as(runner.end_input(runner.key), Some),
        Record::Close => read_as(runner.disconnect(at), |()| None),
    }
}

// ---- a record written

// Takes the next message, and leaves its record for the channel at the buffer's start. A buffer below chunk + 13 bytes, or
// below 43, is refused before a message is taken; so is a Terminal whose status no request tells, which next_message still gives.
#[tactic(auto, unfolding(crate::specs::Calls::write_record, carrier::specs::Carrier::write, carrier::specs::Carrier::written), using(carrier::specs::CarrierLaws::admitted_by_lem, carrier::specs::CarrierLaws::ready_room))]
pub fn write_record(
    runner: Runner,
    channel: u32,
    store: &[u8],
    buffer: &mut [u8],
) -> After<Option<(Message, usize)>>
    ensures { write_after result buffer.new ≡ write_record runner channel store.now buffer.old }
{
    let limits = runner.limits;
    let enough = need::bytes_do(limits, store.len());
    let roomy = room(limits) <= buffer.len();
    let admitted = admit(
        runner.limits(),
        enough,
        is_channel(limits),
        Refusal::NotAChannel,
    );
    match ready(admitted, roomy) {
        Ok(()) => send(runner, channel, store, buffer),
        Err(refusal) => After {
            runner,
            answer: Err(refusal),
        },
    }
}

// The message is asked for from byte 13 on, so that either header fits before its payload. Where it is left, the runner is handed back
// as it was given.
fn send(
    runner: Runner,
    channel: u32,
    store: &[u8],
    buffer: &mut [u8],
) -> After<Option<(Message, usize)>>
    requires { room runner.limits ≤ length buffer.old }
    ensures { write_after result buffer.new ≡ sent (carriage runner channel store.now buffer.old) runner store.now buffer.old }
{
    let outputs = seen(runner.limits.has_notes(), runner.outputs);
    let saying = ask(runner, 13, store, buffer);
    if is_left(saying.answer) {
        return After {
            runner,
            answer: Err(Refusal::UntoldStatus),
        };
    }
    After {
        runner: saying.runner,
        answer: tell(saying.answer, outputs, channel, buffer),
    }
}

#[tactic(auto, unfolding(crate::specs::Calls::is_left))]
fn is_left(said: Result<Option<Message>, Refusal>) -> bool
    ensures { result ≡ is_left said }
{
    match said {
        Ok(Some(Message::Terminal(outcome))) => exits::is_untold(outcome.status),
        _ => false,
    }
}

// Whether the End of every other stream came.
fn last_end(outputs: [Output; 3], stream: Stream) -> bool
    ensures { result ≡ last_end outputs stream }
{
    let [stdout, stderr, notes] = outputs;
    stream.pick(
        stderr.ended & notes.ended,
        stdout.ended & notes.ended,
        stdout.ended & stderr.ended,
    )
}

#[tactic(auto, unfolding(crate::specs::CallLaws::Sayable, carrier::specs::Carrier::wrote, carrier::specs::Carrier::wrote_buffer))]
fn tell(
    said: Result<Option<Message>, Refusal>,
    outputs: [Output; 3],
    channel: u32,
    buffer: &mut [u8],
) -> Result<Option<(Message, usize)>, Refusal>
    requires { Sayable said (length buffer.old) }
    ensures { (result ≡ wrote (laying channel (last_end outputs)) said) × (buffer.new ≡ wrote_buffer (laying channel (last_end outputs)) said buffer.old) }
{
    let Some(message) = said? else {
        return Ok(None);
    };
    let out = sent_as(outputs, message);
    let n = lay_out(out, channel, buffer)?;
    Ok(Some((message, n)))
}

// What a message is sent as, by the outputs before it: an End that is not the last writes nothing, as another stream goes on.
#[tactic(auto, unfolding(crate::specs::Calls::sent_as, crate::specs::CallLaws::Narrow))]
fn sent_as(outputs: [Output; 3], message: Message) -> Sending
    requires { Narrow message }
    ensures { result ≡ sent_as (last_end outputs) message }
{
    match message {
        Message::Credit(units) => Sending::Record(Record::Adjust(units)),
        Message::Output(stream, n) => Sending::Record(output_record(stream, n as u32)),
        Message::End(stream) if last_end(outputs, stream) => Sending::Record(Record::Eof),
        Message::Terminal(outcome) => Sending::Ending(outcome.status),
        Message::Started | Message::End(_) | Message::InputClosed => Sending::Nothing,
    }
}

fn output_record(stream: Stream, n: u32) -> Record
    ensures { result ≡ output_record stream n }
{
    match stream {
        Stream::Stdout => Record::Data(n),
        Stream::Stderr => Record::Extended(n),
        Stream::Notes => Record::Notes(n),
    }
}

// Lays what is sent at the buffer's start, and returns how many bytes of it that has. There is room, so that it is not refused.
#[tactic(auto, unfolding(crate::specs::Calls::sent_buffer, crate::specs::CallLaws::Roomy, codec::specs::Codec::lay, exits::specs::Exit::close, exits::specs::Exit::closed))]
fn lay_out(out: Sending, channel: u32, buffer: &mut [u8]) -> Result<usize, Refusal>
    requires { Roomy out (length buffer.old) }
    ensures { (result ≡ Ok (length_of channel out)) × (buffer.new ≡ sent_buffer channel out buffer.old) }
{
    match out {
        Sending::Nothing => Ok(0),
        Sending::Record(rec) => codec::lay(channel, rec, buffer),
        Sending::Ending(status) => exits::close(channel, status, buffer),
    }
}
