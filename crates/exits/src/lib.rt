// How a program ended, on the wire: the requests of RFC 4254, 6.10, exit-status and exit-signal, written before CLOSE, and read.
#![tactic(auto)]

ghost use Rattle.std.specs.Prelude.{◌≡◌, ◌&&◌, ◌++◌, ◌+◌, ◌≤◌, length, drop};
ghost use Rattle.std.specs.Option.{option_map};
ghost use Rattle.octets.specs.Bytes.{be32};
ghost use Rattle.octets.specs.Text.{bytes, same};
ghost use Rattle.exec.specs.Written.{written_after};
ghost use Rattle.exits.specs.Exit.{
  string,
  head,
  named,
  request,
  is_told,
  told,
  put,
  is_untold,
  close,
  guess,
  matching,
  is_mine,
  read,
};

mod signals;

use codec::Record;
use exec::{Refusal, Status};

// SSH_MSG_CHANNEL_REQUEST, as it stands on the wire.
const REQUEST: u8 = 98;

// ---- what a request tells

#[tactic(auto, unfolding(crate::specs::Exit::is_told))]
fn is_told(status: Status) -> bool
    ensures { result ≡ is_told status }
{
    match status {
        Status::Exited(code) => code >= 0,
        Status::Signaled(number) => signals::name_of(number).is_some(),
    }
}

// Whether a status is there that no request tells: a negative code, or a signal that has no name.
#[tactic(auto, unfolding(crate::specs::Exit::is_untold))]
pub fn is_untold(status: Option<Status>) -> bool
    ensures { result ≡ is_untold status }
{
    status.is_some_and(|status| !is_told(status))
}

// ---- writing

// The kind, the channel, the request's name and that no reply is wanted.
fn put_head(buffer: &mut [u8], channel: u32, name: &[u8])
    requires { (length name.now ≡ 11) × (21 ≤ length buffer.old) }
    ensures { buffer.new ≡ head channel name.now ++ drop 21 buffer.old }
{
    buffer[0] = REQUEST;
    octets::put_be32(buffer, 1, channel);
    octets::put_be32(buffer, 5, 11);
    buffer[9..20].copy_from_slice(name);
    buffer[20] = 0;
}

fn put_code(buffer: &mut [u8], channel: u32, code: u32)
    requires { 25 ≤ length buffer.old }
    ensures { buffer.new ≡ (head channel (bytes "exit-status") ++ be32 code) ++ drop 25 buffer.old }
{
    put_head(buffer, channel, b"exit-status");
    octets::put_be32(buffer, 21, code);
}

// The head, the length of the signal's name, and the name.
fn put_name(buffer: &mut [u8], channel: u32, name: &[u8])
    requires { (length name.now ≤ 4) × (29 ≤ length buffer.old) }
    ensures { buffer.new ≡ (head channel (bytes "exit-signal") ++ string name.now) ++ drop (25 + length name.now) buffer.old }
{
    put_head(buffer, channel, b"exit-signal");
    octets::put_be32(buffer, 21, name.len() as u32);
    buffer[25..25 + name.len()].copy_from_slice(name);
}

// Behind the name no core was dumped, no error message, no language.
#[tactic(auto, using(crate::proofs::Laying::signal_laid))]
fn put_signal(buffer: &mut [u8], channel: u32, name: &[u8])
    requires { (length name.now ≤ 4) × (38 ≤ length buffer.old) }
    ensures { buffer.new ≡ named channel name.now ++ drop (34 + length name.now) buffer.old }
{
    put_name(buffer, channel, name);
    buffer[25 + name.len()..34 + name.len()].fill(0);
}

// Writes the request of a status at the buffer's start, if one tells it, and returns its length. (The longest has 38 bytes.)
fn put_request(buffer: &mut [u8], channel: u32, status: Status) -> Option<usize>
    requires { 38 ≤ length buffer.old }
    ensures { (result ≡ option_map length (told channel status)) × (buffer.new ≡ put (told channel status) buffer.old) }
{
    match status {
        Status::Exited(code) => {
            let Ok(code) = u32::try_from(code) else {
                return None;
            };
            put_code(buffer, channel, code);
            Some(25)
        }
        Status::Signaled(number) => {
            let name = signals::name_of(number)?;
            put_signal(buffer, channel, name);
            Some(34 + name.len())
        }
    }
}

// Writes how a program ended, and CLOSE directly behind it, at the buffer's start: the request of its status, if there is one,
// has 5 bytes less than what is written. A buffer of 43 bytes takes every ending.
#[tactic(auto, unfolding(crate::specs::Exit::close))]
pub fn close(channel: u32, status: Option<Status>, buffer: &mut [u8]) -> Result<usize, Refusal>
    ensures { written_after result buffer.new ≡ close channel status buffer.old }
{
    if buffer.len() < 43 {
        return Err(Refusal::BufferShort);
    }
    let Some(status) = status else {
        return codec::write(channel, Record::Close, b"", buffer);
    };
    let Some(n) = put_request(buffer, channel, status) else {
        return Err(Refusal::UntoldStatus);
    };
    let closed = codec::write(channel, Record::Close, b"", &mut buffer[n..])?;
    Ok(n + closed)
}

// ---- reading

// Whether bytes are the request of a status: it is written anew and compared.
fn is_request(bytes: &[u8], channel: u32, status: Status) -> bool
    ensures { result ≡ (is_told status && same (request channel status) bytes.now) }
{
    let mut own = [0u8; 38];
    let Some(n) = put_request(&mut own, channel, status) else {
        return false;
    };
    &own[..n] == bytes
}

// The only status that bytes can tell, by their length: a code that a status holds, or a signal that has a name.
#[tactic(auto, unfolding(crate::specs::Exit::guess), using(crate::proofs::Told::short_none, octets::specs::BytesLaws::within_some))]
fn guess(bytes: &[u8]) -> Option<Status>
    ensures { result ≡ guess bytes.now }
{
    if bytes.len() == 25 {
        let code = octets::number_at(bytes, 21)?;
        return i32::try_from(code).ok().map(Status::Exited);
    }
    let name = bytes.get(25..bytes.len().checked_sub(9)?)?;
    signals::number_of(name).map(Status::Signaled)
}

#[tactic(auto, unfolding(crate::specs::Exit::matching))]
fn matching(bytes: &[u8], channel: u32, status: Option<Status>) -> Result<Status, Refusal>
    ensures { result ≡ matching channel bytes.now status }
{
    match status {
        Some(status) if is_request(bytes, channel, status) => Ok(status),
        _ => Err(Refusal::BadRequest),
    }
}

// Whether bytes are for the channel, as far as they name one.
#[tactic(auto, using(octets::specs::BytesLaws::within_some, octets::specs::BytesLaws::within_none))]
fn is_mine(bytes: &[u8], channel: u32) -> bool
    ensures { result ≡ is_mine channel bytes.now }
{
    octets::number_at(bytes, 1).is_none_or(|named| named == channel)
}

// The status that all of bytes tell, as one request for a channel.
#[tactic(auto, unfolding(crate::specs::Exit::read))]
pub fn read(bytes: &[u8], channel: u32) -> Result<Status, Refusal>
    ensures { result ≡ read channel bytes.now }
{
    let Some(&kind) = bytes.first() else {
        return Err(Refusal::BadLength);
    };
    if kind != REQUEST {
        return Err(Refusal::UnknownKind);
    }
    if !is_mine(bytes, channel) {
        return Err(Refusal::OtherChannel);
    }
    matching(bytes, channel, guess(bytes))
}
