// A line as a call: the method's name, and its arguments as in the Rust, a key as two fields. The bytes of a payload are left
// at the start of `work`.
ghost use Rattle.std.specs.Prelude.{◌≡◌, [], ◌∷◌, ◌≤◌, ◌/◌, length};
ghost use Rattle.std.specs.Option.{ForSome};
ghost use Rattle.syntax.specs.Lines.{fields, find, plain_calls, calls1, output_of, discarded_of, exited_of, input_of, credit_of, cancel_of, call_of, line_call};
ghost use Rattle.reading.specs.Meaning.{line_is, LineIs};
ghost use Rattle.reading.specs.Methods.{method_is};
ghost use Rattle.reading.specs.FieldLaws.{fields_left};

use crate::words::named;
use crate::{fields, words};
use syntax::{Call, Question, Timed};

// ---- with no argument. (A table is a static: built where it is looked up, it made a card a fifth slower.)

static PLAIN: [(&[u8], Call); 10] = [
    (b"pending_input", Call::Ask(Question::PendingInput)),
    (b"input_closed", Call::InputClosed),
    (b"deadline", Call::Ask(Question::Deadline)),
    (b"request", Call::NextRequest),
    (b"is_finished", Call::Ask(Question::IsFinished)),
    (b"is_detached", Call::Ask(Question::IsDetached)),
    (b"awaits_settlement", Call::Ask(Question::AwaitsSettlement)),
    (b"memory_bound", Call::Ask(Question::MemoryBound)),
    (b"buffered", Call::Ask(Question::Buffered)),
    (b"high_water", Call::Ask(Question::HighWater)),
];

fn plain(name: &[u8]) -> Option<Call>
    ensures { LineIs result (find name.now plain_calls) }
{
    named(name, &PLAIN)
}

// ---- with one

// The methods of one argument. (A static holds no functions.)
#[derive(Clone, Copy)]
enum Method {
    ReadAllowance,
    OutputClosed,
    OutputFailed,
    OutputHungUp,
    InputWritten,
    Settled,
    At(Timed),
    Message,
}

static METHODS: [(&[u8], Method); 11] = [
    (b"read_allowance", Method::ReadAllowance),
    (b"output_closed", Method::OutputClosed),
    (b"output_failed", Method::OutputFailed),
    (b"output_hung_up", Method::OutputHungUp),
    (b"input_written", Method::InputWritten),
    (b"settled", Method::Settled),
    (b"dropped", Method::At(Timed::Dropped)),
    (b"reset", Method::At(Timed::Reset)),
    (b"disconnect", Method::At(Timed::Disconnect)),
    (b"tick", Method::At(Timed::Tick)),
    (b"message", Method::Message),
];

fn method_named(name: &[u8]) -> Option<Method>
    ensures { method_is result ≡ find name.now calls1 }
{
    named(name, &METHODS)
}

#[tactic(auto, unfolding(syntax::specs::Lines::call_of))]
fn call1(name: &[u8], a: &[u8]) -> Option<Call>
    ensures { LineIs result (call_of (name.now ∷ a.now ∷ [])) }
{
    match method_named(name)? {
        Method::ReadAllowance => words::stream(a).map(|x| Call::Ask(Question::ReadAllowance(x))),
        Method::OutputClosed => words::stream(a).map(Call::OutputClosed),
        Method::OutputFailed => words::stream(a).map(Call::OutputFailed),
        Method::OutputHungUp => words::stream(a).map(Call::OutputHungUp),
        Method::InputWritten => fields::wide(a).map(|n| Call::InputWritten(n as usize)),
        Method::Settled => words::settlement(a).map(Call::Settled),
        Method::At(event) => fields::wide(a).map(|now| Call::At(now, event)),
        Method::Message => fields::message_length(a).map(Call::NextMessage),
    }
}

// ---- with two or more. (Names compared one by one: for so few a table would take an enum of its own and a `match` over it, and a
// `match` on byte strings would leave a goal for each byte at which a name may differ.)

fn output(a: &[u8], b: &[u8], work: &mut [u8]) -> Option<Call>
    requires { length b.now / 2 ≤ length work.old }
    ensures { line_is result work.new ≡ output_of a.now b.now }
{
    let stream = words::stream(a)?;
    let n = fields::bytes(b, work)?;
    Some(Call::Output(stream, n))
}

fn discarded(a: &[u8], b: &[u8]) -> Option<Call>
    ensures { LineIs result (discarded_of a.now b.now) }
{
    let stream = words::stream(a)?;
    let n = fields::wide(b)?;
    Some(Call::Discarded(stream, n as usize))
}

fn exited(a: &[u8], b: &[u8]) -> Option<Call>
    ensures { LineIs result (exited_of a.now b.now) }
{
    let now = fields::wide(a)?;
    let status = fields::status(b)?;
    Some(Call::At(now, Timed::Exited(status)))
}

#[tactic(auto, using(crate::specs::Naming::same_pointwise), unfolding(syntax::specs::Lines::call_of, syntax::specs::Words::bytes, syntax::specs::Lines::find))]
fn call2(name: &[u8], a: &[u8], b: &[u8], work: &mut [u8]) -> Option<Call>
    requires { length b.now / 2 ≤ length work.old }
    ensures { line_is result work.new ≡ call_of (name.now ∷ a.now ∷ b.now ∷ []) }
{
    if name == b"end_input".as_slice() {
        return fields::key(a, b).map(Call::EndInput);
    }
    if name == b"output".as_slice() {
        return output(a, b, work);
    }
    if name == b"discarded".as_slice() {
        return discarded(a, b);
    }
    if name == b"exited".as_slice() {
        return exited(a, b);
    }
    None
}

fn input(a: &[u8], b: &[u8], c: &[u8], work: &mut [u8]) -> Option<Call>
    requires { length c.now / 2 ≤ length work.old }
    ensures { line_is result work.new ≡ input_of a.now b.now c.now }
{
    let key = fields::key(a, b)?;
    let n = fields::bytes(c, work)?;
    Some(Call::Input(key, n))
}

#[tactic(auto, using(crate::specs::Naming::same_pointwise), unfolding(syntax::specs::Lines::call_of, syntax::specs::Words::bytes, syntax::specs::Lines::find))]
fn call3(name: &[u8], a: &[u8], b: &[u8], c: &[u8], work: &mut [u8]) -> Option<Call>
    requires { length c.now / 2 ≤ length work.old }
    ensures { line_is result work.new ≡ call_of (name.now ∷ a.now ∷ b.now ∷ c.now ∷ []) }
{
    if name == b"launched".as_slice() {
        return fields::launch_result(a, b, c).map(Call::Launched);
    }
    if name == b"input".as_slice() {
        return input(a, b, c, work);
    }
    None
}

fn credit(a: &[u8], b: &[u8], c: &[u8], d: &[u8]) -> Option<Call>
    ensures { LineIs result (credit_of a.now b.now c.now d.now) }
{
    let key = fields::key(a, b)?;
    let pool = words::pool(c)?;
    let n = fields::narrow(d)?;
    Some(Call::Credit(key, pool, n))
}

fn cancel(a: &[u8], b: &[u8], c: &[u8], d: &[u8]) -> Option<Call>
    ensures { LineIs result (cancel_of a.now b.now c.now d.now) }
{
    let now = fields::wide(a)?;
    let key = fields::key(b, c)?;
    let cause = words::cause(d)?;
    Some(Call::At(now, Timed::Cancel(key, cause)))
}

#[tactic(auto, using(crate::specs::Naming::same_pointwise), unfolding(syntax::specs::Lines::call_of, syntax::specs::Words::bytes, syntax::specs::Lines::find))]
fn call4(name: &[u8], a: &[u8], b: &[u8], c: &[u8], d: &[u8]) -> Option<Call>
    ensures { LineIs result (call_of (name.now ∷ a.now ∷ b.now ∷ c.now ∷ d.now ∷ [])) }
{
    if name == b"credit".as_slice() {
        return credit(a, b, c, d);
    }
    if name == b"cancel".as_slice() {
        return cancel(a, b, c, d);
    }
    None
}

// ---- fields, cut off one after the other

// The first field of a text, and the text behind its comma.
#[tactic(auto, using(crate::specs::FieldLaws::fields_at, crate::specs::FieldLaws::fields_last))]
pub fn cut(text: &[u8]) -> (&[u8], Option<&[u8]>)
    ensures cut { fields text.now ≡ result.0.now ∷ fields_left result.1 }
    ensures within { (length result.0.now ≤ length text.now) × ForSome result.1 (λ rest. length rest.now ≤ length text.now) }
{
    match search::find(text, b',') {
        Some(at) => (&text[..at], Some(&text[at + 1..])),
        None => (text, None),
    }
}

// The call of a line. (In an array beside their count its fields would be a list, which each proof takes apart again.)
#[tactic(auto, using(crate::specs::FieldLaws::five_none), unfolding(syntax::specs::Lines::call_of))]
pub fn call_of(line: &[u8], work: &mut [u8]) -> Option<Call>
    requires { length line.now / 2 ≤ length work.old }
    ensures { line_is result work.new ≡ line_call line.now }
{
    let (name, rest) = cut(line);
    let Some(rest) = rest else {
        return plain(name);
    };
    let (a, rest) = cut(rest);
    let Some(rest) = rest else {
        return call1(name, a);
    };
    let (b, rest) = cut(rest);
    let Some(rest) = rest else {
        return call2(name, a, b, work);
    };
    let (c, rest) = cut(rest);
    let Some(rest) = rest else {
        return call3(name, a, b, c, work);
    };
    let (d, rest) = cut(rest);
    match rest {
        None => call4(name, a, b, c, d),
        Some(_) => None,
    }
}
