// The answers of a session card: what a line is answered, and that answer as a line of text in a lent area.
#![tactic(auto)]

ghost use Rattle.std.specs.Prelude.{List, ℕ, ◌+◌, ◌≤◌, length};
ghost use Rattle.calls.specs.Call as Call;
ghost use Rattle.account.specs.Step.{
  answered,
  receipt_of,
  took,
  came,
  request_of,
  maybe_request_of,
  message_of,
  maybe_message_of,
};
ghost use Rattle.syntax.specs.Answers.{answer_text, line_text};
ghost use Rattle.printing.specs.Written.{Wrote};
ghost use Rattle.printing.specs.Adding.{HasRoom, Adds, answer_most};
ghost use Rattle.answering.specs.Answering.{answer_is, AnswerIs};

use exec::{Receipt, Refusal};
use printing::{Field, Text, first, name_of};
use runner::answer::{Message, Request};

// What a line is answered. The bytes of a pending and of an Output stand at the start of `work`, as there is no heap to keep them.
#[derive(Clone, Copy)]
pub enum Answer {
    Ok,
    Applied,
    Stale,
    Late,
    // The refusal's number. (No Err: a refused line is answered as any other, and the session goes on.)
    Refused(u32),
    Taken(usize),
    Came(usize),
    Pending(usize),
    Value(usize),
    Time(Option<u64>),
    Truth(bool),
    Asks(Request),
    Says(Message),
    Nothing,
}

// ---- what the runner's calls answer

// What a call that is not refused gives, and what it is answered. (`From` alone would not do: it promises a relation, of which a
// caller would have to go by the cases of a Result once more.)
pub trait IntoAnswer: Copy {
    ghost told: { Self → (work : List ℕ) → Call.Answer };

    fn into_answer(self) -> Answer
        ensures { AnswerIs result (told self) };
}

impl IntoAnswer for () {
    ghost told = { λ x w. Call.Ok };

    fn into_answer(self) -> Answer {
        Answer::Ok
    }
}

impl IntoAnswer for Receipt {
    ghost told = { λ x w. receipt_of x };

    fn into_answer(self) -> Answer {
        match self {
            Receipt::Applied => Answer::Applied,
            Receipt::Stale => Answer::Stale,
            Receipt::Late => Answer::Late,
        }
    }
}

impl IntoAnswer for usize {
    ghost told = { λ n w. Call.Value n };

    fn into_answer(self) -> Answer {
        Answer::Value(self)
    }
}

impl IntoAnswer for bool {
    ghost told = { λ b w. Call.Truth b };

    fn into_answer(self) -> Answer {
        Answer::Truth(self)
    }
}

impl IntoAnswer for Option<u64> {
    ghost told = { λ d w. Call.Time d };

    fn into_answer(self) -> Answer {
        Answer::Time(self)
    }
}

// (Not one for every Option: a time that may be missing is told as a value.)
impl IntoAnswer for Option<Request> {
    ghost told = { λ q w. maybe_request_of q };

    fn into_answer(self) -> Answer {
        match self {
            None => Answer::Nothing,
            Some(q) => Answer::Asks(q),
        }
    }
}

impl IntoAnswer for Option<Message> {
    ghost told = { maybe_message_of };

    fn into_answer(self) -> Answer {
        match self {
            None => Answer::Nothing,
            Some(m) => Answer::Says(m),
        }
    }
}

impl<T: IntoAnswer> From<Result<T, Refusal>> for Answer {
    ghost from_gives = { λ x a. AnswerIs a (λ w. answered (λ v. T.told v w) x) };

    fn from(given: Result<T, Refusal>) -> Self {
        match given {
            Ok(x) => x.into_answer(),
            Err(x) => Answer::Refused(x.number()),
        }
    }
}

// Of output and of input_written. (Not by the trait: there a number is a value.)
pub fn taken(taken: Result<usize, Refusal>) -> Answer
    ensures { AnswerIs result (λ w. took taken) }
{
    taken.map_or_else(|x| Answer::Refused(x.number()), Answer::Taken)
}

pub fn came(frames: Result<usize, Refusal>) -> Answer
    ensures { AnswerIs result (λ w. came frames) }
{
    frames.map_or_else(|x| Answer::Refused(x.number()), Answer::Came)
}

// ---- an answer

#[tactic(auto, unfolding(syntax::specs::Words::bytes, syntax::specs::Answers::answer_text))]
fn put_request(request: Request, out: &mut Text<'_>)
    requires { HasRoom answer_most out.old }
    ensures { Adds answer_most out.old out.new (answer_text (request_of request)) }
{
    match request {
        Request::Terminate(x) => out.with(b"Terminate", x),
        Request::Discard(x) => out.with(b"Discard", x),
        Request::CloseInput => out.alone(b"CloseInput"),
        Request::Settle => out.alone(b"Settle"),
    }
}

#[tactic(auto, unfolding(syntax::specs::Words::bytes, syntax::specs::Answers::answer_text))]
fn put_message(message: Message, work: &[u8], out: &mut Text<'_>)
    requires { (length work.now ≤ 65536) × HasRoom answer_most out.old }
    ensures { Adds answer_most out.old out.new (answer_text (message_of message work.now)) }
{
    match message {
        Message::Credit(n) => out.with(b"Credit", n),
        Message::Started => out.alone(b"Started"),
        Message::Output(x, n) => out.with_bytes(name_of(x), first(work, n)),
        Message::End(x) => out.with(b"End", x),
        Message::InputClosed => out.alone(b"InputClosed"),
        Message::Terminal(o) => o.put(out),
    }
}

#[tactic(auto, unfolding(syntax::specs::Words::bytes, syntax::specs::Answers::answer_text))]
fn put_answer(answer: Answer, work: &[u8], out: &mut Text<'_>)
    requires { (length work.now ≤ 65536) × HasRoom answer_most out.old }
    ensures { Adds answer_most out.old out.new (answer_text (answer_is answer work.now)) }
{
    match answer {
        Answer::Ok => out.alone(b"ok"),
        Answer::Applied => out.alone(b"Applied"),
        Answer::Stale => out.alone(b"Stale"),
        Answer::Late => out.alone(b"Late"),
        Answer::Refused(n) => out.with(b"refused", n),
        Answer::Taken(n) => out.with(b"taken", n),
        Answer::Came(n) => out.with(b"ok", n),
        Answer::Pending(n) => out.with_bytes(b"pending", first(work, n)),
        Answer::Value(n) => out.with(b"value", n),
        Answer::Time(None) => out.alone(b"none"),
        Answer::Time(Some(t)) => out.with(b"value", t),
        Answer::Truth(b) => out.with(b"value", b),
        Answer::Asks(q) => put_request(q, out),
        Answer::Says(m) => put_message(m, work, out),
        Answer::Nothing => out.alone(b"none"),
    }
}

// The line of an answer, with its end.
fn put_line(line: u64, answer: Answer, work: &[u8], out: &mut Text<'_>)
    requires { (length work.now ≤ 65536) × HasRoom 131200 out.old }
    ensures { Adds 131200 out.old out.new (line_text line (answer_is answer work.now)) }
{
    line.put(out);
    out.put_byte(b',');
    put_answer(answer, work, out);
    out.put_byte(b'\n');
}

// The same in a lent area, from index `at` on, behind the answers of earlier lines; and the index behind it.
pub fn write_line(line: u64, answer: Answer, work: &[u8], out: &mut [u8], at: usize) -> usize
    requires { (length work.now ≤ 65536) × (at + 131200 ≤ length out.old) }
    ensures { Wrote 131200 out.old out.new at result (line_text line (answer_is answer work.now)) }
{
    let mut text = Text { area: out, end: at };
    put_line(line, answer, work, &mut text);
    text.end
}
