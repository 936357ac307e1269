// What the runner says next, and what it asks of the adapter: a choice by what the state shows, and then its effect.
ghost use Rattle.std.specs.Prelude.{◌≡◌, true, ◌≤◌, length};
ghost use Rattle.inbox.specs.Need.{byte_need};
ghost use Rattle.exec.specs.Stream.{following, turn_after};
ghost use Rattle.runner.specs.Message.{
  sendable_of,
  untold,
  choose,
  output_paid,
  sent_after,
  sent_output,
  said_for,
  choice_of,
  answer_of,
  say_after,
  say,
  wish,
  handed,
};
ghost use Rattle.runner.specs.MessageLaws.{Payable, Sendable, Sayable};
ghost use Rattle.runner.specs.RangeLaws.{InRange};

use crate::answer::{Message, Request};
use crate::pairs::{credit_at, put_credit, ring_base};
use crate::runner::Runner;
use choice::{Choice, Shown, order};
use credit::sender::Credit;
use exec::{Cause, Refusal, Stream};
use output::Output;
use output::outputs::put_output;

impl Runner {
    // How many bytes of a stream one message may carry now.
    #[tactic(auto, unfolding(crate::specs::Message::sendable_of))]
    fn sendable_of(self, buffer: usize, stream: Stream) -> u32
        ensures { result ≡ sendable_of self buffer stream }
    {
        let output = self.out_of(stream);
        let credit = credit_at(self.limits.pool_of(stream), self.credits);
        let queued = (output.queued as usize).min(self.limits.chunk as usize);
        let wanted = queued.min(buffer);
        credit.sendable(self.limits.output.unit, wanted as u32)
    }

    // Whether a stream is done, and its end not told.
    fn is_untold(self, stream: Stream) -> bool
        ensures { result ≡ untold self stream }
    {
        let output = self.out_of(stream);
        output.is_done() & !output.ended
    }

    #[tactic(auto, unfolding(crate::specs::Message::choose))]
    fn choose(self, buffer: usize) -> Choice
        requires { InRange self }
        ensures { result ≡ choose self buffer }
    {
        let turn = Stream::ALL[self.turn as usize];
        let stdout = self.sendable_of(buffer, Stream::Stdout);
        let stderr = self.sendable_of(buffer, Stream::Stderr);
        let notes = self.sendable_of(buffer, Stream::Notes);
        order(Shown {
            finished: self.flags.finished,
            detached: self.flags.detached,
            can_grant: self.input.can_grant(),
            credited: self.flags.credited,
            started: self.flags.started_message,
            closed: self.input.closed_message,
            awaits: self.awaits_launch(),
            ends: (
                self.is_untold(Stream::Stdout),
                self.is_untold(Stream::Stderr),
                self.is_untold(Stream::Notes),
            ),
            ready: self.is_ready(),
            turn,
            sendable: (
                turn.pick(stdout, stderr, notes),
                turn.following().pick(stdout, stderr, notes),
                turn.following().following().pick(stdout, stderr, notes),
            ),
        })
    }

    // The choice of a call, given whether it meets none of refusals 12, 10, 46 and 11.
    pub(crate) fn choice(self, good: bool, buffer: usize) -> Choice
        requires { good ≡ true → InRange self }
        ensures { result ≡ choice_of good self buffer }
    {
        if good {
            return self.choose(buffer);
        }
        Choice::None
    }

    // Its answer.
    pub(crate) fn answer(self, good: bool, choice: Choice) -> Result<Option<Message>, Refusal>
        ensures { result ≡ answer_of good choice self }
    {
        if good {
            return self.said(choice);
        }
        Err(self.stopped())
    }

    // What is said.
    #[tactic(auto, unfolding(crate::specs::Message::said_for))]
    fn said(self, choice: Choice) -> Result<Option<Message>, Refusal>
        ensures { result ≡ said_for choice self }
    {
        match choice {
            Choice::None => Ok(None),
            Choice::Credit => { Ok(Some(Message::Credit(self.input.window.returnable))) }
            Choice::Started => Ok(Some(Message::Started)),
            Choice::InputClosed => Ok(Some(Message::InputClosed)),
            Choice::End(stream) => Ok(Some(Message::End(stream))),
            Choice::Output(stream, n) => Ok(Some(Message::Output(stream, n as usize))),
            Choice::Terminal => {
                let outcome = self.outcome();
                Ok(Some(Message::Terminal(outcome)))
            }
        }
    }

    // The runner once it is said. It is changed in place and handed back at one place, so that saying nothing copies nothing.
    #[tactic(auto, unfolding(crate::specs::Message::say, crate::specs::Message::effect, crate::specs::Message::buffer_after, crate::specs::Message::output_sent, crate::specs::Message::output_paid, crate::specs::Message::sent_output))]
    pub(crate) fn say(mut self, choice: Choice, store: &[u8], buffer: &mut [u8]) -> Runner
        requires { Sayable choice self store.now buffer.old }
        ensures { say_after result buffer.new ≡ say choice self store.now buffer.old }
    {
        match choice {
            Choice::None => {}
            Choice::Credit => {
                let crediting = self.input.take_credit();
                self.input = crediting.input;
                self.flags.credited = true;
            }
            Choice::Started => {
                self.flags.started_message = false;
                self.flags.credited = false;
            }
            Choice::InputClosed => {
                self.input = self.input.message_told();
                self.flags.credited = false;
            }
            Choice::End(stream) => {
                let output = self.out_of(stream);
                let outputs = put_output(stream, output.end(), self.outputs);
                self.outputs = outputs;
                self.flags.credited = false;
            }
            Choice::Output(stream, n) => {
                let paid = self.paid(stream, n);
                let sent = self.sent(stream, n, store, buffer);
                self.credits = paid;
                self.outputs = sent;
                self.turn = stream.turn_after(self.limits.has_notes());
                self.flags.credited = false;
            }
            Choice::Terminal => {
                self.flags.finished = true;
            }
        }
        self
    }

    // The accounts once the cost of n bytes of a stream is spent.
    #[tactic(auto, unfolding(crate::specs::Message::output_paid))]
    fn paid(self, stream: Stream, n: u32) -> [Credit; 3]
        requires { Payable self stream n }
        ensures { result ≡ (output_paid stream n self).credits }
    {
        let pool = self.limits.pool_of(stream);
        let mut account = credit_at(pool, self.credits);
        account.spend(self.limits.output.cost(n));
        put_credit(pool, account, self.credits)
    }

    // The outputs once n bytes of a stream's queue are moved to the start of the buffer.
    #[tactic(auto, unfolding(crate::specs::Message::sent_output, crate::specs::Message::payload, output::specs::Output::sent))]
    fn sent(self, stream: Stream, n: u32, store: &[u8], buffer: &mut [u8]) -> [Output; 3]
        requires { Sendable self stream n store.now buffer.old }
        ensures { sent_after result buffer.new ≡ sent_output stream n self store.now buffer.old }
    {
        let output = self.out_of(stream);
        let base = ring_base(stream, self.limits.chunk);
        let sent = output.send(store, base, self.limits.chunk, n, buffer);
        put_output(stream, sent, self.outputs)
    }

    // What is asked for next.
    #[tactic(auto, unfolding(crate::specs::Message::wish, crate::specs::Message::wish_for))]
    pub(crate) fn wish(self) -> Option<Request>
        ensures { result ≡ wish self }
    {
        if let Some(cause) = self.life.terminate_request {
            return Some(Request::Terminate(cause));
        }
        let [stdout, stderr, notes] = self.outputs_of();
        if stdout.discard_requested {
            Some(Request::Discard(Stream::Stdout))
        } else if stderr.discard_requested {
            Some(Request::Discard(Stream::Stderr))
        } else if notes.discard_requested {
            Some(Request::Discard(Stream::Notes))
        } else if self.input.close_requested {
            Some(Request::CloseInput)
        } else if self.flags.settle_request {
            Some(Request::Settle)
        } else {
            None
        }
    }

    // The runner once a request is handed out.
    pub(crate) fn hand(mut self, request: Request) -> Runner
        ensures { result ≡ handed request self }
    {
        match request {
            Request::Terminate(_) => {
                self.life = self.life.terminate_taken();
                self
            }
            Request::Discard(stream) => {
                let output = self.out_of(stream);
                let outputs = put_output(stream, output.discard_asked(), self.outputs);
                self.outputs = outputs;
                self
            }
            Request::CloseInput => {
                self.input = self.input.close_asked();
                self
            }
            Request::Settle => {
                self.flags.settle_request = false;
                self
            }
        }
    }
}
