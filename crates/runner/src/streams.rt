// The output streams, the credit and the input: what each call does once it is not refused by 12, 10, 46 or 11.
ghost use Rattle.std.specs.Prelude.{◌≡◌, cond, not, ◌&&◌, ◌≤◌, ◌<◌, ◌^◌, max, length};
ghost use Rattle.exec.specs.declared.Admission.TheVariants.{Own};
ghost use Rattle.exec.specs.Key.{admits};
ghost use Rattle.inbox.specs.Need.{byte_need};
ghost use Rattle.input.specs.Input.{is_applied};
ghost use Rattle.runner.specs.Calls.{credit};
ghost use Rattle.runner.specs.RangeLaws.{InRange};
ghost use Rattle.runner.specs.State.{buffered, outputs_of, out_of, with_outputs};
ghost use Rattle.output.specs.declared.Output.{Output};
ghost use Rattle.output.specs.Outputs.{put_output};
ghost use Rattle.runner.specs.Streams.{
  keeps_none,
  read_allowance_of,
  credit_in,
  credit_answer,
  credit_next,
  end_answer,
  end_next,
  is_taken,
  met,
};

use crate::answer::After;
use crate::pairs::{credit_at, put_credit};
use crate::runner::Runner;
use credit::sender::Credit;
use exec::{Admission, Key, Pool, Receipt, Refusal, Stream};
use output::Output;
use output::outputs::{output_in, put_output, seen};

impl Runner {
    // The outputs as every call reads them: one of a stream that is not open is over.
    pub(crate) fn outputs_of(self) -> [Output; 3]
        ensures { result ≡ outputs_of self }
    {
        seen(self.limits.has_notes(), self.outputs)
    }

    // That of one stream.
    pub(crate) fn out_of(self, stream: Stream) -> Output
        ensures { result ≡ out_of stream self }
    {
        output_in(stream, self.outputs_of())
    }

    // The bytes held now.
    pub(crate) fn held(self) -> usize
        requires { buffered self < 2 ^ 64 }
        ensures { result ≡ buffered self }
    {
        output::outputs::buffered_of(self.outputs_of()) + self.input.inbox.length
    }

    // The high-water mark, given whether a call kept none of its bytes.
    pub(crate) fn mark(self, none: bool) -> usize
        requires { buffered self < 2 ^ 64 }
        ensures { result ≡ cond none self.high_water (max self.high_water (buffered self)) }
    {
        if none {
            return self.high_water;
        }
        self.high_water.max(self.held())
    }

    // Whether a message of the peer's does something, given whether it meets none of refusals 12, 10, 46 and 11: its key is the
    // execution's own, and the outcome was not returned.
    pub(crate) fn hears(self, good: bool, key: Key) -> bool
        ensures { result ≡ (good && is_taken (admits self.key key) self) }
    {
        good & matches!(self.key.admits(key), Ok(Admission::Own)) & !self.flags.finished
    }

    // The answer to one that does nothing.
    pub(crate) fn meets(self, good: bool, key: Key) -> Result<Receipt, Refusal>
        ensures { result ≡ met good (admits self.key key) self }
    {
        if good {
            return match self.key.admits(key)? {
                Admission::Stale => Ok(Receipt::Stale),
                Admission::Own => Ok(Receipt::Late),
            };
        }
        Err(self.stopped())
    }

    // Whether a stream's bytes are not kept: it closed, or the runner gave up on it or discards it.
    pub(crate) fn keeps_none(self, stream: Stream) -> bool
        ensures { result ≡ keeps_none stream self }
    {
        let output = self.out_of(stream);
        (output.closed | self.flags.gave_up) | output.discarding
    }

    #[tactic(auto, unfolding(crate::specs::Streams::read_allowance_of))]
    pub(crate) fn allowance(self, stream: Stream) -> usize
        requires { InRange self }
        ensures { result ≡ read_allowance_of self stream }
    {
        let output = self.out_of(stream);
        output.allowance(self.flags.gave_up, self.limits.chunk) as usize
    }

    // What the adapter reports of a stream changes its output alone.
    pub(crate) fn at<F: FnOnce(Output) -> Output>(mut self, stream: Stream, change: F) -> Runner
        requires { F.IsAlwaysCallable change }
        ensures { (output : Output) × F.post change (out_of stream self) output × (result ≡ with_outputs (put_output stream output self.outputs) self) }
    {
        let output = change(self.out_of(stream));
        let outputs = put_output(stream, output, self.outputs);
        self.outputs = outputs;
        self
    }

    // The peer's credit: its answer, and what becomes of the accounts. They are lent, and not the runner, as the grant has several ways
    // to end: each would copy the runner, and the caller could not leave it where it is.
    #[tactic(auto, unfolding(crate::specs::Calls::credit, crate::specs::Streams::credit_answer, crate::specs::Streams::credit_in, crate::specs::Streams::credit_next))]
    pub(crate) fn grant(
        self,
        key: Key,
        pool: Pool,
        units: u32,
        credits: &mut [Credit; 3],
    ) -> Result<Receipt, Refusal>
        requires { credits.old ≡ self.credits }
        ensures { (result ≡ (credit self key pool units).answer) × (credits.new ≡ (credit self key pool units).runner.credits) }
    {
        self.check(true)?;
        match self.key.admits(key)? {
            Admission::Stale => Ok(Receipt::Stale),
            Admission::Own => self.grant_in(self.limits.output_pool(pool)?, units, credits),
        }
    }

    // The grant to the account of a pool.
    #[tactic(auto, unfolding(crate::specs::Streams::credit_in, crate::specs::Streams::credit_next))]
    fn grant_in(
        self,
        index: usize,
        units: u32,
        credits: &mut [Credit; 3],
    ) -> Result<Receipt, Refusal>
        requires { credits.old ≡ self.credits }
        ensures { (result ≡ credit_in (Ok index) self units) × (credits.new ≡ (credit_next (Ok Own) (Ok index) self units).credits) }
    {
        if self.flags.finished {
            return Ok(Receipt::Late);
        }
        let mut account = credit_at(index, *credits);
        let reply = account.grant(units);
        // An account that refused the grant is put back as it was: one way to end is quicker than two.
        *credits = put_credit(index, account, *credits);
        reply.map(|()| Receipt::Applied)
    }

    // The peer's end of the input.
    #[tactic(auto, unfolding(crate::specs::Streams::end_answer, crate::specs::Streams::end_next))]
    pub(crate) fn end(mut self) -> After<Receipt>
        ensures { result ≡ record { runner = end_next (Ok Own) self; answer = end_answer (Ok Own) self } }
    {
        if self.flags.finished {
            return After {
                runner: self,
                answer: Ok(Receipt::Late),
            };
        }
        let receiving = self.input.end();
        self.input = receiving.input;
        let answer = receiving.received;
        After {
            runner: self,
            answer,
        }
    }
}

// Whether a message's bytes are not kept, by its answer.
pub(crate) fn is_dropped(received: Result<Receipt, Refusal>) -> bool
    ensures { result ≡ not (is_applied received) }
{
    !matches!(received, Ok(Receipt::Applied))
}
