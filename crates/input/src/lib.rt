// The workload's standard input, as the runner receives and writes it.
#![tactic(auto)]

ghost use Rattle.std.specs.Prelude.{◌≡◌, true, false, ◌+◌, ◌<◌, ◌^◌, length};
ghost use Rattle.exec.specs.Limits.{cost, check_chunk, off_chunk};
ghost use Rattle.inbox.specs.Range.{Waiting};
ghost use Rattle.inbox.specs.Receiver.{charge, is_due};
ghost use Rattle.input.specs.Input.{
  new_input,
  input_accepts,
  can_grant,
  close_input,
  close_when_taken,
  Paid,
  Lent,
  receive_after,
  receive,
  input_ended,
  pending_input,
  written_after,
  written,
  Writable,
  take_credit,
  message_told,
  close_asked,
};

use exec::{Limits, Receipt, Refusal};
use inbox::Inbox;
use inbox::receiver::Granted;

#[derive(Clone, Copy)]
pub struct Input {
    // The bytes that the peer sent and the workload has not taken.
    pub inbox: Inbox,
    // The input's window.
    pub window: Granted,
    // Whether the peer ended the input.
    pub peer_ended: bool,
    // Whether the workload's input is closed, or the runner requested to close it.
    pub closed: bool,
    // Whether the request to close the input waits to be returned.
    pub close_requested: bool,
    // Whether the message that the input closed early waits to be returned.
    pub closed_message: bool,
}

// What a message of the peer's leaves, and its answer.
#[derive(Clone, Copy)]
pub struct Receiving {
    pub input: Input,
    pub received: Result<Receipt, Refusal>,
}

// What is left once credit is taken, and its units. (A number and no Option: it is asked only where some is due.)
#[derive(Clone, Copy)]
pub struct Crediting {
    pub input: Input,
    pub units: u32,
}

// What is left once the workload took bytes, and the frames that this came to with bytes still to take.
#[derive(Clone, Copy)]
pub struct Writing {
    pub input: Input,
    pub came: u32,
}

impl Input {
    pub fn new(size: u32, smallest: u32) -> Self
        ensures { result ≡ new_input size smallest }
    {
        let inbox = Inbox::new();
        let window = Granted::new(size, smallest);
        Input {
            inbox,
            window,
            peer_ended: false,
            closed: false,
            close_requested: false,
            closed_message: false,
        }
    }

    // Whether the runner still grants credit: the input is open, and the peer has not ended it.
    pub fn accepts(self) -> bool
        ensures { result ≡ input_accepts self }
    {
        !self.closed & !self.peer_ended
    }

    // Whether credit waits to be granted: at least the smallest grant.
    pub fn can_grant(self) -> bool
        ensures { result ≡ can_grant self }
    {
        (!self.closed & !self.peer_ended) & self.window.is_due()
    }

    // Grants all that is returnable, where it is due.
    pub fn take_credit(mut self) -> Crediting
        requires { (is_due self.window ≡ true) × (self.window.open + self.window.returnable < 2 ^ 32) }
        ensures { result ≡ take_credit self }
    {
        let taking = self.window.take_grant();
        self.window = taking.granted;
        Crediting {
            input: self,
            units: taking.units,
        }
    }

    // Closes the input, other than by the runner's request: what waits is dropped, and the peer is told unless it ended the
    // input or is gone.
    pub fn close(mut self, detached: bool) -> Input
        ensures { result ≡ close_input self detached }
    {
        if self.closed {
            return self;
        }
        self.inbox = Inbox::new();
        self.closed = true;
        self.closed_message = !self.peer_ended & !detached;
        self
    }

    // Requests to close the input once it is used up: the peer ended it, and the workload took every byte.
    fn close_when_taken(mut self) -> Input
        ensures { result ≡ close_when_taken self }
    {
        let used_up = (self.peer_ended & !self.closed) & (self.inbox.length == 0);
        self.closed = used_up | self.closed;
        self.close_requested = used_up | self.close_requested;
        self
    }

    // Takes bytes from the peer: they are charged to the window, and dropped once the input is closed.
    pub fn receive(
        mut self,
        limits: Limits,
        store: &mut [u8],
        lengths: &mut [u32],
        bytes: &[u8],
    ) -> Receiving
        requires { Lent limits self store.old lengths.old }
        ensures { receive_after result store.new lengths.new ≡ receive limits self bytes.now store.old lengths.old }
    {
        let received = self.take(limits, store, lengths, bytes);
        Receiving {
            input: self,
            received,
        }
    }

    // Refused, a message changes nothing. Once the input is closed the charge stands, and the bytes are dropped.
    #[tactic(auto, unfolding(crate::specs::Input::receive_answer, crate::specs::Input::receive_input, crate::specs::Input::receive_bytes, crate::specs::Input::receive_lengths, exec::specs::Limits::check_chunk, inbox::specs::Inbox::push))]
    fn take(
        &mut self,
        limits: Limits,
        store: &mut [u8],
        lengths: &mut [u32],
        bytes: &[u8],
    ) -> Result<Receipt, Refusal>
        requires { Lent limits self.old store.old lengths.old }
        ensures { receive_after (record { input = self.new; received = result }) store.new lengths.new ≡ receive limits self.old bytes.now store.old lengths.old }
    {
        if self.peer_ended {
            return Err(Refusal::Ended);
        }
        let length = limits.check_chunk(bytes.len())?;
        self.window = self.window.charge(limits.input.cost(length))?;
        if self.closed {
            return Ok(Receipt::Late);
        }
        self.inbox = self.inbox.push(limits, store, lengths, bytes);
        Ok(Receipt::Applied)
    }

    // Takes the end of the input from the peer.
    #[tactic(auto, unfolding(crate::specs::Input::end_input, crate::specs::Input::end_answer))]
    pub fn end(mut self) -> Receiving
        ensures { result ≡ input_ended self }
    {
        if self.peer_ended {
            return Receiving {
                input: self,
                received: Err(Refusal::Ended),
            };
        }
        let receipt = if self.closed {
            Receipt::Late
        } else {
            Receipt::Applied
        };
        self.peer_ended = true;
        Receiving {
            input: self.close_when_taken(),
            received: Ok(receipt),
        }
    }

    // The bytes that the adapter writes to the workload next, as many as stand in one run: a part of the byte store.
    #[tactic(auto, unfolding(crate::specs::Input::pending_input))]
    pub fn pending<'a>(self, limits: Limits, store: &'a [u8]) -> &'a [u8]
        requires { Waiting limits self.inbox store.now }
        ensures { result.now ≡ pending_input limits self store.now }
    {
        if self.closed {
            return &store[0..0];
        }
        self.inbox.front(limits, store)
    }

    // Notes how many of the waiting bytes the workload took, whose units are granted again. A closed input is not asked.
    #[tactic(auto, unfolding(crate::specs::Input::written_input, crate::specs::Input::written_came, crate::specs::Input::written_lengths, inbox::specs::Inbox::pop))]
    pub fn written(mut self, limits: Limits, lengths: &mut [u32], count: usize) -> Writing
        requires { Writable limits self lengths.old }
        ensures { written_after result lengths.new ≡ written limits self count lengths.old }
    {
        if self.closed {
            return Writing {
                input: self,
                came: 0,
            };
        }
        let popping = self.inbox.pop(limits, lengths, count);
        self.inbox = popping.inbox;
        self.window = self.window.free(popping.freed);
        Writing {
            input: self.close_when_taken(),
            came: popping.came,
        }
    }

    // The message that the input closed was returned.
    pub fn message_told(mut self) -> Input
        ensures { result ≡ message_told self }
    {
        self.closed_message = false;
        self
    }

    // The request to close the input was returned.
    pub fn close_asked(mut self) -> Input
        ensures { result ≡ close_asked self }
    {
        self.close_requested = false;
        self
    }
}
