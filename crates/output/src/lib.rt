// One output stream, as the runner reads and sends it. Its queue is a ring of a chunk in the byte store.
#![tactic(auto)]

ghost use Rattle.std.specs.Prelude.{◌≡◌, cond, ◌+◌, ◌≤◌, ◌<◌, ◌^◌, length, ltb};
ghost use Rattle.output.specs.Output.{
  new_output,
  over,
  is_done,
  is_held,
  is_delivered,
  grace_ended,
  given_up,
  abandoned,
  closed_out,
  failed_out,
  hung_up,
  lost_out,
  ended_out,
  asked_out,
  allowance,
  filled,
  intake_after,
  taken_in,
  send_after,
  sent,
  output_fits,
  output_within,
};

use inbox::ring_fits;

pub mod outputs;

#[derive(Clone, Copy)]
pub struct Output {
    // Where the queue begins in its ring.
    pub start: u32,
    // The bytes that were read and are not sent yet: at most a chunk.
    pub queued: u32,
    // The stream ended: every writer closed it, or reading it failed.
    pub closed: bool,
    // Every writer closed it, though it is not read to its end.
    pub hung_up: bool,
    // The message of its end was returned.
    pub ended: bool,
    // Its bytes are dropped.
    pub discarding: bool,
    // The request to discard it waits.
    pub discard_requested: bool,
    // It lost bytes.
    pub truncated: bool,
}

// How many bytes were taken, and the stream after that.
#[derive(Clone, Copy)]
pub struct Intake {
    pub taken: usize,
    pub output: Output,
}

// How many of n bytes are taken: those that are kept, or all where they are dropped.
fn taken(dropped: bool, n: usize, kept: usize) -> usize
    ensures { result ≡ cond dropped n kept }
{
    if dropped { n } else { kept }
}

impl Output {
    pub fn new() -> Self
        ensures { result ≡ new_output }
    {
        Output {
            start: 0,
            queued: 0,
            closed: false,
            hung_up: false,
            ended: false,
            discarding: false,
            discard_requested: false,
            truncated: false,
        }
    }

    // That of a stream that is not open: it closed, its end was told, and nothing of it is left to say.
    pub fn over() -> Self
        ensures { result ≡ over }
    {
        Output {
            start: 0,
            queued: 0,
            closed: true,
            hung_up: false,
            ended: true,
            discarding: false,
            discard_requested: false,
            truncated: false,
        }
    }

    // Whether it closed, with nothing left to send.
    pub fn is_done(self) -> bool
        ensures { result ≡ is_done self }
    {
        self.closed & !(0 < self.queued)
    }

    // Whether a process may hold it open.
    pub fn is_held(self) -> bool
        ensures { result ≡ is_held self }
    {
        !self.closed & !self.hung_up
    }

    // Whether it is done, with its end told or nobody to tell.
    pub fn is_delivered(self, detached: bool) -> bool
        ensures { result ≡ is_delivered detached self }
    {
        self.is_done() & (self.ended | detached)
    }

    // Its grace ends: the queue is dropped, and the rest of an open stream is to be discarded.
    pub fn end_grace(mut self) -> Output
        ensures { result ≡ grace_ended self }
    {
        let discard = !self.closed & !self.discarding;
        self.truncated = (0 < self.queued) | self.truncated;
        self.start = 0;
        self.queued = 0;
        self.discarding = self.discarding | !self.closed;
        self.discard_requested = discard | self.discard_requested;
        self
    }

    // The runner gives up: the queue is dropped, and an open stream ends truncated.
    pub fn give_up(mut self) -> Output
        ensures { result ≡ given_up self }
    {
        self.truncated = !self.closed | ((0 < self.queued) | self.truncated);
        self.start = 0;
        self.queued = 0;
        self.closed = true;
        self
    }

    // A stream that a process may hold open ends truncated. What was read is still sent.
    pub fn abandon(mut self) -> Output
        ensures { result ≡ abandoned self }
    {
        self.truncated = !(self.closed | self.hung_up) | self.truncated;
        self.closed = self.closed | !self.hung_up;
        self
    }

    // Every writer closed it.
    pub fn close(mut self) -> Output
        ensures { result ≡ closed_out self }
    {
        self.closed = true;
        self
    }

    // Reading it failed, which ends it too.
    pub fn fail(mut self) -> Output
        ensures { result ≡ failed_out self }
    {
        self.closed = true;
        self.truncated = true;
        self
    }

    // Every writer closed it, though it is not read to its end.
    pub fn hang_up(mut self) -> Output
        ensures { result ≡ hung_up self }
    {
        self.hung_up = true;
        self
    }

    // So many bytes were read and dropped.
    pub fn discard(mut self, bytes: usize) -> Output
        ensures { result ≡ lost_out (ltb 0 bytes) self }
    {
        self.truncated = (0 < bytes) | self.truncated;
        self
    }

    // The message of its end was returned.
    pub fn end(mut self) -> Output
        ensures { result ≡ ended_out self }
    {
        self.ended = true;
        self
    }

    // The request to discard it was returned.
    pub fn discard_asked(mut self) -> Output
        ensures { result ≡ asked_out self }
    {
        self.discard_requested = false;
        self
    }

    // How many more bytes may be read: what the queue has room for, and none once the stream closed or is discarded.
    pub fn allowance(self, gave_up: bool, chunk: u32) -> u32
        requires { self.queued ≤ chunk }
        ensures { result ≡ allowance self gave_up chunk }
    {
        if self.closed | gave_up | self.discarding {
            return 0;
        }
        chunk - self.queued
    }

    fn fill(mut self, kept: u32, lost: bool) -> Output
        requires { self.queued + kept < 2 ^ 32 }
        ensures { result ≡ filled kept lost self }
    {
        self.queued = self.queued + kept;
        self.truncated = lost | self.truncated;
        self
    }

    // Takes bytes that were read: as many as the allowance, or all of them to drop where the stream is discarded. (The chunk is the
    // limits', so that no Output can hold what is asked of both.)
    #[tactic(auto, using(ring::specs::AreaLaws::write_part, ring::specs::AreaLaws::write_front), unfolding(crate::specs::Output::taken_in))]
    pub fn take_in(
        self,
        gave_up: bool,
        store: &mut [u8],
        base: usize,
        chunk: u32,
        bytes: &[u8],
    ) -> Intake
        requires { (base + chunk ≤ length store.old) × (self.start ≤ chunk) × (self.queued ≤ chunk) }
        ensures { intake_after result store.new ≡ taken_in self gave_up base chunk bytes.now store.old }
    {
        let start = self.start as usize;
        let queued = self.queued as usize;
        let dropped = !(self.closed | gave_up) & self.discarding;
        let room = self.allowance(gave_up, chunk);
        let n = bytes.len();
        let kept = n.min(room as usize);
        let area = &mut store[base..base + chunk as usize];
        ring::push(area, start, queued, &bytes[..kept]);
        let taken = taken(dropped, n, kept);
        let output = self.fill(kept as u32, dropped & (0 < n));
        Intake { taken, output }
    }

    // Sends the first n queued bytes: they go to the start of `buffer`, and off the queue.
    #[tactic(auto, using(ring::specs::AreaLaws::read_part), unfolding(crate::specs::Output::sent))]
    pub fn send(
        mut self,
        store: &[u8],
        base: usize,
        chunk: u32,
        n: u32,
        buffer: &mut [u8],
    ) -> Output
        requires { (base + chunk ≤ length store.now) × (self.start ≤ chunk) × (self.queued ≤ chunk) × (n ≤ self.queued) × (n ≤ length buffer.old) }
        ensures { send_after result buffer.new ≡ sent chunk base n self store.now buffer.old }
    {
        let size = chunk as usize;
        let start = self.start as usize;
        let count = n as usize;
        ring::take(&store[base..base + size], start, &mut buffer[..count]);
        let next = ring::advance(size, start, count);
        self.start = next as u32;
        self.queued = self.queued - n;
        self
    }

    // As `fits`, for a chunk that is not 0, and quicker: each call asks it.
    pub fn within(self, chunk: u32) -> bool
        ensures { result ≡ output_within chunk self }
    {
        (self.queued <= chunk) & (self.start < chunk)
    }

    // Whether the queue is within its ring.
    #[tactic(auto, unfolding(crate::specs::Output::output_fits))]
    pub fn fits(self, chunk: u32) -> bool
        ensures { result ≡ output_fits chunk self }
    {
        (self.queued <= chunk) & ring_fits(self.start as usize, chunk as usize)
    }
}
