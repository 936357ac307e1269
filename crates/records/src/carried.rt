// What carries these sessions: the records of a channel.
use channel::calls::{read_record, write_record};
use exec::{Limits, Receipt, Window};
use runner::answer::{After, Message};
use runner::runner::Runner;
use steps::session::Carrier;

// The channel's number in the records read, and in those written.
#[derive(Clone, Copy)]
pub(crate) struct Records {
    reads: u32,
    writes: u32,
}

impl Records {
    pub(crate) fn of(reads: u32, writes: u32) -> Self {
        Records { reads, writes }
    }
}

impl Carrier for Records {
    fn read(
        self,
        runner: Runner,
        now: u64,
        bytes: &[u8],
        store: &mut [u8],
        lengths: &mut [u32],
    ) -> After<Option<Receipt>> {
        read_record(runner, now, self.reads, bytes, store, lengths)
    }

    fn write(
        self,
        runner: Runner,
        store: &[u8],
        buffer: &mut [u8],
    ) -> After<Option<(Message, usize)>> {
        write_record(runner, self.writes, store, buffer)
    }
}

// The limits of a channel, whose windows are alike.
pub(crate) fn channel(chunk: u32, window: u32) -> Limits {
    Limits::of(chunk, Window::bytes(window), Window::bytes(window), true)
}
