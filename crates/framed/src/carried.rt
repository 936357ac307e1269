// What carries these sessions: frames on a stream and the second behind it.
use exec::{Limits, Receipt, Window};
use frames::calls::{read_frame, write_frame};
use runner::answer::{After, Message};
use runner::runner::Runner;
use steps::session::Carrier;

// The number of the stream of stdout and the input.
#[derive(Clone, Copy)]
pub(crate) struct On(pub(crate) u32);

impl Carrier for On {
    fn read(
        self,
        runner: Runner,
        now: u64,
        bytes: &[u8],
        store: &mut [u8],
        lengths: &mut [u32],
    ) -> After<Option<Receipt>> {
        read_frame(runner, now, self.0, bytes, store, lengths)
    }

    fn write(
        self,
        runner: Runner,
        store: &[u8],
        buffer: &mut [u8],
    ) -> After<Option<(Message, usize)>> {
        write_frame(runner, self.0, store, buffer)
    }
}

// Limits with windows of bytes, one for each output stream.
pub(crate) fn bytes(chunk: u32, input: u32, output: u32) -> Limits {
    Limits::of(chunk, Window::bytes(input), Window::bytes(output), false)
}
