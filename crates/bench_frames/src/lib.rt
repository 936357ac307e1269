// The loop of crate bench_input, with 1,024 messages a turn in a window of frames.
#![tactic(auto)]

use bench::{add, key, running, work};
use exec::{Limits, Window};

#[unsafe(no_mangle)]
pub extern "C" fn bench_frames(
    store: &mut [u8; 49152],
    lengths: &mut [u32; 1024],
    bytes: &[u8],
    buffer: &mut [u8; 16384],
    chunk: u32,
    window: u32,
    timeout: u64,
    turns: u64,
    steps: u64,
) -> u64 {
    let frames = Window::frames(window);
    let limits = Limits::of(chunk, frames, frames, false);
    let first = running(limits, timeout, store, lengths, 1024);
    let mut r = first;
    let mut sum = 0;
    let mut other = 1;
    for _ in 0..turns {
        for _ in 0..1024u64 {
            let hearing = r.input(key(), store, lengths, bytes);
            sum = add(sum, hearing.answer);
            r = hearing.runner;
        }
        let waiting = r.pending_input(store).map_or(0, |bytes| bytes.len());
        sum = add(sum, waiting);
        let counting = r.input_written(lengths, waiting);
        sum = add(sum, counting.answer);
        let saying = counting.runner.next_message(store, buffer);
        sum = add(sum, saying.answer);
        r = saying.runner;
        other = work(other, steps);
    }
    sum.wrapping_add(other)
}
