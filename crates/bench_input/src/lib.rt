// The loop of input, pending_input, input_written and next_message, each with this one caller: see crate bench.
#![tactic(auto)]

use bench::{add, in_bytes, key, running, work};

// A message in, all that waits written, and next_message, which grants the units again.
#[unsafe(no_mangle)]
pub extern "C" fn bench_input(
    store: &mut [u8; 49152],
    lengths: &mut [u32; 1024],
    bytes: &[u8],
    buffer: &mut [u8; 16384],
    chunk: u32,
    window: u32,
    timeout: u64,
    turns: u64,
    steps: u64,
) -> u64 {
    let first = running(in_bytes(chunk, window), timeout, store, lengths, u32::MAX);
    let mut r = first;
    let mut sum = 0;
    let mut other = 1;
    for _ in 0..turns {
        let hearing = r.input(key(), store, lengths, bytes);
        sum = add(sum, hearing.answer);
        r = hearing.runner;
        let waiting = r.pending_input(store).map_or(0, |bytes| bytes.len());
        sum = add(sum, waiting);
        let counting = r.input_written(lengths, waiting);
        sum = add(sum, counting.answer);
        let saying = counting.runner.next_message(store, buffer);
        sum = add(sum, saying.answer);
        r = saying.runner;
        other = work(other, steps);
    }
    sum.wrapping_add(other)
}
