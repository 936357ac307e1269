// The loop of output and next_message, each with this one caller: see crate bench.
#![tactic(auto)]

use bench::{add, in_bytes, running, work};
use exec::Stream;

// output and next_message, which hands the bytes on.
#[unsafe(no_mangle)]
pub extern "C" fn bench_output(
    store: &mut [u8; 49152],
    lengths: &mut [u32; 1024],
    bytes: &[u8],
    buffer: &mut [u8; 16384],
    chunk: u32,
    window: u32,
    timeout: u64,
    turns: u64,
    steps: u64,
) -> u64 {
    let first = running(in_bytes(chunk, window), timeout, store, lengths, u32::MAX);
    let mut r = first;
    let mut sum = 0;
    let mut other = 1;
    for _ in 0..turns {
        let taking = r.output(Stream::Stdout, store, bytes);
        sum = add(sum, taking.answer);
        r = taking.runner;
        let saying = r.next_message(store, buffer);
        sum = add(sum, saying.answer);
        r = saying.runner;
        other = work(other, steps);
    }
    sum.wrapping_add(other)
}
