// A turn of an adapter, with all calls of its loop, each with this one caller: see crate bench.
#![tactic(auto)]

use bench::{add, in_bytes, key, of_deadline, rest, running, work};
use exec::{Pool, Stream};

// Time, input that the workload takes, output that it writes, the messages until none waits (Credit, Output, none), the peer's
// credit for that output, and the next deadline.
#[unsafe(no_mangle)]
pub extern "C" fn bench_adapter(
    store: &mut [u8; 49152],
    lengths: &mut [u32; 1024],
    bytes: &[u8],
    buffer: &mut [u8; 16384],
    chunk: u32,
    window: u32,
    timeout: u64,
    turns: u64,
    steps: u64,
) -> u64 {
    let first = running(in_bytes(chunk, window), timeout, store, lengths, u32::MAX);
    let mut r = first;
    let mut sum = 0;
    let mut other = 1;
    for i in 0..turns {
        let noting = r.tick(i % 64);
        sum = add(sum, noting.answer);
        r = noting.runner;
        let hearing = r.input(key(), store, lengths, bytes);
        sum = add(sum, hearing.answer);
        r = hearing.runner;
        let waiting = r.pending_input(store).map_or(0, |bytes| bytes.len());
        sum = add(sum, waiting);
        let counting = r.input_written(lengths, waiting);
        sum = add(sum, counting.answer);
        r = counting.runner;
        let taking = r.output(Stream::Stdout, store, bytes);
        let taken = taking.answer;
        sum = add(sum, taken);
        r = taking.runner;
        for _ in 0..3u64 {
            let saying = r.next_message(store, buffer);
            sum = add(sum, saying.answer);
            r = saying.runner;
        }
        // The units of stdout's window that the output took.
        let spent = taken.map_or(0, |n| (n % 4294967296) as u32);
        let granting = r.credit(key(), Pool::Stdout, spent);
        sum = add(sum, granting.answer);
        r = granting.runner;
        sum = add(sum, r.deadline().map(|at| of_deadline(at, timeout)));
        other = work(other, steps);
    }
    sum.wrapping_add(other)
}

// The other calls that tick.
#[unsafe(no_mangle)]
pub extern "C" fn bench_adapter_rest(
    store: &mut [u8; 49152],
    lengths: &mut [u32; 1024],
    chunk: u32,
    window: u32,
    now: u64,
) -> u64 {
    rest(store, lengths, chunk, window, now)
}
