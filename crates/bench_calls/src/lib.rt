// The loops of one call a turn: see crate bench.
#![tactic(auto)]

use bench::{add, in_bytes, key, of_deadline, rest, running, work};
use exec::Pool;
use runner::runner::Runner;

// The work alone, to be subtracted.
#[unsafe(no_mangle)]
pub extern "C" fn bench_work(turns: u64, steps: u64) -> u64 {
    let mut other = 1;
    for _ in 0..turns {
        other = work(other, steps);
    }
    other
}

// tick, with nothing due.
#[unsafe(no_mangle)]
pub extern "C" fn bench_tick(
    store: &mut [u8; 49152],
    lengths: &mut [u32; 1024],
    _buffer: &mut [u8; 16384],
    chunk: u32,
    window: u32,
    timeout: u64,
    turns: u64,
    steps: u64,
) -> u64 {
    let first = running(in_bytes(chunk, window), timeout, store, lengths, u32::MAX);
    let mut r = first;
    let mut sum = 0;
    let mut other = 1;
    for i in 0..turns {
        let noting = r.tick(i % 64);
        sum = add(sum, noting.answer);
        r = noting.runner;
        other = work(other, steps);
    }
    sum.wrapping_add(other)
}

// credit of one unit.
#[unsafe(no_mangle)]
pub extern "C" fn bench_credit(
    store: &mut [u8; 49152],
    lengths: &mut [u32; 1024],
    _buffer: &mut [u8; 16384],
    chunk: u32,
    window: u32,
    timeout: u64,
    turns: u64,
    steps: u64,
) -> u64 {
    let first = running(in_bytes(chunk, window), timeout, store, lengths, 1);
    let mut r = first;
    let mut sum = 0;
    let mut other = 1;
    for _ in 0..turns {
        let hearing = r.credit(key(), Pool::Stdout, 1);
        sum = add(sum, hearing.answer);
        r = hearing.runner;
        other = work(other, steps);
    }
    sum.wrapping_add(other)
}

// next_message, with nothing waiting, of four runners by turns: of one alone the compiler would ask once. The turn's number
// says which.
#[unsafe(no_mangle)]
pub extern "C" fn bench_idle(
    store: &mut [u8; 49152],
    lengths: &mut [u32; 1024],
    buffer: &mut [u8; 16384],
    chunk: u32,
    window: u32,
    timeout: u64,
    turns: u64,
    steps: u64,
) -> u64 {
    let all = four(running(in_bytes(chunk, window), timeout, store, lengths, u32::MAX));
    let mut sum = 0;
    let mut other = 1;
    for i in 0..turns {
        let at = ((i / 3) % 4) as usize;
        let saying = all[at].next_message(store, buffer);
        sum = add(sum, saying.answer);
        other = work(other, steps);
    }
    sum.wrapping_add(other)
}

// deadline, likewise.
#[unsafe(no_mangle)]
pub extern "C" fn bench_deadline(
    store: &mut [u8; 49152],
    lengths: &mut [u32; 1024],
    _buffer: &mut [u8; 16384],
    chunk: u32,
    window: u32,
    timeout: u64,
    turns: u64,
    steps: u64,
) -> u64 {
    let all = four(running(in_bytes(chunk, window), timeout, store, lengths, u32::MAX));
    let mut sum = 0;
    let mut other = 1;
    for i in 0..turns {
        let k = (i / 3) % 4;
        let at = k as usize;
        let r = all[at];
        let when = r.deadline();
        sum = add(sum, when.map(|at| of_deadline(at, 1000 + 1000 * k)));
        other = work(other, steps);
    }
    sum.wrapping_add(other)
}

fn four(r: Runner) -> [Runner; 4] {
    [
        due_at(r, 1000),
        due_at(r, 2000),
        due_at(r, 3000),
        due_at(r, 4000),
    ]
}

fn due_at(mut runner: Runner, at: u64) -> Runner {
    runner.clocks.timeout_at = Some(at);
    runner
}

#[unsafe(no_mangle)]
pub extern "C" fn bench_rest(
    store: &mut [u8; 49152],
    lengths: &mut [u32; 1024],
    chunk: u32,
    window: u32,
    now: u64,
) -> u64 {
    rest(store, lengths, chunk, window, now)
}
