// The outputs side by side, in the order of Stream::ALL: that of one stream, and what is asked of every one.
ghost use Rattle.std.specs.Prelude.{◌≡◌, cond};
ghost use Rattle.output.specs.Output.{grace_ended, given_up, abandoned};
ghost use Rattle.output.specs.Outputs.{
  output_in,
  put_output,
  seen,
  Changes,
  Passes,
  all_closed,
  any_held,
  all_delivered,
  queued_of,
  outputs_fit,
  outputs_within,
};

use crate::Output;
use exec::{Stream, row};

pub fn output_in(stream: Stream, outputs: [Output; 3]) -> Output
    ensures { result ≡ output_in stream outputs }
{
    row::at(stream.index(), outputs)
}

pub fn put_output(stream: Stream, output: Output, outputs: [Output; 3]) -> [Output; 3]
    ensures { result ≡ put_output stream output outputs }
{
    row::put(stream.index(), output, outputs)
}

// As they are read, given whether Notes is open: one of a stream that is not is over.
pub fn seen(notes: bool, outputs: [Output; 3]) -> [Output; 3]
    ensures { result ≡ seen notes outputs }
{
    let third = if notes { outputs[2] } else { Output::over() };
    [outputs[0], outputs[1], third]
}

// Each that is open changed alike, given whether Notes is.
pub fn each<F: Fn(Output) -> Output>(notes: bool, outputs: [Output; 3], change: F) -> [Output; 3]
    requires { F.IsAlwaysCallable change }
    ensures { Changes notes (F.post change) outputs result }
{
    let third = change(outputs[2]);
    [
        change(outputs[0]),
        change(outputs[1]),
        if notes { third } else { outputs[2] },
    ]
}

// Whether every one passes. Without a branch between them: calls of every turn ask it.
fn every<F: Fn(Output) -> bool>(outputs: [Output; 3], test: F) -> bool
    requires { F.IsAlwaysCallable test }
    ensures { Passes (F.post test) outputs result }
{
    (test(outputs[0]) & test(outputs[1])) & test(outputs[2])
}

pub fn all_closed(outputs: [Output; 3]) -> bool
    ensures { result ≡ all_closed outputs }
{
    every(outputs, |output| output.closed)
}

// (By itself: it is the one that asks whether any does.)
pub fn any_held(outputs: [Output; 3]) -> bool
    ensures { result ≡ any_held outputs }
{
    let [stdout, stderr, notes] = outputs;
    (stdout.is_held() | stderr.is_held()) | notes.is_held()
}

pub fn all_delivered(outputs: [Output; 3], detached: bool) -> bool
    ensures { result ≡ all_delivered outputs detached }
{
    every(outputs, |output| output.is_delivered(detached))
}

// The bytes of output that the runner holds.
pub fn buffered_of(outputs: [Output; 3]) -> usize
    ensures { result ≡ queued_of outputs }
{
    let [stdout, stderr, notes] = outputs;
    (stdout.queued as usize + stderr.queued as usize) + notes.queued as usize
}

// Whether every queue is within its ring.
pub fn fit(outputs: [Output; 3], chunk: u32) -> bool
    ensures { result ≡ outputs_fit chunk outputs }
{
    every(outputs, |output| output.fits(chunk))
}

// The same, for a chunk that is not 0.
pub fn within(outputs: [Output; 3], chunk: u32) -> bool
    ensures { result ≡ outputs_within chunk outputs }
{
    every(outputs, |output| output.within(chunk))
}
