// Deadlines: instants in nanoseconds at which something is due, where there is one (the Rust's Option<Instant>).
ghost use Rattle.std.specs.Prelude.{◌≡◌, cond, None};
ghost use Rattle.exec.specs.Time.{after, then, earliest, due};

// The instant `duration` after `now`.
pub fn after(now: u64, duration: u64) -> Option<u64>
    ensures { result ≡ after now duration }
{
    now.checked_add(duration)
}

// The instant `duration` after a deadline.
pub fn then(deadline: Option<u64>, duration: u64) -> Option<u64>
    ensures { result ≡ then deadline duration }
{
    after(deadline?, duration)
}

// The earlier of two. (One match of both, or `or`, costs the runner's call `deadline` 6 to 32 instructions more; this one takes 135.)
pub fn earliest(first: Option<u64>, second: Option<u64>) -> Option<u64>
    ensures { result ≡ earliest first second }
{
    match first {
        None => second,
        Some(a) => match second {
            None => first,
            Some(b) => Some(a.min(b)),
        },
    }
}

// Whether `now` has reached it.
pub fn due(deadline: Option<u64>, now: u64) -> bool
    ensures { result ≡ due deadline now }
{
    deadline.is_some_and(|at| at <= now)
}

// A deadline while it matters, and none otherwise. (By `filter` that call takes 17 instructions more.)
pub fn keep_if(deadline: Option<u64>, keep: bool) -> Option<u64>
    ensures { result ≡ cond keep deadline None }
{
    if keep { deadline } else { None }
}

// The same, made anew, for speed: a copy would move the bytes between its tag and its instant too (docs/DECISIONS.md, Speed).
pub fn again(deadline: Option<u64>) -> Option<u64>
    ensures { result ≡ deadline }
{
    match deadline {
        None => None,
        Some(at) => Some(at),
    }
}
