// The deadlines of an execution, and what each event does to them.
ghost use Rattle.std.specs.Prelude.{◌≡◌};
ghost use Rattle.lifecycle.specs.Clocks.{terminate_clocks, stop_waiting, give_up_by, clocks_due, first_of};

use exec::deadline;

#[derive(Clone, Copy)]
pub struct Clocks {
    // When the workload's timeout passes, while it runs.
    pub timeout_at: Option<u64>,
    // When the grace of pending output ends, once a termination began.
    pub grace_until: Option<u64>,
    // When the runner gives up after a termination, unless the cleanup is complete by then.
    pub give_up_at: Option<u64>,
    // When the runner gives up on what a process may still hold after the workload's end.
    pub abandon_at: Option<u64>,
    // A termination began: the Rust's terminated_at, whose instant nothing reads.
    pub terminated: bool,
}

impl Clocks {
    // The same, made anew (`deadline::again`).
    pub fn again(self) -> Clocks
        ensures { result ≡ self }
    {
        Clocks {
            timeout_at: deadline::again(self.timeout_at),
            grace_until: deadline::again(self.grace_until),
            give_up_at: deadline::again(self.give_up_at),
            abandon_at: deadline::again(self.abandon_at),
            terminated: self.terminated,
        }
    }

    // A termination at `now`: no timeout any more, a grace for pending output, and the time to give up after that.
    pub fn terminate(mut self, now: u64, grace: u64, settlement: u64) -> Clocks
        ensures { result ≡ terminate_clocks self now grace settlement }
    {
        let grace_until = deadline::after(now, grace);
        self.timeout_at = None;
        self.grace_until = grace_until;
        self.give_up_at = deadline::then(grace_until, settlement);
        self.terminated = true;
        self
    }

    // Waits for neither the end of grace nor the time to give up.
    pub fn stop_waiting(mut self) -> Clocks
        ensures { result ≡ stop_waiting self }
    {
        self.grace_until = None;
        self.give_up_at = None;
        self
    }

    // Gives up a settlement time after `now` at the latest: a detached runner has no grace to wait for.
    pub fn give_up_by(mut self, now: u64, settlement: u64) -> Clocks
        ensures { result ≡ give_up_by self now settlement }
    {
        let by = deadline::after(now, settlement);
        self.give_up_at = deadline::earliest(self.give_up_at, by);
        self
    }

    // Whether one of the four is reached. Branch-free: a tick with nothing due asks no more than this.
    pub fn due(self, now: u64) -> bool
        ensures { result ≡ clocks_due self now }
    {
        deadline::due(self.timeout_at, now)
            | deadline::due(self.grace_until, now)
            | deadline::due(self.give_up_at, now)
            | deadline::due(self.abandon_at, now)
    }

    // The next to fire, with the settlement's; `give_up` and `abandon` say whether those two would still do anything.
    pub fn first(self, settlement: Option<u64>, give_up: bool, abandon: bool) -> Option<u64>
        ensures { result ≡ first_of self settlement give_up abandon }
    {
        let a = deadline::earliest(self.timeout_at, self.grace_until);
        let b = deadline::earliest(a, settlement);
        let c = deadline::earliest(b, deadline::keep_if(self.give_up_at, give_up));
        deadline::earliest(c, deadline::keep_if(self.abandon_at, abandon))
    }
}
