// What is known of the workload, and where the settlement of the execution stands.
ghost use Rattle.std.specs.Prelude.{◌≡◌};
ghost use Rattle.lifecycle.specs.Life.{
  launch_of,
  launch_known,
  failure_of,
  exit_known,
  status_of,
  or_lost,
  is_fenced,
  is_settled,
  is_requested,
  settling_late,
  expired,
  settle_with,
  expected_by,
  end_for,
  end_with,
  life_given_up,
  terminate_taken,
  life_expired,
  life_settled,
  life_outcome,
};

use exec::{Cause, LaunchFailure, Outcome, Settlement, Status, deadline};

// The workload's launch result, once it arrived: three states, each by its name, which Option<Result<(), _>> would not give them.
#[derive(Clone, Copy)]
pub enum Launch {
    Awaited,
    Started,
    Failed(LaunchFailure),
}

impl From<Result<(), LaunchFailure>> for Launch {
    ghost from_gives = { λ report launch. launch ≡ launch_of report };

    fn from(report: Result<(), LaunchFailure>) -> Launch {
        match report {
            Ok(()) => Launch::Started,
            Err(failure) => Launch::Failed(failure),
        }
    }
}

impl Launch {
    pub fn is_known(self) -> bool
        ensures { result ≡ launch_known self }
    {
        !matches!(self, Launch::Awaited)
    }

    pub fn failure(self) -> Option<LaunchFailure>
        ensures { result ≡ failure_of self }
    {
        match self {
            Launch::Awaited | Launch::Started => None,
            Launch::Failed(failure) => Some(failure),
        }
    }
}

// The workload's end, once it is known; its status may be lost. The Rust's Option<Option<Status>>, whose two None mean these two.
#[derive(Clone, Copy)]
pub enum Exit {
    Running,
    Ended(Option<Status>),
}

impl Exit {
    pub fn is_known(self) -> bool
        ensures { result ≡ exit_known self }
    {
        matches!(self, Exit::Ended(_))
    }

    pub fn status(self) -> Option<Status>
        ensures { result ≡ status_of self }
    {
        match self {
            Exit::Running => None,
            Exit::Ended(status) => status,
        }
    }

    // The exit once the runner waits for it no longer: the status of an end that is not known is lost.
    pub fn or_lost(self) -> Exit
        ensures { result ≡ or_lost self }
    {
        Exit::Ended(self.status())
    }
}

// Where the settlement of the execution stands: not requested; requested, with the instant by which its result is expected;
// settled; or fenced, as it failed or came too late.
#[derive(Clone, Copy)]
pub enum Settling {
    Idle,
    Requested(Option<u64>),
    Settled,
    Fenced,
}

impl Settling {
    pub fn is_fenced(self) -> bool
        ensures { result ≡ is_fenced self }
    {
        matches!(self, Settling::Fenced)
    }

    pub fn is_settled(self) -> bool
        ensures { result ≡ is_settled self }
    {
        matches!(self, Settling::Settled)
    }

    pub fn is_requested(self) -> bool
        ensures { result ≡ is_requested self }
    {
        matches!(self, Settling::Requested(_))
    }

    // The same, made anew (`deadline::again`).
    pub fn again(self) -> Settling
        ensures { result ≡ self }
    {
        match self {
            Settling::Requested(by) => Settling::Requested(deadline::again(by)),
            Settling::Idle => Settling::Idle,
            Settling::Settled => Settling::Settled,
            Settling::Fenced => Settling::Fenced,
        }
    }

    // Whether the result that was requested is late.
    pub fn late(self, now: u64) -> bool
        ensures { result ≡ settling_late self now }
    {
        deadline::due(self.by(), now)
    }

    // Fenced once the result that was requested is late.
    pub fn expire(self, now: u64) -> Settling
        ensures { result ≡ expired self now }
    {
        if self.late(now) {
            return Settling::Fenced;
        }
        self
    }

    // The settlement's result, which changes nothing unless it is awaited.
    pub fn settle(self, report: Settlement) -> Settling
        ensures { result ≡ settle_with self report }
    {
        match (self, report) {
            (Settling::Requested(_), Settlement::Settled) => Settling::Settled,
            (Settling::Requested(_), Settlement::Failed) => Settling::Fenced,
            _ => self,
        }
    }

    // When the result is expected.
    pub fn by(self) -> Option<u64>
        ensures { result ≡ expected_by self }
    {
        match self {
            Settling::Requested(by) => by,
            _ => None,
        }
    }
}

#[derive(Clone, Copy)]
pub struct Life {
    pub exit: Exit,
    // Why the runner ended the workload, if it did.
    pub cause: Option<Cause>,
    // The request to end the workload, while it waits to be returned.
    pub terminate_request: Option<Cause>,
    pub settling: Settling,
    // No timer moves it, so it stands apart from what they move.
    pub launch: Launch,
}

impl Life {
    // The same, with its deadline made anew (`deadline::again`).
    pub fn again(mut self) -> Life
        ensures { result ≡ self }
    {
        self.settling = self.settling.again();
        self
    }

    // The runner ends the workload for `cause`; one that has ended needs no end, and gets no cause.
    pub fn end_for(mut self, cause: Cause) -> Life
        ensures { result ≡ end_for self cause }
    {
        match self.exit {
            Exit::Running => {
                self.cause = Some(cause);
                self.terminate_request = Some(cause);
                self
            }
            Exit::Ended(_) => self,
        }
    }

    // The workload ended, and its settlement is requested, with a result expected by `by`.
    pub fn end_with(mut self, status: Option<Status>, by: Option<u64>) -> Life
        ensures { result ≡ end_with self status by }
    {
        self.exit = Exit::Ended(status);
        self.settling = Settling::Requested(by);
        self
    }

    // The runner gives up: a missing exit becomes one of no status, and the execution is fenced.
    pub fn give_up(mut self) -> Life
        ensures { result ≡ life_given_up self }
    {
        self.exit = self.exit.or_lost();
        self.settling = Settling::Fenced;
        self
    }

    // The request to end the workload was returned.
    pub fn terminate_taken(mut self) -> Life
        ensures { result ≡ terminate_taken self }
    {
        self.terminate_request = None;
        self
    }

    pub fn expire(mut self, now: u64) -> Life
        ensures { result ≡ life_expired self now }
    {
        self.settling = self.settling.expire(now);
        self
    }

    pub fn settle(mut self, report: Settlement) -> Life
        ensures { result ≡ life_settled self report }
    {
        self.settling = self.settling.settle(report);
        self
    }

    // The outcome, given which streams lost bytes.
    pub fn outcome(
        self,
        stdout_truncated: bool,
        stderr_truncated: bool,
        notes_truncated: bool,
    ) -> Outcome
        ensures { result ≡ life_outcome self stdout_truncated stderr_truncated notes_truncated }
    {
        Outcome {
            status: self.exit.status(),
            cause: self.cause,
            launch_failure: self.launch.failure(),
            stdout_truncated,
            stderr_truncated,
            notes_truncated,
            reusable: self.settling.is_settled(),
        }
    }
}
