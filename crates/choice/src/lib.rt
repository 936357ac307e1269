// Which message comes next, by what a runner's state shows.
#![tactic(auto)]

ghost use Rattle.std.specs.Prelude.{◌≡◌};
ghost use Rattle.choice.specs.Order.{order};

use exec::Stream;

// What the runner says next, by what its state shows.
#[derive(Clone, Copy)]
pub enum Choice {
    // One of seven cases of a match: an Option round the others would only nest it.
    None,
    Credit,
    Started,
    InputClosed,
    End(Stream),
    Output(Stream, u32),
    Terminal,
}

// What the order of messages is told of a runner.
#[derive(Clone, Copy)]
pub struct Shown {
    // The outcome was returned.
    pub finished: bool,
    // Nobody is left to hear anything but the outcome.
    pub detached: bool,
    // Credit waits to be granted.
    pub can_grant: bool,
    // The last message was credit.
    pub credited: bool,
    // The message that the workload started waits.
    pub started: bool,
    // The message that the input closed waits.
    pub closed: bool,
    // The launch result is still waited for.
    pub awaits: bool,
    // The ends of the streams, in the order of Stream::ALL, that are not told.
    pub ends: (bool, bool, bool),
    // Everything that the outcome reports is known.
    pub ready: bool,
    // The stream whose turn it is, and how many bytes it and the two that follow can send.
    pub turn: Stream,
    pub sendable: (u32, u32, u32),
}

// The order of messages.
#[tactic(auto, unfolding(crate::specs::Order::order, crate::specs::Order::if_else))]
pub fn order(shown: Shown) -> Choice
    ensures { result
        ≡ order shown.finished shown.detached shown.can_grant shown.credited shown.started shown.closed shown.awaits
        shown.ends.0 shown.ends.1 shown.ends.2 shown.ready shown.turn shown.sendable.0 shown.sendable.1 shown.sendable.2 }
{
    if shown.finished {
        return Choice::None;
    }
    if shown.detached {
        if shown.ready {
            return Choice::Terminal;
        }
        return Choice::None;
    }
    if shown.can_grant & !shown.credited {
        return Choice::Credit;
    }
    if shown.started {
        return Choice::Started;
    }
    if shown.closed {
        return Choice::InputClosed;
    }
    if !shown.awaits & shown.ends.0 {
        return Choice::End(Stream::Stdout);
    }
    if !shown.awaits & shown.ends.1 {
        return Choice::End(Stream::Stderr);
    }
    if !shown.awaits & shown.ends.2 {
        return Choice::End(Stream::Notes);
    }
    if !shown.awaits & (0 < shown.sendable.0) {
        return Choice::Output(shown.turn, shown.sendable.0);
    }
    if !shown.awaits & (0 < shown.sendable.1) {
        return Choice::Output(shown.turn.following(), shown.sendable.1);
    }
    if !shown.awaits & (0 < shown.sendable.2) {
        return Choice::Output(shown.turn.following().following(), shown.sendable.2);
    }
    if shown.can_grant {
        return Choice::Credit;
    }
    if shown.ready {
        return Choice::Terminal;
    }
    Choice::None
}
