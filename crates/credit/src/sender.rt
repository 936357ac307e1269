// The sender's side of a pool.
ghost use Rattle.std.specs.Prelude.{◌≡◌, ◌≤◌};
ghost use Rattle.credit.specs.Sender.{new_credit, grant, sendable, spent, credit_fits};

use exec::{Refusal, Unit};

// The size of a pool's window, and the units of it that the sender may still send.
#[derive(Clone, Copy)]
pub struct Credit {
    pub window: u32,
    pub available: u32,
}

impl Credit {
    // The credit before the receiver's first grant.
    pub fn new(window: u32) -> Self
        ensures { result ≡ new_credit window }
    {
        Credit {
            window,
            available: 0,
        }
    }

    // Adds a grant; one of no units, or of more than the window has left, is refused, and adds nothing.
    pub fn grant(&mut self, units: u32) -> Result<(), Refusal>
        ensures { (self.new ≡ (grant self.old units).credit) × (result ≡ (grant self.old units).reply) }
    {
        if units == 0 {
            return Err(Refusal::Credit);
        }
        if u64::from(self.window) < u64::from(self.available) + u64::from(units) {
            return Err(Refusal::Credit);
        }
        self.available = self.available + units;
        Ok(())
    }

    // How many of `length` queued bytes one data message may carry now.
    pub fn sendable(self, unit: Unit, length: u32) -> u32
        ensures { result ≡ sendable unit self.available length }
    {
        match unit {
            Unit::Bytes => length.min(self.available),
            Unit::Frames => if 0 < self.available { length } else { 0 },
        }
    }

    // Spends the units of one data message.
    pub fn spend(&mut self, cost: u32)
        requires { cost ≤ self.old.available }
        ensures { self.new ≡ spent self.old cost }
    {
        self.available = self.available - cost;
    }

    // Whether no more is available than the window has.
    pub fn fits(self) -> bool
        ensures { result ≡ credit_fits self }
    {
        self.available <= self.window
    }
}
