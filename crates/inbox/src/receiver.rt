// The receiver's side of a pool.
ghost use Rattle.std.specs.Prelude.{◌≡◌, ◌+◌, ◌<◌, ◌^◌};
ghost use Rattle.inbox.specs.Receiver.{new_granted, charge, freed, is_due, take_grant, grant_fits, units_fit};

use exec::Refusal;

// The units that the sender may still send, those that the consumer freed, or that were never granted, to be granted next, and
// the fewest that are granted at once.
#[derive(Clone, Copy)]
pub struct Granted {
    pub open: u32,
    pub returnable: u32,
    pub smallest: u32,
}

// What taking a grant leaves, and its units: none where it is not due.
#[derive(Clone, Copy)]
pub struct Taking {
    pub granted: Granted,
    pub units: u32,
}

// Whether a smallest grant is at least 1, and no more than the window.
pub fn grant_fits(smallest: u32, size: u32) -> bool
    ensures { result ≡ grant_fits smallest size }
{
    (0 < smallest) & (smallest <= size)
}

impl Granted {
    // Before the first grant, which opens the whole window.
    pub fn new(size: u32, smallest: u32) -> Self
        ensures { result ≡ new_granted size smallest }
    {
        Granted {
            open: 0,
            returnable: size,
            smallest,
        }
    }

    // Charges a data message; one beyond the units that are open is refused.
    pub fn charge(mut self, cost: u32) -> Result<Granted, Refusal>
        ensures { result ≡ charge self cost }
    {
        if self.open < cost {
            return Err(Refusal::Window);
        }
        self.open -= cost;
        Ok(self)
    }

    // Frees units that the consumer took, to grant them again.
    pub fn free(mut self, units: u32) -> Granted
        requires { self.returnable + units < 2 ^ 32 }
        ensures { result ≡ freed self units }
    {
        self.returnable += units;
        self
    }

    // Whether as much is to be granted as is granted at once.
    pub fn is_due(self) -> bool
        ensures { result ≡ is_due self }
    {
        self.smallest <= self.returnable
    }

    // Opens all that is to be granted, once it is due. (It ends at one place: with two the runner would be copied to each.)
    pub fn take_grant(mut self) -> Taking
        requires { self.open + self.returnable < 2 ^ 32 }
        ensures { result ≡ take_grant self }
    {
        let units = if self.is_due() { self.returnable } else { 0 };
        self.open += units;
        self.returnable -= units;
        Taking {
            granted: self,
            units,
        }
    }

    // Whether what is open, to be granted and held is no more than the window.
    pub fn fits(self, held: usize, size: u32) -> bool
        ensures { result ≡ units_fit self held size }
    {
        let most = size as usize;
        held <= most && self.open as usize + self.returnable as usize + held <= most
    }
}
