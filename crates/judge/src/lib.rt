// A judge of what somebody's runner says: it hears, in order, the credit and the input that the runner answered Applied and the
// messages that it sent, and refuses an item that breaks a rule (specs/Rules).
#![tactic(auto)]

ghost use Rattle.std.specs.Prelude.{◌≡◌, ◌+◌, ◌≤◌, false, ltb, Ok};
ghost use Rattle.exec.specs.Limits.{cost};
ghost use Rattle.judge.specs.declared.Item.TheVariants.{Output};
ghost use Rattle.judge.specs.Judge.{
  new_judge,
  has_ended,
  left_at,
  is_shut,
  is_out_of_order,
  is_off_chunk,
  is_unpaid,
  is_above_window,
  is_granted_above,
  judged,
  left_granted,
  paid,
  ended_now,
  noted,
  hear,
};

use exec::{Limits, Pool, Refusal, Stream, Unit, row};

// What is heard: the first two were answered Applied, the others are messages.
#[derive(Clone, Copy, Debug, PartialEq, Eq)]
pub enum Item {
    // So many units of credit on a pool.
    Granted(Pool, u32),
    // An input of so many bytes.
    Input(usize),
    Credit(u32),
    Started,
    Output(Stream, usize),
    End(Stream),
    InputClosed,
    Terminal,
}

#[derive(Clone, Copy)]
pub struct Judge {
    pub limits: Limits,
    // Whether a Started was heard, an Output or an End, an InputClosed, a Terminal.
    pub started: bool,
    pub spoken: bool,
    pub input_closed: bool,
    pub terminal: bool,
    // Of each stream, whether its End was heard.
    pub ended: [bool; 3],
    // The units granted and not spent: of each output pool (of the first alone, where the streams share one), and of the input.
    pub left: [u32; 3],
    pub input_left: u32,
}

// The units that a data message of `length` bytes costs; an input may be longer than a chunk, as no rule speaks of its length.
#[tactic(auto, unfolding(exec::specs::Limits::cost))]
fn cost_of(unit: Unit, length: usize) -> usize
    ensures { result ≡ cost unit length }
{
    match unit {
        Unit::Bytes => length,
        Unit::Frames => 1,
    }
}

// Whether more units would be left than the window has.
fn is_above(size: u32, left: u32, units: u32) -> bool
    ensures { result ≡ ltb size (left + units) }
{
    u64::from(size) < u64::from(left) + u64::from(units)
}

// The units left and more, which the window has. (Its size is asked for, as it bounds the sum.)
fn added(size: u32, left: u32, units: u32) -> u32
    requires { left + units ≤ size }
    ensures { result ≡ left + units }
{
    left + units
}

impl Judge {
    // A judge that has heard nothing.
    pub fn new(limits: Limits) -> Self
        ensures { result ≡ new_judge limits }
    {
        Judge {
            limits,
            started: false,
            spoken: false,
            input_closed: false,
            terminal: false,
            ended: [false, false, false],
            left: [0, 0, 0],
            input_left: 0,
        }
    }

    fn has_ended(self, stream: Stream) -> bool
        ensures { result ≡ has_ended stream self }
    {
        row::at(stream.index(), self.ended)
    }

    fn left_at(self, pool: usize) -> u32
        ensures { result ≡ left_at pool self }
    {
        row::at(pool, self.left)
    }

    // ---- the tests, in the order in which they refuse

    // Whether a stream may have no Output or End: its End was heard, or it is not open.
    fn is_shut(self, stream: Stream) -> bool
        ensures { result ≡ is_shut stream self }
    {
        self.has_ended(stream) | !self.limits.has(stream)
    }

    // Order: 45.
    fn is_out_of_order(self, item: Item) -> bool
        ensures { result ≡ is_out_of_order self item }
    {
        match item {
            Item::Granted(_, _) => false,
            Item::Input(_) => false,
            Item::Credit(_) => self.terminal | self.input_closed,
            Item::Started => self.terminal | self.started | self.spoken,
            Item::Output(stream, _) => self.terminal | self.is_shut(stream),
            Item::End(stream) => self.terminal | self.is_shut(stream),
            Item::InputClosed => self.terminal | self.input_closed,
            Item::Terminal => self.terminal,
        }
    }

    // Length: 4.
    fn is_off_chunk(self, item: Item) -> bool
        ensures { result ≡ is_off_chunk self item }
    {
        match item {
            Item::Output(_, length) => (length == 0) | ((self.limits.chunk as usize) < length),
            _ => false,
        }
    }

    // Costs and charges: 5.
    fn is_unpaid(self, item: Item) -> bool
        ensures { result ≡ is_unpaid self item }
    {
        match item {
            Item::Input(length) => (self.input_left as usize)
                < cost_of(self.limits.input.unit, length),
            Item::Output(stream, length) => {
                (self.left_at(self.limits.pool_of(stream)) as usize)
                    < cost_of(self.limits.output.unit, length)
            }
            _ => false,
        }
    }

    // Credit on a pool that the limits lack counts for none.
    fn is_granted_above(self, pool: Pool, units: u32) -> bool
        ensures { result ≡ is_granted_above self pool units }
    {
        match self.limits.output_pool(pool) {
            Ok(i) => is_above(self.limits.output.size, self.left_at(i), units),
            Err(_) => false,
        }
    }

    // Units and windows: 3.
    fn is_above_window(self, item: Item) -> bool
        ensures { result ≡ is_above_window self item }
    {
        match item {
            Item::Granted(pool, units) => self.is_granted_above(pool, units),
            Item::Credit(units) => (units == 0)
                | is_above(self.limits.input.size, self.input_left, units),
            _ => false,
        }
    }

    #[tactic(auto, unfolding(crate::specs::Judge::judged))]
    fn judged(self, item: Item) -> Result<(), Refusal>
        ensures { result ≡ judged self item }
    {
        if !self.limits.is_valid() {
            return Err(Refusal::NoLimits);
        }
        if self.is_out_of_order(item) {
            return Err(Refusal::OutOfOrder);
        }
        if self.is_off_chunk(item) {
            return Err(Refusal::Chunk);
        }
        if self.is_unpaid(item) {
            return Err(Refusal::Window);
        }
        if self.is_above_window(item) {
            return Err(Refusal::Credit);
        }
        Ok(())
    }

    // ---- what is kept of an item that breaks no rule

    fn left_granted(self, pool: Pool, units: u32) -> [u32; 3]
        requires { is_granted_above self pool units ≡ false }
        ensures { result ≡ left_granted self pool units }
    {
        match self.limits.output_pool(pool) {
            Ok(i) => row::put(
                i,
                added(self.limits.output.size, self.left_at(i), units),
                self.left,
            ),
            Err(_) => self.left,
        }
    }

    fn pay(&mut self, stream: Stream, length: usize)
        requires { is_unpaid self.old (Output stream length) ≡ false }
        ensures { self.new ≡ paid self.old stream length }
    {
        let i = self.limits.pool_of(stream);
        let cost = cost_of(self.limits.output.unit, length);
        let left = row::put(i, self.left_at(i) - cost as u32, self.left);
        self.left = left;
        self.spoken = true;
    }

    fn end(&mut self, stream: Stream)
        ensures { self.new ≡ ended_now self.old stream }
    {
        let ended = row::put(stream.index(), true, self.ended);
        self.ended = ended;
        self.spoken = true;
    }

    #[tactic(auto, unfolding(crate::specs::Judge::judged))]
    fn note(&mut self, item: Item)
        requires { judged self.old item ≡ Ok tt }
        ensures { self.new ≡ noted self.old item }
    {
        match item {
            Item::Granted(pool, units) => {
                let left = self.left_granted(pool, units);
                self.left = left;
            }
            Item::Input(length) => {
                self.input_left = self.input_left - cost_of(self.limits.input.unit, length) as u32
            }
            Item::Credit(units) => {
                self.input_left = added(self.limits.input.size, self.input_left, units)
            }
            Item::Started => self.started = true,
            Item::Output(stream, length) => self.pay(stream, length),
            Item::End(stream) => self.end(stream),
            Item::InputClosed => self.input_closed = true,
            Item::Terminal => self.terminal = true,
        }
    }

    // Hears one item. One that breaks a rule is refused, and leaves the judge as it was.
    pub fn hear(&mut self, item: Item) -> Result<(), Refusal>
        ensures { (result ≡ (hear self.old item).answer) × (self.new ≡ (hear self.old item).judge) }
    {
        self.judged(item)?;
        self.note(item);
        Ok(())
    }
}
