// The receiver's side of the input: the bytes that it holds for its consumer stand in the byte store, behind the rings of the
// output streams, and in Frames the bytes left of each frame in the length store.
#![tactic(auto)]

ghost use Rattle.std.specs.Prelude.{◌≡◌, ◌+◌, ◌≤◌, length};
ghost use Rattle.inbox.specs.Inbox.{
  new_inbox,
  inbox_held,
  front,
  push_after,
  push,
  pushed_frame,
  frame_after,
  pop_after,
  pop,
  pop_units,
};
ghost use Rattle.inbox.specs.Range.{ring_fits, frames_fit, inbox_fits, inbox_within, Pushable, FrameRoom, Waiting, Poppable, Slots};

use crate::need::rings;
use crate::receiver::Granted;
use exec::{Limits, Unit, Window};

pub mod need;
pub mod receiver;

// `length` bytes from `start` of their ring, and the lengths of `frames` frames from `first` of theirs.
#[derive(Clone, Copy)]
pub struct Inbox {
    pub start: usize,
    pub length: usize,
    pub first: u32,
    pub frames: u32,
}

// What a pop leaves, the units that it frees, and the frames that it came to with bytes still to take.
#[derive(Clone, Copy)]
pub struct Popping {
    pub inbox: Inbox,
    pub freed: u32,
    pub came: u32,
}

// Whether a ring's start is below its size, or 0 where the size is 0.
pub fn ring_fits(start: usize, size: usize) -> bool
    ensures { result ≡ ring_fits start size }
{
    (start < size) | ((size == 0) & (start == 0))
}

impl Inbox {
    pub fn new() -> Self
        ensures { result ≡ new_inbox }
    {
        Inbox {
            start: 0,
            length: 0,
            first: 0,
            frames: 0,
        }
    }

    // The units held.
    pub fn held(self, unit: Unit) -> usize
        ensures { result ≡ inbox_held unit self }
    {
        match unit {
            Unit::Bytes => self.length,
            Unit::Frames => self.frames as usize,
        }
    }

    // Appends one data message, which its pool charged.
    #[tactic(auto, using(ring::specs::AreaLaws::write_part), unfolding(crate::specs::Inbox::push, crate::specs::Inbox::pushed_frame))]
    pub fn push(self, limits: Limits, store: &mut [u8], lengths: &mut [u32], bytes: &[u8]) -> Inbox
        requires { Pushable limits self (length bytes.now) store.old lengths.old }
        ensures { push_after result store.new lengths.new ≡ push limits self bytes.now store.old lengths.old }
    {
        let base = rings(limits);
        let size = limits.input_bytes();
        let area = &mut store[base..base + size];
        ring::push(area, self.start, self.length, bytes);
        self.push_frame(limits.input, lengths, bytes.len())
    }

    // Counts a message of n bytes, and in Frames appends its length.
    #[tactic(auto, using(ring::specs::AreaLaws::pushed_part), unfolding(crate::specs::Inbox::pushed_frame))]
    fn push_frame(mut self, window: Window, lengths: &mut [u32], n: usize) -> Inbox
        requires { FrameRoom window self n lengths.old }
        ensures { frame_after result lengths.new ≡ pushed_frame window self n lengths.old }
    {
        self.length += n;
        match window.unit {
            Unit::Bytes => self,
            Unit::Frames => {
                let size = window.size as usize;
                let first = self.first as usize;
                let frames = self.frames as usize;
                ring::push_length(&mut lengths[..size], first, frames, n as u32);
                self.frames += 1;
                self
            }
        }
    }

    // The waiting bytes, as many as stand in one run: a part of the byte store.
    #[tactic(auto, using(ring::specs::AreaLaws::pending_part), unfolding(crate::specs::Inbox::front))]
    pub fn front<'a>(self, limits: Limits, store: &'a [u8]) -> &'a [u8]
        requires { Waiting limits self store.now }
        ensures { result.now ≡ front limits self store.now }
    {
        let base = rings(limits);
        let size = limits.input_bytes();
        ring::pending(&store[base..base + size], self.start, self.length)
    }

    // Removes the first `count` bytes, at most as many as wait, and frees units for them: each byte's, or that of each frame
    // whose last byte goes.
    #[tactic(auto, unfolding(crate::specs::Inbox::pop, crate::specs::Inbox::pop_units))]
    pub fn pop(self, limits: Limits, lengths: &mut [u32], count: usize) -> Popping
        requires { Poppable limits self lengths.old }
        ensures { pop_after result lengths.new ≡ pop limits self count lengths.old }
    {
        let n = count.min(self.length);
        let mut popping = self.pop_units(limits.input, lengths, n);
        popping.inbox.start = ring::advance(limits.input_bytes(), self.start, n);
        popping.inbox.length = self.length - n;
        popping
    }

    // The units that n bytes free, the frames that they finish removed. In Bytes there is no frame to come to.
    #[tactic(auto, using(ring::specs::AreaLaws::popped_part), unfolding(crate::specs::Inbox::pop_units))]
    fn pop_units(mut self, window: Window, lengths: &mut [u32], n: usize) -> Popping
        requires { Slots window self n lengths.old }
        ensures { pop_after result lengths.new ≡ pop_units window self n lengths.old }
    {
        match window.unit {
            Unit::Bytes => Popping {
                inbox: self,
                freed: n as u32,
                came: 0,
            },
            Unit::Frames => {
                let size = window.size as usize;
                let first = self.first as usize;
                let frames = self.frames as usize;
                let turns = ring::pop_frames(&mut lengths[..size], first, frames, n);
                self.first = ring::advance(size, first, turns.freed) as u32;
                self.frames = (frames - turns.freed) as u32;
                Popping {
                    inbox: self,
                    freed: turns.freed as u32,
                    came: turns.came as u32,
                }
            }
        }
    }

    // Whether the frames are none in Bytes, and in Frames have their lengths in a ring and room for the bytes.
    fn frames_fit(self, unit: Unit, size: u32, chunk: u32) -> bool
        ensures { result ≡ frames_fit unit size chunk self }
    {
        match unit {
            Unit::Bytes => (self.first == 0) & (self.frames == 0),
            Unit::Frames => {
                let first = self.first as usize;
                let slots = size as usize;
                let most = (self.frames as usize) * (chunk as usize);
                ring_fits(first, slots) & (self.length <= most)
            }
        }
    }

    // As `fits`, for limits that are valid, and quicker: each call asks it.
    pub fn within(self, limits: Limits, granted: Granted) -> bool
        ensures { result ≡ inbox_within limits.input.unit limits.input.size limits.chunk granted self }
    {
        let size = limits.input.size as usize;
        match limits.input.unit {
            Unit::Bytes => {
                let units = granted.fits(self.length, limits.input.size);
                (self.start < size) & (units & ((self.first == 0) & (self.frames == 0)))
            }
            Unit::Frames => {
                let chunk = limits.chunk as usize;
                let frames = self.frames as usize;
                let most = frames * chunk;
                let units = granted.fits(frames, limits.input.size);
                (self.start < size * chunk)
                    & (units & ((self.first < limits.input.size) & (self.length <= most)))
            }
        }
    }

    // Whether the inbox and the units of its window are in range.
    pub fn fits(self, limits: Limits, granted: Granted) -> bool
        ensures { result ≡ inbox_fits limits granted self }
    {
        let size = limits.input_bytes();
        let held = self.held(limits.input.unit);
        (ring_fits(self.start, size) & (self.length <= size))
            & (granted.fits(held, limits.input.size)
                & self.frames_fit(limits.input.unit, limits.input.size, limits.chunk))
    }
}
