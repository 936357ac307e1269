// Rings of bytes and of frame lengths, in areas that the caller lends. A ring is all of its area: its oldest element stands
// at place `start`, and past the last place it goes on at place 0. A start is below the area's length, but for a ring of no
// places, whose start is 0.
#![tactic(auto)]

ghost use Rattle.std.specs.Prelude.{◌≡◌, ◌+◌, ◌≤◌, ◌<◌, min, length, take, drop, set};
ghost use Rattle.ring.specs.Runs.{copied};
ghost use Rattle.ring.specs.Ring.{wrap, first_run, ring_read, ring_write};
ghost use Rattle.ring.specs.Frames.{popped, stop};

// The place n further on than `start`: past the end of the area it goes on from the area's start. (No sum of the two: an area
// that is not lent may be so large that it would wrap.)
#[tactic(auto, unfolding(crate::specs::Ring::wrap))]
pub fn advance(size: usize, start: usize, n: usize) -> usize
    requires { (start ≤ size) × (n ≤ size) }
    ensures { (result ≡ wrap size (start + n)) × (result ≤ size) }
{
    let run = size - start;
    if n < run { start + n } else { n - run }
}

// Copies n bytes of src, from index `from`, into dst from index `at`. The rest of dst is kept. (The definition `copied`, argument by
// argument: a copy within a lent area is what the rings' laws speak of.)
#[tactic(auto, using(crate::specs::Runs::copied_zero), unfolding(crate::specs::Runs::copied))]
pub fn copy_in(dst: &mut [u8], at: usize, src: &[u8], from: usize, n: usize)
    requires { (at + n ≤ length dst.old) × (from + n ≤ length src.now) }
    ensures { dst.new ≡ copied dst.old at src.now from n }
{
    // A ring's second run is mostly empty: no call for that.
    if n != 0 {
        dst[at..at + n].copy_from_slice(&src[from..from + n]);
    }
}

// Appends all of bytes to a ring that holds `count`.
#[tactic(auto, unfolding(crate::specs::Ring::ring_write, crate::specs::Ring::ring_from))]
pub fn push(area: &mut [u8], start: usize, count: usize, bytes: &[u8])
    requires { (start ≤ length area.old) × (count + length bytes.now ≤ length area.old) }
    ensures { area.new ≡ ring_write 0 (length area.old) start count bytes.now (length bytes.now) area.old }
{
    let n = bytes.len();
    let at = advance(area.len(), start, count);
    let k = n.min(area.len() - at);
    copy_in(area, at, bytes, 0, k);
    copy_in(area, 0, bytes, k, n - k);
}

// Fills all of buffer with the ring's first bytes. The ring's start is the caller's to move.
#[tactic(auto, using(crate::specs::AreaLaws::read_filled))]
pub fn take(area: &[u8], start: usize, buffer: &mut [u8])
    requires { (start ≤ length area.now) × (length buffer.old ≤ length area.now) }
    ensures { buffer.new ≡ ring_read 0 (length area.now) start (length buffer.old) area.now }
{
    let n = buffer.len();
    let k = n.min(area.len() - start);
    copy_in(buffer, 0, area, start, k);
    copy_in(buffer, k, area, 0, n - k);
}

// Of `count` waiting bytes those from the ring's head to the end of its area or the last of them, as a part of the area.
pub fn pending(area: &[u8], start: usize, count: usize) -> &[u8]
    requires { start ≤ length area.now }
    ensures { result.now ≡ take (first_run (length area.now) start count) (drop start area.now) }
{
    let k = count.min(area.len() - start);
    &area[start..start + k]
}

// Appends a frame's length to the ring of lengths, which holds `frames`.
#[tactic(auto, unfolding(crate::specs::Ring::wrap))]
pub fn push_length(lengths: &mut [u32], start: usize, frames: usize, len: u32)
    requires { (start ≤ length lengths.old) × (frames < length lengths.old) }
    ensures { lengths.new ≡ set lengths.old (wrap (length lengths.old) (start + frames)) len }
{
    let at = advance(lengths.len(), start, frames);
    lengths[at] = len;
}

// What a pop of frames comes to: the units that it frees, one for each frame finished, and the frames that it came to with bytes
// still to take, the last of which it may have left unfinished.
#[derive(Clone, Copy)]
pub struct Turns {
    pub freed: usize,
    pub came: usize,
}

// Takes count bytes from the `frames` frames in the ring of lengths. The length of a frame left unfinished is lowered in place.
// Lengths may be any, 0 among them. (A loop that is left by break, with the units that it frees: the scope's own form.)
#[tactic(auto, using(crate::specs::RingLaws::wrap_lt, crate::specs::FrameLaws::pop_used, crate::specs::FrameLaws::pop_none, crate::specs::FrameLaws::pop_part))]
pub fn pop_frames(lengths: &mut [u32], start: usize, frames: usize, count: usize) -> Turns
    requires { (start ≤ length lengths.old) × (frames ≤ length lengths.old) }
    ensures { (popped frames (length lengths.old) start count lengths.old ≡ stop result.freed result.came lengths.new) × (result.freed ≤ frames) × (result.came ≤ frames) }
{
    let size = lengths.len();
    let mut left = count;
    let mut done: usize = 0;
    let turns = loop {
        if left == 0 {
            break Turns {
                freed: done,
                came: done,
            };
        }
        if done == frames {
            break Turns {
                freed: done,
                came: done, // no frame is left to come to
            };
        }
        let at = advance(size, start, done);
        let len = lengths[at] as usize;
        if left < len {
            lengths[at] = (len - left) as u32;
            break Turns {
                freed: done, // unfinished: it keeps its unit
                came: done + 1,
            };
        }
        left -= len;
        done += 1;
    };
    turns
}
