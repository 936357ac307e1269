// A log of what somebody's runner said, heard by the judge: bytes in, a line for each list out.
#![tactic(auto)]

pub mod lines;
pub mod listener;
pub mod stage;
