// Frames of RFC 9113: the two frame calls on a runner.
#![tactic(auto)]

pub mod calls;
