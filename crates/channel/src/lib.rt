// Channel records of RFC 4254: the two record calls on a runner.
#![tactic(auto)]

pub mod calls;
