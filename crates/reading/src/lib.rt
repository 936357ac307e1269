// A line of the session card read as a call, by its definition in crate syntax.
#![tactic(auto)]

pub mod fields;
pub mod lines;
pub mod words;
