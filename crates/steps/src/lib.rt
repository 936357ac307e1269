// The steps of a session, which programs take one after the other, and how each is printed as a line.
#![tactic(auto)]

pub mod print;
pub mod session;
