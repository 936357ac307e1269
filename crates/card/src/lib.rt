// The session card: `feed` eats pieces of input and writes the answers, by the definitions in crate grammar.
#![tactic(auto)]

pub mod feed;
