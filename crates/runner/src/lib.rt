// The side of an execution that runs its workload (runner.rs of the Rust). `runner` has the state and the calls; the other
// modules have what the calls are made of.
#![tactic(auto)]

pub mod answer;
mod life;
pub mod message;
mod pairs;
mod range;
pub mod runner;
mod streams;
