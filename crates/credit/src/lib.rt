// The credit of an execution's output pools (credit/sender.rs of the Rust).
#![tactic(auto)]

pub mod sender;
