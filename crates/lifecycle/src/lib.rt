// Where an execution stands: its deadlines, what is known of its workload and settlement, and its marks. Each event of the
// runner changes these parts by one function, by value.
#![tactic(auto)]

pub mod clocks;
pub mod flags;
pub mod life;
