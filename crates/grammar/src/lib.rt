// The session card as definitions, in specs/; crate card has the code that is held to them.
#![tactic(auto)]
