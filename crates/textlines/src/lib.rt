// The lines of a text: definitions and a theorem, in specs/ and proofs/. It has no code of its own.
#![tactic(auto)]
