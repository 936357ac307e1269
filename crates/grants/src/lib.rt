// When credit comes under a smallest grant: a library of theorems over the runner's definitions, in specs/ and proofs/. It has no code
// of its own.
#![tactic(auto)]
