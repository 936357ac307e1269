// What a write of the workload's input costs: a library of theorems over the runner's definitions, in specs/ and proofs/. It has no
// code of its own.
#![tactic(auto)]
