// What a stream that is not open is to a maker: a library of theorems over the runner's definitions, in specs/ and proofs/. It has no
// code of its own.
#![tactic(auto)]
