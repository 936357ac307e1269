// That what our runner says keeps the judge's rules: a library of theorems over the runner's definitions and the judge's, in specs/ and
// proofs/. It has no code of its own.
#![tactic(auto)]
