// What a peer can know from the frames of RFC 9113: a library of theorems over the runner's definitions, in specs/ and proofs/. It has no code of its own.
#![tactic(auto)]
