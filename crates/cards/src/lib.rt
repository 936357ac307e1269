// A host that feeds a card: a library of theorems over the card's promises, in specs/ and proofs/. It has no code of its own.
#![tactic(auto)]
