// How far a rate may be off: a crate of theorems, in specs/ and proofs/. It has no code of its own.
#![tactic(auto)]
