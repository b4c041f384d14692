// How far a distance may be: a crate of theorems, in specs/ and proofs/. It has no code of its own.
#![tactic(auto)]
