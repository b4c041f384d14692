// What lists of edits leave in a buffer: a crate of theorems, in specs/ and proofs/. It has no code of its own.
#![tactic(auto)]
