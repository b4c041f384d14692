// What is proved of the line between two rows of a table: a crate of theorems, in specs/ and proofs/. It has no code of its own.
#![tactic(auto)]
