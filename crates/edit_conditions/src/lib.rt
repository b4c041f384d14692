// When an edit of a register in a lent buffer is sent back, exactly: a crate of theorems, in specs/ and proofs/. It has no code of its own.
#![tactic(auto)]
