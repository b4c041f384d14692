// When a text of comma lines, or a register to be written as such, is sent back, exactly: a crate of theorems, in specs/ and proofs/. It
// has no code of its own.
#![tactic(auto)]
