// What a day's farthest cards and the year's say of a register's bytes: a crate of theorems, in specs/ and proofs/. It has no code of its own.
#![tactic(auto)]
