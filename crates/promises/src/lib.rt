// What the call promises beside demand 3: a crate of theorems, in specs/. It has no code of its own.
#![tactic(auto)]
