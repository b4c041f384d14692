// What is proved of likely scenarios, over the printed tables and over every card: a crate of theorems, in specs/ and proofs/. It has
// no code of its own.
#![tactic(auto)]
