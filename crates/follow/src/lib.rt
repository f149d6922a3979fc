// The two followers of a function are definitions (specs/), and demand 3 is a theorem over them (proofs/): no code.
#![tactic(auto)]
