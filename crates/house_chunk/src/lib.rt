// 'The same chunk with its opcodes put back' is a definition (specs/), and what is promised of it is a theorem over it (proofs/): no code.
#![tactic(auto)]
