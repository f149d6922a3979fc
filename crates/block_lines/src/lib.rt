// The lines of one block, by the notes of its function's graph: B, S and E.
#![tactic(auto)]

pub mod blocks; // code blocks, the entry, between blocks
mod edges; // E lines
mod sources; // the lowest and the highest line of a block
