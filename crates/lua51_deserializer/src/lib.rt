// Reading a compiled Lua 5.1 chunk: its fields, and the walk over its functions.
#![tactic(auto)]

pub mod chunk; // the walk over a chunk's functions
pub mod elements; // the elements of counted lists
pub mod fields; // the fields of a chunk
