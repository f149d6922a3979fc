// The bytes of a chunk, and the constants that stand in them.
#![tactic(auto)]

pub mod bytes; // numbers in a slice of bytes
pub mod value; // constants
