// One function of a chunk, read into buffers that the caller lends.
#![tactic(auto)]

pub mod function;
