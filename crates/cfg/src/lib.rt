// The graph of a function without its statements: leaders, edges, and which loops have a between block.
#![tactic(auto)]

pub mod betweens; // the loops that have a between block
pub mod edges; // edges, and how many enter each block
pub mod few; // none, one or two values
mod flow; // where a word leads
pub mod marks; // the words at which ranges start
