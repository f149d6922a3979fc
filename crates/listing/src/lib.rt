// The listing of a function: its F and K lines, then each block's B, S and E lines.
#![tactic(auto)]

mod blocks; // the lines of blocks
pub mod function; // the listing of one function of a chunk
