// The statements of a function's words, as runs of numbers in a lent buffer and as S lines.
#![tactic(auto)]

pub mod printing; // S lines
mod statement; // the statements of any word
