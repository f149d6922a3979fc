// An element of a slice or another value in its place, ranges of numbers (specs/), and the laws of tests, ranges and tables (proofs/),
// which many crates go by.
#![tactic(auto)]

pub mod slices; // an element, or another value
