// The parts of the runs of numbers that a function's words give.
#![tactic(auto)]

pub mod closures; // closures and what they capture
pub mod operands; // operands as expressions
pub mod registers; // registers one after the other
