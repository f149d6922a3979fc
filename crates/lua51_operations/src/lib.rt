// The statements of the opcodes from ADD to TESTSET, each by the operands of its word alone.
#![tactic(auto)]

pub mod operations; // ADD to CONCAT
pub mod tests; // EQ to TESTSET
