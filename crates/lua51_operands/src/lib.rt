// The operands of a function's words: refusal 9.
#![tactic(auto)]

pub mod operands; // refusal 9
pub mod subject; // the function that is judged
