// Instruction words of Lua 5.1: their fields, their operands, and the table of opcodes.
#![tactic(auto)]

pub mod argument; // what an operand stands for
pub mod bits; // fields of a number
pub mod instruction; // words, their operands, and the table of opcodes
pub mod op; // the opcodes by name
