// The values that a function's words take, open results among them, and the statements of the opcodes that take or give several.
#![tactic(auto)]

pub mod calls; // CALL, RETURN, TFORLOOP and VARARG
pub mod lists; // SETLIST
pub mod results; // the values that a word takes
