// Checking a function: refusals 7 to 15.
#![tactic(auto)]

pub mod check; // refusals 7 to 11, then 12 to 14, then 15
