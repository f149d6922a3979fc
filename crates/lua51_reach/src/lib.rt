// Where the words of a function lead: refusals 10 and 11, and what 14 goes by.
#![tactic(auto)]

pub mod marks; // leaders and reached words
pub mod reach; // refusals 10 and 11
