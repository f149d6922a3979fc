// Open results and captures, by which refusals 12 and 13 are judged.
#![tactic(auto)]

pub mod captures; // the captures behind a CLOSURE
pub mod results; // words that leave results open or take them
