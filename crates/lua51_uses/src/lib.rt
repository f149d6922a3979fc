// Words among words: refusals 12 to 14.
#![tactic(auto)]

mod results; // refusals 12 and 13
mod survey; // what they are judged by
pub mod uses; // refusals 12 to 14
