// What a printer needs of a function's graph, noted once at each word: the block that starts there, a loop's between block, and the
// word whose assignment stands at a block's front.
#![tactic(auto)]

mod fill; // the notes, step by step
pub mod notes; // a word's note
