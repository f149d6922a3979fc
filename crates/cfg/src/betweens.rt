// Between blocks: which loops have one.
// The contracts speak of every function with these words: a ghost field would fix one, which each caller would have to name.
ghost use Rattle.std.specs.Prelude.{◌≡◌, Some, None, cond, ltb, get_or, ℕ};
ghost use Rattle.lua51_instruction.specs.Proto.{Proto, size};
ghost use Rattle.cfg.specs.Graph.{is_loop, then_of};
ghost use Rattle.cfg.specs.Arrays.{diverted_by};

use crate::flow::{flow_of, landing};
use basics::slices::at_or;
use lua51_instruction::instruction::Flow;

// Whether a word is a loop: FORLOOP or TFORLOOP.
pub fn is_loop(word: u32) -> bool
    ensures { (p : Proto) (i : ℕ) → get_or p.words i 0 ≡ word → result ≡ is_loop p i }
{
    matches!(flow_of(word), Flow::NumericLoop | Flow::GenericLoop)
}

// The word that the Then edge of word i goes to, where it has one; none where there is no such word.
pub fn then_of(words: &[u32], i: usize) -> Option<usize>
    ensures { (p : Proto) → p.words ≡ words.now → result ≡ cond (ltb i (size p)) (Some (then_of p i)) None }
{
    let word = *words.get(i)?;
    match flow_of(word) {
        Flow::NumericLoop => Some(landing(words, i)),
        _ => Some(i + 1),
    }
}

// A function's words, and at each the count of the edges that enter there: none, one, more, as a byte, for the reason at `MORE`.
#[derive(Clone, Copy)]
pub struct Entered<'a> {
    pub words: &'a [u32],
    pub counts: &'a [u8],
}

impl Entered<'_> {
    // Whether word i is a loop to whose Then block other than one edge is counted, so that its assignment takes a between block.
    pub fn is_diverted(&self, i: usize) -> bool
        ensures { (p : Proto) → p.words ≡ self.now.words.now → result ≡ diverted_by p self.now.counts.now i }
    {
        if !is_loop(at_or(self.words, i, 0)) {
            return false;
        }
        match then_of(self.words, i) {
            Some(t) => at_or(self.counts, t, 0) != 1,
            None => false,
        }
    }
}
