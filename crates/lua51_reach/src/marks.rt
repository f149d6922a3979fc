// Marks of the words that are reached from elsewhere, in a lent array: 1 at each, and else 0; bytes, for the reason at `MARKED`.
// Clauses hold of every function p with these words. No plainer: a ghost field would hold one p, and each caller would have to name it.
ghost use Rattle.std.specs.Prelude.{◌≡◌, length};
ghost use Rattle.basics.specs.Range.{table};
ghost use Rattle.lua51_instruction.specs.Proto.{Proto};
ghost use Rattle.lua51_reach.specs.Targets.{marked_by, reached_mark};

use crate::reach::{Reach, reach_of};
use cfg::marks::put_mark;
use lua51_instruction::instruction::{flow_of, opcode_of};

// Marks the word that a word leads to.
fn mark(marks: &mut [u8], reach: Reach)
    ensures { marks.new ≡ marked_by reach marks.old }
{
    if let Reach::To(j) = reach {
        put_mark(marks, j);
    }
}

// Marks the words of a function that are a jump target or a skip of any word.
pub fn mark_reached(words: &[u32], marks: &mut [u8])
    ensures { (p : Proto) → p.words ≡ words.now → marks.new ≡ table (reached_mark p) (length marks.old) }
{
    marks.fill(0);
    for (i, word) in words.iter().enumerate() {
        let flow = flow_of(opcode_of(*word));
        mark(marks, reach_of(flow, words, i));
    }
}
