// Where a word leads: its flow and its jump target.
// The contracts speak of every function with these words: a ghost field would fix one, which each caller would have to name. Words and the
// index of one stay two parameters here and beside: the index goes on, the words stay.
ghost use Rattle.std.specs.Prelude.{◌≡◌};
ghost use Rattle.lua51_instruction.specs.Word.{field_opcode, row_of};
ghost use Rattle.lua51_instruction.specs.Instruction.{flow_meant};
ghost use Rattle.lua51_instruction.specs.Proto.{Proto, target};

use basics::slices::at_or;
use lua51_instruction::instruction;
use lua51_instruction::instruction::{Flow, jump_target, opcode_of};

// Where control goes behind a word.
pub fn flow_of(word: u32) -> Flow
    ensures { flow_meant result ≡ (row_of (field_opcode word)).flow }
{
    instruction::flow_of(opcode_of(word))
}

// The word that the jump at word i leads to; the word count in place of one outside, as the definition's `target`.
pub fn landing(words: &[u32], i: usize) -> usize
    ensures { (p : Proto) → p.words ≡ words.now → result ≡ target p i }
{
    let n = words.len();
    jump_target(i, n, at_or(words, i, 0)).unwrap_or(n)
}
