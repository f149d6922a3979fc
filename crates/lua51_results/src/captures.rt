// Captures, for refusal 13: the words behind a CLOSURE.
ghost use Rattle.std.specs.Prelude.{◌≡◌};
ghost use Rattle.lua51_results.specs.Captures.{is_capture, captures_from};

use cfg::marks::marked;
use lua51_instruction::instruction::opcode_of;
use lua51_instruction::op::{GETUPVAL, MOVE};

// Whether a word can be a capture.
fn is_capture(word: u32) -> bool
    ensures { result ≡ is_capture word }
{
    let opcode = opcode_of(word);
    (opcode == MOVE) | (opcode == GETUPVAL)
}

// Whether `count` captures stand from word `first` on, none of them a leader. Marks stay bytes by a rule of the project: bools are a
// narrower type, and would ask more of callers. Words and leaders as one value would be no plainer: it would be made for this one call.
pub fn captures_follow(words: &[u32], leaders: &[u8], first: usize, count: usize) -> bool
    ensures { result ≡ captures_from words.now leaders.now first count }
{
    count <= words.len().saturating_sub(first)
        && (first..first + count).all(|at| is_capture(words[at]) & !marked(leaders, at))
}
