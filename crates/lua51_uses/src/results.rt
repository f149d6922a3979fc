// Refusals 12 and 13: open results and captures, which are judged by the words around them.
// The contracts speak of every function that is described so: a ghost field would fix one, which each caller would have to name.
ghost use Rattle.std.specs.Prelude.{◌≡◌, true, not, ◌&&◌, ◌<◌, length};
ghost use Rattle.lua51_instruction.specs.Word.{CLOSURE};
ghost use Rattle.lua51_instruction.specs.Proto.{Proto, size, is, captures_of};
ghost use Rattle.cfg.specs.Graph.{leader};
ghost use Rattle.lua51_lifter.specs.Check.{unused_results, missing_results, all_captures};
ghost use Rattle.lua51_reach.specs.Targets.{Marked};

use crate::survey::Survey;
use basics::slices::at_or;
use cfg::marks::marked;
use lua51_instruction::instruction::{a_of, bx_of, opcode_of};
use lua51_instruction::op;
use lua51_results::captures::captures_follow;
use lua51_results::results::{first_slot, opens, suits, takes};

// ------------------------------------------------------------ 12: open results

// Whether word i leaves results open that the next word of its range does not use.
#[tactic(auto, using(lua51_reach::proofs::Marking::mark_says), unfolding(lua51_lifter::specs::Check::unused_results))]
pub fn results_unused(survey: &Survey, i: usize) -> bool
    requires { i < length survey.now.words.now }
    ensures { (p : Proto) → p.words ≡ survey.now.words.now → Marked (leader p) (size p) survey.now.leaders.now
        → result ≡ unused_results p i }
{
    let word = survey.words[i];
    if !opens(word) {
        return false;
    }
    let next = at_or(survey.words, i + 1, 0);
    !(takes(next) & !marked(survey.leaders, i + 1) & suits(word, next))
}

// Whether word i takes open results that the word before it, in the same range, does not leave from its first slot on.
#[tactic(auto, using(lua51_reach::proofs::Marking::mark_says), unfolding(lua51_lifter::specs::Check::missing_results))]
pub fn results_missing(survey: &Survey, i: usize) -> bool
    requires { i < length survey.now.words.now }
    ensures { (p : Proto) → p.words ≡ survey.now.words.now → Marked (leader p) (size p) survey.now.leaders.now
        → result ≡ missing_results p i }
{
    let word = survey.words[i];
    if !takes(word) {
        return false;
    }
    if i == 0 {
        return true;
    }
    let before = survey.words[i - 1];
    !(opens(before) & !marked(survey.leaders, i) & (first_slot(word) <= u32::from(a_of(before))))
}

// ------------------------------------------------------------ 13: captures

// Whether word i is a CLOSURE without a capture for each upvalue of its function.
#[tactic(auto, using(lua51_results::proofs::Capturing::captures_are))]
pub fn captures_missing(survey: &Survey, i: usize) -> bool
    requires { i < length survey.now.words.now }
    ensures { (p : Proto) → p.words ≡ survey.now.words.now → p.nups ≡ survey.now.nups.now → Marked (leader p) (size p) survey.now.leaders.now
        → leader p (size p) ≡ true → result ≡ (is p i CLOSURE && not (all_captures p i (captures_of p i))) }
{
    let word = survey.words[i];
    if opcode_of(word) != op::CLOSURE {
        return false;
    }
    // No plainer: Rust has no `From` of a u32 for a usize, and `try_from` has an error that cannot come
    let closed = bx_of(word) as usize;
    let count = at_or(survey.nups, closed, 0);
    !captures_follow(survey.words, survey.leaders, i + 1, usize::from(count))
}
