// Refusals 12 to 14: words among words.
// The contracts speak of every function that is described so: a ghost field would fix one, which each caller would have to name.
ghost use Rattle.std.specs.Prelude.{◌≡◌, ◌<◌, length};
ghost use Rattle.lua51_instruction.specs.Proto.{Proto, size};
ghost use Rattle.lua51_lifter.specs.Check.{use_verdict, first_refusal, fine};
ghost use Rattle.lua51_lifter.specs.Verdict.{verdict_of, Found};
ghost use Rattle.lua51_uses.specs.Judgement.{Surveys, check_words};

use crate::results::{captures_missing, results_missing, results_unused};
use crate::survey::Survey;
use cfg::marks::{mark_leaders, marked};
use lua51_instruction::instruction::opcode_of;
use lua51_instruction::op::TESTSET;
use lua51_lifter::verdict::FunctionFault;
use lua51_reach::marks::mark_reached;

// The verdict on word i among the others: its open results, then its captures, then the word behind a TESTSET.
#[tactic(auto, using(lua51_reach::proofs::Marking::mark_says, crate::proofs::Using::last_leads), unfolding(lua51_lifter::specs::Check::use_verdict))]
fn use_verdict(survey: &Survey, i: usize) -> Result<(), FunctionFault>
    requires { i < length survey.now.words.now }
    ensures result_value { (p : Proto) → Surveys p survey.now → verdict_of result ≡ use_verdict p i }
    ensures anyway { Found 12 14 (length survey.now.words.now) (verdict_of result) }
{
    if results_unused(survey, i) | results_missing(survey, i) {
        return Err(FunctionFault::Results(i));
    }
    if captures_missing(survey, i) {
        return Err(FunctionFault::Captures(i));
    }
    if (opcode_of(survey.words[i]) == TESTSET) & marked(survey.targets, i + 1) {
        return Err(FunctionFault::Shared(i));
    }
    Ok(())
}

// The first fault of a word among the others.
fn uses_verdict(survey: &Survey) -> Result<(), FunctionFault>
    ensures result_value { (p : Proto) → Surveys p survey.now → verdict_of result ≡ first_refusal (use_verdict p) 0 (size p) }
    ensures anyway { Found 12 14 (length survey.now.words.now) (verdict_of result) }
{
    (0..survey.words.len()).try_for_each(|i| use_verdict(survey, i))
}

// The verdict on a function in which 7 to 11 find nothing: that on each word among the others. The marks of its leaders, and of its
// jump targets and skips, are put into what is lent for them, one for each word and one behind the last. Whatever is lent, and
// whatever 7 to 11 find, a fault is one of 12 to 14, at one of the words. Four parameters, no plainer as one: `Survey` has the marks
// once they are made, and here they are lent to be written.
pub fn check_uses(
    words: &[u32],
    nups: &[u8],
    leaders: &mut [u8],
    targets: &mut [u8],
) -> Result<(), FunctionFault>
    ensures result_value { (p : Proto) → p.words ≡ words.now → p.nups ≡ nups.now → check_words p ≡ fine → size p < length leaders.old → size p < length targets.old → verdict_of result ≡ first_refusal (use_verdict p) 0 (size p) }
    ensures anyway { Found 12 14 (length words.now) (verdict_of result) }
{
    mark_leaders(words, leaders);
    mark_reached(words, targets);
    uses_verdict(&Survey {
        words,
        nups,
        leaders,
        targets,
    })
}
