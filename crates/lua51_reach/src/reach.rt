// Refusals 10 and 11: where a word leads beside the next one. Words and the index of one stay two parameters: the index goes on, the words
// stay.
// Clauses hold of every function p with these words. No plainer: a ghost field would hold one p, and each caller would have to name it.
ghost use Rattle.std.specs.Prelude.{◌≡◌};
ghost use Rattle.lua51_instruction.specs.Instruction.{flow_meant};
ghost use Rattle.lua51_instruction.specs.Proto.{Proto};
ghost use Rattle.lua51_instruction.specs.Jump.{target_of};
ghost use Rattle.lua51_lifter.specs.Check.{lands_inside, tests};
ghost use Rattle.lua51_reach.specs.Targets.{skip_of, reach_by, reach_of};

use basics::slices::at_or;
use lua51_instruction::instruction::{Flow, c_of, jump_target};

// Where a word leads beside the next one, by its target or its skip: three answers, so no Option.
#[derive(Clone, Copy, PartialEq, Eq, Debug)]
pub enum Reach {
    Nowhere,
    To(usize),
    Outside,
}

// How many words a skip goes on.
const SKIP: usize = 2;

// The second word after word i of n words.
fn skip_of(i: usize, n: usize) -> Reach
    ensures { result ≡ skip_of i n }
{
    if i < n.saturating_sub(SKIP) {
        return Reach::To(i + SKIP);
    }
    Reach::Outside
}

// The target of the jump that is word i of n words.
fn jump_of(i: usize, n: usize, word: u32) -> Reach
    ensures { result ≡ reach_by (target_of i n word) }
{
    match jump_target(i, n, word) {
        Some(t) => Reach::To(t),
        None => Reach::Outside,
    }
}

// Where word i leads beside the next one, by its flow.
#[tactic(auto, unfolding(crate::specs::Targets::reach_of))]
pub fn reach_of(flow: Flow, words: &[u32], i: usize) -> Reach
    ensures { (p : Proto) → p.words ≡ words.now → result ≡ reach_of p i (flow_meant flow) }
{
    let n = words.len();
    let word = at_or(words, i, 0);
    match flow {
        Flow::Straight | Flow::Exit => Reach::Nowhere,
        Flow::Skip => {
            if c_of(word) == 0 {
                return Reach::Nowhere;
            }
            skip_of(i, n)
        }
        Flow::Jump | Flow::LoopEntry | Flow::NumericLoop => jump_of(i, n, word),
        Flow::Test | Flow::TestSet | Flow::GenericLoop => skip_of(i, n),
    }
}

// Whether the target or skip of word i is a word of the function.
pub fn lands_inside(flow: Flow, words: &[u32], i: usize) -> bool
    ensures { (p : Proto) → p.words ≡ words.now → result ≡ lands_inside p i (flow_meant flow) }
{
    !matches!(reach_of(flow, words, i), Reach::Outside)
}

// Whether a flow is a test's or a generic loop's.
#[tactic(auto, unfolding(lua51_lifter::specs::Check::tests))]
pub fn asks(flow: Flow) -> bool
    ensures { result ≡ tests (flow_meant flow) }
{
    matches!(flow, Flow::Test | Flow::TestSet | Flow::GenericLoop)
}
