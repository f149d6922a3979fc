// The statement of SETLIST. Its parameters and its contract are in the form of `results`, for the reasons there.
ghost use Rattle.std.specs.Prelude.{◌≡◌};
ghost use Rattle.lua51_instruction.specs.Word.{SETLIST};
ghost use Rattle.lua51_instruction.specs.Proto.{Proto};
ghost use Rattle.ast.specs.Written.{Adds};
ghost use Rattle.lua51_lifter.specs.Lift.{statements_by};
ghost use Rattle.lua51_runs.specs.Runs.{run_at};

use crate::results::push_open_results;
use ast::{NO_TAIL, Run, TAIL};
use basics::slices::at_or;
use lua51_instruction::instruction::{a_of, b_of, c_of};
use lua51_runs::registers::push_list;

// Writes the statement of SETLIST at word i: with B 0 its tail is the open results of the word before it.
pub fn set_list(run: &mut Run, words: &[u32], i: usize)
    ensures { (p : Proto) → p.words ≡ words.now → Adds run.old run.new (run_at (statements_by p i SETLIST) 0) }
{
    let word = at_or(words, i, 0);
    let a = a_of(word);
    let b = b_of(word);
    let c = c_of(word);
    if 0 < b {
        push_list(run, a, c, b);
        return run.push(NO_TAIL);
    }
    let j = i.saturating_sub(1);
    let opener = a_of(at_or(words, j, 0));
    let below = u16::from(opener).saturating_sub(u16::from(a) + 1);
    push_list(run, a, c, below);
    run.push(TAIL);
    push_open_results(run, words, j);
}
