// Printing the words of a block: their S lines, of which captures have none.
//
// The output and the buffer of a run stay two parameters, since a run is read from the buffer while the output takes its line. A contract
// speaks of every function that a view shows: a ghost field would fix one, and callers would have to name it.
#![tactic(auto)]

ghost use Rattle.std.specs.Prelude.{ℕ, ◌+◌, ◌-◌, ◌≡◌, length};
ghost use mathlib.Core.List.{List, flat_map};
ghost use Rattle.basics.specs.Range.{over};
ghost use Rattle.lines.specs.Out.{Puts, PrintsOn};
ghost use Rattle.lua51_instruction.specs.Proto.{Proto};
ghost use Rattle.lua51_function.specs.Function.{Shows};
ghost use Rattle.lua51_lifter.specs.Blocks.{stated, naming};
ghost use Rattle.lua51_lifter.specs.Lift as lift;
ghost use Rattle.lua51_statements.specs.Lines.{line_within};

use basics::slices::at_or;
use lines::Output;
use lua51_function::function::View;
use lua51_instruction::instruction::{bx_of, opcode_of};
use lua51_instruction::op;
use lua51_statements::printing::put_statements;

// How many numbers a buffer has that holds every run of an accepted function.
pub const RUN_NUMBERS: usize = 4096;

// Prints the statements of word i, of which `pending` words from it on are captures: a capture prints nothing.
fn put_word(out: &mut Output, run: &mut [u32], function: &View, i: usize, pending: u8)
    ensures result_after { (p : Proto) (ks : List ℕ) → Shows p ks function.now → pending ≡ lift.pending p i
        → Puts out.old out.new (flat_map (line_within (length run.old)) (stated naming p i)) }
    ensures anyway { PrintsOn out.old out.new }
{
    if 0 < pending {
        return;
    }
    put_statements(out, run, function, i);
}

// How many words behind word i are captures, where `pending` words from it on are.
fn pending_behind(function: &View, i: usize, pending: u8) -> u8
    ensures { (p : Proto) (ks : List ℕ) → Shows p ks function.now → pending ≡ lift.pending p i
        → result ≡ lift.pending p (i + 1) }
{
    if 0 < pending {
        return pending - 1;
    }
    let word = at_or(function.words, i, 0);
    if opcode_of(word) == op::CLOSURE {
        return at_or(function.nups, bx_of(word) as usize, 0); // Rust has no `From` of u32 for usize
    }
    0
}

// Prints the statements of the words from `from` to before `past`, where `pending` words from the first on are captures, and gives
// how many words behind them are captures. Where the first words are not, it prints some lines.
pub fn put_body(
    out: &mut Output,
    run: &mut [u32],
    function: &View,
    from: usize,
    past: usize,
    pending: u8,
) -> u8
    ensures result_after { (p : Proto) (ks : List ℕ) → Shows p ks function.now → pending ≡ lift.pending p from
        → Puts out.old out.new (flat_map (line_within (length run.old)) (over (stated naming p) from (past - from)))
        × (result ≡ lift.pending p (from + (past - from))) }
    ensures anyway { PrintsOn out.old out.new }
{
    let mut left = pending;
    for i in from..past {
        put_word(out, run, function, i, left);
        left = pending_behind(function, i, left);
    }
    left
}
