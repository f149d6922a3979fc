// Closures, and what the words behind a CLOSURE capture.
//
// Words and the place of one stay two parameters: what a CLOSURE captures stands in the words behind it. A contract speaks of every
// function with these words: a ghost field would fix one, and callers would have to name it.
ghost use Rattle.std.specs.Prelude.{cond, ◌≡◌, eqb};
ghost use Rattle.lua51_instruction.specs.Word.{field_opcode, number_of, MOVE, CLOSURE};
ghost use Rattle.lua51_instruction.specs.Proto.{Proto};
ghost use Rattle.ast.specs.Statement.{exprs};
ghost use Rattle.ast.specs.Written.{Adds};
ghost use Rattle.lua51_lifter.specs.Lift.{captures, statements_by};
ghost use Rattle.lua51_runs.specs.Runs.{run_at};

use crate::registers::set_register;
use ast::{REGISTER, Run, UPVALUE};
use basics::slices::at_or;
use lua51_function::function::View;
use lua51_instruction::instruction::{a_of, b_of, bx_of, opcode_of};
use lua51_instruction::op;

// The kind of expression that a capturing word gives: MOVE a register, any other an upvalue. A number, since it is written at once.
fn capture_kind(word: u32) -> u32
    ensures { result ≡ cond (eqb (field_opcode word) (number_of MOVE)) 1 5 }
{
    if opcode_of(word) == op::MOVE {
        return REGISTER;
    }
    UPVALUE
}

// Writes what the `count` words behind word i capture. By index: past the last word every place holds 0, and an iterator would end.
// The loop writes into a run of its own, for the reason that stands at `Run::push_all`.
fn push_captures(run: &mut Run, words: &[u32], i: usize, count: u8)
    ensures { (p : Proto) → p.words ≡ words.now → Adds run.old run.new (exprs (captures p i count)) }
{
    let behind = &words[words.len().min(i.saturating_add(1))..];
    let mut own = Run {
        numbers: &mut *run.numbers,
        used: run.used,
    };
    for k in 0..usize::from(count) {
        let word = at_or(behind, k, 0);
        own.push_all(&[capture_kind(word), u32::from(b_of(word))]);
    }
    run.used = own.used;
}

// Writes the statement of CLOSURE at word i of a function.
pub fn closure(run: &mut Run, function: &View, i: usize)
    ensures { (p : Proto) → p.words ≡ function.now.words.now → p.nested ≡ function.now.nested.now → p.nups ≡ function.now.nups.now
        → Adds run.old run.new (run_at (statements_by p i CLOSURE) 0) }
{
    let word = at_or(function.words, i, 0);
    let which = bx_of(word) as usize; // Rust has no `From` of u32 for usize
    let count = at_or(function.nups, which, 0);
    let nested = at_or(function.nested, which, 0);
    set_register(
        run,
        u32::from(a_of(word)),
        &[ast::CLOSURE, nested, u32::from(count)],
    );
    push_captures(run, function.words, i, count);
}
