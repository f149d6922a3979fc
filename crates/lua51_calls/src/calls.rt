// The statements of CALL, RETURN, TFORLOOP and VARARG. Their parameters and contracts are in the form of `results`, for the reasons there.
ghost use Rattle.std.specs.Prelude.{◌-◌, ◌≡◌};
ghost use Rattle.lua51_instruction.specs.Proto.{Proto};
ghost use Rattle.lua51_instruction.specs.Proto as proto;
ghost use Rattle.ast.specs.Statement.{assign, registers, []ᵉ, one, select, vararg, return};
ghost use Rattle.ast.specs.Statement as ast;
ghost use Rattle.ast.specs.Written.{Adds};
ghost use Rattle.lua51_lifter.specs.Lift.{taken, tail_for};
ghost use Rattle.lua51_calls.specs.Calls.{statement_of_call, statement_of_loop};

use crate::results::{push_call, push_closed_call, push_taken};
use ast::{BINARY, CALL_STATEMENT, IF, NIL, REGISTER, RETURN, Run, SELECT, UNEQUAL, VARARG};
use basics::slices::at_or;
use lua51_instruction::instruction::{a_of, c_of};
use lua51_runs::registers::push_lefts;

// Writes the statement of CALL at word i, whose results are not open: the call alone, or an assignment of its results.
pub fn call(run: &mut Run, words: &[u32], i: usize)
    ensures { (p : Proto) → p.words ≡ words.now → Adds run.old run.new (ast.run (statement_of_call p i)) }
{
    let word = at_or(words, i, 0);
    let c = c_of(word);
    if c == 1 {
        run.push(CALL_STATEMENT);
        return push_call(run, words, i);
    }
    push_lefts(run, u16::from(a_of(word)), c.saturating_sub(1));
    run.push(SELECT);
    push_call(run, words, i);
}

// Writes the statement of RETURN at word i.
pub fn return_values(run: &mut Run, words: &[u32], i: usize)
    ensures { (p : Proto) → p.words ≡ words.now
        → Adds run.old run.new (ast.run (return (taken p i (proto.arg_a p i) (tail_for p i)))) }
{
    let a = a_of(at_or(words, i, 0));
    run.push(RETURN);
    push_taken(run, words, i, u16::from(a));
}

// B of a call of two arguments, as TFORLOOP makes it.
const TWO_ARGUMENTS: u16 = 3;

// Writes statement k of TFORLOOP: its call, then its test. k is the index in the list that defines the two: a writer for each would move
// the choice by k into its caller's match on opcodes.
pub fn generic_loop(run: &mut Run, a: u8, c: u16, k: u16)
    ensures { Adds run.old run.new (ast.run (statement_of_loop a c k)) }
{
    let variable = u16::from(a) + 3;
    if 0 < k {
        return run.push_all(&[IF, BINARY, UNEQUAL, REGISTER, u32::from(variable), NIL]);
    }
    push_lefts(run, variable, c);
    push_closed_call(run, a, TWO_ARGUMENTS);
}

// Writes the statement of a VARARG whose results are not open.
pub fn variable_arguments(run: &mut Run, a: u8, b: u16)
    ensures { Adds run.old run.new (ast.run (assign (registers a (b - 1) []ᵉ) (one (select vararg)))) }
{
    push_lefts(run, u16::from(a), b.saturating_sub(1));
    run.push_all(&[SELECT, VARARG]);
}
