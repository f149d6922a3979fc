// The values that a word takes. With B above 0 they are registers. With B 0 the last of them are the open results of the word before
// it: variable arguments, or a call, which may take open results itself.
//
// Words and the place of one stay two parameters: open results go back from word to word, and a struct of both would be made at each. A
// contract speaks of every function with these words: a ghost field would fix one, and callers would have to name it.
ghost use Rattle.std.specs.Prelude.{◌+◌, ◌-◌, ◌≡◌};
ghost use Rattle.lua51_instruction.specs.Proto.{Proto};
ghost use Rattle.ast.specs.Statement.{expr, call, register, registers, []ᵉ};
ghost use Rattle.ast.specs.Written.{Adds};
ghost use Rattle.lua51_lifter.specs.Lift.{taken, open_results, call_with, tail_for};
ghost use Rattle.lua51_calls.specs.Calls.{callee, counted, below, open_call_numbers, results_alone};

use ast::{CALL, REGISTER, Run, VARARG};
use basics::slices::at_or;
use lua51_instruction::instruction::{a_of, b_of, opcode_of};
use lua51_instruction::op;

// Writes how many values a user of open results takes, and those below its opener's A: registers from `slot` on. The open
// results themselves are counted, and are written behind.
fn push_below(run: &mut Run, slot: u16, opener: u8)
    ensures { Adds run.old run.new (below slot opener) }
{
    let count = u16::from(opener).saturating_sub(slot);
    run.push(u32::from(count) + 1);
    run.push_registers(slot, count);
}

// Writes how many values a word takes that takes no open results, and those: B - 1 registers from `slot` on. It is not one with
// `push_below`, which would take the 1 or 0 that is added to the count as a parameter.
fn push_counted(run: &mut Run, slot: u16, b: u16)
    ensures { Adds run.old run.new (counted (registers slot (b - 1) []ᵉ)) }
{
    let count = b.saturating_sub(1);
    run.push(u32::from(count));
    run.push_registers(slot, count);
}

// Writes the callee of a call: R(a). The values that it takes are written behind.
fn push_callee(run: &mut Run, a: u8)
    ensures { Adds run.old run.new (callee a) }
{
    run.push_all(&[CALL, REGISTER, u32::from(a)]);
}

// Writes a call of R(a) that takes no open results.
pub(crate) fn push_closed_call(run: &mut Run, a: u8, b: u16)
    ensures { Adds run.old run.new (expr (call (register a) (registers (a + 1) (b - 1) []ᵉ))) }
{
    push_callee(run, a);
    push_counted(run, u16::from(a) + 1, b);
}

// Writes a call of R(a) that takes open results, up to those.
fn push_open_call(run: &mut Run, a: u8, opener: u8)
    ensures { Adds run.old run.new (open_call_numbers a opener) }
{
    push_callee(run, a);
    push_below(run, u16::from(a) + 1, opener);
}

// Writes the open results of a word that takes none itself: variable arguments, or a call.
fn push_alone(run: &mut Run, word: u32)
    ensures { Adds run.old run.new (expr (results_alone word)) }
{
    if opcode_of(word) == op::VARARG {
        return run.push(VARARG);
    }
    push_closed_call(run, a_of(word), b_of(word));
}

// Writes the open results of word j. Where it is a call that takes open results itself, those of the word before it follow. By index:
// past the last word every place holds 0, which an iterator would leave out.
pub fn push_open_results(run: &mut Run, words: &[u32], j: usize)
    ensures { (p : Proto) → p.words ≡ words.now → Adds run.old run.new (expr (open_results p j)) }
{
    for before in (0..j).rev() {
        let word = at_or(words, before + 1, 0);
        if opcode_of(word) == op::VARARG {
            return push_alone(run, word);
        }
        if 0 < b_of(word) {
            return push_alone(run, word);
        }
        push_open_call(run, a_of(word), a_of(at_or(words, before, 0)));
    }
    push_alone(run, at_or(words, 0, 0));
}

// Writes how many values word i takes from `slot` on, and those: with B 0 the open results of the word before it are the last.
pub fn push_taken(run: &mut Run, words: &[u32], i: usize, slot: u16)
    ensures { (p : Proto) → p.words ≡ words.now → Adds run.old run.new (counted (taken p i slot (tail_for p i))) }
{
    let b = b_of(at_or(words, i, 0));
    if 0 < b {
        return push_counted(run, slot, b);
    }
    let j = i.saturating_sub(1);
    push_below(run, slot, a_of(at_or(words, j, 0)));
    push_open_results(run, words, j);
}

// Writes the call of word i.
pub fn push_call(run: &mut Run, words: &[u32], i: usize)
    ensures { (p : Proto) → p.words ≡ words.now → Adds run.old run.new (expr (call_with p i (tail_for p i))) }
{
    let a = a_of(at_or(words, i, 0));
    push_callee(run, a);
    push_taken(run, words, i, u16::from(a) + 1);
}
