// The statements of any word: how many there are, and each as a run. Opcodes are numbers, for the reason that stands at `op`.
//
// k is the index of a statement in the list that defines those of its word, as many as LOADNIL has registers: no switch of few steps. A
// contract speaks of every function with these words, nested functions and stack, of which a ghost field would fix one.
ghost use Rattle.std.specs.Prelude.{ℕ, ◌≤◌, ◌<◌, ◌≡◌, length};
ghost use Rattle.lua51_instruction.specs.Word.{op_of, number_of, CALL};
ghost use Rattle.lua51_instruction.specs.Proto.{Proto};
ghost use Rattle.lua51_instruction.specs.Proto as proto;
ghost use Rattle.lua51_instruction.specs.Instruction.{FieldsOf};
ghost use Rattle.ast.specs.Written.{Adds};
ghost use Rattle.lua51_lifter.specs.Lift.{statements_by};
ghost use Rattle.lua51_runs.specs.Runs.{run_at};
ghost use Rattle.lua51_statements.specs.Lines.{own_statements};

use ast::{FOR_INIT, FOR_NEXT, Run};
use basics::slices::at_or;
use lua51_assignments::assignment;
use lua51_calls::calls::{call, generic_loop, return_values, variable_arguments};
use lua51_calls::lists::set_list;
use lua51_function::function::View;
use lua51_instruction::instruction::{Fields, a_of, b_of, c_of, fields_of, opcode_of};
use lua51_instruction::op;
use lua51_operations::operations::operation;
use lua51_operations::tests::test;
use lua51_runs::closures::closure;
use lua51_runs::registers::close;

// How many statements a word gives that is no capture. A CALL or VARARG whose results are open gives none: they are their user's.
pub fn statement_count(word: u32) -> u16
    ensures { (p : Proto) (i : ℕ) → proto.word p i ≡ word → result ≡ length (own_statements p i) }
{
    let opcode = opcode_of(word);
    if op::VARARG < opcode {
        return 0;
    }
    match opcode {
        op::LOADNIL => (b_of(word) + 1).saturating_sub(u16::from(a_of(word))),
        op::SELF => 2,
        op::JMP => 0,
        op::CALL => u16::from(c_of(word) != 0),
        op::TAILCALL => 0,
        op::TFORLOOP => 2,
        op::VARARG => u16::from(b_of(word) != 0),
        _ => 1,
    }
}

// Writes statement k of word i, which has more than k, where its opcode is from CALL on.
fn from_call_on(run: &mut Run, function: &View, i: usize, w: Fields, k: u16)
    ensures { (p : Proto) → p.words ≡ function.now.words.now → p.nested ≡ function.now.nested.now → p.nups ≡ function.now.nups.now
        → p.stack ≡ function.now.head.stack → FieldsOf (proto.word p i) w → number_of CALL ≤ w.opcode → k < length (statements_by p i (op_of w.opcode))
        → Adds run.old run.new (run_at (statements_by p i (op_of w.opcode)) k) }
{
    let a = u32::from(w.a);
    let words = function.words;
    let opcode = w.opcode;
    match opcode {
        op::RETURN => return_values(run, words, i),
        op::FORLOOP => run.push_all(&[FOR_NEXT, a, a + 1, a + 2]),
        op::FORPREP => run.push_all(&[FOR_INIT, a, a + 1, a + 2]),
        op::TFORLOOP => generic_loop(run, w.a, w.c, k),
        op::SETLIST => set_list(run, words, i),
        op::CLOSE => close(run, w.a, function.head.stack),
        op::CLOSURE => closure(run, function, i),
        op::VARARG => variable_arguments(run, w.a, w.b),
        op::CALL => call(run, words, i),
        _ => {}
    }
}

// Writes statement k of word i of a function, which has more than k.
pub fn statement(run: &mut Run, function: &View, i: usize, k: u16)
    ensures { (p : Proto) → p.words ≡ function.now.words.now → p.nested ≡ function.now.nested.now → p.nups ≡ function.now.nups.now
        → p.stack ≡ function.now.head.stack → k < length (own_statements p i)
        → Adds run.old run.new (run_at (own_statements p i) k) }
{
    let w = fields_of(at_or(function.words, i, 0));
    let opcode = w.opcode;
    if opcode <= op::SELF {
        return assignment(run, w, k);
    }
    if opcode <= op::CONCAT {
        return operation(run, w);
    }
    if opcode <= op::TESTSET {
        return test(run, w);
    }
    from_call_on(run, function, i, w, k)
}
