// The statements of the opcodes from MOVE to SELF, each by the operands of its word alone: assignments of registers, constants,
// upvalues, globals and tables.
//
// Opcodes are numbers, for the reason that stands at `op`. k is the index of a statement in the list that defines those of its word, one
// for each register of LOADNIL and two for SELF: a writer for each of the two would move the choice by k into the match on opcodes.
#![tactic(auto)]

ghost use Rattle.std.specs.Prelude.{ℕ, ◌≤◌, ◌<◌, length};
ghost use Rattle.lua51_instruction.specs.Word.{op_of, number_of, SELF};
ghost use Rattle.lua51_instruction.specs.Proto.{Proto, word};
ghost use Rattle.lua51_instruction.specs.Instruction.{FieldsOf};
ghost use Rattle.ast.specs.Statement.{register, index, one, assign, set_register};
ghost use Rattle.ast.specs.Statement as ast;
ghost use Rattle.ast.specs.Written.{Adds, Wrote};
ghost use Rattle.lua51_lifter.specs.Lift.{rk, statements_by};
ghost use Rattle.lua51_runs.specs.Runs.{run_at};

use ast::{ASSIGN, BOOLEAN, CONSTANT, GLOBAL, INDEX, NIL, REGISTER, Run, TABLE, UPVALUE};
use lua51_instruction::instruction::Fields;
use lua51_instruction::op;
use lua51_runs::operands::push_operand;
use lua51_runs::registers::set_register;

// Writes 'R(A) gets R(B)[RK(C)]'.
fn get_table(run: &mut Run, w: Fields)
    ensures { Adds run.old run.new (ast.run (set_register w.a (index (register w.b) (rk w.c)))) }
{
    set_register(run, u32::from(w.a), &[INDEX, REGISTER, u32::from(w.b)]);
    push_operand(run, w.c);
}

// Writes 'R(A)[RK(B)] gets RK(C)'.
fn set_table(run: &mut Run, w: Fields)
    ensures { Adds run.old run.new (ast.run (assign (one (index (register w.a) (rk w.b))) (one (rk w.c)))) }
{
    run.push_all(&[ASSIGN, 1, 1, INDEX, REGISTER, u32::from(w.a)]);
    push_operand(run, w.b);
    push_operand(run, w.c);
}

// Writes statement k of SELF: R(A+1) gets R(B), then R(A) gets R(B)[RK(C)].
fn self_statement(run: &mut Run, w: Fields, k: u16)
    ensures result_after { (p : Proto) (i : ℕ) → FieldsOf (word p i) w → k < 2
        → Adds run.old run.new (run_at (statements_by p i SELF) k) }
    ensures anyway { Wrote run.old run.new }
{
    if k == 0 {
        return set_register(run, u32::from(w.a) + 1, &[REGISTER, u32::from(w.b)]);
    }
    get_table(run, w);
}

// Writes statement k of an opcode from MOVE to SELF. For any other word it writes some numbers.
pub fn assignment(run: &mut Run, w: Fields, k: u16)
    ensures result_after { (p : Proto) (i : ℕ) → FieldsOf (word p i) w → w.opcode ≤ number_of SELF → k < length (statements_by p i (op_of w.opcode))
        → Adds run.old run.new (run_at (statements_by p i (op_of w.opcode)) k) }
    ensures anyway { Wrote run.old run.new }
{
    let a = u32::from(w.a);
    let b = u32::from(w.b);
    let opcode = w.opcode;
    match opcode {
        op::MOVE => set_register(run, a, &[REGISTER, b]),
        op::LOADK => set_register(run, a, &[CONSTANT, w.bx]),
        op::LOADBOOL => set_register(run, a, &[BOOLEAN, b]),
        op::LOADNIL => set_register(run, a + u32::from(k), &[NIL]),
        op::GETUPVAL => set_register(run, a, &[UPVALUE, b]),
        op::GETGLOBAL => set_register(run, a, &[GLOBAL, w.bx]),
        op::GETTABLE => get_table(run, w),
        op::SETGLOBAL => run.push_all(&[ASSIGN, 1, 1, GLOBAL, w.bx, REGISTER, a]),
        op::SETUPVAL => run.push_all(&[ASSIGN, 1, 1, UPVALUE, b, REGISTER, a]),
        op::SETTABLE => set_table(run, w),
        op::NEWTABLE => set_register(run, a, &[TABLE]),
        _ => self_statement(run, w, k),
    }
}
