// The statements of the opcodes from ADD to CONCAT: R(A) gets an operation. Opcodes are numbers, for the reason that stands at `op`.
ghost use Rattle.std.specs.Prelude.{ℕ, ◌+◌, ◌-◌, ◌≤◌, ◌≡◌};
ghost use Rattle.lua51_instruction.specs.Word.{op_of, number_of, ADD, POW, CONCAT};
ghost use Rattle.lua51_instruction.specs.Proto.{Proto, word};
ghost use Rattle.lua51_instruction.specs.Instruction.{FieldsOf};
ghost use Rattle.ast.specs.Statement.{op_add};
ghost use Rattle.ast.specs.Written.{Adds, Wrote};
ghost use Rattle.lua51_lifter.specs.Lift.{statements_by};
ghost use Rattle.lua51_runs.specs.Runs.{run_at};

use ast::{LENGTH, MINUS, NOT, REGISTER, Run, UNARY};
use lua51_instruction::instruction::Fields;
use lua51_instruction::op;
use lua51_runs::operands::push_binary;
use lua51_runs::registers::{push_concatenated, set_register};

// Writes the statement of CONCAT.
fn concat(run: &mut Run, w: Fields)
    ensures result_after { (p : Proto) (i : ℕ) → FieldsOf (word p i) w
        → Adds run.old run.new (run_at (statements_by p i CONCAT) 0) }
    ensures anyway { Wrote run.old run.new }
{
    set_register(run, u32::from(w.a), &[]);
    push_concatenated(run, w.b, w.c.saturating_sub(w.b));
}

// The operator of an opcode from ADD to POW: a number, since it is written at once, and the operators stand in the order of the opcodes.
fn operator_of(opcode: u8) -> u32
    ensures { result ≡ opcode - number_of ADD + op_add }
{
    u32::from(opcode.saturating_sub(op::ADD)) + ast::ADD
}

// Writes the statement of an opcode from ADD to POW.
fn arithmetic(run: &mut Run, w: Fields)
    ensures result_after { (p : Proto) (i : ℕ) → FieldsOf (word p i) w → number_of ADD ≤ w.opcode → w.opcode ≤ number_of POW
        → Adds run.old run.new (run_at (statements_by p i (op_of w.opcode)) 0) }
    ensures anyway { Wrote run.old run.new }
{
    set_register(run, u32::from(w.a), &[]);
    push_binary(run, w, operator_of(w.opcode));
}

// Writes the statement of an opcode from ADD to CONCAT. For any other word it writes some numbers.
pub fn operation(run: &mut Run, w: Fields)
    ensures result_after { (p : Proto) (i : ℕ) → FieldsOf (word p i) w → number_of ADD ≤ w.opcode → w.opcode ≤ number_of CONCAT
        → Adds run.old run.new (run_at (statements_by p i (op_of w.opcode)) 0) }
    ensures anyway { Wrote run.old run.new }
{
    let a = u32::from(w.a);
    let b = u32::from(w.b);
    let opcode = w.opcode;
    if opcode <= op::POW {
        return arithmetic(run, w);
    }
    match opcode {
        op::UNM => set_register(run, a, &[UNARY, MINUS, REGISTER, b]),
        op::NOT => set_register(run, a, &[UNARY, NOT, REGISTER, b]),
        op::LEN => set_register(run, a, &[UNARY, LENGTH, REGISTER, b]),
        _ => concat(run, w),
    }
}
