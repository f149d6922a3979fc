// The statements of the opcodes from EQ to TESTSET: 'its condition is wrapped in Not where A (EQ, LT, LE) or C (TEST, TESTSET) is 0'.
// Opcodes are numbers, for the reason that stands at `op`.
ghost use Rattle.std.specs.Prelude.{ℕ, ◌≤◌, cond, [], ◌∷◌};
ghost use Rattle.lua51_instruction.specs.Word.{op_of, number_of, EQ, TESTSET};
ghost use Rattle.lua51_instruction.specs.Proto.{Proto, word};
ghost use Rattle.lua51_instruction.specs.Instruction.{FieldsOf};
ghost use Rattle.ast.specs.Statement.{register, binary, if_statement};
ghost use Rattle.ast.specs.Statement as ast;
ghost use Rattle.ast.specs.Written.{Adds, Wrote};
ghost use Rattle.lua51_lifter.specs.Lift.{rk, condition, statements_by};
ghost use Rattle.lua51_runs.specs.Runs.{run_at};

use ast::{EQUAL, IF, LESS, LESS_OR_EQUAL, NOT, REGISTER, Run, UNARY};
use lua51_instruction::instruction::Fields;
use lua51_instruction::op;
use lua51_runs::operands::push_binary;

// Writes 'if', and Not where its condition is wrapped.
fn push_if(run: &mut Run, wrapped: bool)
    ensures { Adds run.old run.new (cond wrapped (3 ∷ 8 ∷ 1 ∷ []) (3 ∷ [])) }
{
    if wrapped {
        return run.push_all(&[IF, UNARY, NOT]);
    }
    run.push(IF);
}

// Writes 'if RK(B) operator RK(C)', under Not where A is 0.
fn comparison(run: &mut Run, w: Fields, operator: u32)
    ensures { Adds run.old run.new (ast.run (if_statement (condition w.a (binary operator (rk w.b) (rk w.c))))) }
{
    push_if(run, w.a == 0);
    push_binary(run, w, operator);
}

// Writes 'if R(r)', under Not where the flag is 0.
fn truth(run: &mut Run, flag: u16, r: u32)
    ensures { Adds run.old run.new (ast.run (if_statement (condition flag (register r)))) }
{
    push_if(run, flag == 0);
    run.push_all(&[REGISTER, r]);
}

// Writes the statement of an opcode from EQ to TESTSET. For any other word it writes some numbers.
pub fn test(run: &mut Run, w: Fields)
    ensures result_after { (p : Proto) (i : ℕ) → FieldsOf (word p i) w → number_of EQ ≤ w.opcode → w.opcode ≤ number_of TESTSET
        → Adds run.old run.new (run_at (statements_by p i (op_of w.opcode)) 0) }
    ensures anyway { Wrote run.old run.new }
{
    let opcode = w.opcode;
    match opcode {
        op::EQ => comparison(run, w, EQUAL),
        op::LT => comparison(run, w, LESS),
        op::LE => comparison(run, w, LESS_OR_EQUAL),
        op::TEST => truth(run, w.c, u32::from(w.a)),
        _ => truth(run, w.c, u32::from(w.b)),
    }
}
