// Operands as expressions, where they may be registers or constants.
ghost use Rattle.ast.specs.Statement.{expr, binary};
ghost use Rattle.ast.specs.Written.{Adds};
ghost use Rattle.lua51_lifter.specs.Lift.{rk};

use ast::{BINARY, CONSTANT, REGISTER, Run};
use lua51_instruction::argument::{RegisterOrConstant, register_or_constant};
use lua51_instruction::instruction::Fields;

// Writes an operand that may be a register or a constant.
pub fn push_operand(run: &mut Run, x: u16)
    ensures { Adds run.old run.new (expr (rk x)) }
{
    match register_or_constant(x) {
        RegisterOrConstant::Register(r) => run.push_all(&[REGISTER, u32::from(r)]),
        RegisterOrConstant::Constant(k) => run.push_all(&[CONSTANT, u32::from(k)]),
    }
}

// Writes 'RK(B) operator RK(C)'.
pub fn push_binary(run: &mut Run, w: Fields, operator: u32)
    ensures { Adds run.old run.new (expr (binary operator (rk w.b) (rk w.c))) }
{
    run.push_all(&[BINARY, operator]);
    push_operand(run, w.b);
    push_operand(run, w.c);
}
