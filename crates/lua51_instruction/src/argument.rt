// What an operand stands for that may be a register or a constant.
ghost use Rattle.std.specs.Prelude.{◌≡◌};
ghost use Rattle.lua51_instruction.specs.Argument.{register_or_constant};

// The least operand of kind Either that is a constant.
const FIRST_CONSTANT: u16 = 256;

// An operand of kind Either.
#[derive(Clone, Copy, PartialEq, Eq, Debug)]
pub enum RegisterOrConstant {
    Register(u16),
    Constant(u16),
}

// What an operand of kind Either stands for: above 255 a constant, less 256. By name and no `From`: one of another kind stands for
// something else.
pub fn register_or_constant(x: u16) -> RegisterOrConstant
    ensures { result ≡ register_or_constant x }
{
    if x < FIRST_CONSTANT {
        return RegisterOrConstant::Register(x);
    }
    RegisterOrConstant::Constant(x - FIRST_CONSTANT)
}
