// Refusal 9: the operands of a word, by the kinds in the table of opcodes.
// The contracts speak of every function that is described so: a ghost field would fix one, which each caller would have to name.
ghost use Rattle.std.specs.Prelude.{◌≡◌, List, cond, ◌&&◌, ◌||◌, ℕ, ◌+◌, ◌-◌, ◌/◌, ◌%◌, ◌<◌, leb, ltb, eqb, length, get_or};
ghost use Rattle.lua51_value.specs.Value.{kind_string};
ghost use Rattle.lua51_instruction.specs.Instruction.{kind_meant, FieldsOf, Decodes};
ghost use Rattle.lua51_instruction.specs.Proto.{Proto};
ghost use Rattle.lua51_function.specs.Function.{Stands};
ghost use Rattle.lua51_lifter.specs.Check.{operand, operand_fault};

use crate::subject::Subject;
use lua51_instruction::argument::{RegisterOrConstant, register_or_constant};
use lua51_instruction::instruction::{Fields, Instruction, Kind, OPCODES};
use lua51_value::value::KIND_STRING;

// ------------------------------------------------------------ flags

// The flags of a function of variable arguments (lobject.h): it has a local `arg`, it takes variable arguments, and its `arg`
// is filled. They are bits of one byte of a chunk, so an enum would be no plainer; nor would one reader for the three, which are one line
// each.
const HAS_ARG: u8 = 1;

const IS_VARARG: u8 = 2;

const NEEDS_ARG: u8 = 4;

// Whether a flag is set.
fn has_flag(flags: u8, flag: u8) -> bool
    requires { 0 < flag }
    ensures { result ≡ eqb (flags / flag % 2) 1 }
{
    flags / flag % 2 == 1
}

// Whether flag 1 is set.
pub fn has_arg(flags: u8) -> bool
    ensures { result ≡ eqb (flags / 1 % 2) 1 }
{
    has_flag(flags, HAS_ARG)
}

// Whether flag 2 is set.
pub fn is_vararg(flags: u8) -> bool
    ensures { result ≡ eqb (flags / 2 % 2) 1 }
{
    has_flag(flags, IS_VARARG)
}

// Whether flag 4 is set.
pub fn needs_arg(flags: u8) -> bool
    ensures { result ≡ eqb (flags / 4 % 2) 1 }
{
    has_flag(flags, NEEDS_ARG)
}

// ------------------------------------------------------------ kinds

// The largest flag of a test or of LOADBOOL.
const MOST_FLAG: u32 = 1;

// How far above R(A) the last register of a pair and of a quartet stands, and the one before a generic loop's variables.
const PAIR_LAST: u32 = 1;

const QUARTET_LAST: u32 = 3;

const STATE_LAST: u32 = 2;

// Whether an operand that is a register or a constant is inside.
fn either_fits(x: u16, stack: u32, constants: usize) -> bool
    ensures { result ≡ cond (ltb 255 x) (ltb (x - 256) constants) (ltb x stack) }
{
    match register_or_constant(x) {
        RegisterOrConstant::Register(register) => u32::from(register) < stack,
        RegisterOrConstant::Constant(constant) => usize::from(constant) < constants,
    }
}

// Whether there is a constant of a number, and it is a string.
fn names_global(constant: usize, kinds: &[u8]) -> bool
    ensures { result ≡ ltb constant (length kinds.now) && eqb (get_or kinds.now constant 0) kind_string }
{
    kinds.get(constant) == Some(&KIND_STRING)
}

// Whether n, one more than the count of the run that starts at R(a), is inside; 0 where it is open.
fn values_fit(n: u16, a: u8, stack: u8) -> bool
    ensures { result ≡ leb n 1 || ltb (a + n - 2) stack }
{
    let end = u32::from(a) + u32::from(n);
    (n <= 1) | (end < u32::from(stack) + 2)
}

// Whether operand x of a word of some fields is inside, by its kind.
#[tactic(auto, unfolding(lua51_lifter::specs::Check::operand))]
fn operand_fits(subject: &Subject, fields: Fields, kind: Kind, x: u16) -> bool
    ensures { (p : Proto) (i : ℕ) (ws us : List ℕ) → Stands p subject.now.head ws subject.now.kinds.now subject.now.nested.now us
        → FieldsOf (get_or ws i 0) fields → result ≡ operand p i (kind_meant kind) x }
{
    let head = subject.head;
    let kinds = subject.kinds;
    let n = u32::from(x);
    let a = u32::from(fields.a);
    let b = u32::from(fields.b);
    // No plainer: Rust has no `From` of a u32 for a usize, and `try_from` has an error that cannot come
    let bx = fields.bx as usize;
    let stack = u32::from(subject.head.stack);
    match kind {
        Kind::Unused => true,
        Kind::Register => n < stack,
        Kind::Either => either_fits(x, stack, kinds.len()),
        Kind::Upvalue => n < u32::from(head.upvalues),
        Kind::Flag => n <= MOST_FLAG,
        Kind::Constant => bx < kinds.len(),
        Kind::Global => names_global(bx, kinds),
        Kind::Nested => bx < subject.nested.len(),
        Kind::Offset => true,
        Kind::Pair => n + PAIR_LAST < stack,
        Kind::Quartet => n + QUARTET_LAST < stack,
        Kind::LastFromA => (a <= n) & (n < stack),
        Kind::LastFromB => (b < n) & (n < stack),
        Kind::Arguments => (n <= 1) | (a + n < stack + 1),
        Kind::Values => values_fit(x, fields.a, head.stack),
        Kind::Varargs => is_vararg(head.flags)
            & !needs_arg(head.flags)
            & values_fit(x, fields.a, head.stack),
        Kind::Elements => a + n < stack,
        Kind::Variables => (0 < n) & (a + STATE_LAST + n < stack),
        Kind::BlockNumber => 0 < n,
    }
}

// Whether the opcode of an instruction is unknown, or an operand is outside. Of what is described only the head, the kinds and the nested
// functions are read.
pub fn operand_fault(subject: &Subject, instruction: Instruction) -> bool
    ensures { (p : Proto) (i : ℕ) (ws us : List ℕ) → Stands p subject.now.head ws subject.now.kinds.now subject.now.nested.now us
        → Decodes (get_or ws i 0) instruction → result ≡ operand_fault p i }
{
    let fields = instruction.fields;
    let row = instruction.row;
    let known = usize::from(fields.opcode) < OPCODES;
    let a = u16::from(fields.a);
    !(known
        & operand_fits(subject, fields, row.a, a)
        & operand_fits(subject, fields, row.b, fields.b)
        & operand_fits(subject, fields, row.c, fields.c))
}
