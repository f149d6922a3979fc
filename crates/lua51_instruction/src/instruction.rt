// An instruction word of Lua 5.1: its fields, its operands, and the table of opcodes (lopcodes.h).
ghost use Rattle.std.specs.Prelude.{◌≡◌, min, pos};
ghost use Rattle.lua51_instruction.specs.Word.{field_opcode, field_a, field_b, field_c, field_bx, row_of};
ghost use Rattle.lua51_instruction.specs.Jump.{s_bx, largest_i32, target_of};
ghost use Rattle.lua51_instruction.specs.Instruction.{flow_meant, Means, FieldsOf, Decodes};

use crate::bits::field;
use crate::op;
use basics::slices::at_or;

// ------------------------------------------------------------ fields

// How many bits stand below each field, and how many it has.
const OPCODE_FROM: u64 = 0;

const OPCODE_WIDTH: u64 = 6;

const A_FROM: u64 = 6;

const A_WIDTH: u64 = 8;

const C_FROM: u64 = 14;

const C_WIDTH: u64 = 9;

const B_FROM: u64 = 23;

const B_WIDTH: u64 = 9;

const BX_FROM: u64 = 14;

const BX_WIDTH: u64 = 18;

// What is taken from Bx to give the signed sBx.
const BIAS: i32 = 131071;

// Each field is read by a function of its own: a field has its own width, and one function for all would not say which. A field is cast
// to the type that its width has room in: `try_from` would have a case that cannot come.

// The opcode of a word, from 0 to 63.
pub fn opcode_of(word: u32) -> u8
    ensures { result ≡ field_opcode word }
{
    field(u64::from(word), OPCODE_FROM, OPCODE_WIDTH) as u8
}

// Operand A of a word.
pub fn a_of(word: u32) -> u8
    ensures { result ≡ field_a word }
{
    field(u64::from(word), A_FROM, A_WIDTH) as u8
}

// Operand B of a word.
pub fn b_of(word: u32) -> u16
    ensures { result ≡ field_b word }
{
    field(u64::from(word), B_FROM, B_WIDTH) as u16
}

// Operand C of a word.
pub fn c_of(word: u32) -> u16
    ensures { result ≡ field_c word }
{
    field(u64::from(word), C_FROM, C_WIDTH) as u16
}

// Operand Bx of a word.
pub fn bx_of(word: u32) -> u32
    ensures { result ≡ field_bx word }
{
    field(u64::from(word), BX_FROM, BX_WIDTH) as u32
}

// The signed operand sBx of a word, from -131,071 to 131,072. Bx has 18 bits, so its cast is another case of those above.
pub fn sbx_of(word: u32) -> i32
    ensures { result ≡ s_bx word }
{
    bx_of(word) as i32 - BIAS
}

// ------------------------------------------------------------ jumps

// The largest i32. A constant cannot call `try_from`.
const LARGEST: usize = i32::MAX as usize;

// The last word number from which word + 1 + sBx is below that, whatever sBx is.
const LAST_JUMP: usize = LARGEST - 131074;

// A count as an i32; the largest where it has none.
fn signed(n: usize) -> i32
    ensures { result ≡ pos (min n largest_i32) }
{
    i32::try_from(n).unwrap_or(i32::MAX)
}

// The target of the jump that is word i of n words: word + 1 + sBx as an i32, tested against 0 and n before it is cast, which is the form
// that document 01 names; none where it leads outside. (`usize::try_from` was tried in place of the test against 0: it takes three
// instructions more at each jump.) Word numbers above LAST_JUMP are out, so that the cast of i loses nothing.
pub fn jump_target(i: usize, n: usize, word: u32) -> Option<usize>
    ensures { result ≡ target_of i n word }
{
    if LAST_JUMP < i {
        return None;
    }
    let target = i as i32 + 1 + sbx_of(word);
    if target < 0 {
        return None;
    }
    if signed(n) <= target {
        return None;
    }
    Some(target as usize)
}

// ------------------------------------------------------------ the table of opcodes

// An operand's kind: what it stands for.
#[derive(Clone, Copy, PartialEq, Eq, Debug)]
pub enum Kind {
    // Nothing reads it.
    Unused,
    // R(x).
    Register,
    // RK(x).
    Either,
    // UpValue[x].
    Upvalue,
    // 0 or 1.
    Flag,
    // Kst(Bx).
    Constant,
    // Kst(Bx), which names a global.
    Global,
    // KPROTO[Bx].
    Nested,
    // sBx.
    Offset,
    // The first of R(A), R(A+1).
    Pair,
    // The first of R(A) to R(A+3).
    Quartet,
    // The last of the run that starts at R(A).
    LastFromA,
    // The last of the run that starts at R(B).
    LastFromB,
    // One more than the count of the run that starts at R(A+1); 0 where it is open.
    Arguments,
    // One more than the count of the run that starts at R(A); 0 where it is open.
    Values,
    // As Values, of the function's variable arguments.
    Varargs,
    // The count of the run that starts at R(A+1); 0 where it is open.
    Elements,
    // The count of the run that starts at R(A+3).
    Variables,
    // A block's number, from 1.
    BlockNumber,
}

// Where control goes behind a word.
#[derive(Clone, Copy, PartialEq, Eq, Debug)]
pub enum Flow {
    // To the next word.
    Straight,
    // To the next word, or to the one after where C is 1.
    Skip,
    // To the target.
    Jump,
    // To the next word or to the one after.
    Test,
    // As a test, with an assignment before the next word.
    TestSet,
    // To the target, into a numeric loop.
    LoopEntry,
    // To the target, with an assignment before it, or to the next word.
    NumericLoop,
    // To the next word, with an assignment before it, or to the one after.
    GenericLoop,
    // Out of the function.
    Exit,
}

// What the table says of an opcode: the kinds of its operands. The kind of Bx or sBx stands under b.
#[derive(Clone, Copy, PartialEq, Eq, Debug)]
pub struct Row {
    pub a: Kind,
    pub b: Kind,
    pub c: Kind,
}

// How many opcodes there are.
pub const OPCODES: usize = 38;

// The table of the opcodes 0 to 37, in the order of lopcodes.h: the kinds of A, B and C. Tuples: a row's field names, 38 times, would be no
// plainer.
const ROWS: [(Kind, Kind, Kind); OPCODES] = [
    (Kind::Register, Kind::Register, Kind::Unused), // MOVE
    (Kind::Register, Kind::Constant, Kind::Unused), // LOADK
    (Kind::Register, Kind::Flag, Kind::Flag), // LOADBOOL
    (Kind::Register, Kind::LastFromA, Kind::Unused), // LOADNIL
    (Kind::Register, Kind::Upvalue, Kind::Unused), // GETUPVAL
    (Kind::Register, Kind::Global, Kind::Unused), // GETGLOBAL
    (Kind::Register, Kind::Register, Kind::Either), // GETTABLE
    (Kind::Register, Kind::Global, Kind::Unused), // SETGLOBAL
    (Kind::Register, Kind::Upvalue, Kind::Unused), // SETUPVAL
    (Kind::Register, Kind::Either, Kind::Either), // SETTABLE
    (Kind::Register, Kind::Unused, Kind::Unused), // NEWTABLE
    (Kind::Pair, Kind::Register, Kind::Either), // SELF
    (Kind::Register, Kind::Either, Kind::Either), // ADD
    (Kind::Register, Kind::Either, Kind::Either), // SUB
    (Kind::Register, Kind::Either, Kind::Either), // MUL
    (Kind::Register, Kind::Either, Kind::Either), // DIV
    (Kind::Register, Kind::Either, Kind::Either), // MOD
    (Kind::Register, Kind::Either, Kind::Either), // POW
    (Kind::Register, Kind::Register, Kind::Unused), // UNM
    (Kind::Register, Kind::Register, Kind::Unused), // NOT
    (Kind::Register, Kind::Register, Kind::Unused), // LEN
    (Kind::Register, Kind::Register, Kind::LastFromB), // CONCAT
    (Kind::Unused, Kind::Offset, Kind::Unused), // JMP
    (Kind::Flag, Kind::Either, Kind::Either), // EQ
    (Kind::Flag, Kind::Either, Kind::Either), // LT
    (Kind::Flag, Kind::Either, Kind::Either), // LE
    (Kind::Register, Kind::Unused, Kind::Flag), // TEST
    (Kind::Register, Kind::Register, Kind::Flag), // TESTSET
    (Kind::Register, Kind::Arguments, Kind::Values), // CALL
    (Kind::Register, Kind::Arguments, Kind::Unused), // TAILCALL
    (Kind::Register, Kind::Values, Kind::Unused), // RETURN
    (Kind::Quartet, Kind::Offset, Kind::Unused), // FORLOOP
    (Kind::Quartet, Kind::Offset, Kind::Unused), // FORPREP
    (Kind::Register, Kind::Unused, Kind::Variables), // TFORLOOP
    (Kind::Register, Kind::Elements, Kind::BlockNumber), // SETLIST
    (Kind::Register, Kind::Unused, Kind::Unused), // CLOSE
    (Kind::Register, Kind::Nested, Kind::Unused), // CLOSURE
    (Kind::Register, Kind::Varargs, Kind::Unused), // VARARG
];

// The kinds of what has no operands.
const NO_OPERANDS: (Kind, Kind, Kind) = (Kind::Unused, Kind::Unused, Kind::Unused);

// The row of an opcode. An opcode above 37 uses no operand.
fn row_of(opcode: u8) -> Row
    ensures { Means (row_of opcode) result }
{
    let (a, b, c) = at_or(&ROWS, usize::from(opcode), NO_OPERANDS);
    Row { a, b, c }
}

// The flow of an opcode. An opcode above 37 goes straight on. One arm for each test: joined by `|` two goals stayed open.
#[tactic(auto, unfolding(crate::specs::Word::op_of, crate::specs::Word::row, crate::specs::Word::row_of))]
pub fn flow_of(opcode: u8) -> Flow
    ensures { flow_meant result ≡ (row_of opcode).flow }
{
    match opcode {
        op::LOADBOOL => Flow::Skip,
        op::JMP => Flow::Jump,
        op::EQ => Flow::Test,
        op::LT => Flow::Test,
        op::LE => Flow::Test,
        op::TEST => Flow::Test,
        op::TESTSET => Flow::TestSet,
        op::RETURN => Flow::Exit,
        op::FORLOOP => Flow::NumericLoop,
        op::FORPREP => Flow::LoopEntry,
        op::TFORLOOP => Flow::GenericLoop,
        _ => Flow::Straight,
    }
}

// ------------------------------------------------------------ instructions

// The fields of a word: its opcode and its operands.
#[derive(Clone, Copy, PartialEq, Eq, Debug)]
pub struct Fields {
    pub opcode: u8,
    pub a: u8,
    pub b: u16,
    pub c: u16,
    pub bx: u32,
}

// Splits a word into its fields. By name, as each of them is read by name.
pub fn fields_of(word: u32) -> Fields
    ensures { FieldsOf word result }
{
    Fields {
        opcode: opcode_of(word),
        a: a_of(word),
        b: b_of(word),
        c: c_of(word),
        bx: bx_of(word),
    }
}

// A decoded word: its fields, and what the table says of them.
#[derive(Clone, Copy, PartialEq, Eq, Debug)]
pub struct Instruction {
    pub fields: Fields,
    pub row: Row,
}

// The instruction of a word.
pub fn decode(word: u32) -> Instruction
    ensures { Decodes word result }
{
    let fields = fields_of(word);
    let row = row_of(fields.opcode);
    Instruction { fields, row }
}
