// The fields of a chunk, in the order of Lua 5.1's ldump.c. Each reader reads the field at an offset and gives the offset behind it, or
// what is wrong with the bytes. Bytes and offset are two parameters: an offset goes in and comes out, and `?` hands it on; a struct of
// both would have to promise at each step that its bytes stay. `as usize` stands where Rust has no `From<u32>`.
ghost use Rattle.std.specs.Prelude.{◌≡◌, ◌+◌, ◌-◌, ◌/◌, leb, length};
ghost use Rattle.lua51_deserializer.specs.Chunk.{again, field, limited, byte_to, count_to, counted, body, string, present, constant, head, code, constants, lines, locals, names};
ghost use Rattle.lua51_deserializer.specs.Cursor.{read_of, local};

use crate::elements::{Constant, Local, Name, counted};
use basics::slices::at_or;
use lua51_value::bytes::int_at;
use lua51_value::value::{KIND_BOOLEAN, KIND_NIL, KIND_NUMBER, KIND_STRING};

// What is wrong with a chunk's bytes: refusals 1 to 6, each with its place.
#[derive(Clone, Copy, PartialEq, Eq, Debug)]
pub enum ChunkFault {
    // 1: the chunk is too long
    TooLong,
    // 2: a header byte differs
    HeaderDiffers(usize),
    // 3: the bytes end inside a field
    Ended(usize),
    // 4: a field holds what it may not
    OutOfRange(usize),
    // 5: too many functions, or too deep
    TooManyFunctions(usize),
    // 6: bytes are left over
    LeftOver(usize),
}

// Sizes of fields.
pub const BYTE_SIZE: usize = 1;

pub const INT_SIZE: usize = 4;

const NUMBER_SIZE: usize = 8;

// Limits: refusal 4.
pub const MOST_WORDS: u32 = 8192;

pub const MOST: u32 = 65536;

const MOST_FLAGS: u32 = 7;

const MOST_BOOLEAN: u32 = 1;

// Whether the bytes go on for `size` bytes from offset `at`.
pub fn whole(s: &[u8], at: usize, size: usize) -> bool
    ensures { result ≡ leb (at + size) (length s.now) }
{
    at <= s.len() && size <= s.len() - at
}

// A field of `size` bytes, of any content.
#[tactic(auto, unfolding(crate::specs::Chunk::field))]
pub fn field(s: &[u8], at: usize, size: usize) -> Result<usize, ChunkFault>
    ensures { read_of result ≡ field s.now size at }
{
    if whole(s, at, size) {
        return Ok(at + size);
    }
    Err(ChunkFault::Ended(at))
}

// A field of `size` bytes whose value may not be above a limit.
#[tactic(auto, using(crate::proofs::FieldsInTurn::limited_in_turn))]
pub fn limited(
    s: &[u8],
    at: usize,
    size: usize,
    limit: u32,
    value: u32,
) -> Result<usize, ChunkFault>
    ensures { read_of result ≡ limited s.now size limit value at }
{
    let behind = field(s, at, size)?;
    if limit < value {
        return Err(ChunkFault::OutOfRange(at));
    }
    Ok(behind)
}

// A byte that may not be above a limit. (It and the next are `limited` at a size: their names are the definition's.)
pub fn byte_to(s: &[u8], at: usize, limit: u32) -> Result<usize, ChunkFault>
    ensures { read_of result ≡ byte_to s.now limit at }
{
    limited(s, at, BYTE_SIZE, limit, u32::from(at_or(s, at, 0)))
}

// A count, or a string's size, that may not be above a limit.
pub fn count_to(s: &[u8], at: usize, limit: u32) -> Result<usize, ChunkFault>
    ensures { read_of result ≡ count_to s.now limit at }
{
    limited(s, at, INT_SIZE, limit, int_at(s, at))
}

// A string's `size` bytes, the last of them 0; none where it is absent.
#[tactic(auto, using(crate::proofs::FieldsInTurn::body_in_turn), unfolding(crate::specs::Chunk::body))]
pub fn body(s: &[u8], at: usize, size: usize) -> Result<usize, ChunkFault>
    ensures { read_of result ≡ body s.now size at }
{
    if size == 0 {
        return Ok(at);
    }
    let behind = field(s, at, size)?;
    let last = at_or(s, at + (size - 1), 0);
    if last != 0 {
        return Err(ChunkFault::OutOfRange(at));
    }
    Ok(behind)
}

// A string, which may be absent: its size and its body.
#[tactic(auto, unfolding(crate::specs::Chunk::string))]
pub fn string(s: &[u8], at: usize) -> Result<usize, ChunkFault>
    ensures { read_of result ≡ string s.now at }
{
    let text = count_to(s, at, MOST)?;
    body(s, text, int_at(s, at) as usize)
}

// A string that may not be absent.
#[tactic(auto, using(crate::proofs::FieldsInTurn::present_in_turn))]
pub fn present(s: &[u8], at: usize) -> Result<usize, ChunkFault>
    ensures { read_of result ≡ present s.now at }
{
    field(s, at, INT_SIZE)?;
    if int_at(s, at) == 0 {
        return Err(ChunkFault::OutOfRange(at));
    }
    string(s, at)
}

// A constant: its kind and what is behind it. Always inlined, into the loops that go from constant to constant: called, a listing of many
// constants takes up to 40 % more instructions.
#[inline(always)]
#[tactic(auto, using(crate::proofs::FieldsInTurn::constant_in_turn))]
pub fn constant(s: &[u8], at: usize) -> Result<usize, ChunkFault>
    ensures { read_of result ≡ constant s.now at }
{
    let behind = field(s, at, BYTE_SIZE)?;
    match at_or(s, at, 0) {
        KIND_NIL => Ok(behind),
        KIND_BOOLEAN => byte_to(s, behind, MOST_BOOLEAN),
        KIND_NUMBER => field(s, behind, NUMBER_SIZE),
        KIND_STRING => present(s, behind),
        _ => Err(ChunkFault::OutOfRange(at)),
    }
}

// A local variable: its name and two lines.
pub fn local(s: &[u8], at: usize) -> Result<usize, ChunkFault>
    ensures { read_of result ≡ local s.now at }
{
    let first_line = string(s, at)?;
    let last_line = field(s, first_line, INT_SIZE)?;
    field(s, last_line, INT_SIZE)
}

// How many 4-byte numbers are whole from offset `at` on.
fn numbers_left(s: &[u8], at: usize) -> usize
    ensures { result ≡ (length s.now - at) / 4 }
{
    s.len().saturating_sub(at) / INT_SIZE
}

// `n` numbers, of any content; the first that is not whole is refused. They are counted, not gone through as elements are,
// which took 2 % more instructions (docs/PERFORMANCE.md).
fn numbers(s: &[u8], at: usize, n: u32) -> Result<usize, ChunkFault>
    ensures { read_of result ≡ again (field s.now 4) n at }
{
    let count = n as usize;
    let left = numbers_left(s, at);
    if left < count {
        return Err(ChunkFault::Ended(at + INT_SIZE * left));
    }
    Ok(at + INT_SIZE * count)
}

// A counted list of numbers: no `counted`, for the reason at `numbers`.
#[tactic(auto, unfolding(crate::specs::Chunk::counted))]
fn counted_numbers(s: &[u8], at: usize, limit: u32) -> Result<usize, ChunkFault>
    ensures { read_of result ≡ counted s.now limit (field s.now 4) at }
{
    let first = count_to(s, at, limit)?;
    numbers(s, first, int_at(s, at))
}

// What a function begins with: its source, two lines, upvalues, parameters, flags and stack.
#[tactic(auto, unfolding(crate::specs::Chunk::head))]
pub fn head(s: &[u8], at: usize) -> Result<usize, ChunkFault>
    ensures { read_of result ≡ head s.now at }
{
    let first_line = string(s, at)?;
    let last_line = field(s, first_line, INT_SIZE)?;
    let upvalues = field(s, last_line, INT_SIZE)?;
    let parameters = field(s, upvalues, BYTE_SIZE)?;
    let flags = field(s, parameters, BYTE_SIZE)?;
    let stack = byte_to(s, flags, MOST_FLAGS)?;
    field(s, stack, BYTE_SIZE)
}

// A function's words. (This and the four below are one line each: their names are the definition's.)
#[tactic(auto, unfolding(crate::specs::Chunk::code))]
pub fn code(s: &[u8], at: usize) -> Result<usize, ChunkFault>
    ensures { read_of result ≡ code s.now at }
{
    counted_numbers(s, at, MOST_WORDS)
}

// A function's constants.
#[tactic(auto, unfolding(crate::specs::Chunk::constants))]
pub fn constants(s: &[u8], at: usize) -> Result<usize, ChunkFault>
    ensures { read_of result ≡ constants s.now at }
{
    counted::<Constant>(s, at, MOST)
}

// The source lines of a function's words.
#[tactic(auto, unfolding(crate::specs::Chunk::lines))]
pub fn lines(s: &[u8], at: usize) -> Result<usize, ChunkFault>
    ensures { read_of result ≡ lines s.now at }
{
    counted_numbers(s, at, MOST)
}

// A function's local variables.
#[tactic(auto, unfolding(crate::specs::Chunk::locals))]
pub fn locals(s: &[u8], at: usize) -> Result<usize, ChunkFault>
    ensures { read_of result ≡ locals s.now at }
{
    counted::<Local>(s, at, MOST)
}

// The names of a function's upvalues.
#[tactic(auto, unfolding(crate::specs::Chunk::names))]
pub fn names(s: &[u8], at: usize) -> Result<usize, ChunkFault>
    ensures { read_of result ≡ names s.now at }
{
    counted::<Name>(s, at, MOST)
}
