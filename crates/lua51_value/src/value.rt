// A constant of a function, read from its bytes, and a number's bits as they are printed.
ghost use Rattle.std.specs.Prelude.{◌≡◌, ◌+◌, ◌-◌, ◌<◌};
ghost use Rattle.lua51_instruction.specs.Word.{bits};
ghost use Rattle.lua51_value.specs.Constant.{within, pattern_at, number_of, pattern_of, pieces_of, Reads};

use crate::bytes::{byte_behind, int_at};
use basics::slices::at_or;
use lua51_instruction::bits::field;

// The bits of infinity, the sign left out: a NaN's are above them.
const INFINITY: u64 = 0x7FF0000000000000;
// The sign's bit.
const SIGN: u64 = 1 << 63;
// The bits of the NaN that arithmetic gives.
const STANDARD_NAN: u64 = 0x7FF8000000000000;

// The kinds of constants: the byte that stands before each, and in the buffers of kinds. Bytes, and no enum: the buffers of
// kinds are lent as bytes, and an enum would ask a narrower type.
pub const KIND_NIL: u8 = 0;

pub const KIND_BOOLEAN: u8 = 1;

pub const KIND_NUMBER: u8 = 3;

pub const KIND_STRING: u8 = 4;

// A constant. A NaN's bits stand beside the other numbers, since a float does not keep them. A string is a place in the
// chunk and a length, without its last byte, the 0.
#[derive(Clone, Copy)]
pub enum Constant {
    Nil,
    Boolean(bool),
    Number(f64),
    NotANumber(u64),
    String { at: usize, len: usize },
}

// How far behind a constant's kind its content starts, and a string's bytes, which follow its size.
const CONTENT_FROM: usize = 1;

const TEXT_FROM: usize = 5;

// The place k bytes behind an offset, or the end of the bytes where that comes first.
pub fn place_after(s: &[u8], at: usize, k: usize) -> usize
    ensures { result ≡ within s.now (at + k) }
{
    at.saturating_add(k).min(s.len())
}

// The 64 bits at an offset, the lowest byte first.
#[tactic(auto, unfolding(crate::specs::Constant::pattern_at, crate::specs::Bytes::int_at))]
pub fn pattern_at(s: &[u8], at: usize) -> u64
    ensures { result ≡ pattern_at s.now at }
{
    u64::from_le_bytes([
        at_or(s, at, 0),
        byte_behind(s, at, 1),
        byte_behind(s, at, 2),
        byte_behind(s, at, 3),
        byte_behind(s, at, 4),
        byte_behind(s, at, 5),
        byte_behind(s, at, 6),
        byte_behind(s, at, 7),
    ])
}

// The number that 64 bits stand for. By name and no `From`: bits alone are not yet those of a number.
pub fn number(pattern: u64) -> Constant
    ensures { result ≡ number_of pattern }
{
    if INFINITY < pattern % SIGN {
        return Constant::NotANumber(pattern);
    }
    Constant::Number(f64::from_bits(pattern))
}

// The constant whose kind stands at an offset. Where none was read there, it is what the bytes at hand give: a boolean
// above 1 is true, and a kind that is not listed is read as a string's.
pub fn constant_at(s: &[u8], at: usize) -> Constant
    ensures { Reads s.now at result }
{
    let kind = at_or(s, at, 0);
    let content = place_after(s, at, CONTENT_FROM);
    match kind {
        KIND_NIL => Constant::Nil,
        KIND_BOOLEAN => Constant::Boolean(at_or(s, content, 0) != 0),
        KIND_NUMBER => number(pattern_at(s, content)),
        // Rust has no `usize::from` of a u32.
        _ => Constant::String {
            at: place_after(s, at, TEXT_FROM),
            len: int_at(s, content).saturating_sub(1) as usize,
        },
    }
}

// The 64 bits of a number; 0 of the other constants. Who asks knows that it is a number, and would take an Option apart again.
#[tactic(auto, unfolding(crate::specs::Constant::pattern_of))]
pub fn pattern_of(c: Constant) -> u64
    ensures { result ≡ pattern_of c }
{
    match c {
        Constant::Number(x) if x.is_nan() => STANDARD_NAN,
        Constant::Number(x) => x.to_bits(),
        Constant::NotANumber(pattern) => pattern,
        Constant::Nil | Constant::Boolean(_) | Constant::String { .. } => 0,
    }
}

// A number's 64 bits in pieces of 16, as they are printed.
#[derive(Clone, Copy)]
pub struct Pieces {
    pub highest: u16,
    pub higher: u16,
    pub lower: u16,
    pub lowest: u16,
}

// How many bits stand below each piece, and how many it has.
const HIGHEST_FROM: u64 = 48;

const HIGHER_FROM: u64 = 32;

const LOWER_FROM: u64 = 16;

const LOWEST_FROM: u64 = 0;

const PIECE_WIDTH: u64 = 16;

// The 16 bits of a pattern above its lowest `from` bits, cast as they are: `try_from` would have a case that cannot come.
fn piece(pattern: u64, from: u64) -> u16
    requires { from < 64 }
    ensures { result ≡ bits from 16 pattern }
{
    field(pattern, from, PIECE_WIDTH) as u16
}

// The four pieces of 64 bits. By name: it is for the pieces as they are printed, one of many ways to part 64 bits.
pub fn pieces_of(pattern: u64) -> Pieces
    ensures { result ≡ pieces_of pattern }
{
    Pieces {
        highest: piece(pattern, HIGHEST_FROM),
        higher: piece(pattern, HIGHER_FROM),
        lower: piece(pattern, LOWER_FROM),
        lowest: piece(pattern, LOWEST_FROM),
    }
}
