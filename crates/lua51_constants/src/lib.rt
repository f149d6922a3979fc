// The F and K lines of a listing: a function's head, and its constants, read from the chunk's bytes as they are printed. The bytes and a
// place in them stay two parameters: the bytes are the same for all constants, and a struct of both would be made anew at each.
#![tactic(auto)]

ghost use Rattle.std.specs.Prelude.{take, drop};
ghost use mathlib.Core.List.{flat_map};
ghost use Rattle.lines.specs.Line.{column};
ghost use Rattle.lines.specs.Out.{Puts};
ghost use Rattle.lua51_value.specs.Value.{number, text};
ghost use Rattle.lua51_value.specs.Constant.{value_of};
ghost use Rattle.lua51_function.specs.Function.{places_from};
ghost use Rattle.lua51_constants.specs.Constants.{function_line, numbers_of, PrintsConstant, PrintsConstants};

use lines::{LETTER_F, LETTER_K, Output};
use lua51_deserializer::fields::constant;
use lua51_function::function::Head;
use lua51_value::value::{
    Constant, KIND_BOOLEAN, KIND_NIL, KIND_NUMBER, KIND_STRING, constant_at, pattern_of, pieces_of,
    place_after,
};

// How many indexes 32 bits can hold.
const SHORT_INDEXES: usize = 1 << 32;

// Prints a function's F line: its number, parameters, upvalues and stack.
pub fn put_function_line(out: &mut Output, head: Head)
    ensures { Puts out.old out.new (function_line head) }
{
    let numbers = [
        head.number,
        u32::from(head.parameters),
        u32::from(head.upvalues),
        u32::from(head.stack),
    ];
    out.put_line(LETTER_F, &numbers);
}

// Prints a number: its kind, and its 64 bits as four pieces, the highest first.
fn put_pattern(out: &mut Output, pattern: u64)
    ensures { Puts out.old out.new (flat_map column (numbers_of (number pattern))) }
{
    let pieces = pieces_of(pattern);
    let numbers = [
        u32::from(KIND_NUMBER),
        u32::from(pieces.highest),
        u32::from(pieces.higher),
        u32::from(pieces.lower),
        u32::from(pieces.lowest),
    ];
    out.put_numbers(&numbers);
}

// Prints a string that stands in the chunk: its kind, its length, and its bytes, as far as the chunk has them.
fn put_text(out: &mut Output, s: &[u8], from: usize, len: usize)
    ensures { Puts out.old out.new (flat_map column (numbers_of (text (take len (drop from s.now))))) }
{
    let first = place_after(s, from, 0);
    let past = place_after(s, from, len);
    out.put_number(KIND_STRING);
    out.put_number(past - first);
    out.put_numbers(&s[first..past]);
}

// Prints a constant: its kind and its value.
fn put_value(out: &mut Output, s: &[u8], c: Constant)
    ensures { Puts out.old out.new (flat_map column (numbers_of (value_of s.now c))) }
{
    match c {
        Constant::Nil => out.put_number(KIND_NIL),
        Constant::Boolean(b) => out.put_numbers(&[KIND_BOOLEAN, u8::from(b)]),
        Constant::Number(_) => put_pattern(out, pattern_of(c)),
        Constant::NotANumber(pattern) => put_pattern(out, pattern),
        Constant::String { at: from, len } => put_text(out, s, from, len),
    }
}

// Prints the K line of the constant whose kind stands at a place of the chunk, with its index.
pub fn put_constant_line(out: &mut Output, s: &[u8], index: u32, place: usize)
    ensures { PrintsConstant s.now index place out.old out.new }
{
    out.put_byte(LETTER_K);
    out.put_number(index);
    put_value(out, s, constant_at(s, place));
    out.put_end();
}

// Prints the K lines of the constants from the place `first` on, `count` of them, indexes from 0 on. Each stands where the one
// before it ends.
pub fn put_constant_lines(out: &mut Output, s: &[u8], first: usize, count: usize)
    ensures { PrintsConstants s.now (places_from s.now first count) out.old out.new }
{
    let mut place = first;
    for i in 0..count {
        let index = (i % SHORT_INDEXES) as u32; // it fits; `try_from` would have an error that cannot come
        put_constant_line(out, s, index, place);
        place = constant(s, place).unwrap_or(0);
    }
}
