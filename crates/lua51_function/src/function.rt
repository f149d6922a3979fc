// One function of a chunk, in plain buffers: its head by value, and its lists in arrays that the caller lends. `as usize` stands where
// Rust has no `From<u32>`. A chunk and a function's number, and bytes and an offset, stay two parameters: one goes on, the other stays.
ghost use Rattle.std.specs.Prelude.{◌≡◌, map, ◌+◌, min, get_or, length};
ghost use Rattle.house_table.specs.House.{word_by};
ghost use Rattle.lua51_deserializer.specs.Chunk.{ints, nowhere, offset, ◌then◌, lines, locals, bytes_of, words_of, constants_of, nested_in, proto_at};
ghost use Rattle.lua51_value.specs.Bytes.{int_at};
ghost use Rattle.lua51_deserializer.specs.Walked.{place_of};
ghost use Rattle.lua51_value.specs.Constant.{within};
ghost use Rattle.lua51_function.specs.Function.{held_count, held_of, number_in, upvalues_in, places_from, kind_at, Filled, head_of, line_in, lines_of, part, Loads};

use basics::slices::at_or;
use house_table::word_back;
use lua51_deserializer::chunk::{Chunk, Functions, MOST_FUNCTIONS, NOWHERE, Place};
use lua51_deserializer::fields::{INT_SIZE, constant, lines, locals, string};
use lua51_value::bytes::{byte_behind, int_at};
use lua51_value::value::{KIND_BOOLEAN, KIND_NIL, KIND_NUMBER, KIND_STRING, place_after};

// What a function's refusals, listing and graph need beside its lists.
#[derive(Clone, Copy)]
pub struct Head {
    // its number in the chunk
    pub number: u32,
    pub parameters: u8,
    pub upvalues: u8,
    pub flags: u8,
    pub stack: u8,
    // how many word lines and upvalue names it has
    pub lines: u32,
    pub names: u32,
}

// A function as the printers of its statements see it: its head, its words, the numbers of its nested functions and their counts of
// upvalues. These are two lists, not one of pairs: what checks uses and what counts captures take the counts alone.
#[derive(Clone, Copy)]
pub struct View<'a> {
    pub head: Head,
    pub words: &'a [u32],
    pub nested: &'a [u32],
    pub nups: &'a [u8],
}

// A function's head; where its first constant stands, and how many constants it has; where its word lines stand, up to its locals;
// and how many of its words, of its constants' kinds and of its nested functions the buffers hold. Plain numbers: neither the chunk's
// bytes nor the table stay lent while they are kept.
#[derive(Clone, Copy)]
pub struct Loaded {
    pub head: Head,
    pub first: usize,
    pub constants: usize,
    pub lines: usize,
    pub locals: usize,
    // Counts, not the filled parts as slices: tried, and where those are given back a contract cannot say what the buffers hold then
    // ("this `&mut` may have gone into the result, .., so it has no value after the call").
    pub words: usize,
    pub kinds: usize,
    pub nested: usize,
}

// Room for the largest function: its words, the marks of its words and of what is behind the last, its constants, and the functions
// that can be nested in it.
pub const MOST_WORDS: usize = lua51_deserializer::fields::MOST_WORDS as usize;

pub const MOST_MARKS: usize = MOST_WORDS + 1;

pub const MOST_CONSTANTS: usize = lua51_deserializer::fields::MOST as usize;

pub const MOST_NESTED: usize = MOST_FUNCTIONS;

// Room for a function of few words, as most are: its words, and their marks.
pub const FEW_WORDS: usize = 256;

pub const FEW_MARKS: usize = FEW_WORDS + 1;

// Two lines stand between a function's source and its four bytes.
const LINES_SIZE: usize = 8;
// Upvalues, parameters, flags and stack.
const BYTES_SIZE: usize = 4;

const PARAMETERS: usize = 1;

const FLAGS: usize = 2;

const STACK: usize = 3;

// How many functions a table holds.
fn held_count(functions: &Functions) -> usize
    ensures { result ≡ held_count functions.now }
{
    functions.count.min(MOST_FUNCTIONS)
}

// The place of function f; `NOWHERE` where the table holds none, as in the definition.
fn place_in(functions: &Functions, f: u32) -> Place
    ensures { place_of result ≡ get_or (held_of functions.now) f nowhere }
{
    let number = f as usize;
    if held_count(functions) <= number {
        return NOWHERE;
    }
    Place {
        start: functions.starts[number],
        tail: functions.tails[number],
        parent: functions.parents[number],
    }
}

// Where the four bytes of the function that starts at `start` stand.
fn bytes_of(s: &[u8], start: usize) -> usize
    ensures { result ≡ within s.now (bytes_of s.now start) }
{
    place_after(s, string(s, start).unwrap_or(0), LINES_SIZE)
}

// Where the count of its words stands.
#[tactic(auto, using(crate::proofs::Buffers::within_after))]
fn words_of(s: &[u8], start: usize) -> usize
    ensures { result ≡ within s.now (words_of s.now start) }
{
    place_after(s, bytes_of(s, start), BYTES_SIZE)
}

// Where the count of its constants stands.
#[tactic(auto, using(crate::proofs::Buffers::within_after, lua51_value::proofs::Ends::int_within))]
fn constants_of(s: &[u8], start: usize) -> usize
    ensures { result ≡ within s.now (constants_of s.now start) }
{
    let words = words_of(s, start);
    let size = INT_SIZE * (int_at(s, words) as usize);
    place_after(s, words, INT_SIZE + size)
}

// How many words function f has.
#[tactic(auto, using(crate::proofs::Buffers::ints_length, lua51_value::proofs::Ends::int_within), unfolding(lua51_deserializer::specs::Chunk::proto_at))]
pub fn word_count(chunk: Chunk, f: u32) -> usize
    ensures { result ≡ length (proto_at chunk.entry.bytes.now (held_of chunk.entry.functions.now) f).words }
{
    let start = place_in(chunk.functions, f).start as usize;
    int_at(chunk.bytes, words_of(chunk.bytes, start)) as usize
}

// Where the names stand of the function whose lines stand at `tail`; 0 where no locals can be read, as the definition's `offset`.
fn names_from(s: &[u8], tail: usize) -> usize
    ensures { result ≡ offset (lines s.now tail then locals s.now) }
{
    lines(s, tail).and_then(|at| locals(s, at)).unwrap_or(0)
}

// Function f without its lists.
#[tactic(auto, using(crate::proofs::Buffers::ints_length, crate::proofs::Buffers::byte_after, lua51_value::proofs::Ends::byte_within), unfolding(lua51_deserializer::specs::Chunk::proto_at))]
fn head_at(chunk: Chunk, f: u32) -> Head
    ensures { result ≡ head_of (proto_at chunk.entry.bytes.now (held_of chunk.entry.functions.now) f) }
{
    let s = chunk.bytes;
    let place = place_in(chunk.functions, f);
    let bytes = bytes_of(s, place.start as usize);
    let tail = place.tail as usize;
    Head {
        number: f,
        upvalues: at_or(s, bytes, 0),
        parameters: byte_behind(s, bytes, PARAMETERS),
        flags: byte_behind(s, bytes, FLAGS),
        stack: byte_behind(s, bytes, STACK),
        lines: int_at(s, tail),
        names: int_at(s, names_from(s, tail)),
    }
}

// The words of the function that starts at `start`, each put back by the inverse of a table; gives how many there was room for.
fn fill_words(s: &[u8], start: usize, inverse: &[u8], words: &mut [u32]) -> usize
    ensures { Filled result (length words.old) (map (word_by inverse.now) (ints s.now (words_of s.now start + 4) (int_at s.now (words_of s.now start)))) words.old words.new }
{
    let at = words_of(s, start);
    let first = place_after(s, at, INT_SIZE);
    let n = (int_at(s, at) as usize).min(words.len());
    for (i, word) in words[..n].iter_mut().enumerate() {
        let stored = int_at(s, place_after(s, first, INT_SIZE * i));
        *word = word_back(inverse, stored);
    }
    n
}

// The kind of the constant at an offset.
#[tactic(auto, unfolding(lua51_value::specs::Value::kind_of, lua51_value::specs::Value::value_at))]
fn kind_at(s: &[u8], at: usize) -> u8
    ensures { result ≡ kind_at s.now at }
{
    let kind = at_or(s, at, 0);
    match kind {
        KIND_NIL | KIND_BOOLEAN | KIND_NUMBER => kind,
        _ => KIND_STRING,
    }
}

// The kinds of the constants from the place `first` on, `count` of them; gives how many there was room for.
fn fill_kinds(s: &[u8], first: usize, count: usize, kinds: &mut [u8]) -> usize
    ensures { Filled result (length kinds.old) (map (kind_at s.now) (places_from s.now first count)) kinds.old kinds.new }
{
    let n = count.min(kinds.len());
    let mut at = first;
    for kind in &mut kinds[..n] {
        *kind = kind_at(s, at);
        at = constant(s, at).unwrap_or(0);
    }
    n
}

// The numbers of the functions that are nested in function `me`, and their counts of upvalues; gives how many there was room
// for.
fn fill_nested(chunk: Chunk, me: u32, numbers: &mut [u32], nups: &mut [u8]) -> usize
    ensures numbers { Filled result (min (length numbers.old) (length nups.old)) (nested_in number_in me 0 (held_of chunk.entry.functions.now)) numbers.old numbers.new }
    ensures nups { Filled result (min (length numbers.old) (length nups.old)) (nested_in (upvalues_in chunk.entry.bytes.now) me 0 (held_of chunk.entry.functions.now)) nups.old nups.new }
{
    let room = numbers.len().min(nups.len());
    let s = chunk.bytes;
    let count = held_count(chunk.functions);
    let mut n = 0;
    // By index: a turn writes at the next free place, and only where the function is nested in this one.
    for k in 1..count {
        if u32::from(chunk.functions.parents[k]) == me {
            if room <= n {
                return n;
            }
            let start = chunk.functions.starts[k] as usize;
            // The cast narrows: at most 256 functions are held.
            numbers[n] = k as u32;
            nups[n] = at_or(s, bytes_of(s, start), 0);
            n += 1;
        }
    }
    n
}

// The line of word i, by the bytes of a function's word lines; past the last, 0, as a B line prints it.
#[tactic(auto, using(crate::proofs::WordLines::line_none))]
pub fn line_at(lines: &[u8], i: usize) -> usize
    ensures { result ≡ line_in lines.now i }
{
    if lines.len() / INT_SIZE < i {
        return 0;
    }
    int_at(lines, INT_SIZE * i) as usize
}

// Function f of a chunk that was walked: its head, where its constants start and how many they are, where its word lines stand; and
// in the buffers its words, the kinds of its constants, the numbers of the functions nested in it and their counts of upvalues, each
// list as far as there is room. Words are put back as they are loaded, by the inverse of a table, whatever that holds. Who needs no kinds
// lends an empty buffer for them.
//
// The buffers are four parameters: of a struct of them a contract could tell what they hold afterwards by position alone.
pub fn function_at(
    chunk: Chunk,
    f: u32,
    inverse: &[u8],
    words: &mut [u32],
    kinds: &mut [u8],
    nested: &mut [u32],
    nups: &mut [u8],
) -> Loaded
    ensures loads { Loads (word_by inverse.now) chunk.entry.bytes.now (held_of chunk.entry.functions.now) f result
        words.old words.new kinds.old kinds.new nested.old nested.new nups.old nups.new }
    ensures bytes { part chunk.entry.bytes.now result.lines result.locals
        ≡ lines_of chunk.entry.bytes.now (get_or (held_of chunk.entry.functions.now) f nowhere).tail }
{
    let s = chunk.bytes;
    let place = place_in(chunk.functions, f);
    let start = place.start as usize;
    let head = head_at(chunk, f);
    let count_at = constants_of(s, start);
    let first = place_after(s, count_at, INT_SIZE);
    let constants = int_at(s, count_at) as usize;
    let lines = place_after(s, place.tail as usize, INT_SIZE);
    let locals = place_after(s, lines, INT_SIZE * (head.lines as usize));
    Loaded {
        head,
        first,
        constants,
        lines,
        locals,
        words: fill_words(s, start, inverse, words),
        kinds: fill_kinds(s, first, constants, kinds),
        nested: fill_nested(chunk, f, nested, nups),
    }
}
