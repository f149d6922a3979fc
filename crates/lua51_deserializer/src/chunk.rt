// The walk over a whole chunk: where each function starts, where what follows its nested functions starts, and which function it
// is nested in; or refusals 1 to 6. The bytes and the table travel side by side: a struct of both would hold a `&mut`, and each step
// would have to promise that it stays the same. A cast narrows only what a limit bounds: offsets of a chunk that is not too long, and
// numbers of at most 256 functions. Of an offset a type would be made at each step and taken apart again.
ghost use Rattle.std.specs.Prelude.{◌≡◌, ◌<◌, ◌≤◌, ◌++◌, [], get_or, set};
ghost use Rattle.basics.specs.Range.{only};
ghost use Rattle.lua51_deserializer.specs.Chunk.{nowhere, here, walked, most_bytes, most_functions, exactly, signature, header, begin, finish, function, ends, walk};
ghost use Rattle.lua51_deserializer.specs.Cursor.{read_of, Inside};
ghost use Rattle.lua51_deserializer.specs.Walked.{places_of};

use crate::fields::{
    BYTE_SIZE, ChunkFault, MOST, code, constants, count_to, field, head, lines, locals, names,
};
use basics::slices::at_or;
use lua51_value::bytes::int_at;

// The place of one function. The offsets are kept as u32, which hold every offset of a chunk that is not too long.
#[derive(Clone, Copy, PartialEq, Eq, Debug)]
pub struct Place {
    // where it starts
    pub start: u32,
    // where what follows its nested functions starts
    pub tail: u32,
    // the number of the function that it is nested in; 0 for main, as the zeroed table has it: its own number keeps it from being its child
    pub parent: u8,
}

// Where there is no function: zeros, as the table holds where none has begun.
pub const NOWHERE: Place = Place {
    start: 0,
    tail: 0,
    parent: 0,
};

// The functions that have begun, by number. Document 01 names the form, '[0; 256] of function start offsets': full-size zeroed arrays,
// with the count of those that have begun beside them.
#[derive(Clone, Copy)]
pub struct Functions {
    // where each starts: 1,024 bytes
    pub starts: [u32; MOST_FUNCTIONS],
    // where what follows its nested functions starts: 1,024 bytes
    pub tails: [u32; MOST_FUNCTIONS],
    // the number of the function that it is nested in: 256 bytes, as no number is above 255
    pub parents: [u8; MOST_FUNCTIONS],
    // how many have begun
    pub count: usize,
}

// A chunk that was walked, with the table of its functions. Each is lent for its own time: the table may be walked into again while the
// bytes stay lent.
#[derive(Clone, Copy)]
pub struct Chunk<'a, 'b> {
    pub bytes: &'a [u8],
    pub functions: &'b Functions,
}

impl Functions {
    // A table in which none has begun.
    pub fn new() -> Self
        ensures { places_of result ≡ [] }
    {
        Self {
            starts: [0; MOST_FUNCTIONS],
            tails: [0; MOST_FUNCTIONS],
            parents: [0; MOST_FUNCTIONS],
            count: 0,
        }
    }

    // A function that is nested in function `parent` begins at offset `start`.
    fn add(&mut self, start: usize, parent: u8)
        requires { (self.old.count < most_functions) × (start ≤ most_bytes) }
        ensures { places_of self.new ≡ places_of self.old ++ only (record { start = start; tail = 0; parent = parent }) }
    {
        let number = self.count;
        let next = number + 1;
        self.starts[number] = start as u32;
        self.tails[number] = 0;
        self.parents[number] = parent;
        self.count = next;
    }

    // What follows the nested functions of function `me` starts at offset `tail`.
    fn end(&mut self, me: u8, tail: usize)
        requires { tail ≤ most_bytes }
        ensures { let at = get_or (places_of self.old) me nowhere in places_of self.new ≡ set (places_of self.old) me (record { start = at.start; tail = tail; parent = at.parent }) }
    {
        self.tails[usize::from(me)] = tail as u32;
    }
}

// Limits: refusals 1 and 5.
const MOST_BYTES: usize = 65536;

pub const MOST_FUNCTIONS: usize = 256;

const MOST_DEPTH: usize = 32;

// What a chunk begins with.
const HEADER: [u8; 12] = [
    0x1B, 0x4C, 0x75, 0x61, 0x51, 0x00, 0x01, 0x04, 0x04, 0x04, 0x08, 0x00,
];

// A byte that must be `b`.
#[tactic(auto, using(crate::proofs::FieldsInTurn::exactly_in_turn))]
fn exactly(s: &[u8], at: usize, b: u8) -> Result<usize, ChunkFault>
    ensures { read_of result ≡ exactly s.now b at }
{
    let behind = field(s, at, BYTE_SIZE)?;
    if at_or(s, at, 0) != b {
        return Err(ChunkFault::HeaderDiffers(at));
    }
    Ok(behind)
}

// The header, from offset 0 on.
fn signature(s: &[u8]) -> Result<usize, ChunkFault>
    ensures { read_of result ≡ signature s.now header 0 }
{
    HEADER.iter().try_fold(0, |at, b| exactly(s, at, *b))
}

// A function that is nested in function `parent` begins at offset `at`: it is placed, and all up to its nested functions is
// read.
#[tactic(auto, unfolding(crate::specs::Chunk::begin))]
fn begin(s: &[u8], at: usize, parent: u8, functions: &mut Functions) -> Result<usize, ChunkFault>
    requires { (functions.old.count < most_functions) × (at ≤ most_bytes) }
    ensures { walked (read_of result) (places_of functions.new) ≡ begin s.now parent (places_of functions.old) at }
{
    functions.add(at, parent);
    let words = head(s, at)?;
    let values = code(s, words)?;
    constants(s, values)
}

// Function `me` ends with what stands at offset `at`: the rest of it is read.
#[tactic(auto, unfolding(crate::specs::Chunk::finish))]
fn finish(s: &[u8], at: usize, me: u8, functions: &mut Functions) -> Result<usize, ChunkFault>
    requires { at ≤ most_bytes }
    ensures { walked (read_of result) (places_of functions.new) ≡ finish s.now me (places_of functions.old) at }
{
    functions.end(me, at);
    let variables = lines(s, at)?;
    let upvalues = locals(s, variables)?;
    names(s, upvalues)
}

// A function with its nested functions, with `depth` levels left.
fn function(
    s: &[u8],
    at: usize,
    depth: usize,
    parent: u8,
    functions: &mut Functions,
) -> Result<usize, ChunkFault>
    requires { Inside s.now (here at) }
    ensures { walked (read_of result) (places_of functions.new) ≡ function s.now depth parent (places_of functions.old) at }
{
    if depth == 0 || MOST_FUNCTIONS <= functions.count {
        return Err(ChunkFault::TooManyFunctions(at));
    }
    let me = functions.count as u8;
    let count_at = begin(s, at, parent, functions)?;
    let mut reached = count_to(s, count_at, MOST)?;
    let count = int_at(s, count_at);
    // A `try_fold` is no plainer: its closure would change the table that it holds, and so has to repeat this function's contract.
    for i in 0..count {
        reached = function(s, reached, depth - 1, me, functions)?;
    }
    finish(s, reached, me, functions)
}

// Nothing may be behind main.
#[tactic(auto, unfolding(crate::specs::Chunk::ends))]
fn ends(s: &[u8], at: usize) -> Result<usize, ChunkFault>
    ensures { read_of result ≡ ends s.now at }
{
    if at < s.len() {
        return Err(ChunkFault::LeftOver(at));
    }
    Ok(at)
}

// The whole chunk: the header, main with all that is nested in it, and nothing behind it. What the table held before is forgotten.
pub fn walk(s: &[u8], functions: &mut Functions) -> Result<usize, ChunkFault>
    ensures { walked (read_of result) (places_of functions.new) ≡ walk s.now }
{
    functions.count = 0;
    if MOST_BYTES < s.len() {
        return Err(ChunkFault::TooLong);
    }
    let main = signature(s)?;
    let behind = function(s, main, MOST_DEPTH, 0, functions)?;
    ends(s, behind)
}
