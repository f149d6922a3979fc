// Judging a chunk: its bytes, then its functions.
#![tactic(auto)]

pub mod refusal; // refusals, their numbers and their line

ghost use Rattle.std.specs.Prelude.{◌≡◌, ℕ, ◌+◌, ◌^◌, ◌<◌};
ghost use Rattle.lua51_instruction.specs.Proto.{reworded};
ghost use Rattle.house_table.specs.House.{word_back, word_by};
ghost use Rattle.lua51_deserializer.specs.Chunk.{walk, proto_at};
ghost use Rattle.lua51_deserializer.specs.Walked.{places_of};
ghost use Rattle.lua51_lifter.specs.Check.{check};
ghost use Rattle.lua51_lifter.specs.Verdict.{verdict_of};
ghost use Rattle.judging.specs.Judge.{judge};
ghost use Rattle.judging.specs.Answers.{answer_of, Whole, Fits};

use crate::refusal::Refusal;
use house_table::{OPCODES, inverse_of};
use lua51_checker::check::check;
use lua51_deserializer::chunk::{Chunk, Functions, walk};
use lua51_function::function::{MOST_CONSTANTS, MOST_MARKS, MOST_NESTED, MOST_WORDS, function_at};
use lua51_lifter::verdict::FunctionFault;
use lua51_operands::subject::Subject;

// Room for a function: for its words, the kinds of its constants, the functions that are nested in it with their counts of upvalues, and
// two marks of each word and behind the last. Arrays of full size, as nothing takes memory from the heap; MARKS is WORDS + 1, and a const
// argument is not computed.
#[derive(Drop)]
struct Room<const WORDS: usize, const CONSTANTS: usize, const MARKS: usize> {
    words: [u32; WORDS],
    kinds: [u8; CONSTANTS],
    nested: [u32; MOST_NESTED],
    nups: [u8; MOST_NESTED],
    leaders: [u8; MARKS],
    targets: [u8; MARKS],
}

// Checks function f of a chunk that was read whole, which no invariant of `Chunk` says, as a function is loaded from any. Its lists, the
// words put back by the inverse of a table, and the marks of its words are put into the room.
fn check_function<const WORDS: usize, const CONSTANTS: usize, const MARKS: usize>(
    chunk: Chunk,
    f: u32,
    inverse: &[u8],
    room: &mut Room<WORDS, CONSTANTS, MARKS>,
) -> Result<(), FunctionFault>
    requires small { WORDS + CONSTANTS + MARKS < 2 ^ 32 }
    requires whole { Whole chunk.bytes.now chunk.functions.now }
    requires f_lt_count { f < chunk.functions.now.count }
    requires fits { Fits (proto_at chunk.bytes.now (walk chunk.bytes.now).places f) WORDS CONSTANTS MARKS }
    ensures { verdict_of result
        ≡ check (reworded (word_by inverse.now) (proto_at chunk.entry.bytes.now (walk chunk.entry.bytes.now).places f)) }
{
    let loaded = function_at(
        chunk,
        f,
        inverse,
        &mut room.words,
        &mut room.kinds,
        &mut room.nested,
        &mut room.nups,
    );
    let subject = Subject {
        head: loaded.head,
        words: &room.words[..loaded.words],
        kinds: &room.kinds[..loaded.kinds],
        nested: &room.nested[..loaded.nested],
        nups: &room.nups[..loaded.nested],
        lines: &chunk.bytes[loaded.lines..loaded.locals],
    };
    let marks = loaded.words + 1;
    check(
        &subject,
        &mut room.leaders[..marks],
        &mut room.targets[..marks],
    )
}

// Judges the functions of a chunk in number order, each wholly before the next, in room for so many words, constants and marks.
fn judge_with<const WORDS: usize, const CONSTANTS: usize, const MARKS: usize>(
    chunk: Chunk,
    inverse: &[u8],
) -> Result<usize, Refusal>
    requires small { WORDS + CONSTANTS + MARKS < 2 ^ 32 }
    requires whole { Whole chunk.bytes.now chunk.functions.now }
    requires by_index { (f : ℕ) → f < chunk.functions.now.count
        → Fits (proto_at chunk.bytes.now (walk chunk.bytes.now).places f) WORDS CONSTANTS MARKS }
    ensures { answer_of result ≡ judge (word_by inverse.now) chunk.entry.bytes.now }
{
    let mut room = Room {
        words: [0u32; WORDS],
        kinds: [0u8; CONSTANTS],
        nested: [0u32; MOST_NESTED],
        nups: [0u8; MOST_NESTED],
        leaders: [0u8; MARKS],
        targets: [0u8; MARKS],
    };
    let count = chunk.functions.count;
    // no plainer: `try_from` of a usize for a u32 has an error that cannot come, as a chunk has at most 256 functions
    for f in 0..count as u32 {
        check_function(chunk, f, inverse, &mut room).map_err(|fault| Refusal::Function(f, fault))?;
    }
    Ok(count)
}

// A short chunk: it has at most so many bytes, and so constants, and a word for every four of them.
const SHORT_CHUNK: usize = 8192;

const SHORT_WORDS: usize = SHORT_CHUNK / 4;

const SHORT_MARKS: usize = SHORT_WORDS + 1;

// Judges the functions of a chunk. Room is made by the chunk's length, so that a short one costs little.
fn judge_functions(chunk: Chunk, inverse: &[u8]) -> Result<usize, Refusal>
    requires { Whole chunk.bytes.now chunk.functions.now }
    ensures { answer_of result ≡ judge (word_by inverse.now) chunk.entry.bytes.now }
{
    if chunk.bytes.len() <= SHORT_CHUNK {
        return judge_with::<SHORT_WORDS, SHORT_CHUNK, SHORT_MARKS>(chunk, inverse);
    }
    judge_with::<MOST_WORDS, MOST_CONSTANTS, MOST_MARKS>(chunk, inverse)
}

// Judges a whole chunk under a house table: its count of functions, or the first refusal of its bytes, then of its functions, whose words
// are put back. What the walk over it finds of its functions is put into the table that is lent.
pub fn walk_and_judge(
    s: &[u8],
    table: [u8; OPCODES],
    functions: &mut Functions,
) -> Result<usize, Refusal>
    ensures answer { answer_of result ≡ judge (word_back table) s.now }
    ensures places { places_of functions.new ≡ (walk s.now).places }
{
    let _end = walk(s, functions)?;
    let chunk = Chunk {
        bytes: s,
        functions,
    };
    judge_functions(chunk, &inverse_of(table))
}

// The judgement alone.
pub fn judge(s: &[u8], table: [u8; OPCODES]) -> Result<usize, Refusal>
    ensures { answer_of result ≡ judge (word_back table) s.now }
{
    let mut functions = Functions::new();
    walk_and_judge(s, table, &mut functions)
}
