// Delivering the listing of a reading's next function.
ghost use Rattle.std.specs.Prelude.{◌≡◌, ℕ, min, length};
ghost use Rattle.lines.specs.Out.{largest_usize};
ghost use Rattle.house_table.specs.House.{word_back};
ghost use Rattle.judging.specs.Judge.{given, listing_of};
ghost use Rattle.judging.specs.Answers.{answer_of};
ghost use Rattle.reading.specs.Reading.{delivery};
ghost use Rattle.reading.specs.Delivered.{Printed};
ghost use Rattle.reading.specs.Opening.{reading_of, outcome_by, outcome_of, where_it_fits, Next};

use crate::{Called, Reading};
use house_table::OPCODES;
use judging::refusal::Refusal;
use judging::walk_and_judge;
use listing::function::put_function;
use lua51_deserializer::chunk::{Chunk, Functions};
use lua51_lister::RUN_NUMBERS;

// Writes the listing of function f under a table from the output's start, where the output is long enough, and gives its length in any
// case.
fn write_whole(chunk: Chunk, f: u32, table: [u8; OPCODES], out: &mut [u8]) -> usize
    requires { Next table chunk.bytes.now chunk.functions.now f }
    ensures value { result ≡ min (length (listing_of (word_back table) chunk.entry.bytes.now f)) largest_usize }
    ensures out_after { out.new ≡ where_it_fits (listing_of (word_back table) chunk.entry.bytes.now f) out.old }
{
    let mut run = [0u32; RUN_NUMBERS];
    put_function(out, chunk, f, table, true, &mut run)
}

impl Reading {
    // A delivery, which alters the reading and gives the listing's length.
    fn deliver(&mut self, s: &[u8], out: &mut [u8]) -> Result<usize, Refusal>
        ensures out_after { outcome_by result self.new out.new ≡ delivery (reading_of self.old) s.now out.old }
        ensures followed { (m : ℕ) → answer_of result ≡ given m → Printed (word_back self.old.table) s.now self.old.next m out.new }
    {
        if !self.opened {
            return Err(Refusal::NotOpened(self.next));
        }
        let mut functions = Functions::new();
        let count = walk_and_judge(s, self.table, &mut functions)?;
        // Rust has no `From` of u32 for usize
        if count <= self.next as usize {
            return Err(Refusal::NoFunction(self.next));
        }
        let chunk = Chunk {
            bytes: s,
            functions: &functions,
        };
        let length = write_whole(chunk, self.next, self.table, out);
        if out.len() < length {
            return Err(Refusal::OutputShort(self.next));
        }
        self.next += 1;
        Ok(length)
    }
}

// Judges the chunk afresh under the reading's table, writes the listing of the reading's next function, moves on by one and gives the
// listing's length. A refused delivery leaves the reading and the output as they were.
pub fn deliver(reading: Reading, s: &[u8], out: &mut [u8]) -> Called
    ensures out_after { outcome_of result out.new ≡ delivery (reading_of reading) s.now out.old }
    ensures followed { (m : ℕ) → answer_of result.answer ≡ given m → Printed (word_back reading.table) s.now reading.next m out.new }
{
    let mut left = reading;
    let answer = left.deliver(s, out);
    Called {
        answer,
        reading: left,
    }
}
