// Loading a house table, opening a chunk, and delivering the listings of its functions one after the other.
#![tactic(auto)]

pub mod deliver; // the listing of the next function
pub mod load; // a house table

ghost use Rattle.std.specs.Prelude.{◌≡◌, List, ℕ};
ghost use Rattle.reading.specs.Reading.{closed, opening};
ghost use Rattle.reading.specs.Opening.{reading_of, outcome_by, outcome_of};

use house_table::{OPCODES, lua};
use judging::judge;
use judging::refusal::Refusal;

// The listing program's output buffer (document 01, 'Its output buffer is 65,536 bytes').
pub const PROGRAM_BUFFER: usize = 65536;

// A reading of a chunk: whether it is open, the function whose listing comes next, and the house table. It goes into each call and comes
// back (document 01, 'The reading is a value that goes in and comes back'), so that a call gives more than an answer (`Called`). The next
// function is no part of being open: a closed reading has one too, which its refusal 31 tells, and which a caller in C may have put there.
#[derive(Clone, Copy)]
pub struct Reading {
    pub opened: bool,
    pub next: u32,
    pub table: [u8; OPCODES],
}

impl Reading {
    // A closed reading at function 0 with Lua's own table, as every reading begins.
    pub fn new() -> Self
        ensures { reading_of result ≡ closed }
    {
        Self {
            opened: false,
            next: 0,
            table: lua(),
        }
    }

    // An opening, which alters the reading and gives the chunk's count of functions.
    fn open(&mut self, s: &[u8]) -> Result<usize, Refusal>
        ensures { (out : List ℕ) → outcome_by result self.new out ≡ opening (reading_of self.old) s.now out }
    {
        self.opened = false;
        self.next = 0;
        let count = judge(s, self.table)?;
        self.opened = true;
        Ok(count)
    }
}

// What a call gives, and the reading that it leaves. Each of the three calls makes it of its own step: one helper would take that as a
// closure.
#[derive(Clone, Copy)]
pub struct Called {
    pub answer: Result<usize, Refusal>,
    pub reading: Reading,
}

// Judges a whole chunk under the reading's table, opens the reading at function 0, and gives the chunk's count of functions. Where the
// chunk is refused the reading is closed, at function 0. The table stays.
pub fn open(reading: Reading, s: &[u8]) -> Called
    ensures { (out : List ℕ) → outcome_of result out ≡ opening (reading_of reading) s.now out }
{
    let mut left = reading;
    let answer = left.open(s);
    Called {
        answer,
        reading: left,
    }
}
