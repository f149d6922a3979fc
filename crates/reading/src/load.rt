// Loading a house table of opcode numbers.
ghost use Rattle.std.specs.Prelude.{◌≡◌, List, ℕ};
ghost use Rattle.reading.specs.Loading.{loading};
ghost use Rattle.reading.specs.Opening.{reading_of, load_outcome_by, outcome_of};

use crate::{Called, Reading};
use house_loading::table_of;
use judging::refusal::Refusal;

// A load has nothing to give, where every other call gives a number: `Called` holds the answers of all three, as C's answer does.
const NOTHING: usize = 0;

impl Reading {
    // A load, which alters the reading.
    fn load(&mut self, s: &[u8]) -> Result<(), Refusal>
        ensures { (out : List ℕ) → load_outcome_by result self.new out ≡ loading (reading_of self.old) s.now out }
    {
        let table = table_of(s)?;
        self.table = table;
        Ok(())
    }
}

// Loads the bytes of a table into the reading. A refused load leaves the reading as it was, and no load moves it.
pub fn load(reading: Reading, s: &[u8]) -> Called
    ensures { (out : List ℕ) → outcome_of result out ≡ loading (reading_of reading) s.now out }
{
    let mut left = reading;
    let answer = left.load(s).map(|()| NOTHING);
    Called {
        answer,
        reading: left,
    }
}
