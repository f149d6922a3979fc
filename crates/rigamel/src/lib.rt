// The interface for C: loading, opening, delivering and printing on byte slices and numbers. The reading is lent to each call, which
// alters it directly. include/rigamel.h says the same in C's words.
#![tactic(auto)]

mod numbers; // readings and answers in numbers

ghost use Rattle.std.specs.Prelude.{◌≡◌, List, ℕ};
ghost use Rattle.lines.specs.Out.{output, puts};
ghost use Rattle.judging.specs.Refusal.{refusal_line};
ghost use Rattle.reading.specs.Reading.{closed};
ghost use Rattle.rigamel.specs.Numbers.{outcome, reading_numbers, opens, delivers, loads};

use crate::numbers::reading_numbers;
use house_table::{OPCODES, lua};
use judging::refusal::{Numbers, put_refusal};
use reading::deliver::deliver;
use reading::load::load;
use reading::open;

// The number that an opening puts for open.
const OPEN: u32 = 1;

// A reading, which the caller keeps: whether it is open (0 closed, any other number open), the function whose listing comes next, and the
// house table, of whatever numbers. A caller in C may put any number anywhere, so that nothing here is a bool or an enum.
#[repr(C)]
#[derive(Clone, Copy)]
pub struct Reading {
    pub opened: u32,
    pub next: u32,
    pub table: [u8; OPCODES],
}

// An answer. Number 0 is no refusal: then `length` is the count of functions, or of a delivery the listing's length. Any other
// number is a refusal's, with its function and place. What does not apply is 0. C has no Result: include/rigamel.h has these four numbers.
#[repr(C)]
#[derive(Clone, Copy)]
pub struct Answer {
    pub number: u64,
    pub function: u64,
    pub place: u64,
    pub length: u64,
}

// A closed reading at function 0 with Lua's own table, as every reading begins.
#[unsafe(no_mangle)]
pub extern "C" fn rigamel_closed() -> Reading
    ensures { result ≡ reading_numbers 1 closed }
{
    Reading {
        opened: 0,
        next: 0,
        table: lua(),
    }
}

// Loads a house table into the reading that is lent. A refused load leaves it as it was.
#[unsafe(no_mangle)]
pub extern "C" fn rigamel_load(s: &[u8], reading: &mut Reading) -> Answer
    ensures { (out : List ℕ) → outcome result reading.new out ≡ loads reading.old s.now out }
{
    let loaded = load(reading::Reading::from(*reading), s);
    *reading = reading_numbers(reading.opened, loaded.reading);
    Answer::from(loaded.answer)
}

// Judges a chunk under the table of the reading that is lent, and opens the reading, or closes it where the chunk is refused, in both cases
// at function 0. The table stays.
#[unsafe(no_mangle)]
pub extern "C" fn rigamel_open(s: &[u8], reading: &mut Reading) -> Answer
    ensures { (out : List ℕ) → outcome result reading.new out ≡ opens reading.old s.now out }
{
    let opened = open(reading::Reading::from(*reading), s);
    *reading = reading_numbers(OPEN, opened.reading);
    Answer::from(opened.answer)
}

// Writes the listing of the next function of the reading that is lent, and moves the reading on.
#[unsafe(no_mangle)]
pub extern "C" fn rigamel_deliver(s: &[u8], out: &mut [u8], reading: &mut Reading) -> Answer
    ensures { outcome result reading.new out.new ≡ delivers reading.old s.now out.old }
{
    let delivered = deliver(reading::Reading::from(*reading), s, out);
    *reading = reading_numbers(reading.opened, delivered.reading);
    Answer::from(delivered.answer)
}

// Prints the X line of a refusal from the output's start, as far as the output goes, and gives the length of the whole line. C's numbers
// have 64 bits on every machine, and Rust has no `From` between u64 and usize.
#[unsafe(no_mangle)]
pub extern "C" fn rigamel_print_refusal(
    out: &mut [u8],
    number: u64,
    function: u64,
    place: u64,
) -> u64
    ensures { output out.new result ≡ puts (output out.old 0) (refusal_line number function place) }
{
    let refused = Numbers {
        number: number as usize,
        function: function as usize,
        place: place as usize,
    };
    put_refusal(out, 0, refused) as u64
}
