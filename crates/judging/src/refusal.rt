// Refusals (document 01, 'Refusals from the input' and 'Refusals from the state'; document 02, 2 and 3), their numbers, and the line that
// prints these.
ghost use Rattle.std.specs.Prelude.{◌≡◌};
ghost use Rattle.lines.specs.Out.{output, puts};
ghost use Rattle.lua51_deserializer.specs.Cursor.{chunk_fault_number, chunk_fault_place};
ghost use Rattle.lua51_lifter.specs.Verdict.{function_fault_number, function_fault_place};
ghost use Rattle.house_loading.specs.TableVerdict.{table_fault_number, table_fault_place};
ghost use Rattle.judging.specs.Judge.{refusal};
ghost use Rattle.judging.specs.Refusal.{refusal_of, refusal_by, refusal_line};
ghost use Rattle.judging.specs.declared.refusal.Refusal.TheVariants.{Chunk, Table};

use house_loading::TableFault;
use lines::{LETTER_X, Output};
use lua51_deserializer::fields::ChunkFault;
use lua51_lifter::verdict::FunctionFault;

// Why a call is refused.
#[derive(Clone, Copy, PartialEq, Eq, Debug)]
pub enum Refusal {
    // From the input.
    // 1 to 6: what is wrong with the chunk's bytes.
    Chunk(ChunkFault),
    // 7 to 15: a function, by its number, and what is wrong with it.
    Function(u32, FunctionFault),
    // From the state, 31 to 33 with the reading's next function.
    // 31: the reading is not opened.
    NotOpened(u32),
    // 32: the next function is not below the chunk's count.
    NoFunction(u32),
    // 33: the output is shorter than the listing.
    OutputShort(u32),
    // 34 and 35: what is wrong with the bytes of a house table.
    Table(TableFault),
}

impl From<ChunkFault> for Refusal {
    ghost from_gives = { λ fault refusal. refusal ≡ Chunk fault };

    fn from(fault: ChunkFault) -> Refusal {
        Refusal::Chunk(fault)
    }
}

impl From<TableFault> for Refusal {
    ghost from_gives = { λ fault refusal. refusal ≡ Table fault };

    fn from(fault: TableFault) -> Refusal {
        Refusal::Table(fault)
    }
}

// The numbers of a refusal, of which C's answer and the X line are made.
#[derive(Clone, Copy, PartialEq, Eq, Debug)]
pub struct Numbers {
    pub number: usize,
    pub function: usize,
    pub place: usize,
}

fn refused_at(number: usize, function: usize, place: usize) -> Numbers
    ensures { refusal_by result ≡ refusal number function place }
{
    Numbers {
        number,
        function,
        place,
    }
}

// Three matches, no plainer as one: each kind of fault has its numbers here alone, each beside the variant that names it.

// 1 to 6.
fn chunk_numbers(fault: ChunkFault) -> Numbers
    ensures { refusal_by result ≡ refusal (chunk_fault_number fault) 0 (chunk_fault_place fault) }
{
    match fault {
        ChunkFault::TooLong => refused_at(1, 0, 0),
        ChunkFault::HeaderDiffers(place) => refused_at(2, 0, place),
        ChunkFault::Ended(place) => refused_at(3, 0, place),
        ChunkFault::OutOfRange(place) => refused_at(4, 0, place),
        ChunkFault::TooManyFunctions(place) => refused_at(5, 0, place),
        ChunkFault::LeftOver(place) => refused_at(6, 0, place),
    }
}

// 7 to 15, of function f.
fn function_numbers(f: usize, fault: FunctionFault) -> Numbers
    ensures { refusal_by result ≡ refusal (function_fault_number fault) f (function_fault_place fault) }
{
    match fault {
        FunctionFault::Head => refused_at(7, f, 0),
        FunctionFault::Last(place) => refused_at(8, f, place),
        FunctionFault::Operand(place) => refused_at(9, f, place),
        FunctionFault::Target(place) => refused_at(10, f, place),
        FunctionFault::Jump(place) => refused_at(11, f, place),
        FunctionFault::Results(place) => refused_at(12, f, place),
        FunctionFault::Captures(place) => refused_at(13, f, place),
        FunctionFault::Shared(place) => refused_at(14, f, place),
        FunctionFault::Line(place) => refused_at(15, f, place),
    }
}

// 34 and 35.
fn table_numbers(fault: TableFault) -> Numbers
    ensures { refusal_by result ≡ refusal (table_fault_number fault) 0 (table_fault_place fault) }
{
    match fault {
        TableFault::Form(place) => refused_at(34, 0, place),
        TableFault::Number(place) => refused_at(35, 0, place),
    }
}

// The numbers of a refusal.
impl From<Refusal> for Numbers {
    ghost from_gives = { λ refused numbers. refusal_by numbers ≡ refusal_of refused };

    fn from(refused: Refusal) -> Numbers {
        // No plainer: Rust has no `From` of a u32 for a usize, and `try_from` has an error that cannot come
        match refused {
            Refusal::Chunk(fault) => chunk_numbers(fault),
            Refusal::Function(f, fault) => function_numbers(f as usize, fault),
            Refusal::NotOpened(f) => refused_at(31, f as usize, 0),
            Refusal::NoFunction(f) => refused_at(32, f as usize, 0),
            Refusal::OutputShort(f) => refused_at(33, f as usize, 0),
            Refusal::Table(fault) => table_numbers(fault),
        }
    }
}

// Prints the X line of a refusal from a place on, and gives the place behind it. Bytes and a place, and no `Output`: so C lends them.
pub fn put_refusal(out: &mut [u8], at: usize, refused: Numbers) -> usize
    ensures { output out.new result ≡ puts (output out.old at) (refusal_line refused.number refused.function refused.place) }
{
    let mut out = Output { bytes: out, at };
    out.put_line(LETTER_X, &[refused.number, refused.function, refused.place]);
    out.at
}
