// Loading a house table of opcode numbers (document 02, 3): what its bytes say, and refusals 34 and 35.
#![tactic(auto)]

ghost use Rattle.std.specs.Prelude.{◌<◌, ◌≡◌, IfOk, length};
ghost use Rattle.house_table.specs.House.{opcode_count};
ghost use Rattle.lua51_lifter.specs.Check.{first_refusal};
ghost use Rattle.house_loading.specs.Loading.{table_line, number_said, form_verdict, number_verdict, load_verdict};
ghost use Rattle.house_loading.specs.TableVerdict.{table_verdict_of, in_byte, table_bytes};

use house_table::OPCODES;
use lines::numeral::{LINE_LENGTH, number_at};

// What is wrong with the bytes of a table, with the position of its line.
#[derive(Clone, Copy, PartialEq, Eq, Debug)]
pub enum TableFault {
    // 34: they have another form, or another length.
    Form(usize),
    // 35: a number is above 37, or stands in an earlier line.
    Number(usize),
}

// How many bytes a table has.
const TABLE_LENGTH: usize = LINE_LENGTH * OPCODES;

// The highest number of an opcode. A constant cannot call `try_from`.
const HIGHEST_OPCODE: u8 = OPCODES as u8 - 1;

// ------------------------------------------------------------ 34: the form of the lines

// The verdict on the form of line i.
fn line_verdict(s: &[u8], i: usize) -> Result<(), TableFault>
    requires { i < opcode_count }
    ensures { table_verdict_of result ≡ form_verdict s.now i }
{
    if number_at(s, LINE_LENGTH * i).is_none() {
        return Err(TableFault::Form(i));
    }
    Ok(())
}

// The verdict on the form of 38 lines: the first that says no number.
fn lines_verdict(s: &[u8]) -> Result<(), TableFault>
    ensures { table_verdict_of result ≡ first_refusal (form_verdict s.now) 0 opcode_count }
{
    (0..OPCODES).try_for_each(|i| line_verdict(s, i))
}

// ------------------------------------------------------------ 35: the numbers

// The number that line i says, in a byte; 0 where it says none. One above 37, which is refused, is 38 there, and no Option, since the
// numbers of a table are bytes. What is cast is 38 at most: `try_from` would have a case that cannot come.
fn number_byte(s: &[u8], i: usize) -> u8
    requires { i < opcode_count }
    ensures { result ≡ in_byte (number_said (table_line s.now i)) }
{
    number_at(s, LINE_LENGTH * i)
        .unwrap_or(0)
        .min(OPCODES as u32) as u8
}

// The numbers of a table, of all 38 lines; of a table that is not refused they are the numbers that its lines say.
pub fn table_numbers(s: &[u8]) -> [u8; OPCODES]
    ensures { result ≡ table_bytes s.now }
{
    let mut numbers = [0; OPCODES];
    for (i, number) in numbers.iter_mut().enumerate() {
        *number = number_byte(s, i);
    }
    numbers
}

// The verdict on number i of a table: whether it is above 37 or stands in an earlier line.
fn number_verdict(numbers: &[u8], i: usize) -> Result<(), TableFault>
    requires numbers_len { length numbers.now ≡ opcode_count }
    requires i_in_bounds { i < opcode_count }
    ensures { table_verdict_of result ≡ number_verdict numbers.now i }
{
    let number = numbers[i];
    if HIGHEST_OPCODE < number || numbers[..i].contains(&number) {
        return Err(TableFault::Number(i));
    }
    Ok(())
}

// The verdict on the numbers of a table: the first that is above 37 or stands in an earlier line.
fn numbers_verdict(numbers: &[u8]) -> Result<(), TableFault>
    requires { length numbers.now ≡ opcode_count }
    ensures { table_verdict_of result ≡ first_refusal (number_verdict numbers.now) 0 opcode_count }
{
    (0..OPCODES).try_for_each(|i| number_verdict(numbers, i))
}

// ------------------------------------------------------------ both

// The numbers of a table, or its first fault: of its length, then of the form of all lines, then of their numbers.
pub fn table_of(s: &[u8]) -> Result<[u8; OPCODES], TableFault>
    ensures verdict { table_verdict_of result ≡ load_verdict s.now }
    ensures numbers { IfOk result (λ numbers. numbers ≡ table_bytes s.now) }
{
    if s.len() != TABLE_LENGTH {
        return Err(TableFault::Form(0));
    }
    lines_verdict(s)?;
    let numbers = table_numbers(s);
    numbers_verdict(&numbers)?;
    Ok(numbers)
}
