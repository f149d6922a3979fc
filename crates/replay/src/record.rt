// What the kinds of records share: numbers of four bytes, parts behind their length, and a chunk.
ghost use Rattle.std.specs.Prelude.{◌<◌, ◌^◌, IfOk, IfSome};
ghost use Rattle.input.specs.Prefix.{IsPrefixLen};

use input::read_full;
use lua51_value::bytes::int_at;
use std::io::Read;

// A record is not whole: the file ends inside it, or one of its parts is longer than is taken.
#[derive(Clone, Copy)]
pub struct NotWhole;

// What comes of one record: whether it agrees, or none where the file ends before it.
pub type Outcome = Result<Option<bool>, NotWhole>;

// A chunk has at most one byte more than is taken.
pub const MOST_LENGTH: usize = 65537;

const NUMBER_SIZE: usize = 4;

// The number at offset `at`. Rust has no `From` of u32 for usize.
pub fn number_at(s: &[u8], at: usize) -> usize
    ensures { result < 2 ^ 32 }
{
    int_at(s, at) as usize
}

// The number that begins a record, if there is one.
fn first_number(file: &mut impl Read) -> Result<Option<usize>, NotWhole> {
    let mut number = [0u8; NUMBER_SIZE];
    match read_full(file, &mut number) {
        0 => Ok(None),
        NUMBER_SIZE => Ok(Some(number_at(&number, 0))),
        _ => Err(NotWhole),
    }
}

// The number that stands next in a record.
pub fn next_number(file: &mut impl Read) -> Result<usize, NotWhole> {
    first_number(file)?.ok_or(NotWhole)
}

// Reads the next `size` bytes of a record into `buf`, and gives how many they are.
pub fn read_bytes(file: &mut impl Read, buf: &mut [u8], size: usize) -> Result<usize, NotWhole>
    ensures { IfOk result (λ n. IsPrefixLen n buf.new) }
{
    if buf.len() < size {
        return Err(NotWhole);
    }
    let n = read_full(file, &mut buf[..size]);
    if n < size {
        return Err(NotWhole);
    }
    Ok(n)
}

// Reads the next part of a record, a length and that many bytes, into `buf`, and gives how many they are.
pub fn read_part(file: &mut impl Read, buf: &mut [u8]) -> Result<usize, NotWhole>
    ensures { IfOk result (λ n. IsPrefixLen n buf.new) }
{
    let size = next_number(file)?;
    read_bytes(file, buf, size)
}

// Reads the part that begins a record, if there is one.
pub fn read_first(file: &mut impl Read, buf: &mut [u8]) -> Result<Option<usize>, NotWhole>
    ensures { IfOk result (λ first. IfSome first (λ n. IsPrefixLen n buf.new)) }
{
    let Some(size) = first_number(file)? else {
        return Ok(None);
    };
    let n = read_bytes(file, buf, size)?;
    Ok(Some(n))
}
