// The pieces of the listing program's output: the listings of a chunk's functions, or one line X (document 01, 'Printed lines').
// Buffers are lent as slices that are long enough: an array's type would ask for just that length.
ghost use Rattle.std.specs.Prelude.{◌≤◌, cond, true, [], ◌≡◌, ltb, length, take, get_or};
ghost use Rattle.input.specs.Prefix.{IsPrefixLen};
ghost use Rattle.judging.specs.Judge.{listing_of};
ghost use Rattle.judging.specs.Refusal.{refusal_of, refusal_line};
ghost use Rattle.block_lines.specs.Lines.{run_numbers};
ghost use Rattle.reading.specs.Program.{buffer, by_lua, pieces};
ghost use Rattle.flow_listing.specs.Run.{Listable, line_of, Reached, After};

use house_table::lua;
use judging::refusal::{Numbers, Refusal, put_refusal};
use listing::function::put_function;
use lua51_deserializer::chunk::Chunk;
use reading::PROGRAM_BUFFER;

// A piece that stands at the output's start: its length, and whether the run ends with it. Both are asked of every piece, the one to write
// it and the other behind that: in an enum each of two variants would hold the length, and whoever writes would take it out of both.
#[derive(Clone, Copy)]
pub struct Piece {
    pub length: usize,
    pub last: bool,
}

// Prints the X line of a refusal, and gives its length.
fn put_line(out: &mut [u8], refusal: Refusal) -> usize
    requires { buffer ≤ length out.old }
    ensures out_after { take result out.new ≡ line_of (refusal_of refusal) }
    ensures prefix_len { IsPrefixLen result out.new }
{
    put_refusal(out, 0, Numbers::from(refusal))
}

// Prints the listing of function f, or the X line for 33 where it does not fit the buffer.
fn put_next(out: &mut [u8], chunk: Chunk, f: u32, run: &mut [u32]) -> Piece
    requires listable { Listable chunk.bytes.now chunk.functions.now f }
    requires buffer_in_bounds { buffer ≤ length out.old }
    requires run_numbers_in_bounds { run_numbers ≤ length run.old }
    ensures out_after { take result.length out.new ≡ cond (ltb buffer (length (listing_of by_lua chunk.entry.bytes.now f))) (refusal_line 33 f 0) (listing_of by_lua chunk.entry.bytes.now f) }
    ensures prefix_len { IsPrefixLen result.length out.new }
    ensures last_value { result.last ≡ ltb buffer (length (listing_of by_lua chunk.entry.bytes.now f)) }
{
    let length = put_function(out, chunk, f, lua(), false, run);
    if PROGRAM_BUFFER < length {
        return Piece {
            length: put_line(out, Refusal::OutputShort(f)),
            last: true,
        };
    }
    Piece {
        length,
        last: false,
    }
}

// Prints piece k of the output for an input that was judged; where there is none, its length is 0 and the run ends. The buffer `run`
// is lent for its statements.
pub fn put_piece(
    out: &mut [u8],
    chunk: Chunk,
    judged: Result<usize, Refusal>,
    k: usize,
    run: &mut [u32],
) -> Piece
    requires reached { Reached chunk.bytes.now judged chunk.functions.now k }
    requires buffer_in_bounds { buffer ≤ length out.old }
    requires run_numbers_in_bounds { run_numbers ≤ length run.old }
    ensures out_after { take result.length out.new ≡ get_or (pieces chunk.entry.bytes.now) k [] }
    ensures prefix_len { IsPrefixLen result.length out.new }
    ensures after { After chunk.entry.bytes.now judged chunk.entry.functions.now k result.last }
{
    match judged {
        Err(refusal) => Piece {
            length: put_line(out, refusal),
            last: true,
        },
        Ok(count) => {
            if count <= k {
                return Piece {
                    length: 0,
                    last: true,
                };
            }
            // below the count, as every number of a function: `try_from` would ask for an answer that is never given
            put_next(out, chunk, k as u32, run)
        }
    }
}
