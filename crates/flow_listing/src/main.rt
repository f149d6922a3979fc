// The listing program (document 01, 'Printed lines'): it 'reads a chunk from standard input and prints all listings, or one line X:
// number, function, place'.
#![tactic(auto)]

mod run; // the pieces of the output

use crate::run::put_piece;
use house_table::lua;
use input::read_full;
use judging::walk_and_judge;
use lua51_deserializer::chunk::{Chunk, Functions};
use lua51_lister::RUN_NUMBERS;
use reading::PROGRAM_BUFFER;
use std::io::Write;

// One byte more than a chunk may have: the program sees that an input is too long. Its buffers are arrays, as nothing takes memory from the
// heap.
const MOST_INPUT: usize = 65537;

// Reads an input s, judges it, and writes the pieces of its output (`pieces s` in crates/reading/specs/Program.antt) in order: turn k
// writes the first bytes of `out`, which by the contract of `put_piece` are piece k, and k counts up from 0. The run ends with the
// piece behind which none is left.
//
// What no definition decides, as no contract says what the system does at a call:
// - What is read. `read_full` stops where the buffer is full, where the input ends and where a read fails, and does not tell the
//   last two apart. Whatever bytes s it has put into the buffer, what follows is the output for s. An input of more than 65,537 bytes
//   is not read on: its first 65,537 are refused for 1, as all of it is.
// - What is written. `write_all` writes all of a piece, or answers an error where a write fails or takes nothing, when some of the
//   piece may have been written. The run ends there: no piece is written behind one that was not written whole.
fn main(rt: HostRuntime) {
    let mut buf = [0u8; MOST_INPUT];
    let n = read_full(&mut rt.stdin(), &mut buf);
    let s = &buf[..n];
    let mut functions = Functions::new();
    let judged = walk_and_judge(s, lua(), &mut functions);
    let chunk = Chunk {
        bytes: s,
        functions: &functions,
    };
    let mut out = [0u8; PROGRAM_BUFFER];
    let mut run = [0u32; RUN_NUMBERS];
    for k in 0.. {
        let piece = put_piece(&mut out, chunk, judged, k, &mut run);
        let m = piece.length;
        if rt.stdout().write_all(&out[..m]).is_err() {
            return;
        }
        if piece.last {
            return;
        }
    }
}
