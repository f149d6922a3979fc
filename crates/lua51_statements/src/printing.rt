// The S lines of a word: its statements, and the assignment on its Then edge. Each begins with the word's index and its opcode, a number
// for the reason that stands at `op`.
//
// The output and the buffer stay two parameters, since a run is read from the buffer while the output takes its line. The index and the
// opcode do too: a struct of both would be made anew at each word, and taken apart for its line. Contracts speak of every function with
// these words, for the reason that stands at `statement`.
ghost use Rattle.std.specs.Prelude.{ℕ, ◌≡◌, length};
ghost use mathlib.Core.List.{List, ◌∷◌, flat_map};
ghost use Rattle.lines.specs.Line.{line, letter_s};
ghost use Rattle.lines.specs.Out.{Puts};
ghost use Rattle.basics.specs.Range.{over, only};
ghost use Rattle.lua51_instruction.specs.Proto.{Proto};
ghost use Rattle.lua51_instruction.specs.Proto as proto;
ghost use Rattle.lua51_function.specs.Function.{Shows};
ghost use Rattle.ast.specs.Statement.{nil, register, set_register};
ghost use Rattle.lua51_lifter.specs.Blocks.{naming, brought};
ghost use Rattle.lua51_lifter.specs.Listing.{statement_line};
ghost use Rattle.lua51_statements.specs.Lines.{own_statements, line_within};

use crate::statement::{statement, statement_count};
use ast::{ASSIGN, NIL, REGISTER, Run};
use basics::slices::at_or;
use lines::{LETTER_S, MOST_IN_COLUMNS, Output};
use lua51_function::function::View;
use lua51_instruction::instruction::{a_of, b_of, opcode_of};
use lua51_instruction::op;
use lua51_runs::registers::set_register;

// 'R(r) gets nil' is a run of 6 numbers. Its line has 58 bytes: a letter, 8 times 7 columns, a line feed.
const NIL_NUMBERS: usize = 6;

const NIL_LINE: usize = 58;

// Prints a statement, which names word i.
fn put_statement(out: &mut Output, i: usize, opcode: u8, run: &[u32])
    ensures { Puts out.old out.new (line letter_s (i ∷ opcode ∷ run.now)) }
{
    out.put_byte(LETTER_S);
    out.put_number(i);
    out.put_number(opcode);
    out.put_numbers(run);
    out.put_end();
}

// Prints 'R(r) gets nil', which names word i, for each of `count` registers from `first` on.
pub fn put_nils(out: &mut Output, i: usize, opcode: u8, first: u8, count: u16)
    ensures { Puts out.old out.new (flat_map statement_line (naming i opcode (over (λ x. only (set_register x nil)) first count))) }
{
    if out.has_ended() && i <= MOST_IN_COLUMNS {
        out.skip(NIL_LINE * usize::from(count));
        return;
    }
    let first = u32::from(first);
    for r in first..first + u32::from(count) {
        put_statement(out, i, opcode, &[ASSIGN, 1, 1, REGISTER, r, NIL]);
    }
}

// Prints the statements of word i of a function, which is no capture, each as an S line. Each is written into the buffer `run` first, and
// what that holds afterwards is of no use; but the nils of LOADNIL, which may be many, are printed straight, if the buffer could hold one.
pub fn put_statements(out: &mut Output, run: &mut [u32], function: &View, i: usize)
    ensures { (p : Proto) (ks : List ℕ) → Shows p ks function.now
        → Puts out.old out.new (flat_map (line_within (length run.old)) (naming i (proto.opcode p i) (own_statements p i))) }
{
    let word = at_or(function.words, i, 0);
    let opcode = opcode_of(word);
    let count = statement_count(word);
    if opcode == op::LOADNIL && NIL_NUMBERS <= run.len() {
        put_nils(out, i, opcode, a_of(word), count);
        return;
    }
    for k in 0..count {
        let mut written = Run::new(run);
        statement(&mut written, function, i, k);
        put_statement(out, i, opcode, written.as_slice());
    }
}

// Prints 'R(r) gets R(x)', which names word i.
fn put_move(out: &mut Output, run: &mut [u32], i: usize, opcode: u8, r: u32, x: u32)
    ensures { Puts out.old out.new (flat_map (line_within (length run.old)) (naming i opcode (only (set_register r (register x))))) }
{
    let mut written = Run::new(run);
    set_register(&mut written, r, &[REGISTER, x]);
    put_statement(out, i, opcode, written.as_slice());
}

// Prints the assignment that word i has on its Then edge, as an S line; a word that has none prints nothing. What the buffer `run`
// holds afterwards is of no use.
pub fn put_on_then(out: &mut Output, run: &mut [u32], words: &[u32], i: usize)
    ensures { (p : Proto) → p.words ≡ words.now
        → Puts out.old out.new (flat_map (line_within (length run.old)) (brought naming p i)) }
{
    let word = at_or(words, i, 0);
    let a = u32::from(a_of(word));
    let opcode = opcode_of(word);
    match opcode {
        op::TESTSET => put_move(out, run, i, opcode, a, u32::from(b_of(word))),
        op::FORLOOP => put_move(out, run, i, opcode, a + 3, a),
        op::TFORLOOP => put_move(out, run, i, opcode, a + 2, a + 3),
        _ => {}
    }
}
