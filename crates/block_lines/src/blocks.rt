// The lines of one block: of a code block, of the entry, of a between block.
// The contracts speak of every function that is drawn so: a ghost field would fix one, which each caller would have to name.
// The buffer for runs is a slice that is long enough: an array's type would ask for just that length.
ghost use Rattle.std.specs.Prelude.{None, cond, ltb, ℕ, ◌≤◌, ◌<◌, true, ◌≡◌, length, get_or};
ghost use mathlib.Core.List.{flat_map};
ghost use Rattle.lines.specs.Line.{line, letter_b};
ghost use Rattle.lines.specs.Out.{Puts, PrintsOn};
ghost use Rattle.lua51_instruction.specs.Proto.{Proto, size};
ghost use Rattle.cfg.specs.Graph.{leader, block_of, then_of};
ghost use Rattle.cfg_notes.specs.Notes.{note_in, one_less};
ghost use Rattle.lua51_lifter.specs.Blocks.{naming, front, code_block, entry_block};
ghost use Rattle.lua51_lifter.specs.Listing.{block_line};
ghost use Rattle.lua51_statements.specs.Lines.{line_within};
ghost use Rattle.block_lines.specs.Lines.{run_numbers, Checked, Draws, between_lines, block_numbers, number_of};

use crate::edges::{put_edge_line, put_exits};
use crate::sources::{NO_LINES, Span, span_of};
use cfg::betweens::then_of;
use cfg::edges::EdgeKind;
use cfg_notes::notes::{Note, between_at, block_at, front_at, range_end};
use lines::{LETTER_B, Output};
use lua51_function::function::{Head, View};
use lua51_lister::put_body;
use lua51_statements::printing::{put_nils, put_on_then};

// The kinds of blocks, by the numbers that a B line has for them.
#[derive(Clone, Copy)]
enum BlockKind {
    Code = 0,
    Entry = 1,
    Between = 2,
}

// The number of a kind, which in Rust `as` alone gives.
impl From<BlockKind> for usize {
    ghost from_gives = { λ kind number. number ≡ number_of kind };

    fn from(kind: BlockKind) -> usize {
        kind as usize
    }
}

// What stands for an opcode where the entry's statements name one: no word gives them. A number, since an S line prints it.
const ENTRY_OPCODE: u8 = 99;

// A function as the printers of its blocks see it: what the printers of its statements see of it, the bytes of its word lines, and the
// notes of its graph. The output and the buffer for statements are passed beside it: a struct of the three would owe in each contract
// that its references, what is drawn and the buffer's length stay.
#[derive(Clone, Copy)]
pub struct Drawn<'a> {
    pub function: View<'a>,
    pub lines: &'a [u8],
    pub notes: &'a [Note],
}

// What a block's B line says of it: its number, its words from `first` to before `past`, its kind, its source lines.
#[derive(Clone, Copy)]
struct Block {
    number: usize,
    first: usize,
    past: usize,
    kind: BlockKind,
    span: Span,
}

// Prints a B line.
fn put_block_line(out: &mut Output, block: Block)
    ensures { Puts out.old out.new (line letter_b (block_numbers block)) }
{
    let numbers = [
        block.number,
        block.first,
        block.past,
        usize::from(block.kind),
        block.span.lowest,
        block.span.highest,
    ];
    out.put_line(LETTER_B, &numbers);
}

// Prints what stands at the front of the block whose range starts at word t.
fn put_front(out: &mut Output, run: &mut [u32], drawn: &Drawn, t: usize)
    ensures result_after { (p : Proto) → Checked p drawn.now → t ≤ size p
        → Puts out.old out.new (flat_map (line_within (length run.old)) (front naming p t)) }
    ensures anyway { PrintsOn out.old out.new }
{
    if let Some(i) = front_at(drawn.notes, t) {
        put_on_then(out, run, drawn.function.words, i);
    }
}

// States that a closure's captures are counted by a byte: of a slice in a struct behind a reference the checker does not know it.
fn few_captures(nups: &[u8])
    ensures { (i : ℕ) → get_or nups.now i 0 ≤ 255 }
{}

// Prints the block of the range that starts at word j.
pub fn put_code_block(out: &mut Output, run: &mut [u32], drawn: &Drawn, j: usize)
    ensures result_after { (p : Proto) → Draws p drawn.now → run_numbers ≤ length run.old → j ≤ size p → leader p j ≡ true
        → Puts out.old out.new (block_line p (block_of p j) (code_block naming p j)) }
    ensures anyway { PrintsOn out.old out.new }
{
    let end = range_end(drawn.notes, j);
    let block = Block {
        number: block_at(drawn.notes, j).unwrap_or(0),
        first: j,
        past: end,
        kind: BlockKind::Code,
        span: span_of(drawn.lines, j, end),
    };
    put_block_line(out, block);
    put_front(out, run, drawn, j);
    few_captures(drawn.function.nups);
    put_body(out, run, &drawn.function, j, end, 0);
    put_exits(out, drawn, j, end);
}

// Prints the entry block of a function of n words: its registers behind the parameters get nil.
pub fn put_entry(out: &mut Output, head: Head, number: usize, n: usize)
    ensures result_after { (p : Proto) → p.parameters ≡ head.parameters → p.stack ≡ head.stack → n ≡ size p
        → Puts out.old out.new (block_line p number (entry_block naming p)) }
    ensures anyway { PrintsOn out.old out.new }
{
    let block = Block {
        number,
        first: n,
        past: n,
        kind: BlockKind::Entry,
        span: NO_LINES,
    };
    put_block_line(out, block);
    let registers = u16::from(head.stack.saturating_sub(head.parameters));
    put_nils(out, n, ENTRY_OPCODE, head.parameters, registers);
    put_edge_line(out, EdgeKind::Plain, 0);
}

// The number of the block at the word that the Then edge of word i goes to; none where there is no such word or no block starts there.
fn then_block(drawn: &Drawn, i: usize) -> Option<usize>
    ensures { (p : Proto) → p.words ≡ drawn.now.function.words.now
        → result ≡ cond (ltb i (size p)) (one_less (note_in drawn.now.notes.now (then_of p i)).start) None }
{
    let t = then_of(drawn.function.words, i)?;
    block_at(drawn.notes, t)
}

// Prints the between block of word i, where it has one.
pub fn put_between(out: &mut Output, run: &mut [u32], drawn: &Drawn, i: usize)
    ensures result_after { (p : Proto) → Checked p drawn.now → run_numbers ≤ length run.old → i < size p
        → Puts out.old out.new (between_lines p i) }
    ensures anyway { PrintsOn out.old out.new }
{
    let Some(number) = between_at(drawn.notes, i) else {
        return;
    };
    let words = drawn.function.words;
    let n = words.len();
    let block = Block {
        number,
        first: n,
        past: n,
        kind: BlockKind::Between,
        span: NO_LINES,
    };
    put_block_line(out, block);
    put_on_then(out, run, words, i);
    let to = then_block(drawn, i).unwrap_or(0);
    put_edge_line(out, EdgeKind::Plain, to);
}
