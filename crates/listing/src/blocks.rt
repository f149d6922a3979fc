// The lines of all blocks of a function: code blocks, the entry, between blocks.
// The contracts speak of every function that is described so: a ghost field would fix one, which each caller would have to name.
// Output, buffer and what is drawn stay three parameters, for the reason at `Drawn`; the buffer is a slice that is long enough.
ghost use Rattle.std.specs.Prelude.{◌+◌, ◌≤◌, length};
ghost use Rattle.lines.specs.Out.{Puts, PrintsOn};
ghost use Rattle.lua51_instruction.specs.Proto.{Proto, size};
ghost use Rattle.basics.specs.Range.{over};
ghost use Rattle.lua51_lifter.specs.Blocks.{graph};
ghost use Rattle.lua51_lifter.specs.Listing.{block_lines};
ghost use Rattle.block_lines.specs.Lines.{run_numbers, Checked, Draws, code_lines, between_lines};

use block_lines::blocks::{Drawn, put_between, put_code_block, put_entry};
use cfg_notes::notes::start_at;
use lines::Output;

// Prints the block of the range that starts at word j, where one does.
fn put_range(out: &mut Output, run: &mut [u32], drawn: &Drawn, j: usize)
    ensures result_after { (p : Proto) → Draws p drawn.now → run_numbers ≤ length run.old → j ≤ size p
        → Puts out.old out.new (code_lines p j) }
    ensures anyway { PrintsOn out.old out.new }
{
    if start_at(drawn.notes, j).is_some() {
        put_code_block(out, run, drawn, j);
    }
}

// Prints the code blocks, ascending.
fn put_code_blocks(out: &mut Output, run: &mut [u32], drawn: &Drawn)
    ensures result_after { (p : Proto) → Draws p drawn.now → run_numbers ≤ length run.old
        → Puts out.old out.new (over (code_lines p) 0 (size p + 1)) }
    ensures anyway { PrintsOn out.old out.new }
{
    for j in 0..=drawn.function.words.len() {
        put_range(out, run, drawn, j);
    }
}

// Prints the between blocks, in the order of their loops.
fn put_betweens(out: &mut Output, run: &mut [u32], drawn: &Drawn)
    ensures result_after { (p : Proto) → Checked p drawn.now → run_numbers ≤ length run.old
        → Puts out.old out.new (over (between_lines p) 0 (size p)) }
    ensures anyway { PrintsOn out.old out.new }
{
    for i in 0..drawn.function.words.len() {
        put_between(out, run, drawn, i);
    }
}

// Prints the lines of all blocks of a function, in the order of their numbers. The block at n is the last code block, so its start
// note is the entry's number.
pub fn put_blocks(out: &mut Output, run: &mut [u32], drawn: &Drawn)
    ensures result_after { (p : Proto) → Draws p drawn.now → run_numbers ≤ length run.old
        → Puts out.old out.new (block_lines p 0 (graph p)) }
    ensures anyway { PrintsOn out.old out.new }
{
    put_code_blocks(out, run, drawn);
    let n = drawn.function.words.len();
    let number = start_at(drawn.notes, n).unwrap_or(0);
    put_entry(out, drawn.function.head, number, n);
    put_betweens(out, run, drawn);
}
