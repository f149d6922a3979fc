// The E lines of a range.
// The contracts speak of every function that is drawn so: a ghost field would fix one, which each caller would have to name.
ghost use Rattle.std.specs.Prelude.{eqb, ◌+◌, ◌≤◌, ◌<◌, true, ◌≡◌};
ghost use mathlib.Core.List.{[], ◌∷◌, map, flat_map};
ghost use Rattle.lines.specs.Line.{line, letter_e};
ghost use Rattle.lines.specs.Out.{Puts, PrintsOn};
ghost use Rattle.lua51_instruction.specs.Proto.{Proto, size, flow_at};
ghost use Rattle.cfg.specs.Graph.{leader, past, leaving};
ghost use Rattle.cfg.specs.Arrays.{edge_meant, kind_number};
ghost use Rattle.cfg_notes.specs.Notes.{notes_of};
ghost use Rattle.lua51_lifter.specs.Blocks.{leads, edges_of};
ghost use Rattle.lua51_lifter.specs.Listing.{edge_line};
ghost use Rattle.block_lines.specs.Lines.{Checked};

use crate::blocks::Drawn;
use cfg::edges::{Edge, EdgeKind, Edges, edges_at};
use cfg_notes::notes::{Note, between_at, block_at};
use lines::{LETTER_E, Output};

// Prints an E line.
pub fn put_edge_line(out: &mut Output, kind: EdgeKind, block: usize)
    ensures { Puts out.old out.new (line letter_e (kind_number kind ∷ block ∷ [])) }
{
    out.put_line(LETTER_E, &[usize::from(u8::from(kind)), block]);
}

// Whether an edge of a kind may lead to a between block: a Then edge may.
fn may_divert(kind: EdgeKind) -> bool
    ensures { result ≡ eqb (kind_number kind) 1 }
{
    kind == EdgeKind::Then
}

// The number of the block that an edge of word i leads to: a loop's Then edge may lead to its between block.
fn leads_to(notes: &[Note], i: usize, e: Edge) -> usize
    ensures { (p : Proto) → notes.now ≡ notes_of p → i < size p → e.to ≤ size p → leader p e.to ≡ true
        → result ≡ (leads p i (edge_meant e)).to }
{
    if !may_divert(e.kind) {
        return block_at(notes, e.to).unwrap_or(0);
    }
    match between_at(notes, i) {
        Some(between) => between,
        None => block_at(notes, e.to).unwrap_or(0),
    }
}

// Prints the E line of an edge of word i.
fn put_edge(out: &mut Output, notes: &[Note], i: usize, e: Edge)
    ensures result_after { (p : Proto) → notes.now ≡ notes_of p → i < size p → e.to ≤ size p → leader p e.to ≡ true
        → Puts out.old out.new (edge_line (leads p i (edge_meant e))) }
    ensures anyway { PrintsOn out.old out.new }
{
    put_edge_line(out, e.kind, leads_to(notes, i, e));
}

// Prints the E lines of the range whose last word is i.
fn put_edges(out: &mut Output, drawn: &Drawn, i: usize)
    ensures result_after { (p : Proto) → Checked p drawn.now → i < size p → leader p (i + 1) ≡ true
        → Puts out.old out.new (flat_map edge_line (map (leads p i) (leaving p i (flow_at p i)))) }
    ensures anyway { PrintsOn out.old out.new }
{
    match edges_at(drawn.function.words, i) {
        Edges::None => {}
        Edges::One(e) => put_edge(out, drawn.notes, i, e),
        Edges::Two(e, f) => {
            put_edge(out, drawn.notes, i, e);
            put_edge(out, drawn.notes, i, f);
        }
    }
}

// Prints the E lines of the range from word j to before `end`; the empty range at n has none.
pub fn put_exits(out: &mut Output, drawn: &Drawn, j: usize, end: usize)
    ensures result_after { (p : Proto) → Checked p drawn.now → j ≤ size p → end ≡ past p j
        → Puts out.old out.new (flat_map edge_line (edges_of p j)) }
    ensures anyway { PrintsOn out.old out.new }
{
    if drawn.function.words.len() <= j {
        return;
    }
    put_edges(out, drawn, end.saturating_sub(1));
}
