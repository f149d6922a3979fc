// The notes, filled from the words, the marks of leaders and the counts of entering edges.
// The contracts speak of every function with these words: a ghost field would fix one, which each caller would have to name.
ghost use Rattle.std.specs.Prelude.{cond, ◌≡◌, ◌+◌, ◌<◌, ◌≤◌, length, set};
ghost use Rattle.lua51_instruction.specs.Proto.{Proto, size};
ghost use Rattle.lua51_deserializer.specs.Chunk.{most_words};
ghost use Rattle.cfg.specs.Graph.{entry_of, then_of};
ghost use Rattle.cfg.specs.Arrays.{leaders, entrances};
ghost use Rattle.cfg_notes.specs.Notes.{start_note, between_note, fronted, notes_by, nothing, notes_of, note_in};

use crate::notes::{NO_NOTE, Note};
use basics::slices::at_or;
use cfg::betweens::{Entered, is_loop, then_of};
use cfg::edges::count_entering;
use cfg::marks::{mark_leaders, marked};
use lua51_instruction::instruction::opcode_of;
use lua51_instruction::op::TESTSET;

// Notes the blocks that start, and nothing else: they are numbered ascending, from 0 on. Gives the number of the first between block:
// the entry follows the code blocks, and the betweens the entry.
fn note_starts(marks: &[u8], notes: &mut [Note]) -> u16
    requires notes_len_bound { length notes.old ≤ most_words + 1 }
    requires notes_len { length notes.old ≡ length marks.now }
    ensures starts_after { (p : Proto) → marks.now ≡ leaders p
        → (notes.new ≡ notes_by (start_note p) nothing nothing (size p + 1)) × (result ≡ entry_of p + 1) }
    ensures few { result ≤ length notes.old + 1 }
{
    let mut next: u16 = 1;
    for (j, note) in notes.iter_mut().enumerate() {
        if marked(marks, j) {
            *note = Note {
                start: next,
                ..NO_NOTE
            };
            next += 1;
        } else {
            *note = NO_NOTE;
        }
    }
    next
}

// Notes the between blocks, in the order of their loops, numbered from `first` on. One function for these and for the starts would take
// the test and the place of the note as closures.
fn note_betweens(entered: &Entered, first: u16, notes: &mut [Note])
    requires notes_len_bound { length notes.old ≤ most_words + 1 }
    requires first_in_bounds { first ≤ length notes.old + 1 }
    ensures { (p : Proto) → p.words ≡ entered.now.words.now → entered.now.counts.now ≡ entrances p → first ≡ entry_of p + 1
        → notes.old ≡ notes_by (start_note p) nothing nothing (size p + 1)
        → notes.new ≡ notes_by (start_note p) (between_note p) nothing (size p + 1) }
{
    let mut next = first;
    for (i, note) in notes.iter_mut().enumerate() {
        if entered.is_diverted(i) {
            note.between = next;
            next += 1;
        }
    }
}

// Whether the assignment on the Then edge of word i stands at the front of the block that the edge goes to.
fn is_fronted(entered: &Entered, i: usize) -> bool
    ensures { (p : Proto) → p.words ≡ entered.now.words.now → entered.now.counts.now ≡ entrances p → result ≡ fronted p i }
{
    let word = at_or(entered.words, i, 0);
    if opcode_of(word) == TESTSET {
        return true;
    }
    is_loop(word) && !entered.is_diverted(i)
}

// Notes word i, where its assignment stands at the front of a block. The cast loses nothing by what is asked; `try_from` would give an
// error that never comes, and std says nothing of the slice behind `get_mut`.
fn note_front(entered: &Entered, notes: &mut [Note], i: usize)
    requires words_len_bound { length entered.now.words.now ≤ most_words }
    requires i_in_bounds { i < length entered.now.words.now }
    ensures { (p : Proto) → p.words ≡ entered.now.words.now → entered.now.counts.now ≡ entrances p
        → let t = then_of p i in
        notes.new ≡ cond (fronted p i) (set notes.old t (record (note_in notes.old t) { front = i + 1 })) notes.old }
{
    if !is_fronted(entered, i) {
        return;
    }
    if let Some(t) = then_of(entered.words, i)
        && t < notes.len()
    {
        notes[t].front = (i + 1) as u16;
    }
}

// Notes at the first word of each block the word whose assignment stands at its front.
fn note_fronts(entered: &Entered, notes: &mut [Note])
    requires { length entered.now.words.now ≤ most_words }
    ensures { (p : Proto) → p.words ≡ entered.now.words.now → entered.now.counts.now ≡ entrances p
        → notes.old ≡ notes_by (start_note p) (between_note p) nothing (size p + 1) → notes.new ≡ notes_of p }
{
    for i in 0..entered.words.len() {
        note_front(entered, notes, i);
    }
}

// Fills the notes. The marks of leaders and the counts of entering edges, for which room is lent, serve only for this.
pub fn fill(words: &[u32], marks: &mut [u8], counts: &mut [u8], notes: &mut [Note])
    requires words_len_bound { length words.now ≤ most_words }
    requires marks_len { length marks.old ≡ length words.now + 1 }
    requires counts_len { length counts.old ≡ length words.now + 1 }
    requires notes_len { length notes.old ≡ length words.now + 1 }
    ensures { (p : Proto) → p.words ≡ words.now → notes.new ≡ notes_of p }
{
    mark_leaders(words, marks);
    count_entering(words, marks, counts);
    let entered = Entered { words, counts };
    let first = note_starts(marks, notes);
    note_betweens(&entered, first, notes);
    note_fronts(&entered, notes);
}
