// The notes: one for each word from 0 to n.
// The contracts speak of every function with these words: a ghost field would fix one, which each caller would have to name.
ghost use Rattle.std.specs.Prelude.{◌≡◌, ◌+◌, ◌<◌, ◌≤◌, length, position};
ghost use Rattle.lua51_instruction.specs.Proto.{Proto, size};
ghost use Rattle.lua51_deserializer.specs.Chunk.{most_words};
ghost use Rattle.cfg.specs.Graph.{past};
ghost use Rattle.cfg_notes.specs.Notes.{notes_of, note_in, noted, one_less, starts_some};

use crate::fill::fill;
use lua51_function::function::{FEW_MARKS, FEW_WORDS, MOST_MARKS, MOST_WORDS};

// What is noted at a word; 0 stands for none, since an Option of a `u16` takes twice the room.
#[derive(Clone, Copy, PartialEq, Eq, Debug)]
pub struct Note {
    // 1 more than the number of the block whose range starts at the word
    pub start: u16,
    // the number of the between block of the loop at the word
    pub between: u16,
    // 1 more than the word whose assignment stands at the front of the block that starts here
    pub front: u16,
}

// The note of a word of which nothing is noted.
pub const NO_NOTE: Note = Note {
    start: 0,
    between: 0,
    front: 0,
};

// Notes the graph of a function, with room for N marks and counts.
fn note_with<const N: usize>(words: &[u32], notes: &mut [Note])
    requires room { length words.now < N }
    requires few { N ≤ most_words + 1 }
    requires notes_len { length notes.old ≡ length words.now + 1 }
    ensures { (p : Proto) → p.words ≡ words.now → notes.new ≡ notes_of p }
{
    let past = words.len() + 1;
    let mut marks = [0u8; N];
    let mut counts = [0u8; N];
    fill(words, &mut marks[..past], &mut counts[..past], notes);
}

// Notes the graph of a function of at most 8,192 words, with room for a note at every word and behind the last. Whatever else is lent
// is left as it is. The notes are written here; `Drawn` has both once they are made.
pub fn note_graph(words: &[u32], notes: &mut [Note])
    ensures notes_after { (p : Proto) → p.words ≡ words.now → size p ≤ most_words → length notes.old ≡ size p + 1
        → notes.new ≡ notes_of p }
    ensures anyway { length notes.new ≡ length notes.old }
{
    let n = words.len();
    if MOST_WORDS < n || notes.len() != n + 1 {
        return;
    }
    if n <= FEW_WORDS {
        note_with::<FEW_MARKS>(words, notes);
    } else {
        note_with::<MOST_MARKS>(words, notes);
    }
}

// The number that a note is; none where it is 0.
fn noted(note: u16) -> Option<usize>
    ensures { result ≡ noted note }
{
    match note {
        0 => None,
        number => Some(usize::from(number)),
    }
}

// 1 more than the number of the block whose range starts at word j; none where none does.
pub fn start_at(notes: &[Note], j: usize) -> Option<usize>
    ensures { result ≡ noted (note_in notes.now j).start }
{
    noted(notes.get(j)?.start)
}

// The number of the block whose range starts at word j; none where none does.
pub fn block_at(notes: &[Note], j: usize) -> Option<usize>
    ensures { result ≡ one_less (note_in notes.now j).start }
{
    start_at(notes, j).map(|start| start - 1)
}

// The number of the between block of the loop at word i; none where it has none.
pub fn between_at(notes: &[Note], i: usize) -> Option<usize>
    ensures { result ≡ noted (note_in notes.now i).between }
{
    noted(notes.get(i)?.between)
}

// The word whose assignment stands at the front of the block that starts at word t; none where none does.
pub fn front_at(notes: &[Note], t: usize) -> Option<usize>
    ensures { result ≡ one_less (note_in notes.now t).front }
{
    noted(notes.get(t)?.front).map(|front| front - 1)
}

// The first of some notes that says a start, by its number among them; none where none does.
fn first_start(notes: &[Note]) -> Option<usize>
    ensures { result ≡ position starts_some notes.now }
{
    notes.iter().position(|note| note.start != 0)
}

// One past the last word of the range that starts at word j: the next word at which a block starts. The range at n is empty.
pub fn range_end(notes: &[Note], j: usize) -> usize
    ensures value { (p : Proto) → notes.now ≡ notes_of p → j ≤ size p → result ≡ past p j }
    ensures anyway { (j ≤ result) × (j ≤ length notes.now → result ≤ length notes.now) }
{
    let past = notes.len();
    if past.saturating_sub(j) <= 1 {
        return j;
    }
    match first_start(&notes[j + 1..]) {
        Some(k) => j + 1 + k,
        None => past,
    }
}
