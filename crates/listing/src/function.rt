// The listing of one function of a chunk. Its bytes and what is loaded of them stay two parameters: constants are read where they stand.
// The contracts speak of every function that is described so: a ghost field would fix one, which each caller would have to name.
ghost use Rattle.std.specs.Prelude.{ℕ, ◌+◌, ◌*◌, ◌≤◌, ◌<◌, true, List, ◌≡◌, length};
ghost use Rattle.lines.specs.Out.{output, Puts, PrintsOn};
ghost use Rattle.lua51_instruction.specs.Proto.{Proto, size, reworded};
ghost use Rattle.house_table.specs.House.{word_back, word_by};
ghost use Rattle.lua51_value.specs.Value.{Value};
ghost use Rattle.lua51_deserializer.specs.Chunk.{here, walked, walk, proto_at, constants_at, most_words};
ghost use Rattle.lua51_deserializer.specs.Walked.{places_of};
ghost use Rattle.lua51_function.specs.Function.{held_of, places_from, part};
ghost use Rattle.lua51_constants.specs.Constants.{AreRead};
ghost use Rattle.lua51_lifter.specs.Check.{check, fine};
ghost use Rattle.lua51_lifter.specs.Listing.{listing};
ghost use Rattle.block_lines.specs.Lines.{run_numbers, Draws, Held};
ghost use Rattle.listing.specs.Printed.{printed, Leaves, Lists};

use crate::blocks::put_blocks;
use block_lines::blocks::Drawn;
use cfg_notes::notes::{NO_NOTE, Note, note_graph};
use house_table::{OPCODES, inverse_of};
use lines::Output;
use lua51_constants::{put_constant_lines, put_function_line};
use lua51_deserializer::chunk::Chunk;
use lua51_function::function::{
    FEW_MARKS, FEW_WORDS, Loaded, MOST_MARKS, MOST_NESTED, MOST_WORDS, View, function_at,
    word_count,
};

// Prints the listing of a function that is loaded, by what is drawn of it.
fn put_loaded(out: &mut Output, s: &[u8], loaded: Loaded, run: &mut [u32], drawn: &Drawn)
    ensures result_after { (p : Proto) (vs : List Value) → Draws p drawn.now → run_numbers ≤ length run.old
        → AreRead s.now (places_from s.now loaded.first loaded.constants) vs
        → Puts out.old out.new (listing p vs) }
    ensures anyway { PrintsOn out.old out.new }
{
    put_function_line(out, drawn.function.head);
    put_constant_lines(out, s, loaded.first, loaded.constants);
    put_blocks(out, run, drawn);
}

// Prints the listing of a function that is loaded from the output's start, if the output is long enough: it is counted first, by
// printing it into an empty output.
fn put_whole(out: &mut [u8], s: &[u8], loaded: Loaded, run: &mut [u32], drawn: &Drawn) -> usize
    ensures result_after { (p : Proto) (vs : List Value) → Draws p drawn.now → run_numbers ≤ length run.old
        → AreRead s.now (places_from s.now loaded.first loaded.constants) vs
        → output out.new result ≡ printed true out.old (listing p vs) }
    ensures anyway { Leaves true out.old out.new result }
{
    let mut none = [0u8; 0];
    let mut counted = Output::new(&mut none);
    put_loaded(&mut counted, s, loaded, run, drawn);
    let length = counted.at;
    if out.len() < length {
        return length;
    }
    let mut stored = Output::new(out);
    put_loaded(&mut stored, s, loaded, run, drawn);
    length
}

// Prints the listing of a function that is loaded from the output's start; where `whole` is set, only if the output is long enough.
// The notes of its graph are put into what is lent for them.
fn put_listing(
    out: &mut [u8],
    s: &[u8],
    loaded: Loaded,
    whole: bool,
    function: &View,
    run: &mut [u32],
    notes: &mut [Note],
) -> usize
    requires from { loaded.lines ≤ loaded.locals }
    requires inside { loaded.locals ≤ length s.now }
    ensures result_after { (p : Proto) (vs : List Value) → Held p function.now (part s.now loaded.lines loaded.locals)
        → run_numbers ≤ length run.old → length notes.old ≡ size p + 1
        → AreRead s.now (places_from s.now loaded.first loaded.constants) vs
        → output out.new result ≡ printed whole out.old (listing p vs) }
    ensures anyway { Leaves whole out.old out.new result }
{
    note_graph(function.words, notes);
    let drawn = Drawn {
        function: *function,
        lines: &s[loaded.lines..loaded.locals],
        notes,
    };
    if whole {
        return put_whole(out, s, loaded, run, &drawn);
    }
    let mut printed = Output::new(out);
    put_loaded(&mut printed, s, loaded, run, &drawn);
    printed.at
}

// Prints the listing of function f of a chunk from the output's start, its words put back by the inverse of a table, in room for at most
// WORDS words and for the notes at these and behind the last, which are MARKS: a const argument is not computed.
fn put_with<const WORDS: usize, const MARKS: usize>(
    out: &mut [u8],
    chunk: Chunk,
    f: u32,
    inverse: &[u8],
    whole: bool,
    run: &mut [u32],
) -> usize
    requires few { WORDS ≤ most_words }
    requires marks { MARKS ≡ WORDS + 1 }
    requires words { (end : ℕ) → walked (here end) (places_of chunk.functions.now) ≡ walk chunk.bytes.now → f < chunk.functions.now.count
        → length (proto_at chunk.bytes.now (held_of chunk.functions.now) f).words ≤ WORDS }
    ensures { Lists (word_by inverse.now) chunk.entry.bytes.now chunk.entry.functions.now f whole run.old out.old out.new result }
{
    let mut words = [0u32; WORDS];
    let mut nested = [0u32; MOST_NESTED];
    let mut nups = [0u8; MOST_NESTED];
    let loaded = function_at(
        chunk,
        f,
        inverse,
        &mut words,
        &mut [],
        &mut nested,
        &mut nups,
    );
    let function = View {
        head: loaded.head,
        words: &words[..loaded.words],
        nested: &nested[..loaded.nested],
        nups: &nups[..loaded.nested],
    };
    let mut notes = [NO_NOTE; MARKS];
    let noted = &mut notes[..loaded.words + 1];
    put_listing(out, chunk.bytes, loaded, whole, &function, run, noted)
}

// Prints the listing of function f of a chunk under a house table from the output's start, and gives its length. Where `whole` is set, an
// output that is shorter stays as it was; else it gets the listing's beginning: the flag is the definition's (`printed`). Its statements
// are written into the buffer `run` first; what that holds afterwards is of no use. Room for the function's words is made by their count,
// so that a small function costs little.
pub fn put_function(
    out: &mut [u8],
    chunk: Chunk,
    f: u32,
    table: [u8; OPCODES],
    whole: bool,
    run: &mut [u32],
) -> usize
    ensures { Lists (word_back table) chunk.entry.bytes.now chunk.entry.functions.now f whole run.old out.old out.new result }
{
    let inverse = inverse_of(table);
    if word_count(chunk, f) <= FEW_WORDS {
        return put_with::<FEW_WORDS, FEW_MARKS>(out, chunk, f, &inverse, whole, run);
    }
    put_with::<MOST_WORDS, MOST_MARKS>(out, chunk, f, &inverse, whole, run)
}
