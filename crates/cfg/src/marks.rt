// Leaders: the words at which a function's ranges start, as marks in an array.
// The contracts speak of every function with these words: a ghost field would fix one, which each caller would have to name.
ghost use Rattle.std.specs.Prelude.{◌≡◌, ◌<◌, eqb, length, get_or, set};
ghost use Rattle.lua51_instruction.specs.Proto.{Proto, flow_at};
ghost use Rattle.cfg.specs.Graph.{claims};
ghost use Rattle.basics.specs.Range.{table};
ghost use Rattle.cfg.specs.Arrays.{mark, in_order, put_marks};

use crate::few::UpToTwo;
use crate::flow::{flow_of, landing};
use basics::slices::at_or;
use lua51_instruction::instruction::{Flow, c_of};

// The mark of a word; every other word has 0. Marks are bytes: `bool` would ask a narrower type of those who lend or read them.
const MARKED: u8 = 1;

// The leaders that a word makes.
type Claims = UpToTwo<usize>;

// The leaders that word i makes.
#[tactic(auto, unfolding(crate::specs::Graph::claims))]
fn claims_at(words: &[u32], i: usize) -> Claims
    requires { i < length words.now }
    ensures { (p : Proto) → p.words ≡ words.now → in_order result ≡ claims p i (flow_at p i) }
{
    let word = words[i];
    match flow_of(word) {
        Flow::Straight => Claims::None,
        Flow::Skip => {
            if c_of(word) == 0 {
                return Claims::None;
            }
            Claims::Two(i + 1, i + 2)
        }
        Flow::Jump | Flow::LoopEntry | Flow::NumericLoop => Claims::Two(i + 1, landing(words, i)),
        Flow::Test | Flow::TestSet | Flow::GenericLoop => Claims::Two(i + 1, i + 2),
        Flow::Exit => Claims::One(i + 1),
    }
}

// Marks word j, where it is inside. (By `get_mut` no proof: std says nothing of the slice behind it.)
pub fn put_mark(marks: &mut [u8], j: usize)
    ensures { marks.new ≡ set marks.old j 1 }
{
    if j < marks.len() {
        marks[j] = MARKED;
    }
}

// Marks the words that a word makes leaders.
#[tactic(auto, unfolding(crate::specs::Arrays::put_marks))]
fn put_claims(marks: &mut [u8], made: Claims)
    ensures { marks.new ≡ put_marks (in_order made) marks.old }
{
    match made {
        Claims::None => {}
        Claims::One(j) => put_mark(marks, j),
        Claims::Two(j, k) => {
            put_mark(marks, j);
            put_mark(marks, k);
        }
    }
}

// Marks the leaders: 1 at each word that starts a range, 0 at every other, as far as the marks go. The range at n, the
// word count, has the mark n.
pub fn mark_leaders(words: &[u32], marks: &mut [u8])
    ensures { (p : Proto) → p.words ≡ words.now → marks.new ≡ table (mark p) (length marks.old) }
{
    marks.fill(0);
    put_mark(marks, 0);
    for i in 0..words.len() {
        put_claims(marks, claims_at(words, i));
    }
}

// Whether word j is marked; past the last mark no word is.
pub fn marked(marks: &[u8], j: usize) -> bool
    ensures { result ≡ eqb (get_or marks.now j 0) 1 }
{
    at_or(marks, j, 0) == MARKED
}
