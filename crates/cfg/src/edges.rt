// Edges: where a range leads behind its last word, and how many edges enter each block.
// The contracts speak of every function with these words: a ghost field would fix one, which each caller would have to name.
ghost use Rattle.std.specs.Prelude.{◌≡◌, ℕ, ◌+◌, ◌<◌, min, cond, [], ◌∷◌, ltb, length, get_or, set};
ghost use Rattle.basics.specs.Range.{only, times, table};
ghost use Rattle.lua51_instruction.specs.Proto.{Proto, size, flow_at};
ghost use Rattle.cfg.specs.Graph.{plain_edge, then_edge, else_edge, leaving};
ghost use Rattle.cfg.specs.Arrays.{kind_number, edges_meant, targets, more, one_more, entered, exits_by, entering_by};

use crate::few::UpToTwo;
use crate::flow::{flow_of, landing};
use crate::marks::marked;
use lua51_instruction::instruction::{Flow, c_of};

// The kinds of edges, with their numbers.
#[derive(Clone, Copy, PartialEq, Eq, Debug)]
pub enum EdgeKind {
    Plain = 0,
    Then = 1,
    Else = 2,
}

// The number of a kind, which in Rust `as` alone gives.
impl From<EdgeKind> for u8 {
    ghost from_gives = { λ kind number. number ≡ kind_number kind };

    fn from(kind: EdgeKind) -> u8 {
        kind as u8
    }
}

// The count of the edges that enter a block where they are more than one. Counts are bytes: an enum of none, one and more would ask a
// narrower type of those who lend them.
const MORE: u8 = 2;

// An edge: its kind, and the word that it goes to.
#[derive(Clone, Copy, PartialEq, Eq, Debug)]
pub struct Edge {
    pub kind: EdgeKind,
    pub to: usize,
}

// The edges of a range, in their order.
pub type Edges = UpToTwo<Edge>;

// A single edge.
fn plain(to: usize) -> Edges
    ensures { edges_meant result ≡ only (plain_edge to) }
{
    Edges::One(Edge {
        kind: EdgeKind::Plain,
        to,
    })
}

// The edges of a test.
fn branch(yes: usize, no: usize) -> Edges
    ensures { edges_meant result ≡ then_edge yes ∷ else_edge no ∷ [] }
{
    Edges::Two(
        Edge {
            kind: EdgeKind::Then,
            to: yes,
        },
        Edge {
            kind: EdgeKind::Else,
            to: no,
        },
    )
}

// The edges of a range whose last word is i; none where there is no such word.
#[tactic(auto, unfolding(crate::specs::Graph::leaving))]
pub fn edges_at(words: &[u32], i: usize) -> Edges
    ensures { (p : Proto) → p.words ≡ words.now → edges_meant result ≡ cond (ltb i (size p)) (leaving p i (flow_at p i)) [] }
{
    if words.len() <= i {
        return Edges::None;
    }
    let word = words[i];
    match flow_of(word) {
        Flow::Straight => plain(i + 1),
        Flow::Skip => {
            if c_of(word) == 0 {
                return plain(i + 1);
            }
            plain(i + 2)
        }
        Flow::Jump | Flow::LoopEntry => plain(landing(words, i)),
        Flow::Test | Flow::TestSet | Flow::GenericLoop => branch(i + 1, i + 2),
        Flow::NumericLoop => branch(landing(words, i), i + 1),
        Flow::Exit => Edges::None,
    }
}

// The edges that leave word i for another range: none where the next word starts none. A struct of words and marks would be made in
// one place and read in one.
#[tactic(auto, unfolding(basics::specs::Range::times))]
fn exits_at(words: &[u32], marks: &[u8], i: usize) -> Edges
    requires { i < length words.now }
    ensures { (p : Proto) → p.words ≡ words.now → (t : ℕ) → times t (targets result) ≡ exits_by p marks.now t i }
{
    if marked(marks, i + 1) {
        return edges_at(words, i);
    }
    Edges::None
}

// Counts one edge to a word, where it is inside; past the second none is counted. (By `get_mut` no proof: std says nothing of the
// slice behind it.)
fn enter(counts: &mut [u8], to: usize)
    ensures { counts.new ≡ set counts.old to (one_more (get_or counts.old to 0)) }
{
    if to < counts.len() && counts[to] < MORE {
        counts[to] += 1;
    }
}

// Counts each of some edges at the word that it goes to.
#[tactic(auto, unfolding(crate::specs::Arrays::entered))]
fn enter_all(counts: &mut [u8], edges: Edges)
    ensures { counts.new ≡ entered (targets edges) counts.old }
{
    match edges {
        Edges::None => {}
        Edges::One(e) => enter(counts, e.to),
        Edges::Two(e, f) => {
            enter(counts, e.to);
            enter(counts, f.to);
        }
    }
}

// Counts at each word the edges that enter the block whose range starts there, the entry's edge among them: none, one, more.
pub fn count_entering(words: &[u32], marks: &[u8], counts: &mut [u8])
    ensures { (p : Proto) → p.words ≡ words.now → counts.new ≡ table (λ t. min (entering_by p marks.now t) more) (length counts.old) }
{
    counts.fill(0);
    enter(counts, 0);
    for i in 0..words.len() {
        enter_all(counts, exits_at(words, marks, i));
    }
}
