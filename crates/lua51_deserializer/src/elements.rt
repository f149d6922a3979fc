// The elements of a function's counted lists, and such lists of them.
ghost use Rattle.std.specs.Prelude.{◌≡◌, ℕ, List};
ghost use Rattle.lua51_deserializer.specs.Chunk.{Read, again, constant, counted, string};
ghost use Rattle.lua51_deserializer.specs.Cursor.{local, read_of};

use crate::fields::{ChunkFault, constant, count_to, local, string};
use lua51_value::bytes::int_at;

// What a counted list is of.
pub trait Element {
    // Its reader in the definition.
    ghost reads: { List ℕ → ℕ → Read };

    // Reads the element at an offset.
    fn read(s: &[u8], at: usize) -> Result<usize, ChunkFault>
        ensures { read_of result ≡ reads s.now at };
}

// A constant.
#[derive(Clone, Copy)]
pub struct Constant;

impl Element for Constant {
    ghost reads = { constant };

    fn read(s: &[u8], at: usize) -> Result<usize, ChunkFault> {
        constant(s, at)
    }
}

// A local variable.
#[derive(Clone, Copy)]
pub struct Local;

impl Element for Local {
    ghost reads = { local };

    fn read(s: &[u8], at: usize) -> Result<usize, ChunkFault> {
        local(s, at)
    }
}

// The name of an upvalue.
#[derive(Clone, Copy)]
pub struct Name;

impl Element for Name {
    ghost reads = { string };

    fn read(s: &[u8], at: usize) -> Result<usize, ChunkFault> {
        string(s, at)
    }
}

// `n` elements from an offset on.
pub fn elements<E: Element>(s: &[u8], at: usize, n: u32) -> Result<usize, ChunkFault>
    ensures { read_of result ≡ again (E.reads s.now) n at }
{
    (0..n).try_fold(at, |reached, _| E::read(s, reached))
}

// A counted list of elements.
#[tactic(auto, unfolding(crate::specs::Chunk::counted))]
pub fn counted<E: Element>(s: &[u8], at: usize, limit: u32) -> Result<usize, ChunkFault>
    ensures { read_of result ≡ counted s.now limit (E.reads s.now) at }
{
    let first = count_to(s, at, limit)?;
    elements::<E>(s, first, int_at(s, at))
}
