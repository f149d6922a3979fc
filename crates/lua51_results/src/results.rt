// Open results, for refusal 12: the words that leave them and those that take them.
// Clauses hold of every function p with this word. No plainer: a ghost field would hold one p, and each caller would have to name it.
ghost use Rattle.std.specs.Prelude.{◌≡◌, ℕ, ◌+◌, get_or};
ghost use Rattle.lua51_instruction.specs.Proto.{Proto};
ghost use Rattle.lua51_lifter.specs.Check.{opener, user, slot, matches};

use lua51_instruction::instruction::{a_of, b_of, c_of, opcode_of};
use lua51_instruction::op::{CALL, RETURN, SETLIST, TAILCALL, VARARG};

// Whether a word leaves its results open.
#[tactic(auto, unfolding(lua51_lifter::specs::Check::opener))]
pub fn opens(word: u32) -> bool
    ensures { (p : Proto) (i : ℕ) → get_or p.words i 0 ≡ word → result ≡ opener p i }
{
    let opcode = opcode_of(word);
    ((opcode == CALL) & (c_of(word) == 0))
        | (opcode == TAILCALL)
        | ((opcode == VARARG) & (b_of(word) == 0))
}

// Whether a word takes open results.
#[tactic(auto, unfolding(lua51_lifter::specs::Check::user))]
pub fn takes(word: u32) -> bool
    ensures { (p : Proto) (i : ℕ) → get_or p.words i 0 ≡ word → result ≡ user p i }
{
    let opcode = opcode_of(word);
    ((opcode == CALL) | (opcode == TAILCALL) | (opcode == RETURN) | (opcode == SETLIST))
        & (b_of(word) == 0)
}

// The first register that a word takes with open results behind it.
#[tactic(auto, unfolding(lua51_lifter::specs::Check::slot))]
pub fn first_slot(word: u32) -> u32
    ensures { (p : Proto) (i : ℕ) → get_or p.words i 0 ≡ word → result ≡ slot p i }
{
    let a = u32::from(a_of(word));
    if opcode_of(word) == RETURN {
        return a;
    }
    a + 1
}

// Whether the next word may use the open results of a word: those of TAILCALL are for RETURN with the same A alone.
#[tactic(auto, unfolding(lua51_lifter::specs::Check::matches))]
pub fn suits(word: u32, next: u32) -> bool
    ensures { (p : Proto) (i : ℕ) → get_or p.words i 0 ≡ word → get_or p.words (i + 1) 0 ≡ next → result ≡ matches p i }
{
    (opcode_of(word) != TAILCALL) | ((opcode_of(next) == RETURN) & (a_of(word) == a_of(next)))
}
