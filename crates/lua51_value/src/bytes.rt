// Bytes of a chunk, and numbers of four of them.
ghost use Rattle.std.specs.Prelude.{◌≡◌, ◌+◌};
ghost use Rattle.lua51_value.specs.Bytes.{byte_at, int_at};

use basics::slices::at_or;

// The byte `k` bytes behind offset `at`; 0 past the end. The tests are of what is left behind `at`: where an `int_at` is known to be whole,
// LLVM then makes its four bytes one load. Of a saturating sum it does not, and a listing of many strings takes 42 % more instructions.
pub fn byte_behind(s: &[u8], at: usize, k: usize) -> u8
    ensures { result ≡ byte_at s.now (at + k) }
{
    if at < s.len() && k < s.len() - at {
        return s[at + k];
    }
    0
}

// The number in the four bytes from offset `at` on, lowest first; bytes past the end count as 0.
#[tactic(auto, unfolding(crate::specs::Bytes::int_at))]
pub fn int_at(s: &[u8], at: usize) -> u32
    ensures { result ≡ int_at s.now at }
{
    u32::from_le_bytes([
        at_or(s, at, 0),
        byte_behind(s, at, 1),
        byte_behind(s, at, 2),
        byte_behind(s, at, 3),
    ])
}
