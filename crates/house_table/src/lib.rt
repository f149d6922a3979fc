// A house table of opcode numbers (document 02, 3): Lua's own, the inverse of a table, and words put back by it.
#![tactic(auto)]

ghost use Rattle.std.specs.Prelude.{◌≡◌};
ghost use Rattle.house_table.specs.House.{lua, inverse_of, word_by};

use basics::slices::at_or;
use lua51_instruction::instruction::opcode_of;
pub use lua51_instruction::instruction::OPCODES; // how many numbers a table has

// How many numbers the 6 bits of an opcode have.
pub const NUMBERS: usize = 64;

// The numbers before any line of a table is known: those to 37 are no opcode's, and those above stay. What is no
// opcode's is the byte 38, and no Option, since it is put back into a word.
const NO_OPCODES: [u8; NUMBERS] = [
    38, 38, 38, 38, 38, 38, 38, 38, 38, 38, 38, 38, 38, 38, 38, 38, 38, 38, 38, 38, 38, 38, 38, 38,
    38, 38, 38, 38, 38, 38, 38, 38, 38, 38, 38, 38, 38, 38, 38, 39, 40, 41, 42, 43, 44, 45, 46, 47,
    48, 49, 50, 51, 52, 53, 54, 55, 56, 57, 58, 59, 60, 61, 62, 63,
];

// Lua's own table: every opcode has its own number.
pub fn lua() -> [u8; OPCODES]
    ensures { result ≡ lua }
{
    [
        0, 1, 2, 3, 4, 5, 6, 7, 8, 9, 10, 11, 12, 13, 14, 15, 16, 17, 18, 19, 20, 21, 22, 23, 24,
        25, 26, 27, 28, 29, 30, 31, 32, 33, 34, 35, 36, 37,
    ]
}

// For each number that a file may use, Lua's opcode. The lines are gone through from the last, so that of two with one number the first
// counts; whatever numbers the table has. A line's position is cast to a byte: `try_from` would have a case that cannot come.
pub fn inverse_of(table: [u8; OPCODES]) -> [u8; NUMBERS]
    ensures { result ≡ inverse_of table }
{
    let mut inverse = NO_OPCODES;
    for (i, number) in table.iter().enumerate().rev() {
        let number = usize::from(*number);
        if number < OPCODES {
            inverse[number] = i as u8;
        }
    }
    inverse
}

// A word with its opcode put back, by the inverse of a table; as far as an opcode's bits hold it.
pub fn word_back(inverse: &[u8], word: u32) -> u32
    ensures { result ≡ word_by inverse.now word }
{
    let number = opcode_of(word);
    let opcode = opcode_of(u32::from(at_or(inverse, usize::from(number), 0)));
    word - u32::from(number) + u32::from(opcode)
}
