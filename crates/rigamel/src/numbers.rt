// Readings and answers in numbers, of 64 bits where C reads them: Rust has no `From` between u64 and usize.
ghost use Rattle.std.specs.Prelude.{◌≡◌};
ghost use Rattle.judging.specs.Answers.{answer_of};
ghost use Rattle.reading.specs.Opening.{reading_of};
ghost use Rattle.rigamel.specs.Numbers.{answer_numbers, reading_numbers};
ghost use Rattle.rigamel.specs.Numbers as numbers;

use crate::{Answer, Reading};
use judging::refusal::{Numbers, Refusal};

// The numbers of an answer.
impl From<Result<usize, Refusal>> for Answer {
    ghost from_gives = { λ given numbers. numbers ≡ answer_numbers (answer_of given) };

    fn from(given: Result<usize, Refusal>) -> Answer {
        match given {
            Ok(length) => Answer {
                number: 0,
                function: 0,
                place: 0,
                length: length as u64,
            },
            Err(refusal) => {
                let refused = Numbers::from(refusal);
                Answer {
                    number: refused.number as u64,
                    function: refused.function as u64,
                    place: refused.place as u64,
                    length: 0,
                }
            }
        }
    }
}

// The reading that the numbers stand for.
impl From<Reading> for reading::Reading {
    ghost from_gives = { λ held meant. reading_of meant ≡ numbers.reading_of held };

    fn from(held: Reading) -> reading::Reading {
        let table = held.table;
        reading::Reading {
            opened: 0 < held.opened,
            next: held.next,
            table,
        }
    }
}

// The numbers of a reading, where `held` stands for open.
pub fn reading_numbers(held: u32, reading: reading::Reading) -> Reading
    ensures { result ≡ reading_numbers held (reading_of reading) }
{
    let table = reading.table;
    Reading {
        opened: if reading.opened { held } else { 0 },
        next: reading.next,
        table,
    }
}
