// Records of chunks with what the original lifter answers for them.
use crate::listed::{Told, same_output};
use crate::record::{Outcome, next_number, read_first, read_part};
use reading::Reading;
use std::io::Read;

const MOST_CHUNK: usize = 4096;

const MOST_LINES: usize = 8192;

// The number of a record for which the two agree, and the greatest number of a class of docs/DIFFERENCES.md.
const AGREED: usize = 0;

const MOST_CLASS: usize = 6;

// Whether the original's answer is the output, or differs from it as a class says.
#[derive(Clone, Copy)]
enum Class {
    Agreed,
    Differing,
}

// A number that stands for no class.
#[derive(Clone, Copy)]
struct NoClass;

impl TryFrom<usize> for Class {
    type Error = NoClass;

    fn try_from(number: usize) -> Result<Class, NoClass> {
        match number {
            AGREED => Ok(Class::Agreed),
            1..=MOST_CLASS => Ok(Class::Differing),
            _ => Err(NoClass),
        }
    }
}

// Whether a chunk gives what its record says, without the words that statements name and the source lines of blocks, which the original
// does not tell. Where the two agree the original's answer is the output, and no listing is recorded; else the recorded listing is, and
// the answer differs from it.
fn as_recorded(s: &[u8], class: Class, answer: &[u8], listing: &[u8]) -> bool {
    if answer == listing {
        return false;
    }
    let closed = Reading::new();
    match class {
        Class::Agreed => listing.is_empty() && same_output::<Told>(closed, s, answer),
        Class::Differing => same_output::<Told>(closed, s, listing),
    }
}

// The next record: read, opened, delivered and compared.
pub fn original_record(file: &mut impl Read) -> Outcome {
    let mut chunk = [0u8; MOST_CHUNK];
    let Some(n) = read_first(file, &mut chunk)? else {
        return Ok(None);
    };
    let class = Class::try_from(next_number(file)?);
    let mut answer = [0u8; MOST_LINES];
    let a = read_part(file, &mut answer)?;
    let mut listing = [0u8; MOST_LINES];
    let m = read_part(file, &mut listing)?;
    let agrees = class.is_ok_and(|class| as_recorded(
        &chunk[..n],
        class,
        &answer[..a],
        &listing[..m],
    ));
    Ok(Some(agrees))
}
