// Records of chunks with what the listing program writes for them.
ghost use Rattle.std.specs.Prelude.{◌≤◌, length};

use crate::record::{MOST_LENGTH, Outcome, read_first, read_part};
use judging::refusal::{Numbers, Refusal, put_refusal};
use lines::{LETTER_B, LETTER_S};
use reading::deliver::deliver;
use reading::{PROGRAM_BUFFER, Reading, open};
use std::io::Read;

// The longest output of a record.
const MOST_OUTPUT: usize = 230000;

// The two numbers that the original does not tell, in 7 columns each: behind the letter of an S line the word that the statement names
// and its opcode, behind the first four numbers of a B line its lowest and its highest source line.
const UNTOLD_COLUMNS: usize = 14;

const BLOCK_COLUMNS: usize = 28;

// More than the longest X line.
const LINE: usize = 64;

// Deliveries from an accepted chunk, the one that finds no function among them, are not more than these.
const MOST_DELIVERIES: usize = 257;

// What is recorded behind the X line of a refusal, if that is what comes first.
pub fn behind_line(refusal: Refusal, recorded: &[u8]) -> Option<&[u8]> {
    let mut line = [0u8; LINE];
    let count = put_refusal(&mut line, 0, Numbers::from(refusal));
    recorded.strip_prefix(line.get(..count)?)
}

// Whether the recorded output ends with the X line of a refusal, or, where all functions are delivered, without one.
fn ends_with(refusal: Refusal, recorded: &[u8]) -> bool {
    if let Refusal::NoFunction(_) = refusal {
        return recorded.is_empty();
    }
    match behind_line(refusal, recorded) {
        Some(behind) => behind.is_empty(),
        None => false,
    }
}

// Takes what the original does not tell out of a listing, and gives how many bytes are left. In a line no letter stands but the first.
// By index: a turn reads one place of the listing and writes another.
fn take_untold_out(listing: &mut [u8]) -> usize
    ensures { result ≤ length listing.new }
{
    let mut kept = 0;
    let mut untold = 0..0;
    for i in 0..listing.len() {
        if untold.contains(&i) {
            continue;
        }
        let byte = listing[i];
        listing[kept] = byte;
        kept += 1;
        let behind = i + 1;
        if byte == LETTER_S {
            untold = behind..behind + UNTOLD_COLUMNS;
        }
        if byte == LETTER_B {
            untold = behind + BLOCK_COLUMNS..behind + BLOCK_COLUMNS + UNTOLD_COLUMNS;
        }
    }
    kept
}

// What is recorded of a listing. A trait, since of a function that is a parameter its caller would have to show that it may be called.
pub trait Recorded {
    // Takes the rest out of a listing, and gives how many bytes are left.
    fn take_rest_out(listing: &mut [u8]) -> usize;
}

// The whole listing.
#[derive(Clone, Copy)]
pub struct Whole;

impl Recorded for Whole {
    fn take_rest_out(listing: &mut [u8]) -> usize {
        listing.len()
    }
}

// What the original tells.
#[derive(Clone, Copy)]
pub struct Told;

impl Recorded for Told {
    fn take_rest_out(listing: &mut [u8]) -> usize {
        take_untold_out(listing)
    }
}

// Whether opening a chunk, from a reading for its table, and delivering its functions one after the other gives the recorded output, which
// has of each listing what is recorded of it.
pub fn same_output<R: Recorded>(closed: Reading, s: &[u8], recorded: &[u8]) -> bool {
    let opened = open(closed, s);
    if let Err(refusal) = opened.answer {
        return ends_with(refusal, recorded);
    }
    let mut reading = opened.reading;
    let mut out = [0u8; PROGRAM_BUFFER];
    let mut rest = recorded;
    for _ in 0..MOST_DELIVERIES {
        let delivered = deliver(reading, s, &mut out);
        reading = delivered.reading;
        let count = match delivered.answer {
            Ok(count) => count,
            Err(refusal) => return ends_with(refusal, rest),
        };
        let Some(listing) = out.get_mut(..count) else {
            return false;
        };
        let left = R::take_rest_out(listing);
        let Some(behind) = out
            .get(..left)
            .and_then(|listing| rest.strip_prefix(listing))
        else {
            return false;
        };
        rest = behind;
    }
    false
}

// The next record: read, opened, delivered and compared.
pub fn listed_record(file: &mut impl Read) -> Outcome {
    let mut chunk = [0u8; MOST_LENGTH];
    let Some(n) = read_first(file, &mut chunk)? else {
        return Ok(None);
    };
    let mut recorded = [0u8; MOST_OUTPUT];
    let m = read_part(file, &mut recorded)?;
    Ok(Some(same_output::<Whole>(Reading::new(), &chunk[..n], &recorded[..m])))
}
