// Runs recorded chunks through the library, and holds its answers to the records of the files in data/, whose forms
// README.md gives. Writes for each file how many agree and how many differ, and the index of the first that differs.
#![tactic(auto)]

mod house; // loading a table, then opening and delivering
mod judged; // the walk and the judgement
mod listed; // opening and delivering
mod original; // the original lifter's answers
mod record; // what the kinds of records share

use crate::house::house_record;
use crate::judged::judged_record;
use crate::listed::listed_record;
use crate::original::original_record;
use crate::record::{NotWhole, Outcome};
use std::fs;
use std::rt::Files;

const MOST_RECORDS: u64 = 1000000;

// The count of records that agree and of those that differ; and the index of the first that differs.
fn say(rt: &impl Print, agree: u64, differ: u64, first: Option<u64>) {
    let _ = println!(rt; "{agree} agree, {differ} differ");
    if let Some(index) = first {
        let _ = println!(rt; "the first that differs: {index}");
    }
}

// All records to the end of a file, each read and compared by `next`. One that is not whole differs.
fn all<R, F: FnMut(&mut R) -> Outcome>(rt: &impl Print, file: &mut R, mut next: F)
    requires { F.IsAlwaysCallable next }
{
    let mut agree: u64 = 0;
    let mut differ: u64 = 0;
    let mut first = None;
    for index in 0..MOST_RECORDS {
        match next(file) {
            Ok(None) => break,
            Ok(Some(true)) => agree += 1,
            Ok(Some(false)) | Err(NotWhole) => {
                differ += 1;
                first = first.or(Some(index));
            }
        }
    }
    say(rt, agree, differ, first);
}

// All records of a file, by its name. One that cannot be opened is named on standard error.
fn replay<R: Files + Print + Eprint, F: FnMut(&mut R::File) -> Outcome>(rt: &R, path: &str, next: F)
    requires { F.IsAlwaysCallable next }
{
    match fs::open(rt, path) {
        Ok(mut file) => all(rt, &mut file, next),
        Err(error) => {
            let _ = eprintln!(rt; "{path}: {error}");
        }
    }
}

fn main(rt: HostRuntime) {
    replay(&rt, "judged", judged_record);
    replay(&rt, "listed", listed_record);
    replay(&rt, "original", original_record);
    replay(&rt, "house", house_record);
}
