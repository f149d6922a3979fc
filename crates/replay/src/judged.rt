// Records of chunks with what the walk over them and their judgement answer.
use crate::record::{MOST_LENGTH, NotWhole, Outcome, number_at, read_bytes};
use house_table::lua;
use input::read_full;
use judging::judge;
use judging::refusal::{Numbers, Refusal};
use lua51_deserializer::chunk::{Functions, walk};
use lua51_deserializer::fields::ChunkFault;
use lua51_value::bytes::int_at;
use std::io::Read;

// A record begins with seven numbers of four bytes, at these offsets: of the walk, from NUMBER on, and of the judgement.
const HEAD_SIZE: usize = 28;

const LENGTH: usize = 0;

const NUMBER: usize = 4;

const PLACE: usize = 8;

const COUNT: usize = 12;

const JUDGED_NUMBER: usize = 16;

const JUDGED_FUNCTION: usize = 20;

const JUDGED_PLACE: usize = 24;

// Then come three numbers for each function, at these offsets.
const FUNCTION_SIZE: usize = 12;

const START: usize = 0;

const TAIL: usize = 4;

const PARENT: usize = 8;

const MOST_FUNCTION_BYTES: usize = 3072;

// The numbers where nothing is refused: a record has three in any case.
const NOT_REFUSED: Numbers = Numbers {
    number: 0,
    function: 0,
    place: 0,
};

// Whether the functions stand where the record has them.
fn same_functions(functions: &Functions, recorded: &[u8]) -> bool {
    let places = functions
        .starts
        .iter()
        .zip(&functions.tails)
        .zip(&functions.parents);
    recorded.chunks_exact(FUNCTION_SIZE).zip(places).all(|(numbers, ((start, tail), parent))| {
        int_at(numbers, START) == *start
            && int_at(numbers, TAIL) == *tail
            && int_at(numbers, PARENT) == u32::from(*parent)
    })
}

// Whether the walk ended as the record has it: number and place are 0 where it came to the end.
fn same_end(end: Result<usize, ChunkFault>, head: &[u8]) -> bool {
    let recorded = Numbers {
        number: number_at(head, NUMBER),
        function: 0,
        place: number_at(head, PLACE),
    };
    let numbers = match end {
        Ok(_) => NOT_REFUSED,
        Err(fault) => Numbers::from(Refusal::from(fault)),
    };
    numbers == recorded
}

// Whether the walk's answer is the recorded one.
fn walked_alike(s: &[u8], head: &[u8], recorded: &[u8]) -> bool {
    let mut functions = Functions::new();
    let end = walk(s, &mut functions);
    same_end(end, head)
        && functions.count == number_at(head, COUNT)
        && same_functions(&functions, recorded)
}

// Whether the judgement is the recorded one. Of an accepted chunk it is the count of functions, which is the walk's, and the
// record's numbers are 0.
fn same_judgement(answer: Result<usize, Refusal>, head: &[u8]) -> bool {
    let recorded = Numbers {
        number: number_at(head, JUDGED_NUMBER),
        function: number_at(head, JUDGED_FUNCTION),
        place: number_at(head, JUDGED_PLACE),
    };
    match answer {
        Ok(count) => count == number_at(head, COUNT) && recorded == NOT_REFUSED,
        Err(refusal) => recorded == Numbers::from(refusal),
    }
}

// Whether a chunk is judged as the record has it, under Lua's own table.
fn judged_alike(s: &[u8], head: &[u8]) -> bool {
    same_judgement(judge(s, lua()), head)
}

// The next record: read, walked, judged and compared.
pub fn judged_record(file: &mut impl Read) -> Outcome {
    let mut head = [0u8; HEAD_SIZE];
    match read_full(file, &mut head) {
        0 => return Ok(None),
        HEAD_SIZE => {}
        _ => return Err(NotWhole),
    }
    let mut recorded = [0u8; MOST_FUNCTION_BYTES];
    let known = read_bytes(file, &mut recorded, number_at(&head, COUNT) * FUNCTION_SIZE)?;
    let mut chunk = [0u8; MOST_LENGTH];
    let n = read_bytes(file, &mut chunk, number_at(&head, LENGTH))?;
    let s = &chunk[..n];
    Ok(Some(walked_alike(s, &head, &recorded[..known]) && judged_alike(s, &head)))
}
