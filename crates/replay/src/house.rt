// Records of house tables and chunks, with what loading the one, and opening and delivering the other, write.
use crate::listed::{Whole, behind_line, same_output};
use crate::record::{Outcome, read_first, read_part};
use reading::Reading;
use reading::load::load;
use std::io::Read;

// More bytes than a table has.
const MOST_TABLE: usize = 512;

const MOST_CHUNK: usize = 4096;

const MOST_OUTPUT: usize = 16384;

// Whether loading a table, which writes nothing or the X line of its refusal, and then opening a chunk and delivering its functions gives
// the recorded output. A refused load leaves Lua's own table, and the chunk is listed by that.
fn as_recorded(table: &[u8], s: &[u8], recorded: &[u8]) -> bool {
    let loaded = load(Reading::new(), table);
    let behind = match loaded.answer {
        Ok(_) => Some(recorded),
        Err(refusal) => behind_line(refusal, recorded),
    };
    match behind {
        Some(rest) => same_output::<Whole>(loaded.reading, s, rest),
        None => false,
    }
}

// The next record: read, loaded, opened, delivered and compared.
pub fn house_record(file: &mut impl Read) -> Outcome {
    let mut table = [0u8; MOST_TABLE];
    let Some(t) = read_first(file, &mut table)? else {
        return Ok(None);
    };
    let mut chunk = [0u8; MOST_CHUNK];
    let n = read_part(file, &mut chunk)?;
    let mut recorded = [0u8; MOST_OUTPUT];
    let m = read_part(file, &mut recorded)?;
    Ok(Some(as_recorded(&table[..t], &chunk[..n], &recorded[..m])))
}
