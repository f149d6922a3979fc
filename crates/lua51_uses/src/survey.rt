// What words are judged by among words.

// The words of a function, the counts of its nested functions' upvalues, and the marks of its leaders, and of its jump targets and
// skips. Marks stay bytes by a rule of the project: bools are a narrower type, and would ask more of callers of `check`. They are two
// lists, since each is filled and read without the other.
#[derive(Clone, Copy)]
pub struct Survey<'a> {
    pub words: &'a [u32],
    pub nups: &'a [u8],
    pub leaders: &'a [u8],
    pub targets: &'a [u8],
}
