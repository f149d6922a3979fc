// What is judged.
use lua51_function::function::Head;

// A function as it is judged: its head, its words, the kinds of its constants, the numbers of its nested functions and their counts of
// upvalues, and the bytes of its word lines. It holds no `View`: tried, and a function that makes both of one set of buffers, as judging
// does, gets no proof.
#[derive(Clone, Copy)]
pub struct Subject<'a> {
    pub head: Head,
    pub words: &'a [u32],
    pub kinds: &'a [u8],
    pub nested: &'a [u32],
    pub nups: &'a [u8],
    pub lines: &'a [u8],
}
