// The verdict on a function: refusals 7 to 15.

// What is wrong with a function, with its word. A check gives the first fault, or none.
#[derive(Clone, Copy, PartialEq, Eq, Debug)]
pub enum FunctionFault {
    // 7: the head contradicts itself, or the words.
    Head,
    // 8: there are no words, or the last is not RETURN.
    Last(usize),
    // 9: an opcode or an operand is outside.
    Operand(usize),
    // 10: a target or a skip is outside.
    Target(usize),
    // 11: a test without its jump.
    Jump(usize),
    // 12: open results without their user, or a user without open results.
    Results(usize),
    // 13: a closure without its captures.
    Captures(usize),
    // 14: the word behind a TESTSET can be reached from elsewhere.
    Shared(usize),
    // 15: a source line is above 999,999.
    Line(usize),
}
