// Checking one function: refusals 7 to 15, in their order.
// The contracts speak of every function that is described so: a ghost field would fix one, which each caller would have to name.
ghost use Rattle.std.specs.Prelude.{◌≡◌, cond, ◌+◌, ◌/◌, ◌%◌, ◌<◌, eqb, length, IfErr};
ghost use Rattle.lua51_instruction.specs.Proto.{Proto, size};
ghost use Rattle.lua51_function.specs.Function.{HasLines};
ghost use Rattle.lua51_lifter.specs.Check.{head_fault, last_fault, word_verdict, first_refusal, line_verdict, check};
ghost use Rattle.lua51_lifter.specs.Verdict.{verdict_of, Found};
ghost use Rattle.lua51_lifter.specs.declared.verdict.FunctionFault.TheVariants.{Line};
ghost use Rattle.lua51_operands.specs.Describes.{Describes};
ghost use Rattle.lua51_uses.specs.Judgement.{check_words};

use basics::slices::at_or;
use lua51_function::function::{Head, line_at};
use lua51_instruction::instruction::{decode, flow_of, opcode_of};
use lua51_instruction::op::{JMP, RETURN};
use lua51_lifter::verdict::FunctionFault;
use lua51_operands::operands::{has_arg, needs_arg, operand_fault};
use lua51_operands::subject::Subject;
use lua51_reach::reach::{asks, lands_inside};
use lua51_uses::uses::check_uses;

// ------------------------------------------------------------ 7 and 8: the function's head

// The largest stack.
const MOST_STACK: u8 = 250;

// How many registers the parameters take, with `arg` where there is one.
fn parameter_registers(head: Head) -> u32
    ensures { result ≡ head.parameters + cond (eqb (head.flags / 1 % 2) 1) 1 0 }
{
    u32::from(head.parameters) + u32::from(has_arg(head.flags))
}

// Whether a function's head contradicts itself or its words.
#[tactic(auto, unfolding(lua51_lifter::specs::Check::head_fault))]
fn head_fault(subject: &Subject) -> bool
    ensures { (p : Proto) → Describes p subject.now → result ≡ head_fault p }
{
    let head = subject.head;
    let flags = head.flags;
    // No plainer: Rust has no `From` of a u32 for a usize, and `try_from` has an error that cannot come
    let lines = head.lines as usize;
    (MOST_STACK < head.stack)
        | (u32::from(head.stack) < parameter_registers(head))
        | (needs_arg(flags) & !has_arg(flags))
        | !((lines == 0) | (lines == subject.words.len()))
        | (u32::from(head.upvalues) < head.names)
}

// Whether there are no words, or the last is not RETURN.
#[tactic(auto, unfolding(lua51_lifter::specs::Check::last_fault))]
fn last_fault(words: &[u32]) -> bool
    ensures { (p : Proto) → p.words ≡ words.now → result ≡ last_fault p }
{
    match words.last() {
        None => true,
        Some(word) => opcode_of(*word) != RETURN,
    }
}

// ------------------------------------------------------------ 9 to 11: each word by itself

// The verdict on word i by itself: its operands, then its targets and skips, then the jump behind a test.
#[tactic(auto, unfolding(lua51_lifter::specs::Check::word_verdict))]
fn word_verdict(subject: &Subject, i: usize) -> Result<(), FunctionFault>
    requires { i < length subject.now.words.now }
    ensures { (p : Proto) → Describes p subject.now → verdict_of result ≡ word_verdict p i }
{
    let words = subject.words;
    let instruction = decode(words[i]);
    let flow = flow_of(instruction.fields.opcode);
    let outside = operand_fault(subject, instruction);
    let lands = lands_inside(flow, words, i);
    if outside {
        return Err(FunctionFault::Operand(i));
    }
    if !lands {
        return Err(FunctionFault::Target(i));
    }
    if asks(flow) & (opcode_of(at_or(words, i + 1, 0)) != JMP) {
        return Err(FunctionFault::Jump(i));
    }
    Ok(())
}

// The first fault of a word by itself.
fn words_verdict(subject: &Subject) -> Result<(), FunctionFault>
    ensures { (p : Proto) → Describes p subject.now → verdict_of result ≡ first_refusal (word_verdict p) 0 (size p) }
{
    (0..subject.words.len()).try_for_each(|i| word_verdict(subject, i))
}

// ------------------------------------------------------------ 15: source lines

// The highest line.
const MOST_LINE: usize = 999999;

// The verdict on the line of word i.
#[tactic(auto, unfolding(lua51_lifter::specs::Check::line_verdict))]
fn line_verdict(lines: &[u8], i: usize) -> Result<(), FunctionFault>
    ensures result_value { (p : Proto) → HasLines p lines.now → verdict_of result ≡ line_verdict p i }
    ensures anyway { IfErr result (λ fault. fault ≡ Line i) }
{
    if MOST_LINE < line_at(lines, i) {
        return Err(FunctionFault::Line(i));
    }
    Ok(())
}

// The verdict on the lines of n words: the first that is too high.
fn lines_verdict(lines: &[u8], n: usize) -> Result<(), FunctionFault>
    ensures result_value { (p : Proto) → HasLines p lines.now → verdict_of result ≡ first_refusal (line_verdict p) 0 n }
    ensures anyway { Found 15 15 n (verdict_of result) }
{
    (0..n).try_for_each(|i| line_verdict(lines, i))
}

// ------------------------------------------------------------ all of them

// The verdict on a function's head, and on each of its words by itself.
fn check_words(subject: &Subject) -> Result<(), FunctionFault>
    ensures { (p : Proto) → Describes p subject.now → verdict_of result ≡ check_words p }
{
    let words = subject.words;
    if head_fault(subject) {
        return Err(FunctionFault::Head);
    }
    if last_fault(words) {
        return Err(FunctionFault::Last(words.len().saturating_sub(1)));
    }
    words_verdict(subject)
}

// The verdict on a function. The marks of its leaders, and of its jump targets and skips, are put into what is lent for them, one
// for each word and one behind the last. Whatever is lent, a fault is one of 7 to 15, at one of the words or at 0.
pub fn check(subject: &Subject, leaders: &mut [u8], targets: &mut [u8]) -> Result<(), FunctionFault>
    ensures result_value { (p : Proto) → Describes p subject.now → HasLines p subject.now.lines.now → size p < length leaders.old → size p < length targets.old → verdict_of result ≡ check p }
    ensures anyway { Found 7 15 (length subject.now.words.now) (verdict_of result) }
{
    let words = subject.words;
    check_words(subject)?;
    check_uses(words, subject.nups, leaders, targets)?;
    lines_verdict(subject.lines, words.len())
}
