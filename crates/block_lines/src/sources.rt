// The source lines of a block.
ghost use Rattle.std.specs.Prelude.{◌≡◌, ◌-◌, fold};
ghost use Rattle.std.specs.List.{range_with_len};
ghost use Rattle.lua51_function.specs.Function.{line_in};
ghost use Rattle.lua51_lifter.specs.SourceLines.{lowest, highest};
ghost use Rattle.block_lines.specs.Lines.{lines_in, widened};

use lua51_function::function::line_at;

// The lowest and the highest line of some words.
#[derive(Clone, Copy)]
pub struct Span {
    pub lowest: usize,
    pub highest: usize,
}

// The lines of no word: 0, as a B line prints them.
pub const NO_LINES: Span = Span {
    lowest: 0,
    highest: 0,
};

// A span with one line more.
fn widened(span: Span, line: usize) -> Span
    ensures { result ≡ widened span line }
{
    Span {
        lowest: span.lowest.min(line),
        highest: span.highest.max(line),
    }
}

// A span with the lines of the words from `next` to before `past`.
fn with_lines(span: Span, lines: &[u8], next: usize, past: usize) -> Span
    ensures { result ≡ fold (λ s i. widened s (line_in lines.now i)) span (range_with_len next (past - next)) }
{
    (next..past).fold(span, |span, i| widened(span, line_at(lines, i)))
}

// The lowest and the highest line of the words from `first` to before `past`, by the bytes of the function's word lines.
pub fn span_of(lines: &[u8], first: usize, past: usize) -> Span
    ensures { (result.lowest ≡ lowest (lines_in lines.now first past)) × (result.highest ≡ highest (lines_in lines.now first past)) }
{
    if past <= first {
        return NO_LINES;
    }
    let line = line_at(lines, first);
    let span = Span {
        lowest: line,
        highest: line,
    };
    with_lines(span, lines, first + 1, past)
}
