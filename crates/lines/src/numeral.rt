// Reading a number back from 7 columns.
ghost use Rattle.std.specs.Prelude.{◌-◌, ◌≤◌, ◌≡◌, ◌==◌, not, length, position, Some, None, if◌then◌else◌};
ghost use Rattle.lines.specs.Line.{blank, digit, width};
ghost use Rattle.lines.specs.Numeral.{numeral_of, is_digit, digits_say, column_says, line_says};

use crate::{BLANK, COLUMNS, DIGIT_ZERO, LINE_FEED};

// The base of the digits that are printed, in the type of what they say: a constant cannot call `from`.
const BASE: u32 = crate::BASE as u32;

// A line of one number: 7 columns and a line feed.
pub const LINE_LENGTH: usize = COLUMNS + 1;

// The number of one digit; none of a byte that is no digit.
fn digit_value(b: u8) -> Option<u32>
    ensures { result ≡ (if is_digit b then Some (b - digit 0) else None) }
{
    if !b.is_ascii_digit() {
        return None;
    }
    Some(u32::from(b - DIGIT_ZERO))
}

// What digits say; 7 of them, the most in a line, are below 2 to the 32nd. By hand: `parse` takes a `&str`, and a plus.
fn number_of(digits: &[u8]) -> Option<u32>
    requires { length digits.now ≤ width }
    ensures { numeral_of result ≡ digits_say 0 digits.now }
{
    let mut x = 0;
    for b in digits {
        x = BASE * x + digit_value(*b)?;
    }
    Some(x)
}

// Where the first byte stands that is no blank: blanks say nothing.
fn first_other(columns: &[u8]) -> Option<usize>
    ensures { result ≡ position (λ b. not (b == blank)) columns.now }
{
    columns.iter().position(|b| *b != BLANK)
}

// What columns say: blanks, then digits, of which the first is no zero unless it is the only one.
fn column_says(columns: &[u8]) -> Option<u32>
    requires { length columns.now ≤ width }
    ensures { numeral_of result ≡ column_says columns.now }
{
    let first = first_other(columns)?;
    if columns[first] == DIGIT_ZERO && first + 1 < columns.len() {
        return None;
    }
    number_of(&columns[first..])
}

// What the line from `at` on says, 7 columns, then a line feed: a number, or none, since it has another form.
pub fn number_at(s: &[u8], at: usize) -> Option<u32>
    ensures { numeral_of result ≡ line_says s.now at }
{
    let line = s.get(at..)?.get(..LINE_LENGTH)?;
    if line[COLUMNS] != LINE_FEED {
        return None;
    }
    column_says(&line[..COLUMNS])
}
