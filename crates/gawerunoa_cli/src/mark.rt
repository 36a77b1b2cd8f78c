//! Where a text is not what was expected.

use std::fmt;

/// A place in a text at which something else was expected.
#[derive(Clone, Copy)]
pub struct Mark {
    /// The byte's number in its line, counted from 1.
    pub column: usize,
    /// What was expected there.
    pub expected: Expected,
    /// The byte that stands there; none where the text ends.
    pub found: Option<u8>,
}

/// What a place in a text is expected to have.
#[derive(Clone, Copy)]
pub enum Expected {
    /// The digit of an activity bit.
    Bit,
    /// The blank between a bit and its operation.
    Blank,
    /// A hexadecimal digit.
    Digit,
    /// The second digit of a byte.
    SecondDigit,
}

impl Mark {
    /// Returns the first mark of `digits`, whose first byte stands at `column`: the first byte that is no hexadecimal
    /// digit, else the end, where a second digit is wanting or there is no digit at all.
    pub(crate) fn of_digits(digits: &[u8], column: usize) -> Mark {
        match digits.iter().position(|digit| !digit.is_ascii_hexdigit()) {
            Some(index) => Mark {
                column: column.saturating_add(index),
                expected: Expected::Digit,
                found: digits.get(index).copied(),
            },
            None => Mark {
                column: column.saturating_add(digits.len()),
                expected: if digits.is_empty() {
                    Expected::Digit
                } else {
                    Expected::SecondDigit
                },
                found: None,
            },
        }
    }
}

impl fmt::Display for Expected {
    fn fmt<W: fmt::Write>(&self, f: &mut fmt::Formatter<W>) -> fmt::Result {
        f.write_str(match self {
            Expected::Bit => "`0` or `1`, whether the operation is active",
            Expected::Blank => "one blank",
            Expected::Digit => "a hexadecimal digit",
            Expected::SecondDigit => "a second hexadecimal digit of the last byte",
        })
    }
}

impl fmt::Display for Mark {
    fn fmt<W: fmt::Write>(&self, f: &mut fmt::Formatter<W>) -> fmt::Result {
        let column = self.column;
        let expected = self.expected;
        write!(f, "column {column}: expected {expected}, found ")?;
        match self.found {
            None => f.write_str("the end"),
            Some(b' ') => f.write_str("a blank"),
            Some(b'\t') => f.write_str("a tab"),
            Some(b'\n') => f.write_str("the end of a line"),
            Some(b'\r') => f.write_str("a carriage return"),
            Some(byte) if byte.is_ascii_graphic() => {
                let letter = byte as char;
                write!(f, "`{letter}`")
            }
            Some(byte) => write!(f, "the byte {byte:02x}"),
        }
    }
}
