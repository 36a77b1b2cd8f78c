//! The lines that the follower reads.

/// What a line of the log says, or asks.
#[derive(Clone, Copy, Debug, PartialEq, Eq)]
pub(crate) enum Line<'a> {
    /// The next operation, in hexadecimal, and whether it is active.
    Operation { operation: &'a str, active: bool },
    /// The operation at a location, of an earlier batch, is active no longer.
    Clear { location: u64 },
    /// The batch ends, and the inactivity floor is a location.
    End { floor: u64 },
    /// Asks for the proof of the operation at a location.
    Prove { location: u64 },
    /// Asks for the proof of the operations from a location to before another one.
    ProveRange { start: u64, end: u64 },
}

impl Line<'_> {
    /// Reads `active OPERATION`, `inactive OPERATION`, `clear LOCATION`, `end FLOOR`, `operation LOCATION` or `range START END`;
    /// `None` is any other line.
    pub(crate) fn parse(line: &str) -> Option<Line<'_>> {
        match line.split_once(' ')? {
            ("active", operation) => Some(Line::Operation {
                operation,
                active: true,
            }),
            ("inactive", operation) => Some(Line::Operation {
                operation,
                active: false,
            }),
            ("clear", location) => Some(Line::Clear {
                location: number(location)?,
            }),
            ("end", floor) => Some(Line::End {
                floor: number(floor)?,
            }),
            ("operation", location) => Some(Line::Prove {
                location: number(location)?,
            }),
            ("range", rest) => {
                let (start, end) = rest.split_once(' ')?;
                Some(Line::ProveRange {
                    start: number(start)?,
                    end: number(end)?,
                })
            }
            _ => None,
        }
    }
}

/// Reads a number.
fn number(word: &str) -> Option<u64> {
    match word.parse::<u64>() {
        Ok(number) => Some(number),
        Err(_) => None,
    }
}
