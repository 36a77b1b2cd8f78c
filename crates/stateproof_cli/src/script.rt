//! What a database is told and asked, a line of standard input for each.

ghost use Rattle.std.specs.Prelude.{◌≡◌, Ok, IfSome};
ghost use Rattle.hex.specs.Hex.{decode_sized};
ghost use Rattle.stateproof_cli.specs.Words.{IsStepLine};

use crate::Fault;
use crate::command::number;
use crate::lines::Lines;
use hex::FromHex;
use std::alloc::Global;
use std::io::Read;
use storage_codec::codec::FixedBytes;

/// A key of the program's databases.
pub(crate) type Key = FixedBytes<4>;

/// What a database is told, or asked.
#[derive(Clone, Copy, Debug, PartialEq, Eq)]
pub(crate) enum Step {
    /// A key gets a value.
    Put { key: Key, value: u64 },
    /// A key loses its value.
    Delete { key: Key },
    /// What was put and deleted is committed, without metadata.
    Commit,
    /// Which value has a key at the last commit, and what proves it?
    Value { key: Key },
    /// What proves that a key has no value at the last commit?
    Absence { key: Key },
}

impl Step {
    /// Returns the step that `line` writes: words with one blank between them. None where it writes no step; that this
    /// is said of no other line is only tested.
    fn parse(line: &str) -> Option<Step>
        ensures { IfSome result (IsStepLine line.now) }
    {
        if line == "commit" {
            return Some(Step::Commit);
        }
        let (word, rest) = line.split_once(' ')?;
        match word {
            "put" => {
                let (spelled, value) = rest.split_once(' ')?;
                let key = key(spelled)?;
                let value = number(value)?;
                Some(Step::Put { key, value })
            }
            "delete" => Some(Step::Delete { key: key(rest)? }),
            "value" => Some(Step::Value { key: key(rest)? }),
            "absence" => Some(Step::Absence { key: key(rest)? }),
            _ => None,
        }
    }
}

/// Returns the key that `word` writes in 8 hexadecimal digits, in either case.
fn key(word: &str) -> Option<Key>
    ensures { IfSome result (λ key. decode_sized word.now 4 ≡ Ok key.bytes) }
{
    let bytes = <[u8; 4] as FromHex>::from_hex(word).ok()?;
    Some(FixedBytes { bytes })
}

/// Returns the steps on the lines of `input`.
pub(crate) fn steps<R: Read + Drop>(alloc: Global, input: R) -> Result<Vec<Step>, Fault> {
    let mut steps = Vec::new(alloc);
    let mut lines = Lines::of(alloc, input)?;
    for number in 1..u64::MAX {
        if !lines.advance()? {
            return Ok(steps);
        }
        match step_of(lines.line()) {
            Some(step) => steps.push(step)?,
            None => return Err(lines.fault(number)),
        }
    }
    Err(Fault::Memory)
}

/// Returns the step that the bytes of a line write.
fn step_of(line: &[u8]) -> Option<Step> {
    Step::parse(str::from_utf8(line).ok()?)
}
