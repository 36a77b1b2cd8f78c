//! Lists of byte strings that are read from lines.

ghost use Rattle.std.specs.Prelude.{◌≡◌, ◌∷◌, ◌++◌, [], length, MatchResult, IfOk, true, false};
ghost use Rattle.hex.specs.Hex.{decode_of};

use crate::fault::{Fault, Misfit};
use crate::lines::{READ_AT_ONCE, advance, decode};
use crate::mark::Mark;
use crate::source::Source;
use std::alloc::{AllocError, Global};
use std::io::{BufReader, Read};

/// Byte strings, joined, and the length of each.
#[derive(Drop)]
pub struct Strings {
    /// The strings, one after another.
    pub bytes: Vec<u8>,
    /// How many bytes each has.
    pub lengths: Vec<usize>,
}

impl Strings {
    /// Returns no strings. Allocates nothing.
    pub fn new(alloc: Global) -> Self
        ensures bytes { result.bytes.items ≡ [] }
        ensures lengths { result.lengths.items ≡ [] }
    {
        Strings {
            bytes: Vec::new(alloc),
            lengths: Vec::new(alloc),
        }
    }

    /// Adds the string that `digits` spell in hexadecimal, by way of `string`, and answers whether they spell one. Where
    /// they do not nothing is added.
    pub fn add(&mut self, digits: &[u8], string: &mut Vec<u8>) -> Result<bool, AllocError>
        ensures { IfOk result (λ whole. MatchResult (decode_of digits.now)
            (λ spelled. (whole ≡ true) × (self.new.bytes.items ≡ self.old.bytes.items ++ spelled)
            × (self.new.lengths.items ≡ self.old.lengths.items ++ length spelled ∷ []))
            (λ _. whole ≡ false)) }
    {
        if !decode(digits, string)? {
            return Ok(false);
        }
        self.bytes.extend_from_slice(string)?;
        self.lengths.push(string.len())?;
        Ok(true)
    }
}

/// Reads the strings on the lines of `input`, which is `source`: each line is the hexadecimal of one.
pub(crate) fn read_strings<'a, R: Read>(
    alloc: Global,
    source: Source<'a>,
    input: &mut R,
) -> Result<Strings, Fault<'a>> {
    let Ok(mut input) = BufReader::with_capacity(alloc, READ_AT_ONCE, input) else {
        return Err(Fault::Memory);
    };
    let mut strings = Strings::new(alloc);
    let mut line = Vec::new(alloc);
    let mut string = Vec::new(alloc);
    for number in 1..u64::MAX {
        match advance(&mut input, &mut line) {
            Ok(true) => {}
            Ok(false) => return Ok(strings),
            Err(error) => return Err(Fault::unread(source, error)),
        }
        if !strings.add(&line, &mut string)? {
            let mark = Mark::of_digits(&line, 1);
            return Err(Fault::Misfit(source, Misfit::Line { number, mark }));
        }
    }
    Err(Fault::Memory)
}
