//! What is given in hexadecimal, read where it is.

use crate::claim::Claim;
use crate::fault::{Fault, Misfit};
use crate::mark::Mark;
use crate::mistake::Mistake;
use crate::request::Claimed;
use crate::source::{Given, Listed, Source};
use crate::strings::{Strings, read_strings};
use serde_json::Value;
use std::alloc::Global;
use std::fs;
use std::io::Read;
use std::rt::Files;

/// Reads what is claimed.
pub(crate) fn read_claim<'a, R: Files, I: Read + Drop>(
    alloc: Global,
    files: &R,
    claim: Claimed<'a>,
    input: &mut I,
) -> Result<Claim, Fault<'a>> {
    match claim {
        Claimed::Operation { at, operation } => Ok(Claim::Operation {
            location: at,
            operation: bytes_given(alloc, files, "operation", operation, input)?,
        }),
        Claimed::Range {
            start,
            operations,
            chunks,
        } => Ok(Claim::Range {
            start,
            operations: strings_listed(alloc, files, operations, input)?,
            chunks: strings_listed(alloc, files, chunks, input)?,
        }),
        Claimed::Value { key, value } => Ok(Claim::Value {
            key: bytes_given(alloc, files, "key", key, input)?,
            value: bytes_given(alloc, files, "value", value, input)?,
        }),
        Claimed::Absence { key } => Ok(Claim::Absence {
            key: bytes_given(alloc, files, "key", key, input)?,
        }),
    }
}

/// Returns the bytes that are given for `option`.
pub(crate) fn bytes_given<'a, R: Files, I: Read>(
    alloc: Global,
    files: &R,
    option: &'static str,
    given: Given<'a>,
    input: &mut I,
) -> Result<Vec<u8>, Fault<'a>> {
    match given {
        Given::Digits(word) => match hex::decode(alloc, word) {
            Ok(bytes) => Ok(bytes),
            Err(hex::FromHexError::OutOfMemory) => Err(Fault::Memory),
            Err(_) => Err(not_digits(option, word)),
        },
        Given::In(source) => match source {
            Source::Standard => bytes_in(alloc, source, input),
            Source::File(name) => match fs::open(files, name) {
                Ok(mut file) => bytes_in(alloc, source, &mut file),
                Err(error) => Err(Fault::unread(source, error)),
            },
        },
    }
}

/// Returns the strings that are given one by one.
fn strings_listed<'a, R: Files, I: Read>(
    alloc: Global,
    files: &R,
    listed: Listed<'a>,
    input: &mut I,
) -> Result<Strings, Fault<'a>> {
    match listed {
        Listed::Array(name, list) => strings_of(alloc, name, list),
        Listed::In(source) => match source {
            Source::Standard => read_strings(alloc, source, input),
            Source::File(name) => match fs::open(files, name) {
                Ok(mut file) => read_strings(alloc, source, &mut file),
                Err(error) => Err(Fault::unread(source, error)),
            },
        },
    }
}

/// Returns the strings that the items of `list` spell, which is the member `name`.
fn strings_of<'a>(
    alloc: Global,
    name: &'static str,
    list: &'a [Value],
) -> Result<Strings, Fault<'a>> {
    let mut strings = Strings::new(alloc);
    let mut string = Vec::new(alloc);
    for item in list {
        let Some(digits) = item.as_str() else {
            return Err(Fault::Question(Mistake::Member {
                name,
                expected: "an array of strings",
            }));
        };
        if !strings.add(digits.as_bytes(), &mut string)? {
            return Err(not_digits(name, digits));
        }
    }
    Ok(strings)
}

/// Returns the bytes that the first line of `source` spells, whose text `input` has. Nothing may follow the line.
fn bytes_in<'a, I: Read>(
    alloc: Global,
    source: Source<'a>,
    input: &mut I,
) -> Result<Vec<u8>, Fault<'a>> {
    let mut text = Vec::new(alloc);
    if let Err(error) = input.read_to_end(&mut text) {
        return Err(Fault::unread(source, error));
    }
    let digits = match text.as_slice() {
        [digits @ .., b'\n'] => digits,
        digits => digits,
    };
    match hex::decode(alloc, digits) {
        Ok(bytes) => Ok(bytes),
        Err(hex::FromHexError::OutOfMemory) => Err(Fault::Memory),
        Err(_) => Err(Fault::Misfit(
            source,
            Misfit::Line {
                number: 1,
                mark: Mark::of_digits(digits, 1),
            },
        )),
    }
}

/// Returns the fault where `word`, of `option`, is not hexadecimal.
fn not_digits(option: &'static str, word: &str) -> Fault<'static> {
    Fault::Question(Mistake::Digits {
        option,
        mark: Mark::of_digits(word.as_bytes(), 1),
    })
}
