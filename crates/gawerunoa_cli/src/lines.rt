//! Operations that are read from lines.

ghost use Rattle.std.specs.Prelude.{◌≡◌, MatchResult, MatchOption, List, [], ℕ, Bool, IfOk, IfSome, true, false};
ghost use Rattle.std.specs.Io.BufRead.{strip_last};
ghost use Rattle.hex.specs.Hex.{decode_of};
ghost use Rattle.stateproof_cli.specs.Words.{IsOperationLine};
ghost use Rattle.gawerunoa_cli.specs.Rows.{IsReadFrom, IsTaken};

use crate::fault::{Fault, Misfit};
use crate::mark::{Expected, Mark};
use crate::operations::Operations;
use crate::source::Source;
use std::alloc::{AllocError, Global};
use std::io::{self, BufRead, BufReader, Read};
use storage_codec::NoMemory;
use storage_codec::digest::Hasher;
use storage_merkle::merkle::Graftable;

/// What is kept of operations beside the tree over them.
pub(crate) trait Keep {
    /// Keeps what it does of `operation`.
    fn keep(&mut self, operation: &[u8]) -> Result<(), NoMemory>;
}

/// Of no operation anything is kept.
#[derive(Clone, Copy)]
struct Nothing;

impl Keep for Nothing {
    fn keep(&mut self, _operation: &[u8]) -> Result<(), NoMemory> {
        Ok(())
    }
}

/// How many bytes are read at once.
pub(crate) const READ_AT_ONCE: usize = 65_536;

/// Reads the operations on the lines of `input`, which is `source`: a line ends at its LF, and what follows the last LF
/// is a line if it is not empty.
///
/// # Errors
///
/// The first of: `Line` of the first line that writes no operation; `Unread` if the input can't be read up to it;
/// `Memory`, which may come at any point.
pub fn read_operations<'a, F: Graftable, H: Hasher, R: Read + Drop>(
    alloc: Global,
    source: Source<'a>,
    input: R,
) -> Result<Operations<F, H>, Fault<'a>>
    ensures { IfOk result (λ it. IfSome (R.remaining input) (λ text.
        IsReadFrom H.hash_of F.shape text it.tree it.bits.items)) }
{
    read_kept(alloc, source, input, &mut Nothing)
}

/// Reads the same, and keeps each operation in `kept`.
pub(crate) fn read_kept<'a, F: Graftable, H: Hasher, R: Read + Drop, K: Keep>(
    alloc: Global,
    source: Source<'a>,
    input: R,
    kept: &mut K,
) -> Result<Operations<F, H>, Fault<'a>>
    ensures { IfOk result (λ it. IfSome (R.remaining input) (λ text.
        IsReadFrom H.hash_of F.shape text it.tree it.bits.items)) }
{
    match BufReader::with_capacity(alloc, READ_AT_ONCE, input) {
        Ok(mut input) => read_lines(alloc, source, &mut input, kept),
        Err(_) => Err(Fault::Memory),
    }
}

/// Reads the operations on the lines that `input` has left.
fn read_lines<'a, F: Graftable, H: Hasher, B: BufRead, K: Keep>(
    alloc: Global,
    source: Source<'a>,
    input: &mut B,
    kept: &mut K,
) -> Result<Operations<F, H>, Fault<'a>>
    ensures { IfOk result (λ it. IfSome (B.remaining input.old) (λ text.
        IsReadFrom H.hash_of F.shape text it.tree it.bits.items)) }
{
    let mut operations = Operations::new(alloc);
    let mut line = Vec::new(alloc);
    let mut operation = Vec::new(alloc);
    for number in 1..u64::MAX {
        match advance(input, &mut line) {
            Ok(true) => {}
            Ok(false) => return Ok(operations),
            Err(error) => return Err(Fault::unread(source, error)),
        }
        match parse_operation(&line, &mut operation)? {
            Some(active) => {
                operations.add(active, &operation)?;
                kept.keep(&operation)?;
            }
            None => {
                let mark = mark_of(&line);
                return Err(Fault::Misfit(source, Misfit::Line { number, mark }));
            }
        }
    }
    Err(Fault::Memory)
}

/// Puts the next line of `input` in the place of `line`, its LF left out, and answers whether there is one.
pub(crate) fn advance<B: BufRead>(input: &mut B, line: &mut Vec<u8>) -> io::Result<bool>
    ensures line { IfOk result (λ more. more ≡ true
        → IsTaken line.new.items (B.remaining input.old) (B.remaining input.new)) }
    ensures end { IfOk result (λ more. more ≡ false
        → IfSome (B.remaining input.old) (λ rest. rest ≡ [])) }
{
    line.clear();
    let count = input.read_until(b'\n', line)?;
    drop_end(line);
    Ok(count > 0)
}

/// Drops the LF at the end of `line`, if there is one.
fn drop_end(line: &mut Vec<u8>)
    ensures { line.new.items ≡ strip_last 10 line.old.items }
{
    if line.last() == Some(&b'\n') {
        line.pop();
    }
}

/// Reads `line`: `0` or `1`, one blank, and hexadecimal of at least one byte. Answers the bit, and puts the bytes in the
/// place of those in `operation`. None where the line is none such, and then `operation` may hold anything.
pub fn parse_operation(line: &[u8], operation: &mut Vec<u8>) -> Result<Option<bool>, NoMemory>
    ensures { IfOk result (λ found. MatchOption found ((active : Bool) (bytes : List ℕ)
        → IsOperationLine line.now active bytes → ⊥)
        (λ active. IsOperationLine line.now active operation.new.items)) }
{
    let (active, digits) = match line {
        [b'0', b' ', digits @ ..] => (false, digits),
        [b'1', b' ', digits @ ..] => (true, digits),
        _ => return Ok(None),
    };
    if decode(digits, operation)? && !operation.is_empty() {
        Ok(Some(active))
    } else {
        Ok(None)
    }
}

/// Puts the bytes that `digits` spell in hexadecimal in the place of those in `bytes`, and answers whether they spell any.
/// Where they do not, `bytes` may hold anything.
pub(crate) fn decode(digits: &[u8], bytes: &mut Vec<u8>) -> Result<bool, AllocError>
    ensures { IfOk result (λ whole. MatchResult (decode_of digits.now) (λ spelled. (whole ≡ true)
        × (bytes.new.items ≡ spelled)) (λ _. whole ≡ false)) }
{
    bytes.resize(digits.len() / 2, 0)?;
    Ok(hex::decode_to_slice(digits, bytes.as_mut_slice()).is_ok())
}

/// Returns the first mark of `line`, which writes no operation.
fn mark_of(line: &[u8]) -> Mark {
    match line {
        [b'0' | b'1', b' ', digits @ ..] => Mark::of_digits(digits, 3),
        [b'0' | b'1', rest @ ..] => Mark {
            column: 2,
            expected: Expected::Blank,
            found: rest.first().copied(),
        },
        line => Mark {
            column: 1,
            expected: Expected::Bit,
            found: line.first().copied(),
        },
    }
}
