//! The lines of standard input.

ghost use Rattle.std.specs.Prelude.{◌≡◌, MatchResult, MatchOption, List, ℕ, Bool, IfOk, true, false};
ghost use Rattle.hex.specs.Hex.{decode_of};
ghost use Rattle.storage_bitmap.specs.Chunks.{IsChunkSize, bit_count};
ghost use Rattle.stateproof_cli.specs.Words.{IsOperationLine};
ghost use Rattle.stateproof_cli.specs.declared.fault.Fault.TheVariants.{Memory};

use crate::Fault;
use std::alloc::{AllocError, Global};
use std::io::{BufRead, BufReader, Read};
use storage_bitmap::bitmap::{Prunable, Readable};
use storage_codec::codec::{Read as _, UInt, Write};
use storage_codec::digest::Sha256;
use storage_current::qmdb::current::{OperationTree, Snapshot};
use storage_merkle::merkle::{ElementPlan, Graftable, Location, MAX_LEAVES};

/// Reads `line`: `0` or `1`, one blank, and hexadecimal of at least one byte. Answers the bit, and puts the bytes in the
/// place of those in `bytes`. None where the line is none such, and then `bytes` may hold anything.
pub(crate) fn parse_operation(line: &[u8], bytes: &mut Vec<u8>) -> Result<Option<bool>, Fault>
    ensures { MatchResult result (λ found. MatchOption found ((active : Bool) (bytes : List ℕ)
        → IsOperationLine line.now active bytes → ⊥)
        (λ active. IsOperationLine line.now active bytes.new.items)) (λ fault. fault ≡ Memory) }
{
    let (active, digits) = match line {
        [b'0', b' ', digits @ ..] => (false, digits),
        [b'1', b' ', digits @ ..] => (true, digits),
        _ => return Ok(None),
    };
    if decode(digits, bytes)? && !bytes.is_empty() {
        Ok(Some(active))
    } else {
        Ok(None)
    }
}

/// Puts the bytes that `digits` spell in hexadecimal in the place of those in `bytes`, and answers whether they spell any.
/// Where they do not, `bytes` may hold anything.
fn decode(digits: &[u8], bytes: &mut Vec<u8>) -> Result<bool, AllocError>
    ensures { IfOk result (λ whole. MatchResult (decode_of digits.now) (λ spelled. (whole ≡ true)
        × (bytes.new.items ≡ spelled)) (λ _. whole ≡ false)) }
{
    bytes.resize(digits.len() / 2, 0)?;
    Ok(hex::decode_to_slice(digits, bytes.as_mut_slice()).is_ok())
}

/// How many bytes are read at once.
const READ_AT_ONCE: usize = 65_536;

/// The lines of an input, one at a time. A line ends at its LF, and what follows the last LF is a line if it is not
/// empty.
#[derive(Drop)]
pub(crate) struct Lines<R> {
    input: BufReader<R>,
    line: Vec<u8>,
}

impl<R: Read + Drop> Lines<R> {
    /// Returns the lines of `input`, before the first one.
    pub(crate) fn of(alloc: Global, input: R) -> Result<Lines<R>, Fault> {
        match BufReader::with_capacity(alloc, READ_AT_ONCE, input) {
            Ok(input) => Ok(Lines {
                input,
                line: Vec::new(alloc),
            }),
            Err(_) => Err(Fault::Memory),
        }
    }

    /// Goes on to the next line, and answers whether there is one.
    pub(crate) fn advance(&mut self) -> Result<bool, Fault> {
        self.line.clear();
        match self.input.read_until(b'\n', &mut self.line) {
            Ok(count) => Ok(count > 0),
            Err(error) => Err(Fault::of_input(&error)),
        }
    }

    /// Returns the line, its LF left out.
    pub(crate) fn line(&self) -> &[u8] {
        match self.line.as_slice() {
            [line @ .., b'\n'] => line,
            line => line,
        }
    }

    /// Returns the fault where line number `number` is bad and those before it are not: that line; but the input comes
    /// first, where this line or what follows it can't be read or is not UTF-8.
    pub(crate) fn fault(mut self, number: u64) -> Fault {
        for _ in 0..u64::MAX {
            if str::from_utf8(&self.line).is_err() {
                return Fault::Input;
            }
            match self.advance() {
                Ok(true) => {}
                Ok(false) => return Fault::Line(number),
                Err(fault) => return fault,
            }
        }
        Fault::Memory
    }
}

/// Operations, and a bit for each.
#[derive(Drop)]
pub struct Operations<const N: usize> {
    /// The operations one behind the other, each with its length in front.
    written: Vec<u8>,
    bits: Prunable<N>,
}

impl<const N: usize> Operations<N> {
    /// Reads operations and their bits from `input`, a line for each.
    pub fn read<R: Read + Drop>(alloc: Global, input: R) -> Result<Operations<N>, Fault>
        requires { IsChunkSize N }
    {
        let mut operations = Operations {
            written: Vec::new(alloc),
            bits: Prunable::new(alloc),
        };
        let mut lines = Lines::of(alloc, input)?;
        let mut bytes = Vec::new(alloc);
        for number in 1..u64::MAX {
            if !lines.advance()? {
                return Ok(operations);
            }
            match parse_operation(lines.line(), &mut bytes)? {
                Some(active) => operations.push(active, &bytes)?,
                None => return Err(lines.fault(number)),
            }
        }
        Err(Fault::Memory)
    }

    /// Adds the operation `bytes` with its bit `active`. More than `MAX_LEAVES` of them fit in no memory.
    fn push(&mut self, active: bool, bytes: &Vec<u8>) -> Result<(), Fault> {
        if self.bits.len() >= MAX_LEAVES {
            return Err(Fault::Memory);
        }
        bytes.write(&mut self.written)?;
        self.bits.push(active)?;
        Ok(())
    }

    /// Returns the plan of a proof of the operation at `location`.
    pub fn plan<F: Graftable>(
        &self,
        alloc: Global,
        location: u64,
    ) -> Result<ElementPlan<F>, Fault> {
        let leaves = Location::new(self.bits.len());
        match ElementPlan::new(alloc, leaves, Location::new(location)) {
            Ok(plan) => Ok(plan),
            Err(error) => Err(Fault::of_plan(&error)),
        }
    }

    /// Returns the snapshot of the operations with the floor `floor`. Where that is past them, it is refused before a
    /// tree is hashed.
    pub fn snapshot<F: Graftable>(
        self,
        alloc: Global,
        floor: u64,
    ) -> Result<Snapshot<F, Sha256, N>, Fault> {
        let Operations { written, bits } = self;
        if floor > bits.len() {
            return Err(Fault::Range);
        }
        let tree = tree_over::<F>(alloc, &written, bits.len())?;
        drop(written);
        match Snapshot::of_tree(alloc, tree, bits, Location::new(floor)) {
            Ok(snapshot) => Ok(snapshot),
            Err(error) => Err(Fault::of_snapshot(&error)),
        }
    }
}

/// Returns the tree over `count` byte strings that stand in `written` one behind the other, each with its length in
/// front. They are lent one by one, and not copied.
fn tree_over<F: Graftable>(
    alloc: Global,
    written: &[u8],
    count: u64,
) -> Result<OperationTree<F, Sha256>, Fault> {
    let mut tree = OperationTree::new(alloc);
    let mut rest = written;
    for _ in 0..count {
        let Some((string, after)) = first(alloc, rest) else {
            break;
        };
        if tree.add(string).is_err() {
            return Err(Fault::Memory);
        }
        rest = after;
    }
    Ok(tree)
}

/// Returns the first of the byte strings that stand in `written` one behind the other, each with its length in front,
/// and what follows it; none if none is whole.
fn first<'a>(alloc: Global, written: &'a [u8]) -> Option<(&'a [u8], &'a [u8])> {
    let mut rest = written;
    let UInt(length) = UInt::read_cfg(alloc, &mut rest, &()).ok()?;
    rest.split_at_checked(length as usize)
}
