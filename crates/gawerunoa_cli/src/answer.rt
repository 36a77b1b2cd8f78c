//! What is answered, and with which exit status.

ghost use Rattle.std.specs.Prelude.{◌≤◌};
ghost use Rattle.storage_bitmap.specs.Chunks.{IsChunkSize};

use crate::check::is_shown;
use crate::claim::Claim;
use crate::fault::Fault;
use crate::hexadecimal::{bytes_given, read_claim};
use crate::lines::read_operations;
use crate::mistake::{Mistake, REFUSED};
use crate::request::{Check, Format, Snapshot, with_lengths};
use crate::shown::{Refusal, Shown, show};
use crate::source::Source;
use light_questions::agreement::Agreed as Database;
use light_questions::answer::Fault as Refused;
use std::alloc::{AllocError, Global};
use std::fs;
use std::io::{self, Read, Write};
use std::rt::Files;
use storage_codec::digest::{Digest, Hasher};
use storage_merkle::merkle::Graftable;

/// What the program writes, and its exit status.
#[derive(Drop)]
pub(crate) struct Answer {
    /// What is written on standard output.
    pub text: String,
    /// The exit status: 0, or 1 for a no; 3 where a line is at fault.
    pub status: u8,
    ghost answers: { status ≤ 3 },
}

impl Answer {
    /// Returns that nothing is written, with status 0. Allocates nothing.
    pub fn nothing(alloc: Global) -> Answer {
        Answer {
            text: String::new(alloc),
            status: 0,
        }
    }
}

/// The greatest number of bytes of a chunk that a snapshot is made with. A check takes each size that there is.
pub(crate) const MOST_CHUNK: usize = 4096;

/// Reads the operations of `snapshot`, and returns what is shown of them.
pub(crate) fn read<'a, F: Graftable, H: Hasher, R: Files, I: Read + Drop, const N: usize>(
    alloc: Global,
    files: &R,
    snapshot: &Snapshot<'a>,
    at: Option<u64>,
    input: I,
) -> Result<Shown<F, H, N>, Fault<'a>>
    requires { IsChunkSize N }
{
    let source = snapshot.operations;
    let operations = match source {
        Source::Standard => read_operations::<F, H, I>(alloc, source, input)?,
        Source::File(name) => match fs::open(files, name) {
            Ok(file) => read_operations::<F, H, R::File>(alloc, source, file)?,
            Err(error) => return Err(Fault::unread(source, error)),
        },
    };
    let floor = snapshot.floor;
    match show(alloc, operations, floor, at) {
        Ok(shown) => Ok(shown),
        Err(refusal) => Err(fault_of(refusal, floor, at)),
    }
}

/// Returns the lines of what is shown: `root:`, and `proof:` where there is one, each with its bytes in hexadecimal.
pub(crate) fn told<'a, F: Graftable, H: Hasher, const N: usize>(
    alloc: Global,
    format: Format,
    shown: Result<Shown<F, H, N>, Fault<'a>>,
) -> Result<Answer, Fault<'a>> {
    let shown = shown?;
    let root = hex::encode(alloc, shown.snapshot.root().bytes())?;
    let text = match &shown.proof {
        Some(proof) => root_and_proof(alloc, format, &root, proof)?,
        None => root_alone(alloc, format, &root)?,
    };
    Ok(Answer { text, status: 0 })
}

/// Returns the line of a root in hexadecimal.
fn root_alone(alloc: Global, format: Format, root: &String) -> Result<String, AllocError> {
    match format {
        Format::Text => format!(in alloc; "root: {root}\n"),
        Format::Json => format!(in alloc; "{{\"root\":\"{root}\"}}\n"),
    }
}

/// Returns the lines of a root in hexadecimal, and of a proof.
fn root_and_proof(
    alloc: Global,
    format: Format,
    root: &String,
    proof: &[u8],
) -> Result<String, AllocError> {
    let proof = hex::encode(alloc, proof)?;
    match format {
        Format::Text => format!(in alloc; "root: {root}\nproof: {proof}\n"),
        Format::Json => format!(in alloc; "{{\"root\":\"{root}\",\"proof\":\"{proof}\"}}\n"),
    }
}

/// Returns the fault of a refusal, of the floor `floor` and the location `at`.
fn fault_of(refusal: Refusal, floor: u64, at: Option<u64>) -> Fault<'static> {
    match refusal {
        Refusal::Floor(count) => Fault::Question(Mistake::Floor { floor, count }),
        Refusal::Location(count) => Fault::Question(Mistake::Location {
            location: at.unwrap_or(count),
            count,
        }),
        Refusal::Memory => Fault::Memory,
    }
}

/// Returns the answer to a claim: `yes`, or `no` with status 1.
pub(crate) fn checked<'a, R: Files, I: Read + Drop>(
    alloc: Global,
    files: &R,
    check: &Check<'a>,
    format: Format,
    mut input: I,
) -> Result<Answer, Fault<'a>> {
    let claim = read_claim(alloc, files, check.claim, &mut input)?;
    let proof = bytes_given(alloc, files, "proof", check.proof, &mut input)?;
    let yes = decided(alloc, check, &proof, &claim)?;
    Ok(Answer {
        text: answered(alloc, format, yes, &claim)?,
        status: if yes { 0 } else { 1 },
    })
}

/// Returns whether `proof` shows `claim`, of which `check` tells the rest.
fn decided(
    alloc: Global,
    check: &Check<'_>,
    proof: &[u8],
    claim: &Claim,
) -> Result<bool, Fault<'static>> {
    let database = with_size(check.database, claim);
    match is_shown(
        alloc,
        &database,
        check.kind,
        check.root.bytes(),
        proof,
        claim,
    ) {
        Ok(yes) => Ok(yes),
        Err(refusal) => Err(refused(refusal, claim, database.min_value_length)),
    }
}

/// Returns what is agreed of a database where a claim names a value: values have its size.
fn with_size(database: Database, claim: &Claim) -> Database {
    match claim {
        Claim::Value { value, .. } => with_lengths(database, value.len(), value.len()),
        _ => database,
    }
}

/// Returns the line of the answer to a claim that is shown, or that is not.
fn answered(alloc: Global, format: Format, yes: bool, claim: &Claim) -> Result<String, AllocError> {
    let (before, after) = match (format, yes) {
        (Format::Text, true) => ("yes: ", "\n"),
        (Format::Text, false) => ("no: this does not show that ", "\n"),
        (Format::Json, true) => ("{\"answer\":\"yes\",\"claim\":\"", "\"}\n"),
        (Format::Json, false) => ("{\"answer\":\"no\",\"claim\":\"", "\"}\n"),
    };
    format!(in alloc; "{before}{claim}{after}")
}

/// Returns the fault of what is refused of a claim, where values have the size `size`, if they have one.
fn refused(refusal: Refused, claim: &Claim, size: usize) -> Fault<'static> {
    match (refusal, claim) {
        (Refused::Memory, _) => Fault::Memory,
        (Refused::OtherKey, Claim::Value { key, .. } | Claim::Absence { key }) => {
            other_size("key", key.len())
        }
        (Refused::OtherValue, Claim::Value { .. }) => other_size("value", size),
        (Refused::OtherValue, _) => other_size("value-size", size),
        _ => Fault::Question(Mistake::Other(REFUSED)),
    }
}

/// Returns the fault where what `option` gives has `size` bytes, and all have another size.
fn other_size(option: &'static str, size: usize) -> Fault<'static> {
    Fault::Question(Mistake::Sized { option, size })
}

/// Writes all of `text` to `output`.
pub(crate) fn print<O: Write>(output: &mut O, text: &str) -> io::Result<()> {
    output.write_all(text.as_bytes())?;
    output.flush()
}
