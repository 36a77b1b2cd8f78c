//! Bytes that are said to prove something, checked many times: as they are, for the time that it takes, or with each byte altered.

mod altered;
mod claim;
mod operations;
mod relocated;
mod tally;

use crate::columns::{Fault, number};
use bytes::Bytes;
use claim::{Case, Claim};
use commonware_storage::NoMemory;
use commonware_storage::digest::{Hasher, Sha256, Sha512};
use commonware_storage::light::check_operation_shared;
use commonware_storage::merkle::{Graftable, Location, mmb, mmr};
use std::alloc::Global;

/// What is done with a case.
#[derive(Clone, Copy, Drop)]
enum Work {
    /// Its bytes are altered.
    Alter,
    /// It is checked so often.
    Repeat(u64),
    /// It is checked so often, as shared bytes that are lent anew.
    Share(u64),
}

/// Returns how many of `count` checks of `bytes` answer yes.
fn repeated<F: Graftable, H: Hasher>(
    alloc: Global,
    case: &Case<H::Digest>,
    bytes: &[u8],
    count: u64,
) -> Result<u64, NoMemory> {
    let mut accepted = 0u64;
    for _ in 0..count {
        if case.accepts::<F, H>(alloc, bytes)? {
            accepted = accepted.saturating_add(1);
        }
    }
    Ok(accepted)
}

/// Returns the same of the proof of an operation as shared bytes.
fn shared<F: Graftable, H: Hasher>(
    alloc: Global,
    case: &Case<H::Digest>,
    bytes: &[u8],
    count: u64,
) -> Result<u64, Fault> {
    let Claim::Proof(place, operation) = &case.claim else {
        return Err(Fault::Malformed);
    };
    let (size, loc) = (place.chunk_size, Location::<F>::new(place.location));
    let proof = Bytes::copy_from_slice(alloc, bytes)?;
    let mut accepted = 0u64;
    for _ in 0..count {
        let lent = proof.clone()?;
        if check_operation_shared::<F, H>(alloc, lent, size, loc, operation, &case.root)? {
            accepted = accepted.saturating_add(1);
        }
    }
    Ok(accepted)
}

/// Returns what `work` on a case of the family `F` answers.
fn report<F: Graftable, H: Hasher>(
    alloc: Global,
    work: Work,
    case: &Case<H::Digest>,
    bytes: &mut Vec<u8>,
) -> Result<String, Fault> {
    let (accepted, count) = match work {
        Work::Alter => return altered::report::<F, H>(alloc, case, bytes),
        Work::Repeat(count) => (repeated::<F, H>(alloc, case, bytes, count)?, count),
        Work::Share(count) => (shared::<F, H>(alloc, case, bytes, count)?, count),
    };
    Ok(format!(in alloc; "accepted {accepted} times of {count}")?)
}

/// Returns what `work` on a case of that kind over the digest function `H` answers, whose columns begin with the
/// family.
fn over<H: Hasher>(
    alloc: Global,
    work: Work,
    kind: &str,
    columns: &[&str],
) -> Result<String, Fault> {
    let [family, columns @ ..] = columns else {
        return Err(Fault::Malformed);
    };
    let (case, mut bytes) = Case::<H::Digest>::parse(alloc, kind, columns)?;
    match *family {
        "mmr" => report::<mmr::Family, H>(alloc, work, &case, &mut bytes),
        "mmb" => report::<mmb::Family, H>(alloc, work, &case, &mut bytes),
        _ => Err(Fault::Malformed),
    }
}

/// Returns the line to print for a proof of an operation that is checked many times. The words are how each check is
/// given the proof, `repeated` as it is or `shared` as shared bytes that are lent anew, how often, and the columns of a
/// case of the kind `proof` after its name; `sha512` stands before the family where the digests are of SHA-512 and not
/// of SHA-256.
pub fn check(alloc: Global, words: &[&str]) -> Result<String, Fault> {
    let [work, count, columns @ ..] = words else {
        return Err(Fault::Malformed);
    };
    let count = number(*count)?;
    let work = match *work {
        "repeated" => Work::Repeat(count),
        "shared" => Work::Share(count),
        _ => return Err(Fault::Malformed),
    };
    match columns {
        ["sha512", rest @ ..] => over::<Sha512>(alloc, work, "proof", rest),
        columns => over::<Sha256>(alloc, work, "proof", columns),
    }
}

/// Returns the row, the kind and the name of a case over the digest function `H`, and its answer.
fn told<H: Hasher>(alloc: Global, row: &str, columns: &[&str]) -> Result<String, Fault> {
    let [kind, name, rest @ ..] = columns else {
        return Err(Fault::Malformed);
    };
    let answer = match *kind {
        "read" => operations::report(alloc, *name, rest),
        "relocated" => relocated::report(alloc, *name, rest),
        _ => over::<H>(alloc, Work::Alter, *kind, rest),
    };
    let answer = answer?;
    Ok(format!(in alloc; "{row} {kind} {name}: {answer}")?)
}

/// Returns the line to print for a case of a row, whose columns are the kind of the case, its name and more. Its
/// digests are those of SHA-256, but of SHA-512 where `sha512` stands before the kind.
pub fn reply(alloc: Global, row: &str, columns: &[&str]) -> Result<String, Fault> {
    match columns {
        ["sha512", rest @ ..] => {
            let row = format!(in alloc; "{row} sha512")?;
            told::<Sha512>(alloc, row.as_str(), rest)
        }
        columns => told::<Sha256>(alloc, row, columns),
    }
}
