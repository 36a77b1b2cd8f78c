//! Bytes in which something is altered.

use crate::cases::claim::Case;
use crate::cases::tally::{NONE, Tally};
use crate::columns::Fault;
use commonware_storage::NoMemory;
use commonware_storage::digest::Hasher;
use commonware_storage::merkle::Graftable;
use std::alloc::Global;

/// Counts `bytes` with one byte set to another value. They are left as they were.
fn altered<F: Graftable, H: Hasher>(
    alloc: Global,
    case: &Case<H::Digest>,
    bytes: &mut [u8],
) -> Result<Tally, NoMemory> {
    let mut tally = NONE;
    for index in 0..bytes.len() {
        let byte = bytes[index];
        for change in 1..=255u8 {
            bytes[index] = byte.wrapping_add(change);
            tally.add(case.accepts::<F, H>(alloc, bytes)?);
        }
        bytes[index] = byte;
    }
    Ok(tally)
}

/// Counts the proper beginnings of `bytes`.
fn cut<F: Graftable, H: Hasher>(
    alloc: Global,
    case: &Case<H::Digest>,
    bytes: &[u8],
) -> Result<Tally, NoMemory> {
    let mut tally = NONE;
    for length in 0..bytes.len() {
        tally.add(case.accepts::<F, H>(alloc, &bytes[..length])?);
    }
    Ok(tally)
}

/// Counts `bytes` with one byte more, which is taken away at the end.
fn longer<F: Graftable, H: Hasher>(
    alloc: Global,
    case: &Case<H::Digest>,
    bytes: &mut Vec<u8>,
) -> Result<Tally, NoMemory> {
    let mut tally = NONE;
    for byte in 0..=255u8 {
        bytes.push(byte)?;
        tally.add(case.accepts::<F, H>(alloc, bytes)?);
        bytes.pop();
    }
    Ok(tally)
}

/// Returns the text of an answer, and of what was accepted where a byte is altered, where they are cut short, and where there is a
/// byte more.
fn told(
    alloc: Global,
    yes: bool,
    altered: Tally,
    cut: Tally,
    longer: Tally,
) -> Result<String, Fault> {
    let answer = if yes { "yes" } else { "no" };
    Ok(format!(in alloc;
        "{answer}; accepted are {} of {} with a byte altered, {} of {} cut short, {} of {} with a byte more",
        altered.accepted, altered.tried, cut.accepted, cut.tried, longer.accepted, longer.tried
    )?)
}

/// Returns what is answered for `bytes` as they are, and how many of the altered ones are accepted.
pub fn report<F: Graftable, H: Hasher>(
    alloc: Global,
    case: &Case<H::Digest>,
    bytes: &mut Vec<u8>,
) -> Result<String, Fault> {
    let yes = case.accepts::<F, H>(alloc, bytes)?;
    let altered = altered::<F, H>(alloc, case, bytes)?;
    let cut = cut::<F, H>(alloc, case, bytes)?;
    let longer = longer::<F, H>(alloc, case, bytes)?;
    told(alloc, yes, altered, cut, longer)
}
