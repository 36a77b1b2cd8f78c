//! Operations of a fixed size, read from bytes of which one is altered.

use crate::columns::{Fault, bytes};
use commonware_storage::NoMemory;
use commonware_storage::codec::{Decode, Error, FixedBytes, Read};
use commonware_storage::merkle::mmr;
use commonware_storage::qmdb::any::FixedEncoding;
use commonware_storage::qmdb::any::operation::{Ordered, Unordered};
use std::alloc::Global;

type Key = FixedBytes<4>;

/// How often altered bytes were refused, and read as another operation or as the same one. A count stops at the greatest `u64`.
#[derive(Clone, Copy, Drop)]
struct Counts {
    refusals: u64,
    others: u64,
    same: u64,
}

/// Returns the operation with these bytes; none if they are refused.
fn decoded<O: Read<Cfg = ()>>(alloc: Global, bytes: &[u8]) -> Result<Option<O>, NoMemory> {
    match O::decode_cfg(alloc, bytes, &()) {
        Ok(operation) => Ok(Some(operation)),
        Err(Error::Memory) => Err(NoMemory),
        Err(_) => Ok(None),
    }
}

/// Counts what is read from `bytes`, those of `operation`, with one byte set to another value. They are left as they were.
fn altered<O: Read<Cfg = ()> + PartialEq + Drop>(
    alloc: Global,
    bytes: &mut [u8],
    operation: &O,
) -> Result<Counts, NoMemory> {
    let mut counts = Counts {
        refusals: 0,
        others: 0,
        same: 0,
    };
    for index in 0..bytes.len() {
        let byte = bytes[index];
        for change in 1..=255u8 {
            bytes[index] = byte.wrapping_add(change);
            match decoded::<O>(alloc, bytes)? {
                None => counts.refusals = counts.refusals.saturating_add(1),
                Some(read) if read == *operation => counts.same = counts.same.saturating_add(1),
                Some(_) => counts.others = counts.others.saturating_add(1),
            }
        }
        bytes[index] = byte;
    }
    Ok(counts)
}

/// Returns what is found for the operation of the type `O` with the bytes `bytes`.
fn over<O: Read<Cfg = ()> + PartialEq + Drop>(
    alloc: Global,
    bytes: &mut [u8],
) -> Result<String, Fault> {
    let Some(operation) = decoded::<O>(alloc, bytes)? else {
        return Err(Fault::Malformed);
    };
    let counts = altered::<O>(alloc, bytes, &operation)?;
    Ok(format!(in alloc;
        "refused are {}, another operation are {}, the same operation are {}",
        counts.refusals, counts.others, counts.same
    )?)
}

/// Returns what is found for an operation of a database of ordered keys.
fn ordered(alloc: Global, bytes: &mut [u8]) -> Result<String, Fault> {
    over::<Ordered<mmr::Family, Key, FixedEncoding<u64>>>(alloc, bytes)
}

/// Returns what is found for an operation of a database of unordered keys.
fn unordered(alloc: Global, bytes: &mut [u8]) -> Result<String, Fault> {
    over::<Unordered<mmr::Family, Key, FixedEncoding<u64>>>(alloc, bytes)
}

/// Returns what is found for the operation with the bytes of `columns`, of keys of four bytes and values that are
/// numbers; `kind` is `ordered` or `unordered`.
pub fn report(alloc: Global, kind: &str, columns: &[&str]) -> Result<String, Fault> {
    let [column] = columns else {
        return Err(Fault::Malformed);
    };
    let mut bytes = bytes(alloc, *column)?;
    match kind {
        "ordered" => ordered(alloc, &mut bytes),
        "unordered" => unordered(alloc, &mut bytes),
        _ => Err(Fault::Malformed),
    }
}
