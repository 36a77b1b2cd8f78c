//! What bytes are said to prove, and what they are checked against.

use crate::columns::{Fault, bytes, digest, number};
use commonware_storage::NoMemory;
use commonware_storage::codec::{Decode, Error, FixedBytes};
use commonware_storage::digest::{Digest, Hasher};
use commonware_storage::light::{check_absence, check_operation, check_value};
use commonware_storage::merkle::{Graftable, Location};
use commonware_storage::qmdb::any::FixedEncoding;
use commonware_storage::qmdb::current::proof::OpsRootWitness;
use hex::FromHex;
use std::alloc::Global;

type Key = FixedBytes<4>;

/// A location, and how many bytes the chunk of a proof of it has.
#[derive(Clone, Copy, Drop)]
pub struct Place {
    pub chunk_size: usize,
    pub location: u64,
}

impl Place {
    fn parse(chunk_size: &str, location: &str) -> Result<Place, Fault> {
        Ok(Place {
            chunk_size: number(chunk_size)? as usize,
            location: number(location)?,
        })
    }
}

/// What the bytes are, and what else is claimed.
#[derive(Drop)]
pub enum Claim<D> {
    /// The proof of an operation, which has these bytes.
    Proof(Place, Vec<u8>),
    /// The operation, whose proof has these bytes.
    Operation(Place, Vec<u8>),
    /// The witness that this is the operations root.
    Witness(D),
    /// The proof, over a chunk of that size, that the key has the value.
    Value(usize, Key, u64),
    /// The proof, over a chunk of that size, that the key has no value.
    Absence(usize, Key),
}

impl<D: Digest> Claim<D> {
    /// Reads `columns`, those between the family and the bytes, for the kind of bytes `kind`.
    fn parse(alloc: Global, kind: &str, columns: &[&str]) -> Result<Self, Fault> {
        match (kind, columns) {
            ("proof" | "operation", [size, location, column]) => {
                Self::at(alloc, kind, *size, *location, *column)
            }
            ("witness", [ops_root]) => Ok(Claim::Witness(digest(alloc, *ops_root)?)),
            ("value", [size, key, value]) => Self::of_value(*size, *key, *value),
            ("absence", [size, key]) => Self::of_absence(*size, *key),
            _ => Err(Fault::Malformed),
        }
    }

    /// Reads the proof of an operation at a place, or an operation: that which `kind` does not name is in `column`.
    fn at(
        alloc: Global,
        kind: &str,
        size: &str,
        location: &str,
        column: &str,
    ) -> Result<Self, Fault> {
        let place = Place::parse(size, location)?;
        let bytes = bytes(alloc, column)?;
        match kind {
            "proof" => Ok(Claim::Proof(place, bytes)),
            _ => Ok(Claim::Operation(place, bytes)),
        }
    }

    /// Reads that a key has a value.
    fn of_value(size: &str, key: &str, value: &str) -> Result<Self, Fault> {
        Ok(Claim::Value(number(size)? as usize, key_of(key)?, number(value)?))
    }

    /// Reads that a key has no value.
    fn of_absence(size: &str, key: &str) -> Result<Self, Fault> {
        Ok(Claim::Absence(number(size)? as usize, key_of(key)?))
    }
}

/// A claim of the snapshot with a root.
#[derive(Drop)]
pub struct Case<D> {
    pub claim: Claim<D>,
    pub root: D,
}

impl<D: Digest> Case<D> {
    /// Reads `columns`, those of a line after the family, for the kind of bytes `kind`: the claim, and the bytes.
    pub fn parse(alloc: Global, kind: &str, columns: &[&str]) -> Result<(Self, Vec<u8>), Fault> {
        match (kind, columns) {
            ("operation", [size, location, operation, proof, root]) => {
                let columns = [*size, *location, *proof];
                Self::of_bytes(alloc, kind, &columns, *operation, *root)
            }
            (_, [columns @ .., bytes, root]) => {
                Self::of_bytes(alloc, kind, columns, *bytes, *root)
            }
            _ => Err(Fault::Malformed),
        }
    }

    /// Reads what is claimed of the column of the bytes, and the bytes.
    fn of_bytes(
        alloc: Global,
        kind: &str,
        columns: &[&str],
        column: &str,
        root: &str,
    ) -> Result<(Self, Vec<u8>), Fault> {
        let root = digest(alloc, root)?;
        let claim = Claim::parse(alloc, kind, columns)?;
        let bytes = bytes(alloc, column)?;
        Ok((Case { claim, root }, bytes))
    }

    /// Returns what a client answers that is given `bytes` in the place of the case's own.
    pub fn accepts<F: Graftable, H: Hasher<Digest = D>>(
        &self,
        alloc: Global,
        bytes: &[u8],
    ) -> Result<bool, NoMemory> {
        let root = &self.root;
        match &self.claim {
            Claim::Proof(place, operation) => {
                has_operation::<F, H>(alloc, bytes, *place, operation, root)
            }
            Claim::Operation(place, proof) => {
                has_operation::<F, H>(alloc, proof, *place, bytes, root)
            }
            Claim::Witness(ops_root) => witnessed::<F, H>(alloc, bytes, ops_root, root),
            Claim::Value(size, key, value) => {
                has_value::<F, H>(alloc, bytes, *size, *key, *value, root)
            }
            Claim::Absence(size, key) => has_no_value::<F, H>(alloc, bytes, *size, key, root),
        }
    }
}

/// Returns a key in hexadecimal.
fn key_of(column: &str) -> Result<Key, Fault> {
    match <[u8; 4] as FromHex>::from_hex(column) {
        Ok(bytes) => Ok(Key { bytes }),
        Err(_) => Err(Fault::Malformed),
    }
}

/// Returns whether `proof` is one of an operation at a place in the snapshot with the root `root`.
fn has_operation<F: Graftable, H: Hasher>(
    alloc: Global,
    proof: &[u8],
    place: Place,
    operation: &[u8],
    root: &H::Digest,
) -> Result<bool, NoMemory> {
    let loc = Location::<F>::new(place.location);
    check_operation::<F, H>(alloc, proof, place.chunk_size, loc, operation, root)
}

/// Returns whether `proof`, over a chunk of that size, is one that a key has a value there.
fn has_value<F: Graftable, H: Hasher>(
    alloc: Global,
    proof: &[u8],
    size: usize,
    key: Key,
    value: u64,
    root: &H::Digest,
) -> Result<bool, NoMemory> {
    check_value::<F, H, Key, FixedEncoding<u64>>(alloc, proof, size, &(), key, value, root)
}

/// Returns whether `proof`, over a chunk of that size, is one that a key has no value there.
fn has_no_value<F: Graftable, H: Hasher>(
    alloc: Global,
    proof: &[u8],
    size: usize,
    key: &Key,
    root: &H::Digest,
) -> Result<bool, NoMemory> {
    check_absence::<F, H, Key, FixedEncoding<u64>>(alloc, proof, size, &((), ()), key, root)
}

/// Returns whether `bytes` are a witness that the snapshot with the root `root` has that operations root.
fn witnessed<F: Graftable, H: Hasher>(
    alloc: Global,
    bytes: &[u8],
    ops_root: &H::Digest,
    root: &H::Digest,
) -> Result<bool, NoMemory> {
    match OpsRootWitness::<F, H::Digest>::decode_cfg(alloc, bytes, &()) {
        Ok(witness) => Ok(witness.verify::<H>(ops_root, root)),
        Err(Error::Memory) => Err(NoMemory),
        Err(_) => Ok(false),
    }
}
