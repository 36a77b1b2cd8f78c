//! Words of a line, read.

use commonware_storage::db;
use hex::FromHexError;
use std::alloc::{AllocError, AllocFailed, Global};
use storage_codec::digest::Digest;
use storage_codec::{NoMemory, codec};
use storage_merkle::merkle;

/// Why a line has no answer.
#[derive(Clone, Copy, Debug, Drop)]
pub enum Fault {
    /// The words are not those of any work, or ask for what there is not.
    Malformed,
    Memory,
}

impl From<AllocError> for Fault {
    fn from(_error: AllocError) -> Fault {
        Fault::Memory
    }
}

impl<T: Drop> From<AllocFailed<T>> for Fault {
    fn from(_error: AllocFailed<T>) -> Fault {
        Fault::Memory
    }
}

impl From<NoMemory> for Fault {
    fn from(_error: NoMemory) -> Fault {
        Fault::Memory
    }
}

impl Fault {
    /// Returns the fault of a call on a tree or a bitmap that was refused.
    pub fn of_tree<F>(error: &merkle::Error<F>) -> Fault {
        match error {
            merkle::Error::Memory => Fault::Memory,
            _ => Fault::Malformed,
        }
    }

    /// Returns the fault of a call on a database that was refused.
    pub fn of_database<F>(error: &db::Error<F>) -> Fault {
        match error {
            db::Error::Memory => Fault::Memory,
            _ => Fault::Malformed,
        }
    }
}

/// Returns a number.
pub fn number(column: &str) -> Result<u64, Fault> {
    match column.parse::<u64>() {
        Ok(number) => Ok(number),
        Err(_) => Err(Fault::Malformed),
    }
}

/// Bytes in hexadecimal.
pub fn bytes(alloc: Global, column: &str) -> Result<Vec<u8>, Fault> {
    match hex::decode(alloc, column) {
        Ok(bytes) => Ok(bytes),
        Err(FromHexError::OutOfMemory) => Err(Fault::Memory),
        Err(_) => Err(Fault::Malformed),
    }
}

/// Returns a digest in hexadecimal.
pub fn digest<D: Digest>(alloc: Global, column: &str) -> Result<D, Fault> {
    let bytes = bytes(alloc, column)?;
    match D::decode(alloc, bytes.as_slice()) {
        Ok(digest) => Ok(digest),
        Err(codec::Error::Memory) => Err(Fault::Memory),
        Err(_) => Err(Fault::Malformed),
    }
}
