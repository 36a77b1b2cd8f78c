//! Why a call over a database was refused.

ghost use Rattle.std.specs.Prelude.{◌≡◌};
ghost use Rattle.storage_ops.specs.declared.qmdb.error.Error.TheVariants.{Memory};

use std::alloc::{AllocError, AllocFailed};
use storage_codec::NoMemory;
use storage_merkle::merkle::{self, Location};

/// Why a call over a database was refused.
#[derive(Drop, thiserror::Error)]
#[derive_where(Clone, Copy, Debug, PartialEq, Eq)]
pub enum Error<F> {
    /// What was handed in does not fit together; the text says why.
    #[error("corrupted: {0}")]
    DataCorrupted(&'static str),
    /// The location of an operation that is not kept.
    #[error("operation {0} is pruned")]
    OperationPruned(Location<F>),
    /// A refusal of a call over the tree of the operations.
    #[error("{0}")]
    Merkle(merkle::Error<F>),
    /// A fault of a log, by the number that the log gave it.
    #[error("log fault {0}")]
    Log(u32),
    /// Out of memory.
    #[error("out of memory")]
    Memory,
}

impl<F> From<AllocError> for Error<F> {
    ghost from_gives = { λ _ e. e ≡ Memory };

    fn from(_error: AllocError) -> Error<F> {
        Error::Memory
    }
}

impl<F, T: Drop> From<AllocFailed<T>> for Error<F> {
    ghost from_gives = { λ _ e. e ≡ Memory };

    fn from(_error: AllocFailed<T>) -> Error<F> {
        Error::Memory
    }
}

impl<F> From<NoMemory> for Error<F> {
    ghost from_gives = { λ _ e. e ≡ Memory };

    fn from(_error: NoMemory) -> Error<F> {
        Error::Memory
    }
}
