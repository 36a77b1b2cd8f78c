//! Why a call of a database was refused.

ghost use Rattle.std.specs.Prelude.{◌≡◌};
ghost use Rattle.storage_db.specs.declared.db.error.Error.TheVariants.{Memory};

use std::alloc::{AllocError, AllocFailed};
use storage_codec::NoMemory;
use storage_merkle::merkle::Location;

/// Why a call of a database over a family `F` of trees was refused. After any refusal the database is as it was.
#[derive(Drop, thiserror::Error)]
#[derive_where(Clone, Copy, Debug, PartialEq, Eq)]
pub enum Error<F> {
    /// Nothing is committed yet.
    #[error("nothing is committed")]
    NotCommitted,
    /// The key has no value.
    #[error("the key has no value")]
    Absent,
    /// The key has a value.
    #[error("the key has a value")]
    Present,
    /// There would be more operations than a tree may have, 2^62; how many there are.
    #[error("no room after {0} operations")]
    Full(Location<F>),
    /// The location is not of an operation of the last commit.
    #[error("no operation of the last commit at {0}")]
    RangeOutOfBounds(Location<F>),
    /// The operation at the location is forgotten.
    #[error("the operation at {0} is forgotten")]
    Pruned(Location<F>),
    /// Out of memory.
    #[error("out of memory")]
    Memory,
}

impl<F> From<AllocError> for Error<F> {
    ghost from_gives = { λ _ e. e ≡ Memory };

    fn from(_error: AllocError) -> Error<F> {
        Error::Memory
    }
}

impl<F, T: Drop> From<AllocFailed<T>> for Error<F> {
    ghost from_gives = { λ _ e. e ≡ Memory };

    fn from(_error: AllocFailed<T>) -> Error<F> {
        Error::Memory
    }
}

impl<F> From<NoMemory> for Error<F> {
    ghost from_gives = { λ _ e. e ≡ Memory };

    fn from(_error: NoMemory) -> Error<F> {
        Error::Memory
    }
}
