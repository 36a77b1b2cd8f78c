//! Why a call of a stored database was refused.

ghost use Rattle.std.specs.Prelude.{◌≡◌};
ghost use Rattle.storage_stored.specs.declared.error.Error.TheVariants.{Memory};
ghost use Rattle.storage_stored.specs.Refusals.{told_of_database, told_of_file, told_of_open};

use sqlite::{Error as SqlError, ErrorCode};
use std::alloc::{AllocError, AllocFailed};
use storage_db::db::{Error as DatabaseError, OpenError};
use storage_file::Error as FileError;
use storage_merkle::merkle::Location;

/// Why a call of a stored database over a family `F` of trees was refused.
#[derive(Drop, thiserror::Error)]
#[derive_where(Clone, Copy, Debug, PartialEq, Eq)]
pub enum Error<F> {
    /// The file was made for another family, digest function, chunk size or encoding, or in another layout.
    #[error("the file was made for another kind of database")]
    Foreign,
    /// The file keeps no database, or another root than its own.
    #[error("the file keeps no database")]
    Corrupted,
    /// The file refused or failed.
    #[error("{0}")]
    Store(SqlError),
    /// A commit was not stored. The database takes changes again when it is opened again.
    #[error("a commit was not stored: open the database again")]
    Stopped,
    /// Nothing is committed yet.
    #[error("nothing is committed")]
    NotCommitted,
    /// The key has no value.
    #[error("the key has no value")]
    Absent,
    /// The key has a value.
    #[error("the key has a value")]
    Present,
    /// There would be more operations than a tree may have, 2^62; how many there are.
    #[error("no room after {0} operations")]
    Full(Location<F>),
    /// The location is not of an operation of the last commit.
    #[error("no operation of the last commit at {0}")]
    RangeOutOfBounds(Location<F>),
    /// The operation at the location is forgotten.
    #[error("the operation at {0} is forgotten")]
    Pruned(Location<F>),
    /// Out of memory.
    #[error("out of memory")]
    Memory,
}

impl<F> From<DatabaseError<F>> for Error<F> {
    ghost from_gives = { λ e r. r ≡ told_of_database e };

    fn from(error: DatabaseError<F>) -> Error<F> {
        match error {
            DatabaseError::NotCommitted => Error::NotCommitted,
            DatabaseError::Absent => Error::Absent,
            DatabaseError::Present => Error::Present,
            DatabaseError::Full(count) => Error::Full(count),
            DatabaseError::RangeOutOfBounds(start) => Error::RangeOutOfBounds(start),
            DatabaseError::Pruned(start) => Error::Pruned(start),
            DatabaseError::Memory => Error::Memory,
        }
    }
}

impl<F> From<OpenError<F>> for Error<F> {
    ghost from_gives = { λ e r. r ≡ told_of_open e };

    fn from(error: OpenError<F>) -> Error<F> {
        match error {
            OpenError::NotALog(_) => Error::Corrupted,
            OpenError::Memory => Error::Memory,
        }
    }
}

impl<F> From<FileError> for Error<F> {
    ghost from_gives = { λ e r. r ≡ told_of_file e };

    fn from(error: FileError) -> Error<F> {
        match error {
            FileError::Foreign => Error::Foreign,
            FileError::Corrupted => Error::Corrupted,
            FileError::Full => Error::Store(SqlError::SqliteFailure(ErrorCode::TooBig)),
            FileError::Store(error) => Error::Store(error),
            FileError::Memory => Error::Memory,
        }
    }
}

impl<F> From<AllocError> for Error<F> {
    ghost from_gives = { λ _ e. e ≡ Memory };

    fn from(_error: AllocError) -> Error<F> {
        Error::Memory
    }
}

impl<F, T: Drop> From<AllocFailed<T>> for Error<F> {
    ghost from_gives = { λ _ e. e ≡ Memory };

    fn from(_error: AllocFailed<T>) -> Error<F> {
        Error::Memory
    }
}
