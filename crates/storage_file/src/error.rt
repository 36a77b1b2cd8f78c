//! Why a call on a file was refused.

ghost use Rattle.std.specs.Prelude.{◌≡◌};
ghost use Rattle.storage_file.specs.declared.error.Error.TheVariants.{Memory};
ghost use Rattle.storage_file.specs.Refusals.{refusal_of};

use sqlite::{Error as SqlError, ErrorCode};
use std::alloc::{AllocError, AllocFailed};

/// Why a call on a file was refused.
#[derive(Clone, Copy, Debug, PartialEq, Eq, thiserror::Error)]
pub enum Error {
    /// The file was made for another family, digest function, chunk size or encoding, or in another layout.
    #[error("the file was made for another kind of database")]
    Foreign,
    /// The rows are no operations and commits, each list numbered from 0 on.
    #[error("the rows of the file are no operations and commits")]
    Corrupted,
    /// A number is 2^63 or more, which no row can have.
    #[error("a location or a floor is too large to be stored")]
    Full,
    /// The database refused or failed.
    #[error("{0}")]
    Store(SqlError),
    /// Out of memory.
    #[error("out of memory")]
    Memory,
}

impl From<SqlError> for Error {
    ghost from_gives = { λ e r. r ≡ refusal_of e };

    fn from(error: SqlError) -> Error {
        match error {
            SqlError::SqliteFailure(ErrorCode::OutOfMemory) => Error::Memory,
            error => Error::Store(error),
        }
    }
}

impl From<AllocError> for Error {
    ghost from_gives = { λ _ e. e ≡ Memory };

    fn from(_error: AllocError) -> Error {
        Error::Memory
    }
}

impl<T: Drop> From<AllocFailed<T>> for Error {
    ghost from_gives = { λ _ e. e ≡ Memory };

    fn from(_error: AllocFailed<T>) -> Error {
        Error::Memory
    }
}
