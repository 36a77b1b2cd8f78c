//! Why a request is not answered.

ghost use Rattle.std.specs.Prelude.{◌≡◌};
ghost use Rattle.storage_sync.specs.declared.sync.unanswered.Unanswered.TheVariants.{Memory};

use std::alloc::{AllocError, AllocFailed};
use storage_codec::NoMemory;

/// Why a request is not answered.
#[derive(Clone, Copy, Debug, PartialEq, Eq, Drop, thiserror::Error)]
pub enum Unanswered {
    /// The request begins at or past the end of the operations.
    #[error("past the end of the operations")]
    OutOfBounds,
    /// The request begins inside a chunk.
    #[error("not where a chunk begins")]
    NotAtChunk,
    /// The chunk, or the operation, where the request begins is pruned.
    #[error("pruned")]
    Pruned,
    /// The request is for fewer operations than a chunk has, and more are left.
    #[error("fewer operations than a chunk has")]
    TooFew,
    /// The log lacks some of the operations, or the snapshot is not whole.
    #[error("operations or nodes are missing")]
    Corrupted,
    /// The log failed, with this code.
    #[error("log fault {0}")]
    Log(u32),
    /// Out of memory.
    #[error("out of memory")]
    Memory,
}

impl From<AllocError> for Unanswered {
    ghost from_gives = { λ _ e. e ≡ Memory };

    fn from(_error: AllocError) -> Unanswered {
        Unanswered::Memory
    }
}

impl<T: Drop> From<AllocFailed<T>> for Unanswered {
    ghost from_gives = { λ _ e. e ≡ Memory };

    fn from(_error: AllocFailed<T>) -> Unanswered {
        Unanswered::Memory
    }
}

impl From<NoMemory> for Unanswered {
    ghost from_gives = { λ _ e. e ≡ Memory };

    fn from(_error: NoMemory) -> Unanswered {
        Unanswered::Memory
    }
}
