//! Why a copy with a floor is not the snapshot.

ghost use Rattle.std.specs.Prelude.{◌≡◌};
ghost use Rattle.storage_sync.specs.declared.sync.unfounded.Unfounded.TheVariants.{Memory};

use storage_codec::NoMemory;

/// Why a copy with an inactivity floor is no snapshot with the roots that are trusted, nor what one has from an operation on.
#[derive(Clone, Copy, Debug, PartialEq, Eq, Drop, thiserror::Error)]
pub enum Unfounded {
    /// The copy's parts do not fit together: it has not one bit for each operation, more operations than a tree may
    /// have, 2^62, or began with another opening.
    #[error("parts that do not fit together")]
    Malformed,
    /// The floor is past the end of the operations.
    #[error("the floor is past the end")]
    FloorPastTheEnd,
    /// With this floor the copy has other roots.
    #[error("other roots")]
    OtherRoots,
    /// Out of memory.
    #[error("out of memory")]
    Memory,
}

impl From<NoMemory> for Unfounded {
    ghost from_gives = { λ _ e. e ≡ Memory };

    fn from(_error: NoMemory) -> Unfounded {
        Unfounded::Memory
    }
}
