//! Why a call over a tree was refused.

ghost use Rattle.std.specs.Prelude.{◌≡◌};
ghost use Rattle.storage_merkle.specs.declared.merkle.error.Error.TheVariants.{Memory};

use crate::merkle::{Location, Position};
use std::alloc::{AllocError, AllocFailed};
use storage_codec::NoMemory;

/// Why a call over a tree was refused.
#[derive(Drop, thiserror::Error)]
#[derive_where(Clone, Copy, Debug, PartialEq, Eq)]
pub enum Error<F> {
    /// A range with no leaf, or a list of no locations.
    #[error("no leaves")]
    Empty,
    /// A location that is no leaf of the tree.
    #[error("location {0} out of bounds")]
    RangeOutOfBounds(Location<F>),
    /// A number of leaves past `MAX_LEAVES`, or a location that no tree has.
    #[error("location {0} overflows")]
    LocationOverflow(Location<F>),
    /// The position of a node whose digest is not kept.
    #[error("node {0} is pruned")]
    ElementPruned(Position<F>),
    /// The position of a node whose digest was to be handed over, and was not.
    #[error("node {0} is missing")]
    MissingNode(Position<F>),
    /// What is stored is that of no tree; the text says what is wrong.
    #[error("corrupted: {0}")]
    DataCorrupted(&'static str),
    /// The number of a bit, and the number of bits, which it is not below.
    #[error("bit {0} out of bounds of {1}")]
    BitOutOfBounds(u64, u64),
    /// A proof whose counts do not fit, or more inactive peaks than the tree has.
    #[error("invalid proof")]
    InvalidProof,
    /// Another root comes out than the given one.
    #[error("root mismatch")]
    RootMismatch,
    /// A location that is listed twice.
    #[error("location {0} twice")]
    DuplicateLocation(Location<F>),
    /// A location that is listed after a greater one.
    #[error("location {0} out of order")]
    UnsortedLocation(Location<F>),
    /// The position of a node whose digest is known only as a part of a fold.
    #[error("node {0} is folded")]
    CompressedDigest(Position<F>),
    /// A fault of a store, by its number.
    #[error("store fault {0}")]
    Source(u32),
    /// Out of memory.
    #[error("out of memory")]
    Memory,
}

impl<F> From<AllocError> for Error<F> {
    ghost from_gives = { λ _ e. e ≡ Memory };

    fn from(_error: AllocError) -> Error<F> {
        Error::Memory
    }
}

impl<F, T: Drop> From<AllocFailed<T>> for Error<F> {
    ghost from_gives = { λ _ e. e ≡ Memory };

    fn from(_error: AllocFailed<T>) -> Error<F> {
        Error::Memory
    }
}

impl<F> From<NoMemory> for Error<F> {
    ghost from_gives = { λ _ e. e ≡ Memory };

    fn from(_error: NoMemory) -> Error<F> {
        Error::Memory
    }
}
