//! What is known of a bitmap's tree.

ghost use Rattle.std.specs.Prelude.{◌≡◌, ℕ, ◌<◌, ◌≤◌, All};

use std::collections::BTreeSet;
use storage_codec::digest::Digest;

mod sealed {
    /// Keeps the states to those of this module.
    pub trait Sealed {}
}

/// What is known of a bitmap's tree: [`Merkleized`] or [`Unmerkleized`].
pub trait State<D: Digest>: sealed::Sealed {
    /// What it asks of how many chunks are pruned, of how many leaves the tree has, and of how many chunks are complete.
    ghost fits: { Self → ℕ → ℕ → ℕ → Type 0 };
}

/// The tree is that of the bits, and the root is known.
#[derive(Drop)]
pub struct Merkleized<D: Digest> {
    pub(super) root: D,
}

impl<D: Digest> sealed::Sealed for Merkleized<D> {}

impl<D: Digest> State<D> for Merkleized<D> {
    ghost fits = { λ _ _ leaves complete. leaves ≡ complete };
}

/// Bits may have changed since the tree was that of the bits: those of some chunks that are in the tree, and those past them.
#[derive(Drop)]
pub struct Unmerkleized {
    pub(super) dirty: BTreeSet<u64>,
}

impl sealed::Sealed for Unmerkleized {}

impl<D: Digest> State<D> for Unmerkleized {
    ghost fits = { λ s pruned leaves _.
        All (λ chunk. (pruned ≤ chunk) × (chunk < leaves)) s.dirty.keys };
}
