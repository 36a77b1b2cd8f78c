//! A hasher that counts what it hashes.

ghost use Rattle.std.specs.Prelude.{◌≡◌, ℕ};
ghost use Rattle.storage_merkle.specs.Hashing.{join_digest};
ghost use Rattle.storage_merkle.specs.Nodes.{IsNode};

use std::cell::Cell;
use storage_merkle::merkle::hasher::Hasher;
use storage_merkle::merkle::{Bagging, Family, Position};

/// Another hasher, and how many strings of leaves, nodes, folds and chunks it hashed.
#[derive(Drop)]
pub struct Counted<H> {
    hasher: H,
    strings: Cell<u64>,
}

impl<H> Counted<H> {
    /// Returns the hasher `hasher`, before it hashed anything.
    pub fn new(hasher: H) -> Self {
        Counted {
            hasher,
            strings: Cell::new(0),
        }
    }

    /// Returns how many strings were hashed since this was asked last.
    pub fn take(&self) -> u64 {
        self.strings.replace(0)
    }

    /// Counts one string.
    fn count(&self) {
        self.strings.set(self.strings.get().saturating_add(1));
    }
}

impl<F: Family, H: Hasher<F>> Hasher<F> for Counted<H> {
    type Digest = H::Digest;

    ghost hash_of = { H.hash_of };

    ghost layout = { λ s. H.layout s.hasher };

    ghost chunk = { λ s. H.chunk s.hasher };

    ghost bagging = { λ s. H.bagging s.hasher };

    ghost takes = { λ s. H.takes s.hasher };

    fn hash(&self, parts: &[&[u8]]) -> H::Digest {
        self.count();
        self.hasher.hash(parts)
    }

    fn root_bagging(&self) -> Bagging {
        self.hasher.root_bagging()
    }

    fn node_digest(&self, position: Position<F>, left: &H::Digest, right: &H::Digest) -> H::Digest
        requires { H.takes self.now.hasher position }
        ensures { (first height : ℕ) → IsNode F.shape position first height
            → H.Digest.text result ≡ join_digest H.hash_of (H.layout self.now.hasher)
            (H.chunk self.now.hasher) first height (H.Digest.text left.now)
            (H.Digest.text right.now) }
    {
        self.count();
        self.hasher.node_digest(position, left, right)
    }

    ghost sized = { H.sized };

    ghost over = { λ s. H.over s.hasher };
}
