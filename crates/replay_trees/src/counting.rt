//! A hasher that counts what it is asked for.

ghost use Rattle.std.specs.Prelude.{◌≡◌, ◌++◌, [], refl};
ghost use Rattle.storage_merkle.specs.Calc.{be8};
ghost use Rattle.storage_merkle.specs.Trees.{ungrafted};

use std::cell::Cell;
use storage_codec::digest::{self, Digest};
use storage_merkle::merkle::hasher::{Hasher, Standard};
use storage_merkle::merkle::{Bagging, Family, Position};

/// The ordinary hasher, with how many node digests and folds it was asked for.
#[derive(Drop)]
pub struct Counting<H> {
    pub standard: Standard<H>,
    pub nodes: Cell<u64>,
    pub folds: Cell<u64>,
}

impl<F: Family, H: digest::Hasher> Hasher<F> for Counting<H> {
    type Digest = H::Digest;

    ghost hash_of = { H.hash_of };

    ghost layout = { λ _. ungrafted F.shape };

    ghost chunk = { λ _ _. [] };

    ghost bagging = { λ s. s.standard.bagging };

    ghost takes = { λ _ _. Unit {0} };

    fn hash(&self, parts: &[&[u8]]) -> H::Digest {
        if parts.len() == 2 && parts[0].len() == H::Digest::size() {
            self.folds.set(self.folds.get().saturating_add(1));
        }
        H::hash(parts)
    }

    fn root_bagging(&self) -> Bagging {
        Hasher::<F>::root_bagging(&self.standard)
    }

    fn node_digest(&self, position: Position<F>, left: &H::Digest, right: &H::Digest) -> H::Digest
        ensures { H.Digest.text result
            ≡ H.hash_of (be8 position ++ (H.Digest.text left.now ++ H.Digest.text right.now)) }
    {
        self.nodes.set(self.nodes.get().saturating_add(1));
        self.standard.node_digest(position, left, right)
    }

    ghost sized = { H.sized };

    ghost over = { λ _. refl };
}
