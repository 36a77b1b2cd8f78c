//! The hasher of a tree over chunks.
//!
//! Positions in that tree count chunks. What is hashed are the positions of the tree over the operations, so that its nodes
//! are the nodes of the grafted view.

ghost use Rattle.std.specs.Prelude.{◌≡◌, ℕ, ◌+◌, ◌*◌, ◌%◌, ◌^◌, ◌<◌, ◌≤◌};
ghost use Rattle.storage_merkle.specs.Nodes.{IsNode};
ghost use Rattle.storage_merkle.specs.Hashing.{join_digest};
ghost use Rattle.storage_current.specs.Combined.{IsRaised, over_chunks};

use crate::qmdb::current::grafting::{grafted_to_ops_pos, power};
use std::marker::PhantomData;
use storage_merkle::merkle::hasher::Hasher;
use storage_merkle::merkle::{Bagging, Graftable, Position};

/// The hasher of a tree whose leaves are the grafted nodes of chunks: a node is hashed with the position among the
/// operations' nodes of the one that covers the same operations, so that its digest is the grafted view's.
#[derive_where(Clone, Copy; H)]
#[derive(Drop)]
pub struct GraftedHasher<F, H> {
    inner: H,
    height: u32,
    family: PhantomData<F>,
}

impl<F: Graftable, H: Hasher<F>> GraftedHasher<F, H> {
    /// Returns the hasher over `inner`, a hasher of the tree over the operations, for chunks over nodes of height
    /// `height` there.
    pub fn new(inner: H, height: u32) -> Self
        ensures inner { result.inner ≡ inner }
        ensures height { result.height ≡ height }
    {
        GraftedHasher {
            inner,
            height,
            family: PhantomData,
        }
    }
}

impl<F: Graftable, H: Hasher<F>> Hasher<F> for GraftedHasher<F, H> {
    type Digest = H::Digest;

    ghost hash_of = { H.hash_of };

    ghost layout = { λ s. over_chunks s.height (H.layout s.inner) };

    ghost chunk = { λ s a. H.chunk s.inner (a * 2 ^ s.height) };

    ghost bagging = { λ s. H.bagging s.inner };

    ghost takes = { λ s. IsRaised F.shape (H.takes s.inner) s.height };

    fn hash(&self, parts: &[&[u8]]) -> H::Digest {
        self.inner.hash(parts)
    }

    fn root_bagging(&self) -> Bagging {
        self.inner.root_bagging()
    }

    fn node_digest(&self, position: Position<F>, left: &H::Digest, right: &H::Digest) -> H::Digest
        requires { IsRaised F.shape (H.takes self.now.inner) self.now.height position }
        ensures { (first height : ℕ) → IsNode F.shape position first height
            → H.Digest.text result ≡ join_digest H.hash_of (over_chunks self.now.height
            (H.layout self.now.inner)) (λ a. H.chunk self.now.inner (a * 2 ^ self.now.height)) first
            height (H.Digest.text left.now) (H.Digest.text right.now) }
    {
        let position = grafted_to_ops_pos::<F>(position, self.height);
        self.inner.node_digest(position, left, right)
    }

    fn node_digest_over(
        &self,
        first: u64,
        height: u32,
        left: &H::Digest,
        right: &H::Digest,
    ) -> H::Digest
        requires aligned { first % 2 ^ height ≡ 0 }
        requires fits { F.shape.position first height < 2 ^ 64 }
        requires takes { IsRaised F.shape (H.takes self.now.inner) self.now.height
            (F.shape.position first height) }
        ensures { H.Digest.text result ≡ join_digest H.hash_of (over_chunks self.now.height
            (H.layout self.now.inner)) (λ a. H.chunk self.now.inner (a * 2 ^ self.now.height)) first
            height (H.Digest.text left.now) (H.Digest.text right.now) }
    {
        let first = first * power(self.height);
        self.inner
            .node_digest_over(first, height + self.height, left, right)
    }

    ghost sized = { H.sized };

    ghost over = { λ s. H.over s.inner };
}
