//! The hasher of checks over a grafted view.
//!
//! It is the ordinary hasher with the claimed chunks at hand: at height G it hashes the chunk in front of the node. A node
//! over a chunk that was not claimed holds no operation of the range, so no check asks for it.

ghost use Rattle.std.specs.Prelude.{◌≡◌, ℕ, ◌+◌, ◌-◌, ◌*◌, ◌/◌, ◌%◌, ◌^◌, ◌<◌, ◌≤◌, ◌&&◌, ◌++◌, List, [], refl, map, eqb, ltb, if◌then◌else◌, MatchOption};
ghost use Rattle.storage_merkle.specs.Shape.{size, max_leaves};
ghost use Rattle.storage_merkle.specs.Nodes.{IsNode};
ghost use Rattle.storage_merkle.specs.Trees.{Layout};
ghost use Rattle.storage_merkle.specs.Hashing.{join_digest};
ghost use Rattle.storage_merkle.specs.declared.merkle.bagging.Bagging.TheVariants.{BackwardFold};
ghost use Rattle.storage_current.specs.Grafted.{IsGraftedWith, IsUngrafted, grafted_over, supplied};

use crate::qmdb::current::grafting::graft;
use std::alloc::AllocError;
use std::marker::PhantomData;
use storage_codec::digest::{self, Digest};
use storage_merkle::merkle::family::node_at;
use storage_merkle::merkle::hasher::Hasher;
use storage_merkle::merkle::{Bagging, Graftable, Position};

/// The hasher of checks over a grafted view: a node at the height of a chunk, whose chunk is graftable, supplied and not
/// all zero, is hashed once more with that chunk before its digest. The chunks are lent.
#[derive(Drop)]
pub struct Verifier<'a, F, H> {
    height: u32,
    start_chunk_index: u64,
    chunks: Vec<&'a [u8]>,
    graftable_chunks: u64,
    family: PhantomData<F>,
    function: PhantomData<H>,
}

impl<'a, F: Graftable, H: digest::Hasher> Verifier<'a, F, H> {
    /// Returns the hasher for chunks over nodes of height `height`, of which `chunks` are those from chunk
    /// `start_chunk_index` on, and the first `graftable_chunks` of all are graftable.
    pub fn new(
        height: u32,
        start_chunk_index: u64,
        chunks: Vec<&'a [u8]>,
        graftable_chunks: u64,
    ) -> Self
        ensures height { result.height ≡ height }
        ensures start { result.start_chunk_index ≡ start_chunk_index }
        ensures chunks { map (λ c. c.now) result.chunks.items
            ≡ map (λ c. c.now) chunks.entry.items }
        ensures graftable { result.graftable_chunks ≡ graftable_chunks }
    {
        Verifier {
            height,
            start_chunk_index,
            chunks,
            graftable_chunks,
            family: PhantomData,
            function: PhantomData,
        }
    }

    /// Returns the chunk that is grafted over the node of height `height` over the leaf `first`; none if there is none,
    /// or it is not supplied.
    fn chunk_over(&self, first: u64, height: u32) -> Option<&'a [u8]>
        requires aligned { first % 2 ^ height ≡ 0 }
        requires small { height ≤ 62 }
        ensures { MatchOption result (IsUngrafted self.now.height self.now.start_chunk_index
            (map (λ c. c.now) self.now.chunks.items) self.now.graftable_chunks first height)
            (λ chunk. IsGraftedWith self.now.height self.now.start_chunk_index
            (map (λ c. c.now) self.now.chunks.items) self.now.graftable_chunks first
            height chunk.now) }
    {
        if height != self.height {
            return None;
        }
        let index = first >> height;
        if index >= self.graftable_chunks {
            return None;
        }
        if index < self.start_chunk_index {
            return None;
        }
        let place = (index - self.start_chunk_index) as usize;
        if place >= self.chunks.len() {
            return None;
        }
        Some(self.chunks[place])
    }
}

/// A second hasher over the same chunks. Running out of memory is an error.
impl<F: Graftable, H: digest::Hasher> Clone for Verifier<'_, F, H> {
    ghost is_clone = { λ x y. (y.height ≡ x.height) × (y.start_chunk_index ≡ x.start_chunk_index)
        × (map (λ c. c.now) y.chunks.items ≡ map (λ c. c.now) x.chunks.items)
        × (y.graftable_chunks ≡ x.graftable_chunks) };

    fn clone(&self) -> Result<Self, AllocError> {
        let chunks = self.chunks.clone()?;
        Ok(Verifier::new(
            self.height,
            self.start_chunk_index,
            chunks,
            self.graftable_chunks,
        ))
    }
}

impl<F: Graftable, H: digest::Hasher> Hasher<F> for Verifier<'_, F, H> {
    type Digest = H::Digest;

    ghost hash_of = { H.hash_of };

    ghost layout = { λ v. record {
      shape = F.shape;
      position = F.shape.position;
      grafted = grafted_over v.height v.graftable_chunks;
    } };

    ghost chunk = { λ v a.
        supplied v.start_chunk_index (map (λ c. c.now) v.chunks.items) (a / 2 ^ v.height) };

    ghost bagging = { λ _. BackwardFold };

    ghost takes = { λ _ position. position ≤ size F.shape max_leaves };

    fn hash(&self, parts: &[&[u8]]) -> H::Digest {
        H::hash(parts)
    }

    fn root_bagging(&self) -> Bagging {
        Bagging::BackwardFold
    }

    fn node_digest(&self, position: Position<F>, left: &H::Digest, right: &H::Digest) -> H::Digest
        requires { position ≤ size F.shape max_leaves }
        ensures { (first height : ℕ) → IsNode F.shape position first height
            → H.Digest.text result ≡ join_digest H.hash_of (record {
              shape = F.shape;
              position = F.shape.position;
              grafted = grafted_over self.now.height self.now.graftable_chunks;
            })
            (λ a. supplied self.now.start_chunk_index (map (λ c. c.now) self.now.chunks.items)
            (a / 2 ^ self.now.height)) first height (H.Digest.text left.now)
            (H.Digest.text right.now) }
    {
        let (first, height) = node_at::<F>(position.as_u64());
        self.node_digest_over(first, height, left, right)
    }

    #[tactic(auto, unfolding(storage_merkle::specs::Calc::be8))]
    fn node_digest_over(
        &self,
        first: u64,
        height: u32,
        left: &H::Digest,
        right: &H::Digest,
    ) -> H::Digest
        requires aligned { first % 2 ^ height ≡ 0 }
        requires fits { F.shape.position first height < 2 ^ 64 }
        requires takes { F.shape.position first height ≤ size F.shape max_leaves }
        ensures { H.Digest.text result ≡ join_digest H.hash_of (record {
          shape = F.shape;
          position = F.shape.position;
          grafted = grafted_over self.now.height self.now.graftable_chunks;
        })
            (λ a. supplied self.now.start_chunk_index (map (λ c. c.now) self.now.chunks.items)
            (a / 2 ^ self.now.height)) first height (H.Digest.text left.now)
            (H.Digest.text right.now) }
    {
        let position = F::position(first, height).to_be_bytes();
        let inner = H::hash(&[&position, left.bytes(), right.bytes()]);
        match self.chunk_over(first, height) {
            Some(chunk) => graft::<H>(chunk, inner),
            None => inner,
        }
    }

    ghost sized = { H.sized };

    ghost over = { λ _. refl };
}
