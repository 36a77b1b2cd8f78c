//! Range proofs of a tree in memory.

ghost use Rattle.std.specs.Prelude.{◌≡◌, ◌≢◌, ℕ, ◌^◌, ◌<◌, ◌≤◌, ◌⊎◌, length, map, Err, IfOk, IfErr, MatchOption};
ghost use Rattle.storage_merkle.specs.Hashing.{leaf_digests, node_over};
ghost use Rattle.storage_merkle.specs.Held.{proof_of};
ghost use Rattle.storage_merkle.specs.Kept.{StandsFor, kept_at};
ghost use Rattle.storage_merkle.specs.Plans.{IsFirstAbsent, planned, refusal};
ghost use Rattle.storage_merkle.specs.RangeProofs.{own_proof};
ghost use Rattle.storage_merkle.specs.Trees.{Content, Layout};

use crate::merkle::hasher::Hasher;
use crate::merkle::mem::Mem;
use crate::merkle::{Error, Family, Location, Position, Proof, RangePlan};
use std::ops::Range;
use storage_codec::digest::Digest;

impl<F: Family, D: Digest> Mem<F, D> {
    /// Returns the tree's own proof of the leaves of `range`, with the first `inactive` peaks inactive. Memory comes
    /// from the tree's own allocator.
    ///
    /// # Errors
    ///
    /// The first of: `LocationOverflow`, `Empty` and `RangeOutOfBounds` as
    /// [`RangePlan::new`](crate::merkle::RangePlan::new) answers them; `InvalidProof` if `inactive` is greater than the
    /// number of peaks; `ElementPruned` of the first position that is needed and not kept, which comes for no range
    /// that begins at the boundary or past it; `Memory`.
    pub fn range_proof<H: Hasher<F, Digest = D>>(
        &self,
        hasher: &H,
        range: Range<Location<F>>,
        inactive: usize,
    ) -> Result<Proof<F, D>, Error<F>>
        ensures own { IfOk result (λ proof. (T : Layout) (content : Content) → T.shape ≡ F.shape
            → StandsFor D.text F.shape (node_over H.hash_of T content.chunk) self.now
            (leaf_digests H.hash_of T 0 content.elements) → proof_of D.text proof
            ≡ own_proof H.hash_of T (H.bagging hasher.now) content inactive range.start range.end) }
        ensures why { MatchOption (refusal F self.now.leaves range.start range.end) (IfErr result
            (λ e. ((length (F.shape.peaks self.now.leaves) < inactive) × (e ≡ Error.InvalidProof))
            ⊎ (((inactive ≤ length (F.shape.peaks self.now.leaves))
            × ((p : ℕ) × (e ≡ Error.ElementPruned p) × IsFirstAbsent
            (λ q a. a ≡ kept_at F.shape self.now.boundary self.now.pinned self.now.nodes q)
            (planned F.shape self.now.leaves range.start range.end) p)) ⊎ (e ≡ Error.Memory))))
            (λ e. result ≡ Err e) }
        ensures kept { self.now.boundary ≤ range.start
            → IfErr result (λ e. (p : ℕ) → e ≢ Error.ElementPruned p) }
    {
        self.proof_by(hasher, range, inactive, |position| {
            self.get_node(position)
        })
    }

    /// Returns the proof that [`range_proof`](Self::range_proof) answers, where `get_node` answers the digests that are
    /// kept.
    fn proof_by<H: Hasher<F, Digest = D>, G: Fn(Position<F>) -> Option<D>>(
        &self,
        hasher: &H,
        range: Range<Location<F>>,
        inactive: usize,
        get_node: G,
    ) -> Result<Proof<F, D>, Error<F>>
        requires callable { G.IsAlwaysCallable get_node }
        requires kept { (p : ℕ) (d : _) → p < 2 ^ 64
            → G.post get_node p d
            → d ≡ kept_at F.shape self.now.boundary self.now.pinned self.now.nodes p }
        ensures own { IfOk result (λ proof. (T : Layout) (content : Content) → T.shape ≡ F.shape
            → StandsFor D.text F.shape (node_over H.hash_of T content.chunk) self.now
            (leaf_digests H.hash_of T 0 content.elements) → proof_of D.text proof
            ≡ own_proof H.hash_of T (H.bagging hasher.now) content inactive range.start range.end) }
        ensures why { MatchOption (refusal F self.now.leaves range.start range.end) (IfErr result
            (λ e. ((length (F.shape.peaks self.now.leaves) < inactive) × (e ≡ Error.InvalidProof))
            ⊎ (((inactive ≤ length (F.shape.peaks self.now.leaves))
            × ((p : ℕ) × (e ≡ Error.ElementPruned p) × IsFirstAbsent
            (λ q a. a ≡ kept_at F.shape self.now.boundary self.now.pinned self.now.nodes q)
            (planned F.shape self.now.leaves range.start range.end) p)) ⊎ (e ≡ Error.Memory))))
            (λ e. result ≡ Err e) }
        ensures kept { self.now.boundary ≤ range.start
            → IfErr result (λ e. (p : ℕ) → e ≢ Error.ElementPruned p) }
    {
        let alloc = *self.nodes.allocator();
        let plan = match RangePlan::new(alloc, Location::new(self.leaves), range) {
            Ok(plan) => plan,
            Err(error) => return Err(error),
        };
        plan.build(alloc, hasher, inactive, get_node)
    }
}
