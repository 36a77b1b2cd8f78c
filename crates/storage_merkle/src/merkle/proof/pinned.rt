//! The check of a range proof with the digests of the peaks over the leaves before its range.
//!
//! Whoever keeps a tree from some leaf on needs these digests, the pinned ones, and has them from a stranger. A proof binds
//! the leaves before its range by a fold, by peaks and by siblings. The check computes all of these from the pinned digests
//! and compares.

ghost use Rattle.std.specs.Prelude.{◌≡◌, ◌≢◌, ℕ, ◌+◌, ◌-◌, ◌^◌, ◌<◌, ◌≤◌, ◌↔◌, ◌++◌, List, [], length, map, take, option_map, true, false, IsTrue, IsOk, IfOk, MatchOption, All};
ghost use Rattle.storage_merkle.specs.CheckParts.{top_sites};
ghost use Rattle.storage_merkle.specs.Calc.{Site, node};
ghost use Rattle.storage_merkle.specs.Hashers.{TakesTree, forward_of};
ghost use Rattle.storage_merkle.specs.Held.{proof_of};
ghost use Rattle.storage_merkle.specs.Pinned.{IsPinnedAccepted, IsPinnedProved, Match};
ghost use Rattle.storage_merkle.specs.PinnedParts.{AgreesWith, ArePinned, AreNodesAt, as_list, digest_before, is_pinned, pinned_digest};
ghost use Rattle.storage_merkle.specs.PlanParts.{peaks_by};
ghost use Rattle.storage_merkle.specs.Plans.{ArePeaks, InTree};
ghost use Rattle.storage_merkle.specs.RangeProofs.{CountsFit, leading};
ghost use Rattle.storage_merkle.specs.Rests.{peaks_from};
ghost use Rattle.storage_merkle.specs.Shape.{size};
ghost use Rattle.storage_merkle.specs.Trees.{ungrafted, content_of};

use crate::merkle::family::{node_at, power};
use crate::merkle::hasher::{Hasher, append};
use crate::merkle::plan::{node_position, peak_count, siblings};
use crate::merkle::walk::{Leading, Rest};
use crate::merkle::{Family, Location, MAX_LEAVES, Position, Proof};
use std::alloc::Global;
use std::convert::AsSlice;
use storage_codec::NoMemory;
use storage_codec::digest::Digest;

impl<F: Family, D: Digest> Proof<F, D> {
    /// Returns whether `elements` stand at the leaves from `start` on of the tree with the root `root`, and `pinned`
    /// are the digests of the peaks over the leaves before `start`, in leaf order. The answer for no elements allocates
    /// nothing.
    pub fn verify_proof_and_pinned_nodes<H: Hasher<F, Digest = D>, E: AsSlice<u8>>(
        &self,
        alloc: Global,
        hasher: &H,
        elements: &[E],
        start: Location<F>,
        pinned: &[D],
        root: &D,
    ) -> Result<bool, NoMemory>
        requires { TakesTree (H.takes hasher.now) F.shape self.now.leaves }
        ensures exact { IfOk result (λ yes. IsTrue yes ↔ IsPinnedAccepted H.hash_of
            (H.layout hasher.now) (H.bagging hasher.now) (proof_of D.text self.now) start
            (content_of (map E.items elements.now) (H.chunk hasher.now)) (map D.text pinned.now)
            (D.text root.now)) }
        ensures meaning { H.layout hasher.now ≡ ungrafted F.shape
            → H.chunk hasher.now ≡ (λ a. [])
            → IfOk result (λ yes. IsTrue yes
            → IsPinnedProved H.hash_of F.shape (H.bagging hasher.now) (proof_of D.text self.now)
            start (map E.items elements.now) (map D.text pinned.now) (D.text root.now)) }
        ensures none { elements.now ≡ [] → IsOk result }
    {
        if !self.verify_range_inclusion(alloc, hasher, elements, start, root)? {
            return Ok(false);
        }
        if elements.is_empty() {
            return Ok(pinned.is_empty());
        }
        self.agrees_with(alloc, hasher, elements.len(), start, pinned)
    }

    /// Returns whether the digests that the proof of `count` elements from `start` on has for the leaves before `start`
    /// are those that the digests `pinned` give.
    fn agrees_with<H: Hasher<F, Digest = D>>(
        &self,
        alloc: Global,
        hasher: &H,
        count: usize,
        start: Location<F>,
        pinned: &[D],
    ) -> Result<bool, NoMemory>
        requires { TakesTree (H.takes hasher.now) F.shape self.now.leaves }
        ensures { (elements : List (List ℕ)) → length elements ≡ count → CountsFit H.hash_of
            (H.layout hasher.now) (H.bagging hasher.now) (proof_of D.text self.now) start
            (content_of elements (H.chunk hasher.now)) → IfOk result (λ yes. IsTrue yes ↔ AgreesWith
            H.hash_of (H.layout hasher.now) (H.bagging hasher.now) (proof_of D.text self.now) start
            (content_of elements (H.chunk hasher.now)) (map D.text pinned.now)) }
    {
        let leaves = self.leaves.as_u64();
        let start = start.as_u64();
        let Some(end) = start.checked_add(count as u64) else {
            return Ok(false);
        };
        if end > leaves || leaves > MAX_LEAVES || pinned.len() as u64 != peak_count::<F>(start) {
            return Ok(false);
        }
        let pinned = Pinned {
            leaves,
            start,
            digests: pinned,
        };
        let peaks = Rest::all::<F, H>(hasher, leaves, self.inactive_peaks);
        let fold = pinned.fold_leading(hasher, peaks);
        let rest = peaks.after_leading::<F>(start);
        let siblings = siblings::<F>(alloc, leaves, start, end)?;
        let Some(apart) = self.digests.len().checked_sub(siblings.len()) else {
            return Ok(false);
        };
        let (tops, beside) = self.digests.split_at(apart);
        let Some(tops) = after_fold(fold, tops) else {
            return Ok(false);
        };
        Ok(
            pinned.peaks_match(hasher, rest, tops)
                && pinned.siblings_match(hasher, &siblings, beside),
        )
    }
}

/// Returns the digests after the first one, which must be `fold`, or all of them if that is none; none if the first one
/// is another digest or missing.
fn after_fold<D: Digest>(fold: Option<D>, digests: &[D]) -> Option<&[D]>
    ensures { MatchOption result ((ds : List (List ℕ))
        → map D.text digests.now ≢ as_list (option_map D.text fold) ++ ds) (λ later.
        map D.text digests.now ≡ as_list (option_map D.text fold) ++ map D.text later.now) }
{
    let Some(fold) = fold else {
        return Some(digests);
    };
    let (first, later) = digests.split_first()?;
    if *first == fold { Some(later) } else { None }
}

/// The digests of the peaks over the leaves before `start`, in leaf order.
#[derive_where(Clone, Copy)]
struct Pinned<'a, D> {
    /// How many leaves the tree has.
    leaves: u64,
    start: u64,
    digests: &'a [D],
}

impl<D: Digest> Pinned<'_, D> {
    /// Returns those of `peaks`, of the tree of the proof, that lead, are folded from the left and end before the
    /// start, folded from the left; none for no peaks.
    fn fold_leading<F: Family, H: Hasher<F, Digest = D>>(
        &self,
        hasher: &H,
        peaks: Rest,
    ) -> Option<D>
        requires pinned { ArePinned F.shape self.now.leaves self.now.start self.now.digests.now }
        requires takes { TakesTree (H.takes hasher.now) F.shape self.now.leaves }
        requires peaks { ArePeaks F.shape self.now.leaves peaks.first peaks.left }
        ensures { option_map D.text result ≡ forward_of H.hash_of (peaks_by (digest_before
            H.hash_of (H.layout hasher.now) self.now.start (map D.text self.now.digests.now)
            (H.chunk hasher.now)) (leading self.now.start (take peaks.folded
            (peaks_from F.shape peaks.first peaks.left)))) }
    {
        let mut folded = None;
        for (first, height) in Leading::<F>::of(peaks, self.start) {
            folded = Some(append(hasher, folded, &self.node(hasher, first, height)));
        }
        folded
    }

    /// Returns whether those of `digests`, which are of the peaks `rest` and folds apart from the range, that are of
    /// peaks ending at or before the start are as the pinned digests give them.
    fn peaks_match<F: Family, H: Hasher<F, Digest = D>>(
        &self,
        hasher: &H,
        rest: Rest,
        digests: &[D],
    ) -> bool
        requires pinned { ArePinned F.shape self.now.leaves self.now.start self.now.digests.now }
        requires takes { TakesTree (H.takes hasher.now) F.shape self.now.leaves }
        requires peaks { ArePeaks F.shape self.now.leaves rest.first rest.left }
        ensures { (end : ℕ) (digest recomputed : Site → List ℕ)
            → self.now.start < end
            → ((a k : ℕ) → recomputed (node a k) ≡ digest_before H.hash_of (H.layout hasher.now)
            self.now.start (map D.text self.now.digests.now) (H.chunk hasher.now) a k)
            → map D.text digests.now ≡ map digest
            (top_sites self.now.start end (peaks_from F.shape rest.first rest.left) rest.folded)
            → IsTrue result ↔ Match self.now.start digest recomputed
            (top_sites self.now.start end (peaks_from F.shape rest.first rest.left) rest.folded) }
    {
        if rest.left == 0 {
            return true;
        }
        let height = F::first_peak(rest.left);
        if rest.first + power(height) > self.start {
            return true;
        }
        let Some((digest, later)) = digests.split_first() else {
            return false;
        };
        self.node(hasher, rest.first, height) == *digest
            && self.peaks_match(hasher, rest.next(height), later)
    }

    /// Returns whether those of `digests`, which are of the siblings at `positions`, that are of leaves before the
    /// start are as the pinned digests give them.
    fn siblings_match<F: Family, H: Hasher<F, Digest = D>>(
        &self,
        hasher: &H,
        positions: &[Position<F>],
        digests: &[D],
    ) -> bool
        requires pinned { ArePinned F.shape self.now.leaves self.now.start self.now.digests.now }
        requires takes { TakesTree (H.takes hasher.now) F.shape self.now.leaves }
        requires within { All (λ p. p < size F.shape self.now.leaves) positions.now }
        ensures { (ss : List Site) (digest recomputed : Site → List ℕ)
            → AreNodesAt F.shape self.now.leaves positions.now ss
            → ((a k : ℕ) → recomputed (node a k) ≡ digest_before H.hash_of (H.layout hasher.now)
            self.now.start (map D.text self.now.digests.now) (H.chunk hasher.now) a k)
            → map D.text digests.now ≡ map digest ss
            → IsTrue result ↔ Match self.now.start digest recomputed ss }
    {
        for (position, digest) in positions.iter().zip(digests) {
            let (first, height) = node_at::<F>(position.as_u64());
            if first + power(height) <= self.start && self.node(hasher, first, height) != *digest {
                return false;
            }
        }
        true
    }

    /// Returns the digest of the node of height `height` over the leaf `first`, all before the start, from the pinned
    /// ones. No element is hashed: a leaf that is not pinned counts as the digest of nothing.
    fn node<F: Family, H: Hasher<F, Digest = D>>(&self, hasher: &H, first: u64, height: u32) -> D
        requires pinned { ArePinned F.shape self.now.leaves self.now.start self.now.digests.now }
        requires takes { TakesTree (H.takes hasher.now) F.shape self.now.leaves }
        requires small { height ≤ 62 }
        requires within { InTree F.shape self.now.leaves first height }
        ensures { D.text result ≡ digest_before H.hash_of (H.layout hasher.now) self.now.start
            (map D.text self.now.digests.now) (H.chunk hasher.now) first height }
    {
        if let Some(digest) = self.pinned::<F>(first, height) {
            return digest;
        }
        if height == 0 {
            return hasher.digest(&[]);
        }
        let left = self.node(hasher, first, height - 1);
        let right = self.node(hasher, first + power(height - 1), height - 1);
        hasher.node_digest(node_position(first, height), &left, &right)
    }

    /// Returns the pinned digest of the node of height `height` over the leaf `first`; none if it is no peak over the
    /// leaves before the start.
    fn pinned<F: Family>(&self, first: u64, height: u32) -> Option<D>
        requires { ArePinned F.shape self.now.leaves self.now.start self.now.digests.now }
        ensures { MatchOption result (is_pinned F.shape self.now.start first height ≡ false) (λ d.
            (is_pinned F.shape self.now.start first height ≡ true)
            × ((none : List ℕ) → D.text d ≡ pinned_digest F.shape self.now.start
            (map D.text self.now.digests.now) none first height)) }
    {
        let mut place = 0;
        let mut left = self.digests;
        while let Some((digest, later)) = left.split_first() {
            let peak = F::first_peak(self.start - place);
            if place == first && peak == height {
                return Some(*digest);
            }
            place += power(peak);
            left = later;
        }
        None
    }
}
