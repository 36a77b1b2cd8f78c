//! Range proofs from a store.

ghost use Rattle.std.specs.Prelude.{◌≡◌, ℕ, ◌+◌, ◌-◌, ◌%◌, ◌^◌, ◌<◌, ◌≤◌, ◌⊎◌, ◌++◌, List, [], drop, map, option_map, Some, None, IfOk, IfErr, OnOk};
ghost use Rattle.storage_merkle.specs.Calc.{back, eval, front, given, node};
ghost use Rattle.storage_merkle.specs.CheckParts.{right_of, top_sites};
ghost use Rattle.storage_merkle.specs.Hashers.{forward_of};
ghost use Rattle.storage_merkle.specs.Held.{proof_of};
ghost use Rattle.storage_merkle.specs.Plans.{ArePeaks};
ghost use Rattle.storage_merkle.specs.RangeProofs.{leading, not_leading, one_for, own_proof, trailing};
ghost use Rattle.storage_merkle.specs.Rests.{AreFolded, peaks_from};
ghost use Rattle.storage_merkle.specs.Shape.{AreAligned, max_leaves};
ghost use Rattle.storage_merkle.specs.Stores.{IsStoreOf, aft, fore, stored_at, or_else, entry_at, peak_given, range_refusal, store_digest, store_proof, store_values};
ghost use Rattle.storage_merkle.specs.StoreParts.{kept_met};
ghost use Rattle.storage_merkle.specs.Trees.{Content, Layout, ungrafted};
ghost use Rattle.storage_merkle.specs.Walked.{IsPlacedTop, met};

use crate::merkle::family::power;
use crate::merkle::hasher::{Hasher, append, join};
use crate::merkle::plan::digests::push_some;
use crate::merkle::plan::{check_range, node_position, siblings};
use crate::merkle::walk::{Leading, Rest, Top, Tops};
use crate::merkle::{Error, Family, Location, Position, Proof, ProofStore};
use std::alloc::{AllocError, Global};
use std::ops::Range;
use storage_codec::digest::Digest;

impl<F: Family, D: Digest> ProofStore<F, D> {
    /// Returns the proof of the leaves of `range`, which the source must prove, with the source's number of leaves and
    /// of inactive peaks.
    ///
    /// # Errors
    ///
    /// The first of: `Empty` if `range` holds no leaf; `LocationOverflow` of the last leaf of `range` if its end is
    /// past `MAX_LEAVES`; `RangeOutOfBounds` of that leaf if it is not in the tree; `ElementPruned` of the position of
    /// the first leaf of `range` that the source does not prove; `Memory`.
    pub fn range_proof<H: Hasher<F, Digest = D>>(
        &self,
        alloc: Global,
        hasher: &H,
        range: Range<Location<F>>,
    ) -> Result<Proof<F, D>, Error<F>>
        ensures given { IfOk result (λ proof.
            (range_refusal F F.shape self.now range.start range.end ≡ None)
            × ((T : Layout) → T.shape ≡ F.shape
            → proof_of D.text proof ≡ store_proof H.hash_of T self.now range.start range.end)) }
        ensures own { IfOk result (λ proof. (T : Layout) (content : Content) (inactive : ℕ)
            → T.shape ≡ F.shape → IsStoreOf H.hash_of T self.now content inactive → proof_of D.text
            proof ≡ own_proof H.hash_of T self.now.bagging content inactive range.start range.end) }
        ensures why { IfErr result (λ e. (range_refusal F F.shape self.now range.start range.end
            ≡ Some e) ⊎ ((range_refusal F F.shape self.now range.start range.end ≡ None)
            × (e ≡ Error.Memory))) }
    {
        if let Err(error) = check_range(self.leaves, range.start, range.end) {
            return Err(error);
        }
        if range.start < self.start || range.start >= self.past {
            return Err(Error::ElementPruned(node_position(range.start.as_u64(), 0)));
        }
        if range.end > self.past {
            return Err(Error::ElementPruned(node_position(self.past.as_u64(), 0)));
        }
        let digests = self.range_digests(alloc, hasher, range.start.as_u64(), range.end.as_u64())?;
        Ok(Proof {
            leaves: self.leaves,
            inactive_peaks: self.inactive_peaks,
            digests,
        })
    }

    /// Returns the digests of the proof of the leaves from `start` to before `end`.
    fn range_digests<H: Hasher<F, Digest = D>>(
        &self,
        alloc: Global,
        hasher: &H,
        start: u64,
        end: u64,
    ) -> Result<Vec<D>, AllocError>
        requires range { (self.now.start ≤ start) × (start < end) × (end ≤ self.now.past)
            × (end ≤ self.now.leaves) }
        ensures { IfOk result (λ v. map D.text v.items
            ≡ (store_proof H.hash_of (ungrafted F.shape) self.now start end).digests) }
    {
        let siblings = siblings::<F>(alloc, self.leaves.as_u64(), start, end)?;
        let mut digests = Vec::new(alloc);
        push_some(&mut digests, self.fold_front(hasher, start))?;
        let rest = self.peaks().after_leading::<F>(start);
        self.add_peaks(hasher, rest, start, end, &mut digests)?;
        for position in &siblings {
            digests.push(self.at(hasher, *position))?;
        }
        Ok(digests)
    }

    /// Returns all peaks of the source's tree.
    fn peaks(&self) -> Rest
        ensures peaks { ArePeaks F.shape self.now.leaves result.first result.left }
        ensures first { result.first ≡ 0 }
        ensures left { result.left ≡ self.now.leaves }
        ensures folded { AreFolded F.shape self.now.bagging self.now.inactive
            self.now.leaves result.folded }
        ensures few { self.now.leaves ≤ max_leaves }
    {
        Rest::bagged::<F>(self.bagging, self.leaves.as_u64(), self.inactive_peaks)
    }

    /// Returns the fold of the peaks that are folded from the left and end at or before `start`: the source's fold,
    /// extended by peaks that are kept; none for no peaks.
    fn fold_front<H: Hasher<F, Digest = D>>(&self, hasher: &H, start: u64) -> Option<D>
        ensures { option_map D.text result ≡ forward_of H.hash_of
            (map (eval H.hash_of (store_values H.hash_of (ungrafted F.shape) self.now))
            (one_for (given front) (leading self.now.start (fore H.hash_of (ungrafted F.shape) self.now))
            ++ map peak_given (leading start
            (not_leading self.now.start (fore H.hash_of (ungrafted F.shape) self.now))))) }
    {
        let rest = self.peaks().after_leading::<F>(self.start.as_u64());
        let mut folded = None;
        if rest.first > 0 {
            folded = Some(self.front_fold);
        }
        for (first, height) in Leading::<F>::of(rest, start) {
            folded = Some(append(hasher, folded, &self.peak(hasher, first, height)));
        }
        folded
    }

    /// Adds to `digests` those of the peaks `rest`, which come after the leading fold, apart from the leaves from `start` to
    /// before `end`, and the fold of those past this range.
    fn add_peaks<H: Hasher<F, Digest = D>>(
        &self,
        hasher: &H,
        rest: Rest,
        start: u64,
        end: u64,
        digests: &mut Vec<D>,
    ) -> Result<(), AllocError>
        requires few { rest.first + rest.left ≤ max_leaves }
        requires peaks { AreAligned (F.shape.peaks rest.left) rest.first }
        requires range { (self.now.start ≤ start) × (end ≤ self.now.past) }
        requires late { trailing end (drop rest.folded (peaks_from F.shape rest.first rest.left))
            ≡ trailing end (aft H.hash_of (ungrafted F.shape) self.now) }
        ensures { OnOk result (map D.text digests.new.items ≡ map D.text digests.old.items
            ++ map (store_digest H.hash_of (ungrafted F.shape) self.now start end)
            (top_sites start end (peaks_from F.shape rest.first rest.left) rest.folded)) }
    {
        for top in Tops::<F>::apart(rest, start, end) {
            push_some(digests, self.top(hasher, top))?;
        }
        Ok(())
    }

    /// Returns the digest that is kept of `top`, if that is a peak or some peaks.
    fn top<H: Hasher<F, Digest = D>>(&self, hasher: &H, top: Top) -> Option<D>
        requires { IsPlacedTop F.shape top }
        ensures { option_map D.text result
            ≡ kept_met H.hash_of (ungrafted F.shape) self.now (met F.shape top) }
    {
        match top {
            Top::One(first, height) => Some(self.peak(hasher, first, height)),
            Top::Past(first, left) => self.fold_back(hasher, first, left),
        }
    }

    /// Returns the peaks over the last `left` leaves of the tree, from the leaf `first` on, folded from the right:
    /// those that are kept, onto the source's fold; none for no peaks.
    fn fold_back<H: Hasher<F, Digest = D>>(&self, hasher: &H, first: u64, left: u64) -> Option<D>
        requires few { first + left ≤ max_leaves }
        requires aligned { AreAligned (F.shape.peaks left) first }
        ensures { option_map D.text result ≡ right_of H.hash_of
            (λ p. stored_at H.hash_of (ungrafted F.shape) self.now (node p.first p.height))
            self.now.back_fold self.now.past (peaks_from F.shape first left) }
    {
        if left == 0 {
            return None;
        }
        if self.past.as_u64() <= first {
            return Some(self.back_fold);
        }
        let height = F::first_peak(left);
        let peak = self.peak(hasher, first, height);
        let rest = self.fold_back(hasher, first + power(height), left - power(height));
        Some(join(hasher, &peak, rest))
    }

    /// Returns the digest that is kept of the peak of height `height` over the leaf `first`.
    fn peak<H: Hasher<F, Digest = D>>(&self, hasher: &H, first: u64, height: u32) -> D
        requires aligned { first % 2 ^ height ≡ 0 }
        requires within { first + 2 ^ height ≤ max_leaves }
        ensures { D.text result
            ≡ stored_at H.hash_of (ungrafted F.shape) self.now (node first height) }
    {
        self.at(hasher, node_position(first, height))
    }

    /// Returns the digest that is kept at `position`; that of no bytes if there is none, which is no position that a
    /// proof of leaves of the source comes to.
    fn at<H: Hasher<F, Digest = D>>(&self, hasher: &H, position: Position<F>) -> D
        ensures { D.text result ≡ or_else (H.hash_of []) (entry_at position self.now.kept) }
    {
        match self.kept_at(position) {
            Some(digest) => digest,
            None => hasher.hash(&[]),
        }
    }
}
