//! The digests of planned nodes, and the peaks and folds of a proof from them.

ghost use Rattle.std.specs.Prelude.{◌≡◌, ℕ, ◌+◌, ◌-◌, ◌*◌, ◌%◌, ◌^◌, ◌<◌, ◌≤◌, ◌∷◌, ◌++◌, List, [], length, map, take, drop, option_map, None, OnOk, MatchOption};
ghost use Rattle.std.specs.List.{AllZip};
ghost use Rattle.storage_merkle.specs.Hashers.{folded_onto, forward_of};
ghost use Rattle.storage_merkle.specs.PlanParts.{AreAmong, AreInOrder, AreOf, ArePlannedApart, ArePlannedAll, IsAmong, IsPlannedMet, StandsAt, met_digest, peaks_by, site_digest};
ghost use Rattle.storage_merkle.specs.CheckParts.{top_sites};
ghost use Rattle.storage_merkle.specs.RangeProofs.{leading, trailing};
ghost use Rattle.storage_merkle.specs.Rests.{peaks_from};
ghost use Rattle.storage_merkle.specs.Walked.{IsPlacedTop, met};
ghost use Rattle.storage_merkle.specs.Shape.{AreAligned, max_leaves};
ghost use Rattle.storage_merkle.specs.Trees.{Peak};

use crate::merkle::family::power;
use crate::merkle::hasher::{Hasher, append, join};
use crate::merkle::plan::node_position;
use crate::merkle::walk::{Leading, Rest, Top, Tops};
use crate::merkle::{Family, Position};
use std::alloc::AllocError;
use storage_codec::digest::Digest;

/// The digests of planned nodes, by their positions in ascending order.
#[derive_where(Clone, Copy)]
pub(crate) struct Nodes<'a, F, D> {
    /// The positions of these nodes, ascending.
    pub positions: &'a [Position<F>],
    /// Their digests, in the order of `positions`.
    pub digests: &'a [D],
}

impl<F: Family, D: Digest> Nodes<'_, F, D> {
    /// Returns the digest of the planned node at `position`.
    fn digest(&self, position: Position<F>) -> D
        requires order { AreInOrder self.now.positions.now self.now.digests.now }
        requires among { IsAmong self.now.positions.now position }
        ensures { StandsAt self.now.positions.now self.now.digests.now position result }
    {
        match self.positions.binary_search(&position) {
            Ok(index) => self.digests[index],
            Err(_) => unreachable!(),
        }
    }

    /// Returns the digest of the planned node of height `height` over the leaf `first`.
    fn node(&self, first: u64, height: u32) -> D
        requires order { AreInOrder self.now.positions.now self.now.digests.now }
        requires aligned { first % 2 ^ height ≡ 0 }
        requires within { first + 2 ^ height ≤ max_leaves }
        requires among { IsAmong self.now.positions.now (F.shape.position first height) }
        ensures { StandsAt self.now.positions.now self.now.digests.now
            (F.shape.position first height) result }
    {
        self.digest(node_position(first, height))
    }

    /// Adds to `digests` those of the planned nodes at `positions`.
    pub fn add_all(&self, positions: &[Position<F>], digests: &mut Vec<D>) -> Result<(), AllocError>
        requires order { AreInOrder self.now.positions.now self.now.digests.now }
        requires among { AreAmong self.now.positions.now positions.now }
        ensures { OnOk result ((added : List D) × (digests.new.items ≡ digests.old.items ++ added)
            × AllZip (StandsAt self.now.positions.now self.now.digests.now) positions.now added) }
    {
        for position in positions {
            digests.push(self.digest(*position))?;
        }
        Ok(())
    }

    /// Returns those of `peaks` that lead, are folded from the left and end at or before `start`, folded from the left;
    /// none for no peaks.
    pub fn fold_leading<H: Hasher<F, Digest = D>>(
        &self,
        hasher: &H,
        peaks: Rest,
        start: u64,
    ) -> Option<D>
        requires order { AreInOrder self.now.positions.now self.now.digests.now }
        requires few { peaks.first + peaks.left ≤ max_leaves }
        requires peaks { AreAligned (F.shape.peaks peaks.left) peaks.first }
        requires planned { ArePlannedAll F.shape self.now.positions.now
            (leading start (take peaks.folded (peaks_from F.shape peaks.first peaks.left))) }
        ensures { (digest_of : ℕ → ℕ → List ℕ)
            → AreOf D.text F.shape self.now.positions.now self.now.digests.now digest_of
            → option_map D.text result ≡ forward_of H.hash_of (peaks_by digest_of
            (leading start (take peaks.folded (peaks_from F.shape peaks.first peaks.left)))) }
    {
        let mut folded = None;
        for (first, height) in Leading::<F>::of(peaks, start) {
            folded = Some(append(hasher, folded, &self.node(first, height)));
        }
        folded
    }

    /// Adds to `digests` those of the peaks `rest`, which come after the leading fold, apart from the leaves from
    /// `start` to before `end`, and the fold of those past this range.
    pub fn add_peaks<H: Hasher<F, Digest = D>>(
        &self,
        hasher: &H,
        rest: Rest,
        start: u64,
        end: u64,
        digests: &mut Vec<D>,
    ) -> Result<(), AllocError>
        requires order { AreInOrder self.now.positions.now self.now.digests.now }
        requires few { rest.first + rest.left ≤ max_leaves }
        requires peaks { AreAligned (F.shape.peaks rest.left) rest.first }
        requires planned { ArePlannedApart F.shape start end self.now.positions.now
            (peaks_from F.shape rest.first rest.left) }
        ensures { OnOk result ((digest_of : ℕ → ℕ → List ℕ) (xs ys : List Peak)
            → AreOf D.text F.shape self.now.positions.now self.now.digests.now digest_of
            → trailing end (drop rest.folded (peaks_from F.shape rest.first rest.left))
            ≡ trailing end ys → map D.text digests.new.items ≡ map D.text digests.old.items
            ++ map (site_digest start end xs ys H.hash_of digest_of)
            (top_sites start end (peaks_from F.shape rest.first rest.left) rest.folded)) }
    {
        for top in Tops::<F>::apart(rest, start, end) {
            push_some(digests, self.top(hasher, top))?;
        }
        Ok(())
    }

    /// Returns the digest of `top`, if that is a peak or some peaks.
    fn top<H: Hasher<F, Digest = D>>(&self, hasher: &H, top: Top) -> Option<D>
        requires order { AreInOrder self.now.positions.now self.now.digests.now }
        requires placed { IsPlacedTop F.shape top }
        requires planned { IsPlannedMet F.shape self.now.positions.now (met F.shape top) }
        ensures { (digest_of : ℕ → ℕ → List ℕ)
            → AreOf D.text F.shape self.now.positions.now self.now.digests.now digest_of
            → option_map D.text result ≡ met_digest H.hash_of digest_of (met F.shape top) }
    {
        match top {
            Top::One(first, height) => Some(self.node(first, height)),
            Top::Past(first, left) => self.fold_back(hasher, first, left),
        }
    }

    /// Returns the peaks over the last `left` leaves of a tree, from the leaf `first` on, folded from the right; none
    /// for no peaks.
    fn fold_back<H: Hasher<F, Digest = D>>(&self, hasher: &H, first: u64, left: u64) -> Option<D>
        requires order { AreInOrder self.now.positions.now self.now.digests.now }
        requires few { first + left ≤ max_leaves }
        requires aligned { AreAligned (F.shape.peaks left) first }
        requires planned { ArePlannedAll F.shape self.now.positions.now
            (peaks_from F.shape first left) }
        ensures { (digest_of : ℕ → ℕ → List ℕ)
            → AreOf D.text F.shape self.now.positions.now self.now.digests.now digest_of
            → option_map D.text result
            ≡ folded_onto H.hash_of (peaks_by digest_of (peaks_from F.shape first left)) None }
    {
        if left == 0 {
            return None;
        }
        let height = F::first_peak(left);
        let node = self.node(first, height);
        let rest = self.fold_back(hasher, first + power(height), left - power(height));
        Some(join(hasher, &node, rest))
    }
}

/// Adds `digest` to `digests`, if it is not none.
pub(crate) fn push_some<D: Digest>(
    digests: &mut Vec<D>,
    digest: Option<D>,
) -> Result<(), AllocError>
    ensures { OnOk result (MatchOption digest (digests.new.items ≡ digests.old.items) (λ d.
        digests.new.items ≡ digests.old.items ++ d ∷ [])) }
{
    if let Some(digest) = digest {
        digests.push(digest)?;
    }
    Ok(())
}
