//! Which nodes a range proof needs, and the proof from their digests.
//!
//! A plan asks for the greatest nodes that hold no leaf of the range, and for no others. Siblings come last, ascending by
//! position, which in an MMB is not from left to right. A plan knows no digest, so it serves trees in memory, stores that
//! may fail and grafted views alike.

ghost use Rattle.std.specs.Prelude.{◌≡◌, ℕ, ◌+◌, ◌-◌, ◌*◌, ◌%◌, ◌^◌, ◌<◌, ◌≤◌, ◌++◌, ◌⊎◌, List, length, map, Some, None, Err, IfOk, IfErr, OnOk, MatchOption, MatchResult, if◌then◌else◌};
ghost use Rattle.std.specs.List.{All, AllZip};
ghost use Rattle.std.specs.List.Sorted.{IsStrictlyIncreasing};
ghost use Rattle.storage_merkle.specs.Held.{proof_of};
ghost use Rattle.storage_merkle.specs.Shape.{max_leaves};
ghost use Rattle.storage_merkle.specs.Plans.{ArePlanned, IsFirstAbsent, IsGathered, IsOwnOfEach, PlanOf, planned, planned_sites, refusal};
ghost use Rattle.storage_merkle.specs.PlanParts.{AreOf, site_digest};
ghost use Rattle.storage_merkle.specs.RangeProofs.{apart, position_of, sites, sites_of};
ghost use Rattle.storage_merkle.specs.Rests.{peaks_from};
ghost use Rattle.storage_merkle.specs.Siblings.{sibling_sites};
ghost use Rattle.storage_merkle.specs.Trees.{folded, node_calc, unfolded, ungrafted};

pub(crate) mod digests;

use crate::merkle::family::power;
use crate::merkle::hasher::Hasher;
use crate::merkle::plan::digests::{Nodes, push_some};
use crate::merkle::walk::Rest;
use crate::merkle::{Error, Family, Location, MAX_LEAVES, PeakNodes, Position, Proof};
use std::alloc::{AllocError, Global};
use std::marker::Model;
use std::ops::Range;
use storage_codec::digest::Digest;

/// The plan of a range proof: which nodes of a tree the proof of a range of leaves needs.
#[derive(Drop)]
pub struct RangePlan<F: Family> {
    leaves: Location<F>,
    start: Location<F>,
    end: Location<F>,
    positions: Vec<Position<F>>,
    siblings: Vec<Position<F>>,
}

impl<F: Family> Model for RangePlan<F> {
    ghost Value = { PlanOf };

    ghost view = { λ s. record { leaves = s.leaves; start = s.start; end = s.end } };

    ghost invariant = { λ s.
        ArePlanned F.shape s.leaves s.start s.end s.positions.items s.siblings.items };
}

impl<F: Family> RangePlan<F> {
    /// Returns the plan of the leaves of `range` in the tree over `leaves` leaves.
    ///
    /// # Errors
    ///
    /// The first of: `LocationOverflow(leaves)` if `leaves` is past `MAX_LEAVES`; `Empty` if `range` holds no leaf;
    /// `LocationOverflow` of the last leaf of `range` if its end is past `MAX_LEAVES`; `RangeOutOfBounds` of that leaf
    /// if it is not in the tree; `Memory`.
    pub fn new(
        alloc: Global,
        leaves: Location<F>,
        range: Range<Location<F>>,
    ) -> Result<Self, Error<F>>
        ensures { MatchOption (refusal F leaves range.start range.end) (MatchResult result
            (λ plan. plan ≡ record { leaves = leaves; start = range.start; end = range.end })
            (λ e. e ≡ Error.Memory)) (λ e. result ≡ Err e) }
    {
        Self::over(alloc, leaves, range.start, range.end)
    }

    /// Returns the plan of the leaves from `start` to before `end` in the tree over `leaves` leaves, as
    /// [`new`](Self::new) answers it.
    fn over(
        alloc: Global,
        leaves: Location<F>,
        start: Location<F>,
        end: Location<F>,
    ) -> Result<Self, Error<F>>
        ensures { MatchOption (refusal F leaves start end) (MatchResult result (λ plan. plan
            ≡ record { leaves = leaves; start = start; end = end }) (λ e. e ≡ Error.Memory))
            (λ e. result ≡ Err e) }
    {
        if let Err(error) = check_range(leaves, start, end) {
            return Err(error);
        }
        let siblings = siblings::<F>(alloc, leaves.as_u64(), start.as_u64(), end.as_u64())?;
        let positions = positions_apart::<F>(
            alloc,
            leaves.as_u64(),
            start.as_u64(),
            end.as_u64(),
            true,
        )?;
        Ok(RangePlan {
            leaves,
            start,
            end,
            positions,
            siblings,
        })
    }

    /// Returns the positions of all nodes whose digests the proof needs, ascending and each once: of a fold, those of
    /// each of its peaks.
    pub fn positions(&self) -> &[Position<F>]
        ensures value { result.now ≡ planned F.shape self.now.leaves self.now.start self.now.end }
        ensures rising { IsStrictlyIncreasing result.now }
    {
        &self.positions
    }

    /// Returns how many leaves the tree has.
    pub fn leaves(&self) -> Location<F>
        ensures value { result ≡ self.now.leaves }
        ensures few { result ≤ max_leaves }
    {
        self.leaves
    }

    /// Returns the first leaf of the range.
    pub fn start(&self) -> Location<F>
        ensures value { result ≡ self.now.start }
        ensures within { result < self.now.leaves }
    {
        self.start
    }

    /// Returns the leaf after the last one of the range.
    pub fn end(&self) -> Location<F>
        ensures value { result ≡ self.now.end }
        ensures within { result ≤ self.now.leaves }
    {
        self.end
    }

    /// Returns the proof under `hasher` with the first `inactive` peaks inactive, from the digests that `get_node`
    /// answers for the planned positions.
    ///
    /// # Errors
    ///
    /// The first of: `InvalidProof` if `inactive` is greater than the number of peaks; `ElementPruned` of the first
    /// planned position for which `get_node` answers none; `Memory`.
    pub fn build<H: Hasher<F>, G: Fn(Position<F>) -> Option<H::Digest>>(
        &self,
        alloc: Global,
        hasher: &H,
        inactive: usize,
        get_node: G,
    ) -> Result<Proof<F, H::Digest>, Error<F>>
        requires { All (λ p. G.pre get_node p)
            (planned F.shape self.now.leaves self.now.start self.now.end) }
        ensures own { IfOk result (λ proof. IsOwnOfEach H.Digest.text (G.post get_node) H.hash_of
            F.shape (H.bagging hasher.now) self.now inactive (proof_of H.Digest.text proof)) }
        ensures gathered { IfOk result (λ proof. IsGathered H.Digest.text (G.post get_node)
            H.hash_of F.shape (H.bagging hasher.now) self.now inactive
            (proof_of H.Digest.text proof)) }
        ensures answered { IfOk result (λ _. All (λ p. (d : _) × G.post get_node p (Some d))
            (planned F.shape self.now.leaves self.now.start self.now.end)) }
        ensures counts { IfOk result (λ proof.
            (proof.leaves ≡ self.now.leaves) × (proof.inactive_peaks ≡ inactive)
            × (inactive ≤ length (F.shape.peaks self.now.leaves))) }
        ensures why { IfErr result (λ e. ((length (F.shape.peaks self.now.leaves) < inactive)
            × (e ≡ Error.InvalidProof)) ⊎ ((inactive ≤ length (F.shape.peaks self.now.leaves))
            × (((p : ℕ) × (e ≡ Error.ElementPruned p) × IsFirstAbsent (G.post get_node) (planned
            F.shape self.now.leaves self.now.start self.now.end) p) ⊎ (e ≡ Error.Memory)))) }
    {
        if inactive as u64 > peak_count::<F>(self.leaves.as_u64()) {
            return Err(Error::InvalidProof);
        }
        let answered = match answers(alloc, &self.positions, get_node) {
            Ok(answered) => answered,
            Err(error) => return Err(error),
        };
        Ok(Proof {
            leaves: self.leaves,
            inactive_peaks: inactive,
            digests: self.digests(alloc, hasher, inactive, &answered)?,
        })
    }

    /// Returns the digests of the proof, from `answered`, those of the planned nodes in ascending order of positions.
    fn digests<H: Hasher<F>>(
        &self,
        alloc: Global,
        hasher: &H,
        inactive: usize,
        answered: &[H::Digest],
    ) -> Result<Vec<H::Digest>, AllocError>
        requires { length answered.now
            ≡ length (planned F.shape self.now.leaves self.now.start self.now.end) }
        ensures { let xs = folded (H.bagging hasher.now) inactive
            (peaks_from F.shape 0 self.now.leaves) in
            let ys = unfolded (H.bagging hasher.now) inactive
            (peaks_from F.shape 0 self.now.leaves) in
            IfOk result (λ v. (digest_of : ℕ → ℕ → List ℕ) → AreOf H.Digest.text F.shape
            (planned F.shape self.now.leaves self.now.start self.now.end) answered.now digest_of
            → map H.Digest.text v.items ≡ map (site_digest self.now.start self.now.end xs ys
            H.hash_of digest_of) (sites (ungrafted F.shape) self.now.start self.now.end
            (H.bagging hasher.now) self.now.leaves inactive)) }
    {
        let nodes = Nodes {
            positions: &self.positions,
            digests: answered,
        };
        let mut digests = Vec::with_capacity(alloc, self.positions.len())?;
        let peaks = Rest::all::<F, H>(hasher, self.leaves.as_u64(), inactive);
        let start = self.start.as_u64();
        push_some(&mut digests, nodes.fold_leading(hasher, peaks, start))?;
        let rest = peaks.after_leading::<F>(start);
        nodes.add_peaks(hasher, rest, start, self.end.as_u64(), &mut digests)?;
        nodes.add_all(&self.siblings, &mut digests)?;
        Ok(digests)
    }
}

/// Returns whether the leaves from `start` to before `end` are a range of the tree over `leaves` leaves.
///
/// # Errors
///
/// Those of [`RangePlan::new`] but `Memory`.
pub(crate) fn check_range<F: Family>(
    leaves: Location<F>,
    start: Location<F>,
    end: Location<F>,
) -> Result<(), Error<F>>
    ensures { MatchResult result (λ _. refusal F leaves start end ≡ None)
        (λ e. refusal F leaves start end ≡ Some e) }
{
    if !leaves.is_valid() {
        return Err(Error::LocationOverflow(leaves));
    }
    if start >= end {
        return Err(Error::Empty);
    }
    let last = Location::new(end.as_u64() - 1);
    if !end.is_valid() {
        return Err(Error::LocationOverflow(last));
    }
    if end > leaves {
        return Err(Error::RangeOutOfBounds(last));
    }
    Ok(())
}

/// Returns the digests that `get_node` answers at `positions`, for which it is asked in their order.
///
/// # Errors
///
/// `ElementPruned` of the first of `positions` for which it answers none; `Memory`.
fn answers<F: Family, D: Digest, G: Fn(Position<F>) -> Option<D>>(
    alloc: Global,
    positions: &[Position<F>],
    get_node: G,
) -> Result<Vec<D>, Error<F>>
    requires { All (λ p. G.pre get_node p) positions.now }
    ensures served { IfOk result (λ v.
        AllZip (λ p d. G.post get_node p (Some d)) positions.now v.items) }
    ensures why { IfErr result (λ e. ((p : ℕ) × (e ≡ Error.ElementPruned p)
        × IsFirstAbsent (G.post get_node) positions.now p) ⊎ (e ≡ Error.Memory)) }
{
    let mut answered = Vec::with_capacity(alloc, positions.len())?;
    for position in positions {
        let Some(digest) = get_node(*position) else {
            return Err(Error::ElementPruned(*position));
        };
        answered.push(digest)?;
    }
    Ok(answered)
}

/// The plan of the proof of one leaf.
#[derive(Drop)]
pub struct ElementPlan<F: Family> {
    plan: RangePlan<F>,
}

impl<F: Family> Model for ElementPlan<F> {
    ghost Value = { PlanOf };

    ghost view = { λ s. s.plan };

    ghost invariant = { λ s. s.plan.end ≡ s.plan.start + 1 };
}

impl<F: Family> ElementPlan<F> {
    /// Returns the plan of the leaf at `location` in the tree over `leaves` leaves.
    ///
    /// # Errors
    ///
    /// The first of: `LocationOverflow(leaves)` if `leaves` is past `MAX_LEAVES`; `LocationOverflow(location)` if
    /// `location` is `MAX_LEAVES` or more; `RangeOutOfBounds(location)` if it is `leaves` or more; `Memory`.
    pub fn new(alloc: Global, leaves: Location<F>, location: Location<F>) -> Result<Self, Error<F>>
        ensures { MatchOption (refusal F leaves location (location + 1)) (MatchResult result
            (λ plan. plan ≡ record { leaves = leaves; start = location; end = location + 1 })
            (λ e. e ≡ Error.Memory)) (λ e. result ≡ Err e) }
    {
        if !leaves.is_valid() {
            return Err(Error::LocationOverflow(leaves));
        }
        if location.as_u64() >= MAX_LEAVES {
            return Err(Error::LocationOverflow(location));
        }
        let end = Location::new(location.as_u64() + 1);
        match RangePlan::over(alloc, leaves, location, end) {
            Ok(plan) => Ok(ElementPlan { plan }),
            Err(error) => Err(error),
        }
    }

    /// Returns the location of the leaf.
    pub fn location(&self) -> Location<F>
        ensures value { result ≡ self.now.start }
        ensures within { result < self.now.leaves }
    {
        self.plan.start()
    }

    /// Returns the plan of the range that is this one leaf.
    pub fn into(self) -> RangePlan<F>
        ensures value { result ≡ self }
        ensures one { result.end ≡ result.start + 1 }
    {
        self.plan
    }
}

/// Returns how many peaks the tree over `leaves` leaves has.
pub(crate) fn peak_count<F: Family>(leaves: u64) -> u64
    requires { leaves ≤ max_leaves }
    ensures { result ≡ length (F.shape.peaks leaves) }
{
    2 * leaves - F::nodes_over(leaves)
}

/// Returns the positions, ascending, of the siblings: the greatest nodes with no leaf from `start` to before `end`,
/// inside those peaks of the tree over `leaves` leaves that have one.
pub(crate) fn siblings<F: Family>(
    alloc: Global,
    leaves: u64,
    start: u64,
    end: u64,
) -> Result<Vec<Position<F>>, AllocError>
    requires { leaves ≤ max_leaves }
    ensures { IfOk result (λ v. v.items ≡ map (position_of (ungrafted F.shape))
        (sibling_sites (ungrafted F.shape) leaves start end)) }
{
    positions_apart(alloc, leaves, start, end, false)
}

/// Returns the positions, ascending, of the greatest nodes of the tree over `leaves` leaves with no leaf from `start`
/// to before `end`: all of them, or if `whole_peaks` is false the siblings alone.
fn positions_apart<F: Family>(
    alloc: Global,
    leaves: u64,
    start: u64,
    end: u64,
    whole_peaks: bool,
) -> Result<Vec<Position<F>>, AllocError>
    requires { leaves ≤ max_leaves }
    ensures { IfOk result (λ v. v.items ≡ map (position_of (ungrafted F.shape)) (if whole_peaks
        then planned_sites (ungrafted F.shape) leaves start end
        else sibling_sites (ungrafted F.shape) leaves start end)) }
{
    let mut positions = Vec::new(alloc);
    for (first, height) in PeakNodes::<F>::over(leaves) {
        if whole_peaks || !is_apart(start, end, first, height) {
            add_apart(start, end, first, height, &mut positions)?;
        }
    }
    positions.sort_unstable();
    Ok(positions)
}

/// Adds to `positions` those of the greatest nodes with no leaf from `start` to before `end`, at or under the node of
/// height `height` over the leaf `first`.
fn add_apart<F: Family>(
    start: u64,
    end: u64,
    first: u64,
    height: u32,
    positions: &mut Vec<Position<F>>,
) -> Result<(), AllocError>
    requires aligned { first % 2 ^ height ≡ 0 }
    requires small { height ≤ 62 }
    requires within { first + 2 ^ height ≤ max_leaves }
    ensures { OnOk result
        (positions.new.items ≡ positions.old.items ++ map (position_of (ungrafted F.shape))
        (sites_of (node_calc (ungrafted F.shape) (apart start end) height first))) }
{
    if is_apart(start, end, first, height) {
        positions.push(node_position(first, height))?;
        return Ok(());
    }
    if height == 0 || start <= first && first + power(height) <= end {
        return Ok(());
    }
    add_apart(start, end, first, height - 1, positions)?;
    add_apart(start, end, first + power(height - 1), height - 1, positions)
}

/// Returns whether the node of height `height` over the leaf `first` has no leaf from `start` to before `end`.
pub(crate) fn is_apart(start: u64, end: u64, first: u64, height: u32) -> bool
    requires small { height ≤ 62 }
    requires within { first + 2 ^ height ≤ max_leaves }
    ensures { result ≡ apart start end first height }
{
    first + power(height) <= start || end <= first
}

/// Returns the position of the node of height `height` over the leaf `first`.
pub(crate) fn node_position<F: Family>(first: u64, height: u32) -> Position<F>
    requires aligned { first % 2 ^ height ≡ 0 }
    requires within { first + 2 ^ height ≤ max_leaves }
    ensures { result ≡ F.shape.position first height }
{
    Position::new(F::position(first, height))
}
