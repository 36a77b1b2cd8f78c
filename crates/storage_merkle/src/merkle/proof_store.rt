//! What is kept of an accepted range proof, to give other proofs.
//!
//! A store proves any sub-range and any locations inside the source's range, without asking the server again. Peaks past
//! the range came as one fold, which cannot be taken apart: a multi proof that needs one of them is given its digest by the
//! caller.

ghost use Rattle.std.specs.Prelude.{◌≡◌, ◌≢◌, ℕ, ◌+◌, ◌-◌, ◌*◌, ◌%◌, ◌<◌, ◌≤◌, ◌⊎◌, ◌++◌, ◌∷◌, [], List, drop, if◌then◌else◌, map, option_map, OnOk, Some, None, IfOk, IfErr, MatchResult};
ghost use Rattle.storage_merkle.specs.Extracted.{by_bytes};
ghost use Rattle.storage_merkle.specs.Held.{proof_of};
ghost use Rattle.storage_merkle.specs.RangeProofs.{trailing};
ghost use Rattle.storage_merkle.specs.Rests.{peaks_from};
ghost use Rattle.storage_merkle.specs.Shape.{max_leaves};
ghost use Rattle.storage_merkle.specs.Stores.{entry_at, found_at, is_among, location_refusal, multi_refusal, needed_refusal, or_else, store_multi_proof, suffix_positions};

mod construct;
mod range;

use crate::merkle::multi::needed;
use crate::merkle::plan::node_position;
use crate::merkle::{Bagging, Error, Family, Location, PeakNodes, Position, Proof};
use std::alloc::{AllocError, Global};
use std::marker::Model;
use storage_codec::NoMemory;
use storage_codec::digest::Digest;

/// The digests that an accepted range proof gave: of the nodes that its check read or computed, of the peaks apart from the
/// range that it holds one by one, and the folds of the other peaks. A folded peak is not kept, even a single one.
#[derive(Drop)]
pub struct ProofStore<F: Family, D: Digest> {
    leaves: Location<F>,
    inactive_peaks: usize,
    bagging: Bagging,
    start: Location<F>,
    past: Location<F>,
    front_fold: D,
    back_fold: D,
    kept: Vec<(Position<F>, D)>,
}

impl<F: Family, D: Digest> Model for ProofStore<F, D> {
    ghost use Rattle.std.specs.List.Sorted.{IsNonDecreasing};
    ghost use Rattle.std.specs.Prelude.{◌≤◌, map};
    ghost use Rattle.storage_merkle.specs.Extracted.{by_bytes};
    ghost use Rattle.storage_merkle.specs.Stores.{Store};
    ghost use Rattle.storage_merkle.specs.Shape.{max_leaves};

    ghost Value = { Store };

    ghost view = { λ s. record {
      leaves = s.leaves;
      inactive = s.inactive_peaks;
      bagging = s.bagging;
      start = s.start;
      past = s.past;
      front_fold = D.text s.front_fold;
      back_fold = D.text s.back_fold;
      kept = by_bytes D.text s.kept.items;
    } };

    ghost invariant = { λ s. (s.leaves ≤ max_leaves)
        × IsNonDecreasing (map (λ e. e.0) s.kept.items) };
}

impl<F: Family, D: Digest> ProofStore<F, D> {
    /// Returns a proof of the leaves at `locations`, which must ascend, each once, from the digests that are kept and,
    /// for a node without one, from the first of `peaks` at its position. The digests of `peaks` are not checked.
    ///
    /// # Errors
    ///
    /// `Empty` for no locations; of the first location for which it holds, in the order of the list, `UnsortedLocation`
    /// if it is below the one before it, `DuplicateLocation` if it equals it, and `RangeOutOfBounds` if it is not in
    /// the tree; of the first needed position without a digest, in ascending order, `CompressedDigest` if it is one of
    /// [`suffix_peak_positions`](Self::suffix_peak_positions), else `ElementPruned`; `Memory`.
    pub fn multi_proof(
        &self,
        alloc: Global,
        locations: &[Location<F>],
        peaks: &[(Position<F>, D)],
    ) -> Result<Proof<F, D>, Error<F>>
        ensures given { IfOk result (λ proof. (multi_refusal F F.shape self.now
            (by_bytes D.text peaks.now) locations.now ≡ None) × (proof_of D.text proof
            ≡ store_multi_proof F.shape self.now (by_bytes D.text peaks.now) locations.now)) }
        ensures why { IfErr result (λ e. (multi_refusal F F.shape self.now
            (by_bytes D.text peaks.now) locations.now ≡ Some e) ⊎ (e ≡ Error.Memory)) }
    {
        if locations.is_empty() {
            return Err(Error::Empty);
        }
        if let Err(error) = check_locations(locations, self.leaves.as_u64()) {
            return Err(error);
        }
        let positions = needed::<F, Location<F>>(alloc, self.leaves.as_u64(), locations)?;
        match self.digests_at(alloc, &positions, peaks) {
            Ok(digests) => Ok(Proof {
                leaves: self.leaves,
                inactive_peaks: self.inactive_peaks,
                digests,
            }),
            Err(error) => Err(error),
        }
    }

    /// Returns the positions of the peaks in the fold of those past the leaves that the source proves, ascending.
    pub fn suffix_peak_positions(&self, alloc: Global) -> Result<Vec<Position<F>>, NoMemory>
        ensures { IfOk result (λ v. v.items ≡ suffix_positions F.shape self.now) }
    {
        let mut positions = Vec::new(alloc);
        match self.bagging {
            Bagging::ForwardFold => {}
            Bagging::BackwardFold => add_past(
                self.past.as_u64(),
                self.leaves.as_u64(),
                self.inactive_peaks as u64,
                &mut positions,
            )?,
        }
        positions.sort_unstable();
        Ok(positions)
    }

    /// Returns the digests at `positions`: of each the kept one, else that of the first of `peaks` there. Refuses as
    /// [`multi_proof`](Self::multi_proof) does for the first position without one.
    fn digests_at(
        &self,
        alloc: Global,
        positions: &[Position<F>],
        peaks: &[(Position<F>, D)],
    ) -> Result<Vec<D>, Error<F>>
        ensures all { IfOk result (λ v. (needed_refusal F self.now (by_bytes D.text peaks.now)
            (suffix_positions F.shape self.now) positions.now ≡ None) × (map D.text v.items
            ≡ map (λ p. or_else [] (found_at self.now
            (by_bytes D.text peaks.now) p)) positions.now)) }
        ensures why { IfErr result (λ e. (needed_refusal F self.now (by_bytes D.text peaks.now)
            (suffix_positions F.shape self.now) positions.now ≡ Some e) ⊎ (e ≡ Error.Memory)) }
    {
        let mut digests = Vec::with_capacity(alloc, positions.len())?;
        for position in positions {
            let Some(digest) = self.digest_at(*position, peaks) else {
                return Err(self.missing(alloc, *position));
            };
            digests.push(digest)?;
        }
        Ok(digests)
    }

    /// Returns the digest at `position`: the kept one, else that of the first of `peaks` there.
    fn digest_at(&self, position: Position<F>, peaks: &[(Position<F>, D)]) -> Option<D>
        ensures { option_map D.text result ≡ found_at self.now
            (by_bytes D.text peaks.now) position }
    {
        match self.kept_at(position) {
            Some(digest) => Some(digest),
            None => first_at(position, peaks),
        }
    }

    /// Returns the digest that is kept at `position`.
    fn kept_at(&self, position: Position<F>) -> Option<D>
        ensures { option_map D.text result ≡ entry_at position self.now.kept }
    {
        let index = self.kept.partition_point(|entry| entry.0 < position);
        if index == self.kept.len() || self.kept[index].0 != position {
            return None;
        }
        Some(self.kept[index].1)
    }

    /// Returns why there is no proof where the digest of the needed node at `position` is neither kept nor given;
    /// `Memory` if there was none to find out.
    fn missing(&self, alloc: Global, position: Position<F>) -> Error<F>
        ensures { (result ≡ (if is_among position (suffix_positions F.shape self.now)
            then Error.CompressedDigest position else Error.ElementPruned position))
            ⊎ (result ≡ Error.Memory) }
    {
        match self.suffix_peak_positions(alloc) {
            Ok(suffix) => {
                if suffix.contains(&position) {
                    Error::CompressedDigest(position)
                } else {
                    Error::ElementPruned(position)
                }
            }
            Err(_) => Error::Memory,
        }
    }
}

/// Returns the digest of the first of `entries` at `position`.
fn first_at<F: Family, D: Digest>(position: Position<F>, entries: &[(Position<F>, D)]) -> Option<D>
    ensures { option_map D.text result ≡ entry_at position (by_bytes D.text entries.now) }
{
    for (at, digest) in entries {
        if *at == position {
            return Some(*digest);
        }
    }
    None
}

/// Returns whether `locations` ascend, each once, and are below `leaves`.
///
/// # Errors
///
/// Of the first location for which it holds: `UnsortedLocation` if it is below the one before it, `DuplicateLocation`
/// if it equals it, `RangeOutOfBounds` if it is not below `leaves`.
fn check_locations<F: Family>(locations: &[Location<F>], leaves: u64) -> Result<(), Error<F>>
    requires { leaves ≤ max_leaves }
    ensures { MatchResult result (λ _. location_refusal F 0 leaves locations.now ≡ None) (λ e.
        location_refusal F 0 leaves locations.now ≡ Some e) }
{
    let mut next = 0;
    for location in locations {
        let number = location.as_u64();
        if number < next {
            if number + 1 < next {
                return Err(Error::UnsortedLocation(*location));
            }
            return Err(Error::DuplicateLocation(*location));
        }
        if number >= leaves {
            return Err(Error::RangeOutOfBounds(*location));
        }
        next = number + 1;
    }
    Ok(())
}

/// Adds to `positions` those of the peaks of the tree over `leaves` leaves that begin at the leaf `past` or after it, but
/// of the first `folded` peaks none.
fn add_past<F: Family>(
    past: u64,
    leaves: u64,
    folded: u64,
    positions: &mut Vec<Position<F>>,
) -> Result<(), AllocError>
    requires { leaves ≤ max_leaves }
    ensures { OnOk result
        (positions.new.items ≡ positions.old.items ++ map (λ p. F.shape.position p.first p.height)
        (trailing past (drop folded (peaks_from F.shape 0 leaves)))) }
{
    let mut folded = folded;
    for (first, height) in PeakNodes::<F>::over(leaves) {
        if folded > 0 {
            folded -= 1;
        } else if past <= first {
            positions.push(node_position(first, height))?;
        }
    }
    Ok(())
}
