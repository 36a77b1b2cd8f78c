//! The root that a multi proof and its elements give.
//!
//! A multi proof has the digests of the greatest nodes that hold none of the claimed locations, ascending by position. The
//! check goes down from each peak, to leaves that are claimed and nodes that are given, and folds the peaks.

ghost use Rattle.std.specs.Prelude.{◌≡◌, ℕ, ◌+◌, ◌-◌, ◌%◌, ◌^◌, ◌<◌, ◌≤◌, ◌++◌, List, length, map, option_map, IfOk, Contains};
ghost use Rattle.storage_merkle.specs.Calc.{Site, node, eval};
ghost use Rattle.storage_merkle.specs.CheckParts.{Present, Serves};
ghost use Rattle.storage_merkle.specs.Hashers.{TakesTree};
ghost use Rattle.storage_merkle.specs.Held.{proof_of};
ghost use Rattle.storage_merkle.specs.Multi.{Ascend, claims_of, locations, untouched};
ghost use Rattle.storage_merkle.specs.MultiParts.{AreGiven, IsMultiRecomputed, claimed_values};
ghost use Rattle.storage_merkle.specs.Nodes.{IsNode};
ghost use Rattle.storage_merkle.specs.Plans.{InTree};
ghost use Rattle.storage_merkle.specs.RangeProofs.{sites_in, sites_of};
ghost use Rattle.storage_merkle.specs.Rests.{peaks_from};
ghost use Rattle.storage_merkle.specs.Trees.{node_calc, part, ungrafted};

mod needed;

use crate::merkle::family::power;
use crate::merkle::hasher::Hasher;
use crate::merkle::multi::needed::{ascend, split};
use crate::merkle::plan::{node_position, peak_count};
use crate::merkle::{Family, Location, MAX_LEAVES, PeakNodes, Position, Proof};
pub(crate) use needed::{Located, needed};
use std::alloc::{AllocError, Global};
use std::convert::AsSlice;
use storage_codec::NoMemory;
use storage_codec::digest::Digest;

/// Returns the root of the tree in which the elements of `claims` stand at their locations, as `proof` has it; none if
/// a count does not fit or the locations do not ascend.
pub(crate) fn recompute<F: Family, H: Hasher<F>, E: AsSlice<u8>>(
    proof: &Proof<F, H::Digest>,
    alloc: Global,
    hasher: &H,
    claims: &[(E, Location<F>)],
) -> Result<Option<H::Digest>, NoMemory>
    requires { TakesTree (H.takes hasher.now) F.shape proof.now.leaves }
    ensures { IfOk result (λ root. IsMultiRecomputed H.hash_of (H.layout hasher.now)
        (H.bagging hasher.now) (proof_of H.Digest.text proof.now) (claims_of E.items claims.now)
        (H.chunk hasher.now) (option_map H.Digest.text root)) }
{
    let leaves = proof.leaves.as_u64();
    if leaves > MAX_LEAVES || !ascend(claims, leaves) {
        return Ok(None);
    }
    if proof.inactive_peaks as u64 > peak_count::<F>(leaves) {
        return Ok(None);
    }
    let positions = needed::<F, (E, Location<F>)>(alloc, leaves, claims)?;
    if positions.len() != proof.digests.len() {
        return Ok(None);
    }
    let given = Given {
        leaves,
        positions: &positions,
        digests: &proof.digests,
    };
    let peaks = given.peaks(alloc, hasher, claims)?;
    Ok(Some(hasher.root(proof.leaves, proof.inactive_peaks, &peaks)))
}

/// The nodes of a tree whose digests a check is given.
#[derive_where(Clone, Copy)]
struct Given<'a, F, D> {
    /// How many leaves the tree has.
    leaves: u64,
    /// The positions of these nodes, ascending.
    positions: &'a [Position<F>],
    /// The digests of these nodes, in the order of `positions`.
    digests: &'a [D],
}

impl<F: Family, D: Digest> Given<'_, F, D> {
    /// Returns the digests of the peaks, from the elements of `claims` and the given digests.
    fn peaks<H: Hasher<F, Digest = D>, E: AsSlice<u8>>(
        &self,
        alloc: Global,
        hasher: &H,
        claims: &[(E, Location<F>)],
    ) -> Result<Vec<D>, AllocError>
        requires given { AreGiven self.now.leaves self.now.positions.now self.now.digests.now }
        requires takes { TakesTree (H.takes hasher.now) F.shape self.now.leaves }
        requires rising { Ascend 0 self.now.leaves (locations (claims_of E.items claims.now)) }
        requires present { Present F.shape self.now.positions.now
            (sites_in (ungrafted F.shape) (untouched (locations (claims_of E.items claims.now)))
            (peaks_from F.shape 0 self.now.leaves)) }
        ensures all { IfOk result (λ peaks.
            length peaks.items ≡ length (F.shape.peaks self.now.leaves)) }
        ensures exact { IfOk result (λ peaks. (digest : Site → List ℕ)
            → Serves F.shape digest self.now.positions.now (map D.text self.now.digests.now)
            → map D.text peaks.items ≡ map (λ p. eval H.hash_of
            (claimed_values digest (claims_of E.items claims.now) (H.chunk hasher.now))
            (part (H.layout hasher.now) (untouched (locations (claims_of E.items claims.now))) p))
            (peaks_from F.shape 0 self.now.leaves)) }
    {
        let mut peaks = Vec::new(alloc);
        let mut rest = claims;
        for (first, height) in PeakNodes::<F>::over(self.leaves) {
            let (here, later) = split(rest, first + power(height));
            peaks.push(self.node(hasher, first, height, here))?;
            rest = later;
        }
        Ok(peaks)
    }

    /// Returns the digest of the node of height `height` over the leaf `first`, from the elements of `claims`, which
    /// all are under it, and the digests of the nodes beside them.
    fn node<H: Hasher<F, Digest = D>, E: AsSlice<u8>>(
        &self,
        hasher: &H,
        first: u64,
        height: u32,
        claims: &[(E, Location<F>)],
    ) -> D
        requires given { AreGiven self.now.leaves self.now.positions.now self.now.digests.now }
        requires small { height ≤ 62 }
        requires within { InTree F.shape self.now.leaves first height }
        requires takes { TakesTree (H.takes hasher.now) F.shape self.now.leaves }
        requires rising { Ascend first (first + 2 ^ height)
            (locations (claims_of E.items claims.now)) }
        requires present { Present F.shape self.now.positions.now
            (sites_of (node_calc (ungrafted F.shape)
            (untouched (locations (claims_of E.items claims.now))) height first)) }
        ensures { (digest : Site → List ℕ) → Serves F.shape digest self.now.positions.now
            (map D.text self.now.digests.now) → D.text result ≡ eval H.hash_of (claimed_values
            digest (claims_of E.items claims.now) (H.chunk hasher.now)) (node_calc
            (H.layout hasher.now) (untouched (locations (claims_of E.items claims.now))) height
            first) }
    {
        let position = node_position(first, height);
        if claims.is_empty() {
            return self.digest(position);
        }
        if height == 0 {
            let (element, _) = &claims[0];
            return hasher.leaf_digest(position, element.as_slice());
        }
        let middle = first + power(height - 1);
        let (before, after) = split(claims, middle);
        let left = self.node(hasher, first, height - 1, before);
        let right = self.node(hasher, middle, height - 1, after);
        hasher.node_digest(position, &left, &right)
    }

    /// Returns the given digest of the node at `position`, which is among the given ones.
    fn digest(&self, position: Position<F>) -> D
        requires given { AreGiven self.now.leaves self.now.positions.now self.now.digests.now }
        requires present { Contains self.now.positions.now position }
        ensures { (digest : Site → List ℕ) (first height : ℕ)
            → Serves F.shape digest self.now.positions.now (map D.text self.now.digests.now)
            → IsNode F.shape position first height
            → D.text result ≡ digest (node first height) }
    {
        let index = self.positions.binary_search(&position).unwrap();
        self.digests[index]
    }
}
