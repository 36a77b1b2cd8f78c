//! What is told of a snapshot for a copy that begins at an operation: a plain proof, and the pins of what is before it.

ghost use Rattle.std.specs.Prelude.{◌≡◌, ℕ, ◌*◌, ◌^◌, ◌<◌, ◌≤◌, List, map, min, IfOk, IfErr, MatchOption};
ghost use Rattle.storage_merkle.specs.declared.merkle.bagging.Bagging.TheVariants.{BackwardFold};
ghost use Rattle.storage_merkle.specs.Held.{proof_of};
ghost use Rattle.storage_merkle.specs.Kept.{NodesOver, StandsFor, at_peaks};
ghost use Rattle.storage_merkle.specs.Plans.{refusal};
ghost use Rattle.storage_merkle.specs.RangeProofs.{own_proof};
ghost use Rattle.storage_merkle.specs.Shape.{max_leaves};
ghost use Rattle.storage_merkle.specs.Trees.{listed, ungrafted};
ghost use Rattle.storage_bitmap.specs.Chunks.{bit_count};
ghost use Rattle.storage_ops.specs.declared.qmdb.error.Error.TheVariants.{Merkle, Memory};
ghost use Rattle.storage_current.specs.Beginnings.{ArePinsOfView, IsOwnPlainProof, IsPinsRefused, IsPlainRefused};
ghost use Rattle.storage_current.specs.KeptSnapshots.{StandsForSnapshot, pruned_operations};
ghost use Rattle.storage_current.specs.NodeLists.{IsGrown, IsOver};
ghost use Rattle.storage_current.specs.Pins.{operation_pins};
ghost use Rattle.storage_current.specs.Snapshots.{Snapshot as SnapshotOf, exact, grafting_of, height};

use super::Snapshot;
use crate::qmdb::current::chunks::pruned_bits;
use crate::qmdb::current::grafting::{self, exact_inactive, power};
use std::alloc::Global;
use std::ops::Range;
use storage_bitmap::bitmap::Readable;
use storage_codec::NoMemory;
use storage_codec::digest::Hasher;
use storage_merkle::laws::kept::trees_keep_the_nodes_of_their_list;
use storage_merkle::merkle::mem::Mem;
use storage_merkle::merkle::{self, Graftable, Location, MAX_LEAVES, PeakNodes, Position, Proof};
use storage_ops::qmdb::{self, Error};

impl<F: Graftable, H: Hasher, const N: usize> Snapshot<F, H, N> {
    /// Returns the plain proof of the operations of `range`: that of the tree over the operations alone, under the
    /// operations root. Memory comes from the snapshot's own allocator.
    ///
    /// # Errors
    ///
    /// The first of: `OperationPruned` of the first location if the operation there is pruned; `LocationOverflow`,
    /// `Empty` and `RangeOutOfBounds` as [`RangePlan::new`](storage_merkle::merkle::RangePlan::new) answers them;
    /// `Memory`.
    pub fn plain_proof(&self, range: Range<Location<F>>) -> Result<Proof<F, H::Digest>, Error<F>>
        ensures own { let g = grafting_of F.shape N in
            IfOk result (λ proof. (s : SnapshotOf) → StandsForSnapshot H.hash_of g self.now s
            → IsOwnPlainProof H.hash_of g s range.start range.end (proof_of H.Digest.text proof)) }
        ensures why { let g = grafting_of F.shape N in IfErr result (IsPlainRefused
            (pruned_operations g self.now.status) self.now.leaves range.start range.end) }
    {
        trees_keep_the_nodes_of_their_list(&self.operations);
        trees_keep_the_nodes_of_their_list(&self.chunks);
        let first = range.start;
        if first.as_u64() < pruned_bits(&self.status) {
            return Err(Error::OperationPruned(first));
        }
        proof_over::<F, H>(&self.operations, range, self.floor)
    }

    /// Returns the digests that the tree over the operations alone has of the peaks over those before `location`, in
    /// leaf order.
    ///
    /// # Errors
    ///
    /// The first of: `OperationPruned(location)` if an operation from there on is pruned; `RangeOutOfBounds(location)` if
    /// it is greater than the number of operations; `Memory`.
    pub fn operation_pins(
        &self,
        alloc: Global,
        location: Location<F>,
    ) -> Result<Vec<H::Digest>, Error<F>>
        ensures own { let g = grafting_of F.shape N in
            IfOk result (λ pins. (s : SnapshotOf) → StandsForSnapshot H.hash_of g self.now s
            → map H.Digest.text pins.items ≡ operation_pins H.hash_of g s location) }
        ensures why { let g = grafting_of F.shape N in IfErr result
            (IsPinsRefused (pruned_operations g self.now.status) self.now.leaves location) }
    {
        trees_keep_the_nodes_of_their_list(&self.operations);
        trees_keep_the_nodes_of_their_list(&self.chunks);
        let count = location.as_u64();
        if count < pruned_bits(&self.status) {
            return Err(Error::OperationPruned(location));
        }
        if count > self.operations.leaves().as_u64() {
            return Err(Error::Merkle(merkle::Error::RangeOutOfBounds(location)));
        }
        match peaks_over::<F, H>(alloc, &self.operations, count) {
            Ok(pins) => Ok(pins),
            Err(_) => Err(Error::Memory),
        }
    }
}

/// Returns the proof of the leaves of `range` of `operations`, none of which is forgotten, with those peaks inactive that
/// end at or before `floor`.
fn proof_over<F: Graftable, H: Hasher>(
    operations: &Mem<F, H::Digest>,
    range: Range<Location<F>>,
    floor: Location<F>,
) -> Result<Proof<F, H::Digest>, Error<F>>
    requires few { operations.now.leaves ≤ max_leaves }
    requires kept { operations.now.boundary ≤ range.start }
    ensures own { IfOk result (λ proof. (list : List (List ℕ))
        → IsOver H.Digest.text H.hash_of F.shape operations.now list
        → proof_of H.Digest.text proof
        ≡ own_proof H.hash_of (ungrafted F.shape) BackwardFold (listed list)
        (exact F.shape operations.now.leaves floor) range.start range.end) }
    ensures why { IfErr result (λ e.
        MatchOption (refusal F operations.now.leaves range.start range.end) (e ≡ Memory)
        (λ refused. e ≡ Merkle refused)) }
{
    let exact = exact_inactive::<F>(operations.leaves().as_u64(), floor.as_u64());
    match operations.range_proof(&qmdb::hasher::<H>(), range, exact) {
        Ok(proof) => Ok(proof),
        Err(merkle::Error::Memory) => Err(Error::Memory),
        Err(error) => Err(Error::Merkle(error)),
    }
}

/// Returns the digests that `tree` keeps of the peaks over its first `count` leaves, in leaf order.
fn peaks_over<F: Graftable, H: Hasher>(
    alloc: Global,
    tree: &Mem<F, H::Digest>,
    count: u64,
) -> Result<Vec<H::Digest>, NoMemory>
    requires grown { IsGrown H.Digest.text H.hash_of F.shape tree.now }
    requires from { tree.now.boundary ≤ count }
    requires to { count ≤ tree.now.leaves }
    ensures { IfOk result (λ pins. (nodes : NodesOver) (list : List (List ℕ))
        → StandsFor H.Digest.text F.shape nodes tree.now list
        → map H.Digest.text pins.items ≡ at_peaks (nodes list) 0 (F.shape.peaks count)) }
{
    trees_keep_the_nodes_of_their_list(tree);
    let mut pins = Vec::new(alloc);
    for (first, height) in PeakNodes::<F>::over(count) {
        let position = Position::new(F::position(first, height));
        pins.push(tree.get_node(position).unwrap())?;
    }
    Ok(pins)
}

/// Returns the digests that the grafted view of `snapshot` has of the peaks over the first `chunks` chunks, in leaf order.
/// `None` if one of these peaks covers the operations of no node of the view: in an MMB it may come later. So it is if fewer
/// chunks are complete.
pub fn chunk_pins<F: Graftable, H: Hasher, const N: usize>(
    alloc: Global,
    snapshot: &Snapshot<F, H, N>,
    chunks: u64,
) -> Result<Option<Vec<H::Digest>>, NoMemory>
    ensures { let g = grafting_of F.shape N in
        chunks * 2 ^ height g ≤ min (bit_count N snapshot.now.status) max_leaves
        → (s : SnapshotOf) → StandsForSnapshot H.hash_of g snapshot.now s
        → IfOk result (λ o. ArePinsOfView H.Digest.text H.hash_of g s chunks o) }
{
    let most = snapshot.status().len().min(MAX_LEAVES);
    let above = grafting::height::<N>();
    let complete = most >> above;
    if chunks > complete {
        return Ok(None);
    }
    let mut pins = Vec::new(alloc);
    for (first, height) in PeakNodes::<F>::over(chunks) {
        let position = F::position(first * power(above), height + above);
        let Some(digest) = snapshot.get_node(Position::new(position)) else {
            return Ok(None);
        };
        pins.push(digest)?;
    }
    Ok(Some(pins))
}
