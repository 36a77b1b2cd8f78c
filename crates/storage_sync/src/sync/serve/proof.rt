//! The parts of a page that a snapshot has: the range proof, and the chunks of bits.

ghost use Rattle.std.specs.Prelude.{◌≡◌, ℕ, ◌+◌, ◌-◌, ◌*◌, ◌/◌, ◌^◌, ◌<◌, ◌≤◌, length, option_map, IfOk, IfErr};
ghost use Rattle.std.specs.List.{All};
ghost use Rattle.storage_merkle.specs.Plans.{planned};
ghost use Rattle.storage_bitmap.specs.Chunks.{IsChunkSize, bit_count, chunks_from};
ghost use Rattle.storage_current.specs.BuiltProofs.{AreBitsOf, ArePartsOf};
ghost use Rattle.storage_current.specs.Held.{range_proof_of};
ghost use Rattle.storage_current.specs.KeptSnapshots.{pruned_operations};
ghost use Rattle.storage_current.specs.NodeLists.{told_by};
ghost use Rattle.storage_current.specs.Snapshots.{Snapshot as SnapshotOf, grafting_of, own_range_proof};
ghost use Rattle.storage_sync.specs.Serving.{AreNeverAbsent, IsServed, IsServedTail, IsUnmade, TellsLeft};

use crate::sync::Unanswered;
use bytes::Bytes;
use std::alloc::Global;
use storage_bitmap::bitmap::{Prunable, Readable};
use storage_codec::NoMemory;
use storage_codec::digest::{Digest, Hasher};
use storage_current::laws::pins::planned_nodes_behind_pins_are_left;
use storage_current::qmdb::current::proof::{RangeProof, touched_chunks};
use storage_current::qmdb::current::{Snapshot, SnapshotTail};
use storage_merkle::laws::greatest_nodes_are_planned;
use storage_merkle::merkle::{self, Graftable, Location, Position, RangePlan};
use storage_ops::qmdb::Error;

/// Returns the own proof of the operations from `start` to before `end` of `snapshot`, which has the floor `floor`.
/// Each digest is read if it is used.
///
/// # Errors
///
/// `Corrupted` if the snapshot is not one; `Memory`.
pub(crate) fn own_proof<F: Graftable, H: Hasher, const N: usize>(
    alloc: Global,
    snapshot: &Snapshot<F, H, N>,
    floor: Location<F>,
    start: u64,
    end: u64,
) -> Result<RangeProof<F, H::Digest>, Unanswered>
    ensures own { let g = grafting_of F.shape N in
        (s : SnapshotOf) → IsServed H.hash_of g snapshot.now floor s
        → IfOk result (λ proof. range_proof_of H.Digest.text proof
        ≡ own_range_proof H.hash_of g s start end) }
    ensures why { let g = grafting_of F.shape N in
        (s : SnapshotOf) → IsServed H.hash_of g snapshot.now floor s → start < end
        → end ≤ length s.operations → pruned_operations g snapshot.now.status ≤ start
        → IfErr result (λ error. error ≡ Unanswered.Memory) }
    ensures kind { IfErr result IsUnmade }
{
    greatest_nodes_are_planned();
    let status = snapshot.status();
    let leaves = Location::new(status.len());
    let range = Location::new(start)..Location::new(end);
    let plan = match RangePlan::new(alloc, leaves, range) {
        Ok(plan) => plan,
        Err(error) => match error {
            merkle::Error::Memory => return Err(Unanswered::Memory),
            _ => return Err(Unanswered::Corrupted),
        },
    };
    let get_node = |position: Position<F>|
        ensures { option_map H.Digest.text result ≡ told_by snapshot.entry.now.nodes position }
    { snapshot.get_node(position) };
    let ops_root = snapshot.ops_root();
    proof_by::<F, H::Digest, H, _, N>(alloc, status, plan, get_node, floor, ops_root)
}

/// Returns the own proof of the operations from `start` to before `end` of `snapshot`, whose first chunks are told by pins.
/// Each digest is read if it is used.
///
/// # Errors
///
/// `Corrupted` if the snapshot is not one; `Memory`.
pub(crate) fn own_proof_behind<F: Graftable, H: Hasher, const N: usize>(
    alloc: Global,
    snapshot: &SnapshotTail<F, H, N>,
    start: u64,
    end: u64,
) -> Result<RangeProof<F, H::Digest>, Unanswered>
    ensures own { let g = grafting_of F.shape N in
        (s : SnapshotOf) → IsServedTail H.hash_of g snapshot.now s
        → pruned_operations g snapshot.now.status ≤ start
        → IfOk result (λ proof. range_proof_of H.Digest.text proof
        ≡ own_range_proof H.hash_of g s start end) }
    ensures why { let g = grafting_of F.shape N in
        (s : SnapshotOf) → IsServedTail H.hash_of g snapshot.now s → start < end
        → end ≤ length s.operations → pruned_operations g snapshot.now.status ≤ start
        → IfErr result (λ error. error ≡ Unanswered.Memory) }
    ensures kind { IfErr result IsUnmade }
{
    greatest_nodes_are_planned();
    planned_nodes_behind_pins_are_left();
    let status = snapshot.status();
    let leaves = Location::new(status.len());
    let range = Location::new(start)..Location::new(end);
    let plan = match RangePlan::new(alloc, leaves, range) {
        Ok(plan) => plan,
        Err(error) => match error {
            merkle::Error::Memory => return Err(Unanswered::Memory),
            _ => return Err(Unanswered::Corrupted),
        },
    };
    let get_node = |position: Position<F>|
        ensures { TellsLeft H.hash_of (grafting_of F.shape N) snapshot.entry.now position
            (option_map H.Digest.text result) }
    { snapshot.get_node(position) };
    let ops_root = snapshot.ops_root();
    let floor = snapshot.floor();
    proof_by::<F, H::Digest, H, _, N>(alloc, status, plan, get_node, floor, ops_root)
}

/// Returns the proof of the range of `plan`, from the digests that `get_node` answers for the planned positions: those
/// of the grafted view of a snapshot, with the bits `status`, the floor `floor` and the operations root `ops_root`.
fn proof_by<
    F: Graftable,
    D: Digest,
    H: Hasher<Digest = D>,
    G: Fn(Position<F>) -> Option<D>,
    const N: usize,
>(
    alloc: Global,
    status: &Prunable<N>,
    plan: RangePlan<F>,
    get_node: G,
    floor: Location<F>,
    ops_root: D,
) -> Result<RangeProof<F, D>, Unanswered>
    requires { All (λ p. G.pre get_node p) (planned F.shape plan.leaves plan.start plan.end) }
    ensures own { let g = grafting_of F.shape N in
        IfOk result (λ proof. (s : SnapshotOf) → ArePartsOf D.text (G.post get_node) H.hash_of g plan
        status.now floor (D.text ops_root) s
        → range_proof_of D.text proof ≡ own_range_proof H.hash_of g s plan.start plan.end) }
    ensures why { let g = grafting_of F.shape N in
        AreNeverAbsent (G.post get_node) (planned F.shape plan.leaves plan.start plan.end)
        → AreBitsOf g plan.leaves status.now
        → IfErr result (λ error. error ≡ Unanswered.Memory) }
    ensures kind { IfErr result IsUnmade }
{
    let proof = RangeProof::build::<H, Prunable<N>, G, N>(
        alloc, status, plan, get_node, floor, ops_root,
    );
    match proof {
        Ok(proof) => Ok(proof),
        Err(error) => match error {
            Error::Memory => Err(Unanswered::Memory),
            _ => Err(Unanswered::Corrupted),
        },
    }
}

/// Returns the chunks of the bits `status` that the operations from `start` to before `end` touch.
pub(crate) fn chunks_between<const N: usize>(
    alloc: Global,
    status: &Prunable<N>,
    start: u64,
    end: u64,
) -> Result<Vec<Bytes>, NoMemory>
    requires size { IsChunkSize N }
    requires some { start < end }
    requires within { end ≤ bit_count N status.now }
    requires kept { (h : ℕ) → 8 * N ≡ 2 ^ h → status.now.pruned ≤ start / 2 ^ h }
    ensures { (h : ℕ) → 8 * N ≡ 2 ^ h
        → IfOk result (λ v. v.items ≡ chunks_from N status.now.bits
        ((end - 1) / 2 ^ h - start / 2 ^ h + 1) (start / 2 ^ h - status.now.pruned)) }
{
    let touched = touched_chunks(alloc, status, start, end)?;
    let mut chunks = Vec::with_capacity(alloc, touched.len())?;
    for chunk in &touched {
        chunks.push(Bytes::copy_from_slice(alloc, chunk.as_slice())?)?;
    }
    Ok(chunks)
}
