//! The tree over a snapshot's graftable chunks: its leaves are these chunks grafted over the operations' nodes.

ghost use Rattle.std.specs.Prelude.{◌≡◌, ◌↔◌, ℕ, ◌-◌, ◌*◌, ◌^◌, ◌<◌, ◌≤◌, List, length, map, IfOk, OnOk, IsOk, IsTrue};
ghost use Rattle.storage_merkle.specs.Kept.{HasRoomFor};
ghost use Rattle.storage_merkle.specs.Shape.{max_leaves};
ghost use Rattle.storage_bitmap.specs.Chunks.{IsChunkSize, IsRest, bit_count};
ghost use Rattle.storage_current.specs.KeptTrees.{AreGraftsFrom, ArePruned, HasMoreGrafts, StandsForChunks};
ghost use Rattle.storage_current.specs.NodeLists.{IsOver};
ghost use Rattle.storage_current.specs.Pins.{HavePins, chunk_pins};
ghost use Rattle.storage_current.specs.SnapshotTails.{IsOverChunks};
ghost use Rattle.storage_current.specs.Snapshots.{Snapshot as SnapshotOf, graftable, grafting_of, height, view_node};

use crate::qmdb::current::grafting::{self, GraftedHasher, graft, graftable_chunks, power};
use std::alloc::Global;
use storage_bitmap::bitmap::{Prunable, Readable};
use storage_codec::NoMemory;
use storage_codec::digest::Hasher;
use storage_merkle::laws::kept::{
    trees_keep_each_node_behind_their_boundary, trees_keep_the_nodes_of_their_list,
};
use storage_merkle::merkle::hasher::Standard;
use storage_merkle::merkle::mem::Mem;
use storage_merkle::merkle::{Graftable, Location, PeakNodes, Position};
use storage_ops::qmdb;

/// Returns the digest of the node of the graftable chunk number `index` of `status` with the chunk grafted, from the
/// node that `operations` keeps. The chunk is not pruned.
pub(crate) fn graft_at<F: Graftable, H: Hasher, const N: usize>(
    operations: &Mem<F, H::Digest>,
    status: &Prunable<N>,
    index: u64,
) -> H::Digest
    requires chunks { IsChunkSize N }
    requires few { operations.now.leaves ≤ max_leaves }
    requires bits { ArePruned (grafting_of F.shape N) operations.now status.now }
    requires kept { status.now.pruned ≤ index }
    requires within { index < graftable (grafting_of F.shape N) operations.now.leaves }
    ensures { let g = grafting_of F.shape N in (s : SnapshotOf) → IsRest N status.now s.bits
        → IsOver H.Digest.text H.hash_of F.shape operations.now s.operations
        → H.Digest.text result ≡ view_node H.hash_of g s (index * 2 ^ height g) (height g) }
{
    trees_keep_the_nodes_of_their_list(operations);
    trees_keep_each_node_behind_their_boundary(operations);
    let height = grafting::height::<N>();
    let position = Position::new(F::position(index * power(height), height));
    let inner = operations.get_node(position).unwrap();
    graft::<H>(&status.get_chunk(index as usize), inner)
}

/// Appends to `chunks`, a tree over graftable chunks of `status`, those that it lacks, with the nodes over them: all
/// that are graftable over `operations`. None of these is pruned. Where there is room for them it is not refused
/// memory.
pub(crate) fn append_grafts<F: Graftable, H: Hasher, const N: usize>(
    operations: &Mem<F, H::Digest>,
    status: &Prunable<N>,
    chunks: &mut Mem<F, H::Digest>,
) -> Result<(), NoMemory>
    requires chunks { IsChunkSize N }
    requires few { operations.now.leaves ≤ max_leaves }
    requires bits { ArePruned (grafting_of F.shape N) operations.now status.now }
    requires kept { status.now.pruned ≤ chunks.old.leaves }
    requires within { chunks.old.leaves ≤ graftable (grafting_of F.shape N) operations.now.leaves }
    ensures count { OnOk result
        (chunks.new.leaves ≡ graftable (grafting_of F.shape N) operations.now.leaves) }
    ensures place { OnOk result ((chunks.new.boundary ≡ chunks.old.boundary)
        × (chunks.new.pinned ≡ chunks.old.pinned)) }
    ensures grafted { let g = grafting_of F.shape N in
        OnOk result ((list : List (List ℕ))
        → StandsForChunks H.Digest.text H.hash_of g chunks.old list
        → HasMoreGrafts H.Digest.text H.hash_of g operations.now chunks.new status.now list) }
    ensures succeeds { HasRoomFor F.shape (graftable (grafting_of F.shape N) operations.now.leaves
        - chunks.old.leaves) chunks.old
        → IsOk result }
{
    let height = grafting::height::<N>();
    let hasher = GraftedHasher::<F, Standard<H>>::new(qmdb::hasher::<H>(), height);
    let count = graftable_chunks::<F>(operations.leaves().as_u64(), height);
    for index in chunks.leaves().as_u64()..count {
        let digest = graft_at::<F, H, N>(operations, status, index);
        if chunks.add_leaf(&hasher, digest).is_err() {
            return Err(NoMemory);
        }
    }
    Ok(())
}

/// Returns the digests of the graftable chunks of `status` that are not pruned, grafted over the nodes that `operations`
/// keeps.
pub(crate) fn grafts_behind<F: Graftable, H: Hasher, const N: usize>(
    alloc: Global,
    operations: &Mem<F, H::Digest>,
    status: &Prunable<N>,
) -> Result<Vec<H::Digest>, NoMemory>
    requires chunks { IsChunkSize N }
    requires few { operations.now.leaves ≤ max_leaves }
    requires bits { ArePruned (grafting_of F.shape N) operations.now status.now }
    ensures count { IfOk result (λ v. length v.items
        ≡ graftable (grafting_of F.shape N) operations.now.leaves - status.now.pruned) }
    ensures own { let g = grafting_of F.shape N in IfOk result (λ v. (s : SnapshotOf)
        → IsRest N status.now s.bits
        → IsOver H.Digest.text H.hash_of F.shape operations.now s.operations
        → AreGraftsFrom H.hash_of g s status.now.pruned (map H.Digest.text v.items)) }
{
    let count = graftable_chunks::<F>(operations.leaves().as_u64(), grafting::height::<N>());
    let mut grafts = Vec::new(alloc);
    for index in status.pruned_chunks() as u64..count {
        let digest = graft_at::<F, H, N>(operations, status, index);
        grafts.push(digest)?;
    }
    Ok(grafts)
}

/// Returns the tree over the graftable chunks of `status`, grafted over the nodes that `operations` keeps, where `pins` are the
/// digests of the peaks over those that are pruned, in leaf order.
pub(crate) fn chunks_behind<F: Graftable, H: Hasher, const N: usize>(
    alloc: Global,
    pins: &[H::Digest],
    operations: &Mem<F, H::Digest>,
    status: &Prunable<N>,
) -> Result<Mem<F, H::Digest>, NoMemory>
    requires chunks { IsChunkSize N }
    requires few { operations.now.leaves ≤ max_leaves }
    requires bits { ArePruned (grafting_of F.shape N) operations.now status.now }
    requires pins { length pins.now ≡ length (F.shape.peaks status.now.pruned) }
    ensures place { IfOk result (λ m.
        (m.leaves ≡ graftable (grafting_of F.shape N) operations.now.leaves)
        × (m.boundary ≡ status.now.pruned) × (m.pinned ≡ pins.now)) }
    ensures own { let g = grafting_of F.shape N in IfOk result (λ m. (s : SnapshotOf)
        → IsRest N status.now s.bits
        → IsOver H.Digest.text H.hash_of F.shape operations.now s.operations
        → map H.Digest.text pins.now ≡ chunk_pins H.hash_of g s status.now.pruned
        → IsOverChunks H.Digest.text H.hash_of g m s) }
{
    let pruned = status.pruned_chunks() as u64;
    let mut chunks = match Mem::<F, H::Digest>::init(alloc, Location::new(pruned), pins) {
        Ok(chunks) => chunks,
        Err(_) => return Err(NoMemory),
    };
    append_grafts::<F, H, N>(operations, status, &mut chunks)?;
    Ok(chunks)
}

/// Returns whether each peak over the first `chunks` chunks covers the operations of a node of the tree over `leaves` operations.
pub(crate) fn have_pins<F: Graftable, const N: usize>(leaves: u64, chunks: u64) -> bool
    requires size { IsChunkSize N }
    requires few { leaves ≤ max_leaves }
    requires within { chunks * 2 ^ height (grafting_of F.shape N) ≤ leaves }
    ensures { IsTrue result ↔ HavePins (grafting_of F.shape N) leaves chunks }
{
    let size = F::nodes_over(leaves);
    let above = grafting::height::<N>();
    for (first, height) in PeakNodes::<F>::over(chunks) {
        if F::position(first * power(above), height + above) >= size {
            return false;
        }
    }
    true
}
