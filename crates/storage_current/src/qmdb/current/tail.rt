//! The trees of a snapshot from an operation on, where a chunk begins: what is before it is told by pins.
//!
//! ```text
//! operations    forgotten, their peaks pinned | kept ...
//! chunks        forgotten, their peaks pinned | graftable ... | not graftable
//! ```
//!
//! Pins from a stranger are worth what the roots say that they give: see [`grafted_root`](crate::qmdb::current::grafting::grafted_root).

ghost use Rattle.std.specs.Prelude.{◌≡◌, ◌⊎◌, ◌↔◌, ℕ, ◌+◌, ◌*◌, ◌^◌, ◌≤◌, ◌++◌, List, length, map, Some, option_map, IsTrue, IfOk, IfSome, MatchOption};
ghost use Rattle.storage_merkle.specs.Hashing.{leaf_digests};
ghost use Rattle.storage_merkle.specs.Kept.{at_peaks, kept_at};
ghost use Rattle.storage_merkle.specs.Shape.{max_leaves};
ghost use Rattle.storage_merkle.specs.Trees.{ungrafted};
ghost use Rattle.storage_bitmap.specs.Chunks.{IsChunkSize};
ghost use Rattle.storage_current.specs.NodeLists.{IsOver, plain_over};
ghost use Rattle.storage_current.specs.Pins.{HavePins, MeansPins};
ghost use Rattle.storage_current.specs.Snapshots.{IsSnapshot, Snapshot as SnapshotOf, graftable, grafted_root_of, grafting_of, height};
ghost use Rattle.storage_current.specs.Tails.{AreOwnParts, ArePinned, AreTreesOf, DoFit};

use crate::qmdb::current::chunk_tree::grafts_behind;
use crate::qmdb::current::chunks::pruned_bits;
use crate::qmdb::current::grafting::{self, GraftedTree, graftable_chunks, grafted_root};
use std::alloc::Global;
use std::convert::AsSlice;
use storage_bitmap::bitmap::{Prunable, Readable};
use storage_codec::NoMemory;
use storage_codec::digest::Hasher;
use storage_merkle::laws::kept::{
    trees_keep_each_node_behind_their_boundary, trees_keep_the_nodes_of_their_list,
};
use storage_merkle::merkle::mem::Mem;
use storage_merkle::merkle::{Family, Graftable, Location, MAX_LEAVES, count_pins};
use storage_ops::qmdb;

/// The trees over a snapshot's operations and over its graftable chunks, of which those before an operation where a chunk
/// begins are forgotten: of them there are the digests of the peaks, the pins.
#[derive(Drop)]
pub struct Tail<F: Graftable, H: Hasher> {
    /// The tree over the operations.
    pub operations: Mem<F, H::Digest>,
    /// The tree over the graftable chunks.
    pub chunks: GraftedTree<F, H::Digest>,
}

impl<F: Graftable, H: Hasher> Tail<F, H> {
    /// Returns the trees over `operations` and their graftable chunks, behind the chunks that `status` has pruned and
    /// their operations: of these `over_chunks` and `pins` are the digests of the peaks, in leaf order. `None` if all
    /// that does not fit together: there is not one bit for each operation, nor one digest for each peak, a pruned chunk
    /// is not graftable, or there are more operations than `MAX_LEAVES`, the pruned ones among them.
    ///
    /// # Errors
    ///
    /// `NoMemory` if memory runs out.
    pub fn new<E: AsSlice<u8>, const N: usize>(
        alloc: Global,
        pins: &[H::Digest],
        over_chunks: &[H::Digest],
        operations: &[E],
        status: &Prunable<N>,
    ) -> Result<Option<Self>, NoMemory>
        ensures exact { let g = grafting_of F.shape N in
            let fit = DoFit g (length pins.now) (length over_chunks.now) (length operations.now) status.now in
            IfOk result (λ o. MatchOption o (fit → ⊥) (λ tail.
            fit × ArePinned g pins.now over_chunks.now status.now tail.operations tail.chunks)) }
        ensures own { let g = grafting_of F.shape N in
            (s : SnapshotOf) → IsSnapshot s
            → AreOwnParts H.hash_of g s (map H.Digest.text pins.now)
            (map H.Digest.text over_chunks.now) (map E.items operations.now) status.now
            → IfOk result (λ o. IfSome o (λ tail.
            AreTreesOf H.Digest.text H.hash_of g s tail.operations tail.chunks)) }
    {
        let count = operations.len() as u64;
        if !do_fit::<F, N>(pins.len(), over_chunks.len(), count, status) {
            return Ok(None);
        }
        let tree = tree_behind::<F, H, E>(alloc, pruned_bits(status), pins, operations)?;
        let grafts = grafts_behind::<F, H, N>(alloc, &tree, status)?;
        let pruned = status.pruned_chunks() as u64;
        match GraftedTree::init(alloc, pruned, over_chunks, grafts) {
            Ok(chunks) => Ok(Some(Tail {
                operations: tree,
                chunks,
            })),
            Err(_) => Err(NoMemory),
        }
    }

    /// Returns the root of the grafted view of both trees, with the inactivity floor `floor`. `None` if a peak of it lies
    /// strictly inside a pin over chunks, and cannot be had.
    ///
    /// # Errors
    ///
    /// `NoMemory` if memory runs out.
    pub fn grafted_root<const N: usize>(
        &self,
        alloc: Global,
        floor: Location<F>,
    ) -> Result<Option<H::Digest>, NoMemory>
        requires size { IsChunkSize N }
        requires few { self.now.operations.leaves ≤ max_leaves }
        ensures own { let g = grafting_of F.shape N in
            (s : SnapshotOf) → IsSnapshot s
            → AreTreesOf H.Digest.text H.hash_of g s self.now.operations self.now.chunks
            → self.now.operations.boundary ≡ self.now.chunks.pruned * 2 ^ height g
            → HavePins g (length s.operations) self.now.chunks.pruned
            → floor ≡ s.floor
            → IfOk result (λ o. option_map H.Digest.text o ≡ Some (grafted_root_of H.hash_of g s)) }
        ensures bound { (H.Digest.size ≡ 32) ⊎ (H.Digest.size ≡ 64)
            → let g = grafting_of F.shape N in
            self.now.chunks.pruned ≤ graftable g self.now.operations.leaves
            → IfOk result (λ o. IfSome o (λ root. MeansPins H.hash_of H.Digest.text g
            self.now.operations.leaves floor self.now.chunks (kept_at F.shape
            self.now.operations.boundary self.now.operations.pinned self.now.operations.nodes)
            (H.Digest.text root))) }
    {
        let operations = &self.operations;
        let chunks = &self.chunks;
        trees_keep_the_nodes_of_their_list(operations);
        trees_keep_each_node_behind_their_boundary(operations);
        chunks.is_whole();
        let leaves = operations.leaves();
        grafted_root::<F, H, Mem<F, H::Digest>, N>(alloc, chunks, operations, leaves, floor)
    }
}

/// Returns whether so many pins over operations and `over_chunks` pins over chunks are of what `status` has pruned, and there
/// are bits for `count` operations behind it.
fn do_fit<F: Graftable, const N: usize>(
    pins: usize,
    over_chunks: usize,
    count: u64,
    status: &Prunable<N>,
) -> bool
    ensures size { IsChunkSize N }
    ensures exact { IsTrue result
        ↔ DoFit (grafting_of F.shape N) pins over_chunks count status.now }
{
    let leaves = status.len();
    if leaves > MAX_LEAVES {
        return false;
    }
    let before = pruned_bits(status);
    if leaves - before != count {
        return false;
    }
    let chunks = status.pruned_chunks() as u64;
    if chunks > graftable_chunks::<F>(leaves, grafting::height::<N>()) {
        return false;
    }
    if !are_pins::<F>(before, pins) {
        return false;
    }
    are_pins::<F>(chunks, over_chunks)
}

/// Returns whether there are `count` peaks over `leaves` leaves.
fn are_pins<F: Family>(leaves: u64, count: usize) -> bool
    requires { leaves ≤ max_leaves }
    ensures { IsTrue result ↔ (count ≡ length (F.shape.peaks leaves)) }
{
    match count_pins::<F>(Location::new(leaves), count) {
        Ok(peaks) => peaks == count,
        Err(_) => false,
    }
}

/// Returns the tree over the operations before `begin`, which are forgotten and whose peaks have the digests `pins` in leaf
/// order, and behind them `operations`.
fn tree_behind<F: Graftable, H: Hasher, E: AsSlice<u8>>(
    alloc: Global,
    begin: u64,
    pins: &[H::Digest],
    operations: &[E],
) -> Result<Mem<F, H::Digest>, NoMemory>
    requires few { begin + length operations.now ≤ max_leaves }
    requires pins { length pins.now ≡ length (F.shape.peaks begin) }
    ensures place { IfOk result (λ m. (m.leaves ≡ begin + length operations.now)
        × (m.boundary ≡ begin) × (m.pinned ≡ pins.now)) }
    ensures over { IfOk result (λ m. (first : List (List ℕ)) → length first ≡ begin
        → map H.Digest.text pins.now ≡ at_peaks (plain_over H.hash_of F.shape (leaf_digests H.hash_of
        (ungrafted F.shape) 0 first)) 0 (F.shape.peaks begin)
        → IsOver H.Digest.text H.hash_of F.shape m (first ++ map E.items operations.now)) }
{
    let mut tree = match Mem::<F, H::Digest>::init(alloc, Location::new(begin), pins) {
        Ok(tree) => tree,
        Err(_) => return Err(NoMemory),
    };
    let hasher = qmdb::hasher::<H>();
    for operation in operations {
        if tree.add(&hasher, operation.as_slice()).is_err() {
            return Err(NoMemory);
        }
    }
    Ok(tree)
}
