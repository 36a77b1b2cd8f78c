//! The copy of a snapshot, once all of it is there.

ghost use Rattle.std.specs.Prelude.{◌≡◌, ◌⊎◌, ◌↔◌, ◌<◌, ◌≤◌, length, map, IsTrue, IfOk, IfErr};
ghost use Rattle.storage_codec.specs.Digests.{Cross};
ghost use Rattle.storage_merkle.specs.Shape.{max_leaves};
ghost use Rattle.storage_bitmap.specs.Chunks.{IsChunkSize, bit_count};
ghost use Rattle.storage_current.specs.KeptSnapshots.{StandsForSnapshot};
ghost use Rattle.storage_current.specs.Snapshots.{IsSnapshot, Snapshot as SnapshotOf, canonical_root, grafting_of, ops_root_of, snapshot_strings};
ghost use Rattle.storage_sync.specs.Alike.{ProveAlike};
ghost use Rattle.storage_sync.specs.Founded.{AreCounted, HaveRoots, IsUnfounded};
ghost use Rattle.storage_sync.specs.Pages.{IsCopy, with_floor};

mod snapshot_tail;
mod tail;

use crate::laws::floors_prove_alike;
use crate::sync::Unfounded;
use std::alloc::Global;
use storage_bitmap::bitmap::{Prunable, Readable};
use storage_codec::NoMemory;
use storage_codec::digest::{Digest, Hasher};
use storage_current::qmdb::current::Snapshot;
use storage_merkle::merkle::{Graftable, Location, MAX_LEAVES};

/// All operations of a snapshot, the bits that say which of them are active, and the operations root.
#[derive(Drop)]
pub struct Replica<D, const N: usize> {
    /// The operations, as they are written.
    pub operations: Vec<Vec<u8>>,
    /// Their activity bits.
    pub status: Prunable<N>,
    /// The root of the tree over the operations alone.
    pub ops_root: D,
}

impl<D: Digest, const N: usize> Replica<D, N> {
    /// Returns the snapshot of the copy with the inactivity floor `floor`, if it has the canonical root `root` and the
    /// copy's operations root. Both depend on the floor through the numbers of inactive peaks alone, so its proofs are
    /// those with each floor of the same numbers.
    ///
    /// # Errors
    ///
    /// The first of: `Malformed` if there is not one bit for each operation, bits are pruned, or there are more
    /// operations than `MAX_LEAVES`; `FloorPastTheEnd` if `floor` is greater than the number of operations;
    /// `OtherRoots` if the snapshot has another root; `Memory`, which may come at any point.
    pub fn to_snapshot<F: Graftable, H: Hasher<Digest = D>>(
        &self,
        alloc: Global,
        floor: Location<F>,
        root: &D,
    ) -> Result<Snapshot<F, H, N>, Unfounded>
        ensures stands { let g = grafting_of F.shape N in
            let operations = map (λ o. o.items) self.now.operations.items in
            let s = with_floor operations self.now.status.bits floor in
            IfOk result (λ kept. IsSnapshot s × StandsForSnapshot H.hash_of g kept s
            × HaveRoots H.hash_of g s (D.text root.now) (D.text self.now.ops_root)) }
        ensures unpruned { IfOk result (λ kept. kept.status.pruned ≡ 0) }
        ensures promise { 0 < D.size → let g = grafting_of F.shape N in
            let operations = map (λ o. o.items) self.now.operations.items in
            let s = with_floor operations self.now.status.bits floor in
            IfOk result (λ _. (t : SnapshotOf) → IsSnapshot t
            → canonical_root H.hash_of g t ≡ D.text root.now
            → IsCopy H.hash_of g t operations self.now.status.bits (D.text self.now.ops_root)
            → ProveAlike H.hash_of g s t
            ⊎ Cross H.hash_of (snapshot_strings H.hash_of g s) (snapshot_strings H.hash_of g t)) }
        ensures why { let g = grafting_of F.shape N in
            IfErr result (IsUnfounded H.hash_of g (map (λ o. o.items) self.now.operations.items)
            self.now.status floor (D.text root.now) (D.text self.now.ops_root)) }
    {
        floors_prove_alike();
        if !self.is_counted() {
            return Err(Unfounded::Malformed);
        }
        if floor.as_u64() > self.operations.len() as u64 {
            return Err(Unfounded::FloorPastTheEnd);
        }
        let status = copied(alloc, &self.status)?;
        let made = Snapshot::<F, H, N>::new(alloc, self.operations.as_slice(), status, floor);
        let Ok(snapshot) = made else {
            return Err(Unfounded::Memory);
        };
        if !self.has_roots::<F, H>(&snapshot, root) {
            return Err(Unfounded::OtherRoots);
        }
        Ok(snapshot)
    }

    /// Returns whether there is one bit for each operation, none of them is pruned, and a tree may have so many.
    fn is_counted(&self) -> bool
        ensures { IsTrue result
            ↔ AreCounted N (length self.now.operations.items) self.now.status }
    {
        let count = self.operations.len() as u64;
        if self.status.len() != count || self.status.pruned_chunks() > 0 {
            return false;
        }
        count <= MAX_LEAVES
    }

    /// Returns whether `snapshot` has the canonical root `root` and the copy's operations root.
    fn has_roots<F: Graftable, H: Hasher<Digest = D>>(
        &self,
        snapshot: &Snapshot<F, H, N>,
        root: &D,
    ) -> bool
        ensures { let g = grafting_of F.shape N in
            (s : SnapshotOf) → StandsForSnapshot H.hash_of g snapshot.now s
            → (IsTrue result
            ↔ HaveRoots H.hash_of g s (D.text root.now) (D.text self.now.ops_root)) }
    {
        if snapshot.root() != *root {
            return false;
        }
        snapshot.ops_root() == self.ops_root
    }
}

/// Returns the same bits, of which as many chunks are pruned.
fn copied<const N: usize>(alloc: Global, status: &Prunable<N>) -> Result<Prunable<N>, NoMemory>
    requires few { bit_count N status.now ≤ max_leaves }
    ensures size { IsChunkSize N }
    ensures same { IfOk result (λ copy. copy ≡ status.now) }
{
    let mut copy = Prunable::new_with_pruned_chunks(alloc, status.pruned_chunks());
    let pruned = copy.len();
    let kept = status.len() - pruned;
    for index in 0..kept {
        copy.push(status.get_bit(pruned + index))?;
    }
    Ok(copy)
}
