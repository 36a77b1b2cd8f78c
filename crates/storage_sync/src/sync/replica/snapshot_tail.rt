//! A copy that begins at a location, as the snapshot that it goes on as.

ghost use Rattle.std.specs.Prelude.{◌≡◌, ◌⊎◌, ◌≤◌, length, map, IfOk, IfErr, MatchOption};
ghost use Rattle.storage_merkle.specs.Kept.{Kept};
ghost use Rattle.storage_merkle.specs.Shape.{max_leaves};
ghost use Rattle.storage_bitmap.specs.Chunks.{bit_count};
ghost use Rattle.storage_current.specs.GraftedTrees.{KeptChunks};
ghost use Rattle.storage_current.specs.Pins.{HavePins};
ghost use Rattle.storage_current.specs.SnapshotTails.{StandsForTail, told_tree};
ghost use Rattle.storage_current.specs.Snapshots.{IsSnapshot, Snapshot as SnapshotOf, grafting_of};
ghost use Rattle.storage_current.specs.Tails.{ArePinned};
ghost use Rattle.storage_sync.specs.Beginnings.{IsBeginning};
ghost use Rattle.storage_sync.specs.Floors.{IsCopyFrom};
ghost use Rattle.storage_sync.specs.Held.{opening_of};
ghost use Rattle.storage_sync.specs.Tails.{HasNoSnapshotTail, IsBehind, MeansCopyFrom, with_floor_of};

use crate::sync::replica::copied;
use crate::sync::{Opening, Replica, Unfounded};
use std::alloc::Global;
use storage_codec::digest::{Digest, Hasher};
use storage_current::qmdb::current::SnapshotTail;
use storage_merkle::merkle::{Graftable, Location};

impl<D: Digest, const N: usize> Replica<D, N> {
    /// Returns the snapshot of the copy behind the pins of `opening`, with which it began, with the inactivity floor
    /// `floor`, if its trees are found by [`to_tail`](Self::to_tail) and it has the canonical root `root`. The copy goes
    /// on as that: it is pruned and served from.
    ///
    /// # Errors
    ///
    /// The first of: those of [`to_tail`](Self::to_tail); `OtherRoots` if a pin over chunks is no node of the grafted
    /// view, or the snapshot has another canonical root; `Memory`, which may come at any point.
    pub fn to_snapshot_tail<F: Graftable, H: Hasher<Digest = D>>(
        &self,
        alloc: Global,
        opening: &Opening<F, D>,
        floor: Location<F>,
        root: &D,
    ) -> Result<SnapshotTail<F, H, N>, Unfounded>
        ensures behind { let g = grafting_of F.shape N in
            let o = opening_of D.text opening.now in
            IfOk result (λ kept. IsBehind g o (length self.now.operations.items) self.now.status
            × (kept.status ≡ self.now.status) × (kept.floor ≡ floor)
            × (kept.root ≡ D.text root.now)) }
        ensures stands { let g = grafting_of F.shape N in
            let o = opening_of D.text opening.now in
            let operations = map (λ o. o.items) self.now.operations.items in
            (s : SnapshotOf) → IsSnapshot s → IsBeginning g (length s.operations) o.begin
            → IsCopyFrom H.hash_of g s o.begin operations self.now.status.bits
            o.ops_root o.pins o.over_chunks
            → IfOk result (λ kept. IsSnapshot (with_floor_of s floor)
            × StandsForTail H.hash_of g kept (with_floor_of s floor)) }
        ensures promise { (D.size ≡ 32) ⊎ (D.size ≡ 64) → let g = grafting_of F.shape N in
            let o = opening_of D.text opening.now in
            let operations = map (λ o. o.items) self.now.operations.items in
            IfOk result (λ kept. (tree : Kept D) × (chunks : KeptChunks D)
            × ArePinned g opening.now.pins.items opening.now.over_chunks.items self.now.status
            tree chunks
            × (kept.operations ≡ told_tree D.text tree)
            × MeansCopyFrom D.text D.size H.hash_of g o operations self.now.status.bits floor tree
            chunks) }
        ensures why { let g = grafting_of F.shape N in
            let o = opening_of D.text opening.now in
            let operations = map (λ o. o.items) self.now.operations.items in
            IfErr result (HasNoSnapshotTail H.hash_of g o operations self.now.status floor
            (D.text root.now)) }
    {
        let tail = match self.to_tail::<F, H>(alloc, opening, floor) {
            Ok(tail) => tail,
            Err(why) => return Err(why),
        };
        let status = copied(alloc, &self.status)?;
        let made = SnapshotTail::<F, H, N>::new(alloc, tail, status, floor)?;
        let Some(kept) = made else {
            return Err(Unfounded::OtherRoots);
        };
        if kept.root() != *root {
            return Err(Unfounded::OtherRoots);
        }
        Ok(kept)
    }
}
