//! A copy that begins at a location, and the last check of its pins: what they give together.

ghost use Rattle.std.specs.Prelude.{◌≡◌, ◌⊎◌, ◌↔◌, ◌*◌, ◌^◌, ◌≤◌, length, map, IsTrue, IfOk, IfErr, IfSome, MatchOption};
ghost use Rattle.storage_merkle.specs.Kept.{kept_at};
ghost use Rattle.storage_merkle.specs.Shape.{max_leaves};
ghost use Rattle.storage_bitmap.specs.Chunks.{IsChunkSize, bit_count};
ghost use Rattle.storage_current.specs.Pins.{HavePins, MeansPins};
ghost use Rattle.storage_current.specs.Snapshots.{IsSnapshot, Snapshot as SnapshotOf, graftable, grafted_root_of, grafting_of, height};
ghost use Rattle.storage_current.specs.Tails.{ArePinned, AreTreesOf};
ghost use Rattle.storage_sync.specs.Beginnings.{IsBeginning};
ghost use Rattle.storage_sync.specs.Floors.{IsCopyFrom};
ghost use Rattle.storage_sync.specs.Held.{opening_of};
ghost use Rattle.storage_sync.specs.Tails.{HasNoTail, IsBehind, MeansCopyFrom};

use crate::laws::copies_from_pins;
use crate::sync::{Opening, Replica, Unfounded};
use std::alloc::Global;
use storage_bitmap::bitmap::{Prunable, Readable};
use storage_codec::NoMemory;
use storage_codec::digest::{Digest, Hasher};
use storage_current::qmdb::current::Tail;
use storage_merkle::merkle::{Graftable, Location};

impl<D: Digest, const N: usize> Replica<D, N> {
    /// Returns the trees of the copy, which began with `opening`, if with the inactivity floor `floor` they have the
    /// grafted root of the opening's witness. That is the last check of such a copy: if the opening is accepted, its
    /// pins are then those of what is before.
    ///
    /// # Errors
    ///
    /// The first of: `Malformed` if the copy does not begin where `opening` does, there is not one bit for each
    /// operation, nor one pin for each peak, a chunk before is not graftable, or there are more operations than
    /// `MAX_LEAVES`; `FloorPastTheEnd` if `floor` is past the last operation; `OtherRoots` if the grafted root is
    /// another, or cannot be had; `Memory`, which may come at any point.
    pub fn to_tail<F: Graftable, H: Hasher<Digest = D>>(
        &self,
        alloc: Global,
        opening: &Opening<F, D>,
        floor: Location<F>,
    ) -> Result<Tail<F, H>, Unfounded>
        ensures behind { let g = grafting_of F.shape N in
            let o = opening_of D.text opening.now in
            IfOk result (λ tail. IsBehind g o (length self.now.operations.items) self.now.status
            × ArePinned g opening.now.pins.items opening.now.over_chunks.items self.now.status
            tail.operations tail.chunks) }
        ensures own { let g = grafting_of F.shape N in
            let o = opening_of D.text opening.now in
            let operations = map (λ o. o.items) self.now.operations.items in
            (s : SnapshotOf) → IsSnapshot s → IsBeginning g (length s.operations) o.begin
            → IsCopyFrom H.hash_of g s o.begin operations self.now.status.bits
            o.ops_root o.pins o.over_chunks
            → IfOk result (λ tail. AreTreesOf D.text H.hash_of g s tail.operations tail.chunks) }
        ensures floor { IfOk result (λ _. floor ≤ bit_count N self.now.status) }
        ensures promise { (D.size ≡ 32) ⊎ (D.size ≡ 64) → let g = grafting_of F.shape N in
            let o = opening_of D.text opening.now in
            let operations = map (λ o. o.items) self.now.operations.items in
            IfOk result (λ tail. MeansCopyFrom D.text D.size H.hash_of g o operations
            self.now.status.bits floor tail.operations tail.chunks) }
        ensures why { let g = grafting_of F.shape N in
            let o = opening_of D.text opening.now in
            let operations = map (λ o. o.items) self.now.operations.items in
            IfErr result (HasNoTail H.hash_of g o operations self.now.status floor) }
    {
        copies_from_pins::<D>();
        let found = tail_behind::<F, H, N>(alloc, opening, &self.operations, &self.status)?;
        let Some(tail) = found else {
            return Err(Unfounded::Malformed);
        };
        if floor.as_u64() > self.status.len() {
            return Err(Unfounded::FloorPastTheEnd);
        }
        let root = &opening.witness.grafted_root;
        let same = has_root::<F, H, N>(alloc, &tail, floor, root)?;
        if !same {
            return Err(Unfounded::OtherRoots);
        }
        Ok(tail)
    }
}

/// Returns the trees over `operations`, with the bits that `status` has of them, behind the pins of `opening`; none if these
/// are not behind it.
fn tail_behind<F: Graftable, H: Hasher, const N: usize>(
    alloc: Global,
    opening: &Opening<F, H::Digest>,
    operations: &[Vec<u8>],
    status: &Prunable<N>,
) -> Result<Option<Tail<F, H>>, NoMemory>
    ensures size { IsChunkSize N }
    ensures exact { let g = grafting_of F.shape N in
        let o = opening_of H.Digest.text opening.now in
        IfOk result (λ found. MatchOption found
        (IsBehind g o (length operations.now) status.now → ⊥) (λ tail.
        IsBehind g o (length operations.now) status.now
        × ArePinned g opening.now.pins.items opening.now.over_chunks.items status.now
        tail.operations tail.chunks)) }
    ensures own { let g = grafting_of F.shape N in
        let o = opening_of H.Digest.text opening.now in
        (s : SnapshotOf) → IsSnapshot s → IsBeginning g (length s.operations) o.begin
        → IsCopyFrom H.hash_of g s o.begin (map (λ x. x.items) operations.now) status.now.bits
        o.ops_root o.pins o.over_chunks
        → IfOk result (λ found. IfSome found (λ tail.
        AreTreesOf H.Digest.text H.hash_of g s tail.operations tail.chunks)) }
{
    if !begins_at(status, opening.begin.as_u64()) {
        return Ok(None);
    }
    Tail::new::<Vec<u8>, N>(
        alloc,
        &opening.pins,
        &opening.over_chunks,
        operations,
        status,
    )
}

/// Returns whether the operations before `begin`, and no others, are those whose bits `status` has pruned.
fn begins_at<const N: usize>(status: &Prunable<N>, begin: u64) -> bool
    ensures size { IsChunkSize N }
    ensures exact { IsTrue result ↔ (status.now.pruned * (8 * N) ≡ begin) }
{
    let pruned = status.pruned_chunks() as u64;
    let bits = 8 * N as u64;
    if begin % bits != 0 {
        return false;
    }
    begin / bits == pruned
}

/// Returns whether the trees of `tail` have the grafted root `root`, with the floor `floor`.
fn has_root<F: Graftable, H: Hasher, const N: usize>(
    alloc: Global,
    tail: &Tail<F, H>,
    floor: Location<F>,
    root: &H::Digest,
) -> Result<bool, NoMemory>
    requires size { IsChunkSize N }
    requires few { tail.now.operations.leaves ≤ max_leaves }
    ensures own { let g = grafting_of F.shape N in
        (s : SnapshotOf) → IsSnapshot s
        → AreTreesOf H.Digest.text H.hash_of g s tail.now.operations tail.now.chunks
        → tail.now.operations.boundary ≡ tail.now.chunks.pruned * 2 ^ height g
        → HavePins g (length s.operations) tail.now.chunks.pruned
        → floor ≡ s.floor
        → IfOk result (λ yes. IsTrue yes
        ↔ (grafted_root_of H.hash_of g s ≡ H.Digest.text root.now)) }
    ensures bound { (H.Digest.size ≡ 32) ⊎ (H.Digest.size ≡ 64)
        → let g = grafting_of F.shape N in
        tail.now.chunks.pruned ≤ graftable g tail.now.operations.leaves
        → IfOk result (λ yes. IsTrue yes
        → MeansPins H.hash_of H.Digest.text g tail.now.operations.leaves floor tail.now.chunks
        (kept_at F.shape tail.now.operations.boundary tail.now.operations.pinned
        tail.now.operations.nodes) (H.Digest.text root.now)) }
{
    let found = tail.grafted_root::<N>(alloc, floor)?;
    match found {
        Some(own) => Ok(own == *root),
        None => Ok(false),
    }
}
