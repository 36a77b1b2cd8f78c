//! Openings of a snapshot: where a copy may begin, and what it is told of what is before.

ghost use Rattle.std.specs.Prelude.{◌≡◌, ◌≢◌, ℕ, ◌+◌, ◌*◌, ◌/◌, ◌^◌, ◌<◌, ◌≤◌, ◌↔◌, length, map, IsTrue, IfOk, IfErr, OnOk};
ghost use Rattle.storage_merkle.specs.Held.{proof_of};
ghost use Rattle.storage_bitmap.specs.Chunks.{IsChunkSize};
ghost use Rattle.storage_current.specs.Beginnings.{IsOwnPlainProof};
ghost use Rattle.storage_current.specs.KeptSnapshots.{StandsForSnapshot, pruned_operations};
ghost use Rattle.storage_current.specs.Pins.{chunk_pins as pins_over_chunks, operation_pins};
ghost use Rattle.storage_current.specs.Served.{Counts};
ghost use Rattle.storage_current.specs.Snapshots.{IsSnapshot, Snapshot as SnapshotOf, grafting_of, height};
ghost use Rattle.storage_sync.specs.Beginnings.{CanBegin, HasNoBeginning, IsBeginning, IsLeft, IsOwnOpening, IsUnopened};
ghost use Rattle.storage_sync.specs.Held.{opening_of};
ghost use Rattle.storage_sync.specs.Serving.{IsLogFault, IsLogOf, IsServed, IsUnmade};

use crate::sync::serve::Server;
use crate::sync::serve::operations::read_operations;
use crate::sync::{Opening, Unanswered};
use std::alloc::Global;
use storage_bitmap::bitmap::{Prunable, Readable};
use storage_codec::digest::Hasher;
use storage_current::qmdb::current::{Contiguous, Snapshot, chunk_pins};
use storage_merkle::merkle::{Graftable, Location, MAX_LEAVES, Proof};
use storage_ops::qmdb::Error;

impl<F: Graftable, H: Hasher, const N: usize> Server<F, H, N> {
    /// Returns the snapshot's own opening of a copy that begins at `begin`, with the one operation there, which is read
    /// from `log`.
    ///
    /// # Errors
    ///
    /// The first of: `OutOfBounds` if `begin` is at or past the number of operations; `NotAtChunk` if no chunk begins
    /// there, or the peaks over the chunks before are not all nodes of the grafted view: in an MMB they may come later;
    /// `Pruned` if the bits or the operation there are pruned; `Corrupted` if the log ends before that operation; `Log`
    /// if the log failed, with its code, exactly if its count of failures grew, by one; `Memory`, which may come at any
    /// point.
    pub fn opening<L: Contiguous<Item = Vec<u8>>>(
        &self,
        alloc: Global,
        log: &mut L,
        begin: Location<F>,
    ) -> Result<Opening<F, H::Digest>, Unanswered>
        requires { L.failed log.old + 1 < 2 ^ 64 }
        ensures own { let g = grafting_of F.shape N in
            (s : SnapshotOf) → IsServed H.hash_of g self.now.snapshot self.now.floor s
            → IsLogOf L.text (L.item log.old) (L.first log.old) (L.past log.old) s
            → IfOk result (λ opening. IsOwnOpening H.hash_of g s begin
            (opening_of H.Digest.text opening)) }
        ensures made { let g = grafting_of F.shape N in
            (s : SnapshotOf) → IsServed H.hash_of g self.now.snapshot self.now.floor s
            → OnOk result (CanBegin g (length s.operations) self.now.snapshot.status.pruned
            (L.first log.old) (L.past log.old) begin) }
        ensures why { let g = grafting_of F.shape N in
            (s : SnapshotOf) → IsServed H.hash_of g self.now.snapshot self.now.floor s
            → IfErr result (IsUnopened g (length s.operations)
            self.now.snapshot.status.pruned (L.first log.old) (L.past log.old)
            (L.may_fail log.old) begin) }
        ensures failures { Counts (IsLogFault result) (L.failed log.old) (L.failed log.new) }
        ensures same_first { L.first log.new ≡ L.first log.old }
        ensures same_past { L.past log.new ≡ L.past log.old }
        ensures same_items { (l : ℕ) → L.item log.new l ≡ L.item log.old l }
    {
        let held = log.bounds();
        let start = begin.as_u64();
        let over_chunks = match beginning::<F, H, N>(alloc, &self.snapshot, held.start, start) {
            Ok(pins) => pins,
            Err(why) => return Err(why),
        };
        if held.end <= start {
            return Err(Unanswered::Corrupted);
        }
        let pins = match pins_before::<F, H, N>(alloc, &self.snapshot, start) {
            Ok(pins) => pins,
            Err(why) => return Err(why),
        };
        let proof = match proof_between::<F, H, N>(&self.snapshot, start, start + 1) {
            Ok(proof) => proof,
            Err(why) => return Err(why),
        };
        match read_operations(alloc, log, start, start + 1) {
            Ok(operations) => Ok(Opening {
                begin,
                witness: self.snapshot.witness(),
                ops_root: self.snapshot.ops_root(),
                proof,
                operations,
                pins,
                over_chunks,
            }),
            Err(why) => Err(why),
        }
    }
}

/// Returns the pins over the chunks before `begin`, if an opening of `snapshot` may begin there, with a log that begins
/// at `first`.
///
/// # Errors
///
/// The first of: `OutOfBounds`; `NotAtChunk`; `Pruned`. `Memory` may come before `Pruned`.
fn beginning<F: Graftable, H: Hasher, const N: usize>(
    alloc: Global,
    snapshot: &Snapshot<F, H, N>,
    first: u64,
    begin: u64,
) -> Result<Vec<H::Digest>, Unanswered>
    ensures size { IsChunkSize N }
    ensures held { OnOk result (first ≤ begin) }
    ensures own { let g = grafting_of F.shape N in
        (s : SnapshotOf) → IsSnapshot s → StandsForSnapshot H.hash_of g snapshot.now s
        → IfOk result (λ pins. IsBeginning g (length s.operations) begin
        × IsLeft g snapshot.now.status.pruned first begin
        × (map H.Digest.text pins.items ≡ pins_over_chunks H.hash_of g s (begin / 2 ^ height g))) }
    ensures why { let g = grafting_of F.shape N in
        (s : SnapshotOf) → IsSnapshot s → StandsForSnapshot H.hash_of g snapshot.now s
        → IfErr result (HasNoBeginning g (length s.operations) snapshot.now.status.pruned first
        begin) }
    ensures kind { IfErr result (λ error. (code : ℕ) → error ≢ Unanswered.Log code) }
{
    let status = snapshot.status();
    // no snapshot has more operations
    let len = status.len().min(MAX_LEAVES);
    let bits = 8 * N as u64;
    if begin >= len {
        return Err(Unanswered::OutOfBounds);
    }
    if begin % bits != 0 {
        return Err(Unanswered::NotAtChunk);
    }
    let Ok(found) = chunk_pins::<F, H, N>(alloc, snapshot, begin / bits) else {
        return Err(Unanswered::Memory);
    };
    let Some(pins) = found else {
        return Err(Unanswered::NotAtChunk);
    };
    if !is_left(status, first, begin) {
        return Err(Unanswered::Pruned);
    }
    Ok(pins)
}

/// Returns whether the operation at `begin` is in a log that begins at `first`, and its chunk of `status` is not pruned.
fn is_left<const N: usize>(status: &Prunable<N>, first: u64, begin: u64) -> bool
    requires { IsChunkSize N }
    ensures { IsTrue result ↔ ((status.now.pruned ≤ begin / (8 * N)) × (first ≤ begin)) }
{
    if begin < first {
        return false;
    }
    begin / (8 * N as u64) >= status.pruned_chunks() as u64
}

/// Returns the pins over the operations before `begin` of `snapshot`.
///
/// # Errors
///
/// `Corrupted` if there are fewer operations, or one from there on is pruned; `Memory`.
fn pins_before<F: Graftable, H: Hasher, const N: usize>(
    alloc: Global,
    snapshot: &Snapshot<F, H, N>,
    begin: u64,
) -> Result<Vec<H::Digest>, Unanswered>
    ensures own { let g = grafting_of F.shape N in
        (s : SnapshotOf) → StandsForSnapshot H.hash_of g snapshot.now s
        → IfOk result (λ pins.
        map H.Digest.text pins.items ≡ operation_pins H.hash_of g s begin) }
    ensures why { let g = grafting_of F.shape N in
        (s : SnapshotOf) → StandsForSnapshot H.hash_of g snapshot.now s
        → begin < length s.operations → pruned_operations g snapshot.now.status ≤ begin
        → IfErr result (λ error. error ≡ Unanswered.Memory) }
    ensures kind { IfErr result IsUnmade }
{
    match snapshot.operation_pins(alloc, Location::new(begin)) {
        Ok(pins) => Ok(pins),
        Err(error) => match error {
            Error::Memory => Err(Unanswered::Memory),
            _ => Err(Unanswered::Corrupted),
        },
    }
}

/// Returns the plain proof of the operations from `start` to before `end` of `snapshot`.
///
/// # Errors
///
/// `Corrupted` if these are not operations, or one is pruned; `Memory`.
fn proof_between<F: Graftable, H: Hasher, const N: usize>(
    snapshot: &Snapshot<F, H, N>,
    start: u64,
    end: u64,
) -> Result<Proof<F, H::Digest>, Unanswered>
    ensures own { let g = grafting_of F.shape N in
        (s : SnapshotOf) → StandsForSnapshot H.hash_of g snapshot.now s
        → IfOk result (λ proof.
        IsOwnPlainProof H.hash_of g s start end (proof_of H.Digest.text proof)) }
    ensures why { let g = grafting_of F.shape N in
        (s : SnapshotOf) → IsSnapshot s → StandsForSnapshot H.hash_of g snapshot.now s
        → start < end → end ≤ length s.operations → pruned_operations g snapshot.now.status ≤ start
        → IfErr result (λ error. error ≡ Unanswered.Memory) }
    ensures kind { IfErr result IsUnmade }
{
    match snapshot.plain_proof(Location::new(start)..Location::new(end)) {
        Ok(proof) => Ok(proof),
        Err(error) => match error {
            Error::Memory => Err(Unanswered::Memory),
            _ => Err(Unanswered::Corrupted),
        },
    }
}
