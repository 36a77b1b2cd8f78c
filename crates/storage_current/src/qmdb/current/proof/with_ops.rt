//! Range proofs from stores, with the operations of their range from a log and the chunks of bits.

ghost use Rattle.std.specs.Prelude.{◌≡◌, ℕ, ◌+◌, ◌-◌, ◌*◌, ◌/◌, ◌%◌, ◌<◌, ◌≤◌, ◌^◌, ◌⊎◌, [], map, get_or, IfOk, IfErr, OnOk};
ghost use Rattle.std.specs.List.{range_with_len};
ghost use Rattle.storage_bitmap.specs.Chunks.{IsChunkSize, bit_count, chunks_from};
ghost use Rattle.storage_current.specs.Held.{range_proof_of};
ghost use Rattle.storage_current.specs.Served.{AreServedOf, Counts, HoldsRange, IsAnswerable, IsFailedLog, IsGone, IsKept, IsLogFault, IsNotAnswered, IsStoreFault, end_of};
ghost use Rattle.storage_current.specs.Snapshots.{Holds, Snapshot as SnapshotOf, own_range_proof, grafting_of};

use crate::qmdb::current::proof::RangeProof;
use crate::qmdb::current::{Contiguous, LogError, grafting};
use std::alloc::{AllocError, Global};
use storage_bitmap::bitmap::Readable;
use storage_codec::digest::{Digest, Hasher};
use storage_merkle::merkle::{self, Countable, Graftable, Location, Storage};
use storage_ops::qmdb::Error;

/// Which operations are to be proved, and of which snapshot.
#[derive(Drop)]
#[derive_where(Clone, Copy, Debug, PartialEq, Eq; D)]
pub struct RangeProofSpec<F, D> {
    /// The location of the first operation.
    pub start_loc: Location<F>,
    /// How many operations are to be proved at most; at least 1.
    pub max_ops: u64,
    /// The snapshot's inactivity floor.
    pub inactivity_floor: Location<F>,
    /// The snapshot's operations root.
    pub ops_root: D,
}

impl<F: Graftable, D: Digest> RangeProof<F, D> {
    /// Returns the proof of `max_ops` operations from `start_loc` on, or of fewer where the snapshot ends, from
    /// `storage`, which has the grafted view's nodes; with these operations, from `log`, and the chunks of bits that
    /// they touch, from `status`. `start_loc` and `max_ops` stand in `spec`, with the snapshot's floor and operations
    /// root.
    ///
    /// # Errors
    ///
    /// The first of: `RangeOutOfBounds(start_loc)` if it is at or past the number of bits; `OperationPruned(start_loc)`
    /// if its chunk is pruned; those of [`new`](Self::new); `DataCorrupted` if the log does not hold the range; `Log`
    /// if the log failed, with its code, exactly if its count of failures grew, by one.
    pub fn new_with_ops<
        H: Hasher<Digest = D>,
        R: Readable<N>,
        L: Contiguous,
        S: Storage<F, Digest = D>,
        const N: usize,
    >(
        alloc: Global,
        status: &R,
        storage: &mut S,
        log: &mut L,
        spec: RangeProofSpec<F, D>,
    ) -> Result<(Self, Vec<L::Item>, Vec<[u8; N]>), Error<F>>
    where
        F: Countable,
        requires store { S.failed storage.old + 1 < 2 ^ 64 }
        requires log { L.failed log.old + 1 < 2 ^ 64 }
        requires some { 1 ≤ spec.max_ops }
        ensures own { let g = grafting_of F.shape N in
            let high = end_of spec.start_loc spec.max_ops (bit_count N (R.retained status.now)) in
            IfOk result (λ answer. (s : SnapshotOf)
            → AreServedOf (S.nodes storage.old) (S.node storage.old) g spec.start_loc high
            (R.retained status.now) D.text H.hash_of spec.inactivity_floor (D.text spec.ops_root) s
            → (range_proof_of D.text answer.0 ≡ own_range_proof H.hash_of g s spec.start_loc high)
            × (((l : ℕ) → spec.start_loc ≤ l → l < high → L.item log.old l ≡ get_or s.operations l
            []) → Holds g s spec.start_loc (map L.text answer.1.items) answer.2.items)) }
        ensures operations { let high = end_of spec.start_loc spec.max_ops
            (bit_count N (R.retained status.now)) in
            IfOk result (λ answer. map L.text answer.1.items
            ≡ map (L.item log.old) (range_with_len spec.start_loc (high - spec.start_loc))) }
        ensures made { let g = grafting_of F.shape N in
            let high = end_of spec.start_loc spec.max_ops (bit_count N (R.retained status.now)) in
            OnOk result (IsAnswerable (S.nodes storage.old) (S.node storage.old) (L.first log.old)
            (L.past log.old) g spec.start_loc high (R.retained status.now) F) }
        ensures why { let g = grafting_of F.shape N in
            let high = end_of spec.start_loc spec.max_ops (bit_count N (R.retained status.now)) in
            IfErr result (IsNotAnswered (S.nodes storage.old) (S.node storage.old)
            (S.may_fail storage.old) (L.first log.old) (L.past log.old) (L.may_fail log.old)
            g spec.start_loc high (R.retained status.now)) }
        ensures store_failures { Counts (IsStoreFault result) (S.failed storage.old)
            (S.failed storage.new) }
        ensures log_failures { Counts (IsLogFault result) (L.failed log.old) (L.failed log.new) }
        ensures same_size { S.nodes storage.new ≡ S.nodes storage.old }
        ensures same_nodes { (p : ℕ) → S.node storage.new p ≡ S.node storage.old p }
        ensures same_first { L.first log.new ≡ L.first log.old }
        ensures same_past { L.past log.new ≡ L.past log.old }
        ensures same_items { (l : ℕ) → L.item log.new l ≡ L.item log.old l }
    {
        let start = spec.start_loc;
        let end = match range_end::<F, R, N>(status, start, spec.max_ops) {
            Ok(end) => end,
            Err(error) => return Err(error),
        };
        let proof = match Self::new::<H, R, S, N>(
            alloc,
            status,
            storage,
            spec.inactivity_floor,
            start..end,
            spec.ops_root,
        ) {
            Ok(proof) => proof,
            Err(error) => return Err(error),
        };
        let held = log.bounds();
        if start.as_u64() < held.start || held.end < end.as_u64() {
            return Err(Error::DataCorrupted("the log does not hold the range"));
        }
        let chunks = touched_chunks(alloc, status, start.as_u64(), end.as_u64())?;
        match read_range::<F, L>(alloc, log, start.as_u64(), end.as_u64()) {
            Ok(operations) => Ok((proof, operations, chunks)),
            Err(error) => Err(error),
        }
    }
}

/// Returns the location past the range of at most `max_ops` operations from `start` on, which ends with the bits
/// `status`.
///
/// # Errors
///
/// The first of: `RangeOutOfBounds(start)` if it is at or past the number of bits; `OperationPruned(start)` if its
/// chunk is pruned.
fn range_end<F: Graftable, R: Readable<N>, const N: usize>(
    status: &R,
    start: Location<F>,
    max_ops: u64,
) -> Result<Location<F>, Error<F>>
    ensures end { IfOk result (λ end.
        end ≡ end_of start max_ops (bit_count N (R.retained status.now))) }
    ensures kept { let g = grafting_of F.shape N in
        OnOk result (IsKept g start (R.retained status.now)) }
    ensures size { OnOk result (IsChunkSize N) }
    ensures why { let g = grafting_of F.shape N in
        IfErr result (IsGone g start (R.retained status.now)) }
{
    let len = status.len();
    let first = start.as_u64();
    if first >= len {
        return Err(Error::Merkle(merkle::Error::RangeOutOfBounds(start)));
    }
    if first >> grafting::height::<N>() < status.pruned_chunks() as u64 {
        return Err(Error::OperationPruned(start));
    }
    Ok(Location::new(first.saturating_add(max_ops).min(len)))
}

/// Returns the chunks of the bits `status` that the operations from `start` to before `end` touch, as a client of their
/// range proof wants them. None of these chunks may be pruned.
///
/// # Errors
///
/// `AllocError` if memory is wanting.
pub fn touched_chunks<R: Readable<N>, const N: usize>(
    alloc: Global,
    status: &R,
    start: u64,
    end: u64,
) -> Result<Vec<[u8; N]>, AllocError>
    requires size { IsChunkSize N }
    requires some { start < end }
    requires within { end ≤ bit_count N (R.retained status.now) }
    requires kept { (h : ℕ) → 8 * N ≡ 2 ^ h → (R.retained status.now).pruned ≤ start / 2 ^ h }
    ensures { (h : ℕ) → 8 * N ≡ 2 ^ h
        → IfOk result (λ v. v.items ≡ chunks_from N (R.retained status.now).bits
        ((end - 1) / 2 ^ h - start / 2 ^ h + 1) (start / 2 ^ h - (R.retained status.now).pruned)) }
{
    let height = grafting::height::<N>();
    let first = start >> height;
    let last = (end - 1) >> height;
    let mut chunks = Vec::new(alloc);
    for index in first..last + 1 {
        chunks.push(status.get_chunk(index as usize))?;
    }
    Ok(chunks)
}

/// Returns the items of `log` at the locations from `start` to before `end`, which it holds.
///
/// # Errors
///
/// `Log` if the log failed, with its code, exactly if its count of failures grew, by one; `Memory`.
fn read_range<F, L: Contiguous>(
    alloc: Global,
    log: &mut L,
    start: u64,
    end: u64,
) -> Result<Vec<L::Item>, Error<F>>
    requires count { L.failed log.old + 1 < 2 ^ 64 }
    requires order { start ≤ end }
    requires within { HoldsRange (L.first log.old) (L.past log.old) start end }
    ensures items { IfOk result (λ v.
        map L.text v.items ≡ map (L.item log.old) (range_with_len start (end - start))) }
    ensures why { IfErr result (λ e.
        IsFailedLog (L.may_fail log.old) start end e ⊎ (e ≡ Error.Memory)) }
    ensures failures { Counts (IsLogFault result) (L.failed log.old) (L.failed log.new) }
    ensures same_first { L.first log.new ≡ L.first log.old }
    ensures same_past { L.past log.new ≡ L.past log.old }
    ensures same { (l : ℕ) → L.item log.new l ≡ L.item log.old l }
{
    let mut locations = Vec::new(alloc);
    for location in start..end {
        locations.push(location)?;
    }
    match log.read_many(alloc, &locations) {
        Ok(items) => Ok(items),
        Err(LogError::Fault(code)) => Err(Error::Log(code)),
        Err(LogError::Memory) => Err(Error::Memory),
    }
}
