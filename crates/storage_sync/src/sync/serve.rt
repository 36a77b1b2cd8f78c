//! The one who serves: pages and openings of a snapshot, from it and from a log of its operations.
//!
//! ```text
//! page
//!   snapshot --> the range proof, the chunks of bits    of the operations from where the request begins
//!   log      --> the operations                         to where all end, else to where the last whole chunk does
//! opening
//!   snapshot --> the witness of the operations root, the plain proof of the operation there, the pins of what is before
//!   log      --> that operation
//! ```

ghost use Rattle.std.specs.Prelude.{◌≡◌, ℕ, ◌+◌, ◌-◌, ◌*◌, ◌/◌, ◌%◌, ◌^◌, ◌<◌, ◌≤◌, length, IfOk, IfErr, OnOk};
ghost use Rattle.storage_bitmap.specs.Chunks.{IsChunkSize, bit_count};
ghost use Rattle.storage_current.specs.Served.{Counts};
ghost use Rattle.storage_current.specs.Snapshots.{Snapshot as SnapshotOf, grafting_of};
ghost use Rattle.storage_sync.specs.Held.{page_of};
ghost use Rattle.storage_sync.specs.Messages.{request_of};
ghost use Rattle.storage_sync.specs.Serving.{HasAnswer, HasNoPage, HasPage, IsAnswer, IsLogFault, IsLogOf, IsServed, IsUnanswered, answer_count};

mod opening;
mod operations;
mod proof;
mod tail;

use crate::sync::serve::operations::read_operations;
use crate::sync::serve::proof::{chunks_between, own_proof};
use crate::sync::{Page, Request, Unanswered};
use std::alloc::Global;
use storage_bitmap::bitmap::{Prunable, Readable};
use storage_codec::digest::Hasher;
use storage_current::qmdb::current::{Contiguous, Snapshot};
use storage_merkle::merkle::{Graftable, Location};
pub use tail::TailServer;

/// A snapshot in memory, which may be pruned, from which pages and openings are served.
#[derive(Drop)]
pub struct Server<F: Graftable, H: Hasher, const N: usize> {
    /// The snapshot.
    pub snapshot: Snapshot<F, H, N>,
    /// Its inactivity floor.
    pub floor: Location<F>,
}

impl<F: Graftable, H: Hasher, const N: usize> Server<F, H, N> {
    /// Returns the snapshot's own page of the operations that `request` is for, which are read from `log`: of all from
    /// `start_loc` on if these are at most `max_ops`, else of the most whole chunks of them.
    ///
    /// # Errors
    ///
    /// The first of: `OutOfBounds` if `start_loc` is at or past the number of operations; `NotAtChunk` if no chunk
    /// begins there; `Pruned` if the bits or the operation there are pruned; `TooFew` if `max_ops` is less than a
    /// chunk's bits and more are left; `Corrupted` if the log ends before the page; `Log` if the log failed, with its
    /// code, exactly if its count of failures grew, by one; `Memory`, which may come at any point.
    pub fn answer<L: Contiguous<Item = Vec<u8>>>(
        &self,
        alloc: Global,
        log: &mut L,
        request: Request<F>,
    ) -> Result<Page<F, H::Digest>, Unanswered>
        requires { L.failed log.old + 1 < 2 ^ 64 }
        ensures own { let g = grafting_of F.shape N in
            (s : SnapshotOf) → IsServed H.hash_of g self.now.snapshot self.now.floor s
            → IsLogOf L.text (L.item log.old) (L.first log.old) (L.past log.old) s
            → IfOk result (λ page. IsAnswer H.hash_of g s (request_of request)
            (page_of H.Digest.text page)) }
        ensures made { let g = grafting_of F.shape N in
            (s : SnapshotOf) → IsServed H.hash_of g self.now.snapshot self.now.floor s
            → OnOk result (HasAnswer N (length s.operations) self.now.snapshot.status.pruned
            (L.first log.old) (L.past log.old) (request_of request)) }
        ensures why { let g = grafting_of F.shape N in
            (s : SnapshotOf) → IsServed H.hash_of g self.now.snapshot self.now.floor s
            → IfErr result (IsUnanswered N (length s.operations)
            self.now.snapshot.status.pruned (L.first log.old) (L.past log.old)
            (L.may_fail log.old) (request_of request)) }
        ensures failures { Counts (IsLogFault result) (L.failed log.old) (L.failed log.new) }
        ensures same_first { L.first log.new ≡ L.first log.old }
        ensures same_past { L.past log.new ≡ L.past log.old }
        ensures same_items { (l : ℕ) → L.item log.new l ≡ L.item log.old l }
    {
        let held = log.bounds();
        let status = self.snapshot.status();
        let start = request.start_loc.as_u64();
        let end = match page_end::<F, N>(status, held.start, request) {
            Ok(end) => end,
            Err(why) => return Err(why),
        };
        if held.end < end {
            return Err(Unanswered::Corrupted);
        }
        let proof = match own_proof(alloc, &self.snapshot, self.floor, start, end) {
            Ok(proof) => proof,
            Err(why) => return Err(why),
        };
        let Ok(chunks) = chunks_between(alloc, status, start, end) else {
            return Err(Unanswered::Memory);
        };
        match read_operations(alloc, log, start, end) {
            Ok(operations) => Ok(Page {
                proof,
                operations,
                chunks,
            }),
            Err(why) => Err(why),
        }
    }
}

/// Returns the location past the page that answers `request`, of the operations with the bits `status` and of a log
/// that begins at `first`.
///
/// # Errors
///
/// The first of: `OutOfBounds`; `NotAtChunk`; `Pruned`; `TooFew`.
fn page_end<F, const N: usize>(
    status: &Prunable<N>,
    first: u64,
    request: Request<F>,
) -> Result<u64, Unanswered>
    ensures size { IsChunkSize N }
    ensures page { OnOk result (HasPage N (bit_count N status.now) status.now.pruned first
        (request_of request)) }
    ensures end { IfOk result (λ end. end ≡ request.start_loc
        + answer_count N (bit_count N status.now) (request_of request)) }
    ensures why { IfErr result (HasNoPage N (bit_count N status.now) status.now.pruned first
        (request_of request)) }
{
    let len = status.len();
    let start = request.start_loc.as_u64();
    let bits = 8 * N as u64;
    if start >= len {
        return Err(Unanswered::OutOfBounds);
    }
    if start % bits != 0 {
        return Err(Unanswered::NotAtChunk);
    }
    if start < first || start / bits < status.pruned_chunks() as u64 {
        return Err(Unanswered::Pruned);
    }
    let left = len - start;
    if left <= request.max_ops {
        return Ok(len);
    }
    let whole = request.max_ops / bits * bits;
    if whole == 0 {
        return Err(Unanswered::TooFew);
    }
    Ok(start + whole)
}
