//! Pages of a snapshot behind an operation, where what is before it is told by pins.

ghost use Rattle.std.specs.Prelude.{◌≡◌, ℕ, ◌+◌, ◌<◌, ◌^◌, length, IfOk, IfErr, OnOk};
ghost use Rattle.storage_current.specs.Served.{Counts};
ghost use Rattle.storage_current.specs.Snapshots.{Snapshot as SnapshotOf, grafting_of};
ghost use Rattle.storage_sync.specs.Held.{page_of};
ghost use Rattle.storage_sync.specs.Messages.{request_of};
ghost use Rattle.storage_sync.specs.Serving.{HasAnswer, IsAnswer, IsLogFault, IsLogOf, IsServedTail, IsUnanswered};

use crate::sync::serve::operations::read_operations;
use crate::sync::serve::page_end;
use crate::sync::serve::proof::{chunks_between, own_proof_behind};
use crate::sync::{Page, Request, Unanswered};
use std::alloc::Global;
use storage_codec::digest::Hasher;
use storage_current::qmdb::current::{Contiguous, SnapshotTail};
use storage_merkle::merkle::Graftable;

/// A snapshot in memory behind an operation, from which pages are served: what a copy that began there serves others.
#[derive(Drop)]
pub struct TailServer<F: Graftable, H: Hasher, const N: usize> {
    /// The snapshot.
    pub snapshot: SnapshotTail<F, H, N>,
}

impl<F: Graftable, H: Hasher, const N: usize> TailServer<F, H, N> {
    /// Returns the snapshot's own page of the operations that `request` is for, which are read from `log`: the one that
    /// [`Server::answer`](crate::sync::Server::answer) has of the whole snapshot.
    ///
    /// # Errors
    ///
    /// Those of [`Server::answer`](crate::sync::Server::answer).
    pub fn answer<L: Contiguous<Item = Vec<u8>>>(
        &self,
        alloc: Global,
        log: &mut L,
        request: Request<F>,
    ) -> Result<Page<F, H::Digest>, Unanswered>
        requires { L.failed log.old + 1 < 2 ^ 64 }
        ensures own { let g = grafting_of F.shape N in
            (s : SnapshotOf) → IsServedTail H.hash_of g self.now.snapshot s
            → IsLogOf L.text (L.item log.old) (L.first log.old) (L.past log.old) s
            → IfOk result (λ page. IsAnswer H.hash_of g s (request_of request)
            (page_of H.Digest.text page)) }
        ensures made { let g = grafting_of F.shape N in
            (s : SnapshotOf) → IsServedTail H.hash_of g self.now.snapshot s
            → OnOk result (HasAnswer N (length s.operations) self.now.snapshot.status.pruned
            (L.first log.old) (L.past log.old) (request_of request)) }
        ensures why { let g = grafting_of F.shape N in
            (s : SnapshotOf) → IsServedTail H.hash_of g self.now.snapshot s
            → IfErr result (IsUnanswered N (length s.operations)
            self.now.snapshot.status.pruned (L.first log.old) (L.past log.old)
            (L.may_fail log.old) (request_of request)) }
        ensures failures { Counts (IsLogFault result) (L.failed log.old) (L.failed log.new) }
        ensures same_first { L.first log.new ≡ L.first log.old }
        ensures same_past { L.past log.new ≡ L.past log.old }
        ensures same_items { (l : ℕ) → L.item log.new l ≡ L.item log.old l }
    {
        let held = log.bounds();
        let status = self.snapshot.status();
        let start = request.start_loc.as_u64();
        let end = match page_end::<F, N>(status, held.start, request) {
            Ok(end) => end,
            Err(why) => return Err(why),
        };
        if held.end < end {
            return Err(Unanswered::Corrupted);
        }
        let proof = match own_proof_behind(alloc, &self.snapshot, start, end) {
            Ok(proof) => proof,
            Err(why) => return Err(why),
        };
        let Ok(chunks) = chunks_between(alloc, status, start, end) else {
            return Err(Unanswered::Memory);
        };
        match read_operations(alloc, log, start, end) {
            Ok(operations) => Ok(Page {
                proof,
                operations,
                chunks,
            }),
            Err(why) => Err(why),
        }
    }
}
