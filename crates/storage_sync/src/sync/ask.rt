//! The one who asks: a copy of a snapshot that grows page by page.

ghost use Rattle.std.specs.Prelude.{◌≡◌, ◌≢◌, ◌⊎◌, ℕ, ◌+◌, ◌-◌, ◌*◌, ◌/◌, ◌%◌, ◌^◌, ◌<◌, ◌≤◌, ◌↔◌, List, [], ◌∷◌, ◌++◌, length, map, min, unwrap_or, Some, Ok, IfOk, IfErr, IfSome, IsTrue, MatchOption, MatchResult, OnOk, OnErr};
ghost use Rattle.storage_merkle.specs.Shape.{max_leaves};
ghost use Rattle.storage_bitmap.specs.Chunks.{IsChunkSize};
ghost use Rattle.storage_codec.specs.Codec.{Answer, MayFail};
ghost use Rattle.storage_current.specs.CurrentProofs.{IsCurrent};
ghost use Rattle.storage_current.specs.Openings.{MeansOpening};
ghost use Rattle.storage_current.specs.Snapshots.{IsSnapshot, Snapshot as SnapshotOf, canonical_root, grafting_of, ops_root_of, snapshot_strings};
ghost use Rattle.storage_current.specs.KeptSnapshots.{StandsForSnapshot};
ghost use Rattle.storage_codec.specs.Digests.{Cross};
ghost use Rattle.storage_sync.specs.Alike.{nothing};
ghost use Rattle.storage_sync.specs.Held.{opening_of, page_of};
ghost use Rattle.storage_sync.specs.Openings.{IsAcceptedOpening};
ghost use Rattle.storage_sync.specs.Pages.{IsCopy, IsProved, Page as PageOf};
ghost use Rattle.storage_sync.specs.Refusals.{IsHonest, IsRefused, IsUnproved, IsUnread};
ghost use Rattle.storage_sync.specs.Messages.{request_of};
ghost use Rattle.storage_sync.specs.Serving.{HasPage};
ghost use Rattle.storage_sync.specs.Syncs.{CanStart, IsAsked, IsKept, IsPromised, IsTaken, IsWhole, MayHave, leaves_with, nothing_yet, place, step};

use crate::laws::{honest_pages_are_taken, pages_are_tails, root_of_nothing};
use crate::sync::bits::bits_of;
use crate::sync::{Limits, Opening, Page, Refusal, Replica, Request};
use bytes::Bytes;
use std::alloc::Global;
use std::marker::Model;
use storage_bitmap::bitmap::{Prunable, Readable};
use storage_codec::NoMemory;
use storage_codec::codec::{Decode, Error};
use storage_codec::digest::Hasher;
use storage_current::qmdb::current::Snapshot;
use storage_merkle::merkle::{Graftable, Location};

/// A copy of a snapshot, or of what it has from an operation on, that is being taken from peers that are not trusted. It keeps the
/// operations and bits that are proved so far.
#[derive(Drop)]
pub struct Sync<F: Graftable, H: Hasher, const N: usize> {
    root: H::Digest,
    limits: Limits,
    leaves: Option<Location<F>>,
    ops_root: Option<H::Digest>,
    operations: Vec<Vec<u8>>,
    status: Prunable<N>,
}

impl<F: Graftable, H: Hasher, const N: usize> Model for Sync<F, H, N> {
    ghost use Rattle.std.specs.Prelude.{◌*◌, map, length, is_some, option_map};
    ghost use Rattle.storage_sync.specs.Syncs.{IsConsistent, Taken};

    ghost Value = { Taken };

    ghost view = { λ s. record {
      root = H.Digest.text s.root;
      limits = s.limits;
      begin = s.status.pruned * (8 * N);
      leaves = s.leaves;
      ops_root = option_map H.Digest.text s.ops_root;
      operations = map (λ o. o.items) s.operations.items;
      bits = s.status.bits;
    } };

    ghost invariant = { λ s. IsConsistent N s.limits s.leaves (is_some s.ops_root)
        (length s.operations.items) s.status };
}

impl<F: Graftable, H: Hasher, const N: usize> Sync<F, H, N> {
    /// Nothing yet of the snapshots with the canonical root `root`; `limits` bound each page. None where they admit
    /// fewer operations than a chunk has bits. Allocates nothing.
    pub fn new(alloc: Global, root: H::Digest, limits: Limits) -> Option<Self>
        requires { IsChunkSize N }
        ensures begun { MatchOption result (limits.max_ops < 8 * N) (λ s. (8 * N ≤ limits.max_ops)
            × (s ≡ nothing_yet (H.Digest.text root) limits 0)) }
        ensures kept { let g = grafting_of F.shape N in
            IfSome result (λ s. IsKept H.hash_of g H.Digest.size s []) }
    {
        Self::starting_at(alloc, root, limits, Location::new(0))
    }

    /// Nothing yet of what the snapshots with the canonical root `root` have from the location `begin` on; `limits` bound each
    /// page. None where they admit fewer operations than a chunk has bits, no chunk begins at `begin`, or it is past `MAX_LEAVES`.
    /// Allocates nothing.
    pub fn starting_at(
        alloc: Global,
        root: H::Digest,
        limits: Limits,
        begin: Location<F>,
    ) -> Option<Self>
        requires { IsChunkSize N }
        ensures begun { MatchOption result (CanStart N limits begin → ⊥) (λ s.
            CanStart N limits begin × (s ≡ nothing_yet (H.Digest.text root) limits begin)) }
        ensures kept { let g = grafting_of F.shape N in
            IfSome result (λ s. IsKept H.hash_of g H.Digest.size s []) }
    {
        let bits = 8 * N as u64;
        let start = begin.as_u64();
        if limits.max_ops < bits || start % bits != 0 || !begin.is_valid() {
            return None;
        }
        let chunks = (start / bits) as usize;
        Some(Sync {
            root,
            limits,
            leaves: None,
            ops_root: None,
            operations: Vec::new(alloc),
            status: Prunable::new_with_pruned_chunks(alloc, chunks),
        })
    }

    /// Nothing yet of what the snapshots with the canonical root `root` have from where `opening` begins, if it is accepted
    /// ([`Opening::is_accepted`]). None where it is not, or where `limits` admit fewer operations than a chunk has bits.
    ///
    /// # Errors
    ///
    /// `NoMemory` if memory runs out.
    pub fn from_opening(
        alloc: Global,
        root: H::Digest,
        limits: Limits,
        opening: &Opening<F, H::Digest>,
    ) -> Result<Option<Self>, NoMemory>
        requires { IsChunkSize N }
        ensures begun { let g = grafting_of F.shape N in
            let o = opening_of H.Digest.text opening.now in
            IfOk result (λ found. MatchOption found
            (IsAcceptedOpening H.hash_of g o (H.Digest.text root) × CanStart N limits o.begin → ⊥)
            (λ s. IsAcceptedOpening H.hash_of g o (H.Digest.text root)
            × CanStart N limits o.begin × (s ≡ nothing_yet (H.Digest.text root) limits o.begin))) }
        ensures meaning { 0 < H.Digest.size → let o = opening_of H.Digest.text opening.now in
            IfOk result (λ found. IfSome found (λ _. MeansOpening H.hash_of F.shape o.witness o.ops_root
            o.proof o.begin o.operations o.pins (H.Digest.text root))) }
        ensures kept { let g = grafting_of F.shape N in
            IfOk result (λ found. IfSome found (λ s. IsKept H.hash_of g H.Digest.size s [])) }
    {
        let accepted = opening.is_accepted::<H, N>(alloc, &root)?;
        if !accepted {
            return Ok(None);
        }
        Ok(Self::starting_at(alloc, root, limits, opening.begin))
    }

    /// Returns the snapshot of no operations if `root` is its canonical root; else none. No page of it is ever accepted, so
    /// ask this first.
    ///
    /// # Errors
    ///
    /// `NoMemory` if memory runs out.
    pub fn of_nothing(
        alloc: Global,
        root: &H::Digest,
    ) -> Result<Option<Snapshot<F, H, N>>, NoMemory>
        requires { IsChunkSize N }
        ensures exact { let g = grafting_of F.shape N in
            IfOk result (λ found. MatchOption found
            (H.Digest.text root.now ≢ canonical_root H.hash_of g nothing) (λ kept.
            (H.Digest.text root.now ≡ canonical_root H.hash_of g nothing)
            × StandsForSnapshot H.hash_of g kept nothing)) }
        ensures promise { 0 < H.Digest.size → let g = grafting_of F.shape N in
            IfOk result (λ found. IfSome found (λ _. (s : SnapshotOf) → IsSnapshot s
            → canonical_root H.hash_of g s ≡ H.Digest.text root.now
            → IsCopy H.hash_of g s [] [] (ops_root_of H.hash_of g nothing)
            ⊎ Cross H.hash_of (snapshot_strings H.hash_of g nothing)
            (snapshot_strings H.hash_of g s))) }
    {
        root_of_nothing();
        let none = Vec::<Vec<u8>>::new(alloc);
        let status = Prunable::new(alloc);
        let made = Snapshot::<F, H, N>::new(alloc, none.as_slice(), status, Location::new(0));
        let Ok(snapshot) = made else {
            return Err(NoMemory);
        };
        if snapshot.root() != *root {
            return Ok(None);
        }
        Ok(Some(snapshot))
    }

    /// Returns what is wanted next; none once all is there. Allocates nothing.
    pub fn next(&self) -> Option<Request<F>>
        ensures value { MatchOption result (IsWhole self.now) (λ request. (IsWhole self.now → ⊥)
            × (request.start_loc ≡ place self.now)
            × (request.max_ops ≡ step N self.now.limits)) }

        // However many operations there are in all, as many as are wanted and left may come.
        ensures answerable { IfSome result (λ request. (leaves : ℕ) → MayHave self.now leaves
            → IsAsked N self.now leaves
            (min request.max_ops (leaves - place self.now))) }

        // And whoever has them all has a page for it.
        ensures served { IfSome result (λ request. (leaves : ℕ) → MayHave self.now leaves
            → HasPage N leaves 0 0 (request_of request)) }
    {
        if self.is_whole() {
            return None;
        }
        Some(Request {
            start_loc: Location::new(self.status.len()),
            max_ops: self.step(),
        })
    }

    /// Takes `bytes`, a page as it is written, if it is a proved one of what [`next`](Self::next) wants. A page may
    /// have fewer operations than are wanted where it ends with a chunk.
    ///
    /// # Errors
    ///
    /// The first of: `NotAPage` or `TooMuch`, whichever the bytes name first; `NotAsked`; `NotProved`; `Memory`, which may come at
    /// any point. After each all is as it was.
    pub fn take(&mut self, alloc: Global, bytes: &[u8]) -> Result<(), Refusal>
        ensures taken { let g = grafting_of F.shape N in
            OnOk result (IsTaken H.hash_of g F.has_pending H.Digest.size self.old self.new bytes.now) }
        ensures why { let g = grafting_of F.shape N in
            IfErr result (IsRefused H.hash_of g F.has_pending H.Digest.size self.old bytes.now) }
        ensures honest { let g = grafting_of F.shape N in
            (s : SnapshotOf) → IsHonest H.hash_of g F.has_pending s self.old bytes.now
            → IfErr result (λ refusal. refusal ≡ Refusal.Memory) }
        ensures same { OnErr result (self.new ≡ self.old) }
    {
        honest_pages_are_taken();
        let limits = self.limits;
        let mut page = match Page::<F, H::Digest>::decode_cfg(alloc, bytes, &(N, limits)) {
            Ok(page) => page,
            Err(error) => return Err(refusal_of(error)),
        };
        let leaves = match self.check(alloc, &page) {
            Ok(leaves) => leaves,
            Err(refusal) => return Err(refusal),
        };
        let bits = match bits_of(alloc, &page.chunks, N, page.operations.len()) {
            Ok(bits) => bits,
            Err(_) => return Err(Refusal::Memory),
        };
        match self.keep(leaves, page.ops_root(), &mut page.operations, &bits) {
            Ok(()) => Ok(()),
            Err(_) => Err(Refusal::Memory),
        }
    }

    /// Returns the copy, once all is there; else what there is of it. The chunks before its first operation are pruned.
    /// Allocates nothing.
    pub fn done(self) -> Result<Replica<H::Digest, N>, Self>
        ensures exact { MatchResult result (λ copy. IsWhole self
            × (map (λ o. o.items) copy.operations.items ≡ self.operations)
            × (copy.status.pruned * (8 * N) ≡ self.begin) × (copy.status.bits ≡ self.bits)
            × (self.ops_root ≡ Some (H.Digest.text copy.ops_root)))
            (λ s. (IsWhole self → ⊥) × (s ≡ self)) }
        ensures promise { (H.Digest.size ≡ 32) ⊎ (H.Digest.size ≡ 64)
            → let g = grafting_of F.shape N in
            OnOk result ((pages : List PageOf) → IsKept H.hash_of g H.Digest.size self pages
            → IsPromised H.hash_of g self pages) }
    {
        pages_are_tails();
        if !self.is_whole() {
            return Err(self);
        }
        let Sync {
            ops_root,
            operations,
            status,
            ..
        } = self;
        Ok(Replica {
            operations,
            status,
            ops_root: ops_root.unwrap(),
        })
    }

    /// Returns whether all is there.
    fn is_whole(&self) -> bool
        ensures { IsTrue result ↔ IsWhole self.now }
    {
        match self.leaves {
            Some(leaves) => leaves.as_u64() == self.status.len(),
            None => false,
        }
    }

    /// Returns how many operations are wanted at most: those of the most whole chunks that the limits admit.
    fn step(&self) -> u64
        ensures value { result ≡ step N self.now.limits }
        ensures some { 0 < result }
    {
        let max_ops = self.limits.max_ops;
        let bits = 8 * N as u64;
        max_ops / bits * bits
    }

    /// Returns whether a page of `count` operations may come next, of a snapshot of `leaves` operations.
    fn is_asked(&self, leaves: u64, count: u64) -> bool
        ensures { IsTrue result ↔ IsAsked N self.now leaves count }
    {
        let start = self.status.len();
        if count == 0 || count > self.step() || start > leaves || count > leaves - start {
            return false;
        }
        let end = start + count;
        end == leaves || end % (8 * N as u64) == 0
    }

    /// Returns how many operations there are in all, if `page` is a proved one of what is wanted.
    ///
    /// # Errors
    ///
    /// The first of: `NotAsked`; `NotProved`; `Memory`.
    fn check(&self, alloc: Global, page: &Page<F, H::Digest>) -> Result<Location<F>, Refusal>
        ensures leaves { IfOk result (λ leaves.
            leaves ≡ leaves_with self.now (page_of H.Digest.text page.now)) }
        ensures asked { IfOk result (λ leaves.
            IsAsked N self.now leaves (length page.now.operations.items)) }
        ensures few { IfOk result (λ leaves. leaves ≤ max_leaves) }
        ensures proved { let g = grafting_of F.shape N in
            OnOk result (IsProved H.hash_of g H.Digest.size self.now.root
            (place self.now) (page_of H.Digest.text page.now)) }
        ensures why { let g = grafting_of F.shape N in
            IfErr result (IsUnproved H.hash_of g self.now (page_of H.Digest.text page.now)) }
    {
        let leaves = self.leaves.unwrap_or(page.proof.proof.leaves);
        if !self.is_asked(leaves.as_u64(), page.operations.len() as u64) {
            return Err(Refusal::NotAsked);
        }
        match self.is_proved(alloc, page) {
            Ok(true) => Ok(leaves),
            Ok(false) => Err(Refusal::NotProved),
            Err(_) => Err(Refusal::Memory),
        }
    }

    /// Returns whether the range proof of `page` gives the root, at the place where the next page begins.
    fn is_proved(&self, alloc: Global, page: &Page<F, H::Digest>) -> Result<bool, NoMemory>
        ensures { let g = grafting_of F.shape N in
            let p = page_of H.Digest.text page.now in
            IfOk result (λ yes. IsTrue yes
            ↔ IsCurrent H.hash_of g p.proof (place self.now)
            p.operations p.chunks self.now.root) }
    {
        let start = Location::new(self.status.len());
        page.proof.verify_encoded::<H, Vec<u8>, Bytes>(
            alloc,
            start,
            &page.operations,
            &page.chunks,
            N,
            &self.root,
        )
    }

    /// Takes `operations` out and keeps them with `bits`, of `leaves` operations in all, and `ops_root` if none is known
    /// yet. If memory runs out (`NoMemory`), nothing changes of what is kept.
    fn keep(
        &mut self,
        leaves: Location<F>,
        ops_root: H::Digest,
        operations: &mut Vec<Vec<u8>>,
        bits: &[bool],
    ) -> Result<(), NoMemory>
        requires asked { IsAsked N self.old leaves (length operations.old.items) }
        requires few { leaves ≤ max_leaves }
        requires bit_each { length bits.now ≡ length operations.old.items }
        ensures ok { OnOk result (self.new ≡ record self.old {
          leaves = Some leaves;
          ops_root = Some (unwrap_or self.old.ops_root (H.Digest.text ops_root));
          operations = self.old.operations ++ map (λ o. o.items) operations.old.items;
          bits = self.old.bits ++ bits.now;
        }) }
        ensures err { OnErr result (self.new ≡ self.old) }
    {
        self.operations.reserve(operations.len())?;
        // the last that may be refused
        self.status.append(bits)?;
        self.operations.append(operations).unwrap();
        self.leaves = Some(leaves);
        self.ops_root = Some(self.ops_root.unwrap_or(ops_root));
        Ok(())
    }
}

/// Returns why a page is refused whose reading failed with `error`.
fn refusal_of(error: Error) -> Refusal
    ensures { (answer : Answer PageOf) → MayFail error answer → IsUnread answer result }
{
    match error {
        Error::Memory => Refusal::Memory,
        Error::InvalidLength(_) => Refusal::TooMuch,
        _ => Refusal::NotAPage,
    }
}
