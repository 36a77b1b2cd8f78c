//! The chunks of a snapshot's bits that are grafted over no node: the pending and the partial one.
//!
//! ```text
//! operations    0 ........ 8N ........ 16N ........ 24N ...
//! chunk              0           1           2         3
//!               graftable     graftable    pending   partial       the last two enter the canonical string by their digests
//! ```
//!
//! A complete chunk is graftable if one node of the tree covers it. In an MMR all are. In an MMB the last one may wait for
//! its node: it is pending, and it is the only one.

ghost use Rattle.std.specs.Prelude.{◌≡◌, ℕ, ◌+◌, ◌-◌, ◌*◌, ◌/◌, ◌%◌, ◌^◌, ◌<◌, ◌≤◌, ltb, eqb, not, if◌then◌else◌, option_map};
ghost use Rattle.storage_merkle.specs.Shape.{max_leaves};
ghost use Rattle.storage_bitmap.specs.Chunks.{IsChunkSize, bit_count, chunk};
ghost use Rattle.storage_current.specs.Snapshots.{graftable_at};

use crate::qmdb::current::grafting;
use storage_bitmap::bitmap::{Prunable, Readable};
use storage_codec::digest::Hasher;
use storage_merkle::merkle::Family;

/// How many chunks of a snapshot are complete, and how many of these are graftable.
#[derive(Clone, Copy, Drop)]
pub(crate) struct ChunkCounts {
    /// How many chunks are complete.
    pub complete: u64,
    /// How many of these are graftable.
    pub graftable: u64,
    /// How many bits the chunk after the complete ones has; 0 if there is none.
    pub next_bit: u64,
}

impl ChunkCounts {
    /// Returns the counts over `leaves` operations, if a chunk is over a node of height `height`.
    pub(crate) fn over<F: Family>(leaves: u64, height: u32) -> Self
        requires few { leaves ≤ max_leaves }
        requires low { 1 ≤ height }
        requires high { height ≤ 62 }
        ensures complete { result.complete ≡ leaves / 2 ^ height }
        ensures graftable { result.graftable ≡ graftable_at F.shape height leaves }
        ensures within { result.graftable ≤ result.complete }
        ensures next_bit { result.next_bit ≡ leaves % 2 ^ height }
    {
        ChunkCounts {
            complete: leaves >> height,
            graftable: grafting::graftable_chunks::<F>(leaves, height),
            next_bit: leaves % (1 << height),
        }
    }

    /// Returns whether there is a pending chunk, a complete one that is not graftable.
    pub(crate) fn has_pending(&self) -> bool
        ensures { result ≡ ltb self.now.graftable self.now.complete }
    {
        self.graftable < self.complete
    }

    /// Returns whether there is a partial chunk, one after the complete ones.
    pub(crate) fn has_partial(&self) -> bool
        ensures { result ≡ not (eqb self.now.next_bit 0) }
    {
        self.next_bit != 0
    }

    /// Returns the pending chunk of the bits `status`; none if there is none.
    pub(crate) fn pending<R: Readable<N>, const N: usize>(&self, status: &R) -> Option<[u8; N]>
        requires chunks { IsChunkSize N }
        requires unpruned { (R.retained status.now).pruned ≤ self.now.graftable }
        requires within { self.now.complete * (8 * N) ≤ bit_count N (R.retained status.now) }
        ensures { result ≡ (if ltb self.now.graftable self.now.complete
            then Some (chunk N (R.retained status.now).bits
            (self.now.graftable - (R.retained status.now).pruned)) else None) }
    {
        if self.has_pending() {
            Some(status.get_chunk(self.graftable as usize))
        } else {
            None
        }
    }

    /// Returns the partial chunk of the bits `status`, filled up with zeros; none if there is none.
    pub(crate) fn partial<R: Readable<N>, const N: usize>(&self, status: &R) -> Option<[u8; N]>
        requires unpruned { (R.retained status.now).pruned ≤ self.now.complete }
        requires within { self.now.complete * (8 * N) + self.now.next_bit
            ≤ bit_count N (R.retained status.now) }
        ensures { result ≡ (if eqb self.now.next_bit 0 then None else Some (chunk N
            (R.retained status.now).bits (self.now.complete - (R.retained status.now).pruned))) }
    {
        if self.has_partial() {
            Some(status.get_chunk(self.complete as usize))
        } else {
            None
        }
    }
}

/// Returns the digest of `chunk`; none for none.
pub(crate) fn chunk_digest<H: Hasher, const N: usize>(chunk: Option<[u8; N]>) -> Option<H::Digest>
    ensures { option_map H.Digest.text result ≡ option_map H.hash_of chunk.entry }
{
    match chunk {
        None => None,
        Some(chunk) => Some(H::hash(&[&chunk])),
    }
}

/// Returns how many bits of `status` are pruned. Allocates nothing.
pub(crate) fn pruned_bits<const N: usize>(status: &Prunable<N>) -> u64
    requires size { IsChunkSize N }
    requires few { bit_count N status.now ≤ max_leaves }
    ensures { result ≡ status.now.pruned * (8 * N) }
{
    status.pruned_chunks() as u64 * (8 * N as u64)
}
