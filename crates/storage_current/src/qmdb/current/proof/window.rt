//! Where a claimed range of operations stands among the chunks.
//!
//! The range from `start` to before `end` touches the chunks `start / 8N` to `(end - 1) / 8N`. A claim must bring exactly
//! these, because each graftable one is hashed into the path of an operation, and each other one is compared with its slot.

ghost use Rattle.std.specs.Prelude.{◌≡◌, ℕ, ◌+◌, ◌-◌, ◌*◌, ◌/◌, ◌%◌, ◌^◌, ◌<◌, ◌≤◌, MatchOption};
ghost use Rattle.storage_bitmap.specs.Chunks.{IsChunkSize};
ghost use Rattle.storage_current.specs.Snapshots.{grafting_of};
ghost use Rattle.storage_current.specs.Windows.{IsWindow, IsWindowOf};

use crate::qmdb::current::chunks::ChunkCounts;
use crate::qmdb::current::grafting;
use storage_merkle::merkle::{Family, MAX_LEAVES};

/// Where a range of operations stands among the chunks of a snapshot.
#[derive(Clone, Copy, Drop)]
pub(crate) struct Window {
    /// The height of the node over a chunk's operations.
    pub height: u32,
    /// The first chunk that the range touches.
    pub first_chunk: u64,
    /// The last chunk that the range touches.
    pub last_chunk: u64,
    /// How many chunks the snapshot has.
    pub counts: ChunkCounts,
}

impl Window {
    /// Where `count` operations from `start` on stand among those of a snapshot of `leaves` operations, with chunks of
    /// `chunk_size` bytes; none if `chunk_size` is no power of two up to `2^59`, `count` is 0, `leaves` is past
    /// `MAX_LEAVES`, the range passes `leaves`, or it touches another number of chunks than `chunks`.
    pub(crate) fn of<F: Family>(
        leaves: u64,
        start: u64,
        count: usize,
        chunks: usize,
        chunk_size: usize,
    ) -> Option<Window>
        ensures { MatchOption result (IsWindow (grafting_of F.shape chunk_size) leaves start count
            chunks → ⊥) (IsWindowOf (grafting_of F.shape chunk_size) leaves start count chunks) }
    {
        let height = grafting::chunk_height(chunk_size)?;
        Self::of_height::<F>(leaves, start, count, chunks, height)
    }

    /// As [`of`](Self::of), for chunks of any size that they may have whose node has the height `height`.
    pub(crate) fn of_height<F: Family>(
        leaves: u64,
        start: u64,
        count: usize,
        chunks: usize,
        height: u32,
    ) -> Option<Window>
        requires low { 1 ≤ height }
        requires high { height ≤ 62 }
        ensures { (n : ℕ) → IsChunkSize n → 8 * n ≡ 2 ^ height
            → MatchOption result (IsWindow (grafting_of F.shape n) leaves start count chunks → ⊥)
            (IsWindowOf (grafting_of F.shape n) leaves start count chunks) }
    {
        let end = start.checked_add(count as u64)?;
        if count == 0 || end > leaves || leaves > MAX_LEAVES {
            return None;
        }
        let first_chunk = start >> height;
        let last_chunk = (end - 1) >> height;
        if last_chunk - first_chunk + 1 != chunks as u64 {
            return None;
        }
        let counts = ChunkCounts::over::<F>(leaves, height);
        if counts.complete - counts.graftable > 1 {
            return None;
        }
        Some(Window {
            height,
            first_chunk,
            last_chunk,
            counts,
        })
    }

    /// Returns the place of chunk number `chunk` among those that the range touches; none if it is not one of these.
    pub(crate) fn place(&self, chunk: u64) -> Option<usize>
        ensures { MatchOption result (self.now.first_chunk ≤ chunk → chunk ≤ self.now.last_chunk
            → ⊥) (λ place. (self.now.first_chunk ≤ chunk) × (chunk ≤ self.now.last_chunk)
            × (place ≡ chunk - self.now.first_chunk)) }
    {
        if chunk < self.first_chunk || self.last_chunk < chunk {
            return None;
        }
        Some((chunk - self.first_chunk) as usize)
    }
}
