//! The question about a range of operations.

ghost use Rattle.std.specs.Prelude.{None, refl};
ghost use Rattle.storage_bitmap.specs.Chunks.{IsChunkSize};
ghost use Rattle.light_questions.specs.Answers.{lengths_refusal, or_then};
ghost use Rattle.light_questions.specs.ByteStrings.{cut};
ghost use Rattle.light_questions.specs.KeyParts.{IsAnswer, code_of, of_check, range_of, setting_of};

use crate::answer::{Fault, checked};
use crate::byte_strings::{Joined, adds_up, cut_up};
use crate::question::Question;
use commonware_storage::NoMemory;
use commonware_storage::digest::Hasher;
use commonware_storage::light::check_range;
use commonware_storage::merkle::{Graftable, Location};
use commonware_storage::qmdb::current::grafting::chunk_height;
use std::alloc::Global;

/// Whether operations stand from a location on, and these are the chunks that they touch.
#[derive(Drop)]
pub struct Range<'a> {
    /// How many digests the proof may have.
    pub max_digests: usize,

    /// The first location.
    pub start: u64,

    /// The operations, joined.
    pub operations: &'a [u8],

    /// How many bytes each operation has.
    pub operation_lengths: &'a [usize],

    /// The chunks of activity bits, joined.
    pub chunks: &'a [u8],

    /// How many bytes each chunk has.
    pub chunk_lengths: &'a [usize],
}

impl Question for Range<'_> {
    ghost refusal = { λ before it. or_then before (lengths_refusal it.operations.now
        it.operation_lengths.now it.chunks.now it.chunk_lengths.now) };

    ghost asked = { λ it. range_of it.max_digests it.start
        (cut it.operation_lengths.now it.operations.now)
        (cut it.chunk_lengths.now it.chunks.now) };

    fn answer<F: Graftable, H: Hasher>(
        &self,
        alloc: Global,
        chunk_size: usize,
        proof: &[u8],
        root: &H::Digest,
    ) -> Result<bool, Fault> {
        if !adds_up(self.operation_lengths, self.operations.len())
            || !adds_up(self.chunk_lengths, self.chunks.len())
        {
            return Err(Fault::OtherLengths);
        }
        if chunk_height(chunk_size).is_none() {
            return Ok(false);
        }
        let operations = Joined {
            bytes: self.operations,
            lengths: self.operation_lengths,
        };
        let chunks = Joined {
            bytes: self.chunks,
            lengths: self.chunk_lengths,
        };
        let start = Location::new(self.start);
        checked(cut_range::<F, H>(
            alloc,
            chunk_size,
            proof,
            self.max_digests,
            start,
            &operations,
            &chunks,
            root,
        ))
    }

    ghost first = { λ _ _. refl };
}

/// Returns what `check_range` answers for the strings, each by itself.
fn cut_range<F: Graftable, H: Hasher>(
    alloc: Global,
    chunk_size: usize,
    proof: &[u8],
    max_digests: usize,
    start: Location<F>,
    operations: &Joined,
    chunks: &Joined,
    root: &H::Digest,
) -> Result<bool, NoMemory>
    requires { IsChunkSize chunk_size }
    ensures { IsAnswer None (code_of (of_check result)) (range_of max_digests start
        (cut operations.now.lengths.now operations.now.bytes.now)
        (cut chunks.now.lengths.now chunks.now.bytes.now)) (setting_of H.hash_of F.shape
        F.has_pending H.Digest.size chunk_size proof.now (H.Digest.text root.now)) }
{
    let operations = cut_up(alloc, operations)?;
    let chunks = cut_up(alloc, chunks)?;
    check_range::<F, H>(
        alloc,
        proof,
        chunk_size,
        max_digests,
        start,
        &operations,
        &chunks,
        root,
    )
}
