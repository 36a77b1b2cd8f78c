//! A check of a range of operations.

ghost use Rattle.std.specs.Prelude.{◌≡◌, None};
ghost use Rattle.storage_bitmap.specs.Chunks.{IsChunkSize};
ghost use Rattle.storage_current.specs.Snapshots.{grafting_of};
ghost use Rattle.commonware_storage.specs.LightRanges.{IsAcceptedRange, IsTrueRange};
ghost use Rattle.light_questions.specs.Agreed.{function_of, has_pending_of, agreed_refusal, shape_of, digest_size_of};
ghost use Rattle.light_questions.specs.Answers.{IsTold, Says, lengths_refusal, no, or_then, yes};
ghost use Rattle.light_questions.specs.ByteStrings.{cut};

use light_questions::answer::told;
use light_questions::question::ask;
use light_questions::range::Range;
use std::alloc::Global;

/// Returns whether the given operations stand at the locations from `start` on of the snapshot with the canonical root
/// `root`, and the chunks of activity bits that they touch are the given ones. `proof` is a range proof as it is
/// written, over chunks of `chunk_size` bytes, with at most `max_digests` digests. Operations and chunks are each one
/// byte string, and the length of each of its parts.
///
/// The answer is one of those of `answer`. A no for a chunk size that no chunk has allocates nothing.
#[unsafe(no_mangle)]
pub extern "C" fn gawerunoa_check_range<'a>(
    alloc: Global,
    family: u32,
    hash: u32,
    chunk_size: usize,
    max_digests: usize,
    start: u64,
    proof: &[u8],
    operations: &'a [u8],
    operation_lengths: &'a [usize],
    chunks: &'a [u8],
    chunk_lengths: &'a [usize],
    root: &[u8],
) -> i32
    ensures exact { let refused = or_then (agreed_refusal family hash root.now)
        (lengths_refusal operations.now operation_lengths.now chunks.now chunk_lengths.now) in
        IsTold refused result (Says result (IsAcceptedRange (function_of hash)
        (grafting_of (shape_of family) chunk_size) (has_pending_of family)
        (digest_size_of hash) max_digests
        start proof.now (cut operation_lengths.now operations.now)
        (cut chunk_lengths.now chunks.now) root.now)) }
    ensures meaning { or_then (agreed_refusal family hash root.now)
        (lengths_refusal operations.now operation_lengths.now chunks.now chunk_lengths.now) ≡ None
        → result ≡ yes → IsTrueRange (function_of hash) (grafting_of (shape_of family) chunk_size)
        (has_pending_of family) (digest_size_of hash) max_digests start proof.now
        (cut operation_lengths.now operations.now) (cut chunk_lengths.now chunks.now) root.now }
    ensures refused { or_then (agreed_refusal family hash root.now)
        (lengths_refusal operations.now operation_lengths.now chunks.now chunk_lengths.now) ≡ None
        → ¬ IsChunkSize chunk_size → result ≡ no }
{
    let question = Range {
        max_digests,
        start,
        operations,
        operation_lengths,
        chunks,
        chunk_lengths,
    };
    told(ask(alloc, family, hash, chunk_size, proof, &question, root))
}
