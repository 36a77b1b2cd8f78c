//! A check of an operation.

ghost use Rattle.std.specs.Prelude.{◌≡◌, None};
ghost use Rattle.storage_bitmap.specs.Chunks.{IsChunkSize};
ghost use Rattle.storage_current.specs.Snapshots.{grafting_of};
ghost use Rattle.commonware_storage.specs.Light.{IsAcceptedAt, IsTrueAt};
ghost use Rattle.light_questions.specs.Agreed.{function_of, has_pending_of, agreed_refusal, shape_of, digest_size_of};
ghost use Rattle.light_questions.specs.Answers.{IsTold, Says, no, yes};

use light_questions::answer::told;
use light_questions::operation::Operation;
use light_questions::question::ask;
use std::alloc::Global;

/// Returns whether the operation with the bytes `operation` stands at `location` of the snapshot with the canonical
/// root `root`, and is active. `proof` is an operation proof as it is written, over a chunk of `chunk_size` bytes.
///
/// The answer is one of those of `answer`. A no for a chunk size that no chunk has allocates nothing.
#[unsafe(no_mangle)]
pub extern "C" fn gawerunoa_check_operation(
    alloc: Global,
    family: u32,
    hash: u32,
    chunk_size: usize,
    location: u64,
    proof: &[u8],
    operation: &[u8],
    root: &[u8],
) -> i32
    ensures exact { IsTold (agreed_refusal family hash root.now) result (Says result (IsAcceptedAt
        (function_of hash) (grafting_of (shape_of family) chunk_size) (has_pending_of family)
        (digest_size_of hash) location proof.now operation.now root.now)) }
    ensures meaning { agreed_refusal family hash root.now ≡ None → result ≡ yes → IsTrueAt
        (function_of hash) (grafting_of (shape_of family) chunk_size) (has_pending_of family)
        (digest_size_of hash) location proof.now operation.now root.now }
    ensures refused { agreed_refusal family hash root.now ≡ None → ¬ IsChunkSize chunk_size
        → result ≡ no }
{
    let question = Operation {
        location,
        operation,
    };
    told(ask(alloc, family, hash, chunk_size, proof, &question, root))
}
