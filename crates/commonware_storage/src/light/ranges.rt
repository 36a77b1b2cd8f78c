//! Answers about ranges of operations for a client that trusts one digest, from bytes that anyone may have made.

ghost use Rattle.std.specs.Prelude.{◌≡◌, ◌↔◌, ◌⊎◌, IfOk, IsTrue, Ok, false, map};
ghost use Rattle.storage_bitmap.specs.Chunks.{IsChunkSize};
ghost use Rattle.storage_current.specs.Snapshots.{grafting_of};
ghost use Rattle.commonware_storage.specs.LightRanges.{IsAcceptedRange, IsRangeProof, IsTrueRange};

use std::alloc::Global;
use storage_codec::NoMemory;
use storage_codec::codec::{Decode, Error};
use storage_codec::digest::Hasher;
use storage_current::qmdb::current::grafting;
use storage_current::qmdb::current::proof::RangeProof;
use storage_merkle::merkle::{Graftable, Location};

/// Returns whether the operations with the bytes `operations` stand at the locations from `start` on of the snapshot
/// with the canonical root `root`, and the chunks of activity bits that they touch are `chunks`. `proof` is a range
/// proof as it is written, over chunks of `chunk_size` bytes.
///
/// The answer is no if the bytes are not one whole proof with at most `max_digests` digests, and if no chunk has that
/// size: this last no allocates nothing. Else it is what the proof's `verify_encoded` answers.
pub fn check_range<F: Graftable, H: Hasher>(
    alloc: Global,
    proof: &[u8],
    chunk_size: usize,
    max_digests: usize,
    start: Location<F>,
    operations: &[&[u8]],
    chunks: &[&[u8]],
    root: &H::Digest,
) -> Result<bool, NoMemory>
    ensures refused { ¬ IsChunkSize chunk_size → result ≡ Ok false }
    ensures exact { IfOk result (λ yes. IsTrue yes
        ↔ IsAcceptedRange H.hash_of (grafting_of F.shape chunk_size) F.has_pending H.Digest.size
        max_digests start proof.now (map (λ o. o.now) operations.now)
        (map (λ c. c.now) chunks.now) (H.Digest.text root.now)) }
    ensures meaning { (H.Digest.size ≡ 32) ⊎ (H.Digest.size ≡ 64)
        → IfOk result (λ yes. IsTrue yes
        → IsTrueRange H.hash_of (grafting_of F.shape chunk_size) F.has_pending H.Digest.size
        max_digests start proof.now (map (λ o. o.now) operations.now)
        (map (λ c. c.now) chunks.now) (H.Digest.text root.now)) }
    ensures whole { IfOk result (λ yes. IsTrue yes
        → IsRangeProof F.has_pending H.Digest.size max_digests proof.now) }
{
    if grafting::chunk_height(chunk_size).is_none() {
        return Ok(false);
    }
    match RangeProof::<F, H::Digest>::decode_cfg(alloc, proof, &max_digests) {
        Ok(proof) => proof.verify_encoded::<H, &[u8], &[u8]>(
            alloc, start, operations, chunks, chunk_size, root,
        ),
        Err(Error::Memory) => Err(NoMemory),
        Err(_) => Ok(false),
    }
}
