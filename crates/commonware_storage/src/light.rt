//! Answers for a client that trusts one digest, the canonical root of a snapshot, from bytes that anyone may have made.

ghost use Rattle.std.specs.Prelude.{◌≡◌, ◌↔◌, ◌⊎◌, IfOk, IfErr, OnOk, IsOk, IsErr, IsTrue, false};
ghost use Rattle.hex.specs.Hex.{decode_of};
ghost use Rattle.storage_codec.specs.Parts.{IsBytes};
ghost use Rattle.storage_bitmap.specs.Chunks.{IsChunkSize};
ghost use Rattle.commonware_storage.specs.Light.{IsAcceptedAt, IsTrueAt, IsTextAcceptedAt, IsTextTrueAt, IsProofAt, IsProofTextAt, IsTextRefusal};
ghost use Rattle.commonware_storage.specs.declared.light.text_error.TextError.TheVariants.{Memory};
ghost use Rattle.storage_current.specs.Snapshots.{grafting_of};

mod keys;
mod ranges;
mod shared;
mod text_error;

pub use keys::{check_absence, check_value};
pub use ranges::check_range;
pub use shared::{check_absence_shared, check_operation_shared, check_value_shared};
use std::alloc::Global;
use storage_codec::NoMemory;
use storage_codec::codec::{Buf, Error, Read};
use storage_codec::digest::Hasher;
use storage_current::qmdb::current::proof::dynamic;
use storage_merkle::merkle::{Graftable, Location};
pub use text_error::TextError;

/// The most digests that a proof may have. No tree needs more for one location.
pub const MAX_DIGESTS: usize = 128;

/// Returns whether the operation with the bytes `operation` stands at the location `loc` of the snapshot with the
/// canonical root `root`, and is active. `proof` is an operation proof as it is written, over a chunk of `chunk_size`
/// bytes.
///
/// The answer is no if the bytes are not one whole proof with at most [`MAX_DIGESTS`] digests, if it is the proof of
/// another location, and if no chunk has that size: this last no allocates nothing. Else it is what the proof's
/// `verify` answers.
pub fn check_operation<F: Graftable, H: Hasher>(
    alloc: Global,
    proof: &[u8],
    chunk_size: usize,
    loc: Location<F>,
    operation: &[u8],
    root: &H::Digest,
) -> Result<bool, NoMemory>
    ensures refused { ¬ IsChunkSize chunk_size → result ≡ Ok false }
    ensures exact { IfOk result (λ yes.
        IsTrue yes ↔ IsAcceptedAt H.hash_of (grafting_of F.shape chunk_size) F.has_pending
        H.Digest.size loc proof.now operation.now (H.Digest.text root.now)) }
    ensures meaning { (H.Digest.size ≡ 32) ⊎ (H.Digest.size ≡ 64)
        → IfOk result (λ yes. IsTrue yes → IsTrueAt H.hash_of (grafting_of F.shape chunk_size)
        F.has_pending H.Digest.size loc proof.now operation.now (H.Digest.text root.now)) }
    ensures whole { IfOk result (λ yes. IsTrue yes
        → IsProofAt F.has_pending H.Digest.size chunk_size loc proof.now) }
{
    operation_from::<F, H, &[u8]>(alloc, proof, chunk_size, loc, operation, root)
}

/// Returns what [`check_operation`] answers for the bytes that `buf` holds.
fn operation_from<F: Graftable, H: Hasher, B: Buf>(
    alloc: Global,
    mut buf: B,
    chunk_size: usize,
    loc: Location<F>,
    operation: &[u8],
    root: &H::Digest,
) -> Result<bool, NoMemory>
    ensures refused { ¬ IsChunkSize chunk_size → result ≡ Ok false }
    ensures exact { IfOk result (λ yes.
        IsTrue yes ↔ IsAcceptedAt H.hash_of (grafting_of F.shape chunk_size) F.has_pending
        H.Digest.size loc (B.unread buf) operation.now (H.Digest.text root.now)) }
    ensures meaning { IsBytes (B.unread buf) → (H.Digest.size ≡ 32) ⊎ (H.Digest.size ≡ 64)
        → IfOk result (λ yes. IsTrue yes → IsTrueAt H.hash_of (grafting_of F.shape chunk_size)
        F.has_pending H.Digest.size loc (B.unread buf) operation.now (H.Digest.text root.now)) }
    ensures whole { IfOk result (λ yes. IsTrue yes
        → IsProofAt F.has_pending H.Digest.size chunk_size loc (B.unread buf)) }
{
    let cfg = (chunk_size, MAX_DIGESTS);
    match dynamic::OperationProof::<F, H::Digest>::read_cfg(alloc, &mut buf, &cfg) {
        Ok(proof) if buf.remaining() == 0 && proof.loc == loc => {
            proof.verify_encoded::<H>(alloc, operation, root)
        }
        Ok(_) => Ok(false),
        Err(Error::Memory) => Err(NoMemory),
        Err(_) => Ok(false),
    }
}

/// Returns what [`check_operation`] answers for the bytes that `proof` and `operation` spell in hexadecimal, in either
/// case.
///
/// # Errors
///
/// The first of: `Operation` if the operation's text spells no bytes; `Proof` if the proof's does not, also for a chunk
/// size that no chunk has; `Memory`, which may come at any point.
pub fn check_text<F: Graftable, H: Hasher>(
    alloc: Global,
    proof: &str,
    chunk_size: usize,
    loc: Location<F>,
    operation: &str,
    root: &H::Digest,
) -> Result<bool, TextError>
    ensures refused { ¬ IsChunkSize chunk_size → IfOk result (λ yes. yes ≡ false) }
    ensures exact { IfOk result (λ yes.
        IsTrue yes ↔ IsTextAcceptedAt H.hash_of (grafting_of F.shape chunk_size) F.has_pending
        H.Digest.size loc proof.now operation.now (H.Digest.text root.now)) }
    ensures meaning { (H.Digest.size ≡ 32) ⊎ (H.Digest.size ≡ 64)
        → IfOk result (λ yes. IsTrue yes → IsTextTrueAt H.hash_of (grafting_of F.shape chunk_size)
        F.has_pending H.Digest.size loc proof.now operation.now (H.Digest.text root.now)) }
    ensures whole { IfOk result (λ yes. IsTrue yes
        → IsProofTextAt F.has_pending H.Digest.size chunk_size loc proof.now) }
    ensures spelled { OnOk result (IsOk (decode_of operation.now) × IsOk (decode_of proof.now)) }
    ensures why { IfErr result (λ error. IsTextRefusal error operation.now proof.now) }
{
    let operation = spelled(alloc, operation, TextError::Operation)?;
    let proof = spelled(alloc, proof, TextError::Proof)?;
    let yes = check_operation::<F, H>(alloc, &proof, chunk_size, loc, &operation, root)?;
    Ok(yes)
}

/// Returns the bytes that `text` spells in hexadecimal; `fault` if it spells none.
fn spelled(alloc: Global, text: &str, fault: TextError) -> Result<Vec<u8>, TextError>
    ensures bytes { IfOk result (λ bytes. decode_of text.now ≡ Ok bytes.items) }
    ensures why { IfErr result (λ error.
        (error ≡ Memory) ⊎ ((error ≡ fault) × IsErr (decode_of text.now))) }
{
    match hex::decode(alloc, text) {
        Ok(bytes) => Ok(bytes),
        Err(hex::FromHexError::OutOfMemory) => Err(TextError::Memory),
        Err(_) => Err(fault),
    }
}
