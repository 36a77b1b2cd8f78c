//! The digests that an accepted check of a range proof hands out.

ghost use Rattle.std.specs.Prelude.{◌≡◌, ℕ, ◌⊎◌, IfErr, IfOk, MatchResult, length, map};
ghost use Rattle.storage_merkle.specs.Extracted.{by_bytes};
ghost use Rattle.storage_merkle.specs.RangeProofs.{AreDigests};
ghost use Rattle.storage_current.specs.CurrentProofs.{IsCurrent};
ghost use Rattle.storage_current.specs.ExtractedCurrent.{AreExtractedCurrent, IsNotExtracted, MeansExtracted, extracted_current};
ghost use Rattle.storage_current.specs.Held.{range_proof_of};
ghost use Rattle.storage_current.specs.Snapshots.{grafting_of};
ghost use Rattle.storage_current.specs.Windows.{IsWindowOf};

use crate::laws::extracted::extracted_current_digests_are_true;
use crate::qmdb::current::grafting::Verifier;
use crate::qmdb::current::proof::window::Window;
use crate::qmdb::current::proof::{Chunk, RangeProof, encoded, lend, slots};
use std::alloc::Global;
use std::convert::AsSlice;
use storage_codec::codec::Write;
use storage_codec::digest::{DigestOf, Hasher};
use storage_merkle::laws::extracted::extracted_positions_ascend;
use storage_merkle::merkle::{Error, Graftable, Location};
use storage_ops::qmdb::verify::ExtractedDigests;

/// Returns each digest of the grafted view that the check of `operations` at the locations from `start` on, and of
/// `chunks`, which they touch, reads or computes in a peak over one of them, as (position, digest): of the siblings, of
/// these leaves, of the nodes above them and of the peaks, over a chunk's node the digest with its chunk. They ascend
/// by position, each once.
///
/// # Errors
///
/// `InvalidProof` if the check says no whatever the root; `RootMismatch` if another root than `root` comes out;
/// `Memory`.
pub fn verify_proof_and_extract_digests<F: Graftable, Op: Write, H: Hasher, const N: usize>(
    alloc: Global,
    proof: &RangeProof<F, DigestOf<H>>,
    start: Location<F>,
    operations: &[Op],
    chunks: &[[u8; N]],
    root: &DigestOf<H>,
) -> Result<ExtractedDigests<F, H>, Error<F>>
    ensures handed { IfOk result (λ v. AreExtractedCurrent H.hash_of (grafting_of F.shape N)
        (range_proof_of H.Digest.text proof.now) start (map Op.text operations.now) chunks.now
        (H.Digest.text root.now) (by_bytes H.Digest.text v.items)) }
    ensures meaning { (H.Digest.size ≡ 32) ⊎ (H.Digest.size ≡ 64)
        → IfOk result (λ v. MeansExtracted H.hash_of (grafting_of F.shape N)
        (range_proof_of H.Digest.text proof.now) start (map Op.text operations.now) chunks.now
        (H.Digest.text root.now) (by_bytes H.Digest.text v.items)) }
    ensures why { IfErr result
        (IsNotExtracted H.hash_of (grafting_of F.shape N)
        (range_proof_of H.Digest.text proof.now) start
        (map Op.text operations.now) chunks.now (H.Digest.text root.now)) }
{
    let Some(window) = proof.window(start, operations.len(), chunks, N) else {
        return Err(Error::InvalidProof);
    };
    let elements = encoded(alloc, operations)?;
    extracted_current_digests_are_true();
    extracted_positions_ascend();
    extract_in::<F, H, Vec<u8>, [u8; N]>(alloc, proof, &window, start, &elements, chunks, root)
}

/// Returns what is handed out for a claim whose counts and lengths fit; `window` is where the claim stands.
fn extract_in<F: Graftable, H: Hasher, E: AsSlice<u8>, C: Chunk>(
    alloc: Global,
    proof: &RangeProof<F, DigestOf<H>>,
    window: &Window,
    start: Location<F>,
    operations: &[E],
    chunks: &[C],
    root: &DigestOf<H>,
) -> Result<ExtractedDigests<F, H>, Error<F>>
    requires { (n : ℕ) × IsWindowOf (grafting_of F.shape n) proof.now.proof.leaves start
        (length operations.now) (length chunks.now) window.now }
    ensures { (n : ℕ) → IsWindowOf (grafting_of F.shape n) proof.now.proof.leaves start
        (length operations.now) (length chunks.now) window.now
        → AreDigests n (map C.text chunks.now)
        → MatchResult result (λ v. IsCurrent H.hash_of (grafting_of F.shape n)
        (range_proof_of H.Digest.text proof.now) start (map E.items operations.now)
        (map C.text chunks.now) (H.Digest.text root.now) × (by_bytes H.Digest.text v.items
        ≡ extracted_current H.hash_of (grafting_of F.shape n)
        (range_proof_of H.Digest.text proof.now)
        start (map E.items operations.now) (map C.text chunks.now)))
        (IsNotExtracted H.hash_of (grafting_of F.shape n)
        (range_proof_of H.Digest.text proof.now) start
        (map E.items operations.now) (map C.text chunks.now) (H.Digest.text root.now)) }
{
    if !slots::match_chunks::<H, C, F>(proof, window, chunks) {
        return Err(Error::InvalidProof);
    }
    let lent = lend(alloc, chunks)?;
    let verifier = Verifier::<F, H>::new(
        window.height,
        window.first_chunk,
        lent,
        window.counts.graftable,
    );
    let computed = proof
        .proof
        .recompute_digests(alloc, &verifier, operations, start)?;
    let Some(computed) = computed else {
        return Err(Error::InvalidProof);
    };
    let (grafted_root, digests) = computed;
    if proof.canonical::<H>(&grafted_root, window) != *root {
        return Err(Error::RootMismatch);
    }
    Ok(digests)
}
