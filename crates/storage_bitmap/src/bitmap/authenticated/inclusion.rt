//! The check that a bit is in a bitmap.
//!
//! ```text
//! bits fill their chunks      root = root of the tree over the chunks
//! else                        root = h( root of the tree || number of bits || h(last chunk) )
//! ```
//!
//! So a bit of a complete chunk is shown by a path in the tree, with the last chunk's digest where there is a partial one.
//! A bit of the partial chunk is shown by the root of the tree alone.

ghost use Rattle.std.specs.Prelude.{◌≡◌, ◌≢◌, ℕ, ◌*◌, ◌/◌, ◌%◌, ◌<◌, ◌≤◌, ◌^◌, ◌↔◌, [], ◌∷◌, map, option_map, None, Ok, false, IsTrue, IfOk};
ghost use Rattle.storage_bitmap.specs.BitProofs.{IsBitAccepted, IsBitProved};
ghost use Rattle.storage_bitmap.specs.BitRoots.{partial_string};
ghost use Rattle.storage_bitmap.specs.BitParts.{IsBitComputed};
ghost use Rattle.storage_bitmap.specs.Chunks.{IsChunkSize};
ghost use Rattle.storage_merkle.specs.Checks.{IsRecomputed};
ghost use Rattle.storage_merkle.specs.Hashers.{TakesTree};
ghost use Rattle.storage_merkle.specs.Held.{proof_of};
ghost use Rattle.storage_merkle.specs.Mmr.{mmr};
ghost use Rattle.storage_merkle.specs.Trees.{listed, ungrafted};

use crate::bitmap::authenticated::{BitMap, State};
use crate::laws::bit_proofs_are_sound;
use std::alloc::Global;
use storage_codec::NoMemory;
use storage_codec::digest::Digest;
use storage_merkle::merkle::hasher::Hasher;
use storage_merkle::merkle::{LentProof, Location, Proof, mmr};

impl<D: Digest, const N: usize, M: State<D>> BitMap<D, N, M> {
    /// Returns whether `chunk` is the chunk of the bit number `bit` in the bitmap with the root `root`; the bitmap has
    /// `proof.leaves` bits. The no of a bit at or past the end, of inactive peaks, and of no digest if the bits do not
    /// fill their chunks allocates nothing.
    pub fn verify_bit_inclusion<H: Hasher<mmr::Family, Digest = D>>(
        alloc: Global,
        hasher: &H,
        proof: &Proof<mmr::Family, D>,
        chunk: &[u8; N],
        bit: u64,
        root: &D,
    ) -> Result<bool, NoMemory>
        requires size { IsChunkSize N }
        requires takes { TakesTree (H.takes hasher.now) mmr (proof.now.leaves / (8 * N)) }
        ensures exact { H.layout hasher.now ≡ ungrafted mmr
            → IfOk result (λ yes. IsTrue yes ↔ IsBitAccepted H.hash_of (H.bagging hasher.now) N
            (proof_of D.text proof.now) chunk.now bit (D.text root.now)) }
        ensures meaning { H.layout hasher.now ≡ ungrafted mmr
            → IfOk result (λ yes. IsTrue yes → IsBitProved D.size H.hash_of (H.bagging hasher.now) N
            (proof_of D.text proof.now) chunk.now bit (D.text root.now)) }
        ensures past_the_end { proof.now.leaves ≤ bit → result ≡ Ok false }
        ensures inactive { proof.now.inactive_peaks ≢ 0 → result ≡ Ok false }
        ensures no_digest { proof.now.leaves % (8 * N) ≢ 0
            → proof.now.digests.items ≡ []
            → result ≡ Ok false }
    {
        bit_proofs_are_sound();
        if bit >= proof.leaves.as_u64() || proof.inactive_peaks != 0 {
            return Ok(false);
        }
        let computed = computed_root(alloc, hasher, proof, chunk, bit)?;
        Ok(computed == Some(*root))
    }
}

/// Returns the root of the bitmap in which the bit number `bit` stands in `chunk`, as `proof` has it; none if a count
/// of the proof does not fit.
fn computed_root<H: Hasher<mmr::Family>, const N: usize>(
    alloc: Global,
    hasher: &H,
    proof: &Proof<mmr::Family, H::Digest>,
    chunk: &[u8; N],
    bit: u64,
) -> Result<Option<H::Digest>, NoMemory>
    requires size { IsChunkSize N }
    requires takes { TakesTree (H.takes hasher.now) mmr (proof.now.leaves / (8 * N)) }
    requires below { bit < proof.now.leaves }
    ensures root { H.layout hasher.now ≡ ungrafted mmr
        → IfOk result (λ root. IsBitComputed H.hash_of (H.bagging hasher.now) N
        (proof_of H.Digest.text proof.now) chunk.now bit (option_map H.Digest.text root)) }
    ensures no_digest { proof.now.leaves % (8 * N) ≢ 0
        → proof.now.digests.items ≡ []
        → result ≡ Ok None }
{
    let length = proof.leaves.as_u64();
    let chunk_bits = 8 * N as u64;
    let complete = length / chunk_bits;
    let place = bit / chunk_bits;
    if length.is_multiple_of(chunk_bits) {
        return chunks_root(alloc, hasher, complete, &proof.digests, chunk, place);
    }
    let Some((last, front)) = proof.digests.split_last() else {
        return Ok(None);
    };
    if place != complete {
        let Some(root) = chunks_root(alloc, hasher, complete, front, chunk, place)? else {
            return Ok(None);
        };
        return Ok(Some(partial_root(hasher, &root, length, last)));
    }
    if !front.is_empty() {
        return Ok(None);
    }
    let digest = hasher.digest(chunk);
    Ok(Some(partial_root(hasher, last, length, &digest)))
}

/// Returns the root of the tree over `complete` chunks in which chunk number `place` is `chunk`, from the proof's
/// `digests`; none if a count does not fit.
fn chunks_root<H: Hasher<mmr::Family>>(
    alloc: Global,
    hasher: &H,
    complete: u64,
    digests: &[H::Digest],
    chunk: &[u8],
    place: u64,
) -> Result<Option<H::Digest>, NoMemory>
    requires { TakesTree (H.takes hasher.now) mmr complete }
    ensures { H.layout hasher.now ≡ ungrafted mmr
        → IfOk result (λ root. IsRecomputed H.hash_of (ungrafted mmr) (H.bagging hasher.now)
        (record { leaves = complete; inactive = 0; digests = map H.Digest.text digests.now }) place
        (listed (chunk.now ∷ [])) (option_map H.Digest.text root)) }
{
    let proof = LentProof {
        leaves: Location::new(complete),
        inactive_peaks: 0,
        digests,
    };
    proof.recompute_root(alloc, hasher, &[chunk], Location::new(place))
}

/// Returns the root of bits that do not fill their chunks: the digest of `root`, that of the tree, `length`, the number
/// of bits, in eight bytes, highest first, and `last`, the digest of the last chunk, joined.
#[tactic(auto, unfolding(storage_merkle::specs::Calc::be8))]
pub(super) fn partial_root<H: Hasher<mmr::Family>>(
    hasher: &H,
    root: &H::Digest,
    length: u64,
    last: &H::Digest,
) -> H::Digest
    ensures { H.Digest.text result
        ≡ H.hash_of (partial_string (H.Digest.text root.now) length (H.Digest.text last.now)) }
{
    hasher.hash(&[root.bytes(), &length.to_be_bytes(), last.bytes()])
}
