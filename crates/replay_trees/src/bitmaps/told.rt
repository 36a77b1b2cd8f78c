//! The list on what stands in a bitmap.

use replay_columns::answers::{Answer, At, Slashed, or_word, tell_next};
use replay_columns::columns::{Fault, Hex, List, or_fault, parse};
use std::alloc::Global;
use storage_bitmap::bitmap::authenticated::MerkleizedBitMap;
use storage_codec::digest::{Digest, Hasher};
use storage_merkle::merkle::Position;
use storage_merkle::merkle::hasher::Standard;

/// `calls bits`: what stands after the calls: how many bits it has and how many of them are pruned, how many nodes, its last chunk and
/// how many bits that has, its root, what is kept of the pruned chunks, the proofs of these bits, and the digests at all positions.
pub fn bitmaps<H: Hasher, const N: usize>(
    alloc: Global,
    hasher: &Standard<H>,
    bitmap: &MerkleizedBitMap<H::Digest, N>,
    asked: &str,
    out: &mut String,
) -> Result<(), Fault> {
    tell_state(bitmap, out)?;
    out.push(' ')?;
    tell_proofs(alloc, hasher, bitmap, asked, out)?;
    out.push(' ')?;
    tell_nodes(bitmap, out)
}

/// Adds how many bits, pruned bits and nodes there are, the last chunk and how many bits that has, the root, and what is kept of
/// the pruned chunks.
fn tell_state<D: Digest, const N: usize>(
    bitmap: &MerkleizedBitMap<D, N>,
    out: &mut String,
) -> Result<(), Fault> {
    let lengths = (bitmap.len(), bitmap.pruned_bits(), bitmap.size());
    let (chunk, count) = bitmap.last_chunk();
    let last = (*chunk, count, Hex(bitmap.root()));
    let state = or_fault(bitmap.write_pruned())?;
    let kept = At(state.pruned_chunks, Slashed(&state.pinned));
    (lengths, last, kept).tell(out)
}

/// Adds the proofs of bits: each bit with the number of leaves, the digests, and the bit's chunk.
fn tell_proofs<H: Hasher, const N: usize>(
    alloc: Global,
    hasher: &Standard<H>,
    bitmap: &MerkleizedBitMap<H::Digest, N>,
    asked: &str,
    out: &mut String,
) -> Result<(), Fault> {
    let bits: List<u64> = parse(alloc, &[asked])?;
    let start = out.len();
    for bit in &bits.0 {
        tell_proof(hasher, bitmap, *bit, start, out)?;
    }
    or_word(out, start, "-")
}

/// Adds a bit, the number of leaves and the digests of its proof, and its chunk, or the refusal, behind a comma where
/// something stands behind the first `start` bytes.
fn tell_proof<H: Hasher, const N: usize>(
    hasher: &Standard<H>,
    bitmap: &MerkleizedBitMap<H::Digest, N>,
    bit: u64,
    start: usize,
    out: &mut String,
) -> Result<(), Fault> {
    if bit < bitmap.pruned_bits() {
        return Err(Fault::Malformed);
    }
    let proved = match bitmap.proof(hasher, bit) {
        Ok(proved) => proved,
        Err(error) => return tell_next(out, start, ',', &At(bit, error)),
    };
    let (proof, chunk) = proved;
    let proof = At(proof.leaves, At(Slashed(&proof.digests), chunk));
    tell_next(out, start, ',', &At(bit, proof))
}

/// Adds the digests at all positions.
fn tell_nodes<D: Digest, const N: usize>(
    bitmap: &MerkleizedBitMap<D, N>,
    out: &mut String,
) -> Result<(), Fault> {
    let start = out.len();
    for place in 0..bitmap.size().as_u64() {
        let digest = bitmap.get_node(Position::new(place)).map(Hex);
        tell_next(out, start, ',', &At(place, digest))?;
    }
    or_word(out, start, "-")
}
