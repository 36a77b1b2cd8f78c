//! The list on proofs of a bitmap that are said to be other ones.

ghost use Rattle.storage_bitmap.specs.Chunks.{IsChunkSize};

use replay_columns::answers::{or_word, tell_next};
use replay_columns::columns::{Fault, List, or_fault, parse, parts_between};
use std::alloc::Global;
use storage_bitmap::bitmap::authenticated::MerkleizedBitMap;
use storage_codec::digest::Hasher;
use storage_merkle::merkle::Location;
use storage_merkle::merkle::hasher::Standard;

/// `calls claims`: of each claim on the bitmap after the calls the numbers of leaves with which it is accepted. A claim
/// `BIT:CLAIMED:INACTIVE:FIRST:LAST` is the proof of one bit, said to be one of another bit with that number of inactive peaks and,
/// in turn, each number of leaves from the first to the last.
pub fn bitmaps_verified<H: Hasher, const N: usize>(
    alloc: Global,
    hasher: &Standard<H>,
    bitmap: &MerkleizedBitMap<H::Digest, N>,
    claims: &str,
    out: &mut String,
) -> Result<(), Fault>
    requires { IsChunkSize N }
{
    let claims: List<String> = parse(alloc, &[claims])?;
    let start = out.len();
    for claim in &claims.0 {
        if out.len() > start {
            out.push(',')?;
        }
        let numbers: Vec<u64> = parts_between(alloc, claim.as_str(), ':')?;
        tell_accepted(alloc, hasher, bitmap, &numbers, out)?;
    }
    or_word(out, start, "none")
}

/// Adds the numbers of leaves with which a claim is accepted.
fn tell_accepted<H: Hasher, const N: usize>(
    alloc: Global,
    hasher: &Standard<H>,
    bitmap: &MerkleizedBitMap<H::Digest, N>,
    claim: &[u64],
    out: &mut String,
) -> Result<(), Fault>
    requires { IsChunkSize N }
{
    let [bit, claimed, inactive, first, last] = claim else {
        return Err(Fault::Malformed);
    };
    if *bit < bitmap.pruned_bits() {
        return Err(Fault::Malformed);
    }
    let (mut proof, chunk) = or_fault(bitmap.proof(hasher, *bit))?;
    proof.inactive_peaks = *inactive as usize;
    let root = bitmap.root();
    let start = out.len();
    for leaves in *first..=*last {
        proof.leaves = Location::new(leaves);
        if MerkleizedBitMap::verify_bit_inclusion(alloc, hasher, &proof, &chunk, *claimed, &root)? {
            tell_next(out, start, '/', &leaves)?;
        }
    }
    or_word(out, start, "-")
}
