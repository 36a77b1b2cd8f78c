//! The proof of a bit.

ghost use Rattle.std.specs.Prelude.{◌≡◌, ℕ, ◌+◌, ◌-◌, ◌*◌, ◌/◌, ◌%◌, ◌<◌, ◌≤◌, ◌⊎◌, [], List, Bool, map, IfOk, IfErr};
ghost use Rattle.storage_bitmap.specs.BitProofs.{IsBitAccepted, IsOwnBit, own_bit_digests};
ghost use Rattle.storage_bitmap.specs.Chunks.{IsChunkSize, IsRest, bit_count};
ghost use Rattle.storage_bitmap.specs.StandsForBits.{StandsMerkleized, chunk_digests, chunk_nodes};
ghost use Rattle.storage_merkle.specs.Held.{proof_of};
ghost use Rattle.storage_merkle.specs.Kept.{StandsFor};
ghost use Rattle.storage_merkle.specs.Mmr.{mmr};
ghost use Rattle.storage_merkle.specs.Trees.{ungrafted};
ghost use Rattle.storage_merkle.specs.Shape.{max_leaves};

use crate::bitmap::authenticated::{BitMap, Merkleized};
use crate::bitmap::{Prunable, Readable};
use crate::laws::own_bit_proofs_are_accepted;
use std::alloc::Global;
use storage_codec::NoMemory;
use storage_codec::digest::Digest;
use storage_merkle::merkle::hasher::Hasher;
use storage_merkle::merkle::mem::Mem;
use storage_merkle::merkle::{Error, Location, Proof, mmr};

impl<D: Digest, const N: usize> BitMap<D, N, Merkleized<D>> {
    /// Returns the proof of the bit number `bit`, which is not pruned, and its chunk. The proof holds for each bit of
    /// the chunk; its `leaves` are the number of bits.
    ///
    /// # Errors
    ///
    /// `BitOutOfBounds` of `bit` and the number of bits if `bit` is not below that; `Memory`.
    pub fn proof<H: Hasher<mmr::Family, Digest = D>>(
        &self,
        hasher: &H,
        bit: u64,
    ) -> Result<(Proof<mmr::Family, D>, [u8; N]), Error<mmr::Family>>
        requires { self.now.retained.pruned * (8 * N) ≤ bit }
        ensures own { H.layout hasher.now ≡ ungrafted mmr
            → IfOk result (λ r. (bits : List Bool) → StandsMerkleized D.text H.hash_of
            (H.bagging hasher.now) N self.now self.now.state.root bits
            → IsOwnBit H.hash_of (H.bagging hasher.now) N (proof_of D.text r.0) r.1 bit bits) }
        ensures accepted { H.layout hasher.now ≡ ungrafted mmr
            → IfOk result (λ r. (bits : List Bool) → StandsMerkleized D.text H.hash_of
            (H.bagging hasher.now) N self.now self.now.state.root bits → IsBitAccepted H.hash_of
            (H.bagging hasher.now) N (proof_of D.text r.0) r.1 bit (D.text self.now.state.root)) }
        ensures within { IfOk result (λ _. bit < bit_count N self.now.retained) }
        ensures why { IfErr result (λ e. ((bit_count N self.now.retained ≤ bit)
            × (e ≡ Error.BitOutOfBounds bit (bit_count N self.now.retained)))
            ⊎ ((bit < bit_count N self.now.retained) × (e ≡ Error.Memory))) }
    {
        own_bit_proofs_are_accepted();
        let length = self.bits.len();
        if bit >= length {
            return Err(Error::BitOutOfBounds(bit, length));
        }
        let place = bit / (8 * N as u64);
        let digests = bit_digests(self.alloc, &self.tree, &self.bits, hasher, place)?;
        let proof = Proof {
            leaves: Location::new(length),
            inactive_peaks: 0,
            digests,
        };
        Ok((proof, self.bits.get_chunk(place as usize)))
    }
}

/// Returns the digests that prove the bits of chunk number `place`: the root of the tree if it is the partial chunk,
/// else those of the chunk's leaf, and the partial chunk's if there is one.
fn bit_digests<D: Digest, H: Hasher<mmr::Family, Digest = D>, const N: usize>(
    alloc: Global,
    tree: &Mem<mmr::Family, D>,
    bits: &Prunable<N>,
    hasher: &H,
    place: u64,
) -> Result<Vec<D>, NoMemory>
    requires size { IsChunkSize N }
    requires few { bit_count N bits.now ≤ max_leaves }
    requires boundary { tree.now.boundary ≡ bits.now.pruned }
    requires order { bits.now.pruned ≤ tree.now.leaves }
    requires whole { tree.now.leaves ≡ bit_count N bits.now / (8 * N) }
    requires kept { bits.now.pruned ≤ place }
    requires within { place * (8 * N) < bit_count N bits.now }
    ensures { H.layout hasher.now ≡ ungrafted mmr
        → IfOk result (λ v. (list : List Bool) → IsRest N bits.now list → StandsFor D.text mmr
        (chunk_nodes H.hash_of) tree.now (chunk_digests H.hash_of N list tree.now.leaves)
        → map D.text v.items ≡ own_bit_digests H.hash_of (H.bagging hasher.now) N list place) }
{
    let length = bits.len();
    let chunk_bits = 8 * N as u64;
    let complete = length / chunk_bits;
    if place == complete {
        let root = tree.root(hasher, 0).unwrap();
        let mut digests = Vec::new(alloc);
        digests.push(root)?;
        return Ok(digests);
    }
    let range = Location::new(place)..Location::new(place + 1);
    let Ok(mut proof) = tree.range_proof(hasher, range, 0) else {
        return Err(NoMemory);
    };
    if length.is_multiple_of(chunk_bits) {
        return Ok(proof.digests);
    }
    let last = bits.get_chunk(complete as usize);
    proof.digests.push(hasher.digest(&last))?;
    Ok(proof.digests)
}
