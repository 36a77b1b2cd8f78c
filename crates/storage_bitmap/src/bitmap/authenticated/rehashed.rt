//! The tree over the chunks of a bitmap, brought to the bitmap's bits.
//!
//! Only chunks that changed, chunks that are complete since, and the nodes over them are hashed, each once.

ghost use Rattle.std.specs.Prelude.{◌≡◌, ℕ, ◌+◌, ◌-◌, ◌*◌, ◌/◌, ◌%◌, ◌<◌, ◌≤◌, ◌∷◌, ◌++◌, [], ◌≢◌, List, Bool, length, map, All, IfOk, IfErr, OnOk};
ghost use Rattle.std.specs.List.{AllZip};
ghost use Rattle.storage_merkle.specs.Calc.{be8};
ghost use Rattle.storage_merkle.specs.Hashers.{TakesTree};
ghost use Rattle.storage_merkle.specs.Kept.{StandsBut, StandsFor};
ghost use Rattle.storage_merkle.specs.Mmr.{mmr};
ghost use Rattle.storage_merkle.specs.Shape.{size, max_leaves};
ghost use Rattle.storage_merkle.specs.Trees.{ungrafted};
ghost use Rattle.storage_bitmap.specs.BitRoots.{bit_root};
ghost use Rattle.storage_bitmap.specs.Chunks.{IsChunkSize, IsRest, bit_count, chunk as chunk_of};
ghost use Rattle.storage_bitmap.specs.StandsForBits.{chunk_digests, chunk_nodes};

use crate::bitmap::authenticated::inclusion::partial_root;
use crate::bitmap::{Prunable, Readable};
use std::alloc::{AllocError, Global};
use std::collections::BTreeSet;
use storage_codec::digest::Digest;
use storage_merkle::merkle::hasher::Hasher;
use storage_merkle::merkle::mem::Mem;
use storage_merkle::merkle::{Error, Family as _, Location, Position, mmr};

/// Returns the digest of the leaf of chunk number `index`.
fn chunk_digest<H: Hasher<mmr::Family>, const N: usize>(
    hasher: &H,
    bits: &Prunable<N>,
    index: u64,
) -> H::Digest
    requires few { bit_count N bits.now ≤ max_leaves }
    requires size { IsChunkSize N }
    requires kept { bits.now.pruned ≤ index }
    requires within { index < bit_count N bits.now / (8 * N) }
    ensures { H.Digest.text result
        ≡ H.hash_of (be8 (size mmr index) ++ chunk_of N bits.now.bits (index - bits.now.pruned)) }
{
    let position = Position::new(mmr::Family::nodes_over(index));
    hasher.leaf_digest(position, &bits.get_chunk(index as usize))
}

/// Returns the digests of the leaves of `chunks`, each with its location.
fn chunk_leaves<D: Digest, H: Hasher<mmr::Family, Digest = D>, const N: usize>(
    alloc: Global,
    hasher: &H,
    bits: &Prunable<N>,
    chunks: &BTreeSet<u64>,
) -> Result<Vec<(Location<mmr::Family>, D)>, AllocError>
    requires few { bit_count N bits.now ≤ max_leaves }
    requires size { IsChunkSize N }
    requires there { All (λ chunk. (bits.now.pruned ≤ chunk)
        × (chunk < bit_count N bits.now / (8 * N))) chunks.now.keys }
    ensures { IfOk result (λ leaves.
        AllZip (λ chunk u. (u.0 ≡ chunk) × (D.text u.1 ≡ H.hash_of (be8 (size mmr chunk)
        ++ chunk_of N bits.now.bits (chunk - bits.now.pruned)))) chunks.now.keys leaves.items) }
{
    let mut leaves = Vec::with_capacity(alloc, chunks.len())?;
    for chunk in chunks {
        let digest = chunk_digest(hasher, bits, *chunk);
        leaves.push((Location::new(*chunk), digest))?;
    }
    Ok(leaves)
}

/// Gives the leaves of the chunks `dirty` their digests under the bits, and the nodes over them theirs.
pub(super) fn rehash<D: Digest, H: Hasher<mmr::Family, Digest = D>, const N: usize>(
    alloc: Global,
    tree: &mut Mem<mmr::Family, D>,
    hasher: &H,
    bits: &Prunable<N>,
    dirty: &BTreeSet<u64>,
) -> Result<(), Error<mmr::Family>>
    requires few { bit_count N bits.now ≤ max_leaves }
    requires size { IsChunkSize N }
    requires boundary { tree.old.boundary ≡ bits.now.pruned }
    requires leaves { tree.old.leaves ≤ bit_count N bits.now / (8 * N) }
    requires there { All (λ chunk. (bits.now.pruned ≤ chunk)
        × (chunk < tree.old.leaves)) dirty.now.keys }
    requires takes { TakesTree (H.takes hasher.now) mmr (bit_count N bits.now / (8 * N)) }
    ensures place { OnOk result ((tree.new.leaves ≡ tree.old.leaves)
        × (tree.new.boundary ≡ tree.old.boundary)) }
    ensures stands { H.layout hasher.now ≡ ungrafted mmr
        → OnOk result ((list : List Bool) → IsRest N bits.now list
        → StandsBut D.text mmr (chunk_nodes H.hash_of) dirty.now.keys tree.old
        (chunk_digests H.hash_of N list tree.old.leaves) → StandsFor D.text mmr
        (chunk_nodes H.hash_of) tree.new (chunk_digests H.hash_of N list tree.old.leaves)) }
    ensures why { IfErr result (λ e. e ≡ Error.Memory) }
{
    let leaves = chunk_leaves(alloc, hasher, bits, dirty)?;
    if let Err(error) = tree.update_leaves(hasher, &leaves) {
        return Err(error);
    }
    Ok(())
}

/// Appends to `tree` the complete chunks that it does not have yet.
pub(super) fn add_chunks<D: Digest, H: Hasher<mmr::Family, Digest = D>, const N: usize>(
    tree: &mut Mem<mmr::Family, D>,
    hasher: &H,
    bits: &Prunable<N>,
) -> Result<(), Error<mmr::Family>>
    requires few { bit_count N bits.now ≤ max_leaves }
    requires size { IsChunkSize N }
    requires order { bits.now.pruned ≤ tree.old.leaves }
    requires leaves { tree.old.leaves ≤ bit_count N bits.now / (8 * N) }
    requires takes { TakesTree (H.takes hasher.now) mmr (bit_count N bits.now / (8 * N)) }
    ensures place { OnOk result ((tree.new.leaves ≡ bit_count N bits.now / (8 * N))
        × (tree.new.boundary ≡ tree.old.boundary)) }
    ensures stands { H.layout hasher.now ≡ ungrafted mmr
        → OnOk result ((list : List Bool) → IsRest N bits.now list → StandsFor D.text mmr
        (chunk_nodes H.hash_of) tree.old (chunk_digests H.hash_of N list tree.old.leaves)
        → StandsFor D.text mmr (chunk_nodes H.hash_of) tree.new
        (chunk_digests H.hash_of N list tree.new.leaves)) }
    ensures why { IfErr result (λ e. e ≡ Error.Memory) }
{
    let complete = bits.len() / (8 * N as u64);
    for index in tree.leaves().as_u64()..complete {
        if let Err(error) = tree.add(hasher, &bits.get_chunk(index as usize)) {
            return Err(error);
        }
    }
    Ok(())
}

/// Returns the root of `bits`, whose complete chunks are the leaves of `tree`.
pub(super) fn root_of_bits<D: Digest, H: Hasher<mmr::Family, Digest = D>, const N: usize>(
    tree: &Mem<mmr::Family, D>,
    hasher: &H,
    bits: &Prunable<N>,
) -> D
    requires few { bit_count N bits.now ≤ max_leaves }
    requires size { IsChunkSize N }
    requires order { bits.now.pruned ≤ tree.now.leaves }
    requires whole { tree.now.leaves ≡ bit_count N bits.now / (8 * N) }
    ensures { H.layout hasher.now ≡ ungrafted mmr
        → (list : List Bool) → IsRest N bits.now list
        → StandsFor D.text mmr (chunk_nodes H.hash_of) tree.now
        (chunk_digests H.hash_of N list tree.now.leaves)
        → D.text result ≡ bit_root H.hash_of (H.bagging hasher.now) N list }
{
    let root = tree.root(hasher, 0).unwrap();
    let length = bits.len();
    let chunk_size = 8 * N as u64;
    if length.is_multiple_of(chunk_size) {
        return root;
    }
    let last = hasher.digest(&bits.get_chunk((length / chunk_size) as usize));
    partial_root(hasher, &root, length, &last)
}
