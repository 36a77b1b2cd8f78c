//! Lists of bits: their roots, their own proofs of bits, and the check of one.

ghost use Rattle.std.specs.Prelude.{◌≡◌, ◌↔◌, ℕ, ◌+◌, ◌*◌, ◌/◌, ◌%◌, ◌^◌, ◌≤◌, ◌<◌, ◌++◌, List, [], ◌∷◌, length, map, option_map, IfOk, OnOk, IsTrue};
ghost use Rattle.storage_bitmap.specs.BitProofs.{IsBitAccepted, own_bit_digests, own_bit_proof};
ghost use Rattle.storage_bitmap.specs.BitRoots.{bit_root, chunks_root, partial_chunk, partial_string};
ghost use Rattle.storage_bitmap.specs.BitParts.{IsBitComputed};
ghost use Rattle.storage_bitmap.specs.Chunks.{IsChunkSize, chunks_from, complete_chunks};
ghost use Rattle.storage_merkle.specs.Checks.{IsRecomputed};
ghost use Rattle.storage_merkle.specs.Held.{proof_of};
ghost use Rattle.storage_merkle.specs.Mmr.{mmr};
ghost use Rattle.storage_merkle.specs.Trees.{listed, ungrafted};
ghost use Rattle.storage_merkle.specs.Shape.{max_leaves};

use crate::check::recomputed_root;
use crate::chunk::chunk;
use crate::node::Ungrafted;
use crate::range_proof::{Tree, own_proof};
use crate::string::{partial_string, string_digest};
use crate::tree::tree_root;
use std::alloc::{AllocError, Global};
use storage_codec::digest::Hasher;
use storage_merkle::merkle::{Bagging, Location, Proof, mmr};

/// Returns how many bits a chunk of `size` bytes has.
fn bits_per_chunk(size: usize) -> u64
    requires { IsChunkSize size }
    ensures value { result ≡ 8 * size }
    ensures some { 0 < result }
    ensures few { result ≤ max_leaves }
{
    8 * size as u64
}

/// Appends to `chunks` the `count` chunks of `bits` from number `index` on, of `size` bytes each.
fn push_chunks(
    chunks: &mut Vec<Vec<u8>>,
    size: usize,
    bits: &[bool],
    count: u64,
    index: u64,
) -> Result<(), AllocError>
    requires each { 8 * size < 2 ^ 64 }
    requires few { index + count < 2 ^ 64 }
    requires within { (index + count) * (8 * size) < 2 ^ 64 }
    ensures { OnOk result (map (λ c. c.items) chunks.new.items
        ≡ map (λ c. c.items) chunks.old.items ++ chunks_from size bits.now count index) }
{
    if count == 0 {
        return Ok(());
    }
    let alloc = *chunks.allocator();
    chunks.push(chunk(alloc, size, bits, index)?)?;
    push_chunks(chunks, size, bits, count - 1, index + 1)?;
    Ok(())
}

/// Returns the complete chunks of `bits`, of `size` bytes each. Fails only if memory runs out.
fn complete(alloc: Global, size: usize, bits: &[bool]) -> Result<Vec<Vec<u8>>, AllocError>
    requires { IsChunkSize size }
    ensures { IfOk result (λ chunks. map (λ c. c.items) chunks.items
        ≡ complete_chunks size bits.now) }
{
    let mut chunks = Vec::new(alloc);
    let count = bits.len() as u64 / bits_per_chunk(size);
    push_chunks(&mut chunks, size, bits, count, 0)?;
    Ok(chunks)
}

/// Returns the root of the tree over the complete chunks of `bits`, of `size` bytes each. Fails only if memory runs
/// out.
fn chunks_root<H: Hasher>(
    alloc: Global,
    bagging: Bagging,
    size: usize,
    bits: &[bool],
) -> Result<H::Digest, AllocError>
    requires size { IsChunkSize size }
    requires few { length bits.now ≤ max_leaves }
    ensures { IfOk result (λ root.
        H.Digest.text root ≡ chunks_root H.hash_of bagging size bits.now) }
{
    let chunks = complete(alloc, size, bits)?;
    let root = tree_root::<mmr::Family, H, Ungrafted, Vec<u8>>(
        alloc, &Ungrafted, bagging, &chunks, 0,
    )?;
    Ok(root)
}

/// Returns the digest of the chunk of `bits` after the complete ones, of `size` bytes, filled up with zeros. Fails only
/// if memory runs out.
fn partial_digest<H: Hasher>(
    alloc: Global,
    size: usize,
    bits: &[bool],
) -> Result<H::Digest, AllocError>
    requires { IsChunkSize size }
    ensures { IfOk result (λ digest.
        H.Digest.text digest ≡ H.hash_of (partial_chunk size bits.now)) }
{
    let bytes = chunk(alloc, size, bits, bits.len() as u64 / bits_per_chunk(size))?;
    Ok(string_digest::<H>(&bytes))
}

/// Returns the root of `length` bits that do not fill their chunks: `root` is that of the tree over the complete
/// chunks, `last` the digest of the last one. Fails only if memory runs out.
fn partial_root<H: Hasher>(
    alloc: Global,
    root: &H::Digest,
    length: u64,
    last: &H::Digest,
) -> Result<H::Digest, AllocError>
    ensures { IfOk result (λ digest. H.Digest.text digest
        ≡ H.hash_of (partial_string (H.Digest.text root.now) length (H.Digest.text last.now))) }
{
    let string = partial_string(alloc, root, length, last)?;
    Ok(string_digest::<H>(&string))
}

/// Returns the root of `bits`, with chunks of `size` bytes. Fails only if memory runs out.
pub fn bit_root<H: Hasher>(
    alloc: Global,
    bagging: Bagging,
    size: usize,
    bits: &[bool],
) -> Result<H::Digest, AllocError>
    requires size { IsChunkSize size }
    requires few { length bits.now ≤ max_leaves }
    ensures { IfOk result (λ root. H.Digest.text root ≡ bit_root H.hash_of bagging size bits.now) }
{
    let root = chunks_root::<H>(alloc, bagging, size, bits)?;
    let length = bits.len() as u64;
    if length % bits_per_chunk(size) == 0 {
        return Ok(root);
    }
    let last = partial_digest::<H>(alloc, size, bits)?;
    partial_root::<H>(alloc, &root, length, &last)
}

/// Returns the digests that `bits` themselves have for the bits of chunk number `place`. Fails only if memory runs out.
fn own_bit_digests<H: Hasher>(
    alloc: Global,
    bagging: Bagging,
    size: usize,
    bits: &[bool],
    place: u64,
) -> Result<Vec<H::Digest>, AllocError>
    requires size { IsChunkSize size }
    requires few { length bits.now ≤ max_leaves }
    requires early { place < 2 ^ 63 }
    ensures { IfOk result (λ digests. map H.Digest.text digests.items
        ≡ own_bit_digests H.hash_of bagging size bits.now place) }
{
    let length = bits.len() as u64;
    if place == length / bits_per_chunk(size) {
        let mut digests = Vec::new(alloc);
        digests.push(chunks_root::<H>(alloc, bagging, size, bits)?)?;
        return Ok(digests);
    }
    let chunks = complete(alloc, size, bits)?;
    let tree = Tree {
        elements: &chunks,
        grafts: &Ungrafted,
        bagging,
        inactive: 0,
    };
    let proof = own_proof::<mmr::Family, H, Ungrafted, Vec<u8>>(alloc, &tree, place, place + 1)?;
    if length % bits_per_chunk(size) == 0 {
        return Ok(proof.digests);
    }
    let mut digests = proof.digests;
    digests.push(partial_digest::<H>(alloc, size, bits)?)?;
    Ok(digests)
}

/// Returns the proof that `bits` themselves have of bit number `bit`, with chunks of `size` bytes. Fails only if memory
/// runs out.
pub fn own_bit_proof<H: Hasher>(
    alloc: Global,
    bagging: Bagging,
    size: usize,
    bits: &[bool],
    bit: u64,
) -> Result<Proof<mmr::Family, H::Digest>, AllocError>
    requires size { IsChunkSize size }
    requires few { length bits.now ≤ max_leaves }
    ensures { IfOk result (λ proof. proof_of H.Digest.text proof
        ≡ own_bit_proof H.hash_of bagging size bits.now bit) }
{
    let digests = own_bit_digests::<H>(alloc, bagging, size, bits, bit / bits_per_chunk(size))?;
    Ok(Proof {
        leaves: Location::new(bits.len() as u64),
        inactive_peaks: 0,
        digests,
    })
}

/// Returns the root of the tree over `complete` chunks that the check of `digests`, the proof that chunk number `place`
/// is `bytes`, recomputes; none if a count does not fit. Fails only if memory runs out.
fn recomputed_chunks_root<H: Hasher>(
    alloc: Global,
    bagging: Bagging,
    complete: u64,
    digests: &[H::Digest],
    place: u64,
    bytes: &[u8],
) -> Result<Option<H::Digest>, AllocError>
    ensures { IfOk result (λ root. IsRecomputed H.hash_of (ungrafted mmr) bagging
        (record { leaves = complete; inactive = 0; digests = map H.Digest.text digests.now }) place
        (listed (bytes.now ∷ [])) (option_map H.Digest.text root)) }
{
    let mut copies = Vec::new(alloc);
    copies.extend_from_slice(digests)?;
    let proof = Proof {
        leaves: Location::new(complete),
        inactive_peaks: 0,
        digests: copies,
    };
    recomputed_root::<mmr::Family, H, Ungrafted, &[u8]>(
        alloc,
        &Ungrafted,
        bagging,
        &proof,
        place,
        &[bytes],
    )
}

/// Returns the root that the check of `proof`, of bit number `bit` in the chunk `bytes` of `size` bytes, computes; none
/// if a count does not fit. Fails only if memory runs out.
fn computed_root<H: Hasher>(
    alloc: Global,
    bagging: Bagging,
    size: usize,
    proof: &Proof<mmr::Family, H::Digest>,
    bytes: &[u8],
    bit: u64,
) -> Result<Option<H::Digest>, AllocError>
    requires size { IsChunkSize size }
    requires below { bit < proof.now.leaves }
    ensures { IfOk result (λ root. IsBitComputed H.hash_of bagging size
        (proof_of H.Digest.text proof.now) bytes.now bit (option_map H.Digest.text root)) }
{
    let length = proof.leaves.as_u64();
    let complete = length / bits_per_chunk(size);
    let place = bit / bits_per_chunk(size);
    if length % bits_per_chunk(size) == 0 {
        let digests = &proof.digests;
        return recomputed_chunks_root::<H>(alloc, bagging, complete, digests, place, bytes);
    }
    let Some((last, others)) = proof.digests.split_last() else {
        return Ok(None);
    };
    if place == complete {
        if !others.is_empty() {
            return Ok(None);
        }
        let root = partial_root::<H>(alloc, last, length, &string_digest::<H>(bytes))?;
        return Ok(Some(root));
    }
    match recomputed_chunks_root::<H>(alloc, bagging, complete, others, place, bytes)? {
        None => Ok(None),
        Some(root) => Ok(Some(partial_root::<H>(alloc, &root, length, last)?)),
    }
}

/// Returns whether the check of `proof`, of bit number `bit` in the chunk `bytes` of `size` bytes, accepts it against
/// `root`. Fails only if memory runs out.
pub fn is_bit_accepted<H: Hasher>(
    alloc: Global,
    bagging: Bagging,
    size: usize,
    proof: &Proof<mmr::Family, H::Digest>,
    bytes: &[u8],
    bit: u64,
    root: &H::Digest,
) -> Result<bool, AllocError>
    requires { IsChunkSize size }
    ensures { IfOk result (λ accepted. IsTrue accepted ↔ IsBitAccepted H.hash_of bagging size
        (proof_of H.Digest.text proof.now) bytes.now bit (H.Digest.text root.now)) }
{
    if bit >= proof.leaves.as_u64() || proof.inactive_peaks != 0 {
        return Ok(false);
    }
    match computed_root::<H>(alloc, bagging, size, proof, bytes, bit)? {
        None => Ok(false),
        Some(computed) => Ok(computed == *root),
    }
}
