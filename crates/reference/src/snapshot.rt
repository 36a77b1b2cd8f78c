//! Snapshots: their roots and their own proofs.

ghost use Rattle.std.specs.Prelude.{◌≡◌, ℕ, ◌+◌, ◌*◌, ◌/◌, ◌%◌, ◌^◌, ◌≤◌, ◌<◌, ◌++◌, List, [], length, map, option_map, Option, Some, None, ltb, eqb, if◌then◌else◌, IfOk};
ghost use Rattle.storage_bitmap.specs.Chunks.{IsChunkSize, chunk};
ghost use Rattle.storage_current.specs.Held.{range_proof_of};
ghost use Rattle.storage_current.specs.Snapshots.{canonical_root, grafted_root_of, ops_root_of, own_range_proof, grafting_of};
ghost use Rattle.reference.specs.Layouts.{snapshot};
ghost use Rattle.storage_merkle.specs.Held.{proof_of};
ghost use Rattle.storage_merkle.specs.Shape.{max_leaves};

use crate::chunk::{Chunks, chunk};
use crate::count::{aligned, exact, graftable, height};
use crate::node::Ungrafted;
use crate::range_proof::{Tree, own_proof};
use crate::shape::{Digits, power};
use crate::string::{canonical_string, string_digest};
use crate::tree::tree_root;
use std::alloc::{AllocError, Global};
use std::convert::AsSlice;
use storage_codec::digest::Hasher;
use storage_current::qmdb::current::proof::RangeProof;
use storage_merkle::merkle::{Bagging, Proof};

/// Operations, a bit for each that says whether it is active, an inactivity floor, and the size of a chunk.
#[derive(Drop)]
#[derive_where(Clone, Copy)]
pub struct Snapshot<'a, E> {
    /// The operations, from the first location on.
    pub operations: &'a [E],
    /// A bit for each operation.
    pub bits: &'a [bool],
    /// The inactivity floor.
    pub floor: u64,
    /// How many bytes a chunk has.
    pub chunk_size: usize,
}

/// Returns the root of the tree over the operations of the snapshot `of`. Fails only if memory runs out.
fn ops_root<F: Digits, H: Hasher, E: AsSlice<u8>>(
    alloc: Global,
    of: &Snapshot<'_, E>,
) -> Result<H::Digest, AllocError>
    requires { length of.now.operations.now ≤ max_leaves }
    ensures { IfOk result (λ root.
        H.Digest.text root ≡ ops_root_of H.hash_of (grafting_of F.shape of.now.chunk_size)
        (snapshot (map E.items of.now.operations.now) of.now.bits.now of.now.floor)) }
{
    let inactive = exact::<F>(alloc, of.operations.len() as u64, of.floor)?;
    let root = tree_root::<F, H, Ungrafted, E>(
        alloc,
        &Ungrafted,
        Bagging::BackwardFold,
        of.operations,
        inactive,
    )?;
    Ok(root)
}

/// Returns the root of the grafted view of the snapshot `of`. Fails only if memory runs out.
fn grafted_root<F: Digits, H: Hasher, E: AsSlice<u8>>(
    alloc: Global,
    of: &Snapshot<'_, E>,
) -> Result<H::Digest, AllocError>
    requires few { length of.now.operations.now ≤ max_leaves }
    requires size { IsChunkSize of.now.chunk_size }
    ensures { IfOk result (λ root.
        H.Digest.text root ≡ grafted_root_of H.hash_of (grafting_of F.shape of.now.chunk_size)
        (snapshot (map E.items of.now.operations.now) of.now.bits.now of.now.floor)) }
{
    let leaves = of.operations.len() as u64;
    let height = height(of.chunk_size);
    let inactive = aligned::<F>(alloc, leaves, of.floor, height)?;
    let count = graftable::<F>(leaves, height);
    let chunks = Chunks {
        bits: of.bits,
        size: of.chunk_size,
        height,
        count,
    };
    let root = tree_root::<F, H, Chunks<'_>, E>(
        alloc,
        &chunks,
        Bagging::BackwardFold,
        of.operations,
        inactive,
    )?;
    Ok(root)
}

/// Returns the range proof of the operations from `low` to before `high` of the grafted view of the snapshot `of`.
/// Fails only if memory runs out.
fn own_range<F: Digits, H: Hasher, E: AsSlice<u8>>(
    alloc: Global,
    of: &Snapshot<'_, E>,
    low: u64,
    high: u64,
) -> Result<Proof<F, H::Digest>, AllocError>
    requires few { length of.now.operations.now ≤ max_leaves }
    requires size { IsChunkSize of.now.chunk_size }
    ensures { IfOk result (λ p. proof_of H.Digest.text p
        ≡ (own_range_proof H.hash_of (grafting_of F.shape of.now.chunk_size) (snapshot
        (map E.items of.now.operations.now) of.now.bits.now of.now.floor) low high).range) }
{
    let leaves = of.operations.len() as u64;
    let height = height(of.chunk_size);
    let inactive = aligned::<F>(alloc, leaves, of.floor, height)?;
    let chunks = Chunks {
        bits: of.bits,
        size: of.chunk_size,
        height,
        count: graftable::<F>(leaves, height),
    };
    let tree = Tree {
        elements: of.operations,
        grafts: &chunks,
        bagging: Bagging::BackwardFold,
        inactive,
    };
    let proof = own_proof::<F, H, Chunks<'_>, E>(alloc, &tree, low, high)?;
    Ok(proof)
}

/// Returns the own proof of the snapshot `of` of the operations from `low` to before `high`, and of their activity.
/// Fails only if memory runs out.
pub fn own_current<F: Digits, H: Hasher, E: AsSlice<u8>>(
    alloc: Global,
    of: &Snapshot<'_, E>,
    low: u64,
    high: u64,
) -> Result<RangeProof<F, H::Digest>, AllocError>
    requires few { length of.now.operations.now ≤ max_leaves }
    requires size { IsChunkSize of.now.chunk_size }
    ensures { IfOk result (λ p. range_proof_of H.Digest.text p
        ≡ own_range_proof H.hash_of (grafting_of F.shape of.now.chunk_size)
        (snapshot (map E.items of.now.operations.now) of.now.bits.now of.now.floor) low high) }
{
    let leaves = of.operations.len() as u64;
    let height = height(of.chunk_size);
    let complete = leaves / power(height);
    let next_bit = leaves % power(height);
    let graftable = graftable::<F>(leaves, height);
    let proof = own_range::<F, H, E>(alloc, of, low, high)?;
    let pending = pending::<H>(alloc, of.chunk_size, of.bits, graftable, complete)?;
    let partial = partial::<H>(alloc, of.chunk_size, of.bits, complete, next_bit)?;
    Ok(RangeProof {
        proof,
        pending_chunk_digest: pending,
        partial_chunk_digest: partial,
        ops_root: ops_root::<F, H, E>(alloc, of)?,
    })
}

/// Returns the digest of the pending chunk, number `graftable`, of `bits` in chunks of `size` bytes; none if all
/// `complete` chunks are graftable. Fails only if memory runs out.
fn pending<H: Hasher>(
    alloc: Global,
    size: usize,
    bits: &[bool],
    graftable: u64,
    complete: u64,
) -> Result<Option<H::Digest>, AllocError>
    requires each { 8 * size < 2 ^ 64 }
    requires within { complete * (8 * size) < 2 ^ 64 }
    ensures { IfOk result (λ digest. option_map H.Digest.text digest ≡ option_map H.hash_of
        (if ltb graftable complete then Some (chunk size bits.now graftable) else None)) }
{
    if graftable < complete {
        let bytes = chunk(alloc, size, bits, graftable)?;
        return Ok(Some(string_digest::<H>(&bytes)));
    }
    Ok(None)
}

/// Returns the digest of the chunk after the `complete` ones, of `bits` in chunks of `size` bytes; none if `next_bit`,
/// how many bits it has, is 0. Fails only if memory runs out.
fn partial<H: Hasher>(
    alloc: Global,
    size: usize,
    bits: &[bool],
    complete: u64,
    next_bit: u64,
) -> Result<Option<H::Digest>, AllocError>
    requires each { 8 * size < 2 ^ 64 }
    requires within { complete * (8 * size) < 2 ^ 64 }
    ensures { IfOk result (λ digest. option_map H.Digest.text digest ≡ option_map H.hash_of
        (if eqb next_bit 0 then None else Some (chunk size bits.now complete))) }
{
    if next_bit == 0 {
        return Ok(None);
    }
    let bytes = chunk(alloc, size, bits, complete)?;
    Ok(Some(string_digest::<H>(&bytes)))
}

/// Returns the canonical root of the snapshot `of`. Fails only if memory runs out.
pub fn canonical_root<F: Digits, H: Hasher, E: AsSlice<u8>>(
    alloc: Global,
    of: &Snapshot<'_, E>,
) -> Result<H::Digest, AllocError>
    requires few { length of.now.operations.now ≤ max_leaves }
    requires size { IsChunkSize of.now.chunk_size }
    ensures { IfOk result (λ root.
        H.Digest.text root ≡ canonical_root H.hash_of (grafting_of F.shape of.now.chunk_size)
        (snapshot (map E.items of.now.operations.now) of.now.bits.now of.now.floor)) }
{
    let leaves = of.operations.len() as u64;
    let height = height(of.chunk_size);
    let complete = leaves / power(height);
    let next_bit = leaves % power(height);
    let graftable = graftable::<F>(leaves, height);
    let ops_root = ops_root::<F, H, E>(alloc, of)?;
    let grafted_root = grafted_root::<F, H, E>(alloc, of)?;
    let pending = pending::<H>(alloc, of.chunk_size, of.bits, graftable, complete)?;
    let partial = partial::<H>(alloc, of.chunk_size, of.bits, complete, next_bit)?;
    let string = canonical_string(
        alloc,
        &ops_root,
        &grafted_root,
        &pending,
        next_bit,
        &partial,
    )?;
    Ok(string_digest::<H>(&string))
}
