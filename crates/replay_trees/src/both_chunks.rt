//! The list on proofs over a chunk that is an array and over one that is shared bytes. Chunks have one byte.

use bytes::Bytes;
use replay_columns::answers::{Answer, agreed};
use replay_columns::columns::{Fault, Hex, List, bytes, parse};
use replay_columns::unframed::Unframed;
use std::alloc::Global;
use storage_codec::codec::{Buf, Decode, Error, Read, Write};
use storage_codec::digest::{DigestOf, Hasher};
use storage_current::qmdb::current::proof::{RangeProof, operation};
use storage_merkle::merkle::{Graftable, Location};

type Operation<F, H, C> = operation::Proof<F, DigestOf<H>, C>;

/// `chunk kind proof claim root`: whether the proof is accepted, read over a chunk that is an array and over one that is
/// shared bytes. The claim, with slashes between its parts, is the operation for `operation`, and for `range` start, operations and
/// chunks. At most 128 digests are read.
pub fn both_chunks<F: Graftable, H: Hasher>(
    alloc: Global,
    columns: &[&str],
    out: &mut String,
) -> Result<(), Fault> {
    let ["1", kind, proof, claim, root] = columns else {
        return Err(Fault::Malformed);
    };
    let (proof, Hex(root)): (Vec<u8>, Hex<H::Digest>) = parse(alloc, &[*proof, *root])?;
    let yes = match *kind {
        "operation" => operation_shown::<F, H>(alloc, &proof, *claim, &root)?,
        "range" => range_shown::<F, H>(alloc, &proof, *claim, &root)?,
        _ => return Err(Fault::Malformed),
    };
    yes.tell(out)
}

/// Returns the value that bytes are, which is written as these bytes, or the refusal.
fn read<T: Read + Write, B: Buf>(
    alloc: Global,
    buf: B,
    given: &[u8],
    cfg: &T::Cfg,
) -> Result<Result<T, Error>, Fault> {
    match T::decode_cfg(alloc, buf, cfg) {
        Ok(value) => {
            let mut written = Vec::new(alloc);
            value.write(&mut written)?;
            if written.as_slice() != given {
                return Err(Fault::Differs);
            }
            Ok(Ok(value))
        }
        Err(Error::Memory) => Err(Fault::Memory),
        Err(error) => Ok(Err(error)),
    }
}

/// Returns whether a proof is accepted, read by either of two types, or refused by both alike.
fn same(one: Result<bool, Error>, other: Result<bool, Error>) -> Result<bool, Fault> {
    if one == other {
        Ok(one.unwrap_or(false))
    } else {
        Err(Fault::Differs)
    }
}

fn operation_shown<F: Graftable, H: Hasher>(
    alloc: Global,
    proof: &[u8],
    operation: &str,
    root: &H::Digest,
) -> Result<bool, Fault> {
    let operation = bytes(alloc, operation)?;
    let one = shown_by_array::<F, H>(alloc, proof, &operation, root)?;
    same(
        one,
        shown_by_shared::<F, H>(alloc, proof, &operation, root)?,
    )
}

/// Returns whether a proof that is read over a chunk that is an array shows an operation, or why it is none.
fn shown_by_array<F: Graftable, H: Hasher>(
    alloc: Global,
    proof: &[u8],
    operation: &[u8],
    root: &H::Digest,
) -> Result<Result<bool, Error>, Fault> {
    match read::<Operation<F, H, [u8; 1]>, _>(alloc, proof, proof, &128)? {
        Ok(proof) => Ok(Ok(proof.verify_encoded::<H>(alloc, operation, root)?)),
        Err(refusal) => Ok(Err(refusal)),
    }
}

/// Returns the same of a proof that is read over a chunk that is shared bytes.
fn shown_by_shared<F: Graftable, H: Hasher>(
    alloc: Global,
    proof: &[u8],
    operation: &[u8],
    root: &H::Digest,
) -> Result<Result<bool, Error>, Fault> {
    let buffer = Bytes::copy_from_slice(alloc, proof)?;
    match read::<Operation<F, H, Bytes>, _>(alloc, buffer, proof, &(1, 128))? {
        Ok(proof) => Ok(Ok(proof.verify_encoded::<H>(alloc, operation, root)?)),
        Err(refusal) => Ok(Err(refusal)),
    }
}

fn range_shown<F: Graftable, H: Hasher>(
    alloc: Global,
    proof: &[u8],
    claim: &str,
    root: &H::Digest,
) -> Result<bool, Fault> {
    let Ok(proof) = read::<RangeProof<F, H::Digest>, &[u8]>(alloc, proof, proof, &128)? else {
        return Ok(false);
    };
    let parts: Vec<&str> = claim.split('/').collect(alloc)?;
    let (start, operations, chunks): (Location<F>, List<Unframed>, List<[u8; 1]>) = parse(
        alloc, &parts,
    )?;
    range_shown_by_both::<F, H>(alloc, &proof, start, &operations.0, &chunks.0, root)
}

/// Returns whether a range proof shows operations and chunks, both as arrays and as shared bytes.
fn range_shown_by_both<F: Graftable, H: Hasher>(
    alloc: Global,
    proof: &RangeProof<F, H::Digest>,
    start: Location<F>,
    operations: &[Unframed],
    chunks: &[[u8; 1]],
    root: &H::Digest,
) -> Result<bool, Fault> {
    let yes = proof.verify::<H, _, 1>(alloc, start, operations, chunks, root)?;
    let shared = cut_chunks(alloc, chunks)?;
    let other = proof.verify_with_chunk_size::<H, _, Bytes>(
        alloc, start, operations, &shared, 1, root,
    )?;
    agreed(yes, other)
}

/// Returns the same chunks, cut from one buffer of shared bytes.
fn cut_chunks(alloc: Global, chunks: &[[u8; 1]]) -> Result<Vec<Bytes>, Fault> {
    let mut joined = Vec::new(alloc);
    for chunk in chunks {
        joined.extend_from_slice(chunk)?;
    }
    let mut buffer = Bytes::copy_from_slice(alloc, &joined)?;
    let mut cut = Vec::new(alloc);
    for _ in 0..chunks.len() {
        cut.push(buffer.cut(alloc, 1)?)?;
    }
    Ok(cut)
}
