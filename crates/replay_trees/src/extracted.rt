//! Lists on the digests that a check hands out.

ghost use Rattle.storage_bitmap.specs.Chunks.{IsChunkSize};

use crate::claims::{Claim, Placed};
use replay_columns::answers::Answer;
use replay_columns::columns::{Fault, Hex, List, parse};
use replay_columns::unframed::Unframed;
use std::alloc::Global;
use storage_codec::codec::Decode;
use storage_codec::digest::Hasher;
use storage_current::qmdb::current;
use storage_current::qmdb::current::proof::RangeProof;
use storage_merkle::merkle::hasher::Standard;
use storage_merkle::merkle::{Bagging, Family, Graftable, Location};
use storage_ops::qmdb::verify::verify_proof_and_extract_digests;

/// `bagging leaves inactive digests start elements root`: the digests that the check hands out, each with its position, or the
/// refusal; under the direction of databases, by the check of operations.
pub fn extracted<F: Family, H: Hasher>(
    alloc: Global,
    columns: &[&str],
    out: &mut String,
) -> Result<(), Fault> {
    let (bagging, claim, Hex(root)): (Bagging, Claim<F, H::Digest>, Hex<H::Digest>) = parse(
        alloc, columns,
    )?;
    let (proof, items, start) = (&claim.proof, &claim.items, claim.start);
    let extracted = if bagging == Bagging::BackwardFold {
        verify_proof_and_extract_digests::<H, F, _>(alloc, proof, start, items, &root)
    } else {
        let hasher = Standard::<H>::new(bagging);
        proof.verify_range_inclusion_and_extract_digests(alloc, &hasher, items, start, &root)
    };
    extracted.map(Placed).tell(out)
}

/// `start operations chunks proof root`: the digests that the check of the range proof hands out, each with its position,
/// or the refusal.
pub fn ranges_extracted<F: Graftable, H: Hasher, const N: usize>(
    alloc: Global,
    columns: &[&str],
    out: &mut String,
) -> Result<(), Fault>
    requires { IsChunkSize N }
{
    let (start, operations, chunks, (bytes, Hex(root))): (
        Location<F>,
        List<Unframed>,
        List<[u8; N]>,
        (Vec<u8>, Hex<H::Digest>),
    ) = parse(alloc, columns)?;
    // no digest takes less than a byte
    let most = bytes.len();
    match RangeProof::<F, H::Digest>::decode_cfg(alloc, bytes.as_slice(), &most) {
        Ok(proof) => {
            let extracted = current::proof::verify_proof_and_extract_digests::<F, _, H, N>(
                alloc,
                &proof,
                start,
                &operations.0,
                &chunks.0,
                &root,
            );
            extracted.map(Placed).tell(out)
        }
        Err(error) => error.tell(out),
    }
}
