//! Lists on checks of the proofs of operations and ranges, from bytes and from texts.

use commonware_storage::codec::{Decode, Encode, EncodeSize, Error};
use commonware_storage::digest::{Digest, Hasher};
use commonware_storage::light::{MAX_DIGESTS, TextError, check_range, check_text};
use commonware_storage::merkle::{Graftable, Location};
use commonware_storage::qmdb::current::proof::RangeProof;
use commonware_storage::qmdb::current::proof::dynamic::OperationProof;
use replay_columns::answers::{Answer, agreed};
use replay_columns::columns::{Column, Columns, Fault, Hex, Label, List, lent, parse};
use replay_columns::unframed::Unframed;
use std::alloc::Global;

/// What a range proof of at most `most` digests, as bytes, is said to show.
#[derive(Drop)]
struct RangeCase<F, D> {
    most: usize,
    start: Location<F>,
    operations: Vec<Vec<u8>>,
    chunks: Vec<Vec<u8>>,
    proof: Vec<u8>,
    root: D,
}

/// `most start operations chunks proof root label`.
impl<F: Graftable, D: Digest> Column for RangeCase<F, D> {
    fn read(alloc: Global, columns: &mut Columns<'_>) -> Result<RangeCase<F, D>, Fault> {
        let (most, start) = Column::read(alloc, columns)?;
        let (List(operations), List(chunks)) = Column::read(alloc, columns)?;
        let (proof, Hex(root), Label) = Column::read(alloc, columns)?;
        Ok(RangeCase {
            most,
            start,
            operations,
            chunks,
            proof,
            root,
        })
    }
}

/// `most start operations chunks proof root label`: whether the bytes are a range proof of at most `most` digests that shows
/// the operations and chunks, by the client's check and by that of the proof that is read. The label says how the case was made.
pub fn ranges_checks<F: Graftable, H: Hasher>(
    alloc: Global,
    chunk_size: usize,
    columns: &[&str],
    out: &mut String,
) -> Result<(), Fault> {
    let case: RangeCase<F, H::Digest> = parse(alloc, columns)?;
    let yes = client_accepts::<F, H>(alloc, chunk_size, &case)?;
    agreed(yes, is_accepted::<F, H>(alloc, chunk_size, &case)?)?.tell(out)
}

/// Returns whether a client accepts the bytes.
fn client_accepts<F: Graftable, H: Hasher>(
    alloc: Global,
    chunk_size: usize,
    case: &RangeCase<F, H::Digest>,
) -> Result<bool, Fault> {
    let items = lent(alloc, &case.operations)?;
    let chunks = lent(alloc, &case.chunks)?;
    Ok(check_range::<F, H>(
        alloc,
        &case.proof,
        chunk_size,
        case.most,
        case.start,
        &items,
        &chunks,
        &case.root,
    )?)
}

/// Returns whether the proof that the bytes are is accepted; it is not if they are none.
fn is_accepted<F: Graftable, H: Hasher>(
    alloc: Global,
    chunk_size: usize,
    case: &RangeCase<F, H::Digest>,
) -> Result<bool, Fault> {
    let proof = match RangeProof::decode_cfg(alloc, case.proof.as_slice(), &case.most) {
        Ok(proof) => proof,
        Err(Error::Memory) => return Err(Fault::Memory),
        Err(_) => return Ok(false),
    };
    let chunks = lent(alloc, &case.chunks)?;
    Ok(proof.verify_encoded::<H, _, &[u8]>(
        alloc,
        case.start,
        &case.operations,
        &chunks,
        chunk_size,
        &case.root,
    )?)
}

/// `leaves operation proof root label`: whether the bytes, read as the proof of an operation and said to be over that
/// number of leaves, or over as many as they say if that is `-`, are accepted; or why they are none. The label says how
/// the case was made.
pub fn operation_checks<F: Graftable, H: Hasher>(
    alloc: Global,
    chunk_size: usize,
    columns: &[&str],
    out: &mut String,
) -> Result<(), Fault> {
    let (leaves, operation, given, (Hex(root), _)): (
        Option<u64>,
        Vec<u8>,
        Vec<u8>,
        (Hex<H::Digest>, Label),
    ) = parse(alloc, columns)?;
    let cfg = (chunk_size, MAX_DIGESTS);
    match OperationProof::<F, H::Digest>::decode_cfg(alloc, given.as_slice(), &cfg) {
        Ok(mut proof) => {
            compare(alloc, &proof, &given)?;
            if let Some(leaves) = leaves {
                proof.range_proof.proof.leaves = Location::new(leaves);
            }
            is_shown::<F, H>(alloc, &proof, operation, &root)?.tell(out)
        }
        Err(error) => error.tell(out),
    }
}

/// Compares what a proof is written as with the bytes that it was read from.
fn compare<T: EncodeSize>(alloc: Global, proof: &T, given: &[u8]) -> Result<(), Fault> {
    if proof.encode(alloc)?.as_slice() == given {
        Ok(())
    } else {
        Err(Fault::Differs)
    }
}

/// Returns whether a proof shows an operation, by the check of its bytes and, as a copy, by that of the operation that
/// is written so.
fn is_shown<F: Graftable, H: Hasher>(
    alloc: Global,
    proof: &OperationProof<F, H::Digest>,
    bytes: Vec<u8>,
    root: &H::Digest,
) -> Result<bool, Fault> {
    let yes = proof.verify_encoded::<H>(alloc, &bytes, root)?;
    let other = proof
        .clone()?
        .verify::<H, Unframed>(alloc, Unframed { bytes }, root)?;
    agreed(yes, other)
}

/// `location operation proof root`: what a client answers for texts, or which of them is no hexadecimal; `-` is no text.
pub fn texts<F: Graftable, H: Hasher>(
    alloc: Global,
    chunk_size: usize,
    columns: &[&str],
    out: &mut String,
) -> Result<(), Fault> {
    let [loc, operation, proof, root] = columns else {
        return Err(Fault::Malformed);
    };
    let (loc, Hex(root)): (Location<F>, Hex<H::Digest>) = parse(alloc, &[*loc, *root])?;
    let (operation, proof) = (text_of(*operation), text_of(*proof));
    match check_text::<F, H>(alloc, proof, chunk_size, loc, operation, &root) {
        Ok(yes) => yes.tell(out),
        Err(TextError::Operation) => "operation".tell(out),
        Err(TextError::Proof) => "proof".tell(out),
        Err(TextError::Memory) => Err(Fault::Memory),
    }
}

/// Returns a text; `-` is that of nothing.
fn text_of(column: &str) -> &str {
    if column == "-" { "" } else { column }
}
