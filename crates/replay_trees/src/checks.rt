//! Lists on checks of proofs of trees. Under the direction of databases those of pinned digests and of any locations are the checks
//! of operations. A last column `label` says how the case was made.

use crate::claims::Claim;
use crate::counting::Counting;
use replay_columns::answers::Answer;
use replay_columns::columns::{Column, Digests, Fault, Hex, Label, halves, parse};
use replay_columns::unframed::Unframed;
use std::alloc::Global;
use std::cell::Cell;
use storage_codec::digest::Hasher;
use storage_merkle::merkle::hasher::Standard;
use storage_merkle::merkle::{Bagging, Family, Location, Proof};
use storage_ops::qmdb::verify::{verify_multi_proof, verify_proof, verify_proof_and_pinned_nodes};

/// `bagging leaves inactive digests start elements root label`: whether the proof is accepted, and the root that it
/// gives.
pub fn plain_checks<F: Family, H: Hasher>(
    alloc: Global,
    columns: &[&str],
    out: &mut String,
) -> Result<(), Fault> {
    let (bagging, claim, Hex(root), _): (Bagging, Claim<F, H::Digest>, Hex<H::Digest>, Label) =
        parse(alloc, columns)?;
    let hasher = Standard::<H>::new(bagging);
    let (proof, items, start) = (&claim.proof, &claim.items, claim.start);
    let yes = proof.verify_range_inclusion(alloc, &hasher, items, start, &root)?;
    let given = proof.reconstruct_root(alloc, &hasher, items, start);
    (yes, given.map(Hex)).tell(out)
}

/// `bagging leaves inactive digests location element root label`: whether the proof of one element is accepted, and how many digests of
/// nodes and how many folds the check takes.
pub fn element_checks<F: Family, H: Hasher>(
    alloc: Global,
    columns: &[&str],
    out: &mut String,
) -> Result<(), Fault> {
    let (bagging, claim, Hex(root), _): (Bagging, Claim<F, H::Digest>, Hex<H::Digest>, Label) =
        parse(alloc, columns)?;
    let [element] = claim.items.as_slice() else {
        return Err(Fault::Malformed);
    };
    let hasher = Counting {
        standard: Standard::<H>::new(bagging),
        nodes: Cell::new(0),
        folds: Cell::new(0),
    };
    let (proof, location) = (&claim.proof, claim.start);
    let yes = proof.verify_element_inclusion(alloc, &hasher, &element.bytes, location, &root)?;
    (yes, hasher.nodes.get(), hasher.folds.get()).tell(out)
}

/// `leaves inactive digests start operations root label`: whether the proof of operations is accepted.
pub fn plain_operations<F: Family, H: Hasher>(
    alloc: Global,
    columns: &[&str],
    out: &mut String,
) -> Result<(), Fault> {
    let (claim, Hex(root), _): (Claim<F, H::Digest>, Hex<H::Digest>, Label) = parse(
        alloc, columns,
    )?;
    verify_proof::<H, F, _>(alloc, &claim.proof, claim.start, &claim.items, &root)?.tell(out)
}

/// `bagging leaves inactive digests start elements pinned root label`: whether the proof and the pinned digests are accepted.
pub fn pinned_checks<F: Family, H: Hasher>(
    alloc: Global,
    columns: &[&str],
    out: &mut String,
) -> Result<(), Fault> {
    let (bagging, claim, (pinned, Hex(root), _)): (
        Bagging,
        Claim<F, H::Digest>,
        (Digests<H::Digest>, Hex<H::Digest>, Label),
    ) = parse(alloc, columns)?;
    let (proof, items, start) = (&claim.proof, &claim.items, claim.start);
    let yes = if bagging == Bagging::BackwardFold {
        verify_proof_and_pinned_nodes::<H, F, _>(alloc, proof, start, items, &pinned.0, &root)?
    } else {
        let hasher = Standard::<H>::new(bagging);
        proof.verify_proof_and_pinned_nodes(alloc, &hasher, items, start, &pinned.0, &root)?
    };
    yes.tell(out)
}

/// `bagging leaves inactive digests claims root label`: whether the proof is accepted. A claim is a location, a colon and an element;
/// commas stand between them, and `none` is none.
pub fn multi_checks<F: Family, H: Hasher>(
    alloc: Global,
    columns: &[&str],
    out: &mut String,
) -> Result<(), Fault> {
    let (bagging, proof, (claims, Hex(root), _)): (
        Bagging,
        Proof<F, H::Digest>,
        (String, Hex<H::Digest>, Label),
    ) = parse(alloc, columns)?;
    let yes = if bagging == Bagging::BackwardFold {
        operations_shown::<F, H>(alloc, &proof, claims.as_str(), &root)?
    } else {
        let hasher = Standard::<H>::new(bagging);
        elements_shown(alloc, &hasher, &proof, claims.as_str(), &root)?
    };
    yes.tell(out)
}

/// Returns whether a proof is accepted for claims of operations.
fn operations_shown<F: Family, H: Hasher>(
    alloc: Global,
    proof: &Proof<F, H::Digest>,
    claims: &str,
    root: &H::Digest,
) -> Result<bool, Fault> {
    let operations: Vec<(Location<F>, Unframed)> = claimed(alloc, claims, false)?;
    Ok(verify_multi_proof::<H, F, _>(alloc, proof, &operations, root)?)
}

/// Returns what is claimed: of each location and what stands there, the one or the other first.
fn claimed<T: Column>(
    alloc: Global,
    claims: &str,
    is_element_first: bool,
) -> Result<Vec<T>, Fault> {
    let mut claimed = Vec::new(alloc);
    if claims == "none" {
        return Ok(claimed);
    }
    for claim in claims.split(',') {
        let (location, element) = halves(claim, ':')?;
        let (first, second) = if is_element_first {
            (element, location)
        } else {
            (location, element)
        };
        claimed.push(parse(alloc, &[first, second])?)?;
    }
    Ok(claimed)
}

/// Returns whether a proof is accepted for claims of elements.
fn elements_shown<F: Family, H: Hasher>(
    alloc: Global,
    hasher: &Standard<H>,
    proof: &Proof<F, H::Digest>,
    claims: &str,
    root: &H::Digest,
) -> Result<bool, Fault> {
    let elements: Vec<(Vec<u8>, Location<F>)> = claimed(alloc, claims, true)?;
    Ok(proof.verify_multi_inclusion(alloc, hasher, &elements, root)?)
}
