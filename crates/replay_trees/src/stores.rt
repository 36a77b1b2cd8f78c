//! Lists on proofs that are made: from what is kept of a proof, and from nodes.

use crate::claims::{Claim, tell_made};
use replay_columns::answers::Answer;
use replay_columns::columns::{Fault, Hex, List, halves, number, parse, parts_between, placed};
use std::alloc::Global;
use storage_codec::digest::{Digest, Hasher};
use storage_merkle::merkle::hasher::Standard;
use storage_merkle::merkle::{
    Bagging, ElementPlan, Family, Location, Position, ProofStore, RangePlan,
};
use storage_ops::qmdb::verify::{create_multi_proof, create_proof_store};

/// `bagging leaves inactive digests start elements root call`: the positions of the store's peaks inside the fold of those past
/// the range, and the digests of the proof that the call gives, or its refusal; or the refusal of the store. Under the direction
/// of databases the store is of operations.
pub fn stores<F: Family, H: Hasher>(
    alloc: Global,
    columns: &[&str],
    out: &mut String,
) -> Result<(), Fault> {
    let [columns @ .., call] = columns else {
        return Err(Fault::Malformed);
    };
    let (bagging, claim, Hex(root)): (Bagging, Claim<F, H::Digest>, Hex<H::Digest>) = parse(
        alloc, columns,
    )?;
    let (proof, items, start) = (&claim.proof, &claim.items, claim.start);
    let hasher = Standard::<H>::new(bagging);
    let store = if bagging == Bagging::BackwardFold {
        create_proof_store::<H, F, _>(alloc, proof, start, items, &root)
    } else {
        ProofStore::new(alloc, &hasher, proof, items, start, &root)
    };
    match store {
        Ok(store) => tell_called(alloc, &hasher, &store, *call, out),
        Err(error) => error.tell(out),
    }
}

/// Adds the positions of the peaks inside the fold of those past the range, and what a call answers: `range:START:END` asks for a
/// proof of a range, and `multi:LOCATION/..:POSITION=DIGEST/..` for one of some locations, with peaks that are handed in.
fn tell_called<F: Family, H: Hasher>(
    alloc: Global,
    hasher: &Standard<H>,
    store: &ProofStore<F, H::Digest>,
    call: &str,
    out: &mut String,
) -> Result<(), Fault> {
    List(store.suffix_peak_positions(alloc)?).tell(out)?;
    out.push(' ')?;
    let (verb, rest) = halves(call, ':')?;
    let (first, second) = halves(rest, ':')?;
    match verb {
        "range" => tell_range_proof(alloc, hasher, store, first, second, out),
        _ => tell_multi_proof(alloc, store, first, second, out),
    }
}

/// Adds what the store gives of the locations from `start` to before `end`.
fn tell_range_proof<F: Family, H: Hasher>(
    alloc: Global,
    hasher: &Standard<H>,
    store: &ProofStore<F, H::Digest>,
    start: &str,
    end: &str,
    out: &mut String,
) -> Result<(), Fault> {
    let range = Location::new(number(start)?)..Location::new(number(end)?);
    tell_made(out, store.range_proof(alloc, hasher, range))
}

/// Adds what the store gives of `LOCATION/..`, with the peaks of `POSITION=DIGEST/..` handed in.
fn tell_multi_proof<F: Family, D: Digest>(
    alloc: Global,
    store: &ProofStore<F, D>,
    locations: &str,
    peaks: &str,
    out: &mut String,
) -> Result<(), Fault> {
    let locations: Vec<Location<F>> = parts_between(alloc, locations, '/')?;
    let peaks: Vec<(Position<F>, D)> = placed(alloc, peaks)?;
    tell_made(out, create_multi_proof(alloc, store, &locations, &peaks))
}

/// Returns the digest at a position among some.
fn at<F: Family, D: Digest>(nodes: &[(Position<F>, D)], position: Position<F>) -> Option<D> {
    for node in nodes {
        if node.0 == position {
            return Some(node.1);
        }
    }
    None
}

/// `bagging leaves location inactive nodes`: the digests of the proof of one element that is built from these nodes, `POSITION=DIGEST`
/// with slashes between them or `-` for none, or the refusal.
pub fn built<F: Family, H: Hasher>(
    alloc: Global,
    columns: &[&str],
    out: &mut String,
) -> Result<(), Fault> {
    let [columns @ .., nodes] = columns else {
        return Err(Fault::Malformed);
    };
    let (bagging, leaves, location, inactive): (Bagging, Location<F>, Location<F>, usize) = parse(
        alloc, columns,
    )?;
    let plan: RangePlan<F> = match ElementPlan::new(alloc, leaves, location) {
        Ok(plan) => plan.into(),
        Err(error) => return error.tell(out),
    };
    let hasher = Standard::<H>::new(bagging);
    let nodes: Vec<(Position<F>, H::Digest)> = placed(alloc, *nodes)?;
    let proof = plan.build(alloc, &hasher, inactive, |position| at(&nodes, position));
    tell_made(out, proof)
}
