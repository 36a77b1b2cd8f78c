//! A snapshot that forgets what lies before its floor, and the proofs that it still hands out.

use crate::definitions::strings;
use crate::snapshots::{self, made, node, ops_root_of, root_of};
use crate::stops::{done, some};
use std::alloc::Global;
use std::process::Abort;
use storage_bitmap::bitmap::{Prunable, Readable};
use storage_codec::digest::{Hasher, Sha256};
use storage_current::qmdb::current::Snapshot;
use storage_current::qmdb::current::proof::operation::Proof as OperationProof;
use storage_merkle::merkle::{ElementPlan, Graftable, Location, mmb, mmr};
use storage_ops::qmdb::Error;

/// Nineteen operations.
const OPERATIONS: &str = "00,01,0202,03,04,05,060606,07,08,09,0a,,0c,0d,0e,0f,10,11,12";

/// Their bits.
const BITS: [bool; 19] = [
    false, true, true, false, true, true, false, true, true, false, true, true, false, true, true,
    false, true, true, false,
];

/// The location up to which chunks are forgotten: the first chunk ends before it, and no other.
const FLOOR: u64 = 9;

/// Nine operations more.
const MORE: &str = "20,21,22,23,24,25,26,27,28";

/// Their bits.
const MORE_BITS: [bool; 9] = [true, true, false, true, false, false, true, true, true];

/// Returns a snapshot of the first operations, in chunks of eight.
fn first<F: Graftable>(
    rt: &impl Abort,
    alloc: Global,
    operations: &[Vec<u8>],
) -> Snapshot<F, Sha256, 1> {
    let mut bits = Prunable::<1>::new(alloc);
    some(rt, bits.append(&BITS));
    made(rt, alloc, operations, bits, FLOOR)
}

/// Extends `snapshot` by the other operations.
fn extend_once<F: Graftable>(
    alloc: Global,
    snapshot: &mut Snapshot<F, Sha256, 1>,
    more: &[Vec<u8>],
) -> Result<(), Error<F>> {
    let clear = [Location::new(17), Location::new(10)];
    snapshots::extend(alloc, snapshot, more, &MORE_BITS, &clear, FLOOR)
}

/// Extends `snapshot` by the other operations. A refused extension is made again.
fn extend<F: Graftable>(rt: &impl Abort, alloc: Global, snapshot: &mut Snapshot<F, Sha256, 1>) {
    let more = strings(rt, alloc, MORE);
    let mut grown = extend_once(alloc, snapshot, &more);
    if grown.is_err() {
        grown = extend_once(alloc, snapshot, &more);
    }
    done(rt, &grown);
}

/// Returns how many chunks of `snapshot` are pruned.
fn pruned_chunks<F: Graftable>(snapshot: &Snapshot<F, Sha256, 1>) -> usize {
    snapshot.status().pruned_chunks()
}

/// Prunes `snapshot` at its floor, and not behind it. A refused pruning is made again.
fn prune<F: Graftable>(rt: &impl Abort, snapshot: &mut Snapshot<F, Sha256, 1>) {
    let past = snapshots::prune(snapshot, FLOOR + 1);
    assert!(rt; past.is_err() && pruned_chunks(snapshot) == 0);
    let mut pruned = snapshots::prune(snapshot, FLOOR);
    if pruned.is_err() {
        pruned = snapshots::prune(snapshot, FLOOR);
    }
    done(rt, &pruned);
    assert!(rt; pruned_chunks(snapshot) == 1);
    assert!(rt; node(snapshot, 0).is_none());
}

/// Compares the roots of two snapshots of `leaves` operations, and their proofs from the floor on.
fn compare<F: Graftable>(
    rt: &impl Abort,
    alloc: Global,
    pruned: &Snapshot<F, Sha256, 1>,
    whole: &Snapshot<F, Sha256, 1>,
    leaves: u64,
) {
    assert!(rt; root_of(pruned) == root_of(whole) && ops_root_of(pruned) == ops_root_of(whole));
    for location in FLOOR..leaves {
        let proof = proof_of(rt, alloc, pruned, leaves, location);
        assert!(rt; proof == proof_of(rt, alloc, whole, leaves, location));
    }
}

/// Returns the plan of a proof of the operation at `location` of `leaves`.
fn plan_of<F: Graftable>(
    rt: &impl Abort,
    alloc: Global,
    leaves: u64,
    location: u64,
) -> ElementPlan<F> {
    let plan = ElementPlan::new(alloc, Location::new(leaves), Location::new(location));
    some(rt, plan)
}

/// Returns the proof of the operation at `location` of `snapshot`, which has `leaves` operations.
fn proof_of<F: Graftable>(
    rt: &impl Abort,
    alloc: Global,
    snapshot: &Snapshot<F, Sha256, 1>,
    leaves: u64,
    location: u64,
) -> OperationProof<F, <Sha256 as Hasher>::Digest, [u8; 1]> {
    let proof = OperationProof::build::<Sha256, Prunable<1>, _>(
        alloc,
        snapshot.status(),
        plan_of(rt, alloc, leaves, location),
        |position| snapshot.get_node(position),
        Location::new(FLOOR),
        ops_root_of(snapshot),
    );
    some(rt, proof)
}

/// Prunes one of two like snapshots, extends both, and compares them before and after.
fn prune_and_extend<F: Graftable>(rt: &impl Abort, alloc: Global) {
    let operations = strings(rt, alloc, OPERATIONS);
    let mut whole = first::<F>(rt, alloc, operations.as_slice());
    let mut pruned = first::<F>(rt, alloc, operations.as_slice());
    prune_one_of(rt, alloc, &mut pruned, &mut whole);
    drop(pruned);
    drop(whole);
}

/// Prunes `pruned`, extends both, and compares them before and after.
fn prune_one_of<F: Graftable>(
    rt: &impl Abort,
    alloc: Global,
    pruned: &mut Snapshot<F, Sha256, 1>,
    whole: &mut Snapshot<F, Sha256, 1>,
) {
    prune(rt, pruned);
    compare(rt, alloc, pruned, whole, 19);
    extend(rt, alloc, pruned);
    extend(rt, alloc, whole);
    compare(rt, alloc, pruned, whole, 28);
}

#[test]
fn range_pruned_at_its_floor(rt: HostRuntime) {
    prune_and_extend::<mmr::Family>(&rt, rt.alloc());
}

#[test]
fn belt_pruned_at_its_floor(rt: HostRuntime) {
    prune_and_extend::<mmb::Family>(&rt, rt.alloc());
}
