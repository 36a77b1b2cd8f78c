//! Pins of what is before one of a snapshot's chunks: its grafted root is calculated from those over chunks, and those over operations
//! are accepted with a witness and a plain proof. Other pins are not.

use crate::snapshots::{FLOOR, node_at, operations, ops_root_of, root_of, snapshot_of, tree_over};
use crate::stops::{some, there};
use std::alloc::Global;
use std::process::Abort;
use storage_codec::codec::FixedBytes;
use storage_codec::digest::Sha256;
use storage_current::qmdb::current::Snapshot;
use storage_current::qmdb::current::grafting::{GraftedTree, grafted_root};
use storage_merkle::merkle::hasher::Standard;
use storage_merkle::merkle::{Bagging, Location, MAX_LEAVES, Mem, Position, Proof, mmr};

type Digest = FixedBytes<32>;

type Tree = Mem<mmr::Family, Digest>;

/// Returns the tree over chunks of which the first two are told by `pin` and the third by `graft`.
fn chunks_of(
    rt: &impl Abort,
    alloc: Global,
    pin: Digest,
    graft: Digest,
) -> GraftedTree<mmr::Family, Digest> {
    let leaves = some(rt, Vec::from_slice(alloc, &[graft]));
    some(rt, GraftedTree::init(alloc, 2, &[pin], leaves))
}

/// Returns the grafted root over `operations`, whose first two chunks are told by `pin` and the third by `graft`.
fn root_over(
    rt: &impl Abort,
    alloc: Global,
    operations: &Tree,
    pin: Digest,
    graft: Digest,
) -> Digest {
    let chunks = chunks_of(rt, alloc, pin, graft);
    let leaves = operations.leaves();
    assert!(rt; leaves.as_u64() <= MAX_LEAVES);
    let floor = Location::new(FLOOR);
    let root = grafted_root::<mmr::Family, Sha256, Tree, 1>(
        alloc, &chunks, operations, leaves, floor,
    );
    there(rt, some(rt, root), "no peak")
}

/// Asserts that the grafted root of `snapshot` is calculated from its nodes at the positions 30 and 45, and from others another one.
fn give_the_grafted_root(
    rt: &impl Abort,
    alloc: Global,
    snapshot: &Snapshot<mmr::Family, Sha256, 1>,
    tree: &Tree,
) {
    let (pin, graft) = (node_at(rt, snapshot, 30), node_at(rt, snapshot, 45));
    let root = root_over(rt, alloc, tree, pin, graft);
    assert!(rt; root == snapshot.witness().grafted_root);
    assert!(rt; root_over(rt, alloc, tree, graft, graft) != root);
}

// the positions of the node over sixteen operations, and of that over the eight behind them, are worked by hand
#[test]
fn pins_give_the_grafted_root(rt: HostRuntime) {
    let snapshot = snapshot_of::<mmr::Family>(&rt, rt.alloc(), 3);
    let tree = tree_over(&rt, rt.alloc(), &operations());
    give_the_grafted_root(&rt, rt.alloc(), &snapshot, &tree);
    drop(snapshot);
    drop(tree);
}

/// Returns a plain proof of two operations behind the first two chunks.
fn plain_proof(rt: &impl Abort, tree: &Tree) -> Proof<mmr::Family, Digest> {
    let hasher = Standard::<Sha256>::new(Bagging::BackwardFold);
    let range = Location::new(16)..Location::new(18);
    some(rt, tree.range_proof(&hasher, range, 1))
}

/// Returns whether `witness` and a plain proof of `operations`, behind the first two chunks, accept `pin` for those before.
fn is_pin(
    rt: &impl Abort,
    alloc: Global,
    snapshot: &Snapshot<mmr::Family, Sha256, 1>,
    proof: &Proof<mmr::Family, Digest>,
    operations: &[[u8; 1]],
    pin: Digest,
) -> bool {
    let yes = snapshot.witness().verify_pins::<Sha256, [u8; 1]>(
        alloc,
        proof,
        Location::new(16),
        operations,
        &[pin],
        &ops_root_of(snapshot),
        &root_of(snapshot),
    );
    some(rt, yes)
}

/// Asserts that with `proof` the node `pin` is accepted, and that of the grafted view at its position is not.
fn are_accepted(
    rt: &impl Abort,
    alloc: Global,
    snapshot: &Snapshot<mmr::Family, Sha256, 1>,
    proof: &Proof<mmr::Family, Digest>,
    pin: Digest,
) {
    let behind = &operations()[16..18];
    assert!(rt; is_pin(rt, alloc, snapshot, proof, behind, pin));
    let grafted = node_at(rt, snapshot, 30);
    assert!(rt; !is_pin(rt, alloc, snapshot, proof, behind, grafted));
}

// one peak ends before the floor, over sixteen operations: worked by hand
#[test]
fn pins_are_accepted(rt: HostRuntime) {
    let snapshot = snapshot_of::<mmr::Family>(&rt, rt.alloc(), 3);
    let tree = tree_over(&rt, rt.alloc(), &operations());
    let pin = there(&rt, tree.get_node(Position::new(30)), "no node");
    let proof = plain_proof(&rt, &tree);
    are_accepted(&rt, rt.alloc(), &snapshot, &proof, pin);
    drop(proof);
    drop(snapshot);
    drop(tree);
}
