//! A snapshot of 27 operations, and calls of any snapshot. Each call stands in a function of its own, without a contract, so that a
//! test which makes many of them has none of their clauses to carry. A call that is refused ends the test.

use crate::stops::{done, some, there};
use std::alloc::Global;
use std::convert::AsSlice;
use std::ops::Range;
use std::process::Abort;
use storage_bitmap::bitmap::{Prunable, Readable as _};
use storage_codec::codec::FixedBytes;
use storage_codec::digest::{DigestOf, Sha256};
use storage_current::qmdb::current::Snapshot;
use storage_current::qmdb::current::proof::RangeProof;
use storage_merkle::merkle::hasher::Standard;
use storage_merkle::merkle::{
    Bagging, Graftable, Location, MAX_LEAVES, Mem, Position, RangePlan, mmr,
};
use storage_ops::qmdb::Error;

/// How many operations the snapshot has: three complete chunks of them, and three more.
pub const COUNT: u64 = 27;

/// Its inactivity floor.
pub const FLOOR: u64 = 17;

/// Returns its operations, each of which is its location.
pub fn operations() -> [[u8; 1]; 27] {
    [
        0, 1, 2, 3, 4, 5, 6, 7, 8, 9, 10, 11, 12, 13, 14, 15, 16, 17, 18, 19, 20, 21, 22, 23, 24,
        25, 26,
    ]
    .map(|byte| [byte])
}

/// Returns its bits, of which every `active`-th is set.
fn bits(rt: &impl Abort, alloc: Global, active: u64) -> Prunable<1> {
    let mut bits = Prunable::new(alloc);
    for location in 0..COUNT {
        assert!(rt; bits.len() < MAX_LEAVES && active > 0);
        some(rt, bits.push(location % active == 0));
    }
    bits
}

/// Returns the snapshot, of which every `active`-th operation is active.
pub fn snapshot_of<F: Graftable>(
    rt: &impl Abort,
    alloc: Global,
    active: u64,
) -> Snapshot<F, Sha256, 1> {
    let bits = bits(rt, alloc, active);
    made(rt, alloc, &operations(), bits, FLOOR)
}

/// Returns the snapshot of `operations` with these bits and this floor.
pub fn made<F: Graftable, E: AsSlice<u8>, const N: usize>(
    rt: &impl Abort,
    alloc: Global,
    operations: &[E],
    bits: Prunable<N>,
    floor: u64,
) -> Snapshot<F, Sha256, N> {
    some(
        rt,
        Snapshot::new(alloc, operations, bits, Location::new(floor)),
    )
}

/// Extends a snapshot by `operations`, of which those are active that `active` says, and clears the bits at `clear`.
pub fn extend<F: Graftable, const N: usize>(
    alloc: Global,
    snapshot: &mut Snapshot<F, Sha256, N>,
    operations: &[Vec<u8>],
    active: &[bool],
    clear: &[Location<F>],
    floor: u64,
) -> Result<(), Error<F>> {
    snapshot.extend(alloc, operations, active, clear, Location::new(floor))
}

/// Prunes a snapshot at `location`.
pub fn prune<F: Graftable, const N: usize>(
    snapshot: &mut Snapshot<F, Sha256, N>,
    location: u64,
) -> Result<(), Error<F>> {
    snapshot.prune(Location::new(location))
}

/// Returns the plan of a proof of its operations at the locations of `range`.
fn plan_of<F: Graftable>(
    rt: &impl Abort,
    alloc: Global,
    range: Range<Location<F>>,
) -> RangePlan<F> {
    some(rt, RangePlan::new(alloc, Location::new(COUNT), range))
}

/// Returns the snapshot's proof of the operations at the locations of `range`.
pub fn range_proof<F: Graftable>(
    rt: &impl Abort,
    alloc: Global,
    snapshot: &Snapshot<F, Sha256, 1>,
    range: Range<Location<F>>,
) -> RangeProof<F, DigestOf<Sha256>> {
    let built = RangeProof::build::<Sha256, Prunable<1>, _, 1>(
        alloc,
        snapshot.status(),
        plan_of(rt, alloc, range),
        |position| snapshot.get_node(position),
        Location::new(FLOOR),
        ops_root_of(snapshot),
    );
    some(rt, built)
}

/// Returns the tree in memory over `operations`.
pub fn tree_over(
    rt: &impl Abort,
    alloc: Global,
    operations: &[[u8; 1]],
) -> Mem<mmr::Family, FixedBytes<32>> {
    let hasher = Standard::<Sha256>::new(Bagging::BackwardFold);
    let mut tree = Mem::new(alloc);
    for operation in operations {
        done(rt, &tree.add(&hasher, operation));
    }
    tree
}

/// Returns the canonical root of a snapshot.
pub fn root_of<F: Graftable, const N: usize>(
    snapshot: &Snapshot<F, Sha256, N>,
) -> DigestOf<Sha256> {
    snapshot.root()
}

/// Returns its operations root.
pub fn ops_root_of<F: Graftable, const N: usize>(
    snapshot: &Snapshot<F, Sha256, N>,
) -> DigestOf<Sha256> {
    snapshot.ops_root()
}

/// Returns the digest of its grafted view at `position`, if it has one.
pub fn node<F: Graftable>(
    snapshot: &Snapshot<F, Sha256, 1>,
    position: u64,
) -> Option<DigestOf<Sha256>> {
    snapshot.get_node(Position::new(position))
}

/// Returns the digest of its grafted view at `position`.
pub fn node_at<F: Graftable>(
    rt: &impl Abort,
    snapshot: &Snapshot<F, Sha256, 1>,
    position: u64,
) -> DigestOf<Sha256> {
    there(rt, node(snapshot, position), "no node")
}
