//! A snapshot that grows, beside the plain program of the definitions over the whole.

use crate::definitions::strings;
use crate::snapshots::{self, made, root_of};
use crate::stops::{done, some};
use reference::shape::Digits;
use reference::snapshot::{Snapshot as Whole, canonical_root};
use std::alloc::Global;
use std::process::Abort;
use storage_bitmap::bitmap::Prunable;
use storage_codec::digest::{DigestOf, Sha256};
use storage_current::qmdb::current::Snapshot;
use storage_merkle::merkle::{Graftable, Location, mmb, mmr};
use storage_ops::qmdb::Error;

/// Nineteen operations.
const OPERATIONS: &str = "00,01,0202,03,04,05,060606,07,08,09,0a,,0c,0d,0e,0f,10,11,12";

/// Their bits, once those of the operations 0 and 9 are cleared.
const BITS: [bool; 19] = [
    false, true, false, true, true, false, false, true, false, false, true, true, false, false,
    true, false, true, true, true,
];

/// Returns the snapshot of the first eleven operations, in chunks of eight.
fn first_eleven<F: Graftable>(
    rt: &impl Abort,
    alloc: Global,
    operations: &[Vec<u8>],
) -> Snapshot<F, Sha256, 1> {
    let mut bits = Prunable::<1>::new(alloc);
    let early = [
        true, true, false, true, true, false, false, true, false, true, true,
    ];
    some(rt, bits.append(&early));
    made(rt, alloc, operations, bits, 1)
}

/// Extends that snapshot by the other eight.
fn extend_once<F: Graftable>(
    alloc: Global,
    snapshot: &mut Snapshot<F, Sha256, 1>,
    operations: &[Vec<u8>],
) -> Result<(), Error<F>> {
    let late = [true, false, false, true, false, true, true, true];
    let clear = [Location::new(9), Location::new(0)];
    snapshots::extend(alloc, snapshot, operations, &late, &clear, 9)
}

/// Returns the canonical root of all nineteen by the definitions.
fn root_of_whole<F: Graftable + Digits>(
    rt: &impl Abort,
    alloc: Global,
    operations: &[Vec<u8>],
) -> DigestOf<Sha256> {
    let whole = Whole {
        operations,
        bits: &BITS,
        floor: 9,
        chunk_size: 1,
    };
    some(rt, canonical_root::<F, Sha256, Vec<u8>>(alloc, &whole))
}

/// Extends a snapshot of the first eleven operations by the other eight, and compares its root.
fn extend<F: Graftable + Digits>(rt: &impl Abort, alloc: Global) {
    let operations = strings(rt, alloc, OPERATIONS);
    assert!(rt; operations.len() == 19);
    let (first, rest) = operations.as_slice().split_at(11);
    let mut snapshot = first_eleven::<F>(rt, alloc, first);
    extend_and_again(rt, alloc, &mut snapshot, rest);
    assert!(rt; root_of(&snapshot) == root_of_whole::<F>(rt, alloc, &operations));
    drop(snapshot);
}

/// Extends that snapshot by `rest`. A refused extension is made again.
fn extend_and_again<F: Graftable>(
    rt: &impl Abort,
    alloc: Global,
    snapshot: &mut Snapshot<F, Sha256, 1>,
    rest: &[Vec<u8>],
) {
    let mut grown = extend_once(alloc, snapshot, rest);
    if grown.is_err() {
        grown = extend_once(alloc, snapshot, rest);
    }
    done(rt, &grown);
}

#[test]
fn range_extended_by_eight(rt: HostRuntime) {
    extend::<mmr::Family>(&rt, rt.alloc());
}

#[test]
fn belt_extended_by_eight(rt: HostRuntime) {
    extend::<mmb::Family>(&rt, rt.alloc());
}
