//! Databases whose oldest active updates are put again.

use crate::database::{ByNumber, see};
use crate::database_calls::compact;
use crate::opened::are_alike;
use crate::small::{Database, commit, key, put, root, two_commits};
use crate::stops::some;
use std::alloc::Global;
use std::process::Abort;
use storage_merkle::merkle::{Graftable, mmb, mmr};

/// Returns how many updates of `database` are put again, at most `count`.
fn compacted<F: Graftable>(rt: &impl Abort, database: &mut Database<F>, count: u64) -> u64 {
    some(rt, compact(database, count, &()))
}

/// Puts the values that `keys` have again, one after the other.
fn put_all<F: Graftable>(rt: &impl Abort, database: &mut Database<F>, keys: &[u8]) {
    for byte in keys {
        put(rt, database, *byte, u64::from(*byte) * 10);
    }
}

/// Commits what `database` has, and asserts that the floor is `floor` then.
fn commit_at<F: Graftable>(rt: &impl Abort, database: &mut Database<F>, floor: u64) {
    commit(rt, database, None);
    assert!(rt; database.last_floor() == Some(floor));
}

/// Asserts that a proof of the value that `byte` has is accepted.
fn proves<F: Graftable>(rt: &impl Abort, alloc: Global, database: &Database<F>, byte: u8) {
    let value = u64::from(byte) * 10;
    let root = root(rt, database);
    let told = database.proves_value(alloc, key(byte), Some(&value), &root);
    see(rt, told, true);
}

/// Asserts that of at most `count` updates of `one` those of `keys` are put again, as puts of them do it in `other`, and that the floor
/// of both is `floor` at the next commit.
fn compact_beside<F: Graftable>(
    rt: &impl Abort,
    alloc: Global,
    one: &mut Database<F>,
    other: &mut Database<F>,
    count: u64,
    keys: &[u8],
    floor: u64,
) {
    assert!(rt; compacted(rt, one, count) == keys.len() as u64);
    put_all(rt, other, keys);
    commit_at(rt, one, floor);
    commit_at(rt, other, floor);
    are_alike(rt, alloc, one, other);
}

/// Asserts that the oldest updates are put again, as puts of their keys do it, and that the floor rises:
///
/// ```text
/// compact 3   13  update 8 -> 80, next 2      compact 9   17  update 4 -> 40, next 5
///             14  update 2 -> 20, next 4                  18  update 8 -> 80, next 2
///             15  update 5 -> 50, next 8                  19  update 2 -> 20, next 4
/// commit      16  commit, floor 11                        20  update 5 -> 50, next 8
///                                             commit      21  commit, floor 17
/// ```
fn oldest_put_again<F: Graftable>(rt: &impl Abort, alloc: Global) {
    let mut one = two_commits::<F>(rt, alloc);
    let mut other = two_commits::<F>(rt, alloc);
    compact_beside(rt, alloc, &mut one, &mut other, 3, &[8, 2, 5], 11);
    compact_beside(rt, alloc, &mut one, &mut other, 9, &[4, 8, 2, 5], 17);
    proves(rt, alloc, &one, 4);
    drop(one);
    drop(other);
}

#[test]
fn oldest_updates_put_again(rt: HostRuntime) {
    oldest_put_again::<mmr::Family>(&rt, rt.alloc());
    oldest_put_again::<mmb::Family>(&rt, rt.alloc());
}
