//! Databases that forget their first operations.

use crate::database::tell_alike;
use crate::database_calls::{prune, pruned};
use crate::db_ranges::{has_page, three_from};
use crate::small::{Database, commit, log, put, root, two_commits};
use crate::stops::{is_refused, some};
use std::alloc::Global;
use std::process::Abort;
use storage_db::db::Error;
use storage_merkle::merkle::{Graftable, Location, mmb, mmr};

/// Gives each of the four keys its value again, and commits: the floor is 13 then, and there are 18 operations.
fn renewed<F: Graftable>(rt: &impl Abort, alloc: Global) -> Database<F> {
    let mut database = two_commits::<F>(rt, alloc);
    for byte in [8, 2, 4, 5] {
        put(rt, &mut database, byte, u64::from(byte) * 10);
    }
    commit(rt, &mut database, None);
    database
}

/// Asserts that operations are not forgotten behind the floor.
fn stops_at_the_floor<F: Graftable>(rt: &impl Abort, database: &mut Database<F>) {
    let why = Error::RangeOutOfBounds(Location::new(14));
    is_refused(rt, &prune(database, Location::new(14)), &why);
    assert!(rt; pruned(database) == 0);
}

/// Asserts that the operations of the first chunk of eight are forgotten, as the floor stands in the second, and that a client accepts a
/// page behind them.
fn forgets_one_chunk<F: Graftable>(rt: &impl Abort, alloc: Global, database: &mut Database<F>) {
    some(rt, prune(database, Location::new(13)));
    assert!(rt; pruned(database) == 8);
    assert!(rt; log(database).len() == 10);
    let why = Error::Pruned(Location::new(7));
    is_refused(rt, &three_from(database, 7), &why);
    let root = root(rt, database);
    has_page(rt, alloc, database, &root, 8, 3);
}

/// Asserts that `rest` has the operations of `all` but the first eight.
fn lacks_eight(rt: &impl Abort, rest: &[Vec<u8>], all: &[Vec<u8>]) {
    assert!(rt; all.len() > 8);
    let behind = &all[8..];
    assert!(rt; rest == behind);
}

/// Asserts that `one` lacks the first eight operations of `other`, and that both tell the same.
fn are_alike_behind<F: Graftable>(
    rt: &impl Abort,
    alloc: Global,
    one: &Database<F>,
    other: &Database<F>,
) {
    lacks_eight(rt, log(one), log(other));
    tell_alike(rt, alloc, one, other);
}

/// Asserts that a database that has forgotten operations goes on as one that has not.
fn forgets<F: Graftable>(rt: &impl Abort, alloc: Global) {
    let mut one = renewed::<F>(rt, alloc);
    let mut other = renewed::<F>(rt, alloc);
    stops_at_the_floor(rt, &mut one);
    forgets_one_chunk(rt, alloc, &mut one);
    are_alike_behind(rt, alloc, &one, &other);
    put(rt, &mut one, 7, 70);
    put(rt, &mut other, 7, 70);
    commit(rt, &mut one, None);
    commit(rt, &mut other, None);
    are_alike_behind(rt, alloc, &one, &other);
    drop(one);
    drop(other);
}

#[test]
fn first_operations_forgotten(rt: HostRuntime) {
    forgets::<mmr::Family>(&rt, rt.alloc());
    forgets::<mmb::Family>(&rt, rt.alloc());
}
