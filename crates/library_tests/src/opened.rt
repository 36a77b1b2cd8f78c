//! Databases that are opened again from their operations, and lists that are refused.

use crate::database::{ByNumber, next_number, tell_alike};
use crate::database_calls::open;
use crate::small::{Database, commit, delete, empty, get, log, put, two_commits};
use crate::stops::{self, some, there};
use std::alloc::Global;
use std::process::Abort;
use storage_db::db::OpenError;
use storage_merkle::merkle::{Graftable, Location, mmb, mmr};

/// Returns copies of `operations`.
pub fn copies(rt: &impl Abort, alloc: Global, operations: &[Vec<u8>]) -> Vec<Vec<u8>> {
    let mut all = Vec::new(alloc);
    for operation in operations {
        let copy = some(rt, operation.clone());
        some(rt, all.push(copy));
    }
    all
}

/// Returns copies of the operations of a database of two commits.
fn of_two_commits<F: Graftable>(rt: &impl Abort, alloc: Global) -> Vec<Vec<u8>> {
    let database = two_commits::<F>(rt, alloc);
    let operations = copies(rt, alloc, log(&database));
    drop(database);
    operations
}

/// Returns copies of the first `count` of `operations`.
pub fn first_of(
    rt: &impl Abort,
    alloc: Global,
    operations: &[Vec<u8>],
    count: usize,
) -> Vec<Vec<u8>> {
    let first = operations.get(..count);
    copies(rt, alloc, there(rt, first, "too few operations"))
}

/// Returns the database of `operations`.
fn opened<F: Graftable>(rt: &impl Abort, alloc: Global, operations: Vec<Vec<u8>>) -> Database<F> {
    some(rt, open(alloc, operations, &()))
}

/// Returns `database`, opened again from copies of its operations.
fn reopened<F: Graftable>(rt: &impl Abort, alloc: Global, database: &Database<F>) -> Database<F> {
    opened(rt, alloc, copies(rt, alloc, log(database)))
}

/// Asserts that `operations` are refused as no log at `place`.
fn is_refused<F: Graftable>(rt: &impl Abort, alloc: Global, operations: Vec<Vec<u8>>, place: u64) {
    let why = OpenError::NotALog(Location::new(place));
    let opened: Result<Database<F>, OpenError<F>> = open(alloc, operations, &());
    stops::is_refused(rt, &opened, &why);
    drop(opened);
}

/// Asserts that two databases have the same operations, and tell the same of now and of the last commit.
pub fn are_alike<F: Graftable>(
    rt: &impl Abort,
    alloc: Global,
    one: &Database<F>,
    other: &Database<F>,
) {
    assert!(rt; log(one) == log(other));
    tell_alike(rt, alloc, one, other);
}

/// Changes a database after its second commit, and commits.
fn go_on<F: Graftable>(rt: &impl Abort, database: &mut Database<F>) {
    put(rt, database, 7, 70);
    assert!(rt; delete(rt, database, 8));
    commit(rt, database, None);
}

/// Asserts that a database is opened again as it was, and goes on as it would have.
fn again<F: Graftable>(rt: &impl Abort, alloc: Global) {
    let mut one = two_commits::<F>(rt, alloc);
    let mut other = reopened(rt, alloc, &one);
    are_alike(rt, alloc, &one, &other);
    go_on_alike(rt, alloc, &mut one, &mut other);
    drop(one);
    drop(other);
}

/// Changes two databases, and asserts that they tell the same then.
fn go_on_alike<F: Graftable>(
    rt: &impl Abort,
    alloc: Global,
    one: &mut Database<F>,
    other: &mut Database<F>,
) {
    go_on(rt, one);
    go_on(rt, other);
    are_alike(rt, alloc, one, other);
}

/// Asserts that the first operations are opened up to a commit, and are refused elsewhere at their end.
fn up_to_a_commit<F: Graftable>(rt: &impl Abort, alloc: Global) {
    let operations = of_two_commits::<F>(rt, alloc);
    for count in 1..13usize {
        let first = first_of(rt, alloc, &operations, count);
        if count == 8 {
            has_six::<F>(rt, alloc, first);
        } else {
            is_refused::<F>(rt, alloc, first, count as u64);
        }
    }
}

/// Asserts that in the database of `operations` the key 6 has a value.
fn has_six<F: Graftable>(rt: &impl Abort, alloc: Global, operations: Vec<Vec<u8>>) {
    let database = opened::<F>(rt, alloc, operations);
    assert!(rt; get(&database, 6) == Some(60));
    drop(database);
}

/// Sets the byte `index` of the operation at `at`, which is another, to `byte`.
fn set(rt: &impl Abort, operations: &mut [Vec<u8>], at: usize, index: usize, byte: u8) {
    let operation = there(rt, operations.get_mut(at), "no operation");
    let old = there(rt, operation.get_mut(index), "no byte");
    assert!(rt; *old != byte);
    *old = byte;
}

/// Asserts that the operations are refused at `place` once the byte `index` of the one at `at` is `byte`.
fn changed<F: Graftable>(
    rt: &impl Abort,
    alloc: Global,
    at: usize,
    index: usize,
    byte: u8,
    place: u64,
) {
    let mut operations = of_two_commits::<F>(rt, alloc);
    set(rt, &mut operations, at, index, byte);
    is_refused::<F>(rt, alloc, operations, place);
}

/// Asserts that operations that no database appends are refused where the first of them stands.
fn one_byte<F: Graftable>(rt: &impl Abort, alloc: Global) {
    changed::<F>(rt, alloc, 0, 9, 81, 2); // a value, which the update at 2 repeats
    changed::<F>(rt, alloc, 1, 10, 6, 1); // the next key of a put
    changed::<F>(rt, alloc, 2, 10, 6, 2); // that of the key before it
    changed::<F>(rt, alloc, 3, 17, 1, 3); // a zero that fills up
    changed::<F>(rt, alloc, 7, 17, 3, 7); // the floor of a commit
    changed::<F>(rt, alloc, 12, 17, 6, 12); // that of the last
    changed::<F>(rt, alloc, 8, 0, 0xD4, 8); // a tag that no operation has
    changed::<F>(rt, alloc, 8, 1, 7, 8); // a deletion of a key that has no value
}

/// Asserts that operations out of their order are refused, and ones with a byte more or less.
fn order_and_length<F: Graftable>(rt: &impl Abort, alloc: Global) {
    let operations = of_two_commits::<F>(rt, alloc);
    is_refused::<F>(rt, alloc, swapped(rt, alloc, &operations), 1);
    is_refused::<F>(rt, alloc, longer(rt, alloc, &operations), 12);
    is_refused::<F>(rt, alloc, shorter(rt, alloc, &operations), 5);
}

/// Returns `operations`, of which the second and the third are swapped.
fn swapped(rt: &impl Abort, alloc: Global, operations: &[Vec<u8>]) -> Vec<Vec<u8>> {
    let mut swapped = copies(rt, alloc, operations);
    assert!(rt; swapped.len() == 13);
    swapped.swap(1, 2);
    swapped
}

/// Returns `operations`, the last one with a byte more.
fn longer(rt: &impl Abort, alloc: Global, operations: &[Vec<u8>]) -> Vec<Vec<u8>> {
    let mut longer = copies(rt, alloc, operations);
    assert!(rt; longer.len() == 13);
    some(rt, longer[12].push(0));
    longer
}

/// Returns `operations`, the sixth one with a byte less.
fn shorter(rt: &impl Abort, alloc: Global, operations: &[Vec<u8>]) -> Vec<Vec<u8>> {
    let mut shorter = copies(rt, alloc, operations);
    assert!(rt; shorter.len() == 13);
    assert!(rt; shorter[5].pop().is_some());
    shorter
}

/// Asserts that a database of many commands is opened again as it was.
fn many<F: Graftable>(rt: &impl Abort, alloc: Global) {
    let mut one = empty::<F>(alloc);
    do_many(rt, &mut one);
    let other = reopened(rt, alloc, &one);
    are_alike(rt, alloc, &one, &other);
    drop(one);
    drop(other);
}

/// Gives `database` 400 commands and commits.
fn do_many<F: Graftable>(rt: &impl Abort, database: &mut Database<F>) {
    let mut draw = 61;
    for _ in 0..400u64 {
        draw = next_number(draw);
        step(rt, database, draw);
    }
    commit(rt, database, None);
}

/// Does what the number `draw` says with one of sixteen keys.
fn step<F: Graftable>(rt: &impl Abort, database: &mut Database<F>, draw: u64) {
    let [first, second, ..] = draw.to_be_bytes();
    match second % 16 {
        0 => commit(rt, database, Some(draw)),
        1..6 => {
            delete(rt, database, first % 16);
        }
        _ => put(rt, database, first % 16, draw),
    }
}

#[test]
fn opened_again(rt: HostRuntime) {
    again::<mmr::Family>(&rt, rt.alloc());
    again::<mmb::Family>(&rt, rt.alloc());
}

#[test]
fn opened_up_to_a_commit(rt: HostRuntime) {
    up_to_a_commit::<mmr::Family>(&rt, rt.alloc());
    up_to_a_commit::<mmb::Family>(&rt, rt.alloc());
}

#[test]
fn refused_with_a_byte_changed(rt: HostRuntime) {
    one_byte::<mmr::Family>(&rt, rt.alloc());
    one_byte::<mmb::Family>(&rt, rt.alloc());
}

#[test]
fn refused_out_of_order(rt: HostRuntime) {
    order_and_length::<mmr::Family>(&rt, rt.alloc());
}

#[test]
fn opened_after_many_commands(rt: HostRuntime) {
    many::<mmr::Family>(&rt, rt.alloc());
    many::<mmb::Family>(&rt, rt.alloc());
}

#[test]
fn opened_empty(rt: HostRuntime) {
    let database = opened::<mmr::Family>(&rt, rt.alloc(), Vec::new(rt.alloc()));
    assert!(rt; database.last_root().is_none());
    assert!(rt; log(&database).is_empty());
    drop(database);
}
