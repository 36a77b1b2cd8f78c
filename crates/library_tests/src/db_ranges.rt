//! The ranges of keys that a database tells of, and pages of its log.

use crate::database_calls::{self, committed_up_to, from, page};
use crate::small::{Database, Digest, Key, changed_since, commit, delete, empty, key, put, root};
use crate::stops::{is_refused, some, there};
use std::alloc::Global;
use std::process::Abort;
use storage_codec::codec::FixedBytes;
use storage_codec::digest::Sha256;
use storage_current::qmdb::current::proof::RangeProof;
use storage_db::db::{Error, Range};
use storage_merkle::merkle::{Graftable, Location, mmb, mmr};

/// Returns all keys that have a value now, with their values.
fn all<F: Graftable>(database: &Database<F>) -> Range<'_, Key, u64> {
    database_calls::all(database)
}

/// Returns all keys that had a value at the last commit, with their values; nothing before the first commit.
fn of_commit<F: Graftable>(database: &Database<F>) -> Option<Range<'_, Key, u64>> {
    database_calls::committed(database)
}

/// Returns the same of a database that has a commit.
fn committed<'a, F: Graftable>(rt: &impl Abort, database: &'a Database<F>) -> Range<'a, Key, u64> {
    there(rt, of_commit(database), "nothing is committed")
}

/// Returns the proof of three operations from the location `start` on, or of fewer at the end; those, and the chunks that they touch.
pub fn three_from<F: Graftable>(
    database: &Database<F>,
    start: u64,
) -> Result<(RangeProof<F, Digest>, &[Vec<u8>], Vec<[u8; 1]>), Error<F>> {
    page(database, Location::new(start), 3)
}

/// Asserts that the range has exactly the keys of `bytes`, in this order, each with ten times its byte.
fn has_keys(rt: &impl Abort, mut range: Range<'_, Key, u64>, bytes: &[u8]) {
    for byte in bytes {
        let (key, value) = there(rt, range.next(), "too few keys");
        assert!(rt; key.bytes == [*byte]);
        assert!(rt; *value == u64::from(*byte) * 10);
    }
    assert!(rt; range.next().is_none());
}

/// Asserts that the last key of the range is that of `byte`.
fn ends_with(rt: &impl Abort, mut range: Range<'_, Key, u64>, byte: u8) {
    let (last, _) = there(rt, range.next_back(), "no last key");
    assert!(rt; last.bytes == [byte]);
}

/// Asserts that the keys of now and of the last commit are told in their order, and of no commit none.
fn ranges<F: Graftable>(rt: &impl Abort, alloc: Global) {
    let database = changed_since::<F>(rt, alloc);
    tells_now(rt, &database);
    tells_of_commit(rt, &database);
    drop(database);
    tells_of_none::<F>(rt, alloc);
}

/// Asserts that a database tells of no commit before the first.
fn tells_of_none<F: Graftable>(rt: &impl Abort, alloc: Global) {
    let database = empty::<F>(alloc);
    assert!(rt; of_commit(&database).is_none());
    drop(database);
}

/// Asserts which keys have a value now.
fn tells_now<F: Graftable>(rt: &impl Abort, database: &Database<F>) {
    has_keys(rt, all(database), &[2, 4, 5, 8]);
    has_keys(rt, from(database, key(3)), &[4, 5, 8]);
    ends_with(rt, all(database), 8);
}

/// Asserts which keys had a value at the last commit.
fn tells_of_commit<F: Graftable>(rt: &impl Abort, database: &Database<F>) {
    has_keys(rt, committed(rt, database), &[2, 4, 6, 8]);
    let up_to_six = committed_up_to(database, key(6));
    has_keys(rt, there(rt, up_to_six, "nothing is committed"), &[2, 4, 6]);
}

/// Asserts that the range has exactly these keys with these values, from its end.
fn has_from_the_back(rt: &impl Abort, mut range: Range<'_, Key, u64>, entries: &[(u8, u64)]) {
    for (byte, number) in entries {
        let (key, value) = there(rt, range.next_back(), "too few keys");
        assert!(rt; key.bytes == [*byte]);
        assert!(rt; *value == *number);
    }
    assert!(rt; range.next_back().is_none());
    assert!(rt; range.next().is_none());
}

/// Gives each key its value.
fn put_all<F: Graftable>(rt: &impl Abort, database: &mut Database<F>, entries: &[(u8, u64)]) {
    for (byte, number) in entries {
        put(rt, database, *byte, *number);
    }
}

/// Takes the keys out, each of which has a value.
fn delete_all<F: Graftable>(rt: &impl Abort, database: &mut Database<F>, bytes: &[u8]) {
    for byte in bytes {
        assert!(rt; delete(rt, database, *byte));
    }
}

/// Asserts that the range has exactly these keys with these values, from its end, behind a first and before a last one.
fn has_between(rt: &impl Abort, mut range: Range<'_, Key, u64>, entries: &[(u8, u64)]) {
    assert!(rt; range.next().is_some());
    assert!(rt; range.next_back().is_some());
    has_from_the_back(rt, range, entries);
}

/// Asserts that the last commit has exactly these keys with these values, from the end.
fn has_committed<F: Graftable>(rt: &impl Abort, database: &Database<F>, entries: &[(u8, u64)]) {
    has_from_the_back(rt, committed(rt, database), entries);
}

/// Asserts that the keys of a commit are told from both ends, whatever has changed since, until the next commit.
fn committed_from_the_back<F: Graftable>(rt: &impl Abort, alloc: Global) {
    let mut database = changed_since::<F>(rt, alloc);
    change_and_commit(rt, &mut database);
    empty_and_commit(rt, &mut database);
    drop(database);
}

/// Changes each key of a commit, and asserts that it tells of the same keys until the next.
fn change_and_commit<F: Graftable>(rt: &impl Abort, database: &mut Database<F>) {
    delete_all(rt, database, &[2]);
    put_all(rt, database, &[(8, 88), (9, 90), (2, 21)]);
    has_committed(rt, database, &[(8, 80), (6, 60), (4, 40), (2, 20)]);
    has_between(rt, committed(rt, database), &[(6, 60), (4, 40)]);
    commit(rt, database, None);
}

/// Takes out each key of the commit after that, and asserts that it tells of the same keys until the next, which has none.
fn empty_and_commit<F: Graftable>(rt: &impl Abort, database: &mut Database<F>) {
    let now = [(9, 90), (8, 88), (5, 50), (4, 40), (2, 21)];
    has_committed(rt, database, &now);
    delete_all(rt, database, &[4, 9, 2, 8, 5]);
    has_from_the_back(rt, all(database), &[]);
    has_committed(rt, database, &now);
    commit(rt, database, None);
    has_committed(rt, database, &[]);
}

/// Returns operations of eighteen bytes each as a proof takes them: written without their length.
fn raw(rt: &impl Abort, alloc: Global, operations: &[Vec<u8>]) -> Vec<FixedBytes<18>> {
    let mut strings = Vec::new(alloc);
    for operation in operations {
        assert!(rt; operation.len() == 18);
        let mut bytes = [0; 18];
        for (byte, written) in bytes.iter_mut().zip(operation) {
            *byte = *written;
        }
        some(rt, strings.push(FixedBytes { bytes }));
    }
    strings
}

/// Asserts that the page of at most three operations from `start` on has `count` of them, and that a client accepts it.
pub fn has_page<F: Graftable>(
    rt: &impl Abort,
    alloc: Global,
    database: &Database<F>,
    root: &Digest,
    start: u64,
    count: usize,
) {
    let (proof, operations, chunks) = some(rt, three_from(database, start));
    assert!(rt; operations.len() == count);
    let strings = raw(rt, alloc, operations);
    let start = Location::new(start);
    let yes = proof.verify::<Sha256, _, 1>(alloc, start, &strings, &chunks, root);
    assert!(rt; some(rt, yes));
}

/// Asserts that no operation of the last commit is at `location`.
fn has_no_page<F: Graftable>(rt: &impl Abort, database: &Database<F>, location: u64) {
    let why = Error::RangeOutOfBounds(Location::new(location));
    is_refused(rt, &three_from(database, location), &why);
}

/// Asserts that the log up to the commit at location 7 is told page by page, and nothing behind it.
fn pages<F: Graftable>(rt: &impl Abort, alloc: Global) {
    let database = changed_since::<F>(rt, alloc);
    let root = root(rt, &database);
    has_page(rt, alloc, &database, &root, 0, 3);
    has_page(rt, alloc, &database, &root, 3, 3);
    has_page(rt, alloc, &database, &root, 6, 2);
    has_no_page(rt, &database, 8);
    drop(database);
}

#[test]
fn ranges_in_order(rt: HostRuntime) {
    ranges::<mmr::Family>(&rt, rt.alloc());
    ranges::<mmb::Family>(&rt, rt.alloc());
}

#[test]
fn committed_keys_from_the_back(rt: HostRuntime) {
    committed_from_the_back::<mmr::Family>(&rt, rt.alloc());
    committed_from_the_back::<mmb::Family>(&rt, rt.alloc());
}

#[test]
fn pages_of_a_log(rt: HostRuntime) {
    pages::<mmr::Family>(&rt, rt.alloc());
    pages::<mmb::Family>(&rt, rt.alloc());
}
