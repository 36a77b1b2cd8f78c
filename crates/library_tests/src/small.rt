//! Databases whose keys have one byte. Each call stands in a function of its own, without a contract, so that a test which makes
//! many of them has none of their clauses to carry. A call that is refused ends the test.

use crate::database::{ByNumber, is_yes, see};
use crate::database_calls;
use crate::stops::there;
use std::alloc::Global;
use std::process::Abort;
use storage_codec::codec::FixedBytes;
use storage_codec::digest::{DigestOf, Sha256};
use storage_db::db::Ordered;
use storage_merkle::merkle::Graftable;
use storage_ops::qmdb::any::FixedEncoding;

pub type Key = FixedBytes<1>;

pub type Digest = DigestOf<Sha256>;

pub type Database<F> = Ordered<F, Sha256, Key, FixedEncoding<u64>, 1>;

/// Returns the key of `byte`.
pub fn key(byte: u8) -> Key {
    FixedBytes { bytes: [byte] }
}

/// Returns a database without operations.
pub fn empty<F: Graftable>(alloc: Global) -> Database<F> {
    Database::empty(alloc)
}

/// Gives the key of `byte` the value `number`.
pub fn put<F: Graftable>(rt: &impl Abort, database: &mut Database<F>, byte: u8, number: u64) {
    see(rt, database.give(key(byte), number), true);
}

/// Takes the key of `byte` out, and tells whether it had a value.
pub fn delete<F: Graftable>(rt: &impl Abort, database: &mut Database<F>, byte: u8) -> bool {
    is_yes(rt, database.take(&key(byte)))
}

/// Commits with this value, or none.
pub fn commit<F: Graftable>(rt: &impl Abort, database: &mut Database<F>, value: Option<u64>) {
    see(rt, database.end(value), true);
}

/// Returns the value of the key of `byte` now.
pub fn get<F: Graftable>(database: &Database<F>, byte: u8) -> Option<u64> {
    database.now(&key(byte)).copied()
}

/// Returns the canonical root of the last commit. Ends the test if there is none.
pub fn root<F: Graftable>(rt: &impl Abort, database: &Database<F>) -> Digest {
    there(rt, database.last_root(), "nothing is committed")
}

/// Returns the operations.
pub fn log<F: Graftable>(database: &Database<F>) -> &[Vec<u8>] {
    database_calls::log(database)
}

/// Returns a database of two commits:
///
/// ```text
/// put 8 80   0  update 8 -> 80, next 8        commit       7  commit, floor 2
/// put 2 20   1  update 2 -> 20, next 8        delete 6     8  delete 6
///            2  update 8 -> 80, next 2                     9  update 4 -> 40, next 8
/// put 6 60   3  update 6 -> 60, next 8        put 5 50    10  update 5 -> 50, next 8
///            4  update 2 -> 20, next 6                    11  update 4 -> 40, next 5
/// put 4 40   5  update 4 -> 40, next 6        commit      12  commit, floor 2
///            6  update 2 -> 20, next 4
/// ```
pub fn two_commits<F: Graftable>(rt: &impl Abort, alloc: Global) -> Database<F> {
    let mut database = changed_since::<F>(rt, alloc);
    commit(rt, &mut database, Some(3));
    database
}

/// Returns the same before its second commit: a database that has committed the keys 2, 4, 6 and 8, each with ten times its byte.
/// Since then 6 has been deleted, and 5 put.
pub fn changed_since<F: Graftable>(rt: &impl Abort, alloc: Global) -> Database<F> {
    let mut database = empty(alloc);
    for byte in [8, 2, 6, 4] {
        put(rt, &mut database, byte, u64::from(byte) * 10);
    }
    commit(rt, &mut database, None);
    assert!(rt; delete(rt, &mut database, 6));
    put(rt, &mut database, 5, 50);
    database
}
