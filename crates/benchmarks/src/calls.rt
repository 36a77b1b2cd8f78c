//! The calls of a database. Each stands in a function of its own, without a contract and over any keys and values, so that work which
//! makes many of them carries none of their clauses.

ghost use Rattle.storage_bitmap.specs.Chunks.{IsChunkSize};

use crate::columns::Fault;
use commonware_storage::NoMemory;
use commonware_storage::db::{Error, Ordered, OrderedCodec};
use commonware_storage::digest::Hasher;
use commonware_storage::merkle::Graftable;
use commonware_storage::qmdb::current::ordered::constant::{ExclusionProof, KeyValueProof};
use commonware_storage::qmdb::operation::Key;
use std::alloc::Global;

/// Gives `key` the value `value`.
pub fn put<F: Graftable, H: Hasher, K: Key, V: OrderedCodec<F, K>, const N: usize>(
    database: &mut Ordered<F, H, K, V, N>,
    key: K,
    value: V::Value,
) -> Result<(), Fault> {
    match database.put(key, value) {
        Ok(()) => Ok(()),
        Err(error) => Err(Fault::of_database(&error)),
    }
}

/// Takes `key` out.
pub fn delete<F: Graftable, H: Hasher, K: Key, V: OrderedCodec<F, K>, const N: usize>(
    database: &mut Ordered<F, H, K, V, N>,
    key: &K,
) -> Result<(), Fault> {
    match database.delete(key) {
        Ok(_) => Ok(()),
        Err(error) => Err(Fault::of_database(&error)),
    }
}

/// Commits.
pub fn commit<F: Graftable, H: Hasher, K: Key, V: OrderedCodec<F, K>, const N: usize>(
    database: &mut Ordered<F, H, K, V, N>,
) -> Result<(), Fault> {
    match database.commit(None) {
        Ok(()) => Ok(()),
        Err(error) => Err(Fault::of_database(&error)),
    }
}

/// Returns the canonical root of the last commit.
pub fn root<F: Graftable, H: Hasher, K: Key, V: OrderedCodec<F, K>, const N: usize>(
    database: &Ordered<F, H, K, V, N>,
) -> Option<H::Digest> {
    database.root()
}

/// Returns the value of `key` now.
pub fn get<'a, F: Graftable, H: Hasher, K: Key, V: OrderedCodec<F, K>, const N: usize>(
    database: &'a Ordered<F, H, K, V, N>,
    key: &K,
) -> Option<&'a V::Value> {
    database.get(key)
}

/// Returns the value that `key` had at the last commit, with its proof; nothing if it had none.
pub fn value_proof<F: Graftable, H: Hasher, K: Key, V: OrderedCodec<F, K>, const N: usize>(
    database: &Ordered<F, H, K, V, N>,
    key: &K,
) -> Result<Option<(V::Value, KeyValueProof<F, K, H::Digest, N>)>, Fault>
    requires { IsChunkSize N }
{
    match database.prove_value(key) {
        Ok(proved) => Ok(Some(proved)),
        Err(Error::Absent) => Ok(None),
        Err(error) => Err(Fault::of_database(&error)),
    }
}

/// Returns the proof that `key` had no value at the last commit.
pub fn absence_proof<F: Graftable, H: Hasher, K: Key, V: OrderedCodec<F, K>, const N: usize>(
    database: &Ordered<F, H, K, V, N>,
    key: &K,
) -> Result<ExclusionProof<F, K, V, H::Digest, N>, Fault>
    requires { IsChunkSize N }
{
    match database.prove_absence(key) {
        Ok(proof) => Ok(proof),
        Err(error) => Err(Fault::of_database(&error)),
    }
}

/// Returns whether `proof` is accepted as one that `key` has `value`.
pub fn is_accepted<F: Graftable, H: Hasher, K: Key, V: OrderedCodec<F, K>, const N: usize>(
    alloc: Global,
    proof: &KeyValueProof<F, K, H::Digest, N>,
    key: K,
    value: V::Value,
    root: &H::Digest,
) -> Result<bool, NoMemory>
    requires { IsChunkSize N }
{
    proof.verify::<H, V>(alloc, key, value, root)
}
