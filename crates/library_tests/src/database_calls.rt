//! The calls of a database that `ByNumber` has not. Each stands in a function of its own, without what the call ensures and over any keys
//! and values, so that a test which makes many of them carries none of their clauses.

ghost use Rattle.std.specs.Prelude.{◌≤◌};
ghost use Rattle.storage_bitmap.specs.Chunks.{IsChunkSize};

use std::alloc::Global;
use storage_codec::digest::Hasher;
use storage_current::qmdb::current::proof::RangeProof;
use storage_db::db::{CompactError, Error, OpenError, Ordered, OrderedCodec, Range, TrustError};
use storage_merkle::merkle::{Graftable, Location};
use storage_ops::qmdb::operation::Key;

/// Returns the operations.
pub fn log<F: Graftable, H: Hasher, K: Key, V: OrderedCodec<F, K>, const N: usize>(
    database: &Ordered<F, H, K, V, N>,
) -> &[Vec<u8>] {
    database.operations()
}

/// Opens the database of `operations`.
pub fn open<F: Graftable, H: Hasher, K: Key, V: OrderedCodec<F, K>, const N: usize>(
    alloc: Global,
    operations: Vec<Vec<u8>>,
    cfg: &V::ReadCfg,
) -> Result<Ordered<F, H, K, V, N>, OpenError<F>>
    requires { IsChunkSize N }
{
    Ordered::open(alloc, operations, cfg)
}

/// Opens the database of `operations` by the root of its last commit.
pub fn open_trusted<F: Graftable, H: Hasher, K: Key, V: OrderedCodec<F, K>, const N: usize>(
    alloc: Global,
    operations: Vec<Vec<u8>>,
    root: &H::Digest,
    cfg: &V::ReadCfg,
) -> Result<Ordered<F, H, K, V, N>, TrustError<F>>
    requires { IsChunkSize N }
{
    Ordered::open_trusted(alloc, operations, root, cfg)
}

/// Puts at most `count` of the oldest active updates again.
pub fn compact<F: Graftable, H: Hasher, K: Key, V: OrderedCodec<F, K>, const N: usize>(
    database: &mut Ordered<F, H, K, V, N>,
    count: u64,
    cfg: &V::ReadCfg,
) -> Result<u64, CompactError<F>> {
    database.compact(count, cfg)
}

/// Forgets the operations before `location` that can be.
pub fn prune<F: Graftable, H: Hasher, K: Key, V: OrderedCodec<F, K>, const N: usize>(
    database: &mut Ordered<F, H, K, V, N>,
    location: Location<F>,
) -> Result<(), Error<F>> {
    database.prune(location)
}

/// Returns how many operations are forgotten.
pub fn pruned<F: Graftable, H: Hasher, K: Key, V: OrderedCodec<F, K>, const N: usize>(
    database: &Ordered<F, H, K, V, N>,
) -> u64 {
    database.pruned()
}

/// Returns the proof of at most `count` operations from `start` on, the operations, and the chunks that they touch.
pub fn page<F: Graftable, H: Hasher, K: Key, V: OrderedCodec<F, K>, const N: usize>(
    database: &Ordered<F, H, K, V, N>,
    start: Location<F>,
    count: u64,
) -> Result<(RangeProof<F, H::Digest>, &[Vec<u8>], Vec<[u8; N]>), Error<F>>
    requires { 1 ≤ count }
{
    database.range_proof(start, count)
}

/// Returns all keys that have a value now, with their values.
pub fn all<F: Graftable, H: Hasher, K: Key, V: OrderedCodec<F, K>, const N: usize>(
    database: &Ordered<F, H, K, V, N>,
) -> Range<'_, K, V::Value> {
    database.range(..)
}

/// Returns those of the keys from `first` on.
pub fn from<F: Graftable, H: Hasher, K: Key, V: OrderedCodec<F, K>, const N: usize>(
    database: &Ordered<F, H, K, V, N>,
    first: K,
) -> Range<'_, K, V::Value> {
    database.range(first..)
}

/// Returns all keys that had a value at the last commit, with their values; nothing before the first commit.
pub fn committed<F: Graftable, H: Hasher, K: Key, V: OrderedCodec<F, K>, const N: usize>(
    database: &Ordered<F, H, K, V, N>,
) -> Option<Range<'_, K, V::Value>> {
    database.range_committed(..)
}

/// Returns those of the keys up to `last`.
pub fn committed_up_to<F: Graftable, H: Hasher, K: Key, V: OrderedCodec<F, K>, const N: usize>(
    database: &Ordered<F, H, K, V, N>,
    last: K,
) -> Option<Range<'_, K, V::Value>> {
    database.range_committed(..=last)
}
