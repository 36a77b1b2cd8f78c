//! The row of the last commit, as it is written and as it is compared.

ghost use Rattle.std.specs.Prelude.{◌≡◌, ◌≤◌, ◌-◌, ◌↔◌, Some, drop, length, map, option_map, IfOk, IfSome, IsTrue};
ghost use Rattle.storage_current.specs.Keys.{keyed_by};
ghost use Rattle.storage_current.specs.Snapshots.{grafting_of};
ghost use Rattle.storage_db.specs.Databases.{Database};
ghost use Rattle.storage_db.specs.Kept.{Keeps};
ghost use Rattle.storage_db.specs.Opening.{IsCommitted};
ghost use Rattle.storage_file.specs.Given.{commit_of};
ghost use Rattle.storage_stored.specs.Stored.{IsLastRow};

use crate::error::Error;
use std::alloc::Global;
use storage_codec::digest::{Digest, Hasher};
use storage_db::db::{Ordered, OrderedCodec};
use storage_file::Commit;
use storage_merkle::merkle::Graftable;
use storage_ops::qmdb::operation::Key;

/// The operations from a place on; none where there are no more.
fn rest_of(operations: &[Vec<u8>], place: u64) -> &[Vec<u8>]
    ensures { place ≤ length operations.now → result.now ≡ drop place operations.now }
{
    let count = operations.len() as u64;
    &operations[place.min(count) as usize..]
}

/// The operations of a database from a location on, as they are written; `None` if it has forgotten some of them.
pub(crate) fn operations_from<
    F: Graftable,
    H: Hasher,
    K: Key,
    V: OrderedCodec<F, K>,
    const N: usize,
>(database: &Ordered<F, H, K, V, N>, location: u64) -> Option<&[Vec<u8>]>
    ensures { let e = keyed_by K.text V.Value.text V.operation_text K.cmp in
        IfSome result (λ more. (d : Database K V.Value)
        → Keeps e V.Value.view H.hash_of (grafting_of F.shape N) database.now d
        → location ≤ length d.operations
        → map (λ v. v.items) more.now ≡ drop location d.operations) }
{
    let pruned = database.pruned();
    if location < pruned {
        return None;
    }
    Some(rest_of(database.operations(), location - pruned))
}

/// The location of the last operation.
fn location_of<F: Graftable, H: Hasher, K: Key, V: OrderedCodec<F, K>, const N: usize>(
    database: &Ordered<F, H, K, V, N>,
) -> u64
    ensures { let e = keyed_by K.text V.Value.text V.operation_text K.cmp in
        (d : Database K V.Value)
        → Keeps e V.Value.view H.hash_of (grafting_of F.shape N) database.now d
        → result ≡ length d.operations - 1 }
{
    database.operation_count().saturating_sub(1)
}

/// The row of the last commit, which is the last operation.
///
/// # Errors
///
/// The first of: `NotCommitted` before the first commit; `Memory`.
pub(crate) fn row_of<F: Graftable, H: Hasher, K: Key, V: OrderedCodec<F, K>, const N: usize>(
    alloc: Global,
    database: &Ordered<F, H, K, V, N>,
) -> Result<Commit, Error<F>>
    ensures { let e = keyed_by K.text V.Value.text V.operation_text K.cmp in
        let g = grafting_of F.shape N in
        (d : Database K V.Value) → Keeps e V.Value.view H.hash_of g database.now d → IsCommitted d
        → IfOk result (λ row. IsLastRow H.hash_of g (Some (commit_of row)) d.last) }
{
    let Some(floor) = database.floor() else {
        return Err(Error::NotCommitted);
    };
    let Some(root) = database.root() else {
        return Err(Error::NotCommitted);
    };
    Ok(Commit {
        location: location_of(database),
        floor: floor.as_u64(),
        root: Vec::from_slice(alloc, root.bytes())?,
    })
}

/// Whether both are the same bytes.
fn are_equal(left: &[u8], right: &[u8]) -> bool
    ensures yes { IsTrue result → left.now ≡ right.now }
    ensures no { left.now ≡ right.now → IsTrue result }
{
    left == right
}

/// Whether a row says that a commit is at this location, with this floor and this root.
fn says(row: &Commit, location: u64, floor: u64, root: &[u8]) -> bool
    ensures yes { IsTrue result → (row.now.location ≡ location) × (row.now.floor ≡ floor)
        × (row.now.root.items ≡ root.now) }
    ensures no { (row.now.location ≡ location) × (row.now.floor ≡ floor)
        × (row.now.root.items ≡ root.now) → IsTrue result }
{
    row.location == location && row.floor == floor && are_equal(&row.root, root)
}

/// Whether a row, if there is one, is that of the last commit, which is the last operation.
pub(crate) fn is_last_row<F: Graftable, H: Hasher, K: Key, V: OrderedCodec<F, K>, const N: usize>(
    row: Option<&Commit>,
    database: &Ordered<F, H, K, V, N>,
) -> bool
    ensures { let e = keyed_by K.text V.Value.text V.operation_text K.cmp in
        let g = grafting_of F.shape N in
        (d : Database K V.Value) → Keeps e V.Value.view H.hash_of g database.now d → IsCommitted d
        → (IsTrue result ↔ IsLastRow H.hash_of g (option_map (λ it. commit_of it.now) row.entry)
        d.last) }
{
    let Some(row) = row else {
        return database.floor().is_none();
    };
    let Some(floor) = database.floor() else {
        return false;
    };
    let Some(root) = database.root() else {
        return false;
    };
    says(row, location_of(database), floor.as_u64(), root.bytes())
}
