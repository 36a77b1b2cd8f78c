//! What is stored of a database, and what is compared with it.

ghost use Rattle.std.specs.Prelude.{◌≡◌, ◌⊎◌, ◌↔◌, map, IsTrue, OnErr, OnOk};
ghost use Rattle.storage_current.specs.Keys.{keyed_by};
ghost use Rattle.storage_current.specs.Snapshots.{grafting_of};
ghost use Rattle.storage_db.specs.Databases.{Database};
ghost use Rattle.storage_db.specs.Kept.{Keeps};
ghost use Rattle.storage_db.specs.Opening.{IsCommitted};
ghost use Rattle.storage_file.specs.Given.{commit_of};
ghost use Rattle.storage_file.specs.Journals.{IsClean, IsLive, IsOf, MayLeave};
ghost use Rattle.storage_file.specs.Tables.{Holds};
ghost use Rattle.storage_stored.specs.Stored.{AreListsOf, HoldsLast, IsAhead, ShowsLast};

use crate::error::Error;
use crate::rows::{is_last_row, operations_from, row_of};
use sqlite::Alter;
use std::alloc::Global;
use storage_codec::digest::Hasher;
use storage_db::db::{Ordered, OrderedCodec};
use storage_file::{Commit, Journal};
use storage_merkle::merkle::{Graftable, Location};
use storage_ops::qmdb::operation::Key;

/// Stores the last commit of `database`, which is its last operation: the operations that the journal has not, and the row
/// of the commit with its location, its floor and its root, in one transaction. After an error the tables show what they
/// showed, unless the disk failed: then what a crash leaves is the commit before or this one.
///
/// # Errors
///
/// The first of: `NotCommitted` before the first commit; `Pruned` with the location of the first operation that the journal
/// has not, if that is forgotten; `Store` with what the connection refuses or fails at; `Memory`.
pub fn store_commit<
    F: Graftable,
    H: Hasher,
    K: Key,
    V: OrderedCodec<F, K>,
    const N: usize,
    S: Alter,
>(
    alloc: Global,
    journal: &mut Journal<S>,
    database: &Ordered<F, H, K, V, N>,
) -> Result<(), Error<F>>
    ensures stored { let e = keyed_by K.text V.Value.text V.operation_text K.cmp in
        let g = grafting_of F.shape N in
        IsClean S.Store journal.new → (lists : _) → IsOf S.Store journal.old lists
        → (d : Database K V.Value) → Keeps e V.Value.view H.hash_of g database.now d → IsAhead lists d
        → OnOk result (ShowsLast H.hash_of g S.Store journal.new d.last) }
    ensures durable { let e = keyed_by K.text V.Value.text V.operation_text K.cmp in
        let g = grafting_of F.shape N in
        IsClean S.Store journal.new → (lists : _) → IsOf S.Store journal.old lists
        → (d : Database K V.Value) → Keeps e V.Value.view H.hash_of g database.now d → IsAhead lists d
        → OnOk result ((db : _) → MayLeave S.Store journal.new db → HoldsLast H.hash_of g db d.last) }
    ensures kept { IsClean S.Store journal.new → (lists : _) → IsOf S.Store journal.old lists
        → IsLive S.Store journal.new → OnErr result (IsOf S.Store journal.new lists) }
    ensures crash { let e = keyed_by K.text V.Value.text V.operation_text K.cmp in
        let g = grafting_of F.shape N in
        IsClean S.Store journal.new → (lists : _) → IsOf S.Store journal.old lists
        → (d : Database K V.Value) → Keeps e V.Value.view H.hash_of g database.now d → IsAhead lists d
        → (db : _) → MayLeave S.Store journal.new db
        → Holds db lists ⊎ HoldsLast H.hash_of g db d.last }
{
    let row = row_of(alloc, database)?;
    let start = journal.counts().operations;
    let Some(more) = operations_from(database, start) else {
        return Err(Error::Pruned(Location::new(start)));
    };
    journal.append(more, &row)?;
    Ok(())
}

/// Returns whether `commits`, with the operations that `database` was opened from, are what is stored of it: the last of
/// them has the location, the floor and the root of its last commit, or there is none of either. Allocates nothing.
pub fn is_stored<F: Graftable, H: Hasher, K: Key, V: OrderedCodec<F, K>, const N: usize>(
    commits: &[Commit],
    database: &Ordered<F, H, K, V, N>,
) -> bool
    ensures { let e = keyed_by K.text V.Value.text V.operation_text K.cmp in
        let g = grafting_of F.shape N in
        (d : Database K V.Value) → Keeps e V.Value.view H.hash_of g database.now d → IsCommitted d
        → (lists : _) → lists.operations ≡ d.operations → map commit_of commits.now ≡ lists.commits
        → (IsTrue result ↔ AreListsOf H.hash_of g lists d.last) }
{
    is_last_row(commits.last(), database)
}
