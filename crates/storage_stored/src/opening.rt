//! Databases that are made of operations: those of a file, and those of one that goes back to its last commit.

ghost use Rattle.std.specs.Prelude.{◌≡◌, option_map, take, IfErr, IfOk, IfSome, IsTrue};
ghost use Rattle.storage_bitmap.specs.Chunks.{IsChunkSize};
ghost use Rattle.storage_current.specs.Keys.{keyed_by};
ghost use Rattle.storage_current.specs.Snapshots.{grafting_of};
ghost use Rattle.storage_db.specs.Databases.{Database, empty, run};
ghost use Rattle.storage_db.specs.Kept.{Keeps};
ghost use Rattle.storage_db.specs.Opening.{IsOpened, ReadsAs, ReadsCommand};
ghost use Rattle.storage_file.specs.Contents.{AreContents};
ghost use Rattle.storage_stored.specs.Opened.{IsReadRefused};
ghost use Rattle.storage_stored.specs.Stored.{AreListsOf, IsAt};

use crate::commits::Tables;
use crate::error::Error;
use crate::store::is_stored;
use sqlite::Alter;
use std::alloc::Global;
use std::mem;
use storage_codec::digest::{Digest, Hasher};
use storage_db::db::{Ordered, OrderedCodec};
use storage_file::Contents;
use storage_merkle::merkle::{Graftable, Location};
use storage_ops::qmdb::operation::Key;

/// The database whose operations were read from these tables, if the last row is that of its last commit.
///
/// # Errors
///
/// The first of: `Corrupted` if the operations are those of no database that has committed them all, or the last row is
/// another; `Memory`.
pub(crate) fn read<
    F: Graftable,
    H: Hasher,
    K: Key,
    V: OrderedCodec<F, K>,
    const N: usize,
    S: Alter,
>(
    alloc: Global,
    contents: Contents,
    tables: &Tables<S, V::ReadCfg, N>,
) -> Result<Ordered<F, H, K, V, N>, Error<F>>
where
    V::ReadCfg: Drop,
    ensures opened { let e = keyed_by K.text V.Value.text V.operation_text K.cmp in
        let g = grafting_of F.shape N in
        let reads = ReadsCommand (ReadsAs (V.operation_parse tables.now.cfg) V.operation_view)
        (λ k v n. record { key = k; value = v; next_key = n }) in
        IfOk result (λ it. (lists : _) → AreContents contents lists
        → (opened : IsOpened e reads V.Value.view H.hash_of g lists.operations it)
        × AreListsOf H.hash_of g lists (run e empty opened.commands).last) }
    ensures refused { let e = keyed_by K.text V.Value.text V.operation_text K.cmp in
        let g = grafting_of F.shape N in
        let reads = ReadsCommand (ReadsAs (V.operation_parse tables.now.cfg) V.operation_view)
        (λ k v n. record { key = k; value = v; next_key = n }) in
        IfErr result (λ error. (lists : _) → AreContents contents lists
        → IsReadRefused e reads H.hash_of g lists error) }
{
    let Contents {
        operations,
        commits,
    } = contents;
    let database = Ordered::open(alloc, operations, &tables.cfg)?;
    if !is_stored(&commits, &database) {
        return Err(Error::Corrupted);
    }
    Ok(database)
}

/// A commit that is stored: how many operations there are up to it, its floor and its root; no floor and no root before the
/// first commit.
#[derive(Drop)]
pub(crate) struct Mark<F: Graftable, H: Hasher> {
    operations: u64,
    floor: Option<Location<F>>,
    root: Option<H::Digest>,
}

/// The last commit of a database, up to which there are so many operations.
pub(crate) fn mark_of<F: Graftable, H: Hasher, K: Key, V: OrderedCodec<F, K>, const N: usize>(
    database: &Ordered<F, H, K, V, N>,
    operations: u64,
) -> Mark<F, H>
    ensures count { result.operations ≡ operations }
    ensures at { let e = keyed_by K.text V.Value.text V.operation_text K.cmp in
        let g = grafting_of F.shape N in
        (d : Database K V.Value) → Keeps e V.Value.view H.hash_of g database.now d
        → IsAt H.hash_of g result.floor (option_map H.Digest.text result.root) d.last }
{
    Mark {
        operations,
        floor: database.floor(),
        root: database.root(),
    }
}

/// Whether both are one location, or none.
fn are_one_location<F: Graftable>(left: Option<Location<F>>, right: Option<Location<F>>) -> bool
    ensures { IsTrue result → left ≡ right }
{
    match (left, right) {
        (Some(left), Some(right)) => left.as_u64() == right.as_u64(),
        (None, None) => true,
        _ => false,
    }
}

/// Whether both are one digest, or none.
fn are_one_digest<D: Digest>(left: Option<D>, right: Option<D>) -> bool
    ensures { IsTrue result → option_map D.text left ≡ option_map D.text right }
{
    match (left, right) {
        (Some(left), Some(right)) => left == right,
        (None, None) => true,
        _ => false,
    }
}

/// Whether the last commit of a database has the floor and the root of a mark.
fn is_at<F: Graftable, H: Hasher, K: Key, V: OrderedCodec<F, K>, const N: usize>(
    database: &Ordered<F, H, K, V, N>,
    mark: &Mark<F, H>,
) -> bool
    ensures { let e = keyed_by K.text V.Value.text V.operation_text K.cmp in
        let g = grafting_of F.shape N in
        IsTrue result → (d : Database K V.Value) → Keeps e V.Value.view H.hash_of g database.now d
        → IsAt H.hash_of g mark.now.floor (option_map H.Digest.text mark.now.root) d.last }
{
    are_one_location(mark.floor, database.floor()) && are_one_digest(mark.root, database.root())
}

/// The database of the operations up to a mark, if none is forgotten, they are read again, and it has the floor and the root
/// of the mark.
fn back<F: Graftable, H: Hasher, K: Key, V: OrderedCodec<F, K>, const N: usize>(
    alloc: Global,
    database: Ordered<F, H, K, V, N>,
    mark: &Mark<F, H>,
    cfg: &V::ReadCfg,
) -> Option<Ordered<F, H, K, V, N>>
    requires { IsChunkSize N }
    ensures { let e = keyed_by K.text V.Value.text V.operation_text K.cmp in
        let g = grafting_of F.shape N in
        let reads = ReadsCommand (ReadsAs (V.operation_parse cfg.now) V.operation_view)
        (λ k v n. record { key = k; value = v; next_key = n }) in
        (d : Database K V.Value) → Keeps e V.Value.view H.hash_of g database d
        → IfSome result (λ it.
        (opened : IsOpened e reads V.Value.view H.hash_of g (take mark.now.operations d.operations) it)
        × IsAt H.hash_of g mark.now.floor (option_map H.Digest.text mark.now.root)
        (run e empty opened.commands).last) }
{
    if database.pruned() > 0 {
        return None;
    }
    let mut operations = database.into_operations();
    operations.truncate(mark.operations as usize);
    let Ok(database) = Ordered::open(alloc, operations, cfg) else {
        return None;
    };
    if !is_at(&database, mark) {
        return None;
    }
    Some(database)
}

/// Makes a database that of the operations up to a mark; an empty one, and false, if they are not read again, or have
/// another floor or root than the mark.
pub(crate) fn go_back<F: Graftable, H: Hasher, K: Key, V: OrderedCodec<F, K>, const N: usize>(
    alloc: Global,
    database: &mut Ordered<F, H, K, V, N>,
    mark: &Mark<F, H>,
    cfg: &V::ReadCfg,
) -> bool
    requires { IsChunkSize N }
    ensures { let e = keyed_by K.text V.Value.text V.operation_text K.cmp in
        let g = grafting_of F.shape N in
        let reads = ReadsCommand (ReadsAs (V.operation_parse cfg.now) V.operation_view)
        (λ k v n. record { key = k; value = v; next_key = n }) in
        IsTrue result → (d : Database K V.Value) → Keeps e V.Value.view H.hash_of g database.old d
        → (opened : IsOpened e reads V.Value.view H.hash_of g (take mark.now.operations d.operations)
        database.new) × IsAt H.hash_of g mark.now.floor (option_map H.Digest.text mark.now.root)
        (run e empty opened.commands).last }
{
    let after = mem::replace(database, Ordered::new(alloc));
    let Some(before) = back(alloc, after, mark, cfg) else {
        return false;
    };
    *database = before;
    true
}
