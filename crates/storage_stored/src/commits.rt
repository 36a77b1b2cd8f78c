//! A commit that is made in memory and stored, or taken back.

ghost use Rattle.std.specs.Prelude.{◌≡◌, ◌⊎◌, false, true, IfErr, OnErr, OnOk};
ghost use Rattle.storage_bitmap.specs.Chunks.{IsChunkSize};
ghost use Rattle.storage_current.specs.Keys.{keyed_by};
ghost use Rattle.storage_current.specs.Snapshots.{grafting_of};
ghost use Rattle.storage_db.specs.Databases.{Database, Commit as Committing, done};
ghost use Rattle.storage_db.specs.Opening.{ReadsAs, ReadsCommand};
ghost use Rattle.storage_file.specs.Journals.{IsClean, IsLive, MayLeave};
ghost use Rattle.storage_stored.specs.Opened.{IsBack};
ghost use Rattle.storage_stored.specs.Refusals.{IsChangeRefused};
ghost use Rattle.storage_stored.specs.Stored.{HoldsLast, IsStoredDone, ShowsLast, Stores};

use crate::error::Error;
use crate::opening::{go_back, mark_of};
use crate::store::store_commit;
use sqlite::Alter;
use std::alloc::Global;
use storage_codec::digest::Hasher;
use storage_db::db::{Ordered, OrderedCodec};
use storage_file::Journal;
use storage_merkle::merkle::Graftable;
use storage_ops::qmdb::operation::Key;

/// The tables of a stored database of chunks of `N` bytes, what the reader of an operation is told, and what the database
/// still does.
#[derive(Drop)]
pub(crate) struct Tables<S: Alter, C: Drop, const N: usize> {
    pub(crate) journal: Journal<S>,
    pub(crate) cfg: C,
    /// It takes no more changes.
    pub(crate) is_stopped: bool,
    /// It answers nothing, since its last commit could not be made again. The database in memory is empty then.
    pub(crate) is_lost: bool,
    ghost sized: { IsChunkSize N },
}

/// Commits, and stores the commit. Where that fails the database goes back to its last commit, and takes no more changes.
///
/// # Errors
///
/// The first of: `Stopped` after a commit that was not stored; `Full`; `Store`; `Memory`.
pub(crate) fn commit<
    F: Graftable,
    H: Hasher,
    K: Key,
    V: OrderedCodec<F, K>,
    const N: usize,
    S: Alter,
>(
    alloc: Global,
    tables: &mut Tables<S, V::ReadCfg, N>,
    database: &mut Ordered<F, H, K, V, N>,
    metadata: Option<V::Value>,
) -> Result<(), Error<F>>
where
    V::ReadCfg: Drop,
    ensures ok { let e = keyed_by K.text V.Value.text V.operation_text K.cmp in
        IsClean S.Store tables.new.journal → OnOk result (IsStoredDone e V.Value.view H.hash_of
        (grafting_of F.shape N) S.Store tables.old.journal database.old tables.new.journal database.new
        (Committing metadata)) }
    ensures durable { let e = keyed_by K.text V.Value.text V.operation_text K.cmp in
        let g = grafting_of F.shape N in
        IsClean S.Store tables.new.journal → OnOk result ((d : Database K V.Value)
        → Stores e V.Value.view H.hash_of g S.Store tables.old.journal database.old d
        → (db : _) → MayLeave S.Store tables.new.journal db
        → HoldsLast H.hash_of g db (done e d (Committing metadata)).last) }
    ensures kept { let e = keyed_by K.text V.Value.text V.operation_text K.cmp in
        let g = grafting_of F.shape N in
        IsClean S.Store tables.new.journal → IsLive S.Store tables.new.journal → OnErr result
        ((d : Database K V.Value)
        → Stores e V.Value.view H.hash_of g S.Store tables.old.journal database.old d
        → ShowsLast H.hash_of g S.Store tables.new.journal d.last) }
    ensures crash { let e = keyed_by K.text V.Value.text V.operation_text K.cmp in
        let g = grafting_of F.shape N in
        IsClean S.Store tables.new.journal → (d : Database K V.Value)
        → Stores e V.Value.view H.hash_of g S.Store tables.old.journal database.old d
        → (db : _) → MayLeave S.Store tables.new.journal db → HoldsLast H.hash_of g db d.last
        ⊎ HoldsLast H.hash_of g db (done e d (Committing metadata)).last }
    ensures serves { OnOk result ((tables.old.is_stopped ≡ false)
        × (tables.new.is_stopped ≡ false) × (tables.new.is_lost ≡ tables.old.is_lost)) }
    ensures why { let e = keyed_by K.text V.Value.text V.operation_text K.cmp in
        IfErr result (λ error. ((tables.old.is_stopped ≡ false) × (tables.new.is_stopped ≡ true))
        ⊎ ((database.new ≡ database.old) × (tables.new ≡ tables.old)
        × IsChangeRefused e V.Value.view H.hash_of (grafting_of F.shape N) tables.old.is_stopped
        database.old (Committing metadata) error)) }
    ensures back { let e = keyed_by K.text V.Value.text V.operation_text K.cmp in
        let g = grafting_of F.shape N in
        let reads = ReadsCommand (ReadsAs (V.operation_parse tables.old.cfg) V.operation_view)
        (λ k v n. record { key = k; value = v; next_key = n }) in
        OnErr result (tables.old.is_stopped ≡ false → tables.new.is_stopped ≡ true
        → tables.new.is_lost ≡ false → (d : Database K V.Value)
        → Stores e V.Value.view H.hash_of g S.Store tables.old.journal database.old d
        → IsBack e reads H.hash_of g V.Value.view S.Store d.last tables.new.journal database.new) }
{
    if tables.is_stopped {
        return Err(Error::Stopped);
    }
    let mark = mark_of(database, tables.journal.counts().operations);
    database.commit(metadata)?;
    match store_commit(alloc, &mut tables.journal, database) {
        Ok(()) => Ok(()),
        Err(error) => {
            tables.is_stopped = true;
            tables.is_lost = !go_back(alloc, database, &mark, &tables.cfg);
            Err(error)
        }
    }
}
