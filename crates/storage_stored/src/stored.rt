//! The database that keeps its commits.

ghost use Rattle.std.specs.Prelude.{◌≡◌, ◌⊎◌, Option, false, true, is_some, IfErr, IfOk, IsTrue, OnErr, OnOk};
ghost use Rattle.sqlite.specs.Files.{file_state, over_files};
ghost use Rattle.sqlite.specs.Held.{state};
ghost use Rattle.sqlite.specs.State.{HasCleanDisk};
ghost use Rattle.storage_bitmap.specs.Chunks.{IsChunkSize};
ghost use Rattle.storage_current.specs.Keys.{keyed_by};
ghost use Rattle.storage_current.specs.Snapshots.{grafting_of};
ghost use Rattle.storage_db.specs.Databases.{Committed, Database, Put, Delete, Commit as Committing, active_at, done, empty};
ghost use Rattle.storage_db.specs.Kept.{Keeps};
ghost use Rattle.storage_db.specs.Opening.{ReadsAs, ReadsCommand};
ghost use Rattle.storage_file.specs.Given.{agreement_of};
ghost use Rattle.storage_file.specs.Journals.{IsClean, IsLive, MayLeave};
ghost use Rattle.storage_file.specs.Restart.{OpensFiles};
ghost use Rattle.storage_file.specs.Tables.{Holds, IsBlank, Shows};
ghost use Rattle.storage_stored.specs.Compacted.{IsCompactRefused, IsStoredCompacted};
ghost use Rattle.storage_stored.specs.Opened.{IsBack, IsNotOpened, IsOpenedOf};
ghost use Rattle.storage_stored.specs.Refusals.{IsChangeRefused, IsServed};
ghost use Rattle.storage_stored.specs.Stored.{AreListsOf, HoldsLast, IsStoredDone, ShowsLast, Stores};

use crate::commits::{Tables, commit};
use crate::compacting::{CompactError, compact};
use crate::error::Error;
use crate::opening::read;
use sqlite::{Alter, Connection, FileStore, Files};
use sqlite_disk::Disk;
use std::alloc::Global;
use storage_codec::digest::Hasher;
use storage_db::db::{Ordered, OrderedCodec};
use storage_file::{Agreement, Journal};
use storage_merkle::merkle::Graftable;
use storage_ops::qmdb::operation::Key;

/// A map of keys to values that proves what it has committed, and keeps its commits in the tables behind a connection of
/// `sqlite`. What has been put and deleted since the last commit is in memory alone.
///
/// `F` is the family of the trees, `H` the digest function, `V` the encoding of the values, `N` the bytes of a chunk of
/// bits, `S` what the connection stands over. After each refusal the database is as it was, unless a commit was not
/// stored. Then it goes back to its last commit, and takes no more changes until it is opened again: so it tells no root that
/// the tables do not have.
#[derive(Drop)]
pub struct Stored<F: Graftable, H: Hasher, K: Key, V: OrderedCodec<F, K>, const N: usize, S: Alter>
where
    V::ReadCfg: Drop,
{
    alloc: Global,
    tables: Tables<S, V::ReadCfg, N>,
    database: Ordered<F, H, K, V, N>,
}

impl<F: Graftable, H: Hasher, K: Key, V: OrderedCodec<F, K>, const N: usize, S: Alter> Stored<
    F,
    H,
    K,
    V,
    N,
    S,
>
where
    V::ReadCfg: Drop,
{
    /// Opens the database whose commits a connection keeps; of a connection with no table the empty one, whose tables it
    /// makes. The operations are compared with what their commands append, and the last commit with its row: its location,
    /// its floor and its root. The reader of an operation is told `cfg`. After an error the connection comes back.
    ///
    /// # Errors
    ///
    /// The first of: `Foreign` if the tables were made under another agreement; `Corrupted` if they keep no database, or
    /// another root than its own; `Store` with what the connection refuses or fails at; `Memory`.
    pub fn open(
        alloc: Global,
        conn: Connection<S>,
        agreement: &Agreement<'_>,
        cfg: V::ReadCfg,
    ) -> Result<Self, (Error<F>, Connection<S>)>
        requires { IsChunkSize N }
        ensures opened { let e = keyed_by K.text V.Value.text V.operation_text K.cmp in
            let g = grafting_of F.shape N in
            let reads = ReadsCommand (ReadsAs (V.operation_parse cfg) V.operation_view)
            (λ k v n. record { key = k; value = v; next_key = n }) in
            IfOk result (λ it. IsClean S.Store it.tables.journal → (lists : _)
            → Shows (state S.Store conn) lists → (lists.agreed ≡ agreement_of agreement.now)
            × IsOpenedOf e reads H.hash_of g V.Value.view S.Store lists.operations it.tables.journal it.database) }
        ensures made { let e = keyed_by K.text V.Value.text V.operation_text K.cmp in
            let g = grafting_of F.shape N in
            IfOk result (λ it. IsClean S.Store it.tables.journal → IsBlank (state S.Store conn)
            → Stores e V.Value.view H.hash_of g S.Store it.tables.journal it.database empty) }
        ensures refused { let e = keyed_by K.text V.Value.text V.operation_text K.cmp in
            let g = grafting_of F.shape N in
            let reads = ReadsCommand (ReadsAs (V.operation_parse cfg) V.operation_view)
            (λ k v n. record { key = k; value = v; next_key = n }) in
            IfErr result (λ error. HasCleanDisk (state S.Store error.1) → (lists : _)
            → Shows (state S.Store conn) lists
            → IsNotOpened e reads H.hash_of g lists (agreement_of agreement.now) error.0) }
        ensures left { IfErr result (λ error. HasCleanDisk (state S.Store error.1) → (lists : _)
            → Shows (state S.Store conn) lists → IsTrue (state S.Store error.1).is_open
            → Shows (state S.Store error.1) lists) }
        ensures crash { IfErr result (λ error. HasCleanDisk (state S.Store error.1) → (lists : _)
            → Shows (state S.Store conn) lists → (db : _) → (state S.Store error.1).may_leave db
            → Holds db lists) }
        ensures serves { IfOk result (λ it. (it.tables.cfg ≡ cfg) × (it.tables.is_stopped ≡ false)
            × (it.tables.is_lost ≡ false)) }
    {
        let (journal, contents) = match Journal::open(alloc, conn, agreement) {
            Ok(opened) => opened,
            Err((error, conn)) => return Err((Error::from(error), conn)),
        };
        let tables = Tables {
            journal,
            cfg,
            is_stopped: false,
            is_lost: false,
        };
        match read(alloc, contents, &tables) {
            Ok(database) => Ok(Stored {
                alloc,
                tables,
                database,
            }),
            Err(error) => Err((error, tables.journal.into_connection())),
        }
    }

    /// Gives `key` the value `value`, in memory: the next commit keeps it.
    ///
    /// # Errors
    ///
    /// The first of: `Stopped` after a commit that was not stored; `Full` if the operations with the one or two that are
    /// appended would pass 2^62; `Memory`.
    pub fn put(&mut self, key: K, value: V::Value) -> Result<(), Error<F>>
        ensures ok { let e = keyed_by K.text V.Value.text V.operation_text K.cmp in
            OnOk result (IsStoredDone e V.Value.view H.hash_of (grafting_of F.shape N) S.Store
            self.old.tables.journal self.old.database self.new.tables.journal self.new.database (Put key value)) }
        ensures same { self.new.tables ≡ self.old.tables }
        ensures serves { OnOk result (self.old.tables.is_stopped ≡ false) }
        ensures err { OnErr result (self.new ≡ self.old) }
        ensures why { let e = keyed_by K.text V.Value.text V.operation_text K.cmp in
            IfErr result (IsChangeRefused e V.Value.view H.hash_of (grafting_of F.shape N)
            self.old.tables.is_stopped self.old.database (Put key value)) }
    {
        if self.tables.is_stopped {
            return Err(Error::Stopped);
        }
        self.database.put(key, value)?;
        Ok(())
    }

    /// Takes `key` out, in memory: the next commit keeps that. Whether it had a value; where it had none nothing changes,
    /// and nothing but `Stopped` is refused.
    ///
    /// # Errors
    ///
    /// The first of: `Stopped` after a commit that was not stored; and where the key has a value `Full` if the operations
    /// with the one or two that are appended would pass 2^62; `Memory`.
    pub fn delete(&mut self, key: &K) -> Result<bool, Error<F>>
        ensures ok { let e = keyed_by K.text V.Value.text V.operation_text K.cmp in
            OnOk result (IsStoredDone e V.Value.view H.hash_of (grafting_of F.shape N) S.Store
            self.old.tables.journal self.old.database self.new.tables.journal self.new.database
            (Delete key.now)) }
        ensures answer { let e = keyed_by K.text V.Value.text V.operation_text K.cmp in
            IfOk result (λ was. (d : Database K V.Value)
            → Keeps e V.Value.view H.hash_of (grafting_of F.shape N) self.old.database d
            → was ≡ is_some (active_at e d.entries key.now)) }
        ensures active { let e = keyed_by K.text V.Value.text V.operation_text K.cmp in
            OnErr result (self.old.tables.is_stopped ≡ false → (d : Database K V.Value)
            → Keeps e V.Value.view H.hash_of (grafting_of F.shape N) self.old.database d
            → is_some (active_at e d.entries key.now) ≡ true) }
        ensures same { self.new.tables ≡ self.old.tables }
        ensures serves { OnOk result (self.old.tables.is_stopped ≡ false) }
        ensures err { OnErr result (self.new ≡ self.old) }
        ensures why { let e = keyed_by K.text V.Value.text V.operation_text K.cmp in
            IfErr result (IsChangeRefused e V.Value.view H.hash_of (grafting_of F.shape N)
            self.old.tables.is_stopped self.old.database (Delete key.now)) }
    {
        if self.tables.is_stopped {
            return Err(Error::Stopped);
        }
        let was = self.database.delete(key)?;
        Ok(was)
    }

    /// Puts the oldest active update again, in memory, at most `count` times, so that the floor of the next commit rises: the
    /// next commit keeps them. Each key keeps its value. Returns how many updates were put again: fewer than `count` only if
    /// all that stood among the operations at the call have been.
    ///
    /// # Errors
    ///
    /// Those put again before stay so, and the oldest active update then stands where it did. The first of:
    /// `Refused(Stopped)` after a commit that was not stored; `Refused(Full)` if there are 2^62 operations already; `NotRead`
    /// with its location if no update of its key is read there; `Refused(Memory)`, which may come before that is found.
    pub fn compact(&mut self, count: u64) -> Result<u64, CompactError<F>>
        ensures ok { let e = keyed_by K.text V.Value.text V.operation_text K.cmp in
            let g = grafting_of F.shape N in
            IfOk result (λ moved. (d : Database K V.Value)
            → Keeps e V.Value.view H.hash_of g self.old.database d
            → IsStoredCompacted e V.Value.view H.hash_of g S.Store self.new.tables.journal d count
            self.new.database moved) }
        ensures same { self.new.tables ≡ self.old.tables }
        ensures serves { OnOk result (self.old.tables.is_stopped ≡ false) }
        ensures why { let e = keyed_by K.text V.Value.text V.operation_text K.cmp in
            let g = grafting_of F.shape N in
            let reads = ReadsCommand (ReadsAs (V.operation_parse self.old.tables.cfg) V.operation_view)
            (λ k v n. record { key = k; value = v; next_key = n }) in
            IfErr result (IsCompactRefused e V.Value.view H.hash_of g S.Store reads
            self.old.tables.is_stopped self.new.tables.journal self.old.database count self.new.database) }
    {
        compact(&self.tables, &mut self.database, count)
    }

    /// Commits what has been put and deleted since the last commit, with `metadata` as the value of the commit, and stores
    /// it: the operations since the last commit and the row of this one, in one transaction. Where that fails the database
    /// goes back to its last commit, answers from it, and takes no more changes until it is opened again.
    ///
    /// # Errors
    ///
    /// The first of: `Stopped` after a commit that was not stored; `Full` if there are 2^62 operations already; `Store`
    /// with what the connection refuses or fails at; `Memory`.
    pub fn commit(&mut self, metadata: Option<V::Value>) -> Result<(), Error<F>>
        ensures ok { let e = keyed_by K.text V.Value.text V.operation_text K.cmp in
            IsClean S.Store self.new.tables.journal → OnOk result (IsStoredDone e V.Value.view H.hash_of
            (grafting_of F.shape N) S.Store self.old.tables.journal self.old.database self.new.tables.journal
            self.new.database (Committing metadata)) }
        ensures durable { let e = keyed_by K.text V.Value.text V.operation_text K.cmp in
            let g = grafting_of F.shape N in
            IsClean S.Store self.new.tables.journal → OnOk result ((d : Database K V.Value)
            → Stores e V.Value.view H.hash_of g S.Store self.old.tables.journal self.old.database d
            → (db : _) → MayLeave S.Store self.new.tables.journal db
            → HoldsLast H.hash_of g db (done e d (Committing metadata)).last) }
        ensures kept { let e = keyed_by K.text V.Value.text V.operation_text K.cmp in
            let g = grafting_of F.shape N in
            IsClean S.Store self.new.tables.journal → IsLive S.Store self.new.tables.journal → OnErr result
            ((d : Database K V.Value)
            → Stores e V.Value.view H.hash_of g S.Store self.old.tables.journal self.old.database d
            → ShowsLast H.hash_of g S.Store self.new.tables.journal d.last) }
        ensures crash { let e = keyed_by K.text V.Value.text V.operation_text K.cmp in
            let g = grafting_of F.shape N in
            IsClean S.Store self.new.tables.journal → (d : Database K V.Value)
            → Stores e V.Value.view H.hash_of g S.Store self.old.tables.journal self.old.database d
            → (db : _) → MayLeave S.Store self.new.tables.journal db → HoldsLast H.hash_of g db d.last
            ⊎ HoldsLast H.hash_of g db (done e d (Committing metadata)).last }
        ensures serves { OnOk result ((self.old.tables.is_stopped ≡ false)
            × (self.new.tables.is_stopped ≡ false)
            × (self.new.tables.is_lost ≡ self.old.tables.is_lost)) }
        ensures why { let e = keyed_by K.text V.Value.text V.operation_text K.cmp in
            IfErr result (λ error. ((self.old.tables.is_stopped ≡ false)
            × (self.new.tables.is_stopped ≡ true)) ⊎ ((self.new.database ≡ self.old.database)
            × (self.new.tables ≡ self.old.tables) × IsChangeRefused e V.Value.view H.hash_of
            (grafting_of F.shape N) self.old.tables.is_stopped self.old.database
            (Committing metadata) error)) }
        ensures back { let e = keyed_by K.text V.Value.text V.operation_text K.cmp in
            let g = grafting_of F.shape N in
            let reads = ReadsCommand (ReadsAs (V.operation_parse self.old.tables.cfg) V.operation_view)
            (λ k v n. record { key = k; value = v; next_key = n }) in
            OnErr result (self.old.tables.is_stopped ≡ false → self.new.tables.is_stopped ≡ true
            → self.new.tables.is_lost ≡ false → (d : Database K V.Value)
            → Stores e V.Value.view H.hash_of g S.Store self.old.tables.journal self.old.database d
            → IsBack e reads H.hash_of g V.Value.view S.Store d.last self.new.tables.journal self.new.database) }
    {
        commit(self.alloc, &mut self.tables, &mut self.database, metadata)
    }

    /// Returns the database in memory, which answers: what it has now, and its last commit, with that one's root and proofs,
    /// which the tables show. Allocates nothing. `Stopped` if the last commit could not be made again after one that was not
    /// stored.
    pub fn database(&self) -> Result<&Ordered<F, H, K, V, N>, Error<F>>
        ensures kept { IfOk result (λ it. it.now ≡ self.now.database) }
        ensures served { IsServed self.now.tables.is_lost result }
    {
        if self.tables.is_lost {
            return Err(Error::Stopped);
        }
        Ok(&self.database)
    }

    /// Gives the connection back. What has been put and deleted since the last commit is forgotten.
    pub fn into_connection(self) -> Connection<S>
        ensures { result ≡ self.tables.journal.conn }
    {
        self.tables.journal.into_connection()
    }
}

impl<F: Graftable, H: Hasher, K: Key, V: OrderedCodec<F, K>, const N: usize, D: Disk + Drop> Stored<
    F,
    H,
    K,
    V,
    N,
    FileStore<D>,
>
where
    V::ReadCfg: Drop,
{
    /// Closes the database, and gives its files back: the next open of them shows its last commit. What has been put and
    /// deleted since is forgotten.
    ///
    /// # Errors
    ///
    /// The first of: `Store` with what fails when the log is copied into the database file; `Memory`. What was committed is
    /// in the files then too.
    pub fn close(self) -> Result<Files<D>, (Error<F>, FileStore<D>)>
        ensures { let g = grafting_of F.shape N in
            IfOk result (λ files. (last : Option (Committed K V.Value))
            → ShowsLast H.hash_of g over_files self.tables.journal last → (again : _)
            → OpensFiles {g = D.Disk} files again → (lists : _) × Shows (file_state again) lists
            × AreListsOf H.hash_of g lists last) }
    {
        let tables = self.tables;
        match tables.journal.close() {
            Ok(files) => Ok(files),
            Err((error, store)) => Err((Error::from(error), store)),
        }
    }
}
