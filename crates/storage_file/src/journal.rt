//! The tables of a database with the connection that they stand behind.

ghost use Rattle.std.specs.Prelude.{◌≡◌, ◌≢◌, ◌⊎◌, ◌≤◌, length, map, Err, IfErr, IfOk, IsTrue, OnErr, OnOk};
ghost use Rattle.sqlite.specs.Files.{over_files};
ghost use Rattle.sqlite.specs.Held.{state};
ghost use Rattle.sqlite.specs.State.{HasCleanDisk};
ghost use Rattle.sqlite_catalog.specs.Listing.{IsSound};
ghost use Rattle.storage_file.specs.Contents.{AreContents};
ghost use Rattle.storage_file.specs.Given.{HasRoom, agreement_of, commit_of};
ghost use Rattle.storage_file.specs.Journals.{IsClean, IsLive, IsOf, MayLeave};
ghost use Rattle.storage_file.specs.Kept.{made_new, with_commit};
ghost use Rattle.storage_file.specs.Restart.{OpensFiles};
ghost use Rattle.storage_file.specs.Tables.{Holds, IsBlank, Shows, no_schema};
ghost use Rattle.sqlite.specs.Files.{file_state};

use crate::agreement::{Agreement, Commit};
use crate::contents::{Contents, open};
use crate::error::Error;
use crate::file::is_blank;
use crate::tables::{Counts, append, create};
use sqlite::{Alter, Connection, FileStore, Files};
use sqlite_disk::Disk;
use std::alloc::Global;

/// The operations and the commits of a database, with the connection that keeps them and the counts of both. So each commit
/// goes behind the last one.
#[derive(Drop)]
pub struct Journal<S: Alter> {
    conn: Connection<S>,
    counts: Counts,
}

/// Makes the tables in a database that has none; else reads what they keep.
fn make_or_read<S: Alter>(
    alloc: Global,
    conn: &mut Connection<S>,
    agreement: &Agreement<'_>,
) -> Result<Contents, Error>
    ensures read { HasCleanDisk (state S.Store conn.new) → (kept : _)
        → Shows (state S.Store conn.old) kept → IfOk result (λ it. AreContents it kept) }
    ensures agreed { HasCleanDisk (state S.Store conn.new) → (kept : _)
        → Shows (state S.Store conn.old) kept
        → OnOk result (kept.agreed ≡ agreement_of agreement.now) }
    ensures same { HasCleanDisk (state S.Store conn.new) → (kept : _)
        → Shows (state S.Store conn.old) kept → OnOk result (Shows (state S.Store conn.new) kept) }
    ensures refused { HasCleanDisk (state S.Store conn.new) → (kept : _)
        → Shows (state S.Store conn.old) kept → IfErr result (λ e. (e ≢ Error.Corrupted)
        × (e ≡ Error.Foreign → kept.agreed ≢ agreement_of agreement.now)) }
    ensures left { HasCleanDisk (state S.Store conn.new) → (kept : _)
        → Shows (state S.Store conn.old) kept → IsTrue (state S.Store conn.new).is_open
        → Shows (state S.Store conn.new) kept }
    ensures crash { HasCleanDisk (state S.Store conn.new) → (kept : _)
        → Shows (state S.Store conn.old) kept → (db : _) → (state S.Store conn.new).may_leave db
        → Holds db kept }
    ensures empty { HasCleanDisk (state S.Store conn.new) → IsBlank (state S.Store conn.old)
        → IfOk result (λ it. AreContents it (made_new (agreement_of agreement.now))) }
    ensures made { HasCleanDisk (state S.Store conn.new) → IsBlank (state S.Store conn.old)
        → OnOk result (Shows (state S.Store conn.new) (made_new (agreement_of agreement.now))) }
    ensures blank { HasCleanDisk (state S.Store conn.new) → IsBlank (state S.Store conn.old)
        → IsTrue (state S.Store conn.new).is_open
        → OnErr result (IsBlank (state S.Store conn.new)) }
    ensures begun { HasCleanDisk (state S.Store conn.new) → IsBlank (state S.Store conn.old)
        → (db : _) → (state S.Store conn.new).may_leave db
        → IsSound no_schema db ⊎ Holds db (made_new (agreement_of agreement.now)) }
{
    if is_blank(conn) {
        create(conn, agreement)?;
        return Ok(Contents {
            operations: Vec::new(alloc),
            commits: Vec::new(alloc),
        });
    }
    open(alloc, conn, agreement)
}

impl<S: Alter> Journal<S> {
    /// Makes the tables in a database that has none; else reads what they keep, if what was agreed when they were made is
    /// this. After an error the connection comes back.
    ///
    /// # Errors
    ///
    /// The first of: `Foreign` if the tables were made under another agreement; `Corrupted` if their rows are no
    /// operations and commits; what the database refuses or fails at; `Memory`.
    pub fn open(
        alloc: Global,
        mut conn: Connection<S>,
        agreement: &Agreement<'_>,
    ) -> Result<(Journal<S>, Contents), (Error, Connection<S>)>
        ensures read { IfOk result (λ r. IsClean S.Store r.0 → (kept : _)
            → Shows (state S.Store conn) kept → IsOf S.Store r.0 kept × AreContents r.1 kept
            × (kept.agreed ≡ agreement_of agreement.now)) }
        ensures made { IfOk result (λ r. IsClean S.Store r.0
            → IsBlank (state S.Store conn) → IsOf S.Store r.0 (made_new (agreement_of agreement.now))
            × AreContents r.1 (made_new (agreement_of agreement.now))) }
        ensures refused { IfErr result (λ e. HasCleanDisk (state S.Store e.1) → (kept : _)
            → Shows (state S.Store conn) kept → (e.0 ≢ Error.Corrupted)
            × (e.0 ≡ Error.Foreign → kept.agreed ≢ agreement_of agreement.now)) }
        ensures left { IfErr result (λ e. HasCleanDisk (state S.Store e.1) → (kept : _)
            → Shows (state S.Store conn) kept → IsTrue (state S.Store e.1).is_open
            → Shows (state S.Store e.1) kept) }
        ensures crash { IfErr result (λ e. HasCleanDisk (state S.Store e.1) → (kept : _)
            → Shows (state S.Store conn) kept → (db : _) → (state S.Store e.1).may_leave db
            → Holds db kept) }
        ensures blank { IfErr result (λ e. HasCleanDisk (state S.Store e.1)
            → IsBlank (state S.Store conn) → IsTrue (state S.Store e.1).is_open
            → IsBlank (state S.Store e.1)) }
        ensures begun { IfErr result (λ e. HasCleanDisk (state S.Store e.1)
            → IsBlank (state S.Store conn) → (db : _) → (state S.Store e.1).may_leave db
            → IsSound no_schema db ⊎ Holds db (made_new (agreement_of agreement.now))) }
    {
        match make_or_read(alloc, &mut conn, agreement) {
            Ok(contents) => {
                let counts = Counts {
                    operations: contents.operations.len() as u64,
                    commits: contents.commits.len() as u64,
                };
                Ok((Journal { conn, counts }, contents))
            }
            Err(error) => Err((error, conn)),
        }
    }

    /// Returns how many operations and how many commits there are.
    pub fn counts(&self) -> Counts
        ensures { result ≡ self.now.counts }
    {
        self.counts
    }

    /// Puts the operations and the commit at the end of their lists, all of them or none. After an error the lists are as
    /// they were, unless the disk failed: then what a crash leaves, the lists before or those after, is found when the
    /// database is opened again.
    ///
    /// # Errors
    ///
    /// The first of: `Full` if the number of an operation or of the commit, its location or its floor is 2^63 or more;
    /// what the database refuses or fails at; `Memory`.
    pub fn append(&mut self, operations: &[Vec<u8>], commit: &Commit) -> Result<(), Error>
        ensures added { IsClean S.Store self.new → (all : _)
            → IsOf S.Store self.old all → OnOk result (IsOf S.Store self.new (with_commit all (map
            (λ b. b.items) operations.now) (commit_of commit.now))) }
        ensures durable { IsClean S.Store self.new → (all : _)
            → IsOf S.Store self.old all → OnOk result ((db : _)
            → MayLeave S.Store self.new db → Holds db (with_commit all (map
            (λ b. b.items) operations.now) (commit_of commit.now))) }
        ensures kept { IsClean S.Store self.new → (all : _)
            → IsOf S.Store self.old all → IsLive S.Store self.new
            → OnErr result (IsOf S.Store self.new all) }
        ensures crash { IsClean S.Store self.new → (all : _)
            → IsOf S.Store self.old all → (db : _) → MayLeave S.Store self.new db
            → Holds db all ⊎ Holds db (with_commit all (map (λ b. b.items) operations.now)
            (commit_of commit.now)) }
        ensures counts { OnErr result (self.new.counts ≡ self.old.counts) }
        ensures full { (HasRoom self.old.counts (length operations.now) commit.now → ⊥)
            → result ≡ Err Error.Full }
        ensures why { IfErr result (λ e. e ≡ Error.Full
            → HasRoom self.old.counts (length operations.now) commit.now → ⊥) }
    {
        self.counts = append(&mut self.conn, self.counts, operations, commit)?;
        Ok(())
    }

    /// Gives the connection back.
    pub fn into_connection(self) -> Connection<S>
        ensures { result ≡ self.conn }
    {
        self.conn
    }
}

impl<D: Disk + Drop> Journal<FileStore<D>> {
    /// Closes the tables, and gives the files back: the next open of them shows what the tables show.
    ///
    /// # Errors
    ///
    /// What the database fails at when it copies the log into the database file; `Memory`. What was committed is in the
    /// files then too.
    pub fn close(self) -> Result<Files<D>, (Error, FileStore<D>)>
        ensures { IfOk result (λ files. (all : _) → IsOf over_files self all → (again : _)
            → OpensFiles {g = D.Disk} files again → Shows (file_state again) all) }
    {
        match self.conn.close_files() {
            Ok(files) => Ok(files),
            Err((error, store)) => Err((Error::from(error), store)),
        }
    }
}
