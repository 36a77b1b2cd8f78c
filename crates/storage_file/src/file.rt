//! From one run to the next, over files.

ghost use Rattle.std.specs.Prelude.{◌≡◌, ◌⊎◌, length, map, IsTrue, IfOk};
ghost use Rattle.sqlite.specs.Held.{state};
ghost use Rattle.sqlite.specs.State.{HasCleanDisk};
ghost use Rattle.sqlite.specs.Files.{file_state, image_of, HoldsDatabase};
ghost use Rattle.sqlite_trees.specs.View.{IsClean};
ghost use Rattle.sqlite_store.specs.FileStore.{view};
ghost use Rattle.storage_file.specs.Given.{Counted, commit_of};
ghost use Rattle.storage_file.specs.Kept.{with_commit};
ghost use Rattle.storage_file.specs.Restart.{MayBeLeft, OpensOn};
ghost use Rattle.storage_file.specs.Tables.{Holds, IsBlank, Shows, no_schema};

use crate::agreement::Commit;
use crate::tables::{Counts, append};
use sqlite::{Alter, Connection, Error, FileStore, Files, Leftover, Options};
use sqlite_disk::Disk;
use std::alloc::Global;

/// Opens the files of a database, or makes one where they hold none. Files that hold the tables show what they keep.
///
/// # Errors
///
/// Those of `Connection::open_files`, with what is left of the files.
pub fn open_files<D: Disk + Drop>(
    alloc: Global,
    files: Files<D>,
    options: Options,
) -> Result<Connection<FileStore<D>>, (Error, Leftover<D>)>
    requires log { IsTrue (D.Disk.is_usable files.log) }
    requires db { IsTrue (D.Disk.is_usable files.db) }
    ensures found { IfOk result (λ c. HasCleanDisk (file_state c) → (db : _)
        → HoldsDatabase (image_of D.Disk files) db → (kept : _) → Holds db kept
        → Shows (file_state c) kept) }
    ensures blank { IfOk result (λ c. HasCleanDisk (file_state c)
        → (file_state c).now.schema ≡ no_schema → IsBlank (file_state c)) }
{
    Connection::open_files(alloc, files, options)
}

/// Whether a database has no table yet.
pub fn is_blank<S: Alter>(conn: &Connection<S>) -> bool
    ensures yes { IsTrue result → (state S.Store conn.now).now.schema ≡ no_schema }
    ensures no { (state S.Store conn.now).now.schema ≡ no_schema → IsTrue result }
{
    let schema = conn.schema();
    schema.tables.is_empty() && schema.indexes.is_empty() && schema.views.is_empty()
}

/// Appends a commit, and ends the run. Whatever a crash leaves of the files by then, the next open finds the lists before
/// the commit or those after it.
pub fn append_and_stop<D: Disk + Drop>(
    mut conn: Connection<FileStore<D>>,
    so_far: Counts,
    operations: &[Vec<u8>],
    commit: &Commit,
) -> FileStore<D>
    ensures { IsClean (view result) → (all : _) → Shows (file_state conn) all → Counted so_far all
        → (left : _) → MayBeLeft result left → (again : _) → OpensOn {g = D.Disk} left again
        → ∥ Shows (file_state again) all
        ⊎ Shows (file_state again) (with_commit all (map (λ b. b.items) operations.now)
        (commit_of commit.now)) ∥₁ }
{
    let _ = append(&mut conn, so_far, operations, commit);
    conn.into_store()
}
