//! The lists of a file, as they are read.

ghost use Rattle.std.specs.Prelude.{◌≡◌, ◌≢◌, ◌≤◌, map, IfOk, OnOk, OnErr, IfErr, IsTrue};
ghost use Rattle.sqlite.specs.Held.{state};
ghost use Rattle.sqlite_trees.specs.View.{doubt};
ghost use Rattle.sqlite.specs.State.{HasCleanDisk};
ghost use Rattle.storage_file.specs.Contents.{AreContents};
ghost use Rattle.storage_file.specs.Given.{agreement_of, commit_of};
ghost use Rattle.storage_file.specs.Tables.{Holds, Shows};

use crate::agreement::{Agreement, Commit};
use crate::error::Error;
use crate::queries::{agreed_rows, commit_rows, operation_rows};
use crate::rows::{commits_from, operations_from, test_agreement};
use sqlite::{Alter, Connection};
use std::alloc::Global;

/// What a file keeps: the operations from location 0 on, and the commits.
#[derive(Debug, Drop, PartialEq, Eq)]
pub struct Contents {
    /// The bytes of each operation.
    pub operations: Vec<Vec<u8>>,
    /// The commits, the first one first.
    pub commits: Vec<Commit>,
}

/// The operations.
fn read_operations<S: Alter>(alloc: Global, conn: &mut Connection<S>) -> Result<Vec<Vec<u8>>, Error>
    ensures clean { doubt (state S.Store conn.old).is_clean ≤ doubt
        (state S.Store conn.new).is_clean }
    ensures read { HasCleanDisk (state S.Store conn.new) → (kept : _)
        → Shows (state S.Store conn.old) kept
        → IfOk result (λ all. map (λ b. b.items) all.items ≡ kept.operations) }
    ensures refused { HasCleanDisk (state S.Store conn.new) → (kept : _)
        → Shows (state S.Store conn.old) kept → IfErr result (λ e. (e ≢ Error.Corrupted)
        × (e ≢ Error.Foreign)) }
    ensures same { HasCleanDisk (state S.Store conn.new) → (kept : _)
        → Shows (state S.Store conn.old) kept → OnOk result (Shows (state S.Store conn.new) kept) }
    ensures left { HasCleanDisk (state S.Store conn.new) → (kept : _)
        → Shows (state S.Store conn.old) kept → IsTrue (state S.Store conn.new).is_open
        → Shows (state S.Store conn.new) kept }
    ensures crash { HasCleanDisk (state S.Store conn.new) → (kept : _)
        → Shows (state S.Store conn.old) kept → (db : _) → (state S.Store conn.new).may_leave db
        → Holds db kept }
{
    let rows = operation_rows(conn)?;
    operations_from(alloc, &rows)
}

/// The commits.
fn read_commits<S: Alter>(alloc: Global, conn: &mut Connection<S>) -> Result<Vec<Commit>, Error>
    ensures clean { doubt (state S.Store conn.old).is_clean ≤ doubt
        (state S.Store conn.new).is_clean }
    ensures read { HasCleanDisk (state S.Store conn.new) → (kept : _)
        → Shows (state S.Store conn.old) kept
        → IfOk result (λ all. map commit_of all.items ≡ kept.commits) }
    ensures refused { HasCleanDisk (state S.Store conn.new) → (kept : _)
        → Shows (state S.Store conn.old) kept → IfErr result (λ e. (e ≢ Error.Corrupted)
        × (e ≢ Error.Foreign)) }
    ensures same { HasCleanDisk (state S.Store conn.new) → (kept : _)
        → Shows (state S.Store conn.old) kept → OnOk result (Shows (state S.Store conn.new) kept) }
    ensures left { HasCleanDisk (state S.Store conn.new) → (kept : _)
        → Shows (state S.Store conn.old) kept → IsTrue (state S.Store conn.new).is_open
        → Shows (state S.Store conn.new) kept }
    ensures crash { HasCleanDisk (state S.Store conn.new) → (kept : _)
        → Shows (state S.Store conn.old) kept → (db : _) → (state S.Store conn.new).may_leave db
        → Holds db kept }
{
    let rows = commit_rows(conn)?;
    commits_from(alloc, &rows)
}

/// Tests that what was agreed is this.
pub(crate) fn compare_agreement<S: Alter>(
    conn: &mut Connection<S>,
    agreement: &Agreement<'_>,
) -> Result<(), Error>
    ensures clean { doubt (state S.Store conn.old).is_clean ≤ doubt
        (state S.Store conn.new).is_clean }
    ensures agreed { HasCleanDisk (state S.Store conn.new) → (kept : _)
        → Shows (state S.Store conn.old) kept
        → OnOk result (kept.agreed ≡ agreement_of agreement.now) }
    ensures refused { HasCleanDisk (state S.Store conn.new) → (kept : _)
        → Shows (state S.Store conn.old) kept → IfErr result (λ e. (e ≢ Error.Corrupted)
        × (e ≡ Error.Foreign → kept.agreed ≢ agreement_of agreement.now)) }
    ensures same { HasCleanDisk (state S.Store conn.new) → (kept : _)
        → Shows (state S.Store conn.old) kept → OnOk result (Shows (state S.Store conn.new) kept) }
    ensures left { HasCleanDisk (state S.Store conn.new) → (kept : _)
        → Shows (state S.Store conn.old) kept → IsTrue (state S.Store conn.new).is_open
        → Shows (state S.Store conn.new) kept }
    ensures crash { HasCleanDisk (state S.Store conn.new) → (kept : _)
        → Shows (state S.Store conn.old) kept → (db : _) → (state S.Store conn.new).may_leave db
        → Holds db kept }
{
    let rows = agreed_rows(conn)?;
    test_agreement(&rows, agreement)
}

/// Reads the operations and the commits.
pub(crate) fn read_in<S: Alter>(alloc: Global, conn: &mut Connection<S>) -> Result<Contents, Error>
    ensures clean { doubt (state S.Store conn.old).is_clean ≤ doubt
        (state S.Store conn.new).is_clean }
    ensures read { HasCleanDisk (state S.Store conn.new) → (kept : _)
        → Shows (state S.Store conn.old) kept → IfOk result (λ it. AreContents it kept) }
    ensures refused { HasCleanDisk (state S.Store conn.new) → (kept : _)
        → Shows (state S.Store conn.old) kept → IfErr result (λ e. (e ≢ Error.Corrupted)
        × (e ≢ Error.Foreign)) }
    ensures same { HasCleanDisk (state S.Store conn.new) → (kept : _)
        → Shows (state S.Store conn.old) kept → OnOk result (Shows (state S.Store conn.new) kept) }
    ensures left { HasCleanDisk (state S.Store conn.new) → (kept : _)
        → Shows (state S.Store conn.old) kept → IsTrue (state S.Store conn.new).is_open
        → Shows (state S.Store conn.new) kept }
    ensures crash { HasCleanDisk (state S.Store conn.new) → (kept : _)
        → Shows (state S.Store conn.old) kept → (db : _) → (state S.Store conn.new).may_leave db
        → Holds db kept }
{
    let operations = read_operations(alloc, conn)?;
    let commits = read_commits(alloc, conn)?;
    Ok(Contents {
        operations,
        commits,
    })
}

/// Reads what a file keeps, if what was agreed when it was made is this.
///
/// # Errors
///
/// The first of: `Foreign` if the file was made under another agreement; `Corrupted` if the rows are no operations and
/// commits; what the database refuses or fails at; `Memory`.
pub fn open<S: Alter>(
    alloc: Global,
    conn: &mut Connection<S>,
    agreement: &Agreement<'_>,
) -> Result<Contents, Error>
    ensures clean { doubt (state S.Store conn.old).is_clean ≤ doubt
        (state S.Store conn.new).is_clean }
    ensures read { HasCleanDisk (state S.Store conn.new) → (kept : _)
        → Shows (state S.Store conn.old) kept → IfOk result (λ it. AreContents it kept) }
    ensures agreed { HasCleanDisk (state S.Store conn.new) → (kept : _)
        → Shows (state S.Store conn.old) kept
        → OnOk result (kept.agreed ≡ agreement_of agreement.now) }
    ensures refused { HasCleanDisk (state S.Store conn.new) → (kept : _)
        → Shows (state S.Store conn.old) kept → IfErr result (λ e. (e ≢ Error.Corrupted)
        × (e ≡ Error.Foreign → kept.agreed ≢ agreement_of agreement.now)) }
    ensures same { HasCleanDisk (state S.Store conn.new) → (kept : _)
        → Shows (state S.Store conn.old) kept → OnOk result (Shows (state S.Store conn.new) kept) }
    ensures left { HasCleanDisk (state S.Store conn.new) → (kept : _)
        → Shows (state S.Store conn.old) kept → IsTrue (state S.Store conn.new).is_open
        → Shows (state S.Store conn.new) kept }
    ensures crash { HasCleanDisk (state S.Store conn.new) → (kept : _)
        → Shows (state S.Store conn.old) kept → (db : _) → (state S.Store conn.new).may_leave db
        → Holds db kept }
{
    compare_agreement(conn, agreement)?;
    let contents = read_in(alloc, conn)?;
    Ok(contents)
}
