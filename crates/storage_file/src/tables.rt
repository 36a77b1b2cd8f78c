//! What is written to the tables of a file, each time in one transaction.

ghost use Rattle.std.specs.Prelude.{◌≡◌, ◌+◌, ◌<◌, ◌≤◌, ◌^◌, length, map, IsTrue, IfOk, IfErr, OnOk, OnErr, Err, ◌⊎◌};
ghost use Rattle.sqlite.specs.Held.{state};
ghost use Rattle.sqlite.specs.State.{HasCleanDisk};
ghost use Rattle.sqlite_catalog.specs.Listing.{IsSound};
ghost use Rattle.storage_file.specs.Kept.{made_new, with_commit};
ghost use Rattle.storage_file.specs.Given.{HasRoom, Counted, agreement_of, commit_of};
ghost use Rattle.storage_file.specs.Tables.{Holds, IsBlank, Shows, no_schema};

use crate::agreement::{Agreement, Commit};
use crate::error::Error;
use crate::statements::{add_all, create_tables};
use sqlite::{Alter, Connection, Error as SqlError, ErrorCode};

const IN_TRANSACTION: SqlError = SqlError::SqliteFailure(ErrorCode::TransactionState);

/// A number below this one can be stored, 2^63.
const LIMIT: u64 = 1 << 63;

/// How many operations and how many commits the tables have.
#[derive(Clone, Copy, Debug, PartialEq, Eq)]
pub struct Counts {
    /// The operations, which is the location of the next one.
    pub operations: u64,
    /// The commits, which is the number of the next one.
    pub commits: u64,
}

/// Makes the tables in a database that has none, with no operation and no commit. After an error it has none, unless the
/// disk failed: then what a crash leaves is found when it is opened again.
///
/// # Errors
///
/// What the database refuses or fails at, as a connection that is in a transaction; `Memory`.
pub fn create<S: Alter>(conn: &mut Connection<S>, agreement: &Agreement<'_>) -> Result<(), Error>
    ensures made { HasCleanDisk (state S.Store conn.new) → IsBlank (state S.Store conn.old)
        → OnOk result (Shows (state S.Store conn.new) (made_new (agreement_of agreement.now))) }
    ensures kept { HasCleanDisk (state S.Store conn.new) → IsBlank (state S.Store conn.old)
        → IsTrue (state S.Store conn.new).is_open
        → OnErr result (IsBlank (state S.Store conn.new)) }
    ensures crash { HasCleanDisk (state S.Store conn.new) → IsBlank (state S.Store conn.old)
        → (db : _) → (state S.Store conn.new).may_leave db
        → IsSound no_schema db ⊎ Holds db (made_new (agreement_of agreement.now)) }
{
    if !conn.is_autocommit() {
        return Err(Error::Store(IN_TRANSACTION));
    }
    let mut tx = conn.transaction();
    create_tables(&mut tx, agreement)?;
    tx.commit()?;
    Ok(())
}

/// Whether the operations and the commit have numbers that can be stored.
fn has_room(so_far: Counts, operations: usize, commit: &Commit) -> bool
    ensures yes { IsTrue result → HasRoom so_far operations commit.now }
    ensures no { HasRoom so_far operations commit.now → IsTrue result }
{
    so_far.operations <= LIMIT
        && operations as u64 <= LIMIT - so_far.operations
        && so_far.commits < LIMIT
        && commit.location < LIMIT
        && commit.floor < LIMIT
}

/// Puts the operations and the commit at the end of their lists, all of them or none.
fn append_in<S: Alter>(
    conn: &mut Connection<S>,
    so_far: Counts,
    operations: &[Vec<u8>],
    commit: &Commit,
) -> Result<(), SqlError>
    requires { HasRoom so_far (length operations.now) commit.now }
    ensures added { HasCleanDisk (state S.Store conn.new) → (all : _)
        → Shows (state S.Store conn.old) all → Counted so_far all
        → OnOk result (Shows (state S.Store conn.new) (with_commit all (map
        (λ b. b.items) operations.now) (commit_of commit.now))) }
    ensures kept { HasCleanDisk (state S.Store conn.new) → (all : _)
        → Shows (state S.Store conn.old) all → Counted so_far all
        → IsTrue (state S.Store conn.new).is_open
        → OnErr result (Shows (state S.Store conn.new) all) }
    ensures crash { HasCleanDisk (state S.Store conn.new) → (all : _)
        → Shows (state S.Store conn.old) all → Counted so_far all
        → (db : _) → (state S.Store conn.new).may_leave db → Holds db all
        ⊎ Holds db (with_commit all (map (λ b. b.items) operations.now) (commit_of commit.now)) }
{
    if !conn.is_autocommit() {
        return Err(IN_TRANSACTION);
    }
    let mut tx = conn.transaction();
    add_all(
        &mut tx,
        so_far.operations,
        operations,
        so_far.commits,
        commit,
    )?;
    tx.commit()?;
    Ok(())
}

/// Puts the operations and the commit at the end of their lists, all of them or none, and answers how many there are then.
/// `so_far` is how many there are before. After an error the lists are as they were, unless the disk failed: then what
/// a crash leaves, the lists before or those after, is found when the database is opened again.
///
/// # Errors
///
/// The first of: `Full` if the number of an operation or of the commit, its location or its floor is 2^63 or more; what
/// the database refuses or fails at; `Memory`.
pub fn append<S: Alter>(
    conn: &mut Connection<S>,
    so_far: Counts,
    operations: &[Vec<u8>],
    commit: &Commit,
) -> Result<Counts, Error>
    ensures added { HasCleanDisk (state S.Store conn.new) → (all : _)
        → Shows (state S.Store conn.old) all → Counted so_far all
        → OnOk result (Shows (state S.Store conn.new) (with_commit all (map
        (λ b. b.items) operations.now) (commit_of commit.now))) }
    ensures counted { (all : _) → Counted so_far all
        → IfOk result (λ now. Counted now (with_commit all (map (λ b. b.items) operations.now)
        (commit_of commit.now))) }
    ensures durable { HasCleanDisk (state S.Store conn.new) → (all : _)
        → Shows (state S.Store conn.old) all → Counted so_far all
        → OnOk result ((db : _) → (state S.Store conn.new).may_leave db
        → Holds db (with_commit all (map (λ b. b.items) operations.now) (commit_of commit.now))) }
    ensures kept { HasCleanDisk (state S.Store conn.new) → (all : _)
        → Shows (state S.Store conn.old) all → Counted so_far all
        → IsTrue (state S.Store conn.new).is_open
        → OnErr result (Shows (state S.Store conn.new) all) }
    ensures crash { HasCleanDisk (state S.Store conn.new) → (all : _)
        → Shows (state S.Store conn.old) all → Counted so_far all
        → (db : _) → (state S.Store conn.new).may_leave db → Holds db all
        ⊎ Holds db (with_commit all (map (λ b. b.items) operations.now) (commit_of commit.now)) }
    ensures full { (HasRoom so_far (length operations.now) commit.now → ⊥)
        → result ≡ Err Error.Full }
    ensures why { IfErr result (λ e. e ≡ Error.Full
        → HasRoom so_far (length operations.now) commit.now → ⊥) }
{
    if !has_room(so_far, operations.len(), commit) {
        return Err(Error::Full);
    }
    append_in(conn, so_far, operations, commit)?;
    Ok(Counts {
        operations: so_far.operations + operations.len() as u64,
        commits: so_far.commits + 1,
    })
}
