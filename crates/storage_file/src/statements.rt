//! The statements that write, each inside a transaction.

ghost use Rattle.std.specs.Prelude.{◌≡◌, ◌+◌, ◌<◌, ◌≤◌, ◌^◌, [], ◌++◌, ◌∷◌, length, map, OnOk};
ghost use Rattle.sqlite.specs.Held.{state};
ghost use Rattle.sqlite.specs.State.{HasCleanDisk};
ghost use Rattle.storage_file.specs.Kept.{made_new, with_commit};
ghost use Rattle.storage_file.specs.Given.{agreement_of, commit_of};
ghost use Rattle.storage_file.specs.Tables.{HasEmpty, IsMade, IsReady, StaysInside, one_table, two_tables, three_tables};

use crate::agreement::{Agreement, Commit};
use sqlite::{Alter, Error, Transaction, params};

/// The version of the tables and their columns.
pub(crate) const LAYOUT_VERSION: u32 = 1;

fn create_agreed<S: Alter>(tx: &mut Transaction<'_, S>) -> Result<usize, Error>
    ensures same_reference { tx.new.conn.ghost_name ≡ tx.old.conn.ghost_name }
    ensures inside { StaysInside (state S.Store tx.old.conn.now) (state S.Store tx.new.conn.now) }
    ensures made { HasCleanDisk (state S.Store tx.new.conn.now)
        → HasEmpty (state S.Store tx.old.conn.now) []
        → OnOk result (HasEmpty (state S.Store tx.new.conn.now) one_table) }
{
    tx.execute(
        "CREATE TABLE agreed (number INTEGER PRIMARY KEY, version INTEGER NOT NULL, family TEXT NOT NULL, digest TEXT NOT NULL, chunk_size INTEGER NOT NULL, key_encoding TEXT NOT NULL, value_encoding TEXT NOT NULL) STRICT",
        &[],
    )
}

fn create_operations<S: Alter>(tx: &mut Transaction<'_, S>) -> Result<usize, Error>
    ensures same_reference { tx.new.conn.ghost_name ≡ tx.old.conn.ghost_name }
    ensures inside { StaysInside (state S.Store tx.old.conn.now) (state S.Store tx.new.conn.now) }
    ensures made { HasCleanDisk (state S.Store tx.new.conn.now)
        → HasEmpty (state S.Store tx.old.conn.now) one_table
        → OnOk result (HasEmpty (state S.Store tx.new.conn.now) two_tables) }
{
    tx.execute(
        "CREATE TABLE operations (location INTEGER PRIMARY KEY, bytes BLOB NOT NULL) STRICT",
        &[],
    )
}

fn create_commits<S: Alter>(tx: &mut Transaction<'_, S>) -> Result<usize, Error>
    ensures same_reference { tx.new.conn.ghost_name ≡ tx.old.conn.ghost_name }
    ensures inside { StaysInside (state S.Store tx.old.conn.now) (state S.Store tx.new.conn.now) }
    ensures made { HasCleanDisk (state S.Store tx.new.conn.now)
        → HasEmpty (state S.Store tx.old.conn.now) two_tables
        → OnOk result (HasEmpty (state S.Store tx.new.conn.now) three_tables) }
{
    tx.execute(
        "CREATE TABLE commits (number INTEGER PRIMARY KEY, location INTEGER NOT NULL, floor INTEGER NOT NULL, root BLOB NOT NULL) STRICT",
        &[],
    )
}

fn add_agreement<S: Alter>(
    tx: &mut Transaction<'_, S>,
    agreement: &Agreement<'_>,
) -> Result<usize, Error>
    ensures same_reference { tx.new.conn.ghost_name ≡ tx.old.conn.ghost_name }
    ensures inside { StaysInside (state S.Store tx.old.conn.now) (state S.Store tx.new.conn.now) }
    ensures added { HasCleanDisk (state S.Store tx.new.conn.now)
        → HasEmpty (state S.Store tx.old.conn.now) three_tables
        → OnOk result (IsReady (state S.Store tx.new.conn.now) (made_new
        (agreement_of agreement.now))) }
{
    tx.execute(
        "INSERT INTO agreed (number, version, family, digest, chunk_size, key_encoding, value_encoding) VALUES (0, ?1, ?2, ?3, ?4, ?5, ?6)",
        params![
            LAYOUT_VERSION,
            agreement.family,
            agreement.digest,
            agreement.chunk_size,
            agreement.key_encoding,
            agreement.value_encoding
        ],
    )
}

fn add_operation<S: Alter>(
    tx: &mut Transaction<'_, S>,
    location: u64,
    bytes: &[u8],
) -> Result<usize, Error>
    requires { location < 2 ^ 63 }
    ensures same_reference { tx.new.conn.ghost_name ≡ tx.old.conn.ghost_name }
    ensures inside { StaysInside (state S.Store tx.old.conn.now) (state S.Store tx.new.conn.now) }
    ensures added { HasCleanDisk (state S.Store tx.new.conn.now) → (kept : _)
        → IsMade (state S.Store tx.old.conn.now) kept → location ≡ length kept.operations
        → OnOk result (IsMade (state S.Store tx.new.conn.now)
        (record kept { operations = kept.operations ++ bytes.now ∷ [] })) }
{
    tx.execute(
        "INSERT INTO operations (location, bytes) VALUES (?1, ?2)",
        params![location as i64, bytes],
    )
}

pub(crate) fn add_commit<S: Alter>(
    tx: &mut Transaction<'_, S>,
    number: u64,
    commit: &Commit,
) -> Result<usize, Error>
    requires number { number < 2 ^ 63 }
    requires location { commit.now.location < 2 ^ 63 }
    requires floor { commit.now.floor < 2 ^ 63 }
    ensures same_reference { tx.new.conn.ghost_name ≡ tx.old.conn.ghost_name }
    ensures inside { StaysInside (state S.Store tx.old.conn.now) (state S.Store tx.new.conn.now) }
    ensures added { HasCleanDisk (state S.Store tx.new.conn.now) → (kept : _)
        → IsMade (state S.Store tx.old.conn.now) kept → number ≡ length kept.commits
        → OnOk result (IsReady (state S.Store tx.new.conn.now)
        (record kept { commits = kept.commits ++ commit_of commit.now ∷ [] })) }
{
    tx.execute(
        "INSERT INTO commits (number, location, floor, root) VALUES (?1, ?2, ?3, ?4)",
        params![
            number as i64,
            commit.location as i64,
            commit.floor as i64,
            &commit.root
        ],
    )
}

/// Puts the operations in, from this location on.
pub(crate) fn add_operations<S: Alter>(
    tx: &mut Transaction<'_, S>,
    from: u64,
    operations: &[Vec<u8>],
) -> Result<(), Error>
    requires { from + length operations.now ≤ 2 ^ 63 }
    ensures same_reference { tx.new.conn.ghost_name ≡ tx.old.conn.ghost_name }
    ensures inside { StaysInside (state S.Store tx.old.conn.now) (state S.Store tx.new.conn.now) }
    ensures added { HasCleanDisk (state S.Store tx.new.conn.now) → (kept : _)
        → IsMade (state S.Store tx.old.conn.now) kept → from ≡ length kept.operations
        → OnOk result (IsMade (state S.Store tx.new.conn.now)
        (record kept { operations = kept.operations ++ map (λ b. b.items) operations.now })) }
{
    let mut location = from;
    for bytes in operations {
        add_operation(tx, location, bytes)?;
        location += 1;
    }
    Ok(())
}

/// Makes the three tables, and says what was agreed.
pub(crate) fn create_tables<S: Alter>(
    tx: &mut Transaction<'_, S>,
    agreement: &Agreement<'_>,
) -> Result<(), Error>
    ensures same_reference { tx.new.conn.ghost_name ≡ tx.old.conn.ghost_name }
    ensures inside { StaysInside (state S.Store tx.old.conn.now) (state S.Store tx.new.conn.now) }
    ensures made { HasCleanDisk (state S.Store tx.new.conn.now)
        → HasEmpty (state S.Store tx.old.conn.now) []
        → OnOk result (IsReady (state S.Store tx.new.conn.now) (made_new
        (agreement_of agreement.now))) }
{
    create_agreed(tx)?;
    create_operations(tx)?;
    create_commits(tx)?;
    add_agreement(tx, agreement)?;
    Ok(())
}

/// Puts in the operations, from this location on, and then the commit of this number.
pub(crate) fn add_all<S: Alter>(
    tx: &mut Transaction<'_, S>,
    from: u64,
    operations: &[Vec<u8>],
    number: u64,
    commit: &Commit,
) -> Result<(), Error>
    requires room { from + length operations.now ≤ 2 ^ 63 }
    requires number { number < 2 ^ 63 }
    requires location { commit.now.location < 2 ^ 63 }
    requires floor { commit.now.floor < 2 ^ 63 }
    ensures same_reference { tx.new.conn.ghost_name ≡ tx.old.conn.ghost_name }
    ensures inside { StaysInside (state S.Store tx.old.conn.now) (state S.Store tx.new.conn.now) }
    ensures added { HasCleanDisk (state S.Store tx.new.conn.now) → (kept : _)
        → IsMade (state S.Store tx.old.conn.now) kept → from ≡ length kept.operations
        → number ≡ length kept.commits
        → OnOk result (IsReady (state S.Store tx.new.conn.now) (with_commit kept (map
        (λ b. b.items) operations.now) (commit_of commit.now))) }
{
    add_operations(tx, from, operations)?;
    add_commit(tx, number, commit)?;
    Ok(())
}
