//! Databases that keep their commits, in memory and in a file, opened again.

use crate::kept::{
    Change, Kept, Last, Refusal, close, compact, connection, execute, in_memory, open, open_file,
};
use sqlite::{Connection, Error as SqlError, ErrorCode, MemStore};
use std::alloc::Global;
use std::fs;
use std::test::Fail;
use storage_codec::codec::FixedBytes;

/// The root of both commits of `fill`, from tools/database.py, which makes each snapshot anew.
const ROOT: FixedBytes<32> = FixedBytes {
    bytes: [
        0x20, 0x97, 0x6d, 0x4a, 0x54, 0xe5, 0xe5, 0xc8, 0xa7, 0xa7, 0x78, 0x0c, 0x8b, 0x59, 0xfd,
        0x38, 0xa2, 0x56, 0x5d, 0x66, 0x2f, 0xd8, 0x0b, 0xdf, 0x47, 0xfc, 0x3a, 0xe5, 0x2b, 0x39,
        0x78, 0x38,
    ],
};

/// Makes changes one after another, and tells of the last one whether its key had a value.
fn change_all<D: Kept>(database: &mut D, changes: &[Change]) -> Result<bool, Refusal> {
    let mut had = false;
    for change in changes {
        had = database.change(*change)?;
    }
    Ok(had)
}

/// Commits two keys with their values, then takes one of them out and commits that. Returns whether it had a value.
fn fill<D: Kept>(database: &mut D) -> Result<bool, Refusal> {
    let two = [Change::Put(5, 7), Change::Put(9, 8), Change::Commit];
    change_all(database, &two)?;
    let had = database.change(Change::Delete(9))?;
    database.change(Change::Commit)?;
    Ok(had)
}

/// Returns a connection that keeps both commits, and whether the key that was taken out had a value.
fn filled(alloc: Global) -> Result<(Connection<MemStore>, bool), Fail> {
    let mut database = open(alloc, in_memory(alloc)?)?;
    let had = fill(&mut database)?;
    Ok((connection(database), had))
}

/// Returns the root of the database of a connection.
fn root_of(alloc: Global, conn: Connection<MemStore>) -> Result<Last, Refusal> {
    open(alloc, conn)?.root()
}

#[test]
fn a_database_comes_back(rt: HostRuntime) -> Result<(), Fail> {
    let (conn, had) = filled(rt.alloc())?;
    assert!(rt; had);
    assert_eq!(rt; root_of(rt.alloc(), conn)?, Some(ROOT));
    Ok(())
}

/// What becomes of a database whose commit is not stored: the connection, why the commit was refused, why the next put, and the
/// root that is told.
type Stopped = (
    Connection<MemStore>,
    Result<bool, Refusal>,
    Result<bool, Refusal>,
    Last,
);

fn stopped(alloc: Global, conn: Connection<MemStore>) -> Result<Stopped, Refusal> {
    let mut database = open(alloc, conn)?;
    database.change(Change::Put(2, 3))?;
    let refused = database.change(Change::Commit);
    let next = database.change(Change::Put(2, 3));
    // nothing but want of memory keeps it from going back
    let told = database.root().or(Err(Refusal::Memory))?;
    Ok((connection(database), refused, next, told))
}

#[test]
fn a_commit_that_is_not_stored_stops_the_database(rt: HostRuntime) -> Result<(), Fail> {
    let alloc = rt.alloc();
    let (mut conn, _) = filled(alloc)?;
    // no commit is stored within another's transaction
    execute(&mut conn, "BEGIN")?;
    let (mut conn, refused, next, told) = stopped(alloc, conn)?;
    let within = SqlError::SqliteFailure(ErrorCode::TransactionState);
    assert_eq!(rt; refused, Err(Refusal::Store(within)));
    assert_eq!(rt; next, Err(Refusal::Stopped));
    assert_eq!(rt; told, Some(ROOT));
    execute(&mut conn, "ROLLBACK")?;
    assert_eq!(rt; root_of(alloc, conn)?, Some(ROOT));
    Ok(())
}

/// Puts the oldest active update again and commits. Returns how many were put again, and the root.
fn compacted(alloc: Global) -> Result<(u64, Last), Fail> {
    let (conn, _) = filled(alloc)?;
    let mut database = open(alloc, conn)?;
    let moved = compact(&mut database, 1)?;
    database.change(Change::Commit)?;
    Ok((moved, database.root()?))
}

/// Puts the same value again and commits. Returns the root.
fn put_again(alloc: Global) -> Result<Last, Fail> {
    let (conn, _) = filled(alloc)?;
    let mut database = open(alloc, conn)?;
    change_all(&mut database, &[Change::Put(5, 7), Change::Commit])?;
    Ok(database.root()?)
}

#[test]
fn the_oldest_update_is_put_again(rt: HostRuntime) -> Result<(), Fail> {
    let (moved, root) = compacted(rt.alloc())?;
    assert_eq!(rt; moved, 1);
    assert_eq!(rt; root, put_again(rt.alloc())?);
    Ok(())
}

/// Makes both commits in a new file, and closes it.
fn fill_file(rt: &HostRuntime, path: &str) -> Result<(), Refusal> {
    let mut database = open_file(rt, path)?;
    fill(&mut database)?;
    close(database)
}

/// Returns the root of the database of a file.
fn root_of_file(rt: &HostRuntime, path: &str) -> Result<Last, Refusal> {
    open_file(rt, path)?.root()
}

#[test]
fn a_database_comes_back_from_a_file(rt: HostRuntime) -> Result<(), Fail> {
    let _ = fs::remove_dir_all(&rt, "databases_test");
    fs::create_dir(&rt, "databases_test")?;
    fill_file(&rt, "databases_test/a.db")?;
    assert_eq!(rt; root_of_file(&rt, "databases_test/a.db")?, Some(ROOT));
    fs::remove_dir_all(&rt, "databases_test")?;
    Ok(())
}
