//! The commits of a database, stored in memory and opened again.

use crate::kept::{execute, in_memory};
use sqlite::{Alter, Connection, Error as SqlError, ErrorCode, MemStore};
use std::alloc::Global;
use std::test::Fail;
use storage_codec::codec::FixedBytes;
use storage_codec::digest::Sha256;
use storage_db::db::Ordered;
use storage_file::{Agreement, Commit, Contents, Error as FileError, Journal};
use storage_merkle::merkle::mmr;
use storage_ops::qmdb::any::FixedEncoding;
use storage_stored::{is_stored, store_commit};

type Key = FixedBytes<4>;

type Database = Ordered<mmr::Family, Sha256, Key, FixedEncoding<u64>, 1>;

type Error = storage_stored::Error<mmr::Family>;

/// What a database answers: the root of its last commit, how many keys there are, values of now and of the last commit.
type Answers = (Option<FixedBytes<32>>, usize, [Option<u64>; 4]);

const AGREEMENT: Agreement<'static> = Agreement {
    family: "mmr",
    digest: "sha256",
    chunk_size: 1,
    key_encoding: "fixed 4",
    value_encoding: "fixed 8",
};

fn key(number: u8) -> Key {
    FixedBytes {
        bytes: [0, 0, 0, number],
    }
}

/// Opens a journal, and drops the connection where that is refused.
fn journal<S: Alter + Drop>(
    alloc: Global,
    conn: Connection<S>,
) -> Result<(Journal<S>, Contents), FileError> {
    match Journal::open(alloc, conn, &AGREEMENT) {
        Ok(opened) => Ok(opened),
        Err((error, _)) => Err(error),
    }
}

/// Opens the database whose commits a connection keeps, and tells whether its last commit is the one that is stored.
fn open<S: Alter + Drop>(
    alloc: Global,
    conn: Connection<S>,
) -> Result<(Journal<S>, Database, bool), Fail> {
    let (journal, contents) = journal(alloc, conn)?;
    let Contents {
        operations,
        commits,
    } = contents;
    let database = Database::open(alloc, operations, &())?;
    let stored = is_stored(&commits, &database);
    Ok((journal, database, stored))
}

/// Puts a value.
fn put(database: &mut Database, number: u8, value: u64) -> Result<(), Fail> {
    database.put(key(number), value)?;
    Ok(())
}

/// Commits what has been put and deleted.
fn commit(database: &mut Database, metadata: Option<u64>) -> Result<(), Fail> {
    database.commit(metadata)?;
    Ok(())
}

/// Stores the last commit.
fn store<S: Alter>(
    alloc: Global,
    journal: &mut Journal<S>,
    database: &Database,
) -> Result<(), Error> {
    store_commit(alloc, journal, database)
}

/// Makes the first commit, of two keys.
fn first_commit(database: &mut Database) -> Result<(), Fail> {
    put(database, 5, 7)?;
    put(database, 9, 8)?;
    commit(database, Some(1))
}

/// Makes the second commit, of one key that is taken out and one that is new.
fn second_commit(database: &mut Database) -> Result<(), Fail> {
    database.delete(&key(9))?;
    put(database, 2, 3)?;
    commit(database, None)
}

/// Makes both commits, and stores each.
fn store_both<S: Alter>(
    alloc: Global,
    journal: &mut Journal<S>,
    database: &mut Database,
) -> Result<(), Fail> {
    first_commit(database)?;
    store(alloc, journal, database)?;
    second_commit(database)?;
    store(alloc, journal, database)?;
    Ok(())
}

/// A database that has made both commits, and a journal that has stored them.
fn filled<S: Alter + Drop>(
    alloc: Global,
    conn: Connection<S>,
) -> Result<(Journal<S>, Database), Fail> {
    let (mut journal, mut database, _) = open(alloc, conn)?;
    store_both(alloc, &mut journal, &mut database)?;
    Ok((journal, database))
}

/// A connection that keeps both commits.
fn filled_connection(alloc: Global) -> Result<Connection<MemStore>, Fail> {
    let (journal, _) = filled(alloc, in_memory(alloc)?)?;
    Ok(journal.into_connection())
}

/// Returns the value of the key of `number`.
fn value(database: &Database, number: u8) -> Option<u64> {
    database.get(&key(number)).copied()
}

/// Returns the value that it had at the last commit.
fn committed(database: &Database, number: u8) -> Option<u64> {
    database.get_committed(&key(number)).copied()
}

/// Returns what a database answers.
fn answers(database: &Database) -> Answers {
    let values = [
        value(database, 2),
        value(database, 4),
        committed(database, 5),
        committed(database, 9),
    ];
    (database.root(), database.len(), values)
}

/// Returns whether these are the answers of the database of both commits, to which nothing was put since.
fn are_of_both(alloc: Global, found: &Answers) -> Result<bool, Fail> {
    let mut database = Database::new(alloc);
    first_commit(&mut database)?;
    second_commit(&mut database)?;
    Ok(*found == (database.root(), 2, [Some(3), None, Some(7), None]))
}

/// Returns what the database that a connection keeps answers, and whether its last commit is the one that is stored.
fn kept_answers<S: Alter + Drop>(
    alloc: Global,
    conn: Connection<S>,
) -> Result<(Journal<S>, Answers, bool), Fail> {
    let (journal, database, stored) = open(alloc, conn)?;
    Ok((journal, answers(&database), stored))
}

/// Tells whether a connection keeps both commits, and nothing that was put since.
fn has_both(alloc: Global, conn: Connection<MemStore>) -> Result<bool, Fail> {
    let (_, found, stored) = kept_answers(alloc, conn)?;
    Ok(stored && are_of_both(alloc, &found)?)
}

#[test]
fn stored_commits_come_back(rt: HostRuntime) -> Result<(), Fail> {
    let alloc = rt.alloc();
    let (journal, mut database) = filled(alloc, in_memory(alloc)?)?;
    put(&mut database, 4, 4)?;
    assert!(rt; has_both(alloc, journal.into_connection())?);
    Ok(())
}

/// Puts to the empty database, and tries to store a commit. Returns whether it was as it is stored before, and what the try came to.
fn stored_without_commit(alloc: Global) -> Result<(bool, Result<(), Error>), Fail> {
    let (mut journal, mut database, stored) = open(alloc, in_memory(alloc)?)?;
    put(&mut database, 5, 7)?;
    Ok((stored, store(alloc, &mut journal, &database)))
}

/// Returns whether a row is that of the last commit of the empty database.
fn is_of_nothing(alloc: Global) -> Result<bool, Fail> {
    let commit = Commit {
        location: 0,
        floor: 0,
        root: Vec::from_slice(alloc, b"root")?,
    };
    Ok(is_stored(&vec![in alloc; commit]?, &Database::new(alloc)))
}

#[test]
fn nothing_is_stored_of_no_commit(rt: HostRuntime) -> Result<(), Fail> {
    let (stored, refused) = stored_without_commit(rt.alloc())?;
    assert!(rt; stored);
    assert_eq!(rt; refused, Err(Error::NotCommitted));
    assert!(rt; !is_of_nothing(rt.alloc())?);
    Ok(())
}

/// Whether the last commit is still the one that is stored, after a statement.
fn stored_after(alloc: Global, statement: &str) -> Result<bool, Fail> {
    let mut conn = filled_connection(alloc)?;
    execute(&mut conn, statement)?;
    let (_, _, stored) = open(alloc, conn)?;
    Ok(stored)
}

#[test]
fn another_last_row_is_told(rt: HostRuntime) -> Result<(), Fail> {
    let statements = [
        "UPDATE commits SET root = x'00' WHERE number = 1",
        "UPDATE commits SET floor = 0 WHERE number = 1",
        "UPDATE commits SET location = 0 WHERE number = 1",
        "DELETE FROM commits WHERE number = 1",
        "DELETE FROM commits",
    ];
    for statement in statements {
        assert!(rt; !stored_after(rt.alloc(), statement)?);
    }
    assert!(rt; stored_after(rt.alloc(), "DELETE FROM commits WHERE number = 9")?);
    Ok(())
}

/// Makes a third commit, and tries to store it.
fn store_third(
    alloc: Global,
    conn: Connection<MemStore>,
) -> Result<(Journal<MemStore>, Result<(), Error>), Fail> {
    let (mut journal, mut database, _) = open(alloc, conn)?;
    put(&mut database, 4, 4)?;
    commit(&mut database, None)?;
    let refused = store(alloc, &mut journal, &database);
    Ok((journal, refused))
}

#[test]
fn a_refused_commit_leaves_the_one_before(rt: HostRuntime) -> Result<(), Fail> {
    let alloc = rt.alloc();
    let mut conn = filled_connection(alloc)?;
    // no commit is stored within another's transaction
    execute(&mut conn, "BEGIN")?;
    let (journal, refused) = store_third(alloc, conn)?;
    let within = SqlError::SqliteFailure(ErrorCode::TransactionState);
    assert_eq!(rt; refused, Err(Error::Store(within)));
    let mut conn = journal.into_connection();
    execute(&mut conn, "ROLLBACK")?;
    assert!(rt; has_both(alloc, conn)?);
    Ok(())
}
