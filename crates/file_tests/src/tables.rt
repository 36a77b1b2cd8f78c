//! Each call once on its happy path, each refusal, and a file that is closed and opened again. The calls stand in functions of their
//! own, without a contract, so that a test which makes several has none of their clauses to carry.

use crate::files::{Work, comes_back};
use crate::journals;
use sqlite::{Alter, Connection, Constraint, Error as SqlError, ErrorCode, MemStore};
use sqlite_resolve::CompileError;
use std::alloc::{AllocError, Global};
use std::test::Fail;
use storage_file::{
    Agreement, Commit, Contents, Counts, Error, Journal, append, create, is_blank, open,
};

/// What the tests agree on.
pub(crate) const AGREEMENT: Agreement<'static> = Agreement {
    family: "mmr",
    digest: "sha256",
    chunk_size: 32,
    key_encoding: "fixed 8",
    value_encoding: "fixed 32",
};

const NONE: Counts = Counts {
    operations: 0,
    commits: 0,
};

/// How much `written` has.
pub(crate) const WRITTEN: Counts = Counts {
    operations: 3,
    commits: 2,
};

/// A commit with a root of its own.
pub(crate) fn commit_at(
    alloc: Global,
    location: u64,
    floor: u64,
    root: &[u8],
) -> Result<Commit, AllocError> {
    Ok(Commit {
        location,
        floor,
        root: Vec::from_slice(alloc, root)?,
    })
}

/// Two operations and their commit, and a third one and its own.
pub(crate) fn written(alloc: Global) -> Result<Contents, Error> {
    let put = Vec::from_slice(alloc, b"put")?;
    let third = Vec::from_slice(alloc, b"third")?;
    let first_commit = commit_at(alloc, 1, 0, b"root of two")?;
    let second_commit = commit_at(alloc, 2, 1, b"root of three")?;
    Ok(Contents {
        operations: vec![in alloc; put, Vec::new(alloc), third]?,
        commits: vec![in alloc; first_commit, second_commit]?,
    })
}

/// Makes the tables.
fn make<S: Alter>(conn: &mut Connection<S>) -> Result<(), Error> {
    create(conn, &AGREEMENT)
}

/// Adds a commit of `operations` to lists of these lengths.
fn add<S: Alter>(
    conn: &mut Connection<S>,
    counts: Counts,
    operations: &[Vec<u8>],
    commit: &Commit,
) -> Result<Counts, Error> {
    append(conn, counts, operations, commit)
}

/// Reads the lists.
fn read<S: Alter>(
    alloc: Global,
    conn: &mut Connection<S>,
    agreement: &Agreement<'_>,
) -> Result<Contents, Error> {
    open(alloc, conn, agreement)
}

/// Runs a statement.
pub(crate) fn execute<S: Alter>(conn: &mut Connection<S>, statement: &str) -> Result<(), SqlError> {
    conn.execute(statement, &[])?;
    Ok(())
}

/// Makes the tables, and adds both commits of `written`.
fn fill<S: Alter>(alloc: Global, conn: &mut Connection<S>) -> Result<Counts, Error> {
    make(conn)?;
    let contents = written(alloc)?;
    let (before, after) = contents
        .operations
        .split_at(2.min(contents.operations.len()));
    match contents.commits.as_slice() {
        [first, second] => {
            let counts = add(conn, NONE, before, first)?;
            add(conn, counts, after, second)
        }
        _ => Ok(NONE),
    }
}

/// Returns an empty database in memory.
pub(crate) fn in_memory(alloc: Global) -> Result<Connection<MemStore>, AllocError> {
    Connection::open_in_memory(alloc)
}

/// Returns a database in memory that `fill` has filled.
fn filled(alloc: Global) -> Result<Connection<MemStore>, Error> {
    let mut conn = in_memory(alloc)?;
    fill(alloc, &mut conn)?;
    Ok(conn)
}

/// Returns whether the lists are those of `written`.
fn is_filled<S: Alter>(alloc: Global, conn: &mut Connection<S>) -> Result<bool, Error> {
    Ok(read(alloc, conn, &AGREEMENT)? == written(alloc)?)
}

#[test]
fn lists_come_back(rt: HostRuntime) -> Result<(), Fail> {
    let mut conn = in_memory(rt.alloc())?;
    assert!(rt; is_blank(&conn));
    assert_eq!(rt; fill(rt.alloc(), &mut conn)?, WRITTEN);
    assert!(rt; !is_blank(&conn));
    assert!(rt; is_filled(rt.alloc(), &mut conn)?);
    Ok(())
}

/// Adds a fourth operation and its commit to the lists.
fn add_fourth(
    alloc: Global,
    conn: &mut Connection<MemStore>,
    counts: Counts,
    floor: u64,
) -> Result<Counts, Error> {
    let operations = vec![in alloc; Vec::from_slice(alloc, b"fourth")?]?;
    add(
        conn,
        counts,
        &operations,
        &commit_at(alloc, 3, floor, b"root")?,
    )
}

#[test]
fn refusals_leave_the_lists(rt: HostRuntime) -> Result<(), Fail> {
    let mut conn = filled(rt.alloc())?;
    let large = add_fourth(rt.alloc(), &mut conn, WRITTEN, 1 << 63);
    assert_eq!(rt; large, Err(Error::Full));
    assert!(rt; is_filled(rt.alloc(), &mut conn)?);
    let taken = ErrorCode::ConstraintViolation(Constraint::PrimaryKey);
    let again = add_fourth(rt.alloc(), &mut conn, NONE, 1);
    assert_eq!(rt; again, Err(Error::Store(SqlError::SqliteFailure(taken))));
    assert!(rt; is_filled(rt.alloc(), &mut conn)?);
    let taken = SqlError::SqlInputError(CompileError::Exists);
    assert_eq!(rt; make(&mut conn), Err(Error::Store(taken)));
    assert!(rt; is_filled(rt.alloc(), &mut conn)?);
    Ok(())
}

#[test]
fn another_agreement_is_foreign(rt: HostRuntime) -> Result<(), Fail> {
    let mut conn = filled(rt.alloc())?;
    let others = [
        Agreement {
            family: "mmb",
            ..AGREEMENT
        },
        Agreement {
            digest: "sha512",
            ..AGREEMENT
        },
        Agreement {
            chunk_size: 64,
            ..AGREEMENT
        },
        Agreement {
            key_encoding: "fixed 9",
            ..AGREEMENT
        },
        Agreement {
            value_encoding: "bytes",
            ..AGREEMENT
        },
    ];
    for other in &others {
        let refused = read(rt.alloc(), &mut conn, other);
        assert_eq!(rt; refused.err(), Some(Error::Foreign));
    }
    execute(&mut conn, "UPDATE agreed SET version = 2")?;
    let refused = read(rt.alloc(), &mut conn, &AGREEMENT);
    assert_eq!(rt; refused.err(), Some(Error::Foreign));
    Ok(())
}

/// What opening is refused for after a statement.
fn refused_after(alloc: Global, statement: &str) -> Result<Option<Error>, Error> {
    let mut conn = filled(alloc)?;
    execute(&mut conn, statement)?;
    Ok(read(alloc, &mut conn, &AGREEMENT).err())
}

#[test]
fn other_rows_are_corrupted(rt: HostRuntime) -> Result<(), Fail> {
    let statements = [
        "DELETE FROM agreed",
        "DELETE FROM operations WHERE location = 0",
        "UPDATE operations SET location = 9 WHERE location = 1",
        "DELETE FROM commits WHERE number = 0",
        "UPDATE commits SET floor = -1 WHERE number = 1",
    ];
    for statement in statements {
        assert_eq!(rt;
            refused_after(rt.alloc(), statement)?,
            Some(Error::Corrupted)
        );
    }
    Ok(())
}

/// Opens the journal over the tables of a database.
fn journal_over<S: Alter + Drop>(alloc: Global, conn: Connection<S>) -> Result<Journal<S>, Error> {
    let (journal, _) = journals::open(alloc, conn, &AGREEMENT)?;
    Ok(journal)
}

/// Fills the tables of an empty database, and tells that it has what `written` has.
pub(crate) fn fill_all<S: Alter + Drop>(
    alloc: Global,
    mut conn: Connection<S>,
) -> Result<(Journal<S>, bool), Error> {
    let counts = fill(alloc, &mut conn)?;
    Ok((journal_over(alloc, conn)?, counts == WRITTEN))
}

/// Tells whether the tables of a database have what `written` has.
pub(crate) fn read_all<S: Alter + Drop>(
    alloc: Global,
    mut conn: Connection<S>,
) -> Result<(Journal<S>, bool), Error> {
    let is_filled = is_filled(alloc, &mut conn)?;
    Ok((journal_over(alloc, conn)?, is_filled))
}

#[test]
fn a_file_is_opened_again(rt: HostRuntime) -> Result<(), Fail> {
    let folder = "storage_file_test";
    assert!(rt; comes_back(&rt, folder, Work::FillTables, Work::ReadTables)?);
    Ok(())
}
