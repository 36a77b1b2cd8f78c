//! Journals over memory and over a file: each call once on its happy path, and each refusal.

use crate::files::{Work, comes_back};
use crate::tables::{AGREEMENT, WRITTEN, commit_at, execute, in_memory, written};
use sqlite::{Alter, Connection, Error as SqlError, ErrorCode};
use std::alloc::Global;
use std::test::Fail;
use storage_file::{Agreement, Commit, Contents, Counts, Error, Journal, is_blank};

/// Opens a journal, and drops the connection where that is refused.
pub(crate) fn open<S: Alter + Drop>(
    alloc: Global,
    conn: Connection<S>,
    agreement: &Agreement<'_>,
) -> Result<(Journal<S>, Contents), Error> {
    match Journal::open(alloc, conn, agreement) {
        Ok(opened) => Ok(opened),
        Err((error, _)) => Err(error),
    }
}

/// Opens a journal again.
fn reopened<S: Alter + Drop>(
    alloc: Global,
    journal: Journal<S>,
    agreement: &Agreement<'_>,
) -> Result<(Journal<S>, Contents), Error> {
    open(alloc, journal.into_connection(), agreement)
}

/// Appends a commit of `operations`.
fn append<S: Alter>(
    journal: &mut Journal<S>,
    operations: &[Vec<u8>],
    commit: &Commit,
) -> Result<(), Error> {
    journal.append(operations, commit)
}

/// Returns how much a journal has.
fn counts<S: Alter>(journal: &Journal<S>) -> Counts {
    journal.counts()
}

/// Appends both commits of `written` to an empty journal.
fn fill<S: Alter>(alloc: Global, journal: &mut Journal<S>) -> Result<(), Error> {
    let contents = written(alloc)?;
    let (before, after) = contents
        .operations
        .split_at(2.min(contents.operations.len()));
    if let [first, second] = contents.commits.as_slice() {
        append(journal, before, first)?;
        append(journal, after, second)?;
    }
    Ok(())
}

/// Returns a journal that `fill` has filled.
pub(crate) fn filled<S: Alter + Drop>(
    alloc: Global,
    conn: Connection<S>,
) -> Result<Journal<S>, Error> {
    let (mut journal, _) = open(alloc, conn, &AGREEMENT)?;
    fill(alloc, &mut journal)?;
    Ok(journal)
}

/// Returns what a journal has when it is opened.
fn contents_of<S: Alter + Drop>(alloc: Global, conn: Connection<S>) -> Result<Contents, Error> {
    let (_, contents) = open(alloc, conn, &AGREEMENT)?;
    Ok(contents)
}

#[test]
fn a_journal_comes_back(rt: HostRuntime) -> Result<(), Fail> {
    let alloc = rt.alloc();
    let (mut journal, contents) = open(alloc, in_memory(alloc)?, &AGREEMENT)?;
    assert!(rt; contents.operations.is_empty() && contents.commits.is_empty());
    fill(alloc, &mut journal)?;
    assert_eq!(rt; counts(&journal), WRITTEN);
    let (journal, contents) = reopened(alloc, journal, &AGREEMENT)?;
    assert_eq!(rt; contents, written(alloc)?);
    assert_eq!(rt; counts(&journal), WRITTEN);
    Ok(())
}

#[test]
fn a_refused_commit_leaves_the_journal(rt: HostRuntime) -> Result<(), Fail> {
    let alloc = rt.alloc();
    let mut journal = filled(alloc, in_memory(alloc)?)?;
    let large = commit_at(alloc, 3, 1 << 63, b"root")?;
    assert_eq!(rt; append(&mut journal, &[], &large), Err(Error::Full));
    let contents = contents_of(alloc, journal.into_connection())?;
    assert_eq!(rt; contents, written(alloc)?);
    Ok(())
}

#[test]
fn a_journal_of_another_agreement_is_foreign(rt: HostRuntime) -> Result<(), Fail> {
    let (journal, _) = open(rt.alloc(), in_memory(rt.alloc())?, &AGREEMENT)?;
    let other = Agreement {
        family: "mmb",
        ..AGREEMENT
    };
    let refused = reopened(rt.alloc(), journal, &other);
    assert_eq!(rt; refused.err(), Some(Error::Foreign));
    Ok(())
}

/// Returns why a journal is refused, and whether the connection that comes back has no table.
fn refused<S: Alter + Drop>(alloc: Global, conn: Connection<S>) -> Option<(Error, bool)> {
    match Journal::open(alloc, conn, &AGREEMENT) {
        Ok(_opened) => None,
        Err((error, conn)) => Some((error, is_blank(&conn))),
    }
}

#[test]
fn a_connection_in_a_transaction_is_refused(rt: HostRuntime) -> Result<(), Fail> {
    let mut conn = in_memory(rt.alloc())?;
    execute(&mut conn, "BEGIN")?;
    let error = Error::Store(SqlError::SqliteFailure(ErrorCode::TransactionState));
    assert_eq!(rt; refused(rt.alloc(), conn), Some((error, true)));
    Ok(())
}

/// Opens a journal, and tells whether it has what `written` has.
pub(crate) fn read_all<S: Alter + Drop>(
    alloc: Global,
    conn: Connection<S>,
) -> Result<(Journal<S>, bool), Error> {
    let (journal, contents) = open(alloc, conn, &AGREEMENT)?;
    Ok((journal, contents == written(alloc)?))
}

#[test]
fn a_closed_journal_is_opened_again(rt: HostRuntime) -> Result<(), Fail> {
    let folder = "storage_journal_test";
    assert!(rt; comes_back(&rt, folder, Work::FillJournal, Work::ReadJournal)?);
    Ok(())
}
