//! Databases in files. A function that makes calls at a file's own store takes some twenty seconds to prove, however many they are:
//! so one does, for all tests, and what it does is over any store.

use crate::{journals, tables};
use sqlite::{Alter, Connection};
use std::alloc::Global;
use std::fs;
use std::test::Fail;
use storage_file::Journal;

/// What a test does with the database of a file.
#[derive(Clone, Copy)]
pub(crate) enum Work {
    /// Fills its tables.
    FillTables,
    /// Reads them.
    ReadTables,
    /// Fills its journal.
    FillJournal,
    /// Reads it.
    ReadJournal,
}

/// Does `work` with a database. Returns its journal, and whether the database has what `written` has.
fn journal_after<S: Alter + Drop>(
    alloc: Global,
    conn: Connection<S>,
    work: Work,
) -> Result<(Journal<S>, bool), Fail> {
    match work {
        Work::FillTables => Ok(tables::fill_all(alloc, conn)?),
        Work::ReadTables => Ok(tables::read_all(alloc, conn)?),
        Work::FillJournal => Ok((journals::filled(alloc, conn)?, true)),
        Work::ReadJournal => Ok(journals::read_all(alloc, conn)?),
    }
}

/// Opens the file at `path`, does `work` with its database, closes it, and tells whether it has what `written` has.
fn on_file(rt: &HostRuntime, path: &str, work: Work) -> Result<bool, Fail> {
    let conn = Connection::open(rt, path)?;
    let (journal, is_filled) = journal_after(rt.alloc(), conn, work)?;
    match journal.close() {
        Ok(_) => Ok(is_filled),
        Err((error, store)) => {
            drop(store.close());
            Err(error.into())
        }
    }
}

/// Fills a file in the folder `folder`, and tells whether it has what `written` has when it is opened again.
pub(crate) fn comes_back(
    rt: &HostRuntime,
    folder: &str,
    fill: Work,
    read: Work,
) -> Result<bool, Fail> {
    let _ = fs::remove_dir_all(rt, folder);
    fs::create_dir(rt, folder)?;
    let path = format!(in rt.alloc(); "{folder}/a.db")?;
    on_file(rt, &path, fill)?;
    let is_filled = on_file(rt, &path, read)?;
    fs::remove_dir_all(rt, folder)?;
    Ok(is_filled)
}
