//! What the rows of the tables say.

ghost use Rattle.std.specs.Prelude.{◌≡◌, ◌≢◌, ◌⊎◌, ◌<◌, ◌∷◌, [], pos, length, map, true, IfOk, IfErr, OnOk, IsTrue};
ghost use Rattle.sqlite.specs.Order.{column};
ghost use Rattle.sqlite.specs.declared.types.Value.TheVariants.{Int, Text};
ghost use Rattle.storage_file.specs.Given.{agreement_of, commit_of};
ghost use Rattle.storage_file.specs.Kept.{Commit as KeptCommit};
ghost use Rattle.storage_file.specs.Tables.{agreed_cells, commit_cells, operation_cells, shown, shown_from};

use crate::agreement::{Agreement, Commit};
use crate::error::Error;
use crate::statements::LAYOUT_VERSION;
use sqlite::types::{FromSql, ValueRef};
use sqlite::{Error as SqlError, ErrorCode, Row};
use std::alloc::Global;

/// The value of a column.
pub(crate) fn cell<T: FromSql>(row: &Row, at: usize) -> Result<T, Error>
    requires { at < length row.now }
    ensures ok { IfOk result (T.FromSql.reads_as (column row.now at)) }
    ensures why { IfErr result (λ e. (e ≡ Error.Memory) ⊎ ((e ≡ Error.Corrupted)
        × ¬ T.FromSql.is_readable (column row.now at))) }
{
    match row.get(at) {
        Ok(value) => Ok(value),
        Err(SqlError::SqliteFailure(ErrorCode::OutOfMemory)) => Err(Error::Memory),
        Err(_) => Err(Error::Corrupted),
    }
}

/// The bytes of an operation, from the row of this location.
fn operation_from(row: &Row, location: u64) -> Result<Vec<u8>, Error>
    ensures gives { IfOk result (λ bytes. row.now ≡ shown operation_cells location bytes.items) }
    ensures why { IfErr result (λ e. (e ≡ Error.Memory) ⊎ ((e ≡ Error.Corrupted) × ((bytes : _)
        → row.now ≢ shown operation_cells location bytes))) }
{
    if row.column_count() != 2 {
        return Err(Error::Corrupted);
    }
    if cell::<u64>(row, 0)? != location {
        return Err(Error::Corrupted);
    }
    cell(row, 1)
}

/// The commit in the row of this number.
fn commit_from(row: &Row, number: u64) -> Result<Commit, Error>
    ensures gives { IfOk result (λ commit. row.now ≡ shown commit_cells number (commit_of commit)) }
    ensures why { IfErr result (λ e. (e ≡ Error.Memory) ⊎ ((e ≡ Error.Corrupted)
        × ((commit : KeptCommit) → row.now ≢ shown commit_cells number commit))) }
{
    if row.column_count() != 4 {
        return Err(Error::Corrupted);
    }
    if cell::<u64>(row, 0)? != number {
        return Err(Error::Corrupted);
    }
    Ok(Commit {
        location: cell(row, 1)?,
        floor: cell(row, 2)?,
        root: cell(row, 3)?,
    })
}

/// The operations, whose rows are numbered from 0 on.
pub(crate) fn operations_from(alloc: Global, rows: &[Row]) -> Result<Vec<Vec<u8>>, Error>
    ensures gives { IfOk result (λ all. rows.now ≡ shown_from operation_cells 0 (map
        (λ b. b.items) all.items)) }
    ensures why { IfErr result (λ e. (e ≡ Error.Memory) ⊎ ((e ≡ Error.Corrupted) × ((all : _)
        → rows.now ≢ shown_from operation_cells 0 all))) }
{
    let mut operations = Vec::new(alloc);
    for row in rows {
        let bytes = operation_from(row, operations.len() as u64)?;
        operations.push(bytes)?;
    }
    Ok(operations)
}

/// The commits, whose rows are numbered from 0 on.
pub(crate) fn commits_from(alloc: Global, rows: &[Row]) -> Result<Vec<Commit>, Error>
    ensures gives { IfOk result (λ all. rows.now ≡ shown_from commit_cells 0
        (map commit_of all.items)) }
    ensures why { IfErr result (λ e. (e ≡ Error.Memory) ⊎ ((e ≡ Error.Corrupted) × ((all : _)
        → rows.now ≢ shown_from commit_cells 0 all))) }
{
    let mut commits = Vec::new(alloc);
    for row in rows {
        let commit = commit_from(row, commits.len() as u64)?;
        commits.push(commit)?;
    }
    Ok(commits)
}

/// Whether a column has this text.
fn says(row: &Row, at: usize, text: &str) -> bool
    requires { at < length row.now }
    ensures yes { IsTrue result → column row.now at ≡ Text text.now }
    ensures no { column row.now at ≡ Text text.now → IsTrue result }
{
    match row.get_ref(at) {
        Ok(ValueRef::Text(bytes)) => bytes == text.as_bytes(),
        _ => false,
    }
}

/// Whether a column has this number.
pub(crate) fn says_number(row: &Row, at: usize, number: u32) -> bool
    requires { at < length row.now }
    ensures yes { IsTrue result → column row.now at ≡ Int (pos number) }
    ensures no { column row.now at ≡ Int (pos number) → IsTrue result }
{
    match row.get_ref(at) {
        Ok(ValueRef::Int(n)) => n == i64::from(number),
        _ => false,
    }
}

/// Whether a row says that this was agreed.
fn is_agreed(row: &Row, agreement: &Agreement<'_>) -> bool
    ensures yes { IsTrue result → row.now ≡ shown agreed_cells 0 (agreement_of agreement.now) }
    ensures no { row.now ≡ shown agreed_cells 0 (agreement_of agreement.now) → IsTrue result }
{
    row.column_count() == 7
        && says_number(row, 0, 0)
        && says_number(row, 1, LAYOUT_VERSION)
        && says(row, 2, agreement.family)
        && says(row, 3, agreement.digest)
        && says_number(row, 4, agreement.chunk_size)
        && says(row, 5, agreement.key_encoding)
        && says(row, 6, agreement.value_encoding)
}

/// Tests that the one row of what was agreed says this.
pub(crate) fn test_agreement(rows: &[Row], agreement: &Agreement<'_>) -> Result<(), Error>
    ensures ok { OnOk result (rows.now ≡ shown_from agreed_cells 0
        (agreement_of agreement.now ∷ [])) }
    ensures why { IfErr result (λ e. rows.now ≢ shown_from agreed_cells 0
        (agreement_of agreement.now ∷ [])
        × ((e ≡ Error.Foreign) ⊎ ((e ≡ Error.Corrupted) × (length rows.now ≢ 1)))) }
{
    if rows.len() != 1 {
        return Err(Error::Corrupted);
    }
    if !is_agreed(&rows[0], agreement) {
        return Err(Error::Foreign);
    }
    Ok(())
}
