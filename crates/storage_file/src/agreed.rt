//! What was agreed when a file was made, as it is read from it.

ghost use Rattle.std.specs.Prelude.{◌≡◌, ◌≢◌, ◌⊎◌, ◌<◌, ◌≤◌, ◌∷◌, [], length, IfOk, IfErr, OnOk, IsTrue};
ghost use Rattle.sqlite.specs.Held.{state};
ghost use Rattle.sqlite.specs.Order.{column};
ghost use Rattle.sqlite.specs.State.{HasCleanDisk};
ghost use Rattle.sqlite.specs.declared.types.Value.TheVariants.{Text};
ghost use Rattle.sqlite_trees.specs.View.{doubt};
ghost use Rattle.storage_file.specs.Agreed.{agreement_in};
ghost use Rattle.storage_file.specs.Tables.{Holds, Shows, agreed_cells, shown, shown_from};

use crate::error::Error;
use crate::queries::agreed_rows;
use crate::rows::{cell, says_number};
use crate::statements::LAYOUT_VERSION;
use sqlite::types::ValueRef;
use sqlite::{Alter, Connection, Row};
use std::alloc::Global;

/// What was agreed when a file was made, in bytes: of each text those of its UTF-8.
#[derive(Debug, Drop, PartialEq, Eq)]
pub struct OwnedAgreement {
    /// The family of the trees.
    pub family: Vec<u8>,
    /// The digest function.
    pub digest: Vec<u8>,
    /// The bytes of a chunk of bits.
    pub chunk_size: u64,
    /// How keys are written.
    pub key_encoding: Vec<u8>,
    /// How values are written.
    pub value_encoding: Vec<u8>,
}

/// The text of a column.
fn text(alloc: Global, row: &Row, at: usize) -> Result<Vec<u8>, Error>
    requires { at < length row.now }
    ensures ok { IfOk result (λ text. column row.now at ≡ Text text.items) }
    ensures why { IfErr result (λ e. (e ≡ Error.Memory) ⊎ ((e ≡ Error.Corrupted)
        × ((text : _) → column row.now at ≢ Text text))) }
{
    match row.get_ref(at) {
        Ok(ValueRef::Text(text)) => Ok(Vec::from_slice(alloc, text)?),
        _ => Err(Error::Corrupted),
    }
}

/// What was agreed, from the row of it.
fn agreement_from(alloc: Global, row: &Row) -> Result<OwnedAgreement, Error>
    ensures gives { IfOk result (λ it. row.now ≡ shown agreed_cells 0 (agreement_in it)) }
    ensures why { IfErr result (λ e. (e ≡ Error.Memory)
        ⊎ ((agreed : _) → row.now ≢ shown agreed_cells 0 agreed)) }
{
    if row.column_count() != 7 || !says_number(row, 0, 0) {
        return Err(Error::Corrupted);
    }
    if !says_number(row, 1, LAYOUT_VERSION) {
        return Err(Error::Foreign);
    }
    Ok(OwnedAgreement {
        family: text(alloc, row, 2)?,
        digest: text(alloc, row, 3)?,
        chunk_size: cell(row, 4)?,
        key_encoding: text(alloc, row, 5)?,
        value_encoding: text(alloc, row, 6)?,
    })
}

/// What was agreed, from the rows of its table.
fn the_agreement(alloc: Global, rows: &[Row]) -> Result<OwnedAgreement, Error>
    ensures gives { IfOk result (λ it. rows.now ≡ shown_from agreed_cells 0
        (agreement_in it ∷ [])) }
    ensures why { IfErr result (λ e. (e ≡ Error.Memory)
        ⊎ ((agreed : _) → rows.now ≢ shown_from agreed_cells 0 (agreed ∷ []))) }
{
    if rows.len() != 1 {
        return Err(Error::Corrupted);
    }
    agreement_from(alloc, &rows[0])
}

/// Reads what was agreed when a file was made, for who does not know it: a journal is opened with it then. It changes
/// nothing.
///
/// # Errors
///
/// The first of: what the database refuses or fails at, as where it has no such table; `Corrupted` if there is not one
/// row, or it is none of an agreement; `Foreign` if the tables were made in another layout; `Memory`.
pub fn read_agreement<S: Alter>(
    alloc: Global,
    conn: &mut Connection<S>,
) -> Result<OwnedAgreement, Error>
    ensures clean { doubt (state S.Store conn.old).is_clean ≤ doubt
        (state S.Store conn.new).is_clean }
    ensures read { HasCleanDisk (state S.Store conn.new) → (kept : _)
        → Shows (state S.Store conn.old) kept
        → IfOk result (λ it. agreement_in it ≡ kept.agreed) }
    ensures refused { HasCleanDisk (state S.Store conn.new) → (kept : _)
        → Shows (state S.Store conn.old) kept → IfErr result (λ e. (e ≢ Error.Corrupted)
        × (e ≢ Error.Foreign)) }
    ensures same { HasCleanDisk (state S.Store conn.new) → (kept : _)
        → Shows (state S.Store conn.old) kept → OnOk result (Shows (state S.Store conn.new) kept) }
    ensures left { HasCleanDisk (state S.Store conn.new) → (kept : _)
        → Shows (state S.Store conn.old) kept → IsTrue (state S.Store conn.new).is_open
        → Shows (state S.Store conn.new) kept }
    ensures crash { HasCleanDisk (state S.Store conn.new) → (kept : _)
        → Shows (state S.Store conn.old) kept → (db : _) → (state S.Store conn.new).may_leave db
        → Holds db kept }
{
    let rows = agreed_rows(conn)?;
    the_agreement(alloc, &rows)
}
