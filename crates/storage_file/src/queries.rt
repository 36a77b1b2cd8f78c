//! The queries, each of which shows a whole table in the order of its rows' numbers.

ghost use Rattle.std.specs.Prelude.{◌≡◌, ◌≤◌, ◌∷◌, [], IfOk, OnOk};
ghost use Rattle.sqlite.specs.Held.{state};
ghost use Rattle.sqlite_trees.specs.View.{doubt};
ghost use Rattle.sqlite.specs.State.{HasCleanDisk, IsUnchanged};
ghost use Rattle.storage_file.specs.Tables.{Lists, Reads, shown_from, agreed_cells, operation_cells, commit_cells};

use sqlite::{Alter, Connection, Error, Row};

pub(crate) fn agreed_rows<S: Alter>(conn: &mut Connection<S>) -> Result<Vec<Row>, Error>
    ensures shown { HasCleanDisk (state S.Store conn.new) → (kept : _)
        → Lists (state S.Store conn.old).now kept
        → IfOk result (λ rows. rows.items ≡ shown_from agreed_cells 0 (kept.agreed ∷ [])) }
    ensures same { HasCleanDisk (state S.Store conn.new) → (kept : _)
        → Lists (state S.Store conn.old).now kept
        → OnOk result (IsUnchanged (state S.Store conn.old) (state S.Store conn.new)) }
    ensures clean { doubt (state S.Store conn.old).is_clean ≤ doubt
        (state S.Store conn.new).is_clean }
    ensures reads { (kept : _) → Lists (state S.Store conn.old).now kept
        → Reads (state S.Store conn.old) (state S.Store conn.new) }
{
    conn.query_all(
        "SELECT number, version, family, digest, chunk_size, key_encoding, value_encoding FROM agreed ORDER BY number",
        &[],
    )
}

pub(crate) fn operation_rows<S: Alter>(conn: &mut Connection<S>) -> Result<Vec<Row>, Error>
    ensures shown { HasCleanDisk (state S.Store conn.new) → (kept : _)
        → Lists (state S.Store conn.old).now kept
        → IfOk result (λ rows. rows.items ≡ shown_from operation_cells 0 kept.operations) }
    ensures same { HasCleanDisk (state S.Store conn.new) → (kept : _)
        → Lists (state S.Store conn.old).now kept
        → OnOk result (IsUnchanged (state S.Store conn.old) (state S.Store conn.new)) }
    ensures clean { doubt (state S.Store conn.old).is_clean ≤ doubt
        (state S.Store conn.new).is_clean }
    ensures reads { (kept : _) → Lists (state S.Store conn.old).now kept
        → Reads (state S.Store conn.old) (state S.Store conn.new) }
{
    conn.query_all(
        "SELECT location, bytes FROM operations ORDER BY location",
        &[],
    )
}

pub(crate) fn commit_rows<S: Alter>(conn: &mut Connection<S>) -> Result<Vec<Row>, Error>
    ensures shown { HasCleanDisk (state S.Store conn.new) → (kept : _)
        → Lists (state S.Store conn.old).now kept
        → IfOk result (λ rows. rows.items ≡ shown_from commit_cells 0 kept.commits) }
    ensures same { HasCleanDisk (state S.Store conn.new) → (kept : _)
        → Lists (state S.Store conn.old).now kept
        → OnOk result (IsUnchanged (state S.Store conn.old) (state S.Store conn.new)) }
    ensures clean { doubt (state S.Store conn.old).is_clean ≤ doubt
        (state S.Store conn.new).is_clean }
    ensures reads { (kept : _) → Lists (state S.Store conn.old).now kept
        → Reads (state S.Store conn.old) (state S.Store conn.new) }
{
    conn.query_all(
        "SELECT number, location, floor, root FROM commits ORDER BY number",
        &[],
    )
}
