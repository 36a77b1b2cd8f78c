//! Lists on what operations say of themselves, on equal ones, and on the values of updates.

use crate::spelling::{Parse, Spell};
use replay_columns::answers::{Answer, Lent};
use replay_columns::columns::Fault;
use std::alloc::Global;
use storage_merkle::merkle::mmr;
use storage_ops::qmdb::any::operation::{Operation, Update};
use storage_ops::qmdb::operation::{Committable, Floored, Key, Operation as _};

/// `operation` for `asked`: what it is, its key, its floor, and the key that it gives up; `-` for none. `operation operation` for
/// `equal`: whether a copy of the first is equal to the second. `update` for `valued`: the value that the key gets, as it is lent
/// and as it is given up.
pub fn answer<S: Update + Spell + PartialEq>(
    alloc: Global,
    list: &str,
    columns: &[&str],
    out: &mut String,
) -> Result<(), Fault>
where
    S::Key: Parse,
    S::Value: Spell + PartialEq,
{
    match (list, columns) {
        ("asked", [text]) => tell_asked::<S>(alloc, *text, out),
        ("valued", [text]) => tell_value::<S>(alloc, *text, out),
        ("equal", [text, other]) => tell_equal::<S>(alloc, *text, *other, out),
        _ => Err(Fault::Malformed),
    }
}

/// Adds whether a copy of an operation is equal to another one.
fn tell_equal<S: Update + Spell + PartialEq>(
    alloc: Global,
    text: &str,
    other: &str,
    out: &mut String,
) -> Result<(), Fault>
where
    S::Key: Parse,
    S::Value: Spell + PartialEq,
{
    let other = Operation::<mmr::Family, S>::parse(alloc, other)?;
    let copy = Operation::<mmr::Family, S>::parse(alloc, text)?.clone()?;
    (copy == other).tell(out)
}

/// Adds the value of an update, as it is lent and as it is given up.
fn tell_value<S: Update + Spell>(alloc: Global, text: &str, out: &mut String) -> Result<(), Fault>
where
    S::Key: Parse,
    S::Value: Spell,
{
    let Operation::Update(update) = Operation::<mmr::Family, S>::parse(alloc, text)? else {
        return Err(Fault::Malformed);
    };
    update.value().spell(out)?;
    out.push(' ')?;
    update.into_value().spell(out)
}

/// Returns what an operation is: a digit each for an update, a deletion and a commit.
fn kind_of<S: Update>(operation: &Operation<mmr::Family, S>) -> Result<&'static str, Fault> {
    let kinds = (
        operation.is_update(),
        operation.is_delete(),
        operation.is_commit(),
    );
    match kinds {
        (true, false, false) => Ok("100"),
        (false, true, false) => Ok("010"),
        (false, false, true) => Ok("001"),
        _ => Err(Fault::Differs),
    }
}

/// Adds what an operation is, its key, its floor, and the key that it gives up; `-` for none.
fn tell_asked<S: Update + Spell>(alloc: Global, text: &str, out: &mut String) -> Result<(), Fault>
where
    S::Key: Parse,
    S::Value: Spell,
{
    let operation = Operation::<mmr::Family, S>::parse(alloc, text)?;
    tell_lent(&operation, out)?;
    bytes_of(operation.into_key().as_ref()).tell(out)
}

/// Adds what an operation is, its key and its floor, `-` for none, and a blank.
fn tell_lent<S: Update>(
    operation: &Operation<mmr::Family, S>,
    out: &mut String,
) -> Result<(), Fault> {
    let key = bytes_of(operation.key());
    (kind_of(operation)?, key, operation.has_floor()).tell(out)?;
    Ok(out.push(' ')?)
}

/// Returns the bytes of a key, if there is one.
fn bytes_of<K: Key>(key: Option<&K>) -> Option<Lent<'_>> {
    match key {
        Some(key) => Some(Lent(key.bytes())),
        None => None,
    }
}
