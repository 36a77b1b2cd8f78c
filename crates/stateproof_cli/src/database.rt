//! What a database answers to the steps that it is given.

ghost use Rattle.storage_bitmap.specs.Chunks.{IsChunkSize};

use crate::Fault;
use crate::script::{Key, Step};
use std::alloc::Global;
use storage_codec::codec::Encode;
use storage_codec::digest::Sha256;
use storage_db::db::{Error, Ordered};
use storage_merkle::merkle::Graftable;
use storage_ops::qmdb::any::FixedEncoding;

/// The database of the program: keys of 4 bytes, numbers as values.
type Database<F, const N: usize> = Ordered<F, Sha256, Key, FixedEncoding<u64>, N>;

/// Returns what a new database answers to `steps`, one after the other: a line for each, but none for a put.
pub(crate) fn answers<F: Graftable, const N: usize>(
    alloc: Global,
    steps: &[Step],
) -> Result<String, Fault>
    requires { IsChunkSize N }
{
    let mut database = Database::<F, N>::new(alloc);
    let mut text = String::new(alloc);
    for step in steps {
        take(alloc, &mut database, step, &mut text)?;
    }
    Ok(text)
}

/// Gives `step` to `database`, and appends what it answers to `text`.
fn take<F: Graftable, const N: usize>(
    alloc: Global,
    database: &mut Database<F, N>,
    step: &Step,
    text: &mut String,
) -> Result<(), Fault>
    requires { IsChunkSize N }
{
    match step {
        Step::Put { key, value } => put(database, *key, *value),
        Step::Delete { key } => delete(database, key, text),
        Step::Commit => commit(alloc, database, text),
        Step::Value { key } => value(alloc, database, key, text),
        Step::Absence { key } => absence(alloc, database, key, text),
    }
}

/// Gives `key` the value `value`.
fn put<F: Graftable, const N: usize>(
    database: &mut Database<F, N>,
    key: Key,
    value: u64,
) -> Result<(), Fault> {
    match database.put(key, value) {
        Ok(()) => Ok(()),
        Err(error) => Err(Fault::of_database(&error)),
    }
}

/// Takes `key` out: `yes` if it had a value, else `no`.
fn delete<F: Graftable, const N: usize>(
    database: &mut Database<F, N>,
    key: &Key,
    text: &mut String,
) -> Result<(), Fault> {
    match database.delete(key) {
        Ok(true) => text.push_str("yes\n")?,
        Ok(false) => text.push_str("no\n")?,
        Err(error) => return Err(Fault::of_database(&error)),
    }
    Ok(())
}

/// Commits: the root of the commit.
fn commit<F: Graftable, const N: usize>(
    alloc: Global,
    database: &mut Database<F, N>,
    text: &mut String,
) -> Result<(), Fault> {
    if let Err(error) = database.commit(None) {
        return Err(Fault::of_database(&error));
    }
    if let Some(root) = database.root() {
        let root = hex::encode(alloc, root.bytes)?;
        writeln!(text, "{root}")?;
    }
    Ok(())
}

/// Returns the value that `key` has at the last commit, a blank and its proof; `absent` if it has none.
fn value<F: Graftable, const N: usize>(
    alloc: Global,
    database: &Database<F, N>,
    key: &Key,
    text: &mut String,
) -> Result<(), Fault>
    requires { IsChunkSize N }
{
    match database.prove_value(key) {
        Ok((value, proof)) => {
            let proof = hex::encode(alloc, proof.encode(alloc)?)?;
            writeln!(text, "{value} {proof}")?;
        }
        Err(Error::NotCommitted) => text.push_str("uncommitted\n")?,
        Err(Error::Absent) => text.push_str("absent\n")?,
        Err(error) => return Err(Fault::of_database(&error)),
    }
    Ok(())
}

/// Returns the proof that `key` has no value at the last commit; `present` if it has one.
fn absence<F: Graftable, const N: usize>(
    alloc: Global,
    database: &Database<F, N>,
    key: &Key,
    text: &mut String,
) -> Result<(), Fault>
    requires { IsChunkSize N }
{
    match database.prove_absence(key) {
        Ok(proof) => {
            let proof = hex::encode(alloc, proof.encode(alloc)?)?;
            writeln!(text, "{proof}")?;
        }
        Err(Error::NotCommitted) => text.push_str("uncommitted\n")?,
        Err(Error::Present) => text.push_str("present\n")?,
        Err(error) => return Err(Fault::of_database(&error)),
    }
    Ok(())
}
