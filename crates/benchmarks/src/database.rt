//! A database that many keys are put into, and what it does then. The words are what is done, how many keys get a value, and how often
//! it is done, which is left out for the first two. The keys are put in no order of theirs. The trees are MMRs under SHA-256, keys have 4
//! bytes, values are numbers, chunks have 32 bytes.
//!
//! | What is done | The answer |
//! |---|---|
//! | `put`: nothing more | the value of the last key |
//! | `commit`: a commit | the canonical root |
//! | `change`: a commit, then a value for one of the keys and a commit, so often | the canonical root |
//! | `prove`: a commit, then the proof of the value of one of the keys, so often | how many values were the right ones |
//! | `verify`: a commit, the proof of the last key's value, and so many checks of it | how many answers were yes |

use crate::calls::{self, get, value_proof};
use crate::columns::Fault;
use commonware_storage::NoMemory;
use commonware_storage::codec::FixedBytes;
use commonware_storage::db::Ordered;
use commonware_storage::digest::Sha256;
use commonware_storage::merkle::mmr::Family;
use commonware_storage::qmdb::any::FixedEncoding;
use commonware_storage::qmdb::current::ordered::constant::KeyValueProof;
use std::alloc::Global;

type Key = FixedBytes<4>;

type Database = Ordered<Family, Sha256, Key, FixedEncoding<u64>, 32>;

type Proof = KeyValueProof<Family, Key, FixedBytes<32>, 32>;

/// Returns the key number `index`: those of numbers side by side are far apart, and no two of them are the same.
fn key(index: u32) -> Key {
    FixedBytes {
        bytes: index.wrapping_mul(2_654_435_761).to_be_bytes(),
    }
}

/// Gives the key number `index` the value `value`.
fn put(database: &mut Database, index: u32, value: u32) -> Result<(), Fault> {
    calls::put(database, key(index), u64::from(value))
}

/// Commits.
fn commit(database: &mut Database) -> Result<(), Fault> {
    calls::commit(database)
}

/// Gives each of `count` keys its number as its value.
fn fill(database: &mut Database, count: u32) -> Result<(), Fault> {
    for index in 0..count {
        put(database, index, index)?;
    }
    Ok(())
}

/// Returns the canonical root of the last commit.
fn last_root(database: &Database) -> Result<FixedBytes<32>, Fault> {
    match calls::root(database) {
        Some(root) => Ok(root),
        None => Err(Fault::Malformed),
    }
}

/// Returns the canonical root of the last commit, in hexadecimal.
fn root(alloc: Global, database: &Database) -> Result<String, Fault> {
    Ok(hex::encode(alloc, last_root(database)?.bytes)?)
}

/// Returns the number of the key that it is the turn of: one of the first `count`.
fn index_at(time: u32, count: u32) -> Result<u32, Fault> {
    match time.wrapping_mul(7919).checked_rem(count) {
        Some(index) => Ok(index),
        None => Err(Fault::Malformed),
    }
}

/// Returns the value of the key number `index`, and its proof.
fn proof_of(database: &Database, index: u32) -> Result<(u64, Proof), Fault> {
    match value_proof(database, &key(index))? {
        Some(proved) => Ok(proved),
        None => Err(Fault::Malformed),
    }
}

/// Gives one of the first `count` keys another value and commits, `times` times.
fn change(database: &mut Database, count: u32, times: u32) -> Result<(), Fault> {
    for time in 0..times {
        put(database, index_at(time, count)?, time)?;
        commit(database)?;
    }
    Ok(())
}

/// Proves the value of one of the first `count` keys, `times` times, and answers how often it was the key's number.
fn prove(database: &Database, count: u32, times: u32) -> Result<u32, Fault> {
    let mut right = 0u32;
    for time in 0..times {
        let index = index_at(time, count)?;
        let (value, _) = proof_of(database, index)?;
        right = right.saturating_add((value == u64::from(index)) as u32);
    }
    Ok(right)
}

/// Returns whether `proof` is accepted as one that the key number `index` has `value`.
fn is_accepted(
    alloc: Global,
    proof: &Proof,
    index: u32,
    value: u64,
    root: &FixedBytes<32>,
) -> Result<bool, NoMemory> {
    calls::is_accepted::<Family, Sha256, Key, FixedEncoding<u64>, 32>(
        alloc,
        proof,
        key(index),
        value,
        root,
    )
}

/// Proves the value of the key number `index` once and checks the proof `times` times; how many answers were yes.
fn verify(alloc: Global, database: &Database, index: u32, times: u32) -> Result<u32, Fault> {
    let root = last_root(database)?;
    let (value, proof) = proof_of(database, index)?;
    let mut accepted = 0u32;
    for _ in 0..times {
        let yes = is_accepted(alloc, &proof, index, value, &root)?;
        accepted = accepted.saturating_add(yes as u32);
    }
    Ok(accepted)
}

/// Returns the line to print of `database`, into which `count` keys were put, for `work`, which is done `times` times
/// after a commit.
fn told(
    alloc: Global,
    database: &mut Database,
    work: &str,
    count: u32,
    times: u32,
) -> Result<String, Fault> {
    let last = count.saturating_sub(1);
    if work == "put" {
        return value(alloc, database, last);
    }
    commit(database)?;
    match work {
        "commit" | "change" => {
            change(database, count, times)?;
            root(alloc, database)
        }
        "prove" => told_of_proofs(alloc, prove(database, count, times)?, times),
        "verify" => told_of_checks(alloc, verify(alloc, database, last, times)?, times),
        _ => Err(Fault::Malformed),
    }
}

/// Returns the value of the key number `index`.
fn value(alloc: Global, database: &Database, index: u32) -> Result<String, Fault> {
    match get(database, &key(index)) {
        Some(value) => Ok(format!(in alloc; "{value}")?),
        None => Err(Fault::Malformed),
    }
}

/// Returns the line of `times` proofs, of which so many were of the right value.
fn told_of_proofs(alloc: Global, right: u32, times: u32) -> Result<String, Fault> {
    Ok(format!(in alloc; "{right} right of {times}")?)
}

/// Returns the line of `times` checks, of which so many were accepted.
fn told_of_checks(alloc: Global, accepted: u32, times: u32) -> Result<String, Fault> {
    Ok(format!(in alloc; "accepted {accepted} times of {times}")?)
}

/// Returns the line to print of a new database, into which `count` keys are put.
fn worked(alloc: Global, work: &str, count: u32, times: u32) -> Result<String, Fault> {
    let mut database = Database::new(alloc);
    fill(&mut database, count)?;
    told(alloc, &mut database, work, count, times)
}

/// Returns a number of keys, or of times.
fn count_of(column: &str) -> Result<u32, Fault> {
    match column.parse::<u32>() {
        Ok(count) => Ok(count),
        Err(_) => Err(Fault::Malformed),
    }
}

/// Returns the line to print for `words`: what is done, how many keys are put, and how often it is done.
pub fn reply(alloc: Global, words: &[&str]) -> Result<String, Fault> {
    match words {
        [work, count] => worked(alloc, *work, count_of(*count)?, 0),
        [work, count, times] => worked(alloc, *work, count_of(*count)?, count_of(*times)?),
        _ => Err(Fault::Malformed),
    }
}
