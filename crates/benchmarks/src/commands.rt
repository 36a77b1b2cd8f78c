//! A database that is given commands which look random, commits anywhere among them. The words are `sha512` for SHA-512, else SHA-256,
//! the family, the number of keys, a power of two up to 256, the number of commands, and the number that settles them. Keys have 4 bytes,
//! values are numbers, chunks have one byte.
//!
//! A number of 64 bits gives a command and the next number. Its first byte, the highest one, gives the key, and its third one what is
//! done, by the rest on division by 64: with 0 the changes are committed, with 1 the key is asked for, up to 20 it is deleted, and else
//! the number becomes its value. After each commit, and where a key is asked for, the last root and the key's proof, of its value or its
//! absence, are joined to the answer, and replaced by their digest. Before the first commit nothing is asked for.

ghost use Rattle.storage_bitmap.specs.Chunks.{IsChunkSize};

use crate::calls::{absence_proof, commit, delete, put, root, value_proof};
use crate::columns::{Fault, number};
use commonware_storage::codec::{Encode, FixedBytes};
use commonware_storage::db::Ordered;
use commonware_storage::digest::{Digest, Hasher, Sha256, Sha512};
use commonware_storage::merkle::{Graftable, mmb, mmr};
use commonware_storage::qmdb::any::FixedEncoding;
use std::alloc::Global;

type Key = FixedBytes<4>;

type Database<F, H, const N: usize> = Ordered<F, H, Key, FixedEncoding<u64>, N>;

/// Returns the bytes of the proof of `key` at the last commit: of its value, or else that it had none.
fn proof_of<F: Graftable, H: Hasher, const N: usize>(
    alloc: Global,
    database: &Database<F, H, N>,
    key: &Key,
) -> Result<Vec<u8>, Fault>
    requires { IsChunkSize N }
{
    match value_proof(database, key)? {
        Some((_, proof)) => Ok(proof.encode(alloc)?),
        None => absence_bytes(alloc, database, key),
    }
}

/// Returns the bytes of the proof that `key` had no value at the last commit.
fn absence_bytes<F: Graftable, H: Hasher, const N: usize>(
    alloc: Global,
    database: &Database<F, H, N>,
    key: &Key,
) -> Result<Vec<u8>, Fault>
    requires { IsChunkSize N }
{
    Ok(absence_proof(database, key)?.encode(alloc)?)
}

/// Returns the digest of `answer`, `root` and `proof` joined.
fn joined<H: Hasher>(answer: &H::Digest, root: &H::Digest, proof: &[u8]) -> H::Digest {
    H::hash(&[answer.bytes(), root.bytes(), proof])
}

/// Returns the digest of `answer`, the last root and the proof of `key` joined; `answer` before the first commit.
fn asked<F: Graftable, H: Hasher, const N: usize>(
    alloc: Global,
    database: &Database<F, H, N>,
    key: &Key,
    answer: H::Digest,
) -> Result<H::Digest, Fault>
    requires { IsChunkSize N }
{
    let Some(root) = root(database) else {
        return Ok(answer);
    };
    let proof = proof_of(alloc, database, key)?;
    Ok(joined::<H>(&answer, &root, &proof))
}

/// Does what the number `draw` says with one of the keys up to `last`, and answers the digest that follows `answer`.
fn step<F: Graftable, H: Hasher, const N: usize>(
    alloc: Global,
    database: &mut Database<F, H, N>,
    last: u8,
    draw: u64,
    answer: H::Digest,
) -> Result<H::Digest, Fault>
    requires { IsChunkSize N }
{
    let [first, _, what, ..] = draw.to_be_bytes();
    let key = FixedBytes {
        bytes: [0, 0, 0, first & last],
    };
    match what % 64 {
        0 => {
            commit(database)?;
            return asked(alloc, database, &key, answer);
        }
        1 => return asked(alloc, database, &key, answer),
        2..21 => delete(database, &key)?,
        _ => put(database, key, draw)?,
    }
    Ok(answer)
}

/// Gives `database` so many commands over the keys up to `last`, which `draw` settles, and returns the digest of all that it answers.
fn answered<F: Graftable, H: Hasher, const N: usize>(
    alloc: Global,
    database: &mut Database<F, H, N>,
    last: u8,
    count: u64,
    mut draw: u64,
) -> Result<H::Digest, Fault>
    requires { IsChunkSize N }
{
    let mut answer = H::fill(0);
    for _ in 0..count {
        draw = draw
            .wrapping_mul(6_364_136_223_846_793_005)
            .wrapping_add(1_442_695_040_888_963_407);
        answer = step(alloc, database, last, draw, answer)?;
    }
    Ok(answer)
}

/// Returns the last one of so many keys.
fn last_of(keys: u64) -> Result<u8, Fault> {
    match u8::try_from(keys.wrapping_sub(1)) {
        Ok(last) => Ok(last),
        Err(_) => Err(Fault::Malformed),
    }
}

/// Returns the digest in hexadecimal of what `database` answers for `words`: how many keys and commands there are, and the number that
/// settles them.
fn told<F: Graftable, H: Hasher, const N: usize>(
    alloc: Global,
    database: &mut Database<F, H, N>,
    words: &[&str],
) -> Result<String, Fault>
    requires { IsChunkSize N }
{
    let [keys, count, seed] = words else {
        return Err(Fault::Malformed);
    };
    let last = last_of(number(*keys)?)?;
    let answer = answered(alloc, database, last, number(*count)?, number(*seed)?)?;
    Ok(hex::encode(alloc, answer.bytes())?)
}

/// Returns the line to print for `words`, which are for `database`, a new one.
fn run<F: Graftable, H: Hasher, const N: usize>(
    alloc: Global,
    mut database: Database<F, H, N>,
    words: &[&str],
) -> Result<String, Fault>
    requires { IsChunkSize N }
{
    let line = told(alloc, &mut database, words);
    drop(database);
    line
}

/// Returns the line to print for `words`: the digest function, if it is not SHA-256, the family, and what `run` takes.
pub fn reply(alloc: Global, words: &[&str]) -> Result<String, Fault> {
    match words {
        ["sha512", words @ ..] => of_long_digests(alloc, words),
        words => of_short_digests(alloc, words),
    }
}

/// Returns the line to print for `words`, of a database under SHA-512.
fn of_long_digests(alloc: Global, words: &[&str]) -> Result<String, Fault> {
    match words {
        ["mmr", words @ ..] => run(alloc, Database::<mmr::Family, Sha512, 1>::new(alloc), words),
        ["mmb", words @ ..] => run(alloc, Database::<mmb::Family, Sha512, 1>::new(alloc), words),
        _ => Err(Fault::Malformed),
    }
}

/// Returns the line to print for `words`, of a database under SHA-256.
fn of_short_digests(alloc: Global, words: &[&str]) -> Result<String, Fault> {
    match words {
        ["mmr", words @ ..] => run(alloc, Database::<mmr::Family, Sha256, 1>::new(alloc), words),
        ["mmb", words @ ..] => run(alloc, Database::<mmb::Family, Sha256, 1>::new(alloc), words),
        _ => Err(Fault::Malformed),
    }
}
