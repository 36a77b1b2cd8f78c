//! A plain loop of hashes, against which other times are measured. Its words are pairs of a count and a length: for each
//! pair it hashes `count` strings of `length` bytes each, of which each begins with the digest of the one before it, cut to
//! that length or filled up with zeros. The answer is the last digest. The hashes are SHA-256, but SHA-512 where `sha512` is the
//! first word.

use crate::columns::{Fault, number};
use std::alloc::Global;
use storage_codec::digest::{Digest, Hasher, Sha256, Sha512};

/// Puts `digest` at the start of `string`, as much of it as there is room for, and answers the digest of `string`.
fn step<H: Hasher>(string: &mut [u8], digest: H::Digest) -> H::Digest {
    let bytes = digest.bytes();
    let kept = string.len().min(bytes.len());
    string[..kept].copy_from_slice(&bytes[..kept]);
    H::hash(&[string])
}

/// Returns the last digest of `count` strings of `length` bytes, of which the first begins with `first`.
fn hashed<H: Hasher>(
    alloc: Global,
    first: H::Digest,
    count: u64,
    length: usize,
) -> Result<H::Digest, Fault> {
    let mut string = vec![in alloc; 0u8; length]?;
    let mut digest = first;
    for _ in 0..count {
        digest = step::<H>(&mut string, digest);
    }
    Ok(digest)
}

/// Returns the two numbers of a pair.
fn numbers(pair: &[&str]) -> Result<(u64, u64), Fault> {
    match pair {
        [count, length] => Ok((number(*count)?, number(*length)?)),
        _ => Err(Fault::Malformed),
    }
}

/// Returns the last digest of all `pairs`, in hexadecimal.
fn report<H: Hasher>(alloc: Global, pairs: &[&str]) -> Result<String, Fault> {
    let mut digest = H::fill(0);
    for pair in pairs.chunks(2) {
        let (count, length) = numbers(pair)?;
        digest = hashed::<H>(alloc, digest, count, length as usize)?;
    }
    Ok(hex::encode(alloc, digest.bytes())?)
}

/// Returns the line to print for `words`: the pairs, and before them the digest function if it is not SHA-256.
pub fn reply(alloc: Global, words: &[&str]) -> Result<String, Fault> {
    match words {
        [] => Err(Fault::Malformed),
        ["sha512", pairs @ ..] => report::<Sha512>(alloc, pairs),
        pairs => report::<Sha256>(alloc, pairs),
    }
}
