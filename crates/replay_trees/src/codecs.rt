//! Lists on codecs and digests.

use replay_columns::answers::Answer;
use replay_columns::columns::{Fault, Hex, List, lent, parse};
use std::alloc::Global;
use storage_codec::codec::{Read, UInt};
use storage_codec::digest::{Digest, Hasher};
use storage_merkle::merkle::{Location, mmr};

/// `bytes`: the varint in front, how many bytes are left, and the location in front.
pub fn varints(alloc: Global, columns: &[&str], out: &mut String) -> Result<(), Fault> {
    let input: Vec<u8> = parse(alloc, columns)?;
    let mut left = input.as_slice();
    let varint = match UInt::read_cfg(alloc, &mut left, &()) {
        Ok(UInt(value)) => Ok((value, left.len())),
        Err(error) => Err((error, "-")),
    };
    let location = Location::<mmr::Family>::read_cfg(alloc, &mut input.as_slice(), &());
    (varint, location).tell(out)
}

/// `parts`: the digest of all of them, one after another.
pub fn golden_hash<H: Hasher>(
    alloc: Global,
    columns: &[&str],
    out: &mut String,
) -> Result<(), Fault> {
    let parts: List<Vec<u8>> = parse(alloc, columns)?;
    let lent = lent(alloc, &parts.0)?;
    Hex(H::hash(&lent)).tell(out)
}

/// `byte`: the digest whose bytes all are this one, and how many bytes a digest has.
pub fn filled<H: Hasher>(alloc: Global, columns: &[&str], out: &mut String) -> Result<(), Fault> {
    let byte: u64 = parse(alloc, columns)?;
    match u8::try_from(byte) {
        Ok(byte) => (Hex(H::fill(byte)), H::Digest::size()).tell(out),
        Err(_) => Err(Fault::Malformed),
    }
}
