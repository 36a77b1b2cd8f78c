//! The list on proofs about keys as bytes. Keys have four bytes, and values are numbers.

use bytes::Bytes;
use replay_columns::answers::Answer;
use replay_columns::columns::{Fault, number, parse};
use std::alloc::Global;
use storage_codec::codec::{Decode, Encode, EncodeSize, FixedBytes, Read};
use storage_codec::digest::{Digest, Hasher};
use storage_current::qmdb::current::ordered::{ExclusionProof, KeyValueProof};
use storage_current::qmdb::current::proof::Chunk;
use storage_merkle::merkle::Graftable;
use storage_ops::qmdb::any::FixedEncoding;

type Key = FixedBytes<4>;

type Value<F, D, C> = KeyValueProof<F, Key, D, C>;

type Absence<F, D, C> = ExclusionProof<F, Key, FixedEncoding<u64>, D, C>;

/// A proof that gives a copy of itself.
trait OwnCopy: Sized {
    /// Returns a copy.
    fn own_copy(&self) -> Result<Self, Fault>;
}

impl<F: Graftable, D: Digest, C: Chunk + Clone> OwnCopy for Value<F, D, C> {
    fn own_copy(&self) -> Result<Self, Fault> {
        Ok(self.clone()?)
    }
}

impl<F: Graftable, D: Digest, C: Chunk + Clone> OwnCopy for Absence<F, D, C> {
    fn own_copy(&self) -> Result<Self, Fault> {
        Ok(self.clone()?)
    }
}

/// `claim reader most bytes`: the proof in front, written again by a copy, how many bytes are left, and whether all bytes are a
/// proof that is written as they are, or the refusals. The claim is a `value` or an `absence`; the reader takes an `array` of one
/// byte as the chunk, or that number of shared bytes; it takes at most `most` digests.
pub fn key_proofs<F: Graftable, H: Hasher>(
    alloc: Global,
    columns: &[&str],
    out: &mut String,
) -> Result<(), Fault> {
    let [claim, reader, columns @ ..] = columns else {
        return Err(Fault::Malformed);
    };
    let (most, input): (usize, Vec<u8>) = parse(alloc, columns)?;
    if *reader == "array" {
        return tell_of_array::<F, H::Digest>(alloc, *claim, most, &input, out);
    }
    tell_of_shared::<F, H::Digest>(
        alloc,
        *claim,
        (number(*reader)? as usize, most),
        &input,
        out,
    )
}

fn tell_of_array<F: Graftable, D: Digest>(
    alloc: Global,
    claim: &str,
    most: usize,
    input: &[u8],
    out: &mut String,
) -> Result<(), Fault> {
    if claim == "value" {
        tell_read::<Value<F, D, [u8; 1]>>(alloc, input, &(most, ()), out)
    } else {
        tell_read::<Absence<F, D, [u8; 1]>>(alloc, input, &(most, (), ()), out)
    }
}

fn tell_of_shared<F: Graftable, D: Digest>(
    alloc: Global,
    claim: &str,
    size: (usize, usize),
    input: &[u8],
    out: &mut String,
) -> Result<(), Fault> {
    if claim == "value" {
        tell_read::<Value<F, D, Bytes>>(alloc, input, &(size, ()), out)
    } else {
        tell_read::<Absence<F, D, Bytes>>(alloc, input, &(size, (), ()), out)
    }
}

/// Adds what is in front of the bytes, and what all of them are: `same` for a proof that is written as they are.
fn tell_read<T: Read + EncodeSize + OwnCopy + PartialEq>(
    alloc: Global,
    input: &[u8],
    cfg: &T::Cfg,
    out: &mut String,
) -> Result<(), Fault> {
    tell_front::<T>(alloc, input, cfg, out)?;
    out.push(' ')?;
    match T::decode_cfg(alloc, input, cfg) {
        Ok(proof) => {
            if proof.encode(alloc)?.as_slice() != input {
                return Err(Fault::Differs);
            }
            Ok(out.push_str("same")?)
        }
        Err(error) => error.tell(out),
    }
}

/// Adds the bytes of a copy of the proof in front, which is equal, and how many are left; or the refusal, and `-`.
fn tell_front<T: Read + EncodeSize + OwnCopy + PartialEq>(
    alloc: Global,
    mut input: &[u8],
    cfg: &T::Cfg,
    out: &mut String,
) -> Result<(), Fault> {
    let proof = match T::read_cfg(alloc, &mut input, cfg) {
        Ok(proof) => proof,
        Err(error) => return (error, "-").tell(out),
    };
    let copy = proof.own_copy()?;
    if copy != proof {
        return Err(Fault::Differs);
    }
    (copy.encode(alloc)?, input.len()).tell(out)
}
