//! Lists on the encodings of operations.

use crate::asked;
use crate::spelling::{Parse, Show, Spell};
use replay_columns::answers::{Answer, Unblanked};
use replay_columns::columns::{Fault, bytes, halves, lengths};
use std::alloc::Global;
use storage_codec::codec::{Decode, Encode, EncodeSize, FixedBytes, FixedSize, Read, Small, U64};
use storage_merkle::merkle::mmr;
use storage_ops::qmdb::any::operation::update::{Ordered, Unordered};
use storage_ops::qmdb::any::operation::{Operation, OperationCodec, Update};
use storage_ops::qmdb::any::value::{FixedEncoding, VariableEncoding, VariableValue};
use storage_ops::qmdb::operation::Key;

/// A list, and what stands in the columns of a case behind the type.
type Job<'a> = (&'a str, &'a [&'a str]);

/// `type bytes` for `operations`: the operation in front, how many bytes are left, and the operation that all bytes are.
/// `type operation` for `written`: its bytes, the size of all operations of the type, and its text. The other lists are those of
/// `asked`.
pub fn answer(alloc: Global, list: &str, columns: &[&str], out: &mut String) -> Result<(), Fault> {
    let [kind, texts @ ..] = columns else {
        return Err(Fault::Malformed);
    };
    let (shape, types) = halves(*kind, '/')?;
    let (key, value) = halves(types, '/')?;
    let job = (list, texts);
    match key {
        "fixed4" => by_value::<FixedBytes<4>>(alloc, shape, value, job, out),
        "fixed8" => by_value::<FixedBytes<8>>(alloc, shape, value, job, out),
        "u64" => by_value::<U64>(alloc, shape, value, job, out),
        _ => variable::<Vec<u8>>(alloc, shape, (lengths(key)?, ()), value, job, out),
    }
}

/// Answers a job for keys that all have one size.
fn by_value<K: Key + Parse + Small + Read<Cfg = ()>>(
    alloc: Global,
    shape: &str,
    value: &str,
    job: Job<'_>,
    out: &mut String,
) -> Result<(), Fault> {
    match (shape, value) {
        ("ordered-fixed", "u64") => sized::<Ordered<K, FixedEncoding<u64>>>(alloc, job, out),
        ("unordered-fixed", "u64") => sized::<Unordered<K, FixedEncoding<u64>>>(alloc, job, out),
        _ => variable::<K>(alloc, shape, (), value, job, out),
    }
}

/// Answers a job over operations that all have one size.
fn sized<S: Update + Spell + PartialEq>(
    alloc: Global,
    job: Job<'_>,
    out: &mut String,
) -> Result<(), Fault>
where
    S::Key: Parse,
    S::Value: Spell + PartialEq,
    S::ValueEncoding: OperationCodec<mmr::Family, S, ReadCfg = ()>,
    Operation<mmr::Family, S>: EncodeSize + FixedSize,
{
    let size = Operation::<mmr::Family, S>::fixed_size();
    done::<S>(alloc, &(), job, Some(size), out)
}

/// Answers a job for keys of any size.
fn variable<K: Key + Parse>(
    alloc: Global,
    shape: &str,
    key: K::Cfg,
    value: &str,
    job: Job<'_>,
    out: &mut String,
) -> Result<(), Fault>
where
    K::Cfg: Drop,
{
    if value == "u64" {
        return by_shape::<K, u64>(alloc, shape, &(key, ()), job, out);
    }
    by_shape::<K, Vec<u8>>(alloc, shape, &(key, (lengths(value)?, ())), job, out)
}

fn by_shape<K: Key + Parse, V: VariableValue + Spell + PartialEq>(
    alloc: Global,
    shape: &str,
    cfg: &(K::Cfg, V::Cfg),
    job: Job<'_>,
    out: &mut String,
) -> Result<(), Fault> {
    match shape {
        "ordered-variable" => {
            done::<Ordered<K, VariableEncoding<V>>>(alloc, cfg, job, None, out)
        }
        "unordered-variable" => {
            done::<Unordered<K, VariableEncoding<V>>>(alloc, cfg, job, None, out)
        }
        _ => Err(Fault::Malformed),
    }
}

/// Answers a job over the operations of one type of updates, which may all have one size.
fn done<S: Update + Spell + PartialEq>(
    alloc: Global,
    cfg: &<S::ValueEncoding as OperationCodec<mmr::Family, S>>::ReadCfg,
    job: Job<'_>,
    size: Option<usize>,
    out: &mut String,
) -> Result<(), Fault>
where
    S::Key: Parse,
    S::Value: Spell + PartialEq,
    S::ValueEncoding: OperationCodec<mmr::Family, S>,
    Operation<mmr::Family, S>: EncodeSize,
{
    match job {
        ("operations", [text]) => tell_read::<Operation<mmr::Family, S>>(alloc, *text, cfg, out),
        ("written", [text]) => tell_written::<Operation<mmr::Family, S>>(alloc, *text, size, out),
        (list, texts) => asked::answer::<S>(alloc, list, texts, out),
    }
}

/// Adds the bytes of an operation, the size of all operations of its type, and its text.
fn tell_written<O: EncodeSize + Spell + Show + Drop>(
    alloc: Global,
    text: &str,
    size: Option<usize>,
    out: &mut String,
) -> Result<(), Fault> {
    let operation = O::parse(alloc, text)?;
    let bytes = operation.encode(alloc)?;
    if operation.encode_size() != Some(bytes.len() as u64) {
        return Err(Fault::Malformed);
    }
    let text = operation.show(alloc)?;
    (bytes, size, Unblanked(text.as_str())).tell(out)
}

/// Adds the operation in front of bytes, how many are left, and the operation that all bytes are, or the refusals.
fn tell_read<O: Read + Spell>(
    alloc: Global,
    text: &str,
    cfg: &O::Cfg,
    out: &mut String,
) -> Result<(), Fault> {
    let input = bytes(alloc, text)?;
    tell_front::<O>(alloc, &input, cfg, out)?;
    match O::decode_cfg(alloc, input.as_slice(), cfg) {
        Ok(operation) => operation.spell(out),
        Err(error) => error.tell(out),
    }
}

/// Adds the operation in front of bytes, and how many are left, or the refusal.
fn tell_front<O: Read + Spell>(
    alloc: Global,
    input: &[u8],
    cfg: &O::Cfg,
    out: &mut String,
) -> Result<(), Fault> {
    let mut left = input;
    match O::read_cfg(alloc, &mut left, cfg) {
        Ok(operation) => {
            operation.spell(out)?;
            Ok(write!(out, " {} ", left.len())?)
        }
        Err(error) => (error, "- ").tell(out),
    }
}
