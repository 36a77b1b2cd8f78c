//! Lists on checks of the values of keys, and that keys have none.

use crate::shared::Given;
use commonware_storage::codec::{Decode, Error, FixedBytes, RangeCfg, Read, Small, U64};
use commonware_storage::digest::Hasher;
use commonware_storage::merkle::Graftable;
use commonware_storage::qmdb::any::{FixedEncoding, VariableEncoding, VariableValue};
use commonware_storage::qmdb::operation::Key;
use replay_columns::answers::Answer;
use replay_columns::columns::{Fault, Hex, bytes, halves, lengths, number, parse};
use std::alloc::Global;

/// A check of a key, by its bytes: its value by its encoding, and none if the key is to have no value.
#[derive(Drop)]
struct Case<D> {
    given: Given<D>,
    key: Vec<u8>,
    value: Option<Vec<u8>>,
}

/// `type proof key value root label` for `key_values`, the same without a value for `exclusions`, and `root key value proof` for
/// `golden_keys`, whose keys have four bytes and whose values are numbers or `absent`: whether the proof is accepted. It is not where
/// the claimed bytes are not one whole key or value of the type. The label says how the case was made.
pub fn answer<F: Graftable, H: Hasher>(
    alloc: Global,
    list: &str,
    chunk_size: usize,
    columns: &[&str],
    out: &mut String,
) -> Result<(), Fault> {
    match (list, columns) {
        ("key_values", [kind, proof, key, value, root, _]) => {
            let value = Some(bytes(alloc, *value)?);
            tell_shown::<F, H>(alloc, *kind, chunk_size, &[*proof, *key, *root], value, out)
        }
        ("exclusions", [kind, proof, key, root, _]) => {
            tell_shown::<F, H>(alloc, *kind, chunk_size, &[*proof, *key, *root], None, out)
        }
        ("golden_keys", [root, key, value, proof]) => {
            let (kind, value) = ("ordered-fixed/fixed4/u64", encoded_number(alloc, *value)?);
            tell_shown::<F, H>(alloc, kind, chunk_size, &[*proof, *key, *root], value, out)
        }
        _ => Err(Fault::Malformed),
    }
}

/// `proof key root`: adds whether the proof is accepted, for keys and values of a type.
fn tell_shown<F: Graftable, H: Hasher>(
    alloc: Global,
    kind: &str,
    chunk_size: usize,
    columns: &[&str],
    value: Option<Vec<u8>>,
    out: &mut String,
) -> Result<(), Fault> {
    let (proof, key, Hex(root)): (Vec<u8>, Vec<u8>, Hex<H::Digest>) = parse(alloc, columns)?;
    let given = Given {
        proof,
        chunk_size,
        root,
    };
    let case = Case { given, key, value };
    by_type::<F, H>(alloc, kind, &case)?.tell(out)
}

/// Returns the encoding of a number; none for `absent`.
fn encoded_number(alloc: Global, text: &str) -> Result<Option<Vec<u8>>, Fault> {
    if text == "absent" {
        return Ok(None);
    }
    let number = number(text)?;
    Ok(Some(Vec::from_slice(alloc, &number.to_be_bytes())?))
}

/// Any length.
const ANY: RangeCfg = RangeCfg {
    min: 0,
    max: usize::MAX,
};

/// Returns the answer for a type `ordered-ENCODING/KEY/VALUE`.
fn by_type<F: Graftable, H: Hasher>(
    alloc: Global,
    kind: &str,
    case: &Case<H::Digest>,
) -> Result<bool, Fault> {
    let (shape, types) = halves(kind, '/')?;
    let (key, value) = halves(types, '/')?;
    match (shape, key, value) {
        ("ordered-fixed", "fixed4", "u64") => fixed::<F, H, FixedBytes<4>>(alloc, case),
        ("ordered-fixed", "u64", "u64") => fixed::<F, H, U64>(alloc, case),
        ("ordered-variable", "fixed4", _) => {
            by_value::<F, H, FixedBytes<4>>(alloc, (), (), value, case)
        }
        ("ordered-variable", "u64", _) => by_value::<F, H, U64>(alloc, (), (), value, case),
        ("ordered-variable", _, _) => {
            by_value::<F, H, Vec<u8>>(alloc, (lengths(key)?, ()), (ANY, ()), value, case)
        }
        _ => Err(Fault::Malformed),
    }
}

/// Returns the answer for keys that are read as `key` says, and alone as `own` says.
fn by_value<F: Graftable, H: Hasher, K: Key>(
    alloc: Global,
    key: K::Cfg,
    own: K::Cfg,
    value: &str,
    case: &Case<H::Digest>,
) -> Result<bool, Fault>
where
    K::Cfg: Drop,
{
    if value == "u64" {
        return variable::<F, H, K, u64>(alloc, &((key, ()), ()), (&own, &()), case);
    }
    let value = (lengths(value)?, ());
    variable::<F, H, K, Vec<u8>>(alloc, &((key, value), value), (&own, &(ANY, ())), case)
}

/// Returns the key or value that claimed bytes are; none if they are not one whole of its type.
fn claimed<T: Read>(alloc: Global, bytes: &[u8], cfg: &T::Cfg) -> Result<Option<T>, Fault> {
    match T::decode_cfg(alloc, bytes, cfg) {
        Ok(value) => Ok(Some(value)),
        Err(Error::Memory) => Err(Fault::Memory),
        Err(_) => Ok(None),
    }
}

fn fixed<F: Graftable, H: Hasher, K: Key + Small + Read<Cfg = ()>>(
    alloc: Global,
    case: &Case<H::Digest>,
) -> Result<bool, Fault> {
    let given = &case.given;
    let Some(key) = claimed::<K>(alloc, &case.key, &())? else {
        return Ok(false);
    };
    let Some(bytes) = &case.value else {
        return given.shows_absence::<F, H, K, FixedEncoding<u64>>(alloc, &((), ()), &key);
    };
    let Some(value) = claimed::<u64>(alloc, bytes, &())? else {
        return Ok(false);
    };
    let again = K::decode_cfg(alloc, case.key.as_slice(), &())?;
    given.shows_value::<F, H, K, FixedEncoding<u64>>(alloc, &(), (key, value), (again, value))
}

/// Returns the answer where the key and the value alone, which are read as `own` says, may have any length.
fn variable<F: Graftable, H: Hasher, K: Key, V: VariableValue>(
    alloc: Global,
    cfgs: &((K::Cfg, V::Cfg), V::Cfg),
    own: (&K::Cfg, &V::Cfg),
    case: &Case<H::Digest>,
) -> Result<bool, Fault> {
    let given = &case.given;
    let Some(key) = claimed::<K>(alloc, &case.key, own.0)? else {
        return Ok(false);
    };
    let Some(bytes) = &case.value else {
        return given.shows_absence::<F, H, K, VariableEncoding<V>>(alloc, cfgs, &key);
    };
    let Some(value) = claimed::<V>(alloc, bytes, own.1)? else {
        return Ok(false);
    };
    let again = (
        K::decode_cfg(alloc, case.key.as_slice(), own.0)?,
        V::decode_cfg(alloc, bytes.as_slice(), own.1)?,
    );
    given.shows_value::<F, H, K, VariableEncoding<V>>(alloc, &cfgs.0.0, (key, value), again)
}
