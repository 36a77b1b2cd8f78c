//! What the operations of a database are written as.

ghost use Rattle.std.specs.Prelude.{◌≡◌, ◌++◌, None, Some, IfOk, MatchOption, option_map};
ghost use Rattle.storage_ops.specs.Operations.{operation_map, parts, Delete};
ghost use Rattle.storage_current.specs.Keys.{keyed_by, update_text, commit_text};
ghost use Rattle.storage_db.specs.Rings.{next_key};

use crate::db::active::{Active, next_key};
use std::alloc::Global;
use std::collections::BTreeMap;
use storage_codec::NoMemory;
use storage_merkle::merkle::{Family, Location};
use storage_ops::qmdb::any::operation::update::Ordered as Update;
use storage_ops::qmdb::any::operation::{Operation, OperationCodec};
use storage_ops::qmdb::any::value::ValueEncoding;
use storage_ops::qmdb::operation::Key;

/// Returns what `operation` is written as.
fn written<F: Family, K: Key, V: OperationCodec<F, Update<K, V>>>(
    alloc: Global,
    operation: &Operation<F, Update<K, V>>,
) -> Result<Vec<u8>, NoMemory>
    ensures { IfOk result (λ bytes. bytes.items ≡ V.operation_text (operation_map K.text
        (λ u. K.text u.key ++ V.Value.text u.value ++ K.text u.next_key) V.Value.text
        (parts operation.now))) }
{
    let mut bytes = Vec::new(alloc);
    V::write_operation(operation, &mut bytes)?;
    Ok(bytes)
}

/// Returns the update of `key` to `value` that names `next_key`, as it is written.
pub(crate) fn written_update<F: Family, K: Key, V: OperationCodec<F, Update<K, V>>>(
    alloc: Global,
    key: &K,
    value: &V::Value,
    next_key: &K,
) -> Result<Vec<u8>, NoMemory>
    ensures { let e = keyed_by K.text V.Value.text V.operation_text K.cmp in
        IfOk result (λ bytes. bytes.items ≡ update_text e key.now value.now next_key.now) }
{
    let operation = Operation::<F, Update<K, V>>::Update(Update {
        key: key.clone()?,
        value: value.clone()?,
        next_key: next_key.clone()?,
    });
    written::<F, K, V>(alloc, &operation)
}

/// Returns the deletion of `key`, as it is written.
pub(crate) fn written_delete<F: Family, K: Key, V: OperationCodec<F, Update<K, V>>>(
    alloc: Global,
    key: &K,
) -> Result<Vec<u8>, NoMemory>
    ensures { IfOk result (λ bytes. bytes.items ≡ V.operation_text (Delete (K.text key.now))) }
{
    let operation = Operation::<F, Update<K, V>>::Delete(key.clone()?);
    written::<F, K, V>(alloc, &operation)
}

/// Returns the commit with the value `metadata` and the floor `floor`, as it is written.
pub(crate) fn written_commit<F: Family, K: Key, V: OperationCodec<F, Update<K, V>>>(
    alloc: Global,
    metadata: &Option<V::Value>,
    floor: Location<F>,
) -> Result<Vec<u8>, NoMemory>
    ensures { let e = keyed_by K.text V.Value.text V.operation_text K.cmp in
        IfOk result (λ bytes. bytes.items ≡ commit_text e metadata.now floor) }
{
    let metadata = value_copy::<V>(metadata)?;
    let operation = Operation::<F, Update<K, V>>::CommitFloor(metadata, floor);
    written::<F, K, V>(alloc, &operation)
}

/// Returns a copy of the value of a commit, which is written as it; none for none.
pub(crate) fn value_copy<V: ValueEncoding>(
    value: &Option<V::Value>,
) -> Result<Option<V::Value>, NoMemory>
    ensures { IfOk result (λ copy.
        option_map V.Value.text copy ≡ option_map V.Value.text value.now) }
{
    match value {
        Some(value) => Ok(Some(value.clone()?)),
        None => Ok(None),
    }
}

/// Returns a copy of the other active key that comes first after `key`, around past the greatest; of `key` if there is
/// none.
pub(crate) fn next_or_own<K: Key, W>(
    active: &BTreeMap<K, Active<W>>,
    key: &K,
) -> Result<K, NoMemory>
    ensures { IfOk result (λ next. K.text next ≡ K.text (next_key K.cmp active.now.entries key.now)) }
{
    match next_key(active, key) {
        Some(next) => Ok(next.clone()?),
        None => Ok(key.clone()?),
    }
}

/// Returns the key of `before`, which is an active one, and its update, its value kept, that names `next_key`, as it is
/// written; none for none.
pub(crate) fn predecessor_update<F: Family, K: Key, V: OperationCodec<F, Update<K, V>>>(
    alloc: Global,
    before: Option<(&K, &Active<V::Value>)>,
    next_key: &K,
) -> Result<Option<(K, Vec<u8>)>, NoMemory>
    ensures { let e = keyed_by K.text V.Value.text V.operation_text K.cmp in
        let seen = option_map (λ p. (p.0.now, p.1.now)) before.entry in
        IfOk result (λ found. MatchOption found (seen ≡ None)
        (λ r. (p : K × Active V.Value) × (seen ≡ Some p) × (K.text r.0 ≡ K.text p.0)
        × (r.1.items ≡ update_text e p.0 p.1.value next_key.now))) }
{
    let Some((start, entry)) = before else {
        return Ok(None);
    };
    let bytes = written_update::<F, K, V>(alloc, start, &entry.value, next_key)?;
    Ok(Some((start.clone()?, bytes)))
}
