//! Copies of keys and values, which are seen and written as the first ones.

ghost use Rattle.std.specs.Prelude.{◌≡◌, IfOk, option_map};

use storage_codec::NoMemory;
use storage_ops::qmdb::any::value::ValueEncoding;
use storage_ops::qmdb::operation::Key;

/// Returns a copy of `key`, which is seen and written as it.
pub(crate) fn key_as<K: Key>(key: &K) -> Result<K, NoMemory>
    ensures text { IfOk result (λ copy. K.text copy ≡ K.text key.now) }
    ensures seen { IfOk result (λ copy. K.view copy ≡ K.view key.now) }
{
    Ok(key.clone()?)
}

/// Returns a copy of `value`, which is seen and written as it; none for none.
pub(crate) fn value_as<V: ValueEncoding>(
    value: &Option<V::Value>,
) -> Result<Option<V::Value>, NoMemory>
    ensures text { IfOk result (λ copy.
        option_map V.Value.text copy ≡ option_map V.Value.text value.now) }
    ensures seen { IfOk result (λ copy.
        option_map V.Value.view copy ≡ option_map V.Value.view value.now) }
{
    match value {
        Some(value) => Ok(Some(value.clone()?)),
        None => Ok(None),
    }
}
