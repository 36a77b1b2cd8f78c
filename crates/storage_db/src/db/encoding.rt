//! How a database's operations are written.

ghost use Rattle.std.specs.Prelude.{◌≡◌, ℕ, List, ◌+◌, refl};
ghost use Rattle.storage_ops.specs.Fixed.{fixed_operation_text};
ghost use Rattle.storage_ops.specs.Operations.{OperationView};
ghost use Rattle.storage_ops.specs.Variable.{variable_operation_text};

use storage_codec::codec::{Read, Small};
use storage_merkle::merkle::Family;
use storage_ops::qmdb::any::operation::OperationCodec;
use storage_ops::qmdb::any::operation::update::Ordered as Update;
use storage_ops::qmdb::any::value::{
    FixedEncoding, FixedValue, ValueEncoding, VariableEncoding, VariableValue,
};
use storage_ops::qmdb::operation::Key;

/// An encoding of values that settles what operations over the keys `K` are written as. A database's type asks no more than
/// this of its values, so that its invariant can name its operations.
pub trait KeyedEncoding<K: Key>: ValueEncoding {
    /// The bytes of an operation, from those of its parts.
    ghost keyed_text: { OperationView (List ℕ) (List ℕ) (List ℕ) → List ℕ };
}

impl<K: Key + Small + Read<Cfg = ()>, V: FixedValue> KeyedEncoding<K> for FixedEncoding<V> {
    ghost keyed_text = { fixed_operation_text K.size (K.size + V.size + K.size) V.size };
}

impl<K: Key, V: VariableValue> KeyedEncoding<K> for VariableEncoding<V> {
    ghost keyed_text = { variable_operation_text };
}

/// An encoding of values by which the operations of a database over the keys `K` are written and read.
pub trait OrderedCodec<F: Family, K: Key>: OperationCodec<F, Update<K, Self>> + KeyedEncoding<K> {
    /// Operations are written as the keys and the encoding settle.
    ghost agrees: { Self.operation_text ≡ Self.keyed_text };
}

impl<F: Family, K: Key + Small + Read<Cfg = ()>, V: FixedValue> OrderedCodec<F, K>
    for FixedEncoding<V> {
    ghost agrees = { refl };
}

impl<F: Family, K: Key, V: VariableValue> OrderedCodec<F, K> for VariableEncoding<V> {
    ghost agrees = { refl };
}
