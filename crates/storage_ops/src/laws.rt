//! Laws of operations, each as the contract of a function with an empty body.

ghost use Rattle.std.specs.Prelude.{◌≡◌, ◌&&◌, true};
ghost use Rattle.storage_merkle.specs.Equality.{AnswersAs, EqualAsSeen, EqualToItself};
ghost use Rattle.storage_ops.specs.Equality.{operation_eq};
ghost use Rattle.storage_ops.specs.Operations.{OperationView, operation_map, parts};

use crate::qmdb::any::operation::update::{Ordered, Unordered};
use crate::qmdb::any::operation::{Operation, OperationCodec, Update};
use crate::qmdb::any::value::{
    FixedEncoding, FixedValue, ValueEncoding, VariableEncoding, VariableValue,
};
use crate::qmdb::operation::Key;
use storage_codec::codec::{FixedBytes, Read, U64};
use storage_merkle::merkle::Family;

/// Equal encodings are of operations that are seen as equal, also where a commit's floor is past those that are read.
pub fn equal_encodings_of_equal_operations<F: Family, S: Update>()
where
    S::ValueEncoding: OperationCodec<F, S>,
    ensures { (cfg : S.ValueEncoding.ReadCfg) (x y : OperationView S.Key S S.Value)
        → S.ValueEncoding.operation_fits cfg x
        → S.ValueEncoding.operation_fits cfg y
        → S.ValueEncoding.operation_text (operation_map S.Key.text S.text S.Value.text x)
        ≡ S.ValueEncoding.operation_text (operation_map S.Key.text S.text S.Value.text y)
        → operation_map S.Key.view S.seen S.Value.view x
        ≡ operation_map S.Key.view S.seen S.Value.view y }
{}

/// Updates that name the next key are equal exactly where their keys, their values and their next keys are. Where equal
/// keys and equal values are those that are seen alike, so are equal updates; where each is equal to itself alone, so is
/// each update.
pub fn equal_ordered_updates<K: Key, V: ValueEncoding>()
where
    V::Value: PartialEq,
    ensures parts { AnswersAs ⟦<Ordered<K, V> as PartialEq>⟧.eq (λ x y. K.PartialEq.eq x.key y.key
        && V.Value.PartialEq.eq x.value y.value && K.PartialEq.eq x.next_key y.next_key) }
    ensures seen { EqualAsSeen K.PartialEq.eq K.view
        → EqualAsSeen V.Value.PartialEq.eq V.Value.view
        → EqualAsSeen ⟦<Ordered<K, V> as PartialEq>⟧.eq ⟦<Ordered<K, V> as Update>⟧.seen }
    ensures exact { EqualToItself K.PartialEq.eq
        → EqualToItself V.Value.PartialEq.eq
        → EqualToItself ⟦<Ordered<K, V> as PartialEq>⟧.eq }
{}

/// Updates with no other key are equal exactly where their keys and their values are. Where equal keys and equal values
/// are those that are seen alike, so are equal updates; where each is equal to itself alone, so is each update.
pub fn equal_unordered_updates<K: Key, V: ValueEncoding>()
where
    V::Value: PartialEq,
    ensures parts { AnswersAs ⟦<Unordered<K, V> as PartialEq>⟧.eq (λ x y.
        K.PartialEq.eq x.0 y.0 && V.Value.PartialEq.eq x.1 y.1) }
    ensures seen { EqualAsSeen K.PartialEq.eq K.view
        → EqualAsSeen V.Value.PartialEq.eq V.Value.view
        → EqualAsSeen ⟦<Unordered<K, V> as PartialEq>⟧.eq ⟦<Unordered<K, V> as Update>⟧.seen }
    ensures exact { EqualToItself K.PartialEq.eq
        → EqualToItself V.Value.PartialEq.eq
        → EqualToItself ⟦<Unordered<K, V> as PartialEq>⟧.eq }
{}

/// Operations are equal exactly where they are of one case and their parts are equal. Where equal parts are those that
/// are seen alike, so are equal operations, and a clone equals its source; where each part is equal to itself alone, so
/// is each operation.
pub fn equal_operations<F: Family, S: Update + PartialEq>()
where
    S::Value: PartialEq,
    ensures parts { AnswersAs ⟦<Operation<F, S> as PartialEq>⟧.eq (λ x y.
        operation_eq S.Key.PartialEq.eq S.PartialEq.eq S.Value.PartialEq.eq (parts x) (parts y)) }
    ensures seen { EqualAsSeen S.Key.PartialEq.eq S.Key.view
        → EqualAsSeen S.PartialEq.eq S.seen
        → EqualAsSeen S.Value.PartialEq.eq S.Value.view
        → EqualAsSeen ⟦<Operation<F, S> as PartialEq>⟧.eq (λ x.
        operation_map S.Key.view S.seen S.Value.view (parts x)) }
    ensures exact { EqualToItself S.Key.PartialEq.eq
        → EqualToItself S.PartialEq.eq
        → EqualToItself S.Value.PartialEq.eq
        → EqualToItself ⟦<Operation<F, S> as PartialEq>⟧.eq }
{}

/// Byte strings of one length, integer keys, byte vectors and integers are equal exactly where they are seen alike.
pub fn equal_keys_and_values<const N: usize>()
    ensures byte_strings { EqualAsSeen ⟦<FixedBytes<N> as PartialEq>⟧.eq
        ⟦<FixedBytes<N> as Read>⟧.view }
    ensures integer_keys { EqualAsSeen ⟦<U64 as PartialEq>⟧.eq ⟦<U64 as Read>⟧.view }
    ensures vectors { EqualAsSeen ⟦<Vec<u8> as PartialEq>⟧.eq ⟦<Vec<u8> as Read>⟧.view }
    ensures integers { EqualAsSeen ⟦<u64 as PartialEq>⟧.eq ⟦<u64 as Read>⟧.view }
{}

/// An encoding has no parts, so any two of one type are equal.
pub fn equal_value_encodings<V: FixedValue, W: VariableValue>()
    ensures fixed { AnswersAs ⟦<FixedEncoding<V> as PartialEq>⟧.eq (λ _ _. true) }
    ensures variable { AnswersAs ⟦<VariableEncoding<W> as PartialEq>⟧.eq (λ _ _. true) }
    ensures fixed_exact { EqualToItself ⟦<FixedEncoding<V> as PartialEq>⟧.eq }
    ensures variable_exact { EqualToItself ⟦<VariableEncoding<W> as PartialEq>⟧.eq }
{}
