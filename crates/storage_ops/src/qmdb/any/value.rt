//! Values of one size, and of any size.

ghost use Rattle.std.specs.Prelude.{◌≡◌, ℕ, List};
ghost use Rattle.std.specs.Int.{w64, to_be_bytes};
ghost use Rattle.std.proofs.Common.{ap};
ghost use Rattle.storage_ops.specs.PrefixFree.{IsPrefixFree};
ghost use Rattle.storage_ops.specs.Laws.PrefixFree.{number_prefix_free, sized_prefix_free, vector_prefix_free};
ghost use Rattle.storage_ops.specs.Laws.Vectors.{vector_clones};

use std::marker::PhantomData;
use storage_codec::codec::{Codec, EncodeSize, FixedBytes, Read, Small, U64};

mod sealed {
    /// Keeps the encodings to those of this module.
    pub trait Sealed {}
}

/// A value whose encodings all have one size.
pub trait FixedValue: Codec + EncodeSize + Small + Read<Cfg = ()> + Clone {
    /// A clone is seen and written as the value.
    ghost clones: { (x y : Self) → Self.is_clone x y → (Self.view y ≡ Self.view x) × (Self.text y ≡ Self.text x) };

    /// No value's encoding begins another's, and values that are seen alike are written alike.
    ghost prefix_free: { IsPrefixFree Self.text Self.view };
}

/// A value of any size.
pub trait VariableValue: Codec + EncodeSize + Clone {
    /// A clone is seen and written as the value.
    ghost clones: { (x y : Self) → Self.is_clone x y → (Self.view y ≡ Self.view x) × (Self.text y ≡ Self.text x) };

    /// No value's encoding begins another's, and values that are seen alike are written alike.
    ghost prefix_free: { IsPrefixFree Self.text Self.view };
}

/// How values are encoded: with one size, or with any.
pub trait ValueEncoding: sealed::Sealed {
    /// The values that are encoded.
    type Value: Codec + EncodeSize + Clone;

    /// A clone is seen and written as the value.
    ghost clones: { (x y : Self.Value) → Self.Value.is_clone x y → (Self.Value.view y ≡ Self.Value.view x) × (Self.Value.text y ≡ Self.Value.text x) };

    /// No value's encoding begins another's, and values that are seen alike are written alike.
    ghost prefix_free: { IsPrefixFree Self.Value.text Self.Value.view };
}

/// The encoding of values that all have one size.
#[derive(Drop)]
#[derive_where(Clone, Copy, Debug, PartialEq, Eq)]
pub struct FixedEncoding<V: FixedValue>(PhantomData<V>);

impl<V: FixedValue> sealed::Sealed for FixedEncoding<V> {}

impl<V: FixedValue> ValueEncoding for FixedEncoding<V> {
    type Value = V;

    ghost clones = { V.clones };

    ghost prefix_free = { V.prefix_free };
}

/// The encoding of values of any size.
#[derive(Drop)]
#[derive_where(Clone, Copy, Debug, PartialEq, Eq)]
pub struct VariableEncoding<V: VariableValue>(PhantomData<V>);

impl<V: VariableValue> sealed::Sealed for VariableEncoding<V> {}

impl<V: VariableValue> ValueEncoding for VariableEncoding<V> {
    type Value = V;

    ghost clones = { V.clones };

    ghost prefix_free = { V.prefix_free };
}

impl<const N: usize> FixedValue for FixedBytes<N> {
    ghost clones = { λ x y e. (ap (λ k. k.bytes) e, ap (λ k. k.bytes) e) };

    ghost prefix_free = { sized_prefix_free (λ v. v.bytes) (λ v. v.bytes) N
        (λ v. v.full) (λ x y e. e) };
}

impl FixedValue for u64 {
    ghost clones = { λ x y e. (e, ap (to_be_bytes w64) e) };

    ghost prefix_free = { number_prefix_free };
}

impl VariableValue for u64 {
    ghost clones = { λ x y e. (e, ap (to_be_bytes w64) e) };

    ghost prefix_free = { number_prefix_free };
}

impl<const N: usize> VariableValue for FixedBytes<N> {
    ghost clones = { λ x y e. (ap (λ k. k.bytes) e, ap (λ k. k.bytes) e) };

    ghost prefix_free = { sized_prefix_free (λ v. v.bytes) (λ v. v.bytes) N
        (λ v. v.full) (λ x y e. e) };
}

impl FixedValue for U64 {
    ghost clones = { λ x y e. (ap (λ k. k.0.bytes) e, ap (λ k. k.0.bytes) e) };

    ghost prefix_free = { sized_prefix_free (λ v. v.0.bytes) (λ v. v.0.bytes) 8
        (λ v. v.0.full) (λ x y e. e) };
}

impl VariableValue for U64 {
    ghost clones = { λ x y e. (ap (λ k. k.0.bytes) e, ap (λ k. k.0.bytes) e) };

    ghost prefix_free = { sized_prefix_free (λ v. v.0.bytes) (λ v. v.0.bytes) 8
        (λ v. v.0.full) (λ x y e. e) };
}

impl VariableValue for Vec<u8> {
    ghost clones = { λ x y e. vector_clones x.items y.items e.0 };

    ghost prefix_free = { vector_prefix_free (λ v. v.items) };
}
