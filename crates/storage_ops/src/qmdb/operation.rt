//! What the operations of databases have in common.

ghost use Rattle.std.specs.Prelude.{◌≡◌, ℕ, List, ◌↔◌, true, Bool, Option, option_map};
ghost use Rattle.std.proofs.Common.{ap};
ghost use Rattle.storage_ops.specs.PrefixFree.{IsPrefixFree};
ghost use Rattle.storage_ops.specs.Laws.PrefixFree.{sized_prefix_free, vector_prefix_free};
ghost use Rattle.storage_ops.specs.Laws.Vectors.{vector_clones};
ghost use Rattle.std.proofs.lemmas.Slice.Eq.{bytes_eq-Decides};
ghost use Rattle.storage_codec.specs.Laws.Spelling.{vector_same};

pub(crate) mod commit;

use std::fmt::Debug;
use std::hash::Hash;
use storage_codec::codec::{Codec, EncodeSize, FixedBytes, U64};
use storage_merkle::merkle::{Family, Location};

/// A key. Its order is total and agrees with equality.
pub trait Key: Codec + EncodeSize + Clone + Ord + Hash + Debug {
    /// The bytes of the key itself, with no length.
    ghost bytes_of: { Self → List ℕ };

    /// Returns the bytes of the key itself, with no length before them.
    fn bytes(&self) -> &[u8]
        ensures { result.now ≡ bytes_of self.now };

    /// Keys are equal exactly if their encodings are.
    ghost same: { (x y : Self) → Self.PartialEq.eq x y ≡ true ↔ Self.text x ≡ Self.text y };

    /// A clone is seen and written as the key.
    ghost clones: { (x y : Self) → Self.is_clone x y → (Self.view y ≡ Self.view x) × (Self.text y ≡ Self.text x) };

    /// No key's encoding begins another's, and keys that are seen alike are written alike.
    ghost prefix_free: { IsPrefixFree Self.text Self.view };
}

/// An operation that may carry an inactivity floor.
pub trait Floored<F: Family> {
    /// The floor of a commit; none of another operation.
    ghost floor: { Self → Option ℕ };

    /// Returns the inactivity floor of a commit; none of another operation.
    fn has_floor(&self) -> Option<Location<F>>
        ensures { result ≡ floor self.now };
}

/// An operation of a database.
pub trait Operation<F: Family>: Floored<F> {
    /// The keys of the operations.
    type Key: Key;

    /// The key, where the operation has one.
    ghost key_of: { Self → Option Self.Key };

    /// Whether it gives a key a value.
    ghost updates: { Self → Bool };

    /// Whether it removes a key.
    ghost deletes: { Self → Bool };

    /// Returns the key, where the operation has one.
    fn key(&self) -> Option<&Self::Key>
        ensures { option_map (λ k. k.now) result ≡ key_of self.now };

    /// Returns the key, where the operation has one; the operation is given up.
    fn into_key(self) -> Option<Self::Key>
    where
        Self: Sized,
        ensures { result ≡ key_of self };

    /// Returns whether it gives a key a value.
    fn is_update(&self) -> bool
        ensures { result ≡ updates self.now };

    /// Returns whether it removes a key.
    fn is_delete(&self) -> bool
        ensures { result ≡ deletes self.now };
}

/// An operation that may be a commit.
pub trait Committable {
    /// Whether it is a commit.
    ghost commits: { Self → Bool };

    /// Returns whether it is a commit.
    fn is_commit(&self) -> bool
        ensures { result ≡ commits self.now };
}

impl<const N: usize> Key for FixedBytes<N> {
    ghost bytes_of = { λ k. k.bytes };

    fn bytes(&self) -> &[u8] {
        &self.bytes
    }

    ghost same = { λ x y. bytes_eq-Decides x.bytes y.bytes };

    ghost clones = { λ x y e. (ap (λ k. k.bytes) e, ap (λ k. k.bytes) e) };

    ghost prefix_free = { sized_prefix_free (λ k. k.bytes) (λ k. k.bytes) N
        (λ k. k.full) (λ x y e. e) };
}

impl Key for U64 {
    ghost bytes_of = { λ k. k.0.bytes };

    fn bytes(&self) -> &[u8] {
        U64::bytes(self)
    }

    ghost same = { λ x y. bytes_eq-Decides x.0.bytes y.0.bytes };

    ghost clones = { λ x y e. (ap (λ k. k.0.bytes) e, ap (λ k. k.0.bytes) e) };

    ghost prefix_free = { sized_prefix_free (λ k. k.0.bytes) (λ k. k.0.bytes) 8
        (λ k. k.0.full) (λ x y e. e) };
}

impl Key for Vec<u8> {
    ghost bytes_of = { λ k. k.items };

    fn bytes(&self) -> &[u8] {
        self.as_slice()
    }

    ghost same = { λ x y. vector_same x.items y.items };

    ghost clones = { λ x y e. vector_clones x.items y.items e.0 };

    ghost prefix_free = { vector_prefix_free (λ k. k.items) };
}
