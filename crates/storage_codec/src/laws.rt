//! Laws of the definitions that codecs and digests stand on, each as the contract of a function
//! with an empty body.

ghost use Rattle.std.specs.Prelude.{◌≡◌, ◌≢◌, ◌↔◌, ◌+◌, ◌*◌, ◌<◌, ◌≤◌, ◌^◌, ℕ, List, [], ◌++◌, length, All, Ok, Err, true};
ghost use Rattle.std.specs.Int.{w64, from_be_bytes, to_be_bytes};
ghost use Rattle.std.specs.Ordering.{nat_cmp};
ghost use Rattle.std.specs.Str.{bytes_eq};
ghost use Rattle.storage_codec.specs.Codec.{varint_at, whole};
ghost use Rattle.storage_codec.specs.Faults.{EndOfBuffer};
ghost use Rattle.storage_codec.specs.Parts.{IsBytes, varint_text, vector_text};

use crate::codec::{Canonical, Codec, FixedBytes, U64, Write};

/// Bytes that begin with an encoding begin with one only, and what follows it is settled.
pub fn one_encoding_in_front<T: Codec>()
    ensures { (cfg : T.Cfg) (x y : T) (r s : List ℕ) → T.admits cfg x
        → T.admits cfg y
        → T.text x ++ r ≡ T.text y ++ s
        → (T.view x ≡ T.view y) × (r ≡ s) }
{}

/// No encoding begins another: where one does, they are of one value.
pub fn prefix_free<T: Codec>()
    ensures { (cfg : T.Cfg) (x y : T) (rest : List ℕ) → T.admits cfg x
        → T.admits cfg y
        → T.text y ≡ T.text x ++ rest
        → (T.view x ≡ T.view y) × (rest ≡ []) }
{}

/// Values are seen alike exactly where their encodings are equal.
pub fn equal_encodings_of_equal_views<T: Canonical>()
    ensures { (cfg : T.Cfg) (x y : T) → T.admits cfg x
        → T.admits cfg y
        → IsBytes (T.text x)
        → (T.view x ≡ T.view y) ↔ (T.text x ≡ T.text y) }
{}

/// What is read in front of other bytes is exactly what was written there.
pub fn read_exactly_where_written<T: Canonical>()
    ensures { (cfg : T.Cfg) (bytes : List ℕ) (x : T) (rest : List ℕ) → T.admits cfg x
        → IsBytes bytes
        → (T.parse cfg bytes ≡ Ok (T.view x, rest)) ↔ (bytes ≡ T.text x ++ rest) }
{}

/// Bytes decode whole to a value exactly where they are its encoding.
pub fn whole_encoding<T: Canonical>()
    ensures { (cfg : T.Cfg) (bytes : List ℕ) (x : T) → T.admits cfg x
        → IsBytes bytes
        → (whole (T.parse cfg bytes) ≡ Ok (T.view x, [])) ↔ (bytes ≡ T.text x) }
{}

/// Byte strings of one length are equal exactly where their encodings are.
pub fn equal_fixed_bytes_by_encoding<const N: usize>()
    ensures { (x y : FixedBytes N) → (⟦<FixedBytes<N> as PartialEq>⟧.eq x y ≡ true)
        ↔ (⟦<FixedBytes<N> as Write>⟧.text x ≡ ⟦<FixedBytes<N> as Write>⟧.text y) }
{}

/// Integer keys are equal exactly where their encodings are.
pub fn equal_integer_keys_by_encoding()
    ensures { (x y : U64) → (⟦<U64 as PartialEq>⟧.eq x y ≡ true)
        ↔ (⟦<U64 as Write>⟧.text x ≡ ⟦<U64 as Write>⟧.text y) }
{}

/// Byte vectors are equal exactly where their encodings are.
pub fn equal_vectors_by_encoding()
    ensures { (xs ys : List ℕ) → (bytes_eq xs ys ≡ true) ↔ (vector_text xs ≡ vector_text ys) }
{}

/// Integer keys are ordered as their numbers are.
pub fn integer_keys_by_number()
    ensures { (x y : U64) → IsBytes x.0.bytes
        → IsBytes y.0.bytes
        → ⟦<U64 as Ord>⟧.cmp x y
        ≡ nat_cmp (from_be_bytes w64 x.0.bytes) (from_be_bytes w64 y.0.bytes) }
{}

/// A varint is read exactly where the shortest spelling of a number below `2^64` stands in front.
pub fn varint_read_exactly_where_spelled()
    ensures { (bytes : List ℕ) (n : ℕ) (rest : List ℕ) → IsBytes bytes
        → (varint_at bytes ≡ Ok (n, rest)) ↔ ((n < 2 ^ 64) × (bytes ≡ varint_text n ++ rest)) }
{}

/// The bytes end before a varint does exactly where they are fewer than ten, and each asks for
/// another and is none of a longer spelling than the shortest.
pub fn varint_cut_short()
    ensures { (bytes : List ℕ)
        → (varint_at bytes ≡ Err EndOfBuffer) ↔ ((length bytes < 10) × All (λ b. 128 ≤ b) bytes) }
{}

/// A varint has as few groups of seven bits as hold its number, and at most ten.
pub fn varint_shortest()
    ensures fewest { (n k : ℕ) → 0 < k → k < 10 → (length (varint_text n) ≤ k) ↔ (n < 128 ^ k) }
    ensures most { (n : ℕ) → length (varint_text n) ≤ 10 }
{}
