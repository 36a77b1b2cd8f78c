//! Proofs that a key has no value.
//!
//! ```text
//! keys in order     a ---> c ---> f ---> a            an active update names the next active key, the greatest one the least
//! b has no value    by the update of a, which names c
//! g has no value    by the update of f, which names a: the ring goes around there
//! ```
//!
//! If no key is active at all, a commit whose floor is its own location shows it: no operation before it is active.

ghost use Rattle.std.specs.Prelude.{◌≡◌, ◌↔◌, ◌⊎◌, IfOk, IsTrue, Ok, true, false, ℕ, ◌+◌, ◌%◌, ◌^◌, length};
ghost use Rattle.storage_bitmap.specs.Chunks.{IsChunkSize};
ghost use Rattle.storage_bitmap.specs.Packed.{bit_in};
ghost use Rattle.storage_current.specs.HeldKeys.{exclusion_of, exclusion_seen};
ghost use Rattle.storage_current.specs.KeyProofs.{Allows, Exclusion, IsExcluded, MeansAbsent, proof_in};
ghost use Rattle.storage_current.specs.Keys.{Keyed, keyed_by};
ghost use Rattle.storage_current.specs.Snapshots.{height, grafting_of};
ghost use Rattle.storage_current.specs.Held.{ClonesAreEqual};

use crate::qmdb::current::ordered::check::{verify_commit, verify_span};
use crate::qmdb::current::ordered::copies::value_as;
use crate::qmdb::current::proof::Chunk;
use crate::qmdb::current::proof::operation::Proof;
use std::alloc::Global;
use storage_codec::NoMemory;
use storage_codec::digest::{Digest, Hasher};
use storage_merkle::merkle::Graftable;
use storage_ops::qmdb::any::operation::OperationCodec;
use storage_ops::qmdb::any::operation::update::Ordered;
use storage_ops::qmdb::any::value::ValueEncoding;
use storage_ops::qmdb::operation::Key;

/// A proof that a key has no value. `C` is the chunk with the activity bit of the operation that excludes the key.
#[derive(Drop)]
#[derive_where(Debug, PartialEq, Eq; D, C, V::Value)]
pub enum ExclusionProof<F, K: Key, V: ValueEncoding, D, C> {
    /// The proof of an update, and the update, whose span from its key to the next holds the key.
    KeyValue(Proof<F, D, C>, Ordered<K, V>),
    /// The proof of a commit that stands at its own floor, and the commit's value.
    Commit(Proof<F, D, C>, Option<V::Value>),
}

impl<F: Graftable, K: Key, V: OperationCodec<F, Ordered<K, V>>, D: Digest, C: Chunk> ExclusionProof<
    F,
    K,
    V,
    D,
    C,
> {
    /// Returns whether the operation of the proof is active in the snapshot with the canonical root `root`, and
    /// excludes `key`: an update excludes the other keys of its span, a commit at its own floor excludes each. The no
    /// of a key that the operation does not exclude, of a chunk size that is no power of two up to `2^59` bytes, and of
    /// a clear bit, allocates nothing.
    pub fn verify<H: Hasher<Digest = D>>(
        &self,
        alloc: Global,
        key: &K,
        root: &D,
    ) -> Result<bool, NoMemory>
        ensures exact { let e = keyed_by K.text V.Value.text V.operation_text K.cmp in
            let x : Exclusion (K × V.Value × K) V.Value = exclusion_of D.text C.text self.now in
            IfOk result (λ yes. IsTrue yes ↔ IsExcluded e H.hash_of (record {
              shape = F.shape;
              bytes = length (proof_in x).chunk;
            }) x key.now (D.text root.now)) }
        ensures meaning { let e = keyed_by K.text V.Value.text V.operation_text K.cmp in
            let x : Exclusion (K × V.Value × K) V.Value = exclusion_of D.text C.text self.now in
            (D.size ≡ 32) ⊎ (D.size ≡ 64)
            → IfOk result (λ yes. IsTrue yes → MeansAbsent e H.hash_of (record {
              shape = F.shape;
              bytes = length (proof_in x).chunk;
            }) x key.now (D.text root.now)) }
        ensures at_once { let e = keyed_by K.text V.Value.text V.operation_text K.cmp in
            let x : Exclusion (K × V.Value × K) V.Value = exclusion_of D.text C.text self.now in
            (Allows e x key.now → IsChunkSize (length (proof_in x).chunk)
            → bit_in (proof_in x).chunk ((proof_in x).location % 2 ^ height
            (grafting_of F.shape (length (proof_in x).chunk))) ≡ true → ⊥)
            → result ≡ Ok false }
    {
        match self {
            ExclusionProof::KeyValue(proof, update) => {
                verify_span::<F, K, V, D, C, H>(alloc, proof, update, key, root)
            }
            ExclusionProof::Commit(proof, value) => {
                verify_commit::<F, K, V, D, C, H>(alloc, proof, value, key, root)
            }
        }
    }
}

impl<F: Graftable, K: Key, V: ValueEncoding, D: Digest, C: Chunk + Clone> ExclusionProof<
    F,
    K,
    V,
    D,
    C,
> {
    /// Returns a proof equal to this one, where a clone of a chunk is equal to it; keys and values by what is seen of
    /// them. `NoMemory` if there is no memory for it.
    pub fn clone(&self) -> Result<Self, NoMemory>
        ensures { ClonesAreEqual C.is_clone C.text
            → IfOk result (λ copy.
            exclusion_seen K.view V.Value.view (exclusion_of D.text C.text copy)
            ≡ exclusion_seen K.view V.Value.view (exclusion_of D.text C.text self.now)) }
    {
        match self {
            ExclusionProof::KeyValue(proof, update) => {
                Ok(ExclusionProof::KeyValue(proof.clone()?, update.clone()?))
            }
            ExclusionProof::Commit(proof, value) => {
                Ok(ExclusionProof::Commit(proof.clone()?, value_as::<V>(value)?))
            }
        }
    }
}
