//! Proofs of the value of a key.
//!
//! The check writes the update of the key to the value, with the next key from the proof, and asks whether it is active. In
//! a well-formed snapshot a key has one active update at most, so the value is the key's.

ghost use Rattle.std.specs.Prelude.{◌≡◌, ◌↔◌, ◌⊎◌, IfOk, IsTrue, Ok, true, false, ℕ, ◌%◌, ◌^◌, length};
ghost use Rattle.storage_bitmap.specs.Chunks.{IsChunkSize};
ghost use Rattle.storage_bitmap.specs.Packed.{bit_in};
ghost use Rattle.storage_current.specs.CurrentProofs.{IsActiveCurrent};
ghost use Rattle.storage_current.specs.Held.{operation_proof_of, ClonesAreEqual};
ghost use Rattle.storage_current.specs.KeyProofs.{MeansValue};
ghost use Rattle.storage_current.specs.Keys.{Keyed, update_text, keyed_by};
ghost use Rattle.storage_current.specs.Snapshots.{height, grafting_of};

use crate::laws::keys::active_update_is_value;
use crate::qmdb::current::ordered::copies::key_as;
use crate::qmdb::current::proof::Chunk;
use crate::qmdb::current::proof::operation::Proof;
use std::alloc::Global;
use storage_codec::NoMemory;
use storage_codec::digest::{Digest, Hasher};
use storage_merkle::merkle::Graftable;
use storage_ops::qmdb::any::operation::update::Ordered;
use storage_ops::qmdb::any::operation::{Operation, OperationCodec};
use storage_ops::qmdb::operation::Key;

/// A proof that a key has a value: that its update is active. `C` is the chunk with the update's activity bit.
#[derive(Drop)]
#[derive_where(Debug, PartialEq, Eq; K, D, C)]
pub struct KeyValueProof<F, K, D, C> {
    /// The proof of the update.
    pub proof: Proof<F, D, C>,
    /// The next key, as the update names it.
    pub next_key: K,
}

impl<F: Graftable, K: Key, D: Digest, C: Chunk> KeyValueProof<F, K, D, C> {
    /// Returns whether the update of `key` to `value` that names `next_key` as the next key is active in the snapshot
    /// with the canonical root `root`. The no of a chunk size that is no power of two up to `2^59` bytes, and of a
    /// clear bit, allocates nothing.
    pub fn verify<H: Hasher<Digest = D>, V: OperationCodec<F, Ordered<K, V>>>(
        &self,
        alloc: Global,
        key: K,
        value: V::Value,
        root: &D,
    ) -> Result<bool, NoMemory>
        ensures exact { let e = keyed_by K.text V.Value.text V.operation_text K.cmp in
            IfOk result (λ yes. IsTrue yes ↔ IsActiveCurrent H.hash_of (grafting_of F.shape
            (length (C.text self.now.proof.chunk)))
            (operation_proof_of D.text C.text self.now.proof)
            (update_text e key value self.now.next_key) (D.text root.now)) }
        ensures meaning { let e = keyed_by K.text V.Value.text V.operation_text K.cmp in
            (D.size ≡ 32) ⊎ (D.size ≡ 64)
            → IfOk result (λ yes. IsTrue yes → MeansValue e H.hash_of (grafting_of F.shape
            (length (C.text self.now.proof.chunk)))
            (operation_proof_of D.text C.text self.now.proof) key
            value self.now.next_key (D.text root.now)) }
        ensures at_once { (IsChunkSize (length (C.text self.now.proof.chunk))
            → bit_in (C.text self.now.proof.chunk) (self.now.proof.loc % 2 ^ height
            (grafting_of F.shape (length (C.text self.now.proof.chunk)))) ≡ true → ⊥)
            → result ≡ Ok false }
    {
        if !self.proof.is_active() {
            return Ok(false);
        }
        active_update_is_value::<F, K, V>();
        let next_key = key_as(&self.next_key)?;
        let update = Operation::<F, Ordered<K, V>>::Update(Ordered {
            key,
            value,
            next_key,
        });
        self.proof
            .verify::<H, Operation<F, Ordered<K, V>>>(alloc, update, root)
    }
}

impl<F: Graftable, K: Key, D: Digest, C: Chunk + Clone> KeyValueProof<F, K, D, C> {
    /// Returns a proof equal to this one, where a clone of a chunk is equal to it; the next key is seen and written as
    /// this one's. `NoMemory` if there is no memory for it.
    pub fn clone(&self) -> Result<Self, NoMemory>
        ensures proof { ClonesAreEqual C.is_clone C.text
            → IfOk result (λ copy.
            operation_proof_of D.text C.text copy.proof
            ≡ operation_proof_of D.text C.text self.now.proof) }
        ensures next_key { IfOk result (λ copy. K.view copy.next_key ≡ K.view self.now.next_key) }
        ensures next_key_text { IfOk result (λ copy.
            K.text copy.next_key ≡ K.text self.now.next_key) }
    {
        Ok(KeyValueProof {
            proof: self.proof.clone()?,
            next_key: key_as(&self.next_key)?,
        })
    }
}
