//! The checks of the two kinds of exclusion.

ghost use Rattle.std.specs.Prelude.{◌≡◌, ◌↔◌, ◌⊎◌, IfOk, IsTrue, Ok, true, false, ℕ, ◌+◌, ◌%◌, ◌^◌, length};
ghost use Rattle.storage_bitmap.specs.Chunks.{IsChunkSize};
ghost use Rattle.storage_bitmap.specs.Packed.{bit_in};
ghost use Rattle.storage_current.specs.Held.{operation_proof_of};
ghost use Rattle.storage_current.specs.KeyProofs.{Allows, Commit, Exclusion, IsExcluded, KeyValue, MeansAbsent, proof_in};
ghost use Rattle.storage_current.specs.Keys.{Keyed, keyed_by};
ghost use Rattle.storage_current.specs.Snapshots.{height, grafting_of};

use crate::laws::keys::{commit_at_floor_is_empty, spanned_key_is_absent};
use crate::qmdb::current::ordered::copies::value_as;
use crate::qmdb::current::ordered::span::excludes;
use crate::qmdb::current::proof::Chunk;
use crate::qmdb::current::proof::operation::Proof;
use std::alloc::Global;
use storage_codec::NoMemory;
use storage_codec::digest::{Digest, Hasher};
use storage_merkle::merkle::Graftable;
use storage_ops::qmdb::any::operation::update::Ordered;
use storage_ops::qmdb::any::operation::{Operation, OperationCodec};
use storage_ops::qmdb::operation::Key;

/// Returns whether `update` is active in the snapshot with the canonical root `root`, and its span excludes `key`.
pub(crate) fn verify_span<
    F: Graftable,
    K: Key,
    V: OperationCodec<F, Ordered<K, V>>,
    D: Digest,
    C: Chunk,
    H: Hasher<Digest = D>,
>(
    alloc: Global,
    proof: &Proof<F, D, C>,
    update: &Ordered<K, V>,
    key: &K,
    root: &D,
) -> Result<bool, NoMemory>
    ensures exact { let e = keyed_by K.text V.Value.text V.operation_text K.cmp in
        let x : Exclusion (K × V.Value × K) V.Value = KeyValue
        (operation_proof_of D.text C.text proof.now)
        (update.now.key, update.now.value, update.now.next_key) in
        IfOk result (λ yes. IsTrue yes ↔ IsExcluded e H.hash_of (record {
          shape = F.shape;
          bytes = length (proof_in x).chunk;
        }) x key.now (D.text root.now)) }
    ensures meaning { let e = keyed_by K.text V.Value.text V.operation_text K.cmp in
        let x : Exclusion (K × V.Value × K) V.Value = KeyValue
        (operation_proof_of D.text C.text proof.now)
        (update.now.key, update.now.value, update.now.next_key) in
        (D.size ≡ 32) ⊎ (D.size ≡ 64)
        → IfOk result (λ yes. IsTrue yes → MeansAbsent e H.hash_of (record {
          shape = F.shape;
          bytes = length (proof_in x).chunk;
        }) x key.now (D.text root.now)) }
    ensures at_once { let e = keyed_by K.text V.Value.text V.operation_text K.cmp in
        let x : Exclusion (K × V.Value × K) V.Value = KeyValue
        (operation_proof_of D.text C.text proof.now)
        (update.now.key, update.now.value, update.now.next_key) in
        (Allows e x key.now → IsChunkSize (length (proof_in x).chunk) → bit_in (proof_in x).chunk
        ((proof_in x).location % 2 ^ height (grafting_of F.shape (length (proof_in x).chunk)))
        ≡ true → ⊥) → result ≡ Ok false }
{
    if !excludes::<F, K, V>(&update.key, &update.next_key, key) {
        return Ok(false);
    }
    if !proof.is_active() {
        return Ok(false);
    }
    spanned_key_is_absent::<F, K, V>();
    let copy = update.clone()?;
    let operation = Operation::<F, Ordered<K, V>>::Update(copy);
    proof.verify::<H, Operation<F, Ordered<K, V>>>(alloc, operation, root)
}

/// Returns whether the commit of `value` at its own floor, the location of `proof`, is active in the snapshot with the
/// canonical root `root`. It excludes each `key`.
pub(crate) fn verify_commit<
    F: Graftable,
    K: Key,
    V: OperationCodec<F, Ordered<K, V>>,
    D: Digest,
    C: Chunk,
    H: Hasher<Digest = D>,
>(
    alloc: Global,
    proof: &Proof<F, D, C>,
    value: &Option<V::Value>,
    key: &K,
    root: &D,
) -> Result<bool, NoMemory>
    ensures exact { let e = keyed_by K.text V.Value.text V.operation_text K.cmp in
        let x : Exclusion (K × V.Value × K) V.Value = Commit
        (operation_proof_of D.text C.text proof.now) value.now in
        IfOk result (λ yes. IsTrue yes ↔ IsExcluded e H.hash_of (record {
          shape = F.shape;
          bytes = length (proof_in x).chunk;
        }) x key.now (D.text root.now)) }
    ensures meaning { let e = keyed_by K.text V.Value.text V.operation_text K.cmp in
        let x : Exclusion (K × V.Value × K) V.Value = Commit
        (operation_proof_of D.text C.text proof.now) value.now in
        (D.size ≡ 32) ⊎ (D.size ≡ 64)
        → IfOk result (λ yes. IsTrue yes → MeansAbsent e H.hash_of (record {
          shape = F.shape;
          bytes = length (proof_in x).chunk;
        }) x key.now (D.text root.now)) }
    ensures at_once { let e = keyed_by K.text V.Value.text V.operation_text K.cmp in
        let x : Exclusion (K × V.Value × K) V.Value = Commit
        (operation_proof_of D.text C.text proof.now) value.now in
        (Allows e x key.now → IsChunkSize (length (proof_in x).chunk) → bit_in (proof_in x).chunk
        ((proof_in x).location % 2 ^ height (grafting_of F.shape (length (proof_in x).chunk)))
        ≡ true → ⊥) → result ≡ Ok false }
{
    if !proof.is_active() {
        return Ok(false);
    }
    commit_at_floor_is_empty::<F, K, V>();
    let copy = value_as::<V>(value)?;
    let operation = Operation::<F, Ordered<K, V>>::CommitFloor(copy, proof.loc);
    proof.verify::<H, Operation<F, Ordered<K, V>>>(alloc, operation, root)
}
