//! Answers about keys for a client that trusts one digest, from bytes that anyone may have made.

ghost use Rattle.std.specs.Prelude.{◌≡◌, ◌↔◌, ◌⊎◌, IfOk, IsTrue, Ok, false};
ghost use Rattle.storage_bitmap.specs.Chunks.{IsChunkSize};
ghost use Rattle.storage_ops.specs.Updates.{ordered_at};
ghost use Rattle.storage_current.specs.Keys.{Keyed, keyed_by};
ghost use Rattle.storage_current.specs.Snapshots.{grafting_of};
ghost use Rattle.commonware_storage.specs.LightKeys.{IsAcceptedAbsence, IsAcceptedValue, IsTrueAbsence, IsTrueValue};

use crate::light::MAX_DIGESTS;
use std::alloc::Global;
use storage_codec::NoMemory;
use storage_codec::codec::{Buf, Error, Read};
use storage_codec::digest::Hasher;
use storage_current::qmdb::current::grafting;
use storage_current::qmdb::current::ordered::UpdateCodec;
use storage_current::qmdb::current::ordered::dynamic::{ExclusionProof, KeyValueProof};
use storage_merkle::merkle::Graftable;
use storage_ops::qmdb::any::operation::OperationCodec;
use storage_ops::qmdb::any::operation::update::Ordered;
use storage_ops::qmdb::operation::Key;

/// Returns whether `key` has the value `value` in the snapshot with the canonical root `root`. `proof` is a key-value
/// proof as it is written, over a chunk of `chunk_size` bytes, and `cfg` is what the reader of its next key is told.
///
/// The answer is no if the bytes are not one whole proof with at most [`MAX_DIGESTS`] digests, and if no chunk has that
/// size: this last no allocates nothing. Else it is what the proof's `verify` answers.
pub fn check_value<F: Graftable, H: Hasher, K: Key, V: OperationCodec<F, Ordered<K, V>>>(
    alloc: Global,
    proof: &[u8],
    chunk_size: usize,
    cfg: &K::Cfg,
    key: K,
    value: V::Value,
    root: &H::Digest,
) -> Result<bool, NoMemory>
    ensures refused { ¬ IsChunkSize chunk_size → result ≡ Ok false }
    ensures exact { let e = keyed_by K.text V.Value.text V.operation_text K.cmp in
        IfOk result (λ yes. IsTrue yes
        ↔ IsAcceptedValue e K.view (K.parse cfg.now) H.hash_of (grafting_of F.shape chunk_size)
        F.has_pending H.Digest.size proof.now key value (H.Digest.text root.now)) }
    ensures meaning { let e = keyed_by K.text V.Value.text V.operation_text K.cmp in
        (H.Digest.size ≡ 32) ⊎ (H.Digest.size ≡ 64)
        → IfOk result (λ yes. IsTrue yes
        → IsTrueValue e K.view (K.parse cfg.now) H.hash_of (grafting_of F.shape chunk_size)
        F.has_pending H.Digest.size proof.now key value (H.Digest.text root.now)) }
{
    value_from::<F, H, K, V, &[u8]>(alloc, proof, chunk_size, cfg, key, value, root)
}

/// Returns what [`check_value`] answers for the bytes that `buf` holds.
pub(crate) fn value_from<
    F: Graftable,
    H: Hasher,
    K: Key,
    V: OperationCodec<F, Ordered<K, V>>,
    B: Buf,
>(
    alloc: Global,
    buf: B,
    chunk_size: usize,
    cfg: &K::Cfg,
    key: K,
    value: V::Value,
    root: &H::Digest,
) -> Result<bool, NoMemory>
    ensures refused { ¬ IsChunkSize chunk_size → result ≡ Ok false }
    ensures exact { let e = keyed_by K.text V.Value.text V.operation_text K.cmp in
        IfOk result (λ yes. IsTrue yes
        ↔ IsAcceptedValue e K.view (K.parse cfg.now) H.hash_of (grafting_of F.shape chunk_size)
        F.has_pending H.Digest.size (B.unread buf) key value (H.Digest.text root.now)) }
    ensures meaning { let e = keyed_by K.text V.Value.text V.operation_text K.cmp in
        (H.Digest.size ≡ 32) ⊎ (H.Digest.size ≡ 64)
        → IfOk result (λ yes. IsTrue yes
        → IsTrueValue e K.view (K.parse cfg.now) H.hash_of (grafting_of F.shape chunk_size)
        F.has_pending H.Digest.size (B.unread buf) key value (H.Digest.text root.now)) }
{
    if grafting::chunk_height(chunk_size).is_none() {
        return Ok(false);
    }
    let limits = (chunk_size, MAX_DIGESTS);
    match KeyValueProof::<F, K, H::Digest>::decode_with(alloc, buf, &limits, cfg) {
        Ok(proof) => proof.verify::<H, V>(alloc, key, value, root),
        Err(Error::Memory) => Err(NoMemory),
        Err(_) => Ok(false),
    }
}

/// Returns whether `key` has no value in the snapshot with the canonical root `root`. `proof` is an exclusion proof as
/// it is written, over a chunk of `chunk_size` bytes, and `cfgs` are what the readers of its update and of its value
/// are told.
///
/// The answer is no if the bytes are not one whole proof with at most [`MAX_DIGESTS`] digests, and if no chunk has that
/// size: this last no allocates nothing. Else it is what the proof's `verify` answers.
pub fn check_absence<
    F: Graftable,
    H: Hasher,
    K: Key,
    V: OperationCodec<F, Ordered<K, V>> + UpdateCodec<K>,
>(
    alloc: Global,
    proof: &[u8],
    chunk_size: usize,
    cfgs: &(<V as UpdateCodec<K>>::UpdateCfg, <V::Value as Read>::Cfg),
    key: &K,
    root: &H::Digest,
) -> Result<bool, NoMemory>
    ensures refused { ¬ IsChunkSize chunk_size → result ≡ Ok false }
    ensures exact { let e = keyed_by K.text V.Value.text V.operation_text K.cmp in
        IfOk result (λ yes. IsTrue yes ↔ IsAcceptedAbsence e K.view V.Value.view
        (ordered_at (K.parse (V.key_cfg cfgs.now.0)) (V.Value.parse (V.value_cfg cfgs.now.0)))
        (V.Value.parse cfgs.now.1) H.hash_of (grafting_of F.shape chunk_size) F.has_pending
        H.Digest.size proof.now key.now (H.Digest.text root.now)) }
    ensures meaning { let e = keyed_by K.text V.Value.text V.operation_text K.cmp in
        (H.Digest.size ≡ 32) ⊎ (H.Digest.size ≡ 64)
        → IfOk result (λ yes. IsTrue yes → IsTrueAbsence e K.view V.Value.view
        (ordered_at (K.parse (V.key_cfg cfgs.now.0)) (V.Value.parse (V.value_cfg cfgs.now.0)))
        (V.Value.parse cfgs.now.1) H.hash_of (grafting_of F.shape chunk_size) F.has_pending
        H.Digest.size proof.now key.now (H.Digest.text root.now)) }
{
    absence_from::<F, H, K, V, &[u8]>(alloc, proof, chunk_size, cfgs, key, root)
}

/// Returns what [`check_absence`] answers for the bytes that `buf` holds.
pub(crate) fn absence_from<
    F: Graftable,
    H: Hasher,
    K: Key,
    V: OperationCodec<F, Ordered<K, V>> + UpdateCodec<K>,
    B: Buf,
>(
    alloc: Global,
    buf: B,
    chunk_size: usize,
    cfgs: &(<V as UpdateCodec<K>>::UpdateCfg, <V::Value as Read>::Cfg),
    key: &K,
    root: &H::Digest,
) -> Result<bool, NoMemory>
    ensures refused { ¬ IsChunkSize chunk_size → result ≡ Ok false }
    ensures exact { let e = keyed_by K.text V.Value.text V.operation_text K.cmp in
        IfOk result (λ yes. IsTrue yes ↔ IsAcceptedAbsence e K.view V.Value.view
        (ordered_at (K.parse (V.key_cfg cfgs.now.0)) (V.Value.parse (V.value_cfg cfgs.now.0)))
        (V.Value.parse cfgs.now.1) H.hash_of (grafting_of F.shape chunk_size) F.has_pending
        H.Digest.size (B.unread buf) key.now (H.Digest.text root.now)) }
    ensures meaning { let e = keyed_by K.text V.Value.text V.operation_text K.cmp in
        (H.Digest.size ≡ 32) ⊎ (H.Digest.size ≡ 64)
        → IfOk result (λ yes. IsTrue yes → IsTrueAbsence e K.view V.Value.view
        (ordered_at (K.parse (V.key_cfg cfgs.now.0)) (V.Value.parse (V.value_cfg cfgs.now.0)))
        (V.Value.parse cfgs.now.1) H.hash_of (grafting_of F.shape chunk_size) F.has_pending
        H.Digest.size (B.unread buf) key.now (H.Digest.text root.now)) }
{
    if grafting::chunk_height(chunk_size).is_none() {
        return Ok(false);
    }
    let limits = (chunk_size, MAX_DIGESTS);
    match ExclusionProof::<F, K, V, H::Digest>::decode_with(alloc, buf, &limits, &cfgs.0, &cfgs.1) {
        Ok(proof) => proof.verify::<H>(alloc, key, root),
        Err(Error::Memory) => Err(NoMemory),
        Err(_) => Ok(false),
    }
}
