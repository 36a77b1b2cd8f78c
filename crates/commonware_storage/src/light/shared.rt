//! The same answers for a proof that is shared bytes, as a gateway holds what it received: the chunk is cut from them, and not
//! copied.

ghost use Rattle.std.specs.Prelude.{◌≡◌, ◌↔◌, ◌⊎◌, IfOk, IsTrue, Ok, false};
ghost use Rattle.storage_codec.specs.Parts.{IsBytes};
ghost use Rattle.storage_bitmap.specs.Chunks.{IsChunkSize};
ghost use Rattle.storage_ops.specs.Updates.{ordered_at};
ghost use Rattle.storage_current.specs.Keys.{Keyed, keyed_by};
ghost use Rattle.storage_current.specs.Snapshots.{grafting_of};
ghost use Rattle.commonware_storage.specs.Light.{IsAcceptedAt, IsProofAt, IsTrueAt, IsAnswerOf};
ghost use Rattle.commonware_storage.specs.LightKeys.{IsAcceptedAbsence, IsAcceptedValue, IsTrueAbsence, IsTrueValue};

use crate::light::keys::{absence_from, value_from};
use crate::light::operation_from;
use bytes::Bytes;
use std::alloc::Global;
use storage_codec::NoMemory;
use storage_codec::codec::Read;
use storage_codec::digest::Hasher;
use storage_current::qmdb::current::ordered::UpdateCodec;
use storage_merkle::merkle::{Graftable, Location};
use storage_ops::qmdb::any::operation::OperationCodec;
use storage_ops::qmdb::any::operation::update::Ordered;
use storage_ops::qmdb::operation::Key;

/// Returns what [`check_operation`](crate::light::check_operation) answers for the same bytes.
pub fn check_operation_shared<F: Graftable, H: Hasher>(
    alloc: Global,
    proof: Bytes,
    chunk_size: usize,
    loc: Location<F>,
    operation: &[u8],
    root: &H::Digest,
) -> Result<bool, NoMemory>
    ensures refused { ¬ IsChunkSize chunk_size → result ≡ Ok false }
    ensures exact { IfOk result (λ yes.
        IsTrue yes ↔ IsAcceptedAt H.hash_of (grafting_of F.shape chunk_size) F.has_pending
        H.Digest.size loc proof operation.now (H.Digest.text root.now)) }
    ensures same { IsAnswerOf result
        (IsAcceptedAt H.hash_of (grafting_of F.shape chunk_size) F.has_pending H.Digest.size loc
        proof operation.now (H.Digest.text root.now)) }
    ensures meaning { (H.Digest.size ≡ 32) ⊎ (H.Digest.size ≡ 64)
        → IfOk result (λ yes. IsTrue yes → IsTrueAt H.hash_of (grafting_of F.shape chunk_size)
        F.has_pending H.Digest.size loc proof operation.now (H.Digest.text root.now)) }
    ensures whole { IfOk result (λ yes. IsTrue yes
        → IsProofAt F.has_pending H.Digest.size chunk_size loc proof) }
{
    are_bytes(proof.as_slice());
    operation_from::<F, H, Bytes>(alloc, proof, chunk_size, loc, operation, root)
}

/// Returns each byte is below 256.
fn are_bytes(bytes: &[u8])
    ensures { IsBytes bytes.now }
{}

/// Returns what [`check_value`](crate::light::check_value) answers for the same bytes.
pub fn check_value_shared<F: Graftable, H: Hasher, K: Key, V: OperationCodec<F, Ordered<K, V>>>(
    alloc: Global,
    proof: Bytes,
    chunk_size: usize,
    cfg: &K::Cfg,
    key: K,
    value: V::Value,
    root: &H::Digest,
) -> Result<bool, NoMemory>
    ensures refused { ¬ IsChunkSize chunk_size → result ≡ Ok false }
    ensures exact { let e = keyed_by K.text V.Value.text V.operation_text K.cmp in
        IfOk result (λ yes. IsTrue yes
        ↔ IsAcceptedValue e K.view (K.parse cfg.now) H.hash_of (grafting_of F.shape chunk_size)
        F.has_pending H.Digest.size proof key value (H.Digest.text root.now)) }
    ensures same { let e = keyed_by K.text V.Value.text V.operation_text K.cmp in
        IsAnswerOf result
        (IsAcceptedValue e K.view (K.parse cfg.now) H.hash_of (grafting_of F.shape chunk_size)
        F.has_pending H.Digest.size proof key value (H.Digest.text root.now)) }
    ensures meaning { let e = keyed_by K.text V.Value.text V.operation_text K.cmp in
        (H.Digest.size ≡ 32) ⊎ (H.Digest.size ≡ 64)
        → IfOk result (λ yes. IsTrue yes
        → IsTrueValue e K.view (K.parse cfg.now) H.hash_of (grafting_of F.shape chunk_size)
        F.has_pending H.Digest.size proof key value (H.Digest.text root.now)) }
{
    value_from::<F, H, K, V, Bytes>(alloc, proof, chunk_size, cfg, key, value, root)
}

/// Returns what [`check_absence`](crate::light::check_absence) answers for the same bytes.
pub fn check_absence_shared<
    F: Graftable,
    H: Hasher,
    K: Key,
    V: OperationCodec<F, Ordered<K, V>> + UpdateCodec<K>,
>(
    alloc: Global,
    proof: Bytes,
    chunk_size: usize,
    cfgs: &(<V as UpdateCodec<K>>::UpdateCfg, <V::Value as Read>::Cfg),
    key: &K,
    root: &H::Digest,
) -> Result<bool, NoMemory>
    ensures refused { ¬ IsChunkSize chunk_size → result ≡ Ok false }
    ensures exact { let e = keyed_by K.text V.Value.text V.operation_text K.cmp in
        IfOk result (λ yes. IsTrue yes ↔ IsAcceptedAbsence e K.view V.Value.view
        (ordered_at (K.parse (V.key_cfg cfgs.now.0)) (V.Value.parse (V.value_cfg cfgs.now.0)))
        (V.Value.parse cfgs.now.1) H.hash_of (grafting_of F.shape chunk_size) F.has_pending
        H.Digest.size proof key.now (H.Digest.text root.now)) }
    ensures same { let e = keyed_by K.text V.Value.text V.operation_text K.cmp in
        IsAnswerOf result (IsAcceptedAbsence e K.view V.Value.view
        (ordered_at (K.parse (V.key_cfg cfgs.now.0)) (V.Value.parse (V.value_cfg cfgs.now.0)))
        (V.Value.parse cfgs.now.1) H.hash_of (grafting_of F.shape chunk_size) F.has_pending
        H.Digest.size proof key.now (H.Digest.text root.now)) }
    ensures meaning { let e = keyed_by K.text V.Value.text V.operation_text K.cmp in
        (H.Digest.size ≡ 32) ⊎ (H.Digest.size ≡ 64)
        → IfOk result (λ yes. IsTrue yes → IsTrueAbsence e K.view V.Value.view
        (ordered_at (K.parse (V.key_cfg cfgs.now.0)) (V.Value.parse (V.value_cfg cfgs.now.0)))
        (V.Value.parse cfgs.now.1) H.hash_of (grafting_of F.shape chunk_size) F.has_pending
        H.Digest.size proof key.now (H.Digest.text root.now)) }
{
    absence_from::<F, H, K, V, Bytes>(alloc, proof, chunk_size, cfgs, key, root)
}
