//! What holds between a snapshot's own proofs about keys and the checks of a light client.

ghost use Rattle.std.specs.Prelude.{◌≡◌, ℕ, List, ◌++◌, ◌↔◌, IfOk, IsTrue, true};
ghost use Rattle.storage_bitmap.specs.Chunks.{IsChunkSize};
ghost use Rattle.storage_ops.specs.Updates.{ordered_at};
ghost use Rattle.storage_current.specs.CurrentWire.{operation_text};
ghost use Rattle.storage_current.specs.Held.{operation_proof_of};
ghost use Rattle.storage_current.specs.HeldKeys.{exclusion_of};
ghost use Rattle.storage_current.specs.KeyProofs.{Allows, Exclusion, proof_in, shown_text};
ghost use Rattle.storage_current.specs.KeyWire.{IsAdmittedExclusion, exclusion_text};
ghost use Rattle.storage_current.specs.Keys.{Keyed, Updates, keyed_by};
ghost use Rattle.storage_current.specs.Snapshots.{IsActive, IsSnapshot, Snapshot, canonical_root, own_operation_proof, grafting_of};
ghost use Rattle.commonware_storage.specs.LightKeys.{IsAcceptedAbsence, IsAcceptedValue, OwnExclusionsAreAccepted, OwnValuesAreAccepted};

use crate::light::{check_absence, check_value};
use std::alloc::Global;
use storage_codec::NoMemory;
use storage_codec::codec::{Read, Write};
use storage_codec::digest::Hasher;
use storage_current::laws::{
    own_operation_proofs_are_accepted, own_operation_proofs_are_read_again,
};
use storage_current::qmdb::current::ordered::UpdateCodec;
use storage_current::qmdb::current::ordered::constant::{ExclusionProof, KeyValueProof};
use storage_merkle::merkle::{Family, Graftable};
use storage_ops::qmdb::any::operation::OperationCodec;
use storage_ops::qmdb::any::operation::update::Ordered;
use storage_ops::qmdb::operation::Key;

/// What a snapshot's own proof of the active update of a key is written as, with the next key that the update names, is
/// accepted for the key and the value, where the reader of the next key admits it.
pub fn own_values_are_accepted<F: Family, K: Key, V: OperationCodec<F, Ordered<K, V>>>()
    ensures { let e = keyed_by K.text V.Value.text V.operation_text K.cmp in
        (cfg : K.Cfg) → OwnValuesAreAccepted e K.view (K.parse cfg) (K.admits cfg) }
{
    own_operation_proofs_are_accepted();
    own_operation_proofs_are_read_again();
}

/// What a snapshot's own proof of an active operation that excludes a key is written as, with the update or with the commit's
/// value, is accepted as its absence, where the readers of the update's parts, or that of the value, admit them.
pub fn own_exclusions_are_accepted<
    F: Family,
    K: Key,
    V: OperationCodec<F, Ordered<K, V>> + UpdateCodec<K>,
>()
    ensures { let e = keyed_by K.text V.Value.text V.operation_text K.cmp in
        (update : V.UpdateCfg) (cfg : V.Value.Cfg) → OwnExclusionsAreAccepted e K.view V.Value.view
        (ordered_at (K.parse (V.key_cfg update)) (V.Value.parse (V.value_cfg update)))
        (V.Value.parse cfg) (λ u. K.admits (V.key_cfg update) u.0 × V.Value.admits
        (V.value_cfg update) u.1 × K.admits (V.key_cfg update) u.2) (V.Value.admits cfg) }
{
    own_operation_proofs_are_accepted();
    own_operation_proofs_are_read_again();
}

/// Writes `proof`, and answers what [`check_value`] says of the bytes, of `key`, `value` and `root`: yes wherever its operation
/// proof is a snapshot's own one of the active update of `key` to `value`, the update names the proof's next key, the reader of
/// the next key, which is told `cfg`, admits it, and `root` is the canonical root.
pub fn written_values_are_accepted<
    F: Graftable,
    H: Hasher,
    K: Key,
    V: OperationCodec<F, Ordered<K, V>>,
    const N: usize,
>(
    alloc: Global,
    proof: &KeyValueProof<F, K, H::Digest, N>,
    cfg: &K::Cfg,
    key: K,
    value: V::Value,
    root: &H::Digest,
) -> Result<bool, NoMemory>
    requires size { IsChunkSize N }
    ensures asked { let e = keyed_by K.text V.Value.text V.operation_text K.cmp in
        let g = grafting_of F.shape N in
        IfOk result (λ yes. IsTrue yes
        ↔ IsAcceptedValue e K.view (K.parse cfg.now) H.hash_of g F.has_pending H.Digest.size
        (operation_text F.has_pending (operation_proof_of H.Digest.text (λ c. c) proof.now.proof)
        ++ K.text proof.now.next_key) key value (H.Digest.text root.now)) }
    ensures accepted { let e = keyed_by K.text V.Value.text V.operation_text K.cmp in
        let g = grafting_of F.shape N in
        (s : Snapshot) → IsSnapshot s
        → (location : ℕ) → operation_proof_of H.Digest.text (λ c. c) proof.now.proof
        ≡ own_operation_proof H.hash_of g s location
        → Updates e s location key value proof.now.next_key
        → K.admits cfg.now proof.now.next_key
        → H.Digest.text root.now ≡ canonical_root H.hash_of g s
        → IfOk result (λ yes. yes ≡ true) }
{
    own_values_are_accepted::<F, K, V>();
    let mut bytes = Vec::new(alloc);
    proof.write(&mut bytes)?;
    let yes = check_value::<F, H, K, V>(alloc, &bytes, N, cfg, key, value, root)?;
    Ok(yes)
}

/// Writes `proof`, and answers what [`check_absence`] says of the bytes, of `key` and `root`: yes wherever its operation proof
/// is a snapshot's own one, its update or commit is active there and excludes `key`, the readers of its parts, which are told
/// `cfgs`, admit them, and `root` is the canonical root.
pub fn written_exclusions_are_accepted<
    F: Graftable,
    H: Hasher,
    K: Key,
    V: OperationCodec<F, Ordered<K, V>> + UpdateCodec<K>,
    const N: usize,
>(
    alloc: Global,
    proof: &ExclusionProof<F, K, V, H::Digest, N>,
    cfgs: &(<V as UpdateCodec<K>>::UpdateCfg, <V::Value as Read>::Cfg),
    key: &K,
    root: &H::Digest,
) -> Result<bool, NoMemory>
    requires size { IsChunkSize N }
    ensures asked { let e = keyed_by K.text V.Value.text V.operation_text K.cmp in
        let g = grafting_of F.shape N in
        let x : Exclusion (K × V.Value × K) V.Value = exclusion_of H.Digest.text
        (λ c. c) proof.now in
        IfOk result (λ yes. IsTrue yes ↔ IsAcceptedAbsence e K.view V.Value.view
        (ordered_at (K.parse (V.key_cfg cfgs.now.0)) (V.Value.parse (V.value_cfg cfgs.now.0)))
        (V.Value.parse cfgs.now.1) H.hash_of g F.has_pending H.Digest.size
        (exclusion_text F.has_pending (λ u. K.text u.0 ++ V.Value.text u.1
        ++ K.text u.2) V.Value.text x) key.now (H.Digest.text root.now)) }
    ensures accepted { let e = keyed_by K.text V.Value.text V.operation_text K.cmp in
        let g = grafting_of F.shape N in
        let x : Exclusion (K × V.Value × K) V.Value = exclusion_of H.Digest.text
        (λ c. c) proof.now in
        (s : Snapshot) → IsSnapshot s
        → proof_in x ≡ own_operation_proof H.hash_of g s (proof_in x).location
        → IsActive s (proof_in x).location (shown_text e x)
        → Allows e x key.now
        → IsAdmittedExclusion (λ _. Unit {0}) (λ u. K.admits (V.key_cfg cfgs.now.0) u.0
        × V.Value.admits (V.value_cfg cfgs.now.0) u.1 × K.admits (V.key_cfg cfgs.now.0) u.2)
        (V.Value.admits cfgs.now.1) x
        → H.Digest.text root.now ≡ canonical_root H.hash_of g s
        → IfOk result (λ yes. yes ≡ true) }
{
    own_exclusions_are_accepted::<F, K, V>();
    let mut bytes = Vec::new(alloc);
    proof.write(&mut bytes)?;
    let yes = check_absence::<F, H, K, V>(alloc, &bytes, N, cfgs, key, root)?;
    Ok(yes)
}
