//! What holds between the proofs of a database and the checks of a light client.

ghost use Rattle.std.specs.Prelude.{◌≡◌, true, IfOk, IfErr, IsSomeAnd, MatchOption};
ghost use Rattle.storage_bitmap.specs.Chunks.{IsChunkSize};
ghost use Rattle.storage_current.specs.Keys.{keyed_by};
ghost use Rattle.storage_current.specs.Snapshots.{grafting_of};
ghost use Rattle.storage_db.specs.Databases.{Database, active_at};
ghost use Rattle.storage_db.specs.Kept.{Keeps};
ghost use Rattle.commonware_storage.specs.LightDatabases.{AdmitsNext, AdmitsAbsence};

use crate::laws::keys::{written_exclusions_are_accepted, written_values_are_accepted};
use std::alloc::Global;
use storage_codec::codec::Read;
use storage_codec::digest::Hasher;
use storage_current::qmdb::current::ordered::UpdateCodec;
use storage_db::db::{Error, Ordered, OrderedCodec};
use storage_db::laws::{each_database_is_made, each_proof_is_accepted};
use storage_merkle::merkle::Graftable;
use storage_ops::qmdb::operation::Key;

/// Proves the value that `key` had at the last commit of `database`, writes the proof, and answers what
/// [`check_value`](crate::light::check_value) says of these bytes, of that value and of the root of that commit. It is yes
/// where the reader of the next key, which is told `cfg`, admits the key that comes after `key`, whatever calls made the
/// database.
///
/// # Errors
///
/// Those of [`Ordered::prove_value`].
pub fn proved_values_are_accepted<
    F: Graftable,
    H: Hasher,
    K: Key,
    V: OrderedCodec<F, K>,
    const N: usize,
>(alloc: Global, database: &Ordered<F, H, K, V, N>, key: K, cfg: &K::Cfg) -> Result<bool, Error<F>>
    requires size { IsChunkSize N }
    ensures accepted { let e = keyed_by K.text V.Value.text V.operation_text K.cmp in
        (d : Database K V.Value)
        → Keeps e V.Value.view H.hash_of (grafting_of F.shape N) database.now d
        → IsSomeAnd d.last (AdmitsNext e (K.admits cfg.now) key)
        → IfOk result (λ yes. yes ≡ true) }
    ensures why { let e = keyed_by K.text V.Value.text V.operation_text K.cmp in
        IfErr result (λ error. (d : Database K V.Value)
        → Keeps e V.Value.view H.hash_of (grafting_of F.shape N) database.now d
        → MatchOption d.last (error ≡ Error.NotCommitted) (λ commit.
        MatchOption (active_at e commit.entries key) (error ≡ Error.Absent)
        (λ _. error ≡ Error.Memory))) }
{
    each_proof_is_accepted::<F, H, K, V, N>();
    each_database_is_made(database);
    let Some(root) = database.root() else {
        return Err(Error::NotCommitted);
    };
    let (value, proof) = database.prove_value(&key)?;
    let yes = written_values_are_accepted::<F, H, K, V, N>(alloc, &proof, cfg, key, value, &root)?;
    Ok(yes)
}

/// Proves that `key` had no value at the last commit of `database`, writes the proof, and answers what
/// [`check_absence`](crate::light::check_absence) says of these bytes, of `key` and of the root of that commit. It is yes
/// where the readers of what the proof shows, which are told `cfgs`, admit it, whatever calls made the database.
///
/// # Errors
///
/// Those of [`Ordered::prove_absence`].
pub fn proved_absences_are_accepted<
    F: Graftable,
    H: Hasher,
    K: Key,
    V: OrderedCodec<F, K> + UpdateCodec<K>,
    const N: usize,
>(
    alloc: Global,
    database: &Ordered<F, H, K, V, N>,
    key: &K,
    cfgs: &(<V as UpdateCodec<K>>::UpdateCfg, <V::Value as Read>::Cfg),
) -> Result<bool, Error<F>>
    requires size { IsChunkSize N }
    ensures accepted { let e = keyed_by K.text V.Value.text V.operation_text K.cmp in
        (d : Database K V.Value)
        → Keeps e V.Value.view H.hash_of (grafting_of F.shape N) database.now d
        → IsSomeAnd d.last (AdmitsAbsence e (K.admits (V.key_cfg cfgs.now.0)) (V.Value.admits
        (V.value_cfg cfgs.now.0)) (V.Value.admits cfgs.now.1) key.now)
        → IfOk result (λ yes. yes ≡ true) }
    ensures why { let e = keyed_by K.text V.Value.text V.operation_text K.cmp in
        IfErr result (λ error. (d : Database K V.Value)
        → Keeps e V.Value.view H.hash_of (grafting_of F.shape N) database.now d
        → MatchOption d.last (error ≡ Error.NotCommitted) (λ commit.
        MatchOption (active_at e commit.entries key.now) (error ≡ Error.Memory)
        (λ _. error ≡ Error.Present))) }
{
    each_proof_is_accepted::<F, H, K, V, N>();
    each_database_is_made(database);
    let Some(root) = database.root() else {
        return Err(Error::NotCommitted);
    };
    let proof = database.prove_absence(key)?;
    let yes = written_exclusions_are_accepted::<F, H, K, V, N>(alloc, &proof, cfgs, key, &root)?;
    Ok(yes)
}
