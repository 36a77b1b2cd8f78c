//! An active update that is put again: its key keeps its value, and its update stands at the end of the operations.

ghost use Rattle.std.specs.Prelude.{◌≡◌, ◌≤◌, Option, true, length, IfErr, IfOk, OnErr, OnOk};
ghost use Rattle.storage_current.specs.Keys.{keyed_by};
ghost use Rattle.storage_merkle.specs.Shape.{max_leaves};
ghost use Rattle.storage_db.specs.Again.{IsAgain, IsAgainOf, ReadsKey};
ghost use Rattle.storage_db.specs.Compacting.{IsNotMoved, PutsAgain};
ghost use Rattle.storage_db.specs.Databases.{Command, Committed, done};
ghost use Rattle.storage_db.specs.Opening.{ReadsAs, ReadsCommand};
ghost use Rattle.storage_db.specs.Parts.{GoesOn, StayCommitted, committed_of, database_of, texts};
ghost use Rattle.storage_db.specs.Replays.{IsFoundBy};

use crate::db::CompactError;
use crate::db::active::ActiveKeys;
use crate::db::changes::{note, renew};
use crate::db::log::Log;
use crate::db::replay::{bytes_settle_commands, read};
use crate::db::strings::{next_or_own, written_update};
use std::alloc::Global;
use storage_codec::NoMemory;
use storage_current::laws::keys::operations_settle_keys;
use storage_merkle::merkle::{Family, Location};
use storage_ops::qmdb::any::operation::update::Ordered as Update;
use storage_ops::qmdb::any::operation::{Operation, OperationCodec};
use storage_ops::qmdb::operation::Key;

/// Returns the key to which the update `operation` gives a value; none if no update is read. The reader is told `cfg`.
fn read_key<F: Family, K: Key, V: OperationCodec<F, Update<K, V>>>(
    alloc: Global,
    operation: &[u8],
    cfg: &V::ReadCfg,
) -> Result<Option<K>, NoMemory>
    ensures { let reads = ReadsCommand (ReadsAs (V.operation_parse cfg.now) V.operation_view)
        (λ k v n. record { key = k; value = v; next_key = n }) in
        IfOk result (IsFoundBy (ReadsKey reads operation.now)) }
{
    bytes_settle_commands::<F, K, V>();
    match read::<F, K, V>(alloc, operation, cfg)? {
        Some(Operation::Update(update)) => Ok(Some(update.key)),
        Some(Operation::Delete(_)) => Ok(None),
        Some(Operation::CommitFloor(_, _)) => Ok(None),
        None => Ok(None),
    }
}

/// Returns the update of `key` to the value that it has, as it is written; none if its active update does not stand at
/// `location`.
fn written_again<F: Family, K: Key, V: OperationCodec<F, Update<K, V>>>(
    alloc: Global,
    active: &ActiveKeys<K, V::Value>,
    key: &K,
    location: u64,
) -> Result<Option<Vec<u8>>, NoMemory>
    ensures { let e = keyed_by K.text V.Value.text V.operation_text K.cmp in
        IfOk result (IsAgain e active.now.present.entries key.now location) }
{
    let Some(entry) = active.present.get(key) else {
        return Ok(None);
    };
    if entry.location != location {
        return Ok(None);
    }
    let next_key = next_or_own(&active.present, key)?;
    let bytes = written_update::<F, K, V>(alloc, key, &entry.value, &next_key)?;
    Ok(Some(bytes))
}

/// Returns the key of the active update that stands at `location`, as it is read there, and that update put again, as it
/// is written; none if no update of that key is read there. The reader is told `cfg`.
fn again<F: Family, K: Key, V: OperationCodec<F, Update<K, V>>>(
    alloc: Global,
    log: &Log,
    active: &ActiveKeys<K, V::Value>,
    location: u64,
    cfg: &V::ReadCfg,
) -> Result<Option<(K, Vec<u8>)>, NoMemory>
    ensures { let e = keyed_by K.text V.Value.text V.operation_text K.cmp in
        let reads = ReadsCommand (ReadsAs (V.operation_parse cfg.now) V.operation_view)
        (λ k v n. record { key = k; value = v; next_key = n }) in
        IfOk result (IsAgainOf e active.now.present.entries reads (texts log.now) location) }
{
    operations_settle_keys::<F, K, V>();
    bytes_settle_commands::<F, K, V>();
    if location >= log.len() {
        return Ok(None);
    }
    let operation = &log.operations[location as usize];
    let Some(key) = read_key::<F, K, V>(alloc, operation, cfg)? else {
        return Ok(None);
    };
    match written_again::<F, K, V>(alloc, active, &key, location)? {
        Some(bytes) => Ok(Some((key, bytes))),
        None => Ok(None),
    }
}

/// Puts the active update again that stands at `location`, if one does. Its key is read from the operation there, and
/// the reader is told `cfg`; its value stays where it is. If `noting`, what the last commit had of the key stays known.
///
/// # Errors
///
/// The first of: `Refused(Full)` if there are 2^62 operations already; `NotRead` with `location` if no update of that
/// key is read there; `Refused(Memory)`, which may come before that is found.
pub(crate) fn put_again<F: Family, K: Key, V: OperationCodec<F, Update<K, V>>>(
    alloc: Global,
    log: &mut Log,
    active: &mut ActiveKeys<K, V::Value>,
    noting: bool,
    location: u64,
    cfg: &V::ReadCfg,
) -> Result<(), CompactError<F>>
    ensures ok { let e = keyed_by K.text V.Value.text V.operation_text K.cmp in
        OnOk result ((command : Command K V.Value)
        × PutsAgain e active.old.present.entries location command
        × ((last : Option (Committed K V.Value))
        → database_of log.new active.new.present.entries last
        ≡ done e (database_of log.old active.old.present.entries last) command)) }
    ensures few { length log.new.operations.items ≤ max_leaves }
    ensures on { GoesOn log.old log.new }
    ensures err { OnErr result ((last : Option (Committed K V.Value))
        → database_of log.new active.new.present.entries last
        ≡ database_of log.old active.old.present.entries last) }
    ensures committed { OnOk result (noting ≡ true
        → StayCommitted K.cmp active.old active.new) }
    ensures kept { OnErr result
        (committed_of K.cmp active.new ≡ committed_of K.cmp active.old) }
    ensures why { let e = keyed_by K.text V.Value.text V.operation_text K.cmp in
        let reads = ReadsCommand (ReadsAs (V.operation_parse cfg.now) V.operation_view)
        (λ k v n. record { key = k; value = v; next_key = n }) in
        IfErr result (λ error. (last : Option (Committed K V.Value))
        → IsNotMoved e reads (database_of log.old active.old.present.entries last) location error) }
{
    operations_settle_keys::<F, K, V>();
    log.make_room::<F>(1)?;
    let Some((key, bytes)) = again::<F, K, V>(alloc, log, active, location, cfg)? else {
        return Err(CompactError::NotRead(Location::new(location)));
    };
    note(active, noting, &key)?;
    renew(log, active, &key, bytes);
    Ok(())
}
