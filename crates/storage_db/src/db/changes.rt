//! What a put, a delete and a commit change of the operations and of the active keys.

ghost use Rattle.std.specs.Prelude.{◌≡◌, List, ◌+◌, ◌<◌, ◌≤◌, [], ◌∷◌, ◌++◌, true, false, length, Option, Some, option_map, is_some, if◌then◌else◌, IfErr, IsSomeAnd, OnOk, OnErr, vec_len, vec_capacity};
ghost use Rattle.std.specs.BTreeMap.{IsOrdered, insert_entry, is_at};
ghost use Rattle.std.specs.Map.{lookup, remove_entry};
ghost use Rattle.storage_merkle.specs.Shape.{max_leaves};
ghost use Rattle.storage_bitmap.specs.Chunks.{IsChunkSize};
ghost use Rattle.storage_current.specs.Keys.{commit_text, keyed_by};
ghost use Rattle.storage_current.specs.Snapshots.{grafting_of};
ghost use Rattle.storage_db.specs.declared.db.active.Active.{Active};
ghost use Rattle.storage_db.specs.Databases.{Commit as Committing, Committed, Database, active_at, commit, delete, least_location, put, without};
ghost use Rattle.storage_db.specs.Floors.{AreMarked, floor_of};
ghost use Rattle.storage_db.specs.Kept.{IsDone, Keeps, with_keys};
ghost use Rattle.storage_db.specs.Logs.{HaveRoom, IsTooMany};
ghost use Rattle.storage_db.specs.Parts.{GoesOn, IsCommitOf, IsSince, StayCommitted, StayNoted, committed_of, database_of, is_noted, kept_of, kept_with, moved, place_of};

use crate::db::Error;
use crate::db::active::{ActiveKeys, previous};
use crate::db::commit::Commit;
use crate::db::log::Log;
use crate::db::strings::{
    next_or_own, predecessor_update, written_commit, written_delete, written_update,
};
use std::alloc::Global;
use storage_codec::NoMemory;
use storage_codec::digest::Hasher;
use storage_current::laws::keys::operations_settle_keys;
use storage_merkle::merkle::{Family, Graftable, Location};
use storage_ops::qmdb::any::operation::OperationCodec;
use storage_ops::qmdb::any::operation::update::Ordered as Update;
use storage_ops::qmdb::operation::Key;

/// Gives `key`, which is active, the value `value`: by its update, which names the same next key. If `noting`, what the
/// last commit had of the key stays known, here and below.
pub(crate) fn put_active<F: Family, K: Key, V: OperationCodec<F, Update<K, V>>>(
    alloc: Global,
    log: &mut Log,
    active: &mut ActiveKeys<K, V::Value>,
    noting: bool,
    key: K,
    value: V::Value,
) -> Result<(), Error<F>>
    requires { is_some (lookup (is_at (K.cmp key)) active.old.present.entries) ≡ true }
    ensures ok { let e = keyed_by K.text V.Value.text V.operation_text K.cmp in
        OnOk result ((last : Option (Committed K V.Value))
        → database_of log.new active.new.present.entries last
        ≡ put e (database_of log.old active.old.present.entries last) key value) }
    ensures few { length log.new.operations.items ≤ max_leaves }
    ensures on { GoesOn log.old log.new }
    ensures err { OnErr result ((last : Option (Committed K V.Value))
        → database_of log.new active.new.present.entries last
        ≡ database_of log.old active.old.present.entries last) }
    ensures committed { OnOk result (noting ≡ true
        → StayCommitted K.cmp active.old active.new) }
    ensures kept { OnErr result
        (committed_of K.cmp active.new ≡ committed_of K.cmp active.old) }
    ensures why { let e = keyed_by K.text V.Value.text V.operation_text K.cmp in
        IfErr result (λ error. (last : Option (Committed K V.Value))
        → IsTooMany (length log.old.operations.items) (length (put e
        (database_of log.old active.old.present.entries last) key value).operations) error) }
{
    log.make_room::<F>(1)?;
    let next_key = next_or_own(&active.present, &key)?;
    let bytes = written_update::<F, K, V>(alloc, &key, &value, &next_key)?;
    set(log, active, noting, key, value, bytes)?;
    Ok(())
}

/// Gives `key`, which is not active, the value `value`: by its update, which names the key that comes after it, and by
/// that of the key before it, which now names `key`.
pub(crate) fn put_new<F: Family, K: Key, V: OperationCodec<F, Update<K, V>>>(
    alloc: Global,
    log: &mut Log,
    active: &mut ActiveKeys<K, V::Value>,
    noting: bool,
    key: K,
    value: V::Value,
) -> Result<(), Error<F>>
    requires { is_some (lookup (is_at (K.cmp key)) active.old.present.entries) ≡ false }
    ensures ok { let e = keyed_by K.text V.Value.text V.operation_text K.cmp in
        OnOk result ((last : Option (Committed K V.Value))
        → database_of log.new active.new.present.entries last
        ≡ put e (database_of log.old active.old.present.entries last) key value) }
    ensures few { length log.new.operations.items ≤ max_leaves }
    ensures on { GoesOn log.old log.new }
    ensures err { OnErr result ((last : Option (Committed K V.Value))
        → database_of log.new active.new.present.entries last
        ≡ database_of log.old active.old.present.entries last) }
    ensures committed { OnOk result (noting ≡ true
        → StayCommitted K.cmp active.old active.new) }
    ensures kept { OnErr result
        (committed_of K.cmp active.new ≡ committed_of K.cmp active.old) }
    ensures why { let e = keyed_by K.text V.Value.text V.operation_text K.cmp in
        IfErr result (λ error. (last : Option (Committed K V.Value))
        → IsTooMany (length log.old.operations.items) (length (put e
        (database_of log.old active.old.present.entries last) key value).operations) error) }
{
    let before = previous(&active.present, &key);
    log.make_room::<F>(appended(&before))?;
    let next_key = next_or_own(&active.present, &key)?;
    let bytes = written_update::<F, K, V>(alloc, &key, &value, &next_key)?;
    match predecessor_update::<F, K, V>(alloc, before, &key)? {
        None => {
            set(log, active, noting, key, value, bytes)?;
            Ok(())
        }
        Some((previous, link)) => {
            operations_settle_keys::<F, K, V>();
            note(active, noting, &previous)?;
            set(log, active, noting, key, value, bytes)?;
            renew(log, active, &previous, link);
            Ok(())
        }
    }
}

/// Takes `key`, which is active, out: by its deletion, and by the update of the key before it, which now names the key
/// after it.
pub(crate) fn remove<F: Family, K: Key, V: OperationCodec<F, Update<K, V>>>(
    alloc: Global,
    log: &mut Log,
    active: &mut ActiveKeys<K, V::Value>,
    noting: bool,
    key: &K,
) -> Result<(), Error<F>>
    requires { is_some (lookup (is_at (K.cmp key.now)) active.old.present.entries) ≡ true }
    ensures ok { let e = keyed_by K.text V.Value.text V.operation_text K.cmp in
        OnOk result ((last : Option (Committed K V.Value))
        → database_of log.new active.new.present.entries last
        ≡ delete e (database_of log.old active.old.present.entries last) key.now) }
    ensures few { length log.new.operations.items ≤ max_leaves }
    ensures on { GoesOn log.old log.new }
    ensures err { OnErr result ((last : Option (Committed K V.Value))
        → database_of log.new active.new.present.entries last
        ≡ database_of log.old active.old.present.entries last) }
    ensures committed { OnOk result (noting ≡ true
        → StayCommitted K.cmp active.old active.new) }
    ensures kept { OnErr result
        (committed_of K.cmp active.new ≡ committed_of K.cmp active.old) }
    ensures why { let e = keyed_by K.text V.Value.text V.operation_text K.cmp in
        IfErr result (λ error. (last : Option (Committed K V.Value))
        → IsTooMany (length log.old.operations.items) (length (delete e
        (database_of log.old active.old.present.entries last) key.now).operations) error) }
{
    let before = previous(&active.present, key);
    log.make_room::<F>(appended(&before))?;
    let next_key = next_or_own(&active.present, key)?;
    let bytes = written_delete::<F, K, V>(alloc, key)?;
    match predecessor_update::<F, K, V>(alloc, before, &next_key)? {
        None => {
            remove_active(log, active, noting, key, bytes)?;
            Ok(())
        }
        Some((start, link)) => {
            operations_settle_keys::<F, K, V>();
            note(active, noting, &start)?;
            remove_active(log, active, noting, key, bytes)?;
            renew(log, active, &start, link);
            Ok(())
        }
    }
}

/// Appends the commit with the value `metadata`, and clears the bit of the commit before it. Its floor is the least
/// location of an active update, or its own if no key is active: no update before the last floor is active, so that is
/// where the search for it begins. `last` becomes what is kept of it.
pub(crate) fn put_commit<
    F: Graftable,
    H: Hasher,
    K: Key,
    V: OperationCodec<F, Update<K, V>>,
    const N: usize,
>(
    alloc: Global,
    log: &mut Log,
    active: &mut ActiveKeys<K, V::Value>,
    last: &mut Option<Commit<F, H, K, V, N>>,
    metadata: Option<V::Value>,
) -> Result<(), Error<F>>
    requires { IsChunkSize N }
    ensures ok { let e = keyed_by K.text V.Value.text V.operation_text K.cmp in
        IsSince log.old (kept_with K.cmp active.old last.old)
        → AreMarked K.cmp log.old.bits.items (place_of (kept_with K.cmp active.old last.old))
        (floor_of (kept_with K.cmp active.old last.old)) active.old.present.entries
        → OnOk result (IsDone e V.Value.view H.hash_of (grafting_of F.shape N)
        (kept_of log.old active.old.present.entries (kept_with K.cmp active.old last.old))
        (kept_of log.new active.new.present.entries (kept_with K.cmp active.new last.new))
        (Committing metadata)) }
    ensures since { let e = keyed_by K.text V.Value.text V.operation_text K.cmp in
        IsSince log.old (kept_with K.cmp active.old last.old)
        → (d : Database K V.Value) → Keeps e V.Value.view H.hash_of (grafting_of F.shape N)
        (kept_of log.old active.old.present.entries (kept_with K.cmp active.old last.old)) d
        → IsSince log.new (kept_with K.cmp active.new last.new) }
    ensures err { OnErr result (kept_of log.new active.new.present.entries
        (kept_with K.cmp active.new last.new)
        ≡ kept_of log.old active.old.present.entries (kept_with K.cmp active.old last.old)) }
    ensures why { let e = keyed_by K.text V.Value.text V.operation_text K.cmp in
        IfErr result (λ error. (last : Option (Committed K V.Value))
        → IsTooMany (length log.old.operations.items) (length (commit e
        (database_of log.old active.old.present.entries last) metadata).operations) error) }
{
    log.make_room::<F>(1)?;
    let floor = Location::new(log.first_active(floor_of(last), location_of(last)));
    let bytes = written_commit::<F, K, V>(alloc, &metadata, floor)?;
    append_commit(alloc, log, active, last, metadata, floor, bytes)?;
    Ok(())
}

/// Appends `bytes`, the commit with the value `metadata` and the floor `floor`, clears the bit of the commit before it,
/// and keeps it in place of that in `last`. There is room. From now on the active keys are those of this commit.
fn append_commit<
    F: Graftable,
    H: Hasher,
    K: Key,
    V: OperationCodec<F, Update<K, V>>,
    const N: usize,
>(
    alloc: Global,
    log: &mut Log,
    active: &mut ActiveKeys<K, V::Value>,
    last: &mut Option<Commit<F, H, K, V, N>>,
    metadata: Option<V::Value>,
    floor: Location<F>,
    bytes: Vec<u8>,
) -> Result<(), NoMemory>
    requires size { IsChunkSize N }
    requires room { HaveRoom 1 (vec_len log.old.operations) (vec_capacity log.old.operations)
        (vec_capacity log.old.bits) }
    requires few { vec_len log.old.operations < max_leaves }
    ensures ok { let e = keyed_by K.text V.Value.text V.operation_text K.cmp in
        IsSince log.old (kept_with K.cmp active.old last.old)
        → floor_of (kept_with K.cmp active.old last.old) ≤ floor
        → floor ≡ least_location active.old.present.entries (length log.old.operations.items)
        → bytes.items ≡ commit_text e metadata floor
        → OnOk result (IsDone e V.Value.view H.hash_of (grafting_of F.shape N)
        (kept_of log.old active.old.present.entries (kept_with K.cmp active.old last.old))
        (kept_of log.new active.new.present.entries (kept_with K.cmp active.new last.new))
        (Committing metadata)) }
    ensures since { let e = keyed_by K.text V.Value.text V.operation_text K.cmp in
        IsSince log.old (kept_with K.cmp active.old last.old)
        → (d : Database K V.Value) → Keeps e V.Value.view H.hash_of (grafting_of F.shape N)
        (kept_of log.old active.old.present.entries (kept_with K.cmp active.old last.old)) d
        → IsSince log.new (kept_with K.cmp active.new last.new) }
    ensures err { OnErr result (kept_of log.new active.new.present.entries
        (kept_with K.cmp active.new last.new)
        ≡ kept_of log.old active.old.present.entries (kept_with K.cmp active.old last.old)) }
{
    let before = location_of(last);
    log.append(bytes, true);
    if keep(alloc, log, last, metadata, floor).is_err() {
        log.take_back();
        return Err(NoMemory);
    }
    log.settle(before);
    active.forget();
    Ok(())
}

/// Returns where a commit stands; none if there is none.
pub(crate) fn location_of<
    F: Graftable,
    H: Hasher,
    K: Key,
    V: OperationCodec<F, Update<K, V>>,
    const N: usize,
>(last: &Option<Commit<F, H, K, V, N>>) -> Option<u64>
    ensures { (entries : List (K × Active V.Value))
        → result ≡ place_of (option_map (λ c. with_keys c entries) last.now) }
{
    match last {
        Some(last) => Some(last.location()),
        None => None,
    }
}

/// Returns the floor of a commit; 0 if there is none.
pub(crate) fn floor_of<
    F: Graftable,
    H: Hasher,
    K: Key,
    V: OperationCodec<F, Update<K, V>>,
    const N: usize,
>(last: &Option<Commit<F, H, K, V, N>>) -> u64
    ensures { (entries : List (K × Active V.Value))
        → result ≡ floor_of (option_map (λ c. with_keys c entries) last.now) }
{
    match last {
        Some(last) => last.floor().as_u64(),
        None => 0,
    }
}

/// Keeps the commit that is the last operation of `log`, with the value `metadata` and the floor `floor`, in place of
/// that in `last`.
fn keep<F: Graftable, H: Hasher, K: Key, V: OperationCodec<F, Update<K, V>>, const N: usize>(
    alloc: Global,
    log: &Log,
    last: &mut Option<Commit<F, H, K, V, N>>,
    metadata: Option<V::Value>,
    floor: Location<F>,
) -> Result<(), NoMemory>
    requires size { IsChunkSize N }
    requires some { 0 < vec_len log.now.operations }
    ensures ok { let e = keyed_by K.text V.Value.text V.operation_text K.cmp in
        (before entries : List (K × Active V.Value))
        → IsSince log.now (option_map (λ c. with_keys c before) last.old)
        → OnOk result (IsSomeAnd last.new (λ c. IsCommitOf e V.Value.view H.hash_of
        (grafting_of F.shape N) log.now entries (option_map (λ b. with_keys b before) last.old) metadata
        floor (with_keys c entries))) }
    ensures err { OnErr result (last.new ≡ last.old) }
{
    match last {
        Some(commit) => commit.extend(alloc, log, metadata, floor),
        None => {
            *last = Some(Commit::first(alloc, log, metadata, floor)?);
            Ok(())
        }
    }
}

/// Returns how many operations a put of a new key or a deletion appends: its own, and if there is a key before, that
/// key's update.
fn appended<T>(before: &Option<T>) -> usize
    ensures { result ≡ (if is_some before.now then 2 else 1) }
{
    if before.is_some() { 2 } else { 1 }
}

/// Notes what the last commit had of `key`, if `noting`: the key may change then.
pub(crate) fn note<K: Key, W: Drop>(
    active: &mut ActiveKeys<K, W>,
    noting: bool,
    key: &K,
) -> Result<(), NoMemory>
    ensures present { active.new.present ≡ active.old.present }
    ensures noted { OnOk result (noting ≡ true → is_noted K.cmp active.new key.now ≡ true) }
    ensures others { StayNoted K.cmp active.old active.new }
    ensures committed { committed_of K.cmp active.new ≡ committed_of K.cmp active.old }
{
    if !noting {
        return Ok(());
    }
    active.note(key)
}

/// Appends `bytes`, the update of `key` to `value`, which is the active one of its key from now on. There is room.
fn set<K: Key, W: Drop>(
    log: &mut Log,
    active: &mut ActiveKeys<K, W>,
    noting: bool,
    key: K,
    value: W,
    bytes: Vec<u8>,
) -> Result<(), NoMemory>
    requires room { HaveRoom 1 (vec_len log.old.operations) (vec_capacity log.old.operations)
        (vec_capacity log.old.bits) }
    requires clear_room { vec_len log.old.cleared < vec_capacity log.old.cleared }
    requires few { vec_len log.old.operations < max_leaves }
    ensures on { OnOk result (GoesOn log.old log.new) }
    ensures operations { OnOk result
        (log.new.operations.items ≡ log.old.operations.items ++ bytes ∷ []) }
    ensures bits { OnOk result (log.new.bits.items ≡ without (lookup (is_at (K.cmp key))
        active.old.present.entries) log.old.bits.items ++ true ∷ []) }
    ensures entries { OnOk result (active.new.present.entries ≡ insert_entry K.cmp
        active.old.present.entries key
        (record { value = value; location = length log.old.operations.items })) }
    ensures room { (vec_capacity log.old.operations ≤ vec_capacity log.new.operations)
        × (vec_capacity log.old.bits ≤ vec_capacity log.new.bits) }
    ensures clear_room { (vec_len log.new.cleared ≤ vec_len log.old.cleared + 1)
        × (vec_capacity log.old.cleared ≤ vec_capacity log.new.cleared) }
    ensures err { OnErr result (log.new ≡ log.old) }
    ensures same { OnErr result (active.new.present.entries ≡ active.old.present.entries) }
    ensures others { StayNoted K.cmp active.old active.new }
    ensures committed { OnOk result (noting ≡ true
        → StayCommitted K.cmp active.old active.new) }
    ensures kept { OnErr result
        (committed_of K.cmp active.new ≡ committed_of K.cmp active.old) }
{
    note(active, noting, &key)?;
    let location = log.len();
    let before = active.insert(key, value, location)?;
    if let Some(before) = before {
        log.clear(before);
    }
    log.append(bytes, true);
    Ok(())
}

/// Appends `bytes`, the deletion of `key`, which is not active from now on. There is room.
fn remove_active<K: Key, W: Drop>(
    log: &mut Log,
    active: &mut ActiveKeys<K, W>,
    noting: bool,
    key: &K,
    bytes: Vec<u8>,
) -> Result<(), NoMemory>
    requires room { HaveRoom 1 (vec_len log.old.operations) (vec_capacity log.old.operations)
        (vec_capacity log.old.bits) }
    requires clear_room { vec_len log.old.cleared < vec_capacity log.old.cleared }
    requires few { vec_len log.old.operations < max_leaves }
    ensures on { OnOk result (GoesOn log.old log.new) }
    ensures operations { OnOk result
        (log.new.operations.items ≡ log.old.operations.items ++ bytes ∷ []) }
    ensures bits { OnOk result (log.new.bits.items ≡ without (lookup (is_at (K.cmp key.now))
        active.old.present.entries) log.old.bits.items ++ false ∷ []) }
    ensures entries { OnOk result (active.new.present.entries
        ≡ remove_entry (is_at (K.cmp key.now)) active.old.present.entries) }
    ensures room { (vec_capacity log.old.operations ≤ vec_capacity log.new.operations)
        × (vec_capacity log.old.bits ≤ vec_capacity log.new.bits) }
    ensures clear_room { (vec_len log.new.cleared ≤ vec_len log.old.cleared + 1)
        × (vec_capacity log.old.cleared ≤ vec_capacity log.new.cleared) }
    ensures err { OnErr result (log.new ≡ log.old) }
    ensures same { OnErr result (active.new.present.entries ≡ active.old.present.entries) }
    ensures others { StayNoted K.cmp active.old active.new }
    ensures committed { OnOk result (noting ≡ true
        → StayCommitted K.cmp active.old active.new) }
    ensures kept { OnErr result
        (committed_of K.cmp active.new ≡ committed_of K.cmp active.old) }
{
    note(active, noting, key)?;
    if let Some(before) = active.remove(key) {
        log.clear(before);
    }
    log.append(bytes, false);
    Ok(())
}

/// Appends `bytes`, an update of the active key `key` to its value, which is its active one from now on. There is room,
/// and after the first commit the key is noted.
pub(crate) fn renew<K: Key, W: Drop>(
    log: &mut Log,
    active: &mut ActiveKeys<K, W>,
    key: &K,
    bytes: Vec<u8>,
)
    requires room { HaveRoom 1 (vec_len log.old.operations) (vec_capacity log.old.operations)
        (vec_capacity log.old.bits) }
    requires clear_room { vec_len log.old.cleared < vec_capacity log.old.cleared }
    requires few { vec_len log.old.operations < max_leaves }
    ensures on { GoesOn log.old log.new }
    ensures operations { log.new.operations.items ≡ log.old.operations.items ++ bytes ∷ [] }
    ensures bits { log.new.bits.items ≡ without (lookup (is_at (K.cmp key.now))
        active.old.present.entries) log.old.bits.items ++ true ∷ [] }
    ensures entries { active.new.present.entries ≡ moved (is_at (K.cmp key.now))
        active.old.present.entries (length log.old.operations.items) }
    ensures ordered { IsOrdered K.cmp active.old.present }
    ensures committed { is_noted K.cmp active.old key.now ≡ true
        → StayCommitted K.cmp active.old active.new }
{
    let location = log.len();
    if let Some(before) = active.relocate(key, location) {
        log.clear(before);
    }
    log.append(bytes, true);
}
