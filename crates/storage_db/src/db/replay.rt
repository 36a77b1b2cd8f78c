//! A database that is made again from its operations, one after the other.

ghost use Rattle.std.specs.Prelude.{◌≡◌, ◌<◌, ◌↔◌, ◌∷◌, ◌++◌, [], ℕ, List, Some, IfErr, IfOk, IsOk, IsTrue, MatchBool, MatchOption, length, map, option_map, slice_get, vec_len};
ghost use Rattle.std.specs.Result.{IsErrAnd};
ghost use Rattle.storage_current.specs.Keys.{keyed_by};
ghost use Rattle.storage_ops.specs.Operations.{parts};
ghost use Rattle.storage_db.specs.Databases.{Command, Database, Put, Delete, Commit as Committing, empty, run};
ghost use Rattle.storage_db.specs.Opening.{Begins, IsOpenRefused, ReadsAs, ReadsCommand};
ghost use Rattle.storage_db.specs.Parts.{texts};
ghost use Rattle.storage_db.specs.Replays.{AreReadAlike, IsDoneOr, IsFollowedBy, IsFoundBy, IsOnPath, IsRemade, IsReplayOf, floor_kept};

use crate::db::active::ActiveKeys;
use crate::db::changes::{put_active, put_new, remove};
use crate::db::log::Log;
use crate::db::strings::written_commit;
use crate::db::{Error, OpenError};
use std::alloc::Global;
use storage_codec::{NoMemory, codec};
use storage_current::laws::keys::operations_settle_keys;
use storage_merkle::merkle::{Family, Location};
use storage_ops::qmdb::any::operation::update::Ordered as Update;
use storage_ops::qmdb::any::operation::{Operation, OperationCodec};
use storage_ops::qmdb::any::value::ValueEncoding;
use storage_ops::qmdb::operation::Key;

/// A database as far as its operations have been followed. Of its last commit the value and the floor are kept, and
/// nothing is noted of the keys that have changed since.
#[derive(Drop)]
pub(crate) struct Replay<F: Family, K: Key, V: ValueEncoding> {
    pub(crate) log: Log,
    pub(crate) active: ActiveKeys<K, V::Value>,
    pub(crate) last: Option<(Option<V::Value>, Location<F>)>,
}

/// Returns the operation that `bytes` begin with; none if they begin with none. The reader is told `cfg`.
pub(crate) fn read<F: Family, K: Key, V: OperationCodec<F, Update<K, V>>>(
    alloc: Global,
    bytes: &[u8],
    cfg: &V::ReadCfg,
) -> Result<Option<Operation<F, Update<K, V>>>, NoMemory>
    ensures { IfOk result (λ found. IsFoundBy (ReadsAs (V.operation_parse cfg.now)
        V.operation_view bytes.now) (option_map parts found)) }
{
    let mut unread = bytes;
    match V::read_operation(alloc, &mut unread, cfg) {
        Ok(operation) => Ok(Some(operation)),
        Err(codec::Error::Memory) => Err(NoMemory),
        Err(_) => Ok(None),
    }
}

/// Commands that are read from the same bytes are written and seen alike.
pub(crate) fn bytes_settle_commands<F: Family, K: Key, V: OperationCodec<F, Update<K, V>>>()
    ensures { let e = keyed_by K.text V.Value.text V.operation_text K.cmp in
        (cfg : V.ReadCfg) → AreReadAlike e V.Value.view (ReadsCommand
        (ReadsAs (V.operation_parse cfg) V.operation_view)
        (λ k v n. record { key = k; value = v; next_key = n })) }
{}

/// Whether a change of a database was done; `NoMemory` if it was refused for want of memory.
fn is_done<F>(change: Result<(), Error<F>>) -> Result<bool, NoMemory>
    ensures { IfOk result (λ did. MatchBool did (IsOk change)
        (IsErrAnd change (λ error. error ≡ Error.Memory → ⊥))) }
{
    match change {
        Ok(()) => Ok(true),
        Err(Error::Memory) => Err(NoMemory),
        Err(_) => Ok(false),
    }
}

impl<F: Family, K: Key, V: OperationCodec<F, Update<K, V>>> Replay<F, K, V> {
    /// Returns the database with no operations. It allocates nothing.
    fn new(alloc: Global) -> Self
        ensures { let e = keyed_by K.text V.Value.text V.operation_text K.cmp in
            (cfg : V.ReadCfg) → IsOnPath e (ReadsCommand
            (ReadsAs (V.operation_parse cfg) V.operation_view)
            (λ k v n. record { key = k; value = v; next_key = n }))
            result.log result.active.present.entries result.last [] }
    {
        Replay {
            log: Log::new(alloc),
            active: ActiveKeys::new(alloc),
            last: None,
        }
    }

    /// Returns the database that `operations` make, as far as whole commands do: its last command may append one more.
    ///
    /// # Errors
    ///
    /// `NotALog` with the first location whose operation no database appends there; `Memory` where it runs out before
    /// that is found.
    pub(crate) fn of(
        alloc: Global,
        operations: Vec<Vec<u8>>,
        cfg: &V::ReadCfg,
    ) -> Result<Self, OpenError<F>>
        ensures ok { let e = keyed_by K.text V.Value.text V.operation_text K.cmp in
            let reads = ReadsCommand (ReadsAs (V.operation_parse cfg.now) V.operation_view)
            (λ k v n. record { key = k; value = v; next_key = n }) in
            IfOk result (λ replay. IsOnPath e reads replay.log replay.active.present.entries replay.last
            (map (λ v. v.items) operations.items)) }
        ensures why { let e = keyed_by K.text V.Value.text V.operation_text K.cmp in
            let reads = ReadsCommand (ReadsAs (V.operation_parse cfg.now) V.operation_view)
            (λ k v n. record { key = k; value = v; next_key = n }) in
            IfErr result (IsOpenRefused e reads (map (λ v. v.items) operations.items)) }
        ensures some { IfOk result (λ replay. MatchOption replay.last (Unit {0})
            (λ _. 0 < vec_len replay.log.operations)) }
        ensures made { let e = keyed_by K.text V.Value.text V.operation_text K.cmp in
            IfOk result (λ replay. IsRemade e replay.log replay.active.present.entries replay.last) }
    {
        let mut replay = Self::new(alloc);
        let mut place = 0;
        for operation in operations {
            if !replay.take(alloc, place, &operation, cfg)? {
                return Err(OpenError::NotALog(Location::new(place)));
            }
            place += 1;
        }
        Ok(replay)
    }

    /// Takes the next operation, which stands at `place`. Whether it is the one that a database appends there: the first
    /// of a command, which is done again, or what the command before has appended already.
    fn take(
        &mut self,
        alloc: Global,
        place: u64,
        operation: &[u8],
        cfg: &V::ReadCfg,
    ) -> Result<bool, NoMemory>
        ensures { let e = keyed_by K.text V.Value.text V.operation_text K.cmp in
            let reads = ReadsCommand (ReadsAs (V.operation_parse cfg.now) V.operation_view)
            (λ k v n. record { key = k; value = v; next_key = n }) in
            (before : List (List ℕ)) → place ≡ length before
            → IsOnPath e reads self.old.log self.old.active.present.entries self.old.last before
            → IfOk result (λ same. MatchBool same (IsOnPath e reads self.new.log
            self.new.active.present.entries self.new.last (before ++ operation.now ∷ []))
            (Begins e reads (before ++ operation.now ∷ []) → ⊥)) }
    {
        if place == self.log.len() {
            return self.take_first(alloc, operation, cfg);
        }
        Ok(self.has(place, operation))
    }

    /// Takes the next operation, which is the first of a command, and does the command again. Whether it is one that a
    /// database appends there.
    fn take_first(
        &mut self,
        alloc: Global,
        operation: &[u8],
        cfg: &V::ReadCfg,
    ) -> Result<bool, NoMemory>
        ensures { let e = keyed_by K.text V.Value.text V.operation_text K.cmp in
            let reads = ReadsCommand (ReadsAs (V.operation_parse cfg.now) V.operation_view)
            (λ k v n. record { key = k; value = v; next_key = n }) in
            (before : List (List ℕ)) → length self.old.log.operations.items ≡ length before
            → IsOnPath e reads self.old.log self.old.active.present.entries self.old.last before
            → IfOk result (λ same. MatchBool same (IsOnPath e reads self.new.log
            self.new.active.present.entries self.new.last (before ++ operation.now ∷ []))
            (Begins e reads (before ++ operation.now ∷ []) → ⊥)) }
    {
        operations_settle_keys::<F, K, V>();
        bytes_settle_commands::<F, K, V>();
        let first = self.log.len();
        if !self.follow(alloc, operation, cfg)? {
            return Ok(false);
        }
        Ok(self.has(first, operation))
    }

    /// Whether the operation at `place` is written as `operation`; false past the last one.
    fn has(&self, place: u64, operation: &[u8]) -> bool
        ensures { IsTrue result
            ↔ (slice_get (texts self.now.log) place ≡ Some operation.now) }
    {
        if place >= self.log.len() {
            return false;
        }
        self.log.operations[place as usize].as_slice() == operation
    }

    /// Does again the command whose first operation is `operation`. Whether there is such a command, which has been done.
    fn follow(
        &mut self,
        alloc: Global,
        operation: &[u8],
        cfg: &V::ReadCfg,
    ) -> Result<bool, NoMemory>
        ensures { let e = keyed_by K.text V.Value.text V.operation_text K.cmp in
            let reads = ReadsCommand (ReadsAs (V.operation_parse cfg.now) V.operation_view)
            (λ k v n. record { key = k; value = v; next_key = n }) in
            (commands : List (Command K V.Value))
            → IsReplayOf self.old.log self.old.active.present.entries self.old.last (run e empty commands)
            → IfOk result (IsFollowedBy e self.new.log self.new.active.present.entries self.new.last reads
            (run e empty commands) operation.now) }
    {
        operations_settle_keys::<F, K, V>();
        bytes_settle_commands::<F, K, V>();
        match read::<F, K, V>(alloc, operation, cfg)? {
            Some(Operation::Update(update)) => self.put(alloc, update.key, update.value),
            Some(Operation::Delete(key)) => self.delete(alloc, &key),
            Some(Operation::CommitFloor(metadata, _)) => self.commit(alloc, metadata),
            None => Ok(false),
        }
    }

    /// Gives `key` the value `value`. Whether that was done.
    fn put(&mut self, alloc: Global, key: K, value: V::Value) -> Result<bool, NoMemory>
        ensures { let e = keyed_by K.text V.Value.text V.operation_text K.cmp in
            (d : Database K V.Value)
            → IsReplayOf self.old.log self.old.active.present.entries self.old.last d
            → IfOk result (IsDoneOr e self.new.log self.new.active.present.entries self.new.last d
            (Put key value)) }
    {
        if self.active.present.contains_key(&key) {
            is_done(put_active::<F, K, V>(
                alloc,
                &mut self.log,
                &mut self.active,
                false,
                key,
                value,
            ))
        } else {
            is_done(put_new::<F, K, V>(alloc, &mut self.log, &mut self.active, false, key, value))
        }
    }

    /// Takes `key` out. Whether that was done.
    fn delete(&mut self, alloc: Global, key: &K) -> Result<bool, NoMemory>
        ensures { let e = keyed_by K.text V.Value.text V.operation_text K.cmp in
            (d : Database K V.Value)
            → IsReplayOf self.old.log self.old.active.present.entries self.old.last d
            → IfOk result (IsDoneOr e self.new.log self.new.active.present.entries self.new.last d
            (Delete key.now)) }
    {
        if !self.active.present.contains_key(key) {
            return Ok(false);
        }
        is_done(remove::<F, K, V>(alloc, &mut self.log, &mut self.active, false, key))
    }

    /// Commits with `metadata` as the value of the commit, and hashes nothing. Whether that was done.
    fn commit(&mut self, alloc: Global, metadata: Option<V::Value>) -> Result<bool, NoMemory>
        ensures { let e = keyed_by K.text V.Value.text V.operation_text K.cmp in
            (commands : List (Command K V.Value))
            → IsReplayOf self.old.log self.old.active.present.entries self.old.last (run e empty commands)
            → IfOk result (IsDoneOr e self.new.log self.new.active.present.entries self.new.last
            (run e empty commands) (Committing metadata)) }
    {
        operations_settle_keys::<F, K, V>();
        if !is_done(self.log.make_room::<F>(1))? {
            return Ok(false);
        }
        let before = self.log.committed.checked_sub(1);
        let floor = Location::new(self.log.first_active(self.last_floor(), before));
        let bytes = written_commit::<F, K, V>(alloc, &metadata, floor)?;
        self.log.append(bytes, true);
        self.log.settle(before);
        self.last = Some((metadata, floor));
        Ok(true)
    }

    /// Returns the floor of the last commit; 0 if there is none.
    fn last_floor(&self) -> u64
        ensures { result ≡ floor_kept self.now.last }
    {
        match &self.last {
            Some((_, floor)) => floor.as_u64(),
            None => 0,
        }
    }
}
