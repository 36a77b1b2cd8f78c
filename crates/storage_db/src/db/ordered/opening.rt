//! A database that is opened again from its operations.

ghost use Rattle.std.specs.Prelude.{◌≡◌, ◌<◌, ℕ, List, None, IfOk, IfErr, IsSomeAnd, MatchOption, drop, length, map, vec_len};
ghost use Rattle.storage_bitmap.specs.Chunks.{IsChunkSize};
ghost use Rattle.storage_current.specs.Keys.{keyed_by};
ghost use Rattle.storage_current.specs.Snapshots.{grafting_of};
ghost use Rattle.storage_db.specs.declared.db.active.Active.{Active};
ghost use Rattle.storage_db.specs.Databases.{Command, Database};
ghost use Rattle.storage_db.specs.Kept.{Keeps, pruned_of, with_keys};
ghost use Rattle.storage_db.specs.Opening.{IsOpened, IsOpenRefused, Leave, ReadsAs, ReadsCommand};
ghost use Rattle.storage_db.specs.Parts.{IsCommitOf};
ghost use Rattle.storage_db.specs.Replays.{IsOnPath, IsRemade};
ghost use Rattle.storage_db.specs.declared.db.ordered.opening.OpenError.TheVariants.{Memory};

use crate::db::commit::Commit;
use crate::db::log::Log;
use crate::db::replay::{Replay, bytes_settle_commands};
use crate::db::{Ordered, OrderedCodec};
use std::alloc::Global;
use storage_codec::NoMemory;
use storage_codec::digest::Hasher;
use storage_current::laws::keys::operations_settle_keys;
use storage_merkle::merkle::{Graftable, Location};
use storage_ops::qmdb::operation::Key;

/// Why operations over a family `F` of trees were not opened as a database.
#[derive(Drop, thiserror::Error)]
#[derive_where(Clone, Copy, Debug, PartialEq, Eq)]
pub enum OpenError<F> {
    /// They are not the operations of a database that has committed them all; the first location that shows it.
    #[error("not the operations of a database at {0}")]
    NotALog(Location<F>),
    /// Out of memory.
    #[error("out of memory")]
    Memory,
}

impl<F> From<NoMemory> for OpenError<F> {
    ghost from_gives = { λ _ e. e ≡ Memory };

    fn from(_error: NoMemory) -> OpenError<F> {
        OpenError::Memory
    }
}

impl<F: Graftable, H: Hasher, K: Key, V: OrderedCodec<F, K>, const N: usize> Ordered<
    F,
    H,
    K,
    V,
    N,
> {
    /// Opens the database whose operations are `operations`, as they are written and in their order. The last of them
    /// is its last commit; without any it is the empty database. The reader of an operation is told `cfg`.
    ///
    /// Each command is done again, and what it appends is compared byte by byte. Of the commits only the last is hashed,
    /// once.
    ///
    /// # Errors
    ///
    /// `NotALog` with the first location whose operation no database appends there, or with the number of operations if
    /// they end within a command or after the last commit. `Memory` where it runs out before that is found.
    pub fn open(
        alloc: Global,
        operations: Vec<Vec<u8>>,
        cfg: &V::ReadCfg,
    ) -> Result<Self, OpenError<F>>
        requires { IsChunkSize N }
        ensures ok { let e = keyed_by K.text V.Value.text V.operation_text K.cmp in
            let reads = ReadsCommand (ReadsAs (V.operation_parse cfg.now) V.operation_view)
            (λ k v n. record { key = k; value = v; next_key = n }) in
            IfOk result (IsOpened e reads V.Value.view H.hash_of (grafting_of F.shape N)
            (map (λ v. v.items) operations.items)) }
        ensures why { let e = keyed_by K.text V.Value.text V.operation_text K.cmp in
            let reads = ReadsCommand (ReadsAs (V.operation_parse cfg.now) V.operation_view)
            (λ k v n. record { key = k; value = v; next_key = n }) in
            IfErr result (IsOpenRefused e reads (map (λ v. v.items) operations.items)) }
        ensures left { let e = keyed_by K.text V.Value.text V.operation_text K.cmp in
            let reads = ReadsCommand (ReadsAs (V.operation_parse cfg.now) V.operation_view)
            (λ k v n. record { key = k; value = v; next_key = n }) in
            (commands : List (Command K V.Value))
            → Leave e reads (map (λ v. v.items) operations.items) commands
            → IfErr result (λ error. error ≡ OpenError.Memory) }
    {
        let count = operations.len() as u64;
        let replay = Replay::<F, K, V>::of(alloc, operations, cfg)?;
        Self::replayed(alloc, replay, count)
    }

    /// Returns the database that `replay` has made again of `count` operations.
    ///
    /// # Errors
    ///
    /// The first of: `NotALog` with `count` if they end within a command or after the last commit; `Memory`.
    fn replayed(alloc: Global, replay: Replay<F, K, V>, count: u64) -> Result<Self, OpenError<F>>
        requires size { IsChunkSize N }
        requires some { MatchOption replay.last (Unit {0})
            (λ _. 0 < vec_len replay.log.operations) }
        requires made { let e = keyed_by K.text V.Value.text V.operation_text K.cmp in
            IsRemade e replay.log replay.active.present.entries replay.last }
        ensures ok { let e = keyed_by K.text V.Value.text V.operation_text K.cmp in
            (cfg : V.ReadCfg) (all : List (List ℕ)) → count ≡ length all
            → IsOnPath e (ReadsCommand
            (ReadsAs (V.operation_parse cfg) V.operation_view)
            (λ k v n. record { key = k; value = v; next_key = n })) replay.log
            replay.active.present.entries replay.last all
            → IfOk result (IsOpened e (ReadsCommand
            (ReadsAs (V.operation_parse cfg) V.operation_view)
            (λ k v n. record { key = k; value = v; next_key = n })) V.Value.view H.hash_of (grafting_of F.shape N) all) }
        ensures why { let e = keyed_by K.text V.Value.text V.operation_text K.cmp in
            (cfg : V.ReadCfg) (all : List (List ℕ)) → count ≡ length all
            → IsOnPath e (ReadsCommand
            (ReadsAs (V.operation_parse cfg) V.operation_view)
            (λ k v n. record { key = k; value = v; next_key = n })) replay.log
            replay.active.present.entries replay.last all
            → IfErr result (IsOpenRefused e (ReadsCommand
            (ReadsAs (V.operation_parse cfg) V.operation_view)
            (λ k v n. record { key = k; value = v; next_key = n })) all) }
    {
        operations_settle_keys::<F, K, V>();
        bytes_settle_commands::<F, K, V>();
        let Replay {
            log,
            mut active,
            last,
        } = replay;
        if log.len() != count || log.committed != count {
            return Err(OpenError::NotALog(Location::new(count)));
        }
        let last = Self::kept(alloc, &log, last)?;
        active.forget();
        Ok(Ordered {
            alloc,
            log,
            active,
            last,
        })
    }

    /// Returns what is kept of the last commit, which is the last operation of `log`, with the value and the floor that
    /// `last` names; none for none.
    fn kept(
        alloc: Global,
        log: &Log,
        last: Option<(Option<V::Value>, Location<F>)>,
    ) -> Result<Option<Commit<F, H, K, V, N>>, NoMemory>
        requires size { IsChunkSize N }
        requires some { MatchOption last (Unit {0}) (λ _. 0 < vec_len log.now.operations) }
        ensures { let e = keyed_by K.text V.Value.text V.operation_text K.cmp in
            IfOk result (λ kept. (entries : List (K × Active V.Value))
            → MatchOption last (kept ≡ None) (λ p. IsSomeAnd kept (λ c. IsCommitOf e V.Value.view
            H.hash_of (grafting_of F.shape N) log.now entries None p.0 p.1 (with_keys c entries)))) }
    {
        let Some((metadata, floor)) = last else {
            return Ok(None);
        };
        let commit = Commit::first(alloc, log, metadata, floor)?;
        Ok(Some(commit))
    }

    /// Returns the operations that are not forgotten, as they are written: those of the last commit, and what puts and
    /// deletions have appended since. The first of them stands at [`pruned`](Self::pruned). Allocates nothing.
    pub fn operations(&self) -> &[Vec<u8>]
        ensures { let e = keyed_by K.text V.Value.text V.operation_text K.cmp in
            (d : Database K V.Value)
            → Keeps e V.Value.view H.hash_of (grafting_of F.shape N) self.now d
            → map (λ v. v.items) result.now ≡ drop (pruned_of self.now.last) d.operations }
    {
        self.log.operations_from(self.pruned())
    }

    /// Gives the operations back that are not forgotten, as they are written: those of the last commit, and what puts and
    /// deletions have appended since. Allocates nothing.
    pub fn into_operations(self) -> Vec<Vec<u8>>
        ensures { let e = keyed_by K.text V.Value.text V.operation_text K.cmp in
            (d : Database K V.Value)
            → Keeps e V.Value.view H.hash_of (grafting_of F.shape N) self d
            → map (λ v. v.items) result.items ≡ drop (pruned_of self.last) d.operations }
    {
        let pruned = self.pruned() as usize;
        let log = self.log;
        let mut operations = log.operations;
        let kept = operations.len() - pruned;
        operations.rotate_left(pruned);
        operations.truncate(kept);
        operations
    }
}
