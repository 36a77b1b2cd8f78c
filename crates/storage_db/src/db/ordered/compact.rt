//! A database whose oldest active updates are put again, so that the floor of the next commit rises.

ghost use Rattle.std.specs.Prelude.{◌≡◌, ◌≤◌, length, IfErr, IfOk, OnErr, OnOk};
ghost use Rattle.storage_current.specs.Keys.{keyed_by};
ghost use Rattle.storage_current.specs.Snapshots.{grafting_of};
ghost use Rattle.storage_merkle.specs.Shape.{max_leaves};
ghost use Rattle.storage_db.specs.Compacting.{IsCompacted, IsLeft, IsMovedOnce, IsNext, IsNotMoved, IsStopped};
ghost use Rattle.storage_db.specs.Databases.{Database, least_location};
ghost use Rattle.storage_db.specs.Kept.{Keeps};
ghost use Rattle.storage_db.specs.Opening.{ReadsAs, ReadsCommand};
ghost use Rattle.storage_db.specs.declared.db.error.Error.TheVariants.{Memory};
ghost use Rattle.storage_db.specs.declared.db.ordered.compact.CompactError.TheVariants.{Refused};

use crate::db::again::put_again;
use crate::db::changes::{floor_of, location_of};
use crate::db::{Error, Ordered, OrderedCodec};
use storage_codec::NoMemory;
use storage_codec::digest::Hasher;
use storage_current::laws::keys::operations_settle_keys;
use storage_merkle::merkle::{Graftable, Location};
use storage_ops::qmdb::operation::Key;

/// Why the oldest active update of a database over a family `F` of trees was not put again.
#[derive(Drop, thiserror::Error)]
#[derive_where(Clone, Copy, Debug, PartialEq, Eq)]
pub enum CompactError<F> {
    /// By the configuration it is not read as an update of its key; its location.
    #[error("no update of its key is read at {0}")]
    NotRead(Location<F>),
    /// To put it was refused, by `Full` or `Memory`.
    #[error("{0}")]
    Refused(Error<F>),
}

impl<F> From<Error<F>> for CompactError<F> {
    ghost from_gives = { λ error e. e ≡ Refused error };

    fn from(error: Error<F>) -> CompactError<F> {
        CompactError::Refused(error)
    }
}

impl<F> From<NoMemory> for CompactError<F> {
    ghost from_gives = { λ _ e. e ≡ Refused Memory };

    fn from(_error: NoMemory) -> CompactError<F> {
        CompactError::Refused(Error::Memory)
    }
}

impl<F: Graftable, H: Hasher, K: Key, V: OrderedCodec<F, K>, const N: usize> Ordered<
    F,
    H,
    K,
    V,
    N,
> {
    /// Puts the oldest active update again, at most `count` times, so that the floor of the next commit rises. Each key
    /// keeps its value. Returns how many updates were put again: fewer than `count` only if all that stood among the
    /// operations at the call have been.
    ///
    /// Its key is read from the update, and the reader is told `cfg`. The search begins at the floor of the last commit
    /// and passes each bit once, so the call costs those bits and what it moves.
    ///
    /// # Errors
    ///
    /// Those put again before stay so, and the oldest active update then stands where it did. The first of:
    /// `Refused(Full)` if there are 2^62 operations already; `NotRead` with its location if no update of its key is read
    /// there; `Refused(Memory)`, which may come before that is found.
    pub fn compact(&mut self, count: u64, cfg: &V::ReadCfg) -> Result<u64, CompactError<F>>
        ensures ok { let e = keyed_by K.text V.Value.text V.operation_text K.cmp in
            IfOk result (λ moved. (d : Database K V.Value)
            → Keeps e V.Value.view H.hash_of (grafting_of F.shape N) self.old d
            → IsCompacted e V.Value.view H.hash_of (grafting_of F.shape N) d count self.new moved) }
        ensures err { let e = keyed_by K.text V.Value.text V.operation_text K.cmp in
            let reads = ReadsCommand (ReadsAs (V.operation_parse cfg.now) V.operation_view)
            (λ k v n. record { key = k; value = v; next_key = n }) in
            IfErr result (λ error. (d : Database K V.Value)
            → Keeps e V.Value.view H.hash_of (grafting_of F.shape N) self.old d
            → IsStopped e reads V.Value.view H.hash_of (grafting_of F.shape N) d count self.new error) }
    {
        let (mut from, end) = self.span();
        for moved in 0..count {
            let Some(location) = self.move_next(from, end, cfg)? else {
                return Ok(moved);
            };
            from = location + 1;
        }
        Ok(count)
    }

    /// Returns where a search for the oldest active update may begin, and how many operations there are.
    fn span(&self) -> (u64, u64)
        ensures start { result.0 ≤ least_location self.now.entries (length self.now.operations) }
        ensures end { result.1 ≡ length self.now.operations }
        ensures few { result.1 ≤ max_leaves }
    {
        operations_settle_keys::<F, K, V>();
        (floor_of(&self.last), self.log.len())
    }

    /// Returns where the oldest active update stands, at or past `from`; how many operations there are if no key is
    /// active.
    fn oldest(&self, from: u64) -> u64
        ensures { from ≤ least_location self.now.entries (length self.now.operations)
            → result ≡ least_location self.now.entries (length self.now.operations) }
    {
        operations_settle_keys::<F, K, V>();
        self.log.first_active(from, location_of(&self.last))
    }

    /// Puts the oldest active update again, if it stands before `end`. It stands at or past `from`, where the search begins.
    /// Returns where it stood; none if it does not stand before `end`. After a refusal the database is as it was.
    fn move_next(
        &mut self,
        from: u64,
        end: u64,
        cfg: &V::ReadCfg,
    ) -> Result<Option<u64>, CompactError<F>>
        ensures ok { let e = keyed_by K.text V.Value.text V.operation_text K.cmp in
            from ≤ least_location self.old.entries (length self.old.operations)
            → IfOk result (IsNext e V.Value.view H.hash_of (grafting_of F.shape N) self.old self.new end) }
        ensures err { let e = keyed_by K.text V.Value.text V.operation_text K.cmp in
            let reads = ReadsCommand (ReadsAs (V.operation_parse cfg.now) V.operation_view)
            (λ k v n. record { key = k; value = v; next_key = n }) in
            from ≤ least_location self.old.entries (length self.old.operations)
            → IfErr result (IsLeft e reads V.Value.view H.hash_of (grafting_of F.shape N) self.old self.new end) }
    {
        let location = self.oldest(from);
        if location >= end {
            return Ok(None);
        }
        self.move_oldest(location, cfg)?;
        Ok(Some(location))
    }

    /// Puts the oldest active update again, which stands at `location`. After a refusal the database is as it was.
    fn move_oldest(&mut self, location: u64, cfg: &V::ReadCfg) -> Result<(), CompactError<F>>
        ensures ok { let e = keyed_by K.text V.Value.text V.operation_text K.cmp in
            location ≡ least_location self.old.entries (length self.old.operations)
            → OnOk result (IsMovedOnce e V.Value.view H.hash_of (grafting_of F.shape N) self.old self.new location) }
        ensures err { OnErr result (self.new ≡ self.old) }
        ensures why { let e = keyed_by K.text V.Value.text V.operation_text K.cmp in
            let reads = ReadsCommand (ReadsAs (V.operation_parse cfg.now) V.operation_view)
            (λ k v n. record { key = k; value = v; next_key = n }) in
            location ≡ least_location self.old.entries (length self.old.operations)
            → IfErr result (λ error. (d : Database K V.Value)
            → Keeps e V.Value.view H.hash_of (grafting_of F.shape N) self.old d
            → IsNotMoved e reads d location error) }
    {
        operations_settle_keys::<F, K, V>();
        let noting = self.last.is_some();
        put_again::<F, K, V>(
            self.alloc,
            &mut self.log,
            &mut self.active,
            noting,
            location,
            cfg,
        )
    }
}
