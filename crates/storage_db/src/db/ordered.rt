//! The ordered database.

ghost use Rattle.std.specs.Prelude.{◌≡◌, ◌≤◌, Option, None, Some, true, length, map, nat_lt, if◌then◌else◌, option_map, option_and_then, is_some, IfOk, IfErr, IsSomeAnd, MatchOption, OnOk, OnErr};
ghost use Rattle.std.specs.BTreeMap.Range.{IsLeBy, IsLtBy, entries_between};
ghost use Rattle.storage_bitmap.specs.Chunks.{IsChunkSize};
ghost use Rattle.storage_current.specs.Held.{operation_proof_of, range_proof_of};
ghost use Rattle.storage_current.specs.HeldKeys.{exclusion_of};
ghost use Rattle.storage_current.specs.Keys.{keyed_by};
ghost use Rattle.storage_current.specs.KeptSnapshots.{StandsForSnapshot};
ghost use Rattle.storage_current.specs.Snapshots.{canonical_root, grafting_of};
ghost use Rattle.storage_db.specs.Databases.{Committed, Database, Put, Delete, Commit as Committing, active_at, empty, value_at};
ghost use Rattle.storage_db.specs.Kept.{IsDone, IsCommandRefused, IsMade, Keeps, pruned_of};
ghost use Rattle.storage_db.specs.Ranges.{pairs_of, seen_pairs};
ghost use Rattle.storage_db.specs.Shown.{IsAbsenceProof, IsPage, IsValueProof};

mod compact;
mod opening;
mod prune;
mod trusted;

use crate::db::active::ActiveKeys;
use crate::db::changes::{put_active, put_commit, put_new, remove};
use crate::db::commit::Commit;
use crate::db::log::Log;
use crate::db::ranges::{Range, committed_entries_of, entries_of};
use crate::db::{Error, KeyedEncoding, OrderedCodec};
pub use compact::CompactError;
pub use opening::OpenError;
use std::alloc::Global;
use std::marker::Model;
use std::ops::RangeBounds;
use storage_codec::digest::Hasher;
use storage_current::laws::keys::operations_settle_keys;
use storage_current::qmdb::current::Snapshot;
use storage_current::qmdb::current::ordered::constant::{ExclusionProof, KeyValueProof};
use storage_current::qmdb::current::proof::RangeProof;
use storage_merkle::merkle::{Graftable, Location};
use storage_ops::qmdb::operation::Key;
pub use trusted::TrustError;

/// A map of keys to values that proves what it has committed. It keeps its operations as they are written, a bit for each
/// that says whether it is active, the active keys, and of the last commit the snapshot. Of each key that has changed since
/// the last commit it notes what the key had then.
///
/// `F` is the family of the trees, `H` the digest function, `V` the encoding of the values, `N` the bytes of a chunk of
/// bits. After each refusal the database is as it was.
#[derive(Drop)]
pub struct Ordered<F: Graftable, H: Hasher, K: Key, V: KeyedEncoding<K>, const N: usize> {
    alloc: Global,
    log: Log,
    active: ActiveKeys<K, V::Value>,
    last: Option<Commit<F, H, K, V, N>>,
}

impl<F: Graftable, H: Hasher, K: Key, V: KeyedEncoding<K>, const N: usize> Model
    for Ordered<F, H, K, V, N> {
    ghost use Rattle.storage_bitmap.specs.Chunks.{IsChunkSize};
    ghost use Rattle.storage_current.specs.Keys.{keyed_by};
    ghost use Rattle.storage_current.specs.Snapshots.{grafting_of};
    ghost use Rattle.storage_db.specs.Kept.{IsMade, KeptDatabase};
    ghost use Rattle.storage_db.specs.Parts.{IsSince, kept_of, kept_with};

    ghost Value = { KeptDatabase K V.Value };

    ghost view = { λ s. kept_of s.log s.active.present.entries (kept_with K.cmp s.active s.last) };

    ghost invariant = { λ s. IsChunkSize N × IsSince s.log (kept_with K.cmp s.active s.last) × IsMade
        (keyed_by K.text V.Value.text V.keyed_text K.cmp) V.Value.view H.hash_of
        (grafting_of F.shape N)
        (kept_of s.log s.active.present.entries (kept_with K.cmp s.active s.last)) };
}

impl<F: Graftable, H: Hasher, K: Key, V: OrderedCodec<F, K>, const N: usize> Ordered<
    F,
    H,
    K,
    V,
    N,
> {
    /// Returns the database with no operations and no commit. It allocates nothing; what its calls take is from
    /// `alloc`.
    pub fn new(alloc: Global) -> Self
        requires { IsChunkSize N }
        ensures keeps { let e = keyed_by K.text V.Value.text V.operation_text K.cmp in
            Keeps e V.Value.view H.hash_of (grafting_of F.shape N) result empty }
        ensures made { let e = keyed_by K.text V.Value.text V.operation_text K.cmp in
            IsMade e V.Value.view H.hash_of (grafting_of F.shape N) result }
    {
        Ordered {
            alloc,
            log: Log::new(alloc),
            active: ActiveKeys::new(alloc),
            last: None,
        }
    }

    /// Gives `key` the value `value`.
    ///
    /// # Errors
    ///
    /// The first of: `Full` if the operations with the one or two that are appended would pass 2^62; `Memory`.
    pub fn put(&mut self, key: K, value: V::Value) -> Result<(), Error<F>>
        ensures ok { let e = keyed_by K.text V.Value.text V.operation_text K.cmp in OnOk result
            (IsDone e V.Value.view H.hash_of (grafting_of F.shape N) self.old self.new (Put key value)) }
        ensures err { OnErr result (self.new ≡ self.old) }
        ensures why { let e = keyed_by K.text V.Value.text V.operation_text K.cmp in IfErr result
            (IsCommandRefused e V.Value.view H.hash_of (grafting_of F.shape N) self.old (Put key value)) }
    {
        operations_settle_keys::<F, K, V>();
        let alloc = self.alloc;
        let noting = self.last.is_some();
        if self.active.present.contains_key(&key) {
            put_active::<F, K, V>(alloc, &mut self.log, &mut self.active, noting, key, value)
        } else {
            put_new::<F, K, V>(alloc, &mut self.log, &mut self.active, noting, key, value)
        }
    }

    /// Takes `key` out. Whether it had a value; where it had none nothing changes, and nothing is refused.
    ///
    /// # Errors
    ///
    /// Where the key has a value, the first of: `Full` if the operations with the one or two that are appended would
    /// pass 2^62; `Memory`.
    pub fn delete(&mut self, key: &K) -> Result<bool, Error<F>>
        ensures ok { let e = keyed_by K.text V.Value.text V.operation_text K.cmp in OnOk result
            (IsDone e V.Value.view H.hash_of (grafting_of F.shape N) self.old self.new (Delete key.now)) }
        ensures answer { let e = keyed_by K.text V.Value.text V.operation_text K.cmp in
            IfOk result (λ was. (d : Database K V.Value)
            → Keeps e V.Value.view H.hash_of (grafting_of F.shape N) self.old d
            → was ≡ is_some (active_at e d.entries key.now)) }
        ensures active { let e = keyed_by K.text V.Value.text V.operation_text K.cmp in
            OnErr result ((d : Database K V.Value)
            → Keeps e V.Value.view H.hash_of (grafting_of F.shape N) self.old d
            → is_some (active_at e d.entries key.now) ≡ true) }
        ensures err { OnErr result (self.new ≡ self.old) }
        ensures why { let e = keyed_by K.text V.Value.text V.operation_text K.cmp in IfErr result
            (IsCommandRefused e V.Value.view H.hash_of (grafting_of F.shape N) self.old (Delete key.now)) }
    {
        operations_settle_keys::<F, K, V>();
        if !self.active.present.contains_key(key) {
            return Ok(false);
        }
        let noting = self.last.is_some();
        remove::<F, K, V>(self.alloc, &mut self.log, &mut self.active, noting, key)?;
        Ok(true)
    }

    /// Commits what has been put and deleted since the last commit, with `metadata` as the value of the commit. The
    /// floor is the least location of an active update, or the commit's own if no key is active.
    ///
    /// # Errors
    ///
    /// The first of: `Full` if there are 2^62 operations already; `Memory`.
    pub fn commit(&mut self, metadata: Option<V::Value>) -> Result<(), Error<F>>
        ensures ok { let e = keyed_by K.text V.Value.text V.operation_text K.cmp in OnOk result
            (IsDone e V.Value.view H.hash_of (grafting_of F.shape N) self.old self.new (Committing metadata)) }
        ensures err { OnErr result (self.new ≡ self.old) }
        ensures why { let e = keyed_by K.text V.Value.text V.operation_text K.cmp in IfErr result
            (IsCommandRefused e V.Value.view H.hash_of (grafting_of F.shape N) self.old (Committing metadata)) }
    {
        operations_settle_keys::<F, K, V>();
        put_commit(
            self.alloc,
            &mut self.log,
            &mut self.active,
            &mut self.last,
            metadata,
        )
    }

    /// Returns the value that `key` has now; none if it has none. Allocates nothing.
    pub fn get(&self, key: &K) -> Option<&V::Value>
        ensures { let e = keyed_by K.text V.Value.text V.operation_text K.cmp in
            (d : Database K V.Value) → Keeps e V.Value.view H.hash_of (grafting_of F.shape N) self.now d
            → option_map (λ v. v.now) result ≡ value_at e d.entries key.now }
    {
        match self.active.present.get(key) {
            Some(entry) => Some(&entry.value),
            None => None,
        }
    }

    /// Returns the keys of `range` that have a value now, with their values, in the order of the keys. Allocates
    /// nothing.
    pub fn range<R: RangeBounds<K> + Drop>(&self, range: R) -> Range<'_, K, V::Value>
        requires { R.is_forward range (IsLeBy K.cmp) (IsLtBy K.cmp) }
        ensures { let e = keyed_by K.text V.Value.text V.operation_text K.cmp in
            (d : Database K V.Value)
            → Keeps e V.Value.view H.hash_of (grafting_of F.shape N) self.now d
            → R.has_bounds range → result ≡ pairs_of (entries_between K.cmp (R.start_bound range)
            (R.end_bound range) d.entries) }
    {
        entries_of(&self.active.present, range)
    }

    /// Returns how many keys have a value now. Allocates nothing.
    pub fn len(&self) -> usize
        ensures { let e = keyed_by K.text V.Value.text V.operation_text K.cmp in
            (d : Database K V.Value)
            → Keeps e V.Value.view H.hash_of (grafting_of F.shape N) self.now d
            → result ≡ length d.entries }
    {
        self.active.present.len()
    }

    /// Returns the value that `key` had at the last commit; none if it had none, and before the first commit. Allocates
    /// nothing.
    pub fn get_committed(&self, key: &K) -> Option<&V::Value>
        ensures value { let e = keyed_by K.text V.Value.text V.operation_text K.cmp in
            (d : Database K V.Value)
            → Keeps e V.Value.view H.hash_of (grafting_of F.shape N) self.now d
            → option_map (λ v. V.Value.view v.now) result ≡ option_map V.Value.view
            (option_and_then (λ commit. value_at e commit.entries key.now) d.last) }
        ensures text { let e = keyed_by K.text V.Value.text V.operation_text K.cmp in
            (d : Database K V.Value) → Keeps e V.Value.view H.hash_of (grafting_of F.shape N) self.now d
            → option_map (λ v. V.Value.text v.now) result ≡ option_map V.Value.text
            (option_and_then (λ commit. value_at e commit.entries key.now) d.last) }
    {
        operations_settle_keys::<F, K, V>();
        match &self.last {
            Some(_) => self.active.committed_value(key),
            None => None,
        }
    }

    /// Returns the keys of `range` that had a value at the last commit, with their values, in the order of the keys;
    /// none before the first commit. Allocates nothing.
    pub fn range_committed<R: RangeBounds<K> + Drop>(
        &self,
        range: R,
    ) -> Option<Range<'_, K, V::Value>>
        requires { R.is_forward range (IsLeBy K.cmp) (IsLtBy K.cmp) }
        ensures value { let e = keyed_by K.text V.Value.text V.operation_text K.cmp in
            (d : Database K V.Value)
            → Keeps e V.Value.view H.hash_of (grafting_of F.shape N) self.now d
            → MatchOption d.last (result ≡ None) (λ commit. IsSomeAnd result (λ shown.
            R.has_bounds range → seen_pairs K.text V.Value.view shown ≡ seen_pairs K.text V.Value.view
            (pairs_of (entries_between K.cmp (R.start_bound range) (R.end_bound range) commit.entries)))) }
        ensures text { let e = keyed_by K.text V.Value.text V.operation_text K.cmp in
            (d : Database K V.Value)
            → Keeps e V.Value.view H.hash_of (grafting_of F.shape N) self.now d
            → MatchOption d.last (result ≡ None) (λ commit. IsSomeAnd result (λ shown.
            R.has_bounds range → seen_pairs K.text V.Value.text shown ≡ seen_pairs K.text V.Value.text
            (pairs_of (entries_between K.cmp (R.start_bound range) (R.end_bound range) commit.entries)))) }
    {
        operations_settle_keys::<F, K, V>();
        match &self.last {
            Some(_) => Some(committed_entries_of(&self.active, range)),
            None => None,
        }
    }

    /// Returns the floor of the last commit: the least location of an active update at that commit, or the commit's own
    /// if no key was active; none before the first commit. Allocates nothing.
    pub fn floor(&self) -> Option<Location<F>>
        ensures { let e = keyed_by K.text V.Value.text V.operation_text K.cmp in
            (d : Database K V.Value)
            → Keeps e V.Value.view H.hash_of (grafting_of F.shape N) self.now d
            → result ≡ option_map (λ commit. commit.snapshot.floor) d.last }
    {
        match &self.last {
            Some(last) => Some(last.floor()),
            None => None,
        }
    }

    /// Returns the value of the last commit; none if it has none, and before the first commit. Allocates nothing.
    pub fn metadata(&self) -> Option<&V::Value>
        ensures { let e = keyed_by K.text V.Value.text V.operation_text K.cmp in
            (d : Database K V.Value)
            → Keeps e V.Value.view H.hash_of (grafting_of F.shape N) self.now d
            → option_map (λ v. v.now) result
            ≡ option_and_then (λ commit. commit.metadata) d.last }
    {
        match &self.last {
            Some(last) => last.metadata(),
            None => None,
        }
    }

    /// Returns the canonical root of the last commit's snapshot; none before the first commit. Allocates nothing.
    pub fn root(&self) -> Option<H::Digest>
        ensures { let e = keyed_by K.text V.Value.text V.operation_text K.cmp in
            let g = grafting_of F.shape N in
            (d : Database K V.Value) → Keeps e V.Value.view H.hash_of g self.now d
            → option_map H.Digest.text result
            ≡ option_map (λ commit. canonical_root H.hash_of g commit.snapshot) d.last }
    {
        match self.snapshot() {
            Some(snapshot) => Some(snapshot.root()),
            None => None,
        }
    }

    /// Returns the snapshot of the last commit; none before the first commit. Allocates nothing.
    pub fn snapshot(&self) -> Option<&Snapshot<F, H, N>>
        ensures { let e = keyed_by K.text V.Value.text V.operation_text K.cmp in
            let g = grafting_of F.shape N in
            (d : Database K V.Value) → Keeps e V.Value.view H.hash_of g self.now d
            → MatchOption d.last (result ≡ None) (λ commit. IsSomeAnd result
            (λ kept. StandsForSnapshot H.hash_of g kept.now commit.snapshot)) }
    {
        match &self.last {
            Some(last) => Some(last.snapshot()),
            None => None,
        }
    }

    /// Returns the value that `key` had at the last commit, and the proof of it against the last commit's root.
    ///
    /// # Errors
    ///
    /// The first of: `NotCommitted` before the first commit; `Absent` if the key had no value; `Memory`.
    pub fn prove_value(
        &self,
        key: &K,
    ) -> Result<(V::Value, KeyValueProof<F, K, H::Digest, N>), Error<F>>
        ensures own { let e = keyed_by K.text V.Value.text V.operation_text K.cmp in
            let g = grafting_of F.shape N in
            IfOk result (λ r. (d : Database K V.Value) → Keeps e V.Value.view H.hash_of g self.now d
            → IsSomeAnd d.last (λ commit. IsValueProof e H.hash_of g commit key.now r.0
            r.1.next_key (operation_proof_of H.Digest.text (λ c. c) r.1.proof))) }
        ensures value { let e = keyed_by K.text V.Value.text V.operation_text K.cmp in
            IfOk result (λ r. (d : Database K V.Value)
            → Keeps e V.Value.view H.hash_of (grafting_of F.shape N) self.now d
            → IsSomeAnd d.last (λ commit. option_map V.Value.view
            (value_at e commit.entries key.now) ≡ Some (V.Value.view r.0))) }
        ensures why { let e = keyed_by K.text V.Value.text V.operation_text K.cmp in
            IfErr result (λ error. (d : Database K V.Value)
            → Keeps e V.Value.view H.hash_of (grafting_of F.shape N) self.now d
            → MatchOption d.last (error ≡ Error.NotCommitted) (λ commit.
            MatchOption (active_at e commit.entries key.now) (error ≡ Error.Absent)
            (λ _. error ≡ Error.Memory))) }
    {
        match &self.last {
            Some(last) => last.prove_value(self.alloc, &self.active, key),
            None => Err(Error::NotCommitted),
        }
    }

    /// Returns the proof against the last commit's root that `key` had no value then: by the update whose span holds
    /// the key, or by the commit if no key was active.
    ///
    /// # Errors
    ///
    /// The first of: `NotCommitted` before the first commit; `Present` if the key had a value; `Memory`.
    pub fn prove_absence(&self, key: &K) -> Result<ExclusionProof<F, K, V, H::Digest, N>, Error<F>>
        ensures own { let e = keyed_by K.text V.Value.text V.operation_text K.cmp in
            let g = grafting_of F.shape N in
            IfOk result (λ x. (d : Database K V.Value) → Keeps e V.Value.view H.hash_of g self.now d
            → IsSomeAnd d.last (λ commit. IsAbsenceProof e H.hash_of g commit key.now
            (exclusion_of H.Digest.text (λ c. c) x))) }
        ensures why { let e = keyed_by K.text V.Value.text V.operation_text K.cmp in
            IfErr result (λ error. (d : Database K V.Value)
            → Keeps e V.Value.view H.hash_of (grafting_of F.shape N) self.now d
            → MatchOption d.last (error ≡ Error.NotCommitted) (λ commit.
            MatchOption (active_at e commit.entries key.now) (error ≡ Error.Memory)
            (λ _. error ≡ Error.Present))) }
    {
        match &self.last {
            Some(last) => last.prove_absence(self.alloc, &self.active, key),
            None => Err(Error::NotCommitted),
        }
    }

    /// Returns a page of the log of the last commit: at most `max_ops` operations from `start` on, as they are written,
    /// with the chunks of bits that they touch, and the proof of both against the last commit's root. The operations
    /// are lent.
    ///
    /// # Errors
    ///
    /// The first of: `NotCommitted` before the first commit; `RangeOutOfBounds(start)` if `start` is not of an
    /// operation of the last commit; `Pruned(start)` if that operation is forgotten; `Memory`.
    pub fn range_proof(
        &self,
        start: Location<F>,
        max_ops: u64,
    ) -> Result<(RangeProof<F, H::Digest>, &[Vec<u8>], Vec<[u8; N]>), Error<F>>
        requires { 1 ≤ max_ops }
        ensures own { let e = keyed_by K.text V.Value.text V.operation_text K.cmp in
            let g = grafting_of F.shape N in
            IfOk result (λ r. (d : Database K V.Value) → Keeps e V.Value.view H.hash_of g self.now d
            → IsSomeAnd d.last (λ commit. IsPage H.hash_of g commit.snapshot start max_ops
            (range_proof_of H.Digest.text r.0) (map (λ v. v.items) r.1.now) r.2.items)) }
        ensures why { let e = keyed_by K.text V.Value.text V.operation_text K.cmp in
            IfErr result (λ error. (d : Database K V.Value)
            → Keeps e V.Value.view H.hash_of (grafting_of F.shape N) self.now d
            → MatchOption d.last (error ≡ Error.NotCommitted) (λ commit. error
            ≡ (if nat_lt start (length commit.snapshot.operations)
            then (if nat_lt start (pruned_of self.now.last) then Error.Pruned start else Error.Memory)
            else Error.RangeOutOfBounds start))) }
    {
        let Some(last) = &self.last else {
            return Err(Error::NotCommitted);
        };
        let first = start.as_u64();
        if first >= last.len() {
            return Err(Error::RangeOutOfBounds(start));
        }
        if first < last.pruned() {
            return Err(Error::Pruned(start));
        }
        let end = first.saturating_add(max_ops).min(last.len());
        let operations = &self.log.operations[first as usize..end as usize];
        let (proof, chunks) = last.range_proof(self.alloc, first, end)?;
        Ok((proof, operations, chunks))
    }

    /// Some list of commands leaves what the database keeps.
    pub(crate) fn is_made(&self)
        ensures size { IsChunkSize N }
        ensures made { let e = keyed_by K.text V.Value.text V.operation_text K.cmp in
            IsMade e V.Value.view H.hash_of (grafting_of F.shape N) self.now }
    {
        let _ = &self.log;
    }
}
