//! What a database keeps of its last commit.

ghost use Rattle.std.specs.Prelude.{◌≡◌, List, ◌+◌, ◌-◌, ◌/◌, ◌^◌, ◌<◌, Some, None, option_map, IfOk, IfErr, OnOk, OnErr, MatchOption, vec_len};
ghost use Rattle.storage_bitmap.specs.Chunks.{IsChunkSize, chunks_from};
ghost use Rattle.storage_current.specs.Held.{operation_proof_of, range_proof_of};
ghost use Rattle.storage_current.specs.HeldKeys.{exclusion_of, exclusion_seen};
ghost use Rattle.storage_current.specs.Keys.{keyed_by};
ghost use Rattle.storage_current.specs.KeptSnapshots.{StandsForSnapshot};
ghost use Rattle.storage_current.specs.Snapshots.{IsSnapshot, Snapshot as SnapshotOf, first_chunk, grafting_of, height, own_operation_proof, own_range_proof};
ghost use Rattle.storage_db.specs.declared.db.active.Active.{Active};
ghost use Rattle.storage_db.specs.Databases.{Committed, active_at, value_at};
ghost use Rattle.storage_db.specs.Kept.{IsCopy, KeepsCommit, with_keys};
ghost use Rattle.storage_db.specs.Notes.{shown};
ghost use Rattle.storage_db.specs.Parts.{IsCommitOf, IsSinceCommit, committed_of};
ghost use Rattle.storage_db.specs.Pruning.{IsCommitPruned, IsPruneRefused};
ghost use Rattle.storage_db.specs.Shown.{IsAbsenceProof, IsValueProof, absence_by};

use crate::db::Error;
use crate::db::active::ActiveKeys;
use crate::db::log::Log;
use crate::db::nodes::{chunks_touched, own_proof, own_range, pruned_bits};
use crate::db::strings::value_copy;
use std::alloc::Global;
use std::marker::{Model, PhantomData};
use storage_bitmap::bitmap::Prunable;
use storage_codec::NoMemory;
use storage_codec::digest::Hasher;
use storage_current::laws::keys::operations_settle_keys;
use storage_current::qmdb::current::Snapshot;
use storage_current::qmdb::current::ordered::constant::{ExclusionProof, KeyValueProof};
use storage_current::qmdb::current::proof::RangeProof;
use storage_current::qmdb::current::proof::constant::OperationProof;
use storage_merkle::merkle::{Graftable, Location};
use storage_ops::qmdb::any::operation::OperationCodec;
use storage_ops::qmdb::any::operation::update::Ordered as Update;
use storage_ops::qmdb::any::value::ValueEncoding;
use storage_ops::qmdb::operation::Key;

/// A commit: how many operations there are up to it, how many of the first are forgotten, its value, its floor, and the
/// snapshot of the operations. Which keys were active, the [`ActiveKeys`] tell.
#[derive(Drop)]
pub(crate) struct Commit<F: Graftable, H: Hasher, K: Key, V: ValueEncoding, const N: usize> {
    length: u64,
    pruned: u64,
    metadata: Option<V::Value>,
    floor: Location<F>,
    snapshot: Snapshot<F, H, N>,
    keys: PhantomData<K>,
}

impl<F: Graftable, H: Hasher, K: Key, V: ValueEncoding, const N: usize> Model
    for Commit<F, H, K, V, N> {
    ghost use Rattle.std.specs.Prelude.{◌≡◌, ◌*◌, ◌<◌};
    ghost use Rattle.storage_db.specs.Kept.{HeldCommit};

    ghost Value = { HeldCommit V.Value };

    ghost view = { λ c. record {
      metadata = c.metadata;
      floor = c.floor;
      count = c.length;
      pruned = c.pruned;
      snapshot = c.snapshot;
    } };

    ghost invariant = { λ c. (0 < c.length) × (c.pruned ≡ c.snapshot.status.pruned * (8 * N)) };
}

impl<F: Graftable, H: Hasher, K: Key, V: OperationCodec<F, Update<K, V>>, const N: usize> Commit<
    F,
    H,
    K,
    V,
    N,
> {
    /// Returns the first commit, which is the last operation of `log`, with the value `metadata` and the floor `floor`.
    pub(crate) fn first(
        alloc: Global,
        log: &Log,
        metadata: Option<V::Value>,
        floor: Location<F>,
    ) -> Result<Self, NoMemory>
        requires size { IsChunkSize N }
        requires some { 0 < vec_len log.now.operations }
        ensures { let e = keyed_by K.text V.Value.text V.operation_text K.cmp in
            (entries : List (K × Active V.Value)) → IfOk result (λ c. IsCommitOf e V.Value.view H.hash_of
            (grafting_of F.shape N) log.now entries None metadata floor (with_keys c entries)) }
    {
        let mut status = Prunable::new(alloc);
        status.append(&log.bits)?;
        let Ok(snapshot) = Snapshot::new(alloc, &log.operations, status, floor) else {
            return Err(NoMemory);
        };
        Ok(Commit {
            length: log.len(),
            pruned: 0,
            metadata,
            floor,
            snapshot,
            keys: PhantomData,
        })
    }

    /// Becomes the commit that is the last operation of `log`, with the value `metadata` and the floor `floor`. Of the
    /// snapshot only what the operations since the last commit change is hashed.
    pub(crate) fn extend(
        &mut self,
        alloc: Global,
        log: &Log,
        metadata: Option<V::Value>,
        floor: Location<F>,
    ) -> Result<(), NoMemory>
        requires { 0 < vec_len log.now.operations }
        ensures ok { let e = keyed_by K.text V.Value.text V.operation_text K.cmp in
            (before entries : List (K × Active V.Value)) → IsSinceCommit log.now (with_keys self.old before)
            → OnOk result (IsCommitOf e V.Value.view H.hash_of (grafting_of F.shape N) log.now entries
            (Some (with_keys self.old before)) metadata floor (with_keys self.new entries)) }
        ensures err { OnErr result (self.new ≡ self.old) }
    {
        let clear = log.all_cleared::<F>(alloc, self.location())?;
        let operations = log.new_operations();
        let bits = log.new_bits();
        // the last that may be refused
        if self
            .snapshot
            .extend(alloc, operations, bits, &clear, floor)
            .is_err()
        {
            return Err(NoMemory);
        }
        self.length = log.len();
        self.metadata = metadata;
        self.floor = floor;
        Ok(())
    }

    /// Forgets the bits and low nodes of the graftable chunks that end at or before `location`.
    ///
    /// # Errors
    ///
    /// The first of: `RangeOutOfBounds(location)` if `location` is greater than the floor; `Memory`. After either the
    /// commit is as it was.
    pub(crate) fn prune(&mut self, location: Location<F>) -> Result<(), Error<F>>
        ensures ok { OnOk result (IsCommitPruned H.hash_of (grafting_of F.shape N) self.old self.new
            location) }
        ensures err { OnErr result (self.new ≡ self.old) }
        ensures why { IfErr result (IsPruneRefused self.old.floor location) }
    {
        let place = location.as_u64();
        let floor = self.floor.as_u64();
        if place > floor {
            return Err(Error::RangeOutOfBounds(location));
        }
        if self.snapshot.prune(location).is_err() {
            return Err(Error::Memory);
        }
        self.pruned = pruned_bits(self.snapshot.status());
        Ok(())
    }

    /// Returns how many operations there are up to the commit, itself among them.
    pub(crate) fn len(&self) -> u64
        ensures { result ≡ self.now.count }
    {
        self.length
    }

    /// Returns how many of the first operations are forgotten.
    pub(crate) fn pruned(&self) -> u64
        ensures { result ≡ self.now.pruned }
    {
        self.pruned
    }

    /// Returns the location of the commit itself.
    pub(crate) fn location(&self) -> u64
        ensures { result ≡ self.now.count - 1 }
    {
        self.length - 1
    }

    /// Returns the floor of the commit.
    pub(crate) fn floor(&self) -> Location<F>
        ensures { result ≡ self.now.floor }
    {
        self.floor
    }

    /// Returns the value of the commit; none if it has none.
    pub(crate) fn metadata(&self) -> Option<&V::Value>
        ensures { option_map (λ v. v.now) result ≡ self.now.metadata }
    {
        self.metadata.as_ref()
    }

    /// Returns the snapshot of the operations up to the commit.
    pub(crate) fn snapshot(&self) -> &Snapshot<F, H, N>
        ensures { result.now ≡ self.now.snapshot }
    {
        &self.snapshot
    }

    /// Returns the snapshot's own proof of the operation at `location`.
    fn proof(
        &self,
        alloc: Global,
        location: u64,
    ) -> Result<OperationProof<F, H::Digest, N>, NoMemory>
        ensures { let e = keyed_by K.text V.Value.text V.operation_text K.cmp in
            let g = grafting_of F.shape N in
            IfOk result (λ proof. (entries : List (K × Active V.Value))
            → (commit : Committed K V.Value)
            → KeepsCommit e V.Value.view H.hash_of g (with_keys self.now entries) commit
            → operation_proof_of H.Digest.text (λ c. c) proof
            ≡ own_operation_proof H.hash_of g commit.snapshot location) }
    {
        let leaves = Location::new(self.length);
        let location = Location::new(location);
        own_proof(alloc, &self.snapshot, leaves, self.floor, location)
    }

    /// Returns the proof of the operations from `start` to before `end`, and the chunks of bits that they touch.
    pub(crate) fn range_proof(
        &self,
        alloc: Global,
        start: u64,
        end: u64,
    ) -> Result<(RangeProof<F, H::Digest>, Vec<[u8; N]>), NoMemory>
        requires { IsChunkSize N }
        ensures { let e = keyed_by K.text V.Value.text V.operation_text K.cmp in
            let g = grafting_of F.shape N in
            IfOk result (λ r. (entries : List (K × Active V.Value))
            → (commit : Committed K V.Value)
            → KeepsCommit e V.Value.view H.hash_of g (with_keys self.now entries) commit
            → (range_proof_of H.Digest.text r.0
            ≡ own_range_proof H.hash_of g commit.snapshot start end)
            × (r.1.items ≡ chunks_from N commit.snapshot.bits
            ((end - 1) / 2 ^ height g - first_chunk g start + 1) (first_chunk g start))) }
    {
        let leaves = Location::new(self.length);
        let range = Location::new(start)..Location::new(end);
        let proof = own_range(alloc, &self.snapshot, leaves, self.floor, range)?;
        let chunks = chunks_touched(alloc, self.snapshot.status(), start, end)?;
        Ok((proof, chunks))
    }

    /// Returns the value of `key`, and the proof of it.
    pub(crate) fn prove_value(
        &self,
        alloc: Global,
        active: &ActiveKeys<K, V::Value>,
        key: &K,
    ) -> Result<(V::Value, KeyValueProof<F, K, H::Digest, N>), Error<F>>
        ensures own { let e = keyed_by K.text V.Value.text V.operation_text K.cmp in
            let g = grafting_of F.shape N in
            IfOk result (λ r. (commit : Committed K V.Value)
            → KeepsCommit e V.Value.view H.hash_of g
            (with_keys self.now (committed_of K.cmp active.now)) commit
            → IsValueProof e H.hash_of g commit key.now r.0 r.1.next_key
            (operation_proof_of H.Digest.text (λ c. c) r.1.proof)) }
        ensures value { let e = keyed_by K.text V.Value.text V.operation_text K.cmp in
            IfOk result (λ r. (commit : Committed K V.Value)
            → KeepsCommit e V.Value.view H.hash_of (grafting_of F.shape N)
            (with_keys self.now (committed_of K.cmp active.now)) commit
            → option_map V.Value.view (value_at e commit.entries key.now) ≡ Some (V.Value.view r.0)) }
        ensures why { let e = keyed_by K.text V.Value.text V.operation_text K.cmp in
            IfErr result (λ error. (commit : Committed K V.Value)
            → KeepsCommit e V.Value.view H.hash_of (grafting_of F.shape N)
            (with_keys self.now (committed_of K.cmp active.now)) commit
            → MatchOption (active_at e commit.entries key.now) (error ≡ Error.Absent)
            (λ _. error ≡ Error.Memory)) }
    {
        operations_settle_keys::<F, K, V>();
        let Some((value, location)) = active.committed(key) else {
            return Err(Error::Absent);
        };
        let value = value.clone()?;
        let next_key = active.next_committed_or_own(key)?;
        let proof = self.proof(alloc, location)?;
        Ok((value, KeyValueProof { proof, next_key }))
    }

    /// Returns the proof that `key` has no value: by the update whose span holds it, or by the commit if no key is
    /// active.
    pub(crate) fn prove_absence(
        &self,
        alloc: Global,
        active: &ActiveKeys<K, V::Value>,
        key: &K,
    ) -> Result<ExclusionProof<F, K, V, H::Digest, N>, Error<F>>
        ensures own { let e = keyed_by K.text V.Value.text V.operation_text K.cmp in
            let g = grafting_of F.shape N in
            IfOk result (λ x. (commit : Committed K V.Value)
            → KeepsCommit e V.Value.view H.hash_of g
            (with_keys self.now (committed_of K.cmp active.now)) commit
            → IsAbsenceProof e H.hash_of g commit key.now
            (exclusion_of H.Digest.text (λ c. c) x)) }
        ensures why { let e = keyed_by K.text V.Value.text V.operation_text K.cmp in
            IfErr result (λ error. (commit : Committed K V.Value)
            → KeepsCommit e V.Value.view H.hash_of (grafting_of F.shape N)
            (with_keys self.now (committed_of K.cmp active.now)) commit
            → MatchOption (active_at e commit.entries key.now) (error ≡ Error.Memory)
            (λ _. error ≡ Error.Present)) }
    {
        operations_settle_keys::<F, K, V>();
        if active.contains_committed(key) {
            return Err(Error::Present);
        }
        match active.previous_committed(key) {
            Some(before) => Ok(self.absence_by_update(alloc, active, before)?),
            None => Ok(self.absence_by_commit(alloc)?),
        }
    }

    /// Returns the proof that the other keys of the span of the key in `before` had no value: by its active update, of
    /// whose key, value and location `before` has copies.
    fn absence_by_update(
        &self,
        alloc: Global,
        active: &ActiveKeys<K, V::Value>,
        before: (&K, &V::Value, u64),
    ) -> Result<ExclusionProof<F, K, V, H::Digest, N>, NoMemory>
        ensures { let e = keyed_by K.text V.Value.text V.operation_text K.cmp in
            let g = grafting_of F.shape N in
            IfOk result (λ x. (commit : Committed K V.Value)
            → KeepsCommit e V.Value.view H.hash_of g
            (with_keys self.now (committed_of K.cmp active.now)) commit
            → (c : K × Active V.Value) → IsCopy e V.Value.view c
            (shown before.entry)
            → exclusion_seen e.key e.value (exclusion_of H.Digest.text (λ b. b) x)
            ≡ absence_by e H.hash_of g commit (Some c)) }
    {
        operations_settle_keys::<F, K, V>();
        let (start, value, location) = before;
        let update = Update {
            key: start.clone()?,
            value: value.clone()?,
            next_key: active.next_committed_or_own(start)?,
        };
        let proof = self.proof(alloc, location)?;
        Ok(ExclusionProof::KeyValue(proof, update))
    }

    /// Returns the proof that no key has a value: by the commit itself.
    fn absence_by_commit(
        &self,
        alloc: Global,
    ) -> Result<ExclusionProof<F, K, V, H::Digest, N>, NoMemory>
        ensures { let e = keyed_by K.text V.Value.text V.operation_text K.cmp in
            let g = grafting_of F.shape N in
            IfOk result (λ x. (entries : List (K × Active V.Value))
            → (commit : Committed K V.Value)
            → KeepsCommit e V.Value.view H.hash_of g (with_keys self.now entries) commit
            → exclusion_seen e.key e.value (exclusion_of H.Digest.text (λ b. b) x)
            ≡ absence_by e H.hash_of g commit None) }
    {
        let metadata = value_copy::<V>(&self.metadata)?;
        let proof = self.proof(alloc, self.location())?;
        Ok(ExclusionProof::Commit(proof, metadata))
    }
}
