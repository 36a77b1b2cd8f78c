//! A database that forgets its first operations.

ghost use Rattle.std.specs.Prelude.{◌≡◌, length, IfErr, IsSomeAnd, MatchOption, OnErr, OnOk};
ghost use Rattle.storage_current.specs.Keys.{keyed_by};
ghost use Rattle.storage_current.specs.Snapshots.{grafting_of};
ghost use Rattle.storage_db.specs.Databases.{Database};
ghost use Rattle.storage_db.specs.Kept.{Keeps, pruned_of};
ghost use Rattle.storage_db.specs.Pruning.{ArePruned, IsNotPruned, IsPruneRefused, IsPruned};

use crate::db::commit::Commit;
use crate::db::log::Log;
use crate::db::{Error, Ordered, OrderedCodec};
use std::alloc::Global;
use storage_codec::digest::Hasher;
use storage_current::laws::keys::operations_settle_keys;
use storage_merkle::merkle::{Graftable, Location};
use storage_ops::qmdb::any::operation::OperationCodec;
use storage_ops::qmdb::any::operation::update::Ordered as Update;
use storage_ops::qmdb::operation::Key;

impl<F: Graftable, H: Hasher, K: Key, V: OrderedCodec<F, K>, const N: usize> Ordered<
    F,
    H,
    K,
    V,
    N,
> {
    /// Forgets the operations before `location`, as far as they are those of graftable chunks of the last commit that end
    /// at or before it: what they are written as, and of its snapshot their bits and the nodes below the height of
    /// chunks. None of them is active. All roots and proofs stay, and so do the answers of each call but
    /// [`operations`](Self::operations) and [`range_proof`](Self::range_proof), which begin behind them.
    ///
    /// It costs what is forgotten, and the bits that the snapshot keeps are moved. Of each operation that is forgotten an
    /// empty string and a byte for its bit stay, and of each chunk its digest.
    ///
    /// # Errors
    ///
    /// The first of: `NotCommitted` before the first commit; `RangeOutOfBounds(location)` if `location` is greater than
    /// the floor of the last commit; `Memory`.
    pub fn prune(&mut self, location: Location<F>) -> Result<(), Error<F>>
        ensures ok { let e = keyed_by K.text V.Value.text V.operation_text K.cmp in OnOk result
            (IsPruned e V.Value.view H.hash_of (grafting_of F.shape N) self.old self.new location) }
        ensures err { OnErr result (self.new ≡ self.old) }
        ensures why { let e = keyed_by K.text V.Value.text V.operation_text K.cmp in IfErr result
            (IsNotPruned e V.Value.view H.hash_of (grafting_of F.shape N) self.old location) }
    {
        operations_settle_keys::<F, K, V>();
        forget(self.alloc, &mut self.log, &mut self.last, location)
    }

    /// Returns how many operations there are, those that are forgotten among them: the location of the next one. Allocates
    /// nothing.
    pub fn operation_count(&self) -> u64
        ensures { let e = keyed_by K.text V.Value.text V.operation_text K.cmp in
            (d : Database K V.Value)
            → Keeps e V.Value.view H.hash_of (grafting_of F.shape N) self.now d
            → result ≡ length d.operations }
    {
        self.log.len()
    }

    /// Returns how many of the first operations are forgotten: the location of the first that is not. The floor of the
    /// last commit stands at or behind it. Allocates nothing.
    pub fn pruned(&self) -> u64
        ensures { result ≡ pruned_of self.now.last }
    {
        match &self.last {
            Some(last) => last.pruned(),
            None => 0,
        }
    }
}

/// Forgets the operations before `location` of `log` and of `last`, its last commit, that can be.
///
/// # Errors
///
/// The first of: `NotCommitted` if there is no commit; `RangeOutOfBounds(location)` if `location` is greater than its
/// floor; `Memory`.
fn forget<F: Graftable, H: Hasher, K: Key, V: OperationCodec<F, Update<K, V>>, const N: usize>(
    alloc: Global,
    log: &mut Log,
    last: &mut Option<Commit<F, H, K, V, N>>,
    location: Location<F>,
) -> Result<(), Error<F>>
    ensures ok { OnOk result (IsSomeAnd last.old (λ old. IsSomeAnd last.new (λ new.
        ArePruned H.hash_of (grafting_of F.shape N) log.old log.new old new location))) }
    ensures err { OnErr result (last.new ≡ last.old) }
    ensures same { OnErr result (log.new ≡ log.old) }
    ensures why { IfErr result (λ error. MatchOption last.old (error ≡ Error.NotCommitted)
        (λ old. IsPruneRefused old.floor location error)) }
{
    match last {
        Some(commit) => {
            let before = commit.pruned();
            commit.prune(location)?;
            log.forget(alloc, before, commit.pruned());
            Ok(())
        }
        None => Err(Error::NotCommitted),
    }
}
