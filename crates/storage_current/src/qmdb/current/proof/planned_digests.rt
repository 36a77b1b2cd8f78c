//! The digests of planned nodes, read from a store.

ghost use Rattle.std.specs.Prelude.{◌≡◌, ℕ, ◌+◌, ◌<◌, ◌^◌, ◌⊎◌, List, map, Option, Some, IfOk, IfErr};
ghost use Rattle.std.specs.List.{Contains};
ghost use Rattle.std.specs.List.Sorted.{IsStrictlyIncreasing};
ghost use Rattle.storage_merkle.specs.Plans.{planned};
ghost use Rattle.storage_merkle.specs.Shape.{size};
ghost use Rattle.storage_current.specs.Served.{Counts, IsNoTree, IsStoreFault, IsUnread, held_at};

use std::alloc::Global;
use storage_codec::digest::Digest;
use storage_merkle::merkle::{
    self, Countable, Family, Location, Position, RangePlan, Storage, leaves_of,
};
use storage_ops::qmdb::Error;

/// Digests of planned nodes, by their positions in ascending order.
#[derive(Drop)]
pub(crate) struct Fetched<F, D> {
    positions: Vec<Position<F>>,
    digests: Vec<D>,
}

impl<F: Family, D: Digest> Fetched<F, D> {
    /// Returns those that `plan` needs, read from `storage`.
    ///
    /// # Errors
    ///
    /// `Source` if the store failed, with its code, exactly if its count of failures grew, by one; `ElementPruned` of
    /// the first planned position, ascending, if it has no digest; `Memory`.
    pub(crate) fn read<S: Storage<F, Digest = D>>(
        alloc: Global,
        storage: &mut S,
        plan: &RangePlan<F>,
    ) -> Result<Self, Error<F>>
        requires { S.failed storage.old + 1 < 2 ^ 64 }
        ensures positions { IfOk result (λ f.
            f.positions.items ≡ planned F.shape plan.now.leaves plan.now.start plan.now.end) }
        ensures rising { IfOk result (λ f. IsStrictlyIncreasing f.positions.items) }
        ensures digests { IfOk result (λ f.
            map Some f.digests.items ≡ map (S.node storage.old) f.positions.items) }
        ensures why { IfErr result (IsUnread (held_at (S.node storage.old)) (S.may_fail storage.old)
            (planned F.shape plan.now.leaves plan.now.start plan.now.end)) }
        ensures failures { Counts (IsStoreFault result) (S.failed storage.old)
            (S.failed storage.new) }
        ensures same_size { S.nodes storage.new ≡ S.nodes storage.old }
        ensures same { (p : ℕ) → S.node storage.new p ≡ S.node storage.old p }
    {
        let mut positions = Vec::new(alloc);
        positions.extend_from_slice(plan.positions())?;
        match storage.get_nodes(alloc, &positions) {
            Ok(digests) => Ok(Fetched { positions, digests }),
            Err(error) => match error {
                merkle::Error::Memory => Err(Error::Memory),
                error => Err(Error::Merkle(error)),
            },
        }
    }

    /// Returns the digest at `position`, which is one of the planned ones.
    pub(crate) fn get(&self, position: Position<F>) -> Option<D>
        ensures { (node : ℕ → Option D) → IsStrictlyIncreasing self.now.positions.items
            → map Some self.now.digests.items ≡ map node self.now.positions.items
            → Contains self.now.positions.items position
            → result ≡ node position }
    {
        match self.positions.binary_search(&position) {
            Ok(index) => self.digests.get(index).copied(),
            Err(_) => None,
        }
    }
}

/// Returns how many leaves the tree has whose nodes `storage` has.
///
/// # Errors
///
/// `DataCorrupted` of the tree if no tree has as many nodes as the store.
pub(crate) fn stored_leaves<F: Countable, S: Storage<F>>(
    storage: &S,
) -> Result<Location<F>, Error<F>>
    ensures tree { IfOk result (λ n. size F.shape n ≡ S.nodes storage.now) }
    ensures why { IfErr result (λ e.
        ((n : ℕ) → size F.shape n ≡ S.nodes storage.now → ⊥) × IsNoTree e) }
{
    match leaves_of::<F>(storage.size()) {
        Some(leaves) => Ok(leaves),
        None => Err(Error::Merkle(merkle::Error::DataCorrupted("no tree has so many nodes"))),
    }
}
