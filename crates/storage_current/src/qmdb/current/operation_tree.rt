//! A tree over operations, as it grows.

ghost use Rattle.std.specs.Prelude.{◌≡◌, ℕ, ◌+◌, ◌<◌, ◌∷◌, ◌++◌, ◌⊎◌, List, [], map, IfErr, OnOk, OnErr};
ghost use Rattle.storage_merkle.specs.declared.merkle.error.Error.TheVariants.{LocationOverflow};
ghost use Rattle.storage_merkle.specs.Shape.{max_leaves};
ghost use Rattle.storage_ops.specs.declared.qmdb.error.Error.TheVariants.{Merkle, Memory};
ghost use Rattle.storage_current.specs.NodeLists.{IsGrown, IsTreeOver, IsUnpruned};

use std::alloc::Global;
use std::marker::Model;
use storage_codec::digest::Hasher;
use storage_merkle::merkle::mem::Mem;
use storage_merkle::merkle::{self, Graftable, MAX_LEAVES};
use storage_ops::qmdb::{self, Error};

/// A tree over operations, which it does not keep: it has their number, and the digests of its nodes by position.
#[derive(Drop)]
pub struct OperationTree<F: Graftable, H: Hasher> {
    operations: Mem<F, H::Digest>,
}

impl<F: Graftable, H: Hasher> Model for OperationTree<F, H> {
    ghost use Rattle.std.specs.Prelude.{map};
    ghost use Rattle.storage_current.specs.NodeLists.{IsGrown, IsUnpruned, KeptTree};

    ghost Value = { KeptTree };

    ghost view = { λ t. record {
      leaves = t.operations.leaves;
      nodes = map H.Digest.text t.operations.nodes;
    } };

    ghost invariant = { λ t. record {
      grown : IsGrown H.Digest.text H.hash_of F.shape t.operations;
      all : IsUnpruned t.operations;
    } };
}

impl<F: Graftable, H: Hasher> OperationTree<F, H> {
    /// Returns the tree over no operations. Allocates nothing.
    pub fn new(alloc: Global) -> Self
        ensures { IsTreeOver H.hash_of F.shape result [] }
    {
        let operations = Mem::new(alloc);
        OperationTree { operations }
    }

    /// Appends `operation`, and the nodes that are added with it.
    ///
    /// # Errors
    ///
    /// `LocationOverflow` of the number of operations if that is `MAX_LEAVES`; `Memory`. Either leaves the tree as it
    /// was.
    pub fn add(&mut self, operation: &[u8]) -> Result<(), Error<F>>
        ensures grown { OnOk result ((operations : List (List ℕ))
            → IsTreeOver H.hash_of F.shape self.old operations
            → IsTreeOver H.hash_of F.shape self.new (operations ++ operation.now ∷ [])) }
        ensures place { OnOk result (self.new.leaves ≡ self.old.leaves + 1) }
        ensures fits { OnOk result (self.old.leaves < max_leaves) }
        ensures same { OnErr result (self.new ≡ self.old) }
        ensures why { IfErr result (λ e.
            ((self.old.leaves ≡ max_leaves) × (e ≡ Merkle (LocationOverflow self.old.leaves)))
            ⊎ ((self.old.leaves < max_leaves) × (e ≡ Memory))) }
    {
        let leaves = self.operations.leaves();
        if leaves.as_u64() >= MAX_LEAVES {
            return Err(Error::Merkle(merkle::Error::LocationOverflow(leaves)));
        }
        if self
            .operations
            .add(&qmdb::hasher::<H>(), operation)
            .is_err()
        {
            return Err(Error::Memory);
        }
        Ok(())
    }

    /// Returns the tree itself.
    pub(crate) fn into_operations(self) -> Mem<F, H::Digest>
        ensures leaves { result.leaves ≡ self.leaves }
        ensures nodes { map H.Digest.text result.nodes ≡ self.nodes }
        ensures grown { IsGrown H.Digest.text H.hash_of F.shape result }
        ensures all { IsUnpruned result }
    {
        self.operations
    }
}
