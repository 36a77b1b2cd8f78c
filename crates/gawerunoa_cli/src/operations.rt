//! Operations as they are read, a line for each, and what a snapshot of them shows.

ghost use Rattle.std.specs.Prelude.{◌≡◌, ℕ, ◌<◌, ◌≤◌, ◌∷◌, ◌++◌, ◌⊎◌, List, [], length, IfOk, IfErr, OnOk, OnErr};
ghost use Rattle.storage_bitmap.specs.Chunks.{IsChunkSize};
ghost use Rattle.storage_current.specs.KeptSnapshots.{StandsForSnapshot};
ghost use Rattle.storage_current.specs.NodeLists.{IsTreeOver};
ghost use Rattle.storage_current.specs.Snapshots.{IsSnapshot, Snapshot as SnapshotOf, grafting_of};

use std::alloc::Global;
use storage_bitmap::bitmap::Prunable;
use storage_codec::NoMemory;
use storage_codec::digest::Hasher;
use storage_current::qmdb::current::{OperationTree, Snapshot};
use storage_merkle::merkle::{Graftable, Location, MAX_LEAVES};

/// Operations, of which the tree over them is kept and not their bytes, and a bit for each that says whether it is active.
#[derive(Drop)]
pub struct Operations<F: Graftable, H: Hasher> {
    /// The tree over the operations.
    pub tree: OperationTree<F, H>,
    /// The bits, in the order of the operations.
    pub bits: Vec<bool>,
}

impl<F: Graftable, H: Hasher> Operations<F, H> {
    /// Returns no operations. Allocates nothing.
    pub fn new(alloc: Global) -> Self
        ensures tree { IsTreeOver H.hash_of F.shape result.tree [] }
        ensures bits { result.bits.items ≡ [] }
    {
        Operations {
            tree: OperationTree::new(alloc),
            bits: Vec::new(alloc),
        }
    }

    /// Adds the operation with the bytes `operation`, and the bit `active`. If memory runs out (`NoMemory`), nothing
    /// changes.
    pub fn add(&mut self, active: bool, operation: &[u8]) -> Result<(), NoMemory>
        ensures tree { OnOk result ((operations : List (List ℕ))
            → IsTreeOver H.hash_of F.shape self.old.tree operations
            → IsTreeOver H.hash_of F.shape self.new.tree (operations ++ operation.now ∷ [])) }
        ensures bits { OnOk result (self.new.bits.items ≡ self.old.bits.items ++ active ∷ []) }
        ensures same { OnErr result (self.new.tree ≡ self.old.tree) }
    {
        self.bits.push(active)?;
        // more operations than a tree can have fit in no memory
        if self.tree.add(operation).is_err() {
            self.bits.pop();
            return Err(NoMemory);
        }
        Ok(())
    }

    /// Returns how many there are.
    pub fn count(&self) -> u64
        ensures { result ≡ length self.now.bits.items }
    {
        self.bits.len() as u64
    }

    /// Returns the snapshot of the operations with the floor `floor`. The floor must be within them: want of memory is
    /// the only refusal that is told (`NoMemory`).
    pub fn snapshot<const N: usize>(
        self,
        alloc: Global,
        floor: u64,
    ) -> Result<Snapshot<F, H, N>, NoMemory>
        requires { IsChunkSize N }
        ensures { let g = grafting_of F.shape N in IfOk result (λ kept. (operations : List (List ℕ))
            → IsTreeOver H.hash_of F.shape self.tree operations → let s : SnapshotOf = record {
              operations = operations;
              bits = self.bits.items;
              floor = floor;
            } in IsSnapshot s × StandsForSnapshot H.hash_of g kept s) }
    {
        if self.count() > MAX_LEAVES {
            return Err(NoMemory);
        }
        let Operations { tree, bits } = self;
        let mut status = Prunable::new(alloc);
        status.append(&bits)?;
        match Snapshot::of_tree(alloc, tree, status, Location::new(floor)) {
            Ok(snapshot) => Ok(snapshot),
            Err(_) => Err(NoMemory),
        }
    }
}
