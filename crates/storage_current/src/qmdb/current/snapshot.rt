//! Snapshots in memory, with their roots and the nodes of their grafted view.

ghost use Rattle.std.specs.Prelude.{◌≡◌, ℕ, ◌<◌, ◌≤◌, List, length, map, option_map, None, Some, IfOk, IfErr, MatchOption};
ghost use Rattle.storage_merkle.specs.Nodes.{IsNode};
ghost use Rattle.storage_merkle.specs.Shape.{size, max_leaves};
ghost use Rattle.storage_bitmap.specs.Chunks.{IsChunkSize, bit_count};
ghost use Rattle.storage_current.specs.KeptSnapshots.{HasEachBit, IsSnapshotRefused, StandsForSnapshot, pruned_operations};
ghost use Rattle.storage_current.specs.NodeLists.{IsGrown, IsOver, IsRetained, IsTreeOver, IsUnpruned, told_by};
ghost use Rattle.storage_current.specs.Snapshots.{IsSnapshot, Snapshot as SnapshotOf, canonical_root, ops_root_of, own_witness, grafting_of, height, view_node};
ghost use Rattle.storage_current.specs.WitnessWire.{witness_of};

mod extend;
mod opening;
mod prune;

use crate::qmdb::current::chunk_tree::append_grafts;
use crate::qmdb::current::chunks::pruned_bits;
use crate::qmdb::current::grafting;
use crate::qmdb::current::operation_tree::OperationTree;
use crate::qmdb::current::proof::OpsRootWitness;
use crate::qmdb::current::roots::Roots;
use crate::qmdb::current::view::view_digest;
pub use opening::chunk_pins;
use std::alloc::Global;
use std::convert::AsSlice;
use std::marker::Model;
use storage_bitmap::bitmap::{Prunable, Readable};
use storage_codec::NoMemory;
use storage_codec::digest::Hasher;
use storage_merkle::laws::kept::trees_keep_the_nodes_of_their_list;
use storage_merkle::merkle::mem::Mem;
use storage_merkle::merkle::{self, Graftable, Location, MAX_LEAVES, Position};
use storage_ops::qmdb::Error;

/// Operations, a bit for each that says whether it is active, and an inactivity floor, with their roots. It keeps no
/// operation: it has the nodes of the tree over them and of the one over their graftable chunks, so that a node of the
/// grafted view is read and not hashed.
#[derive(Drop)]
pub struct Snapshot<F: Graftable, H: Hasher, const N: usize> {
    operations: Mem<F, H::Digest>,
    chunks: Mem<F, H::Digest>,
    status: Prunable<N>,
    floor: Location<F>,
    ops_root: H::Digest,
    root: H::Digest,
    witness: OpsRootWitness<F, H::Digest>,
}

impl<F: Graftable, H: Hasher, const N: usize> Model for Snapshot<F, H, N> {
    ghost use Rattle.std.specs.Prelude.{map};
    ghost use Rattle.storage_current.specs.KeptSnapshots.{KeptSnapshot};
    ghost use Rattle.storage_current.specs.KeptTrees.{AreKept};
    ghost use Rattle.storage_current.specs.NodeLists.{seen_list};
    ghost use Rattle.storage_current.specs.Snapshots.{grafting_of, height};
    ghost use Rattle.storage_current.specs.WitnessWire.{witness_of};

    ghost Value = { KeptSnapshot };

    ghost view = { λ s. record {
      leaves = s.operations.leaves;
      nodes = seen_list H.Digest.text F.shape (height (grafting_of F.shape N)) s.operations
          s.chunks;
      pinned = map H.Digest.text s.operations.pinned;
      status = s.status;
      floor = s.floor;
      ops_root = H.Digest.text s.ops_root;
      root = H.Digest.text s.root;
      witness = witness_of H.Digest.text s.witness;
    } };

    ghost invariant = { λ s. AreKept H.Digest.text H.hash_of (grafting_of F.shape N) s.operations
        s.chunks s.status };
}

impl<F: Graftable, H: Hasher, const N: usize> Snapshot<F, H, N> {
    /// Returns the snapshot of `operations`, byte strings, with a bit of `bits` for each, and the inactivity floor
    /// `floor`.
    ///
    /// # Errors
    ///
    /// The first of: `DataCorrupted` if there are not as many bits as operations, or bits are pruned;
    /// `RangeOutOfBounds(floor)` if `floor` is greater than the number of operations; `LocationOverflow` of that number
    /// if it is past `MAX_LEAVES`; `Memory`.
    pub fn new<E: AsSlice<u8>>(
        alloc: Global,
        operations: &[E],
        bits: Prunable<N>,
        floor: Location<F>,
    ) -> Result<Self, Error<F>>
        ensures size { IfOk result (λ _. IsChunkSize N) }
        ensures status { IfOk result (λ kept. kept.status ≡ bits.entry) }
        ensures unpruned { IfOk result (λ kept. kept.status.pruned ≡ 0) }
        ensures stands { let g = grafting_of F.shape N in
            let s : SnapshotOf = record {
              operations = map E.items operations.now;
              bits = bits.entry.bits;
              floor = floor;
            } in
            IfOk result (λ kept. IsSnapshot s × StandsForSnapshot H.hash_of g kept s) }
        ensures why { IfErr result (IsSnapshotRefused N (length operations.now) bits.entry floor) }
    {
        let leaves = operations.len() as u64;
        if let Some(error) = refusal::<F, N>(leaves, &bits, floor) {
            return Err(error);
        }
        let mut tree = OperationTree::<F, H>::new(alloc);
        for operation in operations {
            // there are no more than fit, so that only memory may be wanting
            if tree.add(operation.as_slice()).is_err() {
                return Err(Error::Memory);
            }
        }
        Snapshot::of_tree(alloc, tree, bits, floor)
    }

    /// Returns the snapshot of the operations that `tree` is over, with a bit of `bits` for each, and the inactivity
    /// floor `floor`.
    ///
    /// # Errors
    ///
    /// Those of [`new`](Self::new).
    pub fn of_tree(
        alloc: Global,
        tree: OperationTree<F, H>,
        bits: Prunable<N>,
        floor: Location<F>,
    ) -> Result<Self, Error<F>>
        ensures size { IfOk result (λ _. IsChunkSize N) }
        ensures status { IfOk result (λ kept. kept.status ≡ bits.entry) }
        ensures unpruned { IfOk result (λ kept. kept.status.pruned ≡ 0) }
        ensures stands { let g = grafting_of F.shape N in
            IfOk result (λ kept. (operations : List (List ℕ)) → IsTreeOver H.hash_of F.shape tree
            operations → let s : SnapshotOf = record {
              operations = operations;
              bits = bits.entry.bits;
              floor = floor;
            } in
            IsSnapshot s × StandsForSnapshot H.hash_of g kept s) }
        ensures why { IfErr result (IsSnapshotRefused N tree.leaves bits.entry floor) }
    {
        let operations = tree.into_operations();
        if let Some(error) = refusal::<F, N>(operations.leaves().as_u64(), &bits, floor) {
            return Err(error);
        }
        match Snapshot::over(alloc, operations, bits, floor) {
            Ok(snapshot) => Ok(snapshot),
            Err(_) => Err(Error::Memory),
        }
    }

    /// Returns the snapshot of the operations that `operations` is over, with the bits `bits` and the floor `floor`.
    fn over(
        alloc: Global,
        operations: Mem<F, H::Digest>,
        bits: Prunable<N>,
        floor: Location<F>,
    ) -> Result<Self, NoMemory>
        requires chunks { IsChunkSize N }
        requires grown { IsGrown H.Digest.text H.hash_of F.shape operations }
        requires all { IsUnpruned operations }
        requires bits { HasEachBit N operations.leaves bits }
        requires floor { floor ≤ operations.leaves }
        ensures status { IfOk result (λ kept. kept.status ≡ bits.entry) }
        ensures unpruned { IfOk result (λ kept. kept.status.pruned ≡ 0) }
        ensures stands { let g = grafting_of F.shape N in
            IfOk result (λ kept. (list : List (List ℕ))
            → IsOver H.Digest.text H.hash_of F.shape operations list
            → let s : SnapshotOf = record {
              operations = list;
              bits = bits.entry.bits;
              floor = floor;
            } in
            IsSnapshot s × StandsForSnapshot H.hash_of g kept s) }
    {
        trees_keep_the_nodes_of_their_list(&operations);
        let mut chunks = Mem::new(alloc);
        append_grafts::<F, H, N>(&operations, &bits, &mut chunks)?;
        trees_keep_the_nodes_of_their_list(&chunks);
        let roots = Roots::over::<H, N>(&operations, &chunks, &bits, floor);
        Ok(Snapshot {
            operations,
            chunks,
            status: bits,
            floor,
            ops_root: roots.ops_root,
            root: roots.canonical,
            witness: roots.witness,
        })
    }

    /// Returns the canonical root. Allocates nothing.
    pub fn root(&self) -> H::Digest
        ensures value { H.Digest.text result ≡ self.now.root }
        ensures stands { (s : SnapshotOf) → StandsForSnapshot H.hash_of
            (grafting_of F.shape N) self.now s
            → H.Digest.text result ≡ canonical_root H.hash_of (grafting_of F.shape N) s }
    {
        self.root
    }

    /// Returns the root of the tree over the operations alone. Allocates nothing.
    pub fn ops_root(&self) -> H::Digest
        ensures value { H.Digest.text result ≡ self.now.ops_root }
        ensures stands { (s : SnapshotOf) → StandsForSnapshot H.hash_of
            (grafting_of F.shape N) self.now s
            → H.Digest.text result ≡ ops_root_of H.hash_of (grafting_of F.shape N) s }
    {
        self.ops_root
    }

    /// Returns the witness that the operations root is that of the snapshot with the canonical root. Allocates nothing.
    pub fn witness(&self) -> OpsRootWitness<F, H::Digest>
        ensures value { witness_of H.Digest.text result ≡ self.now.witness }
        ensures stands { (s : SnapshotOf) → StandsForSnapshot H.hash_of
            (grafting_of F.shape N) self.now s
            → witness_of H.Digest.text result ≡ own_witness H.hash_of (grafting_of F.shape N) s }
    {
        self.witness.copied()
    }

    /// Returns the digest that the grafted view has at `position`; none past its nodes, nor of a node that is
    /// forgotten: one below the height of chunks that stands before the first operation that is not pruned. Allocates
    /// nothing.
    pub fn get_node(&self, position: Position<F>) -> Option<H::Digest>
        ensures value { option_map H.Digest.text result ≡ told_by self.now.nodes position }
        ensures there { let g = grafting_of F.shape N in (s : SnapshotOf)
            → StandsForSnapshot H.hash_of g self.now s → position < size F.shape (length s.operations)
            → (first own : ℕ) → IsNode F.shape position first own
            → IsRetained F.shape (height g) (pruned_operations g self.now.status) position own
            → option_map H.Digest.text result ≡ Some (view_node H.hash_of g s first own) }
        ensures forgotten { let g = grafting_of F.shape N in (s : SnapshotOf)
            → StandsForSnapshot H.hash_of g self.now s → position < size F.shape (length s.operations)
            → (first own : ℕ) → IsNode F.shape position first own
            → (IsRetained F.shape (height g) (pruned_operations g self.now.status) position own → ⊥)
            → result ≡ None }
        ensures past { (s : SnapshotOf) → StandsForSnapshot H.hash_of
            (grafting_of F.shape N) self.now s
            → size F.shape (length s.operations) ≤ position
            → result ≡ None }
    {
        let operations = &self.operations;
        let chunks = &self.chunks;
        trees_keep_the_nodes_of_their_list(operations);
        trees_keep_the_nodes_of_their_list(chunks);
        let pruned = pruned_bits(&self.status);
        view_digest::<F, H>(
            operations,
            chunks,
            grafting::height::<N>(),
            pruned,
            position,
        )
    }

    /// Returns the activity bits, but those of pruned operations. Allocates nothing.
    pub fn status(&self) -> &Prunable<N>
        ensures { result.now ≡ self.now.status }
    {
        &self.status
    }
}

/// Returns why `leaves` operations with the bits `bits` and the floor `floor` are no snapshot; none if they are one.
fn refusal<F: Graftable, const N: usize>(
    leaves: u64,
    bits: &Prunable<N>,
    floor: Location<F>,
) -> Option<Error<F>>
    ensures size { IsChunkSize N }
    ensures why { MatchOption result (HasEachBit N leaves bits.now × (floor ≤ leaves)
        × (leaves ≤ max_leaves)) (IsSnapshotRefused N leaves bits.now floor) }
{
    if bits.len() != leaves || bits.pruned_chunks() > 0 {
        return Some(Error::DataCorrupted("not one bit for each operation"));
    }
    if floor.as_u64() > leaves {
        return Some(Error::Merkle(merkle::Error::RangeOutOfBounds(floor)));
    }
    if leaves > MAX_LEAVES {
        let leaves = Location::new(leaves);
        return Some(Error::Merkle(merkle::Error::LocationOverflow(leaves)));
    }
    None
}
