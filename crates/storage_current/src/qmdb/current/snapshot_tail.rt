//! Snapshots in memory behind an operation, where a chunk begins: what is before it is told by pins.

ghost use Rattle.std.specs.Prelude.{◌≡◌, ℕ, ◌<◌, ◌≤◌, ◌⊎◌, length, option_map, None, Some, IfOk, IfSome, MatchOption};
ghost use Rattle.storage_merkle.specs.Nodes.{IsNode};
ghost use Rattle.storage_merkle.specs.Shape.{max_leaves, size};
ghost use Rattle.storage_bitmap.specs.Chunks.{IsRest};
ghost use Rattle.storage_current.specs.Pins.{HavePins};
ghost use Rattle.storage_current.specs.SnapshotTails.{AreOfSnapshot, AreTrees, StandsForTail, tail_node, told_tree};
ghost use Rattle.storage_current.specs.Snapshots.{IsSnapshot, Snapshot as SnapshotOf, canonical_root, ops_root_of, own_witness, grafting_of, height, view_node};
ghost use Rattle.storage_current.specs.Tails.{ArePinned, AreTreesOf, IsTailRetained};
ghost use Rattle.storage_current.specs.WitnessWire.{witness_of};

mod prune;

use crate::qmdb::current::chunk_tree::{chunks_behind, have_pins};
use crate::qmdb::current::chunks::pruned_bits;
use crate::qmdb::current::proof::OpsRootWitness;
use crate::qmdb::current::roots::Roots;
use crate::qmdb::current::view::view_digest;
use crate::qmdb::current::{Tail, grafting};
use std::alloc::Global;
use std::marker::Model;
use storage_bitmap::bitmap::{Prunable, Readable};
use storage_codec::NoMemory;
use storage_codec::digest::Hasher;
use storage_merkle::laws::kept::{
    trees_keep_each_node_behind_their_boundary, trees_keep_the_nodes_of_their_list,
};
use storage_merkle::merkle::mem::Mem;
use storage_merkle::merkle::{Graftable, Location, Position};

/// A snapshot of which the first chunks and their operations are told by pins: operations behind these, a bit for each that
/// says whether it is active, and an inactivity floor, with the roots. It keeps no operation: it has the nodes of the tree
/// over them and of the one over their graftable chunks, so that a node of the grafted view is read and not hashed.
///
/// It is what a copy that begins at a location goes on as.
#[derive(Drop)]
pub struct SnapshotTail<F: Graftable, H: Hasher, const N: usize> {
    operations: Mem<F, H::Digest>,
    chunks: Mem<F, H::Digest>,
    status: Prunable<N>,
    floor: Location<F>,
    ops_root: H::Digest,
    root: H::Digest,
    witness: OpsRootWitness<F, H::Digest>,
}

impl<F: Graftable, H: Hasher, const N: usize> Model for SnapshotTail<F, H, N> {
    ghost use Rattle.storage_current.specs.SnapshotTails.{AreTrees, KeptTail, told_tree};
    ghost use Rattle.storage_current.specs.Snapshots.{grafting_of};
    ghost use Rattle.storage_current.specs.WitnessWire.{witness_of};

    ghost Value = { KeptTail };

    ghost view = { λ s. record {
      operations = told_tree H.Digest.text s.operations;
      chunks = told_tree H.Digest.text s.chunks;
      status = s.status;
      floor = s.floor;
      ops_root = H.Digest.text s.ops_root;
      root = H.Digest.text s.root;
      witness = witness_of H.Digest.text s.witness;
    } };

    ghost invariant = { λ s. AreTrees (grafting_of F.shape N) s.operations s.chunks s.status };
}

impl<F: Graftable, H: Hasher, const N: usize> SnapshotTail<F, H, N> {
    /// Returns the snapshot behind the pins of `tail`, with the bits `status` and the inactivity floor `floor`. `None` if
    /// `floor` is greater than the number of operations, or a pin over chunks is no node of the grafted view: in an MMB
    /// that may come later. It hashes the nodes over chunks, and none over the operations.
    ///
    /// # Errors
    ///
    /// `NoMemory` if memory runs out.
    pub fn new(
        alloc: Global,
        tail: Tail<F, H>,
        status: Prunable<N>,
        floor: Location<F>,
    ) -> Result<Option<Self>, NoMemory>
        requires few { tail.operations.leaves ≤ max_leaves }
        requires pinned { ArePinned (grafting_of F.shape N) tail.operations.pinned
            tail.chunks.pinned status tail.operations tail.chunks }
        ensures exact { let g = grafting_of F.shape N in
            let fit = HavePins g tail.operations.leaves tail.chunks.pruned
            × (floor ≤ tail.operations.leaves) in
            IfOk result (λ o. MatchOption o (fit → ⊥) (λ kept. fit × (kept.status ≡ status.entry)
            × (kept.floor ≡ floor)
            × (kept.operations ≡ told_tree H.Digest.text tail.operations))) }
        ensures stands { let g = grafting_of F.shape N in
            (s : SnapshotOf) → IsSnapshot s → IsRest N status.entry s.bits
            → AreTreesOf H.Digest.text H.hash_of g s tail.operations tail.chunks
            → floor ≡ s.floor
            → IfOk result (λ o. IfSome o (λ kept. StandsForTail H.hash_of g kept s)) }
    {
        let Tail {
            operations,
            chunks: grafted,
        } = tail;
        let leaves = operations.leaves().as_u64();
        if floor.as_u64() > leaves {
            return Ok(None);
        }
        if !have_pins::<F, N>(leaves, status.pruned_chunks() as u64) {
            return Ok(None);
        }
        grafted.is_whole();
        let pins = grafted.pinned_nodes();
        let chunks = chunks_behind::<F, H, N>(alloc, pins, &operations, &status)?;
        let kept = SnapshotTail::of_trees(operations, chunks, status, floor);
        Ok(Some(kept))
    }

    /// Returns the snapshot of these trees, with the bits `status` and the floor `floor`.
    fn of_trees(
        operations: Mem<F, H::Digest>,
        chunks: Mem<F, H::Digest>,
        status: Prunable<N>,
        floor: Location<F>,
    ) -> Self
        requires trees { AreTrees (grafting_of F.shape N) operations chunks status }
        requires floor { floor ≤ operations.leaves }
        ensures status { result.status ≡ status.entry }
        ensures floor { result.floor ≡ floor }
        ensures operations { result.operations ≡ told_tree H.Digest.text operations }
        ensures stands { let g = grafting_of F.shape N in
            (s : SnapshotOf) → IsSnapshot s
            → AreOfSnapshot H.Digest.text H.hash_of g operations chunks status.entry s
            → floor ≡ s.floor → StandsForTail H.hash_of g result s }
    {
        trees_keep_each_node_behind_their_boundary(&operations);
        trees_keep_each_node_behind_their_boundary(&chunks);
        trees_keep_the_nodes_of_their_list(&operations);
        trees_keep_the_nodes_of_their_list(&chunks);
        let roots = Roots::over_trees::<H, N>(&operations, &chunks, &status, floor);
        SnapshotTail {
            operations,
            chunks,
            status,
            floor,
            ops_root: roots.ops_root,
            root: roots.canonical,
            witness: roots.witness,
        }
    }

    /// Returns the canonical root. Allocates nothing.
    pub fn root(&self) -> H::Digest
        ensures value { H.Digest.text result ≡ self.now.root }
        ensures stands { (s : SnapshotOf) → StandsForTail H.hash_of
            (grafting_of F.shape N) self.now s
            → H.Digest.text result ≡ canonical_root H.hash_of (grafting_of F.shape N) s }
    {
        self.root
    }

    /// Returns the root of the tree over the operations alone. Allocates nothing.
    pub fn ops_root(&self) -> H::Digest
        ensures value { H.Digest.text result ≡ self.now.ops_root }
        ensures stands { (s : SnapshotOf) → StandsForTail H.hash_of
            (grafting_of F.shape N) self.now s
            → H.Digest.text result ≡ ops_root_of H.hash_of (grafting_of F.shape N) s }
    {
        self.ops_root
    }

    /// Returns the witness that the operations root is that of the snapshot with the canonical root. Allocates nothing.
    pub fn witness(&self) -> OpsRootWitness<F, H::Digest>
        ensures value { witness_of H.Digest.text result ≡ self.now.witness }
        ensures stands { (s : SnapshotOf) → StandsForTail H.hash_of
            (grafting_of F.shape N) self.now s
            → witness_of H.Digest.text result ≡ own_witness H.hash_of (grafting_of F.shape N) s }
    {
        self.witness.copied()
    }

    /// Returns the inactivity floor.
    pub fn floor(&self) -> Location<F>
        ensures { result ≡ self.now.floor }
    {
        self.floor
    }

    /// Returns the activity bits, but those of pruned operations. Allocates nothing.
    pub fn status(&self) -> &Prunable<N>
        ensures { result.now ≡ self.now.status }
    {
        &self.status
    }

    /// Returns the digest that the grafted view has at `position`; none past its nodes, nor of a node that is not left:
    /// one below the height of chunks that stands before the first operation that is not pruned, or one over the chunks
    /// before a pin's last that is no pin. Allocates nothing.
    pub fn get_node(&self, position: Position<F>) -> Option<H::Digest>
        ensures value { option_map H.Digest.text result
            ≡ tail_node F.shape (height (grafting_of F.shape N)) self.now position }
        ensures there { let g = grafting_of F.shape N in (s : SnapshotOf) → IsSnapshot s
            → StandsForTail H.hash_of g self.now s → position < size F.shape (length s.operations)
            → (first own : ℕ) → IsNode F.shape position first own
            → IsTailRetained F.shape (height g) self.now.status.pruned self.now.chunks.boundary
            first own
            → option_map H.Digest.text result ≡ Some (view_node H.hash_of g s first own) }
        ensures past { (s : SnapshotOf) → StandsForTail H.hash_of
            (grafting_of F.shape N) self.now s
            → size F.shape (length s.operations) ≤ position → result ≡ None }
    {
        let operations = &self.operations;
        let chunks = &self.chunks;
        trees_keep_each_node_behind_their_boundary(operations);
        trees_keep_each_node_behind_their_boundary(chunks);
        trees_keep_the_nodes_of_their_list(operations);
        trees_keep_the_nodes_of_their_list(chunks);
        let pruned = pruned_bits(&self.status);
        let height = grafting::height::<N>();
        view_digest::<F, H>(operations, chunks, height, pruned, position)
    }
}
