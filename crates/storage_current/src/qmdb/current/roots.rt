//! The roots of a snapshot, from the trees over its operations and its graftable chunks.

ghost use Rattle.std.specs.Prelude.{◌≡◌, ℕ, ◌≤◌};
ghost use Rattle.storage_bitmap.specs.Chunks.{IsRest};
ghost use Rattle.storage_current.specs.KeptSnapshots.{AreRootsOf};
ghost use Rattle.storage_current.specs.KeptTrees.{AreKept};
ghost use Rattle.storage_current.specs.NodeLists.{ArePeaksTold, IsOver, seen_by};
ghost use Rattle.storage_current.specs.SnapshotTails.{AreTrees};
ghost use Rattle.storage_current.specs.Snapshots.{Snapshot as SnapshotOf, grafting_of, height, view_node};
ghost use Rattle.storage_current.specs.WitnessWire.{witness_of};

use crate::qmdb::current::chunks::{ChunkCounts, chunk_digest, pruned_bits};
use crate::qmdb::current::grafting::{self, chunk_aligned_inactive_peaks, exact_inactive};
use crate::qmdb::current::proof::OpsRootWitness;
use crate::qmdb::current::root::canonical_root;
use crate::qmdb::current::view::view_root;
use storage_bitmap::bitmap::{Prunable, Readable};
use storage_codec::digest::{Digest, Hasher};
use storage_merkle::laws::kept::trees_keep_each_node_behind_their_boundary;
use storage_merkle::merkle::mem::Mem;
use storage_merkle::merkle::{Graftable, Location};
use storage_ops::qmdb;

/// The operations root and the canonical root of a snapshot, and the witness that the one belongs to the other.
#[derive(Drop)]
pub(crate) struct Roots<F, D> {
    pub ops_root: D,
    pub canonical: D,
    pub witness: OpsRootWitness<F, D>,
}

impl<F: Graftable, D: Digest> Roots<F, D> {
    /// Returns the roots of the snapshot that `operations` and `chunks` are kept of, with the bits `status` and the
    /// floor `floor`. Hashes no node, but the foldings of the peaks and the chunks under no node of their own.
    /// Allocates nothing.
    pub(crate) fn over<H: Hasher<Digest = D>, const N: usize>(
        operations: &Mem<F, D>,
        chunks: &Mem<F, D>,
        status: &Prunable<N>,
        floor: Location<F>,
    ) -> Self
        requires kept { AreKept D.text H.hash_of (grafting_of F.shape N) operations.now chunks.now
            status.now }
        requires floor { floor ≤ operations.now.leaves }
        ensures { let g = grafting_of F.shape N in (s : SnapshotOf) → IsRest N status.now s.bits
            → s.floor ≡ floor
            → IsOver D.text H.hash_of F.shape operations.now s.operations
            → ArePeaksTold F.shape operations.now.leaves (view_node H.hash_of g s)
            (seen_by D.text F.shape (height g) operations.now chunks.now)
            → AreRootsOf H.hash_of g s (D.text result.ops_root) (D.text result.canonical)
            (witness_of D.text result.witness) }
    {
        Roots::over_trees::<H, N>(operations, chunks, status, floor)
    }

    /// Returns the roots of the snapshot that `operations` and `chunks` are kept of, whose first chunks may be told by
    /// pins, with the bits `status` and the floor `floor`. Hashes no node, but the foldings of the peaks and the chunks
    /// under no node of their own. Allocates nothing.
    pub(crate) fn over_trees<H: Hasher<Digest = D>, const N: usize>(
        operations: &Mem<F, D>,
        chunks: &Mem<F, D>,
        status: &Prunable<N>,
        floor: Location<F>,
    ) -> Self
        requires trees { AreTrees (grafting_of F.shape N) operations.now chunks.now status.now }
        requires floor { floor ≤ operations.now.leaves }
        ensures { let g = grafting_of F.shape N in (s : SnapshotOf) → IsRest N status.now s.bits
            → s.floor ≡ floor
            → IsOver D.text H.hash_of F.shape operations.now s.operations
            → ArePeaksTold F.shape operations.now.leaves (view_node H.hash_of g s)
            (seen_by D.text F.shape (height g) operations.now chunks.now)
            → AreRootsOf H.hash_of g s (D.text result.ops_root) (D.text result.canonical)
            (witness_of D.text result.witness) }
    {
        trees_keep_each_node_behind_their_boundary(operations);
        trees_keep_each_node_behind_their_boundary(chunks);
        let leaves = status.len();
        let height = grafting::height::<N>();
        let exact = exact_inactive::<F>(leaves, floor.as_u64());
        let ops_root = operations.root(&qmdb::hasher::<H>(), exact).unwrap();
        let aligned = chunk_aligned_inactive_peaks::<F>(leaves, floor.as_u64(), height);
        let grafted_root = view_root::<F, H>(
            operations,
            chunks,
            height,
            pruned_bits(status),
            aligned,
        );
        let counts = ChunkCounts::over::<F>(leaves, height);
        let pending = chunk_digest::<H, N>(counts.pending::<Prunable<N>, N>(status));
        let partial = chunk_digest::<H, N>(counts.partial::<Prunable<N>, N>(status));
        let canonical = canonical_root::<H>(
            &ops_root,
            &grafted_root,
            &pending,
            counts.next_bit,
            &partial,
        );
        Roots {
            ops_root,
            canonical,
            witness: OpsRootWitness::of(grafted_root, pending, counts.next_bit, partial),
        }
    }
}
