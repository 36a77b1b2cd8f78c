//! What trees over chunks keep, and what can be had from that by hashing.

ghost use Rattle.std.specs.Prelude.{◌≡◌, ℕ, ◌+◌, ◌^◌, ◌<◌, ◌≤◌, ◌↔◌, [], List, length, get_or, None, Option, Some, IsSome, option_map};
ghost use Rattle.storage_merkle.specs.Kept.{NodesOver, StandsFor, kept_at};
ghost use Rattle.storage_merkle.specs.Nodes.{CoversSame, IsNode};
ghost use Rattle.storage_merkle.specs.Shape.{Inside, size};
ghost use Rattle.storage_current.specs.CombinedViews.{AnswersAreTrue, AreFirstGraftedLeaves, EachIsCoverable, chunk_node, grafted_node};
ghost use Rattle.storage_current.specs.GraftedTrees.{IsCoverable, IsHashedOver, IsKeptIn, IsPeak, Keeps, regrafted, tree_at};
ghost use Rattle.storage_current.specs.Snapshots.{Snapshot, graftable, grafting_of, height};

use crate::qmdb::current::grafting::GraftedTree;
use storage_codec::digest::{Digest, Hasher};
use storage_merkle::laws::kept::trees_keep_the_nodes_of_their_list;
use storage_merkle::merkle::mem::Mem;
use storage_merkle::merkle::{Family, Graftable};

/// A node over chunks and one over operations that cover the same leaves settle each other's position: so
/// [`ops_to_grafted_pos`](crate::qmdb::current::grafting::ops_to_grafted_pos) and
/// [`grafted_to_ops_pos`](crate::qmdb::current::grafting::grafted_to_ops_pos) undo each other.
pub fn grafted_positions_are_unique<F: Family>()
    ensures down { (height position p q : ℕ) → CoversSame F.shape height p position
        → CoversSame F.shape height q position → p ≡ q }
    ensures up { (height grafted p q : ℕ) → CoversSame F.shape height grafted p
        → CoversSame F.shape height grafted q → p ≡ q }
{}

/// A node over chunks can be had just where it is coverable by the nodes that are kept. A node that is kept is answered as it is kept,
/// and from true nodes only true ones are hashed. This holds of whatever is [`Readable`](storage_merkle::merkle::Readable).
pub fn rebuilt_nodes_are_true<F: Graftable, H: Hasher>()
    ensures had { (height position first own : ℕ) (kept : ℕ → Option H.Digest)
        → IsNode F.shape position first own
        → (IsSome (regrafted H.digest_of H.Digest.text F.shape height kept position)
        ↔ IsCoverable (IsKeptIn F.shape kept) 0 own first) }
    ensures kept { (height position first own : ℕ) (kept : ℕ → Option H.Digest) (digest : H.Digest)
        → IsNode F.shape position first own
        → kept position ≡ Some digest
        → regrafted H.digest_of H.Digest.text F.shape height kept position ≡ Some digest }
    ensures truth { (height leaves : ℕ) (node : ℕ → ℕ → List ℕ) (kept : ℕ → Option H.Digest)
        → IsHashedOver H.hash_of F.shape height node
        → AnswersAreTrue H.Digest.text F.shape leaves node kept
        → AnswersAreTrue H.Digest.text F.shape leaves node
        (regrafted H.digest_of H.Digest.text F.shape height kept) }
{}

/// A snapshot's grafted view hashes its nodes over chunks from their halves, and the tree over the first graftable chunks has the
/// view's nodes.
pub fn nodes_over_first_chunks_are_the_views<F: Graftable, H: Hasher, const N: usize>()
    ensures hashed { let g = grafting_of F.shape N in
        (s : Snapshot) → IsHashedOver H.hash_of F.shape (height g) (grafted_node H.hash_of g s) }
    ensures same { let g = grafting_of F.shape N in
        (s : Snapshot) (leaves : List (List ℕ)) → AreFirstGraftedLeaves H.hash_of g s leaves
        → (first own : ℕ) → first + 2 ^ own ≤ length leaves
        → chunk_node H.hash_of g leaves first own ≡ grafted_node H.hash_of g s first own }
{}

/// Where `tree` keeps a list of chunks' digests, it answers for its pins the digests of the peaks over the pruned chunks, and for its
/// leaves those of the list from there on. For any other node it has none.
pub fn grafted_trees_keep_pins_and_leaves<F: Graftable, D: Digest>(tree: &GraftedTree<F, D>)
    ensures pins { (N : NodesOver) (list : List (List ℕ)) → Keeps D.text F.shape N tree.now list
        → (position first height : ℕ) → IsNode F.shape position first height
        → IsPeak (F.shape.peaks tree.now.pruned) 0 first height
        → option_map D.text (tree_at F.shape tree.now.pruned tree.now.pinned tree.now.leaves
        position) ≡ Some (N list height first) }
    ensures leaves { (N : NodesOver) (list : List (List ℕ)) → Keeps D.text F.shape N tree.now list
        → (chunk : ℕ) → tree.now.pruned ≤ chunk
        → chunk < length list
        → option_map D.text (tree_at F.shape tree.now.pruned tree.now.pinned tree.now.leaves
        (size F.shape chunk)) ≡ Some (get_or list chunk []) }
    ensures none { (position first height : ℕ) → IsNode F.shape position first height
        → (IsPeak (F.shape.peaks tree.now.pruned) 0 first height → ⊥)
        → ((height ≡ 0) × (tree.now.pruned ≤ first)
        × (first < tree.now.pruned + length tree.now.leaves) → ⊥)
        → tree_at F.shape tree.now.pruned tree.now.pinned tree.now.leaves position ≡ None }
{}

/// A node is coverable by what `tree` keeps just where its chunks all are in the tree and it lies strictly inside no pin. Where nothing
/// is pruned, each node of the tree is.
pub fn nodes_inside_no_pin_are_coverable<F: Graftable, D: Digest>(tree: &GraftedTree<F, D>)
    ensures coverable { (position first height : ℕ) → IsNode F.shape position first height
        → (IsCoverable (IsKeptIn F.shape (tree_at F.shape tree.now.pruned tree.now.pinned
        tree.now.leaves)) 0 height first
        ↔ (first + 2 ^ height ≤ tree.now.pruned + length tree.now.leaves)
        × (Inside (F.shape.peaks tree.now.pruned) 0 first height
        → IsPeak (F.shape.peaks tree.now.pruned) 0 first height)) }
    ensures whole { tree.now.pruned ≡ 0
        → EachIsCoverable F.shape (length tree.now.leaves)
        (tree_at F.shape tree.now.pruned tree.now.pinned tree.now.leaves) }
{
    tree.is_whole();
}

/// Where `tree` keeps the digests of the first of a snapshot's graftable chunks, all that it keeps is the grafted view's, whichever of
/// these chunks are pruned.
pub fn grafted_trees_keep_the_view<F: Graftable, H: Hasher, const N: usize>(
    tree: &GraftedTree<F, H::Digest>,
)
    ensures { let g = grafting_of F.shape N in
        (s : Snapshot) (leaves : List (List ℕ)) → AreFirstGraftedLeaves H.hash_of g s leaves
        → Keeps H.Digest.text F.shape (λ list k a. chunk_node H.hash_of g list a k) tree.now leaves
        → AnswersAreTrue H.Digest.text F.shape (graftable g (length s.operations))
        (grafted_node H.hash_of g s)
        (tree_at F.shape tree.now.pruned tree.now.pinned tree.now.leaves) }
{}

/// Where `tree`, in memory, stands for the digests of the first of a snapshot's graftable chunks, what it keeps of the nodes over these
/// is the grafted view's. Where it has forgotten nothing, each of them is coverable.
pub fn memory_trees_keep_the_view<F: Graftable, H: Hasher, const N: usize>(tree: &Mem<F, H::Digest>)
    ensures truth { let g = grafting_of F.shape N in
        (s : Snapshot) (leaves : List (List ℕ)) → AreFirstGraftedLeaves H.hash_of g s leaves
        → StandsFor H.Digest.text F.shape (λ list k a. chunk_node H.hash_of g list a k) tree.now
        leaves
        → AnswersAreTrue H.Digest.text F.shape (length leaves) (grafted_node H.hash_of g s)
        (kept_at F.shape tree.now.boundary tree.now.pinned tree.now.nodes) }
    ensures whole { (N : NodesOver) (leaves : List (List ℕ)) → tree.now.boundary ≡ 0
        → StandsFor H.Digest.text F.shape N tree.now leaves
        → EachIsCoverable F.shape (length leaves)
        (kept_at F.shape tree.now.boundary tree.now.pinned tree.now.nodes) }
{
    trees_keep_the_nodes_of_their_list(tree);
}
