//! Trees that are kept in memory.

ghost use Rattle.std.specs.Prelude.{◌≡◌, ℕ, ◌<◌, ◌≤◌, List, length, Some, IsSome, option_map};
ghost use Rattle.storage_merkle.specs.Kept.{NodesOver, StandsFor, kept_at};
ghost use Rattle.storage_merkle.specs.Nodes.{IsNode};
ghost use Rattle.storage_merkle.specs.Shape.{size};

use crate::merkle::Family;
use crate::merkle::mem::Mem;
use storage_codec::digest::Digest;

/// Where `tree`, in memory, stands for a list of leaf digests, it has each of the list's nodes from the position of its
/// boundary's leaf on.
pub fn trees_keep_the_nodes_of_their_list<F: Family, D: Digest>(tree: &Mem<F, D>)
    ensures { (N : NodesOver) (list : List (List ℕ)) → StandsFor D.text F.shape N tree.now list
        → (position first height : ℕ) → IsNode F.shape position first height
        → size F.shape tree.now.boundary ≤ position
        → position < size F.shape (length list)
        → option_map D.text (kept_at F.shape tree.now.boundary tree.now.pinned tree.now.nodes
        position) ≡ Some (N list height first) }
{
    tree.is_whole();
}

/// A tree in memory has a digest for each of its nodes from the position of its boundary's leaf on, whatever digests it was given for
/// what is before.
pub fn trees_keep_each_node_behind_their_boundary<F: Family, D: Digest>(tree: &Mem<F, D>)
    ensures { (position : ℕ) → size F.shape tree.now.boundary ≤ position
        → position < size F.shape tree.now.leaves
        → IsSome (kept_at F.shape tree.now.boundary tree.now.pinned tree.now.nodes position) }
{
    tree.is_whole();
}
