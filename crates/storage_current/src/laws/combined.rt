//! A tree over chunks and a tree over the operations, and both read as one.

ghost use Rattle.std.specs.Prelude.{◌≡◌, ℕ, ◌*◌, ◌^◌, ◌<◌, ◌≤◌, ◌⊎◌, false, None, Option};
ghost use Rattle.storage_merkle.specs.Nodes.{CoversSame, IsNode};
ghost use Rattle.storage_merkle.specs.Shape.{size, max_leaves};
ghost use Rattle.storage_current.specs.Combined.{IsRaised, joined};
ghost use Rattle.storage_current.specs.CombinedViews.{JoinedTreesAnswerTheView, JoinedTreesAreTheView, JoinedTreesServeTheView, PlannedNodesServeARange};
ghost use Rattle.storage_current.specs.PrunedViews.{CoverableNodesAreHad, PrunedTreesServeTheView};
ghost use Rattle.storage_current.specs.Snapshots.{grafting_of};

use storage_codec::digest::{self, Digest};
use storage_merkle::laws::greatest_nodes_are_planned;
use storage_merkle::merkle::hasher::Hasher;
use storage_merkle::merkle::{Family, Graftable};

/// Each node of a tree over chunks has a position among the operations' nodes, where the chunks have at most half of the
/// operations that a tree may have, and in a family with no pending chunk all of them: a hasher of a tree over chunks takes it
/// where the hasher below takes that position.
pub fn nodes_over_chunks_are_taken<F: Graftable, H: Hasher<F>>()
    ensures half { (hasher : H) (chunks height position : ℕ) → 1 ≤ height
        → chunks * (2 * 2 ^ height) ≤ max_leaves
        → position < size F.shape chunks
        → ((p : ℕ) → CoversSame F.shape height position p → H.takes hasher p)
        → IsRaised F.shape (H.takes hasher) height position }
    ensures all { F.has_pending ≡ false
        → (hasher : H) (chunks height position : ℕ) → 1 ≤ height
        → chunks * 2 ^ height ≤ max_leaves
        → position < size F.shape chunks
        → ((p : ℕ) → CoversSame F.shape height position p → H.takes hasher p)
        → IsRaised F.shape (H.takes hasher) height position }
{}

/// Two trees read as one have nothing at a position that is not valid or not in the tree; below the height of chunks what the
/// tree over the operations has; and at and above it what the tree over chunks has at the position that covers the same
/// operations.
pub fn joined_trees_meet_at_a_height<F: Family, D: Digest>()
    ensures none { (height nodes position : ℕ) (chunks operations : ℕ → Option D)
        → (nodes ≤ position) ⊎ (size F.shape max_leaves < position)
        → joined F.shape height nodes chunks operations position ≡ None }
    ensures below { (height nodes position first own : ℕ) (chunks operations : ℕ → Option D)
        → position < nodes
        → position ≤ size F.shape max_leaves
        → IsNode F.shape position first own
        → own < height
        → joined F.shape height nodes chunks operations position ≡ operations position }
    ensures above { (height nodes position over : ℕ) (chunks operations : ℕ → Option D)
        → position < nodes
        → position ≤ size F.shape max_leaves
        → CoversSame F.shape height over position
        → joined F.shape height nodes chunks operations position ≡ chunks over }
{}

/// Both trees read as one have the whole grafted view, where the one keeps digests of the view by which each node over the graftable
/// chunks is coverable, and the other has each of the operations' nodes.
pub fn joined_trees_are_the_view<F: Graftable, H: digest::Hasher, const N: usize>()
    ensures { JoinedTreesAreTheView H.digest_of H.Digest.text H.hash_of
        (grafting_of F.shape N) }
{}

/// Where all that both trees keep is a snapshot's, all that can be had of them as one is the grafted view's, and each proof that is
/// made from it is the snapshot's own. Neither tree has to have all its nodes.
pub fn joined_trees_answer_the_view<F: Graftable, H: digest::Hasher, const N: usize>()
    ensures { JoinedTreesAnswerTheView H.digest_of H.Digest.text H.hash_of
        (grafting_of F.shape N) }
{
    greatest_nodes_are_planned();
}

/// Where moreover each node that is planned of a range is coverable, both as one serve that range: every planned position has its
/// digest, and what is proved is the snapshot's own.
pub fn planned_nodes_serve_a_range<F: Graftable, H: digest::Hasher, const N: usize>()
    ensures { PlannedNodesServeARange H.digest_of H.Digest.text H.hash_of
        (grafting_of F.shape N) }
{
    greatest_nodes_are_planned();
}

/// Two trees that are the whole view as one serve each proof of the snapshot's operations: every planned position has its digest, and
/// what is proved is the snapshot's own.
pub fn combined_stores_serve_the_view<F: Graftable, H: digest::Hasher, const N: usize>()
    ensures { JoinedTreesServeTheView H.digest_of H.Digest.text H.hash_of
        (grafting_of F.shape N) }
{
    greatest_nodes_are_planned();
}

/// Of a tree over chunks and a tree over the operations, read as one, a node of the view can be had just where it is coverable: it
/// is kept, or it is above the chunks' nodes and both its children are coverable.
pub fn coverable_nodes_are_had<F: Graftable, H: digest::Hasher>()
    ensures { CoverableNodesAreHad H.digest_of H.Digest.text F.shape }
{}

/// A tree over the first of a snapshot's graftable chunks leads to no wrong proof, whichever of them are pruned and however many chunks
/// it is behind: what can be had is the grafted view's, and each proof that is made from it is the snapshot's own.
pub fn pruned_trees_serve_the_view<F: Graftable, H: digest::Hasher, const N: usize>()
    ensures { PrunedTreesServeTheView H.digest_of H.Digest.text H.hash_of (grafting_of F.shape N) }
{
    greatest_nodes_are_planned();
}
