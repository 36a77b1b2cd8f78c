//! What holds of every tree, every check and every proof: laws over the definitions, each the contract of a function that
//! does nothing.

ghost use Rattle.std.specs.Prelude.{◌≡◌};
ghost use Rattle.storage_merkle.specs.Built.{BuiltRangeProofsAreAccepted, BuiltRangeProofsAreReadAgain};
ghost use Rattle.storage_merkle.specs.Plans.{GreatestNodesArePlanned};
ghost use Rattle.storage_merkle.specs.Soundness.{OwnRangeProofsAreAccepted, RangeProofsAreSound, RootsAreOfLeaves, RootsBindTheirTrees, SiblingsAscend};

use crate::merkle::hasher::Hasher;
use crate::merkle::{Family, Position};

pub mod equality;
pub mod extracted;
pub mod families;
pub mod kept;
pub mod multi;
pub mod stores;

/// A range proof that is accepted against a tree's root is the tree's own proof, field for field, and its elements and chunks
/// stand in the tree, or two different strings have one digest, one hashed by the check and one by the tree.
pub fn range_proofs_are_sound()
    ensures { RangeProofsAreSound }
{}

/// A tree's own range proof is accepted against its root.
pub fn own_range_proofs_are_accepted()
    ensures { OwnRangeProofsAreAccepted }
{}

/// A range proof that a plan builds from the nodes of a tree is accepted against the tree's root, and what it is written as is
/// read as the same proof, whatever follows it.
pub fn built_range_proofs_are_accepted<
    F: Family,
    H: Hasher<F>,
    G: Fn(Position<F>) -> Option<H::Digest>,
>()
    ensures accepted { (hasher : H) (get_node : G) → BuiltRangeProofsAreAccepted H.Digest.text
        (G.post get_node) H.hash_of (H.layout hasher) (H.bagging hasher) }
    ensures read_again { (hasher : H) (get_node : G) → BuiltRangeProofsAreReadAgain H.Digest.text
        (G.post get_node) H.Digest.size H.hash_of (H.layout hasher) (H.bagging hasher) }
{}

/// The root of a tree is the one calculated from the digests of its leaves.
pub fn roots_are_of_leaves()
    ensures { RootsAreOfLeaves }
{}

/// Trees with one root are of one family and one bagging and have as many leaves and inactive peaks, or two different strings
/// have one digest.
pub fn roots_bind_their_trees()
    ensures { RootsBindTheirTrees }
{}

/// The digests of a range proof end with the siblings inside the peaks that share a leaf with the range, ascending by position.
pub fn siblings_ascend()
    ensures { SiblingsAscend }
{}

/// The planned positions are those of the greatest nodes of the tree that hold no leaf of the range: no other such node covers
/// them.
pub fn greatest_nodes_are_planned()
    ensures { GreatestNodesArePlanned }
{}
