//! The digests that a check hands out, and those that it is given.

ghost use Rattle.storage_merkle.specs.Extracted.{ExtractedDigestsAreTrue, ExtractedPositionsAscend};
ghost use Rattle.storage_merkle.specs.Pinned.{OwnPinnedProofsAreAccepted, PinnedDigestsAreSound};

/// Each digest that an accepted check hands out is the tree's at its position, for a tree with grafted chunks too, or two
/// different strings have one digest, one hashed by the check and one by the tree.
pub fn extracted_digests_are_true()
    ensures { ExtractedDigestsAreTrue }
{}

/// What a check hands out ascends by position, each position once.
pub fn extracted_positions_ascend()
    ensures { ExtractedPositionsAscend }
{}

/// Pinned digests that are accepted with a range proof are those of the list's peaks over its start, and the proof is the
/// list's own, or two different strings have one digest, one hashed by the check and one by the list's tree.
pub fn pinned_digests_are_sound()
    ensures { PinnedDigestsAreSound }
{}

/// A tree's own range proof, with the digests of the tree's own peaks over the leaves before its range, is accepted against the tree's
/// root.
pub fn own_pinned_proofs_are_accepted()
    ensures { OwnPinnedProofsAreAccepted }
{}
