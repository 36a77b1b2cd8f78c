//! Multi proofs: elements at any locations.

ghost use Rattle.storage_merkle.specs.Multi.{MultiProofsAreSound, OwnMultiProofsAreAccepted};

/// A multi proof that is accepted against a tree's root is the tree's own, field for field, and each claimed element stands at
/// its location, or two different strings have one digest, one hashed by the check and one by the tree.
pub fn multi_proofs_are_sound()
    ensures { MultiProofsAreSound }
{}

/// A tree's own multi proof is accepted against its root.
pub fn own_multi_proofs_are_accepted()
    ensures { OwnMultiProofsAreAccepted }
{}
