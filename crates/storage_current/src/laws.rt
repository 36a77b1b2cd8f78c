//! What holds of every snapshot and every check against its canonical root: laws over the definitions, each the contract of a
//! function that does nothing.

ghost use Rattle.storage_current.specs.CurrentSoundness.{CurrentProofsAreSound, FamiliesAreLawful, OperationProofsAreSound, OwnCurrentProofsAreAccepted, OwnOperationProofsAreAccepted, OwnWitnessesAreAccepted, WitnessesAreSound};
ghost use Rattle.storage_current.specs.HashedLengths.{HashedLengthsDiffer};
ghost use Rattle.storage_current.specs.Openings.{OwnOpeningsAreAccepted};
ghost use Rattle.storage_current.specs.OwnWire.{OwnCurrentProofsAreReadAgain, OwnOperationProofsAreReadAgain};

pub mod chunk_lengths;
pub mod combined;
pub mod equality;
pub mod extracted;
pub mod grafted_trees;
pub mod keys;
pub mod pins;
pub mod shared;

use storage_merkle::laws::extracted::own_pinned_proofs_are_accepted;
use storage_merkle::laws::{own_range_proofs_are_accepted, range_proofs_are_sound};

/// A range proof that is accepted against a snapshot's canonical root is the snapshot's own, field for field, and its
/// operations and chunks are the snapshot's, or two different strings have one digest, one hashed by the check and one by the
/// snapshot.
pub fn current_proofs_are_sound()
    ensures { CurrentProofsAreSound }
{
    range_proofs_are_sound();
}

/// An operation proof that is accepted against a snapshot's canonical root is the snapshot's own, and the operation stands at
/// its location and is active, or two different strings have one digest, one hashed by the check and one by the snapshot.
pub fn operation_proofs_are_sound()
    ensures { OperationProofsAreSound }
{
    current_proofs_are_sound();
}

/// A witness that is accepted against a snapshot's canonical root is the snapshot's own, and the operations root is the
/// snapshot's, or two different strings have one digest, one hashed by the check and one by the snapshot.
pub fn witnesses_are_sound()
    ensures { WitnessesAreSound }
{}

/// A snapshot's own range proof is accepted against its canonical root.
pub fn own_current_proofs_are_accepted()
    ensures { OwnCurrentProofsAreAccepted }
{
    own_range_proofs_are_accepted();
}

/// A snapshot's own proof of an active operation is accepted against its canonical root.
pub fn own_operation_proofs_are_accepted()
    ensures { OwnOperationProofsAreAccepted }
{
    own_current_proofs_are_accepted();
}

/// What a snapshot's own range proof is written as is read again, by a reader of at least as many digests as it has.
pub fn own_current_proofs_are_read_again()
    ensures { OwnCurrentProofsAreReadAgain }
{}

/// What a snapshot's own operation proof is written as is read again, by a reader of at most 128 digests.
pub fn own_operation_proofs_are_read_again()
    ensures { OwnOperationProofsAreReadAgain }
{}

/// A snapshot's own witness with its operations root gives its canonical root.
pub fn own_witnesses_are_accepted()
    ensures { OwnWitnessesAreAccepted }
{}

/// A snapshot's own witness, with its own plain proof of some operations and its own digests of the peaks over what is before them, is
/// accepted against its canonical root.
pub fn own_openings_are_accepted()
    ensures { OwnOpeningsAreAccepted }
{
    own_witnesses_are_accepted();
    own_pinned_proofs_are_accepted();
}

/// Both families of trees can be grafted at each height from 1 on.
pub fn families_are_lawful()
    ensures { FamiliesAreLawful }
{}

/// Among the strings that are hashed neither that of a node with a chunk nor that of a tree's root is ever as long as that of a node
/// without one, for digests of 32 and of 64 bytes.
pub fn hashed_lengths_differ()
    ensures { HashedLengthsDiffer }
{}
