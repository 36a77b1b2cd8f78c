//! The digests that an accepted check of a range proof hands out.

ghost use Rattle.storage_current.specs.ExtractedCurrent.{ExtractedCurrentDigestsAreTrue};

use storage_merkle::laws::extracted::extracted_digests_are_true;

/// Each digest that a check accepted against a snapshot's canonical root hands out is the grafted view's at its position, over a
/// chunk's node the grafted digest, or two different strings have one digest, one hashed by the check and one by the snapshot.
pub fn extracted_current_digests_are_true()
    ensures { ExtractedCurrentDigestsAreTrue }
{
    extracted_digests_are_true();
}
