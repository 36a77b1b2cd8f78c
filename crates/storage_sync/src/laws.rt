//! What holds of pages that are proved: laws over the definitions, each the contract of a function that does nothing.

ghost use Rattle.storage_sync.specs.Alike.{FloorsProveAlike, RootOfNothing, RootsBindSnapshots};
ghost use Rattle.storage_sync.specs.Beginnings.{ServedOpeningsAreAccepted};
ghost use Rattle.storage_sync.specs.Floors.{CopiesFromPins, PagesAreTails, TailsAreCopies};
ghost use Rattle.storage_sync.specs.Joined.{AnswersAreHonest, ServedCopiesAreWhole};
ghost use Rattle.storage_sync.specs.Openings.{OpeningsAreReadAgain, OpeningsAreWrittenSo};
ghost use Rattle.storage_sync.specs.Pages.{CopiesAreSnapshots, PagesAreCopies};
ghost use Rattle.storage_sync.specs.Refusals.{HonestPagesAreTaken};
ghost use Rattle.storage_sync.specs.Runs.{RunsEnd};

use storage_codec::digest::Digest;
use storage_current::laws::{
    current_proofs_are_sound, own_current_proofs_are_accepted, own_current_proofs_are_read_again,
    own_openings_are_accepted, own_witnesses_are_accepted, witnesses_are_sound,
};
use storage_merkle::laws::roots_bind_their_trees;
use storage_merkle::merkle::Graftable;

/// Pages that are proved against a root, of as many operations as the first one names, give together the operations and bits of each
/// snapshot with that root, or two different strings have one digest, one hashed by a check and one for the root.
pub fn pages_are_copies()
    ensures { PagesAreCopies }
{
    current_proofs_are_sound();
}

/// Pages that are proved against a root, from where a chunk begins on, give together what each snapshot with that root has from there on,
/// or two such strings have one digest.
pub fn pages_are_tails()
    ensures { PagesAreTails }
{
    current_proofs_are_sound();
}

/// What a snapshot has from its first operation on is a copy of it.
pub fn tails_are_copies()
    ensures { TailsAreCopies }
{}

/// An opening that is accepted, pages from where it begins on, and a grafted root that its pins give and its witness has are together a
/// copy of each snapshot with the opening's root: its operations and bits from there on, and the pins of what is before. Or two different
/// strings have one digest, one hashed on the way and one for the root.
pub fn copies_from_pins<D: Digest>()
    ensures { CopiesFromPins D.text }
{
    current_proofs_are_sound();
}

/// A copy with the snapshot's inactivity floor is the snapshot: it has its roots, and serves its proofs.
pub fn copies_are_snapshots()
    ensures { CopiesAreSnapshots }
{}

/// A page of a snapshot with the trusted root, of what is wanted next and within the limits, is refused for want of memory alone.
pub fn honest_pages_are_taken()
    ensures { HonestPagesAreTaken }
{
    own_current_proofs_are_accepted();
    own_current_proofs_are_read_again();
}

/// No more pages are taken, one after another, than operations were left: honest pages, as they are wanted, come to an end.
pub fn taken_pages_end()
    ensures { RunsEnd }
{}

/// What a server answers to what a copy of its snapshot wants, within the copy's limits, is an honest page: it is refused for want of
/// memory alone.
pub fn answers_are_honest()
    ensures { AnswersAreHonest }
{}

/// A copy is whole once as many answers of a server of its snapshot are taken, one after another, as there are steps left of what it
/// wants at most.
pub fn served_copies_are_whole()
    ensures { ServedCopiesAreWhole }
{
    own_current_proofs_are_accepted();
    own_current_proofs_are_read_again();
}

/// The opening that a server answers, its snapshot's own, is accepted against the snapshot's canonical root.
pub fn served_openings_are_accepted()
    ensures { ServedOpeningsAreAccepted }
{
    own_openings_are_accepted();
}

/// Snapshots with one canonical root have as many operations and inactive peaks and one operations root, or two different strings of
/// their calculations have one digest.
pub fn roots_bind_snapshots()
    ensures { RootsBindSnapshots }
{
    witnesses_are_sound();
    own_witnesses_are_accepted();
    roots_bind_their_trees();
}

/// A snapshot with the canonical root of the snapshot of no operations is that one, or two such strings have one digest.
pub fn root_of_nothing()
    ensures { RootOfNothing }
{
    roots_bind_snapshots();
}

/// Snapshots of the same operations and bits with one canonical root have the same proofs and witness, whatever floors they have, or two
/// such strings have one digest.
pub fn floors_prove_alike()
    ensures { FloorsProveAlike }
{
    roots_bind_snapshots();
}

/// What an opening is written as is read again within limits that admit it, whatever follows it.
pub fn openings_are_read_again<F: Graftable, D: Digest>()
    ensures { OpeningsAreReadAgain F D.text F.has_pending D.size }
{}

/// What is read as an opening was written so, byte for byte.
pub fn openings_are_written_so()
    ensures { OpeningsAreWrittenSo }
{}
