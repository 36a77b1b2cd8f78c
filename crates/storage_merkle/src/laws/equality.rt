//! Which proofs, locations and positions are equal.

ghost use Rattle.std.specs.Prelude.{◌==◌, ◌&&◌};
ghost use Rattle.std.specs.Cmp.Lexicographic.{pointwise};
ghost use Rattle.storage_merkle.specs.Equality.{AnswersAs, EqualAsSeen, EqualToItself};
ghost use Rattle.storage_merkle.specs.Held.{proof_of};

use crate::merkle::{Location, Position, Proof};
use storage_codec::digest::Digest;

/// Proofs are equal exactly where their leaves, their inactive peaks and their digests are, so exactly where they are the
/// same proof by the bytes of the digests.
pub fn equal_proofs<F, D: Digest>()
    ensures parts { AnswersAs ⟦<Proof<F, D> as PartialEq>⟧.eq (λ x y. x.leaves == y.leaves
        && x.inactive_peaks == y.inactive_peaks
        && pointwise D.PartialEq.eq x.digests.items y.digests.items) }
    ensures seen { EqualAsSeen ⟦<Proof<F, D> as PartialEq>⟧.eq (proof_of D.text) }
{}

/// Locations are equal exactly where their numbers are, and so are positions, whatever the family.
pub fn equal_locations_and_positions<F>()
    ensures locations { EqualToItself ⟦<Location<F> as PartialEq>⟧.eq }
    ensures positions { EqualToItself ⟦<Position<F> as PartialEq>⟧.eq }
{}
