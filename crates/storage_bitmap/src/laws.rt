//! What holds of every list of bits and every check of a bit: laws over the definitions, each the contract of a function that
//! does nothing.

ghost use Rattle.storage_bitmap.specs.BitProofs.{BitProofsAreSound, OwnBitProofsAreAccepted};
ghost use Rattle.storage_bitmap.specs.StandsForBits.{EqualBitsHaveEqualRoots};

use storage_merkle::laws::{own_range_proofs_are_accepted, range_proofs_are_sound};

/// A bit proof that is accepted against the root of a list of bits is the list's own proof, field for field, of a bit that it
/// has, and its chunk is the list's, or two different strings have one digest, one hashed by the check and one for the root.
pub fn bit_proofs_are_sound()
    ensures { BitProofsAreSound }
{
    range_proofs_are_sound();
}

/// A list's own proof of a bit is accepted against the root of the list.
pub fn own_bit_proofs_are_accepted()
    ensures { OwnBitProofsAreAccepted }
{
    own_range_proofs_are_accepted();
}

/// Two bitmaps that stand for the same bits under one digest function and bagging have the same root, whatever is pruned of
/// either: pruning a bitmap and restoring one keep the root.
pub fn equal_bits_have_equal_roots<D, M>()
    ensures { EqualBitsHaveEqualRoots D M }
{}
