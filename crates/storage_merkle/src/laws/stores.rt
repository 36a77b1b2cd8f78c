//! Proof stores: what is kept of an accepted range proof.

ghost use Rattle.storage_merkle.specs.Stores.{StoresGiveOwnMultiProofs, StoresGiveOwnProofs, StoresOfAcceptedProofsAreTrue, StoresOfOwnProofsGiveAccepted};

use crate::merkle::Family;

/// The range proof that a store of a tree gives is the tree's own.
pub fn stores_give_own_proofs<F: Family>()
    ensures { StoresGiveOwnProofs F }
{}

/// The multi proof that a store of a tree gives, with peaks that are the tree's where it keeps none, is the tree's own.
pub fn stores_give_own_multi_proofs<F: Family>()
    ensures { StoresGiveOwnMultiProofs F }
{}

/// A store made from a proof that is accepted against a tree's root is one of that tree, or two different strings have one
/// digest, one hashed by the check and one by the tree.
pub fn stores_of_accepted_proofs_are_true()
    ensures { StoresOfAcceptedProofsAreTrue }
{}

/// A store made from a tree's own proof is one of that tree: the range proofs that it gives are the tree's own, and these and
/// the multi proofs that it gives, with peaks that are the tree's, are accepted against the tree's root for what stands in the
/// tree.
pub fn stores_of_own_proofs_give_accepted<F: Family>()
    ensures { StoresOfOwnProofsGiveAccepted F }
{}
