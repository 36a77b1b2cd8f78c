//! What serves the nodes of a tree.

ghost use Rattle.std.specs.Prelude.{◌≡◌, ℕ, ◌+◌, ◌<◌, ◌^◌, ◌⊎◌, ◌↔◌, map, Option, IfOk, Some, Err, MatchResult};
ghost use Rattle.storage_merkle.specs.Plans.{IsFirstAbsent, IsFirstFault};

use crate::merkle::{Error, Family, Position};
use std::alloc::Global;
use storage_codec::digest::Digest;

/// What serves the nodes of a tree from memory, without failing.
pub trait Readable {
    /// The family of the tree.
    type Family: Family;
    /// The digests of its nodes.
    type Digest: Digest;

    /// The digest at each position; none if there is none.
    ghost node: { Self → ℕ → Option Self.Digest };

    /// Returns the digest of the node at `position`; none if it has none. Allocates nothing.
    fn get_node(&self, position: Position<Self::Family>) -> Option<Self::Digest>
        ensures { result ≡ node self.now position };
}

/// What serves the nodes of a tree and may fail at it, as a disk does.
pub trait Storage<F: Family> {
    /// The digests of the nodes.
    type Digest: Digest;

    /// The number of nodes of the tree.
    ghost nodes: { Self → ℕ };

    /// The digest at each position; none if there is none.
    ghost node: { Self → ℕ → Option Self.Digest };

    /// How often it has failed.
    ghost failed: { Self → ℕ };

    /// Whether a read at each position may fail, with each code.
    ghost may_fail: { Self → ℕ → ℕ → Type 0 };

    /// Returns how many nodes the tree has, as the position past the last.
    fn size(&self) -> Position<F>
        ensures { result ≡ nodes self.now };

    /// Returns how often a read has failed.
    fn failures(&self) -> u64
        ensures { result ≡ failed self.now };

    /// Returns the digest of the node at `position`; none if it has none.
    ///
    /// # Errors
    ///
    /// `Source` if the store failed, exactly if its count of failures grew, by one; `Memory`.
    fn get_node(&mut self, position: Position<F>) -> Result<Option<Self::Digest>, Error<F>>
        requires { failed self.old + 1 < 2 ^ 64 }
        ensures answer { MatchResult result (λ d. d ≡ node self.old position) (λ e.
            ((code : ℕ) × (e ≡ Error.Source code)) ⊎ (e ≡ Error.Memory)) }
        ensures fault { (code : ℕ) → result ≡ Err (Error.Source code)
            → may_fail self.old position code }
        ensures failure { ((code : ℕ) × (result ≡ Err (Error.Source code)))
            ↔ (failed self.new ≡ failed self.old + 1) }
        ensures count { (failed self.new ≡ failed self.old)
            ⊎ (failed self.new ≡ failed self.old + 1) }
        ensures same_size { nodes self.new ≡ nodes self.old }
        ensures same { (p : ℕ) → node self.new p ≡ node self.old p };

    /// Returns the digests of the nodes at `positions`, in their order.
    ///
    /// # Errors
    ///
    /// Of the first of `positions` if it has no digest or fails: `ElementPruned` of it if it has none, `Source` if it
    /// failed, exactly if its count of failures grew, by one; so none of both for no positions. `Memory`.
    fn get_nodes(
        &mut self,
        alloc: Global,
        positions: &[Position<F>],
    ) -> Result<Vec<Self::Digest>, Error<F>>
        requires { failed self.old + 1 < 2 ^ 64 }
        ensures answers { MatchResult result (λ v. map Some v.items
            ≡ map (node self.old) positions.now) (λ e. ((p : ℕ) × (e ≡ Error.ElementPruned p)
            × IsFirstAbsent (λ q a. a ≡ node self.old q) positions.now p)
            ⊎ (((code : ℕ) × (e ≡ Error.Source code)) ⊎ (e ≡ Error.Memory))) }
        ensures fault { (code : ℕ) → result ≡ Err (Error.Source code)
            → IsFirstFault (λ q a. a ≡ node self.old q) (may_fail self.old) positions.now code }
        ensures failure { ((code : ℕ) × (result ≡ Err (Error.Source code)))
            ↔ (failed self.new ≡ failed self.old + 1) }
        ensures count { (failed self.new ≡ failed self.old)
            ⊎ (failed self.new ≡ failed self.old + 1) }
        ensures same_size { nodes self.new ≡ nodes self.old }
        ensures same { (p : ℕ) → node self.new p ≡ node self.old p };
}
