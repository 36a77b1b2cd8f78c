//! A bitmap whose root is known serves the nodes of its tree: reading never fails.

ghost use Rattle.std.specs.Prelude.{◌≡◌, ℕ, ◌+◌, ◌⊎◌, ◌↔◌, map, Some, Ok, Err, MatchResult};
ghost use Rattle.storage_merkle.specs.Kept.{kept_at};
ghost use Rattle.storage_merkle.specs.Mmr.{mmr};
ghost use Rattle.storage_merkle.specs.Plans.{IsFirstAbsent, IsFirstFault};
ghost use Rattle.storage_merkle.specs.Shape.{size};

use crate::bitmap::authenticated::{BitMap, Merkleized};
use std::alloc::Global;
use storage_codec::digest::Digest;
use storage_merkle::merkle::{Error, Position, Storage, mmr};

impl<D: Digest, const N: usize> Storage<mmr::Family> for BitMap<D, N, Merkleized<D>> {
    type Digest = D;

    ghost nodes = { λ b. size mmr b.tree.leaves };

    ghost node = { λ b p. kept_at mmr b.tree.boundary b.tree.pinned b.tree.nodes p };

    ghost failed = { λ _. 0 };

    ghost may_fail = { λ _ _ _. ⊥ };

    fn size(&self) -> Position<mmr::Family> {
        self.tree.size()
    }

    fn failures(&self) -> u64 {
        0
    }

    fn get_node(&mut self, position: Position<mmr::Family>) -> Result<Option<D>, Error<mmr::Family>>
        ensures answer { MatchResult result (λ d. d
            ≡ kept_at mmr self.old.tree.boundary self.old.tree.pinned self.old.tree.nodes position)
            (λ e. ((code : ℕ) × (e ≡ Error.Source code)) ⊎ (e ≡ Error.Memory)) }
        ensures fault { (code : ℕ) → result ≡ Err (Error.Source code) → ⊥ }
        ensures failure { let none : ℕ = 0 in
            ((code : ℕ) × (result ≡ Err (Error.Source code))) ↔ (none ≡ none + 1) }
        ensures count { let none : ℕ = 0 in (none ≡ none) ⊎ (none ≡ none + 1) }
        ensures same_size { size mmr self.new.tree.leaves ≡ size mmr self.old.tree.leaves }
        ensures same { (p : ℕ)
            → kept_at mmr self.new.tree.boundary self.new.tree.pinned self.new.tree.nodes p
            ≡ kept_at mmr self.old.tree.boundary self.old.tree.pinned self.old.tree.nodes p }
        ensures exact { result ≡ Ok
            (kept_at mmr self.old.tree.boundary self.old.tree.pinned self.old.tree.nodes position) }
        ensures unchanged { self.new ≡ self.old }
    {
        Ok(BitMap::get_node(self, position))
    }

    fn get_nodes(
        &mut self,
        alloc: Global,
        positions: &[Position<mmr::Family>],
    ) -> Result<Vec<D>, Error<mmr::Family>>
        ensures answers { MatchResult result (λ v. map Some v.items ≡ map (kept_at mmr
            self.old.tree.boundary self.old.tree.pinned self.old.tree.nodes) positions.now) (λ e.
            ((p : ℕ) × (e ≡ Error.ElementPruned p) × IsFirstAbsent (λ q a. a ≡ kept_at mmr
            self.old.tree.boundary self.old.tree.pinned self.old.tree.nodes q) positions.now p)
            ⊎ (((code : ℕ) × (e ≡ Error.Source code)) ⊎ (e ≡ Error.Memory))) }
        ensures fault { (code : ℕ) → result ≡ Err (Error.Source code) → IsFirstFault (λ q a. a
            ≡ kept_at mmr self.old.tree.boundary self.old.tree.pinned self.old.tree.nodes q)
            (λ _ _. ⊥) positions.now code }
        ensures failure { let none : ℕ = 0 in
            ((code : ℕ) × (result ≡ Err (Error.Source code))) ↔ (none ≡ none + 1) }
        ensures count { let none : ℕ = 0 in (none ≡ none) ⊎ (none ≡ none + 1) }
        ensures same_size { size mmr self.new.tree.leaves ≡ size mmr self.old.tree.leaves }
        ensures same { (p : ℕ)
            → kept_at mmr self.new.tree.boundary self.new.tree.pinned self.new.tree.nodes p
            ≡ kept_at mmr self.old.tree.boundary self.old.tree.pinned self.old.tree.nodes p }
        ensures unchanged { self.new ≡ self.old }
    {
        self.tree.get_nodes(alloc, positions)
    }
}
