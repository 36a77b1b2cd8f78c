//! A tree in memory serves its nodes: reading never fails.

ghost use Rattle.std.specs.Prelude.{◌≡◌, ℕ, ◌≤◌, ◌⊎◌, length, map, Some, Ok, IfOk, IfErr};
ghost use Rattle.std.specs.List.{AllZip};
ghost use Rattle.storage_merkle.specs.Kept.{kept_at};
ghost use Rattle.storage_merkle.specs.Plans.{IsFirstAbsent};
ghost use Rattle.storage_merkle.specs.Shape.{size, max_leaves};

use crate::merkle::mem::Mem;
use crate::merkle::mem::nodes::look_up;
use crate::merkle::{Error, Family, Position, Readable, Storage};
use std::alloc::Global;
use storage_codec::digest::Digest;

impl<F: Family, D: Digest> Readable for Mem<F, D> {
    type Family = F;

    type Digest = D;

    ghost node = { λ m p. kept_at F.shape m.boundary m.pinned m.nodes p };

    fn get_node(&self, position: Position<F>) -> Option<D>
        ensures { result
            ≡ kept_at F.shape self.now.boundary self.now.pinned self.now.nodes position }
    {
        look_up::<F, D>(self.boundary, &self.pinned, &self.nodes, position.as_u64())
    }
}

impl<F: Family, D: Digest> Storage<F> for Mem<F, D> {
    type Digest = D;

    ghost nodes = { λ m. size F.shape m.leaves };

    ghost node = { λ m p. kept_at F.shape m.boundary m.pinned m.nodes p };

    ghost failed = { λ _. 0 };

    ghost may_fail = { λ _ _ _. ⊥ };

    fn size(&self) -> Position<F> {
        Position::new(F::nodes_over(self.leaves))
    }

    fn failures(&self) -> u64 {
        0
    }

    fn get_node(&mut self, position: Position<F>) -> Result<Option<D>, Error<F>>
        ensures answer { result
            ≡ Ok (kept_at F.shape self.old.boundary self.old.pinned self.old.nodes position) }
        ensures same { self.new ≡ self.old }
    {
        Ok(look_up::<F, D>(self.boundary, &self.pinned, &self.nodes, position.as_u64()))
    }

    fn get_nodes(&mut self, alloc: Global, positions: &[Position<F>]) -> Result<Vec<D>, Error<F>>
        ensures answers { IfOk result (λ v. map Some v.items ≡ map
            (kept_at F.shape self.old.boundary self.old.pinned self.old.nodes) positions.now) }
        ensures why { IfErr result (λ e. ((p : ℕ) × (e ≡ Error.ElementPruned p) × IsFirstAbsent
            (λ q a. a ≡ kept_at F.shape self.old.boundary self.old.pinned self.old.nodes q)
            positions.now p) ⊎ (e ≡ Error.Memory)) }
        ensures same { self.new ≡ self.old }
    {
        look_up_all::<F, D>(alloc, self.boundary, &self.pinned, &self.nodes, positions)
    }
}

/// Returns the digests at `positions`, in their order, as [`look_up`] finds them.
///
/// # Errors
///
/// `ElementPruned` of the first of `positions` whose digest is not kept; `Memory`.
fn look_up_all<F: Family, D: Digest>(
    alloc: Global,
    boundary: u64,
    pinned: &[D],
    nodes: &[D],
    positions: &[Position<F>],
) -> Result<Vec<D>, Error<F>>
    requires few { boundary ≤ max_leaves }
    requires pins { length pinned.now ≡ length (F.shape.peaks boundary) }
    ensures served { IfOk result (λ v. AllZip
        (λ p d. Some d ≡ kept_at F.shape boundary pinned.now nodes.now p) positions.now v.items) }
    ensures why { IfErr result (λ e. ((p : ℕ) × (e ≡ Error.ElementPruned p) × IsFirstAbsent
        (λ q a. a ≡ kept_at F.shape boundary pinned.now nodes.now q) positions.now p)
        ⊎ (e ≡ Error.Memory)) }
{
    let mut digests = Vec::with_capacity(alloc, positions.len())?;
    for position in positions {
        let Some(digest) = look_up::<F, D>(boundary, pinned, nodes, position.as_u64()) else {
            return Err(Error::ElementPruned(*position));
        };
        digests.push(digest)?;
    }
    Ok(digests)
}
