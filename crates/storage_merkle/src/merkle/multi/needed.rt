//! The nodes that a multi proof of some locations needs.

ghost use Rattle.std.specs.Prelude.{◌≡◌, ℕ, ◌+◌, ◌-◌, ◌%◌, ◌^◌, ◌<◌, ◌≤◌, ◌↔◌, ◌++◌, map, IsTrue, IfOk, OnOk};
ghost use Rattle.storage_merkle.specs.Multi.{Ascend, needed_sites, untouched};
ghost use Rattle.storage_merkle.specs.RangeProofs.{position_of, sites_of};
ghost use Rattle.storage_merkle.specs.Shape.{max_leaves};
ghost use Rattle.storage_merkle.specs.Trees.{node_calc, ungrafted};

use crate::merkle::family::power;
use crate::merkle::plan::node_position;
use crate::merkle::{Family, Location, PeakNodes, Position};
use std::alloc::{AllocError, Global};

/// What stands at a leaf: a location, or an element with one.
pub(crate) trait Located {
    /// The number of its location.
    ghost place: { Self → ℕ };

    /// Returns the number of its location.
    fn location(&self) -> u64
        ensures { result ≡ place self.now };
}

impl<F: Family> Located for Location<F> {
    ghost place = { λ l. l };

    fn location(&self) -> u64 {
        self.as_u64()
    }
}

impl<E, F: Family> Located for (E, Location<F>) {
    ghost place = { λ c. c.1 };

    fn location(&self) -> u64 {
        self.1.as_u64()
    }
}

/// Returns whether the locations of `items` ascend, each once, and are all below `leaves`.
pub(crate) fn ascend<L: Located>(items: &[L], leaves: u64) -> bool
    ensures { IsTrue result ↔ Ascend 0 leaves (map L.place items.now) }
{
    let mut first = 0;
    for item in items {
        let location = item.location();
        if location < first || location >= leaves {
            return false;
        }
        first = location + 1;
    }
    true
}

/// Returns the `items`, whose locations ascend, cut in two: those below the location `middle`, and the others.
pub(crate) fn split<L: Located>(items: &[L], middle: u64) -> (&[L], &[L])
    ensures whole { items.now ≡ result.0.now ++ result.1.now }
    ensures parts { (first end : ℕ) → Ascend first end (map L.place items.now)
        → middle ≤ end
        → Ascend first middle (map L.place result.0.now)
        × Ascend middle end (map L.place result.1.now) }
{
    items.split_at(items.partition_point(|item| item.location() < middle))
}

/// Returns the positions of the greatest nodes of the tree over `leaves` leaves that hold none of the locations of
/// `items`, which ascend; in ascending order.
pub(crate) fn needed<F: Family, L: Located>(
    alloc: Global,
    leaves: u64,
    items: &[L],
) -> Result<Vec<Position<F>>, AllocError>
    requires few { leaves ≤ max_leaves }
    requires rising { Ascend 0 leaves (map L.place items.now) }
    ensures { IfOk result (λ v. v.items ≡ map (position_of (ungrafted F.shape))
        (needed_sites (ungrafted F.shape) (map L.place items.now) leaves)) }
{
    let mut positions = Vec::new(alloc);
    let mut rest = items;
    for (first, height) in PeakNodes::<F>::over(leaves) {
        let (here, later) = split(rest, first + power(height));
        add_under(first, height, here, &mut positions)?;
        rest = later;
    }
    positions.sort_unstable();
    Ok(positions)
}

/// Adds to `positions` those of the greatest nodes that hold no location of `items`, at or under the node of height
/// `height` over the leaf `first`.
fn add_under<F: Family, L: Located>(
    first: u64,
    height: u32,
    items: &[L],
    positions: &mut Vec<Position<F>>,
) -> Result<(), AllocError>
    requires aligned { first % 2 ^ height ≡ 0 }
    requires small { height ≤ 62 }
    requires within { first + 2 ^ height ≤ max_leaves }
    requires rising { Ascend first (first + 2 ^ height) (map L.place items.now) }
    ensures { OnOk result (positions.new.items
        ≡ positions.old.items ++ map (position_of (ungrafted F.shape)) (sites_of
        (node_calc (ungrafted F.shape) (untouched (map L.place items.now)) height first))) }
{
    if items.is_empty() {
        positions.push(node_position(first, height))?;
        return Ok(());
    }
    if height == 0 {
        return Ok(());
    }
    let middle = first + power(height - 1);
    let (before, after) = split(items, middle);
    add_under(first, height - 1, before, positions)?;
    add_under(middle, height - 1, after, positions)
}
