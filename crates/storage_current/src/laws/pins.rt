//! Pins: the digests of peaks over the first of a snapshot's chunks.

ghost use Rattle.std.specs.Prelude.{ℕ};
ghost use Rattle.storage_merkle.specs.Shape.{Shape};
ghost use Rattle.storage_current.specs.Pins.{PinsAreBound};
ghost use Rattle.storage_current.specs.Snapshots.{grafting_of};
ghost use Rattle.storage_current.specs.Tails.{PlannedNodesAreLeft};

use storage_merkle::laws::greatest_nodes_are_planned;

/// Where the grafted root that pins and the digests behind them give is a snapshot's, the pins are the digests that the grafted view
/// has of the peaks over its first chunks, or two different strings have one digest, one hashed for that root and one by the snapshot.
pub fn pins_are_bound()
    ensures { PinsAreBound }
{}

/// Of a snapshot whose first chunks are told by pins, each node that is planned of a range behind these is a pin, or stands behind them in
/// the tree over the operations or in the one over chunks. So a tail serves its ranges.
pub fn planned_nodes_behind_pins_are_left()
    ensures { (S : Shape) (bytes : ℕ) → PlannedNodesAreLeft (grafting_of S bytes) }
{
    greatest_nodes_are_planned();
}
