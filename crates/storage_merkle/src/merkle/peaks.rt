//! The peaks of a tree, one after another.

ghost use Rattle.std.specs.Prelude.{◌≡◌, ℕ, ◌+◌, ◌-◌, ◌*◌, ◌%◌, ◌<◌, ◌≤◌, ◌∷◌, List, length, map, slice_index, IfOk, IfErr};
ghost use Rattle.std.specs.Iterator.{YieldsFirst, item_count};
ghost use Rattle.storage_merkle.specs.Kept.{pins};
ghost use Rattle.storage_merkle.specs.Shape.{Shape, AreAligned, max_leaves};
ghost use Rattle.storage_merkle.specs.Nodes.{placed};
ghost use Rattle.storage_merkle.specs.Rests.{peaks_from};
ghost use Rattle.storage_merkle.specs.Trees.{Peak};
ghost use Rattle.storage_merkle.specs.Walked.{Leads};

use crate::merkle::family::power;
use crate::merkle::plan::node_position;
use crate::merkle::{Family, Location, Position};
use std::iter::FusedIterator;
use std::marker::{Model, PhantomData};

/// The peaks of a tree from some leaf on, each as (first leaf, height). It ends, and allocates nothing.
#[derive(Drop)]
pub struct PeakNodes<F: Family> {
    first: u64,
    left: u64,
    family: PhantomData<F>,
}

impl<F: Family> Model for PeakNodes<F> {
    ghost Value = { List Peak };

    ghost view = { λ s. peaks_from F.shape s.first s.left };

    ghost invariant = { λ s.
        (s.first + s.left ≤ max_leaves) × AreAligned (F.shape.peaks s.left) s.first };
}

impl<F: Family> PeakNodes<F> {
    /// Returns the peaks of the tree over `leaves` leaves, of at most
    /// [`MAX_LEAVES`](crate::merkle::MAX_LEAVES).
    pub fn over(leaves: u64) -> Self
        requires { leaves ≤ max_leaves }
        ensures { result ≡ peaks_from F.shape 0 leaves }
    {
        PeakNodes {
            first: 0,
            left: leaves,
            family: PhantomData,
        }
    }
}

impl<F: Family> Iterator for PeakNodes<F> {
    type Item = (u64, u32);

    ghost next_gives = { Leads };

    ghost remaining = { item_count (λ rest. rest) };

    fn next(&mut self) -> Option<(u64, u32)> {
        if self.left == 0 {
            return None;
        }
        let first = self.first;
        let height = F::first_peak(self.left);
        let length = power(height);
        self.first = first + length;
        self.left -= length;
        Some((first, height))
    }
}

impl<F: Family> FusedIterator for PeakNodes<F> {}

/// The peaks of a tree from some leaf on, each as (position, height). It ends, and allocates nothing.
#[derive(Drop)]
pub struct Peaks<F: Family> {
    nodes: PeakNodes<F>,
}

impl<F: Family> Model for Peaks<F> {
    ghost Value = { List (ℕ × ℕ) };

    ghost view = { λ s. map (λ p. (F.shape.position p.first p.height, p.height)) s.nodes };
}

impl<F: Family> Peaks<F> {
    /// Returns the peaks of the tree over `leaves` leaves.
    pub(crate) fn over(leaves: u64) -> Self
        requires { leaves ≤ max_leaves }
        ensures { result ≡ placed F.shape 0 (F.shape.peaks leaves) }
    {
        Peaks {
            nodes: PeakNodes::over(leaves),
        }
    }
}

impl<F: Family> Iterator for Peaks<F> {
    type Item = (Position<F>, u32);

    ghost next_gives = { YieldsFirst (λ rest. rest) };

    ghost remaining = { item_count (λ rest. rest) };

    fn next(&mut self) -> Option<(Position<F>, u32)> {
        let (first, height) = self.nodes.next()?;
        Some((node_position(first, height), height))
    }
}

impl<F: Family> FusedIterator for Peaks<F> {}

/// The positions of the peaks of a tree from some leaf on: the nodes that are kept when the leaves below are pruned. It
/// ends, and allocates nothing.
#[derive(Drop)]
pub struct NodesToPin<F: Family> {
    peaks: Peaks<F>,
}

impl<F: Family> Model for NodesToPin<F> {
    ghost Value = { List ℕ };

    ghost view = { λ s. map (λ p. p.0) s.peaks };
}

impl<F: Family> NodesToPin<F> {
    /// Returns the positions of `peaks`.
    pub(crate) fn of(peaks: Peaks<F>) -> Self
        ensures { result ≡ map (λ p. p.0) peaks }
    {
        NodesToPin { peaks }
    }
}

impl<F: Family> Iterator for NodesToPin<F> {
    type Item = Position<F>;

    ghost next_gives = { YieldsFirst (λ rest. rest) };

    ghost remaining = { item_count (λ rest. rest) };

    fn next(&mut self) -> Option<Position<F>> {
        let (position, _) = self.peaks.next()?;
        Some(position)
    }
}

impl<F: Family> FusedIterator for NodesToPin<F> {}

/// Returns how many nodes are kept when the leaves below `boundary` are pruned, which is a valid location. If they are
/// more than `given`, it returns the position of the one after the first `given` as the error. It allocates nothing.
pub fn count_pins<F: Family>(boundary: Location<F>, given: usize) -> Result<usize, Position<F>>
    requires { boundary ≤ max_leaves }
    ensures count { IfOk result (λ n. (n ≡ length (F.shape.peaks boundary)) × (n ≤ given)) }
    ensures missing { IfErr result (λ p. (given < length (F.shape.peaks boundary))
        × (p ≡ slice_index (pins F.shape boundary) given)) }
{
    let mut count = 0;
    for position in F::nodes_to_pin(boundary) {
        if count == given {
            return Err(position);
        }
        count += 1;
    }
    Ok(count)
}
