//! The nodes of a tree over leaves: which its peaks are, and at which positions nodes stand. An illustration: a proof's numbers may be
//! any, so sums stay below `2^64` by force.

ghost use Rattle.std.specs.Prelude.{◌<◌};

use crate::agreed::Family;
use std::alloc::{AllocError, Global};

/// A node: the first leaf under it, counted from 0, and its height, which is 0 of a leaf.
#[derive(Clone, Copy)]
pub(super) struct Node {
    /// The first leaf.
    pub first: u64,
    /// The height.
    pub height: u32,
}

impl Node {
    /// Returns how many leaves it is over.
    pub fn width(self) -> u64 {
        power(self.height)
    }

    /// Returns the leaf behind its last one.
    pub fn end(self) -> u64 {
        self.first.saturating_add(self.width())
    }

    /// Returns whether it is over a leaf.
    pub fn covers(self, leaf: u64) -> bool {
        self.first <= leaf && leaf < self.end()
    }

    /// Returns the node of height `height` under it that is over a leaf.
    pub fn at(self, leaf: u64, height: u32) -> Node {
        let offset = leaf.saturating_sub(self.first);
        Node {
            first: self
                .first
                .saturating_add(offset.saturating_sub(offset % power(height))),
            height,
        }
    }

    /// Returns the other child of the parent, which is `parent`.
    pub fn sibling(self, parent: Node) -> Node {
        let first = if self.first == parent.first {
            self.end()
        } else {
            parent.first
        };
        Node { first, ..self }
    }

    /// Returns its position in a tree of the family.
    pub fn position(self, family: Family) -> u64 {
        if self.height == 0 {
            return size_of(family, self.first);
        }
        let half = self.width() / 2;
        match family {
            Family::Mmr => size_of(family, self.first)
                .saturating_add(half.saturating_mul(4))
                .saturating_sub(2),
            Family::Mmb => {
                let leaves = self.first.saturating_add(half.saturating_mul(3));
                size_of(family, leaves.saturating_sub(1)).saturating_sub(1)
            }
        }
    }
}

/// Returns 2 to the power of `exponent`, or the greatest number if that is greater.
fn power(exponent: u32) -> u64
    ensures { 0 < result }
{
    let power = if exponent < 64 {
        1 << exponent
    } else {
        u64::MAX
    };
    power.max(1)
}

/// Returns the peaks of the tree over `leaves` leaves, from the left.
pub(super) fn peaks_of(
    alloc: Global,
    family: Family,
    leaves: u64,
) -> Result<Vec<Node>, AllocError> {
    let mut peaks = Vec::new(alloc);
    let mut first = 0u64;
    for place in (0..64u32).rev() {
        if let Some(height) = height_at(family, leaves, place) {
            let peak = Node { first, height };
            first = peak.end();
            peaks.push(peak)?;
        }
    }
    Ok(peaks)
}

/// Returns the height of the peak that a binary place of the number of leaves has, or none.
fn height_at(family: Family, leaves: u64, place: u32) -> Option<u32> {
    match family {
        Family::Mmr => (leaves / power(place) % 2 == 1).then_some(place),
        Family::Mmb => {
            let digits = leaves.saturating_add(1) / power(place);
            let odd = (digits % 2) as u32;
            (digits > 1).then_some(place.saturating_add(odd))
        }
    }
}

/// Returns how many nodes the tree over `leaves` leaves has.
fn size_of(family: Family, leaves: u64) -> u64 {
    let mut peaks = 0u64;
    for place in 0..64 {
        if height_at(family, leaves, place).is_some() {
            peaks = peaks.saturating_add(1);
        }
    }
    leaves.saturating_mul(2).saturating_sub(peaks)
}
