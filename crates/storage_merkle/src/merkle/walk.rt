//! Walks along the peaks of a tree, past a range of leaves.
//!
//! A range proof has no digest for what the elements give, and as few as possible for the rest:
//!
//! ```text
//! peaks        p1   p2   p3   p4   p5   p6   p7           p1 and p2 are inactive, p4 holds the range
//! leading      \____/                                     folded from the left: one digest, if they all are before the range
//! apart                  p3                               one digest
//! overlapped                  p4                          from the elements, and the siblings inside
//! past                             \____________/         active, folded from the right: one digest
//! ```
//!
//! `Leading` are the peaks of the first row, `Tops` the items of the second and the last. Checks, plans and stores walk the
//! same way, so they agree on the order of the digests.

ghost use Rattle.std.specs.Prelude.{◌≡◌, ℕ, ◌+◌, ◌-◌, ◌^◌, ◌≤◌, List, take};
ghost use Rattle.std.specs.Iterator.{item_count};
ghost use Rattle.storage_merkle.specs.Shape.{Shape, AreAligned, max_leaves};
ghost use Rattle.storage_merkle.specs.Plans.{ArePeaks};
ghost use Rattle.storage_merkle.specs.RangeProofs.{leading};
ghost use Rattle.storage_merkle.specs.Rests.{AreAfterLeading, AreFolded, peaks_from};
ghost use Rattle.storage_merkle.specs.Trees.{Peak};
ghost use Rattle.storage_merkle.specs.Walked.{Leads, Meets, Met, walked};

use crate::merkle::family::power;
use crate::merkle::hasher::Hasher;
use crate::merkle::plan::{is_apart, peak_count};
use crate::merkle::{Bagging, Family};
use std::marker::{Model, PhantomData};

/// The peaks over `left` leaves from the leaf `first` on, of which `folded` leading ones are folded from the left.
#[derive(Clone, Copy)]
pub(crate) struct Rest {
    /// The leaf that the first of these peaks begins with.
    pub first: u64,
    /// How many leaves they are over.
    pub left: u64,
    /// How many leading ones are folded from the left.
    pub folded: u64,
}

impl Rest {
    /// Returns all peaks of the tree over `leaves` leaves, of which the first `inactive` are inactive, folded in the
    /// hasher's direction.
    pub fn all<F: Family, H: Hasher<F>>(hasher: &H, leaves: u64, inactive: usize) -> Self
        requires { leaves ≤ max_leaves }
        ensures peaks { ArePeaks F.shape leaves result.first result.left }
        ensures first { result.first ≡ 0 }
        ensures left { result.left ≡ leaves }
        ensures folded { AreFolded F.shape (H.bagging hasher.now) inactive leaves result.folded }
    {
        Self::bagged::<F>(hasher.root_bagging(), leaves, inactive)
    }

    /// Returns all peaks of the tree over `leaves` leaves, of which the first `inactive` are inactive, folded in the
    /// direction `bagging`.
    pub fn bagged<F: Family>(bagging: Bagging, leaves: u64, inactive: usize) -> Self
        requires { leaves ≤ max_leaves }
        ensures peaks { ArePeaks F.shape leaves result.first result.left }
        ensures first { result.first ≡ 0 }
        ensures left { result.left ≡ leaves }
        ensures folded { AreFolded F.shape bagging inactive leaves result.folded }
    {
        let folded = match bagging {
            Bagging::ForwardFold => peak_count::<F>(leaves),
            Bagging::BackwardFold => inactive as u64,
        };
        Rest {
            first: 0,
            left: leaves,
            folded,
        }
    }

    /// Returns the peaks after the first one, whose height is `height`.
    pub fn next(self, height: u32) -> Self
        requires small { height ≤ 62 }
        requires within { 2 ^ height ≤ self.left }
        requires fits { self.first + self.left ≤ max_leaves }
        ensures first { result.first ≡ self.first + 2 ^ height }
        ensures left { result.left ≡ self.left - 2 ^ height }
        ensures folded { result.folded ≡ self.folded - 1 }
    {
        let length = power(height);
        Rest {
            first: self.first + length,
            left: self.left - length,
            folded: self.folded.saturating_sub(1),
        }
    }

    /// Returns the peaks after the leading ones that are folded from the left and end at or before `start`.
    pub fn after_leading<F: Family>(self, start: u64) -> Self
        requires few { self.first + self.left ≤ max_leaves }
        requires peaks { ArePeaks F.shape (self.first + self.left) self.first self.left }
        ensures peaks { ArePeaks F.shape (self.first + self.left) result.first result.left }
        ensures after { AreAfterLeading F.shape start self.first self.left self.folded result.first
            result.left result.folded }
    {
        if self.left == 0 || self.folded == 0 {
            return self;
        }
        let height = F::first_peak(self.left);
        if self.first + power(height) > start {
            return self;
        }
        self.next(height).after_leading::<F>(start)
    }
}

/// The peaks that lead, are folded from the left and end at or before a leaf, each as (first leaf, height).
#[derive(Drop)]
pub(crate) struct Leading<F: Family> {
    rest: Rest,
    start: u64,
    family: PhantomData<F>,
}

impl<F: Family> Model for Leading<F> {
    ghost Value = { List Peak };

    ghost view = { λ s. leading s.start (take s.rest.folded
        (peaks_from F.shape s.rest.first s.rest.left)) };

    ghost invariant = { λ s. (s.rest.first + s.rest.left ≤ max_leaves)
        × AreAligned (F.shape.peaks s.rest.left) s.rest.first };
}

impl<F: Family> Leading<F> {
    /// Returns those of `peaks` that end at or before the leaf `start`.
    pub fn of(peaks: Rest, start: u64) -> Self
        requires few { peaks.first + peaks.left ≤ max_leaves }
        requires aligned { AreAligned (F.shape.peaks peaks.left) peaks.first }
        ensures { result
            ≡ leading start (take peaks.folded (peaks_from F.shape peaks.first peaks.left)) }
    {
        Leading {
            rest: peaks,
            start,
            family: PhantomData,
        }
    }
}

impl<F: Family> Iterator for Leading<F> {
    type Item = (u64, u32);

    ghost next_gives = { Leads };

    ghost remaining = { item_count (λ rest. rest) };

    fn next(&mut self) -> Option<(u64, u32)> {
        let rest = self.rest;
        if rest.left == 0 || rest.folded == 0 {
            return None;
        }
        let height = F::first_peak(rest.left);
        if rest.first + power(height) > self.start {
            return None;
        }
        self.rest = rest.next(height);
        Some((rest.first, height))
    }
}

/// What a walk along peaks meets: a peak apart from a range of leaves, or the peaks past it that are folded from the
/// right.
#[derive(Clone, Copy)]
pub(crate) enum Top {
    /// The peak over the leaf `.0`, of height `.1`.
    One(u64, u32),
    /// The peaks from the leaf `.0` on, over `.1` leaves.
    Past(u64, u64),
}

/// The peaks apart from a range of leaves, and at last those past it that are folded from the right, at once.
#[derive(Drop)]
pub(crate) struct Tops<F: Family> {
    rest: Rest,
    start: u64,
    end: u64,
    family: PhantomData<F>,
}

impl<F: Family> Model for Tops<F> {
    ghost Value = { List Met };

    ghost view = { λ s.
        walked s.start s.end (peaks_from F.shape s.rest.first s.rest.left) s.rest.folded };

    ghost invariant = { λ s. (s.rest.first + s.rest.left ≤ max_leaves)
        × AreAligned (F.shape.peaks s.rest.left) s.rest.first };
}

impl<F: Family> Tops<F> {
    /// Returns those of `peaks` apart from the leaves from `start` to before `end`.
    pub fn apart(peaks: Rest, start: u64, end: u64) -> Self
        requires few { peaks.first + peaks.left ≤ max_leaves }
        requires aligned { AreAligned (F.shape.peaks peaks.left) peaks.first }
        ensures { result
            ≡ walked start end (peaks_from F.shape peaks.first peaks.left) peaks.folded }
    {
        Tops {
            rest: peaks,
            start,
            end,
            family: PhantomData,
        }
    }
}

impl<F: Family> Iterator for Tops<F> {
    type Item = Top;

    ghost next_gives = { Meets F.shape };

    ghost remaining = { item_count (λ rest. rest) };

    fn next(&mut self) -> Option<Top> {
        next_top::<F>(&mut self.rest, self.start, self.end)
    }
}

/// Takes from `rest` its peaks up to the first that is apart from the leaves from `start` to before `end`, or all where
/// those past the range are folded from the right; none if no peaks are apart.
fn next_top<F: Family>(rest: &mut Rest, start: u64, end: u64) -> Option<Top>
    requires few { rest.old.first + rest.old.left ≤ max_leaves }
    requires aligned { AreAligned (F.shape.peaks rest.old.left) rest.old.first }
    ensures few { rest.new.first + rest.new.left ≤ max_leaves }
    ensures aligned { AreAligned (F.shape.peaks rest.new.left) rest.new.first }
    ensures steps { Meets F.shape
        (walked start end (peaks_from F.shape rest.old.first rest.old.left) rest.old.folded) result
        (walked start end (peaks_from F.shape rest.new.first rest.new.left) rest.new.folded) }
{
    while rest.left > 0 {
        let first = rest.first;
        if rest.folded > 0 || first < end {
            let height = F::first_peak(rest.left);
            *rest = rest.next(height);
            if is_apart(start, end, first, height) {
                return Some(Top::One(first, height));
            }
        } else {
            let left = rest.left;
            rest.left = 0;
            return Some(Top::Past(first, left));
        }
    }
    None
}
