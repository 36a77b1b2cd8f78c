//! Entries of a database in the order of their keys.

ghost use Rattle.std.specs.Prelude.{◌≡◌, List};
ghost use Rattle.std.specs.Iterator.{YieldsFirstBy, YieldsLastBy, item_count};
ghost use Rattle.std.specs.BTreeMap.Range.{IsLeBy, IsLtBy, entries_between, range_contains};
ghost use Rattle.std.specs.Range.Bound.{IsForward, bound_map};
ghost use Rattle.storage_db.specs.Notes.{AreAlike};
ghost use Rattle.storage_db.specs.Parts.{committed_of};
ghost use Rattle.storage_db.specs.Ranges.{pairs_of};

use crate::db::active::{Active, ActiveKeys};
use crate::db::notes::{Note, take_first, take_last};
use std::cmp::Ordering;
use std::collections::{BTreeMap, btree_map};
use std::iter::DoubleEndedIterator;
use std::marker::Model;
use std::ops::{Bound, RangeBounds};

/// Keys and their values, in the order of the keys, as [`Ordered::range`](crate::db::Ordered::range) and
/// [`Ordered::range_committed`](crate::db::Ordered::range_committed) answer them. Each step allocates nothing.
#[derive(Drop)]
pub struct Range<'a, K: Ord, W> {
    entries: btree_map::Range<'a, K, Active<W>>,
    /// What the last commit had of the keys that have changed since; none for the keys of now.
    notes: Option<btree_map::Range<'a, K, Note<W>>>,
}

impl<'a, K: Ord, W> Model for Range<'a, K, W> {
    ghost use Rattle.std.specs.Prelude.{List};
    ghost use Rattle.storage_db.specs.Ranges.{AreInOrder, pairs_in};

    ghost Value = { List (K × W) };

    ghost view = { λ s. pairs_in K.cmp s.entries s.notes };

    ghost invariant = { λ s. AreInOrder K.cmp s.entries s.notes };
}

impl<'a, K: Ord, W> Iterator for Range<'a, K, W> {
    type Item = (&'a K, &'a W);

    ghost next_gives = { YieldsFirstBy (λ p. (p.0.now, p.1.now)) (λ s. s) };

    ghost remaining = { item_count (λ s. s) };

    fn next(&mut self) -> Option<(&'a K, &'a W)> {
        match &mut self.notes {
            Some(notes) => match take_first(&mut self.entries, notes) {
                Some((key, value, _)) => Some((key, value)),
                None => None,
            },
            None => match self.entries.next() {
                Some((key, entry)) => Some((key, &entry.value)),
                None => None,
            },
        }
    }
}

impl<'a, K: Ord, W> DoubleEndedIterator for Range<'a, K, W> {
    ghost next_back_gives = { YieldsLastBy (λ p. (p.0.now, p.1.now)) (λ s. s) };

    fn next_back(&mut self) -> Option<(&'a K, &'a W)> {
        match &mut self.notes {
            Some(notes) => match take_last(&mut self.entries, notes) {
                Some((key, value, _)) => Some((key, value)),
                None => None,
            },
            None => match self.entries.next_back() {
                Some((key, entry)) => Some((key, &entry.value)),
                None => None,
            },
        }
    }
}

/// Returns the entries of `active` whose keys `range` holds.
pub(crate) fn entries_of<K: Ord, W, R: RangeBounds<K> + Drop>(
    active: &BTreeMap<K, Active<W>>,
    range: R,
) -> Range<'_, K, W>
    requires { R.is_forward range (IsLeBy K.cmp) (IsLtBy K.cmp) }
    ensures { R.has_bounds range → result
        ≡ pairs_of (entries_between K.cmp (R.start_bound range) (R.end_bound range) active.now.entries) }
{
    Range {
        entries: active.range(range),
        notes: None,
    }
}

/// Returns the entries that the last commit had whose keys `range` holds.
pub(crate) fn committed_entries_of<K: Ord, W, R: RangeBounds<K> + Drop>(
    active: &ActiveKeys<K, W>,
    range: R,
) -> Range<'_, K, W>
    ensures { R.has_bounds range → (others : List (K × Active W))
        × AreAlike K.cmp (entries_between K.cmp (R.start_bound range) (R.end_bound range)
        (committed_of K.cmp active.now)) others × (result ≡ pairs_of others) }
{
    active.are_sorted();
    let start = range.start_bound();
    let bounds = (start, forward_end(start, range.end_bound()));
    Range {
        entries: active.present.range(bounds),
        notes: Some(active.notes.range(bounds)),
    }
}

/// Returns `end`, or if no key lies between `start` and it, an end that is not before `start`.
fn forward_end<'a, K: Ord>(start: Bound<&'a K>, end: Bound<&'a K>) -> Bound<&'a K>
    ensures forward { IsForward (IsLeBy K.cmp) (IsLtBy K.cmp) (bound_map (λ x. x.now) start.entry)
        (bound_map (λ x. x.now) result) }
    ensures same { (key : K) → range_contains K.cmp (bound_map (λ x. x.now) start.entry)
        (bound_map (λ x. x.now) result) key ≡ range_contains K.cmp (bound_map (λ x. x.now) start.entry)
        (bound_map (λ x. x.now) end.entry) key }
{
    match start {
        Bound::Unbounded => end,
        Bound::Included(first) => match end {
            Bound::Unbounded => end,
            Bound::Included(last) | Bound::Excluded(last) => {
                if first.cmp(last) == Ordering::Greater {
                    Bound::Excluded(first)
                } else {
                    end
                }
            }
        },
        Bound::Excluded(first) => match end {
            Bound::Unbounded => end,
            Bound::Included(last) => {
                if first.cmp(last) == Ordering::Greater {
                    Bound::Included(first)
                } else {
                    end
                }
            }
            Bound::Excluded(last) => {
                if first.cmp(last) == Ordering::Less {
                    end
                } else {
                    Bound::Included(first)
                }
            }
        },
    }
}
