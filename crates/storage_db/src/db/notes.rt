//! What the last commit had of the keys that have changed since, and its entries in the order of their keys.

ghost use Rattle.std.specs.Prelude.{◌≡◌, ◌<◌, List, length, option_map, MatchOption};
ghost use Rattle.std.specs.Map.Iter.{TakesFirst, TakesLast, deref_pair};
ghost use Rattle.storage_db.specs.Notes.{answered, held, recalled, settled, shown, taken_back};
ghost use Rattle.storage_db.specs.Orders.{Sorted};

use crate::db::active::Active;
use std::cmp::Ordering;
use std::collections::btree_map;

/// What the last commit had of a key that has changed since.
#[derive(Drop)]
pub(crate) enum Note<W> {
    /// No value.
    Absent,
    /// The value that the key has now, by its update at this location.
    Moved(u64),
    /// Another value.
    Replaced(Active<W>),
}

impl<W> Note<W> {
    /// Returns the note of a key that had at the last commit what it has now, `active`.
    pub(crate) fn of(active: Option<&Active<W>>) -> Self
        ensures { recalled (option_map (λ a. a.now) active.entry) result
            ≡ option_map (λ a. a.now) active.entry }
    {
        match active {
            Some(active) => Note::Moved(active.location),
            None => Note::Absent,
        }
    }

    /// Returns the value that the key had, and the location of its update, if the key has `active` now; none if it had
    /// no value.
    pub(crate) fn recall<'a>(&'a self, active: Option<&'a Active<W>>) -> Option<(&'a W, u64)>
        ensures { option_map held result
            ≡ recalled (option_map (λ a. a.now) active.entry) self.now }
    {
        match self {
            Note::Absent => None,
            Note::Moved(location) => match active {
                Some(active) => Some((&active.value, *location)),
                None => None,
            },
            Note::Replaced(active) => Some((&active.value, active.location)),
        }
    }
}

impl<W: Drop> Note<W> {
    /// Takes over the value `before`, which the key had until now, if that is the one of the last commit.
    pub(crate) fn settle(&mut self, before: Option<W>)
        ensures { self.new ≡ settled before self.old }
    {
        if let Note::Moved(location) = self {
            let location = *location;
            *self = match before {
                Some(value) => Note::Replaced(Active { value, location }),
                None => Note::Absent,
            };
        }
    }
}

/// Returns the first entry of `entries`, and leaves it there.
fn first_of<'a, K, X>(entries: &btree_map::Range<'a, K, X>) -> Option<(&'a K, &'a X)>
    ensures { (rest : List (K × X)) × TakesFirst deref_pair entries.now result rest }
{
    let mut ahead = entries.clone().unwrap();
    ahead.next()
}

/// Returns the last entry of `entries`, and leaves it there.
fn last_of<'a, K, X>(entries: &btree_map::Range<'a, K, X>) -> Option<(&'a K, &'a X)>
    ensures { (rest : List (K × X)) × TakesLast deref_pair entries.now result rest }
{
    let mut ahead = entries.clone().unwrap();
    ahead.next_back()
}

/// Goes one step on from the front of `entries` and `notes`. Returns what [`take_first`] does, or none if there was a
/// note of a key that had no value.
fn first_step<'a, K: Ord, W>(
    entries: &mut btree_map::Range<'a, K, Active<W>>,
    notes: &mut btree_map::Range<'a, K, Note<W>>,
) -> Option<Option<(&'a K, &'a W, u64)>>
    requires entries { Sorted K.cmp entries.old }
    requires notes { Sorted K.cmp notes.old }
    ensures step { MatchOption result ((taken_back K.cmp entries.old notes.old
        ≡ taken_back K.cmp entries.new notes.new) × (length notes.new < length notes.old))
        (λ r. TakesFirst shown
        (taken_back K.cmp entries.old notes.old) r (taken_back K.cmp entries.new notes.new)) }
    ensures entries { Sorted K.cmp entries.new }
    ensures notes { Sorted K.cmp notes.new }
{
    let Some((key, note)) = first_of(notes) else {
        return Some(whole(entries.next()));
    };
    let Some((other, active)) = first_of(entries) else {
        notes.next();
        return at_key(key, note.recall(None));
    };
    match other.cmp(key) {
        Ordering::Less => {
            entries.next();
            Some(Some((other, &active.value, active.location)))
        }
        Ordering::Equal => {
            entries.next();
            notes.next();
            at_key(other, note.recall(Some(active)))
        }
        Ordering::Greater => {
            notes.next();
            at_key(key, note.recall(None))
        }
    }
}

/// Goes one step on from the back of `entries` and `notes`. Returns what [`take_last`] does, or none if there was a
/// note of a key that had no value.
fn last_step<'a, K: Ord, W>(
    entries: &mut btree_map::Range<'a, K, Active<W>>,
    notes: &mut btree_map::Range<'a, K, Note<W>>,
) -> Option<Option<(&'a K, &'a W, u64)>>
    requires entries { Sorted K.cmp entries.old }
    requires notes { Sorted K.cmp notes.old }
    ensures step { MatchOption result ((taken_back K.cmp entries.old notes.old
        ≡ taken_back K.cmp entries.new notes.new) × (length notes.new < length notes.old))
        (λ r. TakesLast shown
        (taken_back K.cmp entries.old notes.old) r (taken_back K.cmp entries.new notes.new)) }
    ensures entries { Sorted K.cmp entries.new }
    ensures notes { Sorted K.cmp notes.new }
{
    let Some((key, note)) = last_of(notes) else {
        return Some(whole(entries.next_back()));
    };
    let Some((other, active)) = last_of(entries) else {
        notes.next_back();
        return at_key(key, note.recall(None));
    };
    match other.cmp(key) {
        Ordering::Greater => {
            entries.next_back();
            Some(Some((other, &active.value, active.location)))
        }
        Ordering::Equal => {
            entries.next_back();
            notes.next_back();
            at_key(other, note.recall(Some(active)))
        }
        Ordering::Less => {
            notes.next_back();
            at_key(key, note.recall(None))
        }
    }
}

/// Returns an entry in three: its key, its value, and the location of its update.
fn whole<'a, K, W>(found: Option<(&'a K, &'a Active<W>)>) -> Option<(&'a K, &'a W, u64)>
    ensures { option_map shown result
        ≡ option_map deref_pair found.entry }
{
    match found {
        Some((key, active)) => Some((key, &active.value, active.location)),
        None => None,
    }
}

/// Returns the entry of `key` that has `recalled`, if it has something.
fn at_key<'a, K, W>(
    key: &'a K,
    recalled: Option<(&'a W, u64)>,
) -> Option<Option<(&'a K, &'a W, u64)>>
    ensures { option_map (option_map shown) result
        ≡ answered key.now (option_map held recalled.entry) }
{
    match recalled {
        Some((value, location)) => Some(Some((key, value, location))),
        None => None,
    }
}

/// Takes the first entry that the last commit had of `entries` and `notes`: its key, its value, and the location of its
/// update; none if there is none.
pub(crate) fn take_first<'a, K: Ord, W>(
    entries: &mut btree_map::Range<'a, K, Active<W>>,
    notes: &mut btree_map::Range<'a, K, Note<W>>,
) -> Option<(&'a K, &'a W, u64)>
    requires entries { Sorted K.cmp entries.old }
    requires notes { Sorted K.cmp notes.old }
    ensures next { TakesFirst shown
        (taken_back K.cmp entries.old notes.old) result (taken_back K.cmp entries.new notes.new) }
    ensures entries { Sorted K.cmp entries.new }
    ensures notes { Sorted K.cmp notes.new }
{
    'steps: loop {
        if let Some(answer) = first_step(entries, notes) {
            return answer;
        }
    }
}

/// Takes the last entry that the last commit had of `entries` and `notes`: its key, its value, and the location of its
/// update; none if there is none.
pub(crate) fn take_last<'a, K: Ord, W>(
    entries: &mut btree_map::Range<'a, K, Active<W>>,
    notes: &mut btree_map::Range<'a, K, Note<W>>,
) -> Option<(&'a K, &'a W, u64)>
    requires entries { Sorted K.cmp entries.old }
    requires notes { Sorted K.cmp notes.old }
    ensures next { TakesLast shown
        (taken_back K.cmp entries.old notes.old) result (taken_back K.cmp entries.new notes.new) }
    ensures entries { Sorted K.cmp entries.new }
    ensures notes { Sorted K.cmp notes.new }
{
    'steps: loop {
        if let Some(answer) = last_step(entries, notes) {
            return answer;
        }
    }
}
