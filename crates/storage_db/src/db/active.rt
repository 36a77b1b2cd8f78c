//! The active keys of a database, in order, and the ring that they form, now and at the last commit.

ghost use Rattle.std.specs.Prelude.{◌≡◌, List, [], true, option_map, is_some, slice_get, IfOk, OnErr, OnOk};
ghost use Rattle.std.specs.BTreeMap.{IsOrdered, insert_entry, is_at};
ghost use Rattle.std.specs.BTreeMap.Range.{IsLeBy, IsLtBy, entries_between};
ghost use Rattle.std.specs.Range.Bound.{IsForward, bound_map};
ghost use Rattle.std.specs.Map.{lookup, remove_entry};
ghost use Rattle.storage_db.specs.Notes.{AreAlike, held, settled_to, shown};
ghost use Rattle.storage_db.specs.Orders.{Sorted};
ghost use Rattle.storage_db.specs.Parts.{StayCommitted, StayNoted, committed_of, is_noted, moved};
ghost use Rattle.storage_db.specs.Rings.{around, last_of, next_key, previous};

use crate::db::notes::{Note, take_first, take_last};
use std::alloc::Global;
use std::collections::BTreeMap;
use std::ops::Bound;
use storage_codec::NoMemory;
use storage_ops::qmdb::operation::Key;

/// What an active key has: its value, and the location of its update.
#[derive(Drop)]
pub(crate) struct Active<W> {
    pub(crate) value: W,
    pub(crate) location: u64,
}

/// The active keys in their order, and notes of what the last commit had of those that have changed since. Before the
/// first commit there are no notes.
#[derive(Drop)]
pub(crate) struct ActiveKeys<K: Ord, W> {
    pub(crate) present: BTreeMap<K, Active<W>>,
    pub(crate) notes: BTreeMap<K, Note<W>>,
}

impl<K: Ord, W> ActiveKeys<K, W> {
    /// No keys and no notes. It allocates nothing.
    pub(crate) fn new(alloc: Global) -> Self
        ensures present { result.present.entries ≡ [] }
        ensures notes { result.notes.entries ≡ [] }
    {
        ActiveKeys {
            present: BTreeMap::new(alloc),
            notes: BTreeMap::new(alloc),
        }
    }

    /// Both maps have their keys in order.
    pub(crate) fn are_sorted(&self)
        ensures present { Sorted K.cmp self.now.present.entries }
        ensures notes { Sorted K.cmp self.now.notes.entries }
    {
        let _ = (self.present.len(), self.notes.len());
    }

    /// Returns the value that `key` had at the last commit, and the location of its update; none if it had none.
    pub(crate) fn committed(&self, key: &K) -> Option<(&W, u64)>
        ensures { option_map held result
            ≡ lookup (is_at (K.cmp key.now))
            (committed_of K.cmp self.now) }
    {
        self.are_sorted();
        let now = self.present.get(key);
        match self.notes.get(key) {
            Some(note) => note.recall(now),
            None => lent(now),
        }
    }

    /// Whether `key` had a value at the last commit.
    pub(crate) fn contains_committed(&self, key: &K) -> bool
        ensures { result ≡ is_some (lookup (is_at (K.cmp key.now)) (committed_of K.cmp self.now)) }
    {
        self.committed(key).is_some()
    }

    /// Returns the value that `key` had at the last commit; none if it had none.
    pub(crate) fn committed_value(&self, key: &K) -> Option<&W>
        ensures { option_map (λ v. v.now) result ≡ option_map (λ a. a.value)
            (lookup (is_at (K.cmp key.now)) (committed_of K.cmp self.now)) }
    {
        match self.committed(key) {
            Some((value, _)) => Some(value),
            None => None,
        }
    }

    /// Returns the first entry that the last commit had between the bounds: its key, its value, and the location of its
    /// update; none if there was none.
    fn first_between<'a, 'b>(
        &'a self,
        bounds: (Bound<&'b K>, Bound<&'b K>),
    ) -> Option<(&'a K, &'a W, u64)>
        requires { IsForward (IsLeBy K.cmp) (IsLtBy K.cmp) (bound_map (λ x. x.now) bounds.0)
            (bound_map (λ x. x.now) bounds.1) }
        ensures { (others : List (K × Active W)) × AreAlike K.cmp (entries_between K.cmp
            (bound_map (λ x. x.now) bounds.entry.0) (bound_map (λ x. x.now) bounds.entry.1)
            (committed_of K.cmp self.now)) others × (option_map shown result ≡ slice_get others 0) }
    {
        self.are_sorted();
        take_first(
            &mut self.present.range(bounds),
            &mut self.notes.range(bounds),
        )
    }

    /// Returns the last entry that the last commit had between the bounds: its key, its value, and the location of its
    /// update; none if there was none.
    fn last_between<'a, 'b>(
        &'a self,
        bounds: (Bound<&'b K>, Bound<&'b K>),
    ) -> Option<(&'a K, &'a W, u64)>
        requires { IsForward (IsLeBy K.cmp) (IsLtBy K.cmp) (bound_map (λ x. x.now) bounds.0)
            (bound_map (λ x. x.now) bounds.1) }
        ensures { (others : List (K × Active W)) × AreAlike K.cmp (entries_between K.cmp
            (bound_map (λ x. x.now) bounds.entry.0) (bound_map (λ x. x.now) bounds.entry.1)
            (committed_of K.cmp self.now)) others × (option_map shown result ≡ last_of others) }
    {
        self.are_sorted();
        take_last(
            &mut self.present.range(bounds),
            &mut self.notes.range(bounds),
        )
    }

    /// Returns the entry of the other key that came first after `key` at the last commit, around past the greatest; none
    /// if there was no other.
    fn next_committed(&self, key: &K) -> Option<(&K, &W, u64)>
        ensures { (others : List (K × Active W)) × AreAlike K.cmp
            (around K.cmp (committed_of K.cmp self.now) key.now) others
            × (option_map shown result ≡ slice_get others 0) }
    {
        match self.first_between((Bound::Excluded(key), Bound::Unbounded)) {
            Some(entry) => Some(entry),
            None => self.first_between((Bound::Unbounded, Bound::Excluded(key))),
        }
    }

    /// Returns the entry of the other key that came last before `key` at the last commit, around past the least: its key,
    /// its value, and the location of its update; none if there was no other.
    pub(crate) fn previous_committed(&self, key: &K) -> Option<(&K, &W, u64)>
        ensures { (others : List (K × Active W)) × AreAlike K.cmp
            (around K.cmp (committed_of K.cmp self.now) key.now) others
            × (option_map shown result ≡ last_of others) }
    {
        match self.last_between((Bound::Unbounded, Bound::Excluded(key))) {
            Some(entry) => Some(entry),
            None => self.last_between((Bound::Excluded(key), Bound::Unbounded)),
        }
    }
}

impl<K: Key, W: Drop> ActiveKeys<K, W> {
    /// Returns a copy of the other key that came first after `key` at the last commit, around past the greatest; of
    /// `key` if there was none.
    pub(crate) fn next_committed_or_own(&self, key: &K) -> Result<K, NoMemory>
        ensures { IfOk result (λ next. K.text next ≡ K.text (next_key K.cmp
            (committed_of K.cmp self.now) key.now)) }
    {
        match self.next_committed(key) {
            Some((next, _, _)) => Ok(next.clone()?),
            None => Ok(key.clone()?),
        }
    }

    /// Notes what the last commit had of `key`, if nothing is noted of it yet: what the key has now. The key may change
    /// then.
    pub(crate) fn note(&mut self, key: &K) -> Result<(), NoMemory>
        ensures present { self.new.present ≡ self.old.present }
        ensures noted { OnOk result (is_noted K.cmp self.new key.now ≡ true) }
        ensures others { StayNoted K.cmp self.old self.new }
        ensures committed { committed_of K.cmp self.new ≡ committed_of K.cmp self.old }
    {
        self.are_sorted();
        if self.notes.contains_key(key) {
            return Ok(());
        }
        let note = Note::of(self.present.get(key));
        let copy = key.clone()?;
        if self.notes.insert(copy, note).is_err() {
            return Err(NoMemory);
        }
        Ok(())
    }

    /// Gives `key` a value, and its update a location. Returns the location of the update before; none if the key was
    /// not active. Where the key is noted, what the last commit had of it stays.
    pub(crate) fn insert(
        &mut self,
        key: K,
        value: W,
        location: u64,
    ) -> Result<Option<u64>, NoMemory>
        ensures before { IfOk result (λ before. before ≡ option_map (λ a. a.location)
            (lookup (is_at (K.cmp key)) self.old.present.entries)) }
        ensures present { OnOk result (self.new.present.entries ≡ insert_entry K.cmp
            self.old.present.entries key (record { value = value; location = location })) }
        ensures others { StayNoted K.cmp self.old self.new }
        ensures committed { OnOk result (is_noted K.cmp self.old key ≡ true
            → StayCommitted K.cmp self.old self.new) }
        ensures err { OnErr result (self.new.present.entries ≡ self.old.present.entries) }
        ensures kept { OnErr result (committed_of K.cmp self.new ≡ committed_of K.cmp self.old) }
    {
        self.are_sorted();
        put_both(
            &mut self.present,
            &mut self.notes,
            key,
            Active { value, location },
        )
    }

    /// Takes `key` out. Returns the location of its update; none if it was not active. Where the key is noted, what the
    /// last commit had of it stays.
    pub(crate) fn remove(&mut self, key: &K) -> Option<u64>
        ensures before { result ≡ option_map (λ a. a.location)
            (lookup (is_at (K.cmp key.now)) self.old.present.entries) }
        ensures present { self.new.present.entries
            ≡ remove_entry (is_at (K.cmp key.now)) self.old.present.entries }
        ensures others { StayNoted K.cmp self.old self.new }
        ensures committed { is_noted K.cmp self.old key.now ≡ true
            → StayCommitted K.cmp self.old self.new }
    {
        self.are_sorted();
        let (value, location) = parts(self.present.remove(key));
        settle(&mut self.notes, key, value);
        location
    }

    /// Gives the update of `key` a location, if the key is active. Returns the location before. Where the key is noted,
    /// what the last commit had of it stays.
    pub(crate) fn relocate(&mut self, key: &K, location: u64) -> Option<u64>
        ensures before { result ≡ option_map (λ a. a.location)
            (lookup (is_at (K.cmp key.now)) self.old.present.entries) }
        ensures present { self.new.present.entries
            ≡ moved (is_at (K.cmp key.now)) self.old.present.entries location }
        ensures ordered { IsOrdered K.cmp self.old.present }
        ensures committed { is_noted K.cmp self.old key.now ≡ true
            → StayCommitted K.cmp self.old self.new }
    {
        self.are_sorted();
        relocate(&mut self.present, key, location)
    }

    /// Forgets the notes: the present keys are those of the last commit. It takes no memory.
    pub(crate) fn forget(&mut self)
        ensures present { self.new.present ≡ self.old.present }
        ensures notes { self.new.notes.entries ≡ [] }
    {
        self.notes.clear();
    }
}

/// Returns what an active key has, in two, if there is one.
fn lent<W>(active: Option<&Active<W>>) -> Option<(&W, u64)>
    ensures { option_map held result ≡ option_map (λ a. a.now) active.entry }
{
    match active {
        Some(active) => Some((&active.value, active.location)),
        None => None,
    }
}

/// Gives the update of `key` a location, if the key is active. Returns the location before.
fn relocate<K: Ord, W>(active: &mut BTreeMap<K, Active<W>>, key: &K, location: u64) -> Option<u64>
    ensures before { result ≡ option_map (λ a. a.location)
        (lookup (is_at (K.cmp key.now)) active.old.entries) }
    ensures entries { active.new.entries
        ≡ moved (is_at (K.cmp key.now)) active.old.entries location }
    ensures ordered { IsOrdered K.cmp active.old }
{
    match active.get_mut(key) {
        Some(entry) => {
            let before = entry.location;
            entry.location = location;
            Some(before)
        }
        None => None,
    }
}

/// Gives `key` what is `active`, and settles its note, if it has one. Returns the location before; none if the key was not
/// active.
fn put_both<K: Key, W: Drop>(
    present: &mut BTreeMap<K, Active<W>>,
    notes: &mut BTreeMap<K, Note<W>>,
    key: K,
    active: Active<W>,
) -> Result<Option<u64>, NoMemory>
    ensures before { IfOk result (λ before. before ≡ option_map (λ a. a.location)
        (lookup (is_at (K.cmp key)) present.old.entries)) }
    ensures present { OnOk result
        (present.new.entries ≡ insert_entry K.cmp present.old.entries key active) }
    ensures notes { OnOk result (notes.new.entries ≡ settled_to K.cmp
        (lookup (is_at (K.cmp key)) notes.old.entries) (option_map (λ a. a.value)
        (lookup (is_at (K.cmp key)) present.old.entries)) key notes.old.entries) }
    ensures err { OnErr result (present.new.entries ≡ present.old.entries) }
    ensures kept { OnErr result (notes.new.entries ≡ notes.old.entries) }
{
    let Some(note) = notes.get_mut(&key) else {
        let (_, location) = replace(present, key, active)?;
        return Ok(location);
    };
    let (value, location) = replace(present, key, active)?;
    note.settle(value);
    Ok(location)
}

/// Gives `key` what is `active`. Returns the value and the location before; none if the key was not active.
fn replace<K: Key, W: Drop>(
    present: &mut BTreeMap<K, Active<W>>,
    key: K,
    active: Active<W>,
) -> Result<(Option<W>, Option<u64>), NoMemory>
    ensures value { IfOk result (λ before. before.0 ≡ option_map (λ a. a.value)
        (lookup (is_at (K.cmp key)) present.old.entries)) }
    ensures location { IfOk result (λ before. before.1 ≡ option_map (λ a. a.location)
        (lookup (is_at (K.cmp key)) present.old.entries)) }
    ensures present { OnOk result
        (present.new.entries ≡ insert_entry K.cmp present.old.entries key active) }
    ensures err { OnErr result (present.new.entries ≡ present.old.entries) }
{
    match present.insert(key, active) {
        Ok(before) => Ok(parts(before)),
        Err(_) => Err(NoMemory),
    }
}

/// Settles the note of `key`, if it has one, as the value `before` is no longer its value.
fn settle<K: Ord, W: Drop>(notes: &mut BTreeMap<K, Note<W>>, key: &K, before: Option<W>)
    ensures { notes.new.entries ≡ settled_to K.cmp
        (lookup (is_at (K.cmp key.now)) notes.old.entries) before key.now notes.old.entries }
{
    if let Some(note) = notes.get_mut(key) {
        note.settle(before);
    }
}

/// Returns what an active key has, in two.
fn parts<W>(active: Option<Active<W>>) -> (Option<W>, Option<u64>)
    ensures value { result.0 ≡ option_map (λ a. a.value) active }
    ensures location { result.1 ≡ option_map (λ a. a.location) active }
{
    match active {
        Some(active) => (Some(active.value), Some(active.location)),
        None => (None, None),
    }
}

/// Returns the other active key that comes first after `key`, around past the greatest; none if there is no other.
pub(crate) fn next_key<'a, K: Ord, W>(active: &'a BTreeMap<K, Active<W>>, key: &K) -> Option<&'a K>
    ensures { option_map (λ k. k.now) result
        ≡ option_map (λ c. c.0) (slice_get (around K.cmp active.now.entries key.now) 0) }
{
    let after = active
        .range((Bound::Excluded(key), Bound::Unbounded))
        .next();
    let next = match after {
        Some(entry) => Some(entry),
        None => active
            .range((Bound::Unbounded, Bound::Excluded(key)))
            .next(),
    };
    match next {
        Some((key, _)) => Some(key),
        None => None,
    }
}

/// Returns the other active key that comes last before `key`, around past the least, with what it has; none if there is
/// no other.
pub(crate) fn previous<'a, K: Ord, W>(
    active: &'a BTreeMap<K, Active<W>>,
    key: &K,
) -> Option<(&'a K, &'a Active<W>)>
    ensures value { option_map (λ p. (p.0.now, p.1.now)) result
        ≡ previous K.cmp active.now.entries key.now }
    ensures ordered { IsOrdered K.cmp active.now }
{
    let before = active
        .range((Bound::Unbounded, Bound::Excluded(key)))
        .next_back();
    match before {
        Some(entry) => Some(entry),
        None => active
            .range((Bound::Excluded(key), Bound::Unbounded))
            .next_back(),
    }
}
