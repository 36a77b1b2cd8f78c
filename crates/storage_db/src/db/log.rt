//! Operations as they are written, each with its activity bit.

ghost use Rattle.std.specs.Prelude.{◌≡◌, ℕ, ◌+◌, ◌-◌, ◌<◌, ◌≤◌, Bool, List, [], ◌∷◌, ◌++◌, drop, length, map, slice_set, take, false, IfOk, IfErr, IsTrue, OnOk, ◌↔◌, vec_len, vec_capacity};
ghost use Rattle.storage_merkle.specs.Shape.{max_leaves};
ghost use Rattle.storage_db.specs.Floors.{IsFirstMarked, IsMarked};
ghost use Rattle.storage_db.specs.Kept.{forgetting};
ghost use Rattle.storage_db.specs.Logs.{AreCommitted, HaveRoom, IsTooMany, cleared_at};

use crate::db::Error;
use std::alloc::Global;
use storage_codec::NoMemory;
use storage_merkle::merkle::{Family, Location, MAX_LEAVES};

/// What operations are written as, and of each whether it is active.
#[derive(Drop)]
pub(crate) struct Log {
    pub(crate) operations: Vec<Vec<u8>>,
    pub(crate) bits: Vec<bool>,
    /// How many operations there were at the last commit, itself among them.
    pub(crate) committed: u64,
    /// Those of them whose bits have been cleared since.
    pub(crate) cleared: Vec<u64>,

    /// Each operation has a bit.
    pub(crate) ghost each: { vec_len bits ≡ vec_len operations },

    /// There are no more of them than a tree may have.
    pub(crate) ghost few: { vec_len operations ≤ max_leaves },

    /// Those of the last commit are among them.
    pub(crate) ghost within: { committed ≤ vec_len operations },
}

impl Log {
    /// No operations. It allocates nothing.
    pub(crate) fn new(alloc: Global) -> Self
        ensures operations { result.operations.items ≡ [] }
        ensures bits { result.bits.items ≡ [] }
        ensures cleared { result.cleared.items ≡ [] }
    {
        Log {
            operations: Vec::new(alloc),
            bits: Vec::new(alloc),
            committed: 0,
            cleared: Vec::new(alloc),
        }
    }

    /// Returns how many operations there are: the location of the next one.
    pub(crate) fn len(&self) -> u64
        ensures count { result ≡ length self.now.operations.items }
        ensures few { result ≤ max_leaves }
        ensures each { length self.now.bits.items ≡ result }
    {
        self.operations.len() as u64
    }

    /// Makes room for `count` operations more.
    ///
    /// # Errors
    ///
    /// The first of: `Full` if there would be more than 2^62 operations; `Memory`.
    pub(crate) fn make_room<F>(&mut self, count: usize) -> Result<(), Error<F>>
        ensures operations { self.new.operations.items ≡ self.old.operations.items }
        ensures bits { self.new.bits.items ≡ self.old.bits.items }
        ensures committed { self.new.committed ≡ self.old.committed }
        ensures cleared { self.new.cleared.items ≡ self.old.cleared.items }
        ensures room { OnOk result (HaveRoom count (vec_len self.new.operations)
            (vec_capacity self.new.operations) (vec_capacity self.new.bits)) }
        ensures clear_room { OnOk result
            (vec_len self.new.cleared + count ≤ vec_capacity self.new.cleared) }
        ensures few { OnOk result (length self.old.operations.items + count ≤ max_leaves) }
        ensures why { IfErr result (IsTooMany (length self.old.operations.items)
            (length self.old.operations.items + count)) }
    {
        if MAX_LEAVES - self.len() < count as u64 {
            return Err(Error::Full(Location::new(self.len())));
        }
        if self.operations.reserve(count).is_err()
            || self.bits.reserve(count).is_err()
            || self.cleared.reserve(count).is_err()
        {
            return Err(Error::Memory);
        }
        Ok(())
    }

    /// Appends `operation`, for which there is room, with the activity bit `bit`.
    pub(crate) fn append(&mut self, operation: Vec<u8>, bit: bool)
        requires room { HaveRoom 1 (vec_len self.old.operations)
            (vec_capacity self.old.operations) (vec_capacity self.old.bits) }
        requires few { vec_len self.old.operations < max_leaves }
        ensures operations { self.new.operations.items
            ≡ self.old.operations.items ++ operation ∷ [] }
        ensures bits { self.new.bits.items ≡ self.old.bits.items ++ bit ∷ [] }
        ensures committed { self.new.committed ≡ self.old.committed }
        ensures cleared { self.new.cleared ≡ self.old.cleared }
        ensures room { (vec_capacity self.old.operations ≤ vec_capacity self.new.operations)
            × (vec_capacity self.old.bits ≤ vec_capacity self.new.bits) }
    {
        self.operations.push(operation).unwrap();
        self.bits.push(bit).unwrap();
    }

    /// Takes the last operation and its bit off again, which the last commit does not have.
    pub(crate) fn take_back(&mut self)
        requires { self.old.committed < vec_len self.old.operations }
        ensures operations { self.new.operations.items
            ≡ take (length self.old.operations.items - 1) self.old.operations.items }
        ensures bits { self.new.bits.items
            ≡ take (length self.old.operations.items - 1) self.old.bits.items }
        ensures committed { self.new.committed ≡ self.old.committed }
        ensures cleared { self.new.cleared ≡ self.old.cleared }
    {
        let before = self.operations.len() - 1;
        self.operations.truncate(before);
        self.bits.truncate(before);
    }

    /// Forgets the operations from `before` to before `after`, so that nothing is kept of the first `after`: those before
    /// `before` are forgotten already.
    pub(crate) fn forget(&mut self, alloc: Global, before: u64, after: u64)
        ensures operations { (all : List (List ℕ))
            → map (λ v. v.items) self.old.operations.items ≡ forgetting before all
            → before ≤ after → after ≤ length all
            → map (λ v. v.items) self.new.operations.items ≡ forgetting after all }
        ensures bits { self.new.bits.items ≡ self.old.bits.items }
        ensures committed { self.new.committed ≡ self.old.committed }
        ensures cleared { self.new.cleared.items ≡ self.old.cleared.items }
    {
        let end = after.min(self.operations.len() as u64);
        forget_each(alloc, &mut self.operations, before, end);
    }

    /// Clears the activity bit of the operation at `location`. There is room to tell it.
    pub(crate) fn clear(&mut self, location: u64)
        requires room { vec_len self.old.cleared < vec_capacity self.old.cleared }
        ensures operations { self.new.operations ≡ self.old.operations }
        ensures bits { self.new.bits.items ≡ slice_set self.old.bits.items location false }
        ensures room { vec_capacity self.new.bits ≡ vec_capacity self.old.bits }
        ensures committed { self.new.committed ≡ self.old.committed }
        ensures cleared { (base : List Bool)
            → AreCommitted self.old.committed self.old.cleared.items self.old.bits.items base
            → AreCommitted self.new.committed self.new.cleared.items self.new.bits.items base }
        ensures clear_room { (vec_len self.new.cleared ≤ vec_len self.old.cleared + 1)
            × (vec_capacity self.old.cleared ≤ vec_capacity self.new.cleared) }
    {
        self.clear_bit(location);
        if location < self.committed {
            self.cleared.push(location).unwrap();
        }
    }

    /// Clears the activity bit of the operation at `location`, and tells nothing of it.
    fn clear_bit(&mut self, location: u64)
        ensures operations { self.new.operations ≡ self.old.operations }
        ensures bits { self.new.bits.items ≡ slice_set self.old.bits.items location false }
        ensures room { vec_capacity self.new.bits ≡ vec_capacity self.old.bits }
        ensures committed { self.new.committed ≡ self.old.committed }
        ensures cleared { self.new.cleared ≡ self.old.cleared }
    {
        if let Some(bit) = self.bits.get_mut(location as usize) {
            *bit = false;
        }
    }

    /// Returns the operations from `location` on, as they are written; none past the last.
    pub(crate) fn operations_from(&self, location: u64) -> &[Vec<u8>]
        ensures { location ≤ length self.now.operations.items
            → result.now ≡ drop location self.now.operations.items }
    {
        let count = self.len();
        &self.operations[location.min(count) as usize..]
    }

    /// Returns the operations after the last commit, as they are written.
    pub(crate) fn new_operations(&self) -> &[Vec<u8>]
        ensures { result.now ≡ drop self.now.committed self.now.operations.items }
    {
        &self.operations[self.committed as usize..]
    }

    /// Returns the activity bits of the operations after the last commit.
    pub(crate) fn new_bits(&self) -> &[bool]
        ensures { result.now ≡ drop self.now.committed self.now.bits.items }
    {
        &self.bits[self.committed as usize..]
    }

    /// Returns the locations whose bits a commit clears: those cleared since the last one, which stands at `before`,
    /// and its own.
    pub(crate) fn all_cleared<F: Family>(
        &self,
        alloc: Global,
        before: u64,
    ) -> Result<Vec<Location<F>>, NoMemory>
        ensures { IfOk result (λ all. all.items ≡ self.now.cleared.items ++ before ∷ []) }
    {
        let mut all = Vec::with_capacity(alloc, self.cleared.len() + 1)?;
        for location in &self.cleared {
            all.push(Location::new(*location))?;
        }
        all.push(Location::new(before))?;
        Ok(all)
    }

    /// Returns the location of the first active operation from `start` on, the last commit at `last` passed over; how
    /// many operations there are if there is none.
    pub(crate) fn first_active(&self, start: u64, last: Option<u64>) -> u64
        ensures { start ≤ length self.now.bits.items
            → IsFirstMarked self.now.bits.items last start result }
    {
        for location in start..self.len() {
            if self.is_active(location, last) {
                return location;
            }
        }
        self.len()
    }

    /// Whether the operation at `location` is active, and not the last commit, which stands at `last`.
    fn is_active(&self, location: u64, last: Option<u64>) -> bool
        requires { location < length self.now.bits.items }
        ensures { IsTrue result ↔ IsMarked self.now.bits.items last location }
    {
        if !self.bits[location as usize] {
            return false;
        }
        match last {
            Some(last) => location != last,
            None => true,
        }
    }

    /// Takes all operations for those of the last commit, which is the last of them. Clears the bit of the commit before
    /// it, which stands at `before`.
    pub(crate) fn settle(&mut self, before: Option<u64>)
        ensures operations { self.new.operations ≡ self.old.operations }
        ensures bits { self.new.bits.items ≡ cleared_at before self.old.bits.items }
        ensures committed { self.new.committed ≡ length self.old.operations.items }
        ensures cleared { self.new.cleared.items ≡ [] }
    {
        if let Some(location) = before {
            self.clear_bit(location);
        }
        self.committed = self.len();
        self.cleared.clear();
    }
}

/// Gives up those of `operations` from `before` to before `after`, which are there. Of those before `before` nothing is
/// kept already.
fn forget_each(alloc: Global, operations: &mut Vec<Vec<u8>>, before: u64, after: u64)
    requires { after ≤ length operations.old.items }
    ensures count { length operations.new.items ≡ length operations.old.items }
    ensures texts { (all : List (List ℕ))
        → map (λ v. v.items) operations.old.items ≡ forgetting before all
        → before ≤ after → after ≤ length all
        → map (λ v. v.items) operations.new.items ≡ forgetting after all }
{
    for location in before..after {
        operations[location as usize] = Vec::new(alloc);
    }
}
