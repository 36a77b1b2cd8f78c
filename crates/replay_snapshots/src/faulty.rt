//! A store and a log that fail after a number of answers.

ghost use Rattle.std.specs.Prelude.{◌≡◌, ℕ, ◌+◌, ◌<◌, ◌^◌, ◌⊎◌, ◌↔◌, ◌∷◌, [], Option, Some, None, Err, eqb, false, if◌then◌else◌, map, IfOk, IfErr, MatchResult};
ghost use Rattle.std.specs.List.{slice_get};
ghost use Rattle.storage_merkle.specs.Plans.{IsFirstAbsent, IsFirstFault};

use commonware_storage::digest::Digest;
use commonware_storage::merkle::{Error, Family, Position, Storage};
use commonware_storage::qmdb::current::{Contiguous, LogError};
use std::alloc::Global;
use std::ops::Range;

/// The code that a store fails with where a case tells none.
pub const STORE_FAULT: u32 = 7;

/// The code that a log fails with where a case tells none.
pub const LOG_FAULT: u32 = 9;

/// A position that no tree has.
pub const NONE: u64 = u64::MAX;

/// More answers than anyone asks for.
pub const ALWAYS: u64 = u64::MAX;

/// Digests at positions, but for the one that is lacking. Once all answers that it has left are given it fails with a code.
#[derive(Drop)]
pub struct Faulty<D> {
    nodes: Vec<D>,
    size: u64,
    lacks: u64,
    left: u64,
    code: u32,
    calls: u64,
    failures: u64,
}

impl<D: Digest> Faulty<D> {
    /// Returns the store of `nodes`, which says to have `size` of them, lacks the one at `lacks`, and answers `left` of
    /// them; then it fails with `code`.
    pub fn new(nodes: Vec<D>, size: u64, lacks: u64, left: u64, code: u32) -> Self
        ensures { result.failures ≡ 0 }
    {
        Faulty {
            nodes,
            size,
            lacks,
            left,
            code,
            calls: 0,
            failures: 0,
        }
    }

    /// Returns how often it failed.
    pub fn failed(&self) -> u64 {
        self.failures
    }

    /// Returns how often it was asked.
    pub fn calls(&self) -> u64 {
        self.calls
    }

    /// Returns whether `count` more digests are answered. Counts a call.
    fn takes(&mut self, count: u64) -> bool
        ensures nodes { self.new.nodes ≡ self.old.nodes }
        ensures size { self.new.size ≡ self.old.size }
        ensures lacks { self.new.lacks ≡ self.old.lacks }
        ensures code { self.new.code ≡ self.old.code }
        ensures failures { self.new.failures ≡ self.old.failures }
        ensures refused { result ≡ false → self.old.left < count }
    {
        self.calls = self.calls.saturating_add(1);
        if self.left < count {
            return false;
        }
        self.left -= count;
        true
    }

    /// Returns the digest at a position.
    fn look_up<F: Family>(&self, position: Position<F>) -> Option<D>
        ensures { result ≡ (if eqb position self.now.lacks then None
            else slice_get self.now.nodes.items position) }
    {
        if position.as_u64() == self.lacks {
            None
        } else {
            self.nodes.get(position.as_u64() as usize).copied()
        }
    }

    /// Returns the digests at positions, as far as they are there.
    fn look_up_all<F: Family>(
        &self,
        alloc: Global,
        positions: &[Position<F>],
    ) -> Result<Vec<D>, Error<F>>
        ensures served { let node = λ (p : ℕ). (if eqb p self.now.lacks then None
            else slice_get self.now.nodes.items p) in
            IfOk result (λ v. map Some v.items ≡ map node positions.now) }
        ensures why { let node = λ (p : ℕ). (if eqb p self.now.lacks then None
            else slice_get self.now.nodes.items p) in
            IfErr result (λ e. ((p : ℕ) × (e ≡ Error.ElementPruned p)
            × IsFirstAbsent (λ q a. a ≡ node q) positions.now p) ⊎ (e ≡ Error.Memory)) }
    {
        let mut digests = Vec::new(alloc);
        let mut left = positions;
        while let Some((position, rest)) = left.split_first() {
            let Some(digest) = self.look_up(*position) else {
                return Err(Error::ElementPruned(*position));
            };
            digests.push(digest)?;
            left = rest;
        }
        Ok(digests)
    }
}

impl<F: Family, D: Digest> Storage<F> for Faulty<D> {
    type Digest = D;

    ghost nodes = { λ s. s.size };

    ghost node = { λ s p. (if eqb p s.lacks then None else slice_get s.nodes.items p) };

    ghost failed = { λ s. s.failures };

    ghost may_fail = { λ s _ code. code ≡ s.code };

    fn size(&self) -> Position<F> {
        Position::new(self.size)
    }

    fn failures(&self) -> u64 {
        self.failures
    }

    fn get_node(&mut self, position: Position<F>) -> Result<Option<D>, Error<F>>
        requires { self.old.failures + 1 < 2 ^ 64 }
        ensures answer { MatchResult result (λ d. d ≡ (if eqb position self.old.lacks then None
            else slice_get self.old.nodes.items position)) (λ e.
            ((code : ℕ) × (e ≡ Error.Source code)) ⊎ (e ≡ Error.Memory)) }
        ensures fault { (code : ℕ) → result ≡ Err (Error.Source code) → code ≡ self.old.code }
        ensures failure { ((code : ℕ) × (result ≡ Err (Error.Source code)))
            ↔ (self.new.failures ≡ self.old.failures + 1) }
        ensures count { (self.new.failures ≡ self.old.failures)
            ⊎ (self.new.failures ≡ self.old.failures + 1) }
        ensures same_size { self.new.size ≡ self.old.size }
        ensures same { (p : ℕ) → (if eqb p self.new.lacks then None
            else slice_get self.new.nodes.items p) ≡ (if eqb p self.old.lacks then None
            else slice_get self.old.nodes.items p) }
    {
        if !self.takes(1) {
            self.failures += 1;
            return Err(Error::Source(self.code));
        }
        Ok(self.look_up(position))
    }

    fn get_nodes(&mut self, alloc: Global, positions: &[Position<F>]) -> Result<Vec<D>, Error<F>>
        requires { self.old.failures + 1 < 2 ^ 64 }
        ensures answers { let node = λ (p : ℕ). (if eqb p self.old.lacks then None
            else slice_get self.old.nodes.items p) in
            MatchResult result (λ v. map Some v.items ≡ map node positions.now) (λ e. ((p : ℕ)
            × (e ≡ Error.ElementPruned p) × IsFirstAbsent (λ q a. a ≡ node q) positions.now p)
            ⊎ (((code : ℕ) × (e ≡ Error.Source code)) ⊎ (e ≡ Error.Memory))) }
        ensures fault { let node = λ (p : ℕ). (if eqb p self.old.lacks then None
            else slice_get self.old.nodes.items p) in
            (code : ℕ) → result ≡ Err (Error.Source code) → IsFirstFault (λ q a. a ≡ node q)
            (λ _ c. c ≡ self.old.code) positions.now code }
        ensures failure { ((code : ℕ) × (result ≡ Err (Error.Source code)))
            ↔ (self.new.failures ≡ self.old.failures + 1) }
        ensures count { (self.new.failures ≡ self.old.failures)
            ⊎ (self.new.failures ≡ self.old.failures + 1) }
        ensures same_size { self.new.size ≡ self.old.size }
        ensures same { (p : ℕ) → (if eqb p self.new.lacks then None
            else slice_get self.new.nodes.items p) ≡ (if eqb p self.old.lacks then None
            else slice_get self.old.nodes.items p) }
    {
        if !self.takes(positions.len() as u64) {
            self.failures += 1;
            return Err(Error::Source(self.code));
        }
        match self.look_up_all(alloc, positions) {
            Ok(digests) => Ok(digests),
            Err(error) => Err(error),
        }
    }
}

/// A log whose item at each location is the location. Once all answers that it has left are given it fails with a code.
#[derive(Drop)]
pub struct Log {
    first: u64,
    past: u64,
    left: u64,
    code: u32,
    failures: u64,
}

impl Log {
    /// Returns the log of the locations from `first` to before `past`, which answers `left` of them; then it fails with
    /// `code`.
    pub fn new(first: u64, past: u64, left: u64, code: u32) -> Self
        ensures { result.failures ≡ 0 }
    {
        Log {
            first,
            past,
            left,
            code,
            failures: 0,
        }
    }
}

impl Contiguous for Log {
    type Item = u64;

    ghost text = { λ item. item ∷ [] };

    ghost item = { λ s l. l ∷ [] };

    ghost first = { λ s. s.first };

    ghost past = { λ s. s.past };

    ghost failed = { λ s. s.failures };

    ghost may_fail = { λ s _ code. code ≡ s.code };

    fn failures(&self) -> u64 {
        self.failures
    }

    fn bounds(&self) -> Range<u64> {
        self.first..self.past
    }

    fn read_many(&mut self, alloc: Global, locations: &[u64]) -> Result<Vec<u64>, LogError> {
        let count = locations.len() as u64;
        if self.left < count {
            self.failures += 1;
            return Err(LogError::Fault(self.code));
        }
        self.left -= count;
        let mut items = Vec::new(alloc);
        match items.extend_from_slice(locations) {
            Ok(()) => Ok(items),
            Err(_) => Err(LogError::Memory),
        }
    }
}
