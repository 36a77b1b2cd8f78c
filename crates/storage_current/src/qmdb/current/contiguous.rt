//! Logs of operations, which may fail.

ghost use Rattle.std.specs.Prelude.{◌≡◌, ℕ, ◌+◌, ◌<◌, ◌≤◌, ◌^◌, ◌⊎◌, ◌↔◌, List, map, IfOk, Err};
ghost use Rattle.std.specs.List.{All, Contains};

use std::alloc::Global;
use std::ops::Range;

/// Why a log did not answer.
#[derive(Clone, Copy, Debug, PartialEq, Eq, Drop, thiserror::Error)]
pub enum LogError {
    /// A fault of the log, by the number that the log gave it.
    #[error("log fault {0}")]
    Fault(u32),
    /// Out of memory.
    #[error("out of memory")]
    Memory,
}

/// Items by their locations, of which a range is held, as a log of operations on a disk does. Reading may fail.
pub trait Contiguous {
    /// What stands at a location, as an operation.
    type Item;

    /// What an item is written as.
    ghost text: { Self.Item → List ℕ };

    /// What the item at each location is written as.
    ghost item: { Self → ℕ → List ℕ };

    /// The first location that is held.
    ghost first: { Self → ℕ };

    /// The location past the last one that is held.
    ghost past: { Self → ℕ };

    /// How often the log has failed.
    ghost failed: { Self → ℕ };

    /// Whether a read at each location may fail, with each code.
    ghost may_fail: { Self → ℕ → ℕ → Type 0 };

    /// Returns how often a read has failed.
    fn failures(&self) -> u64
        ensures { result ≡ failed self.now };

    /// Returns the locations that are held: from `start` to before `end`.
    fn bounds(&self) -> Range<u64>
        ensures start { result.start ≡ first self.now }
        ensures end { result.end ≡ past self.now };

    /// Returns the items at `locations`, which all are held, in their order.
    ///
    /// # Errors
    ///
    /// `Fault` if the log failed, with a code that a read of one of `locations` may fail with, exactly if its count of
    /// failures grew, by one; `Memory`.
    fn read_many(&mut self, alloc: Global, locations: &[u64]) -> Result<Vec<Self::Item>, LogError>
        requires count { failed self.old + 1 < 2 ^ 64 }
        requires within { All (λ l. (first self.old ≤ l) × (l < past self.old)) locations.now }
        ensures items { IfOk result (λ v. map text v.items ≡ map (item self.old) locations.now) }
        ensures fault { (code : ℕ) → result ≡ Err (LogError.Fault code)
            → (l : ℕ) × Contains locations.now l × may_fail self.old l code }
        ensures told { ((code : ℕ) × (result ≡ Err (LogError.Fault code)))
            ↔ (failed self.new ≡ failed self.old + 1) }
        ensures once { (failed self.new ≡ failed self.old)
            ⊎ (failed self.new ≡ failed self.old + 1) }
        ensures same_first { first self.new ≡ first self.old }
        ensures same_past { past self.new ≡ past self.old }
        ensures same { (l : ℕ) → item self.new l ≡ item self.old l };
}
