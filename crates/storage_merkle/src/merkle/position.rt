//! The place of a node among the nodes of a tree.

ghost use Rattle.std.specs.Prelude.{◌≡◌, ℕ, ◌+◌, ◌-◌, ◌^◌, ◌<◌, ◌≤◌, ◌↔◌, min, IsTrue, MatchOption, Some};
ghost use Rattle.std.specs.Fmt.{decimal, styled_decimal};
ghost use Rattle.storage_merkle.specs.Shape.{Shape, size, max_leaves};

use crate::merkle::{Family, MAX_LEAVES};
use std::fmt;
use std::marker::{Model, PhantomData};

/// The place of a node of a tree of the family `F`, counted from 0; also a number of nodes. Positions compare as their
/// numbers and are displayed as them in decimal. No call allocates.
#[derive(Drop)]
#[derive_where(Clone, Copy, PartialEq, Eq, PartialOrd, Ord, Hash, Debug)]
pub struct Position<F> {
    value: u64,
    #[derive_where(skip)]
    family: PhantomData<F>,
}

impl<F> Model for Position<F> {
    ghost Value = { ℕ };

    ghost view = { λ s. s.value };

    ghost inverse = { λ n. record { value = n; family = record {} } };
}

impl<F> Position<F> {
    /// Returns the position with the number `value`.
    pub fn new(value: u64) -> Self
        ensures { result ≡ value }
    {
        Position {
            value,
            family: PhantomData,
        }
    }

    /// Returns the number of the position.
    pub fn as_u64(self) -> u64
        ensures { result ≡ self }
    {
        self.value
    }

    /// Returns the position `by` nodes further on; `None` if its number passes `u64::MAX`.
    pub fn checked_add(self, by: u64) -> Option<Self>
        ensures { MatchOption result (2 ^ 64 ≤ self + by) (λ p. p ≡ self + by) }
    {
        let value = self.value.checked_add(by)?;
        Some(Position::new(value))
    }

    /// Returns the position `by` nodes further on, or the position `u64::MAX` where its number passes that.
    pub fn saturating_add(self, by: u64) -> Self
        ensures { result ≡ min (self + by) (2 ^ 64 - 1) }
    {
        Position::new(self.value.saturating_add(by))
    }
}

impl<F: Family> Position<F> {
    /// Returns whether it is at most the number of nodes of the tree over [`MAX_LEAVES`] leaves.
    pub fn is_valid(self) -> bool
        ensures { IsTrue result ↔ (self ≤ size F.shape max_leaves) }
    {
        self.value <= F::nodes_over(MAX_LEAVES)
    }
}

impl<F> fmt::Display for Position<F> {
    ghost output = { λ p. Some (decimal p) };

    ghost styled_output = { λ p style. Some (styled_decimal style p) };

    fn fmt<W: fmt::Write>(&self, f: &mut fmt::Formatter<W>) -> fmt::Result {
        fmt::Display::fmt(&self.value, f)
    }
}
