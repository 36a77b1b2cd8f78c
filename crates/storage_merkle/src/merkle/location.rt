//! The place of a leaf among the leaves of a tree.

ghost use Rattle.std.specs.Prelude.{◌≡◌, ◌≢◌, ℕ, ◌+◌, ◌-◌, ◌^◌, ◌<◌, ◌≤◌, ◌↔◌, min, IsTrue, MatchOption, Some};
ghost use Rattle.std.specs.Fmt.{decimal, styled_decimal};
ghost use Rattle.storage_codec.specs.Codec.{Gives};
ghost use Rattle.storage_codec.specs.Parts.{IsEnding, varint_text};
ghost use Rattle.storage_merkle.specs.Wire.{location_at};
ghost use Rattle.storage_merkle.specs.Laws.Wire.{location_again, location_back};
ghost use Rattle.storage_merkle.specs.Shape.{max_leaves};

use crate::merkle::MAX_LEAVES;
use std::alloc::Global;
use std::fmt;
use std::marker::{Model, PhantomData};
use storage_codec::NoMemory;
use storage_codec::codec::{Buf, Canonical, Codec, EncodeSize, Error, Read, UInt, Write};

/// The place of a leaf of a tree of the family `F`, counted from 0; also a number of leaves. Locations compare as their
/// numbers and are displayed as them in decimal. No call allocates, but writing one to a vector.
#[derive(Drop)]
#[derive_where(Clone, Copy, PartialEq, Eq, PartialOrd, Ord, Hash, Debug)]
pub struct Location<F> {
    value: u64,
    #[derive_where(skip)]
    family: PhantomData<F>,
}

impl<F> Model for Location<F> {
    ghost Value = { ℕ };

    ghost view = { λ s. s.value };

    ghost inverse = { λ n. record { value = n; family = record {} } };
}

impl<F> Location<F> {
    /// Returns the location with the number `value`.
    pub fn new(value: u64) -> Self
        ensures { result ≡ value }
    {
        Location {
            value,
            family: PhantomData,
        }
    }

    /// Returns the number of the location.
    pub fn as_u64(self) -> u64
        ensures { result ≡ self }
    {
        self.value
    }

    /// Returns whether it is at most [`MAX_LEAVES`], so that, as a number of leaves, it is that of some tree.
    pub fn is_valid(self) -> bool
        ensures { IsTrue result ↔ (self ≤ max_leaves) }
    {
        self.value <= MAX_LEAVES
    }

    /// Returns the location `by` leaves further on; `None` if its number passes `u64::MAX`.
    pub fn checked_add(self, by: u64) -> Option<Self>
        ensures { MatchOption result (2 ^ 64 ≤ self + by) (λ l. l ≡ self + by) }
    {
        let value = self.value.checked_add(by)?;
        Some(Location::new(value))
    }

    /// Returns the location `by` leaves further on, or the location `u64::MAX` where its number passes that.
    pub fn saturating_add(self, by: u64) -> Self
        ensures { result ≡ min (self + by) (2 ^ 64 - 1) }
    {
        Location::new(self.value.saturating_add(by))
    }
}

impl<F> fmt::Display for Location<F> {
    ghost output = { λ l. Some (decimal l) };

    ghost styled_output = { λ l style. Some (styled_decimal style l) };

    fn fmt<W: fmt::Write>(&self, f: &mut fmt::Formatter<W>) -> fmt::Result {
        fmt::Display::fmt(&self.value, f)
    }
}

impl<F> Write for Location<F> {
    ghost text = { λ l. varint_text l };

    fn write(&self, out: &mut Vec<u8>) -> Result<(), NoMemory> {
        UInt(self.value).write(out)
    }
}

impl<F> EncodeSize for Location<F> {
    fn encode_size(&self) -> Option<u64> {
        UInt(self.value).encode_size()
    }
}

/// Refuses what is no shortest spelling of a number, then a number past [`MAX_LEAVES`]. Allocates nothing.
// Callers take the answer apart by `match`: the borrow checker does not cover a `?` on it yet.
impl<F> Read for Location<F> {
    type Cfg = ();

    ghost View = { ℕ };

    ghost view = { λ l. l };

    ghost admits = { λ _ l. l ≤ max_leaves };

    ghost parse = { λ _. location_at };

    fn read_cfg<B: Buf>(alloc: Global, buf: &mut B, _cfg: &()) -> Result<Location<F>, Error>
        ensures gives { Gives (λ l. l) result (B.unread buf.new) (location_at (B.unread buf.old)) }
        ensures ends { IsEnding (B.unread buf.old) (B.unread buf.new) }
        ensures no_memory { result ≢ Err Error.Memory }
    {
        let UInt(value) = UInt::read_cfg(alloc, buf, &())?;
        if value > MAX_LEAVES {
            return Err(Error::Invalid("location", "past the limit"));
        }
        Ok(Location::new(value))
    }
}

impl<F> Codec for Location<F> {
    ghost again = { λ _ l rest h. location_again l rest h };
}

impl<F> Canonical for Location<F> {
    ghost back = { λ _ bytes l rest h e. location_back bytes l rest h e };
}
