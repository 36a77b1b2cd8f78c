//! Updates of a key's value.

ghost use Rattle.std.specs.Prelude.{◌≡◌, ◌≤◌, ◌+◌, ◌*◌, ◌^◌, ℕ, List, ◌++◌, Bool, true, false, IfOk, OnOk, OnErr};
ghost use Rattle.std.specs.Fmt.{WritesOnOk};
ghost use Rattle.storage_codec.specs.Parts.{AppendsStart, size_of};

mod ordered;
mod unordered;

use crate::qmdb::any::value::ValueEncoding;
use crate::qmdb::operation::Key;
pub use ordered::Update as Ordered;
use std::alloc::Global;
use std::fmt;
use std::ops::Deref;
use storage_codec::NoMemory;
use storage_codec::codec::{Codec, EncodeSize, FixedSize, Read, Write};
pub use unordered::Update as Unordered;

mod sealed {
    /// Keeps the kinds of updates to those of this module.
    pub trait Sealed {}
}

/// An update of a key's value.
pub trait Update: sealed::Sealed + Write + EncodeSize + Drop {
    /// The keys of the updates.
    type Key: Key;

    /// The values of the updates.
    type Value: Codec + EncodeSize + Clone;

    /// How the values are encoded.
    type ValueEncoding: ValueEncoding<Value = Self::Value>;

    /// What is seen of an update.
    ghost Seen: { Type 0 };

    /// What is seen of this update.
    ghost seen: { Self → Seen };

    /// The key of an update.
    ghost key_of: { Self → Self.Key };

    /// The value of an update.
    ghost value_of: { Self → Self.Value };

    /// Returns the key that gets the value.
    fn key(&self) -> &Self::Key
        ensures { result.now ≡ key_of self.now };

    /// Returns the key that gets the value; the update is given up.
    fn into_key(self) -> Self::Key
    where
        Self: Sized,
        ensures { result ≡ key_of self };

    /// Returns the value that the key gets.
    fn value(&self) -> &Self::Value
        ensures { result.now ≡ value_of self.now };

    /// Returns the value that the key gets; the update is given up.
    fn into_value(self) -> Self::Value
    where
        Self: Sized,
        ensures { result ≡ value_of self };

    /// What is kept of an update beside the place of its key: the next key, where the update names one.
    type Cached;

    /// The payload is that of the update.
    ghost is_cached: { Self → Self.Cached → Type 0 };

    /// Whether what is kept depends on the update.
    ghost depends: { Bool };

    /// Returns what is kept of an update that `update` answers. Where that is the same for all updates, `update` is not
    /// called.
    fn cached<R: Deref<Target = Self> + Drop, C: FnOnce() -> R + Drop>(
        update: C,
    ) -> Result<Self::Cached, NoMemory>
    where
        Self: Sized,
        requires { depends ≡ true → C.pre update }
        ensures answered { depends ≡ true → IfOk result (λ kept.
            (r : R) × (u : Self) × C.post update r × R.deref_gives r u × is_cached u kept) }
        ensures all { depends ≡ false → (u : Self) → IfOk result (is_cached u) };

    /// What an update is displayed as: keys by their bytes and the value by its encoding, in hexadecimal.
    ghost shown: { Self → List ℕ };

    /// Writes the update to `f`: keys by their bytes and the value by its encoding, in hexadecimal. It allocates, and
    /// answers an error if it cannot.
    fn fmt<W: fmt::Write>(&self, alloc: Global, f: &mut fmt::Formatter<W>) -> fmt::Result
    where
        Self: Sized,
        ensures { WritesOnOk W.write_str_gives f.old result (shown self.now) f.new };

    /// Returns a copy of this update, which is seen and written as it. Running out of memory is an error.
    fn clone(&self) -> Result<Self, NoMemory>
    where
        Self: Sized,
        ensures { IfOk result (λ u.
            (seen u ≡ seen self.now) × (Self.text u ≡ Self.text self.now)) };
}

/// An update that is also read.
pub trait CodecUpdate: Update + Codec {
    /// Updates that are read alike are seen alike.
    ghost same_seen: { (x y : Self) → Self.view x ≡ Self.view y → Self.seen x ≡ Self.seen y };
}

/// An update whose encodings all have one size.
pub trait FixedUpdate: CodecUpdate + FixedSize + Read<Cfg = ()> {
    /// Few enough bytes that sums of a few sizes are no overflow.
    ghost few: { Self.size ≤ 3 * 2 ^ 32 };
}

/// Appends to `out` what `first` and `second` are written as.
#[tactic(auto, using(storage_codec::specs::Laws::Parts::starts_then, storage_codec::specs::Laws::Parts::starts_first))]
fn write_pair<A: Write, B: Write>(first: &A, second: &B, out: &mut Vec<u8>) -> Result<(), NoMemory>
    ensures ok { OnOk result
        (out.new.items ≡ out.old.items ++ (A.text first.now ++ B.text second.now)) }
    ensures err { OnErr result
        (AppendsStart out.old.items out.new.items (A.text first.now ++ B.text second.now)) }
{
    first.write(out)?;
    second.write(out)?;
    Ok(())
}

/// Returns the sum of two numbers of bytes; none if it, or one of them, is no `u64`.
pub(crate) fn sum_of_sizes(first: Option<u64>, second: Option<u64>) -> Option<u64>
    ensures { (m n : ℕ) → first ≡ size_of m → second ≡ size_of n → result ≡ size_of (m + n) }
{
    first?.checked_add(second?)
}
