//! Whole numbers as keys.

ghost use Rattle.std.specs.Prelude.{◌≡◌, ◌≢◌, ℕ, ◌<◌, ◌^◌, List, refl};
ghost use Rattle.std.proofs.Common.{lit≤};
ghost use Rattle.std.specs.Int.{w64, from_be_bytes, to_be_bytes};
ghost use Rattle.storage_codec.specs.Codec.{Gives, front_at};
ghost use Rattle.storage_codec.specs.Laws.Reading.{front_again, front_back};
ghost use Rattle.storage_codec.specs.Parts.{IsEnding};

use crate::NoMemory;
use crate::codec::{
    Buf, Canonical, Codec, EncodeSize, Error, FixedBytes, FixedSize, Read, Small, Write,
};
use std::alloc::Global;

/// A whole number as a key: its eight bytes, highest first, so that keys are ordered as their
/// numbers are.
#[derive(Clone, Copy, Debug, PartialEq, Eq, PartialOrd, Ord, Hash)]
pub struct U64(pub FixedBytes<8>);

impl U64 {
    /// Returns the key of `number`: its eight bytes, highest first. Allocates nothing.
    pub fn new(number: u64) -> U64
        ensures { result.0.bytes ≡ to_be_bytes w64 number }
    {
        U64(FixedBytes {
            bytes: number.to_be_bytes(),
        })
    }

    /// Returns the number that the eight bytes give. Allocates nothing.
    pub fn number(&self) -> u64
        ensures { result ≡ from_be_bytes w64 self.now.0.bytes }
    {
        u64::from_be_bytes(self.0.bytes)
    }

    /// Returns the eight bytes, highest first. Allocates nothing.
    pub fn bytes(&self) -> &[u8]
        ensures { result.now ≡ self.now.0.bytes }
    {
        &self.0.bytes
    }
}

impl Write for U64 {
    ghost text = { λ x. x.0.bytes };

    fn write(&self, out: &mut Vec<u8>) -> Result<(), NoMemory> {
        self.0.write(out)
    }
}

impl EncodeSize for U64 {
    fn encode_size(&self) -> Option<u64> {
        Some(8)
    }
}

impl FixedSize for U64 {
    ghost size = { 8 };

    fn fixed_size() -> usize {
        8
    }

    ghost sized = { λ x. x.0.full };
}

impl Small for U64 {
    ghost small = { lit≤ tt };
}

impl Read for U64 {
    type Cfg = ();

    ghost View = { List ℕ };

    ghost view = { λ x. x.0.bytes };

    ghost admits = { λ _ _. Unit {0} };

    ghost parse = { λ _. front_at 8 };

    /// Refuses `EndOfBuffer` exactly if fewer than eight bytes are left. Allocates nothing.
    fn read_cfg<B: Buf>(alloc: Global, buf: &mut B, _cfg: &()) -> Result<U64, Error>
        ensures gives { Gives (λ x. x.0.bytes) result (B.unread buf.new)
            (front_at 8 (B.unread buf.old)) }
        ensures no_memory { result ≢ Err Error.Memory }
        ensures ends { IsEnding (B.unread buf.old) (B.unread buf.new) }
    {
        Ok(U64(FixedBytes::<8>::read_cfg(alloc, buf, &())?))
    }
}

impl Codec for U64 {
    ghost again = { λ _ x rest _. front_again 8 x.0.bytes rest x.0.full };
}

impl Canonical for U64 {
    ghost back = { λ _ bytes x rest _ e. front_back 8 bytes x.0.bytes rest e };
}
