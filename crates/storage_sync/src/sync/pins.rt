//! Lists of digests in messages: how many there are, then each.

ghost use Rattle.std.specs.Prelude.{◌≡◌, ◌++◌, length, map, OnOk, OnErr};
ghost use Rattle.storage_codec.specs.Codec.{Gives, front_at};
ghost use Rattle.storage_codec.specs.Parts.{AppendsStart, IsEnding, size_of};
ghost use Rattle.storage_merkle.specs.ProofWire.{joined_text};
ghost use Rattle.storage_current.specs.CurrentWire.{as_is};
ghost use Rattle.storage_sync.specs.Messages.{items_at, list_at, list_text};

use crate::sync::lists::read_count;
use std::alloc::Global;
use storage_codec::NoMemory;
use storage_codec::codec::{Buf, EncodeSize, Error, UInt, Write, sum};
use storage_codec::digest::Digest;

/// Appends the list of `pins` to `out`.
#[tactic(auto, using(storage_codec::specs::Laws::Parts::starts_then, storage_codec::specs::Laws::Parts::starts_first))]
pub(crate) fn write_pins<D: Digest>(pins: &[D], out: &mut Vec<u8>) -> Result<(), NoMemory>
    ensures ok { OnOk result
        (out.new.items ≡ out.old.items ++ list_text as_is (map D.text pins.now)) }
    ensures err { OnErr result
        (AppendsStart out.old.items out.new.items (list_text as_is (map D.text pins.now))) }
{
    UInt(pins.len() as u64).write(out)?;
    write_each(pins, out)?;
    Ok(())
}

/// Appends `pins` to `out`, one after another.
fn write_each<D: Digest>(pins: &[D], out: &mut Vec<u8>) -> Result<(), NoMemory>
    ensures ok { OnOk result
        (out.new.items ≡ out.old.items ++ joined_text (map as_is (map D.text pins.now))) }
    ensures err { OnErr result (AppendsStart out.old.items out.new.items
        (joined_text (map as_is (map D.text pins.now)))) }
{
    for pin in pins {
        out.extend_from_slice(pin.bytes())?;
    }
    Ok(())
}

/// Returns how many bytes the list of `pins` is written as; none if that is no `u64`. Allocates nothing.
pub(crate) fn pins_size<D: Digest>(pins: &[D]) -> Option<u64>
    ensures { result ≡ size_of (length (list_text as_is (map D.text pins.now))) }
{
    let mut size = UInt(pins.len() as u64).encode_size();
    for pin in pins {
        size = sum(size, Some(pin.bytes().len() as u64));
    }
    size
}

/// Reads a list of at most `most` digests from the front of `buf`.
#[tactic(auto, using(storage_codec::specs::Laws::Parts::ends_then))]
pub(crate) fn read_pins<D: Digest, B: Buf>(
    alloc: Global,
    buf: &mut B,
    most: u64,
) -> Result<Vec<D>, Error>
    ensures gives { Gives (λ v. map D.text v.items) result (B.unread buf.new)
        (list_at (front_at D.size) most (B.unread buf.old)) }
    ensures ends { IsEnding (B.unread buf.old) (B.unread buf.new) }
{
    let count = read_count(alloc, buf, most)?;
    let pins = read_each(alloc, buf, count)?;
    Ok(pins)
}

/// Reads `count` digests from the front of `buf`.
fn read_each<D: Digest, B: Buf>(alloc: Global, buf: &mut B, count: u64) -> Result<Vec<D>, Error>
    ensures gives { Gives (λ v. map D.text v.items) result (B.unread buf.new)
        (items_at (front_at D.size) count (B.unread buf.old)) }
    ensures ends { IsEnding (B.unread buf.old) (B.unread buf.new) }
{
    let mut pins = Vec::new(alloc);
    for index in 0..count {
        let pin = match D::read(alloc, buf) {
            Ok(pin) => pin,
            Err(error) => return Err(error),
        };
        pins.push(pin)?;
    }
    Ok(pins)
}
