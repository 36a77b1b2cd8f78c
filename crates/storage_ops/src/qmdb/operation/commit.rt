//! The payloads of commits: a value or none, and a floor.

ghost use Rattle.std.specs.Prelude.{◌≡◌, ℕ, List, ◌+◌, ◌++◌, length, option_map, OnOk, OnErr};
ghost use Rattle.std.specs.Int.{w64, to_be_bytes};
ghost use Rattle.storage_codec.specs.Codec.{Gives};
ghost use Rattle.storage_codec.specs.Parts.{AppendsStart, IsEnding, size_of, varint_text};
ghost use Rattle.storage_ops.specs.Fixed.{presence_text, presence_at, floor_at};
ghost use Rattle.storage_ops.specs.Variable.{metadata_text};

use crate::qmdb::any::operation::update::sum_of_sizes;
use std::alloc::Global;
use storage_codec::NoMemory;
use storage_codec::codec::util::{ensure_zeros, put_zeros};
use storage_codec::codec::{Buf, EncodeSize, Error, FixedSize, Read, Write};
use storage_merkle::merkle::{Family, Location, MAX_LEAVES};

/// Appends to `out` a byte 1 and `value`, or, if there is none, a byte 0 and `size` zeros.
#[tactic(auto, using(storage_codec::specs::Laws::Parts::starts_cons))]
fn write_presence<V: Write>(
    value: &Option<V>,
    size: usize,
    out: &mut Vec<u8>,
) -> Result<(), NoMemory>
    ensures ok { OnOk result
        (out.new.items ≡ out.old.items ++ presence_text size (option_map V.text value.now)) }
    ensures err { OnErr result (AppendsStart out.old.items out.new.items
        (presence_text size (option_map V.text value.now))) }
{
    match value {
        None => {
            out.push(0)?;
            put_zeros(out, size)?;
        }
        Some(value) => {
            out.push(1)?;
            value.write(out)?;
        }
    }
    Ok(())
}

/// Appends to `out` the payload of a fixed commit: `value`, or none, if a value has `size` bytes, and `floor` in eight
/// bytes, highest first. Any floor is written.
#[tactic(auto, using(storage_codec::specs::Laws::Parts::starts_then, storage_codec::specs::Laws::Parts::starts_first))]
pub(crate) fn write_commit_fixed<F: Family, V: Write>(
    value: &Option<V>,
    floor: Location<F>,
    size: usize,
    out: &mut Vec<u8>,
) -> Result<(), NoMemory>
    ensures ok { OnOk result (out.new.items ≡ out.old.items
        ++ (presence_text size (option_map V.text value.now) ++ to_be_bytes w64 floor)) }
    ensures err { OnErr result (AppendsStart out.old.items out.new.items
        (presence_text size (option_map V.text value.now) ++ to_be_bytes w64 floor)) }
{
    write_presence(value, size, out)?;
    floor.as_u64().write(out)?;
    Ok(())
}

/// Reads a value behind its presence byte, or zeros in its place, from the front of `buf`.
#[tactic(auto, using(storage_codec::specs::Laws::Parts::ends_then, storage_codec::specs::Laws::Parts::ends_same))]
pub(crate) fn read_presence<V: Read<Cfg = ()> + FixedSize, B: Buf>(
    alloc: Global,
    buf: &mut B,
) -> Result<Option<V>, Error>
    ensures gives { Gives (option_map V.view) result (B.unread buf.new)
        (presence_at (V.parse tt) V.size (B.unread buf.old)) }
    ensures ends { IsEnding (B.unread buf.old) (B.unread buf.new) }
{
    if bool::read_cfg(alloc, buf, &())? {
        return Ok(Some(V::read_cfg(alloc, buf, &())?));
    }
    ensure_zeros(buf, V::fixed_size())?;
    Ok(None)
}

/// Reads a floor in eight bytes, highest first, from the front of `buf`. One past `2^62` is refused.
pub(crate) fn read_floor<B: Buf>(alloc: Global, buf: &mut B) -> Result<u64, Error>
    ensures gives { Gives (λ n. n) result (B.unread buf.new) (floor_at (B.unread buf.old)) }
    ensures ends { IsEnding (B.unread buf.old) (B.unread buf.new) }
{
    let floor = u64::read_cfg(alloc, buf, &())?;
    if floor > MAX_LEAVES {
        return Err(Error::Invalid(
            "storage::qmdb::operation::commit",
            "commit floor location overflow",
        ));
    }
    Ok(floor)
}

/// Appends to `out` what the option `value` is written as.
#[tactic(auto, using(crate::specs::Laws::Variable::metadata_is))]
fn write_metadata<V: Write>(value: &Option<V>, out: &mut Vec<u8>) -> Result<(), NoMemory>
    ensures ok { OnOk result
        (out.new.items ≡ out.old.items ++ metadata_text (option_map V.text value.now)) }
    ensures err { OnErr result
        (AppendsStart out.old.items out.new.items (metadata_text (option_map V.text value.now))) }
{
    value.write(out)
}

/// Appends to `out` the payload of a variable commit: the option `value`, and `floor` as a varint. Any floor is
/// written.
#[tactic(auto, using(storage_codec::specs::Laws::Parts::starts_then, storage_codec::specs::Laws::Parts::starts_first))]
pub(crate) fn write_commit_variable<F: Family, V: Write>(
    value: &Option<V>,
    floor: Location<F>,
    out: &mut Vec<u8>,
) -> Result<(), NoMemory>
    ensures ok { OnOk result (out.new.items
        ≡ out.old.items ++ (metadata_text (option_map V.text value.now) ++ varint_text floor)) }
    ensures err { OnErr result (AppendsStart out.old.items out.new.items
        (metadata_text (option_map V.text value.now) ++ varint_text floor)) }
{
    write_metadata(value, out)?;
    floor.write(out)?;
    Ok(())
}

/// Returns how many bytes the option `value` is written as; none if that is no `u64`.
#[tactic(auto, using(crate::specs::Laws::Variable::metadata_is))]
fn metadata_size<V: EncodeSize>(value: &Option<V>) -> Option<u64>
    ensures { result ≡ size_of (length (metadata_text (option_map V.text value.now))) }
{
    value.encode_size()
}

/// Returns how many bytes the payload of a variable commit has, of `value` and `floor`; none if that is no `u64`.
#[tactic(auto, using(std::proofs::lemmas::Grind::common_steps))]
pub(crate) fn commit_variable_size<F: Family, V: EncodeSize>(
    value: &Option<V>,
    floor: Location<F>,
) -> Option<u64>
    ensures { result
        ≡ size_of (length (metadata_text (option_map V.text value.now) ++ varint_text floor)) }
{
    sum_of_sizes(metadata_size(value), floor.encode_size())
}
