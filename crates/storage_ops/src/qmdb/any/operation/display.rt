//! How operations are displayed: keys by their bytes and values by their encoding, in hexadecimal.

ghost use Rattle.std.specs.Fmt.{WritesOnOk};
ghost use Rattle.std.specs.Prelude.{◌≡◌, IfOk, Some, None};
ghost use Rattle.std.specs.String.{string_bytes};
ghost use Rattle.hex.specs.Hex.{encode_lower};
ghost use Rattle.storage_ops.specs.Operations.{CommitFloor, operation_map, parts};
ghost use Rattle.storage_ops.specs.Shown.{shown};

use crate::qmdb::any::operation::{Operation, Update};
use crate::qmdb::operation::Key;
use std::alloc::Global;
use std::fmt;
use storage_codec::codec::{Encode, EncodeSize, Write};
use storage_merkle::merkle::{Family, Location};

/// An operation with the allocator from which displaying it takes memory.
#[derive(Drop)]
pub struct Displayed<'a, F: Family, S: Update> {
    operation: &'a Operation<F, S>,
    alloc: Global,
}

/// Returns `bytes` in hexadecimal, in lower case.
pub(crate) fn hex_of_bytes(alloc: Global, bytes: &[u8]) -> Result<String, fmt::Error>
    ensures { IfOk result (λ text. string_bytes text ≡ encode_lower bytes.now) }
{
    Ok(hex::encode(alloc, bytes)?)
}

/// Returns what `value` is written as, in hexadecimal, in lower case.
pub(crate) fn hex_of_value<V: Write + EncodeSize>(
    alloc: Global,
    value: &V,
) -> Result<String, fmt::Error>
    ensures { IfOk result (λ text. string_bytes text ≡ encode_lower (V.text value.now)) }
{
    let Ok(bytes) = value.encode(alloc) else {
        return Err(fmt::Error);
    };
    hex_of_bytes(alloc, &bytes)
}

/// Writes to `f` the text of a commit with the floor `floor`, whose value has the text `value`.
fn write_commit<F: Family, W: fmt::Write>(
    f: &mut fmt::Formatter<W>,
    value: &str,
    floor: Location<F>,
) -> fmt::Result
    ensures { WritesOnOk W.write_str_gives f.old result
        (shown (CommitFloor (Some value.now) floor)) f.new }
{
    write!(f, "[commit {value} with inactivity floor: {floor}]")
}

/// Writes to `f` the text of a commit without a value, with the floor `floor`.
fn write_empty_commit<F: Family, W: fmt::Write>(
    f: &mut fmt::Formatter<W>,
    floor: Location<F>,
) -> fmt::Result
    ensures { WritesOnOk W.write_str_gives f.old result (shown (CommitFloor None floor)) f.new }
{
    write!(f, "[commit with inactivity floor: {floor}]")
}

impl<F: Family, S: Update> Operation<F, S> {
    /// Returns the operation as `Display`: `[key:KEY <deleted>]`, what its update is displayed as, `[commit VALUE with
    /// inactivity floor: LOC]`, or `[commit with inactivity floor: LOC]`. Displaying it takes memory; if there is none
    /// it answers an error.
    pub fn display(&self, alloc: Global) -> Displayed<'_, F, S>
        ensures { result.operation.now ≡ self.now }
    {
        Displayed {
            operation: self,
            alloc,
        }
    }
}

impl<F: Family, S: Update> fmt::Display for Displayed<'_, F, S> {
    ghost output = { λ d. Some (shown (operation_map (λ k. encode_lower (S.Key.bytes_of k)) S.shown
        (λ v. encode_lower (S.Value.text v)) (parts d.operation.now))) };

    fn fmt<W: fmt::Write>(&self, f: &mut fmt::Formatter<W>) -> fmt::Result {
        match self.operation {
            Operation::Delete(key) => {
                let key = hex_of_bytes(self.alloc, key.bytes())?;
                write!(f, "[key:{key} <deleted>]")
            }
            Operation::Update(update) => update.fmt(self.alloc, f),
            Operation::CommitFloor(Some(value), floor) => {
                let value = hex_of_value(self.alloc, value)?;
                write_commit(f, value.as_str(), *floor)
            }
            Operation::CommitFloor(None, floor) => write_empty_commit(f, *floor),
        }
    }
}
