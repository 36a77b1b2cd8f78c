//! A copy as lines, such as those that operations are read from.

use crate::fault::Fault;
use crate::source::Source;
use crate::sync::fault::SyncFault;
use commonware_storage::qmdb::sync::Replica;
use std::alloc::Global;
use std::io::{self, BufWriter, ErrorKind, Write};
use storage_bitmap::bitmap::Readable as _;

/// How many bytes are written at once.
const WRITTEN_AT_ONCE: usize = 65_536;

/// Writes a line for each operation of `copy` to `output`, which is `source`: its bit, a blank, and the operation in
/// hexadecimal.
pub(super) fn write_rows<'a, D, W: Write + Drop, const N: usize>(
    alloc: Global,
    copy: &Replica<D, N>,
    source: Source<'a>,
    output: W,
) -> Result<(), Fault<'a>> {
    if let Some(empty) = copy.operations.iter().position(|it| it.is_empty()) {
        return Err(Fault::Sync(SyncFault::Empty(empty as u64)));
    }
    match write_lines(alloc, copy, output) {
        Ok(()) => Ok(()),
        Err(error) => Err(unwritten(source, error)),
    }
}

/// Writes the same, of operations that each have a byte.
fn write_lines<D, W: Write + Drop, const N: usize>(
    alloc: Global,
    copy: &Replica<D, N>,
    output: W,
) -> io::Result<()> {
    let mut output = BufWriter::with_capacity(alloc, WRITTEN_AT_ONCE, output)?;
    // once the first line is written no memory is asked for any more
    let longest = copy.operations.iter().map(|it| it.len()).max().unwrap_or(0);
    let mut line = Vec::with_capacity(alloc, longest.saturating_mul(2).saturating_add(1))?;
    for (location, operation) in copy.operations.iter().enumerate() {
        let digits = operation.len().saturating_mul(2);
        line.clear();
        line.resize(digits, 0)?;
        let _ = hex::encode_to_slice(operation.as_slice(), line.as_mut_slice());
        output.write_all(if is_active(copy, location as u64) {
            b"1 "
        } else {
            b"0 "
        })?;
        line.push(b'\n')?;
        output.write_all(&line)?;
    }
    output.flush()
}

/// Returns whether the operation at `location` is active.
fn is_active<D, const N: usize>(copy: &Replica<D, N>, location: u64) -> bool {
    let status = &copy.status;
    status.pruned_chunks() == 0 && location < status.len() && status.get_bit(location)
}

/// Returns the fault where `source` can't be written.
pub(super) fn unwritten<'a>(source: Source<'a>, error: io::Error) -> Fault<'a> {
    match (source, error.kind()) {
        (_, ErrorKind::OutOfMemory) => Fault::Memory,
        (Source::File(_), _) => Fault::Unread(source, error),
        (Source::Standard, _) => Fault::Unwritten(error),
    }
}
