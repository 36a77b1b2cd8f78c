//! The operations of a page, from a log.

ghost use Rattle.std.specs.Prelude.{◌≡◌, ℕ, ◌+◌, ◌-◌, ◌<◌, ◌≤◌, ◌^◌, map, IfOk, IfErr};
ghost use Rattle.std.specs.List.{range_with_len};
ghost use Rattle.storage_current.specs.Served.{Counts, HoldsRange};
ghost use Rattle.storage_sync.specs.Serving.{IsFailedRead, IsLogFault};

use crate::sync::Unanswered;
use std::alloc::Global;
use storage_current::qmdb::current::{Contiguous, LogError};

/// Returns the items of `log` at the locations from `start` to before `end`, which it holds.
///
/// # Errors
///
/// `Log` if the log failed, with its code, exactly if its count of failures grew, by one; `Memory`.
pub(crate) fn read_operations<L: Contiguous<Item = Vec<u8>>>(
    alloc: Global,
    log: &mut L,
    start: u64,
    end: u64,
) -> Result<Vec<Vec<u8>>, Unanswered>
    requires count { L.failed log.old + 1 < 2 ^ 64 }
    requires order { start ≤ end }
    requires within { HoldsRange (L.first log.old) (L.past log.old) start end }
    ensures items { IfOk result (λ v.
        map L.text v.items ≡ map (L.item log.old) (range_with_len start (end - start))) }
    ensures why { IfErr result (IsFailedRead (L.may_fail log.old) start end) }
    ensures failures { Counts (IsLogFault result) (L.failed log.old) (L.failed log.new) }
    ensures same_first { L.first log.new ≡ L.first log.old }
    ensures same_past { L.past log.new ≡ L.past log.old }
    ensures same_items { (l : ℕ) → L.item log.new l ≡ L.item log.old l }
{
    let mut locations = Vec::new(alloc);
    for location in start..end {
        locations.push(location)?;
    }
    match log.read_many(alloc, &locations) {
        Ok(items) => Ok(items),
        Err(LogError::Fault(code)) => Err(Unanswered::Log(code)),
        Err(LogError::Memory) => Err(Unanswered::Memory),
    }
}
