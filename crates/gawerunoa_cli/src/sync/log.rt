//! Operations in memory, as a server reads them.

ghost use Rattle.std.specs.Prelude.{◌≡◌, ℕ, List, [], length, map, option_map, slice_get, unwrap_or, IfOk};
ghost use Rattle.gawerunoa_cli.specs.Kept.{kept_at};

use crate::lines::Keep;
use std::alloc::{AllocError, Global};
use std::ops::Range;
use storage_codec::NoMemory;
use storage_current::qmdb::current::{Contiguous, LogError};

/// Operations by their locations, from 0 on.
#[derive(Drop)]
pub(crate) struct Log {
    alloc: Global,
    operations: Vec<Vec<u8>>,
}

impl Log {
    /// Returns no operations. Allocates nothing.
    pub fn new(alloc: Global) -> Self {
        Log {
            alloc,
            operations: Vec::new(alloc),
        }
    }
}

impl Keep for Log {
    fn keep(&mut self, operation: &[u8]) -> Result<(), NoMemory> {
        self.operations
            .push(Vec::from_slice(self.alloc, operation)?)?;
        Ok(())
    }
}

impl Contiguous for Log {
    type Item = Vec<u8>;

    ghost text = { λ item. item.items };

    ghost item = { λ s l. kept_at (map (λ o. o.items) s.operations.items) l };

    ghost first = { λ _. 0 };

    ghost past = { λ s. length s.operations.items };

    ghost failed = { λ _. 0 };

    ghost may_fail = { λ _ _ _. ⊥ };

    fn failures(&self) -> u64 {
        0
    }

    fn bounds(&self) -> Range<u64> {
        0..self.operations.len() as u64
    }

    fn read_many(&mut self, alloc: Global, locations: &[u64]) -> Result<Vec<Vec<u8>>, LogError> {
        match copies_of(alloc, &self.operations, locations) {
            Ok(copies) => Ok(copies),
            Err(_) => Err(LogError::Memory),
        }
    }
}

/// Returns copies of the operations at `locations`; of nothing where there is none.
fn copies_of(
    alloc: Global,
    operations: &[Vec<u8>],
    locations: &[u64],
) -> Result<Vec<Vec<u8>>, AllocError>
    ensures { IfOk result (λ v. map (λ o. o.items) v.items
        ≡ map (kept_at (map (λ o. o.items) operations.now)) locations.now) }
{
    let mut copies = Vec::new(alloc);
    for location in locations {
        copies.push(copy_at(alloc, operations, *location)?)?;
    }
    Ok(copies)
}

/// Returns a copy of the operation at `location`; nothing where there is none.
fn copy_at(alloc: Global, operations: &[Vec<u8>], location: u64) -> Result<Vec<u8>, AllocError>
    ensures { IfOk result (λ copy. copy.items ≡ kept_at (map (λ o. o.items) operations.now) location) }
{
    match operations.get(location as usize) {
        Some(operation) => Vec::from_slice(alloc, operation),
        None => Ok(Vec::new(alloc)),
    }
}
