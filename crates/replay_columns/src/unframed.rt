//! Operations that are no more than their bytes.

use crate::columns::{Column, Columns, Fault};
use std::alloc::Global;
use std::convert::AsSlice;
use storage_codec::NoMemory;
use storage_codec::codec::{EncodeSize, Write};

/// An operation that is written as these bytes.
#[derive(Drop)]
pub struct Unframed {
    pub bytes: Vec<u8>,
}

impl Column for Unframed {
    fn read(alloc: Global, columns: &mut Columns<'_>) -> Result<Unframed, Fault> {
        let bytes = Column::read(alloc, columns)?;
        Ok(Unframed { bytes })
    }
}

impl AsSlice<u8> for Unframed {
    ghost items = { λ operation. operation.bytes.items };

    fn as_slice(&self) -> &[u8] {
        self.bytes.as_slice()
    }
}

impl Write for Unframed {
    ghost text = { λ operation. operation.bytes.items };

    fn write(&self, out: &mut Vec<u8>) -> Result<(), NoMemory> {
        out.extend_from_slice(&self.bytes)?;
        Ok(())
    }
}

impl EncodeSize for Unframed {
    fn encode_size(&self) -> Option<u64> {
        Some(self.bytes.len() as u64)
    }
}
