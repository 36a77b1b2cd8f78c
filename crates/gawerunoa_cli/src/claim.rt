//! What is claimed of a snapshot, in bytes.

use crate::strings::Strings;
use std::fmt;

/// What is claimed of a snapshot.
#[derive(Drop)]
pub enum Claim {
    /// That an operation stands at a location, and is active.
    Operation {
        /// The location.
        location: u64,
        /// The operation.
        operation: Vec<u8>,
    },
    /// That operations stand from a location on, and which chunks of activity bits they touch.
    Range {
        /// The location of the first.
        start: u64,
        /// The operations.
        operations: Strings,
        /// The chunks.
        chunks: Strings,
    },
    /// That a key has a value.
    Value {
        /// The key.
        key: Vec<u8>,
        /// The value.
        value: Vec<u8>,
    },
    /// That a key has no value.
    Absence {
        /// The key.
        key: Vec<u8>,
    },
}

impl fmt::Display for Claim {
    fn fmt<W: fmt::Write>(&self, f: &mut fmt::Formatter<W>) -> fmt::Result {
        match self {
            Claim::Operation { location, .. } => write!(
                f,
                "the operation stands at location {location} and is active"
            ),
            Claim::Range {
                start,
                operations,
                ..
            } => write!(
                f,
                "{} operations stand from location {start} on, and the chunks are theirs",
                operations.lengths.len()
            ),
            Claim::Value { .. } => f.write_str("the key has the value"),
            Claim::Absence { .. } => f.write_str("the key has no value"),
        }
    }
}
