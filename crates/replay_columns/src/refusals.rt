//! The names of refusals.

use crate::answers::{Answer, Unblanked};
use crate::columns::Fault;
use storage_codec::codec;
use storage_merkle::merkle::{self, Family};
use storage_ops::qmdb;

/// Adds a name, and the number that goes with it, if there is one.
fn tell_numbered(out: &mut String, name: &str, number: Option<u64>) -> Result<(), Fault> {
    out.push_str(name)?;
    if let Some(number) = number {
        write!(out, "({number})")?;
    }
    Ok(())
}

/// Adds the name of a reader's refusal of what is read at a place.
fn tell_invalid(out: &mut String, place: &str, reason: &str) -> Result<(), Fault> {
    out.push_str("C6(")?;
    Unblanked(place).tell(out)?;
    out.push('|')?;
    Unblanked(reason).tell(out)?;
    Ok(out.push(')')?)
}

/// The name of a reader's refusal.
impl Answer for codec::Error {
    fn tell(&self, out: &mut String) -> Result<(), Fault> {
        let (name, number) = match self {
            codec::Error::EndOfBuffer => ("C1", None),
            codec::Error::InvalidBool => ("C2", None),
            codec::Error::InvalidEnum(tag) => ("C3", Some(u64::from(*tag))),
            codec::Error::InvalidVarint => ("C4", None),
            codec::Error::InvalidLength(length) => ("C5", Some(*length)),
            codec::Error::Invalid(place, reason) => return tell_invalid(out, *place, *reason),
            codec::Error::ExtraData(left) => ("C7", Some(*left)),
            codec::Error::Memory => return Err(Fault::Memory),
        };
        tell_numbered(out, name, number)
    }
}

/// Returns the name of a refusal of a call over trees.
fn name_of<F: Family>(error: &merkle::Error<F>) -> &'static str {
    match error {
        merkle::Error::Empty => "E1",
        merkle::Error::RangeOutOfBounds(_) => "E2",
        merkle::Error::LocationOverflow(_) => "E3",
        merkle::Error::ElementPruned(_) => "E4",
        merkle::Error::MissingNode(_) => "E5",
        merkle::Error::DataCorrupted(_) => "E6",
        merkle::Error::BitOutOfBounds(_, _) => "E7",
        merkle::Error::InvalidProof => "E8",
        merkle::Error::RootMismatch => "E9",
        merkle::Error::DuplicateLocation(_) => "E10",
        merkle::Error::UnsortedLocation(_) => "E11",
        merkle::Error::CompressedDigest(_) => "E12",
        merkle::Error::Source(_) => "E13",
        merkle::Error::Memory => "E14",
    }
}

/// Returns the number that goes with a refusal of a call over trees, if there is one.
fn number_of<F: Family>(error: &merkle::Error<F>) -> Option<u64> {
    match error {
        merkle::Error::RangeOutOfBounds(location) => Some(location.as_u64()),
        merkle::Error::LocationOverflow(location) => Some(location.as_u64()),
        merkle::Error::DuplicateLocation(location) => Some(location.as_u64()),
        merkle::Error::UnsortedLocation(location) => Some(location.as_u64()),
        merkle::Error::ElementPruned(position) => Some(position.as_u64()),
        merkle::Error::MissingNode(position) => Some(position.as_u64()),
        merkle::Error::CompressedDigest(position) => Some(position.as_u64()),
        merkle::Error::Source(fault) => Some(u64::from(*fault)),
        _ => None,
    }
}

/// The name of a refusal of a call over trees.
impl<F: Family> Answer for merkle::Error<F> {
    fn tell(&self, out: &mut String) -> Result<(), Fault> {
        match self {
            merkle::Error::BitOutOfBounds(bit, length) => Ok(write!(out, "E7({bit},{length})")?),
            merkle::Error::Memory => Err(Fault::Memory),
            error => tell_numbered(out, name_of(error), number_of(error)),
        }
    }
}

/// Adds the name of a database's refusal for a refusal of a call over its tree.
fn tell_nested<F: Family>(out: &mut String, error: &merkle::Error<F>) -> Result<(), Fault> {
    out.push_str("Q3(")?;
    error.tell(out)?;
    Ok(out.push(')')?)
}

/// The name of a refusal of a call over a database.
impl<F: Family> Answer for qmdb::Error<F> {
    fn tell(&self, out: &mut String) -> Result<(), Fault> {
        match self {
            qmdb::Error::DataCorrupted(_) => tell_numbered(out, "Q1", None),
            qmdb::Error::OperationPruned(location) => {
                tell_numbered(out, "Q2", Some(location.as_u64()))
            }
            qmdb::Error::Merkle(error) => tell_nested(out, error),
            qmdb::Error::Log(fault) => tell_numbered(out, "Q4", Some(u64::from(*fault))),
            qmdb::Error::Memory => Err(Fault::Memory),
        }
    }
}
