//! The list on the texts of refusals.

use commonware_storage::light::TextError;
use replay_columns::answers::{Answer, Unblanked};
use replay_columns::columns::{Fault, parse};
use std::alloc::Global;
use std::fmt::Display;
use storage_codec::{NoMemory, codec};
use storage_current::qmdb::current::LogError;
use storage_merkle::merkle::{self, Location, Position, mmr};
use storage_ops::qmdb;

/// `code first second`: the text of the refusal of that code and of the numbers that go with it, with `_` for each blank. Beside
/// the codes of a reader, a tree and a database there are `X1` to `X3` of a check of texts, `L1` and `L2` of a log, and `M`.
pub fn errors(alloc: Global, columns: &[&str], out: &mut String) -> Result<(), Fault> {
    let (code, first, second): (String, u64, u64) = parse(alloc, columns)?;
    let code = code.as_str();
    let text = if let Some(place) = code.strip_prefix('C') {
        displayed(alloc, &of_reader(place, first))?
    } else if let Some(place) = code.strip_prefix('E') {
        displayed(alloc, &of_tree(place, first, second))?
    } else if let Some(place) = code.strip_prefix('Q') {
        displayed(alloc, &of_database(place, first))?
    } else {
        other(alloc, code, (first % 1000) as u32)?
    };
    Unblanked(text.as_str()).tell(out)
}

/// Returns the text of a refusal of texts, of a log, or for want of memory alone.
fn other(alloc: Global, code: &str, fault: u32) -> Result<String, Fault> {
    match code {
        "M" => displayed(alloc, &Some(NoMemory)),
        "L1" => displayed(alloc, &Some(LogError::Fault(fault))),
        "L2" => displayed(alloc, &Some(LogError::Memory)),
        "X1" => displayed(alloc, &Some(TextError::Operation)),
        "X2" => displayed(alloc, &Some(TextError::Proof)),
        "X3" => displayed(alloc, &Some(TextError::Memory)),
        _ => Err(Fault::Malformed),
    }
}

/// Returns the text of a refusal.
fn displayed<E: Display>(alloc: Global, error: &Option<E>) -> Result<String, Fault> {
    match error {
        Some(error) => Ok(format!(in alloc; "{error}")?),
        None => Err(Fault::Malformed),
    }
}

fn of_reader(place: &str, number: u64) -> Option<codec::Error> {
    Some(match place {
        "1" => codec::Error::EndOfBuffer,
        "2" => codec::Error::InvalidBool,
        "3" => codec::Error::InvalidEnum((number % 256) as u8),
        "4" => codec::Error::InvalidVarint,
        "5" => codec::Error::InvalidLength(number),
        "6" => codec::Error::Invalid("current proof", "invalid bitmap chunk size"),
        "7" => codec::Error::ExtraData(number),
        "8" => codec::Error::Memory,
        _ => return None,
    })
}

fn of_tree(place: &str, first: u64, second: u64) -> Option<merkle::Error<mmr::Family>> {
    Some(match place {
        "1" => merkle::Error::Empty,
        "2" => merkle::Error::RangeOutOfBounds(Location::new(first)),
        "3" => merkle::Error::LocationOverflow(Location::new(first)),
        "4" => merkle::Error::ElementPruned(Position::new(first)),
        "5" => merkle::Error::MissingNode(Position::new(first)),
        "6" => merkle::Error::DataCorrupted("other peaks"),
        "7" => merkle::Error::BitOutOfBounds(first, second),
        "8" => merkle::Error::InvalidProof,
        "9" => merkle::Error::RootMismatch,
        "10" => merkle::Error::DuplicateLocation(Location::new(first)),
        "11" => merkle::Error::UnsortedLocation(Location::new(first)),
        "12" => merkle::Error::CompressedDigest(Position::new(first)),
        "13" => merkle::Error::Source((first % 1000) as u32),
        "14" => merkle::Error::Memory,
        _ => return None,
    })
}

fn of_database(place: &str, number: u64) -> Option<qmdb::Error<mmr::Family>> {
    Some(match place {
        "1" => qmdb::Error::DataCorrupted("other lengths"),
        "2" => qmdb::Error::OperationPruned(Location::new(number)),
        "3" => qmdb::Error::Merkle(merkle::Error::RangeOutOfBounds(Location::new(number))),
        "4" => qmdb::Error::Log((number % 1000) as u32),
        "5" => qmdb::Error::Memory,
        _ => return None,
    })
}
