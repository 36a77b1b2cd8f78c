//! Why a run gives no answer.

ghost use Rattle.std.specs.Prelude.{◌≡◌};
ghost use Rattle.stateproof_cli.specs.declared.fault.Fault.TheVariants.{Memory};

use std::alloc::{AllocError, AllocFailed};
use std::io::{self, ErrorKind};
use storage_codec::NoMemory;
use storage_db::db;
use storage_merkle::merkle;
use storage_ops::qmdb;
use thiserror::Error;

/// The first fault of a run, in the order of the variants; out of memory comes at any point.
#[derive(Clone, Copy, Debug, PartialEq, Eq, Error)]
pub enum Fault {
    /// The arguments are none that the program takes.
    #[error("stateproof: usage")]
    Usage,
    /// Standard input can't be read, or is not UTF-8.
    #[error("stateproof: input")]
    Input,
    /// The number of a line, counted from 1, that is bad, missing, or one too many.
    #[error("stateproof: line {0}")]
    Line(u64),
    /// The floor is past the length, the location is at or past it, or a database has no room for more operations.
    #[error("stateproof: range")]
    Range,
    /// Out of memory.
    #[error("stateproof: memory")]
    Memory,
}

impl From<NoMemory> for Fault {
    ghost from_gives = { λ _ fault. fault ≡ Memory };

    fn from(_error: NoMemory) -> Fault {
        Fault::Memory
    }
}

impl From<AllocError> for Fault {
    ghost from_gives = { λ _ fault. fault ≡ Memory };

    fn from(_error: AllocError) -> Fault {
        Fault::Memory
    }
}

impl<T: Drop> From<AllocFailed<T>> for Fault {
    ghost from_gives = { λ _ fault. fault ≡ Memory };

    fn from(_error: AllocFailed<T>) -> Fault {
        Fault::Memory
    }
}

impl Fault {
    /// Returns the fault of a snapshot, or of a proof of it, that was refused; it has as many operations as bits.
    pub(crate) fn of_snapshot<F>(error: &qmdb::Error<F>) -> Fault {
        match error {
            qmdb::Error::Merkle(error) => Fault::of_plan(error),
            _ => Fault::Memory,
        }
    }

    /// Returns the fault of a database that could not do what it was told.
    pub(crate) fn of_database<F>(error: &db::Error<F>) -> Fault {
        match error {
            db::Error::Full(_) => Fault::Range,
            _ => Fault::Memory,
        }
    }

    /// Returns the fault where the input can't be read.
    pub(crate) fn of_input(error: &io::Error) -> Fault {
        match error.kind() {
            ErrorKind::OutOfMemory => Fault::Memory,
            _ => Fault::Input,
        }
    }

    /// Returns the fault of a plan or of a floor that was refused.
    pub(crate) fn of_plan<F>(error: &merkle::Error<F>) -> Fault {
        match error {
            merkle::Error::RangeOutOfBounds(_) | merkle::Error::LocationOverflow(_) => Fault::Range,
            _ => Fault::Memory,
        }
    }
}
