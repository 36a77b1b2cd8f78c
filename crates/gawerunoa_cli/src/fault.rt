//! Why a run has no answer.

ghost use Rattle.std.specs.Prelude.{◌≡◌};
ghost use Rattle.gawerunoa_cli.specs.Status.{status_of};

use crate::mark::Mark;
use crate::mistake::Mistake;
use crate::source::Source;
use crate::sync::fault::SyncFault;
use clap::error::ErrorKind;
use std::alloc::{AllocError, AllocFailed};
use std::{fmt, io};
use storage_codec::NoMemory;

/// What is at fault where a run has no answer.
#[derive(Clone, Copy)]
pub enum Blame {
    /// The question: the words, or a number in them that does not fit the file.
    Question,
    /// A file, standard input or standard output.
    File,
    /// Memory, which ran out.
    Memory,
}

impl Blame {
    /// Returns the exit status: 2 for the question, 3 for a file, 4 for memory.
    pub fn status(self) -> u8
        ensures { result ≡ status_of self }
    {
        match self {
            Blame::Question => 2,
            Blame::File => 3,
            Blame::Memory => 4,
        }
    }
}

/// Why a run has no answer. Its text says what is wrong, where, and what was expected.
#[derive(Drop)]
pub enum Fault<'a> {
    /// The words are none that the program takes, or ask for help or the version.
    Words(clap::Error),
    /// The words are not all UTF-8.
    NotUtf8,
    /// Something is wrong with the question.
    Question(Mistake<'a>),
    /// A line is not JSON.
    Json(serde_json::Error),
    /// What a source has is not what it has to be.
    Misfit(Source<'a>, Misfit),
    /// A source can't be read.
    Unread(Source<'a>, io::Error),
    /// Standard output can't be written.
    Unwritten(io::Error),
    /// There is no copy, or no page.
    Sync(SyncFault<'a>),
    /// Out of memory.
    Memory,
}

/// Where what a source has is not what it has to be.
#[derive(Clone, Copy)]
pub enum Misfit {
    /// In a line.
    Line {
        /// The number of the line, counted from 1.
        number: u64,
        /// Where the line is not what was expected.
        mark: Mark,
    },
    /// In a proof, which ends, or goes on, where something else was expected.
    Field {
        /// How many bytes stand before the place.
        offset: usize,
        /// The field that was expected there.
        name: &'static str,
        /// What was expected of it.
        expected: &'static str,
    },
    /// In the numbers of a proof, which do not fit together, for this reason.
    NoPath(&'static str),
}

impl From<NoMemory> for Fault<'_> {
    fn from(_error: NoMemory) -> Self {
        Fault::Memory
    }
}

impl From<AllocError> for Fault<'_> {
    fn from(_error: AllocError) -> Self {
        Fault::Memory
    }
}

impl<T: Drop> From<AllocFailed<T>> for Fault<'_> {
    fn from(_error: AllocFailed<T>) -> Self {
        Fault::Memory
    }
}

impl<'a> From<Mistake<'a>> for Fault<'a> {
    fn from(mistake: Mistake<'a>) -> Self {
        Fault::Question(mistake)
    }
}

impl<'a> Fault<'a> {
    /// Returns the fault where `source` can't be read.
    pub(crate) fn unread(source: Source<'a>, error: io::Error) -> Fault<'a> {
        match error.kind() {
            io::ErrorKind::OutOfMemory => Fault::Memory,
            _ => Fault::Unread(source, error),
        }
    }

    /// Returns what is at fault.
    pub fn blame(&self) -> Blame {
        match self {
            Fault::Words(error) => match error.kind() {
                ErrorKind::OutOfMemory => Blame::Memory,
                _ => Blame::Question,
            },
            Fault::Misfit(..) | Fault::Unread(..) | Fault::Unwritten(_) | Fault::Sync(_) =>
                Blame::File,
            Fault::Memory => Blame::Memory,
            _ => Blame::Question,
        }
    }
}

impl fmt::Display for Fault<'_> {
    fn fmt<W: fmt::Write>(&self, f: &mut fmt::Formatter<W>) -> fmt::Result {
        match self {
            Fault::Words(error) => write!(f, "{error}"),
            Fault::NotUtf8 => f.write_str("the words of the command line are not all UTF-8"),
            Fault::Question(mistake) => write!(f, "{mistake}"),
            Fault::Json(error) => write!(f, "expected an object of JSON: {error}"),
            Fault::Misfit(source, misfit) => write!(f, "{source}: {misfit}"),
            Fault::Unread(source, error) => write!(f, "{source}: {error}"),
            Fault::Unwritten(error) => write!(f, "standard output: {error}"),
            Fault::Sync(fault) => write!(f, "{fault}"),
            Fault::Memory => f.write_str("out of memory"),
        }
    }
}

impl fmt::Display for Misfit {
    fn fmt<W: fmt::Write>(&self, f: &mut fmt::Formatter<W>) -> fmt::Result {
        match self {
            Misfit::Line { number, mark } => write!(f, "line {number}, {mark}"),
            Misfit::Field {
                offset,
                name,
                expected,
            } => write!(f, "byte {offset}: {name}: expected {expected}"),
            Misfit::NoPath(why) => f.write_str(why),
        }
    }
}
