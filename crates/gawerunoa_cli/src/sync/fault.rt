//! Why there is no copy, or no page.

use commonware_storage::qmdb::sync::{Refusal, Unanswered};
use std::{fmt, io};

/// Why a stream has no next message, or takes none.
#[derive(Drop)]
pub enum Broken {
    /// It can't be read.
    Unread(io::Error),
    /// It can't be written.
    Unwritten(io::Error),
    /// It has ended.
    Ended,
    /// It ends inside of a message.
    Cut,
    /// A message is longer than one may be.
    Long {
        /// How many bytes it has.
        size: u64,
        /// How many it may have.
        most: u64,
    },
}

/// Why a request is not answered.
#[derive(Drop)]
pub enum Unserved {
    /// The stream has no next one.
    Broken(Broken),
    /// It is no request.
    NotARequest,
    /// The server does not answer it.
    Unanswered(Unanswered),
}

/// Why a peer is asked no more.
#[derive(Drop)]
pub enum Why {
    /// Its streams fail.
    Broken(Broken),
    /// Its page is refused.
    Refused(Refusal),
}

/// A peer that is asked no more.
#[derive(Drop)]
pub struct Dropped<'a> {
    /// What it is called.
    pub name: &'a str,
    /// The number of its page that was refused, or did not come, counted from 1.
    pub page: u64,
    /// Why.
    pub why: Why,
}

/// Why there is no copy, or no page.
#[derive(Drop)]
pub enum SyncFault<'a> {
    /// A request on standard input is not answered.
    Request {
        /// The number of the request, counted from 1.
        number: u64,
        /// Why.
        why: Unserved,
    },
    /// No peer is left that is asked, and this one was the last.
    Alone(Dropped<'a>),
    /// The operation at this location has no bytes, and no line.
    Empty(u64),
}

impl fmt::Display for Broken {
    fn fmt<W: fmt::Write>(&self, f: &mut fmt::Formatter<W>) -> fmt::Result {
        match self {
            Broken::Unread(error) => write!(f, "{error}"),
            Broken::Unwritten(error) => write!(f, "requests can't be written: {error}"),
            Broken::Ended => f.write_str("the stream has ended"),
            Broken::Cut => f.write_str("the stream ends inside of a message"),
            Broken::Long { size, most } => {
                write!(f, "a message of {size} bytes: expected at most {most}")
            }
        }
    }
}

impl fmt::Display for Unserved {
    fn fmt<W: fmt::Write>(&self, f: &mut fmt::Formatter<W>) -> fmt::Result {
        match self {
            Unserved::Broken(broken) => write!(f, "{broken}"),
            Unserved::NotARequest => f.write_str(
                "no request: expected a location, and a number of operations of at least 1",
            ),
            Unserved::Unanswered(why) => write!(f, "{why}"),
        }
    }
}

impl fmt::Display for Why {
    fn fmt<W: fmt::Write>(&self, f: &mut fmt::Formatter<W>) -> fmt::Result {
        match self {
            Why::Broken(broken) => write!(f, "{broken}"),
            Why::Refused(refusal) => write!(f, "{refusal}"),
        }
    }
}

impl fmt::Display for Dropped<'_> {
    fn fmt<W: fmt::Write>(&self, f: &mut fmt::Formatter<W>) -> fmt::Result {
        let (name, page, why) = (self.name, self.page, &self.why);
        write!(f, "{name}: page {page}: {why}")
    }
}

impl fmt::Display for SyncFault<'_> {
    fn fmt<W: fmt::Write>(&self, f: &mut fmt::Formatter<W>) -> fmt::Result {
        match self {
            SyncFault::Request { number, why } => {
                write!(f, "standard input: request {number}: {why}")
            }
            SyncFault::Alone(last) => write!(f, "no peer is left: {last}"),
            SyncFault::Empty(location) => write!(
                f,
                "the operation at location {location} has no bytes: a line has at least one"
            ),
        }
    }
}
