//! The fields of a proof, one behind another.

use crate::agreed::{Agreed, Family};
use crate::request::{Format, Shows};
use commonware_storage::codec::{Read as _, UInt};
use std::alloc::{AllocError, AllocFailed, Global};

/// The fields of a proof.
#[derive(Drop)]
pub(super) struct Fields<'p> {
    /// The tag: 0 where an absence is shown by an update, 1 where by a commit.
    pub tag: u8,
    /// The location.
    pub location: u64,
    /// The chunk of activity bits around it.
    pub chunk: &'p [u8],
    /// How many leaves the tree has.
    pub leaves: u64,
    /// How many of its peaks are inactive.
    pub inactive: u64,
    /// The digests of nodes.
    pub digests: Vec<&'p [u8]>,
    /// The digest of the pending chunk.
    pub pending: Option<&'p [u8]>,
    /// The digest of the partial chunk.
    pub partial: Option<&'p [u8]>,
    /// The operations root.
    pub ops_root: &'p [u8],
    /// What stands behind the proof of the operation.
    pub behind: &'p [u8],
}

/// Why a field can't be taken.
#[derive(Clone, Copy)]
pub(super) enum Cut {
    /// Where this field should be, the proof has not what was expected of it.
    Field(&'static str, &'static str),
    /// Out of memory.
    Memory,
}

impl From<AllocError> for Cut {
    fn from(_error: AllocError) -> Self {
        Cut::Memory
    }
}

impl<T: Drop> From<AllocFailed<T>> for Cut {
    fn from(_error: AllocFailed<T>) -> Self {
        Cut::Memory
    }
}

/// A proof that is being taken apart.
#[derive(Drop)]
pub(super) struct Parts<'p> {
    /// What takes memory.
    alloc: Global,
    /// What is agreed of the snapshot.
    agreed: Agreed,
    /// How a field is written.
    format: Format,
    /// How many bytes were taken.
    pub offset: usize,
    /// The bytes that are left.
    left: &'p [u8],
    /// A line for each field that was taken.
    pub text: String,
}

impl<'p> Parts<'p> {
    /// Returns `proof`, of which nothing is taken yet.
    pub fn new(alloc: Global, agreed: Agreed, format: Format, proof: &'p [u8]) -> Self {
        Parts {
            alloc,
            agreed,
            format,
            offset: 0,
            left: proof,
            text: String::new(alloc),
        }
    }

    /// Takes the fields of a proof that shows `shows`: each must be there, and nothing behind them.
    pub fn fields(&mut self, shows: Shows) -> Result<Fields<'p>, Cut> {
        let tag = self.tag(shows)?;
        let (location, chunk) = self.place(shows)?;
        let fields = self.range_proof(tag, location, chunk)?;
        let behind = self.behind(shows)?;
        if self.left.is_empty() {
            Ok(Fields { behind, ..fields })
        } else {
            Err(Cut::Field("the end", "the end of the proof"))
        }
    }

    /// Takes the tag, which the proof of an absence has.
    fn tag(&mut self, shows: Shows) -> Result<u8, Cut> {
        let Shows::Absence = shows else {
            return Ok(0);
        };
        let meaning = "00: an update whose span has the key; 01: a commit at its own floor";
        let tag = self.take(1, "tag", meaning)?;
        Ok(tag.first().copied().unwrap_or(0))
    }

    /// Takes the location, and the chunk around it, which the proof of a range does not have.
    fn place(&mut self, shows: Shows) -> Result<(u64, &'p [u8]), Cut> {
        if let Shows::Range = shows {
            let nothing: &[u8] = &[];
            return Ok((0, nothing));
        }
        let location = self.number("location", "the operation's, counted from 0")?;
        let meaning = "the activity bits around the location";
        let chunk = self.take(self.agreed.chunk, "chunk", meaning)?;
        Ok((location, chunk))
    }

    /// Takes the fields of a range proof over chunks, behind those that are given.
    fn range_proof(&mut self, tag: u8, location: u64, chunk: &'p [u8]) -> Result<Fields<'p>, Cut> {
        let (leaves, inactive) = self.counts()?;
        let digests = self.digests()?;
        let (pending, partial) = self.slots()?;
        Ok(Fields {
            tag,
            location,
            chunk,
            leaves,
            inactive,
            digests,
            pending,
            partial,
            ops_root: self.digest("operations root", "of the tree over the operations alone")?,
            behind: self.left,
        })
    }

    /// Takes the numbers of leaves and of inactive peaks.
    fn counts(&mut self) -> Result<(u64, u64), Cut> {
        let leaves = self.number("leaves", "operations under the root")?;
        let inactive = self.number("inactive peaks", "peaks that lie wholly before the floor")?;
        Ok((leaves, inactive))
    }

    /// Takes the digests behind their number.
    fn digests(&mut self) -> Result<Vec<&'p [u8]>, Cut> {
        let alloc = self.alloc;
        let count = self.number("number of digests", "digests that follow")?;
        let mut digests = Vec::new(alloc);
        for number in 0..count {
            let meaning = format!(in alloc; "number {} of {count}", number + 1)?;
            digests.push(self.digest("digest", meaning.as_str())?)?;
        }
        Ok(digests)
    }

    /// Takes the digests of the pending chunk, which belts alone have, and of the partial one.
    fn slots(&mut self) -> Result<(Option<&'p [u8]>, Option<&'p [u8]>), Cut> {
        let pending = match self.agreed.family {
            Family::Mmr => None,
            Family::Mmb => self.slot(
                "pending chunk",
                "of the chunk that is complete, and over which no node stands yet",
            )?,
        };
        let partial = self.slot("partial chunk", "of the chunk that is not complete")?;
        Ok((pending, partial))
    }

    /// Takes a digest that may be absent.
    fn slot(&mut self, name: &'static str, meaning: &str) -> Result<Option<&'p [u8]>, Cut> {
        match self.left.first() {
            Some(0) => {
                self.take(1, name, "there is none")?;
                Ok(None)
            }
            Some(1) => {
                self.take(1, name, "there is one")?;
                Ok(Some(self.digest(name, meaning)?))
            }
            _ => Err(Cut::Field(name, "00 or 01")),
        }
    }

    /// Takes a digest.
    fn digest(&mut self, name: &'static str, meaning: &str) -> Result<&'p [u8], Cut> {
        self.take(self.agreed.function.digits() / 2, name, meaning)
    }

    /// Takes what stands behind the proof of an operation, or of a range.
    fn behind(&mut self, shows: Shows) -> Result<&'p [u8], Cut> {
        match shows {
            Shows::Value => self.rest("next key", "as keys are written"),
            Shows::Absence => self.rest(
                "update or value",
                "key, value and next key, or the commit's value",
            ),
            _ => Ok(self.left),
        }
    }

    /// Takes a number, and answers it.
    fn number(&mut self, name: &'static str, meaning: &str) -> Result<u64, Cut> {
        let alloc = self.alloc;
        let mut rest = self.left;
        match UInt::read_cfg(alloc, &mut rest, &()) {
            Ok(UInt(number)) => {
                let count = self.left.len().saturating_sub(rest.len());
                let meaning = format!(in alloc; "{number}: {meaning}")?;
                self.take(count, name, meaning.as_str())?;
                Ok(number)
            }
            Err(_) => Err(Cut::Field(name, "a number in the fewest groups of seven bits")),
        }
    }

    /// Takes all that is left.
    fn rest(&mut self, name: &'static str, meaning: &str) -> Result<&'p [u8], Cut> {
        self.take(self.left.len(), name, meaning)
    }

    /// Takes `count` bytes as the field `name`, and writes its line.
    fn take(&mut self, count: usize, name: &'static str, meaning: &str) -> Result<&'p [u8], Cut> {
        if count > self.left.len() {
            return Err(Cut::Field(name, "more bytes"));
        }
        let (bytes, left) = self.left.split_at(count);
        let line = line_of(self.alloc, self.format, self.offset, bytes, name, meaning)?;
        self.text.push_str(line.as_str())?;
        self.offset = self.offset.saturating_add(count);
        self.left = left;
        Ok(bytes)
    }
}

/// Returns the line of the field `name`, which begins at `offset`.
fn line_of(
    alloc: Global,
    format: Format,
    offset: usize,
    bytes: &[u8],
    name: &str,
    meaning: &str,
) -> Result<String, AllocError> {
    let digits = hex::encode(alloc, bytes)?;
    match format {
        Format::Text => format!(in alloc; "{offset}\t{digits}\t{name}\t{meaning}\n"),
        Format::Json => format!(in alloc;
            "{{\"offset\":{offset},\"bytes\":\"{digits}\",\"field\":\"{name}\",\"meaning\":\"{meaning}\"}}\n"
        ),
    }
}
