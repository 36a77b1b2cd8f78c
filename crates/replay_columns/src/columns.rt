//! What stands in the columns of a line.

use hex::{FromHex, FromHexError};
use std::alloc::{AllocError, AllocFailed, Global};
use storage_codec::codec::{FixedBytes, RangeCfg};
use storage_codec::digest::Digest;
use storage_codec::{NoMemory, codec};
use storage_merkle::merkle::{self, Bagging, Family, Location, Position, Proof};
use storage_ops::qmdb;

/// Why a line has no answer.
#[derive(Clone, Copy)]
pub enum Fault {
    /// The columns are not those of the list.
    Malformed,
    /// Two calls that promise the same answer differently.
    Differs,
    /// Out of memory.
    Memory,
}

impl From<AllocError> for Fault {
    fn from(_error: AllocError) -> Fault {
        Fault::Memory
    }
}

impl<T: Drop> From<AllocFailed<T>> for Fault {
    fn from(_error: AllocFailed<T>) -> Fault {
        Fault::Memory
    }
}

impl From<NoMemory> for Fault {
    fn from(_error: NoMemory) -> Fault {
        Fault::Memory
    }
}

/// Where no case of the list is refused, a refusal says that the columns are other ones.
impl From<codec::Error> for Fault {
    fn from(error: codec::Error) -> Fault {
        match error {
            codec::Error::Memory => Fault::Memory,
            _ => Fault::Malformed,
        }
    }
}

/// Why a call was refused.
pub trait Refusal {
    /// Returns why a line has no answer if no case of the list is refused: for want of memory, or its columns are other
    /// ones.
    fn fault(&self) -> Fault;
}

impl<F> Refusal for merkle::Error<F> {
    fn fault(&self) -> Fault {
        match self {
            merkle::Error::Memory => Fault::Memory,
            _ => Fault::Malformed,
        }
    }
}

impl<F> Refusal for qmdb::Error<F> {
    fn fault(&self) -> Fault {
        match self {
            qmdb::Error::Memory => Fault::Memory,
            qmdb::Error::Merkle(error) => error.fault(),
            _ => Fault::Malformed,
        }
    }
}

/// Returns what a call gives that no case of the list refuses.
pub fn or_fault<T, E: Refusal + Drop>(given: Result<T, E>) -> Result<T, Fault> {
    match given {
        Ok(value) => Ok(value),
        Err(refusal) => Err(refusal.fault()),
    }
}

/// The columns of a case, of which some are read already.
#[derive(Drop)]
pub struct Columns<'a> {
    texts: &'a [&'a str],
    next: usize,
}

impl<'a> Columns<'a> {
    /// Returns the next column.
    pub fn text(&mut self) -> Result<&'a str, Fault> {
        match self.texts.get(self.next) {
            Some(text) => {
                self.next = self.next.saturating_add(1);
                Ok(*text)
            }
            None => Err(Fault::Malformed),
        }
    }
}

/// What stands in a column, or in some columns after one another.
pub trait Column: Sized + Drop {
    /// Reads it from the columns in front.
    fn read(alloc: Global, columns: &mut Columns<'_>) -> Result<Self, Fault>;
}

/// Reads all columns of a case.
pub fn parse<T: Column>(alloc: Global, columns: &[&str]) -> Result<T, Fault> {
    let mut columns = Columns {
        texts: columns,
        next: 0,
    };
    let value = T::read(alloc, &mut columns)?;
    if columns.next == columns.texts.len() {
        Ok(value)
    } else {
        Err(Fault::Malformed)
    }
}

/// Returns a number.
pub fn number(text: &str) -> Result<u64, Fault> {
    match text.parse::<u64>() {
        Ok(number) => Ok(number),
        Err(_) => Err(Fault::Malformed),
    }
}

/// Bytes in hexadecimal; `-` is no bytes.
pub fn bytes(alloc: Global, text: &str) -> Result<Vec<u8>, Fault> {
    if text == "-" {
        return Ok(Vec::new(alloc));
    }
    match hex::decode(alloc, text) {
        Ok(bytes) => Ok(bytes),
        Err(FromHexError::OutOfMemory) => Err(Fault::Memory),
        Err(_) => Err(Fault::Malformed),
    }
}

/// `N` bytes in hexadecimal.
pub fn array<const N: usize>(text: &str) -> Result<[u8; N], Fault> {
    match <[u8; N] as FromHex>::from_hex(text) {
        Ok(bytes) => Ok(bytes),
        Err(_) => Err(Fault::Malformed),
    }
}

/// Returns a digest in hexadecimal.
pub fn digest<D: Digest>(alloc: Global, text: &str) -> Result<D, Fault> {
    let bytes = bytes(alloc, text)?;
    Ok(D::decode(alloc, bytes.as_slice())?)
}

/// Digests with commas between them, if `none` is none, or with another separator, if `-` is none.
pub fn digests_between<D: Digest>(
    alloc: Global,
    text: &str,
    separator: char,
) -> Result<Vec<D>, Fault> {
    let mut digests = Vec::new(alloc);
    if !is_none(text, separator) {
        for part in text.split(separator) {
            digests.push(digest(alloc, part)?)?;
        }
    }
    Ok(digests)
}

/// Returns what stands between commas, if `none` is nothing, or between other separators, if `-` is nothing.
pub fn parts_between<T: Column>(
    alloc: Global,
    text: &str,
    separator: char,
) -> Result<Vec<T>, Fault> {
    let mut parts = Vec::new(alloc);
    if !is_none(text, separator) {
        for part in text.split(separator) {
            parts.push(parse(alloc, &[part])?)?;
        }
    }
    Ok(parts)
}

/// Places and their digests, `PLACE=DIGEST` with slashes between them; `-` is none.
pub fn placed<P: Column, D: Digest>(alloc: Global, text: &str) -> Result<Vec<(P, D)>, Fault> {
    let mut placed = Vec::new(alloc);
    if text != "-" {
        for part in text.split('/') {
            placed.push(digest_at(alloc, part)?)?;
        }
    }
    Ok(placed)
}

/// Returns a place and its digest.
fn digest_at<P: Column, D: Digest>(alloc: Global, text: &str) -> Result<(P, D), Fault> {
    let (place, written) = halves(text, '=')?;
    let place = parse(alloc, &[place])?;
    Ok((place, digest(alloc, written)?))
}

/// Returns the lengths of a type `vec:LEAST:MOST`.
pub fn lengths(kind: &str) -> Result<RangeCfg, Fault> {
    let rest = kind.strip_prefix("vec:").ok_or(Fault::Malformed)?;
    let (min, max) = halves(rest, ':')?;
    Ok(RangeCfg {
        min: number(min)? as usize,
        max: number(max)? as usize,
    })
}

/// Returns whether a text stands for no parts with a separator between them.
fn is_none(text: &str, separator: char) -> bool {
    if separator == ',' {
        text == "none"
    } else {
        text == "-"
    }
}

/// Returns what a text has before and after the first separator.
pub fn halves(text: &str, separator: char) -> Result<(&str, &str), Fault> {
    text.split_once(separator).ok_or(Fault::Malformed)
}

/// Returns each of some byte strings, as a slice of it.
pub fn lent(alloc: Global, strings: &[Vec<u8>]) -> Result<Vec<&[u8]>, Fault> {
    let mut lent = Vec::new(alloc);
    for string in strings {
        lent.push(string.as_slice())?;
    }
    Ok(lent)
}

/// Returns what stands from one place to before another.
pub fn places<T>(items: &[T], start: u64, end: u64) -> Result<&[T], Fault> {
    items
        .get(start as usize..end as usize)
        .ok_or(Fault::Malformed)
}

/// A digest in hexadecimal.
#[derive(Drop)]
pub struct Hex<D>(pub D);

/// Digests in hexadecimal with commas between them; `none` is none.
#[derive(Drop)]
pub struct Digests<D>(pub Vec<D>);

/// What stands between commas; `none` is nothing.
#[derive(Drop)]
pub struct List<T>(pub Vec<T>);

/// What says how a case was made.
#[derive(Drop)]
pub struct Label;

impl Column for Label {
    fn read(_alloc: Global, columns: &mut Columns<'_>) -> Result<Label, Fault> {
        columns.text()?;
        Ok(Label)
    }
}

impl Column for u64 {
    fn read(_alloc: Global, columns: &mut Columns<'_>) -> Result<u64, Fault> {
        number(columns.text()?)
    }
}

impl Column for usize {
    fn read(_alloc: Global, columns: &mut Columns<'_>) -> Result<usize, Fault> {
        Ok(number(columns.text()?)? as usize)
    }
}

impl Column for String {
    fn read(alloc: Global, columns: &mut Columns<'_>) -> Result<String, Fault> {
        Ok(String::from_str(alloc, columns.text()?)?)
    }
}

impl<F> Column for Location<F> {
    fn read(_alloc: Global, columns: &mut Columns<'_>) -> Result<Location<F>, Fault> {
        Ok(Location::new(number(columns.text()?)?))
    }
}

impl<F> Column for Position<F> {
    fn read(_alloc: Global, columns: &mut Columns<'_>) -> Result<Position<F>, Fault> {
        Ok(Position::new(number(columns.text()?)?))
    }
}

impl Column for Bagging {
    fn read(_alloc: Global, columns: &mut Columns<'_>) -> Result<Bagging, Fault> {
        match columns.text()? {
            "forward" => Ok(Bagging::ForwardFold),
            "backward" => Ok(Bagging::BackwardFold),
            _ => Err(Fault::Malformed),
        }
    }
}

/// Bytes in hexadecimal; `-` is no bytes.
impl Column for Vec<u8> {
    fn read(alloc: Global, columns: &mut Columns<'_>) -> Result<Vec<u8>, Fault> {
        bytes(alloc, columns.text()?)
    }
}

impl<const N: usize> Column for [u8; N] {
    fn read(_alloc: Global, columns: &mut Columns<'_>) -> Result<[u8; N], Fault> {
        array(columns.text()?)
    }
}

/// A key.
impl Column for FixedBytes<4> {
    fn read(_alloc: Global, columns: &mut Columns<'_>) -> Result<FixedBytes<4>, Fault> {
        Ok(FixedBytes {
            bytes: array(columns.text()?)?,
        })
    }
}

impl<D: Digest> Column for Hex<D> {
    fn read(alloc: Global, columns: &mut Columns<'_>) -> Result<Hex<D>, Fault> {
        Ok(Hex(digest(alloc, columns.text()?)?))
    }
}

impl<D: Digest> Column for Digests<D> {
    fn read(alloc: Global, columns: &mut Columns<'_>) -> Result<Digests<D>, Fault> {
        Ok(Digests(digests_between(alloc, columns.text()?, ',')?))
    }
}

impl<T: Column> Column for List<T> {
    fn read(alloc: Global, columns: &mut Columns<'_>) -> Result<List<T>, Fault> {
        Ok(List(parts_between(alloc, columns.text()?, ',')?))
    }
}

/// A column; `-` is none.
impl<T: Column> Column for Option<T> {
    fn read(alloc: Global, columns: &mut Columns<'_>) -> Result<Option<T>, Fault> {
        match columns.text()? {
            "-" => Ok(None),
            text => Ok(Some(parse(alloc, &[text])?)),
        }
    }
}

/// `leaves inactive digests`; `0 0 none` is the default proof.
impl<F: Family, D: Digest> Column for Proof<F, D> {
    fn read(alloc: Global, columns: &mut Columns<'_>) -> Result<Proof<F, D>, Fault> {
        let (leaves, inactive_peaks, digests): (Location<F>, usize, Digests<D>) = Column::read(
            alloc, columns,
        )?;
        if leaves.as_u64() == 0 && inactive_peaks == 0 && digests.0.is_empty() {
            return Ok(Proof::default(alloc));
        }
        Ok(Proof {
            leaves,
            inactive_peaks,
            digests: digests.0,
        })
    }
}

impl<A: Column, B: Column> Column for (A, B) {
    fn read(alloc: Global, columns: &mut Columns<'_>) -> Result<(A, B), Fault> {
        let first = A::read(alloc, columns)?;
        Ok((first, B::read(alloc, columns)?))
    }
}

impl<A: Column, B: Column, C: Column> Column for (A, B, C) {
    fn read(alloc: Global, columns: &mut Columns<'_>) -> Result<(A, B, C), Fault> {
        let (first, second) = Column::read(alloc, columns)?;
        Ok((first, second, C::read(alloc, columns)?))
    }
}

impl<A: Column, B: Column, C: Column, D: Column> Column for (A, B, C, D) {
    fn read(alloc: Global, columns: &mut Columns<'_>) -> Result<(A, B, C, D), Fault> {
        let (first, second, third) = Column::read(alloc, columns)?;
        Ok((first, second, third, D::read(alloc, columns)?))
    }
}
