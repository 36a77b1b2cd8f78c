//! Lists in messages: how many items, then the items.

ghost use Rattle.std.specs.Prelude.{◌≡◌, ◌+◌, ◌*◌, ◌<◌, ◌≤◌, ◌++◌, length, map, OnOk, OnErr, IfOk};
ghost use Rattle.storage_codec.specs.Codec.{Gives, front_at, vector_at};
ghost use Rattle.storage_codec.specs.Parts.{AppendsStart, IsEnding, size_of, vector_text};
ghost use Rattle.storage_merkle.specs.ProofWire.{joined_text};
ghost use Rattle.storage_current.specs.CurrentWire.{as_is};
ghost use Rattle.storage_sync.specs.Messages.{count_at, items_at, list_at, list_text};

use bytes::Bytes;
use std::alloc::Global;
use storage_codec::NoMemory;
use storage_codec::codec::{Buf, EncodeSize, Error, RangeCfg, Read, UInt, Write, sum};
use storage_current::qmdb::current::proof::Chunk;

/// Appends the list of `strings` to `out`, each as its length and its bytes.
#[tactic(auto, using(storage_codec::specs::Laws::Parts::starts_then, storage_codec::specs::Laws::Parts::starts_first))]
pub(crate) fn write_strings(strings: &[Vec<u8>], out: &mut Vec<u8>) -> Result<(), NoMemory>
    ensures ok { OnOk result (out.new.items
        ≡ out.old.items ++ list_text vector_text (map (λ s. s.items) strings.now)) }
    ensures err { OnErr result (AppendsStart out.old.items out.new.items
        (list_text vector_text (map (λ s. s.items) strings.now))) }
{
    UInt(strings.len() as u64).write(out)?;
    write_each(strings, out)?;
    Ok(())
}

/// Appends `strings` to `out`, each as its length and its bytes.
fn write_each(strings: &[Vec<u8>], out: &mut Vec<u8>) -> Result<(), NoMemory>
    ensures ok { OnOk result (out.new.items
        ≡ out.old.items ++ joined_text (map vector_text (map (λ s. s.items) strings.now))) }
    ensures err { OnErr result (AppendsStart out.old.items out.new.items
        (joined_text (map vector_text (map (λ s. s.items) strings.now)))) }
{
    for string in strings {
        string.write(out)?;
    }
    Ok(())
}

/// Appends the list of `chunks` to `out`, each as its bytes.
#[tactic(auto, using(storage_codec::specs::Laws::Parts::starts_then, storage_codec::specs::Laws::Parts::starts_first))]
pub(crate) fn write_chunks(chunks: &[Bytes], out: &mut Vec<u8>) -> Result<(), NoMemory>
    ensures ok { OnOk result (out.new.items ≡ out.old.items ++ list_text as_is chunks.now) }
    ensures err { OnErr result
        (AppendsStart out.old.items out.new.items (list_text as_is chunks.now)) }
{
    UInt(chunks.len() as u64).write(out)?;
    write_bytes(chunks, out)?;
    Ok(())
}

/// Appends the bytes of `chunks` to `out`.
fn write_bytes(chunks: &[Bytes], out: &mut Vec<u8>) -> Result<(), NoMemory>
    ensures ok { OnOk result (out.new.items ≡ out.old.items ++ joined_text (map as_is chunks.now)) }
    ensures err { OnErr result
        (AppendsStart out.old.items out.new.items (joined_text (map as_is chunks.now))) }
{
    for chunk in chunks {
        out.extend_from_slice(chunk.bytes())?;
    }
    Ok(())
}

/// Returns how many bytes the list of `strings` is written as; none if that is no `u64`. Allocates nothing.
pub(crate) fn strings_size(strings: &[Vec<u8>]) -> Option<u64>
    ensures { result
        ≡ size_of (length (list_text vector_text (map (λ s. s.items) strings.now))) }
{
    let mut size = UInt(strings.len() as u64).encode_size();
    for string in strings {
        size = sum(size, string.encode_size());
    }
    size
}

/// Returns how many bytes the list of `chunks` is written as; none if that is no `u64`. Allocates nothing.
pub(crate) fn chunks_size(chunks: &[Bytes]) -> Option<u64>
    ensures { result ≡ size_of (length (list_text as_is chunks.now)) }
{
    let mut size = UInt(chunks.len() as u64).encode_size();
    for chunk in chunks {
        size = sum(size, Some(chunk.bytes().len() as u64));
    }
    size
}

/// Reads a number of items, at most `most`, from the front of `buf`.
#[tactic(auto, using(storage_codec::specs::Laws::Parts::ends_then))]
pub(crate) fn read_count<B: Buf>(alloc: Global, buf: &mut B, most: u64) -> Result<u64, Error>
    ensures gives { Gives (λ n. n) result (B.unread buf.new) (count_at most (B.unread buf.old)) }
    ensures ends { IsEnding (B.unread buf.old) (B.unread buf.new) }
{
    let UInt(count) = UInt::read_cfg(alloc, buf, &())?;
    if count > most {
        return Err(Error::InvalidLength(count));
    }
    Ok(count)
}

/// Reads a list of at most `most` strings of at most `max_len` bytes each from the front of `buf`.
#[tactic(auto, using(storage_codec::specs::Laws::Parts::ends_then))]
pub(crate) fn read_strings<B: Buf>(
    alloc: Global,
    buf: &mut B,
    most: u64,
    max_len: usize,
) -> Result<Vec<Vec<u8>>, Error>
    ensures gives { Gives (λ v. map (λ s. s.items) v.items) result (B.unread buf.new)
        (list_at (vector_at 0 max_len) most (B.unread buf.old)) }
    ensures ends { IsEnding (B.unread buf.old) (B.unread buf.new) }
{
    let count = read_count(alloc, buf, most)?;
    let strings = read_each(alloc, buf, count, max_len)?;
    Ok(strings)
}

/// Reads `count` strings of at most `max_len` bytes each from the front of `buf`.
fn read_each<B: Buf>(
    alloc: Global,
    buf: &mut B,
    count: u64,
    max_len: usize,
) -> Result<Vec<Vec<u8>>, Error>
    ensures gives { Gives (λ v. map (λ s. s.items) v.items) result (B.unread buf.new)
        (items_at (vector_at 0 max_len) count (B.unread buf.old)) }
    ensures ends { IsEnding (B.unread buf.old) (B.unread buf.new) }
{
    let cfg = (
        RangeCfg {
            min: 0,
            max: max_len,
        },
        (),
    );
    let mut strings = Vec::new(alloc);
    for index in 0..count {
        let string = match Vec::<u8>::read_cfg(alloc, buf, &cfg) {
            Ok(string) => string,
            Err(error) => return Err(error),
        };
        strings.push(string)?;
    }
    Ok(strings)
}

/// Reads a list of at most `most` chunks of `chunk_size` bytes each from the front of `buf`.
#[tactic(auto, using(storage_codec::specs::Laws::Parts::ends_then))]
pub(crate) fn read_chunks<B: Buf>(
    alloc: Global,
    buf: &mut B,
    chunk_size: usize,
    most: u64,
) -> Result<Vec<Bytes>, Error>
    ensures gives { Gives (λ v. v.items) result (B.unread buf.new)
        (list_at (front_at chunk_size) most (B.unread buf.old)) }
    ensures ends { IsEnding (B.unread buf.old) (B.unread buf.new) }
{
    let count = read_count(alloc, buf, most)?;
    let chunks = read_bytes(alloc, buf, chunk_size, count)?;
    Ok(chunks)
}

/// Reads `count` chunks of `chunk_size` bytes each from the front of `buf`.
fn read_bytes<B: Buf>(
    alloc: Global,
    buf: &mut B,
    chunk_size: usize,
    count: u64,
) -> Result<Vec<Bytes>, Error>
    ensures gives { Gives (λ v. v.items) result (B.unread buf.new)
        (items_at (front_at chunk_size) count (B.unread buf.old)) }
    ensures ends { IsEnding (B.unread buf.old) (B.unread buf.new) }
{
    let mut chunks = Vec::new(alloc);
    for index in 0..count {
        let chunk = match buf.cut(alloc, chunk_size) {
            Ok(chunk) => chunk,
            Err(error) => return Err(error),
        };
        chunks.push(chunk)?;
    }
    Ok(chunks)
}
