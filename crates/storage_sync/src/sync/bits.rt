//! The bits of a page.

ghost use Rattle.std.specs.Prelude.{◌≡◌, ℕ, ◌+◌, ◌*◌, ◌/◌, ◌%◌, ◌^◌, ◌<◌, ◌≤◌, [], List, length, get_or, IfOk};
ghost use Rattle.storage_bitmap.specs.Chunks.{IsChunkSize};
ghost use Rattle.storage_bitmap.specs.Packed.{bit_in};
ghost use Rattle.storage_sync.specs.Pages.{chunk_bits};

use bytes::Bytes;
use std::alloc::Global;
use storage_codec::NoMemory;
use storage_current::qmdb::current::proof::Chunk;

/// Returns the first `count` bits of `chunks`, of `chunk_size` bytes each.
pub(crate) fn bits_of(
    alloc: Global,
    chunks: &[Bytes],
    chunk_size: usize,
    count: usize,
) -> Result<Vec<bool>, NoMemory>
    requires { IsChunkSize chunk_size }
    ensures { IfOk result (λ bits. bits.items ≡ chunk_bits chunk_size count chunks.now) }
{
    let mut bits = Vec::with_capacity(alloc, count)?;
    for index in 0..count {
        bits.push(bit_of(chunks, chunk_size, index))?;
    }
    Ok(bits)
}

/// Bit number `index` of `chunks`, of `chunk_size` bytes each; clear past them.
fn bit_of(chunks: &[Bytes], chunk_size: usize, index: usize) -> bool
    requires { IsChunkSize chunk_size }
    ensures { result ≡ bit_in (get_or chunks.now (index / (8 * chunk_size)) [])
        (index % (8 * chunk_size)) }
{
    let chunk = index / (8 * chunk_size);
    if chunk >= chunks.len() {
        return false;
    }
    bit_in(chunks[chunk].bytes(), index % (8 * chunk_size))
}

/// Bit number `place` of `bytes`, the lowest of each byte first; clear past them.
fn bit_in(bytes: &[u8], place: usize) -> bool
    ensures { result ≡ bit_in bytes.now place }
{
    if place / 8 >= bytes.len() {
        return false;
    }
    bytes[place / 8] >> (place % 8) & 1 == 1
}
