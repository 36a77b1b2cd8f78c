//! Lists on bitmaps that are read by the bit and by the chunk, and that serve the nodes of their tree.

ghost use Rattle.storage_bitmap.specs.Chunks.{IsChunkSize};

use replay_columns::answers::{Answer, At, or_word, tell_next};
use replay_columns::columns::{Digests, Fault, Hex, List, or_fault, parse};
use std::alloc::Global;
use storage_bitmap::bitmap::Readable;
use storage_bitmap::bitmap::authenticated::{MerkleizedBitMap, UnmerkleizedBitMap};
use storage_codec::digest::Digest;
use storage_merkle::merkle::{Position, Storage, mmr};

/// `calls bits`: how many bits a chunk has, and, of the bitmap after the calls, each of these bits with its value and its chunk,
/// and what is read of it by the chunk, with its root and opened to changes.
pub fn bitmaps_read<D: Digest, const N: usize>(
    alloc: Global,
    bitmap: MerkleizedBitMap<D, N>,
    bits: &str,
    out: &mut String,
) -> Result<(), Fault>
    requires { IsChunkSize N }
{
    tell_bits(alloc, &bitmap, bits, out)?;
    compare_chunks(alloc, &bitmap.into_dirty(), out.as_str())
}

/// Compares the chunks of a bitmap that is opened to changes with those that are told at the end of a text.
fn compare_chunks<D: Digest, const N: usize>(
    alloc: Global,
    opened: &UnmerkleizedBitMap<D, N>,
    out: &str,
) -> Result<(), Fault>
    requires { IsChunkSize N }
{
    let mut chunks = String::new(alloc);
    tell_chunks::<N, UnmerkleizedBitMap<D, N>>(opened, &mut chunks)?;
    if out.ends_with(chunks.as_str()) {
        Ok(())
    } else {
        Err(Fault::Differs)
    }
}

/// Adds how many bits there are, how many chunks of them are pruned, and those that are left.
fn tell_chunks<const N: usize, R: Readable<N>>(bits: &R, out: &mut String) -> Result<(), Fault>
    requires { IsChunkSize N }
{
    let count = bits.len();
    let pruned = bits.pruned_chunks();
    write!(out, "{count} {pruned} ")?;
    let start = out.len();
    for index in pruned..count.div_ceil(8 * N as u64) as usize {
        tell_next(out, start, ',', &bits.get_chunk(index))?;
    }
    or_word(out, start, "none")
}

/// Adds how many bits a chunk has, bits with their values, as their chunks have them, and their chunks, and what is read by the
/// chunk.
fn tell_bits<D: Digest, const N: usize>(
    alloc: Global,
    bitmap: &MerkleizedBitMap<D, N>,
    bits: &str,
    out: &mut String,
) -> Result<(), Fault>
    requires { IsChunkSize N }
{
    let bits: List<u64> = parse(alloc, &[bits])?;
    write!(out, "{} ", MerkleizedBitMap::<D, N>::chunk_size_bits())?;
    let start = out.len();
    for bit in &bits.0 {
        tell_bit(bitmap, *bit, start, out)?;
    }
    or_word(out, start, "none")?;
    out.push(' ')?;
    tell_chunks::<N, MerkleizedBitMap<D, N>>(bitmap, out)
}

/// Adds a bit with its value, as its chunk has it, and its chunk, behind a comma where something stands behind the first
/// `start` bytes.
fn tell_bit<D: Digest, const N: usize>(
    bitmap: &MerkleizedBitMap<D, N>,
    bit: u64,
    start: usize,
    out: &mut String,
) -> Result<(), Fault>
    requires { IsChunkSize N }
{
    if bit < bitmap.pruned_bits() || bit >= bitmap.len() {
        return Err(Fault::Malformed);
    }
    let chunk = bitmap.get_chunk_containing(bit);
    let value = MerkleizedBitMap::<D, N>::get_bit_from_chunk(chunk, bit);
    if bitmap.get_bit(bit) != value {
        return Err(Fault::Differs);
    }
    tell_next(out, start, ',', &At(bit, At(u64::from(value), *chunk)))
}

/// `calls positions`: of the bitmap after the calls, as a store of the nodes of its tree, how many nodes it has, the digests at
/// these positions, a dash for none, and the same in one call, or the refusal.
pub fn bitmaps_served<D: Digest, const N: usize>(
    alloc: Global,
    bitmap: &mut MerkleizedBitMap<D, N>,
    positions: &str,
    out: &mut String,
) -> Result<(), Fault> {
    let positions: List<Position<mmr::Family>> = parse(alloc, &[positions])?;
    Storage::<mmr::Family>::size(bitmap).tell(out)?;
    out.push(' ')?;
    tell_each(bitmap, &positions.0, out)?;
    out.push(' ')?;
    let digests = Storage::<mmr::Family>::get_nodes(bitmap, alloc, &positions.0);
    digests.map(Digests).tell(out)
}

/// Adds the digests at positions, a dash for none.
fn tell_each<D: Digest, const N: usize>(
    bitmap: &mut MerkleizedBitMap<D, N>,
    positions: &[Position<mmr::Family>],
    out: &mut String,
) -> Result<(), Fault> {
    let start = out.len();
    for position in positions {
        let node = or_fault(Storage::<mmr::Family>::get_node(bitmap, *position))?;
        tell_next(out, start, ',', &node.map(Hex))?;
    }
    or_word(out, start, "none")
}
