//! Bits that are written as digits.

ghost use Rattle.storage_bitmap.specs.Chunks.{IsChunkSize};

use crate::columns::Fault;
use std::alloc::Global;
use storage_bitmap::bitmap::{Prunable, Readable};
use storage_merkle::merkle::MAX_LEAVES;

/// Returns a bit for each digit; `-` is none.
pub fn bits_of<const N: usize>(alloc: Global, digits: &str) -> Result<Prunable<N>, Fault>
    requires { IsChunkSize N }
{
    let mut bits = Prunable::new(alloc);
    if digits == "-" {
        return Ok(bits);
    }
    for digit in digits.bytes() {
        if bits.len() >= MAX_LEAVES {
            return Err(Fault::Memory);
        }
        bits.push(digit == b'1')?;
    }
    Ok(bits)
}

/// Returns the digits in chunks, the last one filled up with zeros.
pub fn chunks_of<const N: usize>(alloc: Global, digits: &str) -> Result<Vec<[u8; N]>, Fault>
    requires { IsChunkSize N }
{
    let mut chunks = Vec::new(alloc);
    for part in digits.as_bytes().chunks(8 * N) {
        let mut chunk = [0; N];
        for (place, digit) in part.iter().enumerate() {
            if *digit == b'1' {
                set(&mut chunk, place);
            }
        }
        chunks.push(chunk)?;
    }
    Ok(chunks)
}

/// Sets the bit at a place, low to high in each byte.
fn set(chunk: &mut [u8], place: usize) {
    if let Some(byte) = chunk.get_mut(place / 8) {
        *byte |= 1 << (place % 8);
    }
}
