//! Chunks of bits, and their grafting.

ghost use Rattle.std.specs.Prelude.{◌≡◌, ℕ, ◌+◌, ◌*◌, ◌/◌, ◌%◌, ◌^◌, ◌≤◌, ◌<◌, ◌++◌, Bool, drop, IfOk, OnOk};
ghost use Rattle.storage_merkle.specs.Calc.{grafted_digest, is_zero};
ghost use Rattle.storage_bitmap.specs.Chunks.{packed_bytes, chunk, digit_of, number_of};
ghost use Rattle.storage_current.specs.Grafted.{grafted_over};

use crate::node::{Grafts, Node};
use crate::shape::power;
use std::alloc::{AllocError, Global};
use storage_codec::digest::{Digest, Hasher};

/// Chunk number `index` of `bits`, of `size` bytes: what is past the bits is 0. Fails only if memory runs out.
pub fn chunk(alloc: Global, size: usize, bits: &[bool], index: u64) -> Result<Vec<u8>, AllocError>
    requires each { 8 * size < 2 ^ 64 }
    requires start { index * (8 * size) < 2 ^ 64 }
    ensures { IfOk result (λ bytes. bytes.items ≡ chunk size bits.now index) }
{
    let mut bytes = Vec::new(alloc);
    let start = index * (8 * size as u64);
    push_bytes(&mut bytes, size, skipped(bits, start))?;
    Ok(bytes)
}

/// Returns those of `bits` after the first `count`.
fn skipped(bits: &[bool], count: u64) -> &[bool]
    ensures { result.now ≡ drop count bits.now }
{
    if count < bits.len() as u64 {
        &bits[count as usize..]
    } else {
        &[]
    }
}

/// Appends to `bytes` the first `8 * count` of `bits`, as `count` bytes.
fn push_bytes(bytes: &mut Vec<u8>, count: usize, bits: &[bool]) -> Result<(), AllocError>
    ensures { OnOk result (bytes.new.items ≡ bytes.old.items ++ packed_bytes count bits.now) }
{
    if count == 0 {
        return Ok(());
    }
    bytes.push(number_of(bits, 8) as u8)?;
    push_bytes(bytes, count - 1, skipped(bits, 8))?;
    Ok(())
}

/// Returns the number whose `places` lowest binary digits are the first of `bits`, low to high, where missing bits are
/// 0.
fn number_of(bits: &[bool], places: u32) -> u64
    requires { places ≤ 8 }
    ensures value { result ≡ number_of places bits.now }
    ensures small { result < 2 ^ places }
{
    if places == 0 {
        return 0;
    }
    match bits.split_first() {
        None => 0,
        Some((bit, rest)) => bit_value(*bit) + 2 * number_of(rest, places - 1),
    }
}

/// 1 for a `bit` that is set, else 0.
fn bit_value(bit: bool) -> u64
    ensures value { result ≡ digit_of bit }
    ensures small { result ≤ 1 }
{
    if bit { 1 } else { 0 }
}

/// Returns whether all `bytes` are zero.
fn is_zero(bytes: &[u8]) -> bool
    ensures { result ≡ is_zero bytes.now }
{
    match bytes.split_first() {
        None => true,
        Some((byte, rest)) => *byte == 0 && is_zero(rest),
    }
}

/// Returns the digest of a node with `chunk` grafted over it, from `inner`, its own digest: an all-zero chunk is not
/// hashed.
fn grafted_digest<H: Hasher>(chunk: &[u8], inner: H::Digest) -> H::Digest
    ensures { H.Digest.text result ≡ grafted_digest H.hash_of chunk.now (H.Digest.text inner) }
{
    if is_zero(chunk) {
        inner
    } else {
        hash_two::<H>(chunk, inner.bytes())
    }
}

/// Returns the digest of `first` and `second`, joined.
fn hash_two<H: Hasher>(first: &[u8], second: &[u8]) -> H::Digest
    ensures { H.Digest.text result ≡ H.hash_of (first.now ++ second.now) }
{
    H::hash(&[first, second])
}

/// The chunks of some bits, of which the first ones are grafted over nodes.
#[derive(Drop)]
pub(crate) struct Chunks<'a> {
    /// All bits, from the first chunk on.
    pub bits: &'a [bool],
    /// How many bytes a chunk has.
    pub size: usize,
    /// The height of the nodes over a chunk's leaves.
    pub height: u32,
    /// How many chunks are grafted.
    pub count: u64,
    ghost fits: { (2 ^ height ≡ 8 * size) × (height ≤ 62) },
}

impl Chunks<'_> {
    /// Returns whether the node `place` has a chunk grafted.
    fn is_grafted(&self, place: Node) -> bool
        ensures { result ≡ grafted_over self.now.height self.now.count place.first place.height }
    {
        let each = power(self.height);
        place.height() == self.height
            && place.first() % each == 0
            && place.first() / each < self.count
    }
}

impl<H: Hasher> Grafts<H> for Chunks<'_> {
    ghost grafted = { λ s. grafted_over s.height s.count };

    ghost chunk = { λ s a. chunk s.size s.bits.now (a / 2 ^ s.height) };

    fn graft(&self, alloc: Global, place: Node, inner: H::Digest) -> Result<H::Digest, AllocError> {
        if !self.is_grafted(place) {
            return Ok(inner);
        }
        let index = place.first() / power(self.height);
        let chunk = chunk(alloc, self.size, self.bits, index)?;
        Ok(grafted_digest::<H>(&chunk, inner))
    }
}
