//! A list of bits whose front may be forgotten.

ghost use Rattle.std.specs.Prelude.{◌≡◌, ◌≢◌, ℕ, ◌+◌, ◌-◌, ◌*◌, ◌/◌, ◌%◌, ◌^◌, ◌<◌, ◌≤◌, ◌↔◌, [], ◌∷◌, ◌++◌, length, drop, replicate, slice_set, slice_index_or, false, MatchOption, OnOk, OnErr};
ghost use Rattle.std.specs.Int.{bit_at};
ghost use Rattle.storage_merkle.specs.Shape.{max_leaves};
ghost use Rattle.storage_bitmap.specs.Chunks.{IsChunkSize, Retained, bit_count, chunk, digit_of, pruned_to};
ghost use Rattle.storage_bitmap.specs.Packed.{AreAppended, HasRoom, IsPacked, IsWritten, bit_in, bits_in};

use crate::bitmap::Readable;
use std::alloc::Global;
use std::marker::Model;
use storage_codec::NoMemory;

/// A list of bits in chunks of `N` bytes, of which those in front may be forgotten. It is kept in as few chunks as its
/// bits need.
#[derive(Drop)]
pub struct Prunable<const N: usize> {
    pruned: usize,
    kept: u64,
    bytes: Vec<u8>,
}

impl<const N: usize> Model for Prunable<N> {
    ghost Value = { Retained };

    ghost view = { λ s. record { pruned = s.pruned; bits = bits_in s.bytes.items s.kept } };

    ghost invariant = { λ s. IsPacked N s.pruned s.kept s.bytes.items };
}

impl<const N: usize> Prunable<N> {
    /// Returns no bits. It allocates nothing.
    pub fn new(alloc: Global) -> Self
        requires { IsChunkSize N }
        ensures { result ≡ record { pruned = 0; bits = [] } }
    {
        Prunable {
            pruned: 0,
            kept: 0,
            bytes: Vec::new(alloc),
        }
    }

    /// Returns no bits past `chunks` chunks, all of them pruned. It allocates nothing.
    pub fn new_with_pruned_chunks(alloc: Global, chunks: usize) -> Self
        requires size { IsChunkSize N }
        requires few { chunks * (8 * N) ≤ max_leaves }
        ensures { result ≡ record { pruned = chunks; bits = [] } }
    {
        Prunable {
            pruned: chunks,
            kept: 0,
            bytes: Vec::new(alloc),
        }
    }

    /// Appends `bit`. If memory runs out (`NoMemory`), nothing changes.
    pub fn push(&mut self, bit: bool) -> Result<(), NoMemory>
        requires { bit_count N self.old < max_leaves }
        ensures ok { OnOk result (self.new ≡ record self.old { bits = self.old.bits ++ bit ∷ [] }) }
        ensures err { OnErr result (self.new ≡ self.old) }
    {
        let kept = self.kept;
        make_room::<N>(&mut self.bytes, kept)?;
        fill(&mut self.bytes, kept, bit);
        self.kept = kept + 1;
        Ok(())
    }

    /// Appends `bits` in their order. If memory runs out (`NoMemory`), nothing changes.
    pub fn append(&mut self, bits: &[bool]) -> Result<(), NoMemory>
        requires { bit_count N self.old + length bits.now ≤ max_leaves }
        ensures ok { OnOk result (self.new ≡ record self.old { bits = self.old.bits ++ bits.now }) }
        ensures err { OnErr result (self.new ≡ self.old) }
    {
        let kept = self.kept;
        let end = kept + bits.len() as u64;
        let chunks = end.div_ceil(8 * N as u64) as usize;
        let missing = chunks * N - self.bytes.len();
        push_zero_bytes(&mut self.bytes, missing)?;
        fill_all(&mut self.bytes, kept, bits);
        self.kept = end;
        Ok(())
    }

    /// Sets the bit number `bit` among all bits to `value`. It must be there and not be pruned. It allocates nothing.
    pub fn set_bit(&mut self, bit: u64, value: bool)
        requires kept { self.old.pruned * (8 * N) ≤ bit }
        requires within { bit < bit_count N self.old }
        ensures { self.new ≡ record self.old {
          bits = slice_set self.old.bits
              (bit - self.old.pruned * (8 * N)) value;
        } }
    {
        let place = bit - pruned_bits::<N>(self.pruned);
        write(&mut self.bytes, place, value);
    }

    /// Returns the bit number `bit` among all bits. It must be there and not be pruned. It allocates nothing.
    pub fn get_bit(&self, bit: u64) -> bool
        requires kept { self.now.pruned * (8 * N) ≤ bit }
        requires within { bit < bit_count N self.now }
        ensures { result ≡ slice_index_or self.now.bits (bit - self.now.pruned * (8 * N)) false }
    {
        let place = bit - pruned_bits::<N>(self.pruned);
        is_set(&self.bytes, place)
    }

    /// Chunk number `index`, which is not pruned and has a bit. What is past the bits is 0.
    pub(crate) fn lend_chunk(&self, index: usize) -> &[u8; N]
        requires kept { self.now.pruned ≤ index }
        requires within { index * (8 * N) < bit_count N self.now }
        ensures { result.now ≡ chunk N self.now.bits (index - self.now.pruned) }
    {
        let start = (index - self.pruned) * N;
        self.bytes[start..].first_chunk().unwrap()
    }

    /// Returns the last chunk that is not pruned; `None` if there is none. What is past the bits is 0.
    pub fn last_chunk(&self) -> Option<&[u8; N]>
        ensures { MatchOption result (self.now.bits ≡ []) (λ last. (self.now.bits ≢ [])
            × (last.now ≡ chunk N self.now.bits ((length self.now.bits - 1) / (8 * N)))) }
    {
        self.bytes.last_chunk()
    }

    /// Forgets the chunks below that of the bit number `bit`, which may be one past the last bit. It allocates nothing.
    pub fn prune_to_bit(&mut self, bit: u64)
        requires { bit ≤ bit_count N self.old }
        ensures { self.new ≡ pruned_to N self.old (bit / (8 * N)) }
    {
        let pruned = self.pruned;
        let chunks = (bit / (8 * N as u64)) as usize;
        if chunks <= pruned {
            return;
        }
        let gone = (chunks - pruned) * N;
        self.pruned = chunks;
        self.kept -= 8 * gone as u64;
        remove_front(&mut self.bytes, gone);
    }
}

impl<const N: usize> Readable<N> for Prunable<N> {
    ghost retained = { λ s. s };

    fn len(&self) -> u64 {
        pruned_bits::<N>(self.pruned) + self.kept
    }

    fn pruned_chunks(&self) -> usize {
        self.pruned
    }

    fn get_chunk(&self, index: usize) -> [u8; N] {
        *self.lend_chunk(index)
    }
}

/// Returns how many bits `chunks` chunks have.
fn pruned_bits<const N: usize>(chunks: usize) -> u64
    requires size { N ≤ 2 ^ 59 }
    requires few { chunks * (8 * N) ≤ max_leaves }
    ensures { result ≡ chunks * (8 * N) }
{
    chunks as u64 * (8 * N as u64)
}

/// Makes room in `bytes`, which have `kept` bits, for one bit more: appends a clear chunk, if they are full.
fn make_room<const N: usize>(bytes: &mut Vec<u8>, kept: u64) -> Result<(), NoMemory>
    requires few { 8 * (length bytes.old.items + N) < 2 ^ 64 }
    requires whole { (kept % (8 * N) ≡ 0) ↔ (kept ≡ 8 * length bytes.old.items) }
    ensures ok { OnOk result (HasRoom N bytes.old.items bytes.new.items kept) }
    ensures err { OnErr result (bytes.new.items ≡ bytes.old.items) }
{
    if kept.is_multiple_of(8 * N as u64) {
        push_zero_bytes(bytes, N)?;
    }
    Ok(())
}

/// Appends `more` clear bytes to `bytes`.
#[cold]
fn push_zero_bytes(bytes: &mut Vec<u8>, more: usize) -> Result<(), NoMemory>
    requires { length bytes.old.items + more < 2 ^ 64 }
    ensures ok { OnOk result (bytes.new.items ≡ bytes.old.items ++ replicate more 0) }
    ensures err { OnErr result (bytes.new.items ≡ bytes.old.items) }
{
    let count = bytes.len();
    bytes.resize(count + more, 0)?;
    Ok(())
}

/// Returns whether bit number `place` of `bytes` is set: of byte `place / 8`, which must be there, under the mask
/// `1 << (place mod 8)`. It allocates nothing.
pub fn is_set(bytes: &[u8], place: u64) -> bool
    requires { place / 8 < length bytes.now }
    ensures { result ≡ bit_in bytes.now place }
{
    bytes[(place / 8) as usize] >> (place % 8) & 1 == 1
}

/// Sets bit number `place` of `bytes` to `bit`.
fn write(bytes: &mut Vec<u8>, place: u64, bit: bool)
    requires { place / 8 < length bytes.old.items }
    ensures { IsWritten bytes.old.items bytes.new.items place bit }
{
    let index = (place / 8) as usize;
    bytes[index] = with_bit(bytes[index], (place % 8) as u32, bit);
}

/// Sets bit number `place` of `bytes`, which is clear, to `bit`.
fn fill(bytes: &mut Vec<u8>, place: u64, bit: bool)
    requires within { place / 8 < length bytes.old.items }
    requires clear { bit_in bytes.old.items place ≡ false }
    ensures { IsWritten bytes.old.items bytes.new.items place bit }
{
    if bit {
        bytes[(place / 8) as usize] |= 1 << (place % 8);
    }
}

/// Sets the bits of `bytes` from number `place` on, which are clear, to `bits`.
fn fill_all(bytes: &mut Vec<u8>, place: u64, bits: &[bool])
    requires within { place + length bits.now ≤ 8 * length bytes.old.items }
    requires few { place + length bits.now < 2 ^ 64 }
    requires clear { (i : ℕ) → place ≤ i → bit_in bytes.old.items i ≡ false }
    ensures { AreAppended bytes.old.items bytes.new.items place bits.now }
{
    let mut next = place;
    for bit in bits {
        fill(bytes, next, *bit);
        next += 1;
    }
}

/// Returns `byte` with its bit number `place`, from the lowest, set to `bit`.
fn with_bit(byte: u8, place: u32, bit: bool) -> u8
    requires { place < 8 }
    ensures there { bit_at result place ≡ digit_of bit }
    ensures others { (i : ℕ) → i < 8 → i ≢ place → bit_at result i ≡ bit_at byte i }
{
    let mask = 1 << place;
    if bit { byte | mask } else { byte & !mask }
}

/// Takes the first `count` of `bytes` away.
fn remove_front(bytes: &mut Vec<u8>, count: usize)
    requires { count ≤ length bytes.old.items }
    ensures { bytes.new.items ≡ drop count bytes.old.items }
{
    let end = bytes.len();
    bytes.copy_within(count..end, 0);
    bytes.truncate(end - count);
}
