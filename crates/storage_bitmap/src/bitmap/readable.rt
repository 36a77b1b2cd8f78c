//! Bits that can be read by the chunk.

ghost use Rattle.std.specs.Prelude.{◌≡◌, ℕ, ◌+◌, ◌-◌, ◌*◌, ◌<◌, ◌≤◌, length};
ghost use Rattle.storage_bitmap.specs.Chunks.{IsChunkSize, Retained, bit_count, chunk};

/// Bits that can be read by the chunk of `N` bytes. Bit `b` stands in chunk `b / 8N`, byte `(b mod 8N) / 8`, under the
/// mask `1 << (b mod 8)`.
pub trait Readable<const N: usize> {
    /// The bits that are left, and how many chunks before them are pruned.
    ghost retained: { Self → Retained };

    /// Returns how many bits there are, the pruned ones among them.
    fn len(&self) -> u64
        ensures value { result ≡ bit_count N (retained self.now) }
        ensures size { IsChunkSize N };

    /// Returns how many chunks are pruned: those in front.
    fn pruned_chunks(&self) -> usize
        ensures value { result ≡ (retained self.now).pruned }
        ensures size { IsChunkSize N };

    /// Chunk number `index`, which is not pruned and has a bit. What is past the bits is 0.
    fn get_chunk(&self, index: usize) -> [u8; N]
        requires kept { (retained self.now).pruned ≤ index }
        requires within { index * (8 * N) < bit_count N (retained self.now) }
        ensures { result ≡ chunk N (retained self.now).bits (index - (retained self.now).pruned) };
}
