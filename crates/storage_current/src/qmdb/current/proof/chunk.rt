//! What may stand for the bytes of a chunk of bits: an array, a slice, or shared bytes.

ghost use Rattle.std.specs.Prelude.{◌≡◌, ℕ, List};

use bytes::Bytes;

/// A chunk of activity bits, as a claim or a proof has it.
pub trait Chunk {
    /// The bytes of the chunk.
    ghost text: { Self → List ℕ };

    /// Returns the bytes of the chunk. Allocates nothing.
    fn bytes(&self) -> &[u8]
        ensures { result.now ≡ text self.now };
}

impl<const N: usize> Chunk for [u8; N] {
    ghost text = { λ chunk. chunk };

    fn bytes(&self) -> &[u8] {
        self
    }
}

impl Chunk for &[u8] {
    ghost text = { λ chunk. chunk.now };

    fn bytes(&self) -> &[u8] {
        *self
    }
}

impl Chunk for Bytes {
    ghost text = { λ chunk. chunk };

    fn bytes(&self) -> &[u8] {
        self.as_slice()
    }
}
