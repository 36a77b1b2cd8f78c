//! A list of bits with a root: that of a Merkle mountain range whose leaves are the complete chunks of the bits, together with
//! the number of bits and the last chunk where they do not fill it.

ghost use Rattle.std.specs.Prelude.{◌≡◌, ℕ, ◌+◌, ◌-◌, ◌*◌, ◌/◌, ◌%◌, ◌<◌, ◌≤◌, ◌↔◌, List, Bool, length, replicate, false, slice_index_or, IsTrue};
ghost use Rattle.storage_merkle.specs.Mmr.{mmr};
ghost use Rattle.storage_merkle.specs.Shape.{size};
ghost use Rattle.storage_bitmap.specs.Chunks.{IsChunkSize, bit_count, chunk as chunk_of};
ghost use Rattle.storage_bitmap.specs.Packed.{bit_in};

mod as_storage;
mod inclusion;
mod merkleized;
mod proof;
mod rehashed;
mod state;
mod unmerkleized;

use crate::bitmap::{Prunable, Readable, is_set};
pub use merkleized::PrunedState;
pub use state::{Merkleized, State, Unmerkleized};
use std::alloc::Global;
use std::marker::Model;
use storage_codec::digest::Digest;
use storage_merkle::merkle::mem::Mem;
use storage_merkle::merkle::{Position, mmr};

/// A bitmap whose root is known.
pub type MerkleizedBitMap<D, const N: usize> = BitMap<D, N, Merkleized<D>>;

/// A bitmap whose bits may have changed since its root was known.
pub type UnmerkleizedBitMap<D, const N: usize> = BitMap<D, N, Unmerkleized>;

/// A list of bits in chunks of `N` bytes, and the tree over the complete ones. Those in front may be forgotten, with all of
/// the tree that the others do not need. Its state tells whether the tree is that of the bits: only then it has a root.
#[derive(Drop)]
pub struct BitMap<D: Digest, const N: usize, M: State<D>> {
    bits: Prunable<N>,
    tree: Mem<mmr::Family, D>,
    state: M,
    clear: Clear<N>,
    alloc: Global,
}

/// A chunk without a set bit, which is lent if no chunk is left.
#[derive(Drop)]
struct Clear<const N: usize> {
    bytes: [u8; N],
    ghost clear: { bytes ≡ replicate N 0 },
}

impl<const N: usize> Clear<N> {
    fn new() -> Self {
        Clear { bytes: [0; N] }
    }
}

impl<D: Digest, const N: usize, M: State<D>> Model for BitMap<D, N, M> {
    ghost use Rattle.storage_bitmap.specs.StandsForBits.{Authenticated, IsWholeMap};

    ghost Value = { Authenticated D M };

    ghost view = { λ b. record { retained = b.bits; tree = b.tree; state = b.state } };

    ghost invariant = { λ b. IsWholeMap N b.bits b.tree (M.fits b.state) };
}

impl<D: Digest, const N: usize, M: State<D>> BitMap<D, N, M> {
    /// Returns how many bits a chunk has: `8 * N`.
    pub fn chunk_size_bits() -> u64
        requires { IsChunkSize N }
        ensures { result ≡ 8 * N }
    {
        8 * N as u64
    }

    /// Returns the size of the tree as a node position: how many nodes it has, not how many bits there are. The tree is
    /// over the chunks that were complete when the root was last calculated.
    pub fn size(&self) -> Position<mmr::Family>
        ensures { result ≡ size mmr self.now.tree.leaves }
    {
        self.tree.size()
    }

    /// Returns how many bits there are, the pruned ones among them.
    pub fn len(&self) -> u64
        ensures value { result ≡ bit_count N self.now.retained }
        ensures size { IsChunkSize N }
    {
        self.bits.len()
    }

    /// Returns whether there are no bits.
    pub fn is_empty(&self) -> bool
        ensures { IsTrue result ↔ (bit_count N self.now.retained ≡ 0) }
    {
        self.len() == 0
    }

    /// Returns how many bits are pruned: all of the pruned chunks.
    pub fn pruned_bits(&self) -> u64
        ensures { result ≡ self.now.retained.pruned * (8 * N) }
    {
        self.bits.pruned_chunks() as u64 * (8 * N as u64)
    }

    /// Returns the last chunk that is not pruned, and how many bits it has, from 1 on; a clear chunk and 0 where none
    /// is left.
    pub fn last_chunk(&self) -> (&[u8; N], u64)
        ensures chunk { result.0.now
            ≡ chunk_of N self.now.retained.bits ((length self.now.retained.bits - 1) / (8 * N)) }
        ensures count { result.1 ≡ length self.now.retained.bits
            - (length self.now.retained.bits - 1) / (8 * N) * (8 * N) }
    {
        let Some(last) = self.bits.last_chunk() else {
            return (&self.clear.bytes, 0);
        };
        let chunk_size = 8 * N as u64;
        let left = self.bits.len() - self.bits.pruned_chunks() as u64 * chunk_size;
        (last, (left - 1) % chunk_size + 1)
    }

    /// Returns the chunk of the bit number `bit`, which is there and not pruned. What is past the bits is 0.
    pub fn get_chunk_containing(&self, bit: u64) -> &[u8; N]
        requires kept { self.now.retained.pruned * (8 * N) ≤ bit }
        requires within { bit < bit_count N self.now.retained }
        ensures { result.now
            ≡ chunk_of N self.now.retained.bits (bit / (8 * N) - self.now.retained.pruned) }
    {
        self.bits.lend_chunk((bit / (8 * N as u64)) as usize)
    }

    /// Returns the bit number `bit`, which is there and not pruned.
    pub fn get_bit(&self, bit: u64) -> bool
        requires kept { self.now.retained.pruned * (8 * N) ≤ bit }
        requires within { bit < bit_count N self.now.retained }
        ensures { result ≡ slice_index_or self.now.retained.bits
            (bit - self.now.retained.pruned * (8 * N)) false }
    {
        self.bits.get_bit(bit)
    }

    /// Returns the bit number `bit` among all bits, from `chunk`, the chunk that it stands in.
    pub fn get_bit_from_chunk(chunk: &[u8; N], bit: u64) -> bool
        requires { IsChunkSize N }
        ensures value { result ≡ bit_in chunk.now (bit % (8 * N)) }
        ensures meaning { (bits : List Bool) → chunk.now ≡ chunk_of N bits (bit / (8 * N))
            → result ≡ slice_index_or bits bit false }
    {
        is_set(chunk, bit % (8 * N as u64))
    }
}

impl<D: Digest, const N: usize, M: State<D>> Readable<N> for BitMap<D, N, M> {
    ghost retained = { λ b. b.retained };

    fn len(&self) -> u64 {
        self.len()
    }

    fn pruned_chunks(&self) -> usize {
        self.bits.pruned_chunks()
    }

    fn get_chunk(&self, index: usize) -> [u8; N] {
        self.bits.get_chunk(index)
    }
}
