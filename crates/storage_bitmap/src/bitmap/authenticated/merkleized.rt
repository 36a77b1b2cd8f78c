//! A bitmap whose root is known.

ghost use Rattle.std.specs.Prelude.{◌≡◌, ℕ, ◌+◌, ◌*◌, ◌/◌, ◌<◌, ◌≤◌, ◌⊎◌, ◌↔◌, [], List, Bool, length, map, take, IfOk, IfErr, MatchResult, OnOk, OnErr, Ok, Err, Some};
ghost use Rattle.storage_codec.specs.Digests.{HashFunction};
ghost use Rattle.storage_merkle.specs.declared.merkle.bagging.Bagging.{Bagging};
ghost use Rattle.storage_merkle.specs.Kept.{kept_at};
ghost use Rattle.storage_merkle.specs.Mmr.{mmr};
ghost use Rattle.storage_merkle.specs.Trees.{ungrafted};
ghost use Rattle.storage_merkle.specs.Shape.{max_leaves};
ghost use Rattle.storage_bitmap.specs.BitRoots.{bit_root};
ghost use Rattle.storage_bitmap.specs.Chunks.{IsChunkSize, bit_count, pruned_to};
ghost use Rattle.storage_bitmap.specs.StandsForBits.{IsPrunedState, IsBitmapRefused, StandsForBits, StandsMerkleized};

use crate::bitmap::authenticated::rehashed::root_of_bits;
use crate::bitmap::authenticated::{
    BitMap, Clear, Merkleized, MerkleizedBitMap, Unmerkleized, UnmerkleizedBitMap,
};
use crate::bitmap::{Prunable, Readable};
use std::alloc::Global;
use std::collections::BTreeSet;
use storage_codec::digest::Digest;
use storage_merkle::merkle::hasher::Hasher;
use storage_merkle::merkle::mem::Mem;
use storage_merkle::merkle::{Error, Location, MAX_LEAVES, Position, mmr};

/// What is kept of a bitmap whose bits all are pruned.
#[derive(Drop)]
pub struct PrunedState<D> {
    /// How many chunks are pruned.
    pub pruned_chunks: u64,
    /// The digests of the peaks over the pruned chunks, in leaf order.
    pub pinned: Vec<D>,
}

impl<D: Digest, const N: usize> BitMap<D, N, Merkleized<D>> {
    /// Returns the bitmap of `state.pruned_chunks` chunks, all of them pruned, from `state`, which
    /// [`write_pruned`](Self::write_pruned) handed out; no bits from no chunks. Digests past those of the peaks are
    /// ignored. Where no list of bits has these digests it stands for no list, and nothing is said of its root.
    ///
    /// # Errors
    ///
    /// `DataCorrupted` if there are more than `2^62` bits; `MissingNode` of the position of the first peak without a
    /// digest; `Memory`.
    pub fn init<H: Hasher<mmr::Family, Digest = D>>(
        alloc: Global,
        hasher: &H,
        state: PrunedState<D>,
    ) -> Result<MerkleizedBitMap<D, N>, Error<mmr::Family>>
        requires { IsChunkSize N }
        ensures kept { IfOk result (λ m.
            (m.retained ≡ record { pruned = state.pruned_chunks; bits = [] }) × (m.tree
            ≡ record {
              leaves = state.pruned_chunks;
              boundary = state.pruned_chunks;
              pinned = take
                  (length (mmr.peaks state.pruned_chunks)) state.pinned.items;
              nodes = [];
              room = 0;
            })) }
        ensures stands { H.layout hasher.now ≡ ungrafted mmr
            → IfOk result (λ m. (bits : List Bool)
            → IsPrunedState D.text H.hash_of N state.pruned_chunks state.pinned.items bits
            → StandsMerkleized D.text H.hash_of (H.bagging hasher.now) N m m.state.root bits) }
        ensures fits { IfOk result (λ _. (state.pruned_chunks * (8 * N) ≤ max_leaves)
            × (length (mmr.peaks state.pruned_chunks) ≤ length state.pinned.items)) }
        ensures why { IfErr result (IsBitmapRefused N state.pruned_chunks
            (length state.pinned.items)) }
    {
        let chunks = state.pruned_chunks;
        if chunks > MAX_LEAVES / (8 * N as u64) {
            return Err(Error::DataCorrupted("pruned bits past the limit"));
        }
        let tree = match Mem::init(alloc, Location::new(chunks), &state.pinned) {
            Ok(tree) => tree,
            Err(error) => return Err(error),
        };
        let bits = Prunable::new_with_pruned_chunks(alloc, chunks as usize);
        let root = root_of_bits(&tree, hasher, &bits);
        Ok(BitMap {
            bits,
            tree,
            state: Merkleized { root },
            clear: Clear::new(),
            alloc,
        })
    }

    /// Returns what is to be kept of the pruned chunks, so that the bitmap is that of [`init`](Self::init) once the
    /// retained bits are pushed again.
    ///
    /// # Errors
    ///
    /// `Memory`.
    pub fn write_pruned(&self) -> Result<PrunedState<D>, Error<mmr::Family>>
        ensures kept { IfOk result (λ s. (s.pruned_chunks ≡ self.now.retained.pruned)
            × (s.pinned.items ≡ self.now.tree.pinned)) }
        ensures stands { IfOk result (λ s. (h : HashFunction) (bits : List Bool)
            → StandsForBits D.text h N self.now [] bits → IsPrunedState D.text h N s.pruned_chunks
            s.pinned.items (take (self.now.retained.pruned * (8 * N)) bits)) }
        ensures why { IfErr result (λ e. e ≡ Error.Memory) }
    {
        let mut pinned = Vec::new(self.alloc);
        pinned.extend_from_slice(self.tree.pinned_nodes())?;
        Ok(PrunedState {
            pruned_chunks: self.bits.pruned_chunks() as u64,
            pinned,
        })
    }

    /// Returns the digest at `position` of the tree over the chunks; `None` if it is not kept. Allocates nothing.
    pub fn get_node(&self, position: Position<mmr::Family>) -> Option<D>
        ensures { result
            ≡ kept_at mmr self.now.tree.boundary self.now.tree.pinned self.now.tree.nodes position }
    {
        self.tree.get_node(position)
    }

    /// Forgets the chunks below that of the bit number `bit`, which may be one past the last bit. The root stays. If
    /// memory runs out, nothing changes.
    ///
    /// # Errors
    ///
    /// `Memory`.
    pub fn prune_to_bit(&mut self, bit: u64) -> Result<(), Error<mmr::Family>>
        requires { bit ≤ bit_count N self.old.retained }
        ensures kept { OnOk result
            (self.new.retained ≡ pruned_to N self.old.retained (bit / (8 * N))) }
        ensures root { self.new.state ≡ self.old.state }
        ensures stands { OnOk result ((h : HashFunction) (bagging : Bagging) (bits : List Bool)
            → StandsMerkleized D.text h bagging N self.old self.old.state.root bits
            → StandsMerkleized D.text h bagging N self.new self.new.state.root bits) }
        ensures same { OnErr result (self.new ≡ self.old) }
        ensures why { IfErr result (λ e. e ≡ Error.Memory) }
    {
        if let Err(error) = self.tree.prune(Location::new(bit / (8 * N as u64))) {
            return Err(error);
        }
        self.bits.prune_to_bit(bit);
        Ok(())
    }

    /// Returns the root. It is the tree's if the bits fill their chunks, else the digest of three parts one after
    /// another: the tree's root, the number of all bits in eight bytes, highest first, and the digest of the last
    /// chunk, which is filled up with zeros. Allocates nothing.
    pub fn root(&self) -> D
        ensures value { result ≡ self.now.state.root }
        ensures meaning { (h : HashFunction) (bagging : Bagging) (bits : List Bool)
            → StandsMerkleized D.text h bagging N self.now self.now.state.root bits
            → D.text result ≡ bit_root h bagging N bits }
    {
        self.state.root
    }

    /// Returns the same bitmap, open to changes. Allocates nothing.
    pub fn into_dirty(self) -> UnmerkleizedBitMap<D, N>
        ensures same { (result.retained ≡ self.retained) × (result.tree ≡ self.tree) }
        ensures stands { (h : HashFunction) (bagging : Bagging) (bits : List Bool)
            → StandsMerkleized D.text h bagging N self self.state.root bits
            → StandsForBits D.text h N result result.state.dirty.keys bits }
    {
        let BitMap {
            bits,
            tree,
            state: _,
            clear,
            alloc,
        } = self;
        BitMap {
            bits,
            tree,
            state: Unmerkleized {
                dirty: BTreeSet::new(alloc),
            },
            clear,
            alloc,
        }
    }
}
