//! Changes of bits, and the root after them.

ghost use Rattle.std.specs.Prelude.{◌≡◌, ℕ, ◌+◌, ◌-◌, ◌*◌, ◌/◌, ◌<◌, ◌≤◌, ◌∷◌, ◌++◌, [], List, Bool, length, map, slice_set, IfOk, IfErr, OnOk, OnErr};
ghost use Rattle.std.specs.BTreeSet.{insert_key};
ghost use Rattle.std.specs.Ordering.{nat_cmp};
ghost use Rattle.storage_codec.specs.Digests.{HashFunction};
ghost use Rattle.storage_merkle.specs.Hashers.{TakesTree};
ghost use Rattle.storage_merkle.specs.Mmr.{mmr};
ghost use Rattle.storage_merkle.specs.Trees.{ungrafted};
ghost use Rattle.storage_merkle.specs.Shape.{max_leaves};
ghost use Rattle.storage_bitmap.specs.Chunks.{bit_count};
ghost use Rattle.storage_bitmap.specs.StandsForBits.{StandsForBits, StandsMerkleized};

use crate::bitmap::authenticated::rehashed::{add_chunks, rehash, root_of_bits};
use crate::bitmap::authenticated::{BitMap, Merkleized, MerkleizedBitMap, Unmerkleized};
use std::collections::BTreeSet;
use storage_codec::NoMemory;
use storage_codec::digest::Digest;
use storage_merkle::merkle::hasher::Hasher;
use storage_merkle::merkle::{Error, mmr};

impl<D: Digest, const N: usize> BitMap<D, N, Unmerkleized> {
    /// Appends `bit`. If memory runs out, nothing changes.
    ///
    /// # Errors
    ///
    /// `Memory`.
    pub fn push(&mut self, bit: bool) -> Result<(), Error<mmr::Family>>
        requires { bit_count N self.old.retained < max_leaves }
        ensures value { OnOk result (self.new
            ≡ record self.old {
              retained = record self.old.retained {
                bits = self.old.retained.bits
                    ++ bit ∷ [];
              };
            }) }
        ensures stands { OnOk result ((h : HashFunction) (bits : List Bool)
            → StandsForBits D.text h N self.old self.old.state.dirty.keys bits
            → StandsForBits D.text h N self.new self.new.state.dirty.keys (bits ++ bit ∷ [])) }
        ensures same { OnErr result (self.new ≡ self.old) }
        ensures why { IfErr result (λ e. e ≡ Error.Memory) }
    {
        self.bits.push(bit)?;
        Ok(())
    }

    /// Sets the bit number `bit` among all bits to `value`. It must be there and not be pruned. If memory runs out,
    /// nothing changes.
    ///
    /// # Errors
    ///
    /// `Memory`.
    pub fn set_bit(&mut self, bit: u64, value: bool) -> Result<(), Error<mmr::Family>>
        requires kept { self.old.retained.pruned * (8 * N) ≤ bit }
        requires within { bit < bit_count N self.old.retained }
        ensures value { OnOk result
            ((self.new.retained ≡ record self.old.retained {
              bits = slice_set self.old.retained.bits
                  (bit - self.old.retained.pruned * (8 * N)) value;
            })
            × (self.new.tree ≡ self.old.tree)) }
        ensures stands { OnOk result ((h : HashFunction) (bits : List Bool)
            → StandsForBits D.text h N self.old self.old.state.dirty.keys bits → StandsForBits
            D.text h N self.new self.new.state.dirty.keys (slice_set bits bit value)) }
        ensures same { OnErr result (self.new ≡ self.old) }
        ensures why { IfErr result (λ e. e ≡ Error.Memory) }
    {
        let leaves = self.tree.leaves().as_u64();
        let chunk = bit / (8 * N as u64);
        mark(&mut self.state.dirty, chunk, leaves)?;
        self.bits.set_bit(bit, value);
        Ok(())
    }

    /// Returns the same bits with their root. That only the dirty chunks, the new complete chunks and the nodes over
    /// them are hashed, each once, is how the code goes, and no clause.
    ///
    /// # Errors
    ///
    /// `Memory`.
    pub fn merkleize<H: Hasher<mmr::Family, Digest = D>>(
        self,
        hasher: &H,
    ) -> Result<MerkleizedBitMap<D, N>, Error<mmr::Family>>
        requires { TakesTree (H.takes hasher.now) mmr (bit_count N self.retained / (8 * N)) }
        ensures kept { IfOk result (λ m. m.retained ≡ self.retained) }
        ensures stands { H.layout hasher.now ≡ ungrafted mmr
            → IfOk result (λ m. (bits : List Bool)
            → StandsForBits D.text H.hash_of N self self.state.dirty.keys bits
            → StandsMerkleized D.text H.hash_of (H.bagging hasher.now) N m m.state.root bits) }
        ensures why { IfErr result (λ e. e ≡ Error.Memory) }
    {
        let BitMap {
            bits,
            mut tree,
            state,
            clear,
            alloc,
        } = self;
        if let Err(error) = rehash(alloc, &mut tree, hasher, &bits, &state.dirty) {
            return Err(error);
        }
        if let Err(error) = add_chunks(&mut tree, hasher, &bits) {
            return Err(error);
        }
        let root = root_of_bits(&tree, hasher, &bits);
        Ok(BitMap {
            bits,
            tree,
            state: Merkleized { root },
            clear,
            alloc,
        })
    }
}

/// Marks chunk number `chunk` as dirty if it is one of the tree's `leaves` leaves. If memory runs out, nothing changes.
fn mark(dirty: &mut BTreeSet<u64>, chunk: u64, leaves: u64) -> Result<(), NoMemory>
    ensures marked { OnOk result (chunk < leaves
        → dirty.new.keys ≡ insert_key nat_cmp dirty.old.keys chunk) }
    ensures others { OnOk result (leaves ≤ chunk → dirty.new ≡ dirty.old) }
    ensures same { OnErr result (dirty.new ≡ dirty.old) }
{
    if chunk >= leaves {
        return Ok(());
    }
    match dirty.insert(chunk) {
        Ok(_) => Ok(()),
        Err(_) => Err(NoMemory),
    }
}
