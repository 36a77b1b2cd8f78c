//! Snapshots behind an operation that forget more of what lies before another one.

ghost use Rattle.std.specs.Prelude.{◌≡◌, ◌/◌, ◌^◌, ◌<◌, ◌≤◌, ◌⊎◌, min, IfErr, OnOk, OnErr};
ghost use Rattle.storage_merkle.specs.declared.merkle.error.Error.TheVariants.{RangeOutOfBounds};
ghost use Rattle.storage_ops.specs.declared.qmdb.error.Error.TheVariants.{Merkle, Memory};
ghost use Rattle.storage_bitmap.specs.Chunks.{pruned_to};
ghost use Rattle.storage_current.specs.SnapshotTails.{StandsForTail};
ghost use Rattle.storage_current.specs.Snapshots.{Snapshot as SnapshotOf, graftable, grafting_of, height};

use super::SnapshotTail;
use crate::qmdb::current::grafting;
use storage_codec::digest::Hasher;
use storage_merkle::merkle::{self, Graftable, Location};
use storage_ops::qmdb::Error;

impl<F: Graftable, H: Hasher, const N: usize> SnapshotTail<F, H, N> {
    /// Forgets the graftable chunks that end at or before `location`: their bits, and the nodes over their operations
    /// that are below the height of chunks. The nodes from that height on stay as they are, so the roots stay, and a proof
    /// of operations behind these chunks is made as before. Where they are forgotten already it changes nothing.
    ///
    /// # Errors
    ///
    /// The first of: `RangeOutOfBounds(location)` if `location` is greater than the inactivity floor; `Memory`. After
    /// either the snapshot is as it was.
    pub fn prune(&mut self, location: Location<F>) -> Result<(), Error<F>>
        ensures status { let g = grafting_of F.shape N in
            OnOk result (self.new.status ≡ pruned_to N self.old.status
            (min (location / 2 ^ height g) (graftable g self.old.operations.leaves))) }
        ensures stands { let g = grafting_of F.shape N in
            OnOk result ((s : SnapshotOf) → StandsForTail H.hash_of g self.old s
            → StandsForTail H.hash_of g self.new s) }
        ensures kept { OnOk result (self.new ≡ record self.old {
          operations = self.new.operations;
          status = self.new.status;
        }) }
        ensures count { OnOk result (self.new.operations.leaves ≡ self.old.operations.leaves) }
        ensures fits { OnOk result (location ≤ self.old.floor) }
        ensures same { OnErr result (self.new ≡ self.old) }
        ensures why { IfErr result (λ e.
            ((self.old.floor < location) × (e ≡ Merkle (RangeOutOfBounds location)))
            ⊎ ((location ≤ self.old.floor) × (e ≡ Memory))) }
    {
        if location.as_u64() > self.floor.as_u64() {
            return Err(Error::Merkle(merkle::Error::RangeOutOfBounds(location)));
        }
        let whole = location.as_u64() >> grafting::height::<N>();
        let chunks = whole.min(self.chunks.leaves().as_u64());
        let bits = chunks * (8 * N as u64);
        if self.operations.prune(Location::new(bits)).is_err() {
            return Err(Error::Memory);
        }
        self.status.prune_to_bit(bits);
        Ok(())
    }
}
