//! Snapshots that grow: what a change costs is what it changes.

ghost use Rattle.std.specs.Prelude.{◌≡◌, ℕ, ◌+◌, ◌-◌, ◌*◌, ◌^◌, ◌<◌, ◌≤◌, ◌++◌, [], List, length, map, vec_capacity, All, IfOk, IfErr, OnOk, OnErr, MatchOption};
ghost use Rattle.storage_merkle.specs.Kept.{HasRoomFor, IsFirstAway};
ghost use Rattle.storage_merkle.specs.Shape.{max_leaves};
ghost use Rattle.storage_bitmap.specs.Chunks.{IsChunkSize, bit_count};
ghost use Rattle.storage_current.specs.Extended.{AreTouched, AreWithin, HasRegrafted, IsAwayRefused, IsExtensionRefused, cleared_from, extended};
ghost use Rattle.storage_current.specs.KeptSnapshots.{StandsForSnapshot};
ghost use Rattle.storage_current.specs.KeptTrees.{ArePruned, StandsForChunks};
ghost use Rattle.storage_current.specs.NodeLists.{IsGrown, IsOver};
ghost use Rattle.storage_current.specs.Snapshots.{IsSnapshot, Snapshot as SnapshotOf, graftable, grafting_of, height};

use super::Snapshot;
use crate::qmdb::current::chunk_tree::{append_grafts, graft_at};
use crate::qmdb::current::chunks::pruned_bits;
use crate::qmdb::current::grafting::{self, GraftedHasher, graftable_chunks};
use crate::qmdb::current::roots::Roots;
use std::alloc::{AllocError, Global};
use std::convert::AsSlice;
use storage_bitmap::bitmap::{Prunable, Readable};
use storage_codec::NoMemory;
use storage_codec::digest::Hasher;
use storage_merkle::laws::kept::trees_keep_the_nodes_of_their_list;
use storage_merkle::merkle::hasher::Standard;
use storage_merkle::merkle::mem::Mem;
use storage_merkle::merkle::{self, Graftable, Location};
use storage_ops::qmdb::{self, Error};

impl<F: Graftable, H: Hasher, const N: usize> Snapshot<F, H, N> {
    /// Appends `operations`, each with its bit of `bits`, clears the bits of the earlier operations at `clear`, and
    /// makes `floor` the inactivity floor. Each node that is new is hashed once, however many operations or chunks
    /// below it changed, and no other node.
    ///
    /// # Errors
    ///
    /// The first of: `DataCorrupted` if there are not as many bits as operations; of the first location of `clear` that
    /// is not of an earlier operation `RangeOutOfBounds`, or that is pruned `OperationPruned`;
    /// `RangeOutOfBounds(floor)` if `floor` is greater than the number of operations; `LocationOverflow` of that
    /// number, at most `u64::MAX`, if it is past `MAX_LEAVES`; `Memory`. After each the snapshot is as it was.
    pub fn extend<E: AsSlice<u8>>(
        &mut self,
        alloc: Global,
        operations: &[E],
        bits: &[bool],
        clear: &[Location<F>],
        floor: Location<F>,
    ) -> Result<(), Error<F>>
        ensures status { OnOk result (self.new.status ≡ record self.old.status {
          bits = cleared_from (self.old.status.pruned * (8 * N)) clear.now self.old.status.bits ++ bits.now;
        }) }
        ensures stands { let g = grafting_of F.shape N in
            OnOk result ((s : SnapshotOf) → IsSnapshot s
            → StandsForSnapshot H.hash_of g self.old s
            → let t = extended s (map E.items operations.now) bits.now clear.now floor in
            IsSnapshot t × StandsForSnapshot H.hash_of g self.new t) }
        ensures same { OnErr result (self.new ≡ self.old) }
        ensures why { IfErr result (IsExtensionRefused (self.old.status.pruned * (8 * N))
            (bit_count N self.old.status) (length operations.now) (length bits.now) clear.now floor) }
    {
        trees_keep_the_nodes_of_their_list(&self.operations);
        trees_keep_the_nodes_of_their_list(&self.chunks);
        let leaves = self.operations.leaves().as_u64();
        let count = operations.len() as u64;
        let pruned = pruned_bits(&self.status);
        if let Some(error) = refusal::<F>(pruned, leaves, count, bits.len() as u64, clear, floor) {
            return Err(error);
        }
        let Ok((touched, updates)) = make_room::<F, H, N>(
            alloc,
            &mut self.operations,
            &mut self.chunks,
            count,
            clear,
        ) else {
            return Err(Error::Memory);
        };
        // the last that may be refused
        if self.status.append(bits).is_err() {
            return Err(Error::Memory);
        }
        clear_bits::<F, N>(&mut self.status, clear);
        add_all::<F, H, E>(&mut self.operations, operations);
        regraft::<F, H, N>(
            &self.operations,
            &self.status,
            &mut self.chunks,
            &touched,
            updates,
        );
        append_grafts::<F, H, N>(&self.operations, &self.status, &mut self.chunks).unwrap();
        trees_keep_the_nodes_of_their_list(&self.operations);
        trees_keep_the_nodes_of_their_list(&self.chunks);
        let roots = Roots::over::<H, N>(&self.operations, &self.chunks, &self.status, floor);
        self.floor = floor;
        self.ops_root = roots.ops_root;
        self.root = roots.canonical;
        self.witness = roots.witness;
        Ok(())
    }
}

/// Returns why a snapshot of `leaves` operations, of which the first `pruned` are pruned, is not extended by `count`
/// with `bits` bits, with the bits at `clear` cleared and the floor `floor`; none if it is.
fn refusal<F: Graftable>(
    pruned: u64,
    leaves: u64,
    count: u64,
    bits: u64,
    clear: &[Location<F>],
    floor: Location<F>,
) -> Option<Error<F>>
    ensures { MatchOption result ((bits ≡ count) × AreWithin pruned leaves count clear.now floor
        × (leaves + count ≤ max_leaves)) (IsExtensionRefused pruned leaves count bits clear.now floor) }
{
    if bits != count {
        return Some(Error::DataCorrupted("not one bit for each operation"));
    }
    if let Some(error) = first_away::<F>(pruned, leaves, clear) {
        return Some(error);
    }
    let end = Location::new(leaves).saturating_add(count);
    if floor.as_u64() > end.as_u64() {
        return Some(Error::Merkle(merkle::Error::RangeOutOfBounds(floor)));
    }
    if !end.is_valid() {
        return Some(Error::Merkle(merkle::Error::LocationOverflow(end)));
    }
    None
}

/// Returns the refusal of the first of `locations` that is below `pruned` or not below `leaves`; none if there is no
/// such location.
fn first_away<F: Graftable>(pruned: u64, leaves: u64, locations: &[Location<F>]) -> Option<Error<F>>
    ensures { MatchOption result (All (λ l. (pruned ≤ l) × (l < leaves)) locations.now)
        (λ e. (away : ℕ) × IsFirstAway leaves pruned locations.now away
        × IsAwayRefused pruned leaves away e) }
{
    for location in locations {
        if location.as_u64() >= leaves {
            return Some(Error::Merkle(merkle::Error::RangeOutOfBounds(*location)));
        }
        if location.as_u64() < pruned {
            return Some(Error::OperationPruned(*location));
        }
    }
    None
}

/// Makes room in `operations` for `count` more, in `chunks` for those that become graftable with them, and apart for
/// the chunks of `clear` that are graftable already: answers these, in rising order, and a list with room for their
/// digests. Changes no digest.
fn make_room<F: Graftable, H: Hasher, const N: usize>(
    alloc: Global,
    operations: &mut Mem<F, H::Digest>,
    chunks: &mut Mem<F, H::Digest>,
    count: u64,
    clear: &[Location<F>],
) -> Result<(Vec<u64>, Vec<(Location<F>, H::Digest)>), NoMemory>
    requires size { IsChunkSize N }
    requires few { operations.old.leaves + count ≤ max_leaves }
    requires within { chunks.old.leaves
        ≤ graftable (grafting_of F.shape N) operations.old.leaves }
    ensures operations { operations.new ≡ record operations.old { room = operations.new.room } }
    ensures chunks { chunks.new ≡ record chunks.old { room = chunks.new.room } }
    ensures leaves { OnOk result (HasRoomFor F.shape count operations.new) }
    ensures grafts { OnOk result (HasRoomFor F.shape (graftable (grafting_of F.shape N)
        (operations.old.leaves + count) - chunks.old.leaves) chunks.new) }
    ensures touched { let g = grafting_of F.shape N in
        IfOk result (λ r. AreTouched (height g) chunks.old.leaves clear.now r.0.items) }
    ensures room { IfOk result (λ r. (r.1.items ≡ []) × (length r.0.items ≤ vec_capacity r.1)) }
{
    let height = grafting::height::<N>();
    let touched = touched_chunks::<F>(alloc, chunks.leaves().as_u64(), height, clear)?;
    let updates = Vec::with_capacity(alloc, touched.len())?;
    let grown = graftable_chunks::<F>(operations.leaves().as_u64() + count, height);
    let more = grown - chunks.leaves().as_u64();
    if operations.reserve(count).is_err() || chunks.reserve(more).is_err() {
        return Err(NoMemory);
    }
    Ok((touched, updates))
}

/// Returns those of the first `count` chunks, of `2^height` bits, that have a bit at one of `locations`, in rising
/// order.
fn touched_chunks<F: Graftable>(
    alloc: Global,
    count: u64,
    height: u32,
    locations: &[Location<F>],
) -> Result<Vec<u64>, AllocError>
    requires { height ≤ 62 }
    ensures { IfOk result (λ touched. AreTouched height count locations.now touched.items) }
{
    let mut touched = Vec::new(alloc);
    for location in locations {
        let chunk = location.as_u64() >> height;
        if chunk < count {
            touched.push(chunk)?;
        }
    }
    touched.sort_unstable();
    touched.dedup();
    Ok(touched)
}

/// Clears the bits of `status` at `locations`, none of which is pruned.
fn clear_bits<F: Graftable, const N: usize>(status: &mut Prunable<N>, locations: &[Location<F>])
    requires within { All (λ l. (status.old.pruned * (8 * N) ≤ l) × (l < bit_count N status.old))
        locations.now }
    ensures { status.new ≡ record status.old {
      bits = cleared_from (status.old.pruned * (8 * N)) locations.now status.old.bits;
    } }
{
    for location in locations {
        status.set_bit(location.as_u64(), false);
    }
}

/// Appends `operations` to `tree`, which has room for them.
fn add_all<F: Graftable, H: Hasher, E: AsSlice<u8>>(tree: &mut Mem<F, H::Digest>, operations: &[E])
    requires few { tree.old.leaves + length operations.now ≤ max_leaves }
    requires room { HasRoomFor F.shape (length operations.now) tree.old }
    requires grown { IsGrown H.Digest.text H.hash_of F.shape tree.old }
    ensures count { tree.new.leaves ≡ tree.old.leaves + length operations.now }
    ensures boundary { tree.new.boundary ≡ tree.old.boundary }
    ensures grown { IsGrown H.Digest.text H.hash_of F.shape tree.new }
    ensures over { (elements : List (List ℕ))
        → IsOver H.Digest.text H.hash_of F.shape tree.old elements
        → IsOver H.Digest.text H.hash_of F.shape tree.new (elements ++ map E.items operations.now) }
{
    let hasher = qmdb::hasher::<H>();
    for operation in operations {
        // there is room, so that none is refused
        let _ = tree.add(&hasher, operation.as_slice());
    }
}

/// Gives the chunks `touched` of `chunks` the digests that they have under the bits `status`, and the nodes over them
/// theirs, each once. None of them is pruned. `updates` is empty, and has room for `touched`.
fn regraft<F: Graftable, H: Hasher, const N: usize>(
    operations: &Mem<F, H::Digest>,
    status: &Prunable<N>,
    chunks: &mut Mem<F, H::Digest>,
    touched: &[u64],
    mut updates: Vec<(Location<F>, H::Digest)>,
)
    requires size { IsChunkSize N }
    requires grown { IsGrown H.Digest.text H.hash_of F.shape operations.now }
    requires bits { ArePruned (grafting_of F.shape N) operations.now status.now }
    requires within { chunks.old.leaves ≤ graftable (grafting_of F.shape N) operations.now.leaves }
    requires unpruned { chunks.old.boundary ≡ 0 }
    requires below { All (λ j. (status.now.pruned ≤ j) × (j < chunks.old.leaves)) touched.now }
    requires none { updates.items ≡ [] }
    requires room { length touched.now ≤ vec_capacity updates }
    ensures place { (chunks.new.leaves ≡ chunks.old.leaves)
        × (chunks.new.boundary ≡ chunks.old.boundary) × (chunks.new.pinned ≡ chunks.old.pinned)
        × (chunks.new.room ≡ chunks.old.room) }
    ensures regrafted { let g = grafting_of F.shape N in (list : List (List ℕ))
        → StandsForChunks H.Digest.text H.hash_of g chunks.old list
        → HasRegrafted H.Digest.text H.hash_of g operations.now chunks.new status.now touched.now
        list }
{
    for index in touched {
        let digest = graft_at::<F, H, N>(operations, status, *index);
        updates.push((Location::new(*index), digest)).unwrap();
    }
    let height = grafting::height::<N>();
    let hasher = GraftedHasher::<F, Standard<H>>::new(qmdb::hasher::<H>(), height);
    // each is a leaf, so that none is refused
    let _ = chunks.update_leaves(&hasher, &updates);
}
