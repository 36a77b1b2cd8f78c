//! A tree over chunks that keeps pins and leaves alone.
//!
//! Leaves are the digests of grafted chunks, from the pruned ones on; pins are the peaks over the pruned ones. Inner nodes
//! are hashed when they are asked for. That keeps a pruned tree small, and a server that makes many proofs keeps a `Mem`
//! over its chunks instead.

ghost use Rattle.std.specs.Prelude.{◌≡◌, ℕ, ◌+◌, ◌-◌, ◌<◌, ◌≤◌, [], ◌⊎◌, List, map, max, min, take, drop, length, slice_index, IfOk, OnOk, OnErr, IfErr};
ghost use Rattle.storage_merkle.specs.Shape.{max_leaves};
ghost use Rattle.storage_merkle.specs.Hashers.{TakesGrowth};
ghost use Rattle.storage_merkle.specs.Hashing.{node_over};
ghost use Rattle.storage_merkle.specs.Kept.{NodesOver, at_peaks, paired, pins};
ghost use Rattle.storage_current.specs.GraftedTrees.{IsWholeGrafted, Keeps, tree_at};

use crate::qmdb::current::grafting::rebuild::node_of;
use std::alloc::{AllocError, Global};
use std::marker::{Model, PhantomData};
use storage_codec::digest::Digest;
use storage_merkle::merkle::family::leaves_within;
use storage_merkle::merkle::hasher::Hasher;
use storage_merkle::merkle::{
    Error, Graftable, Location, MAX_LEAVES, PeakNodes, Position, Readable, count_pins,
};

/// A tree over chunks, of which the first `pruned` are pruned: the digests of the peaks over the pruned chunks, its pins, and
/// those of the other chunks, its leaves. It keeps no other node.
#[derive(Drop)]
pub struct GraftedTree<F: Graftable, D: Digest> {
    pruned: u64,
    pinned: Vec<D>,
    leaves: Vec<D>,
    family: PhantomData<F>,
}

impl<F: Graftable, D: Digest> Model for GraftedTree<F, D> {
    ghost use Rattle.std.specs.Prelude.{vec_len};
    ghost use Rattle.storage_current.specs.GraftedTrees.{KeptChunks, IsWholeGrafted};

    ghost Value = { KeptChunks D };

    ghost view = { λ t. record {
      pruned = t.pruned;
      pinned = t.pinned.items;
      leaves = t.leaves.items;
    } };

    ghost invariant = { λ t. IsWholeGrafted F.shape t.pruned (vec_len t.pinned)
        (vec_len t.leaves) };
}

impl<F: Graftable, D: Digest> GraftedTree<F, D> {
    /// Returns the tree over the chunks whose digests are `leaves`, none of them pruned. Digests past `MAX_LEAVES` are
    /// ignored. Allocates nothing.
    pub fn new(alloc: Global, mut leaves: Vec<D>) -> Self
        ensures kept { result
            ≡ record { pruned = 0; pinned = []; leaves = take max_leaves leaves.items } }
        ensures stands { (N : NodesOver) → length leaves.items ≤ max_leaves
            → Keeps D.text F.shape N result (map D.text leaves.items) }
    {
        leaves.truncate(MAX_LEAVES as usize);
        GraftedTree {
            pruned: 0,
            pinned: Vec::new(alloc),
            leaves,
            family: PhantomData,
        }
    }

    /// Returns the tree over `pruned_chunks` chunks, all of them pruned, and behind them those whose digests are
    /// `leaves`, from `pinned`, the digests of the peaks over the pruned chunks in leaf order. Digests past those are
    /// ignored.
    ///
    /// # Errors
    ///
    /// `LocationOverflow` of the number of chunks, at most `u64::MAX`, if it is past `MAX_LEAVES`; `MissingNode` of the
    /// position of the first peak for which `pinned` has no digest; `Memory`.
    pub fn init(
        alloc: Global,
        pruned_chunks: u64,
        pinned: &[D],
        leaves: Vec<D>,
    ) -> Result<Self, Error<F>>
        ensures kept { IfOk result (λ t. t ≡ record {
          pruned = pruned_chunks;
          pinned = take (length (F.shape.peaks pruned_chunks)) pinned.now;
          leaves = leaves.items;
        }) }
        ensures stands { IfOk result (λ t. (N : NodesOver) (list : List (List ℕ))
            → length list ≡ pruned_chunks + length leaves.items
            → map D.text (take (length (F.shape.peaks pruned_chunks)) pinned.now)
            ≡ at_peaks (N list) 0 (F.shape.peaks pruned_chunks)
            → map D.text leaves.items ≡ drop pruned_chunks list → Keeps D.text F.shape N t list) }
        ensures fits { IfOk result (λ _. (pruned_chunks + length leaves.items ≤ max_leaves)
            × (length (F.shape.peaks pruned_chunks) ≤ length pinned.now)) }
        ensures why { IfErr result (λ e.
            ((max_leaves < pruned_chunks + length leaves.items)
            × (e ≡ Error.LocationOverflow (min (pruned_chunks + length leaves.items) u64.MAX)))
            ⊎ ((pruned_chunks + length leaves.items ≤ max_leaves)
            × (((length pinned.now < length (F.shape.peaks pruned_chunks)) × (e
            ≡ Error.MissingNode (slice_index (pins F.shape pruned_chunks) (length pinned.now))))
            ⊎ ((length (F.shape.peaks pruned_chunks) ≤ length pinned.now)
            × (e ≡ Error.Memory))))) }
    {
        let chunks = Location::new(pruned_chunks.saturating_add(leaves.len() as u64));
        if !chunks.is_valid() {
            return Err(Error::LocationOverflow(chunks));
        }
        let count = match count_pins::<F>(Location::new(pruned_chunks), pinned.len()) {
            Ok(count) => count,
            Err(missing) => return Err(Error::MissingNode(missing)),
        };
        let Ok(pinned) = Vec::from_slice(alloc, &pinned[..count]) else {
            return Err(Error::Memory);
        };
        Ok(GraftedTree {
            pruned: pruned_chunks,
            pinned,
            leaves,
            family: PhantomData,
        })
    }

    /// As many digests are kept as there are peaks over the pruned chunks, and at most as many chunks as a tree may have leaves. Does
    /// nothing.
    pub(crate) fn is_whole(&self)
        ensures { IsWholeGrafted F.shape self.now.pruned (length self.now.pinned)
            (length self.now.leaves) }
    {
        let _ = &self.leaves;
    }

    /// Returns how many chunks the tree is over, the pruned ones among them. Allocates nothing.
    pub fn leaves(&self) -> Location<F>
        ensures { result ≡ self.now.pruned + length self.now.leaves }
    {
        Location::new(self.pruned + self.leaves.len() as u64)
    }

    /// Returns how many chunks are pruned. Allocates nothing.
    pub fn pruned_chunks(&self) -> u64
        ensures { result ≡ self.now.pruned }
    {
        self.pruned
    }

    /// Returns the digests of the peaks over the pruned chunks, in leaf order. Allocates nothing.
    pub(crate) fn pinned_nodes(&self) -> &[D]
        ensures { result.now ≡ self.now.pinned }
    {
        self.pinned.as_slice()
    }

    /// Returns the digest of the node at `position`, if it is a pin or a leaf that is not pruned; `None` for every
    /// other node. Allocates nothing.
    pub fn get_node(&self, position: Position<F>) -> Option<D>
        ensures { result
            ≡ tree_at F.shape self.now.pruned self.now.pinned self.now.leaves position }
    {
        look_up(self.pruned, &self.pinned, &self.leaves, position)
    }

    /// Forgets the leaves of the chunks before number `chunks`, and keeps the peaks over them, hashed by `hasher` if
    /// they are not kept. Where these chunks are pruned already it changes nothing.
    ///
    /// # Errors
    ///
    /// `RangeOutOfBounds(chunks)` if there are fewer than `chunks` chunks; `Memory`. Either leaves the tree as it was.
    pub fn prune<H: Hasher<F, Digest = D>>(
        &mut self,
        hasher: &H,
        chunks: u64,
    ) -> Result<(), Error<F>>
        requires { chunks ≤ self.old.pruned + length self.old.leaves
            → TakesGrowth (H.takes hasher.now) F.shape self.old.pruned chunks }
        ensures stands { let N = node_over H.hash_of (H.layout hasher.now) (H.chunk hasher.now) in
            OnOk result ((list : List (List ℕ)) → Keeps D.text F.shape N self.old list
            → Keeps D.text F.shape N self.new list) }
        ensures place { OnOk result (self.new.pruned ≡ max self.old.pruned chunks) }
        ensures rest { OnOk result
            (self.new.leaves ≡ drop (chunks - self.old.pruned) self.old.leaves) }
        ensures nothing { chunks ≤ self.old.pruned → self.new ≡ self.old }
        ensures fits { OnOk result (chunks ≤ self.old.pruned + length self.old.leaves) }
        ensures same { OnErr result (self.new ≡ self.old) }
        ensures why { IfErr result (λ e.
            ((self.old.pruned + length self.old.leaves < chunks)
            × (e ≡ Error.RangeOutOfBounds chunks))
            ⊎ ((self.old.pruned < chunks) × (chunks ≤ self.old.pruned + length self.old.leaves)
            × (e ≡ Error.Memory))) }
    {
        if chunks > self.leaves().as_u64() {
            return Err(Error::RangeOutOfBounds(Location::new(chunks)));
        }
        if chunks <= self.pruned {
            return Ok(());
        }
        let alloc = *self.pinned.allocator();
        let Ok(pinned) = peaks_over(alloc, self, hasher, chunks) else {
            return Err(Error::Memory);
        };
        let gone = (chunks - self.pruned) as usize;
        let rest = self.leaves.len() - gone;
        let leaves = &mut self.leaves;
        leaves.rotate_left(gone);
        leaves.truncate(rest);
        self.pinned = pinned;
        let pruned = &mut self.pruned;
        *pruned = chunks;
        Ok(())
    }
}

impl<F: Graftable, D: Digest> Readable for GraftedTree<F, D> {
    type Family = F;

    type Digest = D;

    ghost node = { λ t p. tree_at F.shape t.pruned t.pinned t.leaves p };

    fn get_node(&self, position: Position<F>) -> Option<D>
        ensures { result
            ≡ tree_at F.shape self.now.pruned self.now.pinned self.now.leaves position }
    {
        GraftedTree::get_node(self, position)
    }
}

/// Returns the digest at `position`: of a leaf from number `pruned` on, whose digests are `leaves`, or of a peak over
/// the leaves before it, whose digests are `pinned`.
fn look_up<F: Graftable, D: Digest>(
    pruned: u64,
    pinned: &[D],
    leaves: &[D],
    position: Position<F>,
) -> Option<D>
    requires few { pruned + length leaves.now ≤ max_leaves }
    requires pins { length pinned.now ≡ length (F.shape.peaks pruned) }
    ensures { result ≡ tree_at F.shape pruned pinned.now leaves.now position }
{
    if !position.is_valid() {
        return None;
    }
    let place = leaves_within::<F>(position.as_u64());
    if place < pruned {
        return pin_at(pruned, pinned, position);
    }
    if F::nodes_over(place) != position.as_u64() {
        return None;
    }
    leaves.get((place - pruned) as usize).copied()
}

/// Returns the digest at `position` of a peak over the first `pruned` leaves; none if there is no such peak there.
fn pin_at<F: Graftable, D: Digest>(pruned: u64, pinned: &[D], position: Position<F>) -> Option<D>
    requires few { pruned ≤ max_leaves }
    requires pins { length pinned.now ≡ length (F.shape.peaks pruned) }
    ensures { result ≡ paired position (pins F.shape pruned) pinned.now }
{
    let place = position.as_u64();
    let mut left = F::nodes_to_pin(Location::new(pruned));
    let mut index = 0;
    while let Some(at) = left.next() {
        if at.as_u64() == place {
            return Some(pinned[index]);
        }
        index += 1;
    }
    None
}

/// Returns the digests of the peaks over the first `chunks` leaves of `tree`, in leaf order.
fn peaks_over<F: Graftable, D: Digest, H: Hasher<F, Digest = D>>(
    alloc: Global,
    tree: &GraftedTree<F, D>,
    hasher: &H,
    chunks: u64,
) -> Result<Vec<D>, AllocError>
    requires whole { IsWholeGrafted F.shape tree.now.pruned (length tree.now.pinned)
        (length tree.now.leaves) }
    requires from { tree.now.pruned ≤ chunks }
    requires to { chunks ≤ tree.now.pruned + length tree.now.leaves }
    requires takes { TakesGrowth (H.takes hasher.now) F.shape tree.now.pruned chunks }
    ensures count { IfOk result (λ v. length v.items ≡ length (F.shape.peaks chunks)) }
    ensures digests { let N = node_over H.hash_of (H.layout hasher.now) (H.chunk hasher.now) in
        IfOk result (λ v. (list : List (List ℕ)) → Keeps D.text F.shape N tree.now list
        → map D.text v.items ≡ at_peaks (N list) 0 (F.shape.peaks chunks)) }
{
    let mut peaks = Vec::new(alloc);
    for (first, height) in PeakNodes::<F>::over(chunks) {
        peaks.push(node_of(tree, hasher, first, height).unwrap())?;
    }
    Ok(peaks)
}
