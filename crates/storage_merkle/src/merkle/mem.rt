//! A tree that is kept in memory.

ghost use Rattle.std.specs.Prelude.{◌≡◌, ℕ, ◌+◌, ◌<◌, ◌≤◌, ◌∷◌, ◌++◌, [], ◌⊎◌, List, map, max, min, take, length, slice_index, All, IfOk, IsOk, OnOk, OnErr, IfErr, MatchOption};
ghost use Rattle.storage_merkle.specs.Calc.{be8};
ghost use Rattle.storage_merkle.specs.Hashers.{TakesGrowth, TakesOver};
ghost use Rattle.storage_merkle.specs.Hashing.{node_over, peak_digests, root_of};
ghost use Rattle.storage_merkle.specs.Kept.{NodesOver, StandsBut, StandsFor, IsFirstAway, IsWhole, HasRoomFor, at_peaks, kept_at, pins, list_updated};
ghost use Rattle.storage_merkle.specs.Shape.{size, max_leaves};

mod as_storage;
mod nodes;
mod proofs;

use crate::merkle::hasher::Hasher;
use crate::merkle::{Error, Family, Location, MAX_LEAVES, Position, count_pins};
use nodes::{grow, look_up, peaks_over, write_leaves};
use std::alloc::Global;
use std::marker::{Model, PhantomData};
use storage_codec::digest::Digest;

/// A tree in memory: the digests of its nodes from the position of a leaf on, the boundary, and those of the peaks over
/// the leaves before it. What else those leaves had is forgotten.
#[derive(Drop)]
pub struct Mem<F: Family, D: Digest> {
    leaves: u64,
    boundary: u64,
    pinned: Vec<D>,
    nodes: Vec<D>,
    family: PhantomData<F>,
}

impl<F: Family, D: Digest> Model for Mem<F, D> {
    ghost use Rattle.std.specs.Prelude.{vec_capacity, vec_len};
    ghost use Rattle.storage_merkle.specs.Kept.{Kept, IsWhole};

    ghost Value = { Kept D };

    ghost view = { λ m. record {
      leaves = m.leaves;
      boundary = m.boundary;
      pinned = m.pinned.items;
      nodes = m.nodes.items;
      room = vec_capacity m.nodes;
    } };

    ghost invariant = { λ m.
        IsWhole F.shape m.leaves m.boundary (vec_len m.pinned) (vec_len m.nodes) };
}

impl<F: Family, D: Digest> Mem<F, D> {
    /// Returns the tree of no leaves. Allocates nothing.
    pub fn new(alloc: Global) -> Self
        ensures kept { result ≡ record { leaves = 0; boundary = 0; pinned = []; nodes = []; room = 0 } }
        ensures stands { (N : NodesOver) → StandsFor D.text F.shape N result [] }
    {
        Mem {
            leaves: 0,
            boundary: 0,
            pinned: Vec::new(alloc),
            nodes: Vec::new(alloc),
            family: PhantomData,
        }
    }

    /// Returns the tree of `boundary` leaves, all of them forgotten, from `pinned`, the digests of the peaks over them
    /// in leaf order. Digests past those are ignored.
    ///
    /// # Errors
    ///
    /// `LocationOverflow(boundary)` if `boundary` is past `MAX_LEAVES`; `MissingNode` of the position of the first peak
    /// for which `pinned` has no digest; `Memory`.
    pub fn init(alloc: Global, boundary: Location<F>, pinned: &[D]) -> Result<Self, Error<F>>
        ensures kept { IfOk result (λ m. m ≡ record {
          leaves = boundary;
          boundary = boundary;
          pinned = take (length (F.shape.peaks boundary)) pinned.now;
          nodes = [];
          room = 0;
        }) }
        ensures stands { IfOk result (λ m. (N : NodesOver) (list : List (List ℕ)) → length list
            ≡ boundary → map D.text (take (length (F.shape.peaks boundary)) pinned.now)
            ≡ at_peaks (N list) 0 (F.shape.peaks boundary) → StandsFor D.text F.shape N m list) }
        ensures fits { IfOk result (λ _.
            (boundary ≤ max_leaves) × (length (F.shape.peaks boundary) ≤ length pinned.now)) }
        ensures why { IfErr result (λ e.
            ((max_leaves < boundary) × (e ≡ Error.LocationOverflow boundary))
            ⊎ ((boundary ≤ max_leaves) × (((length pinned.now < length (F.shape.peaks boundary))
            × (e ≡ Error.MissingNode (slice_index (pins F.shape boundary) (length pinned.now))))
            ⊎ ((length (F.shape.peaks boundary) ≤ length pinned.now) × (e ≡ Error.Memory))))) }
    {
        if !boundary.is_valid() {
            return Err(Error::LocationOverflow(boundary));
        }
        let count = match count_pins(boundary, pinned.len()) {
            Ok(count) => count,
            Err(missing) => return Err(Error::MissingNode(missing)),
        };
        let Ok(pinned) = Vec::from_slice(alloc, &pinned[..count]) else {
            return Err(Error::Memory);
        };
        Ok(Mem {
            leaves: boundary.as_u64(),
            boundary: boundary.as_u64(),
            pinned,
            nodes: Vec::new(alloc),
            family: PhantomData,
        })
    }

    /// Returns how many leaves the tree has, the forgotten ones among them. Allocates nothing.
    pub fn leaves(&self) -> Location<F>
        ensures { result ≡ self.now.leaves }
    {
        Location::new(self.leaves)
    }

    /// Returns how many nodes the tree has, the forgotten ones among them, as the position past the last. Allocates
    /// nothing.
    pub fn size(&self) -> Position<F>
        ensures { result ≡ size F.shape self.now.leaves }
    {
        Position::new(F::nodes_over(self.leaves))
    }

    /// Returns the digests of the peaks over the forgotten leaves, in leaf order. Allocates nothing.
    pub fn pinned_nodes(&self) -> &[D]
        ensures { result.now ≡ self.now.pinned }
    {
        self.pinned.as_slice()
    }

    /// Returns the digest of the node at `position`; `None` if it is not kept. Allocates nothing.
    pub fn get_node(&self, position: Position<F>) -> Option<D>
        ensures { result
            ≡ kept_at F.shape self.now.boundary self.now.pinned self.now.nodes position }
    {
        look_up::<F, D>(self.boundary, &self.pinned, &self.nodes, position.as_u64())
    }

    /// As many digests are kept as there are peaks over the boundary and nodes from it on. Does nothing.
    pub(crate) fn is_whole(&self)
        ensures { IsWhole F.shape self.now.leaves self.now.boundary (length self.now.pinned)
            (length self.now.nodes) }
    {
        let _ = &self.leaves;
    }

    /// Returns the root under `hasher`, with the first `inactive` peaks inactive. Allocates nothing.
    ///
    /// # Errors
    ///
    /// `InvalidProof` if `inactive` is greater than the number of peaks.
    pub fn root<H: Hasher<F, Digest = D>>(&self, hasher: &H, inactive: usize) -> Result<D, Error<F>>
        ensures root { IfOk result (λ d. (list : List (List ℕ)) → StandsFor D.text F.shape
            (node_over H.hash_of (H.layout hasher.now) (H.chunk hasher.now)) self.now list
            → D.text d ≡ root_of H.hash_of (H.layout hasher.now) (H.bagging hasher.now)
            (length list) inactive (peak_digests H.hash_of (H.layout hasher.now)
            (H.chunk hasher.now) list (length list))) }
        ensures fits { IfOk result (λ _. inactive ≤ length (F.shape.peaks self.now.leaves)) }
        ensures why { IfErr result (λ e.
            (length (F.shape.peaks self.now.leaves) < inactive) × (e ≡ Error.InvalidProof)) }
    {
        if self.leaves == 0 {
            if inactive > 0 {
                return Err(Error::InvalidProof);
            }
            return Ok(hasher.root(self.leaves(), 0, &[]));
        }
        let (digests, count) = peaks_over::<F, D>(
            self.boundary,
            &self.pinned,
            &self.nodes,
            self.leaves,
        );
        if inactive > count {
            return Err(Error::InvalidProof);
        }
        Ok(hasher.root(self.leaves(), inactive, &digests[..count]))
    }

    /// Appends the leaf of `element`, and the nodes that are added with it.
    ///
    /// # Errors
    ///
    /// `LocationOverflow` of the number of leaves if that is `MAX_LEAVES`; `Memory`, but not if there is room for the
    /// leaf already. Either leaves the tree as it was.
    pub fn add<H: Hasher<F, Digest = D>>(
        &mut self,
        hasher: &H,
        element: &[u8],
    ) -> Result<(), Error<F>>
        requires { self.old.leaves < max_leaves → TakesGrowth (H.takes hasher.now) F.shape
            self.old.leaves (self.old.leaves + 1) }
        ensures grown { let N = node_over H.hash_of (H.layout hasher.now) (H.chunk hasher.now) in
            IfOk result (λ _. (list : List (List ℕ)) (dirty : List ℕ)
            → StandsBut D.text F.shape N dirty self.old list → StandsBut D.text F.shape N dirty
            self.new (list ++ H.hash_of (be8 (size F.shape self.old.leaves) ++ element.now) ∷ [])) }
        ensures place { OnOk result ((self.new.leaves ≡ self.old.leaves + 1)
            × (self.new.boundary ≡ self.old.boundary) × (self.new.pinned ≡ self.old.pinned)) }
        ensures fits { OnOk result (self.old.leaves < max_leaves) }
        ensures room { self.old.room ≤ self.new.room }
        ensures succeeds { self.old.leaves < max_leaves → HasRoomFor F.shape 1 self.old
            → IsOk result }
        ensures same { OnErr result (self.new ≡ self.old) }
        ensures why { IfErr result (λ e.
            ((self.old.leaves ≡ max_leaves) × (e ≡ Error.LocationOverflow self.old.leaves))
            ⊎ ((self.old.leaves < max_leaves) × (e ≡ Error.Memory))) }
    {
        let digest = hasher.leaf_digest(self.size(), element);
        self.add_leaf(hasher, digest)
    }

    /// Appends the leaf whose digest is `digest`, and the nodes that are added with it.
    ///
    /// # Errors
    ///
    /// `LocationOverflow` of the number of leaves if that is `MAX_LEAVES`; `Memory`, but not if there is room for the
    /// leaf already. Either leaves the tree as it was.
    pub fn add_leaf<H: Hasher<F, Digest = D>>(
        &mut self,
        hasher: &H,
        digest: D,
    ) -> Result<(), Error<F>>
        requires { self.old.leaves < max_leaves → TakesGrowth (H.takes hasher.now) F.shape
            self.old.leaves (self.old.leaves + 1) }
        ensures grown { let N = node_over H.hash_of (H.layout hasher.now) (H.chunk hasher.now) in
            IfOk result (λ _. (list : List (List ℕ)) (dirty : List ℕ)
            → StandsBut D.text F.shape N dirty self.old list
            → StandsBut D.text F.shape N dirty self.new (list ++ D.text digest ∷ [])) }
        ensures place { OnOk result ((self.new.leaves ≡ self.old.leaves + 1)
            × (self.new.boundary ≡ self.old.boundary) × (self.new.pinned ≡ self.old.pinned)) }
        ensures fits { OnOk result (self.old.leaves < max_leaves) }
        ensures room { self.old.room ≤ self.new.room }
        ensures succeeds { self.old.leaves < max_leaves → HasRoomFor F.shape 1 self.old
            → IsOk result }
        ensures same { OnErr result (self.new ≡ self.old) }
        ensures why { IfErr result (λ e.
            ((self.old.leaves ≡ max_leaves) × (e ≡ Error.LocationOverflow self.old.leaves))
            ⊎ ((self.old.leaves < max_leaves) × (e ≡ Error.Memory))) }
    {
        if self.leaves >= MAX_LEAVES {
            return Err(Error::LocationOverflow(Location::new(self.leaves)));
        }
        if grow::<F, H>(
            hasher,
            self.leaves,
            self.boundary,
            &self.pinned,
            &mut self.nodes,
            digest,
        )
        .is_err()
        {
            return Err(Error::Memory);
        }
        self.leaves += 1;
        Ok(())
    }

    /// Makes room for `count` more leaves and the nodes that are added with them, so that appending them is never
    /// refused memory. Changes no digest.
    ///
    /// # Errors
    ///
    /// `LocationOverflow` of the number of leaves that there would be, at most `u64::MAX`, if that is past
    /// `MAX_LEAVES`; `Memory`, but not if there is that room already. Either leaves the tree as it was.
    pub fn reserve(&mut self, count: u64) -> Result<(), Error<F>>
        ensures kept { self.new ≡ record self.old { room = self.new.room } }
        ensures grows { self.old.room ≤ self.new.room }
        ensures room { OnOk result (HasRoomFor F.shape count self.new) }
        ensures succeeds { self.old.leaves + count ≤ max_leaves → HasRoomFor F.shape count self.old
            → IsOk result }
        ensures fits { OnOk result (self.old.leaves + count ≤ max_leaves) }
        ensures same { OnErr result (self.new ≡ self.old) }
        ensures why { IfErr result (λ e. ((max_leaves < self.old.leaves + count)
            × (e ≡ Error.LocationOverflow (min (self.old.leaves + count) u64.MAX)))
            ⊎ ((self.old.leaves + count ≤ max_leaves) × (e ≡ Error.Memory))) }
    {
        let leaves = self.leaves().saturating_add(count);
        if !leaves.is_valid() {
            return Err(Error::LocationOverflow(leaves));
        }
        let more = F::nodes_over(leaves.as_u64()) - F::nodes_over(self.leaves);
        if self.nodes.reserve(more as usize).is_err() {
            return Err(Error::Memory);
        }
        Ok(())
    }

    /// Gives the leaves of `updates`, in the order of the list, their new digests, and the nodes over them theirs.
    /// Allocates nothing. Where the list ascends, each of these nodes is hashed once: that is how the code goes, and no
    /// clause.
    ///
    /// # Errors
    ///
    /// For the first leaf of the list that is refused: `RangeOutOfBounds` of it if it is not in the tree;
    /// `ElementPruned` of its position if it is forgotten. Either leaves the tree as it was.
    pub fn update_leaves<H: Hasher<F, Digest = D>>(
        &mut self,
        hasher: &H,
        updates: &[(Location<F>, D)],
    ) -> Result<(), Error<F>>
        requires { All (λ u. (self.old.boundary ≤ u.0) × (u.0 < self.old.leaves)) updates.now
            → TakesOver (H.takes hasher.now) F.shape self.old.leaves (map (λ u. u.0) updates.now) }
        ensures written { let N = node_over H.hash_of (H.layout hasher.now) (H.chunk hasher.now) in
            OnOk result ((list : List (List ℕ)) (dirty : List ℕ) → StandsBut D.text F.shape N
            (map (λ u. u.0) updates.now ++ dirty) self.old list → StandsBut D.text F.shape N dirty
            self.new (list_updated list (map (λ u. (u.0, D.text u.1)) updates.now))) }
        ensures stands { let N = node_over H.hash_of (H.layout hasher.now) (H.chunk hasher.now) in
            OnOk result ((list : List (List ℕ)) → StandsFor D.text F.shape N self.old list
            → StandsFor D.text F.shape N self.new
            (list_updated list (map (λ u. (u.0, D.text u.1)) updates.now))) }
        ensures place { OnOk result ((self.new.leaves ≡ self.old.leaves)
            × (self.new.boundary ≡ self.old.boundary) × (self.new.pinned ≡ self.old.pinned)) }
        ensures room { self.new.room ≡ self.old.room }
        ensures fits { OnOk result
            (All (λ u. (self.old.boundary ≤ u.0) × (u.0 < self.old.leaves)) updates.now) }
        ensures same { OnErr result (self.new ≡ self.old) }
        ensures why { IfErr result (λ e. (away : ℕ)
            × IsFirstAway self.old.leaves self.old.boundary (map (λ u. u.0) updates.now) away
            × (((self.old.leaves ≤ away) × (e ≡ Error.RangeOutOfBounds away))
            ⊎ ((away < self.old.boundary) × (e ≡ Error.ElementPruned (size F.shape away))))) }
    {
        if let Some(away) = first_away(self.leaves, self.boundary, updates) {
            if away >= self.leaves {
                return Err(past_the_leaves(away));
            }
            return Err(Error::ElementPruned(Position::new(F::nodes_over(away))));
        }
        write_leaves::<F, H>(
            hasher,
            self.leaves,
            self.boundary,
            &self.pinned,
            &mut self.nodes,
            updates,
        );
        Ok(())
    }

    /// Forgets the leaves below `location`, and all nodes but those that the other leaves need. The room of what is
    /// forgotten is kept for later leaves. Where these leaves are forgotten already it changes nothing.
    ///
    /// # Errors
    ///
    /// `RangeOutOfBounds(location)` if `location` is past the number of leaves; `Memory`. Either leaves the tree as it
    /// was.
    pub fn prune(&mut self, location: Location<F>) -> Result<(), Error<F>>
        ensures stands { OnOk result ((N : NodesOver) (list : List (List ℕ))
            → StandsFor D.text F.shape N self.old list → StandsFor D.text F.shape N self.new list) }
        ensures place { OnOk result ((self.new.boundary ≡ max self.old.boundary location)
            × (self.new.leaves ≡ self.old.leaves)) }
        ensures room { self.new.room ≡ self.old.room }
        ensures fits { OnOk result (location ≤ self.old.leaves) }
        ensures same { OnErr result (self.new ≡ self.old) }
        ensures why { IfErr result (λ e.
            ((self.old.leaves < location) × (e ≡ Error.RangeOutOfBounds location))
            ⊎ ((location ≤ self.old.leaves) × (e ≡ Error.Memory))) }
    {
        let to = location.as_u64();
        if to > self.leaves {
            return Err(past_the_leaves(to));
        }
        if to <= self.boundary {
            return Ok(());
        }
        let (digests, count) = peaks_over::<F, D>(self.boundary, &self.pinned, &self.nodes, to);
        let Ok(pinned) = Vec::from_slice(*self.pinned.allocator(), &digests[..count]) else {
            return Err(Error::Memory);
        };
        let gone = (F::nodes_over(to) - F::nodes_over(self.boundary)) as usize;
        let rest = self.nodes.len() - gone;
        let nodes = &mut self.nodes;
        nodes.rotate_left(gone);
        nodes.truncate(rest);
        self.pinned = pinned;
        self.boundary = to;
        Ok(())
    }
}

/// Returns the refusal of the leaf at `place`, which is past the tree.
fn past_the_leaves<F: Family>(place: u64) -> Error<F>
    ensures { result ≡ Error.RangeOutOfBounds place }
{
    Error::RangeOutOfBounds(Location::new(place))
}

/// Returns the first leaf of `updates` that is below `boundary` or not below `leaves`; none if there is no such leaf.
fn first_away<F: Family, D: Digest>(
    leaves: u64,
    boundary: u64,
    updates: &[(Location<F>, D)],
) -> Option<u64>
    ensures { MatchOption result (All (λ u. (boundary ≤ u.0) × (u.0 < leaves)) updates.now) (λ p.
        IsFirstAway leaves boundary (map (λ u. u.0) updates.now) p
        × ((leaves ≤ p) ⊎ (p < boundary))) }
{
    for (location, _) in updates {
        let place = location.as_u64();
        if place >= leaves || place < boundary {
            return Some(place);
        }
    }
    None
}
