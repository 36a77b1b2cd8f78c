//! The digests that a tree in memory keeps: how they are found, appended and written anew.
//!
//! Nodes stand in one vector by their positions, from the boundary's leaf on; the pinned peaks over the forgotten leaves
//! stand in another. A changed leaf writes the nodes above it anew. If several leaves change, in ascending order, each of
//! these nodes is hashed once: a leaf's climb ends where the next leaf's begins.

ghost use Rattle.std.specs.Prelude.{◌≡◌, ℕ, ◌+◌, ◌-◌, ◌*◌, ◌%◌, ◌<◌, ◌≤◌, ◌↔◌, ◌∷◌, ◌++◌, [], List, map, take, length, get_or, All, Some, IfOk, IsOk, OnErr, vec_capacity, IsTrue, slice_get, option_map, Option};
ghost use Rattle.storage_merkle.specs.Hashers.{IsInner, TakesGrowth, TakesOver};
ghost use Rattle.storage_merkle.specs.Hashing.{node_over};
ghost use Rattle.storage_merkle.specs.Kept.{kept_at, at_peaks, list_updated, IsClean, HoldsDigests};
ghost use Rattle.storage_merkle.specs.Nodes.{IsNode};
ghost use Rattle.storage_merkle.specs.Rewriting.{over, WrittenBelow, IsNext, Reaches};
ghost use Rattle.storage_merkle.specs.Shape.{size, max_leaves};

use crate::merkle::family::power;
use crate::merkle::hasher::Hasher;
use crate::merkle::{Family, Location, PeakNodes, Position};
use std::alloc::AllocError;
use storage_codec::digest::Digest;

/// Lends the digest at `position`, if it is kept: in `pinned` those of the peaks over the leaves below `boundary`, in
/// `nodes` those of the nodes from that leaf's position on.
pub(crate) fn node_at_position<'a, F: Family, D: Digest>(
    boundary: u64,
    pinned: &'a [D],
    nodes: &'a [D],
    position: u64,
) -> Option<&'a D>
    requires few { boundary ≤ max_leaves }
    requires pins { length pinned.now ≡ length (F.shape.peaks boundary) }
    ensures { option_map (λ d. d.now) result
        ≡ kept_at F.shape boundary pinned.now nodes.now position }
{
    let start = F::nodes_over(boundary);
    if position >= start {
        return nodes.get((position - start) as usize);
    }
    let mut left = F::nodes_to_pin(Location::new(boundary));
    let mut index = 0;
    while let Some(at) = left.next() {
        if at.as_u64() == position {
            return Some(&pinned[index]);
        }
        index += 1;
    }
    None
}

/// Returns the digest that [`node_at_position`] lends.
pub(crate) fn look_up<F: Family, D: Digest>(
    boundary: u64,
    pinned: &[D],
    nodes: &[D],
    position: u64,
) -> Option<D>
    requires few { boundary ≤ max_leaves }
    requires pins { length pinned.now ≡ length (F.shape.peaks boundary) }
    ensures { result ≡ kept_at F.shape boundary pinned.now nodes.now position }
{
    node_at_position::<F, D>(boundary, pinned, nodes, position).copied()
}

/// Returns the digest of the `offset`-th node, from 0, of those that are added with leaf number `leaves`, whose digest
/// is `leaf`.
// in place, as the digest function is, so that they are compiled for parts of known lengths
#[inline(always)]
pub(crate) fn digest_of_new_node<F: Family, H: Hasher<F>>(
    hasher: &H,
    leaves: u64,
    boundary: u64,
    pinned: &[H::Digest],
    nodes: &[H::Digest],
    leaf: H::Digest,
    offset: u64,
) -> H::Digest
    requires few { leaves < max_leaves }
    requires order { boundary ≤ leaves }
    requires pins { length pinned.now ≡ length (F.shape.peaks boundary) }
    requires count { length nodes.now + size F.shape boundary ≡ size F.shape leaves + offset }
    requires within { size F.shape leaves + offset < size F.shape (leaves + 1) }
    requires takes { (a k : ℕ) → IsInner F.shape (size F.shape leaves + offset) a k
        → H.takes hasher.now (size F.shape leaves + offset) }
    ensures { let N = node_over H.hash_of (H.layout hasher.now) (H.chunk hasher.now) in
        (list : List (List ℕ)) (dirty : List ℕ) → length list ≡ leaves
        → HoldsDigests F.shape (N (list ++ H.Digest.text leaf ∷ [])) dirty boundary (size F.shape leaves + offset)
        (map H.Digest.text pinned.now) (map H.Digest.text nodes.now)
        → (a k : ℕ) → IsNode F.shape (size F.shape leaves + offset) a k
        → IsClean dirty a k
        → H.Digest.text result ≡ N (list ++ H.Digest.text leaf ∷ []) k a }
{
    let (first, height) = F::node_after(leaves, offset);
    let position = Position::new(F::nodes_over(leaves) + offset);
    if height == 0 {
        return leaf;
    }
    let half = power(height - 1);
    let left = node_at_position::<F, H::Digest>(
        boundary,
        pinned,
        nodes,
        F::position(first, height - 1),
    ).unwrap();
    let right = node_at_position::<F, H::Digest>(
        boundary,
        pinned,
        nodes,
        F::position(first + half, height - 1),
    )
    .unwrap();
    hasher.node_digest(position, left, right)
}

/// Appends to `nodes` the digests of the nodes that are added with leaf number `leaves`, whose digest is `leaf`. If
/// memory runs out, nothing changes.
#[inline(always)]
pub(crate) fn grow<F: Family, H: Hasher<F>>(
    hasher: &H,
    leaves: u64,
    boundary: u64,
    pinned: &[H::Digest],
    nodes: &mut Vec<H::Digest>,
    leaf: H::Digest,
) -> Result<(), AllocError>
    requires few { leaves < max_leaves }
    requires order { boundary ≤ leaves }
    requires pins { length pinned.now ≡ length (F.shape.peaks boundary) }
    requires count { length nodes.old.items + size F.shape boundary ≡ size F.shape leaves }
    requires takes { TakesGrowth (H.takes hasher.now) F.shape leaves (leaves + 1) }
    ensures count { IfOk result (λ _.
        length nodes.new.items + size F.shape boundary ≡ size F.shape (leaves + 1)) }
    ensures grown { let N = node_over H.hash_of (H.layout hasher.now) (H.chunk hasher.now) in
        IfOk result (λ _. (list : List (List ℕ)) (dirty : List ℕ) → length list ≡ leaves
        → HoldsDigests F.shape (N list) dirty boundary (size F.shape leaves)
        (map H.Digest.text pinned.now)
        (map H.Digest.text nodes.old.items)
        → HoldsDigests F.shape (N (list ++ H.Digest.text leaf ∷ [])) dirty boundary (size F.shape (leaves + 1))
        (map H.Digest.text pinned.now) (map H.Digest.text nodes.new.items)) }
    ensures kept { OnErr result (nodes.new.items ≡ nodes.old.items) }
    ensures room { vec_capacity nodes.old ≤ vec_capacity nodes.new }
    ensures none { OnErr result (vec_capacity nodes.new ≡ vec_capacity nodes.old) }
    ensures succeeds { size F.shape (leaves + 1) ≤ vec_capacity nodes.old + size F.shape boundary
        → IsOk result }
{
    let more = F::nodes_over(leaves + 1) - F::nodes_over(leaves);
    nodes.reserve(more as usize)?;
    for offset in 0..more {
        let digest = digest_of_new_node::<F, H>(
            hasher, leaves, boundary, pinned, nodes, leaf, offset,
        );
        nodes.push(digest).unwrap();
    }
    Ok(())
}

/// Returns the digest of the node of height `height`, at least 1, over the leaf `place`, from the digests of its
/// children.
pub(crate) fn parent_digest<F: Family, H: Hasher<F>>(
    hasher: &H,
    leaves: u64,
    boundary: u64,
    pinned: &[H::Digest],
    nodes: &[H::Digest],
    place: u64,
    height: u32,
) -> H::Digest
    requires few { leaves ≤ max_leaves }
    requires kept { boundary ≤ place }
    requires within { place < leaves }
    requires pins { length pinned.now ≡ length (F.shape.peaks boundary) }
    requires count { length nodes.now + size F.shape boundary ≡ size F.shape leaves }
    requires inner { 1 ≤ height }
    requires small { height ≤ 62 }
    requires there { F.shape.birth (over place height) height ≤ leaves }
    requires takes { H.takes hasher.now (F.shape.position (over place height) height) }
    ensures { let N = node_over H.hash_of (H.layout hasher.now) (H.chunk hasher.now) in
        (list : List (List ℕ)) (rest : List ℕ) → WrittenBelow F.shape (N list) rest place height
        boundary (size F.shape leaves) (map H.Digest.text pinned.now) (map H.Digest.text nodes.now)
        → IsClean rest (over place height) height
        → H.Digest.text result ≡ N list height (over place height) }
{
    let half = power(height - 1);
    let first = place / power(height) * power(height);
    let position = F::position(first, height);
    let left = node_at_position::<F, H::Digest>(
        boundary,
        pinned,
        nodes,
        F::position(first, height - 1),
    ).unwrap();
    let right = node_at_position::<F, H::Digest>(
        boundary,
        pinned,
        nodes,
        F::position(first + half, height - 1),
    )
    .unwrap();
    hasher.node_digest(Position::new(position), left, right)
}

/// Returns whether there is a leaf `next`, and it is under the node of height `height` over the leaf `first`.
pub(crate) fn is_below(next: Option<u64>, first: u64, height: u32) -> bool
    requires { height ≤ 63 }
    ensures { IsTrue result ↔ Reaches next first height }
{
    match next {
        Some(place) => place >= first && place - first < power(height),
        None => false,
    }
}

/// Writes `digest` as that of the leaf `place`, and those of the nodes over it, up to the first one that is over the
/// leaf `next` too.
pub(crate) fn write_leaf<F: Family, H: Hasher<F>>(
    hasher: &H,
    leaves: u64,
    boundary: u64,
    pinned: &[H::Digest],
    nodes: &mut [H::Digest],
    place: u64,
    digest: H::Digest,
    next: Option<u64>,
)
    requires few { leaves ≤ max_leaves }
    requires kept { boundary ≤ place }
    requires within { place < leaves }
    requires pins { length pinned.now ≡ length (F.shape.peaks boundary) }
    requires count { length nodes.old + size F.shape boundary ≡ size F.shape leaves }
    requires takes { TakesOver (H.takes hasher.now) F.shape leaves (place ∷ []) }
    ensures { let N = node_over H.hash_of (H.layout hasher.now) (H.chunk hasher.now) in
        (list : List (List ℕ)) (rest : List ℕ) → IsNext next rest
        → HoldsDigests F.shape (N list) (place ∷ rest) boundary (size F.shape leaves)
        (map H.Digest.text pinned.now) (map H.Digest.text nodes.old)
        → get_or list place [] ≡ H.Digest.text digest
        → HoldsDigests F.shape (N list) rest boundary (size F.shape leaves)
        (map H.Digest.text pinned.now)
        (map H.Digest.text nodes.new) }
{
    let start = F::nodes_over(boundary);
    nodes[(F::nodes_over(place) - start) as usize] = digest;
    for height in 1..63 {
        let first = place / power(height) * power(height);
        if F::birth(first, height) > leaves || is_below(next, first, height) {
            return;
        }
        let digest = parent_digest::<F, H>(hasher, leaves, boundary, pinned, nodes, place, height);
        nodes[(F::position(first, height) - start) as usize] = digest;
    }
}

/// Returns the leaf of the first of `updates`; none if there are none.
fn first_place<F: Family, D: Digest>(updates: &[(Location<F>, D)]) -> Option<u64>
    ensures next { IsNext result (map (λ u. u.0) updates.now) }
    ensures first { result ≡ slice_get (map (λ u. u.0) updates.now) 0 }
{
    let (location, _) = updates.first()?;
    Some(location.as_u64())
}

/// Writes the digests `updates` of leaves in their order, and those of the nodes over them.
pub(crate) fn write_leaves<F: Family, H: Hasher<F>>(
    hasher: &H,
    leaves: u64,
    boundary: u64,
    pinned: &[H::Digest],
    nodes: &mut [H::Digest],
    updates: &[(Location<F>, H::Digest)],
)
    requires few { leaves ≤ max_leaves }
    requires there { All (λ u. (boundary ≤ u.0) × (u.0 < leaves)) updates.now }
    requires pins { length pinned.now ≡ length (F.shape.peaks boundary) }
    requires count { length nodes.old + size F.shape boundary ≡ size F.shape leaves }
    requires takes { TakesOver (H.takes hasher.now) F.shape leaves (map (λ u. u.0) updates.now) }
    ensures { let N = node_over H.hash_of (H.layout hasher.now) (H.chunk hasher.now) in
        (list : List (List ℕ)) (dirty : List ℕ) → length list ≡ leaves
        → HoldsDigests F.shape (N list) (map (λ u. u.0) updates.now ++ dirty) boundary
        (size F.shape leaves) (map H.Digest.text pinned.now) (map H.Digest.text nodes.old)
        → HoldsDigests F.shape
        (N (list_updated list (map (λ u. (u.0, H.Digest.text u.1)) updates.now))) dirty boundary
        (size F.shape leaves) (map H.Digest.text pinned.now) (map H.Digest.text nodes.new) }
{
    let mut left = updates;
    while let Some((update, rest)) = left.split_first() {
        let place = update.0.as_u64();
        let next = first_place(rest);
        write_leaf::<F, H>(
            hasher, leaves, boundary, pinned, nodes, place, update.1, next,
        );
        left = rest;
    }
}

/// Returns the digests of the peaks of the tree over `leaves` leaves, in front of an array of 64, and how many they
/// are.
pub(crate) fn peaks_over<F: Family, D: Digest>(
    boundary: u64,
    pinned: &[D],
    nodes: &[D],
    leaves: u64,
) -> ([D; 64], usize)
    requires some { 0 < leaves }
    requires few { leaves ≤ max_leaves }
    requires order { boundary ≤ leaves }
    requires pins { length pinned.now ≡ length (F.shape.peaks boundary) }
    requires there { size F.shape leaves ≤ length nodes.now + size F.shape boundary }
    ensures count { result.1 ≡ length (F.shape.peaks leaves) }
    ensures within { result.1 ≤ 64 }
    ensures room { length result.0 ≡ 64 }
    ensures digests { (node : ℕ → ℕ → List ℕ) → HoldsDigests F.shape node [] boundary
        (length nodes.now + size F.shape boundary) (map D.text pinned.now) (map D.text nodes.now)
        → map D.text (take result.1 result.0) ≡ at_peaks node 0 (F.shape.peaks leaves) }
{
    let highest = F::position(0, F::first_peak(leaves));
    let mut digests = [look_up::<F, D>(boundary, pinned, nodes, highest).unwrap(); 64];
    let mut count = 0;
    for (first, height) in PeakNodes::<F>::over(leaves) {
        digests[count] = look_up::<F, D>(
            boundary,
            pinned,
            nodes,
            F::position(first, height),
        ).unwrap();
        count += 1;
    }
    (digests, count)
}
