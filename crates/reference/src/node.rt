//! Digests of nodes, from the leaves up.

ghost use Rattle.std.specs.Prelude.{◌≡◌, ◌-◌, ◌<◌, ℕ, ◌+◌, ◌*◌, ◌^◌, ◌≤◌, ◌++◌, List, [], map, get_or, Bool, true, false, if◌then◌else◌, IfOk, OnOk, MatchOption};
ghost use Rattle.storage_merkle.specs.Calc.{Site, node, eval, be8, grafted_digest};
ghost use Rattle.storage_merkle.specs.Shape.{leaves_under, max_leaves};
ghost use Rattle.storage_merkle.specs.Trees.{Peak, node_calc, never, part, places};
ghost use Rattle.reference.specs.Layouts.{laid_out, valued};

use crate::shape::{Digits, power};
use std::alloc::{AllocError, Global};
use std::convert::AsSlice;
use std::marker::Model;
use storage_codec::digest::{Digest, Hasher};

/// A node: its first leaf and its height. It ends within `2^62` leaves.
#[derive(Drop)]
#[derive(Clone, Copy)]
pub struct Node {
    first: u64,
    height: u32,
}

impl Model for Node {
    ghost use Rattle.std.specs.Prelude.{◌+◌, ◌^◌, ◌≤◌};
    ghost use Rattle.storage_merkle.specs.Trees.{Peak};
    ghost use Rattle.storage_merkle.specs.Shape.{max_leaves};

    ghost Value = { Peak };

    ghost view = { λ s. record { first = s.first; height = s.height } };

    ghost invariant = { λ s. s.first + 2 ^ s.height ≤ max_leaves };

    ghost inverse = { λ p. record { first = p.first; height = p.height } };
}

impl Node {
    /// Returns the node of height `height` over the leaves from `first` on.
    pub fn new(first: u64, height: u32) -> Self
        requires { first + 2 ^ height ≤ max_leaves }
        ensures { result ≡ record { first = first; height = height } }
    {
        Node { first, height }
    }

    /// Returns the node's first leaf.
    pub fn first(&self) -> u64
        ensures { result ≡ self.now.first }
    {
        self.first
    }

    /// Returns the node's height, from 0 for a leaf.
    pub fn height(&self) -> u32
        ensures value { result ≡ self.now.height }
        ensures within { self.now.first + 2 ^ self.now.height ≤ max_leaves }
    {
        self.height
    }

    /// Returns the leaf after the node's last one.
    pub fn end(&self) -> u64
        ensures { result ≡ self.now.first + 2 ^ self.now.height }
    {
        self.first + power(self.height)
    }

    /// Returns the node's left half, where its height is at least 1.
    pub fn left(&self) -> Self
        requires { 0 < self.now.height }
        ensures { result ≡ record { first = self.now.first; height = self.now.height - 1 } }
    {
        Node {
            first: self.first,
            height: self.height - 1,
        }
    }

    /// Returns the node's right half, where its height is at least 1.
    pub fn right(&self) -> Self
        requires { 0 < self.now.height }
        ensures { result ≡ record {
          first = self.now.first + 2 ^ (self.now.height - 1);
          height = self.now.height - 1;
        } }
    {
        Node {
            first: self.first + power(self.height - 1),
            height: self.height - 1,
        }
    }
}

/// What a calculation is over: elements, and digests that are given.
pub(crate) trait Source<H: Hasher> {
    /// The nodes whose digests are given.
    ghost cut: { Self → ℕ → ℕ → Bool };

    /// The digests that are given.
    ghost digest: { Self → Site → List ℕ };

    /// The elements.
    ghost item: { Self → ℕ → List ℕ };

    /// Returns the digest of the node `place`, if it is given.
    fn given(&self, place: Node) -> Option<H::Digest>
        ensures { MatchOption result (cut self.now place.first place.height ≡ false) (λ d.
            (cut self.now place.first place.height ≡ true)
            × (H.Digest.text d ≡ digest self.now (node place.first place.height))) };

    /// Returns the element at `location`; no bytes if there is none.
    fn element(&self, location: u64) -> &[u8]
        ensures { result.now ≡ item self.now location };
}

/// Which nodes have a chunk grafted.
pub trait Grafts<H: Hasher> {
    /// The nodes that have one.
    ghost grafted: { Self → ℕ → ℕ → Bool };

    /// The chunk from a leaf on.
    ghost chunk: { Self → ℕ → List ℕ };

    /// Returns the digest of the node `place` from `inner`, the one that it has with no chunk: `inner` if no chunk is
    /// grafted over it or the chunk is all zero, else that of the chunk and `inner`. Fails only if memory runs out.
    fn graft(&self, alloc: Global, place: Node, inner: H::Digest) -> Result<H::Digest, AllocError>
        ensures { IfOk result (λ d. H.Digest.text d ≡ if grafted self.now place.first place.height
            then grafted_digest H.hash_of (chunk self.now place.first) (H.Digest.text inner)
            else H.Digest.text inner) };
}

/// No node has a chunk grafted.
#[derive(Clone, Copy, Drop)]
pub struct Ungrafted;

impl<H: Hasher> Grafts<H> for Ungrafted {
    ghost grafted = { λ _ _ _. false };

    ghost chunk = { λ _ _. [] };

    fn graft(
        &self,
        _alloc: Global,
        _place: Node,
        inner: H::Digest,
    ) -> Result<H::Digest, AllocError> {
        Ok(inner)
    }
}

/// A whole tree: all elements from the first leaf on, and no digests.
#[derive(Drop)]
#[derive_where(Clone, Copy)]
pub(crate) struct Whole<'a, E> {
    /// The elements, from the first leaf on.
    pub elements: &'a [E],
}

impl<H: Hasher, E: AsSlice<u8>> Source<H> for Whole<'_, E> {
    ghost cut = { λ _. never };

    ghost digest = { λ _ _. H.hash_of [] };

    ghost item = { λ s j. get_or (map E.items s.elements.now) j [] };

    fn given(&self, _place: Node) -> Option<H::Digest> {
        None
    }

    fn element(&self, location: u64) -> &[u8] {
        match self.elements.get(location as usize) {
            Some(element) => element.as_slice(),
            None => &[],
        }
    }
}

/// Returns the digest of the node `place`: the one that is given, else that of its position in eight bytes, highest
/// first, and the element, or the digests of its halves. Fails only if memory runs out.
pub(crate) fn node_digest<F: Digits, H: Hasher, S: Source<H>, G: Grafts<H>>(
    alloc: Global,
    source: &S,
    grafts: &G,
    place: Node,
) -> Result<H::Digest, AllocError>
    ensures { IfOk result (λ d. H.Digest.text d
        ≡ eval H.hash_of (valued (S.digest source.now) (S.item source.now) (G.chunk grafts.now))
        (part (laid_out F.shape (G.grafted grafts.now)) (S.cut source.now) place)) }
{
    if let Some(digest) = source.given(place) {
        return Ok(digest);
    }
    let first = place.first();
    let height = place.height();
    let position = F::place(alloc, first, height)?;
    if height == 0 {
        return Ok(leaf_digest::<H>(position, source.element(first)));
    }
    let left = node_digest::<F, H, S, G>(alloc, source, grafts, place.left())?;
    let right = node_digest::<F, H, S, G>(alloc, source, grafts, place.right())?;
    let inner = pair_digest::<H>(position, &left, &right);
    let digest = grafts.graft(alloc, place, inner)?;
    Ok(digest)
}

/// Returns the digest of `position` in eight bytes, highest first, and `element`.
#[tactic(auto, unfolding(storage_merkle::specs::Calc::be8))]
fn leaf_digest<H: Hasher>(position: u64, element: &[u8]) -> H::Digest
    ensures { H.Digest.text result ≡ H.hash_of (be8 position ++ element.now) }
{
    H::hash(&[&position.to_be_bytes(), element])
}

/// Returns the digest of `position` in eight bytes, highest first, and the digests `left` and `right`.
#[tactic(auto, unfolding(storage_merkle::specs::Calc::be8))]
fn pair_digest<H: Hasher>(position: u64, left: &H::Digest, right: &H::Digest) -> H::Digest
    ensures { H.Digest.text result
        ≡ H.hash_of (be8 position ++ (H.Digest.text left.now ++ H.Digest.text right.now)) }
{
    H::hash(&[&position.to_be_bytes(), left.bytes(), right.bytes()])
}

/// Appends to `digests` those of `nodes`. Fails only if memory runs out.
pub(crate) fn push_digests<F: Digits, H: Hasher, S: Source<H>, G: Grafts<H>>(
    digests: &mut Vec<H::Digest>,
    source: &S,
    grafts: &G,
    nodes: &[Node],
) -> Result<(), AllocError>
    ensures { OnOk result
        (map H.Digest.text digests.new.items ≡ map H.Digest.text digests.old.items ++ map
        (λ p. eval H.hash_of (valued (S.digest source.now) (S.item source.now) (G.chunk grafts.now))
        (part (laid_out F.shape (G.grafted grafts.now)) (S.cut source.now) p)) nodes.now) }
{
    let Some((node, rest)) = nodes.split_first() else {
        return Ok(());
    };
    let alloc = *digests.allocator();
    let digest = node_digest::<F, H, S, G>(alloc, source, grafts, *node)?;
    digests.push(digest)?;
    push_digests::<F, H, S, G>(digests, source, grafts, rest)
}
