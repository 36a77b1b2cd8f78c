//! How the leaves, nodes and roots of a tree are hashed.
//!
//! ```text
//! leaf    h( position || element )                        numbers take eight bytes, highest first
//! node    h( position || left || right )
//! fold    h( left || right )                              of peaks
//! root    h( family || bagging || leaves || inactive || bagged peaks )
//! ```
//!
//! The position goes into each string, so that no subtree can be shown at another place. The root has the number of leaves
//! and of inactive peaks, so that neither can be claimed otherwise.

ghost use Rattle.std.specs.Prelude.{◌≡◌, ℕ, ◌%◌, ◌^◌, ◌<◌, ◌≤◌, ◌++◌, List, [], flat_map, length, map, false, refl, All, Option, option_map};
ghost use Rattle.std.specs.List.{AllZip};
ghost use Rattle.storage_codec.specs.Digests.{HashFunction, IsSized, or_nothing};
ghost use Rattle.storage_merkle.specs.Shape.{size};
ghost use Rattle.storage_merkle.specs.Nodes.{IsNode};
ghost use Rattle.storage_merkle.specs.Calc.{be8};
ghost use Rattle.storage_merkle.specs.Trees.{Layout, ungrafted, root_head};
ghost use Rattle.storage_merkle.specs.Hashing.{join_digest, bagged, bagged_peaks, root_of};
ghost use Rattle.storage_merkle.specs.Hashers.{appended, prepended, folded_onto, forward_of};
ghost use Rattle.storage_merkle.specs.declared.merkle.bagging.Bagging.{Bagging};

use crate::merkle::{Bagging, Family, Location, Position};
use std::marker::PhantomData;
use storage_codec::digest::{self, Digest, bytes_or_nothing};

/// Digests of the leaves, nodes and roots of a tree of the family `F`.
pub trait Hasher<F: Family> {
    /// The digests that it answers.
    type Digest: Digest;

    /// The digest function.
    ghost hash_of: { HashFunction };

    /// The family's shape, the numbers that go into node digests, and the nodes that have a chunk grafted.
    ghost layout: { Self → Layout };

    /// The chunk that is grafted over the node of a first leaf.
    ghost chunk: { Self → ℕ → List ℕ };

    /// The direction in which peaks are folded.
    ghost bagging: { Self → Bagging };

    /// The positions whose node digests may be asked for.
    ghost takes: { Self → ℕ → Type 0 };

    /// Returns the digest of `parts`, joined one after another.
    fn hash(&self, parts: &[&[u8]]) -> Self::Digest
        ensures { Self.Digest.text result ≡ hash_of (flat_map (λ part. part.now) parts.now) };

    /// Returns the digest of `bytes`.
    final fn digest(&self, bytes: &[u8]) -> Self::Digest
    where
        Self: Sized,
        ensures { Self.Digest.text result ≡ hash_of bytes.now }
    {
        self.hash(&[bytes])
    }

    /// Returns the direction in which peaks are folded.
    fn root_bagging(&self) -> Bagging
        ensures { result ≡ bagging self.now };

    /// Returns the digest of the leaf at `position`: of `position` in eight bytes, highest first, and then `element`.
    #[tactic(auto, unfolding(crate::specs::Calc::be8))]
    final fn leaf_digest(&self, position: Position<F>, element: &[u8]) -> Self::Digest
    where
        Self: Sized,
        ensures { Self.Digest.text result ≡ hash_of (be8 position ++ element.now) }
    {
        self.hash(&[&position.as_u64().to_be_bytes(), element])
    }

    /// Returns the digest of the node at `position`: of `position` in eight bytes, highest first, and the digests
    /// `left` and `right` of its children; if a chunk is grafted over it, of the chunk and that digest.
    fn node_digest(
        &self,
        position: Position<F>,
        left: &Self::Digest,
        right: &Self::Digest,
    ) -> Self::Digest
        requires { takes self.now position }
        ensures { (first height : ℕ) → IsNode F.shape position first height
            → Self.Digest.text result ≡ join_digest hash_of (layout self.now) (chunk self.now) first
            height (Self.Digest.text left.now) (Self.Digest.text right.now) };

    /// Returns the digest of the node of height `height` over the leaves from `first` on, from `left` and `right`,
    /// those of its children: what [`node_digest`](Self::node_digest) answers at its position. A hasher that asks which
    /// leaves a node covers need not find them by the position here.
    #[inline(always)]
    fn node_digest_over(
        &self,
        first: u64,
        height: u32,
        left: &Self::Digest,
        right: &Self::Digest,
    ) -> Self::Digest
        requires aligned { first % 2 ^ height ≡ 0 }
        requires fits { F.shape.position first height < 2 ^ 64 }
        requires takes { takes self.now (F.shape.position first height) }
        ensures { Self.Digest.text result ≡ join_digest hash_of (layout self.now) (chunk self.now)
            first height (Self.Digest.text left.now) (Self.Digest.text right.now) }
    {
        self.node_digest(Position::new(F::position(first, height)), left, right)
    }

    /// Returns the digests of two nodes, each given as (position, digest of the left child, digest of the right child).
    final fn node_digest_pair(
        &self,
        nodes: &[(Position<F>, &Self::Digest, &Self::Digest); 2],
    ) -> [Self::Digest; 2]
    where
        Self: Sized,
        requires { All (λ n. takes self.now n.0) nodes.now }
        ensures { AllZip (λ n d. (first height : ℕ) → IsNode F.shape n.0 first height
            → Self.Digest.text d ≡ join_digest hash_of (layout self.now) (chunk self.now) first
            height (Self.Digest.text n.1.now) (Self.Digest.text n.2.now)) nodes.now result }
    {
        let (first, left, right) = nodes[0];
        let (second, second_left, second_right) = nodes[1];
        [
            self.node_digest(first, left, right),
            self.node_digest(second, second_left, second_right),
        ]
    }

    /// Returns the root of the tree over `leaves` leaves whose first `inactive` peaks are inactive, from `peaks`, the
    /// digests of its peaks in leaf order: the digest of the family's byte, the bagging's byte, `leaves` and `inactive`
    /// in eight bytes each, highest first, and the bagged peaks, no bytes if there are none. Allocates nothing.
    final fn root(
        &self,
        leaves: Location<F>,
        inactive: usize,
        peaks: &[Self::Digest],
    ) -> Self::Digest
    where
        Self: Sized,
        requires { inactive ≤ length peaks.now }
        ensures { Self.Digest.text result ≡ root_of hash_of (layout self.now)
            (bagging self.now) leaves inactive (map Self.Digest.text peaks.now) }
    {
        let bag = bag_peaks(self, inactive, peaks);
        bagged_root(self, leaves.as_u64(), inactive, bag)
    }

    /// Each answer of the digest function has the length of a digest.
    ghost sized: { IsSized Self.Digest.size hash_of };

    /// The shape of the layout is the family's.
    ghost over: { (s : Self) → (layout s).shape ≡ F.shape };
}

/// Returns the fold of two items: the digest of `left` and `right` joined.
pub(crate) fn fold<F: Family, H: Hasher<F>>(
    hasher: &H,
    left: &H::Digest,
    right: &H::Digest,
) -> H::Digest
    ensures { H.Digest.text result ≡ H.hash_of (H.Digest.text left.now ++ H.Digest.text right.now) }
{
    hasher.hash(&[left.bytes(), right.bytes()])
}

/// Returns the digests `peaks`, bagged in the hasher's direction after the first `inactive` of them are folded into one
/// item; none for no peaks.
fn bag_peaks<F: Family, H: Hasher<F>>(
    hasher: &H,
    inactive: usize,
    peaks: &[H::Digest],
) -> Option<H::Digest>
    requires { inactive ≤ length peaks.now }
    ensures { or_nothing (option_map H.Digest.text result)
        ≡ bagged_peaks H.hash_of (H.bagging hasher.now) inactive (map H.Digest.text peaks.now) }
{
    match hasher.root_bagging() {
        Bagging::ForwardFold => bag_digests(hasher, peaks, &[]),
        Bagging::BackwardFold => {
            let (front, rest) = peaks.split_at(inactive);
            bag_digests(hasher, front, rest)
        }
    }
}

/// Returns `front` folded from the left into one item, and then that item and `rest` folded from the right; none if
/// both are empty.
fn bag_digests<F: Family, H: Hasher<F>>(
    hasher: &H,
    front: &[H::Digest],
    rest: &[H::Digest],
) -> Option<H::Digest>
    ensures { or_nothing (option_map H.Digest.text result)
        ≡ bagged H.hash_of (map H.Digest.text front.now) (map H.Digest.text rest.now) }
{
    let folded = fold_onto(hasher, rest, None);
    match fold_forward(hasher, front) {
        None => folded,
        Some(item) => Some(join(hasher, &item, folded)),
    }
}

/// Returns `items` folded from the left; none for no items.
pub(crate) fn fold_forward<F: Family, H: Hasher<F>>(
    hasher: &H,
    items: &[H::Digest],
) -> Option<H::Digest>
    ensures { option_map H.Digest.text result ≡ forward_of H.hash_of (map H.Digest.text items.now) }
{
    let (first, mut left) = items.split_first()?;
    let mut folded = *first;
    while let Some((item, rest)) = left.split_first() {
        folded = fold(hasher, &folded, item);
        left = rest;
    }
    Some(folded)
}

/// Returns `items` folded from the right onto `onto`, which is what the items after them are folded into, or none.
pub(crate) fn fold_onto<F: Family, H: Hasher<F>>(
    hasher: &H,
    items: &[H::Digest],
    onto: Option<H::Digest>,
) -> Option<H::Digest>
    ensures { option_map H.Digest.text result
        ≡ folded_onto H.hash_of (map H.Digest.text items.now) (option_map H.Digest.text onto) }
{
    let mut folded = onto;
    let mut left = items;
    while let Some((item, front)) = left.split_last() {
        folded = Some(join(hasher, item, folded));
        left = front;
    }
    folded
}

/// `folded`, what the items before `item` are folded into, folded with it; `item` alone if there are none before it.
pub(crate) fn append<F: Family, H: Hasher<F>>(
    hasher: &H,
    folded: Option<H::Digest>,
    item: &H::Digest,
) -> H::Digest
    ensures { H.Digest.text result
        ≡ appended H.hash_of (option_map H.Digest.text folded) (H.Digest.text item.now) }
{
    match folded {
        None => *item,
        Some(folded) => fold(hasher, &folded, item),
    }
}

/// Returns `item` folded with `onto`, what the items after it are folded into; `item` alone if there are none after it.
pub(crate) fn join<F: Family, H: Hasher<F>>(
    hasher: &H,
    item: &H::Digest,
    onto: Option<H::Digest>,
) -> H::Digest
    ensures { H.Digest.text result
        ≡ prepended H.hash_of (H.Digest.text item.now) (option_map H.Digest.text onto) }
{
    match onto {
        None => *item,
        Some(rest) => fold(hasher, item, &rest),
    }
}

/// Returns the root of the tree over `leaves` leaves with `inactive` inactive peaks, from `bag`, what its peaks are
/// bagged into, none if it has no peaks.
#[tactic(auto, unfolding(crate::specs::Calc::be8))]
pub(crate) fn bagged_root<F: Family, H: Hasher<F>>(
    hasher: &H,
    leaves: u64,
    inactive: usize,
    bag: Option<H::Digest>,
) -> H::Digest
    ensures { H.Digest.text result ≡ H.hash_of (root_head (H.layout hasher.now)
        (H.bagging hasher.now) leaves inactive ++ or_nothing (option_map H.Digest.text bag)) }
{
    let head = [F::byte(), hasher.root_bagging().byte()];
    let leaves = leaves.to_be_bytes();
    let inactive = (inactive as u64).to_be_bytes();
    hash_parts(hasher, &head, &leaves, &inactive, bytes_or_nothing(&bag))
}

/// Returns the digest of the string of a root: of `head`, `leaves`, `inactive` and `bag`, joined.
fn hash_parts<F: Family, H: Hasher<F>>(
    hasher: &H,
    head: &[u8],
    leaves: &[u8],
    inactive: &[u8],
    bag: &[u8],
) -> H::Digest
    ensures { H.Digest.text result
        ≡ H.hash_of (head.now ++ (leaves.now ++ (inactive.now ++ bag.now))) }
{
    hasher.hash(&[head, leaves, inactive, bag])
}

/// The ordinary hasher: a node is hashed with its own position, and no chunk is grafted.
#[derive_where(Clone, Copy)]
#[derive(Drop)]
pub struct Standard<H> {
    bagging: Bagging,
    function: PhantomData<H>,
}

impl<H> Standard<H> {
    /// Returns the ordinary hasher whose roots fold the peaks in the direction `bagging`.
    pub fn new(bagging: Bagging) -> Self
        ensures { result.bagging ≡ bagging }
    {
        Standard {
            bagging,
            function: PhantomData,
        }
    }
}

impl<F: Family, H: digest::Hasher> Hasher<F> for Standard<H> {
    type Digest = H::Digest;

    ghost hash_of = { H.hash_of };

    ghost layout = { λ _. ungrafted F.shape };

    ghost chunk = { λ _ _. [] };

    ghost bagging = { λ s. s.bagging };

    ghost takes = { λ _ _. Unit {0} };

    #[inline(always)]
    fn hash(&self, parts: &[&[u8]]) -> H::Digest {
        hash_joined::<H>(parts)
    }

    fn root_bagging(&self) -> Bagging {
        self.bagging
    }

    #[inline(always)]
    #[tactic(auto, unfolding(crate::specs::Calc::be8))]
    fn node_digest(&self, position: Position<F>, left: &H::Digest, right: &H::Digest) -> H::Digest
        ensures { H.Digest.text result
            ≡ H.hash_of (be8 position ++ (H.Digest.text left.now ++ H.Digest.text right.now)) }
    {
        H::hash(&[
            &position.as_u64().to_be_bytes(),
            left.bytes(),
            right.bytes(),
        ])
    }

    ghost sized = { H.sized };

    ghost over = { λ _. refl };
}

/// Parts of at most this many bytes together are joined before they are hashed.
const JOINED: usize = 64;

/// Returns the digest of `parts`, joined one after another. Where they are short the digest function is given them at
/// once, since each part that it takes costs it more than to join them here.
#[inline(always)]
fn hash_joined<H: digest::Hasher>(parts: &[&[u8]]) -> H::Digest
    ensures { H.Digest.text result ≡ H.hash_of (flat_map (λ part. part.now) parts.now) }
{
    let mut string = [0; JOINED];
    let mut used = 0;
    for part in parts {
        if part.len() > JOINED - used {
            return H::hash(parts);
        }
        string[used..used + part.len()].copy_from_slice(*part);
        used += part.len();
    }
    H::hash(&[&string[..used]])
}
