//! Tree families: where the nodes of a tree stand. No call allocates, except writing and reading a pending slot.
//!
//! A family is settled by the peaks over `n` leaves. Number each node when it is added: its number is its position.
//!
//! ```text
//!               position                   birth: how many leaves the tree has when the node is added
//! leaf a        size(a)                    a + 1                       both families
//! MMR (a, k)    size(a) + 2^(k+1) - 2      a + 2^k                     with the last of its leaves
//! MMB (a, k)    size(birth) - 1            a + 3 * 2^(k-1) - 1         2^(k-1) - 1 leaves later
//! ```
//!
//! Here `size(n)` is `2n` less the number of peaks, and `(a, k)` the node of height `k`, at least 1, over the `2^k` leaves
//! from `a` on. An MMB delays merges so that each leaf adds one inner node at most.

ghost use Rattle.std.specs.Prelude.{◌≡◌, ℕ, ◌+◌, ◌-◌, ◌*◌, ◌%◌, ◌^◌, ◌<◌, ◌≤◌, ◌∷◌, ◌++◌, Bool, false, List, length, map, option_map, IfOk, OnOk, OnErr};
ghost use Rattle.storage_codec.specs.Codec.{Gives, front_at};
ghost use Rattle.storage_codec.specs.Parts.{AppendsStart, IsEnding};
ghost use Rattle.storage_merkle.specs.Wire.{slot_text, slot_at, IsPendingSlot};
ghost use Rattle.storage_merkle.specs.Shape.{Shape, Laws, size, max_leaves};
ghost use Rattle.storage_merkle.specs.Nodes.{IsNode, placed};
ghost use Rattle.storage_merkle.specs.Pace.{ChunksKeepPace, ChunksStayWithin};

use crate::merkle::countable::most_leaves_within;
use crate::merkle::{Countable, Location, NodesToPin, Peaks, Position};
use std::alloc::Global;
use storage_codec::NoMemory;
use storage_codec::codec::{self, Buf, Read};
use storage_codec::digest::Digest;

/// A family of append-only trees: where the nodes stand that cover given leaves. A tree over `n` leaves is cut into
/// perfect trees, its peaks; a node is known by its first leaf and its height, from 0 for a leaf, and has a position
/// among the nodes, which never changes while the tree grows. No call allocates.
///
/// A family gives the first six calls; all others stand on them and are written once.
pub trait Family: Copy {
    /// The family's peaks, positions and births.
    ghost shape: { Shape };

    /// Returns the byte that stands for the family in the string of a root: 0 for the MMR, 1 for the MMB.
    fn byte() -> u8
        ensures { result ≡ shape.byte };

    /// Returns how many nodes the tree over `leaves` leaves has.
    fn nodes_over(leaves: u64) -> u64
        requires { size shape leaves < 2 ^ 64 }
        ensures { result ≡ size shape leaves };

    /// Returns the height of the first peak of the tree over `leaves` leaves. The peaks after it are those of the tree
    /// over the leaves that are left, `leaves` less 2 to the power of that height.
    fn first_peak(leaves: u64) -> u32
        requires some { 0 < leaves }
        requires few { leaves ≤ max_leaves }
        ensures first { shape.peaks leaves ≡ result ∷ shape.peaks (leaves - 2 ^ result) }
        ensures within { 2 ^ result ≤ leaves }
        ensures small { result ≤ 62 };

    /// Returns the least number of leaves whose tree has the node of height `height` over the leaves from `first` on.
    fn birth(first: u64, height: u32) -> u64
        requires { shape.birth first height < 2 ^ 64 }
        ensures { result ≡ shape.birth first height };

    /// Returns the position of the node of height `height` over the leaves from `first` on; `first` is a multiple of
    /// `2^height`.
    fn position(first: u64, height: u32) -> u64
        requires aligned { first % 2 ^ height ≡ 0 }
        requires fits { shape.position first height < 2 ^ 64 }
        ensures { result ≡ shape.position first height };

    /// Returns the `offset`-th node, from 0, of those that are added with leaf number `leaves`, as (first leaf,
    /// height).
    fn node_after(leaves: u64, offset: u64) -> (u64, u32)
        requires few { leaves ≤ max_leaves }
        requires within { size shape leaves + offset < size shape (leaves + 1) }
        ensures { IsNode shape (size shape leaves + offset) result.0 result.1 };

    /// Returns the height of the node at the valid position `position`, from 0 for a leaf.
    final fn pos_to_height(position: Position<Self>) -> u32
    where
        Self: Sized,
        requires { position ≤ size shape max_leaves }
        ensures node { (first : ℕ) × IsNode shape position first result }
        ensures small { result ≤ 62 }
    {
        let (_, height) = node_at::<Self>(position.as_u64());
        height
    }

    /// Returns the peaks of the tree with `nodes` nodes, from the first leaf on, each as (position, height). `nodes` is
    /// the number of nodes of some tree over at most [`MAX_LEAVES`](crate::merkle::MAX_LEAVES) leaves.
    final fn peaks(nodes: Position<Self>) -> Peaks<Self>
    where
        Self: Sized,
        requires { (leaves : ℕ) × (leaves ≤ max_leaves) × (size shape leaves ≡ nodes) }
        ensures { (leaves : ℕ) → size shape leaves ≡ nodes
            → result ≡ placed shape 0 (shape.peaks leaves) }
    {
        Peaks::over(leaves_within::<Self>(nodes.as_u64()))
    }

    /// Returns the positions of the left and the right child of the node at the valid position `position`, whose own
    /// height is `height`, at least 1.
    final fn children(position: Position<Self>, height: u32) -> (Position<Self>, Position<Self>)
    where
        Self: Sized,
        requires inner { 1 ≤ height }
        requires valid { position ≤ size shape max_leaves }
        requires own { (first : ℕ) × IsNode shape position first height }
        ensures { (first : ℕ) → IsNode shape position first height
            → IsNode shape result.0 first (height - 1)
            × IsNode shape result.1 (first + 2 ^ (height - 1)) (height - 1) }
    {
        let (first, _) = node_at::<Self>(position.as_u64());
        let left = Self::position(first, height - 1);
        let right = Self::position(first + power(height - 1), height - 1);
        (Position::new(left), Position::new(right))
    }

    /// Returns the positions of the nodes that are kept when the leaves below `location` are pruned: the peaks over
    /// those leaves, from the first leaf on.
    final fn nodes_to_pin(location: Location<Self>) -> NodesToPin<Self>
    where
        Self: Sized,
        requires { location ≤ max_leaves }
        ensures { result ≡ map (λ p. p.0) (placed shape 0 (shape.peaks location)) }
    {
        NodesToPin::of(Peaks::over(location.as_u64()))
    }

    /// The shape is a lawful one.
    ghost laws: { Laws shape };
}

/// A family whose chunks of leaves may be grafted: hashed into the nodes that cover them, as leaves of a tree of the
/// family.
pub trait Graftable: Countable {
    /// Whether a tree of the family may have a pending chunk.
    ghost has_pending: { Bool };

    /// Returns the first leaf under the node at `position`, whose own height is `height`. A tree whose leaves are
    /// counted in 64 digits has that node.
    final fn leftmost_leaf(position: Position<Self>, height: u32) -> Location<Self>
    where
        Self: Sized,
        requires { (first : ℕ) × IsNode Self.shape position first height }
        ensures node { IsNode Self.shape position result height }
        ensures early { Self.shape.birth result height < 2 ^ 64 }
    {
        let birth = most_leaves_within::<Self>(position.as_u64()) + 1;
        Location::new(birth - Self::birth(0, height))
    }

    /// Returns the position of the node of height `height` over the leaves from `first` on; `first` is a multiple of
    /// `2^height`.
    final fn subtree_root_position(first: Location<Self>, height: u32) -> Position<Self>
    where
        Self: Sized,
        requires aligned { first % 2 ^ height ≡ 0 }
        requires fits { Self.shape.position first height < 2 ^ 64 }
        ensures { result ≡ Self.shape.position first height }
    {
        Position::new(Self::position(first.as_u64(), height))
    }

    /// Returns the least number of leaves whose tree has the node at `position`, whose own height is `height`, at least
    /// 1.
    final fn peak_birth_size(position: Position<Self>, height: u32) -> u64
    where
        Self: Sized,
        requires inner { 1 ≤ height }
        requires own { (first : ℕ) × IsNode Self.shape position first height }
        ensures { (first : ℕ) → IsNode Self.shape position first height
            → result ≡ Self.shape.birth first height }
    {
        let first = Self::leftmost_leaf(position, height);
        Self::birth(first.as_u64(), height)
    }

    /// Returns whether the family may have a pending chunk: a complete chunk that lies in no single peak, for whose
    /// digest there is a slot.
    fn has_pending() -> bool
        ensures { result ≡ has_pending };

    /// Appends to `out` what `slot`, the digest of the pending chunk or none, is written as: nothing if the family has
    /// no pending chunks, whatever `slot` is, else an option of a digest. `NoMemory` if `out` was refused a growth;
    /// then it holds its old bytes and a beginning of these.
    final fn write_pending<D: Digest>(slot: &Option<D>, out: &mut Vec<u8>) -> Result<(), NoMemory>
    where
        Self: Sized,
        ensures ok { OnOk result
            (out.new.items ≡ out.old.items ++ slot_text Self.has_pending D.text slot.now) }
        ensures err { OnErr result (AppendsStart out.old.items out.new.items
            (slot_text Self.has_pending D.text slot.now)) }
    {
        if Self::has_pending() {
            D::write_option(slot, out)?;
        }
        Ok(())
    }

    /// Reads the digest of the pending chunk or none from the front of `buf`: always `None`, and no byte taken, if the
    /// family has no pending chunks. After a refusal `buf` is at an ending of what it held.
    ///
    /// # Errors
    ///
    /// `EndOfBuffer` if bytes are missing; `InvalidBool` if the first one is neither 0 nor 1; `Memory`.
    #[tactic(auto, using(storage_codec::specs::Laws::Parts::ends_then))]
    final fn read_pending<D: Digest, B: Buf>(
        alloc: Global,
        buf: &mut B,
    ) -> Result<Option<D>, codec::Error>
    where
        Self: Sized,
        ensures gives { Gives (option_map D.text) result (B.unread buf.new)
            (slot_at Self.has_pending (front_at D.size) (B.unread buf.old)) }
        ensures ends { IsEnding (B.unread buf.old) (B.unread buf.new) }
        ensures none { IfOk result (IsPendingSlot Self.has_pending) }
    {
        if !Self::has_pending() || !bool::read_cfg(alloc, buf, &())? {
            return Ok(None);
        }
        Ok(Some(D::read(alloc, buf)?))
    }

    /// Returns how many bytes [`write_pending`](Self::write_pending) appends for `slot`. Allocates nothing.
    final fn pending_size<D: Digest>(slot: &Option<D>) -> u64
    where
        Self: Sized,
        ensures value { result ≡ length (slot_text Self.has_pending D.text slot.now) }
        ensures small { result ≤ 2 ^ 32 + 1 }
    {
        if !Self::has_pending() {
            return 0;
        }
        match slot {
            None => 1,
            Some(_) => 1 + D::size() as u64,
        }
    }

    /// Where a family has no pending chunk, each node comes with the last of its leaves.
    ghost prompt: { has_pending ≡ false → (first height : ℕ) → Self.shape.birth first height ≡ first + 2 ^ height };

    /// Over each node of at least a chunk's height that is in a tree, the tree over its graftable chunks has one.
    ghost keeps_pace: { (height : ℕ) → ChunksKeepPace Self.shape height };

    /// The leaves under each node over graftable chunks have a node in a tree of at most so many leaves as there may be.
    ghost stays_within: { (height : ℕ) → 2 ≤ height → height ≤ 62 → ChunksStayWithin Self.shape height };
}

/// Returns how many leaves the largest tree with at most `nodes` nodes has. `nodes` is at most the number of nodes of
/// the tree over [`MAX_LEAVES`](crate::merkle::MAX_LEAVES) leaves. Allocates nothing.
pub fn leaves_within<F: Family>(nodes: u64) -> u64
    requires { nodes ≤ size F.shape max_leaves }
    ensures few { result ≤ max_leaves }
    ensures low { size F.shape result ≤ nodes }
    ensures high { nodes < size F.shape (result + 1) }
{
    // a tree over n leaves has 2n nodes less one for each peak, and at most 63 peaks
    let mut low: u64 = nodes / 2;
    let mut high: u64 = (low + 33).min(crate::merkle::MAX_LEAVES + 1);
    while low + 1 < high {
        let middle = (low + high) / 2;
        if F::nodes_over(middle) <= nodes {
            low = middle;
        } else {
            high = middle;
        }
    }
    low
}

/// Returns the node at the valid position `position`, as (first leaf, height). Allocates nothing.
pub fn node_at<F: Family>(position: u64) -> (u64, u32)
    requires { position ≤ size F.shape max_leaves }
    ensures node { IsNode F.shape position result.0 result.1 }
    ensures small { result.1 ≤ 62 }
    ensures few { result.0 + 2 ^ result.1 ≤ max_leaves + 1 }
    ensures birth { F.shape.birth result.0 result.1 ≤ max_leaves + 1 }
{
    let leaves = leaves_within::<F>(position);
    F::node_after(leaves, position - F::nodes_over(leaves))
}

/// Returns `2^exponent`, for `exponent` of at most 63. Allocates nothing.
pub fn power(exponent: u32) -> u64
    requires { exponent ≤ 63 }
    ensures { result ≡ 2 ^ exponent }
{
    1 << exponent
}
