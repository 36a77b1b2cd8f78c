//! Places in the tree over chunks and in the tree over operations below it, and how many peaks are inactive in each. No
//! call allocates.
//!
//! A node `(a, k)` of the tree over chunks covers the same operations as the node `(a * 2^G, k + G)` of the tree over
//! operations, where a chunk is over `2^G` operations. A position goes down or up by this.

ghost use Rattle.std.specs.Prelude.{◌≡◌, ℕ, ◌≤◌};
ghost use Rattle.storage_merkle.specs.Inactive.{IsExact, IsAligned};
ghost use Rattle.storage_merkle.specs.Nodes.{IsNode, AreGraftable, CoversSame};
ghost use Rattle.storage_merkle.specs.Shape.{size, max_leaves};

use storage_merkle::merkle::family::{node_at, power};
use storage_merkle::merkle::{Family, Position};

/// Returns how many chunks of `2^height` leaves are graftable, that is, lie inside one peak each, in the tree over
/// `leaves` leaves.
pub fn graftable_chunks<F: Family>(leaves: u64, height: u32) -> u64
    requires low { 1 ≤ height }
    requires high { height ≤ 62 }
    ensures { AreGraftable F.shape leaves height result }
{
    let birth = F::birth(0, height);
    if leaves < birth {
        0
    } else {
        ((leaves - birth) >> height) + 1
    }
}

/// Returns the position in the tree over chunks of the node over the same leaves as the node at `position` in the tree
/// over the operations, if a chunk is over `2^height` operations. The node at `position` has at least height `height`.
pub fn ops_to_grafted_pos<F: Family>(position: Position<F>, height: u32) -> Position<F>
    requires low { 1 ≤ height }
    requires valid { position ≤ size F.shape max_leaves }
    requires above { (a k : ℕ) → IsNode F.shape position a k → height ≤ k }
    ensures { CoversSame F.shape height result position }
{
    let (first, own) = node_at::<F>(position.as_u64());
    Position::new(F::position(first >> height, own - height))
}

/// Returns the position in the tree over the operations of the node over the same leaves as the node at `position` in
/// the tree over chunks, if a chunk is over `2^height` operations.
pub fn grafted_to_ops_pos<F: Family>(position: Position<F>, height: u32) -> Position<F>
    requires low { 1 ≤ height }
    requires valid { position ≤ size F.shape max_leaves }
    requires fits { (p : ℕ) → CoversSame F.shape height position p → p ≤ size F.shape max_leaves }
    ensures { CoversSame F.shape height position result }
{
    let (first, own) = node_at::<F>(position.as_u64());
    Position::new(F::position(first * power(height), own + height))
}

/// Returns how many of the leading peaks of the tree over `leaves` leaves end at or before the leaf `floor`.
pub fn exact_inactive<F: Family>(leaves: u64, floor: u64) -> usize
    requires { leaves ≤ max_leaves }
    ensures { IsExact F.shape leaves floor result }
{
    chunk_aligned_inactive_peaks::<F>(leaves, floor, 0)
}

/// Returns how many leading peaks of the tree over `leaves` leaves end at or before the leaf `floor`, up to the last of
/// them that ends on a multiple of `2^height`.
pub fn chunk_aligned_inactive_peaks<F: Family>(leaves: u64, floor: u64, height: u32) -> usize
    requires few { leaves ≤ max_leaves }
    requires high { height ≤ 62 }
    ensures { IsAligned F.shape leaves floor height result }
{
    let mut left = leaves;
    let mut count: usize = 0;
    let mut best: usize = 0;
    while left > 0 {
        let rest = left - power(F::first_peak(left));
        if leaves - rest > floor {
            break;
        }
        left = rest;
        count += 1;
        if (leaves - rest).is_multiple_of(power(height)) {
            best = count;
        }
    }
    best
}
