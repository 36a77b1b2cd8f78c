//! Numbers of chunks, and of inactive peaks.

ghost use Rattle.std.specs.Prelude.{◌≡◌, ℕ, ◌+◌, ◌*◌, ◌%◌, ◌^◌, ◌≤◌, ◌<◌, ◌&&◌, List, length, take, leb, eqb, IfOk};
ghost use Rattle.storage_bitmap.specs.Chunks.{IsChunkSize};
ghost use Rattle.storage_merkle.specs.Shape.{Shape, leaves_under, max_leaves};
ghost use Rattle.storage_current.specs.Snapshots.{aligned, exact, graftable_at, greatest, height, grafting_of};

use crate::shape::{Digits, highest_place, power};
use std::alloc::{AllocError, Global};

/// Returns the height of a node over as many operations as a chunk of `chunk_size` bytes has bits: the base-2 logarithm
/// of `8 * chunk_size`.
pub(crate) fn height(chunk_size: usize) -> u32
    requires { IsChunkSize chunk_size }
    ensures value { (S : Shape) → result ≡ height (grafting_of S chunk_size) }
    ensures bits { 2 ^ result ≡ 8 * chunk_size }
    ensures small { result ≤ 62 }
{
    highest_place(63, 8 * chunk_size as u64)
}

/// Returns how many chunks of `2^height` leaves lie inside one peak of the tree over `leaves` leaves.
pub fn graftable<F: Digits>(leaves: u64, height: u32) -> u64
    requires { height ≤ 62 }
    ensures { result ≡ graftable_at F.shape height leaves }
{
    let birth = F::leaves_at_birth(0, height);
    if leaves < birth {
        0
    } else {
        (leaves - birth) / power(height) + 1
    }
}

/// Returns how many leading peaks of the tree over `leaves` leaves end at or before the leaf `floor`. Fails only if
/// memory runs out.
pub(crate) fn exact<F: Digits>(alloc: Global, leaves: u64, floor: u64) -> Result<usize, AllocError>
    requires { leaves ≤ max_leaves }
    ensures { IfOk result (λ count. count ≡ exact F.shape leaves floor) }
{
    let heights = F::peak_heights(alloc, leaves)?;
    Ok(most_exact(&heights, floor, heights.len()))
}

/// Returns the most leading peaks of the tree over `leaves` leaves that end at or before the leaf `floor` and on a
/// multiple of `2^height`. Fails only if memory runs out.
pub(crate) fn aligned<F: Digits>(
    alloc: Global,
    leaves: u64,
    floor: u64,
    height: u32,
) -> Result<usize, AllocError>
    requires few { leaves ≤ max_leaves }
    requires small { height ≤ 62 }
    ensures { IfOk result (λ count. count ≡ aligned F.shape leaves floor height) }
{
    let heights = F::peak_heights(alloc, leaves)?;
    Ok(most_aligned(&heights, floor, height, heights.len()))
}

/// Returns the most of the first `bound` peaks, of the heights `heights`, that end at or before the leaf `floor`.
fn most_exact(heights: &[u32], floor: u64, bound: usize) -> usize
    requires few { leaves_under heights.now ≤ max_leaves }
    requires within { bound ≤ length heights.now }
    ensures { result ≡ greatest (λ r. leb (leaves_under (take r heights.now)) floor) bound }
{
    if bound == 0 {
        return 0;
    }
    let front = &heights[..bound];
    let end = leaves_of(front);
    if end <= floor {
        return bound;
    }
    most_exact(heights, floor, bound - 1)
}

/// Returns the most of the first `bound` peaks, of the heights `heights`, that end at or before the leaf `floor` and on
/// a multiple of `2^height`.
fn most_aligned(heights: &[u32], floor: u64, height: u32, bound: usize) -> usize
    requires few { leaves_under heights.now ≤ max_leaves }
    requires within { bound ≤ length heights.now }
    requires small { height ≤ 62 }
    ensures { result ≡ greatest (λ r. leb (leaves_under (take r heights.now)) floor && eqb
        (leaves_under (take r heights.now) % 2 ^ height) 0) bound }
{
    if bound == 0 {
        return 0;
    }
    let front = &heights[..bound];
    let end = leaves_of(front);
    if is_aligned(end, floor, height) {
        return bound;
    }
    most_aligned(heights, floor, height, bound - 1)
}

/// Returns whether the leaf `end` is at or before the leaf `floor` and a multiple of `2^height`.
fn is_aligned(end: u64, floor: u64, height: u32) -> bool
    requires { height ≤ 62 }
    ensures { result ≡ (leb end floor && eqb (end % 2 ^ height) 0) }
{
    end <= floor && end % power(height) == 0
}

/// Returns how many leaves peaks of the heights `heights` are over.
fn leaves_of(heights: &[u32]) -> u64
    requires { leaves_under heights.now ≤ max_leaves }
    ensures { result ≡ leaves_under heights.now }
{
    match heights.split_first() {
        None => 0,
        Some((height, rest)) => power(*height) + leaves_of(rest),
    }
}
