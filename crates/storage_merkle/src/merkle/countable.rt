//! How many leaves a tree with a number of nodes has.

ghost use Rattle.std.specs.Prelude.{◌≡◌, ℕ, ◌+◌, ◌-◌, ◌*◌, ◌/◌, ◌<◌, ◌≤◌, ◌^◌, MatchOption};
ghost use Rattle.storage_merkle.specs.Shape.{size};

use crate::merkle::{Family, Location, Position};

/// A family that knows the largest `n` whose tree has a number of nodes that fits `u64`.
pub trait Countable: Family {
    /// Returns the largest `n` for which the tree over `n` leaves has fewer than `2^64` nodes. Allocates nothing.
    fn most_leaves() -> u64
        ensures small { result + 1 < 2 ^ 64 }
        ensures fits { size Self.shape result < 2 ^ 64 }
        ensures most { 2 ^ 64 ≤ size Self.shape (result + 1) };
}

/// Returns how many leaves the tree with `nodes` nodes has, also past [`MAX_LEAVES`](crate::merkle::MAX_LEAVES); `None`
/// if no tree has exactly `nodes` nodes. Allocates nothing.
pub fn leaves_of<F: Countable>(nodes: Position<F>) -> Option<Location<F>>
    ensures { MatchOption result ((n : ℕ) → size F.shape n ≡ nodes → ⊥)
        (λ n. size F.shape n ≡ nodes) }
{
    let nodes = nodes.as_u64();
    let leaves = most_leaves_within::<F>(nodes);
    if F::nodes_over(leaves) == nodes {
        Some(Location::new(leaves))
    } else {
        None
    }
}

/// Returns how many leaves the largest tree with at most `nodes` nodes has, also past
/// [`MAX_LEAVES`](crate::merkle::MAX_LEAVES). Allocates nothing.
pub(crate) fn most_leaves_within<F: Countable>(nodes: u64) -> u64
    ensures small { result + 1 < 2 ^ 64 }
    ensures low { size F.shape result ≤ nodes }
    ensures high { nodes < size F.shape (result + 1) }
{
    let mut low: u64 = 0;
    let mut high: u64 = F::most_leaves() + 1;
    while low + 1 < high {
        let middle = low + (high - low) / 2;
        if F::nodes_over(middle) <= nodes {
            low = middle;
        } else {
            high = middle;
        }
    }
    low
}
