//! The two tree families.

ghost use Rattle.std.specs.Prelude.{◌≡◌, ℕ, ◌+◌, ◌*◌, ◌/◌, ◌%◌, ◌^◌, ◌<◌, ◌≤◌, false};
ghost use Rattle.storage_merkle.specs.Mmr.{mmr, mmr_digits};
ghost use Rattle.storage_merkle.specs.Mmb.{mmb, mmb_digits};
ghost use Rattle.storage_merkle.specs.Nodes.{IsNode, AreGraftable};
ghost use Rattle.storage_merkle.specs.Pace.{ChunksKeepPace};
ghost use Rattle.storage_merkle.specs.Peaks.{HasPeak};
ghost use Rattle.storage_merkle.specs.Shape.{Laws, Inside, size};

use crate::merkle::{Family, Graftable};

/// The heights of the peaks of an MMR over `n` leaves are the places of the digits 1 of `n` in binary, read from any place
/// past the highest on.
#[tactic(auto, using(crate::specs::Laws::MmrSteps::mmr_peaks_digits))]
pub fn mmr_peaks_are_digits()
    ensures { (n i : ℕ) → n < 2 ^ i → mmr.peaks n ≡ mmr_digits i n }
{}

/// The peaks of an MMB over `n` leaves are as many as the places below the highest binary digit of `n + 1`: each as high as
/// its place plus the digit there.
#[tactic(auto, using(crate::specs::Laws::MmbSteps::mmb_peaks_digits))]
pub fn mmb_peaks_are_digits()
    ensures { (n m : ℕ) → 2 ^ m ≤ n + 1 → n + 1 < 2 * 2 ^ m → mmb.peaks n ≡ mmb_digits m (n + 1) }
{}

/// Merkle mountain ranges are a lawful family: the peaks cut the leaves, each position is one node's, a node stands
/// behind its children, and it is in the tree exactly from its birth on.
pub fn mmr_is_lawful()
    ensures { Laws mmr }
{}

/// MMBs are a lawful family.
pub fn mmb_is_lawful()
    ensures { Laws mmb }
{}

/// A tree never loses a node while it grows: what lies inside the peaks over fewer leaves lies inside those over more.
pub fn trees_keep_their_nodes<F: Family>()
    ensures { (m n first height : ℕ) → m ≤ n
        → first % 2 ^ height ≡ 0
        → Inside (F.shape.peaks m) 0 first height
        → Inside (F.shape.peaks n) 0 first height }
{}

/// The peaks over fewer leaves nest in those over more: one that begins below a peak over more leaves ends there too.
pub fn peaks_nest<F: Family>()
    ensures { (m n a k b j : ℕ) → m ≤ n
        → HasPeak (F.shape.peaks m) 0 a k
        → HasPeak (F.shape.peaks n) 0 b j → b ≤ a
        → a < b + 2 ^ j
        → (k ≤ j) × (a + 2 ^ k ≤ b + 2 ^ j) }
{}

/// No position names two nodes, and each position in a tree is a node's.
pub fn positions_are_of_one_node<F: Family>()
    ensures once { (position a k b j : ℕ) → IsNode F.shape position a k
        → IsNode F.shape position b j
        → (a ≡ b) × (k ≡ j) }
    ensures every { (n position : ℕ) → position < size F.shape n
        → (a : ℕ) × (k : ℕ) × IsNode F.shape position a k }
{}

/// All complete chunks of `2^height` leaves are graftable but at most one, which is pending; and none is where a family has
/// no pending chunks.
pub fn at_most_one_chunk_is_pending<F: Graftable>()
    ensures one { (n height r : ℕ) → AreGraftable F.shape n height r
        → (r ≤ n / 2 ^ height) × (n / 2 ^ height ≤ r + 1) }
    ensures none { F.has_pending ≡ false
        → (n height r : ℕ) → AreGraftable F.shape n height r
        → r ≡ n / 2 ^ height }
{}

/// Both families: over each node of at least a chunk's height that is in a tree, the tree over its graftable chunks has one.
pub fn chunks_keep_pace()
    ensures { (height : ℕ) → ChunksKeepPace mmr height × ChunksKeepPace mmb height }
{}
