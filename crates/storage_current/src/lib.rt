//! Snapshots of operations and of which of them are active: their canonical roots, and proofs against these.
//!
//! A snapshot is a list of `n` operations, an activity bit for each, and an inactivity floor. A chunk of `N` bytes
//! has the bits of `8N` operations, as many as a node of height log2(8N) is over; the grafted view is the tree over
//! the operations with the chunks grafted over these nodes.
//!
//! ```text
//! an MMR over 11 operations, N = 1                 node 14 of the grafted view: h( chunk 0 || h( 14 || node 6 || node 13 ) )
//!                                                  where a bit of chunk 0 is set, else as in the operations tree
//! height                                           (14 in eight bytes, highest first)
//!    3               14
//!              /           \                       above it: hashed in the ordinary way, over such nodes
//!    2        6             13                     below it: the operations tree
//!           /   \         /    \
//!    1     2     5       9      12      17
//!         / \   / \     / \    /  \    /  \
//!    0   0   1 3   4   7   8  10  11  15  16  18
//! loc.   0   1 2   3   4   5   6   7   8   9  10
//!        |------- chunk 0 ---------|   |------| chunk 1, partial: 3 bits
//!
//! canonical root = h( operations root || grafted root [ || h( pending ) ] [ || n mod 8N || h( partial ) ] )
//!
//! operations root   of the operations tree; the inactive peaks are those that end at or before the floor
//! grafted root      of the grafted view; the inactive peaks are those up to the last of these that ends on a chunk's end
//! pending           the complete chunk whose operations lie in no single peak, where there is one: never in an MMR
//! partial           the chunk after the complete ones, filled up with zeros, where n mod 8N, in eight bytes, is not 0
//! ```
#![tactic(auto)]

pub mod laws;
pub mod qmdb;
