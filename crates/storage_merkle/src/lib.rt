//! Merkle trees of two append-only families, MMR and MMB, and proofs over them.
//!
//! A tree over `n` leaves is a row of peaks, perfect trees of falling heights that cut the leaves; a family says
//! which heights. Nodes are numbered as they come, from 0: their positions.
//!
//! ```text
//! MMR over 8 = 1000 (binary) leaves                  MMB over 8 leaves: 8 + 1 = 1001 (binary)
//! a peak for each digit 1, at its place: 3           a peak for each digit below the highest: its place plus the digit: 2, 1, 1
//!
//! height                                             height
//!    3               14                                 3
//!              /           \
//!    2        6             13                          2        7
//!           /   \         /    \                               /   \
//!    1     2     5       9      12                      1     2     5       9      12
//!         / \   / \     / \    /  \                          / \   / \     / \    /  \
//!    0   0   1 3   4   7   8  10  11                    0   0   1 3   4   6   8  10  11
//! leaf   0   1 2   3   4   5   6   7                 leaf   0   1 2   3   4   5   6   7
//! ```
//!
//! A digest function `h` makes the digests, from numbers in eight bytes, highest first:
//!
//! ```text
//! leaf   h( position || element )
//! node   h( position || left || right )              where a chunk with a set bit is grafted over it: h( chunk || that )
//! fold   h( left || right )                          of peaks; the inactive ones, which lead, are folded into one item first
//! root   h( family || bagging || leaves || inactive || bagged peaks )
//!        family: 00 MMR, 01 MMB; bagging: 00 forwards (from the left), 01 backwards (from the right)
//! ```
#![tactic(auto)]

pub mod laws;
pub mod merkle;
