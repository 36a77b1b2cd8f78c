//! Lists of bits in chunks of `N` bytes, of which those in front may be forgotten, with a root and proofs of their
//! bits.
//!
//! Bit `b` stands in chunk `b / 8N`, in byte `(b mod 8N) / 8` of it, under the mask `1 << (b mod 8)`.
//!
//! ```text
//! 27 bits in chunks of one byte (N = 1), of which those before bit 16 are pruned
//!
//! bits       0 .. 7   |   8 .. 15   |  16 .. 23   |  24 25 26 - - - - -      past the bits: zeros
//! chunk         0           1             2             3
//!           pruned      pruned        complete      partial: 3 bits
//!
//! height 1          2                                 the tree, an MMR over the complete chunks; the numbers are positions
//!                 /   \                               pinned: node 2, the peak over the pruned chunks, is kept
//! height 0      (0)   (1)     3                       ( ) forgotten
//! chunk          0     1      2
//!
//! root = h( root of the tree || 27 in eight bytes, highest first || h(chunk 3) )
//!        where the bits fill their chunks: the root of the tree
//! ```
#![tactic(auto)]

pub mod bitmap;
pub mod laws;
