//! Chunks of bits grafted over the nodes of a tree of operations.
//!
//! ```text
//! node of height G over chunk c     inner = h( position || left || right )
//! grafted                           h( chunk c || inner ), or inner if the chunk has no set bit
//! ```
//!
//! G is the height of a node over the operations of one chunk: `2^G = 8N` for chunks of `N` bytes. Grafting binds the
//! activity bits to the operations with one more string a chunk, so that one path shows both. Nodes above height G form a
//! tree over the chunks, which is kept apart from the tree over the operations and read together with it.

ghost use Rattle.std.specs.Prelude.{◌≡◌, ℕ, ◌*◌, ◌^◌, ◌<◌, ◌≤◌, ◌++◌, MatchOption, IfSome};
ghost use Rattle.storage_merkle.specs.Calc.{grafted_digest, is_zero as all_zero};
ghost use Rattle.storage_bitmap.specs.Chunks.{IsChunkSize};

mod hasher;
mod positions;
mod rebuild;
mod root;
mod storage;
mod tree;
mod verifier;

pub use hasher::GraftedHasher;
pub use positions::{
    chunk_aligned_inactive_peaks, exact_inactive, graftable_chunks, grafted_to_ops_pos,
    ops_to_grafted_pos,
};
pub use root::grafted_root;
pub use storage::Storage;
use storage_codec::digest::{Digest, Hasher};
pub(crate) use storage_merkle::merkle::family::power;
pub use tree::GraftedTree;
pub use verifier::Verifier;

/// Returns the height of the node over the operations of one chunk of `N` bytes: the base-2 logarithm of `8N`.
pub fn height<const N: usize>() -> u32
    requires { IsChunkSize N }
    ensures power { 8 * N ≡ 2 ^ result }
    ensures low { 3 ≤ result }
    ensures high { result ≤ 62 }
{
    3 + N.ilog2()
}

/// Returns the height of the node over the operations of one chunk of `chunk_size` bytes: the base-2 logarithm of `8 *
/// chunk_size`; none if `chunk_size` is no power of two up to `2^59`.
pub fn chunk_height(chunk_size: usize) -> Option<u32>
    ensures size { MatchOption result (IsChunkSize chunk_size → ⊥) (λ _. IsChunkSize chunk_size) }
    ensures power { IfSome result (λ g. (8 * chunk_size ≡ 2 ^ g) × (3 ≤ g) × (g ≤ 62)) }
{
    if chunk_size == 0 {
        return None;
    }
    let exponent = chunk_size.ilog2();
    if exponent >= 60 {
        return None;
    }
    if chunk_size != 1 << exponent {
        return None;
    }
    Some(3 + exponent)
}

/// Returns whether all `bytes` are zero.
pub(crate) fn is_zero(bytes: &[u8]) -> bool
    ensures { result ≡ all_zero bytes.now }
{
    for byte in bytes {
        if *byte != 0 {
            return false;
        }
    }
    true
}

/// Returns the digest of a node with `chunk` grafted over it: that of `chunk` and `inner`, the node's own digest,
/// joined; `inner` if `chunk` is all zero.
pub(crate) fn graft<H: Hasher>(chunk: &[u8], inner: H::Digest) -> H::Digest
    ensures { H.Digest.text result ≡ grafted_digest H.hash_of chunk.now (H.Digest.text inner) }
{
    if is_zero(chunk) {
        inner
    } else {
        hash_both::<H>(chunk, inner.bytes())
    }
}

/// Returns the digest of `left` and `right`, joined.
fn hash_both<H: Hasher>(left: &[u8], right: &[u8]) -> H::Digest
    ensures { H.Digest.text result ≡ H.hash_of (left.now ++ right.now) }
{
    H::hash(&[left, right])
}
