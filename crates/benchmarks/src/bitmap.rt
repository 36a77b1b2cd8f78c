//! A bitmap of many bits, and what its root takes. The words are the size of a chunk in bytes (1, 4, 16 or 32), the number of
//! bits that are pushed, of which each fourth one is set, and the number of them, spread evenly, that are turned one after
//! another, with a new root each time.
//!
//! The answer is the last root, how many strings were hashed for the root of the pushed bits, and how many at most for the root
//! after one of them was turned.

ghost use Rattle.std.specs.Prelude.{◌≡◌, ℕ, ◌+◌, ◌≤◌, IfSome};
ghost use Rattle.storage_merkle.specs.Shape.{max_leaves};
ghost use Rattle.storage_bitmap.specs.Chunks.{IsChunkSize, bit_count};

mod counted;

use crate::columns::{Fault, number};
use counted::Counted;
use std::alloc::Global;
use storage_bitmap::bitmap::authenticated::{
    BitMap, MerkleizedBitMap, PrunedState, UnmerkleizedBitMap,
};
use storage_codec::codec::FixedBytes;
use storage_codec::digest::Sha256;
use storage_merkle::merkle::hasher::Standard;
use storage_merkle::merkle::{Bagging, MAX_LEAVES};

type Digest = FixedBytes<32>;

/// The ordinary hasher, which counts what it hashes.
pub type Hasher = Counted<Standard<Sha256>>;

/// Returns that of an authenticated bitmap whose peaks are folded in this direction, before it hashed anything.
pub fn hasher(bagging: Bagging) -> Hasher {
    Counted::new(Standard::new(bagging))
}

/// Returns the bitmap of no bits, open to changes.
fn empty<const N: usize>(
    alloc: Global,
    hasher: &Hasher,
) -> Result<UnmerkleizedBitMap<Digest, N>, Fault>
    requires { IsChunkSize N }
{
    let state = PrunedState {
        pruned_chunks: 0,
        pinned: Vec::new(alloc),
    };
    match BitMap::init(alloc, hasher, state) {
        Ok(bitmap) => Ok(bitmap.into_dirty()),
        Err(error) => Err(Fault::of_tree(&error)),
    }
}

/// Appends four bits to `bitmap`, of which the first one is set; none if there is no memory for one.
fn push_four<const N: usize>(bitmap: &mut UnmerkleizedBitMap<Digest, N>) -> Option<()>
    requires { bit_count N bitmap.old.retained + 4 ≤ max_leaves }
    ensures { IfSome result (λ _.
        bit_count N bitmap.new.retained ≡ bit_count N bitmap.old.retained + 4) }
{
    if bitmap.push(true).is_err()
        || bitmap.push(false).is_err()
        || bitmap.push(false).is_err()
        || bitmap.push(false).is_err()
    {
        return None;
    }
    Some(())
}

/// Appends `count` bits to `bitmap`, of which each fourth one is set; none if there is no memory for one. Its code
/// stands apart, so that what it takes does not depend on its caller.
#[inline(never)]
fn push_all<const N: usize>(bitmap: &mut UnmerkleizedBitMap<Digest, N>, count: u64) -> Option<()>
    requires { bit_count N bitmap.old.retained + count ≤ max_leaves }
{
    let mut left = count;
    while left >= 4 {
        push_four(bitmap)?;
        left -= 4;
    }
    for bit in 0..left {
        if bitmap.push(bit == 0).is_err() {
            return None;
        }
    }
    Some(())
}

/// Returns the bitmap with its root under `hasher`.
fn merkleized<const N: usize>(
    bitmap: UnmerkleizedBitMap<Digest, N>,
    hasher: &Hasher,
) -> Result<MerkleizedBitMap<Digest, N>, Fault> {
    match bitmap.merkleize(hasher) {
        Ok(bitmap) => Ok(bitmap),
        Err(_) => Err(Fault::Memory),
    }
}

/// Returns the bitmap of `count` bits, of which each fourth one is set, with its root.
pub fn pushed<const N: usize>(
    alloc: Global,
    hasher: &Hasher,
    count: u64,
) -> Result<MerkleizedBitMap<Digest, N>, Fault>
    requires { IsChunkSize N }
{
    let mut bitmap = empty(alloc, hasher)?;
    let _root_of_none = hasher.take();
    if bitmap.len().saturating_add(count) > MAX_LEAVES {
        return Err(Fault::Malformed);
    }
    if push_all(&mut bitmap, count).is_none() {
        return Err(Fault::Memory);
    }
    merkleized(bitmap, hasher)
}

/// Returns the bitmap with the bit number `bit` turned, with its new root.
fn turned<const N: usize>(
    bitmap: MerkleizedBitMap<Digest, N>,
    hasher: &Hasher,
    bit: u64,
) -> Result<MerkleizedBitMap<Digest, N>, Fault> {
    let mut bitmap = bitmap.into_dirty();
    if bit < bitmap.pruned_bits() || bit >= bitmap.len() {
        return Err(Fault::Malformed);
    }
    let value = bitmap.get_bit(bit);
    if bitmap.set_bit(bit, !value).is_err() {
        return Err(Fault::Memory);
    }
    merkleized(bitmap, hasher)
}

/// Returns the root of the bitmap of `count` bits after `turns` of them, spread evenly, were turned, and how many
/// strings were hashed at most for the root after one of them.
fn all_turned<const N: usize>(
    mut bitmap: MerkleizedBitMap<Digest, N>,
    hasher: &Hasher,
    count: u64,
    turns: u64,
) -> Result<(Digest, u64), Fault> {
    let mut most = 0;
    for turn in 0..turns {
        bitmap = turned(bitmap, hasher, count / turns * turn)?;
        most = hasher.take().max(most);
    }
    Ok((bitmap.root(), most))
}

/// Returns the lines to print for chunks of `N` bytes, `count` bits and `turns` turned ones.
fn report<const N: usize>(alloc: Global, count: u64, turns: u64) -> Result<String, Fault>
    requires { IsChunkSize N }
{
    let hasher = hasher(Bagging::ForwardFold);
    let bitmap = pushed::<N>(alloc, &hasher, count)?;
    let whole = hasher.take();
    let (root, most) = all_turned(bitmap, &hasher, count, turns)?;
    let root = hex::encode(alloc, root.bytes)?;
    Ok(format!(in alloc; "{root}\nhashed for all: {whole}\nhashed for one bit: {most}")?)
}

/// Returns the lines to print for `words`: the size of a chunk, how many bits there are, and how many of them are
/// turned.
pub fn reply(alloc: Global, words: &[&str]) -> Result<String, Fault> {
    let [size, count, turns] = words else {
        return Err(Fault::Malformed);
    };
    let (count, turns) = (number(*count)?, number(*turns)?);
    match *size {
        "1" => report::<1>(alloc, count, turns),
        "4" => report::<4>(alloc, count, turns),
        "16" => report::<16>(alloc, count, turns),
        "32" => report::<32>(alloc, count, turns),
        _ => Err(Fault::Malformed),
    }
}
