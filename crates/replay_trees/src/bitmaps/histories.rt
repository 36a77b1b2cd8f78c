//! Calls on bitmaps, and what stands after them.

ghost use Rattle.std.specs.Prelude.{◌≤◌};
ghost use Rattle.storage_bitmap.specs.Chunks.{IsChunkSize};

use replay_columns::columns::{Fault, Refusal as _, digests_between, halves, number, or_fault};
use std::alloc::Global;
use storage_bitmap::bitmap::authenticated::{
    BitMap, MerkleizedBitMap, PrunedState, UnmerkleizedBitMap,
};
use storage_codec::codec::FixedBytes;
use storage_codec::digest::{Digest, Hasher};
use storage_merkle::merkle::MAX_LEAVES;
use storage_merkle::merkle::hasher::Standard;

/// A bitmap between two calls.
#[derive(Drop)]
enum Stage<D: Digest, const N: usize> {
    Merkleized(MerkleizedBitMap<D, N>),
    Unmerkleized(UnmerkleizedBitMap<D, N>),
}

/// Returns the bitmap after calls with commas between them, which begins without bits.
pub fn after<H: Hasher<Digest = FixedBytes<D>>, const D: usize, const N: usize>(
    alloc: Global,
    hasher: &Standard<H>,
    calls: &str,
) -> Result<MerkleizedBitMap<FixedBytes<D>, N>, Fault>
where
    FixedBytes<D>: Digest,
    requires chunk { IsChunkSize N }
    requires small { D ≤ 64 }
{
    let mut stage = restored::<H, N>(alloc, hasher, "0:-")?;
    for call in calls.split(',') {
        stage = called(alloc, hasher, stage, call)?;
    }
    match stage {
        Stage::Merkleized(bitmap) => Ok(bitmap),
        Stage::Unmerkleized(_) => Err(Fault::Malformed),
    }
}

/// Returns what a bitmap is after a call.
fn called<H: Hasher, const N: usize>(
    alloc: Global,
    hasher: &Standard<H>,
    stage: Stage<H::Digest, N>,
    call: &str,
) -> Result<Stage<H::Digest, N>, Fault>
    requires { IsChunkSize N }
{
    let (verb, rest) = call.split_once(':').unwrap_or((call, ""));
    match stage {
        Stage::Merkleized(bitmap) => merkleized(alloc, hasher, bitmap, verb, rest),
        Stage::Unmerkleized(bitmap) => unmerkleized(hasher, bitmap, verb, rest),
    }
}

/// Returns the bitmap after a call: `d` opens it to changes, `x:BIT` prunes up to a bit, `init:COUNT:DIGESTS` takes
/// another one, and `r` the one of what this one hands out.
fn merkleized<H: Hasher, const N: usize>(
    alloc: Global,
    hasher: &Standard<H>,
    bitmap: MerkleizedBitMap<H::Digest, N>,
    verb: &str,
    rest: &str,
) -> Result<Stage<H::Digest, N>, Fault>
    requires { IsChunkSize N }
{
    match verb {
        "d" => Ok(Stage::Unmerkleized(bitmap.into_dirty())),
        "r" => begun_again(alloc, hasher, &bitmap),
        "x" => pruned(bitmap, rest),
        "init" => restored(alloc, hasher, rest),
        _ => Err(Fault::Malformed),
    }
}

/// Returns the bitmap of what this one hands out.
fn begun_again<H: Hasher, const N: usize>(
    alloc: Global,
    hasher: &Standard<H>,
    bitmap: &MerkleizedBitMap<H::Digest, N>,
) -> Result<Stage<H::Digest, N>, Fault>
    requires { IsChunkSize N }
{
    begun(alloc, hasher, or_fault(bitmap.write_pruned())?)
}

/// Returns the bitmap, pruned up to a bit.
fn pruned<D: Digest, const N: usize>(
    mut bitmap: MerkleizedBitMap<D, N>,
    bit: &str,
) -> Result<Stage<D, N>, Fault>
    requires { IsChunkSize N }
{
    let bit = number(bit)?;
    if bit > bitmap.len() {
        return Err(Fault::Malformed);
    }
    if let Err(error) = bitmap.prune_to_bit(bit) {
        return Err(error.fault());
    }
    Ok(Stage::Merkleized(bitmap))
}

/// Returns the bitmap of `COUNT:DIGESTS`: that many chunks, all of them pruned, of which these digests are kept.
fn restored<H: Hasher, const N: usize>(
    alloc: Global,
    hasher: &Standard<H>,
    parts: &str,
) -> Result<Stage<H::Digest, N>, Fault>
    requires { IsChunkSize N }
{
    let (count, pinned) = halves(parts, ':')?;
    let state = PrunedState {
        pruned_chunks: number(count)?,
        pinned: digests_between(alloc, pinned, '/')?,
    };
    begun(alloc, hasher, state)
}

/// Returns the bitmap of what is kept of pruned chunks.
fn begun<H: Hasher, const N: usize>(
    alloc: Global,
    hasher: &Standard<H>,
    state: PrunedState<H::Digest>,
) -> Result<Stage<H::Digest, N>, Fault>
    requires { IsChunkSize N }
{
    Ok(Stage::Merkleized(or_fault(BitMap::init(alloc, hasher, state))?))
}

/// Returns the bitmap after a call: `m` hashes what changed, and other calls are changes.
fn unmerkleized<H: Hasher, const N: usize>(
    hasher: &Standard<H>,
    mut bitmap: UnmerkleizedBitMap<H::Digest, N>,
    verb: &str,
    rest: &str,
) -> Result<Stage<H::Digest, N>, Fault>
    requires { IsChunkSize N }
{
    if verb == "m" {
        return Ok(Stage::Merkleized(or_fault(bitmap.merkleize(hasher))?));
    }
    change(&mut bitmap, verb, rest)?;
    Ok(Stage::Unmerkleized(bitmap))
}

/// Makes a change: `p:BITS` appends bits, and `s:BIT:VALUE` changes a bit.
fn change<D: Digest, const N: usize>(
    bitmap: &mut UnmerkleizedBitMap<D, N>,
    verb: &str,
    rest: &str,
) -> Result<(), Fault>
    requires { IsChunkSize N }
{
    match verb {
        "p" => push(bitmap, rest),
        "s" => set(bitmap, rest),
        _ => Err(Fault::Malformed),
    }
}

/// Appends a bit for each digit.
fn push<D: Digest, const N: usize>(
    bitmap: &mut UnmerkleizedBitMap<D, N>,
    digits: &str,
) -> Result<(), Fault>
    requires { IsChunkSize N }
{
    for digit in digits.bytes() {
        if bitmap.len() >= MAX_LEAVES {
            return Err(Fault::Malformed);
        }
        if let Err(error) = bitmap.push(digit == b'1') {
            return Err(error.fault());
        }
    }
    Ok(())
}

/// Changes the bit of `BIT:VALUE`.
fn set<D: Digest, const N: usize>(
    bitmap: &mut UnmerkleizedBitMap<D, N>,
    parts: &str,
) -> Result<(), Fault>
    requires { IsChunkSize N }
{
    let (bit, value) = halves(parts, ':')?;
    let bit = number(bit)?;
    if bit < bitmap.pruned_bits() || bit >= bitmap.len() {
        return Err(Fault::Malformed);
    }
    match bitmap.set_bit(bit, value == "1") {
        Ok(()) => Ok(()),
        Err(error) => Err(error.fault()),
    }
}
