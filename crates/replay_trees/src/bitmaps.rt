//! Lists on bitmaps with a root. Of what the lists on calls are given, the first column is `calls`, which are made with commas between
//! them on a bitmap that begins without bits.

ghost use Rattle.std.specs.Prelude.{◌≤◌};
ghost use Rattle.storage_bitmap.specs.Chunks.{IsChunkSize};

mod histories;
mod read;
mod told;
mod verified;

use histories::after;
use replay_columns::answers::{Answer, At};
use replay_columns::columns::{Digests, Fault, Hex, Label, parse};
use std::alloc::Global;
use storage_bitmap::bitmap::authenticated::{BitMap, MerkleizedBitMap, PrunedState};
use storage_codec::codec::FixedBytes;
use storage_codec::digest::{Digest, Hasher};
use storage_merkle::merkle::hasher::Standard;
use storage_merkle::merkle::{Bagging, Proof, mmr};

/// `bagging chunk ..`: the answer of a list of that name.
pub fn answer<H: Hasher<Digest = FixedBytes<D>>, const D: usize>(
    alloc: Global,
    list: &str,
    columns: &[&str],
    out: &mut String,
) -> Result<(), Fault>
where
    FixedBytes<D>: Digest,
    requires small { D ≤ 64 }
{
    let [direction, chunk_size, columns @ ..] = columns else {
        return Err(Fault::Malformed);
    };
    let bagging: Bagging = parse(alloc, &[*direction])?;
    let hasher = Standard::<H>::new(bagging);
    match *chunk_size {
        "1" => over::<H, D, 1>(alloc, &hasher, list, columns, out),
        "2" => over::<H, D, 2>(alloc, &hasher, list, columns, out),
        "32" => over::<H, D, 32>(alloc, &hasher, list, columns, out),
        _ => Err(Fault::Malformed),
    }
}

fn over<H: Hasher<Digest = FixedBytes<D>>, const D: usize, const N: usize>(
    alloc: Global,
    hasher: &Standard<H>,
    list: &str,
    columns: &[&str],
    out: &mut String,
) -> Result<(), Fault>
where
    FixedBytes<D>: Digest,
    requires chunk { IsChunkSize N }
    requires small { D ≤ 64 }
{
    match (list, columns) {
        ("bitmaps_checks", _) => bitmaps_checks::<H, N>(alloc, hasher, columns, out),
        ("bitmaps_init", _) => bitmaps_init::<H, D, N>(alloc, hasher, columns, out),
        (_, [calls, asked]) => of_bitmap::<H, D, N>(alloc, hasher, list, *calls, *asked, out),
        _ => Err(Fault::Malformed),
    }
}

/// Adds the answer of a list on what stands after calls.
fn of_bitmap<H: Hasher<Digest = FixedBytes<D>>, const D: usize, const N: usize>(
    alloc: Global,
    hasher: &Standard<H>,
    list: &str,
    calls: &str,
    asked: &str,
    out: &mut String,
) -> Result<(), Fault>
where
    FixedBytes<D>: Digest,
    requires chunk { IsChunkSize N }
    requires small { D ≤ 64 }
{
    let mut bitmap = after::<H, D, N>(alloc, hasher, calls)?;
    match list {
        "bitmaps_read" => read::bitmaps_read(alloc, bitmap, asked, out),
        _ => of_grown(alloc, hasher, list, &mut bitmap, asked, out),
    }
}

/// Adds the answer of a list that leaves the bitmap as it is.
fn of_grown<H: Hasher, const N: usize>(
    alloc: Global,
    hasher: &Standard<H>,
    list: &str,
    bitmap: &mut MerkleizedBitMap<H::Digest, N>,
    asked: &str,
    out: &mut String,
) -> Result<(), Fault>
    requires { IsChunkSize N }
{
    match list {
        "bitmaps" => told::bitmaps(alloc, hasher, bitmap, asked, out),
        "bitmaps_served" => read::bitmaps_served(alloc, bitmap, asked, out),
        "bitmaps_verified" => verified::bitmaps_verified(alloc, hasher, bitmap, asked, out),
        _ => Err(Fault::Malformed),
    }
}

/// `leaves inactive digests chunk bit root label`: whether the proof is accepted. The label says how the case was made.
fn bitmaps_checks<H: Hasher, const N: usize>(
    alloc: Global,
    hasher: &Standard<H>,
    columns: &[&str],
    out: &mut String,
) -> Result<(), Fault>
    requires { IsChunkSize N }
{
    let (proof, chunk, bit, (Hex(root), _)): (
        Proof<mmr::Family, H::Digest>,
        [u8; N],
        u64,
        (Hex<H::Digest>, Label),
    ) = parse(alloc, columns)?;
    MerkleizedBitMap::verify_bit_inclusion(alloc, hasher, &proof, &chunk, bit, &root)?.tell(out)
}

/// `count digests`: how many bits the bitmap has that is restored from these, and its root, or the refusal.
fn bitmaps_init<H: Hasher<Digest = FixedBytes<D>>, const D: usize, const N: usize>(
    alloc: Global,
    hasher: &Standard<H>,
    columns: &[&str],
    out: &mut String,
) -> Result<(), Fault>
where
    FixedBytes<D>: Digest,
    requires chunk { IsChunkSize N }
    requires small { D ≤ 64 }
{
    let (pruned_chunks, Digests(pinned)): (u64, Digests<FixedBytes<D>>) = parse(alloc, columns)?;
    let state = PrunedState {
        pruned_chunks,
        pinned,
    };
    let bitmap: MerkleizedBitMap<FixedBytes<D>, N> = match BitMap::init(alloc, hasher, state) {
        Ok(bitmap) => bitmap,
        Err(error) => return error.tell(out),
    };
    At(bitmap.len(), Hex(bitmap.root())).tell(out)
}
