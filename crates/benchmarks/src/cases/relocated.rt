//! Proofs of bits of the last, partial chunk of a bitmap, said to be of another chunk.

ghost use Rattle.storage_bitmap.specs.Chunks.{IsChunkSize};

use crate::bitmap::{Hasher, hasher, pushed};
use crate::cases::tally::{NONE, Tally};
use crate::columns::{Fault, number};
use commonware_storage::NoMemory;
use commonware_storage::bitmap::authenticated::MerkleizedBitMap;
use commonware_storage::codec::FixedBytes;
use commonware_storage::merkle::{Bagging, Location, MAX_LEAVES, Proof, mmr};
use std::alloc::Global;

type Digest = FixedBytes<32>;

/// How many chunks of a bitmap are full, and how many bits its partial chunk has.
#[derive(Clone, Copy, Drop)]
struct Shape {
    full: u64,
    tail: u64,
    /// Whether the full chunks are pruned.
    is_pruned: bool,
}

impl Shape {
    /// Returns the last chunk of so many bits that may be partial if there are at most `count` bits.
    fn last(self, count: u64, bits: u64) -> u64 {
        count
            .saturating_sub(self.tail)
            .checked_div(bits)
            .unwrap_or(0)
    }
}

/// Returns the place of a bit in chunks of that many bits, or the greatest number.
fn bit_at(chunk: u64, bits: u64, offset: u64) -> u64 {
    chunk.saturating_mul(bits).saturating_add(offset)
}

/// The answers where the proof is said to be of its own chunk and a bit there, and the others.
#[derive(Clone, Copy, Drop)]
struct Answers {
    own: Tally,
    others: Tally,
}

/// A bitmap: its shape, and its root.
#[derive(Clone, Copy, Drop)]
struct Rooted {
    shape: Shape,
    root: Digest,
}

/// Returns the bitmap's proof of the first bit of its partial chunk, and that chunk; the full ones are pruned before if
/// that is said.
fn prove<const N: usize>(
    bitmap: &mut MerkleizedBitMap<Digest, N>,
    hasher: &Hasher,
    shape: Shape,
) -> Result<(Proof<mmr::Family, Digest>, [u8; N]), Fault>
    requires { IsChunkSize N }
{
    let tail = bit_at(
        shape.full,
        MerkleizedBitMap::<Digest, N>::chunk_size_bits(),
        0,
    );
    if tail > bitmap.len() {
        return Err(Fault::Malformed);
    }
    if shape.is_pruned && bitmap.prune_to_bit(tail).is_err() {
        return Err(Fault::Memory);
    }
    if tail < bitmap.pruned_bits() {
        return Err(Fault::Malformed);
    }
    match bitmap.proof(hasher, tail) {
        Ok(pair) => Ok(pair),
        Err(error) => Err(Fault::of_tree(&error)),
    }
}

/// Returns the same of the bitmap of a shape, and its root.
fn proved<const N: usize>(
    alloc: Global,
    hasher: &Hasher,
    shape: Shape,
) -> Result<((Proof<mmr::Family, Digest>, [u8; N]), Digest), Fault>
    requires { IsChunkSize N }
{
    let bits = MerkleizedBitMap::<Digest, N>::chunk_size_bits();
    let mut bitmap = pushed::<N>(alloc, hasher, bit_at(shape.full, bits, shape.tail))?;
    let root = bitmap.root();
    match prove(&mut bitmap, hasher, shape) {
        Ok(pair) => Ok((pair, root)),
        Err(fault) => Err(fault),
    }
}

impl Rooted {
    /// Adds the answers for a chunk that the partial one is said to be, for each bit of it and the one behind them.
    fn add<const N: usize>(
        &self,
        alloc: Global,
        hasher: &Hasher,
        proof: &mut Proof<mmr::Family, Digest>,
        chunk: &[u8; N],
        place: u64,
        answers: &mut Answers,
    ) -> Result<(), NoMemory>
        requires { IsChunkSize N }
    {
        let bits = MerkleizedBitMap::<Digest, N>::chunk_size_bits();
        let shape = self.shape;
        proof.leaves = Location::new(bit_at(place, bits, shape.tail));
        for offset in 0..shape.tail.saturating_add(1) {
            let bit = bit_at(place, bits, offset);
            let yes = MerkleizedBitMap::verify_bit_inclusion(
                alloc, hasher, proof, chunk, bit, &self.root,
            )?;
            if place == shape.full && offset < shape.tail {
                answers.own.add(yes);
            } else {
                answers.others.add(yes);
            }
        }
        Ok(())
    }

    /// Returns the answers for each chunk that the partial one is said to be: those up to the one behind it, one
    /// further on, and the last ones that counts of bits reach.
    fn answers<const N: usize>(
        &self,
        alloc: Global,
        hasher: &Hasher,
        proof: &mut Proof<mmr::Family, Digest>,
        chunk: &[u8; N],
    ) -> Result<Answers, NoMemory>
        requires { IsChunkSize N }
    {
        let bits = MerkleizedBitMap::<Digest, N>::chunk_size_bits();
        let shape = self.shape;
        let mut answers = Answers {
            own: NONE,
            others: NONE,
        };
        for place in 0..=shape.full.saturating_add(1) {
            self.add(alloc, hasher, proof, chunk, place, &mut answers)?;
        }
        let further = shape.full.saturating_add(8);
        let last = shape.last(MAX_LEAVES, bits);
        for place in [further, 1 << 32, last, shape.last(u64::MAX, bits)] {
            self.add(alloc, hasher, proof, chunk, place, &mut answers)?;
        }
        Ok(answers)
    }
}

/// Returns the answers for the proof of the first bit of the partial chunk of a bitmap of that shape.
fn over<const N: usize>(alloc: Global, hasher: &Hasher, shape: Shape) -> Result<String, Fault>
    requires { IsChunkSize N }
{
    let (pair, root) = proved::<N>(alloc, hasher, shape)?;
    let (mut proof, chunk) = pair;
    let answers = Rooted { shape, root }.answers(alloc, hasher, &mut proof, &chunk)?;
    let Answers { own, others } = answers;
    Ok(format!(in alloc;
        "accepted are {} of {} at their place, {} of {} elsewhere",
        own.accepted, own.tried, others.accepted, others.tried
    )?)
}

/// Returns what is answered for a bitmap with chunks of `chunk_size` bytes, where the proof is said to be of another
/// chunk or bit. The columns are the direction of folds, how many chunks are full, how many bits the partial one has,
/// and whether the full ones are `pruned`.
pub fn report(alloc: Global, chunk_size: &str, columns: &[&str]) -> Result<String, Fault> {
    let [direction, full, tail, pruned] = columns else {
        return Err(Fault::Malformed);
    };
    let hasher = match *direction {
        "forward" => hasher(Bagging::ForwardFold),
        "backward" => hasher(Bagging::BackwardFold),
        _ => return Err(Fault::Malformed),
    };
    let shape = Shape {
        full: number(*full)?,
        tail: number(*tail)?,
        is_pruned: *pruned == "pruned",
    };
    match chunk_size {
        "1" => over::<1>(alloc, &hasher, shape),
        "32" => over::<32>(alloc, &hasher, shape),
        "64" => over::<64>(alloc, &hasher, shape),
        _ => Err(Fault::Malformed),
    }
}
