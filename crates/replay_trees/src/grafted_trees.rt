//! Lists on trees over chunks that keep pins and leaves alone.

ghost use Rattle.std.specs.Prelude.{◌≤◌};

use replay_columns::answers::{Answer, At, or_word, tell_next};
use replay_columns::columns::{Digests, Fault, Hex, List, parse};
use std::alloc::Global;
use storage_codec::digest::Hasher;
use storage_current::laws::combined::nodes_over_chunks_are_taken;
use storage_current::qmdb::current::grafting::{GraftedHasher, GraftedTree};
use storage_merkle::merkle::hasher::Standard;
use storage_merkle::merkle::{Bagging, Graftable, Position, Readable};

/// More chunks than a case has.
const MANY: u64 = 1000;

/// `height pruned pinned leaves prunings`: the tree over chunks of `2^height` operations of which `pruned` are pruned, from the
/// digests of the peaks over these and of the other chunks, or its refusal; and pruned to each number of `prunings` in turn: the
/// places of the refused ones and their refusals, how many chunks there are, how many are pruned, and the digests at all positions
/// and at the next two.
pub fn grafted_trees<F: Graftable, H: Hasher>(
    alloc: Global,
    columns: &[&str],
    out: &mut String,
) -> Result<(), Fault> {
    let (height, pruned, pinned, (leaves, prunings)): (
        u64,
        u64,
        Digests<H::Digest>,
        (Digests<H::Digest>, List<u64>),
    ) = parse(alloc, columns)?;
    if height < 1 || height > 8 {
        return Err(Fault::Malformed);
    }
    match GraftedTree::<F, _>::init(alloc, pruned, &pinned.0, leaves.0) {
        Ok(mut tree) => tell_pruned::<F, H>(&mut tree, height as u32, &prunings.0, out),
        Err(error) => error.tell(out),
    }
}

/// Prunes a tree to each of some numbers of chunks, and adds the places of the refused ones, their refusals, and what is
/// left.
fn tell_pruned<F: Graftable, H: Hasher>(
    tree: &mut GraftedTree<F, H::Digest>,
    height: u32,
    prunings: &[u64],
    out: &mut String,
) -> Result<(), Fault>
    requires low { 1 ≤ height }
    requires high { height ≤ 8 }
{
    let start = out.len();
    let mut place: u64 = 0;
    for chunks in prunings {
        pruned::<F, H>(tree, height, *chunks, place, start, out)?;
        place = place.saturating_add(1);
    }
    or_word(out, start, "none")?;
    let leaves = tree.leaves().as_u64();
    if leaves >= MANY {
        return Err(Fault::Malformed);
    }
    write!(out, " {leaves} {} ", tree.pruned_chunks())?;
    tell_nodes(tree, F::nodes_over(leaves) + 2, out)
}

/// Prunes a tree, and adds the place of the pruning and its refusal, if there is one, behind a comma where something
/// stands behind the first `start` bytes.
fn pruned<F: Graftable, H: Hasher>(
    tree: &mut GraftedTree<F, H::Digest>,
    height: u32,
    chunks: u64,
    place: u64,
    start: usize,
    out: &mut String,
) -> Result<(), Fault>
    requires low { 1 ≤ height }
    requires high { height ≤ 8 }
{
    nodes_over_chunks_are_taken::<F, Standard<H>>();
    if tree.leaves().as_u64() >= MANY {
        return Err(Fault::Malformed);
    }
    let hasher = GraftedHasher::new(Standard::<H>::new(Bagging::BackwardFold), height);
    match tree.prune(&hasher, chunks) {
        Ok(()) => Ok(()),
        Err(error) => tell_next(out, start, ',', &At(place, error)),
    }
}

/// Adds the digests at so many positions.
fn tell_nodes<T: Readable>(tree: &T, count: u64, out: &mut String) -> Result<(), Fault> {
    let start = out.len();
    for place in 0..count {
        let digest = tree.get_node(Position::new(place)).map(Hex);
        tell_next(out, start, ',', &At(place, digest))?;
    }
    or_word(out, start, "none")
}
