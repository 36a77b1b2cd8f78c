//! The trees and the bits of a snapshot, whole or pruned, as a server keeps them.

ghost use Rattle.std.specs.Prelude.{◌≡◌, ◌%◌, ◌^◌, ◌≤◌};
ghost use Rattle.storage_merkle.specs.Shape.{max_leaves};
ghost use Rattle.storage_bitmap.specs.Chunks.{IsChunkSize};

use commonware_storage::bitmap::{Prunable, Readable};
use commonware_storage::digest::Hasher;
use commonware_storage::laws::current::combined::nodes_over_chunks_are_taken;
use commonware_storage::merkle::hasher::Standard;
use commonware_storage::merkle::{Bagging, Graftable, Location, MAX_LEAVES, Mem, Position};
use commonware_storage::qmdb;
use commonware_storage::qmdb::current::Snapshot;
use commonware_storage::qmdb::current::grafting::{
    self, GraftedHasher, GraftedTree, graftable_chunks,
};
use replay_columns::columns::{Fault, Refusal as _};
use replay_columns::digits::bits_of;
use std::alloc::Global;

/// More chunks than a case has.
const MANY: u64 = 1000;

/// Returns a bit for each digit, with the first `pruned` chunks pruned; zeros fill up the last of these.
pub fn status_of<const N: usize>(
    alloc: Global,
    digits: &str,
    pruned: u64,
) -> Result<Prunable<N>, Fault>
    requires { IsChunkSize N }
{
    let mut status = bits_of::<N>(alloc, digits)?;
    let Some(first) = pruned.checked_mul(8 * N as u64) else {
        return Err(Fault::Malformed);
    };
    for _ in status.len()..first {
        if status.len() >= MAX_LEAVES {
            return Err(Fault::Malformed);
        }
        status.push(false)?;
    }
    if status.len() < first {
        return Err(Fault::Malformed);
    }
    status.prune_to_bit(first);
    Ok(status)
}

/// Returns the digests of a snapshot's grafted view.
pub fn view_nodes<F: Graftable, H: Hasher, const N: usize>(
    alloc: Global,
    snapshot: &Snapshot<F, H, N>,
) -> Result<Vec<H::Digest>, Fault> {
    let mut nodes = Vec::new(alloc);
    for position in 0..snapshot.status().len().saturating_mul(2) {
        match snapshot.get_node(Position::new(position)) {
            Some(digest) => nodes.push(digest)?,
            None => break,
        }
    }
    Ok(nodes)
}

/// Returns the nodes of the tree over operations.
pub fn operations_nodes<F: Graftable, H: Hasher>(
    alloc: Global,
    operations: &[Vec<u8>],
) -> Result<Vec<H::Digest>, Fault> {
    let hasher = qmdb::hasher::<H>();
    let mut tree = Mem::<F, _>::new(alloc);
    for operation in operations {
        if let Err(error) = tree.add(&hasher, operation.as_slice()) {
            return Err(error.fault());
        }
    }
    let mut nodes = Vec::new(alloc);
    for place in 0..tree.size().as_u64() {
        nodes.push(tree.get_node(Position::new(place)).ok_or(Fault::Malformed)?)?;
    }
    Ok(nodes)
}

/// Returns the tree over the graftable chunks of a snapshot, the first `pruned` of them pruned; one without nodes where
/// none is said.
pub fn grafted_tree<F: Graftable, H: Hasher, const N: usize>(
    alloc: Global,
    snapshot: &Snapshot<F, H, N>,
    pruned: Option<u64>,
) -> Result<GraftedTree<F, H::Digest>, Fault>
    requires { IsChunkSize N }
{
    let height = grafting::height::<N>();
    match pruned {
        None => Ok(GraftedTree::new(alloc, Vec::new(alloc))),
        Some(pruned) if height <= 8 => pruned_tree(alloc, snapshot, height, pruned),
        Some(_) => Err(Fault::Malformed),
    }
}

fn pruned_tree<F: Graftable, H: Hasher, const N: usize>(
    alloc: Global,
    snapshot: &Snapshot<F, H, N>,
    height: u32,
    pruned: u64,
) -> Result<GraftedTree<F, H::Digest>, Fault>
    requires low { 1 ≤ height }
    requires high { height ≤ 8 }
{
    let mut digests = Vec::new(alloc);
    for chunk in 0..graftable_chunks::<F>(snapshot.status().len(), height) {
        digests.push(chunk_digest(snapshot, chunk, height)?)?;
    }
    let mut tree = GraftedTree::new(alloc, digests);
    nodes_over_chunks_are_taken::<F, Standard<H>>();
    if tree.leaves().as_u64() >= MANY {
        return Err(Fault::Malformed);
    }
    match tree.prune(&hasher::<F, H>(height), pruned) {
        Ok(()) => Ok(tree),
        Err(error) => Err(error.fault()),
    }
}

fn hasher<F: Graftable, H: Hasher>(height: u32) -> GraftedHasher<F, Standard<H>>
    ensures { result.height ≡ height }
{
    GraftedHasher::new(Standard::new(Bagging::BackwardFold), height)
}

/// Returns the digest that a snapshot's grafted view has of a chunk's node.
fn chunk_digest<F: Graftable, H: Hasher, const N: usize>(
    snapshot: &Snapshot<F, H, N>,
    chunk: u64,
    height: u32,
) -> Result<H::Digest, Fault>
    requires { height ≤ 8 }
{
    let Some(first) = chunk.checked_mul(1 << height) else {
        return Err(Fault::Malformed);
    };
    if first > MAX_LEAVES || !first.is_multiple_of(1 << height) {
        return Err(Fault::Malformed);
    }
    match snapshot.get_node(position_over::<F>(first, height)) {
        Some(digest) => Ok(digest),
        None => Err(Fault::Malformed),
    }
}

/// Returns the position of the node of a height with this first leaf.
fn position_over<F: Graftable>(first: u64, height: u32) -> Position<F>
    requires aligned { first % 2 ^ height ≡ 0 }
    requires early { first ≤ max_leaves }
    requires low { height ≤ 61 }
{
    F::subtree_root_position(Location::new(first), height)
}
