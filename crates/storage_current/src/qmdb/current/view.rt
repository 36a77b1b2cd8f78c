//! The grafted view of a tree over operations: that tree and one over the chunks, as one. Nothing of it is hashed again.

ghost use Rattle.std.specs.Prelude.{◌≡◌, ℕ, ◌<◌, ◌≤◌, List, length, map, take, Bool};
ghost use Rattle.storage_merkle.specs.declared.merkle.bagging.Bagging.TheVariants.{BackwardFold};
ghost use Rattle.storage_merkle.specs.Shape.{size, max_leaves};
ghost use Rattle.storage_merkle.specs.Trees.{Content, Layout, places, tree_node, tree_root};
ghost use Rattle.storage_current.specs.NodeLists.{ArePeaksHad, ArePeaksTold, seen_by, seen_in};

use storage_codec::digest::Hasher;
use storage_merkle::merkle::family::node_at;
use storage_merkle::merkle::hasher::Hasher as _;
use storage_merkle::merkle::mem::Mem;
use storage_merkle::merkle::{Graftable, Position};
use storage_ops::qmdb;

/// Returns the digest that the view has at `position`: below the height `height` of chunks the one that `operations`,
/// of which the first `pruned` are forgotten, keeps behind these, else the one that `chunks` keeps of the node over the
/// same operations; none past the nodes of `operations`. Allocates nothing.
pub(crate) fn view_digest<F: Graftable, H: Hasher>(
    operations: &Mem<F, H::Digest>,
    chunks: &Mem<F, H::Digest>,
    height: u32,
    pruned: u64,
    position: Position<F>,
) -> Option<H::Digest>
    requires low { 1 ≤ height }
    requires boundary { operations.now.boundary ≡ pruned }
    requires few { pruned ≤ max_leaves }
    ensures { result ≡ seen_in F.shape height operations.now chunks.now position }
{
    if position.as_u64() >= operations.size().as_u64() || !position.is_valid() {
        return None;
    }
    let (first, own) = node_at::<F>(position.as_u64());
    if own < height {
        if position.as_u64() < F::nodes_over(pruned) {
            return None;
        }
        return operations.get_node(position);
    }
    chunks.get_node(Position::new(F::position(first >> height, own - height)))
}

/// Returns the root of the view, with the first `inactive` peaks inactive, folded backwards. Allocates nothing.
pub(crate) fn view_root<F: Graftable, H: Hasher>(
    operations: &Mem<F, H::Digest>,
    chunks: &Mem<F, H::Digest>,
    height: u32,
    pruned: u64,
    inactive: usize,
) -> H::Digest
    requires low { 1 ≤ height }
    requires few { operations.now.leaves ≤ max_leaves }
    requires boundary { operations.now.boundary ≡ pruned }
    requires within { pruned ≤ operations.now.leaves }
    requires had { ArePeaksHad F.shape operations.now.leaves
        (seen_in F.shape height operations.now chunks.now) }
    requires inactive { inactive ≤ length (F.shape.peaks operations.now.leaves) }
    ensures { (grafted : ℕ → ℕ → Bool) (content : Content)
        → let T : Layout = record { shape = F.shape; position = F.shape.position; grafted = grafted } in
        length content.elements ≡ operations.now.leaves
        → ArePeaksTold F.shape operations.now.leaves (tree_node H.hash_of T content)
        (seen_by H.Digest.text F.shape height operations.now chunks.now)
        → H.Digest.text result ≡ tree_root H.hash_of T BackwardFold content inactive }
{
    let leaves = operations.leaves();
    if leaves.as_u64() == 0 {
        return qmdb::hasher::<H>().root(leaves, inactive, &[]);
    }
    let (peaks, count) = view_peaks::<F, H>(operations, chunks, height, pruned);
    qmdb::hasher::<H>().root(leaves, inactive, &peaks[..count])
}

/// Returns the digests that the view has of its peaks, in leaf order, in front of an array of 64, and how many they
/// are.
fn view_peaks<F: Graftable, H: Hasher>(
    operations: &Mem<F, H::Digest>,
    chunks: &Mem<F, H::Digest>,
    height: u32,
    pruned: u64,
) -> ([H::Digest; 64], usize)
    requires some { 0 < operations.now.leaves }
    requires low { 1 ≤ height }
    requires few { operations.now.leaves ≤ max_leaves }
    requires boundary { operations.now.boundary ≡ pruned }
    requires within { pruned ≤ operations.now.leaves }
    requires had { ArePeaksHad F.shape operations.now.leaves
        (seen_in F.shape height operations.now chunks.now) }
    ensures count { result.1 ≡ length (F.shape.peaks operations.now.leaves) }
    ensures within { result.1 ≤ 64 }
    ensures room { length result.0 ≡ 64 }
    ensures digests { (digest_of : ℕ → ℕ → List ℕ)
        → ArePeaksTold F.shape operations.now.leaves digest_of
        (seen_by H.Digest.text F.shape height operations.now chunks.now)
        → map H.Digest.text (take result.1 result.0)
        ≡ map (λ p. digest_of p.first p.height) (places 0 (F.shape.peaks operations.now.leaves)) }
{
    let highest = Position::new(F::position(0, F::first_peak(operations.leaves().as_u64())));
    let first = view_digest::<F, H>(operations, chunks, height, pruned, highest).unwrap();
    let mut peaks = [first; 64];
    let mut count = 0;
    for (position, _) in F::peaks(operations.size()) {
        peaks[count] = view_digest::<F, H>(operations, chunks, height, pruned, position).unwrap();
        count += 1;
    }
    (peaks, count)
}
