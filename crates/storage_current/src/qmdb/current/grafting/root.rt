//! The root of the grafted view, from what is kept of a tree over chunks and of the tree over the operations.
//!
//! A tree over chunks that keeps pins in place of its first chunks gives the root of each snapshot whose digests these are. And if it
//! gives a snapshot's root, its pins are that snapshot's: so whoever has them from a stranger compares the roots.

ghost use Rattle.std.specs.Prelude.{◌≡◌, ◌⊎◌, ℕ, ◌≤◌, List, length, map, option_map, MatchOption, IfOk, IfSome, Option};
ghost use Rattle.storage_merkle.specs.Shape.{max_leaves, size};
ghost use Rattle.storage_merkle.specs.Trees.{places};
ghost use Rattle.storage_bitmap.specs.Chunks.{IsChunkSize};
ghost use Rattle.storage_current.specs.Combined.{joined};
ghost use Rattle.storage_current.specs.GraftedTrees.{regrafted};
ghost use Rattle.storage_current.specs.NodeLists.{ArePeaksHad, ArePeaksTold};
ghost use Rattle.storage_current.specs.Pins.{IsRootOfTrue, MeansPins, had_of_view};
ghost use Rattle.storage_current.specs.Snapshots.{graftable, grafting_of};

use crate::laws::pins::pins_are_bound;
use crate::qmdb::current::grafting::storage::{Look, look_up};
use crate::qmdb::current::grafting::{self, GraftedTree, chunk_aligned_inactive_peaks};
use std::alloc::Global;
use storage_codec::NoMemory;
use storage_codec::digest::Hasher;
use storage_merkle::merkle::hasher::Hasher as _;
use storage_merkle::merkle::{Graftable, Location, Position, Readable};
use storage_ops::qmdb;

/// Returns the digest that can be had of the view over `leaves` operations at `position`; none if there is none.
fn had_digest<
    F: Graftable,
    H: Hasher,
    R: Readable<Family = F, Digest = H::Digest>,
    S: Readable<Family = F, Digest = H::Digest>,
>(
    grafted_tree: &R,
    ops_tree: &S,
    height: u32,
    leaves: u64,
    position: Position<F>,
) -> Option<H::Digest>
    requires low { 1 ≤ height }
    requires few { leaves ≤ max_leaves }
    ensures { result ≡ joined F.shape height (size F.shape leaves)
        (regrafted H.digest_of H.Digest.text F.shape height
        (R.node grafted_tree.now)) (S.node ops_tree.now) position }
{
    let nodes = Position::new(F::nodes_over(leaves));
    match look_up::<F, H, R>(grafted_tree, height, nodes, position) {
        Look::Absent => None,
        Look::Below => ops_tree.get_node(position),
        Look::Found(digest) => Some(digest),
    }
}

/// Returns the digests that can be had of the view's peaks over `leaves` operations, in leaf order; none if one of them cannot be had.
fn had_peaks<
    F: Graftable,
    H: Hasher,
    R: Readable<Family = F, Digest = H::Digest>,
    S: Readable<Family = F, Digest = H::Digest>,
>(
    alloc: Global,
    grafted_tree: &R,
    ops_tree: &S,
    height: u32,
    leaves: u64,
) -> Result<Option<Vec<H::Digest>>, NoMemory>
    requires low { 1 ≤ height }
    requires few { leaves ≤ max_leaves }
    ensures { let had = joined F.shape height (size F.shape leaves)
        (regrafted H.digest_of H.Digest.text F.shape height
        (R.node grafted_tree.now)) (S.node ops_tree.now) in
        IfOk result (λ o. MatchOption o (ArePeaksHad F.shape leaves had → ⊥) (λ peaks.
        ArePeaksHad F.shape leaves had × (length peaks.items ≡ length (F.shape.peaks leaves))
        × ((digest_of : ℕ → ℕ → List ℕ)
        → ArePeaksTold F.shape leaves digest_of (λ p. option_map H.Digest.text (had p))
        → map H.Digest.text peaks.items
        ≡ map (λ p. digest_of p.first p.height) (places 0 (F.shape.peaks leaves))))) }
{
    let mut peaks = Vec::new(alloc);
    for (position, _) in F::peaks(Position::new(F::nodes_over(leaves))) {
        let Some(digest) = had_digest::<F, H, R, S>(
            grafted_tree,
            ops_tree,
            height,
            leaves,
            position,
        ) else {
            return Ok(None);
        };
        peaks.push(digest)?;
    }
    Ok(Some(peaks))
}

/// Returns the root of the grafted view over `leaves` operations with the inactivity floor `floor`, from what `grafted_tree`, over the
/// graftable chunks, and `ops_tree`, over the operations, keep. `None` if a peak cannot be had from them: it is not kept, or lies
/// strictly inside a pin.
///
/// If it is the grafted root of a snapshot, the pins are that snapshot's, or two different strings of one digest were found.
pub fn grafted_root<
    F: Graftable,
    H: Hasher,
    S: Readable<Family = F, Digest = H::Digest>,
    const N: usize,
>(
    alloc: Global,
    grafted_tree: &GraftedTree<F, H::Digest>,
    ops_tree: &S,
    leaves: Location<F>,
    floor: Location<F>,
) -> Result<Option<H::Digest>, NoMemory>
    requires size { IsChunkSize N }
    requires few { leaves ≤ max_leaves }
    ensures had { let g = grafting_of F.shape N in
        let had = had_of_view H.digest_of H.Digest.text g leaves grafted_tree.now (S.node ops_tree.now) in
        IfOk result (λ o. MatchOption o (ArePeaksHad F.shape leaves had → ⊥)
        (λ _. ArePeaksHad F.shape leaves had)) }
    ensures own { let g = grafting_of F.shape N in
        let had = had_of_view H.digest_of H.Digest.text g leaves grafted_tree.now (S.node ops_tree.now) in
        IfOk result (λ o. IfSome o (λ root.
        IsRootOfTrue H.hash_of H.Digest.text g leaves floor had (H.Digest.text root))) }
    ensures bound { (H.Digest.size ≡ 32) ⊎ (H.Digest.size ≡ 64)
        → let g = grafting_of F.shape N in
        grafted_tree.now.pruned ≤ graftable g leaves
        → IfOk result (λ o. IfSome o (λ root. MeansPins H.hash_of H.Digest.text g leaves floor
        grafted_tree.now (S.node ops_tree.now) (H.Digest.text root))) }
{
    pins_are_bound();
    grafted_tree.is_whole();
    let height = grafting::height::<N>();
    let count = leaves.as_u64();
    let Some(peaks) = had_peaks::<F, H, GraftedTree<F, H::Digest>, S>(
        alloc,
        grafted_tree,
        ops_tree,
        height,
        count,
    )?
    else {
        return Ok(None);
    };
    let inactive = chunk_aligned_inactive_peaks::<F>(count, floor.as_u64(), height);
    Ok(Some(qmdb::hasher::<H>().root(leaves, inactive, &peaks)))
}
