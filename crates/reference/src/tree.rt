//! Peaks and roots of whole trees.

ghost use Rattle.std.specs.Prelude.{◌≡◌, ◌+◌, ◌≤◌, ◌++◌, length, map, IfOk, OnOk};
ghost use Rattle.storage_merkle.specs.Shape.{leaves_under, max_leaves};
ghost use Rattle.storage_merkle.specs.Trees.{places, tree_root, content_of};
ghost use Rattle.reference.specs.Layouts.{laid_out};

use crate::fold::{bag_peaks, root_over};
use crate::node::{Grafts, Node, Whole, push_digests};
use crate::shape::{Digits, power};
use std::alloc::{AllocError, Global};
use std::convert::AsSlice;
use storage_codec::digest::Hasher;
use storage_merkle::merkle::Bagging;

/// Returns the peaks of the tree over `leaves` leaves, at most `2^62`, from the first leaf on. Fails only if memory
/// runs out.
pub fn peaks<F: Digits>(alloc: Global, leaves: u64) -> Result<Vec<Node>, AllocError>
    requires { leaves ≤ max_leaves }
    ensures { IfOk result (λ peaks. peaks.items ≡ places 0 (F.shape.peaks leaves)) }
{
    let heights = F::peak_heights(alloc, leaves)?;
    let mut peaks = Vec::new(alloc);
    push_places(&mut peaks, 0, &heights)?;
    Ok(peaks)
}

/// Appends to `nodes` nodes of the heights `heights` side by side, from the leaf `first` on.
fn push_places(nodes: &mut Vec<Node>, first: u64, heights: &[u32]) -> Result<(), AllocError>
    requires { first + leaves_under heights.now ≤ max_leaves }
    ensures { OnOk result (nodes.new.items ≡ nodes.old.items ++ places first heights.now) }
{
    let Some((height, rest)) = heights.split_first() else {
        return Ok(());
    };
    nodes.push(Node::new(first, *height))?;
    push_places(nodes, first + power(*height), rest)
}

/// Returns the root of the tree over `elements`, whose first `inactive` peaks are inactive, by its definition. Fails
/// only if memory runs out.
pub(crate) fn tree_root<F: Digits, H: Hasher, G: Grafts<H>, E: AsSlice<u8>>(
    alloc: Global,
    grafts: &G,
    bagging: Bagging,
    elements: &[E],
    inactive: usize,
) -> Result<H::Digest, AllocError>
    requires few { length elements.now ≤ max_leaves }
    requires inactive { inactive ≤ length (F.shape.peaks (length elements.now)) }
    ensures { IfOk result (λ root.
        H.Digest.text root ≡ tree_root H.hash_of (laid_out F.shape (G.grafted grafts.now)) bagging
        (content_of (map E.items elements.now) (G.chunk grafts.now)) inactive) }
{
    let leaves = elements.len() as u64;
    let peaks = peaks::<F>(alloc, leaves)?;
    let source = Whole { elements };
    let mut digests = Vec::new(alloc);
    push_digests::<F, H, _, G>(&mut digests, &source, grafts, &peaks)?;
    let bag = bag_peaks::<H>(bagging, inactive, &digests);
    Ok(root_over::<F, H>(bagging, leaves, inactive as u64, bag))
}
