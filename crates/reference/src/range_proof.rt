//! A tree's own range proofs.

ghost use Rattle.std.specs.Prelude.{◌≡◌, ℕ, ◌+◌, ◌-◌, ◌≤◌, ◌++◌, List, [], length, map, option_map, get_or, IfOk, OnOk};
ghost use Rattle.storage_merkle.specs.Checks.{IsRecomputed};
ghost use Rattle.storage_merkle.specs.Held.{proof_of};
ghost use Rattle.storage_merkle.specs.RangeProofs.{apart, look_up, own_digest, own_proof};
ghost use Rattle.storage_merkle.specs.Trees.{Content, part, content_of};
ghost use Rattle.storage_merkle.specs.Shape.{max_leaves};
ghost use Rattle.reference.specs.Layouts.{laid_out};
ghost use Rattle.reference.specs.Sites.{backward_digest, forward_digest, site_of};

use crate::fold::{fold_backward, fold_forward};
use crate::node::{Grafts, Whole, node_digest, push_digests};
use crate::shape::Digits;
use crate::site::{Site, sites, split_folded, split_leading, split_up_to};
use crate::tree::peaks;
use std::alloc::{AllocError, Global};
use std::convert::AsSlice;
use storage_codec::digest::Hasher;
use storage_merkle::merkle::{Bagging, Location, Proof};

/// A tree: its elements, which nodes have a chunk grafted, and how its peaks are bagged after the inactive ones.
#[derive(Drop)]
#[derive_where(Clone, Copy)]
pub struct Tree<'a, G, E> {
    /// The elements, from the first leaf on.
    pub elements: &'a [E],
    /// Which nodes have a chunk grafted.
    pub grafts: &'a G,
    /// How the peaks are bagged.
    pub bagging: Bagging,
    /// How many leading peaks are inactive.
    pub inactive: usize,
}

/// Returns `items` folded from the left; the digest of no bytes for no items.
fn forward_digest<H: Hasher>(items: &[H::Digest]) -> H::Digest
    ensures { H.Digest.text result ≡ forward_digest H.hash_of (map H.Digest.text items.now) }
{
    match items.split_first() {
        None => H::hash(&[]),
        Some((first, others)) => fold_forward::<H>(*first, others),
    }
}

/// Returns `items` folded from the right; the digest of no bytes for no items.
fn backward_digest<H: Hasher>(items: &[H::Digest]) -> H::Digest
    ensures { H.Digest.text result ≡ backward_digest H.hash_of (map H.Digest.text items.now) }
{
    match items.split_first() {
        None => H::hash(&[]),
        Some((first, others)) => fold_backward::<H>(*first, others),
    }
}

/// Returns the digest that `tree` has at `site` of the range of leaves from `low` to before `high`. Fails only if
/// memory runs out.
pub fn own_digest<F: Digits, H: Hasher, G: Grafts<H>, E: AsSlice<u8>>(
    alloc: Global,
    tree: &Tree<'_, G, E>,
    low: u64,
    high: u64,
    site: Site,
) -> Result<H::Digest, AllocError>
    requires few { length tree.now.elements.now ≤ max_leaves }
    requires inactive { tree.now.inactive ≤ length (F.shape.peaks (length tree.now.elements.now)) }
    ensures { IfOk result (λ d. H.Digest.text d
        ≡ own_digest H.hash_of (laid_out F.shape (G.grafted tree.now.grafts.now)) tree.now.bagging
        (content_of (map E.items tree.now.elements.now) (G.chunk tree.now.grafts.now))
        (length tree.now.elements.now) tree.now.inactive low high (site_of site)) }
{
    let source = Whole {
        elements: tree.elements,
    };
    let peaks = peaks::<F>(alloc, tree.elements.len() as u64)?;
    let (left, right) = split_folded(tree.bagging, tree.inactive, &peaks);
    match site {
        Site::Front => {
            let (front, _) = split_leading(low, left);
            let mut digests = Vec::new(alloc);
            push_digests::<F, H, _, G>(&mut digests, &source, tree.grafts, front)?;
            Ok(forward_digest::<H>(&digests))
        }
        Site::Back => {
            let (_, back) = split_up_to(high, right);
            let mut digests = Vec::new(alloc);
            push_digests::<F, H, _, G>(&mut digests, &source, tree.grafts, back)?;
            Ok(backward_digest::<H>(&digests))
        }
        Site::Inner(place) => {
            let digest = node_digest::<F, H, _, G>(alloc, &source, tree.grafts, place)?;
            Ok(digest)
        }
    }
}

/// Appends to `digests` those that `tree` has at `sites` of the range of leaves from `low` to before `high`.
fn push_own<F: Digits, H: Hasher, G: Grafts<H>, E: AsSlice<u8>>(
    digests: &mut Vec<H::Digest>,
    tree: &Tree<'_, G, E>,
    low: u64,
    high: u64,
    sites: &[Site],
) -> Result<(), AllocError>
    requires few { length tree.now.elements.now ≤ max_leaves }
    requires inactive { tree.now.inactive ≤ length (F.shape.peaks (length tree.now.elements.now)) }
    ensures { OnOk result
        (map H.Digest.text digests.new.items ≡ map H.Digest.text digests.old.items ++ map
        (own_digest H.hash_of (laid_out F.shape (G.grafted tree.now.grafts.now)) tree.now.bagging
        (content_of (map E.items tree.now.elements.now) (G.chunk tree.now.grafts.now))
        (length tree.now.elements.now) tree.now.inactive low high) (map site_of sites.now)) }
{
    let Some((site, rest)) = sites.split_first() else {
        return Ok(());
    };
    let alloc = *digests.allocator();
    let digest = own_digest::<F, H, G, E>(alloc, tree, low, high, *site)?;
    digests.push(digest)?;
    push_own::<F, H, G, E>(digests, tree, low, high, rest)?;
    Ok(())
}

/// Returns the own proof of `tree` of the elements from `low` to before `high`. Fails only if memory runs out.
pub fn own_proof<F: Digits, H: Hasher, G: Grafts<H>, E: AsSlice<u8>>(
    alloc: Global,
    tree: &Tree<'_, G, E>,
    low: u64,
    high: u64,
) -> Result<Proof<F, H::Digest>, AllocError>
    requires few { length tree.now.elements.now ≤ max_leaves }
    requires inactive { tree.now.inactive ≤ length (F.shape.peaks (length tree.now.elements.now)) }
    ensures { IfOk result (λ p. proof_of H.Digest.text p
        ≡ own_proof H.hash_of (laid_out F.shape (G.grafted tree.now.grafts.now)) tree.now.bagging
        (content_of (map E.items tree.now.elements.now) (G.chunk tree.now.grafts.now))
        tree.now.inactive low high) }
{
    let leaves = tree.elements.len() as u64;
    let sites = sites::<F>(alloc, low, high, tree.bagging, leaves, tree.inactive)?;
    let mut digests = Vec::new(alloc);
    push_own::<F, H, G, E>(&mut digests, tree, low, high, &sites)?;
    Ok(Proof {
        leaves: Location::new(leaves),
        inactive_peaks: tree.inactive,
        digests,
    })
}
