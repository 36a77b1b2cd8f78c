//! Multi proofs: a tree's own, and their check.

ghost use Rattle.std.specs.Prelude.{◌≡◌, ◌↔◌, ℕ, ◌+◌, ◌≤◌, ◌<◌, ◌++◌, List, [], Bool, length, map, option_map, IfOk, OnOk, IsTrue};
ghost use Rattle.storage_codec.specs.Digests.{or_nothing};
ghost use Rattle.storage_merkle.specs.Calc.{Calc};
ghost use Rattle.storage_merkle.specs.Held.{proof_of};
ghost use Rattle.storage_merkle.specs.Multi.{Ascend, IsMultiAccepted, claims_of, default_proof, element_at, locations, needed_sites, own_multi_proof, touched, tree_digest, untouched};
ghost use Rattle.storage_merkle.specs.MultiParts.{IsMultiRecomputed};
ghost use Rattle.storage_merkle.specs.RangeProofs.{look_up};
ghost use Rattle.storage_merkle.specs.Trees.{bag, content_of, eval_bag, part};
ghost use Rattle.storage_merkle.specs.Shape.{max_leaves};
ghost use Rattle.reference.specs.Layouts.{laid_out, valued};
ghost use Rattle.reference.specs.Sites.{site_of};

use crate::check::look_up;
use crate::fold::{bag, root_over};
use crate::node::{Grafts, Node, Source, Whole, node_digest, push_digests};
use crate::shape::Digits;
use crate::site::{Cut, Site, by_position, push_sites_in, split_folded};
use crate::tree::peaks;
use std::alloc::{AllocError, Global};
use std::convert::AsSlice;
use storage_codec::digest::{Digest, Hasher};
use storage_merkle::merkle::{Bagging, Family, Location, MAX_LEAVES, Proof};

/// Returns whether one of `locations` is a leaf of the node `place`.
fn is_touched(locations: &[u64], place: Node) -> bool
    ensures { result ≡ touched locations.now place.first place.height }
{
    match locations.split_first() {
        None => false,
        Some((location, rest)) => {
            (place.first() <= *location && *location < place.end()) || is_touched(rest, place)
        }
    }
}

/// Those that hold none of some locations are given.
#[derive(Clone, Copy, Drop)]
struct Untouched<'a> {
    locations: &'a [u64],
}

impl Cut for Untouched<'_> {
    ghost cut = { λ s. untouched s.locations.now };

    fn is_given(&self, place: Node) -> bool {
        !is_touched(self.locations, place)
    }
}

/// Returns the sites of the digests of a proof of `locations`, in order: of the greatest nodes over `leaves` leaves
/// that hold none of them, by position. Fails only if memory runs out.
fn needed_sites<F: Digits>(
    alloc: Global,
    locations: &[u64],
    leaves: u64,
) -> Result<Vec<Site>, AllocError>
    requires { leaves ≤ max_leaves }
    ensures { IfOk result (λ sites. (grafted : ℕ → ℕ → Bool)
        → map site_of sites.items ≡ needed_sites (laid_out F.shape grafted) locations.now leaves) }
{
    let peaks = peaks::<F>(alloc, leaves)?;
    let mut sites = Vec::new(alloc);
    push_sites_in(&mut sites, &Untouched { locations }, &peaks)?;
    let sorted = by_position::<F>(alloc, &sites)?;
    Ok(sorted)
}

/// Appends to `digests` those that the tree over `elements` has at `sites`; that of no bytes for a fold.
fn push_tree_digests<F: Digits, H: Hasher, G: Grafts<H>, E: AsSlice<u8>>(
    digests: &mut Vec<H::Digest>,
    grafts: &G,
    elements: &[E],
    sites: &[Site],
) -> Result<(), AllocError>
    ensures { OnOk result
        (map H.Digest.text digests.new.items ≡ map H.Digest.text digests.old.items ++ map
        (tree_digest H.hash_of (laid_out F.shape (G.grafted grafts.now))
        (content_of (map E.items elements.now) (G.chunk grafts.now))) (map site_of sites.now)) }
{
    let Some((site, rest)) = sites.split_first() else {
        return Ok(());
    };
    let alloc = *digests.allocator();
    let digest = tree_digest::<F, H, G, E>(alloc, grafts, elements, *site)?;
    digests.push(digest)?;
    push_tree_digests::<F, H, G, E>(digests, grafts, elements, rest)?;
    Ok(())
}

/// Returns the digest that the tree over `elements` has at `site`; that of no bytes for a fold.
fn tree_digest<F: Digits, H: Hasher, G: Grafts<H>, E: AsSlice<u8>>(
    alloc: Global,
    grafts: &G,
    elements: &[E],
    site: Site,
) -> Result<H::Digest, AllocError>
    ensures { IfOk result (λ digest. H.Digest.text digest
        ≡ tree_digest H.hash_of (laid_out F.shape (G.grafted grafts.now))
        (content_of (map E.items elements.now) (G.chunk grafts.now)) (site_of site)) }
{
    match site {
        Site::Front | Site::Back => Ok(H::hash(&[])),
        Site::Inner(place) => {
            let digest = node_digest::<F, H, _, G>(alloc, &Whole { elements }, grafts, place)?;
            Ok(digest)
        }
    }
}

/// Returns the own proof of the elements at `locations` of the tree over `elements` whose first `inactive` peaks are
/// inactive. Fails only if memory runs out.
pub fn own_multi_proof<F: Digits, H: Hasher, G: Grafts<H>, E: AsSlice<u8>>(
    alloc: Global,
    grafts: &G,
    elements: &[E],
    inactive: usize,
    locations: &[u64],
) -> Result<Proof<F, H::Digest>, AllocError>
    requires { length elements.now ≤ max_leaves }
    ensures { IfOk result (λ proof. proof_of H.Digest.text proof
        ≡ own_multi_proof H.hash_of (laid_out F.shape (G.grafted grafts.now))
        (content_of (map E.items elements.now) (G.chunk grafts.now)) inactive locations.now) }
{
    let leaves = elements.len() as u64;
    let sites = needed_sites::<F>(alloc, locations, leaves)?;
    let mut digests = Vec::new(alloc);
    push_tree_digests::<F, H, G, E>(&mut digests, grafts, elements, &sites)?;
    Ok(Proof {
        leaves: Location::new(leaves),
        inactive_peaks: inactive,
        digests,
    })
}

/// Returns the element that `claims` have at `location`; no bytes if they have none.
fn element_at<F: Family, E: AsSlice<u8>>(claims: &[(E, Location<F>)], location: u64) -> &[u8]
    ensures { result.now ≡ element_at (claims_of E.items claims.now) location }
{
    let Some((claim, rest)) = claims.split_first() else {
        return &[];
    };
    let (element, place) = claim;
    if place.as_u64() == location {
        element.as_slice()
    } else {
        element_at(rest, location)
    }
}

/// Appends to `places` the locations of `claims`.
fn push_locations<F: Family, E: AsSlice<u8>>(
    places: &mut Vec<u64>,
    claims: &[(E, Location<F>)],
) -> Result<(), AllocError>
    ensures { OnOk result
        (places.new.items ≡ places.old.items ++ locations (claims_of E.items claims.now)) }
{
    let Some((claim, rest)) = claims.split_first() else {
        return Ok(());
    };
    let (_, place) = claim;
    places.push(place.as_u64())?;
    push_locations(places, rest)?;
    Ok(())
}

/// Returns whether `locations` ascend, each once, from `first` on and below `leaves`.
fn ascend(first: u64, leaves: u64, locations: &[u64]) -> bool
    ensures { IsTrue result ↔ Ascend first leaves locations.now }
{
    match locations.split_first() {
        None => true,
        Some((location, rest)) => {
            first <= *location && *location < leaves && ascend(*location + 1, leaves, rest)
        }
    }
}

/// What a check is given: the digests of a proof at their sites, and elements at their locations.
#[derive(Drop)]
#[derive_where(Clone, Copy)]
struct Claimed<'a, F, D, E> {
    /// The sites where the proof's digests stand.
    sites: &'a [Site],
    /// The digests, in the order of the sites.
    digests: &'a [D],
    /// The locations of the elements.
    locations: &'a [u64],
    /// The elements that are claimed, with their locations.
    claims: &'a [(E, Location<F>)],
}

impl<F: Family, H: Hasher, E: AsSlice<u8>> Source<H> for Claimed<'_, F, H::Digest, E> {
    ghost cut = { λ s. untouched s.locations.now };

    ghost digest = { λ s.
        look_up (H.hash_of []) (map site_of s.sites.now) (map H.Digest.text s.digests.now) };

    ghost item = { λ s. element_at (claims_of E.items s.claims.now) };

    fn given(&self, place: Node) -> Option<H::Digest> {
        if is_touched(self.locations, place) {
            None
        } else {
            Some(look_up::<H>(self.sites, self.digests, Site::Inner(place)))
        }
    }

    fn element(&self, location: u64) -> &[u8] {
        element_at(self.claims, location)
    }
}

/// Returns what the peaks are bagged into, `left` folded from the left and `right` from the right, from `source`.
fn part_bag<F: Digits, H: Hasher, S: Source<H>, G: Grafts<H>>(
    alloc: Global,
    source: &S,
    grafts: &G,
    left: &[Node],
    right: &[Node],
) -> Result<Option<H::Digest>, AllocError>
    ensures { let T = laid_out F.shape (G.grafted grafts.now) in
        let v = valued (S.digest source.now) (S.item source.now) (G.chunk grafts.now) in
        IfOk result (λ found. or_nothing (option_map H.Digest.text found)
        ≡ eval_bag H.hash_of v (bag (map (part T (S.cut source.now)) left.now)
        (map (part T (S.cut source.now)) right.now))) }
{
    let mut front = Vec::new(alloc);
    push_digests::<F, H, S, G>(&mut front, source, grafts, left)?;
    let mut rest = Vec::new(alloc);
    push_digests::<F, H, S, G>(&mut rest, source, grafts, right)?;
    Ok(bag::<H>(&front, &rest))
}

/// Returns the root that the check of `proof`, of `claims`, elements with their locations, recomputes; none if its
/// counts do not fit or the locations do not ascend. Fails only if memory runs out.
fn recomputed_root<F: Digits, H: Hasher, G: Grafts<H>, E: AsSlice<u8>>(
    alloc: Global,
    grafts: &G,
    bagging: Bagging,
    proof: &Proof<F, H::Digest>,
    claims: &[(E, Location<F>)],
) -> Result<Option<H::Digest>, AllocError>
    ensures { IfOk result (λ root. IsMultiRecomputed
        H.hash_of (laid_out F.shape (G.grafted grafts.now)) bagging
        (proof_of H.Digest.text proof.now) (claims_of E.items claims.now) (G.chunk grafts.now)
        (option_map H.Digest.text root)) }
{
    let leaves = proof.leaves.as_u64();
    let mut locations = Vec::new(alloc);
    push_locations(&mut locations, claims)?;
    if leaves > MAX_LEAVES || !ascend(0, leaves, &locations) {
        return Ok(None);
    }
    let peaks = peaks::<F>(alloc, leaves)?;
    if proof.inactive_peaks > peaks.len() {
        return Ok(None);
    }
    let sites = needed_sites::<F>(alloc, &locations, leaves)?;
    if sites.len() != proof.digests.len() {
        return Ok(None);
    }
    let claimed = Claimed {
        sites: &sites,
        digests: &proof.digests,
        locations: &locations,
        claims,
    };
    let (left, right) = split_folded(bagging, proof.inactive_peaks, &peaks);
    let bag = part_bag::<F, H, _, G>(alloc, &claimed, grafts, left, right)?;
    let inactive = proof.inactive_peaks as u64;
    Ok(Some(root_over::<F, H>(bagging, leaves, inactive, bag)))
}

/// Returns whether the check of `proof`, of `claims`, elements with their locations, accepts it against `root`: where
/// its counts fit, the locations ascend and `root` is the one that is recomputed; with no claims, if it is the empty
/// proof and `root` that of the empty tree. Fails only if memory runs out.
pub fn is_multi_accepted<F: Digits, H: Hasher, G: Grafts<H>, E: AsSlice<u8>>(
    alloc: Global,
    grafts: &G,
    bagging: Bagging,
    proof: &Proof<F, H::Digest>,
    claims: &[(E, Location<F>)],
    root: &H::Digest,
) -> Result<bool, AllocError>
    ensures { IfOk result (λ accepted. IsTrue accepted ↔ IsMultiAccepted
        H.hash_of (laid_out F.shape (G.grafted grafts.now)) bagging
        (proof_of H.Digest.text proof.now) (claims_of E.items claims.now) (G.chunk grafts.now)
        (H.Digest.text root.now)) }
{
    if claims.is_empty() {
        let empty = root_over::<F, H>(bagging, 0, 0, None);
        return Ok(is_default(proof) && empty == *root);
    }
    match recomputed_root::<F, H, G, E>(alloc, grafts, bagging, proof, claims)? {
        None => Ok(false),
        Some(computed) => Ok(computed == *root),
    }
}

/// Returns whether `proof` is the one of nothing.
fn is_default<F: Digits, D: Digest>(proof: &Proof<F, D>) -> bool
    ensures { IsTrue result ↔ (proof_of D.text proof.now ≡ default_proof) }
{
    proof.leaves.as_u64() == 0 && proof.inactive_peaks == 0 && proof.digests.is_empty()
}
