//! The check of a range proof.

ghost use Rattle.std.specs.Prelude.{◌≡◌, ◌↔◌, ℕ, ◌+◌, ◌-◌, ◌^◌, ◌<◌, ◌≤◌, ◌++◌, List, [], length, map, option_map, get_or, IfOk, OnOk, IsTrue};
ghost use Rattle.storage_codec.specs.Digests.{or_nothing};
ghost use Rattle.storage_merkle.specs.Calc.{back, eval, front, given};
ghost use Rattle.storage_merkle.specs.Trees.{eval_bag, content_of};
ghost use Rattle.storage_merkle.specs.Checks.{IsRecomputed};
ghost use Rattle.storage_merkle.specs.Held.{proof_of};
ghost use Rattle.storage_merkle.specs.RangeProofs.{IsAccepted, apart, look_up, one_for};
ghost use Rattle.reference.specs.Layouts.{laid_out, valued};
ghost use Rattle.reference.specs.Sites.{bag_of_claim, site_of};

use crate::fold::{bag, root_over};
use crate::node::{Grafts, Node, Source, push_digests};
use crate::shape::Digits;
use crate::site::{Site, is_apart, is_same, sites, split_folded, split_leading, split_up_to};
use crate::tree::peaks;
use std::alloc::{AllocError, Global};
use std::convert::AsSlice;
use storage_codec::digest::{Digest, Hasher};
use storage_merkle::merkle::{Bagging, MAX_LEAVES, Proof};

/// What a check is given: the digests of a proof at their sites, and the elements from `low` to before `high`.
#[derive(Drop)]
#[derive_where(Clone, Copy)]
pub(crate) struct Claim<'a, D, E> {
    /// The sites where the proof's digests stand.
    pub sites: &'a [Site],
    /// The digests, in the order of the sites.
    pub digests: &'a [D],
    /// The location of the first element.
    pub low: u64,
    /// The location past the last one.
    pub high: u64,
    /// The elements that are claimed.
    pub elements: &'a [E],
}

/// Returns the digest of no bytes.
fn no_bytes<H: Hasher>() -> H::Digest
    ensures { H.Digest.text result ≡ H.hash_of [] }
{
    H::hash(&[])
}

/// Returns the digest of `digests` that stands for `site`, which is looked up in `sites`; that of no bytes where none
/// does.
pub(crate) fn look_up<H: Hasher>(sites: &[Site], digests: &[H::Digest], site: Site) -> H::Digest
    ensures { H.Digest.text result ≡ look_up (H.hash_of []) (map site_of sites.now)
        (map H.Digest.text digests.now) (site_of site) }
{
    match (sites.split_first(), digests.split_first()) {
        (Some((place, other_places)), Some((digest, other_digests))) => {
            let wanted = site;
            if is_same(wanted, *place) {
                *digest
            } else {
                look_up::<H>(other_places, other_digests, site)
            }
        }
        _ => no_bytes::<H>(),
    }
}

impl<H: Hasher, E: AsSlice<u8>> Source<H> for Claim<'_, H::Digest, E> {
    ghost cut = { λ s. apart s.low s.high };

    ghost digest = { λ s.
        look_up (H.hash_of []) (map site_of s.sites.now) (map H.Digest.text s.digests.now) };

    ghost item = { λ s j. get_or (map E.items s.elements.now) (j - s.low) [] };

    fn given(&self, place: Node) -> Option<H::Digest> {
        if is_apart(self.low, self.high, place) {
            Some(look_up::<H>(self.sites, self.digests, Site::Inner(place)))
        } else {
            None
        }
    }

    fn element(&self, location: u64) -> &[u8] {
        match self
            .elements
            .get(location.saturating_sub(self.low) as usize)
        {
            Some(element) => element.as_slice(),
            None => &[],
        }
    }
}

/// Appends to `digests` the digest that `claim` has of the fold before the range, where `peaks`, those in it, are not empty.
fn push_front_fold<H: Hasher, E: AsSlice<u8>>(
    digests: &mut Vec<H::Digest>,
    claim: &Claim<'_, H::Digest, E>,
    peaks: &[Node],
) -> Result<(), AllocError>
    ensures { OnOk result ((item chunk : ℕ → List ℕ)
        → map H.Digest.text digests.new.items ≡ map H.Digest.text digests.old.items
        ++ map (eval H.hash_of (valued (look_up (H.hash_of []) (map site_of claim.now.sites.now)
        (map H.Digest.text claim.now.digests.now)) item chunk)) (one_for (given front) peaks.now)) }
{
    if !peaks.is_empty() {
        digests.push(look_up::<H>(claim.sites, claim.digests, Site::Front))?;
    }
    Ok(())
}

/// Appends to `digests` the digest that `claim` has of the fold past the range, where `peaks`, those in it, are not empty.
fn push_back_fold<H: Hasher, E: AsSlice<u8>>(
    digests: &mut Vec<H::Digest>,
    claim: &Claim<'_, H::Digest, E>,
    peaks: &[Node],
) -> Result<(), AllocError>
    ensures { OnOk result ((item chunk : ℕ → List ℕ)
        → map H.Digest.text digests.new.items ≡ map H.Digest.text digests.old.items
        ++ map (eval H.hash_of (valued (look_up (H.hash_of []) (map site_of claim.now.sites.now)
        (map H.Digest.text claim.now.digests.now)) item chunk)) (one_for (given back) peaks.now)) }
{
    if !peaks.is_empty() {
        digests.push(look_up::<H>(claim.sites, claim.digests, Site::Back))?;
    }
    Ok(())
}

/// Returns the root that the check of `proof`, of `elements` from the location `start` on, recomputes; none if its
/// counts do not fit. Fails only if memory runs out.
pub fn recomputed_root<F: Digits, H: Hasher, G: Grafts<H>, E: AsSlice<u8>>(
    alloc: Global,
    grafts: &G,
    bagging: Bagging,
    proof: &Proof<F, H::Digest>,
    start: u64,
    elements: &[E],
) -> Result<Option<H::Digest>, AllocError>
    ensures { IfOk result (λ root. IsRecomputed H.hash_of (laid_out F.shape (G.grafted grafts.now))
        bagging (proof_of H.Digest.text proof.now) start (content_of (map E.items elements.now)
        (G.chunk grafts.now)) (option_map H.Digest.text root)) }
{
    let leaves = proof.leaves.as_u64();
    let Some(end) = start.checked_add(elements.len() as u64) else {
        return Ok(None);
    };
    if elements.is_empty() || leaves > MAX_LEAVES || end > leaves {
        return Ok(None);
    }
    let peaks = peaks::<F>(alloc, leaves)?;
    if proof.inactive_peaks > peaks.len() {
        return Ok(None);
    }
    let sites = sites::<F>(alloc, start, end, bagging, leaves, proof.inactive_peaks)?;
    if sites.len() != proof.digests.len() {
        return Ok(None);
    }
    let claim = Claim {
        sites: &sites,
        digests: &proof.digests,
        low: start,
        high: end,
        elements,
    };
    let (left, right) = split_folded(bagging, proof.inactive_peaks, &peaks);
    let bag = claimed_bag::<F, H, G, E>(alloc, grafts, &claim, left, right)?;
    let inactive = proof.inactive_peaks as u64;
    Ok(Some(root_over::<F, H>(bagging, leaves, inactive, bag)))
}

/// Returns what the peaks are bagged into, `left` folded from the left and `right` from the right, from `claim`.
fn claimed_bag<F: Digits, H: Hasher, G: Grafts<H>, E: AsSlice<u8>>(
    alloc: Global,
    grafts: &G,
    claim: &Claim<'_, H::Digest, E>,
    left: &[Node],
    right: &[Node],
) -> Result<Option<H::Digest>, AllocError>
    ensures { let T = laid_out F.shape (G.grafted grafts.now) in
        let v = valued (look_up (H.hash_of []) (map site_of claim.now.sites.now)
        (map H.Digest.text claim.now.digests.now)) (λ j. get_or (map E.items claim.now.elements.now)
        (j - claim.now.low) []) (G.chunk grafts.now) in
        IfOk result (λ found. or_nothing (option_map H.Digest.text found)
        ≡ eval_bag H.hash_of v (bag_of_claim T claim.now.low claim.now.high left.now right.now)) }
{
    let (before, others) = split_leading(claim.low, left);
    let (reached, past) = split_up_to(claim.high, right);
    let mut front = Vec::new(alloc);
    push_front_fold::<H, E>(&mut front, claim, before)?;
    push_digests::<F, H, _, G>(&mut front, claim, grafts, others)?;
    let mut rest = Vec::new(alloc);
    push_digests::<F, H, _, G>(&mut rest, claim, grafts, reached)?;
    push_back_fold::<H, E>(&mut rest, claim, past)?;
    Ok(bag::<H>(&front, &rest))
}

/// Returns whether the check of `proof`, of `elements` from the location `start` on, accepts it against `root`: where
/// its counts fit and `root` is the one that is recomputed; with no elements, if it is the empty proof and `root` that
/// of the empty tree. Fails only if memory runs out.
pub fn is_accepted<F: Digits, H: Hasher, G: Grafts<H>, E: AsSlice<u8>>(
    alloc: Global,
    grafts: &G,
    bagging: Bagging,
    proof: &Proof<F, H::Digest>,
    start: u64,
    elements: &[E],
    root: &H::Digest,
) -> Result<bool, AllocError>
    ensures { IfOk result (λ accepted. IsTrue accepted ↔ IsAccepted H.hash_of
        (laid_out F.shape (G.grafted grafts.now)) bagging (proof_of H.Digest.text proof.now) start
        (content_of (map E.items elements.now) (G.chunk grafts.now)) (H.Digest.text root.now)) }
{
    if elements.is_empty() {
        let empty = root_over::<F, H>(bagging, 0, 0, None);
        return Ok(is_empty(proof, start) && empty == *root);
    }
    match recomputed_root::<F, H, G, E>(alloc, grafts, bagging, proof, start, elements)? {
        None => Ok(false),
        Some(computed) => Ok(computed == *root),
    }
}

/// Returns whether `proof`, of elements from the location `start` on, is the one of the empty tree, and `start` is 0.
fn is_empty<F: Digits, D: Digest>(proof: &Proof<F, D>, start: u64) -> bool
    ensures { IsTrue result ↔ ((proof.now.leaves ≡ 0) × (proof.now.inactive_peaks ≡ 0) × (start ≡ 0)
        × (map D.text proof.now.digests.items ≡ [])) }
{
    proof.leaves.as_u64() == 0
        && proof.inactive_peaks == 0
        && start == 0
        && proof.digests.is_empty()
}
