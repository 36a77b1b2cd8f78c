//! The root that a range proof and its elements give.
//!
//! The check goes down from each overlapped peak. It hashes the elements, takes the proof's digest at each sibling, and
//! hashes each inner node once. Then it folds the peaks in the order of the walk ([`Rest`](crate::merkle::walk::Rest)).
//! Counts are compared before any hashing: a proof with a digest too many or too few has no root.

ghost use Rattle.std.specs.Prelude.{◌≡◌, ℕ, ◌+◌, ◌-◌, ◌*◌, ◌%◌, ◌<◌, ◌≤◌, ◌∷◌, ◌++◌, List, [], length, map, drop, option_map, true, false, if◌then◌else◌, Some, None, IfOk, MatchOption, Contains};
ghost use Rattle.storage_merkle.specs.Calc.{Site, front, back, node, eval};
ghost use Rattle.storage_merkle.specs.Checks.{IsRecomputed};
ghost use Rattle.storage_merkle.specs.CheckParts.{Adds, front_before, found_at, top_sites, given_values, IsGiven, Serves, Present, PresentIn, right_of, bag_onto, folded_before};
ghost use Rattle.storage_merkle.specs.Extracted.{checked, checked_sites, nodes_in, nodes_under, overlapped, by_bytes};
ghost use Rattle.storage_merkle.specs.Hashers.{TakesTree};
ghost use Rattle.storage_merkle.specs.Held.{lent_proof_of};
ghost use Rattle.storage_merkle.specs.Nodes.{IsNode};
ghost use Rattle.storage_merkle.specs.Plans.{InTree, ArePeaks};
ghost use Rattle.storage_merkle.specs.RangeProofs.{CountsFit, apart, sites_of};
ghost use Rattle.storage_merkle.specs.Rests.{peaks_from};
ghost use Rattle.storage_merkle.specs.Trees.{part, node_calc, ungrafted, content_of};
ghost use Rattle.storage_merkle.specs.Shape.{AreAligned, max_leaves};

use crate::merkle::family::power;
use crate::merkle::hasher::{Hasher, append, bagged_root, join};
use crate::merkle::plan::{is_apart, node_position, peak_count, siblings};
use crate::merkle::proof::LentProof;
use crate::merkle::proof::found::{Found, keep};
use crate::merkle::walk::{Rest, Tops};
use crate::merkle::{Family, Location, MAX_LEAVES, Position};
use std::alloc::{AllocError, Global};
use std::convert::AsSlice;
use storage_codec::NoMemory;
use storage_codec::digest::Digest;

/// Returns the root that `proof` gives where `elements` stand at the leaves from `start` on; none if a count does not
/// fit or there are no elements. The digests that it reads or computes in the peaks over these leaves are added to
/// `found`, if they are to be kept.
pub(crate) fn recompute<F: Family, H: Hasher<F>, E: AsSlice<u8>>(
    proof: &LentProof<F, H::Digest>,
    alloc: Global,
    hasher: &H,
    elements: &[E],
    start: Location<F>,
    found: &mut Found<F, H::Digest>,
) -> Result<Option<H::Digest>, NoMemory>
    requires { TakesTree (H.takes hasher.now) F.shape proof.now.leaves }
    ensures root { IfOk result (λ root. IsRecomputed H.hash_of (H.layout hasher.now)
        (H.bagging hasher.now) (lent_proof_of H.Digest.text proof.now) start (content_of
        (map E.items elements.now) (H.chunk hasher.now)) (option_map H.Digest.text root)) }
    ensures fits { IfOk result (λ root. MatchOption root (Unit {0}) (λ _. CountsFit H.hash_of
        (ungrafted F.shape) (H.bagging hasher.now) (lent_proof_of H.Digest.text proof.now) start
        (content_of (map E.items elements.now) (H.chunk hasher.now)))) }
    ensures found { let T = H.layout hasher.now in
        IfOk result (λ root. MatchOption root (Unit {0})
        (λ _. Adds (λ v. by_bytes H.Digest.text v.items) found.old found.new
        (checked H.hash_of T (H.bagging hasher.now) (lent_proof_of H.Digest.text proof.now) start
        (content_of (map E.items elements.now) (H.chunk hasher.now))
        (checked_sites T proof.now.leaves start (start + length (map E.items elements.now)))))) }
{
    let leaves = proof.leaves.as_u64();
    let start = start.as_u64();
    let Some(end) = start.checked_add(elements.len() as u64) else {
        return Ok(None);
    };
    if start >= end || end > leaves || leaves > MAX_LEAVES {
        return Ok(None);
    }
    let peaks = peak_count::<F>(leaves);
    if proof.inactive_peaks as u64 > peaks {
        return Ok(None);
    }
    let all = Rest::all::<F, H>(hasher, leaves, proof.inactive_peaks);
    let rest = all.after_leading::<F>(start);
    let apart = usize::from(rest.first > 0) + count_apart::<F>(rest, start, end);
    if proof.digests.len() < apart {
        return Ok(None);
    }
    let siblings = siblings::<F>(alloc, leaves, start, end)?;
    if proof.digests.len() - apart != siblings.len() {
        return Ok(None);
    }
    let (tops, digests) = proof.digests.split_at(apart);
    let given = Given {
        leaves,
        elements,
        start,
        end,
        siblings: &siblings,
        digests,
    };
    let bag = given.bag(hasher, rest, tops, found)?;
    Ok(Some(bagged_root(hasher, leaves, proof.inactive_peaks, bag)))
}

/// Returns how many digests a proof has for the peaks `rest` apart from the leaves from `start` to before `end`.
fn count_apart<F: Family>(rest: Rest, start: u64, end: u64) -> usize
    requires few { rest.first + rest.left ≤ max_leaves }
    requires peaks { AreAligned (F.shape.peaks rest.left) rest.first }
    ensures few { result ≤ rest.left }
    ensures exact { result
        ≡ length (top_sites start end (peaks_from F.shape rest.first rest.left) rest.folded) }
{
    let mut count = 0;
    for _top in Tops::<F>::apart(rest, start, end) {
        count += 1;
    }
    count
}

/// What the check of a range proof is given, of the leaves from `start` to before `end`.
#[derive_where(Clone, Copy)]
struct Given<'a, F, D, E> {
    /// How many leaves the tree has.
    leaves: u64,
    elements: &'a [E],
    start: u64,
    end: u64,
    /// The positions of the siblings of the range in overlapped peaks, ascending.
    siblings: &'a [Position<F>],
    /// The digests of the siblings, in the order of `siblings`.
    digests: &'a [D],
}

impl<F: Family, D: Digest, E: AsSlice<u8>> Given<'_, F, D, E> {
    /// Returns what all peaks are folded into, none for no peaks, from `rest`, the peaks after the leading ones that
    /// are folded from the left and end before the range, and `tops`, the digests of the peaks and folds apart from the
    /// range.
    fn bag<H: Hasher<F, Digest = D>>(
        &self,
        hasher: &H,
        rest: Rest,
        tops: &[D],
        found: &mut Found<F, D>,
    ) -> Result<Option<D>, AllocError>
        requires given { IsGiven self.now.leaves self.now.start self.now.end self.now.elements.now
            self.now.siblings.now self.now.digests.now }
        requires peaks { ArePeaks F.shape self.now.leaves rest.first rest.left }
        requires takes { TakesTree (H.takes hasher.now) F.shape self.now.leaves }
        requires present { PresentIn F.shape self.now.start self.now.end self.now.siblings.now
            (peaks_from F.shape rest.first rest.left) }
        requires tops { length tops.now ≡ length (front_before rest.first ++ top_sites
            self.now.start self.now.end (peaks_from F.shape rest.first rest.left) rest.folded) }
        ensures { (digest : Site → List ℕ) →
            let T = H.layout hasher.now in
            let cut = apart self.now.start self.now.end in
            let v = given_values digest self.now.start (map E.items self.now.elements.now)
            (H.chunk hasher.now) in
            let peaks = peaks_from F.shape rest.first rest.left in
            Serves F.shape digest self.now.siblings.now (map D.text self.now.digests.now)
            → map D.text tops.now ≡ map digest (front_before rest.first
            ++ top_sites self.now.start self.now.end peaks rest.folded)
            → IfOk result (λ r. (option_map D.text r
            ≡ bag_onto H.hash_of (λ p. eval H.hash_of v (part T cut p)) (digest back)
            self.now.end (folded_before (digest front) rest.first) peaks rest.folded)
            × Adds (λ v. by_bytes D.text v.items) found.old found.new (found_at H.hash_of T cut
            v (nodes_in cut (overlapped self.now.start self.now.end peaks)))) }
    {
        let mut rest = rest;
        let mut tops = tops;
        let mut folded = None;
        if rest.first > 0 {
            folded = Some(tops[0]);
            tops = &tops[1..];
        }
        while rest.left > 0 && rest.folded > 0 {
            let height = F::first_peak(rest.left);
            let (item, after) = self.item(hasher, rest.first, height, tops, found)?;
            folded = Some(append(hasher, folded, &item));
            tops = after;
            rest = rest.next(height);
        }
        let onto = self.fold_right(hasher, rest, tops, found)?;
        match folded {
            None => Ok(onto),
            Some(folded) => Ok(Some(join(hasher, &folded, onto))),
        }
    }

    /// Returns what the peaks `rest` are folded into from the right, none for no peaks; `tops` has the digests of those
    /// apart from the range and of their fold.
    fn fold_right<H: Hasher<F, Digest = D>>(
        &self,
        hasher: &H,
        rest: Rest,
        tops: &[D],
        found: &mut Found<F, D>,
    ) -> Result<Option<D>, AllocError>
        requires given { IsGiven self.now.leaves self.now.start self.now.end self.now.elements.now
            self.now.siblings.now self.now.digests.now }
        requires peaks { ArePeaks F.shape self.now.leaves rest.first rest.left }
        requires takes { TakesTree (H.takes hasher.now) F.shape self.now.leaves }
        requires present { PresentIn F.shape self.now.start self.now.end self.now.siblings.now
            (peaks_from F.shape rest.first rest.left) }
        requires tops { length tops.now ≡ length
            (top_sites self.now.start self.now.end (peaks_from F.shape rest.first rest.left) 0) }
        ensures { (digest : Site → List ℕ) →
            let T = H.layout hasher.now in
            let cut = apart self.now.start self.now.end in
            let v = given_values digest self.now.start (map E.items self.now.elements.now)
            (H.chunk hasher.now) in
            let peaks = peaks_from F.shape rest.first rest.left in
            Serves F.shape digest self.now.siblings.now (map D.text self.now.digests.now)
            → map D.text tops.now
            ≡ map digest (top_sites self.now.start self.now.end peaks 0)
            → IfOk result (λ r. (option_map D.text r
            ≡ right_of H.hash_of (λ p. eval H.hash_of v (part T cut p)) (digest back)
            self.now.end peaks)
            × Adds (λ v. by_bytes D.text v.items) found.old found.new (found_at H.hash_of T cut
            v (nodes_in cut (overlapped self.now.start self.now.end peaks)))) }
    {
        if rest.left == 0 {
            return Ok(None);
        }
        if self.end <= rest.first {
            return Ok(Some(tops[0]));
        }
        let height = F::first_peak(rest.left);
        let (item, tops) = self.item(hasher, rest.first, height, tops, found)?;
        let onto = self.fold_right(hasher, rest.next(height), tops, found)?;
        Ok(Some(join(hasher, &item, onto)))
    }

    /// Returns the digest of the peak of height `height` over the leaf `first`, which is the first of `tops` if the
    /// peak is apart from the range; and the rest of `tops`.
    fn item<'t, H: Hasher<F, Digest = D>>(
        &self,
        hasher: &H,
        first: u64,
        height: u32,
        tops: &'t [D],
        found: &mut Found<F, D>,
    ) -> Result<(D, &'t [D]), AllocError>
        requires given { IsGiven self.now.leaves self.now.start self.now.end self.now.elements.now
            self.now.siblings.now self.now.digests.now }
        requires small { height ≤ 62 }
        requires within { InTree F.shape self.now.leaves first height }
        requires takes { TakesTree (H.takes hasher.now) F.shape self.now.leaves }
        requires present { apart self.now.start self.now.end first height ≡ false
            → Present F.shape self.now.siblings.now (sites_of
            (node_calc (ungrafted F.shape) (apart self.now.start self.now.end) height first)) }
        requires tops { apart self.now.start self.now.end first height ≡ true
            → 0 < length tops.now }
        ensures left { IfOk result (λ r. r.1.now ≡ (if apart self.now.start self.now.end first
            height then drop 1 tops.now else tops.now)) }
        ensures exact { (digest : Site → List ℕ) (later : List Site) →
            let T = H.layout hasher.now in
            let cut = apart self.now.start self.now.end in
            let v = given_values digest self.now.start (map E.items self.now.elements.now)
            (H.chunk hasher.now) in
            let is_top = cut first height in
            Serves F.shape digest self.now.siblings.now (map D.text self.now.digests.now)
            → (is_top ≡ true → map D.text tops.now ≡ map digest (node first height ∷ later))
            → IfOk result (λ r. (D.text r.0
            ≡ eval H.hash_of v (node_calc T cut height first))
            × Adds (λ v. by_bytes D.text v.items) found.old found.new (found_at H.hash_of T cut
            v (if is_top then [] else nodes_under cut height first))) }
    {
        if is_apart(self.start, self.end, first, height) {
            Ok((tops[0], &tops[1..]))
        } else {
            Ok((self.node(hasher, first, height, found)?, tops))
        }
    }

    /// Returns the digest of the node of height `height` over the leaf `first`, from the elements and the siblings'
    /// digests.
    fn node<H: Hasher<F, Digest = D>>(
        &self,
        hasher: &H,
        first: u64,
        height: u32,
        found: &mut Found<F, D>,
    ) -> Result<D, AllocError>
        requires given { IsGiven self.now.leaves self.now.start self.now.end self.now.elements.now
            self.now.siblings.now self.now.digests.now }
        requires small { height ≤ 62 }
        requires within { InTree F.shape self.now.leaves first height }
        requires takes { TakesTree (H.takes hasher.now) F.shape self.now.leaves }
        requires present { Present F.shape self.now.siblings.now (sites_of
            (node_calc (ungrafted F.shape) (apart self.now.start self.now.end) height first)) }
        ensures { (digest : Site → List ℕ) →
            let T = H.layout hasher.now in
            let cut = apart self.now.start self.now.end in
            let v = given_values digest self.now.start (map E.items self.now.elements.now)
            (H.chunk hasher.now) in
            Serves F.shape digest self.now.siblings.now (map D.text self.now.digests.now)
            → IfOk result (λ d. (D.text d
            ≡ eval H.hash_of v (node_calc T cut height first))
            × Adds (λ v. by_bytes D.text v.items) found.old found.new
            (found_at H.hash_of T cut v (nodes_under cut height first))) }
    {
        if is_apart(self.start, self.end, first, height) {
            let position = node_position(first, height);
            return keep(found, first, height, self.sibling(position));
        }
        if height == 0 {
            let leaf = node_position(first, height);
            let element = &self.elements[(first - self.start) as usize];
            let digest = hasher.leaf_digest(leaf, element.as_slice());
            return keep(found, first, height, digest);
        }
        let left = self.node(hasher, first, height - 1, found)?;
        let right = self.node(hasher, first + power(height - 1), height - 1, found)?;
        let digest = hasher.node_digest_over(first, height, &left, &right);
        keep(found, first, height, digest)
    }

    /// Returns the digest of the sibling at `position`.
    fn sibling(&self, position: Position<F>) -> D
        requires given { IsGiven self.now.leaves self.now.start self.now.end self.now.elements.now
            self.now.siblings.now self.now.digests.now }
        requires present { Contains self.now.siblings.now position }
        ensures { (digest : Site → List ℕ) (first height : ℕ)
            → Serves F.shape digest self.now.siblings.now (map D.text self.now.digests.now)
            → IsNode F.shape position first height
            → D.text result ≡ digest (node first height) }
    {
        let index = self.siblings.binary_search(&position).unwrap();
        self.digests[index]
    }
}
