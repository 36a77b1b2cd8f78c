//! Range proofs and multi proofs.

ghost use Rattle.std.specs.Prelude.{◌≡◌, ◌≢◌, ℕ, ◌+◌, ◌-◌, ◌*◌, ◌%◌, ◌^◌, ◌<◌, ◌≤◌, ◌↔◌, ◌⊎◌, List, [], ◌∷◌, length, map, option_map, Some, None, IsTrue, IsOk, IfOk, IfErr};
ghost use Rattle.storage_merkle.specs.Checks.{IsRecomputed, IsProved};
ghost use Rattle.storage_merkle.specs.Hashers.{TakesTree};
ghost use Rattle.storage_merkle.specs.Held.{proof_of};
ghost use Rattle.storage_merkle.specs.Multi.{IsMultiAccepted, IsMultiProved, claims_of};
ghost use Rattle.storage_merkle.specs.RangeProofs.{IsAccepted, IsEmptyProof};
ghost use Rattle.storage_merkle.specs.Trees.{Content, empty_root, content_of};

use crate::merkle::hasher::Hasher;
use crate::merkle::{Error, Family, Location, multi};
use std::alloc::Global;
use std::convert::AsSlice;
use storage_codec::NoMemory;
use storage_codec::digest::Digest;

pub(crate) mod check;
mod codec;
mod extract;
mod found;
mod lent;
mod pinned;

pub use lent::LentProof;

/// A proof that elements stand at a range of leaves, or, as a multi proof, at any locations.
#[derive(Drop)]
#[derive_where(Debug, PartialEq, Eq; D)]
pub struct Proof<F, D> {
    /// How many leaves the tree has.
    pub leaves: Location<F>,
    /// How many leading peaks of the tree are inactive.
    pub inactive_peaks: usize,
    /// The digests that the elements do not give: of the peaks and folds apart from the range in leaf order, then of
    /// the nodes beside the range in overlapped peaks, ascending by position. Of a multi proof: of the greatest nodes with
    /// no claimed location, ascending by position.
    pub digests: Vec<D>,
}

impl<F: Family, D: Digest> Proof<F, D> {
    /// Returns the proof of no elements in the tree without leaves. Allocates nothing.
    pub fn default(alloc: Global) -> Self
        ensures leaves { result.leaves ≡ 0 }
        ensures inactive { result.inactive_peaks ≡ 0 }
        ensures digests { result.digests.items ≡ [] }
    {
        Proof {
            leaves: Location::new(0),
            inactive_peaks: 0,
            digests: Vec::new(alloc),
        }
    }

    /// Returns a proof equal to this one. `NoMemory` if there is no memory for its digests.
    pub fn clone(&self) -> Result<Self, NoMemory>
        ensures { IfOk result (λ copy. (copy.leaves ≡ self.now.leaves) × (copy.inactive_peaks
            ≡ self.now.inactive_peaks) × (copy.digests.items ≡ self.now.digests.items)) }
    {
        let mut digests = Vec::new(*self.digests.allocator());
        digests.extend_from_slice(&self.digests)?;
        Ok(Proof {
            leaves: self.leaves,
            inactive_peaks: self.inactive_peaks,
            digests,
        })
    }

    /// Returns whether `element` stands at `location` of the tree with the root `root`. Running out of memory is an
    /// error, never a no.
    pub fn verify_element_inclusion<H: Hasher<F, Digest = D>>(
        &self,
        alloc: Global,
        hasher: &H,
        element: &[u8],
        location: Location<F>,
        root: &D,
    ) -> Result<bool, NoMemory>
        requires { TakesTree (H.takes hasher.now) F.shape self.now.leaves }
        ensures exact { IfOk result (λ yes. IsTrue yes ↔ IsAccepted H.hash_of (H.layout hasher.now)
            (H.bagging hasher.now) (proof_of D.text self.now) location
            (content_of (element.now ∷ []) (H.chunk hasher.now)) (D.text root.now)) }
        ensures meaning { IfOk result (λ yes. IsTrue yes → IsProved D.size H.hash_of
            (H.layout hasher.now) (H.bagging hasher.now) (proof_of D.text self.now) location
            (content_of (element.now ∷ []) (H.chunk hasher.now)) (D.text root.now)) }
    {
        self.verify_range_inclusion(alloc, hasher, &[element], location, root)
    }

    /// Returns whether `elements` stand at the leaves from `start` on of the tree with the root `root`. The answer for
    /// no elements allocates nothing: yes just for the proof of nothing, `start` 0 and the root of the tree without
    /// leaves.
    pub fn verify_range_inclusion<H: Hasher<F, Digest = D>, E: AsSlice<u8>>(
        &self,
        alloc: Global,
        hasher: &H,
        elements: &[E],
        start: Location<F>,
        root: &D,
    ) -> Result<bool, NoMemory>
        requires { TakesTree (H.takes hasher.now) F.shape self.now.leaves }
        ensures exact { IfOk result (λ yes. IsTrue yes ↔ IsAccepted H.hash_of (H.layout hasher.now)
            (H.bagging hasher.now) (proof_of D.text self.now) start (content_of
            (map E.items elements.now) (H.chunk hasher.now)) (D.text root.now)) }
        ensures meaning { IfOk result (λ yes. IsTrue yes → IsProved D.size H.hash_of
            (H.layout hasher.now) (H.bagging hasher.now) (proof_of D.text self.now) start
            (content_of (map E.items elements.now) (H.chunk hasher.now)) (D.text root.now)) }
        ensures none { elements.now ≡ [] → IsOk result }
    {
        if elements.is_empty() {
            return Ok(self.verify_nothing(hasher, start, root));
        }
        let computed = self.recompute_root(alloc, hasher, elements, start)?;
        Ok(computed == Some(*root))
    }

    /// Returns whether `elements` stand at their locations, which must ascend, each once, in the tree with the root
    /// `root`. The answer for no elements allocates nothing.
    pub fn verify_multi_inclusion<H: Hasher<F, Digest = D>, E: AsSlice<u8>>(
        &self,
        alloc: Global,
        hasher: &H,
        elements: &[(E, Location<F>)],
        root: &D,
    ) -> Result<bool, NoMemory>
        requires { TakesTree (H.takes hasher.now) F.shape self.now.leaves }
        ensures exact { IfOk result (λ yes. IsTrue yes ↔ IsMultiAccepted H.hash_of
            (H.layout hasher.now) (H.bagging hasher.now) (proof_of D.text self.now)
            (claims_of E.items elements.now) (H.chunk hasher.now) (D.text root.now)) }
        ensures meaning { IfOk result (λ yes. IsTrue yes → IsMultiProved D.size H.hash_of
            (H.layout hasher.now) (H.bagging hasher.now) (proof_of D.text self.now)
            (claims_of E.items elements.now) (H.chunk hasher.now) (D.text root.now)) }
        ensures none { elements.now ≡ [] → IsOk result }
    {
        if elements.is_empty() {
            return Ok(self.verify_nothing(hasher, Location::new(0), root));
        }
        let recomputed = multi::recompute(self, alloc, hasher, elements)?;
        Ok(recomputed == Some(*root))
    }

    /// Returns the root of the tree in which `elements` stand at the leaves from `start` on; none if a count does not
    /// fit or there are no elements.
    pub fn recompute_root<H: Hasher<F, Digest = D>, E: AsSlice<u8>>(
        &self,
        alloc: Global,
        hasher: &H,
        elements: &[E],
        start: Location<F>,
    ) -> Result<Option<D>, NoMemory>
        requires { TakesTree (H.takes hasher.now) F.shape self.now.leaves }
        ensures { IfOk result (λ root. IsRecomputed H.hash_of (H.layout hasher.now)
            (H.bagging hasher.now) (proof_of D.text self.now) start (content_of
            (map E.items elements.now) (H.chunk hasher.now)) (option_map D.text root)) }
    {
        check::recompute(&self.lent(), alloc, hasher, elements, start, &mut None)
    }

    /// Returns the root of the tree in which `elements` stand at the leaves from `start` on.
    ///
    /// # Errors
    ///
    /// `InvalidProof` if a count does not fit or there are no elements; `Memory`.
    pub fn reconstruct_root<H: Hasher<F, Digest = D>, E: AsSlice<u8>>(
        &self,
        alloc: Global,
        hasher: &H,
        elements: &[E],
        start: Location<F>,
    ) -> Result<D, Error<F>>
        requires { TakesTree (H.takes hasher.now) F.shape self.now.leaves }
        ensures root { IfOk result (λ root. IsRecomputed H.hash_of (H.layout hasher.now)
            (H.bagging hasher.now) (proof_of D.text self.now) start (content_of
            (map E.items elements.now) (H.chunk hasher.now)) (Some (D.text root))) }
        ensures why { IfErr result (λ e. (e ≡ Error.Memory) ⊎ ((e ≡ Error.InvalidProof)
            × (IsRecomputed H.hash_of (H.layout hasher.now) (H.bagging hasher.now)
            (proof_of D.text self.now) start (content_of (map E.items elements.now)
            (H.chunk hasher.now)) None))) }
    {
        match self.recompute_root(alloc, hasher, elements, start)? {
            Some(root) => Ok(root),
            None => Err(Error::InvalidProof),
        }
    }

    /// Returns this proof, with its digests lent.
    pub(crate) fn lent(&self) -> LentProof<F, D>
        ensures leaves { result.leaves ≡ self.now.leaves }
        ensures inactive { result.inactive_peaks ≡ self.now.inactive_peaks }
        ensures digests { result.digests.now ≡ self.now.digests.items }
    {
        LentProof {
            leaves: self.leaves,
            inactive_peaks: self.inactive_peaks,
            digests: &self.digests,
        }
    }

    /// Returns whether it is the proof of no elements of the tree without leaves, `start` is 0, and `root` is that
    /// tree's root. Allocates nothing.
    fn verify_nothing<H: Hasher<F, Digest = D>>(
        &self,
        hasher: &H,
        start: Location<F>,
        root: &D,
    ) -> bool
        ensures { (claim : Content) → claim.elements ≡ []
            → (IsTrue result ↔ (IsEmptyProof H.hash_of (H.layout hasher.now) (H.bagging hasher.now)
            (proof_of D.text self.now) start claim × (empty_root H.hash_of (H.layout hasher.now)
            (H.bagging hasher.now) ≡ D.text root.now))) }
    {
        start.as_u64() == 0 && self.is_default() && hasher.root(start, 0, &[]) == *root
    }

    /// Returns whether it is the proof of no elements in the tree without leaves.
    fn is_default(&self) -> bool
        ensures { IsTrue result ↔ ((self.now.leaves ≡ 0) × (self.now.inactive_peaks ≡ 0)
            × (self.now.digests.items ≡ [])) }
    {
        self.leaves.as_u64() == 0 && self.inactive_peaks == 0 && self.digests.is_empty()
    }
}
