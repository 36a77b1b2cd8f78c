//! The digests that an accepted check of a range proof hands out.
//!
//! After a yes, each digest that the check read or computed is the tree's own, or two different strings have one digest. So
//! it may be kept and used for other proofs.

ghost use Rattle.std.specs.Prelude.{◌≡◌, ◌≢◌, ◌+◌, ◌⊎◌, [], MatchResult, map, option_map, IfErr, IfOk, MatchOption};
ghost use Rattle.storage_merkle.specs.Checks.{IsRecomputed};
ghost use Rattle.storage_merkle.specs.Extracted.{AreHandedOut, Fits, extracted, by_bytes};
ghost use Rattle.storage_merkle.specs.Hashers.{TakesTree};
ghost use Rattle.storage_merkle.specs.Held.{proof_of};
ghost use Rattle.storage_merkle.specs.RangeProofs.{IsAccepted, IsEmptyProof};
ghost use Rattle.storage_merkle.specs.Trees.{Content, empty_root, content_of};

use crate::merkle::hasher::Hasher;
use crate::merkle::proof::check;
use crate::merkle::{Error, Family, Location, Position, Proof};
use std::alloc::Global;
use std::convert::AsSlice;
use storage_codec::NoMemory;
use storage_codec::digest::Digest;

impl<F: Family, D: Digest> Proof<F, D> {
    /// Returns each digest that the check of `elements` at the leaves from `start` on reads or computes in a peak over
    /// one of them, as (position, digest): of the siblings, of these leaves, of the nodes above them and of the peaks.
    /// They ascend by position, each once. For no elements there are none.
    ///
    /// # Errors
    ///
    /// `InvalidProof` if a count does not fit; `RootMismatch` if another root than `root` comes out; `Memory`.
    pub fn verify_range_inclusion_and_extract_digests<H: Hasher<F, Digest = D>, E: AsSlice<u8>>(
        &self,
        alloc: Global,
        hasher: &H,
        elements: &[E],
        start: Location<F>,
        root: &D,
    ) -> Result<Vec<(Position<F>, D)>, Error<F>>
        requires { TakesTree (H.takes hasher.now) F.shape self.now.leaves }
        ensures handed { IfOk result (λ v. AreHandedOut D.size H.hash_of (H.layout hasher.now)
            (H.bagging hasher.now) (proof_of D.text self.now) start (content_of
            (map E.items elements.now) (H.chunk hasher.now)) (D.text root.now)
            (by_bytes D.text v.items)) }
        ensures why { IfErr result (λ e. (e ≡ Error.Memory) ⊎ (((e ≡ Error.InvalidProof) × (Fits
            H.hash_of (H.layout hasher.now) (H.bagging hasher.now) (proof_of D.text self.now) start
            (content_of (map E.items elements.now) (H.chunk hasher.now)) → ⊥)) ⊎ ((e
            ≡ Error.RootMismatch) × (Fits H.hash_of (H.layout hasher.now) (H.bagging hasher.now)
            (proof_of D.text self.now) start (content_of (map E.items elements.now)
            (H.chunk hasher.now)) × (IsAccepted H.hash_of (H.layout hasher.now)
            (H.bagging hasher.now) (proof_of D.text self.now) start (content_of
            (map E.items elements.now) (H.chunk hasher.now)) (D.text root.now) → ⊥))))) }
    {
        if elements.is_empty() {
            return match self.extract_nothing(hasher, start, root) {
                Ok(()) => Ok(Vec::new(alloc)),
                Err(error) => Err(error),
            };
        }
        let Some(given) = self.recompute_digests(alloc, hasher, elements, start)? else {
            return Err(Error::InvalidProof);
        };
        let (computed, digests) = given;
        if computed != *root {
            return Err(Error::RootMismatch);
        }
        Ok(digests)
    }

    /// Returns the root of the tree in which `elements` stand at the leaves from `start` on, and each digest that is
    /// read or computed on the way in the peaks over one of them, as (position, digest), ascending by position; none if
    /// a count does not fit or there are no elements.
    pub fn recompute_digests<H: Hasher<F, Digest = D>, E: AsSlice<u8>>(
        &self,
        alloc: Global,
        hasher: &H,
        elements: &[E],
        start: Location<F>,
    ) -> Result<Option<(D, Vec<(Position<F>, D)>)>, NoMemory>
        requires { TakesTree (H.takes hasher.now) F.shape self.now.leaves }
        ensures root { IfOk result (λ r. IsRecomputed H.hash_of (H.layout hasher.now)
            (H.bagging hasher.now) (proof_of D.text self.now) start (content_of
            (map E.items elements.now) (H.chunk hasher.now)) (option_map (λ p. D.text p.0) r)) }
        ensures digests { IfOk result (λ r. MatchOption r (Unit {0}) (λ p. by_bytes D.text p.1.items
            ≡ extracted H.hash_of (H.layout hasher.now) (H.bagging hasher.now)
            (proof_of D.text self.now) start (content_of (map E.items elements.now)
            (H.chunk hasher.now)))) }
    {
        let mut found = Some(Vec::new(alloc));
        let root = check::recompute(&self.lent(), alloc, hasher, elements, start, &mut found)?;
        let (Some(root), Some(mut digests)) = (root, found) else {
            return Ok(None);
        };
        digests.sort_unstable_by_key(|entry| entry.0);
        Ok(Some((root, digests)))
    }

    /// Returns whether it is the proof of no elements of the tree without leaves, `start` is 0, and `root` is that
    /// tree's root. Allocates nothing.
    ///
    /// # Errors
    ///
    /// `InvalidProof` if it is not that proof or `start` is not 0; `RootMismatch` if that tree has another root.
    pub(crate) fn extract_nothing<H: Hasher<F, Digest = D>>(
        &self,
        hasher: &H,
        start: Location<F>,
        root: &D,
    ) -> Result<(), Error<F>>
        ensures { (claim : Content) → claim.elements ≡ []
            → MatchResult result (λ _. IsEmptyProof H.hash_of (H.layout hasher.now)
            (H.bagging hasher.now) (proof_of D.text self.now) start claim
            × (empty_root H.hash_of (H.layout hasher.now) (H.bagging hasher.now) ≡ D.text root.now))
            (λ e. ((e ≡ Error.InvalidProof) × (IsEmptyProof H.hash_of (H.layout hasher.now)
            (H.bagging hasher.now) (proof_of D.text self.now) start claim → ⊥))
            ⊎ ((e ≡ Error.RootMismatch) × IsEmptyProof H.hash_of (H.layout hasher.now)
            (H.bagging hasher.now) (proof_of D.text self.now) start claim × (empty_root H.hash_of
            (H.layout hasher.now) (H.bagging hasher.now) ≢ D.text root.now))) }
    {
        if start.as_u64() != 0 || !self.is_default() {
            return Err(Error::InvalidProof);
        }
        if hasher.root(start, 0, &[]) != *root {
            return Err(Error::RootMismatch);
        }
        Ok(())
    }
}
