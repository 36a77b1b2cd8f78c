//! Proofs whose digests are lent.

ghost use Rattle.std.specs.Prelude.{◌≡◌, ℕ, ◌≤◌, map, option_map, IfOk};
ghost use Rattle.storage_merkle.specs.Checks.{IsRecomputed};
ghost use Rattle.storage_merkle.specs.Hashers.{TakesTree};
ghost use Rattle.storage_merkle.specs.Held.{lent_proof_of};
ghost use Rattle.storage_merkle.specs.Trees.{content_of};

use crate::merkle::hasher::Hasher;
use crate::merkle::proof::check;
use crate::merkle::{Family, Location};
use std::alloc::Global;
use std::convert::AsSlice;
use storage_codec::NoMemory;
use storage_codec::digest::Digest;

/// A proof that elements stand at a range of leaves, whose digests are lent: a part of another proof may be checked without
/// a copy.
#[derive_where(Clone, Copy)]
pub struct LentProof<'a, F, D> {
    /// How many leaves the tree has.
    pub leaves: Location<F>,
    /// How many leading peaks are inactive.
    pub inactive_peaks: usize,
    /// The digests that the elements do not give, in the order of [`Proof::digests`](crate::merkle::Proof::digests).
    pub digests: &'a [D],
}

impl<F: Family, D: Digest> LentProof<'_, F, D> {
    /// Returns the root of the tree in which `elements` stand at the leaves from `start` on; none if a count does not
    /// fit or there are no elements.
    pub fn recompute_root<H: Hasher<F, Digest = D>, E: AsSlice<u8>>(
        &self,
        alloc: Global,
        hasher: &H,
        elements: &[E],
        start: Location<F>,
    ) -> Result<Option<D>, NoMemory>
        requires { TakesTree (H.takes hasher.now) F.shape self.now.leaves }
        ensures { IfOk result (λ root. IsRecomputed H.hash_of (H.layout hasher.now)
            (H.bagging hasher.now) (lent_proof_of D.text self.now) start (content_of
            (map E.items elements.now) (H.chunk hasher.now)) (option_map D.text root)) }
    {
        check::recompute(self, alloc, hasher, elements, start, &mut None)
    }
}
