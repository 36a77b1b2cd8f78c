//! The store of an accepted range proof.

ghost use Rattle.std.specs.Prelude.{◌≡◌, ◌≢◌, ℕ, ◌+◌, ◌-◌, ◌<◌, ◌≤◌, ◌⊎◌, ◌++◌, List, [], length, map, option_map, IfOk, IfErr};
ghost use Rattle.storage_merkle.specs.Calc.{Site};
ghost use Rattle.storage_merkle.specs.CheckParts.{top_sites};
ghost use Rattle.storage_merkle.specs.Extracted.{Fits, checked, checked_sites, entries, by_bytes};
ghost use Rattle.storage_merkle.specs.Hashers.{TakesTree};
ghost use Rattle.storage_merkle.specs.Held.{proof_of};
ghost use Rattle.storage_merkle.specs.RangeProofs.{CountsFit, IsAccepted};
ghost use Rattle.storage_merkle.specs.Rests.{peaks_from};
ghost use Rattle.storage_merkle.specs.StoreParts.{back_among, nodes_among};
ghost use Rattle.storage_merkle.specs.Stores.{IsMadeOf, store_of};
ghost use Rattle.storage_merkle.specs.Trees.{Content, Layout, ungrafted, content_of};
ghost use Rattle.storage_merkle.specs.Shape.{AreAligned, max_leaves};

use crate::merkle::hasher::Hasher;
use crate::merkle::plan::node_position;
use crate::merkle::proof::check;
use crate::merkle::walk::{Rest, Top, Tops};
use crate::merkle::{Error, Family, Location, Position, Proof, ProofStore};
use std::alloc::{AllocError, Global};
use std::convert::AsSlice;
use storage_codec::digest::Digest;

impl<F: Family, D: Digest> ProofStore<F, D> {
    /// Returns the store of `proof`, whose check says that `elements` stand at the leaves from `start` on of the tree
    /// with the root `root`.
    ///
    /// # Errors
    ///
    /// `InvalidProof` if a count does not fit; `RootMismatch` if another root than `root` comes out; `Memory`.
    pub fn new<H: Hasher<F, Digest = D>, E: AsSlice<u8>>(
        alloc: Global,
        hasher: &H,
        proof: &Proof<F, D>,
        elements: &[E],
        start: Location<F>,
        root: &D,
    ) -> Result<Self, Error<F>>
        requires { TakesTree (H.takes hasher.now) F.shape proof.now.leaves }
        ensures made { IfOk result (λ store. IsMadeOf D.size H.hash_of (H.layout hasher.now)
            (H.bagging hasher.now) (proof_of D.text proof.now) start (content_of
            (map E.items elements.now) (H.chunk hasher.now)) (D.text root.now) store) }
        ensures why { IfErr result (λ e. (e ≡ Error.Memory) ⊎ (((e ≡ Error.InvalidProof) × (Fits
            H.hash_of (H.layout hasher.now) (H.bagging hasher.now) (proof_of D.text proof.now) start
            (content_of (map E.items elements.now) (H.chunk hasher.now)) → ⊥)) ⊎ ((e
            ≡ Error.RootMismatch) × (Fits H.hash_of (H.layout hasher.now) (H.bagging hasher.now)
            (proof_of D.text proof.now) start (content_of (map E.items elements.now)
            (H.chunk hasher.now)) × (IsAccepted H.hash_of (H.layout hasher.now)
            (H.bagging hasher.now) (proof_of D.text proof.now) start (content_of
            (map E.items elements.now) (H.chunk hasher.now)) (D.text root.now) → ⊥))))) }
    {
        if elements.is_empty() {
            return match proof.extract_nothing(hasher, start, root) {
                Ok(()) => Ok(Self::of_nothing(alloc, hasher)),
                Err(error) => Err(error),
            };
        }
        let mut found = Some(Vec::new(alloc));
        let computed = check::recompute(&proof.lent(), alloc, hasher, elements, start, &mut found)?;
        let (Some(computed), Some(kept)) = (computed, found) else {
            return Err(Error::InvalidProof);
        };
        if computed != *root {
            return Err(Error::RootMismatch);
        }
        let past = Location::new(start.as_u64() + elements.len() as u64);
        Ok(Self::from_accepted_proof(hasher, proof, start, past, kept)?)
    }

    /// Returns the store of the proof of no elements in the tree without leaves. Allocates nothing.
    fn of_nothing<H: Hasher<F, Digest = D>>(alloc: Global, hasher: &H) -> Self
        ensures { result ≡ record {
          leaves = 0;
          inactive = 0;
          bagging = H.bagging hasher.now;
          start = 0;
          past = 0;
          front_fold = H.hash_of [];
          back_fold = H.hash_of [];
          kept = [];
        } }
    {
        let nothing = hasher.hash(&[]);
        ProofStore {
            leaves: Location::new(0),
            inactive_peaks: 0,
            bagging: hasher.root_bagging(),
            start: Location::new(0),
            past: Location::new(0),
            front_fold: nothing,
            back_fold: nothing,
            kept: Vec::new(alloc),
        }
    }

    /// Returns the store of `proof`, whose counts fit to the leaves from `start` to before `past`, from `found`, the
    /// digests that its check came upon.
    fn from_accepted_proof<H: Hasher<F, Digest = D>>(
        hasher: &H,
        proof: &Proof<F, D>,
        start: Location<F>,
        past: Location<F>,
        found: Vec<(Position<F>, D)>,
    ) -> Result<Self, AllocError>
        requires fits { (claim : Content) × (past ≡ start + length claim.elements)
            × CountsFit H.hash_of (ungrafted F.shape) (H.bagging hasher.now)
            (proof_of D.text proof.now) start claim }
        ensures { (T : Layout) (claim : Content) → T.shape ≡ F.shape
            → past ≡ start + length claim.elements
            → by_bytes D.text found.items
            ≡ checked H.hash_of T (H.bagging hasher.now) (proof_of D.text proof.now) start claim
            (checked_sites T proof.now.leaves start (start + length claim.elements))
            → IfOk result (λ store. store
            ≡ store_of H.hash_of T (H.bagging hasher.now) (proof_of D.text proof.now) start claim) }
    {
        let all = Rest::all::<F, H>(hasher, proof.leaves.as_u64(), proof.inactive_peaks);
        let rest = all.after_leading::<F>(start.as_u64());
        let nothing = hasher.hash(&[]);
        let (front_fold, digests) = if rest.first > 0 {
            (proof.digests[0], &proof.digests[1..])
        } else {
            (nothing, &proof.digests[..])
        };
        let mut kept = found;
        let back_fold = keep_peaks(rest, start.as_u64(), past.as_u64(), digests, &mut kept)?;
        kept.sort_unstable_by_key(|entry| entry.0);
        Ok(ProofStore {
            leaves: proof.leaves,
            inactive_peaks: proof.inactive_peaks,
            bagging: hasher.root_bagging(),
            start,
            past,
            front_fold,
            back_fold: back_fold.unwrap_or(nothing),
            kept,
        })
    }
}

/// Adds to `kept` the digests of those peaks of `rest` that are apart from the leaves from `start` to before `end`, as
/// (position, digest); they come first in `digests`. Answers the fold of the peaks past the range, which comes after
/// them; none if there are no such peaks.
fn keep_peaks<F: Family, D: Digest>(
    rest: Rest,
    start: u64,
    end: u64,
    digests: &[D],
    kept: &mut Vec<(Position<F>, D)>,
) -> Result<Option<D>, AllocError>
    requires few { rest.first + rest.left ≤ max_leaves }
    requires peaks { AreAligned (F.shape.peaks rest.left) rest.first }
    requires enough { length (top_sites start end
        (peaks_from F.shape rest.first rest.left) rest.folded) ≤ length digests.now }
    ensures { (digest : Site → List ℕ) (later : List (List ℕ)) → map D.text digests.now ≡ map digest
        (top_sites start end (peaks_from F.shape rest.first rest.left) rest.folded) ++ later
        → IfOk result (λ back. (by_bytes D.text kept.new.items
        ≡ by_bytes D.text kept.old.items ++ entries (ungrafted F.shape) digest
        (nodes_among (top_sites start end (peaks_from F.shape rest.first rest.left) rest.folded)))
        × (option_map D.text back ≡ back_among digest
        (top_sites start end (peaks_from F.shape rest.first rest.left) rest.folded))) }
{
    let mut digests = digests;
    for top in Tops::<F>::apart(rest, start, end) {
        match top {
            Top::One(first, height) => kept.push((node_position(first, height), digests[0]))?,
            Top::Past(_, _) => return Ok(Some(digests[0])),
        }
        digests = &digests[1..];
    }
    Ok(None)
}
