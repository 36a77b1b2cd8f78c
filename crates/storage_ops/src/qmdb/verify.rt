//! Checks of proofs over lists of operations. Each operation stands in the tree by its encoding, under the hasher of database
//! trees.

ghost use Rattle.std.specs.Prelude.{◌≡◌, ◌↔◌, ◌⊎◌, ℕ, List, [], map, IfErr, IfOk, IsOk, IsTrue};
ghost use Rattle.storage_merkle.specs.declared.merkle.bagging.Bagging.TheVariants.{BackwardFold};
ghost use Rattle.storage_merkle.specs.Checks.{IsProved};
ghost use Rattle.storage_merkle.specs.Extracted.{AreHandedOut, Fits, by_bytes};
ghost use Rattle.storage_merkle.specs.Held.{proof_of};
ghost use Rattle.storage_merkle.specs.Pinned.{IsPinnedAccepted, IsPinnedProved};
ghost use Rattle.storage_merkle.specs.RangeProofs.{IsAccepted};
ghost use Rattle.storage_merkle.specs.Stores.{IsMadeOf};
ghost use Rattle.storage_merkle.specs.Trees.{listed, ungrafted};
ghost use Rattle.storage_ops.specs.OwnStores.{GivesAcceptedOf, IsOwnOfList};

mod multi;

use crate::qmdb;
pub use multi::{create_multi_proof, verify_multi_proof};
use std::alloc::Global;
use storage_codec::NoMemory;
use storage_codec::codec::Encode;
use storage_codec::digest::{DigestOf, Hasher};
use storage_merkle::laws::own_range_proofs_are_accepted;
use storage_merkle::laws::stores::stores_of_own_proofs_give_accepted;
use storage_merkle::merkle::{Error, Family, Location, Position, Proof, ProofStore};

/// The digests that an accepted check hands out, each as (position, digest).
pub type ExtractedDigests<F, H> = Vec<(Position<F>, DigestOf<H>)>;

/// Returns whether `operations` stand at the locations from `start` on of the list with the root `root`. The answer for
/// no operations allocates nothing: yes exactly if `start` and all counts of the proof are 0 and `root` is that of no
/// operations.
pub fn verify_proof<H: Hasher, F: Family, Op: Encode>(
    alloc: Global,
    proof: &Proof<F, DigestOf<H>>,
    start: Location<F>,
    operations: &[Op],
    root: &DigestOf<H>,
) -> Result<bool, NoMemory>
    ensures exact { IfOk result (λ yes. IsTrue yes
        ↔ IsAccepted H.hash_of (ungrafted F.shape) BackwardFold (proof_of H.Digest.text proof.now)
        start (listed (map Op.text operations.now)) (H.Digest.text root.now)) }
    ensures meaning { IfOk result (λ yes. IsTrue yes → IsProved H.Digest.size H.hash_of
        (ungrafted F.shape) BackwardFold (proof_of H.Digest.text proof.now) start
        (listed (map Op.text operations.now)) (H.Digest.text root.now)) }
    ensures none { operations.now ≡ [] → IsOk result }
{
    let elements = encode_all(alloc, operations)?;
    proof.verify_range_inclusion(alloc, &qmdb::hasher::<H>(), &elements, start, root)
}

/// Returns whether `operations` stand at the locations from `start` on of the list with the root `root`, and `pinned`
/// are the digests of the peaks over the locations before `start`, in their order. The answer for no operations
/// allocates nothing: yes exactly if nothing is pinned and [`verify_proof`] says yes.
pub fn verify_proof_and_pinned_nodes<H: Hasher, F: Family, Op: Encode>(
    alloc: Global,
    proof: &Proof<F, DigestOf<H>>,
    start: Location<F>,
    operations: &[Op],
    pinned: &[DigestOf<H>],
    root: &DigestOf<H>,
) -> Result<bool, NoMemory>
    ensures exact { IfOk result (λ yes. IsTrue yes ↔ IsPinnedAccepted H.hash_of (ungrafted F.shape)
        BackwardFold (proof_of H.Digest.text proof.now) start (listed (map Op.text operations.now))
        (map H.Digest.text pinned.now) (H.Digest.text root.now)) }
    ensures meaning { IfOk result (λ yes. IsTrue yes
        → IsPinnedProved H.hash_of F.shape BackwardFold (proof_of H.Digest.text proof.now) start
        (map Op.text operations.now) (map H.Digest.text pinned.now) (H.Digest.text root.now)) }
    ensures none { operations.now ≡ [] → IsOk result }
{
    let elements = encode_all(alloc, operations)?;
    let hasher = qmdb::hasher::<H>();
    proof.verify_proof_and_pinned_nodes(alloc, &hasher, &elements, start, pinned, root)
}

/// Returns each digest that the check of `operations` at the locations from `start` on reads or computes in a peak over
/// one of them, as (position, digest), ascending by position, each once. For no operations there are none.
///
/// # Errors
///
/// `InvalidProof` if a count does not fit; `RootMismatch` if another root than `root` comes out; `Memory`.
pub fn verify_proof_and_extract_digests<H: Hasher, F: Family, Op: Encode>(
    alloc: Global,
    proof: &Proof<F, DigestOf<H>>,
    start: Location<F>,
    operations: &[Op],
    root: &DigestOf<H>,
) -> Result<ExtractedDigests<F, H>, Error<F>>
    ensures handed { IfOk result (λ v. AreHandedOut H.Digest.size H.hash_of (ungrafted F.shape)
        BackwardFold (proof_of H.Digest.text proof.now) start (listed (map Op.text operations.now))
        (H.Digest.text root.now) (by_bytes H.Digest.text v.items)) }
    ensures why { IfErr result (λ e. (e ≡ Error.Memory)
        ⊎ (((e ≡ Error.InvalidProof) × (Fits H.hash_of (ungrafted F.shape) BackwardFold
        (proof_of H.Digest.text proof.now) start (listed (map Op.text operations.now)) → ⊥))
        ⊎ ((e ≡ Error.RootMismatch) × (Fits H.hash_of (ungrafted F.shape) BackwardFold
        (proof_of H.Digest.text proof.now) start (listed (map Op.text operations.now))
        × (IsAccepted H.hash_of (ungrafted F.shape) BackwardFold (proof_of H.Digest.text proof.now)
        start (listed (map Op.text operations.now)) (H.Digest.text root.now) → ⊥))))) }
{
    let elements = encode_all(alloc, operations)?;
    let hasher = qmdb::hasher::<H>();
    proof.verify_range_inclusion_and_extract_digests(alloc, &hasher, &elements, start, root)
}

/// Returns what is kept of `proof`, whose check says that `operations` stand at the locations from `start` on of the
/// list with the root `root`, to give other proofs. Where `proof` is a list's own, so are these, and [`verify_proof`]
/// and [`verify_multi_proof`] say yes to them for operations that stand in the list.
///
/// # Errors
///
/// `InvalidProof` if a count does not fit; `RootMismatch` if another root than `root` comes out; `Memory`.
pub fn create_proof_store<H: Hasher, F: Family, Op: Encode>(
    alloc: Global,
    proof: &Proof<F, DigestOf<H>>,
    start: Location<F>,
    operations: &[Op],
    root: &DigestOf<H>,
) -> Result<ProofStore<F, DigestOf<H>>, Error<F>>
    ensures made { IfOk result (λ store. IsMadeOf H.Digest.size H.hash_of
        (ungrafted F.shape) BackwardFold (proof_of H.Digest.text proof.now) start
        (listed (map Op.text operations.now)) (H.Digest.text root.now) store) }
    ensures own { IfOk result (λ store. (list : List (List ℕ)) (inactive : ℕ)
        → IsOwnOfList H.hash_of F.shape (proof_of H.Digest.text proof.now) start
        (map Op.text operations.now) list inactive
        → GivesAcceptedOf F H.hash_of F.shape store list (H.Digest.text root.now)) }
    ensures why { IfErr result (λ e. (e ≡ Error.Memory)
        ⊎ (((e ≡ Error.InvalidProof) × (Fits H.hash_of (ungrafted F.shape) BackwardFold
        (proof_of H.Digest.text proof.now) start (listed (map Op.text operations.now)) → ⊥))
        ⊎ ((e ≡ Error.RootMismatch) × (Fits H.hash_of (ungrafted F.shape) BackwardFold
        (proof_of H.Digest.text proof.now) start (listed (map Op.text operations.now))
        × (IsAccepted H.hash_of (ungrafted F.shape) BackwardFold (proof_of H.Digest.text proof.now)
        start (listed (map Op.text operations.now)) (H.Digest.text root.now) → ⊥))))) }
{
    stores_of_own_proofs_give_accepted::<F>();
    own_range_proofs_are_accepted();
    let elements = encode_all(alloc, operations)?;
    ProofStore::new(alloc, &qmdb::hasher::<H>(), proof, &elements, start, root)
}

/// Returns the encodings of `operations`. For none it allocates nothing.
fn encode_all<Op: Encode>(alloc: Global, operations: &[Op]) -> Result<Vec<Vec<u8>>, NoMemory>
    ensures all { IfOk result (λ v.
        map (λ bytes. bytes.items) v.items ≡ map Op.text operations.now) }
    ensures none { operations.now ≡ [] → IsOk result }
{
    let mut encoded = Vec::new(alloc);
    for operation in operations {
        encoded.push(operation.encode(alloc)?)?;
    }
    Ok(encoded)
}
