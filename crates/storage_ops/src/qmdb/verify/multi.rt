//! Multi proofs over operations at any locations.

ghost use Rattle.std.specs.Prelude.{◌≡◌, ◌↔◌, ◌⊎◌, None, Some, [], map, IfErr, IfOk, IsOk, IsTrue};
ghost use Rattle.storage_merkle.specs.declared.merkle.bagging.Bagging.TheVariants.{BackwardFold};
ghost use Rattle.storage_merkle.specs.Extracted.{by_bytes};
ghost use Rattle.storage_merkle.specs.Held.{proof_of};
ghost use Rattle.storage_merkle.specs.Multi.{IsMultiAccepted, IsMultiProved, claims_of};
ghost use Rattle.storage_merkle.specs.Stores.{multi_refusal, store_multi_proof};
ghost use Rattle.storage_merkle.specs.Trees.{ungrafted};
ghost use Rattle.storage_ops.specs.Located.{claims_at};

use crate::qmdb;
use std::alloc::Global;
use storage_codec::NoMemory;
use storage_codec::codec::Encode;
use storage_codec::digest::{Digest, DigestOf, Hasher};
use storage_merkle::merkle::{Error, Family, Location, Position, Proof, ProofStore};

/// Returns whether `operations` stand at their locations of the list with the root `root`; no if the locations do not
/// ascend, each once. The answer for no operations allocates nothing.
pub fn verify_multi_proof<H: Hasher, F: Family, Op: Encode>(
    alloc: Global,
    proof: &Proof<F, DigestOf<H>>,
    operations: &[(Location<F>, Op)],
    root: &DigestOf<H>,
) -> Result<bool, NoMemory>
    ensures exact { IfOk result (λ yes. IsTrue yes ↔ IsMultiAccepted H.hash_of
        (ungrafted F.shape) BackwardFold (proof_of H.Digest.text proof.now)
        (claims_at Op.text operations.now) (λ a. []) (H.Digest.text root.now)) }
    ensures meaning { IfOk result (λ yes. IsTrue yes → IsMultiProved H.Digest.size H.hash_of
        (ungrafted F.shape) BackwardFold (proof_of H.Digest.text proof.now)
        (claims_at Op.text operations.now) (λ a. []) (H.Digest.text root.now)) }
    ensures none { operations.now ≡ [] → IsOk result }
{
    let elements = encode_located(alloc, operations)?;
    proof.verify_multi_inclusion(alloc, &qmdb::hasher::<H>(), &elements, root)
}

/// Returns a proof of the operations at `locations`, which must ascend, each once, from the digests that `store` keeps
/// and, for a node without one, from the first of `peaks` at its position. The digests of `peaks` are not checked.
///
/// # Errors
///
/// `Empty` for no locations; of the first location for which it holds, in the order of the list, `UnsortedLocation` if
/// it is below the one before it, `DuplicateLocation` if it equals it, and `RangeOutOfBounds` if it is not in the tree;
/// of the first needed position without a digest, in ascending order, `CompressedDigest` if it is one of the store's
/// suffix peaks, else `ElementPruned`; `Memory`.
pub fn create_multi_proof<F: Family, D: Digest>(
    alloc: Global,
    store: &ProofStore<F, D>,
    locations: &[Location<F>],
    peaks: &[(Position<F>, D)],
) -> Result<Proof<F, D>, Error<F>>
    ensures given { IfOk result (λ proof. (multi_refusal F F.shape store.now
        (by_bytes D.text peaks.now) locations.now ≡ None) × (proof_of D.text proof
        ≡ store_multi_proof F.shape store.now (by_bytes D.text peaks.now) locations.now)) }
    ensures why { IfErr result (λ e. (multi_refusal F F.shape store.now
        (by_bytes D.text peaks.now) locations.now ≡ Some e) ⊎ (e ≡ Error.Memory)) }
{
    store.multi_proof(alloc, locations, peaks)
}

/// Returns the encodings of `operations`, each with its location. For none it allocates nothing.
fn encode_located<F: Family, Op: Encode>(
    alloc: Global,
    operations: &[(Location<F>, Op)],
) -> Result<Vec<(Vec<u8>, Location<F>)>, NoMemory>
    ensures all { IfOk result (λ v.
        claims_of (λ bytes. bytes.items) v.items ≡ claims_at Op.text operations.now) }
    ensures none { operations.now ≡ [] → IsOk result }
{
    let mut encoded = Vec::new(alloc);
    for (location, operation) in operations {
        encoded.push((operation.encode(alloc)?, *location))?;
    }
    Ok(encoded)
}
