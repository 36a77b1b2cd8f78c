//! What holds between the proofs that a server builds and the checks of a light client.

ghost use Rattle.std.specs.Prelude.{◌≡◌, ℕ, ◌+◌, ◌-◌, ◌*◌, ◌/◌, ◌%◌, ◌^◌, ◌<◌, ◌≤◌, ◌⊎◌, ◌↔◌, IfOk, IfErr, IsTrue, MatchResult, length, true};
ghost use Rattle.std.specs.List.{All};
ghost use Rattle.storage_merkle.specs.Plans.{planned};
ghost use Rattle.storage_bitmap.specs.Chunks.{IsChunkSize};
ghost use Rattle.storage_current.specs.BuiltProofs.{ArePartsOf, IsNotBuilt};
ghost use Rattle.storage_current.specs.CurrentWire.{operation_text};
ghost use Rattle.storage_current.specs.KeptSnapshots.{KeptSnapshot};
ghost use Rattle.storage_current.specs.Snapshots.{IsActive, IsSnapshot, Snapshot as SnapshotOf, canonical_root, first_chunk, own_operation_proof, grafting_of};
ghost use Rattle.commonware_storage.specs.Handed.{AreSnapshotParts};
ghost use Rattle.commonware_storage.specs.Light.{IsAcceptedAt, OwnProofsAreAccepted};

pub mod databases;
pub mod keys;
pub mod ranges;

use crate::light::check_operation;
use std::alloc::Global;
use storage_bitmap::bitmap::Readable;
pub use storage_bitmap::laws as bitmap;
use storage_codec::codec::Write;
use storage_codec::digest::Hasher;
pub use storage_codec::laws as codec;
pub use storage_current::laws as current;
use storage_current::laws::{
    own_operation_proofs_are_accepted, own_operation_proofs_are_read_again,
};
use storage_current::qmdb::current::proof::constant::OperationProof;
pub use storage_db::laws as database;
pub use storage_merkle::laws as merkle;
use storage_merkle::laws::greatest_nodes_are_planned;
use storage_merkle::merkle::{ElementPlan, Graftable, Location, Position};
pub use storage_ops::laws as operations;
use storage_ops::qmdb::Error;
pub use storage_sync::laws as sync;

/// What a snapshot's own proof of an active operation is written as is accepted at its location: in each family, for each
/// chunk size, with at most 128 digests.
pub fn own_proofs_are_accepted()
    ensures { OwnProofsAreAccepted }
{
    own_operation_proofs_are_accepted();
    own_operation_proofs_are_read_again();
}

/// Builds the proof of the operation at the location of `plan`, writes it, and answers what [`check_operation`] says of
/// these bytes, of `operation` and of `root`. Where `status`, `get_node`, `floor` and `ops_root` are the parts of a
/// snapshot, that is what it says of the bytes of the snapshot's own proof: yes wherever `root` is that snapshot's
/// canonical root and `operation` is active there. With the parts that a [`Snapshot`](crate::qmdb::current::Snapshot)
/// hands out only out of memory is an error.
///
/// # Errors
///
/// Those of `OperationProof::build`, and `Memory`.
pub fn built_proofs_are_accepted<
    F: Graftable,
    H: Hasher,
    R: Readable<N>,
    G: Fn(Position<F>) -> Option<H::Digest>,
    const N: usize,
>(
    alloc: Global,
    status: &R,
    plan: ElementPlan<F>,
    get_node: G,
    floor: Location<F>,
    ops_root: H::Digest,
    operation: &[u8],
    root: &H::Digest,
) -> Result<bool, Error<F>>
    requires size { IsChunkSize N }
    requires callable { All (λ p. G.pre get_node p)
        (planned F.shape plan.leaves plan.start plan.end) }
    ensures asked { let g = grafting_of F.shape N in
        (s : SnapshotOf) → ArePartsOf H.Digest.text (G.post get_node) H.hash_of g plan
        (R.retained status.now) floor (H.Digest.text ops_root) s
        → IfOk result (λ yes. IsTrue yes ↔ IsAcceptedAt H.hash_of g F.has_pending H.Digest.size
        plan.start (operation_text F.has_pending (own_operation_proof H.hash_of g s plan.start))
        operation.now (H.Digest.text root.now)) }
    ensures accepted { let g = grafting_of F.shape N in
        (s : SnapshotOf) → IsSnapshot s
        → ArePartsOf H.Digest.text (G.post get_node) H.hash_of g plan (R.retained status.now) floor
        (H.Digest.text ops_root) s
        → H.Digest.text root.now ≡ canonical_root H.hash_of g s
        → IsActive s plan.start operation.now
        → IfOk result (λ yes. yes ≡ true) }
    ensures handed { let g = grafting_of F.shape N in
        (kept : KeptSnapshot) (s : SnapshotOf) → IsSnapshot s
        → AreSnapshotParts H.Digest.text (G.post get_node) H.hash_of g plan
        (R.retained status.now) floor (H.Digest.text ops_root) (H.Digest.text root.now) kept s
        → IsActive s plan.start operation.now
        → MatchResult result (λ yes. yes ≡ true) (λ error. error ≡ Error.Memory) }
    ensures why { let g = grafting_of F.shape N in
        IfErr result (λ error. ((first_chunk g plan.start < (R.retained status.now).pruned)
        × (error ≡ Error.OperationPruned plan.start))
        ⊎ IsNotBuilt (G.post get_node) g plan (R.retained status.now) error) }
{
    own_proofs_are_accepted();
    greatest_nodes_are_planned();
    let loc = plan.location();
    let proof = match OperationProof::build::<H, R, G>(
        alloc, status, plan, get_node, floor, ops_root,
    ) {
        Ok(proof) => proof,
        Err(error) => return Err(error),
    };
    let mut bytes = Vec::new(alloc);
    proof.write(&mut bytes)?;
    let yes = check_operation::<F, H>(alloc, &bytes, N, loc, operation, root)?;
    Ok(yes)
}
