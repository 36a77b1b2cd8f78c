//! What holds between the range proofs that a server builds and the checks of a light client.

ghost use Rattle.std.specs.Prelude.{◌≡◌, ℕ, ◌+◌, ◌<◌, ◌≤◌, ◌↔◌, IfOk, IfErr, IsTrue, MatchResult, length, map, true};
ghost use Rattle.std.specs.List.{All};
ghost use Rattle.storage_merkle.specs.Plans.{planned};
ghost use Rattle.storage_bitmap.specs.Chunks.{IsChunkSize};
ghost use Rattle.storage_current.specs.BuiltProofs.{ArePartsOf, IsNotBuilt};
ghost use Rattle.storage_current.specs.KeptSnapshots.{KeptSnapshot};
ghost use Rattle.storage_current.specs.Snapshots.{Holds, IsSnapshot, Snapshot, canonical_root, grafting_of};
ghost use Rattle.commonware_storage.specs.Handed.{AreSnapshotParts};
ghost use Rattle.commonware_storage.specs.LightRanges.{HasFewDigests, IsAcceptedRange, OwnRangesAreAccepted, own_range_text};

use crate::light::check_range;
use std::alloc::Global;
use storage_bitmap::bitmap::Readable;
use storage_codec::codec::Write;
use storage_codec::digest::Hasher;
use storage_current::laws::{own_current_proofs_are_accepted, own_current_proofs_are_read_again};
use storage_current::qmdb::current::proof::RangeProof;
use storage_merkle::laws::greatest_nodes_are_planned;
use storage_merkle::merkle::{Graftable, Location, Position, RangePlan};
use storage_ops::qmdb::Error;

/// What a snapshot's own proof of operations that stand there is written as is accepted with the chunks that they touch: in
/// each family, for each chunk size, where as many digests as it has are allowed.
pub fn own_ranges_are_accepted()
    ensures { OwnRangesAreAccepted }
{
    own_current_proofs_are_accepted();
    own_current_proofs_are_read_again();
}

/// Builds the proof of the operations of `plan`, writes it, and answers what [`check_range`] says of these bytes, of
/// `operations`, `chunks` and `root`. Where `status`, `get_node`, `floor` and `ops_root` are the parts of a snapshot, that is
/// what it says of the bytes of the snapshot's own proof: yes wherever `root` is that snapshot's canonical root, `operations`
/// are those of the plan's range and `chunks` those that they touch, and the proof has at most `max_digests` digests. With
/// the parts that a [`Snapshot`](crate::qmdb::current::Snapshot) hands out only out of memory is an error.
///
/// # Errors
///
/// Those of `RangeProof::build`, and `Memory`.
pub fn built_ranges_are_accepted<
    F: Graftable,
    H: Hasher,
    R: Readable<N>,
    G: Fn(Position<F>) -> Option<H::Digest>,
    const N: usize,
>(
    alloc: Global,
    status: &R,
    plan: RangePlan<F>,
    get_node: G,
    floor: Location<F>,
    ops_root: H::Digest,
    max_digests: usize,
    operations: &[&[u8]],
    chunks: &[&[u8]],
    root: &H::Digest,
) -> Result<bool, Error<F>>
    requires size { IsChunkSize N }
    requires callable { All (λ p. G.pre get_node p)
        (planned F.shape plan.leaves plan.start plan.end) }
    ensures asked { let g = grafting_of F.shape N in
        (s : Snapshot) → ArePartsOf H.Digest.text (G.post get_node) H.hash_of g plan
        (R.retained status.now) floor (H.Digest.text ops_root) s
        → IfOk result (λ yes. IsTrue yes
        ↔ IsAcceptedRange H.hash_of g F.has_pending H.Digest.size max_digests plan.start
        (own_range_text H.hash_of g F.has_pending s plan.start plan.end)
        (map (λ o. o.now) operations.now)
        (map (λ c. c.now) chunks.now) (H.Digest.text root.now)) }
    ensures accepted { let g = grafting_of F.shape N in
        (s : Snapshot) → IsSnapshot s
        → ArePartsOf H.Digest.text (G.post get_node) H.hash_of g plan (R.retained status.now) floor
        (H.Digest.text ops_root) s
        → H.Digest.text root.now ≡ canonical_root H.hash_of g s
        → plan.end ≡ plan.start + length operations.now
        → Holds g s plan.start (map (λ o. o.now) operations.now) (map (λ c. c.now) chunks.now)
        → HasFewDigests H.hash_of g s plan.start plan.end max_digests
        → IfOk result (λ yes. yes ≡ true) }
    ensures handed { let g = grafting_of F.shape N in
        (kept : KeptSnapshot) (s : Snapshot) → IsSnapshot s
        → AreSnapshotParts H.Digest.text (G.post get_node) H.hash_of g plan
        (R.retained status.now) floor (H.Digest.text ops_root) (H.Digest.text root.now) kept s
        → plan.end ≡ plan.start + length operations.now
        → Holds g s plan.start (map (λ o. o.now) operations.now) (map (λ c. c.now) chunks.now)
        → HasFewDigests H.hash_of g s plan.start plan.end max_digests
        → MatchResult result (λ yes. yes ≡ true) (λ error. error ≡ Error.Memory) }
    ensures why { let g = grafting_of F.shape N in
        IfErr result (IsNotBuilt (G.post get_node) g plan (R.retained status.now)) }
{
    own_ranges_are_accepted();
    greatest_nodes_are_planned();
    let start = plan.start();
    let proof = match RangeProof::build::<H, R, G, N>(
        alloc, status, plan, get_node, floor, ops_root,
    ) {
        Ok(proof) => proof,
        Err(error) => return Err(error),
    };
    let mut bytes = Vec::new(alloc);
    proof.write(&mut bytes)?;
    let yes = check_range::<F, H>(
        alloc,
        &bytes,
        N,
        max_digests,
        start,
        operations,
        chunks,
        root,
    )?;
    Ok(yes)
}
