//! A snapshot's own proofs: of one operation, and of a range of them with the chunks of bits that it touches.

ghost use Rattle.std.specs.Prelude.{◌≡◌, ◌+◌, ◌-◌, ◌*◌, ◌/◌, ◌^◌, Bool, List, length, option_map, IfOk};
ghost use Rattle.std.specs.List.{All};
ghost use Rattle.storage_merkle.specs.Plans.{planned};
ghost use Rattle.storage_bitmap.specs.Chunks.{IsChunkSize, IsRest, chunks_from};
ghost use Rattle.storage_current.specs.BuiltProofs.{ArePartsOf};
ghost use Rattle.storage_current.specs.Held.{operation_proof_of, range_proof_of};
ghost use Rattle.storage_current.specs.KeptSnapshots.{StandsForSnapshot};
ghost use Rattle.storage_current.specs.NodeLists.{told_by};
ghost use Rattle.storage_current.specs.Snapshots.{Grafting, IsSnapshot, Snapshot as SnapshotOf, first_chunk, grafting_of, height, own_operation_proof, own_range_proof};

use std::alloc::Global;
use std::ops::Range;
use storage_bitmap::bitmap::{Prunable, Readable};
use storage_codec::NoMemory;
use storage_codec::digest::{Digest, Hasher};
use storage_current::qmdb::current::proof::constant::OperationProof;
use storage_current::qmdb::current::proof::{RangeProof, touched_chunks};
use storage_current::qmdb::current::{Snapshot, grafting};
use storage_merkle::merkle::{ElementPlan, Graftable, Location, Position, RangePlan};

/// Returns the proof of the location of `plan`, from the digests that `get_node` answers for the planned positions:
/// those of the grafted view of a snapshot, with the bits `status`, the floor `floor` and the operations root
/// `ops_root`.
fn proof_by<
    F: Graftable,
    D: Digest,
    H: Hasher<Digest = D>,
    G: Fn(Position<F>) -> Option<D>,
    const N: usize,
>(
    alloc: Global,
    status: &Prunable<N>,
    plan: ElementPlan<F>,
    get_node: G,
    floor: Location<F>,
    ops_root: D,
) -> Result<OperationProof<F, D, N>, NoMemory>
    requires { All (λ p. G.pre get_node p) (planned F.shape plan.leaves plan.start plan.end) }
    ensures { let g = grafting_of F.shape N in
        IfOk result (λ proof. (s : SnapshotOf) → ArePartsOf D.text (G.post get_node) H.hash_of g plan
        status.now floor (D.text ops_root) s
        → operation_proof_of D.text (λ c. c) proof ≡ own_operation_proof H.hash_of g s plan.start) }
{
    let proof = OperationProof::build::<H, Prunable<N>, G>(
        alloc, status, plan, get_node, floor, ops_root,
    );
    match proof {
        Ok(proof) => Ok(proof),
        Err(_) => Err(NoMemory),
    }
}

/// Returns the own proof of the operation at `location` of `snapshot`, which has `leaves` operations and the floor
/// `floor`. It is planned once, and each digest is read if it is used.
pub(crate) fn own_proof<F: Graftable, H: Hasher, const N: usize>(
    alloc: Global,
    snapshot: &Snapshot<F, H, N>,
    leaves: Location<F>,
    floor: Location<F>,
    location: Location<F>,
) -> Result<OperationProof<F, H::Digest, N>, NoMemory>
    ensures { let g = grafting_of F.shape N in
        IfOk result (λ proof. (s : SnapshotOf) → IsSnapshot s
        → StandsForSnapshot H.hash_of g snapshot.now s → leaves ≡ length s.operations → floor
        ≡ s.floor
        → operation_proof_of H.Digest.text (λ c. c) proof
        ≡ own_operation_proof H.hash_of g s location) }
{
    let Ok(plan) = ElementPlan::new(alloc, leaves, location) else {
        return Err(NoMemory);
    };
    let get_node = |position: Position<F>|
        ensures { option_map H.Digest.text result ≡ told_by snapshot.entry.now.nodes position }
    { snapshot.get_node(position) };
    let status = snapshot.status();
    let ops_root = snapshot.ops_root();
    proof_by::<F, H::Digest, H, _, N>(alloc, status, plan, get_node, floor, ops_root)
}

/// Returns the proof of the locations of `plan`, from the digests that `get_node` answers for the planned positions:
/// those of the grafted view of a snapshot, with the bits `status`, the floor `floor` and the operations root
/// `ops_root`.
fn range_by<
    F: Graftable,
    D: Digest,
    H: Hasher<Digest = D>,
    G: Fn(Position<F>) -> Option<D>,
    const N: usize,
>(
    alloc: Global,
    status: &Prunable<N>,
    plan: RangePlan<F>,
    get_node: G,
    floor: Location<F>,
    ops_root: D,
) -> Result<RangeProof<F, D>, NoMemory>
    requires { All (λ p. G.pre get_node p) (planned F.shape plan.leaves plan.start plan.end) }
    ensures { let g = grafting_of F.shape N in
        IfOk result (λ proof. (s : SnapshotOf) → ArePartsOf D.text (G.post get_node) H.hash_of g plan
        status.now floor (D.text ops_root) s
        → range_proof_of D.text proof ≡ own_range_proof H.hash_of g s plan.start plan.end) }
{
    let proof = RangeProof::build::<H, Prunable<N>, G, N>(
        alloc, status, plan, get_node, floor, ops_root,
    );
    match proof {
        Ok(proof) => Ok(proof),
        Err(_) => Err(NoMemory),
    }
}

/// Returns the own proof of the operations at the locations of `range` of `snapshot`, which has `leaves` operations and
/// the floor `floor`. Each digest is read if it is used.
pub(crate) fn own_range<F: Graftable, H: Hasher, const N: usize>(
    alloc: Global,
    snapshot: &Snapshot<F, H, N>,
    leaves: Location<F>,
    floor: Location<F>,
    range: Range<Location<F>>,
) -> Result<RangeProof<F, H::Digest>, NoMemory>
    ensures { let g = grafting_of F.shape N in
        IfOk result (λ proof. (s : SnapshotOf) → IsSnapshot s
        → StandsForSnapshot H.hash_of g snapshot.now s → leaves ≡ length s.operations → floor
        ≡ s.floor
        → range_proof_of H.Digest.text proof
        ≡ own_range_proof H.hash_of g s range.start range.end) }
{
    let Ok(plan) = RangePlan::new(alloc, leaves, range) else {
        return Err(NoMemory);
    };
    let get_node = |position: Position<F>|
        ensures { option_map H.Digest.text result ≡ told_by snapshot.entry.now.nodes position }
    { snapshot.get_node(position) };
    let status = snapshot.status();
    let ops_root = snapshot.ops_root();
    range_by::<F, H::Digest, H, _, N>(alloc, status, plan, get_node, floor, ops_root)
}

/// Returns the chunks that the bits of `status` from `start` to before `end` touch. There are such bits, and none of these
/// chunks is pruned.
pub(crate) fn chunks_touched<const N: usize>(
    alloc: Global,
    status: &Prunable<N>,
    start: u64,
    end: u64,
) -> Result<Vec<[u8; N]>, NoMemory>
    requires { IsChunkSize N }
    ensures { (g : Grafting) (bits : List Bool) → g.bytes ≡ N
        → IsRest N status.now bits
        → IfOk result (λ chunks. chunks.items ≡ chunks_from N bits
        ((end - 1) / 2 ^ height g - first_chunk g start + 1) (first_chunk g start)) }
{
    if end <= start || status.len() < end {
        return Err(NoMemory);
    }
    let pruned = status.pruned_chunks();
    let chunk = (start >> grafting::height::<N>()) as usize;
    if chunk < pruned {
        return Err(NoMemory);
    }
    Ok(touched_chunks(alloc, status, start, end)?)
}

/// Returns how many bits of `status` are pruned.
pub(crate) fn pruned_bits<const N: usize>(status: &Prunable<N>) -> u64
    ensures size { IsChunkSize N }
    ensures count { result ≡ status.now.pruned * (8 * N) }
{
    let chunks = status.pruned_chunks() as u64;
    let width = 8 * N as u64;
    // they are not more than all bits
    chunks.saturating_mul(width).min(status.len())
}
