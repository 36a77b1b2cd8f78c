//! What is shown of a snapshot: its canonical root, and its own proof of an operation.

ghost use Rattle.std.specs.Prelude.{◌≡◌, ◌<◌, ◌≤◌, ◌+◌, ◌⊎◌, ℕ, List, length, Some, None, MatchOption, option_map, IfOk, IfErr, IfSome, OnOk};
ghost use Rattle.std.specs.List.{All};
ghost use Rattle.std.specs.Option.{IsSomeAnd};
ghost use Rattle.storage_merkle.specs.Plans.{planned};
ghost use Rattle.storage_bitmap.specs.Chunks.{IsChunkSize};
ghost use Rattle.storage_current.specs.BuiltProofs.{ArePartsOf};
ghost use Rattle.storage_current.specs.Held.{operation_proof_of};
ghost use Rattle.storage_current.specs.KeptSnapshots.{StandsForSnapshot};
ghost use Rattle.storage_current.specs.NodeLists.{IsTreeOver, told_by};
ghost use Rattle.storage_current.specs.Snapshots.{IsSnapshot, Snapshot as SnapshotOf, grafting_of, own_operation_proof};
ghost use Rattle.gawerunoa_cli.specs.Shown.{IsRefused, IsShown, IsWithin, own_text, snapshot_of};

use crate::operations::Operations;
use std::alloc::Global;
use storage_bitmap::bitmap::Prunable;
use storage_codec::NoMemory;
use storage_codec::codec::Encode;
use storage_codec::digest::{Digest, Hasher};
use storage_current::qmdb::current::Snapshot;
use storage_current::qmdb::current::proof::constant::OperationProof;
use storage_merkle::merkle::{ElementPlan, Graftable, Location, Position};

/// A snapshot with its roots, and what its own proof of an operation is written as, where one was asked for.
#[derive(Drop)]
pub struct Shown<F: Graftable, H: Hasher, const N: usize> {
    /// The snapshot.
    pub snapshot: Snapshot<F, H, N>,
    /// The bytes of the proof.
    pub proof: Option<Vec<u8>>,
}

/// Why nothing is shown: the first reason that holds, in the order of the variants; out of memory comes at any point.
#[derive(Clone, Copy)]
pub enum Refusal {
    /// The floor is past the operations, of which there are so many.
    Floor(u64),
    /// The location is at or past the operations, of which there are so many.
    Location(u64),
    /// Out of memory.
    Memory,
}

impl From<NoMemory> for Refusal {
    ghost use Rattle.gawerunoa_cli.specs.declared.shown.Refusal.TheVariants.{Memory};

    ghost from_gives = { λ _ refusal. refusal ≡ Memory };

    fn from(_error: NoMemory) -> Refusal {
        Refusal::Memory
    }
}

/// Returns the snapshot of `operations` with the floor `floor`, over trees of the family `F` and chunks of `N` bytes, and
/// its own proof of the operation at the location `at`, where one is named.
///
/// # Errors
///
/// The first of: `Floor` if `floor` is greater than the number of operations; `Location` if there is none at `at`;
/// `Memory`, which may come at any point.
pub fn show<F: Graftable, H: Hasher, const N: usize>(
    alloc: Global,
    operations: Operations<F, H>,
    floor: u64,
    at: Option<u64>,
) -> Result<Shown<F, H, N>, Refusal>
    requires { IsChunkSize N }
    ensures shown { IfOk result (λ it. (list : List (List ℕ))
        → IsTreeOver H.hash_of F.shape operations.tree list
        → IsShown H.hash_of (grafting_of F.shape N) F.has_pending
        (snapshot_of list operations.bits.items floor) at it.snapshot.root
        (option_map (λ p. p.items) it.proof)) }
    ensures within { OnOk result (IsWithin (length operations.bits.items) floor at) }
    ensures why { IfErr result (IsRefused (length operations.bits.items) floor at) }
{
    let count = operations.count();
    if floor > count {
        return Err(Refusal::Floor(count));
    }
    let plan = plan_at::<F>(alloc, count, at)?;
    let shown = show_planned::<F, H, N>(alloc, operations, floor, plan)?;
    Ok(shown)
}

/// Returns the same with the proof that `plan` is for, where there is one, which is over as many operations.
fn show_planned<F: Graftable, H: Hasher, const N: usize>(
    alloc: Global,
    operations: Operations<F, H>,
    floor: u64,
    plan: Option<ElementPlan<F>>,
) -> Result<Shown<F, H, N>, NoMemory>
    requires { IsChunkSize N }
    ensures { IfOk result (λ it. (list : List (List ℕ))
        → IsTreeOver H.hash_of F.shape operations.tree list
        → IfSome plan (λ p. p.leaves ≡ length operations.bits.items)
        → IsShown H.hash_of (grafting_of F.shape N) F.has_pending
        (snapshot_of list operations.bits.items floor) (option_map (λ p. p.start) plan)
        it.snapshot.root (option_map (λ p. p.items) it.proof)) }
{
    let snapshot = operations.snapshot::<N>(alloc, floor)?;
    let proof = planned_proof(alloc, &snapshot, floor, plan)?;
    Ok(Shown { snapshot, proof })
}

/// Returns what the proof of `snapshot`, which has the floor `floor`, that `plan` is for is written as, where there is a
/// plan.
fn planned_proof<F: Graftable, H: Hasher, const N: usize>(
    alloc: Global,
    snapshot: &Snapshot<F, H, N>,
    floor: u64,
    plan: Option<ElementPlan<F>>,
) -> Result<Option<Vec<u8>>, NoMemory>
    requires { IsChunkSize N }
    ensures { let g = grafting_of F.shape N in IfOk result (λ proof. (s : SnapshotOf)
        → IsSnapshot s → StandsForSnapshot H.hash_of g snapshot.now s → floor ≡ s.floor
        → IfSome plan (λ p. p.leaves ≡ length s.operations)
        → IsShown H.hash_of g F.has_pending s (option_map (λ p. p.start) plan) snapshot.now.root
        (option_map (λ p. p.items) proof)) }
{
    let Some(plan) = plan else {
        return Ok(None);
    };
    let proof = own_proof(alloc, snapshot, plan, Location::new(floor))?;
    Ok(Some(proof))
}

/// Returns the plan of a proof of the operation at the location `at` of `count` operations; no plan where none is named.
fn plan_at<F: Graftable>(
    alloc: Global,
    count: u64,
    at: Option<u64>,
) -> Result<Option<ElementPlan<F>>, Refusal>
    ensures planned { IfOk result (λ plan. MatchOption at (plan ≡ None) (λ location.
        (location < count)
        × (plan ≡ Some (record { leaves = count; start = location; end = location + 1 })))) }
    ensures why { IfErr result (λ refusal. (refusal ≡ Refusal.Memory)
        ⊎ ((refusal ≡ Refusal.Location count) × IsSomeAnd at (λ location. count ≤ location))) }
{
    let Some(location) = at else {
        return Ok(None);
    };
    if location >= count {
        return Err(Refusal::Location(count));
    }
    match ElementPlan::new(alloc, Location::new(count), Location::new(location)) {
        Ok(plan) => Ok(Some(plan)),
        // that many operations fit in no memory
        Err(_) => Err(Refusal::Memory),
    }
}

/// Returns what the own proof of the operation that `plan` is for is written as, of `snapshot`, which has the floor
/// `floor`.
fn own_proof<F: Graftable, H: Hasher, const N: usize>(
    alloc: Global,
    snapshot: &Snapshot<F, H, N>,
    plan: ElementPlan<F>,
    floor: Location<F>,
) -> Result<Vec<u8>, NoMemory>
    requires { IsChunkSize N }
    ensures { let g = grafting_of F.shape N in
        IfOk result (λ bytes. (s : SnapshotOf) → IsSnapshot s
        → StandsForSnapshot H.hash_of g snapshot.now s → plan.leaves ≡ length s.operations
        → floor ≡ s.floor
        → bytes.items ≡ own_text H.hash_of g F.has_pending s plan.start) }
{
    let get_node = |position: Position<F>|
        ensures { option_map H.Digest.text result ≡ told_by snapshot.entry.now.nodes position }
    { snapshot.get_node(position) };
    let status = snapshot.status();
    let ops_root = snapshot.ops_root();
    let proof = proof_by::<F, H::Digest, H, _, N>(alloc, status, plan, get_node, floor, ops_root)?;
    proof.encode(alloc)
}

/// Returns the proof of the operation that `plan` is for, from the digests that `get_node` answers for the planned
/// positions: those of the grafted view of a snapshot, with the bits `status`, the floor `floor` and the operations root
/// `ops_root`.
fn proof_by<
    F: Graftable,
    D: Digest,
    H: Hasher<Digest = D>,
    G: Fn(Position<F>) -> Option<D>,
    const N: usize,
>(
    alloc: Global,
    status: &Prunable<N>,
    plan: ElementPlan<F>,
    get_node: G,
    floor: Location<F>,
    ops_root: D,
) -> Result<OperationProof<F, D, N>, NoMemory>
    requires { All (λ p. G.pre get_node p) (planned F.shape plan.leaves plan.start plan.end) }
    ensures { let g = grafting_of F.shape N in
        IfOk result (λ proof. (s : SnapshotOf) → ArePartsOf D.text (G.post get_node) H.hash_of g plan
        status.now floor (D.text ops_root) s
        → operation_proof_of D.text (λ c. c) proof ≡ own_operation_proof H.hash_of g s plan.start) }
{
    let proof = OperationProof::build::<H, Prunable<N>, G>(
        alloc, status, plan, get_node, floor, ops_root,
    );
    match proof {
        Ok(proof) => Ok(proof),
        Err(_) => Err(NoMemory),
    }
}
