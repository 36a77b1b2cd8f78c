//! What a store and a log serve of a snapshot, as a caller gets it: a proof, with its operations and their chunks, or the refusal.

ghost use Rattle.std.specs.Prelude.{◌≡◌, ◌+◌, ◌^◌, ◌<◌};
ghost use Rattle.storage_bitmap.specs.Chunks.{IsChunkSize};

use crate::faulty::{Faulty, Log};
use crate::kept::Kept;
use crate::stores::{Call, Counts, Left, Wanted};
use crate::trees::{grafted_tree, operations_nodes, status_of};
use commonware_storage::bitmap::{Prunable, Readable as _};
use commonware_storage::codec::Encode;
use commonware_storage::digest::Hasher;
use commonware_storage::merkle::{self, Graftable, Location, Position, Storage as _};
use commonware_storage::qmdb::current::Contiguous as _;
use commonware_storage::qmdb::current::grafting::{self, Storage};
use commonware_storage::qmdb::current::proof::constant::OperationProof;
use commonware_storage::qmdb::current::proof::{RangeProof, RangeProofSpec};
use replay_columns::answers::Answer;
use replay_columns::columns::{Fault, List};
use std::alloc::Global;

/// More failures than a case has.
const MANY: u64 = 1000;

/// Adds what is told where the store has the digests of the grafted view.
pub fn from_view<F: Graftable, H: Hasher, const N: usize>(
    alloc: Global,
    kept: &Kept<F, H, N>,
    call: &Call,
    left: Left,
    out: &mut String,
) -> Result<Counts, Fault> {
    let status = status_of::<N>(alloc, kept.digits.as_str(), call.pruned)?;
    let mut nodes = Vec::new(alloc);
    nodes.extend_from_slice(&kept.nodes)?;
    let size = call.size.unwrap_or(nodes.len() as u64);
    let mut store = Faulty::new(nodes, size, call.lacks, left.nodes, left.codes.0);
    let (floor, ops_root) = (kept.floor, kept.snapshot.ops_root());
    let log_failures = tell_served::<F, H, Faulty<H::Digest>, N>(
        alloc,
        call,
        left,
        &status,
        floor,
        ops_root,
        &kept.nodes,
        &mut store,
        out,
    )?;
    Ok(Counts {
        log_failures,
        calls: store.calls(),
        failures: store.failed(),
    })
}

/// Adds what is told where the store is a tree over the chunks, of which the first `pruned` are pruned or which has
/// no nodes, and one over the operations.
pub fn from_trees<F: Graftable, H: Hasher, const N: usize>(
    alloc: Global,
    kept: &Kept<F, H, N>,
    call: &Call,
    pruned: Option<u64>,
    left: Left,
    out: &mut String,
) -> Result<Counts, Fault> {
    let status = status_of::<N>(alloc, kept.digits.as_str(), call.pruned)?;
    let grafted = grafted_tree(alloc, &kept.snapshot, pruned)?;
    let nodes = operations_nodes::<F, H>(alloc, &kept.operations)?;
    let size = nodes.len() as u64;
    let mut store = Faulty::new(nodes, size, call.lacks, left.nodes, left.codes.0);
    let mut both = Storage::<F, H, _, _>::new(&grafted, grafting::height::<N>(), &mut store);
    let (floor, ops_root) = (kept.floor, kept.snapshot.ops_root());
    let log_failures = tell_served::<F, H, _, N>(
        alloc,
        call,
        left,
        &status,
        floor,
        ops_root,
        &kept.nodes,
        &mut both,
        out,
    )?;
    Ok(Counts {
        log_failures,
        calls: store.calls(),
        failures: store.failed(),
    })
}

/// Adds what a store tells of a snapshot with these bits, this floor, this root of its operations and these nodes; how
/// often the log failed.
fn tell_served<F: Graftable, H: Hasher, S: merkle::Storage<F, Digest = H::Digest>, const N: usize>(
    alloc: Global,
    call: &Call,
    left: Left,
    status: &Prunable<N>,
    floor: u64,
    ops_root: H::Digest,
    own: &[H::Digest],
    store: &mut S,
    out: &mut String,
) -> Result<u64, Fault>
    requires chunk { IsChunkSize N }
    requires fails { S.failed store.old + 1 < 2 ^ 64 }
{
    match call.wanted {
        Wanted::Nodes => tell_nodes(own, store, left.codes.0, out)?,
        Wanted::Operation(at) => {
            tell_operation::<F, H, S, N>(alloc, status, store, floor, ops_root, at, out)?
        }
        Wanted::Range(start, end) => {
            tell_range::<F, H, S, N>(alloc, status, store, floor, ops_root, (start, end), out)?
        }
        Wanted::WithOperations(start, most) => {
            let mut log = Log::new(call.first, status.len(), left.items, left.codes.1);
            let range = (start, most);
            tell_operations::<F, H, S, N>(
                alloc, status, store, floor, ops_root, &mut log, range, out,
            )?;
            return Ok(log.failures());
        }
    }
    Ok(0)
}

/// Adds how many nodes a store has, where each read of them is answered as `own` says, and after them there is none;
/// else the first position whose read fails, with this code, and how many do.
fn tell_nodes<F: Graftable, S: merkle::Storage<F>>(
    own: &[S::Digest],
    store: &mut S,
    code: u32,
    out: &mut String,
) -> Result<(), Fault> {
    let nodes = store.size().as_u64();
    let mut first = None;
    for place in 0..nodes.saturating_add(1) {
        let digest = own.get(place as usize).copied();
        if !is_answered(store, Position::new(place), digest, code)? && first.is_none() {
            first = Some(place);
        }
    }
    match first {
        None => nodes.tell(out),
        Some(first) => Ok(write!(out, "{first}:{}", store.failures())?),
    }
}

/// Returns whether a store answers with the digest `own` at a position; else it tells its fault, with this code, and
/// counts one.
fn is_answered<F: Graftable, S: merkle::Storage<F>>(
    store: &mut S,
    position: Position<F>,
    own: Option<S::Digest>,
    fault: u32,
) -> Result<bool, Fault> {
    let before = store.failures();
    if before > MANY {
        return Err(Fault::Malformed);
    }
    let answer = store.get_node(position);
    match (answer, store.failures() > before) {
        (Ok(node), false) if node == own => Ok(true),
        (Err(merkle::Error::Source(code)), true) if code == fault => Ok(false),
        (Err(merkle::Error::Memory), false) => Err(Fault::Memory),
        _ => Err(Fault::Differs),
    }
}

/// Adds the proof of the operation at a location from a store, or the refusal.
fn tell_operation<
    F: Graftable,
    H: Hasher,
    S: merkle::Storage<F, Digest = H::Digest>,
    const N: usize,
>(
    alloc: Global,
    status: &Prunable<N>,
    store: &mut S,
    floor: u64,
    ops_root: H::Digest,
    location: u64,
    out: &mut String,
) -> Result<(), Fault>
    requires chunk { IsChunkSize N }
    requires fails { S.failed store.old + 1 < 2 ^ 64 }
{
    match OperationProof::new::<H, Prunable<N>, S>(
        alloc,
        status,
        store,
        Location::new(floor),
        Location::new(location),
        ops_root,
    ) {
        Ok(proof) => proof.encode(alloc)?.tell(out),
        Err(error) => error.tell(out),
    }
}

/// Adds the proof of the operations from `range.0` to before `range.1` from a store, or the refusal.
fn tell_range<F: Graftable, H: Hasher, S: merkle::Storage<F, Digest = H::Digest>, const N: usize>(
    alloc: Global,
    status: &Prunable<N>,
    store: &mut S,
    floor: u64,
    ops_root: H::Digest,
    range: (u64, u64),
    out: &mut String,
) -> Result<(), Fault>
    requires fails { S.failed store.old + 1 < 2 ^ 64 }
{
    match RangeProof::new::<H, Prunable<N>, S, N>(
        alloc,
        status,
        store,
        Location::new(floor),
        Location::new(range.0)..Location::new(range.1),
        ops_root,
    ) {
        Ok(proof) => proof.encode(alloc)?.tell(out),
        Err(error) => error.tell(out),
    }
}

/// Adds the proof of at most `range.1` operations from `range.0` on from a store, with these from a log and their
/// chunks, or the refusal.
fn tell_operations<
    F: Graftable,
    H: Hasher,
    S: merkle::Storage<F, Digest = H::Digest>,
    const N: usize,
>(
    alloc: Global,
    status: &Prunable<N>,
    store: &mut S,
    floor: u64,
    ops_root: H::Digest,
    log: &mut Log,
    range: (u64, u64),
    out: &mut String,
) -> Result<(), Fault>
    requires chunk { IsChunkSize N }
    requires store { S.failed store.old + 1 < 2 ^ 64 }
    requires log { log.old.failures ≡ 0 }
{
    if range.1 < 1 {
        return Err(Fault::Malformed);
    }
    let spec = RangeProofSpec {
        start_loc: Location::new(range.0),
        max_ops: range.1,
        inactivity_floor: Location::new(floor),
        ops_root,
    };
    match RangeProof::new_with_ops::<H, Prunable<N>, _, S, N>(alloc, status, store, log, spec) {
        Ok((proof, items, chunks)) => {
            (proof.encode(alloc)?, List(items), List(chunks)).tell(out)
        }
        Err(error) => error.tell(out),
    }
}
