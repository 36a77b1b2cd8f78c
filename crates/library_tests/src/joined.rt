//! Proofs from a tree over chunks and a tree over the operations, read as one: the laws of such trees and the contracts of the calls
//! tell that each is the snapshot's own, over a tree in memory and over one that keeps pins and leaves alone. The proofs of one
//! snapshot are made too: a client accepts them.

ghost use Rattle.std.specs.Prelude.{◌≡◌, ℕ, ◌+◌, ◌<◌, ◌≤◌, ◌^◌, [], List, length, map, get_or, option_map, IfOk, IfSome, IsSome};
ghost use Rattle.std.specs.List.{Contains};
ghost use Rattle.storage_merkle.specs.Kept.{StandsFor};
ghost use Rattle.storage_merkle.specs.Plans.{planned};
ghost use Rattle.storage_merkle.specs.Shape.{size};
ghost use Rattle.storage_bitmap.specs.Chunks.{IsChunkSize, Retained, bit_count};
ghost use Rattle.storage_current.specs.CombinedViews.{AnswersAreTrue, AreAnswersOf, AreFirstGraftedLeaves, AreGraftedLeaves, EachIsCoverable, HavePlanned, chunk_node, grafted_node, operations_node};
ghost use Rattle.storage_current.specs.GraftedTrees.{Keeps};
ghost use Rattle.storage_current.specs.Held.{range_proof_of};
ghost use Rattle.storage_current.specs.Served.{AreServedOf, end_of};
ghost use Rattle.storage_current.specs.Snapshots.{Holds, IsServed, IsSnapshot, Snapshot, graftable, grafting_of, height, own_range_proof};
ghost use Rattle.library_tests.specs.Joined.{AreOtherParts};

use crate::grafted::{HEIGHT, append};
use crate::snapshots::{
    FLOOR, node_at, operations, ops_root_of, range_proof, root_of, snapshot_of, tree_over,
};
use crate::stops::{done, some, there};
use std::alloc::Global;
use std::ops::Range;
use std::process::Abort;
use storage_bitmap::bitmap::{self, Prunable};
use storage_codec::codec::FixedBytes;
use storage_codec::digest::{Hasher, Sha256};
use storage_current::laws::combined::{
    combined_stores_serve_the_view, joined_trees_answer_the_view, joined_trees_are_the_view,
    planned_nodes_serve_a_range,
};
use storage_current::laws::grafted_trees::{
    grafted_trees_keep_the_view, memory_trees_keep_the_view, nodes_inside_no_pin_are_coverable,
};
use storage_current::qmdb::current::grafting::{self, GraftedTree};
use storage_current::qmdb::current::proof::{RangeProof, RangeProofSpec};
use storage_current::qmdb::current::{self, Contiguous};
use storage_merkle::merkle::{
    self, Graftable, Location, Mem, Position, Readable, Storage as _, mmr,
};

type Digest = FixedBytes<32>;

/// Returns the proof of the operations at the locations of `range`, from `storage`; none if it is refused.
fn proof_served<
    F: Graftable,
    H: Hasher,
    S: merkle::Storage<F, Digest = H::Digest>,
    B: bitmap::Readable<N>,
    const N: usize,
>(
    alloc: Global,
    status: &B,
    storage: &mut S,
    floor: Location<F>,
    range: Range<Location<F>>,
    ops_root: H::Digest,
) -> Option<RangeProof<F, H::Digest>>
    requires { S.failed storage.old + 1 < 2 ^ 64 }
    ensures { let g = grafting_of F.shape N in
        IfSome result (λ proof. (s : Snapshot)
        → AreServedOf (S.nodes storage.old) (S.node storage.old) g range.start range.end
        (B.retained status.now) H.Digest.text H.hash_of floor (H.Digest.text ops_root) s
        → range_proof_of H.Digest.text proof
        ≡ own_range_proof H.hash_of g s range.start range.end) }
{
    match RangeProof::new::<H, B, S, N>(alloc, status, storage, floor, range, ops_root) {
        Ok(proof) => Some(proof),
        Err(_) => None,
    }
}

/// Returns the proof of the operations that `spec` asks for, from `storage`, with these from `log`; none if it is
/// refused.
fn proof_with_operations_served<
    F: Graftable,
    H: Hasher,
    S: merkle::Storage<F, Digest = H::Digest>,
    B: bitmap::Readable<N>,
    L: Contiguous,
    const N: usize,
>(
    alloc: Global,
    status: &B,
    storage: &mut S,
    log: &mut L,
    spec: RangeProofSpec<F, H::Digest>,
) -> Option<(RangeProof<F, H::Digest>, Vec<L::Item>, Vec<[u8; N]>)>
    requires store { S.failed storage.old + 1 < 2 ^ 64 }
    requires log { L.failed log.old + 1 < 2 ^ 64 }
    requires some { 1 ≤ spec.max_ops }
    ensures { let g = grafting_of F.shape N in
        let high = end_of spec.start_loc spec.max_ops (bit_count N (B.retained status.now)) in
        IfSome result (λ answer. (s : Snapshot)
        → AreServedOf (S.nodes storage.old) (S.node storage.old) g spec.start_loc high
        (B.retained status.now) H.Digest.text H.hash_of spec.inactivity_floor
        (H.Digest.text spec.ops_root) s
        → (range_proof_of H.Digest.text answer.0 ≡ own_range_proof H.hash_of g s spec.start_loc high)
        × (((l : ℕ) → spec.start_loc ≤ l → l < high → L.item log.old l ≡ get_or s.operations l [])
        → Holds g s spec.start_loc (map L.text answer.1.items) answer.2.items)) }
{
    match RangeProof::new_with_ops::<H, B, L, S, N>(alloc, status, storage, log, spec) {
        Ok(answer) => Some(answer),
        Err(_) => None,
    }
}

/// Returns the proof of the operations at the locations of `range`, from `chunks` and `operations`, read as one.
fn proof_from<
    F: Graftable,
    H: Hasher,
    C: Readable<Family = F, Digest = H::Digest>,
    S: merkle::Storage<F, Digest = H::Digest>,
    B: bitmap::Readable<N>,
    const N: usize,
>(
    alloc: Global,
    status: &B,
    chunks: &C,
    operations: &mut S,
    floor: Location<F>,
    range: Range<Location<F>>,
    ops_root: H::Digest,
) -> Option<RangeProof<F, H::Digest>>
    requires size { IsChunkSize N }
    requires fails { S.failed operations.old + 1 < 2 ^ 64 }
    ensures { let g = grafting_of F.shape N in
        IfSome result (λ proof. (s : Snapshot)
        → AnswersAreTrue H.Digest.text F.shape (graftable g (length s.operations))
        (grafted_node H.hash_of g s) (C.node chunks.now)
        → AreOtherParts H.Digest.text H.hash_of g (S.nodes operations.old) (S.node operations.old)
        (B.retained status.now) floor (H.Digest.text ops_root) s
        → range_proof_of H.Digest.text proof
        ≡ own_range_proof H.hash_of g s range.start range.end) }
{
    joined_trees_answer_the_view::<F, H, N>();
    let height = grafting::height::<N>();
    let mut both = grafting::Storage::<F, H, C, S>::new(chunks, height, operations);
    proof_served::<F, H, _, B, N>(alloc, status, &mut both, floor, range, ops_root)
}

/// Returns the proof of the operations that `spec` asks for, with these from `log`, from `chunks` and `operations`,
/// read as one.
fn proof_with_operations_from<
    F: Graftable,
    H: Hasher,
    C: Readable<Family = F, Digest = H::Digest>,
    S: merkle::Storage<F, Digest = H::Digest>,
    B: bitmap::Readable<N>,
    L: Contiguous,
    const N: usize,
>(
    alloc: Global,
    status: &B,
    chunks: &C,
    operations: &mut S,
    log: &mut L,
    spec: RangeProofSpec<F, H::Digest>,
) -> Option<(RangeProof<F, H::Digest>, Vec<L::Item>, Vec<[u8; N]>)>
    requires size { IsChunkSize N }
    requires fails { S.failed operations.old + 1 < 2 ^ 64 }
    requires log { L.failed log.old + 1 < 2 ^ 64 }
    requires some { 1 ≤ spec.max_ops }
    ensures { let g = grafting_of F.shape N in
        let high = end_of spec.start_loc spec.max_ops (bit_count N (B.retained status.now)) in
        IfSome result (λ answer. (s : Snapshot)
        → AnswersAreTrue H.Digest.text F.shape (graftable g (length s.operations))
        (grafted_node H.hash_of g s) (C.node chunks.now)
        → AreOtherParts H.Digest.text H.hash_of g (S.nodes operations.old) (S.node operations.old)
        (B.retained status.now) spec.inactivity_floor (H.Digest.text spec.ops_root) s
        → (range_proof_of H.Digest.text answer.0 ≡ own_range_proof H.hash_of g s spec.start_loc high)
        × (((l : ℕ) → spec.start_loc ≤ l → l < high → L.item log.old l ≡ get_or s.operations l [])
        → Holds g s spec.start_loc (map L.text answer.1.items) answer.2.items)) }
{
    joined_trees_answer_the_view::<F, H, N>();
    let height = grafting::height::<N>();
    let mut both = grafting::Storage::<F, H, C, S>::new(chunks, height, operations);
    proof_with_operations_served::<F, H, _, B, L, N>(alloc, status, &mut both, log, spec)
}

/// Returns the same from a tree in memory over the graftable chunks.
fn proof_from_memory<
    F: Graftable,
    H: Hasher,
    S: merkle::Storage<F, Digest = H::Digest>,
    B: bitmap::Readable<N>,
    const N: usize,
>(
    alloc: Global,
    status: &B,
    chunks: &Mem<F, H::Digest>,
    operations: &mut S,
    floor: Location<F>,
    range: Range<Location<F>>,
    ops_root: H::Digest,
) -> Option<RangeProof<F, H::Digest>>
    requires size { IsChunkSize N }
    requires fails { S.failed operations.old + 1 < 2 ^ 64 }
    ensures { let g = grafting_of F.shape N in
        IfSome result (λ proof. (s : Snapshot) (leaves : List (List ℕ))
        → AreGraftedLeaves H.hash_of g s leaves
        → StandsFor H.Digest.text F.shape (λ list k a. chunk_node H.hash_of g list a k) chunks.now
        leaves
        → AreOtherParts H.Digest.text H.hash_of g (S.nodes operations.old) (S.node operations.old)
        (B.retained status.now) floor (H.Digest.text ops_root) s
        → range_proof_of H.Digest.text proof
        ≡ own_range_proof H.hash_of g s range.start range.end) }
{
    memory_trees_keep_the_view::<F, H, N>(chunks);
    proof_from::<F, H, Mem<F, H::Digest>, S, B, N>(
        alloc, status, chunks, operations, floor, range, ops_root,
    )
}

/// Returns the same, with the operations.
fn proof_with_operations_from_memory<
    F: Graftable,
    H: Hasher,
    S: merkle::Storage<F, Digest = H::Digest>,
    B: bitmap::Readable<N>,
    L: Contiguous,
    const N: usize,
>(
    alloc: Global,
    status: &B,
    chunks: &Mem<F, H::Digest>,
    operations: &mut S,
    log: &mut L,
    spec: RangeProofSpec<F, H::Digest>,
) -> Option<(RangeProof<F, H::Digest>, Vec<L::Item>, Vec<[u8; N]>)>
    requires size { IsChunkSize N }
    requires fails { S.failed operations.old + 1 < 2 ^ 64 }
    requires log { L.failed log.old + 1 < 2 ^ 64 }
    requires some { 1 ≤ spec.max_ops }
    ensures { let g = grafting_of F.shape N in
        let high = end_of spec.start_loc spec.max_ops (bit_count N (B.retained status.now)) in
        IfSome result (λ answer. (s : Snapshot) (leaves : List (List ℕ))
        → AreGraftedLeaves H.hash_of g s leaves
        → StandsFor H.Digest.text F.shape (λ list k a. chunk_node H.hash_of g list a k) chunks.now
        leaves
        → AreOtherParts H.Digest.text H.hash_of g (S.nodes operations.old) (S.node operations.old)
        (B.retained status.now) spec.inactivity_floor (H.Digest.text spec.ops_root) s
        → (range_proof_of H.Digest.text answer.0 ≡ own_range_proof H.hash_of g s spec.start_loc high)
        × (((l : ℕ) → spec.start_loc ≤ l → l < high → L.item log.old l ≡ get_or s.operations l [])
        → Holds g s spec.start_loc (map L.text answer.1.items) answer.2.items)) }
{
    memory_trees_keep_the_view::<F, H, N>(chunks);
    proof_with_operations_from::<F, H, Mem<F, H::Digest>, S, B, L, N>(
        alloc, status, chunks, operations, log, spec,
    )
}

/// Returns the same from a tree over the first graftable chunks that keeps pins and leaves alone.
fn proof_from_pruned<
    F: Graftable,
    H: Hasher,
    S: merkle::Storage<F, Digest = H::Digest>,
    B: bitmap::Readable<N>,
    const N: usize,
>(
    alloc: Global,
    status: &B,
    chunks: &GraftedTree<F, H::Digest>,
    operations: &mut S,
    floor: Location<F>,
    range: Range<Location<F>>,
    ops_root: H::Digest,
) -> Option<RangeProof<F, H::Digest>>
    requires size { IsChunkSize N }
    requires fails { S.failed operations.old + 1 < 2 ^ 64 }
    ensures { let g = grafting_of F.shape N in
        IfSome result (λ proof. (s : Snapshot) (leaves : List (List ℕ))
        → AreFirstGraftedLeaves H.hash_of g s leaves
        → Keeps H.Digest.text F.shape (λ list k a. chunk_node H.hash_of g list a k) chunks.now
        leaves
        → AreOtherParts H.Digest.text H.hash_of g (S.nodes operations.old) (S.node operations.old)
        (B.retained status.now) floor (H.Digest.text ops_root) s
        → range_proof_of H.Digest.text proof
        ≡ own_range_proof H.hash_of g s range.start range.end) }
{
    grafted_trees_keep_the_view::<F, H, N>(chunks);
    proof_from::<F, H, GraftedTree<F, H::Digest>, S, B, N>(
        alloc, status, chunks, operations, floor, range, ops_root,
    )
}

/// Returns the same, with the operations.
fn proof_with_operations_from_pruned<
    F: Graftable,
    H: Hasher,
    S: merkle::Storage<F, Digest = H::Digest>,
    B: bitmap::Readable<N>,
    L: Contiguous,
    const N: usize,
>(
    alloc: Global,
    status: &B,
    chunks: &GraftedTree<F, H::Digest>,
    operations: &mut S,
    log: &mut L,
    spec: RangeProofSpec<F, H::Digest>,
) -> Option<(RangeProof<F, H::Digest>, Vec<L::Item>, Vec<[u8; N]>)>
    requires size { IsChunkSize N }
    requires fails { S.failed operations.old + 1 < 2 ^ 64 }
    requires log { L.failed log.old + 1 < 2 ^ 64 }
    requires some { 1 ≤ spec.max_ops }
    ensures { let g = grafting_of F.shape N in
        let high = end_of spec.start_loc spec.max_ops (bit_count N (B.retained status.now)) in
        IfSome result (λ answer. (s : Snapshot) (leaves : List (List ℕ))
        → AreFirstGraftedLeaves H.hash_of g s leaves
        → Keeps H.Digest.text F.shape (λ list k a. chunk_node H.hash_of g list a k) chunks.now
        leaves
        → AreOtherParts H.Digest.text H.hash_of g (S.nodes operations.old) (S.node operations.old)
        (B.retained status.now) spec.inactivity_floor (H.Digest.text spec.ops_root) s
        → (range_proof_of H.Digest.text answer.0 ≡ own_range_proof H.hash_of g s spec.start_loc high)
        × (((l : ℕ) → spec.start_loc ≤ l → l < high → L.item log.old l ≡ get_or s.operations l [])
        → Holds g s spec.start_loc (map L.text answer.1.items) answer.2.items)) }
{
    grafted_trees_keep_the_view::<F, H, N>(chunks);
    proof_with_operations_from::<F, H, GraftedTree<F, H::Digest>, S, B, L, N>(
        alloc, status, chunks, operations, log, spec,
    )
}

/// Returns what `chunks` and `operations` as one have at `position`: where the one covers each node over chunks and the
/// other has each of its nodes, the digest of the grafted view.
fn node_from<
    F: Graftable,
    H: Hasher,
    C: Readable<Family = F, Digest = H::Digest>,
    S: merkle::Storage<F, Digest = H::Digest>,
    const N: usize,
>(
    chunks: &C,
    operations: &mut S,
    position: Position<F>,
) -> Result<Option<H::Digest>, merkle::Error<F>>
    requires size { IsChunkSize N }
    requires fails { S.failed operations.old + 1 < 2 ^ 64 }
    ensures { let g = grafting_of F.shape N in
        IfOk result (λ node. (s : Snapshot)
        → AnswersAreTrue H.Digest.text F.shape (graftable g (length s.operations))
        (grafted_node H.hash_of g s) (C.node chunks.now)
        → EachIsCoverable F.shape (graftable g (length s.operations)) (C.node chunks.now)
        → IsSnapshot s
        → S.nodes operations.old ≡ size F.shape (length s.operations)
        → AreAnswersOf H.Digest.text F.shape (length s.operations) (operations_node H.hash_of g s)
        (S.node operations.old)
        → position < size F.shape (length s.operations)
        → IsServed H.hash_of g s (λ _. option_map H.Digest.text node) position) }
{
    joined_trees_are_the_view::<F, H, N>();
    let height = grafting::height::<N>();
    let mut both = grafting::Storage::<F, H, C, S>::new(chunks, height, operations);
    both.get_node(position)
}

/// Returns the same from a tree in memory that has forgotten nothing.
fn node_from_memory<
    F: Graftable,
    H: Hasher,
    S: merkle::Storage<F, Digest = H::Digest>,
    const N: usize,
>(
    chunks: &Mem<F, H::Digest>,
    operations: &mut S,
    position: Position<F>,
) -> Result<Option<H::Digest>, merkle::Error<F>>
    requires size { IsChunkSize N }
    requires fails { S.failed operations.old + 1 < 2 ^ 64 }
    ensures { let g = grafting_of F.shape N in
        IfOk result (λ node. (s : Snapshot) (leaves : List (List ℕ))
        → AreGraftedLeaves H.hash_of g s leaves
        → StandsFor H.Digest.text F.shape (λ list k a. chunk_node H.hash_of g list a k) chunks.now
        leaves
        → chunks.now.boundary ≡ 0
        → IsSnapshot s
        → S.nodes operations.old ≡ size F.shape (length s.operations)
        → AreAnswersOf H.Digest.text F.shape (length s.operations) (operations_node H.hash_of g s)
        (S.node operations.old)
        → position < size F.shape (length s.operations)
        → IsServed H.hash_of g s (λ _. option_map H.Digest.text node) position) }
{
    memory_trees_keep_the_view::<F, H, N>(chunks);
    node_from::<F, H, Mem<F, H::Digest>, S, N>(chunks, operations, position)
}

/// Returns the same from a tree of which nothing is pruned.
fn node_from_unpruned<
    F: Graftable,
    H: Hasher,
    S: merkle::Storage<F, Digest = H::Digest>,
    const N: usize,
>(
    chunks: &GraftedTree<F, H::Digest>,
    operations: &mut S,
    position: Position<F>,
) -> Result<Option<H::Digest>, merkle::Error<F>>
    requires size { IsChunkSize N }
    requires fails { S.failed operations.old + 1 < 2 ^ 64 }
    ensures { let g = grafting_of F.shape N in
        IfOk result (λ node. (s : Snapshot) (leaves : List (List ℕ))
        → AreGraftedLeaves H.hash_of g s leaves
        → Keeps H.Digest.text F.shape (λ list k a. chunk_node H.hash_of g list a k) chunks.now
        leaves
        → chunks.now.pruned ≡ 0
        → IsSnapshot s
        → S.nodes operations.old ≡ size F.shape (length s.operations)
        → AreAnswersOf H.Digest.text F.shape (length s.operations) (operations_node H.hash_of g s)
        (S.node operations.old)
        → position < size F.shape (length s.operations)
        → IsServed H.hash_of g s (λ _. option_map H.Digest.text node) position) }
{
    grafted_trees_keep_the_view::<F, H, N>(chunks);
    nodes_inside_no_pin_are_coverable(chunks);
    node_from::<F, H, GraftedTree<F, H::Digest>, S, N>(chunks, operations, position)
}

/// Returns what `chunks` and `operations` as one have at `position`: where each node that is planned of a range is
/// coverable, a digest at each planned position.
fn planned_node_from<
    F: Graftable,
    H: Hasher,
    C: Readable<Family = F, Digest = H::Digest>,
    S: merkle::Storage<F, Digest = H::Digest>,
    const N: usize,
>(
    chunks: &C,
    operations: &mut S,
    position: Position<F>,
) -> Result<Option<H::Digest>, merkle::Error<F>>
    requires size { IsChunkSize N }
    requires fails { S.failed operations.old + 1 < 2 ^ 64 }
    ensures { let g = grafting_of F.shape N in
        IfOk result (λ node. (s : Snapshot) (status : Retained) (floor low high : ℕ)
        (ops_root : List ℕ)
        → AnswersAreTrue H.Digest.text F.shape (graftable g (length s.operations))
        (grafted_node H.hash_of g s) (C.node chunks.now)
        → AreOtherParts H.Digest.text H.hash_of g (S.nodes operations.old) (S.node operations.old)
        status floor ops_root s
        → HavePlanned F.shape (height g) (length s.operations) low high (C.node chunks.now)
        (S.node operations.old)
        → Contains (planned F.shape (length s.operations) low high) position
        → IsSome node) }
{
    planned_nodes_serve_a_range::<F, H, N>();
    let height = grafting::height::<N>();
    let mut both = grafting::Storage::<F, H, C, S>::new(chunks, height, operations);
    both.get_node(position)
}

/// Returns the same where each node over chunks is coverable and each of the operations is had: a digest at each
/// planned position, whatever the range.
fn any_planned_node_from<
    F: Graftable,
    H: Hasher,
    C: Readable<Family = F, Digest = H::Digest>,
    S: merkle::Storage<F, Digest = H::Digest>,
    const N: usize,
>(
    chunks: &C,
    operations: &mut S,
    position: Position<F>,
) -> Result<Option<H::Digest>, merkle::Error<F>>
    requires size { IsChunkSize N }
    requires fails { S.failed operations.old + 1 < 2 ^ 64 }
    ensures { let g = grafting_of F.shape N in
        IfOk result (λ node. (s : Snapshot) (status : Retained) (floor low high : ℕ)
        (ops_root : List ℕ)
        → AnswersAreTrue H.Digest.text F.shape (graftable g (length s.operations))
        (grafted_node H.hash_of g s) (C.node chunks.now)
        → EachIsCoverable F.shape (graftable g (length s.operations)) (C.node chunks.now)
        → AreOtherParts H.Digest.text H.hash_of g (S.nodes operations.old) (S.node operations.old)
        status floor ops_root s
        → AreAnswersOf H.Digest.text F.shape (length s.operations) (operations_node H.hash_of g s)
        (S.node operations.old)
        → Contains (planned F.shape (length s.operations) low high) position
        → IsSome node) }
{
    combined_stores_serve_the_view::<F, H, N>();
    let height = grafting::height::<N>();
    let mut both = grafting::Storage::<F, H, C, S>::new(chunks, height, operations);
    both.get_node(position)
}

/// Returns the tree in memory over the chunks of `snapshot` that are grafted at `positions`.
fn tree_over_chunks(
    rt: &impl Abort,
    alloc: Global,
    snapshot: &current::Snapshot<mmr::Family, Sha256, 1>,
    positions: &[u64],
) -> Mem<mmr::Family, Digest> {
    let mut tree = Mem::new(alloc);
    for position in positions {
        let digest = node_at(rt, snapshot, *position);
        assert!(rt; tree.leaves().as_u64() < 1000);
        let grown = append::<mmr::Family, Sha256>(&mut tree, HEIGHT, digest, &[]);
        done(rt, &grown);
    }
    tree
}

/// Returns the proof of the operations at the locations of `range` from `chunks` and `tree`.
fn proof_from_trees(
    rt: &impl Abort,
    alloc: Global,
    snapshot: &current::Snapshot<mmr::Family, Sha256, 1>,
    chunks: &Mem<mmr::Family, Digest>,
    tree: &mut Mem<mmr::Family, Digest>,
    range: Range<Location<mmr::Family>>,
) -> RangeProof<mmr::Family, Digest> {
    let served = proof_from_memory::<mmr::Family, Sha256, _, Prunable<1>, 1>(
        alloc,
        snapshot.status(),
        chunks,
        tree,
        Location::new(FLOOR),
        range,
        ops_root_of(snapshot),
    );
    there(rt, served, "error: Memory")
}

/// Returns whether a client accepts that `proof` is of `operations`, from the location `start` on, with `bits`, the chunks that it
/// touches.
fn is_accepted(
    rt: &impl Abort,
    alloc: Global,
    proof: &RangeProof<mmr::Family, Digest>,
    start: Location<mmr::Family>,
    operations: &[[u8; 1]],
    bits: &[[u8; 1]],
    root: Digest,
) -> bool {
    let checked = proof.verify_encoded::<Sha256, [u8; 1], [u8; 1]>(
        alloc, start, operations, bits, 1, &root,
    );
    some(rt, checked)
}

/// Asserts that the proof of `operations`, from the location `start` on, is the same from `chunks` and `tree` as from `snapshot`, and
/// that a client accepts it with `bits`, the chunks that it touches.
fn assert_proof(
    rt: &impl Abort,
    alloc: Global,
    snapshot: &current::Snapshot<mmr::Family, Sha256, 1>,
    chunks: &Mem<mmr::Family, Digest>,
    tree: &mut Mem<mmr::Family, Digest>,
    start: u64,
    operations: &[[u8; 1]],
    bits: &[[u8; 1]],
) {
    let end = Location::new(start.saturating_add(operations.len() as u64));
    let start = Location::new(start);
    let own = range_proof(rt, alloc, snapshot, start..end);
    let proof = proof_from_trees(rt, alloc, snapshot, chunks, tree, start..end);
    assert!(rt; proof == own);
    assert!(rt;
        is_accepted(
            rt,
            alloc,
            &proof,
            start,
            operations,
            bits,
            root_of(snapshot)
        )
    );
}

/// Three ranges of the operations, and the chunks that each touches.
const RANGES: [(usize, usize, &[[u8; 1]]); 3] = [
    (0, 1, &[[0x49]]),
    (17, 20, &[[0x24]]),
    (5, 26, &[[0x49], [0x92], [0x24], [0x01]]),
];

/// Asserts the same of each of these ranges.
fn assert_proofs(
    rt: &impl Abort,
    alloc: Global,
    snapshot: &current::Snapshot<mmr::Family, Sha256, 1>,
    chunks: &Mem<mmr::Family, Digest>,
    tree: &mut Mem<mmr::Family, Digest>,
) {
    let operations = operations();
    for (start, end, bits) in RANGES {
        let range = there(rt, operations.get(start..end), "too few operations");
        assert_proof(rt, alloc, snapshot, chunks, tree, start as u64, range, bits);
    }
}

// the positions of the nodes over eight operations, and the bits of each chunk, are worked by hand
#[test]
fn proofs_of_a_snapshot(rt: HostRuntime) {
    let snapshot = snapshot_of::<mmr::Family>(&rt, rt.alloc(), 3);
    let chunks = tree_over_chunks(&rt, rt.alloc(), &snapshot, &[14, 29, 45]);
    let mut tree = tree_over(&rt, rt.alloc(), &operations());
    assert_proofs(&rt, rt.alloc(), &snapshot, &chunks, &mut tree);
    drop(snapshot);
    drop(chunks);
    drop(tree);
}
