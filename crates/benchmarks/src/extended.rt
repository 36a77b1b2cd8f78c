//! A snapshot that is extended once, and the proofs from one. The words of `extend` are the family, the size of a chunk in bytes (1, 4
//! or 32), how many operations there are before, how many are appended, the floor, and the locations whose bits are cleared; those of
//! `prove` the family, the size of a chunk, how many operations there are, and the floor. Each appended bit is set. An operation has 18
//! bytes: its number, and a byte that fills it up. Digests are those of SHA-256.
//!
//! The answer is the canonical root, and with `prove` the digest of all proofs joined: of each operation, then of each range up to the end.

ghost use Rattle.storage_bitmap.specs.Chunks.{IsChunkSize};

use crate::columns::{Fault, number};
use commonware_storage::bitmap::{Prunable, Readable};
use commonware_storage::codec::Encode;
use commonware_storage::digest::{DigestOf, Hasher, Sha256};
use commonware_storage::merkle::{
    ElementPlan, Graftable, Location, MAX_LEAVES, RangePlan, mmb, mmr,
};
use commonware_storage::qmdb::current::proof::RangeProof;
use commonware_storage::qmdb::current::proof::constant::OperationProof;
use commonware_storage::qmdb::current::{OperationTree, Snapshot};
use std::alloc::Global;

/// Returns the operation number `index`.
fn operation(index: u64) -> [u8; 18] {
    let mut operation = [0xd2; 18];
    operation[..8].copy_from_slice(&index.to_be_bytes());
    operation
}

/// Returns the tree over `count` operations.
fn tree<F: Graftable>(alloc: Global, count: u64) -> Result<OperationTree<F, Sha256>, Fault> {
    let mut tree = OperationTree::new(alloc);
    for index in 0..count {
        if tree.add(&operation(index)).is_err() {
            return Err(Fault::Memory);
        }
    }
    Ok(tree)
}

/// Returns `count` bits, which are all set.
pub fn bits<const N: usize>(alloc: Global, count: u64) -> Result<Prunable<N>, Fault>
    requires { IsChunkSize N }
{
    let mut bits = Prunable::new(alloc);
    for _ in 0..count {
        if bits.len() >= MAX_LEAVES || bits.push(true).is_err() {
            return Err(Fault::Memory);
        }
    }
    Ok(bits)
}

/// Returns the snapshot of `count` operations, which are all active, with the floor `floor`.
fn whole<F: Graftable, const N: usize>(
    alloc: Global,
    count: u64,
    floor: u64,
) -> Result<Snapshot<F, Sha256, N>, Fault>
    requires { IsChunkSize N }
{
    let (tree, bits) = (tree(alloc, count)?, bits(alloc, count)?);
    match Snapshot::of_tree(alloc, tree, bits, Location::new(floor)) {
        Ok(snapshot) => Ok(snapshot),
        Err(_) => Err(Fault::Malformed),
    }
}

/// Returns the locations that `words` say.
fn locations<F: Graftable>(alloc: Global, words: &[&str]) -> Result<Vec<Location<F>>, Fault> {
    let mut locations = Vec::new(alloc);
    for location in words {
        locations.push(Location::new(number(*location)?))?;
    }
    Ok(locations)
}

/// Returns `count` operations from the number `first` on.
fn operations(alloc: Global, first: u64, count: u64) -> Result<Vec<[u8; 18]>, Fault> {
    let mut operations = Vec::new(alloc);
    for index in 0..count {
        operations.push(operation(first.saturating_add(index)))?;
    }
    Ok(operations)
}

/// Appends `operations` to `snapshot`, which are all active, and clears the bits at `clear`.
fn grow<F: Graftable, const N: usize>(
    alloc: Global,
    snapshot: &mut Snapshot<F, Sha256, N>,
    operations: &[[u8; 18]],
    clear: &[Location<F>],
    floor: Location<F>,
) -> Result<(), Fault> {
    let active = vec![in alloc; true; operations.len()]?;
    match snapshot.extend(alloc, operations, &active, clear, floor) {
        Ok(()) => Ok(()),
        Err(_) => Err(Fault::Malformed),
    }
}

/// Returns the canonical root after the extension of a snapshot of `before` operations by `appended` ones.
fn extended<F: Graftable, const N: usize>(
    alloc: Global,
    before: u64,
    appended: u64,
    floor: u64,
    clear: &[Location<F>],
) -> Result<DigestOf<Sha256>, Fault>
    requires { IsChunkSize N }
{
    let operations = operations(alloc, before, appended)?;
    let mut snapshot = whole::<F, N>(alloc, before, 0)?;
    let floor = Location::new(floor);
    grow(alloc, &mut snapshot, &operations, clear, floor)?;
    Ok(snapshot.root())
}

/// Returns the same in hexadecimal, of the locations that `words` say.
fn extended_and_cleared<F: Graftable, const N: usize>(
    alloc: Global,
    before: u64,
    appended: u64,
    floor: u64,
    words: &[&str],
) -> Result<String, Fault>
    requires { IsChunkSize N }
{
    let clear = locations::<F>(alloc, words)?;
    let root = extended::<F, N>(alloc, before, appended, floor, &clear)?;
    Ok(hex::encode(alloc, root.bytes)?)
}

/// Returns the canonical root after the extension that `words` say.
fn extend<F: Graftable, const N: usize>(alloc: Global, words: &[&str]) -> Result<String, Fault>
    requires { IsChunkSize N }
{
    let [before, appended, floor, cleared @ ..] = words else {
        return Err(Fault::Malformed);
    };
    let (before, appended, floor) = (number(*before)?, number(*appended)?, number(*floor)?);
    extended_and_cleared::<F, N>(alloc, before, appended, floor, cleared)
}

/// Returns the plan of a proof of the operation at `location` of `leaves`.
fn operation_plan<F: Graftable>(
    alloc: Global,
    leaves: u64,
    location: Location<F>,
) -> Result<ElementPlan<F>, Fault> {
    match ElementPlan::new(alloc, Location::new(leaves), location) {
        Ok(plan) => Ok(plan),
        Err(_) => Err(Fault::Memory),
    }
}

/// Returns the plan of a proof of the operations from `start` on of `leaves`.
fn range_plan<F: Graftable>(
    alloc: Global,
    leaves: u64,
    start: Location<F>,
) -> Result<RangePlan<F>, Fault> {
    match RangePlan::new(alloc, Location::new(leaves), start..Location::new(leaves)) {
        Ok(plan) => Ok(plan),
        Err(_) => Err(Fault::Memory),
    }
}

/// Appends to `out` the proof of the operation at `location` of `snapshot`, whose floor is `floor`.
fn add_operation_proof<F: Graftable, const N: usize>(
    alloc: Global,
    snapshot: &Snapshot<F, Sha256, N>,
    floor: Location<F>,
    location: Location<F>,
    out: &mut Vec<u8>,
) -> Result<(), Fault> {
    let plan = operation_plan(alloc, snapshot.status().len(), location)?;
    let proof = OperationProof::build::<Sha256, Prunable<N>, _>(
        alloc,
        snapshot.status(),
        plan,
        |position| snapshot.get_node(position),
        floor,
        snapshot.ops_root(),
    );
    match proof {
        Ok(proof) => Ok(out.extend_from_slice(&proof.encode(alloc)?)?),
        Err(_) => Err(Fault::Memory),
    }
}

/// Appends to `out` the proof of the operations from `start` on of `snapshot`, whose floor is `floor`.
fn add_range_proof<F: Graftable, const N: usize>(
    alloc: Global,
    snapshot: &Snapshot<F, Sha256, N>,
    floor: Location<F>,
    start: Location<F>,
    out: &mut Vec<u8>,
) -> Result<(), Fault> {
    let plan = range_plan(alloc, snapshot.status().len(), start)?;
    let proof = RangeProof::build::<Sha256, Prunable<N>, _, N>(
        alloc,
        snapshot.status(),
        plan,
        |position| snapshot.get_node(position),
        floor,
        snapshot.ops_root(),
    );
    match proof {
        Ok(proof) => Ok(out.extend_from_slice(&proof.encode(alloc)?)?),
        Err(_) => Err(Fault::Memory),
    }
}

/// Returns the proofs of each of `count` operations of `snapshot`, and of each range up to the end, one after another.
fn all_proofs<F: Graftable, const N: usize>(
    alloc: Global,
    snapshot: &Snapshot<F, Sha256, N>,
    floor: Location<F>,
    count: u64,
) -> Result<Vec<u8>, Fault> {
    let mut proofs = Vec::new(alloc);
    for location in 0..count {
        let location = Location::new(location);
        add_operation_proof(alloc, snapshot, floor, location, &mut proofs)?;
    }
    for start in 0..count {
        add_range_proof(alloc, snapshot, floor, Location::new(start), &mut proofs)?;
    }
    Ok(proofs)
}

/// Returns the canonical root of `snapshot`, which has `count` operations, and the digest of all proofs joined.
fn root_and_proofs<F: Graftable, const N: usize>(
    alloc: Global,
    snapshot: &Snapshot<F, Sha256, N>,
    floor: Location<F>,
    count: u64,
) -> Result<(DigestOf<Sha256>, DigestOf<Sha256>), Fault> {
    let proofs = all_proofs(alloc, snapshot, floor, count)?;
    Ok((snapshot.root(), Sha256::hash(&[&proofs])))
}

/// Returns the canonical root of `count` operations, and the digest of all proofs joined.
fn proved<F: Graftable, const N: usize>(
    alloc: Global,
    count: u64,
    floor: u64,
) -> Result<(DigestOf<Sha256>, DigestOf<Sha256>), Fault>
    requires { IsChunkSize N }
{
    let snapshot = whole::<F, N>(alloc, count, floor)?;
    let told = root_and_proofs(alloc, &snapshot, Location::new(floor), count);
    drop(snapshot);
    told
}

/// Returns two digests in hexadecimal, each on its line.
fn lines(
    alloc: Global,
    first: DigestOf<Sha256>,
    second: DigestOf<Sha256>,
) -> Result<String, Fault> {
    let first = hex::encode(alloc, first.bytes)?;
    let second = hex::encode(alloc, second.bytes)?;
    Ok(format!(in alloc; "{first}\n{second}")?)
}

/// Returns the canonical root, and the digest of the proofs that `words` say.
fn prove<F: Graftable, const N: usize>(alloc: Global, words: &[&str]) -> Result<String, Fault>
    requires { IsChunkSize N }
{
    let [count, floor] = words else {
        return Err(Fault::Malformed);
    };
    let (root, proofs) = proved::<F, N>(alloc, number(*count)?, number(*floor)?)?;
    lines(alloc, root, proofs)
}

/// Returns the lines to print for `words`, of chunks of `N` bytes.
fn report<F: Graftable, const N: usize>(
    alloc: Global,
    work: &str,
    words: &[&str],
) -> Result<String, Fault>
    requires { IsChunkSize N }
{
    match work {
        "extend" => extend::<F, N>(alloc, words),
        "prove" => prove::<F, N>(alloc, words),
        _ => Err(Fault::Malformed),
    }
}

/// Returns the lines to print for `words`, of trees of the family `F`.
fn over<F: Graftable>(alloc: Global, work: &str, words: &[&str]) -> Result<String, Fault> {
    match words {
        ["1", words @ ..] => report::<F, 1>(alloc, work, words),
        ["4", words @ ..] => report::<F, 4>(alloc, work, words),
        ["32", words @ ..] => report::<F, 32>(alloc, work, words),
        _ => Err(Fault::Malformed),
    }
}

/// Returns the lines to print for `words`: the family, the size of a chunk, and what `work` wants.
pub fn reply(alloc: Global, work: &str, words: &[&str]) -> Result<String, Fault> {
    match words {
        ["mmr", words @ ..] => over::<mmr::Family>(alloc, work, words),
        ["mmb", words @ ..] => over::<mmb::Family>(alloc, work, words),
        _ => Err(Fault::Malformed),
    }
}
