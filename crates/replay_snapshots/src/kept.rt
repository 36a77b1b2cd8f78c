//! A snapshot, and what the lists ask of it whatever its family, its digest function and the size of its chunks are.

ghost use Rattle.storage_bitmap.specs.Chunks.{IsChunkSize};

use crate::faulty::{ALWAYS, Faulty, NONE, STORE_FAULT};
use crate::served::{from_trees, from_view};
use crate::stores::{Call, Counts, Left, Nodes};
use crate::trees::view_nodes;
use commonware_storage::bitmap::Prunable;
use commonware_storage::codec::{Decode, Encode, FixedBytes, Write};
use commonware_storage::digest::{Digest, Hasher};
use commonware_storage::laws::built_proofs_are_accepted;
use commonware_storage::laws::keys::{
    written_exclusions_are_accepted, written_values_are_accepted,
};
use commonware_storage::laws::ranges::built_ranges_are_accepted;
use commonware_storage::light::MAX_DIGESTS;
use commonware_storage::merkle::{ElementPlan, Graftable, Location, Position, RangePlan};
use commonware_storage::qmdb::any::FixedEncoding;
use commonware_storage::qmdb::any::operation::Ordered;
use commonware_storage::qmdb::current::ordered::constant::{ExclusionProof, KeyValueProof};
use commonware_storage::qmdb::current::proof::constant::OperationProof;
use commonware_storage::qmdb::current::{Snapshot, grafting};
use replay_columns::answers::Answer;
use replay_columns::columns::{Fault, Hex, Refusal as _, lent, or_fault, places};
use replay_columns::digits::{bits_of, chunks_of};
use std::alloc::Global;

/// The keys of operations that have some.
pub type Key = FixedBytes<4>;

/// The values of keys, which are numbers.
type Values = FixedEncoding<u64>;

/// What the lists ask of a snapshot.
pub trait Asked {
    /// Returns how many operations it has.
    fn count(&self) -> u64;

    /// Adds the canonical root.
    fn tell_root(&self, out: &mut String) -> Result<(), Fault>;

    /// Adds the canonical root, that of the operations, the grafted root, and the bytes of the witness.
    fn tell_roots(&self, alloc: Global, out: &mut String) -> Result<(), Fault>;

    /// Returns what a client answers that is given the bytes of its own proof of the operation at a location.
    fn shows_operation(&self, alloc: Global, location: u64) -> Result<bool, Fault>;

    /// Returns what a client answers that is given the bytes of its own proof of the operations from `start` to before
    /// `end`.
    fn shows_range(&self, alloc: Global, start: u64, end: u64) -> Result<bool, Fault>;

    /// Returns what a client answers that is given the bytes of a copy of the proof that the operation at a location
    /// gives a key this value, and how many these are.
    fn shows_value(
        &self,
        alloc: Global,
        location: u64,
        key: Key,
        value: u64,
    ) -> Result<(bool, usize), Fault>;

    /// Returns the same of the proof that by this operation the key has no value.
    fn shows_absence(&self, alloc: Global, location: u64, key: Key) -> Result<(bool, usize), Fault>;

    /// Adds what is told where a store and a log have so many answers; how often they were asked and failed.
    fn fetch(
        &self,
        alloc: Global,
        call: &Call,
        left: Left,
        out: &mut String,
    ) -> Result<Counts, Fault>;
}

/// A snapshot with its floor, its operations, and its bits as digits and in chunks.
#[derive(Drop)]
pub struct Kept<F: Graftable, H: Hasher, const N: usize> {
    pub snapshot: Snapshot<F, H, N>,
    /// The digests of the grafted view.
    pub nodes: Vec<H::Digest>,
    pub floor: u64,
    pub operations: Vec<Vec<u8>>,
    pub digits: String,
    chunks: Vec<[u8; N]>,
    ghost size: { IsChunkSize N },
}

impl<F: Graftable, H: Hasher, const N: usize> Kept<F, H, N> {
    /// Returns the snapshot of operations whose activity bits are digits.
    pub fn of(
        alloc: Global,
        floor: u64,
        digits: String,
        operations: Vec<Vec<u8>>,
    ) -> Result<Self, Fault>
        requires { IsChunkSize N }
    {
        let chunks = chunks_of::<N>(alloc, digits.as_str())?;
        let bits = bits_of::<N>(alloc, digits.as_str())?;
        let snapshot = or_fault(Snapshot::new(alloc, &operations, bits, Location::new(floor)))?;
        let nodes = view_nodes(alloc, &snapshot)?;
        Ok(Kept {
            snapshot,
            nodes,
            floor,
            operations,
            digits,
            chunks,
        })
    }

    /// Returns the operation with a key at a location.
    fn operation(&self, alloc: Global, location: u64) -> Result<Ordered<F, Key, Values>, Fault> {
        let Some(operation) = self.operations.get(location as usize) else {
            return Err(Fault::Malformed);
        };
        match Ordered::decode_cfg(alloc, operation.as_slice(), &()) {
            Ok(operation) => Ok(operation),
            Err(error) => Err(Fault::from(error)),
        }
    }
}

impl<F: Graftable, H: Hasher, const N: usize> Asked for Kept<F, H, N> {
    fn count(&self) -> u64 {
        self.operations.len() as u64
    }

    fn tell_root(&self, out: &mut String) -> Result<(), Fault> {
        Hex(self.snapshot.root()).tell(out)
    }

    fn tell_roots(&self, alloc: Global, out: &mut String) -> Result<(), Fault> {
        let witness = self.snapshot.witness();
        let (root, ops_root) = (Hex(self.snapshot.root()), Hex(self.snapshot.ops_root()));
        (
            root,
            ops_root,
            Hex(witness.grafted_root),
            witness.encode(alloc)?,
        )
            .tell(out)
    }

    fn shows_operation(&self, alloc: Global, location: u64) -> Result<bool, Fault> {
        let at = Location::new(location);
        let Some(operation) = self.operations.get(location as usize) else {
            return Err(Fault::Malformed);
        };
        let plan = or_fault(ElementPlan::<F>::new(alloc, Location::new(self.count()), at))?;
        let nodes = self.nodes.as_slice();
        let snapshot = &self.snapshot;
        match built_proofs_are_accepted::<F, H, Prunable<N>, _, N>(
            alloc,
            snapshot.status(),
            plan,
            |position| digest_at(nodes, position),
            Location::new(self.floor),
            snapshot.ops_root(),
            operation.as_slice(),
            &snapshot.root(),
        ) {
            Ok(yes) => Ok(yes),
            Err(error) => Err(error.fault()),
        }
    }

    fn shows_range(&self, alloc: Global, start: u64, end: u64) -> Result<bool, Fault> {
        let leaves = Location::new(self.count());
        let range = Location::new(start)..Location::new(end);
        let height = grafting::height::<N>();
        let past = (end.saturating_sub(1) >> height).saturating_add(1);
        let operations = places(&self.operations, start, end)?;
        let chunks = places(&self.chunks, start >> height, past)?;
        let operations = lent(alloc, operations)?;
        let chunks = arrays_lent(alloc, chunks)?;
        let plan = or_fault(RangePlan::<F>::new(alloc, leaves, range))?;
        let nodes = self.nodes.as_slice();
        let snapshot = &self.snapshot;
        match built_ranges_are_accepted::<F, H, Prunable<N>, _, N>(
            alloc,
            snapshot.status(),
            plan,
            |position| digest_at(nodes, position),
            Location::new(self.floor),
            snapshot.ops_root(),
            MAX_DIGESTS,
            &operations,
            &chunks,
            &snapshot.root(),
        ) {
            Ok(yes) => Ok(yes),
            Err(error) => Err(error.fault()),
        }
    }

    fn shows_value(
        &self,
        alloc: Global,
        location: u64,
        key: Key,
        value: u64,
    ) -> Result<(bool, usize), Fault> {
        let Ordered::Update(update) = self.operation(alloc, location)? else {
            return Err(Fault::Malformed);
        };
        let proof = KeyValueProof {
            proof: operation_proof(alloc, self, location)?,
            next_key: update.next_key,
        };
        value_shown::<F, H, N>(alloc, &proof.clone()?, key, value, &self.snapshot.root())
    }

    fn shows_absence(
        &self,
        alloc: Global,
        location: u64,
        key: Key,
    ) -> Result<(bool, usize), Fault> {
        let operation = self.operation(alloc, location)?;
        let proof = operation_proof(alloc, self, location)?;
        let proof = match operation {
            Ordered::Update(update) => ExclusionProof::KeyValue(proof, update),
            Ordered::CommitFloor(value, _) => ExclusionProof::Commit(proof, value),
            _ => return Err(Fault::Malformed),
        };
        absence_shown::<F, H, N>(alloc, &proof.clone()?, &key, &self.snapshot.root())
    }

    fn fetch(
        &self,
        alloc: Global,
        call: &Call,
        left: Left,
        out: &mut String,
    ) -> Result<Counts, Fault> {
        match call.nodes {
            Nodes::View => from_view(alloc, self, call, left, out),
            Nodes::Trees(pruned) => from_trees(alloc, self, call, pruned, left, out),
        }
    }
}

/// Returns the snapshot's proof of the operation at a location.
fn operation_proof<F: Graftable, H: Hasher, const N: usize>(
    alloc: Global,
    kept: &Kept<F, H, N>,
    location: u64,
) -> Result<OperationProof<F, H::Digest, N>, Fault> {
    let mut nodes = Vec::new(alloc);
    nodes.extend_from_slice(&kept.nodes)?;
    let size = kept.nodes.len() as u64;
    let mut store = Faulty::new(nodes, size, NONE, ALWAYS, STORE_FAULT);
    let snapshot = &kept.snapshot;
    or_fault(OperationProof::new::<H, Prunable<N>, Faulty<H::Digest>>(
        alloc,
        snapshot.status(),
        &mut store,
        Location::new(kept.floor),
        Location::new(location),
        snapshot.ops_root(),
    ))
}

/// Returns what a client answers that is given the bytes of a proof of the value of a key, and how many these are.
fn value_shown<F: Graftable, H: Hasher, const N: usize>(
    alloc: Global,
    proof: &KeyValueProof<F, Key, H::Digest, N>,
    key: Key,
    value: u64,
    root: &H::Digest,
) -> Result<(bool, usize), Fault>
    requires size { IsChunkSize N }
{
    let yes = written_values_are_accepted::<F, H, Key, Values, N>(
        alloc,
        proof,
        &(),
        key,
        value,
        root,
    )?;
    let mut bytes = Vec::new(alloc);
    proof.write(&mut bytes)?;
    Ok((yes, bytes.len()))
}

/// Returns the same of a proof that a key has no value.
fn absence_shown<F: Graftable, H: Hasher, const N: usize>(
    alloc: Global,
    proof: &ExclusionProof<F, Key, Values, H::Digest, N>,
    key: &Key,
    root: &H::Digest,
) -> Result<(bool, usize), Fault>
    requires size { IsChunkSize N }
{
    let yes = written_exclusions_are_accepted::<F, H, Key, Values, N>(
        alloc,
        proof,
        &((), ()),
        key,
        root,
    )?;
    let mut bytes = Vec::new(alloc);
    proof.write(&mut bytes)?;
    Ok((yes, bytes.len()))
}

/// Returns each of some chunks, as a slice of it.
fn arrays_lent<const N: usize>(alloc: Global, chunks: &[[u8; N]]) -> Result<Vec<&[u8]>, Fault> {
    let mut lent = Vec::new(alloc);
    for chunk in chunks {
        lent.push(chunk.as_slice())?;
    }
    Ok(lent)
}

/// Returns the digest at a position.
fn digest_at<F: Graftable, D: Digest>(nodes: &[D], position: Position<F>) -> Option<D> {
    nodes.get(position.as_u64() as usize).copied()
}
