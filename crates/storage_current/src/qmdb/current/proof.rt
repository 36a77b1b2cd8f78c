//! Range proofs of operations and of their activity bits.
//!
//! The proof over the grafted view shows the operations and the graftable chunks that they touch. The digests of the
//! pending and of the partial chunk stand in slots of their own, and the operations root completes the canonical string. A
//! chunk of the range that lies in a slot is compared with it: nothing else binds its bits.

ghost use Rattle.std.specs.Prelude.{◌≡◌, ℕ, ◌+◌, ◌-◌, ◌*◌, ◌/◌, ◌%◌, ◌^◌, ◌<◌, ◌≤◌, ◌↔◌, ◌⊎◌, OnOk, IfOk, IfErr, MatchOption, IsTrue, Ok, false, length, map, option_map};
ghost use Rattle.std.specs.List.{All};
ghost use Rattle.storage_merkle.specs.Plans.{planned};
ghost use Rattle.storage_merkle.specs.RangeProofs.{AreDigests};
ghost use Rattle.storage_current.specs.BuiltProofs.{AreAnswered, AreBitsOf, ArePartsOf, IsNotBuilt};
ghost use Rattle.storage_current.specs.Snapshots.{Snapshot as SnapshotOf, canonical_string, own_range_proof, grafting_of};
ghost use Rattle.storage_current.specs.CurrentProofs.{IsCurrent};
ghost use Rattle.storage_current.specs.CurrentSoundness.{MeansCurrent};
ghost use Rattle.storage_current.specs.Held.{range_proof_of};
ghost use Rattle.storage_current.specs.Windows.{IsWindow, IsWindowOf};

mod chunk;
mod codec;
mod extract;
mod from_store;
pub mod operation;
mod planned_digests;
mod slots;
mod window;
mod with_ops;
mod witness;

use crate::laws::current_proofs_are_sound;
use crate::qmdb::current::chunks::{ChunkCounts, chunk_digest};
use crate::qmdb::current::grafting::{self, Verifier, chunk_aligned_inactive_peaks};
use crate::qmdb::current::proof::window::Window;
pub use crate::qmdb::current::required::{RequiredChunks, required_chunks};
use crate::qmdb::current::root::canonical_root;
pub use chunk::Chunk;
pub use extract::verify_proof_and_extract_digests;
use std::alloc::Global;
use std::convert::AsSlice;
use storage_bitmap::bitmap::Readable;
use storage_codec::NoMemory;
use storage_codec::codec::Write;
use storage_codec::digest::{Digest, Hasher};
use storage_merkle::merkle::{self, Graftable, Location, Position, Proof, RangePlan};
use storage_ops::qmdb::{self, Error};
pub use with_ops::{RangeProofSpec, touched_chunks};
pub use witness::OpsRootWitness;

/// A proof that operations stand at a range of locations, and of their activity bits.
#[derive(Drop)]
#[derive_where(Debug, PartialEq, Eq; D)]
pub struct RangeProof<F, D> {
    /// The digests that the operations and their chunks do not give, of the grafted view.
    pub proof: Proof<F, D>,
    /// The digest of the complete chunk that is not graftable, if there is one.
    pub pending_chunk_digest: Option<D>,
    /// The digest of the chunk after the complete ones, if it has a bit.
    pub partial_chunk_digest: Option<D>,
    /// The root of the tree over the operations alone.
    pub ops_root: D,
}

impl<F: Graftable, D: Digest> RangeProof<F, D> {
    /// Returns the proof of the range of `plan`, from the digests that `get_node` answers for the planned positions:
    /// those of the grafted view; `status` are the snapshot's bits, `floor` its inactivity floor, `ops_root` its
    /// operations root. A floor past the plan's leaves counts as these.
    ///
    /// # Errors
    ///
    /// The first of: `ElementPruned` of the first planned position for which `get_node` answers none; `DataCorrupted`
    /// if the bits are not as many as the plan's leaves, or a chunk that is not graftable is pruned; `Memory`.
    pub fn build<
        H: Hasher<Digest = D>,
        R: Readable<N>,
        G: Fn(Position<F>) -> Option<D>,
        const N: usize,
    >(
        alloc: Global,
        status: &R,
        plan: RangePlan<F>,
        get_node: G,
        floor: Location<F>,
        ops_root: D,
    ) -> Result<Self, Error<F>>
        requires { All (λ p. G.pre get_node p) (planned F.shape plan.leaves plan.start plan.end) }
        ensures own { let g = grafting_of F.shape N in
            IfOk result (λ proof. (s : SnapshotOf) → ArePartsOf D.text
            (G.post get_node) H.hash_of g plan (R.retained status.now) floor (D.text ops_root) s
            → range_proof_of D.text proof ≡ own_range_proof H.hash_of g s plan.start plan.end) }
        ensures answered { OnOk result (AreAnswered (G.post get_node) F.shape plan) }
        ensures bits { let g = grafting_of F.shape N in
            OnOk result (AreBitsOf g plan.leaves (R.retained status.now)) }
        ensures why { let g = grafting_of F.shape N in
            IfErr result (IsNotBuilt (G.post get_node) g plan (R.retained status.now)) }
    {
        let len = status.len();
        let leaves = plan.leaves().as_u64();
        let height = grafting::height::<N>();
        let inactive = chunk_aligned_inactive_peaks::<F>(
            leaves,
            floor.as_u64().min(leaves),
            height,
        );
        let proof = match plan.build(alloc, &qmdb::hasher::<H>(), inactive, get_node) {
            Ok(proof) => proof,
            Err(merkle::Error::Memory) => return Err(Error::Memory),
            Err(error) => return Err(Error::Merkle(error)),
        };
        let counts = ChunkCounts::over::<F>(leaves, height);
        if len != leaves || status.pruned_chunks() as u64 > counts.graftable {
            return Err(Error::DataCorrupted("bits of another length, or pruned too far"));
        }
        Ok(RangeProof {
            proof,
            pending_chunk_digest: chunk_digest::<H, N>(counts.pending(status)),
            partial_chunk_digest: chunk_digest::<H, N>(counts.partial(status)),
            ops_root,
        })
    }

    /// Returns whether `operations` stand at the locations from `start` on of the snapshot with the canonical root
    /// `root`, and `chunks`, of `N` bytes each, are the chunks of bits that they touch. The no if there are no
    /// operations, they pass the proof's leaves, they touch another number of chunks, the leaves are more than any tree
    /// has, or `N` is no power of two up to `2^59`, allocates nothing.
    pub fn verify<H: Hasher<Digest = D>, O: Write, const N: usize>(
        &self,
        alloc: Global,
        start: Location<F>,
        operations: &[O],
        chunks: &[[u8; N]],
        root: &D,
    ) -> Result<bool, NoMemory>
        ensures exact { IfOk result (λ yes. IsTrue yes
            ↔ IsCurrent H.hash_of (grafting_of F.shape N) (range_proof_of D.text self.now) start
            (map O.text operations.now) chunks.now (D.text root.now)) }
        ensures meaning { (D.size ≡ 32) ⊎ (D.size ≡ 64)
            → IfOk result (λ yes. IsTrue yes
            → MeansCurrent H.hash_of (grafting_of F.shape N) (range_proof_of D.text self.now) start
            (map O.text operations.now) chunks.now (D.text root.now)) }
        ensures at_once { (IsWindow (grafting_of F.shape N) self.now.proof.leaves start
            (length operations.now) (length chunks.now) → ⊥)
            → result ≡ Ok false }
    {
        self.verify_with_chunk_size::<H, O, [u8; N]>(alloc, start, operations, chunks, N, root)
    }

    /// As [`verify`](Self::verify), for chunks of `chunk_size` bytes, known at run time. The no if a chunk has another
    /// length allocates nothing either, and hashes nothing. The chunks are lent to the hasher, and not copied.
    pub fn verify_with_chunk_size<H: Hasher<Digest = D>, O: Write, C: Chunk>(
        &self,
        alloc: Global,
        start: Location<F>,
        operations: &[O],
        chunks: &[C],
        chunk_size: usize,
        root: &D,
    ) -> Result<bool, NoMemory>
        ensures exact { IfOk result (λ yes. IsTrue yes
            ↔ IsCurrent H.hash_of (grafting_of F.shape chunk_size) (range_proof_of D.text self.now)
            start (map O.text operations.now) (map C.text chunks.now) (D.text root.now)) }
        ensures meaning { (D.size ≡ 32) ⊎ (D.size ≡ 64)
            → IfOk result (λ yes. IsTrue yes
            → MeansCurrent H.hash_of (grafting_of F.shape chunk_size)
            (range_proof_of D.text self.now)
            start (map O.text operations.now) (map C.text chunks.now) (D.text root.now)) }
        ensures at_once { (IsWindow (grafting_of F.shape chunk_size) self.now.proof.leaves start
            (length operations.now) (length chunks.now) → ⊥)
            → result ≡ Ok false }
        ensures lengths { (AreDigests chunk_size (map C.text chunks.now) → ⊥)
            → result ≡ Ok false }
    {
        let Some(window) = self.window(start, operations.len(), chunks, chunk_size) else {
            return Ok(false);
        };
        let elements = encoded(alloc, operations)?;
        current_proofs_are_sound();
        self.verify_in::<H, Vec<u8>, C>(alloc, &window, start, &elements, chunks, root)
    }

    /// As [`verify_with_chunk_size`](Self::verify_with_chunk_size), for operations that are bytes already.
    pub fn verify_encoded<H: Hasher<Digest = D>, E: AsSlice<u8>, C: Chunk>(
        &self,
        alloc: Global,
        start: Location<F>,
        operations: &[E],
        chunks: &[C],
        chunk_size: usize,
        root: &D,
    ) -> Result<bool, NoMemory>
        ensures exact { IfOk result (λ yes. IsTrue yes
            ↔ IsCurrent H.hash_of (grafting_of F.shape chunk_size) (range_proof_of D.text self.now)
            start (map E.items operations.now) (map C.text chunks.now) (D.text root.now)) }
        ensures meaning { (D.size ≡ 32) ⊎ (D.size ≡ 64)
            → IfOk result (λ yes. IsTrue yes
            → MeansCurrent H.hash_of (grafting_of F.shape chunk_size)
            (range_proof_of D.text self.now)
            start (map E.items operations.now) (map C.text chunks.now) (D.text root.now)) }
        ensures at_once { (IsWindow (grafting_of F.shape chunk_size) self.now.proof.leaves start
            (length operations.now) (length chunks.now) → ⊥)
            → result ≡ Ok false }
        ensures lengths { (AreDigests chunk_size (map C.text chunks.now) → ⊥)
            → result ≡ Ok false }
    {
        match self.window(start, operations.len(), chunks, chunk_size) {
            Some(window) => {
                current_proofs_are_sound();
                self.verify_in::<H, E, C>(alloc, &window, start, operations, chunks, root)
            }
            None => Ok(false),
        }
    }

    /// Where `count` operations from `start` on stand among the chunks of `chunk_size` bytes; none if no chunk may have
    /// that size, one of `chunks` has another, or the counts of operations, leaves and chunks do not fit.
    fn window<C: Chunk>(
        &self,
        start: Location<F>,
        count: usize,
        chunks: &[C],
        chunk_size: usize,
    ) -> Option<Window>
        ensures { MatchOption result (IsWindow
            (grafting_of F.shape chunk_size) self.now.proof.leaves start count (length chunks.now)
            → AreDigests chunk_size (map C.text chunks.now)
            → ⊥) (λ w. IsWindowOf (grafting_of F.shape chunk_size) self.now.proof.leaves start count
            (length chunks.now) w × AreDigests chunk_size (map C.text chunks.now)) }
    {
        let leaves = self.proof.leaves.as_u64();
        let window = Window::of::<F>(leaves, start.as_u64(), count, chunks.len(), chunk_size)?;
        if are_sized(chunks, chunk_size) {
            Some(window)
        } else {
            None
        }
    }

    /// Returns what the check answers of a claim whose counts and lengths fit; `window` is where the claim stands.
    pub(crate) fn verify_in<H: Hasher<Digest = D>, E: AsSlice<u8>, C: Chunk>(
        &self,
        alloc: Global,
        window: &Window,
        start: Location<F>,
        operations: &[E],
        chunks: &[C],
        root: &D,
    ) -> Result<bool, NoMemory>
        requires { (n : ℕ) × IsWindowOf (grafting_of F.shape n) self.now.proof.leaves start
            (length operations.now) (length chunks.now) window.now }
        ensures { (n : ℕ) → IsWindowOf (grafting_of F.shape n) self.now.proof.leaves start
            (length operations.now) (length chunks.now) window.now
            → AreDigests n (map C.text chunks.now)
            → IfOk result (λ yes. IsTrue yes
            ↔ IsCurrent H.hash_of (grafting_of F.shape n) (range_proof_of D.text self.now) start
            (map E.items operations.now) (map C.text chunks.now) (D.text root.now)) }
    {
        if !slots::match_chunks::<H, C, F>(self, window, chunks) {
            return Ok(false);
        }
        let lent = lend(alloc, chunks)?;
        let verifier = Verifier::<F, H>::new(
            window.height,
            window.first_chunk,
            lent,
            window.counts.graftable,
        );
        let computed = self
            .proof
            .recompute_root(alloc, &verifier, operations, start)?;
        let Some(grafted_root) = computed else {
            return Ok(false);
        };
        Ok(self.canonical::<H>(&grafted_root, window) == *root)
    }

    /// Returns the canonical root that the proof's parts and `grafted_root` give.
    fn canonical<H: Hasher<Digest = D>>(&self, grafted_root: &D, window: &Window) -> D
        ensures { D.text result ≡ H.hash_of (canonical_string (D.text self.now.ops_root)
            (D.text grafted_root.now) (option_map D.text self.now.pending_chunk_digest)
            window.now.counts.next_bit (option_map D.text self.now.partial_chunk_digest)) }
    {
        canonical_root::<H>(
            &self.ops_root,
            grafted_root,
            &self.pending_chunk_digest,
            window.counts.next_bit,
            &self.partial_chunk_digest,
        )
    }

    /// Returns a proof equal to this one. `NoMemory` if there is no memory for it.
    pub fn clone(&self) -> Result<Self, NoMemory>
        ensures { IfOk result (λ copy. range_proof_of D.text copy
            ≡ range_proof_of D.text self.now) }
    {
        Ok(RangeProof {
            proof: self.proof.clone()?,
            pending_chunk_digest: self.pending_chunk_digest,
            partial_chunk_digest: self.partial_chunk_digest,
            ops_root: self.ops_root,
        })
    }
}

/// Returns whether each of `chunks` has `size` bytes.
fn are_sized<C: Chunk>(chunks: &[C], size: usize) -> bool
    ensures { IsTrue result ↔ AreDigests size (map C.text chunks.now) }
{
    for chunk in chunks {
        if chunk.bytes().len() != size {
            return false;
        }
    }
    true
}

/// Returns the bytes of each of `chunks`, lent.
fn lend<'a, C: Chunk>(alloc: Global, chunks: &'a [C]) -> Result<Vec<&'a [u8]>, NoMemory>
    ensures { IfOk result (λ v. map (λ c. c.now) v.items ≡ map C.text chunks.now) }
{
    let mut lent = Vec::with_capacity(alloc, chunks.len())?;
    for chunk in chunks {
        lent.push(chunk.bytes())?;
    }
    Ok(lent)
}

/// Returns what each of `operations` is written as.
fn encoded<O: Write>(alloc: Global, operations: &[O]) -> Result<Vec<Vec<u8>>, NoMemory>
    ensures bytes { IfOk result (λ v. map (λ e. e.items) v.items ≡ map O.text operations.now) }
    ensures count { IfOk result (λ v. length v.items ≡ length operations.now) }
{
    let mut elements = Vec::with_capacity(alloc, operations.len())?;
    for operation in operations {
        let mut bytes = Vec::new(alloc);
        operation.write(&mut bytes)?;
        elements.push(bytes)?;
    }
    Ok(elements)
}

/// Proofs over chunks of a size that is known when the program is compiled.
pub mod constant {
    /// A proof that one operation is active, over a chunk of `N` bytes.
    pub type OperationProof<F, D, const N: usize> = crate::qmdb::current::proof::operation::Proof<
        F,
        D,
        [u8; N],
    >;
}

/// Proofs over chunks of a size that is known at run time.
pub mod dynamic {
    /// A proof that one operation is active, over a chunk that is shared bytes.
    pub type OperationProof<F, D> = crate::qmdb::current::proof::operation::Proof<
        F,
        D,
        bytes::Bytes,
    >;
}
