//! Proofs that one operation is active.
//!
//! The proof is a range proof of one location, with its chunk. The check looks at the operation's bit in that chunk first,
//! and at the chunk's place in the canonical string after.

ghost use Rattle.std.specs.Prelude.{◌≡◌, ◌↔◌, ◌⊎◌, OnOk, IfOk, IfErr, IfSome, MatchOption, IsTrue, Ok, true, false, ℕ, ◌+◌, ◌-◌, ◌*◌, ◌%◌, ◌^◌, ◌<◌, ◌≤◌, length};
ghost use Rattle.std.specs.List.{All};
ghost use Rattle.storage_merkle.specs.Plans.{planned};
ghost use Rattle.storage_bitmap.specs.Chunks.{IsChunkSize};
ghost use Rattle.storage_bitmap.specs.Packed.{bit_in};
ghost use Rattle.storage_current.specs.CurrentProofs.{IsActiveCurrent};
ghost use Rattle.storage_current.specs.CurrentSoundness.{MeansActive};
ghost use Rattle.storage_current.specs.Held.{operation_proof_of, ClonesAreEqual};
ghost use Rattle.storage_current.specs.BuiltProofs.{AreAnswered, AreBitsOf, ArePartsOf, IsNotBuilt};
ghost use Rattle.storage_current.specs.Snapshots.{Snapshot as SnapshotOf, first_chunk, height, own_operation_proof, grafting_of};

mod codec;
mod from_store;

use crate::laws::operation_proofs_are_sound;
use crate::qmdb::current::grafting;
use crate::qmdb::current::proof::window::Window;
use crate::qmdb::current::proof::{Chunk, RangeProof};
use std::alloc::Global;
use storage_bitmap::bitmap::{Readable, is_set};
use storage_codec::NoMemory;
use storage_codec::codec::Write;
use storage_codec::digest::{Digest, Hasher};
use storage_merkle::merkle::{ElementPlan, Graftable, Location, Position};
use storage_ops::qmdb::Error;

/// A proof that the operation at a location is active. `C` is the chunk with its activity bit.
#[derive(Drop)]
#[derive_where(Debug, PartialEq, Eq; D, C)]
pub struct Proof<F, D, C> {
    /// The location of the operation.
    pub loc: Location<F>,
    /// The chunk with its activity bit.
    pub chunk: C,
    /// The proof of the operation and its chunk.
    pub range_proof: RangeProof<F, D>,
}

impl<F: Graftable, D: Digest, const N: usize> Proof<F, D, [u8; N]> {
    /// Returns the proof of the location of `plan`, from the digests that `get_node` answers for the planned positions:
    /// those of the grafted view; `status` are the snapshot's bits, `floor` its inactivity floor, `ops_root` its
    /// operations root. Whether the location's bit is set is not looked at.
    ///
    /// # Errors
    ///
    /// The first of: `OperationPruned` of the location if its chunk is pruned; those of [`RangeProof::build`].
    pub fn build<H: Hasher<Digest = D>, R: Readable<N>, G: Fn(Position<F>) -> Option<D>>(
        alloc: Global,
        status: &R,
        plan: ElementPlan<F>,
        get_node: G,
        floor: Location<F>,
        ops_root: D,
    ) -> Result<Self, Error<F>>
        requires { All (λ p. G.pre get_node p) (planned F.shape plan.leaves plan.start plan.end) }
        ensures own { let g = grafting_of F.shape N in
            IfOk result (λ proof. (s : SnapshotOf) → ArePartsOf D.text
            (G.post get_node) H.hash_of g plan (R.retained status.now) floor (D.text ops_root) s
            → operation_proof_of D.text (λ c. c) proof
            ≡ own_operation_proof H.hash_of g s plan.start) }
        ensures answered { OnOk result (AreAnswered (G.post get_node) F.shape plan) }
        ensures bits { let g = grafting_of F.shape N in
            OnOk result (AreBitsOf g plan.leaves (R.retained status.now)) }
        ensures kept { let g = grafting_of F.shape N in
            OnOk result ((R.retained status.now).pruned ≤ first_chunk g plan.start) }
        ensures why { let g = grafting_of F.shape N in
            IfErr result (λ error. ((first_chunk g plan.start < (R.retained status.now).pruned)
            × (error ≡ Error.OperationPruned plan.start))
            ⊎ (((R.retained status.now).pruned ≤ first_chunk g plan.start)
            × IsNotBuilt (G.post get_node) g plan (R.retained status.now) error)) }
    {
        let loc = plan.location();
        let pruned = status.pruned_chunks();
        let chunk = (loc.as_u64() >> grafting::height::<N>()) as usize;
        if chunk < pruned {
            return Err(Error::OperationPruned(loc));
        }
        match RangeProof::build::<H, R, G, N>(
            alloc,
            status,
            plan.into(),
            get_node,
            floor,
            ops_root,
        ) {
            Ok(range_proof) => Ok(Proof {
                loc,
                chunk: status.get_chunk(chunk),
                range_proof,
            }),
            Err(error) => Err(error),
        }
    }
}

impl<F: Graftable, D: Digest, C: Chunk> Proof<F, D, C> {
    /// Returns whether `operation` stands at the proof's location of the snapshot with the canonical root `root`, and
    /// is active. The no of a chunk size that is no power of two up to `2^59` bytes, and of a clear bit, allocates
    /// nothing.
    pub fn verify<H: Hasher<Digest = D>, O: Write + Drop>(
        &self,
        alloc: Global,
        operation: O,
        root: &D,
    ) -> Result<bool, NoMemory>
        ensures exact { IfOk result (λ yes. IsTrue yes
            ↔ IsActiveCurrent H.hash_of (grafting_of F.shape (length (C.text self.now.chunk)))
            (operation_proof_of D.text C.text self.now) (O.text operation) (D.text root.now)) }
        ensures meaning { (D.size ≡ 32) ⊎ (D.size ≡ 64)
            → IfOk result (λ yes. IsTrue yes
            → MeansActive H.hash_of (grafting_of F.shape (length (C.text self.now.chunk)))
            (operation_proof_of D.text C.text self.now) (O.text operation) (D.text root.now)) }
        ensures at_once { (IsChunkSize (length (C.text self.now.chunk))
            → bit_in (C.text self.now.chunk) (self.now.loc % 2 ^ height
            (grafting_of F.shape (length (C.text self.now.chunk)))) ≡ true → ⊥)
            → result ≡ Ok false }
    {
        if !self.is_active() {
            return Ok(false);
        }
        let mut bytes = Vec::new(alloc);
        operation.write(&mut bytes)?;
        self.verify_encoded::<H>(alloc, &bytes, root)
    }

    /// As [`verify`](Self::verify), for an operation that is bytes already.
    pub fn verify_encoded<H: Hasher<Digest = D>>(
        &self,
        alloc: Global,
        operation: &[u8],
        root: &D,
    ) -> Result<bool, NoMemory>
        ensures exact { IfOk result (λ yes. IsTrue yes
            ↔ IsActiveCurrent H.hash_of (grafting_of F.shape (length (C.text self.now.chunk)))
            (operation_proof_of D.text C.text self.now) operation.now (D.text root.now)) }
        ensures meaning { (D.size ≡ 32) ⊎ (D.size ≡ 64)
            → IfOk result (λ yes. IsTrue yes
            → MeansActive H.hash_of (grafting_of F.shape (length (C.text self.now.chunk)))
            (operation_proof_of D.text C.text self.now) operation.now (D.text root.now)) }
        ensures at_once { (IsChunkSize (length (C.text self.now.chunk))
            → bit_in (C.text self.now.chunk) (self.now.loc % 2 ^ height
            (grafting_of F.shape (length (C.text self.now.chunk)))) ≡ true → ⊥)
            → result ≡ Ok false }
    {
        let Some(height) = self.active_height() else {
            return Ok(false);
        };
        let leaves = self.range_proof.proof.leaves.as_u64();
        let Some(window) = Window::of_height::<F>(leaves, self.loc.as_u64(), 1, 1, height) else {
            return Ok(false);
        };
        operation_proofs_are_sound();
        self.range_proof.verify_in::<H, &[u8], &[u8]>(
            alloc,
            &window,
            self.loc,
            &[operation],
            &[self.chunk.bytes()],
            root,
        )
    }

    /// Returns whether the chunk has a size that chunks may have, a power of two up to `2^59` bytes, and the bit of the
    /// location is set in it.
    pub(crate) fn is_active(&self) -> bool
        ensures { IsTrue result ↔ (IsChunkSize (length (C.text self.now.chunk))
            × (bit_in (C.text self.now.chunk) (self.now.loc % 2 ^ height
            (grafting_of F.shape (length (C.text self.now.chunk)))) ≡ true)) }
    {
        self.active_height().is_some()
    }

    /// Returns the height of the node over the operations of a chunk of this one's size; none if no chunk may have it,
    /// or the bit of the location is not set in the chunk.
    fn active_height(&self) -> Option<u32>
        ensures bit { let n = length (C.text self.now.chunk) in
            MatchOption result (IsChunkSize n → bit_in (C.text self.now.chunk)
            (self.now.loc % 2 ^ height (grafting_of F.shape n)) ≡ true → ⊥)
            (λ _. IsChunkSize n × (bit_in (C.text self.now.chunk)
            (self.now.loc % 2 ^ height (grafting_of F.shape n)) ≡ true)) }
        ensures power { IfSome result (λ k.
            (8 * length (C.text self.now.chunk) ≡ 2 ^ k) × (1 ≤ k) × (k ≤ 62)) }
    {
        let chunk = self.chunk.bytes();
        let height = grafting::chunk_height(chunk.len())?;
        if is_set(chunk, self.loc.as_u64() % grafting::power(height)) {
            Some(height)
        } else {
            None
        }
    }
}

impl<F: Graftable, D: Digest, C: Chunk + Clone> Proof<F, D, C> {
    /// Returns a proof equal to this one, where a clone of a chunk is equal to it. `NoMemory` if there is no memory for
    /// it.
    pub fn clone(&self) -> Result<Self, NoMemory>
        ensures { ClonesAreEqual C.is_clone C.text
            → IfOk result (λ copy.
            operation_proof_of D.text C.text copy ≡ operation_proof_of D.text C.text self.now) }
    {
        Ok(Proof {
            loc: self.loc,
            chunk: self.chunk.clone()?,
            range_proof: self.range_proof.clone()?,
        })
    }
}
