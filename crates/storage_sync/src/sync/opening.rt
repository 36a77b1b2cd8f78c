//! What a copy begins with, if what is before it is told by pins alone.

ghost use Rattle.std.specs.Prelude.{◌↔◌, ◌<◌, IsTrue, IfOk};
ghost use Rattle.storage_bitmap.specs.Chunks.{IsChunkSize};
ghost use Rattle.storage_current.specs.Openings.{MeansOpening};
ghost use Rattle.storage_current.specs.Snapshots.{grafting_of};
ghost use Rattle.storage_sync.specs.Held.{opening_of};
ghost use Rattle.storage_sync.specs.Openings.{IsAcceptedOpening};

mod codec;

use std::alloc::Global;
use storage_codec::NoMemory;
use storage_codec::digest::{Digest, Hasher};
use storage_current::qmdb::current::proof::OpsRootWitness;
use storage_merkle::merkle::{Graftable, Location, Proof};

/// Where a copy begins, the operations root with its witness, a plain proof of operations from there on, and the digests of the peaks
/// over what is before: over the operations, and over the chunks. It is written as these parts, one after another.
#[derive(Drop)]
pub struct Opening<F, D> {
    /// The location of the first operation: a chunk begins there.
    pub begin: Location<F>,
    /// The witness that the operations root is the snapshot's.
    pub witness: OpsRootWitness<F, D>,
    /// The root of the tree over the operations alone.
    pub ops_root: D,
    /// The proof of `operations` under the operations root.
    pub proof: Proof<F, D>,
    /// Some operations from the first one on, as they are written.
    pub operations: Vec<Vec<u8>>,
    /// The digests of the peaks over the operations before, in leaf order.
    pub pins: Vec<D>,
    /// The grafted view's digests of the peaks over the chunks before, in leaf order.
    pub over_chunks: Vec<D>,
}

impl<F: Graftable, D: Digest> Opening<F, D> {
    /// Returns whether it is an opening of the snapshots with the canonical root `root`, in all but the pins over the chunks: a
    /// chunk of `N` bytes begins where it begins, its witness has the operations root, and under this its operations stand there
    /// behind its pins. What the pins over the chunks are worth shows the grafted root that they give.
    ///
    /// # Errors
    ///
    /// `NoMemory` if memory runs out.
    pub fn is_accepted<H: Hasher<Digest = D>, const N: usize>(
        &self,
        alloc: Global,
        root: &D,
    ) -> Result<bool, NoMemory>
        requires { IsChunkSize N }
        ensures exact { let g = grafting_of F.shape N in
            IfOk result (λ yes. IsTrue yes
            ↔ IsAcceptedOpening H.hash_of g (opening_of D.text self.now) (D.text root.now)) }
        ensures meaning { 0 < D.size → let o = opening_of D.text self.now in
            IfOk result (λ yes. IsTrue yes → MeansOpening H.hash_of F.shape o.witness o.ops_root
            o.proof o.begin o.operations o.pins (D.text root.now)) }
    {
        if self.begin.as_u64() % (8 * N as u64) != 0 {
            return Ok(false);
        }
        self.witness.verify_pins::<H, Vec<u8>>(
            alloc,
            &self.proof,
            self.begin,
            &self.operations,
            &self.pins,
            &self.ops_root,
            root,
        )
    }
}
