//! Openings: what a copy of a snapshot begins with, if what is before it is told by pins alone.
//!
//! A witness binds the operations root to the canonical one. A plain proof under the operations root, of operations from where the copy
//! begins, binds the digests of the peaks over those before.

ghost use Rattle.std.specs.Prelude.{◌≡◌, ◌↔◌, ◌<◌, IfOk, IsTrue, map};
ghost use Rattle.storage_merkle.specs.Held.{proof_of};
ghost use Rattle.storage_current.specs.Openings.{IsOpeningAccepted, MeansOpening};
ghost use Rattle.storage_current.specs.WitnessWire.{witness_of};

use crate::qmdb::current::proof::OpsRootWitness;
use std::alloc::Global;
use std::convert::AsSlice;
use storage_codec::NoMemory;
use storage_codec::digest::{Digest, Hasher};
use storage_merkle::merkle::{Graftable, Location, Proof};
use storage_ops::qmdb;

impl<F: Graftable, D: Digest> OpsRootWitness<F, D> {
    /// Returns whether `ops_root` is the operations root of the snapshot with the canonical root `root`, `operations` stand there from
    /// the location `start` on by `proof`, a plain one, and `pinned` are the digests of the peaks over the operations before `start`,
    /// in leaf order.
    pub fn verify_pins<H: Hasher<Digest = D>, E: AsSlice<u8>>(
        &self,
        alloc: Global,
        proof: &Proof<F, D>,
        start: Location<F>,
        operations: &[E],
        pinned: &[D],
        ops_root: &D,
        root: &D,
    ) -> Result<bool, NoMemory>
        ensures exact { IfOk result (λ yes. IsTrue yes ↔ IsOpeningAccepted H.hash_of F.shape
            (witness_of D.text self.now) (D.text ops_root.now) (proof_of D.text proof.now) start
            (map E.items operations.now) (map D.text pinned.now) (D.text root.now)) }
        ensures meaning { 0 < D.size
            → IfOk result (λ yes. IsTrue yes → MeansOpening H.hash_of F.shape
            (witness_of D.text self.now) (D.text ops_root.now) (proof_of D.text proof.now) start
            (map E.items operations.now) (map D.text pinned.now) (D.text root.now)) }
    {
        if !self.verify::<H>(ops_root, root) {
            return Ok(false);
        }
        let hasher = qmdb::hasher::<H>();
        proof.verify_proof_and_pinned_nodes(alloc, &hasher, operations, start, pinned, ops_root)
    }
}
