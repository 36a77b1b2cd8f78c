//! Operation proofs from stores that may fail.

ghost use Rattle.std.specs.Prelude.{◌≡◌, ℕ, ◌+◌, ◌-◌, ◌*◌, ◌/◌, ◌%◌, ◌<◌, ◌≤◌, ◌^◌, ◌⊎◌, IfOk, IfErr, OnOk};
ghost use Rattle.storage_current.specs.Held.{operation_proof_of};
ghost use Rattle.storage_current.specs.Served.{AreServedOf, Counts, IsNotMade, IsServable, IsStoreFault};
ghost use Rattle.storage_current.specs.Snapshots.{Snapshot as SnapshotOf, first_chunk, own_operation_proof, grafting_of};

use crate::qmdb::current::grafting;
use crate::qmdb::current::proof::RangeProof;
use crate::qmdb::current::proof::operation::Proof;
use crate::qmdb::current::proof::planned_digests::stored_leaves;
use std::alloc::Global;
use storage_bitmap::bitmap::Readable;
use storage_codec::digest::{Digest, Hasher};
use storage_merkle::merkle::{self, Countable, ElementPlan, Graftable, Location, Storage};
use storage_ops::qmdb::Error;

impl<F: Graftable, D: Digest, const N: usize> Proof<F, D, [u8; N]> {
    /// Returns the proof of the operation at `loc`, from `storage`, which has the grafted view's nodes; `status` are
    /// the snapshot's bits, `floor` its inactivity floor, `ops_root` its operations root. Whether the bit of `loc` is
    /// set is not looked at.
    ///
    /// # Errors
    ///
    /// The first of: `OperationPruned(loc)` if the chunk of `loc` is pruned; those of [`RangeProof::new`] for this one
    /// location.
    pub fn new<H: Hasher<Digest = D>, R: Readable<N>, S: Storage<F, Digest = D>>(
        alloc: Global,
        status: &R,
        storage: &mut S,
        floor: Location<F>,
        loc: Location<F>,
        ops_root: D,
    ) -> Result<Self, Error<F>>
    where
        F: Countable,
        requires { S.failed storage.old + 1 < 2 ^ 64 }
        ensures own { let g = grafting_of F.shape N in
            IfOk result (λ proof. (s : SnapshotOf)
            → AreServedOf (S.nodes storage.old) (S.node storage.old) g loc (loc + 1)
            (R.retained status.now) D.text H.hash_of floor (D.text ops_root) s
            → operation_proof_of D.text (λ c. c) proof ≡ own_operation_proof H.hash_of g s loc) }
        ensures made { let g = grafting_of F.shape N in
            OnOk result (IsServable (S.nodes storage.old) (S.node storage.old) g loc (loc + 1)
            (R.retained status.now) F) }
        ensures kept { let g = grafting_of F.shape N in
            OnOk result ((R.retained status.now).pruned ≤ first_chunk g loc) }
        ensures why { let g = grafting_of F.shape N in
            IfErr result (λ error. ((first_chunk g loc < (R.retained status.now).pruned)
            × (error ≡ Error.OperationPruned loc)) ⊎ (((R.retained status.now).pruned
            ≤ first_chunk g loc) × IsNotMade (S.nodes storage.old) (S.node storage.old)
            (S.may_fail storage.old) g loc (loc + 1) (R.retained status.now) error)) }
        ensures failures { Counts (IsStoreFault result) (S.failed storage.old)
            (S.failed storage.new) }
        ensures same_size { S.nodes storage.new ≡ S.nodes storage.old }
        ensures same { (p : ℕ) → S.node storage.new p ≡ S.node storage.old p }
    {
        let pruned = status.pruned_chunks();
        let chunk = (loc.as_u64() >> grafting::height::<N>()) as usize;
        if chunk < pruned {
            return Err(Error::OperationPruned(loc));
        }
        let leaves = match stored_leaves::<F, S>(storage) {
            Ok(leaves) => leaves,
            Err(error) => return Err(error),
        };
        let plan = match ElementPlan::new(alloc, leaves, loc) {
            Ok(plan) => plan,
            Err(error) => match error {
                merkle::Error::Memory => return Err(Error::Memory),
                error => return Err(Error::Merkle(error)),
            },
        };
        let loc = plan.location();
        let read = RangeProof::read::<H, R, S, N>(
            alloc,
            status,
            storage,
            plan.into(),
            floor,
            ops_root,
        );
        match read {
            Ok(range_proof) => Ok(Proof {
                loc,
                chunk: status.get_chunk(chunk),
                range_proof,
            }),
            Err(error) => Err(error),
        }
    }
}
