//! Range proofs from stores that may fail.

ghost use Rattle.std.specs.Prelude.{◌≡◌, ℕ, ◌+◌, ◌-◌, ◌<◌, ◌≤◌, ◌^◌, ◌⊎◌, IfOk, IfErr, OnOk, None, Some};
ghost use Rattle.storage_merkle.specs.Plans.{PlanOf};
ghost use Rattle.storage_current.specs.BuiltProofs.{AreAnswered, AreBitsOf, ArePartsOf};
ghost use Rattle.storage_current.specs.Held.{range_proof_of};
ghost use Rattle.storage_current.specs.Served.{AreServedOf, Counts, IsNotMade, IsNotRead, IsServable, IsStoreFault, held_at};
ghost use Rattle.storage_current.specs.Snapshots.{Snapshot as SnapshotOf, own_range_proof, grafting_of};

use crate::qmdb::current::proof::RangeProof;
use crate::qmdb::current::proof::planned_digests::{Fetched, stored_leaves};
use std::alloc::Global;
use std::ops::Range;
use storage_bitmap::bitmap::Readable;
use storage_codec::digest::{Digest, Hasher};
use storage_merkle::merkle::{self, Countable, Graftable, Location, RangePlan, Storage};
use storage_ops::qmdb::Error;

impl<F: Graftable, D: Digest> RangeProof<F, D> {
    /// Returns the proof of the operations at the locations of `range`, from `storage`, which has the grafted view's
    /// nodes; `status` are the snapshot's bits, `floor` its inactivity floor, `ops_root` its operations root. A floor
    /// past the leaves counts as the leaves.
    ///
    /// # Errors
    ///
    /// The first of: `DataCorrupted` of the tree if no tree has as many nodes as the store; those of `RangePlan::new`;
    /// `ElementPruned` of the first planned position, ascending, if it has no digest; those of `build`. `Source` if the
    /// store failed, with its code, exactly if its count of failures grew, by one.
    pub fn new<H: Hasher<Digest = D>, R: Readable<N>, S: Storage<F, Digest = D>, const N: usize>(
        alloc: Global,
        status: &R,
        storage: &mut S,
        floor: Location<F>,
        range: Range<Location<F>>,
        ops_root: D,
    ) -> Result<Self, Error<F>>
    where
        F: Countable,
        requires { S.failed storage.old + 1 < 2 ^ 64 }
        ensures own { let g = grafting_of F.shape N in
            IfOk result (λ proof. (s : SnapshotOf)
            → AreServedOf (S.nodes storage.old) (S.node storage.old) g range.start range.end
            (R.retained status.now) D.text H.hash_of floor (D.text ops_root) s
            → range_proof_of D.text proof ≡ own_range_proof H.hash_of g s range.start range.end) }
        ensures made { let g = grafting_of F.shape N in
            OnOk result (IsServable (S.nodes storage.old)
            (S.node storage.old) g range.start range.end (R.retained status.now) F) }
        ensures why { let g = grafting_of F.shape N in
            IfErr result (IsNotMade (S.nodes storage.old) (S.node storage.old)
            (S.may_fail storage.old) g range.start range.end (R.retained status.now)) }
        ensures failures { Counts (IsStoreFault result) (S.failed storage.old)
            (S.failed storage.new) }
        ensures same_size { S.nodes storage.new ≡ S.nodes storage.old }
        ensures same { (p : ℕ) → S.node storage.new p ≡ S.node storage.old p }
    {
        let leaves = match stored_leaves::<F, S>(storage) {
            Ok(leaves) => leaves,
            Err(error) => return Err(error),
        };
        let plan = match RangePlan::new(alloc, leaves, range) {
            Ok(plan) => plan,
            Err(error) => match error {
                merkle::Error::Memory => return Err(Error::Memory),
                error => return Err(Error::Merkle(error)),
            },
        };
        Self::read::<H, R, S, N>(alloc, status, storage, plan, floor, ops_root)
    }

    /// Returns the proof of the range of `plan`, from `storage`, which has the grafted view's nodes; `status`, `floor`
    /// and `ops_root` are the snapshot's.
    pub(crate) fn read<
        H: Hasher<Digest = D>,
        R: Readable<N>,
        S: Storage<F, Digest = D>,
        const N: usize,
    >(
        alloc: Global,
        status: &R,
        storage: &mut S,
        plan: RangePlan<F>,
        floor: Location<F>,
        ops_root: D,
    ) -> Result<Self, Error<F>>
        requires { S.failed storage.old + 1 < 2 ^ 64 }
        ensures own { let g = grafting_of F.shape N in
            IfOk result (λ proof. (s : SnapshotOf)
            → ArePartsOf D.text (held_at (S.node storage.old)) H.hash_of g plan
            (R.retained status.now) floor (D.text ops_root) s
            → range_proof_of D.text proof ≡ own_range_proof H.hash_of g s plan.start plan.end) }
        ensures answered { OnOk result (AreAnswered (held_at (S.node storage.old)) F.shape plan) }
        ensures bits { let g = grafting_of F.shape N in
            OnOk result (AreBitsOf g plan.leaves (R.retained status.now)) }
        ensures why { let g = grafting_of F.shape N in
            IfErr result (IsNotRead (S.node storage.old)
            (S.may_fail storage.old) g plan (R.retained status.now)) }
        ensures failures { Counts (IsStoreFault result) (S.failed storage.old)
            (S.failed storage.new) }
        ensures same_size { S.nodes storage.new ≡ S.nodes storage.old }
        ensures same { (p : ℕ) → S.node storage.new p ≡ S.node storage.old p }
    {
        let fetched = match Fetched::read(alloc, storage, &plan) {
            Ok(fetched) => fetched,
            Err(error) => return Err(error),
        };
        Self::build::<H, R, _, N>(
            alloc,
            status,
            plan,
            |position| fetched.get(position),
            floor,
            ops_root,
        )
    }
}
