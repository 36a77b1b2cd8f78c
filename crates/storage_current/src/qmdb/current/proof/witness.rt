//! Witnesses that an operations root is the snapshot's.
//!
//! A witness has all other parts of the canonical string. Whoever has the operations root so can check plain proofs of
//! operations against it, without chunks.

ghost use Rattle.std.specs.Prelude.{◌≡◌, ◌↔◌, ℕ, ◌<◌, ◌^◌, IsTrue, IfOk, IfSome, option_map};
ghost use Rattle.storage_current.specs.CurrentProofs.{witness_string};
ghost use Rattle.storage_current.specs.WitnessWire.{MeansWitness, witness_of, witness_with};

mod codec;
mod opening;

use crate::laws::witnesses_are_sound;
use crate::qmdb::current::root::canonical_root;
use std::marker::PhantomData;
use storage_codec::NoMemory;
use storage_codec::digest::{Digest, Hasher};

/// What a canonical root is made of beside the operations root: with these parts the operations root gives the canonical
/// root.
#[derive(Drop)]
#[derive_where(Debug, PartialEq, Eq; D)]
pub struct OpsRootWitness<F, D> {
    /// The root of the grafted view.
    pub grafted_root: D,
    /// The digest of the complete chunk that is not graftable, if there is one.
    pub pending_chunk_digest: Option<D>,
    /// How many bits the chunk after the complete ones has, and its digest; none if it has no bit.
    pub partial_chunk: Option<(u64, D)>,
    /// The family of the trees, which no part of the witness tells.
    #[derive_where(skip)]
    pub family: PhantomData<F>,
}

impl<F, D: Digest> OpsRootWitness<F, D> {
    /// Returns the witness of these parts; `next_bit`, how many bits the partial chunk has, counts only if `partial`
    /// has its digest.
    pub(crate) fn of(
        grafted_root: D,
        pending_chunk_digest: Option<D>,
        next_bit: u64,
        partial: Option<D>,
    ) -> Self
        ensures { witness_of D.text result ≡ witness_with (D.text grafted_root)
            (option_map D.text pending_chunk_digest) next_bit (option_map D.text partial) }
    {
        let partial_chunk = match partial {
            None => None,
            Some(digest) => Some((next_bit, digest)),
        };
        OpsRootWitness {
            grafted_root,
            pending_chunk_digest,
            partial_chunk,
            family: PhantomData,
        }
    }

    /// Returns an equal witness. It allocates nothing.
    pub fn clone(&self) -> Result<Self, NoMemory>
        ensures { result ≡ Ok self.now }
    {
        Ok(self.copied())
    }

    /// Returns an equal witness.
    pub(crate) fn copied(&self) -> Self
        ensures { result ≡ self.now }
    {
        OpsRootWitness {
            grafted_root: self.grafted_root,
            pending_chunk_digest: self.pending_chunk_digest,
            partial_chunk: self.partial_chunk,
            family: PhantomData,
        }
    }

    /// Returns the canonical root that `ops_root` gives with this witness. Allocates nothing.
    pub fn root<H: Hasher<Digest = D>>(&self, ops_root: &D) -> D
        ensures { D.text result
            ≡ H.hash_of (witness_string (witness_of D.text self.now) (D.text ops_root.now)) }
    {
        self.combined::<H>(ops_root)
    }

    /// Returns the canonical root that `ops_root` gives with this witness; the number of bits is a `u64`.
    fn combined<H: Hasher<Digest = D>>(&self, ops_root: &D) -> D
        ensures root { D.text result
            ≡ H.hash_of (witness_string (witness_of D.text self.now) (D.text ops_root.now)) }
        ensures bits { IfSome self.now.partial_chunk (λ p. p.0 < 2 ^ 64) }
    {
        match self.partial_chunk {
            None => canonical_root::<H>(
                ops_root,
                &self.grafted_root,
                &self.pending_chunk_digest,
                0,
                &None,
            ),
            Some((next_bit, digest)) => canonical_root::<H>(
                ops_root,
                &self.grafted_root,
                &self.pending_chunk_digest,
                next_bit,
                &Some(digest),
            ),
        }
    }

    /// Returns whether `ops_root` is the operations root of the snapshot with the canonical root `root`. Allocates
    /// nothing.
    pub fn verify<H: Hasher<Digest = D>>(&self, ops_root: &D, root: &D) -> bool
        ensures exact { IsTrue result ↔ (H.hash_of
            (witness_string (witness_of D.text self.now) (D.text ops_root.now)) ≡ D.text root.now) }
        ensures meaning { 0 < D.size
            → IsTrue result
            → MeansWitness H.hash_of (witness_of D.text self.now) (D.text ops_root.now)
            (D.text root.now) }
    {
        witnesses_are_sound();
        self.combined::<H>(ops_root) == *root
    }
}
