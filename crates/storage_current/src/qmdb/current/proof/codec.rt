//! Range proofs as bytes: the proof over the grafted view, the slots of the pending and of the partial chunk's
//! digest, the operations root.

ghost use Rattle.std.specs.Prelude.{◌≡◌, length};
ghost use Rattle.storage_codec.specs.Parts.{option_text, size_of};
ghost use Rattle.storage_current.specs.Held.{range_proof_of};
ghost use Rattle.storage_current.specs.Snapshots.{RangeProof as RangeProofOf};
ghost use Rattle.storage_current.specs.CurrentWire.{range_proof_text, range_proof_at, IsAdmittedRangeProof};
ghost use Rattle.storage_current.specs.Laws.CurrentWire.{current_again, current_back, held_digests};

use crate::qmdb::current::proof::RangeProof;
use std::alloc::Global;
use storage_codec::NoMemory;
use storage_codec::codec::{Buf, Canonical, Codec, EncodeSize, Error, Read, Write, sum};
use storage_codec::digest::Digest;
use storage_merkle::merkle::{Graftable, Proof};

impl<F: Graftable, D: Digest> Write for RangeProof<F, D> {
    ghost text = { λ p. range_proof_text F.has_pending (range_proof_of D.text p) };

    fn write(&self, out: &mut Vec<u8>) -> Result<(), NoMemory> {
        self.proof.write(out)?;
        F::write_pending(&self.pending_chunk_digest, out)?;
        D::write_option(&self.partial_chunk_digest, out)?;
        out.extend_from_slice(self.ops_root.bytes())?;
        Ok(())
    }
}

impl<F: Graftable, D: Digest> EncodeSize for RangeProof<F, D> {
    fn encode_size(&self) -> Option<u64> {
        let partial = option_size(&self.partial_chunk_digest);
        let ends = sum(partial, Some(D::size() as u64));
        let pending = Some(F::pending_size(&self.pending_chunk_digest));
        sum(self.proof.encode_size(), sum(pending, ends))
    }
}

/// Returns how many bytes `digest` is written as: a truth value, then the digest if there is one. Allocates nothing.
fn option_size<D: Digest>(digest: &Option<D>) -> Option<u64>
    ensures { result ≡ size_of (length (option_text D.text digest.now)) }
{
    match digest {
        None => Some(1),
        Some(_) => Some(D::size() as u64 + 1),
    }
}

impl<F: Graftable, D: Digest> Read for RangeProof<F, D> {
    /// The greatest number of digests that is read.
    type Cfg = usize;

    ghost View = { RangeProofOf };

    ghost view = { λ p. range_proof_of D.text p };

    ghost admits = { λ most p. IsAdmittedRangeProof F.has_pending most (range_proof_of D.text p) };

    ghost parse = { λ most. range_proof_at F.has_pending D.size most };

    #[tactic(auto, using(storage_codec::specs::Laws::Parts::ends_then))]
    fn read_cfg<B: Buf>(alloc: Global, buf: &mut B, most: &usize) -> Result<Self, Error> {
        let proof = match Proof::<F, D>::read_cfg(alloc, buf, most) {
            Ok(proof) => proof,
            Err(error) => return Err(error),
        };
        let pending_chunk_digest = match F::read_pending::<D, B>(alloc, buf) {
            Ok(pending) => pending,
            Err(error) => return Err(error),
        };
        let partial_chunk_digest = match D::read_option(alloc, buf) {
            Ok(partial) => partial,
            Err(error) => return Err(error),
        };
        match D::read(alloc, buf) {
            Ok(ops_root) => Ok(RangeProof {
                proof,
                pending_chunk_digest,
                partial_chunk_digest,
                ops_root,
            }),
            Err(error) => Err(error),
        }
    }
}

impl<F: Graftable, D: Digest> Codec for RangeProof<F, D> {
    ghost again = { λ most p rest ok. current_again F.has_pending D.size most
        (range_proof_of D.text p) rest (held_digests D.text D.size D.sized p) ok };
}

impl<F: Graftable, D: Digest> Canonical for RangeProof<F, D> {
    ghost back = { λ most bytes p rest fits e.
        current_back F.has_pending D.size most bytes (range_proof_of D.text p) rest fits e };
}
