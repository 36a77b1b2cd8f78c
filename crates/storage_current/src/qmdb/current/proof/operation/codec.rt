//! Operation proofs as bytes: the location, the chunk with no length before it, the range proof.

ghost use Rattle.std.specs.Prelude.{◌≡◌, ◌≢◌, ℕ, ◌+◌, Err};
ghost use Rattle.storage_codec.specs.Codec.{Gives};
ghost use Rattle.storage_codec.specs.Parts.{IsEnding};
ghost use Rattle.storage_bitmap.specs.Chunks.{IsChunkSize};
ghost use Rattle.storage_current.specs.Held.{operation_proof_of, range_proof_of};
ghost use Rattle.storage_current.specs.Snapshots.{OperationProof};
ghost use Rattle.storage_current.specs.CurrentWire.{operation_text, operation_at, sized_operation_at, IsAdmittedArray, IsAdmittedSized};
ghost use Rattle.storage_current.specs.Laws.CurrentWire.{operation_again, operation_back, sized_again, sized_back, held_digests};

use crate::qmdb::current::grafting;
use crate::qmdb::current::proof::operation::Proof;
use crate::qmdb::current::proof::{Chunk, RangeProof};
use bytes::Bytes;
use std::alloc::Global;
use storage_codec::NoMemory;
use storage_codec::codec::{Buf, Canonical, Codec, EncodeSize, Error, Read, Write, sum};
use storage_codec::digest::Digest;
use storage_merkle::merkle::{Graftable, Location};

impl<F: Graftable, D: Digest, C: Chunk> Write for Proof<F, D, C> {
    ghost text = { λ p. operation_text F.has_pending (record {
      location = p.loc;
      chunk = C.text p.chunk;
      range = range_proof_of D.text p.range_proof;
    }) };

    fn write(&self, out: &mut Vec<u8>) -> Result<(), NoMemory> {
        self.loc.write(out)?;
        out.extend_from_slice(self.chunk.bytes())?;
        self.range_proof.write(out)
    }
}

impl<F: Graftable, D: Digest, C: Chunk> EncodeSize for Proof<F, D, C> {
    fn encode_size(&self) -> Option<u64> {
        let chunk = Some(self.chunk.bytes().len() as u64);
        sum(
            self.loc.encode_size(),
            sum(chunk, self.range_proof.encode_size()),
        )
    }
}

/// The chunk is read as `N` bytes.
impl<F: Graftable, D: Digest, const N: usize> Read for Proof<F, D, [u8; N]> {
    /// The greatest number of digests that is read.
    type Cfg = usize;

    ghost View = { OperationProof };

    ghost view = { λ p.
        record { location = p.loc; chunk = p.chunk; range = range_proof_of D.text p.range_proof } };

    ghost admits = { λ most p. IsAdmittedArray F.has_pending N most
        (record { location = p.loc; chunk = p.chunk; range = range_proof_of D.text p.range_proof }) };

    ghost parse = { λ most. operation_at F.has_pending D.size N most };

    #[tactic(auto, using(storage_codec::specs::Laws::Parts::ends_then))]
    fn read_cfg<B: Buf>(alloc: Global, buf: &mut B, most: &usize) -> Result<Self, Error> {
        let loc = match Location::read_cfg(alloc, buf, &()) {
            Ok(loc) => loc,
            Err(error) => return Err(error),
        };
        let mut chunk = [0u8; N];
        buf.read_into(&mut chunk)?;
        match RangeProof::read_cfg(alloc, buf, most) {
            Ok(range_proof) => Ok(Proof {
                loc,
                chunk,
                range_proof,
            }),
            Err(error) => Err(error),
        }
    }
}

/// The chunk is cut from the bytes; a size that chunks can't have is refused first.
impl<F: Graftable, D: Digest> Read for Proof<F, D, Bytes> {
    /// The size of the chunk in bytes, and the greatest number of digests that is read.
    type Cfg = (usize, usize);

    ghost View = { OperationProof };

    ghost view = { λ p.
        record { location = p.loc; chunk = p.chunk; range = range_proof_of D.text p.range_proof } };

    ghost admits = { λ cfg p. IsAdmittedSized F.has_pending cfg.0 cfg.1
        (record { location = p.loc; chunk = p.chunk; range = range_proof_of D.text p.range_proof }) };

    ghost parse = { λ cfg. sized_operation_at F.has_pending D.size cfg.0 cfg.1 };

    /// Refuses a size that chunks can't have without taking memory.
    #[tactic(auto, using(storage_codec::specs::Laws::Parts::ends_then))]
    fn read_cfg<B: Buf>(alloc: Global, buf: &mut B, cfg: &(usize, usize)) -> Result<Self, Error>
        ensures gives { Gives (λ p. operation_proof_of D.text (λ c. c) p) result
            (B.unread buf.new) (sized_operation_at F.has_pending D.size cfg.now.0 cfg.now.1
            (B.unread buf.old)) }
        ensures ends { IsEnding (B.unread buf.old) (B.unread buf.new) }
        ensures no_memory { ¬ IsChunkSize cfg.now.0 → result ≢ Err Error.Memory }
    {
        let (chunk_size, most) = *cfg;
        if grafting::chunk_height(chunk_size).is_none() {
            return Err(Error::Invalid("current proof", "invalid bitmap chunk size"));
        }
        let loc = match Location::read_cfg(alloc, buf, &()) {
            Ok(loc) => loc,
            Err(error) => return Err(error),
        };
        let chunk = match buf.cut(alloc, chunk_size) {
            Ok(chunk) => chunk,
            Err(error) => return Err(error),
        };
        match RangeProof::read_cfg(alloc, buf, &most) {
            Ok(range_proof) => Ok(Proof {
                loc,
                chunk,
                range_proof,
            }),
            Err(error) => Err(error),
        }
    }
}

impl<F: Graftable, D: Digest, const N: usize> Codec for Proof<F, D, [u8; N]> {
    ghost again = { λ most p rest ok. operation_again F.has_pending D.size N most
        (record { location = p.loc; chunk = p.chunk; range = range_proof_of D.text p.range_proof }) rest
        (held_digests D.text D.size D.sized p.range_proof) ok.chunk ok.proof };
}

impl<F: Graftable, D: Digest, const N: usize> Canonical for Proof<F, D, [u8; N]> {
    ghost back = { λ most bytes p rest fits e.
        operation_back F.has_pending D.size N most bytes (record {
          location = p.loc;
          chunk = p.chunk;
          range = range_proof_of D.text p.range_proof;
        }) rest fits e };
}

impl<F: Graftable, D: Digest> Codec for Proof<F, D, Bytes> {
    ghost again = { λ cfg p rest ok. sized_again F.has_pending D.size cfg.0 cfg.1
        (record { location = p.loc; chunk = p.chunk; range = range_proof_of D.text p.range_proof }) rest
        (held_digests D.text D.size D.sized p.range_proof) ok };
}

impl<F: Graftable, D: Digest> Canonical for Proof<F, D, Bytes> {
    ghost back = { λ cfg bytes p rest fits e.
        sized_back F.has_pending D.size cfg.0 cfg.1 bytes (record {
          location = p.loc;
          chunk = p.chunk;
          range = range_proof_of D.text p.range_proof;
        }) rest fits e };
}
