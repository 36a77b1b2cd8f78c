//! Key-value proofs as bytes: the operation proof, then the next key.

ghost use Rattle.std.specs.Prelude.{◌≡◌, ℕ, [], ◌++◌};
ghost use Rattle.storage_codec.specs.Codec.{Gives, whole};
ghost use Rattle.storage_codec.specs.Parts.{IsEnding};
ghost use Rattle.storage_current.specs.CurrentWire.{IsAdmittedArray, IsAdmittedSized, operation_at, operation_text, sized_operation_at};
ghost use Rattle.storage_current.specs.Laws.CurrentWire.{held_digests};
ghost use Rattle.storage_current.specs.Held.{operation_proof_of};
ghost use Rattle.storage_current.specs.KeyWire.{pair_at, WithDigests};
ghost use Rattle.storage_current.specs.Laws.KeyWire.{array_read, array_spelled, pair_again, pair_back, sized_read, sized_spelled};
ghost use Rattle.storage_current.specs.Snapshots.{OperationProof};

use crate::qmdb::current::ordered::KeyValueProof;
use crate::qmdb::current::ordered::codec::read_pair;
use crate::qmdb::current::proof::Chunk;
use crate::qmdb::current::proof::operation::Proof;
use bytes::Bytes;
use std::alloc::Global;
use storage_codec::NoMemory;
use storage_codec::codec::{Buf, Canonical, Codec, EncodeSize, Error, Read, Write};
use storage_codec::digest::Digest;
use storage_merkle::merkle::Graftable;
use storage_ops::qmdb::operation::Key;

impl<F: Graftable, K: Key, D: Digest, C: Chunk> Write for KeyValueProof<F, K, D, C> {
    ghost text = { λ x.
        operation_text F.has_pending (operation_proof_of D.text C.text x.proof) ++ K.text x.next_key };

    #[tactic(auto, using(storage_codec::specs::Laws::Parts::starts_then, storage_codec::specs::Laws::Parts::starts_first))]
    fn write(&self, out: &mut Vec<u8>) -> Result<(), NoMemory> {
        self.proof.write(out)?;
        self.next_key.write(out)
    }
}

impl<F: Graftable, K: Key, D: Digest, C: Chunk> EncodeSize for KeyValueProof<F, K, D, C> {
    #[tactic(auto, using(std::proofs::lemmas::Grind::common_steps))]
    fn encode_size(&self) -> Option<u64> {
        self.proof
            .encode_size()?
            .checked_add(self.next_key.encode_size()?)
    }
}

/// The operation proof, then the next key. The chunk is read as `N` bytes.
impl<F: Graftable, K: Key, D: Digest, const N: usize> Read for KeyValueProof<F, K, D, [u8; N]> {
    /// The greatest number of digests, and what the key's reader is told.
    type Cfg = (usize, K::Cfg);

    ghost View = { OperationProof × K.View };

    ghost view = { λ x. (operation_proof_of D.text (λ c. c) x.proof, K.view x.next_key) };

    ghost admits = { λ cfg x. IsAdmittedArray F.has_pending N cfg.0
        (operation_proof_of D.text (λ c. c) x.proof) × K.admits cfg.1 x.next_key };

    ghost parse = { λ cfg. pair_at (operation_at F.has_pending D.size N cfg.0) (K.parse cfg.1) };

    fn read_cfg<B: Buf>(alloc: Global, buf: &mut B, cfg: &(usize, K::Cfg)) -> Result<Self, Error> {
        match read_pair::<Proof<F, D, [u8; N]>, K, B>(alloc, buf, &cfg.0, &cfg.1) {
            Ok((proof, next_key)) => Ok(KeyValueProof { proof, next_key }),
            Err(error) => Err(error),
        }
    }
}

impl<F: Graftable, K: Key, D: Digest> KeyValueProof<F, K, D, Bytes> {
    /// Reads as `read_cfg` does, with the configurations of the parts lent apart: `proof`, the size of the chunk in bytes
    /// and the greatest number of digests; `key`, what the key's reader is told.
    fn read_with<B: Buf>(
        alloc: Global,
        buf: &mut B,
        proof: &(usize, usize),
        key: &K::Cfg,
    ) -> Result<Self, Error>
        ensures gives { Gives (λ x. (operation_proof_of D.text (λ c. c) x.proof, K.view x.next_key))
            result (B.unread buf.new) (pair_at (sized_operation_at F.has_pending D.size proof.now.0
            proof.now.1) (K.parse key.now) (B.unread buf.old)) }
        ensures ends { IsEnding (B.unread buf.old) (B.unread buf.new) }
    {
        match read_pair::<Proof<F, D, Bytes>, K, B>(alloc, buf, proof, key) {
            Ok((proof, next_key)) => Ok(KeyValueProof { proof, next_key }),
            Err(error) => Err(error),
        }
    }

    /// Returns the proof that is all of `buf`, as `decode_cfg` reads it, with the configurations of the parts lent
    /// apart: `proof`, the size of the chunk in bytes and the greatest number of digests; `key`, what the key's reader
    /// is told.
    ///
    /// # Errors
    ///
    /// The first of: those of the operation proof; those of the key; `ExtraData` with the number of bytes left over.
    /// `Memory` may come at any point.
    pub fn decode_with<B: Buf>(
        alloc: Global,
        mut buf: B,
        proof: &(usize, usize),
        key: &K::Cfg,
    ) -> Result<Self, Error>
        ensures { Gives (λ x. (
          operation_proof_of D.text
              (λ c. c) x.proof,
          K.view x.next_key,
        )) result []
            (whole (pair_at (sized_operation_at F.has_pending D.size proof.now.0 proof.now.1)
            (K.parse key.now) (B.unread buf))) }
    {
        let value = Self::read_with(alloc, &mut buf, proof, key)?;
        let left = buf.remaining();
        if left > 0 {
            return Err(Error::ExtraData(left as u64));
        }
        Ok(value)
    }
}

/// The operation proof, then the next key. The chunk is cut from the bytes; a size that chunks can't have is refused
/// first.
impl<F: Graftable, K: Key, D: Digest> Read for KeyValueProof<F, K, D, Bytes> {
    /// The size of the chunk in bytes and the greatest number of digests, and what the key's reader is told.
    type Cfg = ((usize, usize), K::Cfg);

    ghost View = { OperationProof × K.View };

    ghost view = { λ x. (operation_proof_of D.text (λ c. c) x.proof, K.view x.next_key) };

    ghost admits = { λ cfg x. IsAdmittedSized F.has_pending cfg.0.0 cfg.0.1
        (operation_proof_of D.text (λ c. c) x.proof) × K.admits cfg.1 x.next_key };

    ghost parse = { λ cfg.
        pair_at (sized_operation_at F.has_pending D.size cfg.0.0 cfg.0.1) (K.parse cfg.1) };

    fn read_cfg<B: Buf>(
        alloc: Global,
        buf: &mut B,
        cfg: &((usize, usize), K::Cfg),
    ) -> Result<Self, Error> {
        Self::read_with(alloc, buf, &cfg.0, &cfg.1)
    }
}

impl<F: Graftable, K: Key, D: Digest, const N: usize> Codec for KeyValueProof<F, K, D, [u8; N]> {
    ghost again = { λ cfg x rest ok. pair_again (operation_text F.has_pending) K.text
        (λ p. p) K.view (operation_at F.has_pending D.size N cfg.0) (K.parse cfg.1)
        (WithDigests D.size (IsAdmittedArray F.has_pending N cfg.0)) (K.admits cfg.1)
        (array_read F.has_pending D.size N cfg.0) (record { again = K.again cfg.1 })
        (operation_proof_of D.text (λ c. c) x.proof) x.next_key rest
        ((held_digests D.text D.size D.sized x.proof.range_proof, ok.0), ok.1) };
}

impl<F: Graftable, K: Key + Canonical, D: Digest, const N: usize> Canonical
    for KeyValueProof<F, K, D, [u8; N]> {
    ghost back = { λ cfg bytes x rest fits e. pair_back (operation_text F.has_pending) K.text
        (λ p. p) K.view (operation_at F.has_pending D.size N cfg.0) (K.parse cfg.1)
        (array_spelled F.has_pending D.size N cfg.0) (record { back = K.back cfg.1 }) bytes
        (operation_proof_of D.text (λ c. c) x.proof) x.next_key rest fits e };
}

impl<F: Graftable, K: Key, D: Digest> Codec for KeyValueProof<F, K, D, Bytes> {
    ghost again = { λ cfg x rest ok. pair_again (operation_text F.has_pending) K.text
        (λ p. p) K.view (sized_operation_at F.has_pending D.size cfg.0.0 cfg.0.1) (K.parse cfg.1)
        (WithDigests D.size (IsAdmittedSized F.has_pending cfg.0.0 cfg.0.1)) (K.admits cfg.1)
        (sized_read F.has_pending D.size cfg.0.0 cfg.0.1) (record { again = K.again cfg.1 })
        (operation_proof_of D.text (λ c. c) x.proof) x.next_key rest
        ((held_digests D.text D.size D.sized x.proof.range_proof, ok.0), ok.1) };
}

impl<F: Graftable, K: Key + Canonical, D: Digest> Canonical for KeyValueProof<F, K, D, Bytes> {
    ghost back = { λ cfg bytes x rest fits e. pair_back (operation_text F.has_pending) K.text
        (λ p. p) K.view (sized_operation_at F.has_pending D.size cfg.0.0 cfg.0.1) (K.parse cfg.1)
        (sized_spelled F.has_pending D.size cfg.0.0 cfg.0.1) (record { back = K.back cfg.1 }) bytes
        (operation_proof_of D.text (λ c. c) x.proof) x.next_key rest fits e };
}
