//! Exclusion proofs as bytes: a tag, then the operation proof and the update, or the operation proof and the value.

ghost use Rattle.std.specs.Prelude.{◌≡◌, ℕ, ◌+◌, [], ◌∷◌, ◌++◌, length, OnOk, OnErr};
ghost use Rattle.storage_codec.specs.Codec.{Gives, whole};
ghost use Rattle.storage_codec.specs.Parts.{AppendsStart, IsEnding, size_of};
ghost use Rattle.storage_ops.specs.Updates.{ordered_at};
ghost use Rattle.storage_ops.specs.Laws.Updates.{ordered_again, ordered_back};
ghost use Rattle.storage_current.specs.CurrentWire.{IsAdmittedArray, IsAdmittedSized, operation_at, sized_operation_at};
ghost use Rattle.storage_current.specs.HeldKeys.{exclusion_of};
ghost use Rattle.storage_current.specs.KeyProofs.{Exclusion};
ghost use Rattle.storage_current.specs.KeyWire.{IsAdmittedExclusion, exclusion_at, exclusion_map, exclusion_text, pair_at, WithDigests};
ghost use Rattle.storage_current.specs.Laws.KeyWire.{array_read, array_spelled, excluded_digests, exclusion_again, exclusion_back, sized_read, sized_spelled, with_digests};

use crate::qmdb::current::ordered::codec::read_pair;
use crate::qmdb::current::ordered::{ExclusionProof, UpdateCodec};
use crate::qmdb::current::proof::Chunk;
use crate::qmdb::current::proof::operation::Proof;
use bytes::Bytes;
use std::alloc::Global;
use storage_codec::NoMemory;
use storage_codec::codec::util::byte;
use storage_codec::codec::{Buf, Canonical, Codec, EncodeSize, Error, Read, Write};
use storage_codec::digest::Digest;
use storage_merkle::merkle::Graftable;
use storage_ops::qmdb::any::operation::update::Ordered;
use storage_ops::qmdb::any::value::ValueEncoding;
use storage_ops::qmdb::operation::Key;

/// The tag of an update that excludes.
pub(crate) const KEY_VALUE_CONTEXT: u8 = 0;

/// The tag of a commit that excludes.
pub(crate) const COMMIT_CONTEXT: u8 = 1;

/// Appends to `out` the byte `tag`, and then what `first` and `second` are written as.
#[tactic(auto, using(storage_codec::specs::Laws::Parts::starts_cons, storage_codec::specs::Laws::Parts::starts_then, storage_codec::specs::Laws::Parts::starts_first))]
fn write_tagged<A: Write, B: Write>(
    tag: u8,
    first: &A,
    second: &B,
    out: &mut Vec<u8>,
) -> Result<(), NoMemory>
    ensures ok { OnOk result
        (out.new.items ≡ out.old.items ++ (tag ∷ (A.text first.now ++ B.text second.now))) }
    ensures err { OnErr result
        (AppendsStart out.old.items out.new.items (tag ∷ (A.text first.now ++ B.text second.now))) }
{
    out.push(tag)?;
    write_both(first, second, out)
}

/// Appends to `out` what `first` and `second` are written as.
#[tactic(auto, using(storage_codec::specs::Laws::Parts::starts_then, storage_codec::specs::Laws::Parts::starts_first))]
fn write_both<A: Write, B: Write>(first: &A, second: &B, out: &mut Vec<u8>) -> Result<(), NoMemory>
    ensures ok { OnOk result
        (out.new.items ≡ out.old.items ++ (A.text first.now ++ B.text second.now)) }
    ensures err { OnErr result
        (AppendsStart out.old.items out.new.items (A.text first.now ++ B.text second.now)) }
{
    first.write(out)?;
    second.write(out)
}

impl<F: Graftable, K: Key, V: ValueEncoding, D: Digest, C: Chunk> Write
    for ExclusionProof<F, K, V, D, C> {
    ghost text = { λ x. exclusion_text F.has_pending (λ t. K.text t.0 ++ V.Value.text t.1
        ++ K.text t.2) V.Value.text (exclusion_of D.text C.text x) };

    fn write(&self, out: &mut Vec<u8>) -> Result<(), NoMemory> {
        match self {
            ExclusionProof::KeyValue(proof, update) => {
                write_tagged(KEY_VALUE_CONTEXT, proof, update, out)
            }
            ExclusionProof::Commit(proof, value) => {
                write_tagged(COMMIT_CONTEXT, proof, value, out)
            }
        }
    }
}

impl<F: Graftable, K: Key, V: ValueEncoding, D: Digest, C: Chunk> EncodeSize
    for ExclusionProof<F, K, V, D, C> {
    fn encode_size(&self) -> Option<u64> {
        match self {
            ExclusionProof::KeyValue(proof, update) => size_of_tagged(proof, update),
            ExclusionProof::Commit(proof, value) => size_of_tagged(proof, value),
        }
    }
}

/// Returns how many bytes a tag, `first` and `second` are written as; none if that is no `u64`.
#[tactic(auto, using(std::proofs::lemmas::Grind::common_steps))]
fn size_of_tagged<A: EncodeSize, B: EncodeSize>(first: &A, second: &B) -> Option<u64>
    ensures { result ≡ size_of (1 + length (A.text first.now ++ B.text second.now)) }
{
    let both = first.encode_size()?.checked_add(second.encode_size()?)?;
    both.checked_add(1)
}

/// Reads from the front of `buf` a value of `A`, whose reader is told `first`, and then an update, whose reader is told
/// `update`.
#[tactic(auto, using(storage_codec::specs::Laws::Parts::ends_then))]
fn read_before_update<A: Read, K: Key, V: UpdateCodec<K>, B: Buf>(
    alloc: Global,
    buf: &mut B,
    first: &A::Cfg,
    update: &V::UpdateCfg,
) -> Result<(A, Ordered<K, V>), Error>
    ensures gives { Gives
        (λ x. (A.view x.0, (K.view x.1.key, V.Value.view x.1.value, K.view x.1.next_key))) result
        (B.unread buf.new) (pair_at (A.parse first.now) (ordered_at (K.parse (V.key_cfg update.now))
        (V.Value.parse (V.value_cfg update.now))) (B.unread buf.old)) }
    ensures ends { IsEnding (B.unread buf.old) (B.unread buf.new) }
{
    let one = match A::read_cfg(alloc, buf, first) {
        Ok(one) => one,
        Err(error) => return Err(error),
    };
    match V::read_update(alloc, buf, update) {
        Ok(update) => Ok((one, update)),
        Err(error) => Err(error),
    }
}

/// After a tag of 0 the operation proof and the update, after one of 1 the operation proof and the option of a value. The
/// chunk is read as `N` bytes.
impl<F: Graftable, K: Key, V: UpdateCodec<K>, D: Digest, const N: usize> Read
    for ExclusionProof<F, K, V, D, [u8; N]> {
    /// The greatest number of digests, and what the readers of the update and of the value are told.
    type Cfg = (
        usize,
        <V as UpdateCodec<K>>::UpdateCfg,
        <V::Value as Read>::Cfg,
    );

    ghost View = { Exclusion (K.View × V.Value.View × K.View) V.Value.View };

    ghost view = { λ x. exclusion_map (λ t. (K.view t.0, V.Value.view t.1, K.view t.2)) V.Value.view
        (exclusion_of D.text (λ c. c) x) };

    ghost admits = { λ cfg x. IsAdmittedExclusion (IsAdmittedArray F.has_pending N cfg.0)
        (λ t. K.admits (V.key_cfg cfg.1) t.0 × V.Value.admits (V.value_cfg cfg.1) t.1
        × K.admits (V.key_cfg cfg.1) t.2) (V.Value.admits cfg.2) (exclusion_of D.text (λ c. c) x) };

    ghost parse = { λ cfg. exclusion_at (operation_at F.has_pending D.size N cfg.0) (ordered_at
        (K.parse (V.key_cfg cfg.1)) (V.Value.parse (V.value_cfg cfg.1))) (V.Value.parse cfg.2) };

    #[tactic(auto, using(storage_codec::specs::Laws::Parts::ends_then))]
    fn read_cfg<B: Buf>(
        alloc: Global,
        buf: &mut B,
        cfg: &(
            usize,
            <V as UpdateCodec<K>>::UpdateCfg,
            <V::Value as Read>::Cfg,
        ),
    ) -> Result<Self, Error> {
        match byte(buf)? {
            KEY_VALUE_CONTEXT => {
                match read_before_update::<Proof<F, D, [u8; N]>, K, V, B>(
                    alloc, buf, &cfg.0, &cfg.1,
                ) {
                    Ok((proof, update)) => Ok(ExclusionProof::KeyValue(proof, update)),
                    Err(error) => Err(error),
                }
            }
            COMMIT_CONTEXT => {
                match read_pair::<Proof<F, D, [u8; N]>, Option<V::Value>, B>(
                    alloc, buf, &cfg.0, &cfg.2,
                ) {
                    Ok((proof, value)) => Ok(ExclusionProof::Commit(proof, value)),
                    Err(error) => Err(error),
                }
            }
            tag => Err(Error::InvalidEnum(tag)),
        }
    }
}

impl<F: Graftable, K: Key, V: UpdateCodec<K>, D: Digest> ExclusionProof<F, K, V, D, Bytes> {
    /// Reads as `read_cfg` does, with the configurations of the parts lent apart: `proof`, the size of the chunk in bytes
    /// and the greatest number of digests; `update` and `value`, what the readers of the update and of the value are told.
    #[tactic(auto, using(storage_codec::specs::Laws::Parts::ends_then))]
    fn read_with<B: Buf>(
        alloc: Global,
        buf: &mut B,
        proof: &(usize, usize),
        update: &<V as UpdateCodec<K>>::UpdateCfg,
        value: &<V::Value as Read>::Cfg,
    ) -> Result<Self, Error>
        ensures gives { Gives (λ x. exclusion_map (λ t. (K.view t.0, V.Value.view t.1, K.view t.2))
            V.Value.view (exclusion_of D.text (λ c. c) x)) result (B.unread buf.new)
            (exclusion_at (sized_operation_at F.has_pending D.size proof.now.0 proof.now.1)
            (ordered_at (K.parse (V.key_cfg update.now)) (V.Value.parse (V.value_cfg update.now)))
            (V.Value.parse value.now) (B.unread buf.old)) }
        ensures ends { IsEnding (B.unread buf.old) (B.unread buf.new) }
    {
        match byte(buf)? {
            KEY_VALUE_CONTEXT => {
                match read_before_update::<Proof<F, D, Bytes>, K, V, B>(alloc, buf, proof, update) {
                    Ok((proof, update)) => Ok(ExclusionProof::KeyValue(proof, update)),
                    Err(error) => Err(error),
                }
            }
            COMMIT_CONTEXT => {
                match read_pair::<Proof<F, D, Bytes>, Option<V::Value>, B>(
                    alloc, buf, proof, value,
                ) {
                    Ok((proof, value)) => Ok(ExclusionProof::Commit(proof, value)),
                    Err(error) => Err(error),
                }
            }
            tag => Err(Error::InvalidEnum(tag)),
        }
    }

    /// Returns the proof that is all of `buf`, as `decode_cfg` reads it, with the configurations of the parts lent
    /// apart: `proof`, the size of the chunk in bytes and the greatest number of digests; `update` and `value`, what
    /// the readers of the update and of the value are told.
    ///
    /// # Errors
    ///
    /// The first of: `EndOfBuffer` if there is no tag; `InvalidEnum` of another tag than 0 and 1; those of the
    /// operation proof; those of the update or of the value; `ExtraData` with the number of bytes left over. `Memory`
    /// may come at any point.
    pub fn decode_with<B: Buf>(
        alloc: Global,
        mut buf: B,
        proof: &(usize, usize),
        update: &<V as UpdateCodec<K>>::UpdateCfg,
        value: &<V::Value as Read>::Cfg,
    ) -> Result<Self, Error>
        ensures { Gives (λ x. exclusion_map (λ t. (K.view t.0, V.Value.view t.1, K.view t.2))
            V.Value.view (exclusion_of D.text (λ c. c) x)) result []
            (whole (exclusion_at (sized_operation_at F.has_pending D.size proof.now.0 proof.now.1)
            (ordered_at (K.parse (V.key_cfg update.now)) (V.Value.parse (V.value_cfg update.now)))
            (V.Value.parse value.now) (B.unread buf))) }
    {
        let value = Self::read_with(alloc, &mut buf, proof, update, value)?;
        let left = buf.remaining();
        if left > 0 {
            return Err(Error::ExtraData(left as u64));
        }
        Ok(value)
    }
}

/// After a tag of 0 the operation proof and the update, after one of 1 the operation proof and the option of a value. The
/// chunk is cut from the bytes; a size that chunks can't have is refused before the rest of the proof.
impl<F: Graftable, K: Key, V: UpdateCodec<K>, D: Digest> Read
    for ExclusionProof<F, K, V, D, Bytes> {
    /// The size of the chunk in bytes and the greatest number of digests, and what the readers of the update and of the
    /// value are told.
    type Cfg = (
        (usize, usize),
        <V as UpdateCodec<K>>::UpdateCfg,
        <V::Value as Read>::Cfg,
    );

    ghost View = { Exclusion (K.View × V.Value.View × K.View) V.Value.View };

    ghost view = { λ x. exclusion_map (λ t. (K.view t.0, V.Value.view t.1, K.view t.2)) V.Value.view
        (exclusion_of D.text (λ c. c) x) };

    ghost admits = { λ cfg x. IsAdmittedExclusion (IsAdmittedSized F.has_pending cfg.0.0 cfg.0.1)
        (λ t. K.admits (V.key_cfg cfg.1) t.0 × V.Value.admits (V.value_cfg cfg.1) t.1
        × K.admits (V.key_cfg cfg.1) t.2) (V.Value.admits cfg.2) (exclusion_of D.text (λ c. c) x) };

    ghost parse = { λ cfg.
        exclusion_at (sized_operation_at F.has_pending D.size cfg.0.0 cfg.0.1) (ordered_at
        (K.parse (V.key_cfg cfg.1)) (V.Value.parse (V.value_cfg cfg.1))) (V.Value.parse cfg.2) };

    fn read_cfg<B: Buf>(
        alloc: Global,
        buf: &mut B,
        cfg: &(
            (usize, usize),
            <V as UpdateCodec<K>>::UpdateCfg,
            <V::Value as Read>::Cfg,
        ),
    ) -> Result<Self, Error> {
        Self::read_with(alloc, buf, &cfg.0, &cfg.1, &cfg.2)
    }
}

impl<F: Graftable, K: Key, V: UpdateCodec<K>, D: Digest, const N: usize> Codec
    for ExclusionProof<F, K, V, D, [u8; N]> {
    ghost again = { λ cfg x rest ok.
        exclusion_again F.has_pending (λ t. K.text t.0 ++ V.Value.text t.1
        ++ K.text t.2) V.Value.text (λ t. (K.view t.0, V.Value.view t.1, K.view t.2)) V.Value.view
        (operation_at F.has_pending D.size N cfg.0) (ordered_at (K.parse (V.key_cfg cfg.1))
        (V.Value.parse (V.value_cfg cfg.1))) (V.Value.parse cfg.2)
        (WithDigests D.size (IsAdmittedArray F.has_pending N cfg.0)) (λ t. K.admits (V.key_cfg cfg.1) t.0
        × V.Value.admits (V.value_cfg cfg.1) t.1 × K.admits (V.key_cfg cfg.1) t.2)
        (V.Value.admits cfg.2) (array_read F.has_pending D.size N cfg.0)
        (record {
          again = λ t r h. ordered_again K.text V.Value.text K.view V.Value.view
              (K.parse (V.key_cfg cfg.1)) (V.Value.parse (V.value_cfg cfg.1)) (K.admits (V.key_cfg cfg.1))
              (V.Value.admits (V.value_cfg cfg.1)) (record { again = K.again (V.key_cfg cfg.1) })
              (record { again = V.Value.again (V.value_cfg cfg.1) }) t.0 t.1 t.2 r h;
        })
        (record { again = V.Value.again cfg.2 }) (exclusion_of D.text (λ c. c) x) rest
        (with_digests D.size (IsAdmittedArray F.has_pending N cfg.0)
        (λ t. K.admits (V.key_cfg cfg.1) t.0 × V.Value.admits (V.value_cfg cfg.1) t.1
        × K.admits (V.key_cfg cfg.1) t.2) (V.Value.admits cfg.2) (exclusion_of D.text (λ c. c) x)
        (excluded_digests D.text (λ c. c) D.size D.sized x) ok) };
}

impl<F: Graftable, K: Key, V: UpdateCodec<K>, D: Digest> Codec
    for ExclusionProof<F, K, V, D, Bytes> {
    ghost again = { λ cfg x rest ok.
        exclusion_again F.has_pending (λ t. K.text t.0 ++ V.Value.text t.1
        ++ K.text t.2) V.Value.text (λ t. (K.view t.0, V.Value.view t.1, K.view t.2)) V.Value.view
        (sized_operation_at F.has_pending D.size cfg.0.0 cfg.0.1)
        (ordered_at (K.parse (V.key_cfg cfg.1)) (V.Value.parse (V.value_cfg cfg.1)))
        (V.Value.parse cfg.2) (WithDigests D.size (IsAdmittedSized F.has_pending cfg.0.0 cfg.0.1))
        (λ t. K.admits (V.key_cfg cfg.1) t.0 × V.Value.admits (V.value_cfg cfg.1) t.1
        × K.admits (V.key_cfg cfg.1) t.2) (V.Value.admits cfg.2)
        (sized_read F.has_pending D.size cfg.0.0 cfg.0.1)
        (record {
          again = λ t r h. ordered_again K.text V.Value.text K.view V.Value.view
              (K.parse (V.key_cfg cfg.1)) (V.Value.parse (V.value_cfg cfg.1)) (K.admits (V.key_cfg cfg.1))
              (V.Value.admits (V.value_cfg cfg.1)) (record { again = K.again (V.key_cfg cfg.1) })
              (record { again = V.Value.again (V.value_cfg cfg.1) }) t.0 t.1 t.2 r h;
        })
        (record { again = V.Value.again cfg.2 }) (exclusion_of D.text (λ c. c) x) rest
        (with_digests D.size (IsAdmittedSized F.has_pending cfg.0.0 cfg.0.1)
        (λ t. K.admits (V.key_cfg cfg.1) t.0 × V.Value.admits (V.value_cfg cfg.1) t.1
        × K.admits (V.key_cfg cfg.1) t.2) (V.Value.admits cfg.2) (exclusion_of D.text (λ c. c) x)
        (excluded_digests D.text (λ c. c) D.size D.sized x) ok) };
}

impl<F: Graftable, K: Key + Canonical, V: UpdateCodec<K>, D: Digest, const N: usize> Canonical
    for ExclusionProof<F, K, V, D, [u8; N]>
where
    V::Value: Canonical,
{
    ghost back = { λ cfg bytes x rest fits e.
        exclusion_back F.has_pending (λ t. K.text t.0 ++ V.Value.text t.1
        ++ K.text t.2) V.Value.text (λ t. (K.view t.0, V.Value.view t.1, K.view t.2)) V.Value.view
        (operation_at F.has_pending D.size N cfg.0) (ordered_at (K.parse (V.key_cfg cfg.1))
        (V.Value.parse (V.value_cfg cfg.1))) (V.Value.parse cfg.2)
        (array_spelled F.has_pending D.size N cfg.0) (record {
          back = λ b t r f p. ordered_back
              K.text V.Value.text K.view V.Value.view (K.parse (V.key_cfg cfg.1))
              (V.Value.parse (V.value_cfg cfg.1)) (record { back = K.back (V.key_cfg cfg.1) })
              (record { back = V.Value.back (V.value_cfg cfg.1) }) b t.0 t.1 t.2 r f p;
        })
        (record { back = V.Value.back cfg.2 }) bytes (exclusion_of D.text (λ c. c) x) rest fits e };
}

impl<F: Graftable, K: Key + Canonical, V: UpdateCodec<K>, D: Digest> Canonical
    for ExclusionProof<F, K, V, D, Bytes>
where
    V::Value: Canonical,
{
    ghost back = { λ cfg bytes x rest fits e.
        exclusion_back F.has_pending (λ t. K.text t.0 ++ V.Value.text t.1
        ++ K.text t.2) V.Value.text (λ t. (K.view t.0, V.Value.view t.1, K.view t.2)) V.Value.view
        (sized_operation_at F.has_pending D.size cfg.0.0 cfg.0.1) (ordered_at
        (K.parse (V.key_cfg cfg.1)) (V.Value.parse (V.value_cfg cfg.1))) (V.Value.parse cfg.2)
        (sized_spelled F.has_pending D.size cfg.0.0 cfg.0.1) (record {
          back = λ b t r f p.
              ordered_back K.text V.Value.text K.view V.Value.view (K.parse (V.key_cfg cfg.1))
              (V.Value.parse (V.value_cfg cfg.1)) (record { back = K.back (V.key_cfg cfg.1) })
              (record { back = V.Value.back (V.value_cfg cfg.1) }) b t.0 t.1 t.2 r f p;
        })
        (record { back = V.Value.back cfg.2 }) bytes (exclusion_of D.text (λ c. c) x) rest fits e };
}
