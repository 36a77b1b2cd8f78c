//! Witnesses as bytes: the grafted root, the slot of the pending chunk's digest, and an option of the partial chunk's
//! number of bits and digest.

ghost use Rattle.std.specs.Prelude.{◌≡◌, ℕ, ◌+◌, ◌<◌, ◌^◌, List, option_map};
ghost use Rattle.storage_current.specs.Snapshots.{Witness};
ghost use Rattle.storage_current.specs.WitnessWire.{counted_at, counted_text, witness_at, witness_of, witness_text, IsAdmittedWitness};
ghost use Rattle.storage_current.specs.Laws.WitnessWire.{witness_again, witness_back};

use crate::qmdb::current::proof::OpsRootWitness;
use std::alloc::Global;
use std::marker::PhantomData;
use storage_codec::NoMemory;
use storage_codec::codec::{Buf, Canonical, Codec, EncodeSize, Error, Read, UInt, Write, sum};
use storage_codec::digest::Digest;
use storage_merkle::merkle::Graftable;

/// How many bits the partial chunk has, and its digest.
#[derive(Drop)]
struct Counted<D> {
    bits: u64,
    digest: D,
}

impl<D: Digest> Write for Counted<D> {
    ghost text = { λ p. counted_text (p.bits, D.text p.digest) };

    fn write(&self, out: &mut Vec<u8>) -> Result<(), NoMemory> {
        UInt(self.bits).write(out)?;
        out.extend_from_slice(self.digest.bytes())?;
        Ok(())
    }
}

impl<D: Digest> EncodeSize for Counted<D> {
    fn encode_size(&self) -> Option<u64> {
        sum(UInt(self.bits).encode_size(), Some(D::size() as u64))
    }
}

impl<D: Digest> Read for Counted<D> {
    type Cfg = ();

    ghost View = { ℕ × List ℕ };

    ghost view = { λ p. (p.bits, D.text p.digest) };

    ghost admits = { λ _ p. p.bits < 2 ^ 64 };

    ghost parse = { λ _. counted_at D.size };

    #[tactic(auto, using(storage_codec::specs::Laws::Parts::ends_then))]
    fn read_cfg<B: Buf>(alloc: Global, buf: &mut B, _cfg: &()) -> Result<Self, Error> {
        let UInt(bits) = UInt::read_cfg(alloc, buf, &())?;
        match D::read(alloc, buf) {
            Ok(digest) => Ok(Counted { bits, digest }),
            Err(error) => Err(error),
        }
    }
}

impl<F: Graftable, D: Digest> Write for OpsRootWitness<F, D> {
    ghost text = { λ w. witness_text F.has_pending (witness_of D.text w) };

    fn write(&self, out: &mut Vec<u8>) -> Result<(), NoMemory> {
        out.extend_from_slice(self.grafted_root.bytes())?;
        F::write_pending(&self.pending_chunk_digest, out)?;
        with_count(&self.partial_chunk).write(out)
    }
}

impl<F: Graftable, D: Digest> EncodeSize for OpsRootWitness<F, D> {
    fn encode_size(&self) -> Option<u64> {
        let pending = Some(F::pending_size(&self.pending_chunk_digest));
        let partial = with_count(&self.partial_chunk).encode_size();
        sum(Some(D::size() as u64), sum(pending, partial))
    }
}

/// `partial`, as it is written.
fn with_count<D: Digest>(partial: &Option<(u64, D)>) -> Option<Counted<D>>
    ensures { result ≡ option_map (λ p. record { bits = p.0; digest = p.1 }) partial.now }
{
    match *partial {
        None => None,
        Some((bits, digest)) => Some(Counted { bits, digest }),
    }
}

impl<F: Graftable, D: Digest> Read for OpsRootWitness<F, D> {
    type Cfg = ();

    ghost View = { Witness };

    ghost view = { λ w. witness_of D.text w };

    ghost admits = { λ _ w. IsAdmittedWitness F.has_pending (witness_of D.text w) };

    ghost parse = { λ _. witness_at F.has_pending D.size };

    #[tactic(auto, using(storage_codec::specs::Laws::Parts::ends_then))]
    fn read_cfg<B: Buf>(alloc: Global, buf: &mut B, _cfg: &()) -> Result<Self, Error> {
        let grafted_root = match D::read(alloc, buf) {
            Ok(root) => root,
            Err(error) => return Err(error),
        };
        let pending_chunk_digest = match F::read_pending::<D, B>(alloc, buf) {
            Ok(pending) => pending,
            Err(error) => return Err(error),
        };
        match Option::<Counted<D>>::read_cfg(alloc, buf, &()) {
            Ok(None) => Ok(OpsRootWitness {
                grafted_root,
                pending_chunk_digest,
                partial_chunk: None,
                family: PhantomData,
            }),
            Ok(Some(Counted { bits, digest })) => Ok(OpsRootWitness {
                grafted_root,
                pending_chunk_digest,
                partial_chunk: Some((bits, digest)),
                family: PhantomData,
            }),
            Err(error) => Err(error),
        }
    }
}

impl<F: Graftable, D: Digest> Codec for OpsRootWitness<F, D> {
    ghost again = { λ _ w rest ok. witness_again F.has_pending D.text D.size D.sized w rest ok };
}

impl<F: Graftable, D: Digest> Canonical for OpsRootWitness<F, D> {
    ghost back = { λ _ bytes w rest fits e.
        witness_back F.has_pending D.size bytes (witness_of D.text w) rest fits e };
}
