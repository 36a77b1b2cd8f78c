//! Range proofs as bytes.

ghost use Rattle.std.specs.Prelude.{◌≡◌, ◌+◌, ◌*◌, ◌++◌, map, OnOk, OnErr};
ghost use Rattle.storage_codec.specs.Codec.{Gives};
ghost use Rattle.storage_codec.specs.Parts.{AppendsStart, IsEnding, size_of};
ghost use Rattle.storage_merkle.specs.Held.{proof_of};
ghost use Rattle.storage_merkle.specs.RangeProofs.{Proof as ProofOf};
ghost use Rattle.storage_merkle.specs.ProofWire.{joined_text, digests_at, proof_text, proof_at, IsAdmitted};
ghost use Rattle.storage_merkle.specs.Laws.ProofWire.{all_digests, proof_again, proof_back};

use crate::merkle::{Location, Proof};
use std::alloc::Global;
use storage_codec::NoMemory;
use storage_codec::codec::{Buf, Canonical, Codec, EncodeSize, Error, Read, UInt, Write, sum};
use storage_codec::digest::Digest;

impl<F, D: Digest> Write for Proof<F, D> {
    ghost text = { λ p. proof_text (proof_of D.text p) };

    #[tactic(auto, using(storage_codec::specs::Laws::Parts::starts_then, storage_codec::specs::Laws::Parts::starts_first))]
    fn write(&self, out: &mut Vec<u8>) -> Result<(), NoMemory> {
        self.leaves.write(out)?;
        UInt(self.inactive_peaks as u64).write(out)?;
        UInt(self.digests.len() as u64).write(out)?;
        write_digests(&self.digests, out)
    }
}

/// Appends `digests` to `out`, one after another.
fn write_digests<D: Digest>(digests: &[D], out: &mut Vec<u8>) -> Result<(), NoMemory>
    ensures ok { OnOk result
        (out.new.items ≡ out.old.items ++ joined_text (map D.text digests.now)) }
    ensures err { OnErr result
        (AppendsStart out.old.items out.new.items (joined_text (map D.text digests.now))) }
{
    let mut left = digests;
    while let Some((digest, rest)) = left.split_first() {
        out.extend_from_slice(digest.bytes())?;
        left = rest;
    }
    Ok(())
}

impl<F, D: Digest> EncodeSize for Proof<F, D> {
    fn encode_size(&self) -> Option<u64> {
        let count = self.digests.len() as u64;
        let digests = digests_size::<D>(count);
        let counted = sum(UInt(count).encode_size(), digests);
        let inactive = sum(UInt(self.inactive_peaks as u64).encode_size(), counted);
        sum(self.leaves.encode_size(), inactive)
    }
}

/// Returns how many bytes `count` digests take; none if that is no `u64`.
fn digests_size<D: Digest>(count: u64) -> Option<u64>
    ensures { result ≡ size_of (count * D.size) }
{
    count.checked_mul(D::size() as u64)
}

impl<F, D: Digest> Read for Proof<F, D> {
    /// The greatest number of digests that is read.
    type Cfg = usize;

    ghost View = { ProofOf };

    ghost view = { λ p. proof_of D.text p };

    ghost admits = { λ most p. IsAdmitted most (proof_of D.text p) };

    ghost parse = { λ most. proof_at D.size most };

    #[tactic(auto, using(storage_codec::specs::Laws::Parts::ends_then))]
    fn read_cfg<B: Buf>(alloc: Global, buf: &mut B, most: &usize) -> Result<Self, Error> {
        let leaves = match Location::read_cfg(alloc, buf, &()) {
            Ok(leaves) => leaves,
            Err(error) => return Err(error),
        };
        let UInt(inactive) = UInt::read_cfg(alloc, buf, &())?;
        let UInt(count) = UInt::read_cfg(alloc, buf, &())?;
        if count > *most as u64 {
            return Err(Error::InvalidLength(count));
        }
        match read_digests(alloc, buf, count) {
            Ok(digests) => Ok(Proof {
                leaves,
                inactive_peaks: inactive as usize,
                digests,
            }),
            Err(error) => Err(error),
        }
    }
}

impl<F, D: Digest> Codec for Proof<F, D> {
    ghost again = { λ most p rest ok.
        proof_again D.size most _ rest (all_digests D.text D.size D.sized p.digests.items) ok };
}

impl<F, D: Digest> Canonical for Proof<F, D> {
    ghost back = { λ most bytes p rest fits e.
        proof_back D.size most bytes (proof_of D.text p) rest fits e };
}

/// Reads `count` digests from the front of `buf`.
fn read_digests<D: Digest, B: Buf>(alloc: Global, buf: &mut B, count: u64) -> Result<Vec<D>, Error>
    ensures gives { Gives (λ v. map D.text v.items) result (B.unread buf.new)
        (digests_at D.size count (B.unread buf.old)) }
    ensures ends { IsEnding (B.unread buf.old) (B.unread buf.new) }
{
    let mut digests = Vec::new(alloc);
    for index in 0..count {
        let digest = match D::read(alloc, buf) {
            Ok(digest) => digest,
            Err(error) => return Err(error),
        };
        digests.push(digest)?;
    }
    Ok(digests)
}
