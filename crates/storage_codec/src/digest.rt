//! Digests, and the digest functions that make them.

ghost use Rattle.std.specs.Prelude.{◌*◌, ◌<◌, ◌≤◌, ◌^◌, ◌≡◌, ◌≢◌, ◌++◌, ℕ, List, [], length, ◌↔◌, replicate, flat_map, option_map, true, Ok, Err, OnErr, OnOk};
ghost use Rattle.std.specs.Mem.{type_size};
ghost use Rattle.std.proofs.Common.{lit<};
ghost use Rattle.std.proofs.lemmas.Slice.Eq.{bytes_eq-Decides};
ghost use Rattle.storage_codec.specs.Codec.{Gives, front_at, option_at, whole};
ghost use Rattle.storage_codec.specs.Digests.{HashFunction, IsSized, or_nothing};
ghost use Rattle.storage_codec.specs.Laws.DigestValues.{one_digest};
ghost use Rattle.storage_codec.specs.Parts.{AppendsStart, IsEnding, option_text};

use crate::NoMemory;
use crate::codec::{Buf, Error, FixedBytes, Read};
use std::alloc::Global;

mod sha256;
mod sha512;

pub use sha256::Sha256;
pub use sha512::Sha512;

/// A digest: a byte string of one length, the same for each digest of the type. It is written as
/// its bytes and nothing else, and any as many bytes are read as one.
pub trait Digest: Copy + Eq {
    /// The bytes of a digest.
    ghost text: { Self → List ℕ };

    /// How many bytes each digest has.
    ghost size: { ℕ };

    /// Returns the bytes of the digest. Allocates nothing.
    fn bytes(&self) -> &[u8]
        ensures { result.now ≡ text self.now };

    /// Returns how many bytes a digest has: 32 or 64 for the digests that there are. Allocates nothing.
    fn size() -> usize
        ensures value { result ≡ size }
        ensures small { size ≤ 2 ^ 32 };

    /// Reads the next digest from the front of `buf`, seen by its bytes. Refuses `EndOfBuffer` if fewer bytes are left
    /// than a digest has; then `buf` is at an ending of what it held.
    fn read<B: Buf>(alloc: Global, buf: &mut B) -> Result<Self, Error>
        ensures gives { Gives Self.text result (B.unread buf.new)
            (front_at Self.size (B.unread buf.old)) }
        ensures ends { IsEnding (B.unread buf.old) (B.unread buf.new) }
        ensures no_memory { result ≢ Err Error.Memory };

    /// Reads a digest that is all of `buf`, seen by its bytes. Refuses as `read` does, and then with `ExtraData` and
    /// their number where bytes are left over.
    final fn decode<B: Buf>(alloc: Global, mut buf: B) -> Result<Self, Error>
        ensures gives { Gives Self.text result [] (whole (front_at Self.size (B.unread buf))) }
        ensures no_memory { result ≢ Err Error.Memory }
    {
        let digest = Self::read(alloc, &mut buf)?;
        let left = buf.remaining();
        if left > 0 {
            return Err(Error::ExtraData(left as u64));
        }
        Ok(digest)
    }

    /// Reads an option of a digest from the front of `buf`: a truth value, then the digest if it is true. Refuses as
    /// they do; then `buf` is at an ending of what it held.
    #[tactic(auto, using(crate::specs::Laws::Parts::ends_then))]
    final fn read_option<B: Buf>(alloc: Global, buf: &mut B) -> Result<Option<Self>, Error>
        ensures gives { Gives (option_map Self.text) result (B.unread buf.new)
            (option_at (front_at Self.size) (B.unread buf.old)) }
        ensures ends { IsEnding (B.unread buf.old) (B.unread buf.new) }
        ensures no_memory { result ≢ Err Error.Memory }
    {
        if bool::read_cfg(alloc, buf, &())? {
            Ok(Some(Self::read(alloc, buf)?))
        } else {
            Ok(None)
        }
    }

    /// Appends to `out` what an option of a digest is written as: a truth value, then the digest's bytes if there is
    /// one. `NoMemory` comes only if `out` was refused a growth; then it holds its old bytes and a beginning of these.
    #[tactic(auto, using(crate::specs::Laws::Parts::starts_cons))]
    final fn write_option(digest: &Option<Self>, out: &mut Vec<u8>) -> Result<(), NoMemory>
        ensures ok { OnOk result (out.new.items ≡ out.old.items ++ option_text Self.text digest.now) }
        ensures err { OnErr result (AppendsStart out.old.items out.new.items (option_text Self.text digest.now)) }
    {
        match digest {
            None => out.push(0)?,
            Some(digest) => {
                out.push(1)?;
                out.extend_from_slice(digest.bytes())?;
            }
        }
        Ok(())
    }

    /// Each digest has as many bytes.
    ghost sized: { (x : Self) → length (Self.text x) ≡ Self.size };

    /// Digests are equal exactly if their bytes are.
    ghost same: { (x y : Self) → Self.PartialEq.eq x y ≡ true ↔ Self.text x ≡ Self.text y };

    /// A digest is nothing but its bytes.
    ghost one: { (x y : Self) → Self.text x ≡ Self.text y → x ≡ y };

    /// A digest has at most `2^32` bytes, so that a sum of a few sizes is no overflow.
    ghost short: { Self.size ≤ 2 ^ 32 };

    /// As many digests as a tree has peaks fit in memory.
    ghost few: { 64 * type_size Self.row < 2 ^ 63 };
}

/// Returns the bytes of `digest`; no bytes for none. Allocates nothing.
pub fn bytes_or_nothing<D: Digest>(digest: &Option<D>) -> &[u8]
    ensures { result.now ≡ or_nothing (option_map D.text digest.now) }
{
    match digest {
        None => &[],
        Some(digest) => digest.bytes(),
    }
}

/// A digest function: the digest of several parts is that of the parts joined.
pub trait Hasher {
    /// The digests that it answers.
    type Digest: Digest;

    /// The bytes of the digest of a byte string.
    ghost hash_of: { HashFunction };

    /// The digest of each byte string as a value.
    ghost digest_of: { List ℕ → Self.Digest };

    /// Returns the digest of `parts`, joined one after the other. Allocates nothing.
    fn hash(parts: &[&[u8]]) -> Self::Digest
        ensures { Self.Digest.text result ≡ hash_of (flat_map (λ part. part.now) parts.now) };

    /// Returns the digest whose bytes all are `byte`. Allocates nothing.
    fn fill(byte: u8) -> Self::Digest
        ensures { Self.Digest.text result ≡ replicate Self.Digest.size byte };

    /// Each answer has as many bytes as a digest.
    ghost sized: { IsSized Self.Digest.size hash_of };

    /// The bytes of `digest_of` are those of `hash_of`.
    ghost told: { (bytes : List ℕ) → Self.Digest.text (digest_of bytes) ≡ hash_of bytes };
}

impl Digest for FixedBytes<32> {
    ghost text = { λ x. x.bytes };

    ghost size = { 32 };

    fn bytes(&self) -> &[u8] {
        &self.bytes
    }

    fn size() -> usize {
        32
    }

    fn read<B: Buf>(alloc: Global, buf: &mut B) -> Result<FixedBytes<32>, Error> {
        Self::read_cfg(alloc, buf, &())
    }

    ghost sized = { λ x. x.full };

    ghost same = { λ x y. bytes_eq-Decides x.bytes y.bytes };

    ghost one = { one_digest 32 };

    ghost short = { lit< tt };

    ghost few = { lit< tt };
}

impl Digest for FixedBytes<64> {
    ghost text = { λ x. x.bytes };

    ghost size = { 64 };

    fn bytes(&self) -> &[u8] {
        self.bytes.as_slice()
    }

    fn size() -> usize {
        64
    }

    fn read<B: Buf>(alloc: Global, buf: &mut B) -> Result<FixedBytes<64>, Error> {
        Self::read_cfg(alloc, buf, &())
    }

    ghost sized = { λ x. x.full };

    ghost same = { λ x y. bytes_eq-Decides x.bytes y.bytes };

    ghost one = { one_digest 64 };

    ghost short = { lit< tt };

    ghost few = { lit< tt };
}

/// The digests that a hasher makes.
pub type DigestOf<H> = <H as Hasher>::Digest;
