//! What is agreed beforehand: the family, the digest function and the root.

ghost use Rattle.std.specs.Prelude.{◌≡◌, MatchResult, None, Some};
ghost use Rattle.light_questions.specs.Agreed.{IsRoot, agreed_refusal, root_bytes};
ghost use Rattle.light_questions.specs.KeyParts.{fault_code};

use crate::answer::Fault;
use commonware_storage::codec::FixedBytes;

/// Merkle mountain ranges.
pub const MMR: u32 = 0;

/// Merkle mountain belts.
pub const MMB: u32 = 1;

/// SHA-256, with digests of 32 bytes.
pub const SHA256: u32 = 0;

/// SHA-512, with digests of 64 bytes.
pub const SHA512: u32 = 1;

/// The trusted root, as a digest of the digest function that is agreed.
#[derive(Clone, Copy, Drop)]
pub enum Root {
    /// A digest of SHA-256.
    Of256(FixedBytes<32>),

    /// A digest of SHA-512.
    Of512(FixedBytes<64>),
}

impl Root {
    /// Returns the bytes of the digest. Allocates nothing.
    pub fn bytes(&self) -> &[u8]
        ensures { result.now ≡ root_bytes self.now }
    {
        match self {
            Root::Of256(digest) => digest.bytes.as_slice(),
            Root::Of512(digest) => digest.bytes.as_slice(),
        }
    }
}

/// Returns the root as a digest, or the first that is refused of the family, the digest function and the root.
pub fn trusted(family: u32, hash: u32, root: &[u8]) -> Result<Root, Fault>
    ensures { MatchResult result
        (λ digest. (agreed_refusal family hash root.now ≡ None) × IsRoot hash root.now digest)
        (λ fault. agreed_refusal family hash root.now ≡ Some (fault_code fault)) }
{
    if family != MMR && family != MMB {
        return Err(Fault::OtherFamily);
    }
    if hash == SHA256 {
        match <[u8; 32]>::try_from(root) {
            Ok(bytes) => Ok(Root::Of256(FixedBytes { bytes })),
            Err(_) => Err(Fault::OtherRoot),
        }
    } else if hash == SHA512 {
        match <[u8; 64]>::try_from(root) {
            Ok(bytes) => Ok(Root::Of512(FixedBytes { bytes })),
            Err(_) => Err(Fault::OtherRoot),
        }
    } else {
        Err(Fault::OtherHash)
    }
}
