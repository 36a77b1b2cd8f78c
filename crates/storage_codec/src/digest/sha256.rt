//! SHA-256, as FIPS 180-4 defines it.

ghost use Rattle.std.proofs.Common.{refl};
ghost use Rattle.sha2.specs.Sha256.{sha256};
ghost use Rattle.storage_codec.specs.Laws.Digests.{sha256_sized};
ghost use Rattle.storage_codec.specs.DigestValues.{digest_32};

use crate::codec::FixedBytes;
use crate::digest::Hasher;
use sha2::Digest as _;

/// SHA-256, as FIPS 180-4 defines it: digests of 32 bytes.
pub struct Sha256;

impl Hasher for Sha256 {
    type Digest = FixedBytes<32>;

    ghost hash_of = { sha256 };

    ghost digest_of = { digest_32 };

    #[inline(always)]
    fn hash(parts: &[&[u8]]) -> FixedBytes<32> {
        let mut hasher = sha2::Sha256::new();
        for part in parts {
            hasher.update(*part);
        }
        let bytes = hasher.finalize();
        FixedBytes { bytes }
    }

    fn fill(byte: u8) -> FixedBytes<32> {
        FixedBytes { bytes: [byte; 32] }
    }

    ghost sized = { sha256_sized };

    ghost told = { λ _. refl };
}
