//! SHA-512, as FIPS 180-4 defines it.

ghost use Rattle.std.proofs.Common.{refl};
ghost use Rattle.sha2.specs.Sha512.{sha512};
ghost use Rattle.storage_codec.specs.Laws.Digests.{sha512_sized};
ghost use Rattle.storage_codec.specs.DigestValues.{digest_64};

use crate::codec::FixedBytes;
use crate::digest::Hasher;
use sha2::Digest as _;

/// SHA-512, as FIPS 180-4 defines it: digests of 64 bytes.
pub struct Sha512;

impl Hasher for Sha512 {
    type Digest = FixedBytes<64>;

    ghost hash_of = { sha512 };

    ghost digest_of = { digest_64 };

    #[inline(always)]
    fn hash(parts: &[&[u8]]) -> FixedBytes<64> {
        let mut hasher = sha2::Sha512::new();
        for part in parts {
            hasher.update(*part);
        }
        let bytes = hasher.finalize();
        FixedBytes { bytes }
    }

    fn fill(byte: u8) -> FixedBytes<64> {
        FixedBytes { bytes: [byte; 64] }
    }

    ghost sized = { sha512_sized };

    ghost told = { λ _. refl };
}
