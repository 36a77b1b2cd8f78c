//! What may be claimed of a key of one size, and such a key.

ghost use Rattle.std.specs.Prelude.{◌≡◌, ℕ, ℤ, Option, Some, None};
ghost use Rattle.light_questions.specs.Answers.{or_then};
ghost use Rattle.light_questions.specs.KeyParts.{IsAnswer, Keys, Setting, Statement, code_of, keys_of, of_sized, setting_of, sized_keys};
ghost use Rattle.light_questions.specs.SizedStrings.{key_refusal};

use crate::answer::Fault;
use crate::question::Question;
use crate::sized::{SizedBytes, of_bytes};
use commonware_storage::codec::{FixedBytes, Read, Small};
use commonware_storage::digest::Hasher;
use commonware_storage::merkle::Graftable;
use commonware_storage::qmdb::operation::Key;
use std::alloc::Global;

/// What may be claimed of a key, whichever its size is.
pub trait Claim {
    /// What is refused: what is refused before, or else the first that is refused of the claim itself.
    ghost refusal: { Option ℤ → Self → Option ℤ };

    /// Where the check accepts for a key of some type, all of whose keys have one size, and what its yes means.
    ghost asked: { Self → (K X : Type 0) → Keys K X → ℕ → K → Setting → Statement };

    /// Returns the answer for a key, over a family and a digest function, against a digest.
    fn of<F: Graftable, H: Hasher, K: Key + Small + Read<Cfg = ()>>(
        &self,
        alloc: Global,
        chunk_size: usize,
        proof: &[u8],
        key: K,
        root: &H::Digest,
    ) -> Result<bool, Fault>
        ensures { IsAnswer (refusal None self.now) (code_of result)
            (asked self.now _ _ (keys_of K.text K.cmp K.view (K.parse tt)) K.size key)
            (setting_of H.hash_of F.shape F.has_pending H.Digest.size chunk_size proof.now
            (H.Digest.text root.now)) };

    /// What is refused before comes first.
    ghost first: { (code : ℤ) (it : Self) → refusal (Some code) it ≡ Some code };
}

/// A claim of a key of one size, of 4, 8, 20 or 32 bytes.
#[derive(Drop)]
pub struct SizedKey<'a, C> {
    /// The key's bytes.
    pub key: &'a [u8],

    /// What is claimed of it.
    pub claim: C,
}

impl<'a, C: Claim> Question for SizedKey<'a, C> {
    ghost refusal = { λ before it. C.refusal (or_then before (key_refusal it.key.now)) it.claim };

    ghost asked = { λ it. of_sized (λ n. C.asked it.claim _ _ (sized_keys n) n) it.key.now };

    fn answer<F: Graftable, H: Hasher>(
        &self,
        alloc: Global,
        chunk_size: usize,
        proof: &[u8],
        root: &H::Digest,
    ) -> Result<bool, Fault> {
        let Some(key) = of_bytes(self.key) else {
            return Err(Fault::OtherKey);
        };
        let claim = &self.claim;
        match key {
            SizedBytes::Of4(key) => {
                claim.of::<F, H, FixedBytes<4>>(alloc, chunk_size, proof, key, root)
            }
            SizedBytes::Of8(key) => {
                claim.of::<F, H, FixedBytes<8>>(alloc, chunk_size, proof, key, root)
            }
            SizedBytes::Of20(key) => {
                claim.of::<F, H, FixedBytes<20>>(alloc, chunk_size, proof, key, root)
            }
            SizedBytes::Of32(key) => {
                claim.of::<F, H, FixedBytes<32>>(alloc, chunk_size, proof, key, root)
            }
        }
    }

    ghost first = { λ code it. C.first code it.claim };
}
