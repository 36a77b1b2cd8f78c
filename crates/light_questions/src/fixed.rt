//! The claims about keys of one size in operations that are filled up with zeros to one size, where all values have one size.

ghost use Rattle.std.specs.Prelude.{◌≡◌, length, None, refl};
ghost use Rattle.light_questions.specs.Answers.{or_then};
ghost use Rattle.light_questions.specs.KeyParts.{IsAnswer, code_of, filled, has_sized, has_value, keys_of, lacks_sized, lacks_values, of_check, setting_of};
ghost use Rattle.light_questions.specs.SizedStrings.{bytes_of, size_in_bytes, value_refusal};

use crate::answer::{Fault, checked};
use crate::claim::Claim;
use crate::sized::{Size, SizedBytes, of_bytes, size_of};
use commonware_storage::NoMemory;
use commonware_storage::codec::{FixedBytes, Read, Small};
use commonware_storage::digest::Hasher;
use commonware_storage::light::{check_absence, check_value};
use commonware_storage::merkle::Graftable;
use commonware_storage::qmdb::any::{self, FixedEncoding};
use commonware_storage::qmdb::operation::Key;
use std::alloc::Global;

/// That the key has the value with these bytes.
#[derive(Drop)]
pub struct FixedValue<'a> {
    /// The value's bytes.
    pub value: &'a [u8],
}

impl Claim for FixedValue<'_> {
    ghost refusal = { λ before it. or_then before (value_refusal (length it.value.now)) };

    ghost asked = { λ it _ _ keys n key. has_sized keys (filled n) key it.value.now };

    fn of<F: Graftable, H: Hasher, K: Key + Small + Read<Cfg = ()>>(
        &self,
        alloc: Global,
        chunk_size: usize,
        proof: &[u8],
        key: K,
        root: &H::Digest,
    ) -> Result<bool, Fault> {
        let Some(value) = of_bytes(self.value) else {
            return Err(Fault::OtherValue);
        };
        checked(filled_value::<F, H, K>(alloc, chunk_size, proof, key, &value, root))
    }

    ghost first = { λ _ _. refl };
}

/// That the key has no value.
#[derive(Drop)]
pub struct FixedAbsence {
    /// How many bytes a value has.
    pub value_size: usize,
}

impl Claim for FixedAbsence {
    ghost refusal = { λ before it. or_then before (value_refusal it.value_size) };

    ghost asked = { λ it _ _ keys n. lacks_sized keys (filled n) it.value_size };

    fn of<F: Graftable, H: Hasher, K: Key + Small + Read<Cfg = ()>>(
        &self,
        alloc: Global,
        chunk_size: usize,
        proof: &[u8],
        key: K,
        root: &H::Digest,
    ) -> Result<bool, Fault> {
        let Some(size) = size_of(self.value_size) else {
            return Err(Fault::OtherValue);
        };
        checked(filled_absence::<F, H, K>(alloc, chunk_size, proof, &key, size, root))
    }

    ghost first = { λ _ _. refl };
}

/// Returns what `check_value` answers.
fn value_of<F: Graftable, H: Hasher, K: Key + Small + Read<Cfg = ()>, V: any::FixedValue>(
    alloc: Global,
    chunk_size: usize,
    proof: &[u8],
    key: K,
    value: V,
    root: &H::Digest,
) -> Result<bool, NoMemory>
    ensures { IsAnswer None (code_of (of_check result))
        (has_value (keys_of K.text K.cmp K.view (K.parse tt)) V.text (filled K.size V.size) key
        value)
        (setting_of H.hash_of F.shape F.has_pending H.Digest.size chunk_size proof.now
        (H.Digest.text root.now)) }
{
    check_value::<F, H, K, FixedEncoding<V>>(alloc, proof, chunk_size, &(), key, value, root)
}

/// Returns what `check_absence` answers.
fn absence_of<F: Graftable, H: Hasher, K: Key + Small + Read<Cfg = ()>, V: any::FixedValue>(
    alloc: Global,
    chunk_size: usize,
    proof: &[u8],
    key: &K,
    root: &H::Digest,
) -> Result<bool, NoMemory>
    ensures { IsAnswer None (code_of (of_check result))
        (lacks_values (keys_of K.text K.cmp K.view (K.parse tt)) V.text V.view (V.parse tt)
        (V.parse tt) (filled K.size V.size) key.now)
        (setting_of H.hash_of F.shape F.has_pending H.Digest.size chunk_size proof.now
        (H.Digest.text root.now)) }
{
    check_absence::<F, H, K, FixedEncoding<V>>(alloc, proof, chunk_size, &((), ()), key, root)
}

/// Returns what `check_value` answers for a value of one size.
fn filled_value<F: Graftable, H: Hasher, K: Key + Small + Read<Cfg = ()>>(
    alloc: Global,
    chunk_size: usize,
    proof: &[u8],
    key: K,
    value: &SizedBytes,
    root: &H::Digest,
) -> Result<bool, NoMemory>
    ensures { IsAnswer None (code_of (of_check result))
        (has_sized (keys_of K.text K.cmp K.view (K.parse tt)) (filled K.size) key
        (bytes_of value.now))
        (setting_of H.hash_of F.shape F.has_pending H.Digest.size chunk_size proof.now
        (H.Digest.text root.now)) }
{
    match value {
        SizedBytes::Of4(value) => {
            value_of::<F, H, K, FixedBytes<4>>(alloc, chunk_size, proof, key, *value, root)
        }
        SizedBytes::Of8(value) => {
            value_of::<F, H, K, FixedBytes<8>>(alloc, chunk_size, proof, key, *value, root)
        }
        SizedBytes::Of20(value) => {
            value_of::<F, H, K, FixedBytes<20>>(alloc, chunk_size, proof, key, *value, root)
        }
        SizedBytes::Of32(value) => {
            value_of::<F, H, K, FixedBytes<32>>(alloc, chunk_size, proof, key, *value, root)
        }
    }
}

/// Returns what `check_absence` answers over values of one size.
fn filled_absence<F: Graftable, H: Hasher, K: Key + Small + Read<Cfg = ()>>(
    alloc: Global,
    chunk_size: usize,
    proof: &[u8],
    key: &K,
    size: Size,
    root: &H::Digest,
) -> Result<bool, NoMemory>
    ensures { IsAnswer None (code_of (of_check result))
        (lacks_sized (keys_of K.text K.cmp K.view (K.parse tt)) (filled K.size)
        (size_in_bytes size) key.now)
        (setting_of H.hash_of F.shape F.has_pending H.Digest.size chunk_size proof.now
        (H.Digest.text root.now)) }
{
    match size {
        Size::Four => absence_of::<F, H, K, FixedBytes<4>>(alloc, chunk_size, proof, key, root),
        Size::Eight => absence_of::<F, H, K, FixedBytes<8>>(alloc, chunk_size, proof, key, root),
        Size::Twenty => absence_of::<F, H, K, FixedBytes<20>>(alloc, chunk_size, proof, key, root),
        Size::ThirtyTwo => absence_of::<F, H, K, FixedBytes<32>>(
            alloc, chunk_size, proof, key, root,
        ),
    }
}
