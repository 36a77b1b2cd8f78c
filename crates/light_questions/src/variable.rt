//! Checks of keys in operations that are as long as their parts, and the claims about keys of one size there.

ghost use Rattle.std.specs.Prelude.{◌≡◌, length, None, refl};
ghost use Rattle.storage_bitmap.specs.Chunks.{IsChunkSize};
ghost use Rattle.storage_ops.specs.Variable.{variable_operation_text};
ghost use Rattle.light_questions.specs.Answers.{or_then};
ghost use Rattle.light_questions.specs.KeyParts.{IsAnswer, as_long, code_of, has_sized, has_value, has_vector, keys_of, lacks_sized, lacks_values, lacks_vector, of_check, setting_of};
ghost use Rattle.light_questions.specs.SizedStrings.{bytes_of, size_in_bytes, value_refusal};

use crate::answer::{Fault, checked};
use crate::claim::Claim;
use crate::sized::{Size, SizedBytes, of_bytes, size_of};
use commonware_storage::NoMemory;
use commonware_storage::codec::{FixedBytes, RangeCfg, Read, Small};
use commonware_storage::digest::Hasher;
use commonware_storage::light::{check_absence, check_value};
use commonware_storage::merkle::Graftable;
use commonware_storage::qmdb::any::{VariableEncoding, VariableValue};
use commonware_storage::qmdb::current::grafting::chunk_height;
use commonware_storage::qmdb::operation::Key;
use std::alloc::Global;

/// That the key has the value with these bytes, where values have any length.
#[derive(Drop)]
pub struct Value<'a> {
    /// The value's bytes.
    pub value: &'a [u8],
}

impl Claim for Value<'_> {
    ghost refusal = { λ before _. before };

    ghost asked = { λ it _ _ keys _ key. has_vector keys key it.value.now };

    fn of<F: Graftable, H: Hasher, K: Key + Small + Read<Cfg = ()>>(
        &self,
        alloc: Global,
        chunk_size: usize,
        proof: &[u8],
        key: K,
        root: &H::Digest,
    ) -> Result<bool, Fault> {
        if chunk_height(chunk_size).is_none() {
            return Ok(false);
        }
        checked(vector_value::<F, H, K>(alloc, chunk_size, proof, &(), key, self.value, root))
    }

    ghost first = { λ _ _. refl };
}

/// That the key has the value with these bytes, where all values have one size.
#[derive(Drop)]
pub struct SizedValue<'a> {
    /// The value's bytes.
    pub value: &'a [u8],
}

impl Claim for SizedValue<'_> {
    ghost refusal = { λ before it. or_then before (value_refusal (length it.value.now)) };

    ghost asked = { λ it _ _ keys _ key. has_sized keys as_long key it.value.now };

    fn of<F: Graftable, H: Hasher, K: Key + Small + Read<Cfg = ()>>(
        &self,
        alloc: Global,
        chunk_size: usize,
        proof: &[u8],
        key: K,
        root: &H::Digest,
    ) -> Result<bool, Fault> {
        let Some(value) = of_bytes(self.value) else {
            return Err(Fault::OtherValue);
        };
        checked(sized_value::<F, H, K>(alloc, chunk_size, proof, &(), key, &value, root))
    }

    ghost first = { λ _ _. refl };
}

/// That the key has no value, where values in proofs have such lengths.
#[derive(Drop)]
pub struct Absence {
    /// The lengths of values.
    pub lengths: RangeCfg,
}

impl Claim for Absence {
    ghost refusal = { λ before _. before };

    ghost asked = { λ it _ _ keys _. lacks_vector keys it.lengths.min it.lengths.max };

    fn of<F: Graftable, H: Hasher, K: Key + Small + Read<Cfg = ()>>(
        &self,
        alloc: Global,
        chunk_size: usize,
        proof: &[u8],
        key: K,
        root: &H::Digest,
    ) -> Result<bool, Fault> {
        let value = (self.lengths, ());
        let cfgs = &(((), value), value);
        checked(absence_of::<F, H, K, Vec<u8>>(alloc, chunk_size, proof, cfgs, &key, root))
    }

    ghost first = { λ _ _. refl };
}

/// That the key has no value, where all values have one size.
#[derive(Drop)]
pub struct SizedAbsence {
    /// How many bytes a value has.
    pub value_size: usize,
}

impl Claim for SizedAbsence {
    ghost refusal = { λ before it. or_then before (value_refusal it.value_size) };

    ghost asked = { λ it _ _ keys _. lacks_sized keys as_long it.value_size };

    fn of<F: Graftable, H: Hasher, K: Key + Small + Read<Cfg = ()>>(
        &self,
        alloc: Global,
        chunk_size: usize,
        proof: &[u8],
        key: K,
        root: &H::Digest,
    ) -> Result<bool, Fault> {
        let Some(size) = size_of(self.value_size) else {
            return Err(Fault::OtherValue);
        };
        let cfgs = &(((), ()), ());
        checked(sized_absence::<F, H, K>(alloc, chunk_size, proof, cfgs, &key, size, root))
    }

    ghost first = { λ _ _. refl };
}

/// Returns what `check_value` answers; `cfg` is what the reader of the proof's next key is told.
fn value_of<F: Graftable, H: Hasher, K: Key, V: VariableValue>(
    alloc: Global,
    chunk_size: usize,
    proof: &[u8],
    cfg: &K::Cfg,
    key: K,
    value: V,
    root: &H::Digest,
) -> Result<bool, NoMemory>
    ensures { IsAnswer None (code_of (of_check result))
        (has_value (keys_of K.text K.cmp K.view (K.parse cfg.now)) V.text variable_operation_text
        key value)
        (setting_of H.hash_of F.shape F.has_pending H.Digest.size chunk_size proof.now
        (H.Digest.text root.now)) }
{
    check_value::<F, H, K, VariableEncoding<V>>(alloc, proof, chunk_size, cfg, key, value, root)
}

/// Returns what `check_absence` answers; `cfgs` is what the readers of the proof's update and value are told, which of
/// the values is one.
pub(crate) fn absence_of<F: Graftable, H: Hasher, K: Key, V: VariableValue>(
    alloc: Global,
    chunk_size: usize,
    proof: &[u8],
    cfgs: &((K::Cfg, V::Cfg), V::Cfg),
    key: &K,
    root: &H::Digest,
) -> Result<bool, NoMemory>
    ensures { IsAnswer None (code_of (of_check result))
        (lacks_values (keys_of K.text K.cmp K.view (K.parse cfgs.now.0.0)) V.text V.view
        (V.parse cfgs.now.0.1) (V.parse cfgs.now.1) variable_operation_text key.now)
        (setting_of H.hash_of F.shape F.has_pending H.Digest.size chunk_size proof.now
        (H.Digest.text root.now)) }
{
    check_absence::<F, H, K, VariableEncoding<V>>(alloc, proof, chunk_size, cfgs, key, root)
}

/// Returns what `check_value` answers for a copy of the value; `cfg` is what the reader of the proof's next key is
/// told.
pub(crate) fn vector_value<F: Graftable, H: Hasher, K: Key>(
    alloc: Global,
    chunk_size: usize,
    proof: &[u8],
    cfg: &K::Cfg,
    key: K,
    value: &[u8],
    root: &H::Digest,
) -> Result<bool, NoMemory>
    requires { IsChunkSize chunk_size }
    ensures { IsAnswer None (code_of (of_check result))
        (has_vector (keys_of K.text K.cmp K.view (K.parse cfg.now)) key value.now)
        (setting_of H.hash_of F.shape F.has_pending H.Digest.size chunk_size proof.now
        (H.Digest.text root.now)) }
{
    let Ok(value) = Vec::from_slice(alloc, value) else {
        return Err(NoMemory);
    };
    value_of::<F, H, K, Vec<u8>>(alloc, chunk_size, proof, cfg, key, value, root)
}

/// Returns what `check_value` answers for a value of one size; `cfg` is what the reader of the proof's next key is
/// told.
pub(crate) fn sized_value<F: Graftable, H: Hasher, K: Key>(
    alloc: Global,
    chunk_size: usize,
    proof: &[u8],
    cfg: &K::Cfg,
    key: K,
    value: &SizedBytes,
    root: &H::Digest,
) -> Result<bool, NoMemory>
    ensures { IsAnswer None (code_of (of_check result))
        (has_sized (keys_of K.text K.cmp K.view (K.parse cfg.now)) as_long key (bytes_of value.now))
        (setting_of H.hash_of F.shape F.has_pending H.Digest.size chunk_size proof.now
        (H.Digest.text root.now)) }
{
    match value {
        SizedBytes::Of4(value) => {
            value_of::<F, H, K, FixedBytes<4>>(alloc, chunk_size, proof, cfg, key, *value, root)
        }
        SizedBytes::Of8(value) => {
            value_of::<F, H, K, FixedBytes<8>>(alloc, chunk_size, proof, cfg, key, *value, root)
        }
        SizedBytes::Of20(value) => {
            value_of::<F, H, K, FixedBytes<20>>(alloc, chunk_size, proof, cfg, key, *value, root)
        }
        SizedBytes::Of32(value) => {
            value_of::<F, H, K, FixedBytes<32>>(alloc, chunk_size, proof, cfg, key, *value, root)
        }
    }
}

/// Returns what `check_absence` answers over values of one size; `cfgs` is what the readers of the proof's update and
/// value are told.
pub(crate) fn sized_absence<F: Graftable, H: Hasher, K: Key>(
    alloc: Global,
    chunk_size: usize,
    proof: &[u8],
    cfgs: &((K::Cfg, ()), ()),
    key: &K,
    size: Size,
    root: &H::Digest,
) -> Result<bool, NoMemory>
    ensures { IsAnswer None (code_of (of_check result))
        (lacks_sized (keys_of K.text K.cmp K.view (K.parse cfgs.now.0.0)) as_long
        (size_in_bytes size) key.now)
        (setting_of H.hash_of F.shape F.has_pending H.Digest.size chunk_size proof.now
        (H.Digest.text root.now)) }
{
    match size {
        Size::Four => {
            absence_of::<F, H, K, FixedBytes<4>>(alloc, chunk_size, proof, cfgs, key, root)
        }
        Size::Eight => {
            absence_of::<F, H, K, FixedBytes<8>>(alloc, chunk_size, proof, cfgs, key, root)
        }
        Size::Twenty => {
            absence_of::<F, H, K, FixedBytes<20>>(alloc, chunk_size, proof, cfgs, key, root)
        }
        Size::ThirtyTwo => {
            absence_of::<F, H, K, FixedBytes<32>>(alloc, chunk_size, proof, cfgs, key, root)
        }
    }
}
