//! Questions about keys of any length.

ghost use Rattle.std.specs.Prelude.{◌≡◌, length, refl};
ghost use Rattle.light_questions.specs.Answers.{or_then};
ghost use Rattle.light_questions.specs.KeyParts.{as_long, has_sized, has_vector, lacks_sized, lacks_vector, of_vector, string_keys};
ghost use Rattle.light_questions.specs.SizedStrings.{value_refusal};

use crate::answer::{Fault, checked};
use crate::question::Question;
use crate::sized::{of_bytes, size_of};
use crate::variable::{absence_of, sized_absence, sized_value, vector_value};
use commonware_storage::codec::RangeCfg;
use commonware_storage::digest::Hasher;
use commonware_storage::merkle::Graftable;
use commonware_storage::qmdb::current::grafting::chunk_height;
use std::alloc::Global;

/// Whether a key has a value, where values have any length.
#[derive(Drop)]
pub struct StringValue<'a> {
    /// The key's bytes.
    pub key: &'a [u8],

    /// The lengths of keys in the proof.
    pub lengths: RangeCfg,

    /// The value's bytes.
    pub value: &'a [u8],
}

impl Question for StringValue<'_> {
    ghost refusal = { λ before _. before };

    ghost asked = { λ it. of_vector (λ key. has_vector (string_keys it.lengths.min it.lengths.max)
        key it.value.now) it.key.now };

    fn answer<F: Graftable, H: Hasher>(
        &self,
        alloc: Global,
        chunk_size: usize,
        proof: &[u8],
        root: &H::Digest,
    ) -> Result<bool, Fault> {
        if chunk_height(chunk_size).is_none() {
            return Ok(false);
        }
        let Ok(key) = Vec::from_slice(alloc, self.key) else {
            return Err(Fault::Memory);
        };
        let cfg = &(self.lengths, ());
        checked(vector_value::<F, H, Vec<u8>>(alloc, chunk_size, proof, cfg, key, self.value, root))
    }

    ghost first = { λ _ _. refl };
}

/// Whether a key has a value, where all values have one size.
#[derive(Drop)]
pub struct StringSizedValue<'a> {
    /// The key's bytes.
    pub key: &'a [u8],

    /// The lengths of keys in the proof.
    pub lengths: RangeCfg,

    /// The value's bytes.
    pub value: &'a [u8],
}

impl Question for StringSizedValue<'_> {
    ghost refusal = { λ before it. or_then before (value_refusal (length it.value.now)) };

    ghost asked = { λ it. of_vector (λ key. has_sized (string_keys it.lengths.min it.lengths.max) as_long
        key it.value.now) it.key.now };

    fn answer<F: Graftable, H: Hasher>(
        &self,
        alloc: Global,
        chunk_size: usize,
        proof: &[u8],
        root: &H::Digest,
    ) -> Result<bool, Fault> {
        let Some(value) = of_bytes(self.value) else {
            return Err(Fault::OtherValue);
        };
        if chunk_height(chunk_size).is_none() {
            return Ok(false);
        }
        let Ok(key) = Vec::from_slice(alloc, self.key) else {
            return Err(Fault::Memory);
        };
        let cfg = &(self.lengths, ());
        checked(sized_value::<F, H, Vec<u8>>(alloc, chunk_size, proof, cfg, key, &value, root))
    }

    ghost first = { λ _ _. refl };
}

/// Whether a key has no value, where values have any length.
#[derive(Drop)]
pub struct StringAbsence<'a> {
    /// The key's bytes.
    pub key: &'a [u8],

    /// The lengths of keys in the proof.
    pub lengths: RangeCfg,

    /// The lengths of values in the proof.
    pub value_lengths: RangeCfg,
}

impl Question for StringAbsence<'_> {
    ghost refusal = { λ before _. before };

    ghost asked = { λ it. of_vector (lacks_vector (string_keys it.lengths.min it.lengths.max)
        it.value_lengths.min it.value_lengths.max) it.key.now };

    fn answer<F: Graftable, H: Hasher>(
        &self,
        alloc: Global,
        chunk_size: usize,
        proof: &[u8],
        root: &H::Digest,
    ) -> Result<bool, Fault> {
        if chunk_height(chunk_size).is_none() {
            return Ok(false);
        }
        let Ok(key) = Vec::from_slice(alloc, self.key) else {
            return Err(Fault::Memory);
        };
        let value = (self.value_lengths, ());
        let cfgs = &(((self.lengths, ()), value), value);
        checked(absence_of::<F, H, Vec<u8>, Vec<u8>>(alloc, chunk_size, proof, cfgs, &key, root))
    }

    ghost first = { λ _ _. refl };
}

/// Whether a key has no value, where all values have one size.
#[derive(Drop)]
pub struct StringSizedAbsence<'a> {
    /// The key's bytes.
    pub key: &'a [u8],

    /// The lengths of keys in the proof.
    pub lengths: RangeCfg,

    /// How many bytes a value has.
    pub value_size: usize,
}

impl Question for StringSizedAbsence<'_> {
    ghost refusal = { λ before it. or_then before (value_refusal it.value_size) };

    ghost asked = { λ it. of_vector (lacks_sized (string_keys it.lengths.min it.lengths.max) as_long
        it.value_size) it.key.now };

    fn answer<F: Graftable, H: Hasher>(
        &self,
        alloc: Global,
        chunk_size: usize,
        proof: &[u8],
        root: &H::Digest,
    ) -> Result<bool, Fault> {
        let Some(size) = size_of(self.value_size) else {
            return Err(Fault::OtherValue);
        };
        if chunk_height(chunk_size).is_none() {
            return Ok(false);
        }
        let Ok(key) = Vec::from_slice(alloc, self.key) else {
            return Err(Fault::Memory);
        };
        let cfgs = &(((self.lengths, ()), ()), ());
        checked(sized_absence::<F, H, Vec<u8>>(alloc, chunk_size, proof, cfgs, &key, size, root))
    }

    ghost first = { λ _ _. refl };
}
