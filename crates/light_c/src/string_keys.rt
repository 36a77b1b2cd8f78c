//! Checks of the value of a key, and that a key has none, where keys have any length.

ghost use Rattle.std.specs.Prelude.{◌≡◌, None, length};
ghost use Rattle.storage_bitmap.specs.Chunks.{IsChunkSize};
ghost use Rattle.storage_current.specs.Snapshots.{grafting_of};
ghost use Rattle.light_questions.specs.Agreed.{function_of, has_pending_of, agreed_refusal, shape_of, digest_size_of};
ghost use Rattle.light_questions.specs.Answers.{IsTold, Says, no, or_then, yes};
ghost use Rattle.light_questions.specs.SizedStrings.{value_refusal};
ghost use Rattle.light_questions.specs.StringKeys.{IsAcceptedStringAbsenceOf, IsAcceptedStringSizedAbsenceOf, IsAcceptedStringSizedValueOf, IsAcceptedStringValueOf, IsTrueStringAbsenceOf, IsTrueStringSizedAbsenceOf, IsTrueStringSizedValueOf, IsTrueStringValueOf};

use commonware_storage::codec::RangeCfg;
use light_questions::answer::told;
use light_questions::question::ask;
use light_questions::strings::{StringAbsence, StringSizedAbsence, StringSizedValue, StringValue};
use std::alloc::Global;

/// Returns whether the key with the bytes `key` has the value with the bytes `value` in the snapshot with the canonical
/// root `root`. `proof` is a key-value proof as it is written, over a chunk of `chunk_size` bytes, whose next key has
/// from `min_key_length` to `max_key_length` bytes. Keys and values have any length, and it is written before them.
///
/// The answer is one of those of `answer`. A no for a chunk size that no chunk has allocates nothing; else the key and
/// the value are copied.
#[unsafe(no_mangle)]
pub extern "C" fn gawerunoa_check_string_value(
    alloc: Global,
    family: u32,
    hash: u32,
    chunk_size: usize,
    min_key_length: usize,
    max_key_length: usize,
    proof: &[u8],
    key: &[u8],
    value: &[u8],
    root: &[u8],
) -> i32
    ensures exact { IsTold (agreed_refusal family hash root.now) result (Says result
        (IsAcceptedStringValueOf (function_of hash) (grafting_of (shape_of family) chunk_size)
        (has_pending_of family) (digest_size_of hash) proof.now min_key_length max_key_length key.now
        value.now root.now)) }
    ensures meaning { agreed_refusal family hash root.now ≡ None → result ≡ yes
        → IsTrueStringValueOf
        (function_of hash) (grafting_of (shape_of family) chunk_size) (has_pending_of family)
        (digest_size_of hash) proof.now min_key_length max_key_length key.now value.now root.now }
    ensures refused { agreed_refusal family hash root.now ≡ None → ¬ IsChunkSize chunk_size
        → result ≡ no }
{
    let lengths = RangeCfg {
        min: min_key_length,
        max: max_key_length,
    };
    let question = StringValue {
        key,
        lengths,
        value,
    };
    told(ask(alloc, family, hash, chunk_size, proof, &question, root))
}

/// Returns whether the key with the bytes `key` has no value in the snapshot with the canonical root `root`. `proof` is
/// an exclusion proof as it is written, over a chunk of `chunk_size` bytes, whose keys have from `min_key_length` to
/// `max_key_length` bytes, and its value from `min_value_length` to `max_value_length`. Their lengths are written
/// before them.
///
/// The answer is one of those of `answer`. A no for a chunk size that no chunk has allocates nothing; else the key is
/// copied.
#[unsafe(no_mangle)]
pub extern "C" fn gawerunoa_check_string_absence(
    alloc: Global,
    family: u32,
    hash: u32,
    chunk_size: usize,
    min_key_length: usize,
    max_key_length: usize,
    min_value_length: usize,
    max_value_length: usize,
    proof: &[u8],
    key: &[u8],
    root: &[u8],
) -> i32
    ensures exact { IsTold (agreed_refusal family hash root.now) result (Says result
        (IsAcceptedStringAbsenceOf (function_of hash) (grafting_of (shape_of family) chunk_size)
        (has_pending_of family) (digest_size_of hash) proof.now min_key_length max_key_length
        min_value_length max_value_length key.now root.now)) }
    ensures meaning { agreed_refusal family hash root.now ≡ None → result ≡ yes
        → IsTrueStringAbsenceOf (function_of hash) (grafting_of (shape_of family) chunk_size)
        (has_pending_of family) (digest_size_of hash) proof.now min_key_length max_key_length
        min_value_length max_value_length key.now root.now }
    ensures refused { agreed_refusal family hash root.now ≡ None → ¬ IsChunkSize chunk_size
        → result ≡ no }
{
    let lengths = RangeCfg {
        min: min_key_length,
        max: max_key_length,
    };
    let value_lengths = RangeCfg {
        min: min_value_length,
        max: max_value_length,
    };
    let question = StringAbsence {
        key,
        lengths,
        value_lengths,
    };
    told(ask(alloc, family, hash, chunk_size, proof, &question, root))
}

/// Returns whether the key with the bytes `key` has the value with the bytes `value` in the snapshot with the canonical
/// root `root`. `proof` is a key-value proof as it is written, over a chunk of `chunk_size` bytes, whose next key has
/// from `min_key_length` to `max_key_length` bytes. Keys have any length, and it is written before them; values have 4,
/// 8, 20 or 32 bytes, and are written as they are.
///
/// The answer is one of those of `answer`. A no for a chunk size that no chunk has allocates nothing; else the key is
/// copied.
#[unsafe(no_mangle)]
pub extern "C" fn gawerunoa_check_string_sized_value(
    alloc: Global,
    family: u32,
    hash: u32,
    chunk_size: usize,
    min_key_length: usize,
    max_key_length: usize,
    proof: &[u8],
    key: &[u8],
    value: &[u8],
    root: &[u8],
) -> i32
    ensures exact { let refused = or_then (agreed_refusal family hash root.now)
        (value_refusal (length value.now)) in
        IsTold refused result (Says result (IsAcceptedStringSizedValueOf (function_of hash)
        (grafting_of (shape_of family) chunk_size) (has_pending_of family)
        (digest_size_of hash) proof.now
        min_key_length max_key_length key.now value.now root.now)) }
    ensures meaning { or_then (agreed_refusal family hash root.now) (value_refusal
        (length value.now))
        ≡ None → result ≡ yes → IsTrueStringSizedValueOf (function_of hash)
        (grafting_of (shape_of family) chunk_size) (has_pending_of family)
        (digest_size_of hash) proof.now
        min_key_length max_key_length key.now value.now root.now }
    ensures refused { or_then (agreed_refusal family hash root.now) (value_refusal
        (length value.now))
        ≡ None → ¬ IsChunkSize chunk_size → result ≡ no }
{
    let lengths = RangeCfg {
        min: min_key_length,
        max: max_key_length,
    };
    let question = StringSizedValue {
        key,
        lengths,
        value,
    };
    told(ask(alloc, family, hash, chunk_size, proof, &question, root))
}

/// Returns whether the key with the bytes `key` has no value in the snapshot with the canonical root `root`. `proof` is
/// an exclusion proof as it is written, over a chunk of `chunk_size` bytes, whose keys have from `min_key_length` to
/// `max_key_length` bytes; their length is written before them. Values have 4, 8, 20 or 32 bytes, each of them
/// `value_size`, and are written as they are.
///
/// The answer is one of those of `answer`. A no for a chunk size that no chunk has allocates nothing; else the key is
/// copied.
#[unsafe(no_mangle)]
pub extern "C" fn gawerunoa_check_string_sized_absence(
    alloc: Global,
    family: u32,
    hash: u32,
    chunk_size: usize,
    min_key_length: usize,
    max_key_length: usize,
    value_size: usize,
    proof: &[u8],
    key: &[u8],
    root: &[u8],
) -> i32
    ensures exact { let refused = or_then (agreed_refusal family hash root.now)
        (value_refusal value_size) in
        IsTold refused result (Says result (IsAcceptedStringSizedAbsenceOf (function_of hash)
        (grafting_of (shape_of family) chunk_size) (has_pending_of family)
        (digest_size_of hash) proof.now
        min_key_length max_key_length value_size key.now root.now)) }
    ensures meaning { or_then (agreed_refusal family hash root.now) (value_refusal value_size)
        ≡ None
        → result ≡ yes → IsTrueStringSizedAbsenceOf (function_of hash)
        (grafting_of (shape_of family) chunk_size) (has_pending_of family)
        (digest_size_of hash) proof.now
        min_key_length max_key_length value_size key.now root.now }
    ensures refused { or_then (agreed_refusal family hash root.now) (value_refusal value_size)
        ≡ None
        → ¬ IsChunkSize chunk_size → result ≡ no }
{
    let lengths = RangeCfg {
        min: min_key_length,
        max: max_key_length,
    };
    let question = StringSizedAbsence {
        key,
        lengths,
        value_size,
    };
    told(ask(alloc, family, hash, chunk_size, proof, &question, root))
}
