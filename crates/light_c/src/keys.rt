//! Checks of the value of a key, and that a key has none, where all keys have one size.

ghost use Rattle.std.specs.Prelude.{◌≡◌, None, length};
ghost use Rattle.storage_bitmap.specs.Chunks.{IsChunkSize};
ghost use Rattle.storage_current.specs.Snapshots.{grafting_of};
ghost use Rattle.light_questions.specs.Agreed.{function_of, has_pending_of, agreed_refusal, shape_of, digest_size_of};
ghost use Rattle.light_questions.specs.Answers.{IsTold, Says, no, or_then, yes};
ghost use Rattle.light_questions.specs.KeyBytes.{IsAcceptedAbsenceOf, IsAcceptedFixedAbsenceOf, IsAcceptedFixedValueOf, IsAcceptedSizedAbsenceOf, IsAcceptedSizedValueOf, IsAcceptedValueOf, IsTrueAbsenceOf, IsTrueFixedAbsenceOf, IsTrueFixedValueOf, IsTrueSizedAbsenceOf, IsTrueSizedValueOf, IsTrueValueOf};
ghost use Rattle.light_questions.specs.SizedStrings.{key_refusal, value_refusal};

use commonware_storage::codec::RangeCfg;
use light_questions::answer::told;
use light_questions::claim::SizedKey;
use light_questions::fixed::{FixedAbsence, FixedValue};
use light_questions::question::ask;
use light_questions::variable::{Absence, SizedAbsence, SizedValue, Value};
use std::alloc::Global;

/// Returns whether the key with the bytes `key` has the value with the bytes `value` in the snapshot with the canonical
/// root `root`. `proof` is a key-value proof as it is written, over a chunk of `chunk_size` bytes. Keys have 4, 8, 20
/// or 32 bytes, and are written as they are; values have any length, and it is written before them.
///
/// The answer is one of those of `answer`. A no for a chunk size that no chunk has allocates nothing.
#[unsafe(no_mangle)]
pub extern "C" fn gawerunoa_check_value(
    alloc: Global,
    family: u32,
    hash: u32,
    chunk_size: usize,
    proof: &[u8],
    key: &[u8],
    value: &[u8],
    root: &[u8],
) -> i32
    ensures exact { let refused = or_then (agreed_refusal family hash root.now)
        (key_refusal key.now) in
        IsTold refused result (Says result (IsAcceptedValueOf (function_of hash)
        (grafting_of (shape_of family) chunk_size) (has_pending_of family)
        (digest_size_of hash) proof.now
        key.now value.now root.now)) }
    ensures meaning { or_then (agreed_refusal family hash root.now) (key_refusal key.now) ≡ None
        → result ≡ yes → IsTrueValueOf (function_of hash)
        (grafting_of (shape_of family) chunk_size) (has_pending_of family)
        (digest_size_of hash) proof.now
        key.now value.now root.now }
    ensures refused { or_then (agreed_refusal family hash root.now) (key_refusal key.now) ≡ None
        → ¬ IsChunkSize chunk_size → result ≡ no }
{
    let question = SizedKey {
        key,
        claim: Value { value },
    };
    told(ask(alloc, family, hash, chunk_size, proof, &question, root))
}

/// Returns whether the key with the bytes `key` has no value in the snapshot with the canonical root `root`. `proof` is
/// an exclusion proof as it is written, over a chunk of `chunk_size` bytes. Keys have 4, 8, 20 or 32 bytes, and are
/// written as they are; values have from `min_value_length` to `max_value_length` bytes, and their length is written
/// before them.
///
/// The answer is one of those of `answer`. A no for a chunk size that no chunk has allocates nothing.
#[unsafe(no_mangle)]
pub extern "C" fn gawerunoa_check_absence(
    alloc: Global,
    family: u32,
    hash: u32,
    chunk_size: usize,
    min_value_length: usize,
    max_value_length: usize,
    proof: &[u8],
    key: &[u8],
    root: &[u8],
) -> i32
    ensures exact { let refused = or_then (agreed_refusal family hash root.now)
        (key_refusal key.now) in
        IsTold refused result (Says result (IsAcceptedAbsenceOf (function_of hash)
        (grafting_of (shape_of family) chunk_size) (has_pending_of family)
        (digest_size_of hash) proof.now
        min_value_length max_value_length key.now root.now)) }
    ensures meaning { or_then (agreed_refusal family hash root.now) (key_refusal key.now) ≡ None
        → result ≡ yes → IsTrueAbsenceOf (function_of hash)
        (grafting_of (shape_of family) chunk_size) (has_pending_of family)
        (digest_size_of hash) proof.now
        min_value_length max_value_length key.now root.now }
    ensures refused { or_then (agreed_refusal family hash root.now) (key_refusal key.now) ≡ None
        → ¬ IsChunkSize chunk_size → result ≡ no }
{
    let question = SizedKey {
        key,
        claim: Absence {
            lengths: RangeCfg {
                min: min_value_length,
                max: max_value_length,
            },
        },
    };
    told(ask(alloc, family, hash, chunk_size, proof, &question, root))
}

/// Returns whether the key with the bytes `key` has the value with the bytes `value` in the snapshot with the canonical
/// root `root`. `proof` is a key-value proof as it is written, over a chunk of `chunk_size` bytes. Keys have 4, 8, 20
/// or 32 bytes, and so have values. Both are written as they are, and operations are as long as their parts.
///
/// The answer is one of those of `answer`. A no for a chunk size that no chunk has allocates nothing.
#[unsafe(no_mangle)]
pub extern "C" fn gawerunoa_check_sized_value(
    alloc: Global,
    family: u32,
    hash: u32,
    chunk_size: usize,
    proof: &[u8],
    key: &[u8],
    value: &[u8],
    root: &[u8],
) -> i32
    ensures exact { let refused = or_then (or_then (agreed_refusal family hash root.now)
        (key_refusal key.now)) (value_refusal (length value.now)) in
        IsTold refused result (Says result (IsAcceptedSizedValueOf (function_of hash)
        (grafting_of (shape_of family) chunk_size) (has_pending_of family)
        (digest_size_of hash) proof.now
        key.now value.now root.now)) }
    ensures meaning { or_then (or_then (agreed_refusal family hash root.now) (key_refusal key.now))
        (value_refusal (length value.now)) ≡ None → result ≡ yes → IsTrueSizedValueOf
        (function_of hash) (grafting_of (shape_of family) chunk_size) (has_pending_of family)
        (digest_size_of hash) proof.now key.now value.now root.now }
    ensures refused { or_then (or_then (agreed_refusal family hash root.now) (key_refusal key.now))
        (value_refusal (length value.now)) ≡ None → ¬ IsChunkSize chunk_size → result ≡ no }
{
    let question = SizedKey {
        key,
        claim: SizedValue { value },
    };
    told(ask(alloc, family, hash, chunk_size, proof, &question, root))
}

/// Returns whether the key with the bytes `key` has no value in the snapshot with the canonical root `root`. `proof` is
/// an exclusion proof as it is written, over a chunk of `chunk_size` bytes. Keys have 4, 8, 20 or 32 bytes, and so have
/// values, each of them `value_size`. Both are written as they are, and operations are as long as their parts.
///
/// The answer is one of those of `answer`. A no for a chunk size that no chunk has allocates nothing.
#[unsafe(no_mangle)]
pub extern "C" fn gawerunoa_check_sized_absence(
    alloc: Global,
    family: u32,
    hash: u32,
    chunk_size: usize,
    value_size: usize,
    proof: &[u8],
    key: &[u8],
    root: &[u8],
) -> i32
    ensures exact { let refused = or_then (or_then (agreed_refusal family hash root.now)
        (key_refusal key.now)) (value_refusal value_size) in
        IsTold refused result (Says result (IsAcceptedSizedAbsenceOf (function_of hash)
        (grafting_of (shape_of family) chunk_size) (has_pending_of family)
        (digest_size_of hash) proof.now
        value_size key.now root.now)) }
    ensures meaning { or_then (or_then (agreed_refusal family hash root.now) (key_refusal key.now))
        (value_refusal value_size) ≡ None → result ≡ yes → IsTrueSizedAbsenceOf
        (function_of hash) (grafting_of (shape_of family) chunk_size) (has_pending_of family)
        (digest_size_of hash) proof.now value_size key.now root.now }
    ensures refused { or_then (or_then (agreed_refusal family hash root.now) (key_refusal key.now))
        (value_refusal value_size) ≡ None → ¬ IsChunkSize chunk_size → result ≡ no }
{
    let question = SizedKey {
        key,
        claim: SizedAbsence { value_size },
    };
    told(ask(alloc, family, hash, chunk_size, proof, &question, root))
}

/// Returns whether the key with the bytes `key` has the value with the bytes `value` in the snapshot with the canonical
/// root `root`. `proof` is a key-value proof as it is written, over a chunk of `chunk_size` bytes. Keys have 4, 8, 20
/// or 32 bytes, and so have values. Both are written as they are, and operations are filled up with zeros to one size.
///
/// The answer is one of those of `answer`. A no for a chunk size that no chunk has allocates nothing.
#[unsafe(no_mangle)]
pub extern "C" fn gawerunoa_check_fixed_value(
    alloc: Global,
    family: u32,
    hash: u32,
    chunk_size: usize,
    proof: &[u8],
    key: &[u8],
    value: &[u8],
    root: &[u8],
) -> i32
    ensures exact { let refused = or_then (or_then (agreed_refusal family hash root.now)
        (key_refusal key.now)) (value_refusal (length value.now)) in
        IsTold refused result (Says result (IsAcceptedFixedValueOf (function_of hash)
        (grafting_of (shape_of family) chunk_size) (has_pending_of family)
        (digest_size_of hash) proof.now
        key.now value.now root.now)) }
    ensures meaning { or_then (or_then (agreed_refusal family hash root.now) (key_refusal key.now))
        (value_refusal (length value.now)) ≡ None → result ≡ yes → IsTrueFixedValueOf
        (function_of hash) (grafting_of (shape_of family) chunk_size) (has_pending_of family)
        (digest_size_of hash) proof.now key.now value.now root.now }
    ensures refused { or_then (or_then (agreed_refusal family hash root.now) (key_refusal key.now))
        (value_refusal (length value.now)) ≡ None → ¬ IsChunkSize chunk_size → result ≡ no }
{
    let question = SizedKey {
        key,
        claim: FixedValue { value },
    };
    told(ask(alloc, family, hash, chunk_size, proof, &question, root))
}

/// Returns whether the key with the bytes `key` has no value in the snapshot with the canonical root `root`. `proof` is
/// an exclusion proof as it is written, over a chunk of `chunk_size` bytes. Keys have 4, 8, 20 or 32 bytes, and so have
/// values, each of them `value_size`. Both are written as they are, and operations are filled up with zeros to one
/// size.
///
/// The answer is one of those of `answer`. A no for a chunk size that no chunk has allocates nothing.
#[unsafe(no_mangle)]
pub extern "C" fn gawerunoa_check_fixed_absence(
    alloc: Global,
    family: u32,
    hash: u32,
    chunk_size: usize,
    value_size: usize,
    proof: &[u8],
    key: &[u8],
    root: &[u8],
) -> i32
    ensures exact { let refused = or_then (or_then (agreed_refusal family hash root.now)
        (key_refusal key.now)) (value_refusal value_size) in
        IsTold refused result (Says result (IsAcceptedFixedAbsenceOf (function_of hash)
        (grafting_of (shape_of family) chunk_size) (has_pending_of family)
        (digest_size_of hash) proof.now
        value_size key.now root.now)) }
    ensures meaning { or_then (or_then (agreed_refusal family hash root.now) (key_refusal key.now))
        (value_refusal value_size) ≡ None → result ≡ yes → IsTrueFixedAbsenceOf
        (function_of hash) (grafting_of (shape_of family) chunk_size) (has_pending_of family)
        (digest_size_of hash) proof.now value_size key.now root.now }
    ensures refused { or_then (or_then (agreed_refusal family hash root.now) (key_refusal key.now))
        (value_refusal value_size) ≡ None → ¬ IsChunkSize chunk_size → result ≡ no }
{
    let question = SizedKey {
        key,
        claim: FixedAbsence { value_size },
    };
    told(ask(alloc, family, hash, chunk_size, proof, &question, root))
}
