//! Checks over what is agreed of a database, in one struct: of an operation, a range, a value and an absence.

ghost use Rattle.std.specs.Prelude.{◌≡◌, None};
ghost use Rattle.storage_bitmap.specs.Chunks.{IsChunkSize};
ghost use Rattle.storage_current.specs.Snapshots.{grafting_of};
ghost use Rattle.commonware_storage.specs.Light.{IsAcceptedAt, IsTrueAt};
ghost use Rattle.commonware_storage.specs.LightRanges.{IsAcceptedRange, IsTrueRange};
ghost use Rattle.light_questions.specs.Agreed.{agreed_refusal, digest_size_of, function_of, has_pending_of, shape_of};
ghost use Rattle.light_questions.specs.Agreement.{AsAgreed, IsAcceptedAbsenceIn, IsAcceptedValueIn, IsTrueAbsenceIn, IsTrueValueIn, absence_refused, value_refused};
ghost use Rattle.light_questions.specs.Answers.{IsTold, Says, lengths_refusal, no, or_then, yes};
ghost use Rattle.light_questions.specs.ByteStrings.{cut};

use crate::operation::gawerunoa_check_operation;
use crate::range::gawerunoa_check_range;
use light_questions::agreement::{Agreed, agreed_on};
use light_questions::answer::told;
use light_questions::kinds::{check_absence_in, check_value_in};
use std::alloc::Global;

/// Returns what `gawerunoa_check_operation` answers over what is agreed: whether the operation stands at `location` and
/// is active.
///
/// The answer is one of those of `answer`; what is refused of the struct comes first. A no for a chunk size that no
/// chunk has allocates nothing.
#[unsafe(no_mangle)]
pub extern "C" fn gawerunoa_ask_operation(
    alloc: Global,
    agreed: &[Agreed],
    location: u64,
    proof: &[u8],
    operation: &[u8],
    root: &[u8],
) -> i32
    ensures exact { AsAgreed agreed.now result (λ it kind.
        IsTold (agreed_refusal it.family it.hash root.now) result (Says result (IsAcceptedAt
        (function_of it.hash) (grafting_of (shape_of it.family) it.chunk_size)
        (has_pending_of it.family) (digest_size_of it.hash) location proof.now operation.now
        root.now))) }
    ensures meaning { AsAgreed agreed.now result (λ it kind.
        agreed_refusal it.family it.hash root.now ≡ None → result ≡ yes → IsTrueAt
        (function_of it.hash) (grafting_of (shape_of it.family) it.chunk_size)
        (has_pending_of it.family) (digest_size_of it.hash) location proof.now operation.now
        root.now) }
    ensures refused { AsAgreed agreed.now result (λ it kind.
        agreed_refusal it.family it.hash root.now ≡ None → ¬ IsChunkSize it.chunk_size
        → result ≡ no) }
{
    match agreed_on(agreed) {
        Ok((it, _)) => gawerunoa_check_operation(
            alloc,
            it.family,
            it.hash,
            it.chunk_size,
            location,
            proof,
            operation,
            root,
        ),
        Err(fault) => told(Err(fault)),
    }
}

/// Returns what `gawerunoa_check_range` answers over what is agreed: whether the operations stand at the locations from
/// `start` on, and these are the chunks of activity bits that they touch.
///
/// The answer is one of those of `answer`; what is refused of the struct comes first. A no for a chunk size that no
/// chunk has allocates nothing.
#[unsafe(no_mangle)]
pub extern "C" fn gawerunoa_ask_range<'a>(
    alloc: Global,
    agreed: &[Agreed],
    start: u64,
    proof: &[u8],
    operations: &'a [u8],
    operation_lengths: &'a [usize],
    chunks: &'a [u8],
    chunk_lengths: &'a [usize],
    root: &[u8],
) -> i32
    ensures exact { AsAgreed agreed.now result (λ it kind.
        let refused = or_then (agreed_refusal it.family it.hash root.now)
        (lengths_refusal operations.now operation_lengths.now chunks.now chunk_lengths.now) in
        IsTold refused result (Says result (IsAcceptedRange (function_of it.hash)
        (grafting_of (shape_of it.family) it.chunk_size) (has_pending_of it.family)
        (digest_size_of it.hash) it.max_digests start proof.now
        (cut operation_lengths.now operations.now) (cut chunk_lengths.now chunks.now)
        root.now))) }
    ensures meaning { AsAgreed agreed.now result (λ it kind.
        or_then (agreed_refusal it.family it.hash root.now)
        (lengths_refusal operations.now operation_lengths.now chunks.now chunk_lengths.now) ≡ None
        → result ≡ yes → IsTrueRange (function_of it.hash)
        (grafting_of (shape_of it.family) it.chunk_size) (has_pending_of it.family)
        (digest_size_of it.hash) it.max_digests start proof.now
        (cut operation_lengths.now operations.now) (cut chunk_lengths.now chunks.now)
        root.now) }
    ensures refused { AsAgreed agreed.now result (λ it kind.
        or_then (agreed_refusal it.family it.hash root.now)
        (lengths_refusal operations.now operation_lengths.now chunks.now chunk_lengths.now) ≡ None
        → ¬ IsChunkSize it.chunk_size → result ≡ no) }
{
    match agreed_on(agreed) {
        Ok((it, _)) => gawerunoa_check_range(
            alloc,
            it.family,
            it.hash,
            it.chunk_size,
            it.max_digests,
            start,
            proof,
            operations,
            operation_lengths,
            chunks,
            chunk_lengths,
            root,
        ),
        Err(fault) => told(Err(fault)),
    }
}

/// Returns whether the key with the bytes `key` has the value with the bytes `value`, in a database of the kind that is
/// agreed. `proof` is a key-value proof as it is written. Where keys are strings, its next key has a length that is
/// agreed.
///
/// The answer is one of those of `answer`; what is refused of the struct comes first. A no for a chunk size that no
/// chunk has allocates nothing. A key that is a string is copied, as is a variable value.
#[unsafe(no_mangle)]
pub extern "C" fn gawerunoa_ask_value(
    alloc: Global,
    agreed: &[Agreed],
    proof: &[u8],
    key: &[u8],
    value: &[u8],
    root: &[u8],
) -> i32
    ensures exact { AsAgreed agreed.now result (λ it kind.
        let refused = value_refused kind it (agreed_refusal it.family it.hash root.now) key.now
        value.now in IsTold refused result (Says result (IsAcceptedValueIn it (function_of it.hash)
        (grafting_of (shape_of it.family) it.chunk_size) (has_pending_of it.family)
        (digest_size_of it.hash) proof.now key.now kind value.now root.now))) }
    ensures meaning { AsAgreed agreed.now result (λ it kind.
        value_refused kind it (agreed_refusal it.family it.hash root.now) key.now value.now ≡ None
        → result ≡ yes → IsTrueValueIn it (function_of it.hash)
        (grafting_of (shape_of it.family) it.chunk_size) (has_pending_of it.family)
        (digest_size_of it.hash) proof.now key.now kind value.now root.now) }
    ensures refused { AsAgreed agreed.now result (λ it kind.
        value_refused kind it (agreed_refusal it.family it.hash root.now) key.now value.now ≡ None
        → ¬ IsChunkSize it.chunk_size → result ≡ no) }
{
    match agreed_on(agreed) {
        Ok((it, kind)) => told(check_value_in(alloc, &it, kind, proof, key, value, root)),
        Err(fault) => told(Err(fault)),
    }
}

/// Returns whether the key with the bytes `key` has no value, in a database of the kind that is agreed. `proof` is an
/// exclusion proof as it is written. Its keys, if they are strings, and its value have lengths that are agreed.
///
/// The answer is one of those of `answer`; what is refused of the struct comes first. A no for a chunk size that no
/// chunk has allocates nothing. A key that is a string is copied.
#[unsafe(no_mangle)]
pub extern "C" fn gawerunoa_ask_absence(
    alloc: Global,
    agreed: &[Agreed],
    proof: &[u8],
    key: &[u8],
    root: &[u8],
) -> i32
    ensures exact { AsAgreed agreed.now result (λ it kind.
        let refused = absence_refused kind it (agreed_refusal it.family it.hash root.now) key.now in
        IsTold refused result (Says result (IsAcceptedAbsenceIn it (function_of it.hash)
        (grafting_of (shape_of it.family) it.chunk_size) (has_pending_of it.family)
        (digest_size_of it.hash) proof.now key.now kind root.now))) }
    ensures meaning { AsAgreed agreed.now result (λ it kind.
        absence_refused kind it (agreed_refusal it.family it.hash root.now) key.now ≡ None
        → result ≡ yes → IsTrueAbsenceIn it (function_of it.hash)
        (grafting_of (shape_of it.family) it.chunk_size) (has_pending_of it.family)
        (digest_size_of it.hash) proof.now key.now kind root.now) }
    ensures refused { AsAgreed agreed.now result (λ it kind.
        absence_refused kind it (agreed_refusal it.family it.hash root.now) key.now ≡ None
        → ¬ IsChunkSize it.chunk_size → result ≡ no) }
{
    match agreed_on(agreed) {
        Ok((it, kind)) => told(check_absence_in(alloc, &it, kind, proof, key, root)),
        Err(fault) => told(Err(fault)),
    }
}
