//! The questions about a key of a database, whichever kind its keys and values are of.

ghost use Rattle.std.specs.Prelude.{◌≡◌, None, length};
ghost use Rattle.light_questions.specs.Agreed.{agreed_refusal, digest_size_of, function_of, has_pending_of, shape_of};
ghost use Rattle.light_questions.specs.Agreement.{absence_refused, size_refusal, value_refused};
ghost use Rattle.light_questions.specs.KeyParts.{IsAnswer, absent_in, code_of, setting_of, value_in};
ghost use Rattle.light_questions.specs.SizedStrings.{value_refusal};

use crate::agreement::{Agreed, Kind};
use crate::answer::Fault;
use crate::claim::SizedKey;
use crate::fixed::{FixedAbsence, FixedValue};
use crate::question::{Question, ask};
use crate::strings::{StringAbsence, StringSizedAbsence, StringSizedValue, StringValue};
use crate::variable::{Absence, SizedAbsence, SizedValue, Value};
use commonware_storage::codec::RangeCfg;
use std::alloc::Global;

/// Returns whether a key has a value.
pub fn check_value_in(
    alloc: Global,
    agreed: &Agreed,
    kind: Kind,
    proof: &[u8],
    key: &[u8],
    value: &[u8],
    root: &[u8],
) -> Result<bool, Fault>
    ensures { IsAnswer (value_refused kind agreed.now (agreed_refusal agreed.now.family
        agreed.now.hash root.now) key.now value.now) (code_of result) (value_in kind agreed.now
        key.now value.now) (setting_of (function_of agreed.now.hash) (shape_of agreed.now.family)
        (has_pending_of agreed.now.family) (digest_size_of agreed.now.hash) agreed.now.chunk_size
        proof.now root.now) }
{
    let lengths = RangeCfg {
        min: agreed.min_key_length,
        max: agreed.max_key_length,
    };
    let sized = of_agreed_size(agreed, value);
    match kind {
        Kind::Variable => {
            let claim = Value { value };
            ask_in(alloc, agreed, proof, &SizedKey { key, claim }, root)
        }
        Kind::Sized => {
            let claim = SizedValue { value: sized };
            ask_in(alloc, agreed, proof, &SizedKey { key, claim }, root)
        }
        Kind::Fixed => {
            let claim = FixedValue { value: sized };
            ask_in(alloc, agreed, proof, &SizedKey { key, claim }, root)
        }
        Kind::StringVariable => {
            let question = StringValue {
                key,
                lengths,
                value,
            };
            ask_in(alloc, agreed, proof, &question, root)
        }
        Kind::StringSized => {
            let question = StringSizedValue {
                key,
                lengths,
                value: sized,
            };
            ask_in(alloc, agreed, proof, &question, root)
        }
    }
}

/// Returns whether a key has no value.
pub fn check_absence_in(
    alloc: Global,
    agreed: &Agreed,
    kind: Kind,
    proof: &[u8],
    key: &[u8],
    root: &[u8],
) -> Result<bool, Fault>
    ensures { IsAnswer (absence_refused kind agreed.now (agreed_refusal agreed.now.family
        agreed.now.hash root.now) key.now) (code_of result) (absent_in kind agreed.now key.now)
        (setting_of (function_of agreed.now.hash) (shape_of agreed.now.family)
        (has_pending_of agreed.now.family) (digest_size_of agreed.now.hash) agreed.now.chunk_size
        proof.now root.now) }
{
    let lengths = RangeCfg {
        min: agreed.min_key_length,
        max: agreed.max_key_length,
    };
    let value_lengths = RangeCfg {
        min: agreed.min_value_length,
        max: agreed.max_value_length,
    };
    let value_size = agreed_size(agreed);
    match kind {
        Kind::Variable => {
            let claim = Absence {
                lengths: value_lengths,
            };
            ask_in(alloc, agreed, proof, &SizedKey { key, claim }, root)
        }
        Kind::Sized => {
            let claim = SizedAbsence { value_size };
            ask_in(alloc, agreed, proof, &SizedKey { key, claim }, root)
        }
        Kind::Fixed => {
            let claim = FixedAbsence { value_size };
            ask_in(alloc, agreed, proof, &SizedKey { key, claim }, root)
        }
        Kind::StringVariable => {
            let question = StringAbsence {
                key,
                lengths,
                value_lengths,
            };
            ask_in(alloc, agreed, proof, &question, root)
        }
        Kind::StringSized => {
            let question = StringSizedAbsence {
                key,
                lengths,
                value_size,
            };
            ask_in(alloc, agreed, proof, &question, root)
        }
    }
}

/// Returns the answer to a question over what is agreed of a database.
pub fn ask_in<Q: Question>(
    alloc: Global,
    agreed: &Agreed,
    proof: &[u8],
    question: &Q,
    root: &[u8],
) -> Result<bool, Fault>
    ensures { IsAnswer (Q.refusal (agreed_refusal agreed.now.family agreed.now.hash root.now)
        question.now) (code_of result) (Q.asked question.now) (setting_of
        (function_of agreed.now.hash) (shape_of agreed.now.family)
        (has_pending_of agreed.now.family) (digest_size_of agreed.now.hash) agreed.now.chunk_size
        proof.now root.now) }
{
    ask(
        alloc,
        agreed.family,
        agreed.hash,
        agreed.chunk_size,
        proof,
        question,
        root,
    )
}

/// Returns the value if it has the size that is agreed, and else no bytes, which no value of one size has.
fn of_agreed_size<'a>(agreed: &Agreed, value: &'a [u8]) -> &'a [u8]
    ensures refusal { size_refusal agreed.now (length value.now) ≡ value_refusal (length result.now) }
    ensures same { size_refusal agreed.now (length value.now) ≡ None → result.now ≡ value.now }
{
    let size = value.len();
    if agreed.min_value_length == size && agreed.max_value_length == size {
        value
    } else {
        &value[..0]
    }
}

/// Returns the size of values that is agreed, and 0 if there are two, which no value of one size has.
fn agreed_size(agreed: &Agreed) -> usize
    ensures refusal { size_refusal agreed.now agreed.now.min_value_length ≡ value_refusal result }
    ensures same { size_refusal agreed.now agreed.now.min_value_length ≡ None
        → result ≡ agreed.now.min_value_length }
{
    if agreed.min_value_length == agreed.max_value_length {
        agreed.min_value_length
    } else {
        0
    }
}
