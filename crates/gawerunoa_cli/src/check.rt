//! Whether a proof shows what is claimed.

ghost use Rattle.light_questions.specs.Agreed.{digest_size_of, function_of, has_pending_of, shape_of};
ghost use Rattle.light_questions.specs.KeyParts.{IsAnswer, code_of, setting_of};
ghost use Rattle.gawerunoa_cli.specs.Claims.{asked_of, refusal_of};

use crate::claim::Claim;
use light_questions::agreement::{Agreed, Kind};
use light_questions::answer::Fault;
use light_questions::kinds::{ask_in, check_absence_in, check_value_in};
use light_questions::operation::Operation;
use light_questions::range::Range;
use std::alloc::Global;

/// Returns whether `proof`, as it is written, shows what is claimed of the snapshot with the canonical root `root`, in a
/// database of the kind `kind`. The answer is no for bytes that are no such proof, and for a size that no chunk has. It is
/// what the claim's check in `light_questions` answers.
///
/// # Errors
///
/// What is refused of the question: a family, a digest function, a root, a key, a value or lengths that are none; and
/// `Memory`, which may come at any point.
pub fn is_shown(
    alloc: Global,
    agreed: &Agreed,
    kind: Kind,
    root: &[u8],
    proof: &[u8],
    claim: &Claim,
) -> Result<bool, Fault>
    ensures { IsAnswer (refusal_of kind agreed.now root.now claim.now) (code_of result)
        (asked_of kind agreed.now claim.now) (setting_of (function_of agreed.now.hash)
        (shape_of agreed.now.family) (has_pending_of agreed.now.family)
        (digest_size_of agreed.now.hash) agreed.now.chunk_size proof.now root.now) }
{
    match claim {
        Claim::Operation {
            location,
            operation,
        } => {
            let question = Operation {
                location: *location,
                operation,
            };
            ask_in(alloc, agreed, proof, &question, root)
        }
        Claim::Range {
            start,
            operations,
            chunks,
        } => {
            let question = Range {
                max_digests: agreed.max_digests,
                start: *start,
                operations: &operations.bytes,
                operation_lengths: &operations.lengths,
                chunks: &chunks.bytes,
                chunk_lengths: &chunks.lengths,
            };
            ask_in(alloc, agreed, proof, &question, root)
        }
        Claim::Value { key, value } => {
            check_value_in(alloc, agreed, kind, proof, key, value, root)
        }
        Claim::Absence { key } => check_absence_in(alloc, agreed, kind, proof, key, root),
    }
}
