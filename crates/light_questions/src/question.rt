//! What may be asked of a snapshot, and the answers, whichever the family, the digest function and the root are.

ghost use Rattle.std.specs.Prelude.{◌≡◌, ℤ, Option, Some, None};
ghost use Rattle.light_questions.specs.Agreed.{agreed_refusal, digest_size_of, function_of, has_pending_of, shape_of};
ghost use Rattle.light_questions.specs.KeyParts.{IsAnswer, Setting, Statement, code_of, setting_of};

use crate::agreed::{MMR, Root, trusted};
use crate::answer::Fault;
use commonware_storage::digest::{Hasher, Sha256, Sha512};
use commonware_storage::merkle::{Graftable, mmb, mmr};
use std::alloc::Global;

/// What may be asked of the snapshot under a root.
pub trait Question {
    /// What is refused: what is refused before, or else the first that is refused of the question itself.
    ghost refusal: { Option ℤ → Self → Option ℤ };

    /// Where the check accepts, and what its yes means.
    ghost asked: { Self → Setting → Statement };

    /// Returns the answer over a family and a digest function, against a digest.
    fn answer<F: Graftable, H: Hasher>(
        &self,
        alloc: Global,
        chunk_size: usize,
        proof: &[u8],
        root: &H::Digest,
    ) -> Result<bool, Fault>
        ensures { IsAnswer (refusal None self.now) (code_of result) (asked self.now)
            (setting_of H.hash_of F.shape F.has_pending H.Digest.size chunk_size proof.now
            (H.Digest.text root.now)) };

    /// What is refused before comes first.
    ghost first: { (code : ℤ) (it : Self) → refusal (Some code) it ≡ Some code };
}

/// Returns the answer over what is agreed; the first refusal is that of the family, the digest function or the root.
pub fn ask<Q: Question>(
    alloc: Global,
    family: u32,
    hash: u32,
    chunk_size: usize,
    proof: &[u8],
    question: &Q,
    root: &[u8],
) -> Result<bool, Fault>
    ensures { IsAnswer (Q.refusal (agreed_refusal family hash root.now) question.now)
        (code_of result) (Q.asked question.now) (setting_of (function_of hash) (shape_of family)
        (has_pending_of family) (digest_size_of hash) chunk_size proof.now root.now) }
{
    match trusted(family, hash, root) {
        Ok(Root::Of256(root)) => {
            of_family::<Q, Sha256>(alloc, family, chunk_size, proof, question, &root)
        }
        Ok(Root::Of512(root)) => {
            of_family::<Q, Sha512>(alloc, family, chunk_size, proof, question, &root)
        }
        Err(fault) => Err(fault),
    }
}

/// Returns the same over a digest function, against a digest.
fn of_family<Q: Question, H: Hasher>(
    alloc: Global,
    family: u32,
    chunk_size: usize,
    proof: &[u8],
    question: &Q,
    root: &H::Digest,
) -> Result<bool, Fault>
    ensures { IsAnswer (Q.refusal None question.now) (code_of result) (Q.asked question.now)
        (setting_of H.hash_of (shape_of family) (has_pending_of family) H.Digest.size chunk_size
        proof.now (H.Digest.text root.now)) }
{
    if family == MMR {
        question.answer::<mmr::Family, H>(alloc, chunk_size, proof, root)
    } else {
        question.answer::<mmb::Family, H>(alloc, chunk_size, proof, root)
    }
}
