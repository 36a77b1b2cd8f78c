//! The question about an operation.

ghost use Rattle.std.specs.Prelude.{refl};
ghost use Rattle.light_questions.specs.KeyParts.{operation_of};

use crate::answer::{Fault, checked};
use crate::question::Question;
use commonware_storage::digest::Hasher;
use commonware_storage::light::check_operation;
use commonware_storage::merkle::{Graftable, Location};
use std::alloc::Global;

/// Whether an operation stands at a location, and is active.
#[derive(Drop)]
pub struct Operation<'a> {
    /// The location.
    pub location: u64,

    /// The operation's bytes.
    pub operation: &'a [u8],
}

impl Question for Operation<'_> {
    ghost refusal = { λ before _. before };

    ghost asked = { λ it. operation_of it.location it.operation.now };

    fn answer<F: Graftable, H: Hasher>(
        &self,
        alloc: Global,
        chunk_size: usize,
        proof: &[u8],
        root: &H::Digest,
    ) -> Result<bool, Fault> {
        let location = Location::new(self.location);
        checked(check_operation::<F, H>(alloc, proof, chunk_size, location, self.operation, root))
    }

    ghost first = { λ _ _. refl };
}
