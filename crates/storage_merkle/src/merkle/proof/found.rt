//! The digests that a check comes upon.

ghost use Rattle.std.specs.Prelude.{◌≡◌, ◌+◌, ◌%◌, ◌^◌, ◌≤◌, ◌∷◌, [], IfOk};
ghost use Rattle.storage_merkle.specs.CheckParts.{Adds};
ghost use Rattle.storage_merkle.specs.Extracted.{by_bytes};
ghost use Rattle.storage_merkle.specs.Shape.{max_leaves};

use crate::merkle::plan::node_position;
use crate::merkle::{Family, Position};
use std::alloc::AllocError;
use storage_codec::digest::Digest;

/// The digests that a check has come upon, as (position, digest); none if they are not to be kept.
pub(crate) type Found<F, D> = Option<Vec<(Position<F>, D)>>;

/// Returns `digest`, which is added to `found` with the position of its node, that of height `height` over the leaf
/// `first`, where digests are to be kept.
pub(crate) fn keep<F: Family, D: Digest>(
    found: &mut Found<F, D>,
    first: u64,
    height: u32,
    digest: D,
) -> Result<D, AllocError>
    requires aligned { first % 2 ^ height ≡ 0 }
    requires small { height ≤ 62 }
    requires within { first + 2 ^ height ≤ max_leaves }
    ensures same { IfOk result (λ d. d ≡ digest) }
    ensures kept { IfOk result (λ _. Adds (λ v. by_bytes D.text v.items) found.old found.new
        ((F.shape.position first height, D.text digest) ∷ [])) }
{
    let Some(kept) = found else {
        return Ok(digest);
    };
    let position = node_position(first, height);
    kept.push((position, digest))?;
    Ok(digest)
}
