//! Proofs about keys as bytes.

ghost use Rattle.std.specs.Prelude.{◌≡◌, ℕ, ◌++◌};
ghost use Rattle.storage_codec.specs.Codec.{Gives};
ghost use Rattle.storage_codec.specs.Parts.{IsEnding};
ghost use Rattle.storage_current.specs.KeyWire.{pair_at};

mod exclusion;
mod key_value;

use std::alloc::Global;
use storage_codec::codec::{Buf, Error, Read};

/// Reads from the front of `buf` a value of `A`, whose reader is told `first`, and then one of `B`, whose reader is
/// told `second`.
#[tactic(auto, using(storage_codec::specs::Laws::Parts::ends_then))]
pub(crate) fn read_pair<A: Read, B: Read, T: Buf>(
    alloc: Global,
    buf: &mut T,
    first: &A::Cfg,
    second: &B::Cfg,
) -> Result<(A, B), Error>
    ensures gives { Gives (λ x. (A.view x.0, B.view x.1)) result (T.unread buf.new)
        (pair_at (A.parse first.now) (B.parse second.now) (T.unread buf.old)) }
    ensures ends { IsEnding (T.unread buf.old) (T.unread buf.new) }
{
    let one = match A::read_cfg(alloc, buf, first) {
        Ok(one) => one,
        Err(error) => return Err(error),
    };
    match B::read_cfg(alloc, buf, second) {
        Ok(other) => Ok((one, other)),
        Err(error) => Err(error),
    }
}
