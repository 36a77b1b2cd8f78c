//! What is asked for.

ghost use Rattle.std.specs.Prelude.{◌≡◌, ◌≢◌, ℕ, ◌<◌, ◌≤◌, ◌^◌, Err};
ghost use Rattle.storage_codec.specs.Codec.{Gives};
ghost use Rattle.storage_codec.specs.Parts.{IsEnding};
ghost use Rattle.storage_sync.specs.Messages.{Request as RequestOf, request_text, request_at, IsAdmittedRequest, request_of};
ghost use Rattle.storage_sync.specs.Laws.Requests.{request_again, request_back};

use std::alloc::Global;
use storage_codec::NoMemory;
use storage_codec::codec::{Buf, Canonical, Codec, EncodeSize, Error, Read, UInt, Write, sum};
use storage_merkle::merkle::Location;

/// What is asked for: the operations of a snapshot from a location on. It is written as two varints.
#[derive(Drop)]
#[derive_where(Clone, Copy, Debug, PartialEq, Eq)]
pub struct Request<F> {
    /// The location of the first operation.
    pub start_loc: Location<F>,
    /// How many operations are wanted at most, at least 1. Fewer come where the snapshot ends.
    pub max_ops: u64,
}

impl<F> Write for Request<F> {
    ghost text = { λ r. request_text (request_of r) };

    #[tactic(auto, using(storage_codec::specs::Laws::Parts::starts_then, storage_codec::specs::Laws::Parts::starts_first))]
    fn write(&self, out: &mut Vec<u8>) -> Result<(), NoMemory> {
        self.start_loc.write(out)?;
        UInt(self.max_ops).write(out)?;
        Ok(())
    }
}

impl<F> EncodeSize for Request<F> {
    fn encode_size(&self) -> Option<u64> {
        sum(
            self.start_loc.encode_size(),
            UInt(self.max_ops).encode_size(),
        )
    }
}

/// Refuses what is no location, then what is no varint, then `InvalidLength` if the number of operations is 0 or more
/// than the configuration admits. Allocates nothing.
impl<F> Read for Request<F> {
    /// The most operations that may be asked for.
    type Cfg = u64;

    ghost View = { RequestOf };

    ghost view = { λ r. request_of r };

    ghost admits = { λ most r. IsAdmittedRequest most (request_of r) };

    ghost parse = { λ most. request_at most };

    #[tactic(auto, using(storage_codec::specs::Laws::Parts::ends_then))]
    fn read_cfg<B: Buf>(alloc: Global, buf: &mut B, most: &u64) -> Result<Self, Error>
        ensures gives { Gives (λ r. request_of r) result (B.unread buf.new)
            (request_at most.now (B.unread buf.old)) }
        ensures ends { IsEnding (B.unread buf.old) (B.unread buf.new) }
        ensures no_memory { result ≢ Err Error.Memory }
    {
        let start_loc = match Location::read_cfg(alloc, buf, &()) {
            Ok(start_loc) => start_loc,
            Err(error) => return Err(error),
        };
        let UInt(max_ops) = UInt::read_cfg(alloc, buf, &())?;
        if max_ops == 0 || max_ops > *most {
            return Err(Error::InvalidLength(max_ops));
        }
        Ok(Request { start_loc, max_ops })
    }
}

impl<F> Codec for Request<F> {
    ghost again = { λ most r rest ok. request_again most (request_of r) rest ok };
}

impl<F> Canonical for Request<F> {
    ghost back = { λ most bytes r rest fits e. request_back most bytes (request_of r) rest fits e };
}
