//! Single bytes, and zero bytes that fill up an encoding.

ghost use Rattle.std.specs.Prelude.{◌≡◌, ◌≢◌, ℕ, List, ◌++◌, replicate, Err, OnOk, OnErr};
ghost use Rattle.storage_codec.specs.Codec.{Answers, byte_at};
ghost use Rattle.storage_codec.specs.Parts.{AppendsStart, IsEnding};
ghost use Rattle.storage_codec.specs.Padding.{zeros_at};

use crate::NoMemory;
use crate::codec::{Buf, Error};

/// Appends `n` zero bytes to `out`. `NoMemory` comes only if `out` was refused a growth; then it holds its old bytes
/// and fewer zeros.
#[tactic(auto, using(crate::proofs::Zeros::zeros_start, crate::proofs::Zeros::zeros_push))]
pub fn put_zeros(out: &mut Vec<u8>, n: usize) -> Result<(), NoMemory>
    ensures ok { OnOk result (out.new.items ≡ out.old.items ++ replicate n 0) }
    ensures err { OnErr result (AppendsStart out.old.items out.new.items (replicate n 0)) }
{
    for _ in 0..n {
        out.push(0)?;
    }
    Ok(())
}

/// Reads one byte from the front of `buf`. Refuses `EndOfBuffer` if there is none. Allocates nothing.
pub fn byte<B: Buf>(buf: &mut B) -> Result<u8, Error>
    ensures gives { Answers (λ b. b) result (B.unread buf.new) (byte_at (B.unread buf.old)) }
    ensures ends { IsEnding (B.unread buf.old) (B.unread buf.new) }
    ensures no_memory { result ≢ Err Error.Memory }
{
    let mut byte = [0u8; 1];
    buf.read_into(&mut byte)?;
    Ok(byte[0])
}

/// Reads `n` zero bytes from the front of `buf`, as an operation of fixed size is filled up with. Refuses the first
/// other byte as nonzero padding of such an operation, and `EndOfBuffer` if the bytes end first. Allocates nothing.
#[tactic(auto, using(crate::proofs::Zeros::zeros_step, crate::proofs::Zeros::zeros_done, crate::specs::Laws::Parts::ends_same, crate::specs::Laws::Parts::ends_then))]
pub fn ensure_zeros<B: Buf>(buf: &mut B, n: usize) -> Result<(), Error>
    ensures gives { Answers (λ _. tt) result (B.unread buf.new) (zeros_at n (B.unread buf.old)) }
    ensures ends { IsEnding (B.unread buf.old) (B.unread buf.new) }
    ensures no_memory { result ≢ Err Error.Memory }
{
    for _ in 0..n {
        let byte = byte(buf)?;
        if byte != 0 {
            return Err(Error::Invalid("fixed operation", "nonzero padding"));
        }
    }
    Ok(())
}
