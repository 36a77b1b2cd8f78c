//! Strings that a root is the digest of, part by part.

ghost use Rattle.std.specs.Prelude.{◌≡◌, ◌++◌, option_map, IfOk, OnOk};
ghost use Rattle.storage_bitmap.specs.BitRoots.{partial_string};
ghost use Rattle.storage_current.specs.Snapshots.{canonical_string, counted_slot, slot};
ghost use Rattle.storage_merkle.specs.Calc.{be8};

use std::alloc::{AllocError, Global};
use storage_codec::digest::{Digest, Hasher};

/// Returns the digest of the bytes `string`.
pub(crate) fn string_digest<H: Hasher>(string: &[u8]) -> H::Digest
    ensures { H.Digest.text result ≡ H.hash_of string.now }
{
    H::hash(&[string])
}

/// Appends to `string` the number `count` in eight bytes, highest first, and `digest`.
#[tactic(auto, unfolding(storage_merkle::specs::Calc::be8))]
fn push_counted<D: Digest>(string: &mut Vec<u8>, count: u64, digest: &D) -> Result<(), AllocError>
    ensures { OnOk result
        (string.new.items ≡ string.old.items ++ (be8 count ++ D.text digest.now)) }
{
    string.extend_from_slice(&count.to_be_bytes())?;
    string.extend_from_slice(digest.bytes())?;
    Ok(())
}

/// Appends to `string` the slot of `digest`: the digest, if there is one.
fn push_slot<D: Digest>(string: &mut Vec<u8>, digest: &Option<D>) -> Result<(), AllocError>
    ensures { OnOk result
        (string.new.items ≡ string.old.items ++ slot (option_map D.text digest.now)) }
{
    if let Some(digest) = digest {
        string.extend_from_slice(digest.bytes())?;
    }
    Ok(())
}

/// Appends to `string` the slot of `digest` with `count` before it: both, if there is a digest.
fn push_counted_slot<D: Digest>(
    string: &mut Vec<u8>,
    count: u64,
    digest: &Option<D>,
) -> Result<(), AllocError>
    ensures { OnOk result
        (string.new.items ≡ string.old.items ++ counted_slot count (option_map D.text digest.now)) }
{
    if let Some(digest) = digest {
        push_counted(string, count, digest)?;
    }
    Ok(())
}

/// Returns the string of a canonical root: the digests `ops_root` and `grafted_root`, the slot of `pending`, and the
/// slot of `partial` with `next_bit`, how many bits the partial chunk has, before it. Fails only if memory runs out.
pub(crate) fn canonical_string<D: Digest>(
    alloc: Global,
    ops_root: &D,
    grafted_root: &D,
    pending: &Option<D>,
    next_bit: u64,
    partial: &Option<D>,
) -> Result<Vec<u8>, AllocError>
    ensures { IfOk result (λ string. string.items
        ≡ canonical_string (D.text ops_root.now) (D.text grafted_root.now)
        (option_map D.text pending.now) next_bit (option_map D.text partial.now)) }
{
    let mut string = Vec::new(alloc);
    string.extend_from_slice(ops_root.bytes())?;
    string.extend_from_slice(grafted_root.bytes())?;
    push_slot(&mut string, pending)?;
    push_counted_slot(&mut string, next_bit, partial)?;
    Ok(string)
}

/// Returns the string of the root of bits that do not fill their chunks: `root`, that of the tree over the complete
/// chunks, `length`, the number of bits, and `last`, the digest of the last chunk. Fails only if memory runs out.
pub(crate) fn partial_string<D: Digest>(
    alloc: Global,
    root: &D,
    length: u64,
    last: &D,
) -> Result<Vec<u8>, AllocError>
    ensures { IfOk result (λ string.
        string.items ≡ partial_string (D.text root.now) length (D.text last.now)) }
{
    let mut string = Vec::new(alloc);
    string.extend_from_slice(root.bytes())?;
    push_counted(&mut string, length, last)?;
    Ok(string)
}
