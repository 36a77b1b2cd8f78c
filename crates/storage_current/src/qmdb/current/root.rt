//! The canonical root of a snapshot.
//!
//! ```text
//! h( operations root || grafted root [ || h(pending chunk) ] [ || number of bits in the partial chunk || h(partial chunk) ] )
//! ```
//!
//! A bracket stands only if there is such a chunk. Their lengths differ, so that no part can be taken for another one.

ghost use Rattle.std.specs.Prelude.{◌≡◌, ◌++◌, ◌∷◌, List, [], Option, option_map};
ghost use Rattle.storage_current.specs.Snapshots.{canonical_string};

use storage_codec::digest::{Digest, Hasher, bytes_or_nothing};

/// Returns the canonical root: the digest of the digests `ops_root`, `grafted_root`, `pending` if there is one, and if
/// there is a `partial`, of `next_bit`, how many bits the partial chunk has, in eight bytes, highest first, and that
/// digest. Allocates nothing.
#[tactic(auto, unfolding(storage_merkle::specs::Calc::be8))]
pub(crate) fn canonical_root<H: Hasher>(
    ops_root: &H::Digest,
    grafted_root: &H::Digest,
    pending: &Option<H::Digest>,
    next_bit: u64,
    partial: &Option<H::Digest>,
) -> H::Digest
    ensures { H.Digest.text result
        ≡ H.hash_of (canonical_string (H.Digest.text ops_root.now) (H.Digest.text grafted_root.now)
        (option_map H.Digest.text pending.now) next_bit (option_map H.Digest.text partial.now)) }
{
    let pending = bytes_or_nothing(pending);
    match partial {
        None => hash_parts::<H>(ops_root.bytes(), grafted_root.bytes(), pending, &[], &[]),
        Some(partial) => {
            let count = next_bit.to_be_bytes();
            hash_parts::<H>(
                ops_root.bytes(),
                grafted_root.bytes(),
                pending,
                &count,
                partial.bytes(),
            )
        }
    }
}

/// Returns the digest of the string of a canonical root: of `ops_root`, `grafted_root`, `pending`, `count` and
/// `partial`, joined; what is not there has no bytes.
fn hash_parts<H: Hasher>(
    ops_root: &[u8],
    grafted_root: &[u8],
    pending: &[u8],
    count: &[u8],
    partial: &[u8],
) -> H::Digest
    ensures { H.Digest.text result ≡ H.hash_of
        (ops_root.now ++ (grafted_root.now ++ (pending.now ++ (count.now ++ partial.now)))) }
{
    H::hash(&[ops_root, grafted_root, pending, count, partial])
}
