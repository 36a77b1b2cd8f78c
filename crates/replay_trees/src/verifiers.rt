//! The list on the hasher of checks over a grafted view.

use replay_columns::answers::Answer;
use replay_columns::columns::{Fault, Hex, List, lent, parse};
use std::alloc::Global;
use storage_codec::digest;
use storage_current::qmdb::current::grafting::Verifier;
use storage_merkle::merkle::hasher::Hasher;
use storage_merkle::merkle::{Graftable, MAX_LEAVES, Position};

/// `height start chunks graftable position left right`: the digest that the hasher gives the node with these children, and a copy
/// of it too: for the chunks from number `start` on, over nodes of that height, of which the first `graftable` are graftable.
pub fn verifiers<F: Graftable, H: digest::Hasher>(
    alloc: Global,
    columns: &[&str],
    out: &mut String,
) -> Result<(), Fault> {
    let case: (
        (u64, u64, List<Vec<u8>>),
        (u64, Position<F>, Hex<H::Digest>, Hex<H::Digest>),
    ) = parse(alloc, columns)?;
    let ((height, start, chunks), (graftable, position, Hex(left), Hex(right))) = &case;
    let Ok(height) = u32::try_from(*height) else {
        return Err(Fault::Malformed);
    };
    let over = (height, *start, *graftable);
    let digest = digest_of::<F, H>(alloc, over, &chunks.0, *position, (left, right))?;
    Hex(digest).tell(out)
}

/// Returns the digest of a node from those of its children, which a copy of the hasher gives too: over nodes of a height, for
/// chunks from a number on, of which the first so many are graftable.
fn digest_of<F: Graftable, H: digest::Hasher>(
    alloc: Global,
    over: (u32, u64, u64),
    chunks: &[Vec<u8>],
    position: Position<F>,
    children: (&H::Digest, &H::Digest),
) -> Result<H::Digest, Fault> {
    if position.as_u64() > F::nodes_over(MAX_LEAVES) {
        return Err(Fault::Malformed);
    }
    let (height, start, graftable) = over;
    let verifier = Verifier::<F, H>::new(height, start, lent(alloc, chunks)?, graftable);
    let copy = verifier.clone()?;
    let digest = verifier.node_digest(position, children.0, children.1);
    if copy.node_digest(position, children.0, children.1) != digest {
        return Err(Fault::Differs);
    }
    Ok(digest)
}
