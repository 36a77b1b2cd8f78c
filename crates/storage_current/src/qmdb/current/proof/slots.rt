//! The digests that a proof has of the pending and the partial chunk.

ghost use Rattle.std.specs.Prelude.{◌≡◌, ◌↔◌, ℕ, ◌+◌, ◌-◌, ◌≤◌, length, map, option_map, IsTrue, not, eqb, ltb};
ghost use Rattle.storage_current.specs.Windows.{IsMatched};

use crate::qmdb::current::proof::window::Window;
use crate::qmdb::current::proof::{Chunk, RangeProof};
use storage_codec::digest::Hasher;
use storage_merkle::merkle::Graftable;

/// Returns whether `proof` has a digest of the pending and of the partial chunk exactly if the snapshot has one, and
/// each of these that is among `chunks`, those that the claim touches, has that digest.
pub(crate) fn match_chunks<H: Hasher, C: Chunk, F: Graftable>(
    proof: &RangeProof<F, H::Digest>,
    window: &Window,
    chunks: &[C],
) -> bool
    requires { length chunks.now ≡ window.now.last_chunk - window.now.first_chunk + 1 }
    ensures { IsTrue result
        ↔ (IsMatched H.hash_of (option_map H.Digest.text proof.now.partial_chunk_digest)
        (not (eqb window.now.counts.next_bit 0)) window.now.first_chunk window.now.last_chunk
        window.now.counts.complete (map C.text chunks.now)
        × IsMatched H.hash_of (option_map H.Digest.text proof.now.pending_chunk_digest)
        (ltb window.now.counts.graftable window.now.counts.complete) window.now.first_chunk
        window.now.last_chunk window.now.counts.graftable (map C.text chunks.now)) }
{
    let counts = &window.counts;
    matches::<H, C>(
        &proof.partial_chunk_digest,
        counts.has_partial(),
        counts.complete,
        window,
        chunks,
    ) && matches::<H, C>(
        &proof.pending_chunk_digest,
        counts.has_pending(),
        counts.graftable,
        window,
        chunks,
    )
}

/// Returns whether `slot` has a digest exactly if `is_there`, and the claimed chunk number `index`, if it is among
/// `chunks`, has that digest.
fn matches<H: Hasher, C: Chunk>(
    slot: &Option<H::Digest>,
    is_there: bool,
    index: u64,
    window: &Window,
    chunks: &[C],
) -> bool
    requires { length chunks.now ≡ window.now.last_chunk - window.now.first_chunk + 1 }
    ensures { IsTrue result ↔ IsMatched H.hash_of (option_map H.Digest.text slot.now) is_there
        window.now.first_chunk window.now.last_chunk index (map C.text chunks.now) }
{
    match slot {
        None => !is_there,
        Some(digest) if is_there => match window.place(index) {
            None => true,
            Some(place) => hash_of::<H>(chunks[place].bytes()) == *digest,
        },
        Some(_) => false,
    }
}

/// Returns the digest of `bytes`.
fn hash_of<H: Hasher>(bytes: &[u8]) -> H::Digest
    ensures { H.Digest.text result ≡ H.hash_of bytes.now }
{
    H::hash(&[bytes])
}
