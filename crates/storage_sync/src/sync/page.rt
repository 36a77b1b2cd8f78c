//! A part of a snapshot, with its proof.

ghost use Rattle.std.specs.Prelude.{◌≡◌};

mod codec;

use bytes::Bytes;
use storage_current::qmdb::current::proof::RangeProof;

/// Operations of a snapshot from some location on, the chunks that they touch, and the proof of both. It is written as the range proof,
/// the number of the operations and each with its length, the number of the chunks and their bytes.
#[derive(Drop)]
pub struct Page<F, D> {
    /// The proof that the operations stand in the snapshot, and that the chunks have their bits.
    pub proof: RangeProof<F, D>,
    /// The operations, as they are written.
    pub operations: Vec<Vec<u8>>,
    /// The chunks of activity bits that the operations touch.
    pub chunks: Vec<Bytes>,
}

impl<F, D: Copy> Page<F, D> {
    /// Returns the operations root that the proof has. Allocates nothing.
    pub(crate) fn ops_root(&self) -> D
        ensures { result ≡ self.now.proof.ops_root }
    {
        self.proof.ops_root
    }
}
