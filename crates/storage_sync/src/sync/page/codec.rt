//! Pages as bytes: the range proof, the list of the operations, the list of the chunks.

ghost use Rattle.std.specs.Prelude.{◌≡◌, map, length};
ghost use Rattle.storage_sync.specs.Held.{page_of};
ghost use Rattle.storage_sync.specs.Laws.Pages.{page_again, page_back, held_page};
ghost use Rattle.storage_sync.specs.Messages.{page_text, page_at, IsAdmittedPage};
ghost use Rattle.storage_sync.specs.Pages.{Page as PageOf};

use crate::sync::lists::{
    chunks_size, read_chunks, read_strings, strings_size, write_chunks, write_strings,
};
use crate::sync::{Limits, Page};
use std::alloc::Global;
use storage_codec::NoMemory;
use storage_codec::codec::{Buf, Canonical, Codec, EncodeSize, Error, Read, Write, sum};
use storage_codec::digest::Digest;
use storage_current::qmdb::current::proof::RangeProof;
use storage_merkle::merkle::Graftable;

impl<F: Graftable, D: Digest> Write for Page<F, D> {
    ghost text = { λ p. page_text F.has_pending (page_of D.text p) };

    #[tactic(auto, using(storage_codec::specs::Laws::Parts::starts_then, storage_codec::specs::Laws::Parts::starts_first))]
    fn write(&self, out: &mut Vec<u8>) -> Result<(), NoMemory> {
        self.proof.write(out)?;
        write_strings(&self.operations, out)?;
        write_chunks(&self.chunks, out)?;
        Ok(())
    }
}

impl<F: Graftable, D: Digest> EncodeSize for Page<F, D> {
    fn encode_size(&self) -> Option<u64> {
        let lists = sum(strings_size(&self.operations), chunks_size(&self.chunks));
        sum(self.proof.encode_size(), lists)
    }
}

/// Refuses as the range proof does; then as the list of the operations, `InvalidLength` if it or one of them is longer
/// than the limits admit; then as the list of the chunks, `InvalidLength` if these are more than the operations. What
/// it takes of memory is bounded by the bytes that it is given, not by the numbers in them.
impl<F: Graftable, D: Digest> Read for Page<F, D> {
    /// How many bytes a chunk has, and what is admitted.
    type Cfg = (usize, Limits);

    ghost View = { PageOf };

    ghost view = { λ p. page_of D.text p };

    ghost admits = { λ cfg p. IsAdmittedPage F.has_pending cfg.0 cfg.1 (page_of D.text p) };

    ghost parse = { λ cfg. page_at F.has_pending D.size cfg.0 cfg.1 };

    #[tactic(auto, using(storage_codec::specs::Laws::Parts::ends_then))]
    fn read_cfg<B: Buf>(alloc: Global, buf: &mut B, cfg: &(usize, Limits)) -> Result<Self, Error> {
        let (chunk_size, limits) = *cfg;
        let proof = match RangeProof::<F, D>::read_cfg(alloc, buf, &limits.max_digests) {
            Ok(proof) => proof,
            Err(error) => return Err(error),
        };
        let operations = match read_strings(alloc, buf, limits.max_ops, limits.max_operation_len) {
            Ok(operations) => operations,
            Err(error) => return Err(error),
        };
        match read_chunks(alloc, buf, chunk_size, operations.len() as u64) {
            Ok(chunks) => Ok(Page {
                proof,
                operations,
                chunks,
            }),
            Err(error) => Err(error),
        }
    }
}

impl<F: Graftable, D: Digest> Codec for Page<F, D> {
    ghost again = { λ cfg p rest ok. page_again F.has_pending D.size cfg.0 cfg.1 (page_of D.text p) rest
        (held_page D.text D.size D.sized p) ok };
}

impl<F: Graftable, D: Digest> Canonical for Page<F, D> {
    ghost back = { λ cfg bytes p rest fits e.
        page_back F.has_pending D.size cfg.0 cfg.1 bytes (page_of D.text p) rest fits e };
}
