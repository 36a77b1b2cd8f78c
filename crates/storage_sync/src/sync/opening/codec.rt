//! Openings as bytes.

ghost use Rattle.std.specs.Prelude.{refl};
ghost use Rattle.storage_sync.specs.Held.{opening_of};
ghost use Rattle.storage_sync.specs.Laws.Openings.{openings_again, openings_back};
ghost use Rattle.storage_sync.specs.Openings.{Opening as OpeningOf, IsAdmittedOpening, opening_at, opening_text};

use crate::sync::lists::{read_strings, strings_size, write_strings};
use crate::sync::pins::{pins_size, read_pins, write_pins};
use crate::sync::{Limits, Opening};
use std::alloc::Global;
use storage_codec::NoMemory;
use storage_codec::codec::{Buf, Canonical, Codec, EncodeSize, Error, Read, Write, sum};
use storage_codec::digest::Digest;
use storage_current::qmdb::current::proof::OpsRootWitness;
use storage_merkle::merkle::{Graftable, Location, Proof};

impl<F: Graftable, D: Digest> Write for Opening<F, D> {
    ghost text = { λ o. opening_text F.has_pending (opening_of D.text o) };

    #[tactic(auto, using(storage_codec::specs::Laws::Parts::starts_then, storage_codec::specs::Laws::Parts::starts_first))]
    fn write(&self, out: &mut Vec<u8>) -> Result<(), NoMemory> {
        self.begin.write(out)?;
        self.witness.write(out)?;
        out.extend_from_slice(self.ops_root.bytes())?;
        self.proof.write(out)?;
        write_strings(&self.operations, out)?;
        write_pins(&self.pins, out)?;
        write_pins(&self.over_chunks, out)?;
        Ok(())
    }
}

impl<F: Graftable, D: Digest> EncodeSize for Opening<F, D> {
    fn encode_size(&self) -> Option<u64> {
        let pins = sum(pins_size(&self.pins), pins_size(&self.over_chunks));
        let lists = sum(strings_size(&self.operations), pins);
        let proved = sum(Some(D::size() as u64), sum(self.proof.encode_size(), lists));
        sum(
            self.begin.encode_size(),
            sum(self.witness.encode_size(), proved),
        )
    }
}

/// Refuses as its parts do, in their order; `InvalidLength` where a list or an operation is longer than the limits admit. What it takes
/// of memory is bounded by the bytes that it is given, not by the numbers in them.
impl<F: Graftable, D: Digest> Read for Opening<F, D> {
    /// What is admitted.
    type Cfg = Limits;

    ghost View = { OpeningOf };

    ghost view = { λ o. opening_of D.text o };

    ghost admits = { λ limits o. IsAdmittedOpening F.has_pending D.size limits (opening_of D.text o) };

    ghost parse = { λ limits. opening_at F.has_pending D.size limits };

    #[tactic(auto, using(storage_codec::specs::Laws::Parts::ends_then))]
    fn read_cfg<B: Buf>(alloc: Global, buf: &mut B, limits: &Limits) -> Result<Self, Error> {
        let limits = *limits;
        let most = limits.max_digests as u64;
        let begin = match Location::read_cfg(alloc, buf, &()) {
            Ok(begin) => begin,
            Err(error) => return Err(error),
        };
        let witness = match OpsRootWitness::<F, D>::read_cfg(alloc, buf, &()) {
            Ok(witness) => witness,
            Err(error) => return Err(error),
        };
        let ops_root = match D::read(alloc, buf) {
            Ok(root) => root,
            Err(error) => return Err(error),
        };
        let proof = match Proof::<F, D>::read_cfg(alloc, buf, &limits.max_digests) {
            Ok(proof) => proof,
            Err(error) => return Err(error),
        };
        let operations = match read_strings(alloc, buf, limits.max_ops, limits.max_operation_len) {
            Ok(operations) => operations,
            Err(error) => return Err(error),
        };
        let pins = match read_pins::<D, B>(alloc, buf, most) {
            Ok(pins) => pins,
            Err(error) => return Err(error),
        };
        match read_pins::<D, B>(alloc, buf, most) {
            Ok(over_chunks) => Ok(Opening {
                begin,
                witness,
                ops_root,
                proof,
                operations,
                pins,
                over_chunks,
            }),
            Err(error) => Err(error),
        }
    }
}

impl<F: Graftable, D: Digest> Codec for Opening<F, D> {
    ghost again = { λ limits o rest ok.
        openings_again D.text F.has_pending D.size D.sized limits (opening_of D.text o) o.witness refl ok rest };
}

impl<F: Graftable, D: Digest> Canonical for Opening<F, D> {
    ghost back = { λ limits bytes o rest fits e.
        openings_back F.has_pending D.size limits bytes (opening_of D.text o) rest fits e };
}
