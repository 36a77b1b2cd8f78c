//! Which proofs, specifications of proofs and witnesses are equal.

ghost use Rattle.std.specs.Prelude.{◌==◌, ◌&&◌, ℕ, List};
ghost use Rattle.std.specs.Option.{option_eq};
ghost use Rattle.storage_merkle.specs.Equality.{AnswersAs, EqualAsSeen, EqualToItself};
ghost use Rattle.storage_current.specs.Equality.{exclusion_eq};
ghost use Rattle.storage_current.specs.Held.{range_proof_of, operation_proof_of};
ghost use Rattle.storage_current.specs.HeldKeys.{exclusion_of, exclusion_seen};
ghost use Rattle.storage_current.specs.Snapshots.{OperationProof};
ghost use Rattle.storage_current.specs.WitnessWire.{witness_of};

use crate::qmdb::current::ordered::{ExclusionProof, KeyValueProof};
use crate::qmdb::current::proof::{Chunk, OpsRootWitness, RangeProof, RangeProofSpec, operation};
use bytes::Bytes;
use storage_codec::digest::Digest;
use storage_merkle::laws::equality::equal_proofs;
use storage_merkle::merkle::Proof;
use storage_ops::laws::equal_ordered_updates;
use storage_ops::qmdb::any::operation::update::Ordered;
use storage_ops::qmdb::any::value::ValueEncoding;
use storage_ops::qmdb::operation::Key;

/// Range proofs are equal exactly where their parts are, so exactly where they are the same proof by the bytes of the digests.
pub fn equal_range_proofs<F, D: Digest>()
    ensures parts { AnswersAs ⟦<RangeProof<F, D> as PartialEq>⟧.eq (λ x y.
        ⟦<Proof<F, D> as PartialEq>⟧.eq x.proof y.proof
        && option_eq D.PartialEq.eq x.pending_chunk_digest y.pending_chunk_digest
        && option_eq D.PartialEq.eq x.partial_chunk_digest y.partial_chunk_digest
        && D.PartialEq.eq x.ops_root y.ops_root) }
    ensures seen { EqualAsSeen ⟦<RangeProof<F, D> as PartialEq>⟧.eq (range_proof_of D.text) }
{
    equal_proofs::<F, D>();
}

/// Specifications of range proofs are equal exactly where their parts are; where each digest is equal to itself alone, so is
/// each specification.
pub fn equal_range_proof_specs<F, D: Digest>()
    ensures parts { AnswersAs ⟦<RangeProofSpec<F, D> as PartialEq>⟧.eq (λ x y.
        x.start_loc == y.start_loc && x.max_ops == y.max_ops
        && x.inactivity_floor == y.inactivity_floor
        && D.PartialEq.eq x.ops_root y.ops_root) }
    ensures seen { EqualAsSeen {X = ℕ × ℕ × ℕ × List ℕ}
        ⟦<RangeProofSpec<F, D> as PartialEq>⟧.eq
        (λ x. (x.start_loc, x.max_ops, x.inactivity_floor, D.text x.ops_root)) }
    ensures exact { EqualToItself D.PartialEq.eq
        → EqualToItself ⟦<RangeProofSpec<F, D> as PartialEq>⟧.eq }
{}

/// Operation proofs are equal exactly where their parts are. Where equal chunks are those of the same bytes, they are equal
/// exactly where they are the same proof by the bytes of the digests and of the chunk.
pub fn equal_operation_proofs<F, D: Digest, C: Chunk + PartialEq>()
    ensures parts { AnswersAs ⟦<operation::Proof<F, D, C> as PartialEq>⟧.eq (λ x y.
        x.loc == y.loc && C.PartialEq.eq x.chunk y.chunk
        && ⟦<RangeProof<F, D> as PartialEq>⟧.eq x.range_proof y.range_proof) }
    ensures seen { EqualAsSeen C.PartialEq.eq C.text
        → EqualAsSeen ⟦<operation::Proof<F, D, C> as PartialEq>⟧.eq
        (operation_proof_of D.text C.text) }
{
    equal_range_proofs::<F, D>();
}

/// Witnesses are equal exactly where their parts are, so exactly where they are the same witness by the bytes of the digests;
/// where each digest is equal to itself alone, so is each witness.
pub fn equal_witnesses<F, D: Digest>()
    ensures parts { AnswersAs ⟦<OpsRootWitness<F, D> as PartialEq>⟧.eq (λ x y.
        D.PartialEq.eq x.grafted_root y.grafted_root
        && option_eq D.PartialEq.eq x.pending_chunk_digest y.pending_chunk_digest
        && option_eq (λ p q. p.0 == q.0 && D.PartialEq.eq p.1 q.1) x.partial_chunk y.partial_chunk) }
    ensures seen { EqualAsSeen ⟦<OpsRootWitness<F, D> as PartialEq>⟧.eq (witness_of D.text) }
    ensures exact { EqualToItself D.PartialEq.eq
        → EqualToItself ⟦<OpsRootWitness<F, D> as PartialEq>⟧.eq }
{}

/// Proofs of a key's value are equal exactly where their parts are. Where equal chunks are those of the same bytes, and equal
/// keys those that are seen alike, so are equal proofs.
pub fn equal_key_value_proofs<F, K: Key, D: Digest, C: Chunk + PartialEq>()
    ensures parts { AnswersAs ⟦<KeyValueProof<F, K, D, C> as PartialEq>⟧.eq (λ x y.
        ⟦<operation::Proof<F, D, C> as PartialEq>⟧.eq x.proof y.proof
        && K.PartialEq.eq x.next_key y.next_key) }
    ensures seen { EqualAsSeen C.PartialEq.eq C.text
        → EqualAsSeen K.PartialEq.eq K.view
        → EqualAsSeen {X = OperationProof × K.View} ⟦<KeyValueProof<F, K, D, C> as PartialEq>⟧.eq
        (λ x. (operation_proof_of D.text C.text x.proof, K.view x.next_key)) }
{
    equal_operation_proofs::<F, D, C>();
}

/// Exclusion proofs are equal exactly where they are of one case and their parts are equal. Where equal chunks are those of
/// the same bytes, and equal keys and equal values those that are seen alike, so are equal proofs.
pub fn equal_exclusion_proofs<F, K: Key, V: ValueEncoding, D: Digest, C: Chunk + PartialEq>()
where
    V::Value: PartialEq,
    ensures parts { AnswersAs ⟦<ExclusionProof<F, K, V, D, C> as PartialEq>⟧.eq (exclusion_eq
        ⟦<operation::Proof<F, D, C> as PartialEq>⟧.eq ⟦<Ordered<K, V> as PartialEq>⟧.eq
        V.Value.PartialEq.eq) }
    ensures seen { EqualAsSeen C.PartialEq.eq C.text
        → EqualAsSeen K.PartialEq.eq K.view
        → EqualAsSeen V.Value.PartialEq.eq V.Value.view
        → EqualAsSeen ⟦<ExclusionProof<F, K, V, D, C> as PartialEq>⟧.eq
        (λ x. exclusion_seen K.view V.Value.view (exclusion_of D.text C.text x)) }
{
    equal_operation_proofs::<F, D, C>();
    equal_ordered_updates::<K, V>();
}

/// Arrays, slices and shared bytes are equal exactly where their bytes are.
pub fn equal_chunks<const N: usize>()
    ensures arrays { EqualAsSeen ⟦<[u8; N] as PartialEq>⟧.eq ⟦<[u8; N] as Chunk>⟧.text }
    ensures slices { EqualAsSeen ⟦<&'static [u8] as PartialEq>⟧.eq ⟦<&'static [u8] as Chunk>⟧.text }
    ensures shared { EqualAsSeen ⟦<Bytes as PartialEq>⟧.eq ⟦<Bytes as Chunk>⟧.text }
{}
