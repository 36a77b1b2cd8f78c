//! Proofs over a chunk that is an array and over one that is shared bytes agree: where their fields are the same they are
//! written as the same bytes, what is read as one is read as the other, and any exact checks of them answer alike.

ghost use Rattle.std.specs.Prelude.{◌≡◌, ℕ, List, length};
ghost use Rattle.storage_bitmap.specs.Chunks.{IsChunkSize};
ghost use Rattle.storage_current.specs.CurrentProofs.{IsActiveCurrent};
ghost use Rattle.storage_current.specs.Held.{operation_proof_of};
ghost use Rattle.storage_current.specs.HeldKeys.{exclusion_of};
ghost use Rattle.storage_current.specs.KeyProofs.{Exclusion, IsExcluded, proof_in};
ghost use Rattle.storage_current.specs.Keys.{Keyed, keyed_by, update_text};
ghost use Rattle.storage_current.specs.SharedChunks.{AgreeWhereSeenAlike, ReadAlike};
ghost use Rattle.storage_current.specs.Snapshots.{OperationProof, grafting_of};

use crate::qmdb::current::ordered::{ExclusionProof, KeyValueProof, UpdateCodec};
use crate::qmdb::current::proof::Chunk;
use crate::qmdb::current::proof::operation::Proof;
use bytes::Bytes;
use storage_codec::codec::{Read, Write};
use storage_codec::digest::Hasher;
use storage_merkle::merkle::Graftable;
use storage_ops::qmdb::any::operation::OperationCodec;
use storage_ops::qmdb::any::operation::update::Ordered;
use storage_ops::qmdb::operation::Key;

/// Operation proofs agree: a claim is an operation and a root, and the checks are `verify` and `verify_encoded`.
pub fn operation_proofs_agree<F: Graftable, H: Hasher, const N: usize>()
    ensures agree { AgreeWhereSeenAlike {Claim = List ℕ × List ℕ}
        ⟦<Proof<F, H::Digest, [u8; N]> as Write>⟧.text ⟦<Proof<F, H::Digest, Bytes> as Write>⟧.text
        (operation_proof_of H.Digest.text ⟦<[u8; N] as Chunk>⟧.text)
        (operation_proof_of H.Digest.text ⟦<Bytes as Chunk>⟧.text)
        (λ claim p. IsActiveCurrent H.hash_of (grafting_of F.shape (length p.chunk)) p claim.0
        claim.1) }
    ensures read { (most : ℕ) → IsChunkSize N
        → ReadAlike (⟦<Proof<F, H::Digest, [u8; N]> as Read>⟧.parse most)
        (⟦<Proof<F, H::Digest, Bytes> as Read>⟧.parse (N, most)) }
{}

/// Key-value proofs agree: a claim is a key, a value and a root, and the check is `verify`.
pub fn key_value_proofs_agree<
    F: Graftable,
    H: Hasher,
    K: Key,
    V: OperationCodec<F, Ordered<K, V>>,
    const N: usize,
>()
    ensures agree { let e = keyed_by K.text V.Value.text V.operation_text K.cmp in
        AgreeWhereSeenAlike {X = OperationProof × K} {Claim = K × V.Value × List ℕ}
        ⟦<KeyValueProof<F, K, H::Digest, [u8; N]> as Write>⟧.text
        ⟦<KeyValueProof<F, K, H::Digest, Bytes> as Write>⟧.text
        (λ x. (operation_proof_of H.Digest.text ⟦<[u8; N] as Chunk>⟧.text x.proof, x.next_key))
        (λ x. (operation_proof_of H.Digest.text ⟦<Bytes as Chunk>⟧.text x.proof, x.next_key))
        (λ claim x. IsActiveCurrent H.hash_of (grafting_of F.shape (length x.0.chunk)) x.0
        (update_text e claim.0 claim.1 x.1) claim.2) }
    ensures read { (most : ℕ) (cfg : K.Cfg) → IsChunkSize N
        → ReadAlike (⟦<KeyValueProof<F, K, H::Digest, [u8; N]> as Read>⟧.parse (most, cfg))
        (⟦<KeyValueProof<F, K, H::Digest, Bytes> as Read>⟧.parse ((N, most), cfg)) }
{}

/// Exclusion proofs agree: a claim is a key and a root, and the check is `verify`.
pub fn exclusion_proofs_agree<
    F: Graftable,
    H: Hasher,
    K: Key,
    V: OperationCodec<F, Ordered<K, V>> + UpdateCodec<K>,
    const N: usize,
>()
    ensures agree { let e = keyed_by K.text V.Value.text V.operation_text K.cmp in
        AgreeWhereSeenAlike {X = Exclusion (K × V.Value × K) V.Value} {Claim = K × List ℕ}
        ⟦<ExclusionProof<F, K, V, H::Digest, [u8; N]> as Write>⟧.text
        ⟦<ExclusionProof<F, K, V, H::Digest, Bytes> as Write>⟧.text
        (exclusion_of H.Digest.text ⟦<[u8; N] as Chunk>⟧.text)
        (exclusion_of H.Digest.text ⟦<Bytes as Chunk>⟧.text)
        (λ claim x. IsExcluded e H.hash_of (grafting_of F.shape (length (proof_in x).chunk)) x
        claim.0 claim.1) }
    ensures read { (most : ℕ) (update : V.UpdateCfg) (value : V.Value.Cfg) → IsChunkSize N
        → ReadAlike (⟦<ExclusionProof<F, K, V, H::Digest, [u8; N]> as Read>⟧.parse
        (most, update, value))
        (⟦<ExclusionProof<F, K, V, H::Digest, Bytes> as Read>⟧.parse ((N, most), update, value)) }
{}
