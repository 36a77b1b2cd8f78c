//! The chunks that a hasher grafts have one length. What a yes means asks it, of the chunks that the check hashes alone.

ghost use Rattle.std.specs.Prelude.{◌≡◌, ◌≢◌, ℕ, ◌+◌, ◌*◌, ◌^◌, Bool, List, length, map};
ghost use Rattle.std.specs.List.{All};
ghost use Rattle.storage_merkle.specs.declared.merkle.bagging.Bagging.TheVariants.{BackwardFold};
ghost use Rattle.storage_merkle.specs.Checks.{IsProved};
ghost use Rattle.storage_merkle.specs.Chunked.{AreChunks};
ghost use Rattle.storage_merkle.specs.Extracted.{AreHandedOut, tree_entries};
ghost use Rattle.storage_merkle.specs.Multi.{Claim, IsMultiOwn, IsMultiProved, locations, multi_strings, untouched};
ghost use Rattle.storage_merkle.specs.RangeProofs.{IsOwn, Proof, apart, check_strings};
ghost use Rattle.storage_merkle.specs.Stores.{IsMadeOf, IsStoreOf, Store};
ghost use Rattle.storage_merkle.specs.Trees.{content_of};
ghost use Rattle.storage_current.specs.HeldOfViews.{AreSupplied, HoldsOfViews};
ghost use Rattle.storage_current.specs.Snapshots.{graftable_at};

use crate::qmdb::current::grafting::{GraftedHasher, Verifier};
use storage_codec::digest;
use storage_merkle::merkle::hasher::{Hasher, Standard};
use storage_merkle::merkle::{Family, Graftable};

/// The ordinary hasher grafts no chunk: all that it grafts have whichever length.
pub fn ordinary_chunks_have_their_length<F: Family, H: digest::Hasher>(hasher: &Standard<H>)
    ensures { (size leaves : ℕ) (cut : ℕ → ℕ → Bool)
        → AreChunks size (⟦<Standard<H> as Hasher<F>>⟧.layout hasher.now) leaves cut
        (⟦<Standard<H> as Hasher<F>>⟧.chunk hasher.now) }
{}

/// Chunks of one length that are supplied over each leaf of a range, or over each of some locations, are all that the
/// verifier over them grafts in a check of these, whatever the number of leaves and of graftable chunks.
pub fn supplied_chunks_have_their_length<F: Graftable, H: digest::Hasher>(
    hasher: &Verifier<'_, F, H>,
)
    ensures range { (size leaves low high : ℕ)
        → AreSupplied size hasher.now.height hasher.now.start_chunk_index
        (map (λ c. c.now) hasher.now.chunks.items) low high
        → AreChunks size (⟦<Verifier<'static, F, H> as Hasher<F>>⟧.layout hasher.now) leaves (apart low high)
        (⟦<Verifier<'static, F, H> as Hasher<F>>⟧.chunk hasher.now) }
    ensures locations { (size leaves : ℕ) (claimed : List ℕ)
        → All (λ l. AreSupplied size hasher.now.height hasher.now.start_chunk_index
        (map (λ c. c.now) hasher.now.chunks.items) l (l + 1)) claimed
        → AreChunks size (⟦<Verifier<'static, F, H> as Hasher<F>>⟧.layout hasher.now) leaves
        (untouched claimed) (⟦<Verifier<'static, F, H> as Hasher<F>>⟧.chunk hasher.now) }
{}

/// Where the chunks that a hasher grafts have one length in trees of each number of leaves, so have those that it grafts in
/// trees over chunks.
pub fn chunks_over_chunks_have_their_length<F: Graftable, H: Hasher<F>>(
    hasher: &GraftedHasher<F, H>,
)
    ensures { (size : ℕ) (cut : ℕ → ℕ → Bool)
        → ((n : ℕ) → AreChunks size (H.layout hasher.now.inner) n cut (H.chunk hasher.now.inner))
        → (leaves : ℕ)
        → AreChunks size (⟦<GraftedHasher<F, H> as Hasher<F>>⟧.layout hasher.now) leaves
        (λ a k. cut (a * 2 ^ hasher.now.height) (k + hasher.now.height))
        (⟦<GraftedHasher<F, H> as Hasher<F>>⟧.chunk hasher.now) }
{}

/// What a yes means under a verifier whose chunks have one length and are supplied over all that is claimed, and which grafts
/// all graftable chunks: of each grafted view with that root, that the proof is its own and what is claimed stands there
/// (`ranges`, `locations`), that the digests which are handed out are its own (`digests`) and that the store is one of it
/// (`stores`), or two different strings have one digest, one hashed by the check and one by the view.
pub fn checks_with_supplied_chunks_hold_of_views<F: Graftable, H: digest::Hasher>(
    hasher: &Verifier<'_, F, H>,
)
    ensures ranges { (size start : ℕ) (proof : Proof) (elements : List (List ℕ))
        → (root : List ℕ) → size ≢ 8 + H.Digest.size
        → hasher.now.graftable_chunks ≡ graftable_at F.shape hasher.now.height proof.leaves
        → AreSupplied size hasher.now.height hasher.now.start_chunk_index
        (map (λ c. c.now) hasher.now.chunks.items) start (start + length elements)
        → let T = ⟦<Verifier<'static, F, H> as Hasher<F>>⟧.layout hasher.now in
        let claim = content_of elements (⟦<Verifier<'static, F, H> as Hasher<F>>⟧.chunk hasher.now) in
        IsProved H.Digest.size H.hash_of T BackwardFold proof start claim root
        → HoldsOfViews size H.hash_of F.shape hasher.now.height
        (check_strings H.hash_of T BackwardFold proof start claim) root
        (λ U content inactive. IsOwn H.hash_of U BackwardFold proof start claim content inactive) }
    ensures digests { (size start : ℕ) (proof : Proof) (elements : List (List ℕ))
        → (root : List ℕ) → size ≢ 8 + H.Digest.size
        → hasher.now.graftable_chunks ≡ graftable_at F.shape hasher.now.height proof.leaves
        → AreSupplied size hasher.now.height hasher.now.start_chunk_index
        (map (λ c. c.now) hasher.now.chunks.items) start (start + length elements)
        → (handed : List (ℕ × List ℕ))
        → let T = ⟦<Verifier<'static, F, H> as Hasher<F>>⟧.layout hasher.now in
        let claim = content_of elements (⟦<Verifier<'static, F, H> as Hasher<F>>⟧.chunk hasher.now) in
        AreHandedOut H.Digest.size H.hash_of T BackwardFold proof start claim root handed
        → HoldsOfViews size H.hash_of F.shape hasher.now.height
        (check_strings H.hash_of T BackwardFold proof start claim) root
        (λ U content inactive. handed
        ≡ tree_entries H.hash_of U content start (start + length elements)) }
    ensures stores { (size start : ℕ) (proof : Proof) (elements : List (List ℕ))
        → (root : List ℕ) → size ≢ 8 + H.Digest.size
        → hasher.now.graftable_chunks ≡ graftable_at F.shape hasher.now.height proof.leaves
        → AreSupplied size hasher.now.height hasher.now.start_chunk_index
        (map (λ c. c.now) hasher.now.chunks.items) start (start + length elements)
        → (store : Store)
        → let T = ⟦<Verifier<'static, F, H> as Hasher<F>>⟧.layout hasher.now in
        let claim = content_of elements (⟦<Verifier<'static, F, H> as Hasher<F>>⟧.chunk hasher.now) in
        IsMadeOf H.Digest.size H.hash_of T BackwardFold proof start claim root store
        → HoldsOfViews size H.hash_of F.shape hasher.now.height
        (check_strings H.hash_of T BackwardFold proof start claim) root
        (λ U content inactive. IsStoreOf H.hash_of U store content inactive) }
    ensures locations { (size : ℕ) (proof : Proof) (claims : List Claim) (root : List ℕ)
        → size ≢ 8 + H.Digest.size
        → hasher.now.graftable_chunks ≡ graftable_at F.shape hasher.now.height proof.leaves
        → All (λ l. AreSupplied size hasher.now.height hasher.now.start_chunk_index
        (map (λ c. c.now) hasher.now.chunks.items) l (l + 1)) (locations claims)
        → let T = ⟦<Verifier<'static, F, H> as Hasher<F>>⟧.layout hasher.now in
        let chunk = ⟦<Verifier<'static, F, H> as Hasher<F>>⟧.chunk hasher.now in
        IsMultiProved H.Digest.size H.hash_of T BackwardFold proof claims chunk root
        → HoldsOfViews size H.hash_of F.shape hasher.now.height
        (multi_strings H.hash_of T BackwardFold proof claims chunk) root
        (λ U content inactive. IsMultiOwn H.hash_of U proof claims content inactive) }
{}
