//! A database that is opened from operations of a stranger's, by the root of its last commit.

ghost use Rattle.std.specs.Prelude.{◌≡◌, ◌↔◌, ℕ, List, IfOk, IfErr, IsTrue, map};
ghost use Rattle.storage_bitmap.specs.Chunks.{IsChunkSize};
ghost use Rattle.storage_current.specs.Keys.{keyed_by};
ghost use Rattle.storage_current.specs.Snapshots.{grafting_of};
ghost use Rattle.storage_db.specs.Databases.{Database};
ghost use Rattle.storage_db.specs.Kept.{Keeps};
ghost use Rattle.storage_db.specs.Opening.{IsOpened, ReadsAs, ReadsCommand};
ghost use Rattle.storage_db.specs.Trusted.{HasRoot, IsTrustRefused};
ghost use Rattle.storage_db.specs.declared.db.ordered.trusted.TrustError.TheVariants.{Open};

use crate::db::{OpenError, Ordered, OrderedCodec};
use std::alloc::Global;
use storage_codec::digest::Hasher;
use storage_merkle::merkle::Graftable;
use storage_ops::qmdb::operation::Key;

/// Why operations over a family `F` of trees were not opened as the database whose root is trusted.
#[derive(Drop, thiserror::Error)]
#[derive_where(Clone, Copy, Debug, PartialEq, Eq)]
pub enum TrustError<F> {
    /// They were not opened.
    #[error("{0}")]
    Open(OpenError<F>),
    /// The root of their last commit is another one, or there is no commit.
    #[error("the root of another database")]
    OtherRoot,
}

impl<F> From<OpenError<F>> for TrustError<F> {
    ghost from_gives = { λ error e. e ≡ Open error };

    fn from(error: OpenError<F>) -> TrustError<F> {
        TrustError::Open(error)
    }
}

impl<F: Graftable, H: Hasher, K: Key, V: OrderedCodec<F, K>, const N: usize> Ordered<
    F,
    H,
    K,
    V,
    N,
> {
    /// Opens the database whose operations are `operations`, as [`open`](Self::open) does, if the canonical root of its
    /// last commit is `root`. So a copy from peers that are not trusted becomes the database that its root is of.
    ///
    /// # Errors
    ///
    /// `Open` with the error of [`open`](Self::open), if it is refused there; else `OtherRoot`. So `NotALog` says that the
    /// snapshot with that root is none of a database, and `Memory` may come at any point.
    pub fn open_trusted(
        alloc: Global,
        operations: Vec<Vec<u8>>,
        root: &H::Digest,
        cfg: &V::ReadCfg,
    ) -> Result<Self, TrustError<F>>
        requires { IsChunkSize N }
        ensures opened { let e = keyed_by K.text V.Value.text V.operation_text K.cmp in
            let reads = ReadsCommand (ReadsAs (V.operation_parse cfg.now) V.operation_view)
            (λ k v n. record { key = k; value = v; next_key = n }) in
            IfOk result (IsOpened e reads V.Value.view H.hash_of (grafting_of F.shape N)
            (map (λ v. v.items) operations.items)) }
        ensures root { let e = keyed_by K.text V.Value.text V.operation_text K.cmp in
            let g = grafting_of F.shape N in
            IfOk result (λ kept. (d : Database K V.Value)
            → Keeps e V.Value.view H.hash_of g kept d
            → HasRoot H.hash_of g d (H.Digest.text root.now)) }
        ensures why { let e = keyed_by K.text V.Value.text V.operation_text K.cmp in
            let reads = ReadsCommand (ReadsAs (V.operation_parse cfg.now) V.operation_view)
            (λ k v n. record { key = k; value = v; next_key = n }) in
            IfErr result (IsTrustRefused e reads H.hash_of (grafting_of F.shape N)
            (map (λ v. v.items) operations.items) (H.Digest.text root.now)) }
    {
        let database = Self::open(alloc, operations, cfg)?;
        if !database.has_root(root) {
            return Err(TrustError::OtherRoot);
        }
        Ok(database)
    }

    /// Returns whether `root` is the canonical root of the last commit's snapshot.
    fn has_root(&self, root: &H::Digest) -> bool
        ensures { let e = keyed_by K.text V.Value.text V.operation_text K.cmp in
            let g = grafting_of F.shape N in
            (d : Database K V.Value) → Keeps e V.Value.view H.hash_of g self.now d
            → (IsTrue result ↔ HasRoot H.hash_of g d (H.Digest.text root.now)) }
    {
        match self.root() {
            Some(found) => found == *root,
            None => false,
        }
    }
}
