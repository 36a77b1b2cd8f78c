//! What follows of stored commits from the definitions alone. A law is a function that does nothing; its contract says it.

ghost use Rattle.std.specs.Prelude.{◌≡◌, Option};
ghost use Rattle.storage_current.specs.Keys.{keyed_by};
ghost use Rattle.storage_current.specs.Snapshots.{grafting_of};
ghost use Rattle.storage_db.specs.Databases.{Database, Commit, done};
ghost use Rattle.storage_db.specs.Kept.{KeptDatabase, Keeps};
ghost use Rattle.storage_file.specs.Kept.{Kept};
ghost use Rattle.storage_stored.specs.Stored.{AreListsOf, IsAhead};

use storage_codec::digest::Hasher;
use storage_db::db::OrderedCodec;
use storage_merkle::merkle::Graftable;
use storage_ops::qmdb::operation::Key;

/// A commit goes on from lists that are those of the last commit before it, whatever was put and deleted since: so it can
/// be stored at their ends.
pub fn each_commit_goes_on<F: Graftable, H: Hasher, K: Key, V: OrderedCodec<F, K>, const N: usize>()
    ensures { let e = keyed_by K.text V.Value.text V.operation_text K.cmp in
        let g = grafting_of F.shape N in
        (kept : KeptDatabase K V.Value) (d : Database K V.Value) (metadata : Option V.Value)
        (lists : Kept) → Keeps e V.Value.view H.hash_of g kept d → AreListsOf H.hash_of g lists d.last
        → IsAhead lists (done e d (Commit metadata)) }
{}
