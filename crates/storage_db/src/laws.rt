//! What holds of a database after each list of commands, as laws over the definitions alone.

ghost use Rattle.storage_current.specs.Keys.{Keyed, keyed_by};
ghost use Rattle.storage_current.specs.Snapshots.{grafting_of};
ghost use Rattle.storage_bitmap.specs.Chunks.{IsChunkSize};
ghost use Rattle.storage_db.specs.Compacting.{EachCompactionIsKept};
ghost use Rattle.storage_db.specs.Kept.{IsMade};
ghost use Rattle.storage_db.specs.Promises.{EachCallIsKept, EachListIsKept, EachProofIsAccepted, EachYesIsTrue};

use crate::db::{Ordered as Database, OrderedCodec};
use storage_codec::digest::Hasher;
use storage_current::laws::keys::operations_settle_keys;
use storage_current::laws::own_operation_proofs_are_accepted;
use storage_merkle::merkle::{Family, Graftable};
use storage_ops::qmdb::any::operation::OperationCodec;
use storage_ops::qmdb::any::operation::update::Ordered;
use storage_ops::qmdb::operation::Key;

/// Each list of commands leaves the map that its puts and deletions make, and with a commit among them a well-formed snapshot
/// whose ring of keys is the map at the last one; a command that is refused changes nothing.
pub fn each_list_is_kept<F: Family, K: Key, V: OperationCodec<F, Ordered<K, V>>>()
    ensures { let e = keyed_by K.text V.Value.text V.operation_text K.cmp in EachListIsKept e }
{
    operations_settle_keys::<F, K, V>();
}

/// Whatever commands were given, each proof of a value at the last commit is accepted against the root of its snapshot, and
/// each proof that a key has none.
pub fn each_proof_is_accepted<
    F: Graftable,
    H: Hasher,
    K: Key,
    V: OperationCodec<F, Ordered<K, V>>,
    const N: usize,
>()
    ensures { let e = keyed_by K.text V.Value.text V.operation_text K.cmp in
        EachProofIsAccepted e H.hash_of (grafting_of F.shape N) }
{
    operations_settle_keys::<F, K, V>();
    own_operation_proofs_are_accepted();
}

/// Whatever commands were given, a client's yes against the root of the last commit's snapshot, of a value or of an absence,
/// states what the map had at that commit, or two different strings have one digest.
pub fn each_yes_is_true<
    F: Family,
    H: Hasher,
    K: Key,
    V: OperationCodec<F, Ordered<K, V>>,
    const N: usize,
>()
    ensures { let e = keyed_by K.text V.Value.text V.operation_text K.cmp in
        EachYesIsTrue e H.hash_of (grafting_of F.shape N) }
{
    operations_settle_keys::<F, K, V>();
}

/// Some list of commands, given to the empty database, leaves what `database` keeps: so the laws above hold of each database,
/// whatever calls made it.
pub fn each_database_is_made<
    F: Graftable,
    H: Hasher,
    K: Key,
    V: OrderedCodec<F, K>,
    const N: usize,
>(database: &Database<F, H, K, V, N>)
    ensures size { IsChunkSize N }
    ensures made { let e = keyed_by K.text V.Value.text V.operation_text K.cmp in
        IsMade e V.Value.view H.hash_of (grafting_of F.shape N) database.now }
{
    database.is_made();
}

/// A command that a database has done stands at the end of the commands that made it, and the maps change as it says.
pub fn each_call_is_kept<
    F: Family,
    H: Hasher,
    K: Key,
    V: OperationCodec<F, Ordered<K, V>>,
    const N: usize,
>()
    ensures { let e = keyed_by K.text V.Value.text V.operation_text K.cmp in
        EachCallIsKept e V.Value.view H.hash_of (grafting_of F.shape N) }
{}

/// Whatever commands were given, those that put the oldest active updates again leave each key its value and the last commit
/// as it is, and the least location of an active update rises by one at least with each of them. So does the floor that a
/// commit has then.
pub fn each_compaction_is_kept<F: Family, K: Key, V: OperationCodec<F, Ordered<K, V>>>()
    ensures { let e = keyed_by K.text V.Value.text V.operation_text K.cmp in EachCompactionIsKept e }
{
    operations_settle_keys::<F, K, V>();
}
