//! What a well-formed snapshot says of keys.

ghost use Rattle.std.specs.Prelude.{[], ◌∷◌, Option, true};
ghost use Rattle.storage_current.specs.Keys.{ExcludedAreAbsent, IsKeyed, IsWellFormed, Keyed, NoneAtItsFloor, UpdatesAreValues, commit_text, update_text, keyed_by};
ghost use Rattle.storage_current.specs.Snapshots.{IsSnapshot, Snapshot};

use storage_merkle::merkle::Family;
use storage_ops::qmdb::any::operation::OperationCodec;
use storage_ops::qmdb::any::operation::update::Ordered;
use storage_ops::qmdb::operation::Key;

/// The bytes of operations settle their keys, values and floors, and exactly those keys compare alike which are written
/// alike.
pub fn operations_settle_keys<F: Family, K: Key, V: OperationCodec<F, Ordered<K, V>>>()
    ensures { let e = keyed_by K.text V.Value.text V.operation_text K.cmp in IsKeyed e }
{}

/// An active update of a key in a well-formed snapshot is to its value, and there is no other.
pub fn active_update_is_value<F: Family, K: Key, V: OperationCodec<F, Ordered<K, V>>>()
    ensures { let e = keyed_by K.text V.Value.text V.operation_text K.cmp in UpdatesAreValues e }
{
    operations_settle_keys::<F, K, V>();
}

/// A key in the span of an active update, other than its own, is absent from a well-formed snapshot.
pub fn spanned_key_is_absent<F: Family, K: Key, V: OperationCodec<F, Ordered<K, V>>>()
    ensures { let e = keyed_by K.text V.Value.text V.operation_text K.cmp in ExcludedAreAbsent e }
{
    operations_settle_keys::<F, K, V>();
}

/// Where an active commit of a well-formed snapshot stands at its own floor, every key is absent.
pub fn commit_at_floor_is_empty<F: Family, K: Key, V: OperationCodec<F, Ordered<K, V>>>()
    ensures { let e = keyed_by K.text V.Value.text V.operation_text K.cmp in NoneAtItsFloor e }
{
    operations_settle_keys::<F, K, V>();
}

/// A snapshot of one active commit at its own floor is well-formed.
pub fn one_commit_is_well_formed<F: Family, K: Key, V: OperationCodec<F, Ordered<K, V>>>()
    ensures { let e = keyed_by K.text V.Value.text V.operation_text K.cmp in
        (value : Option V.Value) → let s : Snapshot = record {
          operations = commit_text e value 0
              ∷ [];
          bits = true ∷ [];
          floor = 0;
        } in
        IsSnapshot s × IsWellFormed e s }
{
    operations_settle_keys::<F, K, V>();
}

/// A snapshot of an active update of a key, which names the key itself as the next one, and then an active commit is
/// well-formed.
pub fn lone_key_is_well_formed<F: Family, K: Key, V: OperationCodec<F, Ordered<K, V>>>()
    ensures { let e = keyed_by K.text V.Value.text V.operation_text K.cmp in
        (key : K) (value : V.Value) (committed : Option V.Value)
        → let s : Snapshot = record {
          operations = update_text e key value key
              ∷ commit_text e committed 0 ∷ [];
          bits = true ∷ true ∷ [];
          floor = 0;
        } in
        IsSnapshot s × IsWellFormed e s }
{
    operations_settle_keys::<F, K, V>();
}
