//! Spans: from one key to before the next greater one, and from the greatest around to before the least.

ghost use Rattle.std.specs.Prelude.{◌≡◌, ◌↔◌, IsTrue};
ghost use Rattle.storage_current.specs.Keys.{Excludes, Keyed, in_span, keyed_by};

use storage_merkle::merkle::Family;
use storage_ops::qmdb::any::operation::OperationCodec;
use storage_ops::qmdb::any::operation::update::Ordered;
use storage_ops::qmdb::operation::Key;

/// Returns whether `key` lies from `start` on and before `end`, around past the greatest key if `start` is not before
/// `end`.
fn contains_cyclic<F: Family, K: Key, V: OperationCodec<F, Ordered<K, V>>>(
    start: &K,
    end: &K,
    key: &K,
) -> bool
    ensures { let e = keyed_by K.text V.Value.text V.operation_text K.cmp in
        result ≡ in_span e start.now end.now key.now }
{
    if start < end {
        start <= key && key < end
    } else {
        start <= key || key < end
    }
}

/// Returns whether an active update of the key `start` that names `next` as the next key excludes `key`.
pub(crate) fn excludes<F: Family, K: Key, V: OperationCodec<F, Ordered<K, V>>>(
    start: &K,
    next: &K,
    key: &K,
) -> bool
    ensures { let e = keyed_by K.text V.Value.text V.operation_text K.cmp in
        IsTrue result ↔ Excludes e start.now next.now key.now }
{
    key != start && contains_cyclic::<F, K, V>(start, next, key)
}
