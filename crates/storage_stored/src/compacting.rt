//! The oldest active updates of a stored database, put again in memory.

ghost use Rattle.std.specs.Prelude.{◌≡◌, false, IfErr, IfOk, OnOk};
ghost use Rattle.storage_current.specs.Keys.{keyed_by};
ghost use Rattle.storage_current.specs.Snapshots.{grafting_of};
ghost use Rattle.storage_db.specs.Databases.{Database};
ghost use Rattle.storage_db.specs.Kept.{Keeps};
ghost use Rattle.storage_db.specs.Opening.{ReadsAs, ReadsCommand};
ghost use Rattle.storage_stored.specs.Compacted.{IsCompactRefused, IsStoredCompacted, told_of_compact};

use crate::commits::Tables;
use crate::error::Error;
use sqlite::Alter;
use storage_codec::digest::Hasher;
use storage_db::db::{CompactError as DatabaseError, Ordered, OrderedCodec};
use storage_merkle::merkle::{Graftable, Location};
use storage_ops::qmdb::operation::Key;

/// Why the oldest active update of a stored database over a family `F` of trees was not put again.
#[derive(Drop, thiserror::Error)]
#[derive_where(Clone, Copy, Debug, PartialEq, Eq)]
pub enum CompactError<F> {
    /// By the configuration it is not read as an update of its key; its location.
    #[error("no update of its key is read at {0}")]
    NotRead(Location<F>),
    /// To put it was refused, by `Stopped`, `Full` or `Memory`.
    #[error("{0}")]
    Refused(Error<F>),
}

impl<F> From<DatabaseError<F>> for CompactError<F> {
    ghost from_gives = { λ e r. r ≡ told_of_compact e };

    fn from(error: DatabaseError<F>) -> CompactError<F> {
        match error {
            DatabaseError::NotRead(location) => CompactError::NotRead(location),
            DatabaseError::Refused(error) => CompactError::Refused(Error::from(error)),
        }
    }
}

/// Puts the oldest active update of a database again, at most `count` times, if it takes changes. Returns how many updates
/// were put again.
///
/// # Errors
///
/// The first of: `Refused(Stopped)` after a commit that was not stored; `Refused(Full)`; `NotRead`; `Refused(Memory)`.
pub(crate) fn compact<
    F: Graftable,
    H: Hasher,
    K: Key,
    V: OrderedCodec<F, K>,
    const N: usize,
    S: Alter,
>(
    tables: &Tables<S, V::ReadCfg, N>,
    database: &mut Ordered<F, H, K, V, N>,
    count: u64,
) -> Result<u64, CompactError<F>>
where
    V::ReadCfg: Drop,
    ensures ok { let e = keyed_by K.text V.Value.text V.operation_text K.cmp in
        let g = grafting_of F.shape N in
        IfOk result (λ moved. (d : Database K V.Value) → Keeps e V.Value.view H.hash_of g database.old d
        → IsStoredCompacted e V.Value.view H.hash_of g S.Store tables.now.journal d count database.new moved) }
    ensures serves { OnOk result (tables.now.is_stopped ≡ false) }
    ensures why { let e = keyed_by K.text V.Value.text V.operation_text K.cmp in
        let g = grafting_of F.shape N in
        let reads = ReadsCommand (ReadsAs (V.operation_parse tables.now.cfg) V.operation_view)
        (λ k v n. record { key = k; value = v; next_key = n }) in
        IfErr result (IsCompactRefused e V.Value.view H.hash_of g S.Store reads tables.now.is_stopped
        tables.now.journal database.old count database.new) }
{
    if tables.is_stopped {
        return Err(CompactError::Refused(Error::Stopped));
    }
    let moved = database.compact(count, &tables.cfg)?;
    Ok(moved)
}
