//! Databases of operations: how operations are written, which of them are active, and checks of proofs over them.

pub use storage_current::qmdb::current;
pub use storage_ops::qmdb::{Error, any, hasher, operation, verify};
pub use storage_sync::sync;
