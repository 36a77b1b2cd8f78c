//! Snapshots of operations and of which of them are active, their roots and proofs.

mod chunk_tree;
mod chunks;
mod contiguous;
pub mod grafting;
mod operation_tree;
pub mod ordered;
pub mod proof;
mod required;
mod root;
mod roots;
mod snapshot;
mod snapshot_tail;
mod tail;
mod view;

pub use contiguous::{Contiguous, LogError};
pub use operation_tree::OperationTree;
pub use required::{RequiredChunks, required_chunks};
pub use snapshot::{Snapshot, chunk_pins};
pub use snapshot_tail::SnapshotTail;
pub use tail::Tail;
