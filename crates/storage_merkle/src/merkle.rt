//! Trees of two families: places, hashing, trees in memory, plans, proofs and proof stores.

mod bagging;
mod countable;
mod error;
pub mod family;
pub mod hasher;
mod location;
pub mod mem;
pub mod mmb;
pub mod mmr;
mod multi;
mod peaks;
mod plan;
mod position;
mod proof;
mod proof_store;
mod storage;
mod walk;

pub use bagging::Bagging;
pub use countable::{Countable, leaves_of};
pub use error::Error;
pub use family::{Family, Graftable};
pub use location::Location;
pub use mem::Mem;
pub use peaks::{NodesToPin, PeakNodes, Peaks, count_pins};
pub use plan::{ElementPlan, RangePlan};
pub use position::Position;
pub use proof::{LentProof, Proof};
pub use proof_store::ProofStore;
pub use storage::{Readable, Storage};

/// The most leaves that a tree may have.
pub const MAX_LEAVES: u64 = 0x4000_0000_0000_0000;
