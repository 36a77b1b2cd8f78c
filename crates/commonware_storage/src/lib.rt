//! Checked answers for a light client that trusts one digest, the canonical root of a snapshot, and the crates that
//! they stand on, at one place.
//!
//! ```text
//! received bytes --> one whole operation proof of at most 128 digests? of that location? --> its check against the root --> yes
//!                        no: no                                   no: no                         no: no
//! ```
//!
//! A yes says that in each snapshot with that root the operation stands at the location and is active, or two
//! different strings have one digest, one hashed by the check and one by the root's calculation. Out of memory is an
//! error, never a no.
#![tactic(auto)]

pub mod laws;
pub mod light;
pub mod qmdb;

pub use storage_bitmap::bitmap;
pub use storage_codec::{NoMemory, codec, digest};
pub use storage_db::db;
pub use storage_merkle::merkle;
