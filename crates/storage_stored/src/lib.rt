//! An ordered database whose commits outlive the program: each is stored with the operations since the one before it and its
//! root, in one transaction of a connection of `sqlite`.
//!
//! ```text
//! Stored::put, delete, compact  -->  the database in memory
//! Stored::commit                -->  the database in memory, then store_commit  -->  the tables
//! Stored::open                  -->  the tables  -->  Journal::open  -->  Ordered::open  -->  is_stored
//! ```
#![tactic(auto)]

mod commits;
mod compacting;
mod error;
pub mod laws;
mod opening;
mod rows;
mod store;
mod stored;

pub use compacting::CompactError;
pub use error::Error;
pub use store::{is_stored, store_commit};
pub use stored::Stored;
