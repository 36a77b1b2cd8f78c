//! An ordered database over operations: puts, deletions and commits, and a proof of every value and every absence.
//!
//! ```text
//! put, delete  -->  operations, a bit for each, the active keys   commit  -->  the snapshot, its root
//!                                                                              prove_value, prove_absence
//! ```
//!
//! The active keys form a ring: each one's update names the next greater key, that of the greatest the least. So where a
//! key has no value, the update of the key before it shows it.
#![tactic(auto)]

pub mod db;
pub mod laws;
