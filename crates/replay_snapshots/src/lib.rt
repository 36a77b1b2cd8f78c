//! Lists of `replay` on snapshots, their proofs and their keys, and one function that answers the columns of their cases.
#![tactic(auto)]

mod checks;
mod faulty;
mod kept;
mod keys;
pub mod lists;
mod served;
pub mod shared;
mod snapshots;
mod stores;
mod trees;
