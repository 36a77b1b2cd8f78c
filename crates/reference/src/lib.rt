//! The definitions of trees, roots and proofs as a program: plain and slow. Each function follows the words of its
//! definition, which is its contract, and computes anew what the fast calls keep.
#![tactic(auto)]

pub mod bit;
pub mod check;
pub mod chunk;
pub mod count;
mod fold;
pub mod multi;
pub mod node;
mod range_proof;
pub mod shape;
mod site;
pub mod snapshot;
mod string;
pub mod tree;
