//! Lists of `replay` on encodings, bitmaps, trees and proofs of trees: for each list a function that answers the columns of a case.
#![tactic(auto)]

mod asked;
pub mod bitmaps;
pub mod both_chunks;
pub mod checks;
pub mod claims;
pub mod codecs;
pub mod counting;
pub mod extracted;
pub mod grafted_trees;
pub mod key_proofs;
pub mod mems;
pub mod operations;
pub mod places;
pub mod spelling;
pub mod stores;
pub mod trees;
pub mod values;
pub mod verifiers;
pub mod witnesses;
