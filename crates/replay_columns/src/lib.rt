//! What the lists of `replay` share: what stands in a column of a line, how answers are told, and names of refusals.
#![tactic(auto)]

pub mod answers;
pub mod columns;
pub mod digits;
pub mod refusals;
pub mod unframed;
