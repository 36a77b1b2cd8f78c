//! Checks for programs in C, and in each language that calls C, that trust one digest: thin over `light_questions`.
//!
//! ```text
//! pointers and lengths --> byte strings --> a question of `light_questions` --> yes, no, out of memory or a refusal, as a number
//! ```
//!
//! A slice crosses as a pointer and a length. Nothing is kept between calls, and all memory that a call takes is given back
//! before it answers.
#![tactic(auto)]

pub mod database;
pub mod keys;
pub mod operation;
pub mod range;
pub mod string_keys;
pub mod version;
