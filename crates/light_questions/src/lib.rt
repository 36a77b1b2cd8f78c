//! Questions about the snapshot under a root that is trusted, of byte strings and numbers alone: thin over `light` of
//! `commonware_storage`, for callers whose keys and values have no types, as programs in C and the command line.
//!
//! ```text
//! byte strings --> family, digest function, root and sizes that there are? --> the check --> yes, no
//!                        no: a refusal of its own                                  or out of memory
//! ```
//!
//! Nothing is kept between calls.
#![tactic(auto)]

pub mod agreed;
pub mod agreement;
pub mod answer;
mod byte_strings;
pub mod claim;
pub mod fixed;
pub mod kinds;
pub mod operation;
pub mod question;
pub mod range;
mod sized;
pub mod strings;
pub mod variable;
