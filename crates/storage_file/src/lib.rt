//! What a database keeps in a file: its operations and its commits, as lists that only grow, and what was agreed when the
//! file was made.
#![tactic(auto)]

mod agreed;
mod agreement;
mod contents;
mod error;
mod file;
mod journal;
mod queries;
mod rows;
mod statements;
mod tables;

pub use agreed::{OwnedAgreement, read_agreement};
pub use agreement::{Agreement, Commit};
pub use contents::{Contents, open};
pub use error::Error;
pub use file::{append_and_stop, is_blank, open_files};
pub use journal::Journal;
pub use tables::{Counts, append, create};
