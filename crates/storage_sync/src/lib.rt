//! A copy of a snapshot from peers that are not trusted, page by page.
//!
//! ```text
//!            asker, who trusts one canonical root                     peers, who are not trusted
//!
//!  next  --> where to begin, how many operations at most            --> anyone
//!  take  <-- a range proof, operations, chunks of bits              <-- anyone
//!    |
//!    +-- a page? of as many operations as may come here? proved against the root?   no: refused, and nothing of it is kept
//!    +-- yes: its operations and bits are kept
//!  done  --> all operations and bits of the snapshot, from where the copy begins
//! ```
//!
//! Whatever pages came: of each snapshot with that root the copy has the operations and the bits, or two different strings have one
//! digest, one hashed by the asker and one by the root's calculation. A copy begins with the first operation, or behind pins of what is
//! before, with an opening.
#![tactic(auto)]

pub mod laws;
pub mod sync;
