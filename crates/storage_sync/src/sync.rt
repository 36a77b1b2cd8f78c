//! State synchronisation: one who asks for a copy of a snapshot, one who serves it, and their messages.

mod ask;
mod bits;
mod limits;
mod lists;
mod opening;
mod page;
mod pins;
mod refusal;
mod replica;
mod request;
mod serve;
mod unanswered;
mod unfounded;

pub use ask::Sync;
pub use limits::Limits;
pub use opening::Opening;
pub use page::Page;
pub use refusal::Refusal;
pub use replica::Replica;
pub use request::Request;
pub use serve::{Server, TailServer};
pub use unanswered::Unanswered;
pub use unfounded::Unfounded;
