//! An ordered database: a map of keys to values that proves what it has committed.

mod active;
mod again;
mod changes;
mod commit;
mod encoding;
mod error;
mod log;
mod nodes;
mod notes;
mod ordered;
mod ranges;
mod replay;
mod strings;

pub use encoding::{KeyedEncoding, OrderedCodec};
pub use error::Error;
pub use ordered::{CompactError, OpenError, Ordered, TrustError};
pub use ranges::Range;
