//! Lists of bits in chunks of bytes, of which those in front may be forgotten.

pub mod authenticated;
mod prunable;
mod readable;

pub use prunable::{Prunable, is_set};
pub use readable::Readable;
