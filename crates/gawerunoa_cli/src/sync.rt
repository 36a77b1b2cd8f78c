//! Copies of snapshots by messages over streams: one who serves pages, and one who asks for them.

pub(crate) mod ask;
pub mod asked;
pub mod fault;
pub(crate) mod log;
mod message;
pub(crate) mod peers;
mod rows;
pub(crate) mod serve;
