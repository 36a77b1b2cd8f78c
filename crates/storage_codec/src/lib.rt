//! Values as bytes, and digests: reading answers just what the format says, for every byte string.
//!
//! ```text
//! false, true            00, 01
//! u64 300                00 00 00 00 00 00 01 2c           eight bytes, highest first; a key U64 likewise
//! UInt 300               ac 02                             a varint, LEB128 in its shortest spelling: one to ten bytes
//! FixedBytes<4>          its four bytes, no length before them; a digest likewise, 32 or 64 bytes
//! Vec<u8> of ab cd       02 ab cd                          its length as a varint, then the bytes
//! None, Some(UInt 300)   00, 01 ac 02                      an option: a truth value, then the value
//!
//! the varint of 300 = 10 0101100 (binary):     ac = 1 0101100     the low seven bits first; the high bit says that more follow
//!                                              02 = 0 0000010     the last group
//! ```
#![tactic(auto)]

pub mod codec;
pub mod digest;
pub mod laws;
mod memory;

pub use memory::NoMemory;
