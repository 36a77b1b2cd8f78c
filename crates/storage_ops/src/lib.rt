//! Operations of a database of keys and values, their encodings, and checks of proofs over lists of operations.
//!
//! ```text
//! fixed: each operation has S bytes, filled up with zeros
//!        S = the greatest of 1 + U, 10 + V and 1 + K: a key has K bytes, a value V, an update U = K + V + K (unordered: K + V)
//!
//! delete    d1 | key                                | zeros up to S
//! update    d2 | key | value | next key             | zeros up to S    unordered: no next key
//! commit    d3 | 01 | value | floor, 8 bytes        | zeros up to S    highest byte of the floor first
//!           d3 | 00 | V zeros | floor, 8 bytes      | zeros up to S    a commit without a value
//!
//! variable: no zeros; keys and values as their types are written
//!
//! delete    d1 | key
//! update    d2 | key | value | next key                               unordered: no next key
//! commit    d3 | 01 | value | floor as a varint
//!           d3 | 00 | floor as a varint
//! ```
#![tactic(auto)]

pub mod laws;
pub mod qmdb;
