//! Operations of databases in which any value may have been active.

pub mod operation;
pub mod value;

pub use value::{FixedEncoding, FixedValue, ValueEncoding, VariableEncoding, VariableValue};
