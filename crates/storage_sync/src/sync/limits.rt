//! What a reader of messages admits.

/// What a reader of messages admits. It bounds what is read, whatever the bytes say.
#[derive(Clone, Copy, Debug, PartialEq, Eq, Drop)]
pub struct Limits {
    /// The most operations of a page.
    pub max_ops: u64,
    /// The most bytes of one operation.
    pub max_operation_len: usize,
    /// The most digests of a range proof.
    pub max_digests: usize,
}
