//! What is kept beside the operations.

/// What all of a file depends on. It is written when the file is made, and compared when it is opened.
#[derive(Clone, Copy, Debug, PartialEq, Eq)]
pub struct Agreement<'a> {
    /// The family of the trees.
    pub family: &'a str,
    /// The digest function.
    pub digest: &'a str,
    /// The bytes of a chunk of bits.
    pub chunk_size: u32,
    /// How keys are written.
    pub key_encoding: &'a str,
    /// How values are written.
    pub value_encoding: &'a str,
}

/// A commit.
#[derive(Debug, Drop, PartialEq, Eq)]
pub struct Commit {
    /// Its location among the operations.
    pub location: u64,
    /// The least location of an operation that is active.
    pub floor: u64,
    /// The canonical root.
    pub root: Vec<u8>,
}
