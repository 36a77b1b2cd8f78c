//! How the peaks of a tree are folded into one digest.

ghost use Rattle.std.specs.Prelude.{◌≡◌};
ghost use Rattle.storage_merkle.specs.Trees.{bagging_byte};

/// In which direction the peaks of a tree are folded into one digest.
///
/// The inactive peaks, a number of leading ones, are always folded forwards into one item first.
#[derive(Clone, Copy, Debug, PartialEq, Eq)]
pub enum Bagging {
    /// From the left: `fold(fold(x1, x2), x3)`.
    ForwardFold,
    /// From the right: `fold(x1, fold(x2, x3))`.
    BackwardFold,
}

impl Bagging {
    /// Returns the byte that stands for the direction in the string of a root: 0 for `ForwardFold`, 1 for
    /// `BackwardFold`.
    pub fn byte(self) -> u8
        ensures { result ≡ bagging_byte self }
    {
        match self {
            Bagging::ForwardFold => 0,
            Bagging::BackwardFold => 1,
        }
    }
}
