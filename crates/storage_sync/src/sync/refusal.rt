//! Why a page is refused.

/// Why a page was refused. Then nothing of it is kept. Each but `Memory` is the fault of whoever sent the page.
#[derive(Clone, Copy, Debug, PartialEq, Eq, Drop, thiserror::Error)]
pub enum Refusal {
    /// The bytes are no page.
    #[error("no page")]
    NotAPage,
    /// A list or an operation of the page is longer than the limits admit.
    #[error("more than the limits admit")]
    TooMuch,
    /// The page has no operations, more than were asked for or than are left, or does not end where a chunk ends or all operations do.
    #[error("not what was asked for")]
    NotAsked,
    /// The range proof, checked at the place that was asked for, says no.
    #[error("not proved")]
    NotProved,
    /// Out of memory.
    #[error("out of memory")]
    Memory,
}
