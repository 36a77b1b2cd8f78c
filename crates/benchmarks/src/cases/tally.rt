//! How many answers were yes.

/// How many checks were made, and how many of them answered yes. A count stops at the greatest `u64`.
#[derive(Clone, Copy, Drop)]
pub struct Tally {
    /// How many checks were made.
    pub tried: u64,
    /// How many of them answered yes.
    pub accepted: u64,
}

/// No checks.
pub const NONE: Tally = Tally {
    tried: 0,
    accepted: 0,
};

impl Tally {
    /// Counts an answer, `yes` or no.
    pub fn add(&mut self, yes: bool) {
        self.tried = self.tried.saturating_add(1);
        self.accepted = self.accepted.saturating_add(yes as u64);
    }
}
