//! What a replay answers.

/// What a replay answers.
#[derive(Clone, Copy, Debug, PartialEq, Eq)]
pub enum Outcome {
    /// Every issue fits: how many issues and how many cycle advances there are.
    Accepted { issues: u64, cycles: u64 },
    /// The first event that does not fit, by its place from 0.
    Refused { event: u32 },
}
