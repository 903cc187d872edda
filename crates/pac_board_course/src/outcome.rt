//! What a run came to.

use pac_board::Stop;

/// What a run came to.
#[derive(Clone, Copy, Debug, PartialEq, Eq)]
pub struct Outcome {
    /// The frames whose vertical blank came.
    pub frames: u32,
    /// The steps that were done.
    pub steps: u64,
    /// Their time in T-states.
    pub ticks: u64,
    /// What stopped the board before its last frame, if anything did.
    pub stop: Option<Stop>,
}
