//! Why a call of the board did less than it was asked.

use pac_map::RomSet;
use thiserror::Error;

/// Why a call that makes steps ended early.
#[derive(Clone, Copy, Debug, PartialEq, Eq, Error)]
pub enum Fault {
    /// B1: the time that is asked for is past the board's range; nothing was changed.
    #[error("the board's time is over")]
    TooFar,
    /// B2: the sink refused an output. It is due, and the next call offers it first.
    #[error("the sink refused an output")]
    Refused,
}

/// Why a single step wasn't done.
#[derive(Clone, Copy, Debug, PartialEq, Eq, Error)]
pub enum Idle {
    /// Outputs of the last step are due.
    #[error("outputs are due")]
    OutputsDue,
    /// The time is so late that no step is begun.
    #[error("the board's time is over")]
    TimeIsOver,
}

/// There wasn't the memory for a board; the ROM set comes back.
#[derive(Drop)]
pub struct InitRefused {
    /// The set that was handed in.
    pub set: RomSet,
}
