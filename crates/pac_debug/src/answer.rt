//! What a command is answered with.

ghost use Rattle.std.specs.Prelude.{◌≡◌};
ghost use Rattle.pac_debug.specs.Answers.{ending_of};

use pac_debug_session::MotionEnd;
use pac_debug_text::{Ending, Refusal};

/// What is told of a command that was done, or that was refused by the table of refusals.
#[derive(Clone, Copy)]
pub enum Answer {
    /// It was done: `ok`.
    Done,
    /// It did nothing, for this reason.
    Refused(Refusal),
    /// The session moved; this word and the place are told.
    Moved(Ending),
    /// The registers.
    Registers,
    /// Bytes of memory.
    Bytes {
        /// The address of the first.
        at: u16,
        /// How many.
        count: u16,
    },
    /// Instructions of memory.
    Instructions {
        /// The address of the first.
        at: u16,
        /// How many.
        count: u16,
    },
    /// So many of the last steps, at most.
    Steps(u16),
}

/// The word for why a motion rests.
pub(crate) fn ending_of(rest: MotionEnd) -> Ending
    ensures { result ≡ ending_of rest }
{
    match rest {
        MotionEnd::AtStop(_) => Ending::Stop,
        MotionEnd::AtEnd => Ending::End,
        MotionEnd::AtBreakpoint => Ending::Break,
        MotionEnd::AtFrame => Ending::Frame,
        MotionEnd::AtStep => Ending::Step,
    }
}
