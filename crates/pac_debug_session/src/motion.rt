//! How a session moves forwards, and why it rests.

ghost use Rattle.std.specs.Prelude.{◌≡◌};
ghost use Rattle.pac_debug_session.specs.Motions.{motion_ending};
ghost use Rattle.pac_debug_session.specs.MotionsProofs.{stop_of};
ghost use Rattle.pac_debug_session.specs.Strides.{heeds, longest_stride};

use crate::leap::CHECKPOINT_STEPS;
use pac_board_course::Stop;

/// A motion forwards.
#[derive(Clone, Copy)]
pub enum Motion {
    /// So many steps, one at least; breakpoints aren't heeded.
    Steps(u32),
    /// Up to a breakpoint, one step at least.
    Continue,
    /// Up to a breakpoint, or until so many more frames have ended; one step at least.
    Frames(u32),
    /// To the end of the run.
    ToEnd,
}

impl Motion {
    /// How many steps a motion may do in one go, so many after its beginning, where it hasn't done what it is for: one at first, and of
    /// counted steps those that are left. What the others rest at isn't met before the last of them.
    #[inline]
    pub(crate) fn longest_stride(self, gone: u64) -> u64
        ensures { result ≡ longest_stride self gone }
    {
        if gone == 0 {
            return 1;
        }
        match self {
            Motion::Steps(count) => u64::from(count).saturating_sub(gone),
            _ => CHECKPOINT_STEPS,
        }
    }

    /// Whether breakpoints are heeded.
    #[inline]
    pub(crate) fn heeds(self) -> bool
        ensures { result ≡ heeds self }
    {
        match self {
            Motion::Steps(_) => false,
            Motion::Continue => true,
            Motion::Frames(_) => true,
            Motion::ToEnd => false,
        }
    }

    /// Why a motion rests that has done what it is for; `breaks` says whether the processor stands on a breakpoint.
    pub(crate) fn word(self, breaks: bool) -> MotionEnd
        ensures { result ≡ motion_ending self breaks }
    {
        match self {
            Motion::Steps(_) => MotionEnd::AtStep,
            Motion::Continue => MotionEnd::AtBreakpoint,
            Motion::Frames(_) if breaks => MotionEnd::AtBreakpoint,
            Motion::Frames(_) => MotionEnd::AtFrame,
            Motion::ToEnd => MotionEnd::AtEnd,
        }
    }
}

/// Why a motion rests.
#[derive(Clone, Copy)]
pub enum MotionEnd {
    /// A step was tried, and met this stop.
    AtStop(Stop),
    /// The run is over: the last frame has ended.
    AtEnd,
    /// The processor stands on a breakpoint.
    AtBreakpoint,
    /// The frames have ended.
    AtFrame,
    /// The steps are done.
    AtStep,
}

impl MotionEnd {
    /// The stop that was met, if one was.
    pub fn stop(self) -> Option<Stop>
        ensures { result ≡ stop_of self }
    {
        match self {
            MotionEnd::AtStop(stop) => Some(stop),
            _ => None,
        }
    }
}
