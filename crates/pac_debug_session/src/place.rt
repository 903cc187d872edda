//! Where a session stands in its run.

ghost use Rattle.std.specs.Prelude.{◌≡◌, ◌≤◌, ◌<◌, ◌*◌, ◌+◌, ◌^◌};
ghost use Rattle.pac_board_course.specs.Course.{outcome_at};
ghost use Rattle.pac_board_course.specs.Step.{frame_ticks};
ghost use Rattle.pac_board_course.specs.Stretches.{most_frames};
ghost use Rattle.pac_debug_session.specs.Motions.{has_met};
ghost use Rattle.pac_debug_session.specs.Running.{is_late, blanks_at};
ghost use Rattle.pac_debug_session.specs.Session.{breaks_at};

use crate::motion::Motion;
use crate::session::Session;
use pac_board_course::{Board, FRAME_TICKS, Outcome, Stop};

impl Session {
    /// Whether the run is over.
    #[inline]
    pub(crate) fn is_late(&self) -> bool
        ensures { result ≡ is_late self.now.setting self.now.index }
    {
        self.board.time() >= self.limit
    }

    /// The frames that have ended.
    #[inline]
    pub(crate) fn blanks(&self) -> u64
        ensures count { result ≡ blanks_at self.now.setting self.now.index }
        ensures bound { result < 2 ^ 40 }
    {
        self.board.time() / FRAME_TICKS
    }

    /// Whether the processor stands on a breakpoint.
    #[inline]
    pub(crate) fn breaks(&self) -> bool
        ensures { result ≡ breaks_at self.now self.now.index }
    {
        self.has_breakpoint(self.board.regs().pc)
    }

    /// Whether a motion that began at an index has done what it is for at the session's, one step
    /// at least, and rests.
    pub(crate) fn has_met(&self, motion: Motion, from: u64, blanks: u64) -> bool
        requires before { from ≤ self.now.index }
        requires blanks { blanks ≡ blanks_at self.now.setting from }
        requires bound { blanks < 2 ^ 40 }
        ensures { result ≡ has_met self.now motion from self.now.index }
    {
        let index = self.index();
        if index == from {
            return false;
        }
        match motion {
            Motion::Steps(count) => index - from >= u64::from(count),
            Motion::Continue => self.breaks(),
            Motion::Frames(count) => self.breaks() || self.blanks() >= blanks + u64::from(count),
            Motion::ToEnd => false,
        }
    }
}

/// What a run came to that ended here.
pub(crate) fn outcome_on(board: &Board, stop: Option<Stop>) -> Outcome
    requires { board.now.state.now.time ≤ frame_ticks * (most_frames + 1) }
    ensures { result ≡ outcome_at board.now.state.now stop }
{
    Outcome {
        frames: (board.time() / FRAME_TICKS) as u32,
        steps: board.steps(),
        ticks: board.time(),
        stop,
    }
}
