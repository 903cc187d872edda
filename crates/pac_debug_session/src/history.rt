//! The steps that were done last.

ghost use Rattle.std.specs.Prelude.{◌≡◌, ◌≤◌, ◌<◌, ◌*◌, [], IfOk, length, slice_get, Some};
ghost use Rattle.pac_board_course.specs.Frames.{GoesTold};
ghost use Rattle.pac_board_course.specs.SinksLaws.{by};
ghost use Rattle.pac_board_course.specs.State as state;
ghost use Rattle.pac_board_course.specs.Step.{frame_ticks};
ghost use Rattle.pac_board_course.specs.Stretches.{most_frames, total_frames};
ghost use Rattle.pac_debug_session.specs.Past.{told_step_count};

use pac_board_course::{Board, PastStep, Refused, Script, Sink, Stop, Stops, Trail, go};
use std::alloc::{AllocError, Global};
use std::marker::Model;

/// The last 256 steps, the oldest first.
#[derive(Drop)]
pub struct History {
    /// Their trail, which isn't silent.
    told: Trail,
}

impl Model for History {
    ghost use Rattle.std.specs.Prelude.{◌≡◌, true, is_some, List};
    ghost use Rattle.pac_board_course.specs.PastStep.{PastStep};
    ghost use Rattle.pac_board_course.specs.Trails.{told_of};

    ghost Value = { List PastStep };

    ghost view = { λ history. told_of history.told };

    ghost invariant = { λ history. is_some history.told ≡ true };
}

impl History {
    /// No steps. Refused for want of memory alone.
    pub fn new(alloc: Global) -> Result<History, AllocError>
        ensures { IfOk result (λ history. history ≡ []) }
    {
        Ok(History {
            told: Trail::new(alloc)?,
        })
    }

    /// Does the steps of a script's run on a board that begin before a limit, and before the blank of the frame under way, none but the
    /// first where it is to stop, and adds each of them.
    pub fn go<S: Sink>(
        &mut self,
        board: &mut Board,
        script: &Script,
        limit: u64,
        stops: &Stops<'_>,
        sink: &mut S,
    ) -> Result<Option<Stop>, Refused>
        requires time { frame_ticks * total_frames script.now ≤ state.latest }
        requires short { total_frames script.now ≤ most_frames }
        requires early { board.old.state.now.time < frame_ticks * total_frames script.now }
        requires begun { board.old.state.now.time < limit }
        requires nothing { board.old.state.due ≡ state.nothing_due }
        ensures { GoesTold (by S.took S.refused)
            (record { board = board.old; script = script.now; gone = 0 }) limit stops.now
            (Some self.old) sink.old result
            (record { board = board.new; script = script.now; gone = 0 }) (Some self.new) sink.new }
    {
        go(board, script, 0, limit, stops, &mut self.told, sink)
    }

    /// Writes another history's steps over its own. Takes no memory.
    pub fn copy_from(&mut self, other: &History)
        ensures { self.new ≡ other.now }
    {
        self.told.copy_from(&other.told);
    }

    /// How many steps are told, 0 to 256.
    pub fn len(&self) -> usize
        ensures count { result ≡ length self.now }
        ensures within { result ≤ told_step_count }
    {
        self.told.len()
    }

    /// The step at a place, the oldest being 0.
    pub fn get(&self, place: usize) -> Option<PastStep>
        ensures { result ≡ slice_get self.now place }
    {
        self.told.get(place)
    }
}
