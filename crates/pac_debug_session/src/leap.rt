//! Steps in one go, forwards; and the way to a checkpoint.

ghost use Rattle.std.specs.Prelude.{◌≡◌, ◌+◌, ◌*◌, ◌<◌, ◌≤◌, ◌^◌, false, nat_lt};
ghost use Rattle.pac_board_course.specs.SinksLaws.{by};
ghost use Rattle.pac_board_course.specs.State as state;
ghost use Rattle.pac_debug_session.specs.Breakpoints.{heeded_if};
ghost use Rattle.pac_debug_session.specs.Keeping.{kept_of, ring_after_index};
ghost use Rattle.pac_debug_session.specs.Motions.{oldest_index, checkpoint_steps};
ghost use Rattle.pac_debug_session.specs.Running.{is_late};
ghost use Rattle.pac_debug_session.specs.Strides.{IsLeapt, IsLeapLimit, Leaps, stop_unless};

use crate::checkpoints::Checkpoints;
use crate::history::History;
use crate::session::Session;
use crate::silent::Silent;
use pac_board_course::{Board, Refused, Sink, Stop};

/// The steps from one checkpoint to the next (this profile).
pub const CHECKPOINT_STEPS: u64 = 4096;

/// How many steps are so many that an idle loop is looked for: a checkpoint is come to by leaps that are ever shorter.
const LONG_LEAP: u64 = 1024;

/// The T-states of the shortest step.
const LEAST_TICKS: u64 = 4;

/// Takes a checkpoint where this index is that of the next one.
fn take_at(checkpoints: &mut Checkpoints, index: u64, board: &Board, history: &History)
    requires { checkpoints.old.taken + 1 < 2 ^ 64 }
    ensures { checkpoints.new ≡ ring_after_index index checkpoints.old
        (kept_of board.now history.now) }
{
    if index % CHECKPOINT_STEPS == 0 && index / CHECKPOINT_STEPS == checkpoints.taken() {
        checkpoints.take(board, history);
    }
}

/// A stop that was met where no step was done before it; else there is a step to look at first.
fn unless_moved(
    played: Result<Option<Stop>, Refused>,
    from: u64,
    to: u64,
) -> Result<Option<Stop>, Refused>
    ensures { result ≡ stop_unless (nat_lt from to) played }
{
    match played {
        Ok(_) if from < to => Ok(None),
        played => played,
    }
}

impl Session {
    /// A time before which no more than so many steps begin, none of them past the next index of a checkpoint.
    fn leap_limit(&self, most: u64) -> u64
        requires some { 1 ≤ most }
        ensures { IsLeapLimit self.now most result }
    {
        let most = most.min(CHECKPOINT_STEPS - self.board.steps() % CHECKPOINT_STEPS);
        if most >= LONG_LEAP
            && let Some(limit) = self.board.idle_limit(most)
        {
            return limit;
        }
        self.board.time() + LEAST_TICKS * most
    }

    /// Does steps in one go, so many at most, none past the next index of a checkpoint, none past
    /// the next blank, and none but the first at a breakpoint that is heeded, and offers what they
    /// give. Answers the stop that the first of them met, if it did.
    pub(crate) fn leap<S: Sink>(
        &mut self,
        most: u64,
        heeds: bool,
        sink: &mut S,
    ) -> Result<Option<Stop>, Refused>
        requires nothing { self.old.due ≡ state.nothing_due }
        requires early { is_late self.old.setting self.old.index ≡ false }
        requires some { 1 ≤ most }
        ensures { Leaps (by S.took S.refused) self.old (heeded_if heeds self.old.breakpoints) most
            sink.old result self.new sink.new }
    {
        let limit = self.leap_limit(most);
        let index = self.board.steps();
        take_at(&mut self.checkpoints, index, &self.board, &self.history);
        let stops = self.breakpoints.stops(heeds);
        let played = self
            .history
            .go(&mut self.board, &self.script, limit, &stops, sink);
        let now = self.board.steps();
        self.furthest = self.furthest.max(now);
        unless_moved(played, index, now)
    }

    /// Does steps in one go whose outputs were taken before; what they give goes nowhere.
    pub(crate) fn leap_again(&mut self, most: u64, heeds: bool) -> Option<Stop>
        requires nothing { self.old.due ≡ state.nothing_due }
        requires early { is_late self.old.setting self.old.index ≡ false }
        requires some { 1 ≤ most }
        ensures { IsLeapt self.old (heeded_if heeds self.old.breakpoints) most result self.new }
    {
        let Ok(found) = self.leap(most, heeds, &mut Silent) else {
            unreachable!();
        };
        found
    }

    /// Goes back to the checkpoint of a number, the first being 0.
    pub(crate) fn rewind(&mut self, number: u64)
        requires left { checkpoint_steps * number < self.old.furthest }
        requires kept { oldest_index self.old.furthest ≤ checkpoint_steps * number }
        ensures { self.new
            ≡ record self.old { index = checkpoint_steps * number; due = state.nothing_due } }
    {
        let kept = self.checkpoints.get(number);
        kept.put_back(&mut self.board, &mut self.history);
    }
}
