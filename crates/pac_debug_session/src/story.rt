//! A session's story: a command begins; the session goes forwards, or back; and its run comes to the end.

ghost use Rattle.std.specs.Prelude.{◌≡◌, ◌≤◌, ◌*◌, false};
ghost use Rattle.pac_board_course.specs.SinksLaws.{by};
ghost use Rattle.pac_board_course.specs.State as state;
ghost use Rattle.pac_debug_session.specs.Motions.{has_met, oldest_index};
ghost use Rattle.pac_debug_session.specs.MotionsProofs.{FinishesRun, GoesBack, PlaysOn, Travels};
ghost use Rattle.pac_debug_session.specs.MotionsProofs.{replayed_to};
ghost use Rattle.pac_debug_session.specs.Running.{is_late};
ghost use Rattle.pac_debug_session.specs.SessionLaws.{session_at_command};
ghost use Rattle.pac_debug_session.specs.SessionProofs.{SessionOffers};
ghost use Rattle.pac_debug_session.specs.Strides.{Strides};

use crate::leap::CHECKPOINT_STEPS;
use crate::motion::{Motion, MotionEnd};
use crate::place::outcome_on;
use crate::session::Session;
use pac_board_course::{Outcome, Refused, Sink, Stop};

/// The checkpoints from the oldest one to the one before the furthest index, the last not counted
/// (this profile).
const OLDER: u64 = 15;

impl Session {
    /// Begins a command: offers what is due. What the sink refuses stays due, with what comes after
    /// it.
    pub fn offer<S: Sink>(&mut self, sink: &mut S) -> Result<(), Refused>
        ensures { SessionOffers (by S.took S.refused) (session_at_command self.old) sink.old result
            self.new sink.new }
    {
        self.replayed = 0;
        self.board.offer(sink)
    }

    /// Goes forwards to where a motion rests, and says why it rests there. What the steps past the
    /// furthest index give is offered; a refusal ends the motion after the step that gave the
    /// refused output.
    pub fn travel<S: Sink>(&mut self, motion: Motion, sink: &mut S) -> Result<MotionEnd, Refused>
        requires nothing { self.old.due ≡ state.nothing_due }
        ensures { Travels (by S.took S.refused) self.old motion sink.old result self.new sink.new }
    {
        self.facts();
        let from = self.index();
        let blanks = self.blanks();
        'onwards: loop {
            if self.is_late() {
                return Ok(MotionEnd::AtEnd);
            }
            if self.has_met(motion, from, blanks) {
                return Ok(motion.word(self.breaks()));
            }
            if let Some(stop) = self.stride(motion, from, sink)? {
                return Ok(MotionEnd::AtStop(stop));
            }
        }
    }

    /// Does steps in one go for a motion that began at an index, and answers the stop that the first
    /// of them met, if it did. What they give is offered unless it was offered before.
    fn stride<S: Sink>(
        &mut self,
        motion: Motion,
        from: u64,
        sink: &mut S,
    ) -> Result<Option<Stop>, Refused>
        requires nothing { self.old.due ≡ state.nothing_due }
        requires early { is_late self.old.setting self.old.index ≡ false }
        requires since { from ≤ self.old.index }
        requires unmet { has_met self.old motion from self.old.index ≡ false }
        ensures { Strides (by S.took S.refused) self.old motion from sink.old result self.new
            sink.new }
    {
        self.facts();
        let index = self.index();
        let most = motion.longest_stride(index - from);
        let ahead = self.furthest() - index;
        if ahead == 0 {
            return self.leap(most, motion.heeds(), sink);
        }
        Ok(self.leap_again(most.min(ahead), motion.heeds()))
    }

    /// The oldest index to which the session goes back.
    pub fn oldest(&self) -> u64
        ensures { result ≡ oldest_index self.now.furthest }
    {
        CHECKPOINT_STEPS * (self.furthest() / CHECKPOINT_STEPS).saturating_sub(OLDER)
    }

    /// Goes back by so many steps, one at least. Refused, with the oldest index, where that is older
    /// than the oldest one.
    pub fn back(&mut self, count: u32) -> Result<(), u64>
        requires count { 1 ≤ count }
        requires nothing { self.old.due ≡ state.nothing_due }
        ensures { GoesBack self.old count result self.new }
    {
        self.facts();
        let oldest = self.oldest();
        let index = self.index();
        let count = u64::from(count);
        if index < count || index - count < oldest {
            return Err(oldest);
        }
        let index = index - count;
        self.rewind(index / CHECKPOINT_STEPS);
        self.replay(index);
        self.replayed = (index % CHECKPOINT_STEPS) as u32;
        Ok(())
    }

    /// Does the steps up to an index again.
    fn replay(&mut self, index: u64)
        requires before { self.old.index ≤ index }
        requires seen { index ≤ self.old.furthest }
        requires nothing { self.old.due ≡ state.nothing_due }
        ensures { self.new ≡ replayed_to self.old index }
    {
        self.facts();
        'again: while self.index() < index {
            self.leap_again(index - self.index(), false);
        }
    }

    /// Offers what is due, goes to the end of the run, and says what the run came to.
    pub fn finish<S: Sink>(&mut self, sink: &mut S) -> Result<Outcome, Refused>
        ensures { FinishesRun (by S.took S.refused) self.old sink.old result self.new sink.new }
    {
        self.offer(sink)?;
        let ending = self.travel(Motion::ToEnd, sink)?;
        self.facts();
        Ok(outcome_on(self.board(), ending.stop()))
    }

    /// `finish` for a session that is needed no more, at the pace of a run without one: from the
    /// furthest index on nothing is kept to go back to.
    pub fn play_on<S: Sink>(mut self, sink: &mut S) -> Result<Outcome, Refused>
        ensures { PlaysOn (by S.took S.refused) self sink.old result sink.new }
    {
        self.facts();
        self.offer(sink)?;
        let furthest = self.furthest();
        self.replay(furthest);
        let mut course = self.into_course();
        let stop = course.run_to_end(sink)?;
        Ok(outcome_on(course.board(), stop))
    }
}
