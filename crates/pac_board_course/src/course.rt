//! A course: a board, and the script that is played on it.

ghost use Rattle.std.specs.Prelude.{◌≡◌, ◌<◌, ◌≤◌, ◌+◌, ◌*◌};
ghost use Rattle.pac_board.specs.Inputs.{mask};
ghost use Rattle.pac_board.specs.SinksLaws.{by};
ghost use Rattle.pac_board.specs.State as state;
ghost use Rattle.pac_board.specs.Step.{frame_ticks};
ghost use Rattle.pac_inputs.specs.Stretches.{most_frames, total_frames};
ghost use Rattle.pac_board_course.specs.CourseProofs.{FitsTime, FitsAsked};
ghost use Rattle.pac_board_course.specs.CourseProofs.{board_asked, frames_begun};
ghost use Rattle.pac_board_course.specs.Course.{begun, end_of};
ghost use Rattle.pac_board_course.specs.Frames.{PlaysInFrame};
ghost use Rattle.pac_board_course.specs.Plays.{RunsToEnd};

use pac_board::{Board, FRAME_TICKS, Flags, Inputs, Refused, Sink, Stop};
use pac_inputs::Script;
use std::marker::Model;

/// A script that is played on a board. Frames are counted from power-on, whenever the script's first one begins. Clauses see board and
/// script, and how many frames had gone by before.
pub struct Course {
    board: Box<Board>,
    script: Script,
    gone: u64,
}

impl Drop for Course {
    /// Drops each part.
    fn drop(self) {
        let Course {
            board: _,
            script: _,
            gone: _,
        } = self;
    }
}

impl Model for Course {
    ghost use Rattle.pac_board_course.specs.Course.{CourseValue};
    ghost use Rattle.pac_board_course.specs.Frames.{IsCourse};

    ghost Value = { CourseValue };

    ghost view = { λ course. record { board = course.board.value; script = course.script; gone = course.gone } };

    ghost invariant = { λ course. IsCourse (record { board = course.board.value; script = course.script; gone = course.gone }) };
}

/// The microseconds of a frame: 16,500 of them are its 50,688 T-states.
pub const FRAME_MICROSECONDS: u64 = 16_500;

/// Holds these inputs, and no others.
pub fn hold(board: &mut Board, inputs: Inputs)
    ensures { board.new ≡ state.board_with_inputs board.old (mask inputs) }
{
    board.input_clear(Inputs::from_bits_retain(0xFFFF));
    board.input_set(inputs);
}

impl Course {
    /// The script is played from the board's frame on: the inputs of its first frame are held.
    pub fn new(mut board: Box<Board>, script: Script) -> Course
        requires time { FitsTime board.value script }
        requires asked { FitsAsked board.value script }
        ensures { result ≡ begun board.value script }
    {
        let gone = board.time() / FRAME_TICKS;
        hold(&mut board, script.held(1));
        Course::taken_up(board, script, gone)
    }

    /// A script that is taken up in the midst of its run: the inputs of the frame under way are held, and so many frames had gone by before
    /// the script's first one.
    pub fn taken_up(board: Box<Board>, script: Script, gone: u64) -> Course
        requires time { frame_ticks * (gone + total_frames script) ≤ state.latest }
        requires short { total_frames script ≤ most_frames }
        requires asked { FitsAsked board.value script }
        ensures { result ≡ record { board = board.value; script = script; gone = gone } }
    {
        Course {
            board,
            script,
            gone,
        }
    }

    /// The board as it is now.
    #[inline]
    pub fn board(&self) -> &Board
        ensures { result.now ≡ self.now.board }
    {
        &self.board
    }

    /// The frames of the script, 0 to 36,000.
    #[inline]
    pub fn frames(&self) -> u32
        ensures count { result ≡ total_frames self.now.script }
        ensures within { result ≤ most_frames }
    {
        self.script.frames()
    }

    /// The time at which the run is over, in T-states.
    #[inline]
    pub fn end(&self) -> u64
        ensures time { result ≡ end_of self.now }
        ensures bound { end_of self.now ≤ state.latest }
    {
        FRAME_TICKS * (self.gone + u64::from(self.frames()))
    }

    /// The frames of the script that have begun, the one under way too.
    fn frames_begun(&self) -> u64
        ensures { result ≡ frames_begun self.now }
    {
        let begun = (self.board.time() / FRAME_TICKS + 1).saturating_sub(self.gone);
        begun.min(u64::from(self.frames()))
    }

    /// The board, where the course left it. The microseconds of each frame that has begun were asked of it then, as where `exec` is
    /// called for each.
    pub fn into_board(self) -> Box<Board>
        ensures { result.value ≡ board_asked self }
    {
        let asked = FRAME_MICROSECONDS * self.frames_begun();
        let Course {
            mut board,
            script: _,
            gone: _,
        } = self;
        board.count_asked(asked);
        board
    }

    /// Plays the frame under way to its blank, after which the next one's inputs are held, or up to a stop, or to a refusal of the sink.
    fn play_frame<S: Sink>(&mut self, sink: &mut S) -> Result<Option<Stop>, Refused>
        requires nothing { self.old.board.state.due ≡ state.nothing_due }
        requires early { self.old.board.state.now.time < end_of self.old }
        ensures { PlaysInFrame (by S.took S.refused) self.old sink.old result self.new sink.new }
    {
        let frame = self.board.time() / FRAME_TICKS + 1;
        let played = self.board.go_to(FRAME_TICKS * frame, sink);
        if self.board.time() >= FRAME_TICKS * frame {
            let next = (frame + 1).saturating_sub(self.gone);
            hold(&mut self.board, self.script.held(next as u32));
        }
        played
    }

    /// Plays what is left of the run, to its end or to a stop, or to a refusal of the sink, after which it can be taken up again.
    pub fn run_to_end<S: Sink>(&mut self, sink: &mut S) -> Result<Option<Stop>, Refused>
        requires nothing { self.old.board.state.due ≡ state.nothing_due }
        ensures { RunsToEnd (by S.took S.refused) self.old sink.old result self.new sink.new }
    {
        // (its bound, that of a u64, says that a count of no step is the count itself)
        self.board.made();
        'frames: while self.board.time() < self.end() {
            let stop = self.play_frame(sink)?;
            if stop.is_some() {
                return Ok(stop);
            }
        }
        Ok(None)
    }
}
