//! What plays a run into a sink: a course by itself, or a session that does its commands first.

ghost use Rattle.std.specs.Prelude.{◌≡◌, ◌+◌, ◌/◌, ◌^◌, ◌<◌, ◌≤◌};
ghost use Rattle.pac_board_course.specs.SinksLaws.{by};
ghost use Rattle.pac_board_course.specs.Step.{frame_ticks};
ghost use Rattle.pac_board_course.specs.Stretches.{most_frames};
ghost use Rattle.pac_run.specs.Playing.{Playing, PlaysInto, course_playing, outcome_between};
ghost use Rattle.pac_run.specs.Playing.{played};

use pac_board_course::{Board, Course, FRAME_TICKS, Outcome, Sink, Stop};
use pac_debug::CommandFault;

/// Plays a run into a sink.
pub trait Plays {
    /// What it says of itself.
    ghost playing: { Playing Self };

    /// The frames of its run.
    fn total(&self) -> u32
        ensures count { result ≡ playing.frames self.now }
        ensures within { result ≤ most_frames };

    /// Plays it to its end, and answers what the run came to.
    fn play<S: Sink>(&mut self, sink: &mut S) -> Result<Outcome, CommandFault>
        requires ready { playing.ready self.old }
        requires short { playing.frames self.old ≤ most_frames }
        ensures { PlaysInto (by S.took S.refused) (played playing self.old self.new)
            sink.old result sink.new };
}

/// What a run came to that began at this time, after so many steps, and ended on this board.
fn outcome_since(time: u64, steps: u64, board: &Board, stop: Option<Stop>) -> Outcome
    requires { board.now.state.now.time / frame_ticks < time / frame_ticks + 2 ^ 32 }
    ensures { result ≡ outcome_between time steps board.now.state.now stop }
{
    Outcome {
        frames: (board.time() / FRAME_TICKS).saturating_sub(time / FRAME_TICKS) as u32,
        steps: board.steps().saturating_sub(steps),
        ticks: board.time().saturating_sub(time),
        stop,
    }
}

impl Plays for Course {
    ghost playing = { course_playing };

    /// The frames of its script.
    fn total(&self) -> u32 {
        self.frames()
    }

    /// Plays what is left of it.
    fn play<S: Sink>(&mut self, sink: &mut S) -> Result<Outcome, CommandFault> {
        let time = self.board().time();
        let steps = self.board().steps();
        match self.run_to_end(sink) {
            Ok(stop) => Ok(outcome_since(time, steps, self.board(), stop)),
            Err(_) => Err(CommandFault::Refused),
        }
    }
}
