//! Laws of a host's calls on a block.

ghost use Rattle.pac_block.specs.Films.{AllFramesAreDone, HostsPlayTheFilm};
ghost use Rattle.pac_block.specs.HostLaws.{BlocksAreOneBoard, HostTimeCanBeCut, OneStepAtMost};
ghost use Rattle.pac_block.specs.HostLaws.{RoomIsBounded, StopsAreMetAgain};
ghost use Rattle.pac_block.specs.RoomLaws.{RoomIsEnough};

use pac_board::laws::time_can_be_cut;

/// Whatever calls are done one after another, the last block has the state of the one board of which the same calls were made.
pub fn blocks_are_one_board()
    ensures { BlocksAreOneBoard }
{}

/// Time that is cut is time at once.
pub fn host_time_can_be_cut()
    ensures { HostTimeCanBeCut }
{
    time_can_be_cut();
}

/// A stop that was met is met again by the next call for some time, at once and with nothing given.
pub fn stops_are_met_again()
    ensures { StopsAreMetAgain }
{}

/// The room that a call for some time needs is bounded by the microseconds that it is for: after power-on and each such call, stopped or not.
pub fn room_is_bounded()
    ensures { RoomIsBounded }
{}

/// After power-on, and whatever calls came since but those that take a state file, a buffer with that room is always large enough.
pub fn room_is_enough()
    ensures { RoomIsEnough }
{}

/// A host that plays a script from power-on, frame by frame, hears the samples and sees the pictures of the script's trace.
pub fn hosts_play_the_film()
    ensures { HostsPlayTheFilm }
{}

/// No call of a host that plays frame by frame fails, whether a stop is told or not.
pub fn frames_are_done()
    ensures { AllFramesAreDone }
{}

/// A call for one microsecond makes one step at most.
pub fn one_step_at_most()
    ensures { OneStepAtMost }
{}
