//! Single steps of a live board.

ghost use Rattle.std.specs.Prelude.{◌≡◌, ◌≤◌, ◌<◌, ◌-◌, ◌++◌, drop, length};
ghost use Rattle.pac_board.specs.Calls.{next_of};
ghost use Rattle.pac_board.specs.Output.{sound_count, picture_count};
ghost use Rattle.pac_board.specs.State.{latest};
ghost use Rattle.pac_block.specs.Codes.{ran_of};
ghost use Rattle.pac_block.specs.Host as host;
ghost use Rattle.pac_live.specs.Live as live_specs;
ghost use Rattle.pac_live.specs.LiveStep as live_step;
ghost use Rattle.pac_live.specs.LiveSteps.{MayStep};

use crate::live::PacLive;
use crate::live_calls::check_open;
use pac_block::ran::{bytes_of, told};
use pac_block::sounds::Sounds;
use pac_block::{HostFault, PacRan, RanBytes};
use pac_board::{Board, LATEST};

/// Does one step of a board, with room for its samples: what is told of it.
fn one_step(board: &mut Board, samples: &mut [i16]) -> PacRan
    requires early { board.old.state.now.time < latest }
    requires room { 2 ≤ length samples.old }
    ensures board { board.new ≡ live_step.board_after_one board.old }
    ensures samples { samples.new ≡ host.samples_given (live_step.outputs_of_one board.old)
        ++ drop (sound_count (live_step.outputs_of_one board.old)) samples.old }
    ensures ran { result ≡ ran_of (board.new.state.now.time - board.old.state.now.time)
        (sound_count (live_step.outputs_of_one board.old))
        (picture_count (live_step.outputs_of_one board.old))
        (live_step.stop_of_next (next_of board.old)) }
{
    let begun = board.time();
    let mut sounds = Sounds {
        samples,
        taken: 0,
        pictures: 0,
    };
    match board.step_on(&mut sounds) {
        Ok(stop) => told(
            board.time().saturating_sub(begun),
            sounds.taken as u32,
            sounds.pictures,
            stop,
        ),
        // never, since there is time and room
        Err(_) => told(0, 0, 0, None),
    }
}

/// Whether a step may be done, with a buffer for so many samples.
fn check_step(time: u64, room: usize) -> Result<(), HostFault>
    ensures { MayStep time room result }
{
    if time >= LATEST {
        return Err(HostFault::TooLong);
    }
    if room < 2 {
        return Err(HostFault::NoRoom);
    }
    Ok(())
}

/// Does one step of a board.
fn step_board(board: &mut Board, samples: &mut [i16], ran: &mut RanBytes) -> Result<(), HostFault>
    ensures { live_step.Stepping samples.old samples.new ran.old.bytes ran.new.bytes
        result board.old board.new }
{
    check_step(board.time(), samples.len())?;
    let told = one_step(board, samples);
    ran.bytes = bytes_of(&told);
    Ok(())
}

/// Does one step of a live board.
pub fn step(live: &mut PacLive, samples: &mut [i16], ran: &mut RanBytes) -> Result<(), HostFault>
    ensures { live_specs.Lives ((samples.new ≡ samples.old) × (ran.new.bytes ≡ ran.old.bytes))
        (live_step.Stepping samples.old samples.new ran.old.bytes ran.new.bytes)
        result live.old live.new }
{
    check_open(live)?;
    step_board(live.board(), samples, ran)
}
