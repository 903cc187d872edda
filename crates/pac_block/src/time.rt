//! Time that goes by on a board, with its samples written into a buffer that has room for them.

ghost use Rattle.std.specs.Prelude.{◌≡◌, ◌≤◌, ◌<◌, ◌+◌, ◌++◌, ◌↔◌, drop, ℕ};
ghost use Rattle.pac_board.specs.Calls.{course, outputs_given, board_after_run};
ghost use Rattle.pac_board.specs.Fields.{state_of, AreBoardFields};
ghost use Rattle.pac_board.specs.Calls.{run_ticks};
ghost use Rattle.pac_board.specs.Output.{sound_count, picture_count};
ghost use Rattle.pac_board.specs.State.{most_asked, latest_end, time_of};
ghost use Rattle.pac_block.specs.Codes.{ran_of};
ghost use Rattle.pac_block.specs.Handed.{MayRun};
ghost use Rattle.pac_block.specs.Host as host;

use crate::codes::HostFault;
use crate::ran::{PacRan, told};
use crate::sounds::Sounds;
use pac_board::{Board, Fields, MOST_ASKED, Stop};

/// The most samples that so many microseconds can give.
fn most_samples(fields: &Fields, microseconds: u32) -> u64
    requires in_range { AreBoardFields fields.now }
    requires asked { fields.now.asked + microseconds ≤ most_asked }
    ensures { result ≡ host.most_samples (state_of fields.now) microseconds }
{
    let limit = 384 * (fields.asked + u64::from(microseconds)) / 125;
    let due = u64::from(fields.due.sample.is_some());
    if fields.time < limit {
        due + ((limit + 22) / 32 - fields.time / 32)
    } else {
        due
    }
}

/// Whether a call for so many microseconds may begin, with a buffer for so many samples.
pub fn check(fields: &Fields, microseconds: u32, room: usize) -> Result<(), HostFault>
    requires in_range { AreBoardFields fields.now }
    ensures { MayRun (state_of fields.now) microseconds room result }
{
    if fields.asked + u64::from(microseconds) > MOST_ASKED {
        return Err(HostFault::TooLong);
    }
    if (room as u64).min(u64::from(u32::MAX)) < most_samples(fields, microseconds) {
        return Err(HostFault::NoRoom);
    }
    Ok(())
}

/// The least microseconds that, asked in all, leave time for a step at this time.
pub fn least_asked(time: u64) -> u64
    requires { time ≤ latest_end }
    ensures value { result ≡ host.least_asked time }
    ensures least { (asked : ℕ) → (time < time_of asked) ↔ (result ≤ asked) }
{
    (125 * (time + 1) + 383) / 384
}

/// What was asked in all, once a call for some time is done.
pub(crate) fn asked_left(stop: &Option<Stop>, asked: u64, time: u64) -> u64
    requires { time ≤ latest_end }
    ensures { result ≡ host.asked_left stop.now asked time }
{
    if stop.is_some() {
        least_asked(time)
    } else {
        asked
    }
}

/// Lets time go by on a board, with room for all samples: what is told of it, and the stop, if one was met.
pub fn run(machine: &mut Board, microseconds: u32, samples: &mut [i16]) -> (PacRan, Option<Stop>)
    requires within { machine.old.state.asked + microseconds ≤ most_asked }
    requires room { host.most_samples machine.old.state microseconds ≤ host.room_of samples.old }
    ensures board { machine.new ≡ board_after_run machine.old microseconds }
    ensures samples { samples.new ≡ host.samples_given (outputs_given machine.old microseconds)
        ++ drop (sound_count (outputs_given machine.old microseconds)) samples.old }
    ensures ran { result.0 ≡ ran_of (run_ticks machine.old microseconds)
        (sound_count (outputs_given machine.old microseconds))
        (picture_count (outputs_given machine.old microseconds))
        (course machine.old microseconds).stop }
    ensures stop { result.1 ≡ (course machine.old microseconds).stop }
{
    let mut sounds = Sounds {
        samples,
        taken: 0,
        pictures: 0,
    };
    match machine.exec(microseconds, &mut sounds) {
        Ok(ran) => (
            told(ran.ticks, sounds.taken as u32, sounds.pictures, ran.stop),
            ran.stop,
        ),
        // never, since there is room for all
        Err(_) => (told(0, 0, 0, None), None),
    }
}
