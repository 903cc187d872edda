//! The board that a run begins with: at power-on, or from a state file.

ghost use Rattle.std.specs.Prelude.{◌≡◌, ◌≤◌, option_copied};
ghost use Rattle.pac_board_course.specs.Boxed.{unboxed};
ghost use Rattle.pac_board_course.specs.Stretches.{most_frames};
ghost use Rattle.pac_run.specs.Start as start;
ghost use Rattle.pac_run.specs.Started.{StartsBoard, StartsWith, refusal_told};

use crate::fault::{RunFault, StateFault};
use pac_board_course::{
    Board, FRAME_MICROSECONDS, FRAME_TICKS, LATEST, MOST_ASKED, RomSet, SAMPLE_TICKS, Script,
};
use pac_state::laws::boards_have_states;
use pac_state::{LoadFault, load_with};
use std::alloc::Global;

/// What keeps a run of so many frames from beginning with this board.
fn start_fault(board: &Board, frames: u32) -> Option<StateFault>
    requires { frames ≤ most_frames }
    ensures { result ≡ start.start_fault board.now.state frames }
{
    let fields = board.fields();
    if fields.due.is_some() || fields.time % FRAME_TICKS >= SAMPLE_TICKS {
        return Some(StateFault::Midst);
    }
    let frames = u64::from(frames);
    if FRAME_TICKS * (fields.time / FRAME_TICKS + frames) > LATEST
        || fields.asked + FRAME_MICROSECONDS * frames > MOST_ASKED
    {
        return Some(StateFault::Limit);
    }
    None
}

/// A fault of a state file, or want of memory.
fn refusal(fault: LoadFault) -> RunFault
    ensures { result ≡ refusal_told fault }
{
    match fault {
        LoadFault::NoMemory => RunFault::NoMemory,
        fault => RunFault::State(StateFault::File(fault)),
    }
}

/// The board of a state file, where a run of this script can begin with it.
fn taken_up(
    alloc: Global,
    set: &RomSet,
    bytes: &[u8],
    script: &Script,
) -> Result<Box<Board>, RunFault>
    ensures { StartsWith set.now script.now bytes.now (unboxed result) }
{
    let board = match load_with(alloc, bytes, set) {
        Ok(board) => board,
        Err(fault) => return Err(refusal(fault)),
    };
    // (a law, with nothing to run: a board's state is in its ranges)
    boards_have_states(&board);
    match start_fault(&board, script.frames()) {
        None => Ok(board),
        Some(fault) => Err(RunFault::State(fault)),
    }
}

/// The board that a run of this script begins with.
pub fn first_board(
    alloc: Global,
    set: &RomSet,
    switches: u8,
    from: Option<&[u8]>,
    script: &Script,
) -> Result<Box<Board>, RunFault>
    ensures { StartsBoard set.now switches script.now (option_copied from.entry) (unboxed result) }
{
    // (says that a script is short, so that its run fits the board's time)
    script.frames();
    match from {
        Some(bytes) => taken_up(alloc, set, bytes, script),
        None => match Board::boxed(alloc, set, switches) {
            Ok(board) => Ok(board),
            Err(_) => Err(RunFault::NoMemory),
        },
    }
}
