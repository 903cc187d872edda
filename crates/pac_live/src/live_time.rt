//! Time and single steps of a live board.

ghost use Rattle.std.specs.Prelude.{◌≡◌};
ghost use Rattle.pac_block.specs.Handed.{StopsEarly};
ghost use Rattle.pac_block.specs.Host as host;
ghost use Rattle.pac_live.specs.Live as live_specs;
ghost use Rattle.pac_live.specs.LiveTime as live_time;

use crate::live::PacLive;
use crate::live_calls::check_open;
use pac_block::ran::bytes_of;
use pac_block::time::{check, least_asked, run};
use pac_block::{HostFault, RanBytes};
use pac_board::{Board, Stop};

/// Where a stop was met, forgets of what was asked of the board all but what meets the stop again.
fn keep_stop(board: &mut Board, stop: &Option<Stop>)
    requires { StopsEarly stop.now board.old.state }
    ensures { board.new ≡ record board.old { state = host.state_left stop.now board.old.state } }
{
    if stop.is_some() {
        board.forget_asked(least_asked(board.time()));
    }
}

/// Lets so many microseconds go by on a board.
fn exec_board(
    board: &mut Board,
    microseconds: u32,
    samples: &mut [i16],
    ran: &mut RanBytes,
) -> Result<(), HostFault>
    ensures { live_time.Executing microseconds samples.old samples.new ran.old.bytes ran.new.bytes
        result board.old board.new }
{
    let fields = board.fields();
    check(&fields, microseconds, samples.len())?;
    let (told, stop) = run(board, microseconds, samples);
    ran.bytes = bytes_of(&told);
    keep_stop(board, &stop);
    Ok(())
}

/// Lets so many microseconds go by on a live board.
pub fn exec(
    live: &mut PacLive,
    microseconds: u32,
    samples: &mut [i16],
    ran: &mut RanBytes,
) -> Result<(), HostFault>
    ensures { live_specs.Lives ((samples.new ≡ samples.old) × (ran.new.bytes ≡ ran.old.bytes))
        (live_time.Executing microseconds samples.old samples.new ran.old.bytes ran.new.bytes)
        result live.old live.new }
{
    check_open(live)?;
    exec_board(live.board(), microseconds, samples, ran)
}
