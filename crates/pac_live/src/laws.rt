//! Laws of the calls of a live board.

ghost use Rattle.pac_live.specs.CutLaws.{AnyCutsAreOneTime};
ghost use Rattle.pac_live.specs.LiveLaws.{LiveCallsAreOfOneBoard};

use pac_board::laws::time_can_be_cut;

/// However time on a live board is cut, by addresses, full buffers, steps and microseconds, it is the time of one call.
pub fn any_cuts_are_one_time()
    ensures { AnyCutsAreOneTime }
{
    time_can_be_cut();
}

/// The calls of a live board are the host calls of the one board.
pub fn live_calls_are_of_one_board()
    ensures { LiveCallsAreOfOneBoard }
{}
