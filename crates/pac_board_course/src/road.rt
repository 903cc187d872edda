//! The way forward of a run: steps in one go, each of which is told.

ghost use Rattle.std.specs.Prelude.{◌≡◌, ◌<◌, ◌≤◌, ◌+◌, ◌*◌};
ghost use Rattle.pac_board.specs.SinksLaws.{by};
ghost use Rattle.pac_board.specs.State as state;
ghost use Rattle.pac_board.specs.Step.{frame_ticks};
ghost use Rattle.pac_inputs.specs.Stretches.{most_frames, total_frames};
ghost use Rattle.pac_board_course.specs.Frames.{GoesTold};

use crate::course::hold;
use pac_board::{Board, FRAME_TICKS, Refused, Sink, Stop, Stops, Trail, Unwatched};
use pac_inputs::Script;

/// Does the steps of a script's run on a board that begin before a limit, and before the blank of the frame under way, after which the
/// next frame's inputs are held; or up to a stop, to a refusal of the sink, or before a step that begins where it is to stop, unless it is the
/// first. So many frames had gone by before the script's first one. Each step is told.
pub fn go<S: Sink>(
    board: &mut Board,
    script: &Script,
    gone: u64,
    limit: u64,
    stops: &Stops<'_>,
    told: &mut Trail,
    sink: &mut S,
) -> Result<Option<Stop>, Refused>
    requires time { frame_ticks * (gone + total_frames script.now) ≤ state.latest }
    requires short { total_frames script.now ≤ most_frames }
    requires early { board.old.state.now.time < frame_ticks * (gone + total_frames script.now) }
    requires begun { board.old.state.now.time < limit }
    requires nothing { board.old.state.due ≡ state.nothing_due }
    ensures { GoesTold (by S.took S.refused)
        (record { board = board.old; script = script.now; gone = gone }) limit stops.now told.old
        sink.old result
        (record { board = board.new; script = script.now; gone = gone }) told.new sink.new }
{
    let frame = board.time() / FRAME_TICKS + 1;
    let blank = FRAME_TICKS * frame;
    let played = board.go(limit.min(blank), stops, told, &mut Unwatched, sink);
    if board.time() >= blank {
        hold(board, script.held((frame + 1).saturating_sub(gone) as u32));
    }
    played
}
