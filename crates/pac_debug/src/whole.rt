//! Whole sessions.

ghost use Rattle.std.specs.Str.Lines.{lines};
ghost use Rattle.pac_board.specs.SinksLaws.{by};
ghost use Rattle.pac_debug.specs.WatchedProofs.{WatchesThrough};

use crate::line::CommandFault;
use crate::lines::commands;
use pac_board::Sink;
use pac_debug_session::{Outcome, Session};
use pac_out::Out;
use pac_out::counted::Counted;

/// Does what the lines of a text ask, one after another, goes on then to the end of the run, and says what the run came to. Whatever
/// the lines ask, the sink is given each output of the run that it wasn't given before, once and in order. Ends at the first line
/// that isn't answered, and where the sink refuses an output. Takes no memory. The session is used up: what the lines leave of the run
/// is played as a course, at the pace of a run without a session.
pub fn watch<S: Sink, W: Out>(
    mut session: Session,
    bytes: &[u8],
    sink: &mut S,
    text: &mut Counted<W>,
) -> Result<Outcome, CommandFault>
    ensures { WatchesThrough (by S.took S.refused) W.took W.refused (lines bytes.now)
        (record { session = session; sink = sink.old; text = text.old }) result sink.new text.new }
{
    commands(&mut session, bytes, sink, text)?;
    match session.play_on(sink) {
        Ok(outcome) => Ok(outcome),
        Err(_) => Err(CommandFault::Refused),
    }
}
