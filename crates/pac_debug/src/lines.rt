//! Command texts.

ghost use Rattle.std.specs.Str.Lines.{lines};
ghost use Rattle.pac_board.specs.SinksLaws.{by};
ghost use Rattle.pac_debug.specs.ObeyingLaws.{ObeysLines};
ghost use Rattle.pac_debug.specs.WatchedProofs.{LinesGive};

use crate::line::{CommandFault, command};
use pac_board::Sink;
use pac_debug_session::Session;
use pac_debug_text::first_line;
use pac_out::Out;
use pac_out::counted::Counted;

/// Does what the lines of a text ask, one after another, up to the first one that isn't answered. A line ends at a line feed, with
/// one carriage return before it dropped, or at the end of the text. Whatever they ask, each output of the run up to the furthest
/// index goes to the sink once, in order, or is still due. Takes no memory.
pub fn commands<S: Sink, W: Out>(
    session: &mut Session,
    bytes: &[u8],
    sink: &mut S,
    text: &mut Counted<W>,
) -> Result<(), CommandFault>
    ensures obeys { ObeysLines (by S.took S.refused) W.took W.refused (lines bytes.now)
        (record { session = session.old; sink = sink.old; text = text.old }) result
        (record { session = session.new; sink = sink.new; text = text.new }) }
    ensures given { LinesGive (by S.took S.refused) session.old sink.old
        result session.new sink.new }
{
    let mut rest = bytes;
    while let Some((line, after)) = first_line(rest) {
        command(session, line, sink, text)?;
        rest = after;
    }
    Ok(())
}
