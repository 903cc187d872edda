//! Command lines.

ghost use Rattle.std.specs.Prelude.{◌≡◌};
ghost use Rattle.pac_board.specs.SinksLaws.{by};
ghost use Rattle.pac_debug.specs.ObeyingLaws.{Commands};

use crate::obey::perform;
use crate::tell::tell;
use pac_board::Sink;
use pac_debug_session::Session;
use pac_debug_text::read_command;
use pac_out::counted::Counted;
use pac_out::{Out, WriteFault};
use thiserror::Error;

/// Why a command line wasn't answered.
#[derive(Clone, Copy, Debug, Error)]
pub enum CommandFault {
    /// The sink refused an output, and nothing is told: what was due stays due, with what comes after it; or the session stands
    /// after the step that gave the output.
    #[error("the sink refused an output")]
    Refused,
    /// The writer refused the text; the command is done.
    #[error("the writer refused the text: {0}")]
    Text(WriteFault),
}

/// Does what a command line asks, which stands here without its ending, and writes what is to be told of it. A line without words
/// does nothing; each other one, a refused one too, first offers to the sink what is due. A text that can't be written leaves the
/// command done. Takes no memory.
pub fn command<S: Sink, W: Out>(
    session: &mut Session,
    line: &[u8],
    sink: &mut S,
    text: &mut Counted<W>,
) -> Result<(), CommandFault>
    ensures { Commands (by S.took S.refused) W.took W.refused line.now
        (record { session = session.old; sink = sink.old; text = text.old }) result
        (record { session = session.new; sink = sink.new; text = text.new }) }
{
    let Some(asked) = read_command(line) else {
        return Ok(());
    };
    let Ok(answer) = perform(session, asked, sink) else {
        return Err(CommandFault::Refused);
    };
    match tell(session, answer, text) {
        Ok(()) => Ok(()),
        Err(fault) => Err(CommandFault::Text(fault)),
    }
}
