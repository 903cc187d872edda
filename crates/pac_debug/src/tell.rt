//! The texts of answers.

ghost use Rattle.std.specs.Prelude.{◌≡◌};
ghost use Rattle.pac_out.specs.CountedProofs.{Puts};
ghost use Rattle.pac_debug_text.specs.Texts.{history_text};
ghost use Rattle.pac_debug.specs.Answers.{answer_text, last_steps};

use crate::answer::Answer;
use crate::past::last_steps;
use crate::seen::{Reader, latches_of, place_of};
use pac_debug_session::Session;
use pac_debug_text::{
    put_history, put_instructions, put_memory, put_ok, put_place, put_refusal, put_registers,
};
use pac_out::counted::Counted;
use pac_out::{Out, WriteFault};

/// Writes the last steps of a session, so many at most.
fn tell_steps<W: Out>(
    session: &Session,
    count: u16,
    text: &mut Counted<W>,
) -> Result<(), WriteFault>
    ensures { Puts W.took W.refused text.old (history_text (last_steps session.now count)) result
        text.new }
{
    let (steps, shown) = last_steps(session, count);
    put_history(text, &steps[..shown])
}

/// Writes the text of an answer, of the session as it is.
pub(crate) fn tell<W: Out>(
    session: &Session,
    answer: Answer,
    text: &mut Counted<W>,
) -> Result<(), WriteFault>
    ensures { Puts W.took W.refused text.old (answer_text session.now answer) result text.new }
{
    let board = session.board();
    match answer {
        Answer::Done => put_ok(text),
        Answer::Refused(why) => put_refusal(text, why),
        Answer::Moved(ending) => put_place(text, ending, place_of(session)),
        Answer::Registers => put_registers(text, &board.regs(), latches_of(session)),
        Answer::Bytes { at, count } => put_memory(text, &Reader { board }, at, count),
        Answer::Instructions { at, count } => put_instructions(text, &Reader { board }, at, count),
        Answer::Steps(count) => tell_steps(session, count, text),
    }
}
