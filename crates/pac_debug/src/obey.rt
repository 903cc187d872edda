//! Commands, done on a session.

ghost use Rattle.std.specs.Prelude.{◌≡◌, ◌≤◌, IfOk, IfSome, None, Some, Ok, Err};
ghost use Rattle.pac_board.specs.SinksLaws.{by};
ghost use Rattle.pac_board.specs.State as state;
ghost use Rattle.pac_debug_text.specs.CommandsProofs.{IsCommandInRange};
ghost use Rattle.pac_debug_text.specs.Slots.{slot_index};
ghost use Rattle.pac_debug_session.specs.Session.{has_breakpoint};
ghost use Rattle.pac_debug.specs.Obeying.{AnswersBack, AnswersReturn, SetsBreakpoint, Stays};
ghost use Rattle.pac_debug.specs.Obeying.{kept_at, motion_of};
ghost use Rattle.pac_debug.specs.ObeyingProofs.{Obeys, DoesCommand, Moves};

use crate::answer::{Answer, ending_of};
use pac_board::{Refused, Sink};
use pac_debug_session::{Motion, Session};
use pac_debug_text::{Command, Ending, NoCommand, Refusal, Slot};

/// Goes back by so many steps.
fn go_back(session: &mut Session, count: u32) -> Answer
    requires count { 1 ≤ count }
    requires nothing { session.old.due ≡ state.nothing_due }
    ensures { AnswersBack session.old count result session.new }
{
    match session.back(count) {
        Ok(()) => Answer::Moved(Ending::Back),
        Err(oldest) => Answer::Refused(Refusal::TooFarBack(oldest)),
    }
}

/// Goes to what a slot keeps.
fn return_to(session: &mut Session, slot: Slot) -> Answer
    requires nothing { session.old.due ≡ state.nothing_due }
    ensures { AnswersReturn session.old (kept_at session.old (slot_index slot)) result session.new }
{
    match session.go_to(slot.index()) {
        Ok(()) => Answer::Moved(Ending::Return),
        Err(_) => Answer::Refused(Refusal::EmptySlot),
    }
}

/// Sets a breakpoint.
fn set_breakpoint(session: &mut Session, address: u16) -> Answer
    ensures { SetsBreakpoint session.old address
        (has_breakpoint session.old address) result session.new }
{
    match session.break_at(address) {
        Ok(()) => Answer::Done,
        Err(_) => Answer::Refused(Refusal::NoRoom),
    }
}

/// The motion of a command that moves on.
fn motion_of(command: Command) -> Option<Motion>
    ensures { result ≡ motion_of command }
{
    match command {
        Command::Step(count) => Some(Motion::Steps(count)),
        Command::Continue => Some(Motion::Continue),
        Command::Frames(count) => Some(Motion::Frames(count)),
        _ => None,
    }
}

/// Does a command that doesn't move on.
fn stay(session: &mut Session, command: Command) -> Answer
    requires nothing { session.old.due ≡ state.nothing_due }
    requires range { IsCommandInRange command }
    requires motion { motion_of command ≡ None }
    ensures { Stays session.old command result session.new }
{
    match command {
        Command::Back(count) => go_back(session, count),
        Command::Return(slot) => return_to(session, slot),
        Command::Keep(slot) => {
            session.keep(slot.index());
            Answer::Done
        }
        Command::Break(address) => set_breakpoint(session, address),
        Command::Unbreak(address) => {
            session.unbreak(address);
            Answer::Done
        }
        Command::Regs => Answer::Registers,
        Command::Mem { at, count } => Answer::Bytes { at, count },
        Command::Dis { at, count } => Answer::Instructions { at, count },
        Command::History(count) => Answer::Steps(count),
        Command::Step(_) | Command::Continue | Command::Frames(_) => unreachable!(),
    }
}

/// Moves on.
fn move_on<S: Sink>(session: &mut Session, motion: Motion, sink: &mut S) -> Result<Answer, Refused>
    requires nothing { session.old.due ≡ state.nothing_due }
    ensures { Moves (by S.took S.refused) session.old motion sink.old result session.new sink.new }
{
    let rest = session.travel(motion, sink)?;
    Ok(Answer::Moved(ending_of(rest)))
}

/// Does what a line with words asks, with nothing due.
fn obey<S: Sink>(
    session: &mut Session,
    asked: Result<Command, NoCommand>,
    sink: &mut S,
) -> Result<Answer, Refused>
    requires nothing { session.old.due ≡ state.nothing_due }
    requires range { IfOk asked IsCommandInRange }
    ensures { Obeys (by S.took S.refused) session.old asked sink.old result session.new sink.new }
{
    let Ok(command) = asked else {
        return Ok(Answer::Refused(Refusal::NoCommand));
    };
    match motion_of(command) {
        Some(motion) => move_on(session, motion, sink),
        None => Ok(stay(session, command)),
    }
}

/// Offers what is due, and does then what a line with words asks.
pub(crate) fn perform<S: Sink>(
    session: &mut Session,
    asked: Result<Command, NoCommand>,
    sink: &mut S,
) -> Result<Answer, Refused>
    requires range { IfOk asked IsCommandInRange }
    ensures { DoesCommand (by S.took S.refused) session.old asked sink.old
        result session.new sink.new }
{
    session.offer(sink)?;
    obey(session, asked, sink)
}
