//! The commands of the debugger, and how a line tells one.

ghost use Rattle.std.specs.Prelude.{◌≡◌, option_map, option_and_then, IfSome, IfOk};
ghost use Rattle.pac_lex.specs.Words.{words_of_line};
ghost use Rattle.pac_debug_text.specs.Numbers as number;
ghost use Rattle.pac_debug_text.specs.Commands as spec;
ghost use Rattle.pac_debug_text.specs.CommandsProofs as commands_proofs;

use crate::numbers::{address_of, number_within};
use crate::slot::Slot;
use crate::verb::{Verb, verb_of};
use pac_lex::next_word;
use thiserror::Error;

/// A command of a session. Its numbers are in the ranges that are told here.
#[derive(Clone, Copy, PartialEq, Eq)]
pub enum Command {
    /// `step n`: so many steps, 1 to 1,000,000.
    Step(u32),
    /// `continue`: on to a breakpoint, a stop or the end.
    Continue,
    /// `frames n`: like `continue`, or until so many more vertical blanks have come, 1 to 36,000.
    Frames(u32),
    /// `back n`: so many steps back, 1 to 1,000,000.
    Back(u32),
    /// `return k`: to what a slot keeps.
    Return(Slot),
    /// `keep k`: keeps the state in a slot.
    Keep(Slot),
    /// `break a`: a breakpoint at an address.
    Break(u16),
    /// `unbreak a`: the breakpoint at an address is taken away.
    Unbreak(u16),
    /// `regs`: the registers.
    Regs,
    /// `mem a n`: bytes of memory.
    Mem {
        /// The address of the first.
        at: u16,
        /// How many, 1 to 256.
        count: u16,
    },
    /// `dis a n`: instructions of memory.
    Dis {
        /// The address of the first.
        at: u16,
        /// How many, 1 to 256.
        count: u16,
    },
    /// `history n`: the last steps, so many at most, 1 to 256.
    History(u16),
}

/// A line with words is no command of the table; it is printed as `refused G1`.
#[derive(Clone, Copy, Debug, PartialEq, Eq, Error)]
#[error("G1")]
pub struct NoCommand;

/// The most steps of a command.
const MOST_STEPS: u32 = 1_000_000;
/// The most frames of a command.
const MOST_FRAMES: u32 = 36_000;
/// The most bytes, instructions or lines of a command.
const MOST_SHOWN: u32 = 256;

/// The only word of a line, if it has one and no more.
fn only_word(line: &[u8]) -> Option<&[u8]>
    ensures { option_map (λ word. word.now) result
        ≡ spec.single_word (λ word. Some word) (words_of_line line.now) }
{
    let (word, rest) = next_word(line)?;
    if next_word(rest).is_some() {
        return None;
    }
    Some(word)
}

/// A command without operands.
fn alone(line: &[u8], command: Command) -> Option<Command>
    ensures { result ≡ spec.without_words command (words_of_line line.now) }
{
    if next_word(line).is_some() {
        return None;
    }
    Some(command)
}

/// A number from 1 to the most, as the only word of a line.
fn only_number(line: &[u8], most: u32) -> Option<u32>
    ensures exact { result ≡ spec.single_word (number.number_within most) (words_of_line line.now) }
    ensures within { IfSome result (commands_proofs.IsWithin most) }
{
    number_within(only_word(line)?, most)
}

/// A number from 1 to 256, as the only word of a line.
fn only_count(line: &[u8]) -> Option<u16>
    ensures exact { result ≡ spec.single_word (number.number_within spec.most_shown)
        (words_of_line line.now) }
    ensures within { IfSome result (commands_proofs.IsWithin spec.most_shown) }
{
    Some(only_number(line, MOST_SHOWN)? as u16)
}

/// An address, as the only word of a line.
fn only_address(line: &[u8]) -> Option<u16>
    ensures { result ≡ spec.single_word number.address_of (words_of_line line.now) }
{
    address_of(only_word(line)?)
}

/// A slot, as the only word of a line.
fn only_slot(line: &[u8]) -> Option<Slot>
    ensures { result ≡ spec.single_word spec.slot_of (words_of_line line.now) }
{
    match only_number(line, 4)? {
        1 => Some(Slot::First),
        2 => Some(Slot::Second),
        3 => Some(Slot::Third),
        _ => Some(Slot::Fourth),
    }
}

/// An address and a count from 1 to 256, as the only words of a line.
fn stretch(line: &[u8]) -> Option<(u16, u16)>
    ensures exact { result ≡ spec.address_and_count (words_of_line line.now) }
    ensures within { IfSome result (λ found. commands_proofs.IsWithin spec.most_shown found.1) }
{
    let (first, rest) = next_word(line)?;
    let at = address_of(first)?;
    let count = only_count(rest)?;
    Some((at, count))
}

/// The command of a verb and what follows its name.
fn command_named(verb: Verb, line: &[u8]) -> Option<Command>
    ensures exact { result ≡ spec.command_named verb (words_of_line line.now) }
    ensures ranges { IfSome result commands_proofs.IsCommandInRange }
{
    Some(match verb {
        Verb::Step => Command::Step(only_number(line, MOST_STEPS)?),
        Verb::Continue => alone(line, Command::Continue)?,
        Verb::Frames => Command::Frames(only_number(line, MOST_FRAMES)?),
        Verb::Back => Command::Back(only_number(line, MOST_STEPS)?),
        Verb::Return => Command::Return(only_slot(line)?),
        Verb::Keep => Command::Keep(only_slot(line)?),
        Verb::Break => Command::Break(only_address(line)?),
        Verb::Unbreak => Command::Unbreak(only_address(line)?),
        Verb::Regs => alone(line, Command::Regs)?,
        Verb::Mem => {
            let (at, count) = stretch(line)?;
            Command::Mem { at, count }
        }
        Verb::Dis => {
            let (at, count) = stretch(line)?;
            Command::Dis { at, count }
        }
        Verb::History => Command::History(only_count(line)?),
    })
}

/// The command that a line tells, which stands here without its ending: `None` for a line without words, which is
/// skipped, and `NoCommand` for one that is no command of the table. Words are parted by blanks and tabs, and are in
/// lower case; addresses have four hexadecimal digits in either case; numbers are decimal, with leading zeros or
/// without. Any bytes may stand there. It takes no memory.
#[tactic(auto, unfolding(crate::specs::Commands::command_of))]
pub fn read_command(line: &[u8]) -> Option<Result<Command, NoCommand>>
    ensures exact { result ≡ spec.command_of line.now }
    ensures ranges { IfSome result (λ answer. IfOk answer commands_proofs.IsCommandInRange) }
{
    let (name, operands) = next_word(line)?;
    let Some(verb) = verb_of(name) else {
        return Some(Err(NoCommand));
    };
    Some(command_named(verb, operands).ok_or(NoCommand))
}
