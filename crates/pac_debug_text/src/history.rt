//! The lines of steps that were done.

ghost use Rattle.std.specs.Prelude.{◌≡◌};
ghost use Rattle.pac_out.specs.CountedProofs.{Puts};
ghost use Rattle.pac_out.specs.Pending.{Gathers};
ghost use Rattle.pac_debug_text.specs.Texts as text;

use crate::place::{code_text, halted_text};
use itoa::Buffer;
use pac_dis::{Text, hex_word};
use pac_out::counted::Counted;
use pac_out::pending::Pending;
use pac_out::{Out, WriteFault};

/// What a step was.
#[derive(Clone, Copy)]
pub enum Done {
    /// An instruction was run; these are the four bytes from PC on, of that moment.
    Ran([u8; 4]),
    /// A halted processor waited.
    Halted,
    /// An interrupt was accepted.
    Accepted,
}

/// A step that was done.
#[derive(Clone, Copy)]
pub struct HistoryLine {
    /// How many steps lie before it.
    pub index: u64,
    /// The program counter before it.
    pub pc: u16,
    /// What it was.
    pub done: Done,
}

/// What a step was, as text.
fn done_text(pc: u16, done: Done) -> Text
    ensures { result.bytes ≡ text.done_text pc done }
{
    match done {
        Done::Ran(code) => code_text(pc, code),
        Done::Halted => halted_text(),
        Done::Accepted => interrupt_text(),
    }
}

/// The text of an interrupt.
fn interrupt_text() -> Text
    ensures { result.bytes ≡ text.interrupt_text }
{
    let mut text = Text::new();
    text.push_str("INTERRUPT");
    text
}

/// Gathers the line of a step, as `12667 000C INTERRUPT`.
#[tactic(auto, unfolding(crate::specs::Texts::past_step_text))]
fn gather_past_step<W: Out>(
    pending: &mut Pending,
    output: &mut Counted<W>,
    step: HistoryLine,
) -> Result<(), WriteFault>
    ensures { Gathers W.took W.refused pending.old output.old (text.past_step_text step)
        result pending.new output.new }
{
    let mut index = Buffer::new();
    let done = done_text(step.pc, step.done);
    let pieces: [&[u8]; 6] = [
        index.format(step.index).as_bytes(),
        b" ",
        &hex_word(step.pc),
        b" ",
        done.as_bytes(),
        b"\n",
    ];
    pending.put_pieces(output, &pieces)
}

/// Gathers the lines of steps, in their order.
fn gather_history<W: Out>(
    pending: &mut Pending,
    output: &mut Counted<W>,
    steps: &[HistoryLine],
) -> Result<(), WriteFault>
    ensures { Gathers W.took W.refused pending.old output.old (text.history_text steps.now)
        result pending.new output.new }
{
    for step in steps {
        gather_past_step(pending, output, *step)?;
    }
    Ok(())
}

/// Writes the lines of steps, in their order: index and PC before the step, and its instruction's text, `HALTED` or
/// `INTERRUPT`.
pub fn put_history<W: Out>(output: &mut Counted<W>, steps: &[HistoryLine]) -> Result<(), WriteFault>
    ensures { Puts W.took W.refused output.old (text.history_text steps.now) result output.new }
{
    let mut pending = Pending::new();
    gather_history(&mut pending, output, steps)?;
    pending.flush(output)
}
