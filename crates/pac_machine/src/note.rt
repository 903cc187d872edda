//! What is noted of a step that is told.

ghost use Rattle.std.specs.Prelude.{◌≡◌};
ghost use Rattle.pac_machine.specs.BurstsProofs.{kind_found};
ghost use Rattle.pac_machine.specs.Trails.{kind_noted, step_noted};

use crate::trail::PastStep;
use pac_code::{Instr, decode};
use pac_cpu::StepKind;

/// What is known of a step before it's done.
#[derive(Clone, Copy)]
pub enum Known {
    /// The processor runs the instruction before which it stands.
    Runs,
    /// It is halted, and waits.
    Waits,
    /// It accepts an interrupt.
    Accepts,
}

/// A step as it is noted. An instruction is decoded where somebody asks for it, for most steps are forgotten before.
#[derive(Clone, Copy)]
pub struct Note {
    /// Its index in the run.
    pub index: u64,
    /// Where the processor stood before it.
    pub pc: u16,
    /// The four bytes from there on, before it.
    pub bytes: [u8; 4],
    /// What it was: where it ran an instruction, the one that the bytes begin with.
    pub known: Known,
}

/// The kind of a step that runs the instruction that was found, if one was.
fn kind_found(found: Option<(Instr, u8)>) -> StepKind
    ensures { result ≡ kind_found found }
{
    match found {
        Some((instr, _)) => StepKind::Ran(instr),
        None => StepKind::Halted,
    }
}

impl Note {
    /// What the step was.
    pub fn kind(&self) -> StepKind
        ensures { result ≡ kind_noted self.now.known self.now.bytes }
    {
        match self.known {
            Known::Runs => kind_found(decode(self.bytes)),
            Known::Waits => StepKind::Halted,
            Known::Accepts => StepKind::Accepted,
        }
    }

    /// The step.
    pub fn step(&self) -> PastStep
        ensures { result ≡ step_noted self.now }
    {
        let kind = self.kind();
        PastStep {
            index: self.index,
            pc: self.pc,
            kind,
        }
    }
}
