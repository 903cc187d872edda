//! The cells of memory that a step reads as data.

ghost use Rattle.std.specs.Prelude.{◌≡◌};
ghost use Rattle.pac_exec.specs.CellsReadProofs.{read_cells};
ghost use Rattle.pac_cpu.specs.StepReads as step;

use crate::once::{Once, StepKind};
use pac_exec::{DataReads, Regs, data_reads};
use pac_table::InterruptMode;

/// What an interrupt's acceptance reads, by the registers before it.
#[inline]
fn acceptance_reads(before: &Regs, vector: u8) -> DataReads
    ensures { read_cells result ≡ step.acceptance_reads before.now.mode before.now vector }
{
    match before.mode {
        InterruptMode::Zero | InterruptMode::One => DataReads::Nothing,
        InterruptMode::Two => DataReads::Word(256 * before.i as u16 + vector as u16),
    }
}

/// What a step of this kind reads, by the registers before it and the request that it was handed.
#[inline]
fn kind_reads(kind: &StepKind, before: &Regs, request: Option<u8>) -> DataReads
    ensures { read_cells result ≡ step.kind_reads kind.now before.now request }
{
    match (kind, request) {
        (StepKind::Ran(instr), _) => data_reads(instr, before),
        (StepKind::Accepted, Some(vector)) => acceptance_reads(before, vector),
        (StepKind::Accepted, None) | (StepKind::Halted, _) => DataReads::Nothing,
    }
}

impl Once {
    /// The cells of memory that the step read as data, by the registers before it and the request that it was handed. The code that it
    /// fetched is not among them, and what a stop tells isn't.
    #[inline]
    pub fn data_reads(&self, before: &Regs, request: Option<u8>) -> DataReads
        ensures { read_cells result ≡ step.reads_in self.now before.now request }
    {
        match self {
            Once::Stepped { kind, .. } => kind_reads(kind, before, request),
            Once::Stopped(_) => DataReads::Nothing,
        }
    }
}
