//! What one step of the processor comes to.

ghost use Rattle.std.specs.Prelude.{◌≡◌};
ghost use Rattle.pac_cpu.specs.StepRefresh.{kind_leaves_refresh};

use pac_exec::leaves_refresh;
use pac_table::Instr;

/// What one call of `step` did.
#[derive(Clone, Copy, PartialEq, Eq)]
pub enum Once {
    /// A step was done.
    Stepped {
        /// Its time in T-states, 4 to 23.
        ticks: u8,
        /// What it was.
        kind: StepKind,
    },
    /// Nothing was done, and nothing has changed.
    Stopped(Stop),
}

/// The kinds of a step.
#[derive(Clone, Copy, PartialEq, Eq)]
pub enum StepKind {
    /// An instruction, or one iteration of a repeating one.
    Ran(Instr),
    /// A halted processor waited.
    Halted,
    /// An interrupt was accepted.
    Accepted,
}

impl StepKind {
    /// Whether it ran an instruction that neither asks R nor changes it, of those by which programs wait.
    pub fn leaves_refresh(&self) -> bool
        ensures { result ≡ kind_leaves_refresh self.now }
    {
        match self {
            StepKind::Ran(instr) => leaves_refresh(instr.effect()),
            StepKind::Halted | StepKind::Accepted => false,
        }
    }
}

/// Why and where no step can be done.
#[derive(Clone, Copy, Debug, PartialEq, Eq)]
pub struct Stop {
    /// Where the processor stands.
    pub pc: u16,
    /// The four bytes from there on.
    pub bytes: [u8; 4],
    /// What is amiss.
    pub cause: Cause,
}

/// What stops the processor.
#[derive(Clone, Copy, Debug, PartialEq, Eq)]
pub enum Cause {
    /// S1: the bytes are no documented instruction.
    Opcode,
    /// S2: in mode 0 this vector byte is no RST.
    Vector(u8),
}
