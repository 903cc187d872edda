//! Why a run has no outcome.

ghost use Rattle.std.specs.Prelude.{◌≡◌, Some};
ghost use Rattle.pac_run.specs.declared.fault.RunFault.TheVariants.{NoMemory};

use pac_asm::AsmFault;
use pac_board_course::ScriptFault;
use pac_roms_manifest::SetFault;
use pac_state::LoadFault;
use std::alloc::AllocError;
use std::fmt;

/// The outputs of a run.
#[derive(Clone, Copy, Debug, PartialEq, Eq)]
pub enum Output {
    /// The images of the frames.
    Frames,
    /// The sound.
    Wave,
    /// The listing of the source.
    Listing,
    /// The report.
    Report,
    /// The state of the board at the run's end.
    State,
    /// What a debugger's session tells.
    Text,
}

impl fmt::Display for Output {
    ghost use Rattle.pac_run.specs.Names.{output_name};

    ghost output = { λ output. Some (output_name output) };

    /// The name of the output.
    fn fmt<W: fmt::Write>(&self, f: &mut fmt::Formatter<W>) -> fmt::Result {
        match self {
            Output::Frames => f.write_str("frames"),
            Output::Wave => f.write_str("wave"),
            Output::Listing => f.write_str("listing"),
            Output::Report => f.write_str("report"),
            Output::State => f.write_str("state"),
            Output::Text => f.write_str("text"),
        }
    }
}

/// Which output refused, and how much of it was taken.
#[derive(Clone, Copy)]
pub struct OutputFault {
    /// The output whose writer refused.
    pub output: Output,
    /// How many of its bytes the writer took before.
    pub count: u64,
}

/// Why no run can be taken up from a state file.
#[derive(Clone, Copy, Debug, PartialEq, Eq)]
pub enum StateFault {
    /// V1 to V6: it is no state file of the set.
    File(LoadFault),
    /// V7: the board stands in the midst of a frame: an output is due, or it isn't less than 32 T-states past a frame's blank.
    Midst,
    /// V8: the script has more frames than the board's time, or the microseconds that may be asked of it, have room for.
    Limit,
}

impl fmt::Display for StateFault {
    ghost use Rattle.pac_run.specs.StateCodes.{state_fault_text};

    ghost output = { λ fault. Some (state_fault_text fault) };

    /// The code of the fault.
    fn fmt<W: fmt::Write>(&self, f: &mut fmt::Formatter<W>) -> fmt::Result {
        match self {
            StateFault::File(fault) => write!(f, "{fault}"),
            StateFault::Midst => f.write_str("V7"),
            StateFault::Limit => f.write_str("V8"),
        }
    }
}

/// Why a run has no outcome. Refusals come in this order, and after one of the first four nothing is written.
#[derive(Clone, Copy, Debug, PartialEq, Eq)]
pub enum RunFault {
    /// The source has a fault.
    Source(AsmFault),
    /// The manifest, or the set that it names, has a fault.
    Set(SetFault),
    /// The script has a fault.
    Script(ScriptFault),
    /// The state file that the run was to begin with can't be taken up.
    State(StateFault),
    /// The writer of an output refused after this count of its bytes.
    Write(Output, u64),
    /// Memory ran out; nothing was written.
    NoMemory,
}

impl From<AllocError> for RunFault {
    ghost from_gives = { λ _ fault. fault ≡ NoMemory };

    /// A refused allocation is want of memory.
    fn from(_error: AllocError) -> RunFault {
        RunFault::NoMemory
    }
}
