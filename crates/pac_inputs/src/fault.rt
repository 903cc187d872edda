//! What can be wrong with a script.

ghost use Rattle.std.specs.Prelude.{◌≡◌, Some};
ghost use Rattle.pac_inputs.specs.Codes.{script_code_text};
ghost use Rattle.pac_inputs.specs.declared.fault.ScriptError.TheVariants as errors;

use std::alloc::AllocError;
use std::fmt;
use thiserror::Error;

/// What is wrong with a line of a script. Where several faults are in one line, the first in the order
/// I2, I1, I3 is told.
#[derive(Clone, Copy, Debug, PartialEq, Eq)]
pub enum ScriptCode {
    /// I1: the names are missing, one of them is unknown, or more follows them.
    Names,
    /// I2: the count of frames isn't a decimal number from 1 to 36,000.
    Count,
    /// I3: with this line the script has more than 36,000 frames.
    Length,
}

/// The first fault of a script: what is wrong, and in which line, counted from 1. Printed as `I2 line 7`.
#[derive(Clone, Copy, Debug, PartialEq, Eq, Error)]
pub struct ScriptFault {
    /// What is wrong.
    pub code: ScriptCode,
    /// The number of the line, from 1.
    pub line: u64,
}

/// Why there is no script.
#[derive(Clone, Copy, Debug, PartialEq, Eq, Error)]
pub enum ScriptError {
    /// No room for its lines.
    Memory,
    /// A line of it is wrong.
    Fault(ScriptFault),
}

impl fmt::Display for ScriptCode {
    ghost output = { λ code. Some (script_code_text code) };

    /// `I1`, `I2` or `I3`.
    fn fmt<W: fmt::Write>(&self, f: &mut fmt::Formatter<W>) -> fmt::Result {
        f.write_str(self.text())
    }
}

impl ScriptCode {
    /// The code, as it is told.
    fn text(&self) -> &'static str
        ensures { result.now ≡ script_code_text self.now }
    {
        match self {
            ScriptCode::Names => "I1",
            ScriptCode::Count => "I2",
            ScriptCode::Length => "I3",
        }
    }
}

impl fmt::Display for ScriptFault {
    ghost use Rattle.pac_inputs.specs.Codes.{script_fault_text};

    ghost output = { λ fault. Some (script_fault_text fault) };

    fn fmt<W: fmt::Write>(&self, f: &mut fmt::Formatter<W>) -> fmt::Result {
        let code = self.code;
        let line = self.line;
        write!(f, "{code} line {line}")
    }
}

impl fmt::Display for ScriptError {
    ghost use Rattle.pac_inputs.specs.CodesProofs.{script_error_text};

    ghost output = { λ error. Some (script_error_text error) };

    fn fmt<W: fmt::Write>(&self, f: &mut fmt::Formatter<W>) -> fmt::Result {
        match self {
            ScriptError::Memory => f.write_str("out of memory"),
            ScriptError::Fault(fault) => write!(f, "{fault}"),
        }
    }
}

impl From<AllocError> for ScriptError {
    ghost from_gives = { λ _ e. e ≡ errors.Memory };

    fn from(_error: AllocError) -> ScriptError {
        Self::Memory
    }
}
