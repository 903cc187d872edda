//! What can be wrong with a manifest and the files that it names.

ghost use Rattle.std.specs.Prelude.{◌≡◌, Some};
ghost use Rattle.pac_roms_manifest.specs.declared.fault.SetError.TheVariants as errors;
ghost use Rattle.pac_roms_manifest.specs.Codes.{set_code_text, set_fault_text};
ghost use Rattle.pac_roms_manifest.specs.CodesProofs.{set_error_text};

use crate::part::PartName;
use std::alloc::AllocError;
use std::fmt;
use thiserror::Error;

/// What is wrong with a manifest or with a part of its set.
#[derive(Clone, Copy, Debug, PartialEq, Eq)]
pub enum ManifestCode {
    /// M1: the manifest is no TOML, or a key that it knows has a value of another form.
    Manifest,
    /// M2: there is no table for a part, or it names no file.
    Unnamed,
    /// M3: the file of a part has another size than the part.
    Size,
    /// M4: the file of a part has another digest than the manifest says.
    Digest,
    /// M5: there is no file of the name that the manifest gives for a part.
    Absent,
    /// M6: the manifest has a program and a source is assembled too.
    TwoPrograms,
}

/// The first fault of a ROM set: what is wrong, and with which part, where it is with one. Printed as `M4 tiles` or
/// as `M6`.
#[derive(Clone, Copy, Debug, PartialEq, Eq, Error)]
pub struct SetFault {
    /// What is wrong.
    pub code: ManifestCode,
    /// The part, which M1 and M6 have none of.
    pub part: Option<PartName>,
}

/// Why there is no ROM set, or no manifest.
#[derive(Clone, Copy, Debug, PartialEq, Eq, Error)]
pub enum SetError {
    /// Memory ran out.
    Memory,
    /// The set has a fault.
    Fault(SetFault),
}

impl fmt::Display for ManifestCode {
    ghost output = { λ code. Some (set_code_text code) };

    /// `M1` to `M6`.
    fn fmt<W: fmt::Write>(&self, f: &mut fmt::Formatter<W>) -> fmt::Result {
        match self {
            ManifestCode::Manifest => f.write_str("M1"),
            ManifestCode::Unnamed => f.write_str("M2"),
            ManifestCode::Size => f.write_str("M3"),
            ManifestCode::Digest => f.write_str("M4"),
            ManifestCode::Absent => f.write_str("M5"),
            ManifestCode::TwoPrograms => f.write_str("M6"),
        }
    }
}

impl fmt::Display for SetFault {
    ghost output = { λ fault. Some (set_fault_text fault) };

    /// The code and the part, if it is of one.
    fn fmt<W: fmt::Write>(&self, f: &mut fmt::Formatter<W>) -> fmt::Result {
        let code = self.code;
        match self.part {
            Some(part) => write!(f, "{code} {part}"),
            None => write!(f, "{code}"),
        }
    }
}

impl fmt::Display for SetError {
    ghost output = { λ error. Some (set_error_text error) };

    /// The fault, or that memory ran out.
    fn fmt<W: fmt::Write>(&self, f: &mut fmt::Formatter<W>) -> fmt::Result {
        match self {
            SetError::Memory => f.write_str("out of memory"),
            SetError::Fault(fault) => write!(f, "{fault}"),
        }
    }
}

impl From<AllocError> for SetError {
    ghost from_gives = { λ _ e. e ≡ errors.Memory };

    /// A refused allocation is want of memory.
    fn from(_error: AllocError) -> SetError {
        SetError::Memory
    }
}

impl From<SetFault> for SetError {
    ghost from_gives = { λ fault e. e ≡ errors.Fault fault };

    /// A fault of the set, as it is told.
    fn from(fault: SetFault) -> SetError {
        SetError::Fault(fault)
    }
}
