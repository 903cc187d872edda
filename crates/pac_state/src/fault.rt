//! Why a state file was not loaded.

ghost use Rattle.std.specs.Prelude.{◌≡◌, Some};
ghost use Rattle.pac_state.specs.Codes.{load_fault_text};

use pac_board::RomSet;
use std::fmt;
use thiserror::Error;

/// Why a state file gives no board.
#[derive(Clone, Copy, Debug, PartialEq, Eq, Error)]
pub enum LoadFault {
    /// V1: the file doesn't begin as a state file.
    NoState,
    /// V2: it has another version than 1 and 2.
    OtherVersion,
    /// V3: it has another size than 67,756 bytes.
    Size,
    /// V4: a field has a value that no board has, or that is written in another way.
    OutOfRange,
    /// V5: the digest at its end isn't that of the bytes before.
    Damaged,
    /// V6: it is of a board with another ROM set.
    OtherSet,
    /// There wasn't the memory for a board.
    NoMemory,
}

impl fmt::Display for LoadFault {
    ghost output = { λ fault. Some (load_fault_text fault) };

    /// The code of the fault.
    fn fmt<W: fmt::Write>(&self, f: &mut fmt::Formatter<W>) -> fmt::Result {
        f.write_str(self.code())
    }
}

impl LoadFault {
    /// The code of the fault, as it is told.
    fn code(&self) -> &'static str
        ensures { result.now ≡ load_fault_text self.now }
    {
        match self {
            LoadFault::NoState => "V1",
            LoadFault::OtherVersion => "V2",
            LoadFault::Size => "V3",
            LoadFault::OutOfRange => "V4",
            LoadFault::Damaged => "V5",
            LoadFault::OtherSet => "V6",
            LoadFault::NoMemory => "no memory",
        }
    }
}

/// A state file was not loaded; the ROM set comes back.
#[derive(Drop)]
pub struct LoadRefused {
    /// Why.
    pub fault: LoadFault,
    /// The set that was handed in.
    pub set: RomSet,
}
