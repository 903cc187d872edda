//! What can be wrong with a line.

ghost use Rattle.std.specs.Prelude.{◌≡◌, Some};
ghost use Rattle.pac_lex.specs.Codes.{lex_fault_code};
ghost use Rattle.pac_lex.specs.declared.fault.LexError.TheVariants as errors;

use std::alloc::{AllocError, AllocFailed};
use std::fmt;

/// What is wrong with a line: its length, or else the leftmost place that is no token.
#[derive(Clone, Copy, Debug, PartialEq, Eq)]
pub enum LexFault {
    /// L1: a byte that begins no token, or a byte in a text other than a tab or 20H to 7EH.
    NoToken,
    /// L2: a number with a wrong digit, or above 65,535.
    WrongNumber,
    /// L3: a text without its closing quote.
    OpenText,
    /// L4: a line of more than 255 bytes.
    LongLine,
}

/// Why a line has no tokens to show.
#[derive(Clone, Copy, Debug, PartialEq, Eq)]
pub enum LexError {
    /// No room for the list of tokens.
    Memory,
    /// The line isn't one of tokens.
    Fault(LexFault),
}

impl fmt::Display for LexFault {
    ghost output = { λ fault. Some (lex_fault_code fault) };

    /// The code: `L1` to `L4`.
    fn fmt<W: fmt::Write>(&self, f: &mut fmt::Formatter<W>) -> fmt::Result {
        f.write_str(self.code())
    }
}

impl LexFault {
    /// The code of the fault, as it is told.
    fn code(&self) -> &'static str
        ensures { result.now ≡ lex_fault_code self.now }
    {
        match self {
            LexFault::NoToken => "L1",
            LexFault::WrongNumber => "L2",
            LexFault::OpenText => "L3",
            LexFault::LongLine => "L4",
        }
    }
}

impl From<LexFault> for LexError {
    ghost from_gives = { λ fault e. e ≡ errors.Fault fault };

    fn from(fault: LexFault) -> LexError {
        LexError::Fault(fault)
    }
}

impl From<AllocError> for LexError {
    ghost from_gives = { λ _ e. e ≡ errors.Memory };

    fn from(_error: AllocError) -> LexError {
        LexError::Memory
    }
}

impl<T: Drop> From<AllocFailed<T>> for LexError {
    ghost from_gives = { λ _ e. e ≡ errors.Memory };

    fn from(_error: AllocFailed<T>) -> LexError {
        LexError::from(AllocError)
    }
}
