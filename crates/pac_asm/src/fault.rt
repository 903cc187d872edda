//! What can be wrong with a source.

ghost use Rattle.std.specs.Prelude.{◌≡◌, Some};
ghost use Rattle.pac_asm.specs.CodesProofs.{fault_of_token, own_code};
ghost use Rattle.pac_asm.specs.declared.fault.AsmError.TheVariants as errors;
ghost use Rattle.pac_asm.specs.declared.fault.LineError.TheVariants as line;
ghost use Rattle.pac_asm.specs.Errors.{error_of_line};

use pac_asm_line::ContentError;
use pac_asm_operation::OperationFault;
use pac_lex::LexError;
use std::alloc::{AllocError, AllocFailed};
use std::fmt;
use thiserror::Error;

/// What is wrong with a line of a source. Where several faults are in one source, A7 is told before all others;
/// then the first line that has one of A1 to A6, A12 to A14 or A10 in an ORG, EQU, DEFS or IF; then the first line that
/// has A8, A10 or A9.
#[derive(Clone, Copy, Debug, PartialEq, Eq)]
pub enum AsmCode {
    /// A1: something that is no token, with the code of what it is.
    Token(pac_lex::LexFault),
    /// A2: tokens that are no line of the language.
    Syntax,
    /// A3: a label or the name of an EQU that a line above defines.
    DefinedBefore,
    /// A4: a name in an ORG, EQU, DEFS size or IF that no line above defines.
    NotDefinedAbove,
    /// A5: an ORG or a DEFS size outside 0 to 4000H, or bytes past 3FFFH.
    OutsideRom,
    /// A6: a byte where a line above has one.
    Overlap,
    /// A7: more than 65,535 lines.
    TooManyLines,
    /// A8: a name that no line defines.
    Undefined,
    /// A9: a number outside the range of its place.
    OutOfRange,
    /// A10: arithmetic outside 32 bits, or a division by zero.
    Arithmetic,
    /// A12: an IF inside eight open ones.
    TooDeep,
    /// A13: an ELSE or ENDIF without an open IF, or a second ELSE.
    NoOpenIf,
    /// A14: an IF that is never closed.
    NeverClosed,
}

/// The first fault of a source: what is wrong, and in which line. Printed as `A6 line 10`.
#[derive(Clone, Copy, Debug, PartialEq, Eq, Error)]
pub struct AsmFault {
    /// What is wrong.
    pub code: AsmCode,
    /// The number of the line, from 1.
    pub line: u32,
}

/// Why a source became no program.
#[derive(Clone, Copy, Debug, PartialEq, Eq)]
pub enum AsmError {
    /// Memory ran out.
    Memory,
    /// The source has a fault.
    Fault(AsmFault),
}

impl fmt::Display for AsmCode {
    ghost use Rattle.pac_asm.specs.Codes.{asm_code_text};

    ghost output = { λ code. Some (asm_code_text code) };

    /// `A2`, or `A1 L3`.
    #[tactic(auto, using(crate::proofs::Coded::coded))]
    fn fmt<W: fmt::Write>(&self, f: &mut fmt::Formatter<W>) -> fmt::Result {
        match self.token_fault() {
            Some(fault) => write!(f, "A1 {fault}"),
            None => f.write_str(self.own_code()),
        }
    }
}

impl AsmCode {
    /// What is wrong with a token, if that is what is wrong.
    fn token_fault(&self) -> Option<pac_lex::LexFault>
        ensures { result ≡ fault_of_token self.now }
    {
        match self {
            AsmCode::Token(fault) => Some(*fault),
            _ => None,
        }
    }

    /// The code, without what is wrong with a token.
    fn own_code(&self) -> &'static str
        ensures { result.now ≡ own_code self.now }
    {
        match self {
            AsmCode::Token(_) => "A1",
            AsmCode::Syntax => "A2",
            AsmCode::DefinedBefore => "A3",
            AsmCode::NotDefinedAbove => "A4",
            AsmCode::OutsideRom => "A5",
            AsmCode::Overlap => "A6",
            AsmCode::TooManyLines => "A7",
            AsmCode::Undefined => "A8",
            AsmCode::OutOfRange => "A9",
            AsmCode::Arithmetic => "A10",
            AsmCode::TooDeep => "A12",
            AsmCode::NoOpenIf => "A13",
            AsmCode::NeverClosed => "A14",
        }
    }
}

impl fmt::Display for AsmFault {
    ghost use Rattle.pac_asm.specs.Codes.{asm_fault_text};

    ghost output = { λ fault. Some (asm_fault_text fault) };

    /// The code and the line.
    fn fmt<W: fmt::Write>(&self, f: &mut fmt::Formatter<W>) -> fmt::Result {
        let code = self.code;
        let line = self.line;
        write!(f, "{code} line {line}")
    }
}

impl From<AllocError> for AsmError {
    ghost from_gives = { λ _ e. e ≡ errors.Memory };

    /// A refused allocation is want of memory.
    fn from(_error: AllocError) -> AsmError {
        AsmError::Memory
    }
}

impl<T: Drop> From<AllocFailed<T>> for AsmError {
    ghost from_gives = { λ _ e. e ≡ errors.Memory };

    /// A refused allocation that hands back what found no room is want of memory too.
    fn from(_error: AllocFailed<T>) -> AsmError {
        AsmError::from(AllocError)
    }
}

/// Why a line can't be assembled.
#[derive(Clone, Copy)]
pub(crate) enum LineError {
    /// Memory ran out.
    Memory,
    /// The line has a fault.
    Code(AsmCode),
}

impl From<AllocError> for LineError {
    ghost from_gives = { λ _ e. e ≡ line.Memory };

    /// A refused allocation is want of memory.
    fn from(_error: AllocError) -> LineError {
        LineError::Memory
    }
}

impl From<AsmCode> for LineError {
    ghost from_gives = { λ code e. e ≡ line.Code code };

    /// A fault of the line, by its code.
    fn from(code: AsmCode) -> LineError {
        LineError::Code(code)
    }
}

impl From<LexError> for LineError {
    ghost use Rattle.pac_asm.specs.Errors.{error_of_tokens};

    ghost from_gives = { λ error e. e ≡ error_of_tokens error };

    /// A1, where the line isn't one of tokens.
    fn from(error: LexError) -> LineError {
        match error {
            LexError::Memory => LineError::Memory,
            LexError::Fault(fault) => LineError::Code(AsmCode::Token(fault)),
        }
    }
}

impl From<ContentError> for LineError {
    ghost use Rattle.pac_asm.specs.Errors.{error_of_content};

    ghost from_gives = { λ error e. e ≡ error_of_content error };

    /// A8, A10 or A9, where an expression has no number, or one outside its range.
    fn from(error: ContentError) -> LineError {
        match error {
            ContentError::Memory => LineError::Memory,
            ContentError::Fault(OperationFault::Undefined) => LineError::Code(AsmCode::Undefined),
            ContentError::Fault(OperationFault::Arithmetic) => LineError::Code(AsmCode::Arithmetic),
            ContentError::Fault(OperationFault::Range) => LineError::Code(AsmCode::OutOfRange),
        }
    }
}

impl LineError {
    /// The error with the number of its line.
    pub(crate) fn in_line(self, number: u32) -> AsmError
        ensures { result ≡ error_of_line self number }
    {
        match self {
            LineError::Memory => AsmError::Memory,
            LineError::Code(code) => AsmError::Fault(AsmFault { code, line: number }),
        }
    }
}
