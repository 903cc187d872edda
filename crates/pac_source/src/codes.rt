//! How a call for a source went, and the numbers that tell it.

ghost use Rattle.std.specs.Prelude.{◌≡◌};
ghost use Rattle.pac_source.specs.Codes as codes;

use pac_asm::{AsmCode, AsmFault};
use pac_lex::LexFault;

/// Why a source wasn't assembled. Then ROM and listing are as they were.
#[derive(Clone, Copy)]
pub enum SourceFault {
    /// The ROM has another length than 16,384 bytes.
    WrongLength,
    /// The listing has so many bytes, and there is less room.
    NoRoom(u64),
    /// Memory ran out.
    NoMemory,
    /// The source has a fault.
    Fault(AsmFault),
}

/// What is told of a source. What isn't to be told is 0.
#[repr(C)]
#[derive(Clone, Copy)]
pub struct PacTold {
    /// The bytes of its listing, where it is a program.
    pub listing: u64,
    /// The line of its fault, from 1.
    pub line: u32,
    /// The number of its fault: 1 to 10 and 12 to 14 for A1 to A10 and A12 to A14.
    pub fault: u16,
    /// What is no token, where the fault is A1: 1 to 4 for L1 to L4.
    pub token: u16,
}

/// The number that a call answers: 0 where it was done.
pub(crate) fn code(answer: Result<u64, SourceFault>) -> u32
    ensures { result ≡ codes.source_code answer }
{
    match answer {
        Ok(_) => 0,
        Err(SourceFault::WrongLength) => 1,
        Err(SourceFault::NoRoom(_)) => 4,
        Err(SourceFault::NoMemory) => 5,
        Err(SourceFault::Fault(_)) => 6,
    }
}

/// The number of what is no token.
fn token_number(fault: LexFault) -> u16
    ensures { result ≡ codes.lex_number fault }
{
    match fault {
        LexFault::NoToken => 1,
        LexFault::WrongNumber => 2,
        LexFault::OpenText => 3,
        LexFault::LongLine => 4,
    }
}

/// The number of a fault, and of what is no token where that is the fault.
fn numbers(code: AsmCode) -> (u16, u16)
    ensures number { result.0 ≡ codes.asm_number code }
    ensures token { result.1 ≡ codes.token_number code }
{
    match code {
        AsmCode::Token(fault) => (1, token_number(fault)),
        AsmCode::Syntax => (2, 0),
        AsmCode::DefinedBefore => (3, 0),
        AsmCode::NotDefinedAbove => (4, 0),
        AsmCode::OutsideRom => (5, 0),
        AsmCode::Overlap => (6, 0),
        AsmCode::TooManyLines => (7, 0),
        AsmCode::Undefined => (8, 0),
        AsmCode::OutOfRange => (9, 0),
        AsmCode::Arithmetic => (10, 0),
        AsmCode::TooDeep => (12, 0),
        AsmCode::NoOpenIf => (13, 0),
        AsmCode::NeverClosed => (14, 0),
    }
}

/// What is told of an answer.
pub(crate) fn told_of(answer: Result<u64, SourceFault>) -> PacTold
    ensures { result ≡ codes.answer_told answer }
{
    let (line, (fault, token)) = match answer {
        Err(SourceFault::Fault(fault)) => (fault.line, numbers(fault.code)),
        _ => (0, (0, 0)),
    };
    let listing = match answer {
        Ok(size) | Err(SourceFault::NoRoom(size)) => size,
        _ => 0,
    };
    PacTold {
        listing,
        line,
        fault,
        token,
    }
}

/// The bytes of a `PacTold` as C lays it out, in a host's memory: what a call for a source writes.
#[repr(C)]
#[derive(Drop)]
pub struct ToldBytes {
    /// Numbers with the low byte first.
    pub bytes: [u8; 16],
}

/// The bytes of what is told.
pub(crate) fn bytes_of(told: &PacTold) -> [u8; 16]
    ensures { result ≡ codes.told_bytes told.now }
{
    let [s0, s1, s2, s3, s4, s5, s6, s7] = told.listing.to_le_bytes();
    let [l0, l1, l2, l3] = told.line.to_le_bytes();
    let [fault, fault_high] = told.fault.to_le_bytes();
    let [token, token_high] = told.token.to_le_bytes();
    [
        s0, s1, s2, s3, s4, s5, s6, s7, l0, l1, l2, l3, fault, fault_high, token, token_high,
    ]
}
