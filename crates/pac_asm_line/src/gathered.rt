//! The bytes of a line, gathered from its operands.

ghost use Rattle.std.specs.Prelude.{◌≡◌, [], ◌∷◌, IfOk, Ok};
ghost use Rattle.pac_lex.specs.TextsProofs.{characters_of};
ghost use Rattle.pac_num.specs.Numbers.{low_byte, high_byte};
ghost use Rattle.pac_asm_line.specs.declared.gathered.ContentError.TheVariants as errors;
ghost use Rattle.pac_asm_line.specs.Contents.{joined_bytes, map_unless_fault};
ghost use Rattle.pac_asm_line.specs.Gathered.{ContentGives, gathered_so_far};

use pac_asm_operation::OperationFault;
use pac_lex::characters;
use pac_num::{high_byte, low_byte};
use std::alloc::{AllocError, AllocFailed, Global};

/// Why a line has no content.
#[derive(Clone, Copy, Debug, PartialEq, Eq)]
pub enum ContentError {
    /// No room for its bytes.
    Memory,
    /// A fault of an expression: of several the first in the order of `OperationFault`.
    Fault(OperationFault),
}

impl From<AllocError> for ContentError {
    ghost from_gives = { λ _ e. e ≡ errors.Memory };

    /// A refused allocation is want of memory.
    fn from(_error: AllocError) -> ContentError {
        ContentError::Memory
    }
}

impl<T: Drop> From<AllocFailed<T>> for ContentError {
    ghost from_gives = { λ _ e. e ≡ errors.Memory };

    /// A refused allocation that hands back what found no room is want of memory too.
    fn from(_error: AllocFailed<T>) -> ContentError {
        ContentError::from(AllocError)
    }
}

impl From<OperationFault> for ContentError {
    ghost from_gives = { λ fault e. e ≡ errors.Fault fault };

    /// The fault of an expression.
    fn from(fault: OperationFault) -> ContentError {
        ContentError::Fault(fault)
    }
}

/// The bytes of a line's operands so far, or the first of their faults. Bytes after a fault aren't kept.
#[derive(Drop)]
pub(crate) struct Gathered {
    bytes: Vec<u8, Global>,
    fault: Option<OperationFault>,
}

impl Gathered {
    /// Nothing yet, with room for so many bytes.
    pub(crate) fn new(alloc: Global, room: usize) -> Result<Gathered, AllocError>
        ensures { IfOk result (λ found. gathered_so_far found ≡ Ok []) }
    {
        Ok(Gathered {
            bytes: Vec::with_capacity(alloc, room)?,
            fault: None,
        })
    }

    /// Adds a byte, or its fault.
    pub(crate) fn put_byte(&mut self, byte: Result<u8, OperationFault>) -> Result<(), AllocError>
        ensures { IfOk result (λ _. gathered_so_far self.new
            ≡ joined_bytes (gathered_so_far self.old) (map_unless_fault (λ b. b ∷ []) byte)) }
    {
        match byte {
            Ok(byte) => self.push(byte),
            Err(fault) => {
                self.fail(fault);
                Ok(())
            }
        }
    }

    /// Like `put_byte`, for a word: low byte first.
    pub(crate) fn put_word(&mut self, word: Result<u16, OperationFault>) -> Result<(), AllocError>
        ensures { IfOk result
            (λ _. gathered_so_far self.new
            ≡ joined_bytes (gathered_so_far self.old)
            (map_unless_fault (λ w. low_byte w ∷ high_byte w ∷ []) word)) }
    {
        match word {
            Ok(word) => {
                self.push(low_byte(word))?;
                self.push(high_byte(word))
            }
            Err(fault) => {
                self.fail(fault);
                Ok(())
            }
        }
    }

    /// Adds the characters of a text, whose bytes stand here with their quotes.
    pub(crate) fn put_text(&mut self, alloc: Global, written: &[u8]) -> Result<(), AllocError>
        ensures { IfOk result (λ _. gathered_so_far self.new
            ≡ joined_bytes (gathered_so_far self.old) (Ok (characters_of written.now))) }
    {
        if self.fault.is_none() {
            self.bytes.extend_from_slice(&characters(alloc, written)?)?;
        }
        Ok(())
    }

    /// The bytes of all operands, or the first of their faults.
    pub(crate) fn finish(self) -> Result<Vec<u8, Global>, ContentError>
        ensures { ContentGives (λ v. v.items) result (gathered_so_far self) }
    {
        match self.fault {
            None => Ok(self.bytes),
            Some(fault) => Err(ContentError::Fault(fault)),
        }
    }

    /// Adds a byte, unless there is a fault.
    fn push(&mut self, byte: u8) -> Result<(), AllocError>
        ensures { IfOk result (λ _. gathered_so_far self.new
            ≡ joined_bytes (gathered_so_far self.old) (Ok (byte ∷ []))) }
    {
        if self.fault.is_none() {
            self.bytes.push(byte)?;
        }
        Ok(())
    }

    /// Adds a fault: of two the first in the order of `OperationFault` is kept.
    fn fail(&mut self, fault: OperationFault)
        ensures { gathered_so_far self.new ≡ joined_bytes (gathered_so_far self.old) (Err fault) }
    {
        self.fault = Some(match self.fault {
            None => fault,
            Some(other) => other.first(fault),
        });
    }
}
