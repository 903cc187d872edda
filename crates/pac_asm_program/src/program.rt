//! A source as a whole.

ghost use Rattle.std.specs.Prelude.{◌≡◌, length};
ghost use Rattle.pac_asm_program.specs.Programs.{rom_size};

use crate::line::Line;
use crate::symbols::Symbols;
use std::alloc::Global;
use std::marker::Model;

/// What a source becomes: an entry for each of its lines, the symbols, and the program ROM.
#[derive(Drop)]
pub struct Program {
    lines: Vec<Line, Global>,
    symbols: Symbols,
    rom: Box<[u8; 16384], Global>,
}

impl Model for Program {
    ghost use Rattle.std.specs.Prelude.{◌≡◌, length};
    ghost use Rattle.pac_asm_program.specs.Programs.{Assembled, rom_size};

    ghost Value = { Assembled };

    ghost view = { λ program. record { lines = program.lines.items; symbols = program.symbols; rom = program.rom.value } };
}

impl Program {
    /// A program of these parts.
    pub fn new(lines: Vec<Line, Global>, symbols: Symbols, rom: Box<[u8; 16384], Global>) -> Program
        ensures { result ≡ record { lines = lines.items; symbols = symbols; rom = rom.value } }
    {
        Program {
            lines,
            symbols,
            rom,
        }
    }

    /// What each line of the source puts into the program, in their order.
    #[inline]
    pub fn lines(&self) -> &[Line]
        ensures { result.now ≡ self.now.lines }
    {
        &self.lines
    }

    /// The symbols, in the order of definition.
    #[inline]
    pub fn symbols(&self) -> &Symbols
        ensures { result.now ≡ self.now.symbols }
    {
        &self.symbols
    }

    /// The 16,384 bytes of the program ROM, 0 where no item is.
    #[inline]
    pub fn rom(&self) -> &[u8]
        ensures value { result.now ≡ self.now.rom }
        ensures size { length result.now ≡ rom_size }
    {
        &*self.rom
    }
}
